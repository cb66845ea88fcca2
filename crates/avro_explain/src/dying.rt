//! The nodes of a writer's schema that no datum has.

ghost use Rattle.std.specs.Prelude.{◌≡◌, IfOk, is_none, map};
ghost use Rattle.avro_schema.specs.SeenSchema.{schema_nodes};
ghost use Rattle.avro_certificate.specs.Closed.{is_among};
ghost use Rattle.avro_certificate.specs.Evidence.{IsGreatestDead};
ghost use Rattle.avro_explain.specs.Places.{marked};

use avro_least::{Least, least_data};
use avro_schema::{Memory, NodeId, Schema};
use std::alloc::Global;

/// Whether each node is dead: a record with a field that is dead, or a union of dead branches. These are the nodes
/// without a least datum, whatever its size, so the limit of the table is 0.
pub(crate) fn dead_nodes(alloc: Global, writer: &Schema) -> Result<Vec<bool>, Memory>
    ensures { IfOk result (λ marks. IsGreatestDead (schema_nodes writer.now) (marked marks.items)) }
{
    let table = least_data(alloc, writer, 0)?;
    let marks = marks_of(alloc, &table)?;
    Ok(marks)
}

/// A mark for each entry that is none.
fn marks_of(alloc: Global, table: &[Option<Least>]) -> Result<Vec<bool>, Memory>
    ensures { IfOk result (λ marks. marks.items ≡ map is_none table.now) }
{
    let mut marks = Vec::new(alloc);
    for entry in table {
        marks.push(entry.is_none())?;
    }
    Ok(marks)
}

/// Whether a node is marked.
pub(crate) fn is_marked(marks: &[bool], id: NodeId) -> bool
    ensures { result ≡ is_among (marked marks.now) id.0 }
{
    match marks.get(id.0 as usize) {
        None => false,
        Some(mark) => *mark,
    }
}
