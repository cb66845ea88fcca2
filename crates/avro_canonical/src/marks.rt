ghost use Rattle.std.specs.Prelude.{◌≡◌, true, false, slice_get, slice_set, unwrap_or, IfOk, []};
ghost use Rattle.avro_schema.specs.SeenSchema.{schema_nodes};
ghost use Rattle.avro_canonical.specs.inside.Pending.{marks_of};

use avro_schema::{Memory, NodeId, Schema};
use std::alloc::Global;

/// A mark for each node of a schema, none of them set.
pub(crate) fn no_marks(alloc: Global, schema: &Schema) -> Result<Vec<bool>, Memory>
    ensures { IfOk result (λ marks. marks.items ≡ marks_of [] (schema_nodes schema.now)) }
{
    let mut marks: Vec<bool> = Vec::new(alloc);
    for id in 0..schema.len() {
        marks.push(false)?;
    }
    Ok(marks)
}

/// Whether the mark of a node is set.
pub(crate) fn is_marked(marks: &[bool], id: NodeId) -> bool
    ensures { result ≡ unwrap_or (slice_get marks.now id.0) false }
{
    marks.get(id.0 as usize).copied().unwrap_or(false)
}

/// Sets the mark of a node.
pub(crate) fn mark(marks: &mut [bool], id: NodeId)
    ensures { marks.new ≡ slice_set marks.old id.0 true }
{
    if (id.0 as usize) < marks.len() {
        marks[id.0 as usize] = true;
    }
}
