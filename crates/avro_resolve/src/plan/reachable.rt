ghost use Rattle.std.specs.Prelude.{IfOk};
ghost use Rattle.avro_schema.specs.SeenSchema.{schema_nodes};
ghost use Rattle.avro_compare.specs.Planned.{AreComparisons};

use crate::plan::known::Found;
use crate::plan::ordering::Parts;
use avro_compare::{Comparison, Names, compare};
use avro_schema::{Memory, NodeId, Schema};
use std::alloc::Global;

/// What a plan keeps of the pairs of nodes that the roots lead to, and the indices of the pairs of their parts.
/// The roots' pair is the first.
pub(crate) fn compare_reached(
    alloc: Global,
    writer: &Schema,
    reader: &Schema,
) -> Result<(Vec<Comparison>, Vec<Vec<u32>>), Memory>
    ensures { IfOk result (λ r. AreComparisons (schema_nodes writer.now) (schema_nodes reader.now) r.0.items) }
{
    let names = Names::new(alloc, writer, reader)?;
    compare_from_roots(alloc, &names)
}

/// The same by the tables of names.
fn compare_from_roots(
    alloc: Global,
    names: &Names,
) -> Result<(Vec<Comparison>, Vec<Vec<u32>>), Memory>
    ensures { IfOk result (λ r. AreComparisons (schema_nodes names.now.0) (schema_nodes names.now.1) r.0.items) }
{
    let (writer, reader) = (names.writer(), names.reader());
    let mut found = Found::new(alloc, names.seed());
    found.index_of(reader, writer.root(), reader.root())?;
    let mut found_parts = Parts::new(alloc);
    let mut kept = Vec::new(alloc);
    let mut parts = Vec::new(alloc);
    for _round in 0..most_pairs(writer, reader) {
        match found.pair(reader, kept.len()) {
            Some((w, r)) => {
                let comparison = compare(alloc, names, w, r)?;
                found_parts.find(names, &comparison)?;
                parts.push(add_found(alloc, reader, &found_parts.pairs, &mut found)?)?;
                kept.push(comparison)?;
            }
            None => return Ok((kept, parts)),
        }
    }
    Ok((kept, parts))
}

/// How many pairs of nodes there are.
fn most_pairs(writer: &Schema, reader: &Schema) -> usize {
    writer.len().saturating_mul(reader.len())
}

/// The indices of some pairs, each of which is found with it where it is new.
fn add_found(
    alloc: Global,
    reader: &Schema,
    pairs: &[(NodeId, NodeId)],
    found: &mut Found,
) -> Result<Vec<u32>, Memory> {
    let mut indices = Vec::with_capacity(alloc, pairs.len())?;
    for pair in pairs {
        indices.push(found.index_of(reader, pair.0, pair.1)?)?;
    }
    Ok(indices)
}
