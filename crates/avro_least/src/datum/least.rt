//! Builds a least datum from the table of least data.

ghost use Rattle.std.specs.Prelude.{◌≡◌, ◌<◌, ℕ, true, IfOk, Some, slice_get, is_some, map};
ghost use Rattle.std.proofs.Math.ListN.{replicate};
ghost use Rattle.avro_schema.specs.Seen.{value_of, values_from, node_of, ids_of, seen_fields};
ghost use Rattle.avro_least.specs.Tables.{best_of};
ghost use Rattle.avro_least.specs.SeenLeast.{seen, table_of};
ghost use Rattle.avro_schema.specs.Value.{Value};
ghost use Rattle.avro_least.specs.inside.Leaf.{leaf_value};
ghost use Rattle.avro_schema.specs.Node.{Node as SeenNode};
ghost use Rattle.avro_schema.specs.SeenSchema.{schema_nodes};
ghost use Rattle.avro_least.specs.inside.Built.{Builds, BuildsAt, BuildsRecord};

use crate::filled::filled;
use crate::kept::Least;
use crate::nodes::least::{best_of, entry};
use avro_schema::{Datum, Field, Memory, Node, NodeId, Schema};
use std::alloc::Global;

/// Whether two entries are equal.
pub(crate) fn are_same(a: Option<Least>, b: Option<Least>) -> bool
    ensures same { result ≡ true → seen a ≡ seen b }
    ensures told { seen a ≡ seen b → result ≡ true }
{
    match a {
        None => b.is_none(),
        Some(x) => match b {
            None => false,
            Some(y) => x.nodes == y.nodes && x.depth == y.depth,
        },
    }
}

/// The index of the first id whose entry is the best.
fn best_index(table: &[Option<Least>], ids: &[NodeId]) -> usize
    ensures { is_some (best_of (table_of table.now) (ids_of ids.now)) ≡ true
        → (p : ℕ) × (slice_get (ids_of ids.now) result ≡ Some p) × (table_of table.now p ≡ best_of (table_of table.now) (ids_of ids.now)) }
{
    let best = best_of(table, ids);
    for i in 0..ids.len() {
        if are_same(entry(table, ids[i]), best) {
            return i;
        }
    }
    0
}

/// A fixed of `count` zeros.
fn fixed(alloc: Global, count: u32) -> Result<Datum, Memory>
    ensures { IfOk result (λ d. value_of d ≡ Value.fixed (replicate count 0)) }
{
    Ok(Datum::Fixed(filled(alloc, count as usize, 0)?))
}

/// The least datum of a node without parts.
fn leaf(alloc: Global, node: &Node) -> Result<Datum, Memory>
    ensures { IfOk result (λ d. value_of d ≡ leaf_value (node_of node.now)) }
{
    match node {
        Node::Null => Ok(Datum::Null),
        Node::Boolean => Ok(Datum::Bool(false)),
        Node::Int => Ok(Datum::Int(0)),
        Node::Long => Ok(Datum::Long(0)),
        Node::Bytes => Ok(Datum::Bytes(Vec::new(alloc))),
        Node::Str => Ok(Datum::Str(String::new(alloc))),
        Node::Array(_) => Ok(Datum::Array(Vec::new(alloc))),
        Node::Map(_) => Ok(Datum::Map(Vec::new(alloc))),
        Node::Union(_) => Ok(Datum::Null),
        Node::Record(_) => Ok(Datum::Null),
        Node::Enum(_) => Ok(Datum::Enum(0)),
        Node::Fixed(f) => fixed(alloc, f.size),
    }
}

/// An index as a datum holds it. No union or enum has an index over `u32::MAX`.
pub(crate) fn as_index(k: usize) -> u32
    ensures { k < 4294967296 → result ≡ k }
{
    match u32::try_from(k) {
        Ok(index) => index,
        Err(_) => u32::MAX,
    }
}

/// A value in the branch of a union at an index.
pub(crate) fn wrap(alloc: Global, k: usize, value: Datum) -> Result<Datum, Memory>
    ensures { IfOk result (λ d. k < 4294967296 → value_of d ≡ Value.union k (value_of value)) }
{
    let value = Box::new(alloc, value)?;
    Ok(Datum::Union(as_index(k), value))
}

/// The id at an index, or 0 past the end.
pub(crate) fn id_at(ids: &[NodeId], k: usize) -> NodeId
    ensures { (p : ℕ) → slice_get (ids_of ids.now) k ≡ Some p → result.0 ≡ p }
{
    match ids.get(k) {
        None => NodeId(0),
        Some(id) => *id,
    }
}

/// The record of these values.
pub(crate) fn make_record(values: Vec<Datum>) -> Datum
    ensures { value_of result ≡ Value.record_of (values_from (map value_of values.items)) }
{
    Datum::Record(values)
}

/// Builds a least datum of a node. Its entry has at most `left` nodes; at 0 a null stands in for it.
#[cycle(build)]
pub(crate) fn build(
    alloc: Global,
    schema: &Schema,
    table: &[Option<Least>],
    id: NodeId,
    left: u32,
) -> Result<Datum, Memory>
    ensures { IfOk result (λ d. Builds (schema_nodes schema.now) (table_of table.now) left id.0 (value_of d)) }
{
    if left == 0 {
        return Ok(Datum::Null);
    }
    match schema.get(id) {
        Node::Union(ids) => {
            let value = build_branch(alloc, schema, table, ids, left - 1)?;
            Ok(value)
        }
        Node::Record(record) => {
            let value = build_record(alloc, schema, table, &record.fields, left - 1)?;
            Ok(value)
        }
        node => {
            let value = leaf(alloc, node)?;
            Ok(value)
        }
    }
}

/// Builds a least datum of a union.
#[cycle(build)]
fn build_branch(
    alloc: Global,
    schema: &Schema,
    table: &[Option<Least>],
    ids: &[NodeId],
    left: u32,
) -> Result<Datum, Memory>
    ensures { IfOk result (λ d. BuildsAt (schema_nodes schema.now) (table_of table.now) left (SeenNode.union (ids_of ids.now)) (value_of d)) }
{
    let k = best_index(table, ids);
    let value = build(alloc, schema, table, id_at(ids, k), left)?;
    let whole = wrap(alloc, k, value)?;
    Ok(whole)
}

/// Builds a least datum of a record.
#[cycle(build)]
fn build_record(
    alloc: Global,
    schema: &Schema,
    table: &[Option<Least>],
    fields: &[Field],
    left: u32,
) -> Result<Datum, Memory>
    ensures { IfOk result (λ d. BuildsRecord (schema_nodes schema.now) (table_of table.now) left (seen_fields fields.now) (value_of d)) }
{
    let mut values = Vec::new(alloc);
    for i in 0..fields.len() {
        let value = build(alloc, schema, table, fields[i].node, left)?;
        values.push(value)?;
    }
    Ok(make_record(values))
}
