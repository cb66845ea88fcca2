//! The parts of a datum that fails.

ghost use Rattle.std.specs.Prelude.{◌≡◌, ◌<◌, [], ◌∷◌, IfOk};
ghost use Rattle.avro_schema.specs.Node.{node_at};
ghost use Rattle.avro_schema.specs.Seen.{value_of, values_from};
ghost use Rattle.avro_schema.specs.SeenSchema.{schema_nodes};
ghost use Rattle.avro_schema.specs.Value.{Value, entry, no_entries};
ghost use Rattle.avro_least.specs.BuiltErrors.{part_value};

use crate::datum::least::as_index;
use avro_schema::{Datum, Memory, Node, NodeId, Schema};
use std::alloc::Global;

/// The bytes of a single byte.
pub(crate) fn one_byte(alloc: Global, byte: u8) -> Result<Datum, Memory>
    ensures { IfOk result (λ d. value_of d ≡ Value.bytes (byte ∷ [])) }
{
    let mut bytes: Vec<u8> = Vec::new(alloc);
    bytes.push(byte)?;
    Ok(Datum::Bytes(bytes))
}

/// The symbol at an index.
pub(crate) fn symbol(index: usize) -> Datum
    ensures { index < 4294967296 → value_of result ≡ Value.enum index }
{
    Datum::Enum(as_index(index))
}

/// An array of one item.
fn one_item(alloc: Global, value: Datum) -> Result<Datum, Memory>
    ensures { IfOk result (λ d. value_of d ≡ Value.array (values_from (value_of value ∷ []))) }
{
    let mut items = Vec::new(alloc);
    items.push(value)?;
    Ok(Datum::Array(items))
}

/// A map of one entry, with the empty key.
fn one_entry(alloc: Global, value: Datum) -> Result<Datum, Memory>
    ensures { IfOk result (λ d. value_of d ≡ Value.map_of (entry [] (value_of value) no_entries)) }
{
    let mut entries = Vec::new(alloc);
    entries.push((String::new(alloc), value))?;
    Ok(Datum::Map(entries))
}

/// A datum of an array or a map around one part: one item, or one entry with the empty key.
pub(crate) fn around_part(
    alloc: Global,
    writer: &Schema,
    w: NodeId,
    value: Datum,
) -> Result<Datum, Memory>
    ensures { IfOk result (λ d. value_of d ≡ part_value (node_at (schema_nodes writer.now) w.0) (value_of value)) }
{
    match writer.get(w) {
        Node::Map(_) => one_entry(alloc, value),
        _ => one_item(alloc, value),
    }
}
