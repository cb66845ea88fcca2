ghost use Rattle.std.specs.Prelude.{◌<◌, length};
ghost use Rattle.avro_schema.specs.Node.{node_at};
ghost use Rattle.avro_schema.specs.SeenSchema.{schema_nodes};
ghost use Rattle.avro_binary.specs.Reading.{WalksExactly};

use crate::nothing::Nothing;
use crate::place::Place;
use crate::reading::read_at;
use avro_cursor::{Cursor, ReadError};
use avro_schema::{Limits, NodeId, Schema};
use std::alloc::Global;

/// Returns the length of the encoding that [`decode`](crate::decode) reads, and builds nothing. It takes memory only for the keys of
/// maps.
///
/// # Errors
///
/// Those of [`decode`](crate::decode).
pub fn walk(
    alloc: Global,
    schema: &Schema,
    node: NodeId,
    bytes: &[u8],
    limits: &Limits,
) -> Result<usize, ReadError>
    requires in_schema { node.0 < length (schema_nodes schema.now) }
    ensures { WalksExactly (schema_nodes schema.now) (node_at (schema_nodes schema.now) node.0) limits.now bytes.now result }
{
    // Its contract says that the schema is well formed, which the laws of faults ask for.
    let _count = schema.len();
    let mut cursor = Cursor::new(bytes, limits);
    let mut nothing = Nothing;
    read_at(
        alloc,
        schema,
        node,
        &mut cursor,
        &mut nothing,
        Place::of(node),
    )?;
    Ok(cursor.offset())
}
