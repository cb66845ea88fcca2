//! Reading a datum, and appending its plain encoding.

ghost use Rattle.std.specs.Prelude.{◌≡◌, ◌≤◌, true, length, take, IfOk, OnErr};
ghost use Rattle.std.specs.Result.{IfErr};
ghost use Rattle.std.specs.Option.{IfSome};
ghost use Rattle.avro_schema.specs.Fits.{is_within};
ghost use Rattle.avro_schema.specs.Node.{node_at};
ghost use Rattle.avro_schema.specs.SeenSchema.{schema_nodes};
ghost use Rattle.avro_schema.specs.Value.{Value};
ghost use Rattle.avro_cursor.specs.Breaks.{Breaks};
ghost use Rattle.avro_cursor.specs.Encoding.{Encodes, plain};
ghost use Rattle.avro_cursor.specs.Seen.{read_fault};
ghost use Rattle.avro_packed.specs.Appended.{AppendsWithin};

use crate::appending::Appending;
use avro_binary::{Place, ReadError, read_made};
use avro_schema::{Limits, Schema};
use std::alloc::Global;

/// Reads a datum of the root of the schema from the front of bytes, and appends its plain encoding to an output, unless this would then be
/// longer than `most` bytes. Returns whether it was appended, and the length of what was read. Past that limit, bytes are only counted.
/// The scratch is kept from datum to datum; its content between calls is unspecified.
///
/// # Errors
///
/// Those of [`avro_binary::decode`]; the output is unchanged.
pub fn append_read(
    alloc: Global,
    schema: &Schema,
    bytes: &[u8],
    limits: &Limits,
    most: usize,
    scratch: &mut Appending,
    out: &mut Vec<u8>,
) -> Result<(bool, usize), ReadError>
    ensures found { IfOk result (λ read. (v : Value) × AppendsWithin most out.old.items out.new.items (plain v) read.0 × (read.1 ≤ length bytes.now)
        × Encodes (schema_nodes schema.now) (node_at (schema_nodes schema.now) 0) v (take read.1 bytes.now) × (is_within limits.now v ≡ true)) }
    ensures unchanged { OnErr result (out.new.items ≡ out.old.items) }
    ensures refused { IfErr result (λ e. IfSome (read_fault e) (Breaks (schema_nodes schema.now) limits.now (node_at (schema_nodes schema.now) 0) bytes.now)) }
{
    scratch.restart(most.saturating_sub(out.len()), false);
    let root = schema.root();
    let (written, len) = read_made(alloc, schema, root, bytes, limits, scratch, Place::of(root))?;
    match scratch.append(written, most, out)? {
        Some(fits) => Ok((fits, len)),
        None => Err(ReadError::OutOfMemory),
    }
}
