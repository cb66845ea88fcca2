//! Writing data.

ghost use Rattle.std.specs.Prelude.{◌≡◌, ◌<◌, ◌^◌, ◌++◌, [], ◌∷◌, length, take, pos, OnOk, OnErr};
ghost use Rattle.std.specs.Result.{IsOkUnless};
ghost use Rattle.avro_schema.specs.Node.{node_at};
ghost use Rattle.avro_schema.specs.Seen.{value_of, values_of, entries_of};
ghost use Rattle.avro_schema.specs.SeenSchema.{schema_nodes};
ghost use Rattle.avro_schema.specs.Value.{Value};
ghost use Rattle.avro_zigzag.specs.Number.{number_bytes};
ghost use Rattle.avro_binary.specs.Encoded.{IsEncoded};
ghost use Rattle.avro_cursor.specs.Encoding.{plain, plain_bytes, plain_values, plain_entries};

use crate::encode_error::EncodeError;
use avro_schema::{Datum, Memory, NodeId, Schema, fits};
use avro_zigzag::write_long;
use std::alloc::{AllocError, Global};

/// Appends the plain encoding of a datum that fits a node: each array or map that is not empty is one block of positive count, and
/// each number has its shortest spelling (Avro 1.11, "Binary Encoding").
///
/// # Errors
///
/// `DoesNotFit` for exactly the data that do not fit the node, and `OutOfMemory`. The output is then unchanged.
pub fn encode(
    alloc: Global,
    schema: &Schema,
    node: NodeId,
    datum: &Datum,
    out: &mut Vec<u8>,
) -> Result<(), EncodeError>
    requires { node.0 < length (schema_nodes schema.now) }
    ensures { IsEncoded (schema_nodes schema.now) (node_at (schema_nodes schema.now) node.0) (value_of datum.now) out.old.items out.new.items result }
{
    match fits(alloc, schema, node, datum) {
        Ok(true) => append_datum(datum, out),
        Ok(false) => Err(EncodeError::DoesNotFit),
        Err(Memory) => Err(EncodeError::OutOfMemory),
    }
}

/// Appends the plain encoding of a datum, or nothing where memory runs out.
fn append_datum(datum: &Datum, out: &mut Vec<u8>) -> Result<(), EncodeError>
    ensures appended { OnOk result (out.new.items ≡ out.old.items ++ plain (value_of datum.now)) }
    ensures unchanged { OnErr result (out.new.items ≡ out.old.items) }
    ensures memory { IsOkUnless result EncodeError.OutOfMemory }
{
    append_plain(datum, out)?;
    Ok(())
}

/// Appends the plain encoding of a datum, whatever its type (Avro 1.11, "Binary Encoding").
///
/// # Errors
///
/// Memory ran out; the output is as it was.
pub fn append_plain(datum: &Datum, out: &mut Vec<u8>) -> Result<(), AllocError>
    ensures appended { OnOk result (out.new.items ≡ out.old.items ++ plain (value_of datum.now)) }
    ensures unchanged { OnErr result (out.new.items ≡ out.old.items) }
{
    let len = out.len();
    match write_datum(datum, out) {
        Ok(()) => Ok(()),
        Err(_) => {
            out.truncate(len);
            Err(AllocError)
        }
    }
}

/// Appends the plain encoding of a datum; where memory runs out, a part of it.
#[cycle(writing)]
fn write_datum(datum: &Datum, out: &mut Vec<u8>) -> Result<(), AllocError>
    ensures appended { OnOk result (out.new.items ≡ out.old.items ++ plain (value_of datum.now)) }
    ensures kept { take (length out.old.items) out.new.items ≡ out.old.items }
{
    match datum {
        Datum::Null => Ok(()),
        Datum::Bool(value) => write_boolean(*value, out),
        Datum::Int(value) => write_int(value, out),
        Datum::Long(value) => write_number(*value, out),
        Datum::Bytes(bytes) => write_bytes(bytes, out),
        Datum::Str(text) => write_bytes(text.as_bytes(), out),
        Datum::Array(items) => write_array(items, out),
        Datum::Map(entries) => write_map(entries, out),
        Datum::Union(branch, value) => {
            write_index(*branch, out)?;
            write_datum(value, out)
        }
        Datum::Record(values) => write_items(values, out),
        Datum::Enum(symbol) => write_index(*symbol, out),
        Datum::Fixed(bytes) => out.extend_from_slice(bytes),
    }
}

/// Appends a boolean.
fn write_boolean(value: bool, out: &mut Vec<u8>) -> Result<(), AllocError>
    ensures appended { OnOk result (out.new.items ≡ out.old.items ++ plain (Value.boolean value)) }
    ensures kept { take (length out.old.items) out.new.items ≡ out.old.items }
{
    out.push(u8::from(value))?;
    Ok(())
}

/// Appends an int.
fn write_int(value: &i32, out: &mut Vec<u8>) -> Result<(), AllocError>
    ensures appended { OnOk result (out.new.items ≡ out.old.items ++ number_bytes value.now) }
    ensures kept { take (length out.old.items) out.new.items ≡ out.old.items }
{
    write_number(i64::from(*value), out)
}

/// Appends a number.
fn write_number(value: i64, out: &mut Vec<u8>) -> Result<(), AllocError>
    ensures appended { OnOk result (out.new.items ≡ out.old.items ++ number_bytes value) }
    ensures kept { take (length out.old.items) out.new.items ≡ out.old.items }
{
    let (bytes, len) = write_long(value);
    push_each(&bytes[..len], out)
}

/// Appends a few bytes one by one, which takes less time than to copy them at once.
fn push_each(bytes: &[u8], out: &mut Vec<u8>) -> Result<(), AllocError>
    ensures appended { OnOk result (out.new.items ≡ out.old.items ++ bytes.now) }
    ensures kept { take (length out.old.items) out.new.items ≡ out.old.items }
{
    for byte in bytes {
        out.push(*byte)?;
    }
    Ok(())
}

/// Appends a length or the count of a block.
fn write_count(count: usize, out: &mut Vec<u8>) -> Result<(), AllocError>
    requires { count < 2 ^ 63 }
    ensures appended { OnOk result (out.new.items ≡ out.old.items ++ number_bytes (pos count)) }
    ensures kept { take (length out.old.items) out.new.items ≡ out.old.items }
{
    write_number(count as i64, out)
}

/// Appends the index of a branch or of a symbol.
fn write_index(index: u32, out: &mut Vec<u8>) -> Result<(), AllocError>
    ensures appended { OnOk result (out.new.items ≡ out.old.items ++ number_bytes (pos index)) }
    ensures kept { take (length out.old.items) out.new.items ≡ out.old.items }
{
    write_number(i64::from(index), out)
}

/// Appends a length and the bytes.
fn write_bytes(content: &[u8], out: &mut Vec<u8>) -> Result<(), AllocError>
    ensures appended { OnOk result (out.new.items ≡ out.old.items ++ plain_bytes content.now) }
    ensures kept { take (length out.old.items) out.new.items ≡ out.old.items }
{
    write_count(content.len(), out)?;
    out.extend_from_slice(content)
}

/// Appends the items of an array in one block, where there are some, and the end.
#[cycle(writing)]
fn write_array(items: &Vec<Datum>, out: &mut Vec<u8>) -> Result<(), AllocError>
    ensures appended { OnOk result (out.new.items ≡ out.old.items ++ plain (Value.array (values_of items.now.items))) }
    ensures kept { take (length out.old.items) out.new.items ≡ out.old.items }
{
    if !items.is_empty() {
        write_count(items.len(), out)?;
        write_items(items, out)?;
    }
    out.push(0)?;
    Ok(())
}

/// Appends data one after another.
#[cycle(writing)]
fn write_items(items: &[Datum], out: &mut Vec<u8>) -> Result<(), AllocError>
    ensures appended { OnOk result (out.new.items ≡ out.old.items ++ plain_values (values_of items.now)) }
    ensures kept { take (length out.old.items) out.new.items ≡ out.old.items }
{
    for item in items {
        write_datum(item, out)?;
    }
    Ok(())
}

/// Appends the entries of a map in one block, where there are some, and the end.
#[cycle(writing)]
fn write_map(entries: &Vec<(String, Datum)>, out: &mut Vec<u8>) -> Result<(), AllocError>
    ensures appended { OnOk result (out.new.items ≡ out.old.items ++ plain (Value.map_of (entries_of entries.now.items))) }
    ensures kept { take (length out.old.items) out.new.items ≡ out.old.items }
{
    if !entries.is_empty() {
        write_count(entries.len(), out)?;
        write_entries(entries, out)?;
    }
    out.push(0)?;
    Ok(())
}

/// Appends keys with their values one after another.
#[cycle(writing)]
fn write_entries(entries: &[(String, Datum)], out: &mut Vec<u8>) -> Result<(), AllocError>
    ensures appended { OnOk result (out.new.items ≡ out.old.items ++ plain_entries (entries_of entries.now)) }
    ensures kept { take (length out.old.items) out.new.items ≡ out.old.items }
{
    for entry in entries {
        write_bytes(entry.0.as_bytes(), out)?;
        write_datum(&entry.1, out)?;
    }
    Ok(())
}
