//! Packing data one by one.

ghost use Rattle.std.specs.Prelude.{◌≡◌, ◌≤◌, None, Some, IfOk, IfNone, IfSome, length, take, []};
ghost use Rattle.std.specs.Result.{IfErr};
ghost use Rattle.avro_schema.specs.SeenSchema.{schema_nodes};
ghost use Rattle.avro_cursor.specs.Encoding.{plain};
ghost use Rattle.avro_packed.specs.Appended.{AppendsWithin};
ghost use Rattle.avro_container.specs.inside.BlockSeen.{reading_for};
ghost use Rattle.avro_container.specs.inside.DataPacked.{PacksData, PacksNext};
ghost use Rattle.avro_file.specs.DataRead.{IsDataFault, resolution};
ghost use Rattle.avro_file.specs.DatumRead.{ReadsDatum};
ghost use Rattle.avro_file.specs.NoBytes.{PacksNoBytes};
ghost use Rattle.avro_file.specs.FileFault.{FileFault};
ghost use Rattle.avro_file.specs.FileSeen.{file_fault};

use crate::copying::state::BlockTask;
use avro_file::{CopyError, LimitPlace, datum_error};
use avro_packed::{Appending, append_read, append_resolved};
use avro_resolve::{PlanRef, ReadResolveError};
use avro_schema::{Limits, Schema};
use std::alloc::Global;

/// Reads a datum from the start of some bytes, by the plan if there is one, and appends its plain encoding to the earlier
/// ones, unless they would be longer than a block may be. Returns whether it did, and the length of what was read.
fn pack_datum(
    alloc: Global,
    block: &BlockTask<'_>,
    limits: &Limits,
    bytes: &[u8],
    scratch: &mut Appending,
    packed: &mut Vec<u8>,
) -> Result<(bool, usize), ReadResolveError>
    ensures { limits.now ≡ (reading_for block.now).limits.datum → PacksNext (reading_for block.now) packed.old.items packed.new.items bytes.now result }
{
    let schema = block.header.schema();
    let most = block.task.limits.block() as usize;
    match &block.plan {
        Some(plan) => pack_resolved(alloc, plan, bytes, limits, most, scratch, packed),
        None => pack_read(alloc, schema, bytes, limits, most, scratch, packed),
    }
}

/// Reads a datum from the start of some bytes, and appends its plain encoding, unless the output would be longer than `most`
/// bytes. Returns whether it did, and the length of what was read.
fn pack_read(
    alloc: Global,
    schema: &Schema,
    bytes: &[u8],
    limits: &Limits,
    most: usize,
    scratch: &mut Appending,
    packed: &mut Vec<u8>,
) -> Result<(bool, usize), ReadResolveError>
    ensures { ReadsDatum (λ fits u. AppendsWithin most packed.old.items packed.new.items (plain u) fits) (schema_nodes schema.now) limits.now (resolution None (schema_nodes schema.now)) bytes.now result }
{
    match append_read(alloc, schema, bytes, limits, most, scratch, packed) {
        Ok((fits, len)) => Ok((fits, len)),
        Err(error) => Err(ReadResolveError::Read(error)),
    }
}

/// Reads a datum from the start of some bytes by a plan, and appends the plain encoding of what it resolves to, unless the output
/// would be longer than `most` bytes. Returns whether it did, and the length of what was read.
fn pack_resolved(
    alloc: Global,
    plan: &PlanRef<'_>,
    bytes: &[u8],
    limits: &Limits,
    most: usize,
    scratch: &mut Appending,
    packed: &mut Vec<u8>,
) -> Result<(bool, usize), ReadResolveError>
    ensures { ReadsDatum (λ fits u. AppendsWithin most packed.old.items packed.new.items (plain u) fits) (schema_nodes plan.now.0) limits.now (resolution (Some (schema_nodes plan.now.1)) (schema_nodes plan.now.0)) bytes.now result }
{
    match append_resolved(alloc, plan, bytes, limits, most, scratch, packed) {
        Ok((fits, len)) => Ok((fits, len)),
        Err(error) => Err(error),
    }
}

/// Reads the data of a block one by one, resolves them for the reader, and packs their plain encodings, up to the first datum
/// without bytes, whose plain encoding it keeps in `empty`: each further datum starts at the same byte and is the same. If
/// one is kept there already, none is read. It returns the number of data and bytes that it read.
///
/// # Errors
///
/// The first of `LimitExceeded`, `InvalidDatum` and `UnresolvedDatum`; `OutOfMemory`.
pub(crate) fn pack_each(
    block: &BlockTask<'_>,
    count: u32,
    body: &[u8],
    empty: &mut Option<Vec<u8>>,
    packed: &mut Vec<u8>,
) -> Result<(u32, usize), CopyError>
    requires none { packed.old.items ≡ [] }
    requires known { IfSome empty.old (λ unit. PacksNoBytes (reading_for block.now) unit.items) }
    ensures known { IfSome empty.new (λ unit. PacksNoBytes (reading_for block.now) unit.items) }
    ensures few { IfOk result (λ read. read.0 ≤ count) }
    ensures inside { IfOk result (λ read. read.1 ≤ length body.now) }
    ensures found { IfOk result (λ read. PacksData (reading_for block.now) read.0 (take read.1 body.now) packed.new.items) }
    ensures all { IfOk result (λ read. IfNone empty.new (read.0 ≡ count)) }
    ensures refused { IfErr result (λ e. (f : FileFault) → file_fault e ≡ Some f → IsDataFault (reading_for block.now) block.now.number count body.now f) }
    ensures memory { IfErr result (λ e. file_fault e ≡ None → e ≡ CopyError.OutOfMemory) }
{
    let alloc = *packed.allocator();
    let limits = block.task.limits.datum();
    let mut scratch = Appending::new(alloc);
    let mut start = 0;
    let mut datum = 0;
    while datum < count && empty.is_none() {
        let (_, rest) = body.split_at(start);
        let before = packed.len();
        match pack_datum(alloc, block, &limits, rest, &mut scratch, packed) {
            Ok((fits, len)) => {
                if !fits {
                    return Err(CopyError::LimitExceeded(LimitPlace::Block(block.number)));
                }
                start += len;
                datum += 1;
                if len == 0 {
                    let (_, unit) = packed.split_at(before);
                    let unit = Vec::from_slice(alloc, unit)?;
                    *empty = Some(unit);
                }
            }
            Err(error) => return Err(datum_error(block.number, datum, start, error)),
        }
    }
    Ok((datum, start))
}
