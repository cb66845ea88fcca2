//! Reading a datum of a block, or walking over all data, and the errors of a datum.

ghost use Rattle.std.specs.Prelude.{◌≡◌, option_map, None, Some, IfOk, true};
ghost use Rattle.std.specs.Option.{IfSome};
ghost use Rattle.std.specs.Result.{IfErr};
ghost use Rattle.avro_schema.specs.SeenSchema.{schema_nodes};
ghost use Rattle.avro_schema.specs.Value.{Values};
ghost use Rattle.avro_cursor.specs.Fault.{behind};
ghost use Rattle.avro_cursor.specs.Seen.{read_fault};
ghost use Rattle.avro_file.specs.DatumRead.{FitsBehind, PlaceFits, error_fault, ReadsDatum};
ghost use Rattle.avro_file.specs.FileSeen.{file_fault};
ghost use Rattle.avro_file.specs.DataRead.{resolution, IsDataFault, reading};
ghost use Rattle.avro_file.specs.BlockFails.{DataAreWhole};
ghost use Rattle.avro_file.specs.NoBytes.{HasNoBytes};
ghost use Rattle.avro_file.specs.FileFault.{FileFault};

use crate::error::{CopyError, LimitPlace};
use crate::header::Header;
use crate::limits::FileLimits;
use avro_binary::{Build, Nothing, Place, ReadError, read_made, read_own};
use avro_resolve::{PlanRef, ReadResolveError};
use avro_schema::{Limits, Schema};
use std::alloc::Global;

/// The same error, with its offset moved by `start` bytes.
fn moved(error: ReadError, start: usize) -> ReadError
    requires fits { FitsBehind start error }
    ensures moved { read_fault result ≡ option_map (behind start) (read_fault error) }
{
    match error {
        ReadError::EndOfInput { place } => ReadError::EndOfInput {
            place: start + place,
        },
        ReadError::InvalidNumber { place } => ReadError::InvalidNumber {
            place: start + place,
        },
        ReadError::InvalidBoolean { place } => ReadError::InvalidBoolean {
            place: start + place,
        },
        ReadError::InvalidText { place } => ReadError::InvalidText {
            place: start + place,
        },
        ReadError::UnknownIndex { place } => ReadError::UnknownIndex {
            place: start + place,
        },
        ReadError::InvalidLength { place } => ReadError::InvalidLength {
            place: start + place,
        },
        ReadError::WrongBlockSize { place } => ReadError::WrongBlockSize {
            place: start + place,
        },
        ReadError::DuplicateKey { place } => ReadError::DuplicateKey {
            place: start + place,
        },
        ReadError::LimitExceeded => ReadError::LimitExceeded,
        ReadError::OutOfMemory => ReadError::OutOfMemory,
    }
}

/// The file's error when the datum that starts after `start` bytes of its block's data cannot be read.
pub fn datum_error(number: u64, datum: u32, start: usize, error: ReadResolveError) -> CopyError
    requires fits { PlaceFits start error }
    ensures fault { file_fault result ≡ error_fault number datum start error }
    ensures memory { file_fault result ≡ None → result ≡ CopyError.OutOfMemory }
{
    match error {
        ReadResolveError::Read(ReadError::OutOfMemory) => CopyError::OutOfMemory,
        ReadResolveError::Read(ReadError::LimitExceeded) => {
            CopyError::LimitExceeded(LimitPlace::Datum(number, datum))
        }
        ReadResolveError::Read(error) => {
            CopyError::InvalidDatum(number, datum, moved(error, start))
        }
        ReadResolveError::Resolve(fault) => CopyError::UnresolvedDatum(number, datum, fault),
    }
}

/// Reads a datum from the start of some bytes, by a plan if there is one.
pub(crate) fn read_by_plan<B: Build>(
    alloc: Global,
    schema: &Schema,
    plan: &Option<PlanRef<'_>>,
    bytes: &[u8],
    limits: &Limits,
    builder: &mut B,
) -> Result<(B::Out, usize), ReadResolveError>
    requires { IfSome plan.now (λ p. p.0 ≡ schema.now) }
    ensures { ReadsDatum B.stands_for (schema_nodes schema.now) limits.now (resolution (option_map (λ p. schema_nodes p.1) plan.now) (schema_nodes schema.now)) bytes.now result }
{
    match plan {
        Some(plan) => plan.read(alloc, bytes, limits, builder),
        None => match read_own(alloc, schema, bytes, limits, builder) {
            Ok(answer) => Ok(answer),
            Err(error) => Err(ReadResolveError::Read(error)),
        },
    }
}

/// Walks over the datum at the start of some bytes.
pub(crate) fn walk_datum(
    alloc: Global,
    schema: &Schema,
    bytes: &[u8],
    limits: &Limits,
) -> Result<((), usize), ReadResolveError>
    ensures { ReadsDatum (λ _ u. Unit {0}) (schema_nodes schema.now) limits.now (resolution None (schema_nodes schema.now)) bytes.now result }
{
    match read_made(
        alloc,
        schema,
        schema.root(),
        bytes,
        limits,
        &mut Nothing,
        Place::of(schema.root()),
    ) {
        Ok(answer) => Ok(answer),
        Err(error) => Err(ReadResolveError::Read(error)),
    }
}

/// Walks over the data of a block one by one, and returns whether one had no bytes. Each datum after
/// such a datum starts at the same byte and is the same, so the walk ends there.
///
/// # Errors
///
/// The first of `LimitExceeded` and `InvalidDatum`; `BytesLeft` after the last datum; `OutOfMemory`.
pub(crate) fn walk_data(
    alloc: Global,
    header: &Header,
    limits: &FileLimits,
    number: u64,
    count: u32,
    body: &[u8],
) -> Result<bool, CopyError>
    ensures found { IfOk result (λ _. (values : Values) × DataAreWhole
        (reading limits.now (schema_nodes header.now.schema) header.now.sync None) count body.now values) }
    ensures empty { IfOk result (λ empty. empty ≡ true → HasNoBytes (reading limits.now (schema_nodes header.now.schema) header.now.sync None)) }
    ensures refused { IfErr result (λ e. (f : FileFault) → file_fault e ≡ Some f → IsDataFault
        (reading limits.now (schema_nodes header.now.schema) header.now.sync None) number count body.now f) }
    ensures memory { IfErr result (λ e. file_fault e ≡ None → e ≡ CopyError.OutOfMemory) }
{
    let schema = header.schema();
    let datum_limits = limits.datum();
    let end = body.len();
    let mut empty = false;
    let mut start = 0;
    let mut datum = 0;
    while datum < count {
        let (_, rest) = body.split_at(start);
        match walk_datum(alloc, schema, rest, &datum_limits) {
            Ok((_, len)) => {
                if len == 0 {
                    empty = true;
                    datum = count;
                } else {
                    start += len;
                    datum += 1;
                }
            }
            Err(error) => return Err(datum_error(number, datum, start, error)),
        }
    }
    if start < end {
        return Err(CopyError::BytesLeft(number));
    }
    Ok(empty)
}
