//! The first datum of encoded data.

ghost use Rattle.std.specs.Prelude.{◌≡◌, ◌⊎◌, ℕ, [], List, OnErr, OnOk, IfOk, Err, option_copied, option_map};
ghost use Rattle.avro_schema.specs.SeenSchema.{schema_nodes};
ghost use Rattle.avro_device.specs.PutFront.{PutsFrontOf};
ghost use Rattle.avro_resolve.specs.declared.error.ReadResolveError.{ReadResolveError};
ghost use Rattle.avro_answer.specs.DataPut.{DatumPut};
ghost use Rattle.avro_answer.specs.DataRead.{IsDatumTold};
ghost use Rattle.avro_answer.specs.ReadAnswer.{IsAllFound};
ghost use Rattle.avro_tool.specs.DefaultLimits.{datum_limits};
ghost use Rattle.avro_tool.specs.FailsOnlyFor.{FailsOnlyFor};
ghost use Rattle.avro_tool.specs.FailureText.{data_failure, told_error, IsDataFailure};
ghost use Rattle.avro_tool.specs.FoundStatus.{finding_status};
ghost use Rattle.avro_tool.specs.declared.failure.Failure.TheVariants.{Data};

use crate::Finding;
use crate::failure::Failure;
use crate::files::container::open_file;
use crate::files::schema::{read_reader, read_schema_file};
use crate::files::texts::Texts;
use crate::request::Reading;
use avro_answer::{DataError, DataPlan, behind};
use avro_binary::{Nothing, ReadError, read_own};
use avro_device::Output;
use avro_resolve::ReadResolveError;
use avro_schema::{Limits, Memory, Schema};
use avro_schema_json::ReaderText;
use avro_show::Scratch;
use std::alloc::Global;
use std::io;
use std::io::BufRead;
use std::rt::Files;

/// The most bytes that one datum may take, as in a block of a container.
const MAX_DATUM: usize = 16_777_216;

/// So many bytes may be walked over in vain, besides twice those that there are.
const FREE: usize = 1_048_576;

/// Prints the first datum of the data in a file, after the bytes that are skipped, and its length in bytes; what follows
/// it is ignored.
pub(crate) fn read_file<'a, T: Texts, R: Files + AllocGlobal, O: Output>(
    texts: &T,
    rt: &R,
    asked: &Reading<'a>,
    out: &mut O,
) -> Result<Finding, Failure<'a>> {
    let writer = read_schema_file(texts, asked.writer)?;
    read_written(texts, rt, asked, &writer, out)
}

/// Reads the data of a writer's schema, for the reader's, which is read first.
fn read_written<'a, T: Texts, R: Files + AllocGlobal, O: Output>(
    texts: &T,
    rt: &R,
    asked: &Reading<'a>,
    writer: &Schema,
    out: &mut O,
) -> Result<Finding, Failure<'a>> {
    let reader = read_reader(texts, asked.reader)?;
    read_for(rt, asked, writer, reader.as_ref(), out)
}

/// Reads the data of a writer's schema for a reader's, where there is one.
fn read_for<'a, R: Files + AllocGlobal, O: Output>(
    rt: &R,
    asked: &Reading<'a>,
    writer: &Schema,
    reader: Option<&ReaderText>,
    out: &mut O,
) -> Result<Finding, Failure<'a>> {
    let most = MAX_DATUM + asked.skip as usize;
    let bytes = take_datum(rt, asked, writer, most)?;
    let is_cut = bytes.len() > most;
    let data = &bytes[..bytes.len().min(most)];
    tell_datum(rt.alloc(), asked, writer, reader, data, is_cut, out)
}

/// Prints the datum that data begin with, which may have been cut.
fn tell_datum<'a, O: Output>(
    alloc: Global,
    asked: &Reading<'a>,
    writer: &Schema,
    reader: Option<&ReaderText>,
    bytes: &[u8],
    is_cut: bool,
    out: &mut O,
) -> Result<Finding, Failure<'a>>
    ensures told { OnOk result ((text : List ℕ) × IsDatumTold (schema_nodes writer.now) (option_map (λ t. schema_nodes t.1) (option_copied reader.entry)) datum_limits
        asked.now.form asked.now.skip bytes.now text × O.keeps out.old text out.new) }
    ensures front { OnErr result (O.keeps out.old [] out.new ⊎ (text : List ℕ) × IsDatumTold (schema_nodes writer.now) (option_map (λ t. schema_nodes t.1) (option_copied reader.entry)) datum_limits
        asked.now.form asked.now.skip bytes.now text × PutsFrontOf O.keeps out.old out.new text) }
    ensures good { IfOk result (λ f. finding_status f ≡ 0) }
    ensures fails { FailsOnlyFor (IsDataFailure asked.now.data is_cut (IsAllFound (schema_nodes writer.now)
        (option_map (λ t. schema_nodes t.1) (option_copied reader.entry)) datum_limits asked.now.skip bytes.now)) O.failures O.stuck out.old out.new result }
    ensures refused { (e : ReadResolveError) → result ≡ Err (Data asked.now.data e) → O.keeps out.old [] out.new × (O.failures out.new ≡ O.failures out.old) }
{
    let plan = plan_of(alloc, writer, reader)?;
    match put_datum(alloc, asked, &plan, bytes, out) {
        Ok(()) => Ok(Finding::Good),
        Err(error) => Err(failure_of(asked.data, error, is_cut)),
    }
}

/// How the data are read.
fn plan_of<'a>(
    alloc: Global,
    writer: &'a Schema,
    reader: Option<&'a ReaderText>,
) -> Result<DataPlan<'a>, Memory>
    ensures written { IfOk result (λ p. p.0 ≡ writer.now) }
    ensures read { IfOk result (λ p. option_map schema_nodes p.1 ≡ option_map (λ t. schema_nodes t.1) (option_copied reader.entry)) }
{
    match reader {
        Some(reader) => DataPlan::new(alloc, writer, Some(reader.schema())),
        None => DataPlan::new(alloc, writer, None),
    }
}

/// The bytes of a file up to the end of its datum at least, or up to its end, or more than some. They are walked over after each
/// read, but for reads that would make the time of it more than proportional to their number.
fn take_datum<'a, R: Files + AllocGlobal>(
    rt: &R,
    asked: &Reading<'a>,
    writer: &Schema,
    most: usize,
) -> Result<Vec<u8>, Failure<'a>> {
    let mut file = open_file(rt, asked.data)?;
    let mut bytes = Vec::new(rt.alloc());
    let mut walked: usize = 0;
    for _ in 0..u64::MAX {
        let is_end = match append_next(&mut file, &mut bytes) {
            Ok(count) => count == 0,
            Err(e) => return Err(Failure::of_reading(asked.data, &e)),
        };
        if is_end || bytes.len() > most {
            break;
        }
        if walked / 2 > bytes.len().saturating_add(FREE) {
            continue;
        }
        if is_whole(rt.alloc(), asked, writer, &bytes)? {
            break;
        }
        walked = walked.saturating_add(bytes.len());
    }
    Ok(bytes)
}

/// Appends what a reader gives at its next read, and returns how many bytes.
fn append_next<B: BufRead>(reader: &mut B, bytes: &mut Vec<u8>) -> io::Result<usize> {
    let next = reader.fill_buf()?;
    let count = next.len();
    bytes.extend_from_slice(next)?;
    reader.consume(count);
    Ok(count)
}

/// Whether a datum does not end after these bytes of it: all of it is there, or its fault.
fn is_whole(
    alloc: Global,
    asked: &Reading<'_>,
    writer: &Schema,
    bytes: &[u8],
) -> Result<bool, Memory> {
    let skip = asked.skip as usize;
    if bytes.len() < skip {
        return Ok(false);
    }
    match read_own(
        alloc,
        writer,
        &bytes[skip..],
        &Limits::default(),
        &mut Nothing,
    ) {
        Err(ReadError::EndOfInput { .. }) => Ok(false),
        Err(ReadError::OutOfMemory) => Err(Memory),
        _ => Ok(true),
    }
}

/// Puts the text of the datum in data.
fn put_datum<O: Output>(
    alloc: Global,
    asked: &Reading<'_>,
    plan: &DataPlan<'_>,
    bytes: &[u8],
    out: &mut O,
) -> Result<(), DataError>
    ensures { DatumPut O.keeps O.failures O.stuck (schema_nodes plan.now.0) (option_map schema_nodes plan.now.1) datum_limits asked.now.form asked.now.skip bytes.now out.old out.new result }
{
    match behind(bytes, asked.skip as usize) {
        Ok(rest) => {
            let mut scratch = Scratch::new(alloc);
            plan.put(
                out,
                alloc,
                rest,
                &Limits::default(),
                asked.form,
                &mut scratch,
            )
        }
        Err(error) => Err(DataError::Refused(error)),
    }
}

/// The failure of data whose text is not put.
fn failure_of<'a>(word: &'a str, error: DataError, is_cut: bool) -> Failure<'a>
    ensures { result ≡ data_failure word.exit is_cut error }
{
    match error {
        DataError::Refused(error) => Failure::of_data(word, told_of(error, is_cut)),
        DataError::Put(error) => Failure::from(error),
    }
}

/// The error of data that may have been cut: where these end in the datum, a limit is exceeded.
fn told_of(error: ReadResolveError, is_cut: bool) -> ReadResolveError
    ensures { result ≡ told_error is_cut error }
{
    match error {
        ReadResolveError::Read(ReadError::EndOfInput { .. }) if is_cut => {
            ReadResolveError::Read(ReadError::LimitExceeded)
        }
        other => other,
    }
}
