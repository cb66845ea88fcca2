//! What is answered of several encoded data.

ghost use Rattle.std.specs.Prelude.{◌≡◌, ◌<◌, ◌++◌, ℕ, List, length, IfOk, IsErrOf, option_map, option_copied};
ghost use Rattle.std.specs.Result.{IfErr};
ghost use Rattle.avro_schema.specs.SeenSchema.{schema_nodes};
ghost use Rattle.avro_schema_json.specs.Declaration.{max_text};
ghost use Rattle.avro_schema_json.specs.declared.error.SchemaError.{SchemaError};
ghost use Rattle.avro_answer.specs.HistoryAnswer.{cut_texts};
ghost use Rattle.avro_answer.specs.ReadAnswer.{AreSchemas, RefusesTexts};
ghost use Rattle.avro_answer.specs.ReadsAnswer.{LinesRead, ReadsAnswer};
ghost use Rattle.avro_answer.specs.inside.AtFront.{IsFaultTold, IsLinePut};
ghost use Rattle.avro_answer.specs.declared.form.Form.{Form};
ghost use Rattle.avro_answer.specs.declared.refusal.Refusal.TheVariants.{Writer, OutOfMemory};

use crate::answer::Answer;
use crate::data_answers::read_reader_of;
use crate::data_plan::DataPlan;
use crate::datum_texts::{append_error, behind, is_memory};
use crate::form::Form;
use crate::history_texts::cut;
use crate::reading::read_writer;
use crate::refusal::Refusal;
use avro_resolve::ReadResolveError;
use avro_schema::{Limits, Memory, Schema};
use avro_show::Scratch;
use std::alloc::Global;

/// Reads a datum in each of several data, after `skip` bytes, as [`read_text`](crate::read_text) does, and answers a line of
/// JSON for each: what it says of a datum, or the fault. The data follow one another; their lengths are given, and a length
/// past the end is that of what is left. The status is 0 where each is read, and else 1. The schemas are read once.
///
/// # Errors
///
/// The writer's text is refused, or else the reader's; memory ran out.
pub fn read_texts(
    alloc: Global,
    writer: &[u8],
    reader: Option<&[u8]>,
    bytes: &[u8],
    lengths: &[usize],
    skip: usize,
    limits: &Limits,
) -> Result<Answer, Refusal>
    ensures answered { IfOk result (λ a. ReadsAnswer writer.now (option_copied reader.entry) limits.now skip (cut_texts bytes.now lengths.now) a.text.items a.status) }
    ensures too_long { max_text < length writer.now → IsErrOf result (Writer SchemaError.LimitExceeded) }
    ensures refused { IfErr result (RefusesTexts writer.now (option_copied reader.entry)) }
    ensures complete { AreSchemas writer.now (option_copied reader.entry) → IfErr result (λ e. e ≡ OutOfMemory) }
{
    let writer = read_writer(alloc, writer)?;
    let reader = read_reader_of(alloc, reader)?;
    Ok(answer_lines(
        alloc,
        &writer,
        reader.as_ref(),
        bytes,
        lengths,
        skip,
        limits,
    )?)
}

/// What is answered of two schemas and of several data.
fn answer_lines(
    alloc: Global,
    writer: &Schema,
    reader: Option<&Schema>,
    bytes: &[u8],
    lengths: &[usize],
    skip: usize,
    limits: &Limits,
) -> Result<Answer, Memory>
    ensures { IfOk result (λ a. LinesRead (schema_nodes writer.now) (option_map schema_nodes (option_copied reader.entry)) limits.now skip (cut_texts bytes.now lengths.now) a.text.items a.status) }
{
    let plan = DataPlan::new(alloc, writer, reader)?;
    answer_each(alloc, &plan, bytes, lengths, skip, limits)
}

/// The lines of several data.
fn answer_each(
    alloc: Global,
    plan: &DataPlan<'_>,
    bytes: &[u8],
    lengths: &[usize],
    skip: usize,
    limits: &Limits,
) -> Result<Answer, Memory>
    ensures { IfOk result (λ a. LinesRead (schema_nodes plan.now.0) (option_map schema_nodes plan.now.1) limits.now skip (cut_texts bytes.now lengths.now) a.text.items a.status) }
{
    let mut text = Vec::new(alloc);
    let mut status = 0;
    let mut scratch = Scratch::new(alloc);
    let mut rest = bytes;
    for index in 0..lengths.len() {
        let (part, others) = cut(rest, lengths[index]);
        let told = append_line(&mut text, alloc, plan, part, skip, limits, &mut scratch)?;
        status = told.max(status);
        rest = others;
    }
    Ok(Answer { text, status })
}

/// Appends the line of one of them, and returns its status.
fn append_line(
    text: &mut Vec<u8>,
    alloc: Global,
    plan: &DataPlan<'_>,
    bytes: &[u8],
    skip: usize,
    limits: &Limits,
    scratch: &mut Scratch,
) -> Result<u8, Memory>
    ensures { IfOk result (λ status. IsLinePut (schema_nodes plan.now.0) (option_map schema_nodes plan.now.1) limits.now skip bytes.now text.old.items text.new.items status) }
{
    match behind(bytes, skip) {
        Ok(data) => match plan.append(&mut *text, alloc, data, limits, Form::Json, scratch) {
            Ok(()) => Ok(0),
            Err(error) => append_fault_line(text, &error),
        },
        Err(error) => append_fault_line(text, &error),
    }
}

/// Appends the line of a fault, and returns its status.
fn append_fault_line(text: &mut Vec<u8>, error: &ReadResolveError) -> Result<u8, Memory>
    ensures { IfOk result (λ status. (line : List ℕ) × IsFaultTold error.now line status × (text.new.items ≡ text.old.items ++ line)) }
{
    if is_memory(error) {
        return Err(Memory);
    }
    text.extend_from_slice(b"{\"fault\":\"")?;
    append_error(text, error)?;
    text.extend_from_slice(b"\"}\n")?;
    Ok(1)
}
