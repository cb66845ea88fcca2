//! What is answered of encoded data.

ghost use Rattle.std.specs.Prelude.{◌≡◌, ◌<◌, length, codes, IfOk, IsErrOf, option_map, option_copied};
ghost use Rattle.std.specs.Option.{IfSome};
ghost use Rattle.std.specs.Result.{IfErr};
ghost use Rattle.avro_schema.specs.SeenSchema.{schema_nodes};
ghost use Rattle.avro_schema_json.specs.Declaration.{max_text};
ghost use Rattle.avro_schema_json.specs.declared.error.SchemaError.{SchemaError};
ghost use Rattle.avro_answer.specs.DataRead.{fault_found, IsDatumTold};
ghost use Rattle.avro_answer.specs.ReadAnswer.{DataAnswer, ReadAnswer, IsAllFound, IsReaderReadAs, AreSchemas, RefusesTexts};
ghost use Rattle.avro_answer.specs.inside.AtFront.{IsRefusalTold};
ghost use Rattle.avro_answer.specs.inside.Read.{RefusesReaderOf, IsReaderSchema};
ghost use Rattle.avro_answer.specs.declared.refusal.Refusal.TheVariants.{Writer, OutOfMemory};

use crate::answer::Answer;
use crate::data_plan::DataPlan;
use crate::datum_texts::{data_refusal, is_memory};
use crate::form::Form;
use crate::reading::{read_reader, read_writer};
use crate::refusal::Refusal;
use avro_binary::ReadError;
use avro_resolve::ReadResolveError;
use avro_schema::{Limits, Memory, Schema};
use avro_show::Scratch;
use std::alloc::Global;

/// Reads the datum at the start of data after `skip` bytes, whatever follows it, as what it is for a reader's schema if there is one, and
/// answers the length of its encoding and its display, in each form. There is only one answer.
///
/// # Errors
///
/// The first fault of the bytes, whose place counts from where the datum begins, and else the first fault of resolution;
/// `OutOfMemory`.
pub fn read_schemas(
    alloc: Global,
    writer: &Schema,
    reader: Option<&Schema>,
    bytes: &[u8],
    skip: usize,
    limits: &Limits,
    form: Form,
) -> Result<Vec<u8>, ReadResolveError>
    ensures read { IfOk result (λ text. IsDatumTold (schema_nodes writer.now) (option_map schema_nodes (option_copied reader.entry)) limits.now form skip bytes.now text.items) }
    ensures refused { IfErr result (λ e. IfSome (fault_found e) (IsAllFound (schema_nodes writer.now) (option_map schema_nodes (option_copied reader.entry)) limits.now skip bytes.now)) }
{
    match DataPlan::new(alloc, writer, reader) {
        Ok(plan) => plan.tell(alloc, bytes, skip, limits, form, &mut Scratch::new(alloc)),
        Err(_) => Err(ReadResolveError::Read(ReadError::OutOfMemory)),
    }
}

/// Reads data by the schemas of texts, as [`read_schemas`] does. The status is 0 after a datum, and 3 after data that are refused; the
/// line of those has the first fault, and names them `data`.
///
/// # Errors
///
/// The writer's text is refused, or else the reader's; memory ran out.
pub fn read_text(
    alloc: Global,
    writer: &[u8],
    reader: Option<&[u8]>,
    bytes: &[u8],
    skip: usize,
    limits: &Limits,
    form: Form,
) -> Result<Answer, Refusal>
    ensures answered { IfOk result (λ a. ReadAnswer writer.now (option_copied reader.entry) limits.now form skip bytes.now a.text.items a.status) }
    ensures too_long { max_text < length writer.now → IsErrOf result (Writer SchemaError.LimitExceeded) }
    ensures refused { IfErr result (RefusesTexts writer.now (option_copied reader.entry)) }
    ensures complete { AreSchemas writer.now (option_copied reader.entry) → IfErr result (λ e. e ≡ OutOfMemory) }
{
    let writer = read_writer(alloc, writer)?;
    let reader = read_reader_of(alloc, reader)?;
    Ok(answer_data(alloc, &writer, reader.as_ref(), bytes, skip, limits, form)?)
}

/// The schema of the reader's text, where there is one.
pub(crate) fn read_reader_of(alloc: Global, text: Option<&[u8]>) -> Result<Option<Schema>, Refusal>
    ensures found { IfOk result (λ schema. IsReaderReadAs (option_copied text.entry) (option_map schema_nodes schema)) }
    ensures refused { IfErr result (RefusesReaderOf (option_copied text.entry)) }
    ensures complete { IsReaderSchema (option_copied text.entry) → IfErr result (λ e. e ≡ OutOfMemory) }
{
    match text {
        Some(text) => match read_reader(alloc, text) {
            Ok(schema) => Ok(Some(schema)),
            Err(refusal) => Err(refusal),
        },
        None => Ok(None),
    }
}

/// What is answered of two schemas and of data.
fn answer_data(
    alloc: Global,
    writer: &Schema,
    reader: Option<&Schema>,
    bytes: &[u8],
    skip: usize,
    limits: &Limits,
    form: Form,
) -> Result<Answer, Memory>
    ensures { IfOk result (λ a. DataAnswer (schema_nodes writer.now) (option_map schema_nodes (option_copied reader.entry)) limits.now form skip bytes.now a.text.items a.status) }
{
    match read_schemas(alloc, writer, reader, bytes, skip, limits, form) {
        Ok(text) => Ok(Answer { text, status: 0 }),
        Err(error) => refuse_data(alloc, &error),
    }
}

/// What is answered of data that are refused.
fn refuse_data(alloc: Global, error: &ReadResolveError) -> Result<Answer, Memory>
    ensures { IfOk result (λ a. IsRefusalTold error.now a.text.items a.status) }
{
    if is_memory(error) {
        return Err(Memory);
    }
    let text = data_refusal(alloc, "data", error)?;
    Ok(Answer { text, status: 3 })
}
