//! The lines of a history.

ghost use Rattle.std.specs.Prelude.{◌≡◌, ◌==◌, ◌||◌, if◌then◌else◌, map, string_bytes, IfOk};
ghost use Rattle.avro_schema.specs.SeenSchema.{schema_nodes};
ghost use Rattle.avro_certificate.specs.CertificateText.{decimal};
ghost use Rattle.avro_answer.specs.HistoryAnswer.{LineAnswer, LineJson, LinesAnswer, LinesJson, LinesStatus, SchemasHistory, SchemasLines, SchemasStatus};
ghost use Rattle.avro_answer.specs.JudgeAnswer.{StatusAnswer};
ghost use Rattle.avro_answer.specs.declared.form.Form.{Form};

use crate::answer::Answer;
use crate::form::Form;
use crate::history::{judge_json_line, judge_line};
use avro_judge::JudgeLimits;
use avro_schema::{Memory, Schema};
use std::alloc::Global;

/// The lines of schemas, of which the last is the reader's.
pub(crate) fn judge_history(
    alloc: Global,
    schemas: &[Schema],
    limits: &JudgeLimits,
    form: Form,
) -> Result<Answer, Memory>
    ensures answered { IfOk result (λ a. form ≡ Form.Text → SchemasHistory (map schema_nodes schemas.now) limits.now a.text.items a.status) }
    ensures json { IfOk result (λ a. form ≡ Form.Json → SchemasLines (map schema_nodes schemas.now) limits.now a.text.items a.status) }
    ensures status { IfOk result (λ a. SchemasStatus (map schema_nodes schemas.now) limits.now a.status) }
{
    match schemas.split_last() {
        Some((reader, writers)) => judge_writers(alloc, writers, reader, limits, form),
        None => Ok(Answer {
            text: Vec::new(alloc),
            status: 0,
        }),
    }
}

/// The lines of several writers' schemas and of a reader's.
fn judge_writers(
    alloc: Global,
    writers: &[Schema],
    reader: &Schema,
    limits: &JudgeLimits,
    form: Form,
) -> Result<Answer, Memory>
    ensures answered { IfOk result (λ a. form ≡ Form.Text → LinesAnswer (map schema_nodes writers.now) (schema_nodes reader.now) limits.now a.text.items a.status) }
    ensures json { IfOk result (λ a. form ≡ Form.Json → LinesJson (map schema_nodes writers.now) (schema_nodes reader.now) limits.now a.text.items a.status) }
    ensures status { IfOk result (λ a. LinesStatus (map schema_nodes writers.now) (schema_nodes reader.now) limits.now a.status) }
{
    let mut text = Vec::new(alloc);
    let mut status = 0;
    for index in 0..writers.len() {
        let line = judge_numbered(alloc, index, &writers[index], reader, limits, form)?;
        text.extend_from_slice(&line.text)?;
        status = worse(status, line.status);
    }
    Ok(Answer { text, status })
}

/// The line of a writer's schema, by its number.
fn judge_numbered(
    alloc: Global,
    number: usize,
    writer: &Schema,
    reader: &Schema,
    limits: &JudgeLimits,
    form: Form,
) -> Result<Answer, Memory>
    ensures answered { IfOk result (λ a. form ≡ Form.Text → LineAnswer (decimal number) (schema_nodes writer.now) (schema_nodes reader.now) limits.now a.text.items a.status) }
    ensures json { IfOk result (λ a. form ≡ Form.Json → LineJson (decimal number) (schema_nodes writer.now) (schema_nodes reader.now) limits.now a.text.items a.status) }
    ensures status { IfOk result (λ a. StatusAnswer (schema_nodes writer.now) (schema_nodes reader.now) limits.now a.status) }
{
    let word = digits(alloc, number)?;
    match form {
        Form::Text => {
            let judged = judge_line(alloc, &word, writer, reader, limits)?;
            Ok(judged.answer)
        }
        Form::Json => {
            let judged = judge_json_line(alloc, &word, None, writer, reader, limits)?;
            Ok(judged.answer)
        }
    }
}

/// The digits of a number.
fn digits(alloc: Global, number: usize) -> Result<String, Memory>
    ensures { IfOk result (λ text. string_bytes text ≡ decimal number) }
{
    Ok(format!(in alloc; "{number}")?)
}

/// The status of two verdicts: a no outranks an undecided, which outranks a yes.
fn worse(status: u8, other: u8) -> u8
    ensures { result ≡ (if status == 1 || other == 1 then 1 else (if status == 2 || other == 2 then 2 else 0)) }
{
    if status == 1 || other == 1 {
        1
    } else if status == 2 || other == 2 {
        2
    } else {
        0
    }
}
