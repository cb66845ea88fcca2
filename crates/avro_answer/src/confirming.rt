ghost use Rattle.std.specs.Prelude.{◌≡◌, ◌<◌, true, false, length, codes, IfOk, IsErrOf};
ghost use Rattle.std.specs.Result.{IfErr};
ghost use Rattle.avro_schema.specs.SeenSchema.{schema_nodes};
ghost use Rattle.avro_schema_json.specs.Declaration.{max_text};
ghost use Rattle.avro_schema_json.specs.declared.error.SchemaError.{SchemaError};
ghost use Rattle.avro_certificate.specs.SeenCertificate.{dead_of, pairs_in};
ghost use Rattle.avro_answer.specs.ConfirmAnswer.{SetsAnswer, SetsStatus, SetsJson, ConfirmAnswer, ConfirmJson, ConfirmStatus, HasCertificate, RefusesOneOf};
ghost use Rattle.avro_answer.specs.JsonAnswer.{json_line, confirmed_tree};
ghost use Rattle.avro_answer.specs.RefusalText.{HaveSchemas};
ghost use Rattle.avro_answer.specs.declared.form.Form.{Form};
ghost use Rattle.avro_answer.specs.declared.refusal.Refusal.TheVariants.{Writer, OutOfMemory};

use crate::answer::Answer;
use crate::form::Form;
use crate::json_answers::confirmed_line;
use crate::reading::{read_certificate, read_reader, read_writer};
use crate::refusal::Refusal;
use avro_certificate::Certificate;
use avro_judge::confirm;
use avro_schema::{Memory, Schema};
use std::alloc::{AllocError, Global};

/// Says whether a certificate confirms two schemas, which it does if and only if its sets are closed: `confirmed` with status 0, otherwise
/// `not confirmed` with status 1. With JSON output it is the line of JSON of that.
///
/// # Errors
///
/// Memory ran out.
pub fn confirm_schemas(
    alloc: Global,
    writer: &Schema,
    reader: &Schema,
    certificate: &Certificate,
    form: Form,
) -> Result<Answer, Memory>
    ensures answered { IfOk result (λ a. form ≡ Form.Text → SetsAnswer (schema_nodes writer.now) (schema_nodes reader.now) (dead_of certificate.now) (pairs_in certificate.now) a.text.items a.status) }
    ensures json { IfOk result (λ a. form ≡ Form.Json → SetsJson (schema_nodes writer.now) (schema_nodes reader.now) (dead_of certificate.now) (pairs_in certificate.now) a.text.items) }
    ensures status { IfOk result (λ a. SetsStatus (schema_nodes writer.now) (schema_nodes reader.now) (dead_of certificate.now) (pairs_in certificate.now) a.status) }
{
    let is_confirmed = confirm(alloc, writer, reader, certificate)?.is_some();
    Ok(answer_confirmed(alloc, is_confirmed, form)?)
}

/// The answer `confirmed` with status 0, or `not confirmed` with status 1, or the line of JSON of that.
///
/// # Errors
///
/// Memory ran out.
pub fn answer_confirmed(alloc: Global, is_confirmed: bool, form: Form) -> Result<Answer, AllocError>
    ensures yes { IfOk result (λ a. is_confirmed ≡ true → a.status ≡ 0) }
    ensures no { IfOk result (λ a. is_confirmed ≡ false → a.status ≡ 1) }
    ensures yes_text { IfOk result (λ a. form ≡ Form.Text → is_confirmed ≡ true → a.text.items ≡ codes "confirmed\n") }
    ensures json { IfOk result (λ a. form ≡ Form.Json → a.text.items ≡ json_line (confirmed_tree is_confirmed)) }
    ensures no_text { IfOk result (λ a. form ≡ Form.Text → is_confirmed ≡ false → a.text.items ≡ codes "not confirmed\n") }
{
    let text = match form {
        Form::Json => confirmed_line(alloc, is_confirmed)?.into_bytes(),
        Form::Text => Vec::from_slice(alloc, confirmed_text(is_confirmed).as_bytes())?,
    };
    let status = if is_confirmed { 0 } else { 1 };
    Ok(Answer { text, status })
}

/// The text of what a certificate confirms, or does not confirm.
fn confirmed_text(is_confirmed: bool) -> &'static str
    ensures yes { is_confirmed ≡ true → result.now ≡ codes "confirmed\n" }
    ensures no { is_confirmed ≡ false → result.now ≡ codes "not confirmed\n" }
{
    if is_confirmed {
        "confirmed\n"
    } else {
        "not confirmed\n"
    }
}

/// Says whether the certificate of a text confirms the schemas of two, as [`confirm_schemas`] does.
///
/// # Errors
///
/// The first text that is refused: the writer's, the reader's, the certificate; memory ran out.
pub fn confirm_text(
    alloc: Global,
    writer: &[u8],
    reader: &[u8],
    certificate: &[u8],
    form: Form,
) -> Result<Answer, Refusal>
    ensures answered { IfOk result (λ a. form ≡ Form.Text → ConfirmAnswer writer.now reader.now certificate.now a.text.items a.status) }
    ensures json { IfOk result (λ a. form ≡ Form.Json → ConfirmJson writer.now reader.now certificate.now a.text.items a.status) }
    ensures status { IfOk result (λ a. ConfirmStatus writer.now reader.now certificate.now a.status) }
    ensures too_long { max_text < length writer.now → IsErrOf result (Writer SchemaError.LimitExceeded) }
    ensures refused { IfErr result (RefusesOneOf writer.now reader.now certificate.now) }
    ensures complete { HaveSchemas writer.now reader.now → HasCertificate certificate.now → IfErr result (λ e. e ≡ OutOfMemory) }
{
    let writer = read_writer(alloc, writer)?;
    let reader = read_reader(alloc, reader)?;
    let certificate = read_certificate(alloc, certificate)?;
    Ok(confirm_schemas(alloc, &writer, &reader, &certificate, form)?)
}
