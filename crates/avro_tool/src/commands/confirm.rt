ghost use Rattle.std.specs.Prelude.{◌≡◌, ℕ, List, Some, IfOk};
ghost use Rattle.std.specs.Result.{IfErr};
ghost use Rattle.avro_schema.specs.SeenSchema.{schema_nodes};
ghost use Rattle.avro_certificate.specs.SeenCertificate.{dead_of, pairs_in};
ghost use Rattle.avro_answer.specs.ConfirmAnswer.{ConfirmAnswer, SetsAnswer, SetsJson, SetsStatus};
ghost use Rattle.avro_answer.specs.ReadText.{IsReadAs};
ghost use Rattle.avro_answer.specs.declared.form.Form.{Form};
ghost use Rattle.avro_tool.specs.FailsOnlyFor.{FailsOnlyFor};
ghost use Rattle.avro_tool.specs.FailureText.{IsPutFailure};
ghost use Rattle.avro_tool.specs.FilesAnswered.{ConfirmsFiles};
ghost use Rattle.avro_tool.specs.FoundStatus.{finding_status};
ghost use Rattle.avro_tool.specs.TextsRefused.{RefusesCertificateOf};

use crate::Finding;
use crate::failure::Failure;
use crate::files::certificate::read_certificate_file;
use crate::files::schema::read_pair;
use crate::files::texts::Texts;
use crate::printing::print_bytes;
use avro_answer::{Form, confirm_schemas};
use avro_device::Output;
use avro_judge::Certificate;
use avro_schema::Schema;
use std::alloc::Global;

/// Prints whether the certificate in a file confirms the schemas of two files.
pub(crate) fn confirm_files<'a, T: Texts, O: Output>(
    texts: &T,
    writer: &'a str,
    reader: &'a str,
    certificate: &'a str,
    form: Form,
    out: &mut O,
) -> Result<Finding, Failure<'a>>
    ensures { ConfirmsFiles (T.known texts.now) (λ text. O.keeps out.old text out.new) writer.exit reader.exit certificate.exit form result }
{
    let (writer, reader) = read_pair(texts, writer, reader)?;
    confirm_pair(texts, writer.schema(), &reader, certificate, form, out)
}

/// The same for two schemas.
fn confirm_pair<'a, T: Texts, O: Output>(
    texts: &T,
    writer: &Schema,
    reader: &Schema,
    certificate: &'a str,
    form: Form,
    out: &mut O,
) -> Result<Finding, Failure<'a>>
    ensures answered { form ≡ Form.Text → IfOk result (λ f. (w r c : List ℕ) → IsReadAs w (schema_nodes writer.now) → IsReadAs r (schema_nodes reader.now)
        → T.known texts.now certificate.now ≡ Some c → (text : List ℕ) × ConfirmAnswer w r c text (finding_status f) × O.keeps out.old text out.new) }
    ensures refused { IfErr result (RefusesCertificateOf (T.known texts.now) certificate.now) }
{
    let certificate = read_certificate_file(texts, certificate)?;
    tell_confirmed(texts.alloc(), writer, reader, &certificate, form, out)
}

/// Prints whether a certificate confirms two schemas.
fn tell_confirmed<'a, O: Output>(
    alloc: Global,
    writer: &Schema,
    reader: &Schema,
    certificate: &Certificate,
    form: Form,
    out: &mut O,
) -> Result<Finding, Failure<'a>>
    ensures answered { IfOk result (λ f. form ≡ Form.Text → (text : List ℕ)
        × SetsAnswer (schema_nodes writer.now) (schema_nodes reader.now) (dead_of certificate.now) (pairs_in certificate.now) text (finding_status f)
        × O.keeps out.old text out.new) }
    ensures json { IfOk result (λ f. form ≡ Form.Json → (line : List ℕ)
        × SetsJson (schema_nodes writer.now) (schema_nodes reader.now) (dead_of certificate.now) (pairs_in certificate.now) line × O.keeps out.old line out.new) }
    ensures status { IfOk result (λ f. SetsStatus (schema_nodes writer.now) (schema_nodes reader.now) (dead_of certificate.now) (pairs_in certificate.now) (finding_status f)) }
    ensures fails { FailsOnlyFor IsPutFailure O.failures O.stuck out.old out.new result }
{
    let answer = confirm_schemas(alloc, writer, reader, certificate, form)?;
    print_bytes(out, &answer.text)?;
    Ok(Finding::of_verdict(answer.status))
}
