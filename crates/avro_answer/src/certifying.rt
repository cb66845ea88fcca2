//! The certificate of a yes, by texts.

ghost use Rattle.std.specs.Prelude.{◌≡◌, ◌≢◌, ◌<◌, [], length, IfOk, IsErrOf};
ghost use Rattle.std.specs.Result.{IfErr};
ghost use Rattle.avro_schema.specs.SeenSchema.{schema_nodes};
ghost use Rattle.avro_schema_json.specs.Declaration.{max_text};
ghost use Rattle.avro_schema_json.specs.declared.error.SchemaError.{SchemaError};
ghost use Rattle.avro_judge.specs.Answered.{IfApproved};
ghost use Rattle.avro_answer.specs.CertifyAnswer.{CertifyAnswer, IsCertifiedBy};
ghost use Rattle.avro_answer.specs.JudgeAnswer.{StatusAnswer};
ghost use Rattle.avro_answer.specs.JsonAnswer.{verdict_status};
ghost use Rattle.avro_answer.specs.RefusalText.{RefusesPair, HaveSchemas};
ghost use Rattle.avro_answer.specs.declared.refusal.Refusal.TheVariants.{Writer, OutOfMemory};

use crate::answer::Answer;
use crate::reading::{read_reader, read_writer};
use crate::refusal::Refusal;
use crate::verdicts::status_of;
use avro_judge::laws::judge_is_right;
use avro_judge::{Approved, JudgeLimits, Verdict};
use avro_schema::{Memory, Schema};
use std::alloc::Global;

/// Judges the schemas of two texts, and answers the status of the verdict, with the text of a certificate whose sets are closed after a
/// yes, and no text after another verdict.
///
/// # Errors
///
/// The writer's text is refused, or else the reader's; memory ran out.
pub fn certify_text(
    alloc: Global,
    writer: &[u8],
    reader: &[u8],
    limits: &JudgeLimits,
) -> Result<Answer, Refusal>
    ensures answered { IfOk result (λ a. CertifyAnswer writer.now reader.now limits.now a.text.items a.status) }
    ensures too_long { max_text < length writer.now → IsErrOf result (Writer SchemaError.LimitExceeded) }
    ensures refused { IfErr result (RefusesPair writer.now reader.now) }
    ensures complete { HaveSchemas writer.now reader.now → IfErr result (λ e. e ≡ OutOfMemory) }
{
    let writer = read_writer(alloc, writer)?;
    let reader = read_reader(alloc, reader)?;
    Ok(certify_schemas(alloc, &writer, &reader, limits)?)
}

/// The same of two schemas.
fn certify_schemas(
    alloc: Global,
    writer: &Schema,
    reader: &Schema,
    limits: &JudgeLimits,
) -> Result<Answer, Memory>
    ensures answered { IfOk result (λ a. StatusAnswer (schema_nodes writer.now) (schema_nodes reader.now) limits.now a.status) }
    ensures certified { IfOk result (λ a. a.status ≡ 0 → IsCertifiedBy (schema_nodes writer.now) (schema_nodes reader.now) a.text.items) }
    ensures bare { IfOk result (λ a. a.status ≢ 0 → a.text.items ≡ []) }
{
    let verdict = judge_is_right(alloc, writer, reader, limits)?;
    let text = certificate_of(alloc, &verdict)?;
    let status = status_of(&verdict);
    Ok(Answer { text, status })
}

/// The text of the certificate of a yes, or nothing.
fn certificate_of(alloc: Global, verdict: &Verdict<'_>) -> Result<Vec<u8>, Memory>
    ensures certified { IfOk result (λ text. IfApproved verdict.now (λ a. IsCertifiedBy (schema_nodes a.0) (schema_nodes a.1) text.items)) }
    ensures bare { IfOk result (λ text. verdict_status verdict.now ≢ 0 → text.items ≡ []) }
{
    match verdict {
        Verdict::Approved(approved) => certificate_text(alloc, approved),
        Verdict::Refuted(_) => Ok(Vec::new(alloc)),
        Verdict::Undecided(_) => Ok(Vec::new(alloc)),
    }
}

/// The text of the certificate of an approval.
fn certificate_text(alloc: Global, approved: &Approved<'_>) -> Result<Vec<u8>, Memory>
    ensures { IfOk result (λ text. IsCertifiedBy (schema_nodes approved.now.0) (schema_nodes approved.now.1) text.items) }
{
    let certificate = approved.certificate(alloc)?;
    certificate.write(alloc)
}
