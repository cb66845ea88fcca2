//! What answers mean.

ghost use Rattle.std.specs.Prelude.{ℕ, List};
ghost use Rattle.avro_schema.specs.Node.{Node};
ghost use Rattle.avro_schema_json.specs.DeclaredText.{DeclaresText};
ghost use Rattle.avro_certificate.specs.Compatible.{AreCompatible};
ghost use Rattle.avro_judge.specs.JudgeRanges.{JudgeLimitValues};
ghost use Rattle.avro_answer.specs.ConfirmAnswer.{ConfirmAnswer, IsConfirmed};
ghost use Rattle.avro_answer.specs.JudgeAnswer.{JudgeAnswer, IsYes};
ghost use Rattle.avro_answer.specs.ReadHeadline.{ReadsAfterYes};

use crate::answer::Answer;
use crate::data_answers::read_text;
use crate::form::Form;
use crate::refusal::Refusal;
use avro_schema::Limits;
use avro_schema_json::laws::declared_is_schema;
use std::alloc::Global;

/// Where the answer to two texts is yes, no datum of the schema that the first declares, of any size, fails under the
/// schema that the second declares.
pub fn yes_is_compatible()
    ensures { (writer reader text : List ℕ) (limits : JudgeLimitValues) (status : ℕ) → JudgeAnswer writer reader limits text status
        → IsYes text status → (written read : List Node) → DeclaresText writer written → DeclaresText reader read → AreCompatible written read }
{}

/// Where a certificate's text confirms two texts, whoever made it, no datum of the schema that the first declares, of
/// any size, fails under the schema that the second declares.
pub fn confirmed_is_compatible()
    ensures { (writer reader certificate text : List ℕ) (status : ℕ) → ConfirmAnswer writer reader certificate text status
        → IsConfirmed text status → (written read : List Node) → DeclaresText writer written → DeclaresText reader read → AreCompatible written read }
{
    declared_is_schema();
}

/// Reads data for two texts, as [`read_text`] does. Where the answer of `judge` to these texts is yes, and the data hold an
/// encoding of a datum within limits of the schema that the first declares, after the bytes that are skipped and whatever
/// follows it, the answer is what resolution gives of that datum, and that encoding's length. It is so by the clauses of
/// `judge_text` and `read_text` alone.
///
/// # Errors
///
/// Those of [`read_text`].
pub fn yes_is_read(
    alloc: Global,
    writer: &[u8],
    reader: &[u8],
    bytes: &[u8],
    skip: usize,
    limits: &Limits,
    form: Form,
) -> Result<Answer, Refusal>
    ensures { ReadsAfterYes writer.now reader.now limits.now form skip bytes.now result }
{
    read_text(alloc, writer, Some(reader), bytes, skip, limits, form)
}
