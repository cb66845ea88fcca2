ghost use Rattle.std.specs.Prelude.{◌≡◌, ◌≢◌, ◌<◌, ◌⊎◌, ℕ, List, [], length, IfOk, OnOk, OnErr, IsErrOf};
ghost use Rattle.avro_device.specs.PutFront.{PutsFrontOf};
ghost use Rattle.std.specs.Result.{IfErr};
ghost use Rattle.avro_schema.specs.SeenSchema.{schema_nodes};
ghost use Rattle.avro_schema_json.specs.Declaration.{max_text};
ghost use Rattle.avro_schema_json.specs.declared.error.SchemaError.{SchemaError};
ghost use Rattle.avro_judge.specs.Headline.{IsRight};
ghost use Rattle.avro_judge.specs.declared.verdict.Verdict.{Verdict};
ghost use Rattle.avro_display.specs.declared.put_error.PutError.{PutError};
ghost use Rattle.avro_answer.specs.CutAnswer.{IsCut};
ghost use Rattle.avro_answer.specs.JudgeAnswer.{SchemasAnswer, SchemasJson, StatusAnswer, JudgeAnswer, JudgeJson, JudgeStatus};
ghost use Rattle.avro_answer.specs.JsonAnswer.{IsJudgedLine};
ghost use Rattle.avro_answer.specs.RefusalText.{RefusesPair, HaveSchemas};
ghost use Rattle.avro_answer.specs.declared.form.Form.{Form};
ghost use Rattle.avro_answer.specs.declared.refusal.Refusal.TheVariants.{Writer, OutOfMemory};

use crate::answer::CutAnswer;
use crate::form::Form;
use crate::front::Front;
use crate::reading::{read_reader, read_writer};
use crate::refusal::Refusal;
use crate::verdicts::{put_verdict, status_of};
use avro_device::Output;
use avro_display::PutError;
use avro_judge::laws::judge_is_right;
use avro_judge::{JudgeLimits, Verdict};
use avro_schema::{Memory, Schema};
use std::alloc::Global;

/// Judges two schemas, puts the answer into an output, and returns the verdict with its status: `yes` if and only if no datum fails, a no
/// with a smallest datum that does, its fault, its number of nodes and its display, or `undecided` with a cause if and only if the limit of
/// that cause is exceeded. With JSON output it puts the line of that verdict and status, of which no clause says what names a fault has.
///
/// # Errors
///
/// The output failed, or took none of the bytes; memory ran out. A prefix of the answer was put then, or nothing.
#[tactic(auto, using(crate::proofs::VerdictAnswers::is_small))]
pub fn judge_schemas<'a, O: Output>(
    out: &mut O,
    alloc: Global,
    writer: &'a Schema,
    reader: &'a Schema,
    limits: &JudgeLimits,
    form: Form,
) -> Result<(Verdict<'a>, u8), PutError>
    ensures right { IfOk result (λ j. IsRight writer.now reader.now limits.now j.0) }
    ensures answered { IfOk result (λ j. form ≡ Form.Text → (text : List ℕ)
        × SchemasAnswer (schema_nodes writer.now) (schema_nodes reader.now) limits.now text j.1 × O.keeps out.old text out.new) }
    ensures json { IfOk result (λ j. form ≡ Form.Json → (line : List ℕ) × IsJudgedLine (schema_nodes writer.now) j.0 line j.1 × O.keeps out.old line out.new) }
    ensures front { form ≡ Form.Text → OnErr result (O.keeps out.old [] out.new ⊎ (text : List ℕ) × (status : ℕ)
        × SchemasAnswer (schema_nodes writer.now) (schema_nodes reader.now) limits.now text status × PutsFrontOf O.keeps out.old out.new text) }
    ensures front_json { form ≡ Form.Json → OnErr result (O.keeps out.old [] out.new ⊎ (verdict : Verdict) × (line : List ℕ) × (status : ℕ)
        × IsRight writer.now reader.now limits.now verdict × IsJudgedLine (schema_nodes writer.now) verdict line status × PutsFrontOf O.keeps out.old out.new line) }
    ensures status { IfOk result (λ j. StatusAnswer (schema_nodes writer.now) (schema_nodes reader.now) limits.now j.1) }
    ensures works { OnOk result (O.failures out.new ≡ O.failures out.old) }
    ensures fails { IsErrOf result PutError.CannotWrite → (O.failures out.new ≢ O.failures out.old) ⊎ O.stuck out.new }
    ensures memory { IsErrOf result PutError.OutOfMemory → O.failures out.new ≡ O.failures out.old }
{
    // Only the contract of this call matters here: the limit is in its range.
    let _ = limits.size();
    let verdict = judge_is_right(alloc, writer, reader, limits)?;
    put_verdict(out, alloc, writer, reader, &verdict, form)?;
    let status = status_of(&verdict);
    Ok((verdict, status))
}

/// Judges the schemas of two texts, as [`judge_schemas`] does. Of the answer's text only the front is kept that there is room for.
///
/// # Errors
///
/// The writer's text is refused, or else the reader's; memory ran out.
pub fn judge_text(
    alloc: Global,
    writer: &[u8],
    reader: &[u8],
    limits: &JudgeLimits,
    form: Form,
    capacity: usize,
) -> Result<CutAnswer, Refusal>
    ensures answered { IfOk result (λ a. form ≡ Form.Text → (text : List ℕ)
        × JudgeAnswer writer.now reader.now limits.now text a.answer.status × IsCut capacity text a) }
    ensures json { IfOk result (λ a. form ≡ Form.Json → (line : List ℕ)
        × JudgeJson writer.now reader.now limits.now line a.answer.status × IsCut capacity line a) }
    ensures status { IfOk result (λ a. JudgeStatus writer.now reader.now limits.now a.answer.status) }
    ensures too_long { max_text < length writer.now → IsErrOf result (Writer SchemaError.LimitExceeded) }
    ensures refused { IfErr result (RefusesPair writer.now reader.now) }
    ensures complete { HaveSchemas writer.now reader.now → IfErr result (λ e. e ≡ OutOfMemory) }
{
    let writer = read_writer(alloc, writer)?;
    let reader = read_reader(alloc, reader)?;
    Ok(judge_cut(alloc, &writer, &reader, limits, form, capacity)?)
}

/// The same of two schemas.
fn judge_cut(
    alloc: Global,
    writer: &Schema,
    reader: &Schema,
    limits: &JudgeLimits,
    form: Form,
    capacity: usize,
) -> Result<CutAnswer, Memory>
    ensures answered { IfOk result (λ a. form ≡ Form.Text → (text : List ℕ)
        × SchemasAnswer (schema_nodes writer.now) (schema_nodes reader.now) limits.now text a.answer.status × IsCut capacity text a) }
    ensures json { IfOk result (λ a. form ≡ Form.Json → (line : List ℕ)
        × SchemasJson (schema_nodes writer.now) (schema_nodes reader.now) limits.now line a.answer.status × IsCut capacity line a) }
    ensures status { IfOk result (λ a. StatusAnswer (schema_nodes writer.now) (schema_nodes reader.now) limits.now a.answer.status) }
{
    let mut front = Front::new(alloc, capacity);
    match judge_schemas(&mut front, alloc, writer, reader, limits, form) {
        Ok((_, status)) => Ok(front.answer(status)),
        Err(_) => Err(Memory),
    }
}
