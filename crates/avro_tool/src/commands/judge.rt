ghost use Rattle.std.specs.Prelude.{◌≡◌, ◌⊎◌, ℕ, List, [], None, IfOk, OnErr};
ghost use Rattle.std.specs.Result.{IfErr};
ghost use Rattle.avro_device.specs.PutFront.{PutsFrontOf};
ghost use Rattle.avro_schema.specs.SeenSchema.{schema_nodes};
ghost use Rattle.avro_judge.specs.Headline.{IsRight};
ghost use Rattle.avro_judge.specs.declared.verdict.Verdict.{Verdict};
ghost use Rattle.avro_answer.specs.JudgeAnswer.{SchemasAnswer, StatusAnswer};
ghost use Rattle.avro_answer.specs.JsonAnswer.{IsJudgedLine};
ghost use Rattle.avro_answer.specs.declared.form.Form.{Form};
ghost use Rattle.avro_tool.specs.FailsOnlyFor.{FailsOnlyFor};
ghost use Rattle.avro_tool.specs.FailureText.{IsPutFailure};
ghost use Rattle.avro_tool.specs.FilesAnswered.{JudgesFiles};
ghost use Rattle.avro_tool.specs.FoundStatus.{finding_status};
ghost use Rattle.avro_tool.specs.TextsRefused.{RefusesNothing};

use crate::Finding;
use crate::failure::Failure;
use crate::files::certificate::write_certificate_file;
use crate::files::refutation::write_refutation_file;
use crate::files::schema::read_pair;
use crate::files::texts::Texts;
use crate::request::Judging;
use avro_answer::{Form, judge_schemas};
use avro_device::Output;
use avro_judge::{JudgeLimits, Verdict};
use avro_schema::Schema;
use avro_schema_json::ReaderText;
use std::alloc::Global;
use std::rt::Files;

/// Judges the schemas of two files, and prints the verdict. After a yes the certificate is written
/// where a file is named for it, and after a no the refutation.
pub(crate) fn judge_files<'a, T: Texts, R: Files + AllocGlobal, O: Output>(
    texts: &T,
    rt: &R,
    asked: &Judging<'a>,
    out: &mut O,
) -> Result<Finding, Failure<'a>>
    ensures { JudgesFiles (T.known texts.now) (λ text. O.keeps out.old text out.new) asked.now result }
{
    let (writer, reader) = read_pair(texts, asked.writer, asked.reader)?;
    judge_pair(rt, asked, &writer, &reader, out)
}

/// Judges two schemas, prints the verdict, and writes its evidence where a file is named for it.
fn judge_pair<'a, R: Files + AllocGlobal, O: Output>(
    rt: &R,
    asked: &Judging<'a>,
    writer: &ReaderText,
    reader: &Schema,
    out: &mut O,
) -> Result<Finding, Failure<'a>>
    ensures answered { IfOk result (λ f. asked.now.form ≡ Form.Text → (text : List ℕ)
        × SchemasAnswer (schema_nodes writer.now.1) (schema_nodes reader.now) asked.now.limits text (finding_status f) × O.keeps out.old text out.new) }
    ensures json { IfOk result (λ f. asked.now.form ≡ Form.Json → (verdict : Verdict) × (line : List ℕ)
        × IsJudgedLine (schema_nodes writer.now.1) verdict line (finding_status f) × O.keeps out.old line out.new) }
    ensures status { IfOk result (λ f. StatusAnswer (schema_nodes writer.now.1) (schema_nodes reader.now) asked.now.limits (finding_status f)) }
    ensures refused { asked.now.refutation ≡ None → IfErr result RefusesNothing }
{
    let (verdict, finding) = tell_verdict(
        rt.alloc(),
        writer.schema(),
        reader,
        &asked.limits,
        asked.form,
        out,
    )?;
    write_evidence(rt, asked, writer, &verdict)?;
    Ok(finding)
}

/// Judges two schemas, and prints the verdict. Where that fails, a prefix of an answer was put, or nothing.
fn tell_verdict<'a, 's, O: Output>(
    alloc: Global,
    writer: &'s Schema,
    reader: &'s Schema,
    limits: &JudgeLimits,
    form: Form,
    out: &mut O,
) -> Result<(Verdict<'s>, Finding), Failure<'a>>
    ensures right { IfOk result (λ v. IsRight writer.now reader.now limits.now v.0) }
    ensures answered { IfOk result (λ v. form ≡ Form.Text → (text : List ℕ)
        × SchemasAnswer (schema_nodes writer.now) (schema_nodes reader.now) limits.now text (finding_status v.1) × O.keeps out.old text out.new) }
    ensures json { IfOk result (λ v. form ≡ Form.Json → (line : List ℕ) × IsJudgedLine (schema_nodes writer.now) v.0 line (finding_status v.1) × O.keeps out.old line out.new) }
    ensures front { form ≡ Form.Text → OnErr result (O.keeps out.old [] out.new ⊎ (text : List ℕ) × (status : ℕ)
        × SchemasAnswer (schema_nodes writer.now) (schema_nodes reader.now) limits.now text status × PutsFrontOf O.keeps out.old out.new text) }
    ensures status { IfOk result (λ v. StatusAnswer (schema_nodes writer.now) (schema_nodes reader.now) limits.now (finding_status v.1)) }
    ensures fails { FailsOnlyFor IsPutFailure O.failures O.stuck out.old out.new result }
{
    let (verdict, status) = judge_schemas(out, alloc, writer, reader, limits, form)?;
    Ok((verdict, Finding::of_verdict(status)))
}

/// Writes the certificate of a yes, or the datum of a no, where a file is named for it.
fn write_evidence<'a, R: Files + AllocGlobal>(
    rt: &R,
    asked: &Judging<'a>,
    writer: &ReaderText,
    verdict: &Verdict<'_>,
) -> Result<(), Failure<'a>>
    ensures { asked.now.refutation ≡ None → IfErr result RefusesNothing }
{
    match verdict {
        Verdict::Approved(approved) => match asked.certificate {
            Some(word) => write_certificate_file(rt, approved, word),
            None => Ok(()),
        },
        Verdict::Refuted(found) => match asked.refutation {
            Some(word) => write_refutation_file(rt, writer, &found.datum, word),
            None => Ok(()),
        },
        Verdict::Undecided(_) => Ok(()),
    }
}
