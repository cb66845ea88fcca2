ghost use Rattle.std.specs.Prelude.{◌≡◌, ◌++◌, codes, IfOk, option_copied};
ghost use Rattle.std.specs.Result.{IfErr};
ghost use Rattle.avro_schema.specs.SeenSchema.{schema_nodes};
ghost use Rattle.avro_judge.specs.Headline.{IsRight};
ghost use Rattle.avro_answer.specs.HistoryAnswer.{LineAnswer, HistoryAnswer, HistoryJson, HistoryStatus, cut_texts, RefusesHistory, AllHaveSchemas};
ghost use Rattle.avro_answer.specs.JsonAnswer.{IsHistoryLine};
ghost use Rattle.avro_answer.specs.JudgeAnswer.{StatusAnswer};
ghost use Rattle.avro_answer.specs.inside.VerdictTexts.{verdict_words};
ghost use Rattle.avro_answer.specs.declared.form.Form.{Form};
ghost use Rattle.avro_answer.specs.declared.refusal.Refusal.TheVariants.{OutOfMemory};

use crate::answer::Answer;
use crate::form::Form;
use crate::history_lines::judge_history;
use crate::history_texts::read_texts;
use crate::json_answers::history_line;
use crate::refusal::Refusal;
use crate::verdicts::{append_verdict, status_of};
use avro_judge::laws::judge_is_right;
use avro_judge::{JudgeLimits, Verdict};
use avro_schema::{Memory, Schema};
use std::alloc::Global;

/// A verdict, and a line for it.
#[derive(Drop)]
pub struct Judged<'a> {
    /// The verdict.
    pub verdict: Verdict<'a>,
    /// The line, and the status.
    pub answer: Answer,
}

/// Judges two schemas, and returns a line of a word and the verdict, with its status.
///
/// # Errors
///
/// Memory ran out.
pub fn judge_line<'a>(
    alloc: Global,
    word: &str,
    writer: &'a Schema,
    reader: &'a Schema,
    limits: &JudgeLimits,
) -> Result<Judged<'a>, Memory>
    ensures right { IfOk result (λ j. IsRight writer.now reader.now limits.now j.verdict) }
    ensures answered { IfOk result (λ j. LineAnswer word.now (schema_nodes writer.now) (schema_nodes reader.now) limits.now j.answer.text.items j.answer.status) }
    ensures status { IfOk result (λ j. StatusAnswer (schema_nodes writer.now) (schema_nodes reader.now) limits.now j.answer.status) }
{
    let verdict = judge_is_right(alloc, writer, reader, limits)?;
    let text = line_of(alloc, word, &verdict)?;
    let status = status_of(&verdict);
    Ok(Judged {
        verdict,
        answer: Answer { text, status },
    })
}

/// The line of a verdict.
fn line_of(alloc: Global, word: &str, verdict: &Verdict<'_>) -> Result<Vec<u8>, Memory>
    ensures { IfOk result (λ line. line.items ≡ word.now ++ (verdict_words verdict.now ++ codes "\n")) }
{
    let mut line = Vec::new(alloc);
    line.extend_from_slice(word.as_bytes())?;
    append_verdict(&mut line, verdict)?;
    line.push(b'\n')?;
    Ok(line)
}

/// Judges two schemas, and returns a line of JSON of the verdict, with the name of a file, a mode if there is one, and its status. No clause
/// says what names a fault has.
///
/// # Errors
///
/// Memory ran out.
pub fn judge_json_line<'a>(
    alloc: Global,
    file: &str,
    mode: Option<&str>,
    writer: &'a Schema,
    reader: &'a Schema,
    limits: &JudgeLimits,
) -> Result<Judged<'a>, Memory>
    ensures right { IfOk result (λ j. IsRight writer.now reader.now limits.now j.verdict) }
    ensures json { IfOk result (λ j. IsHistoryLine file.now (option_copied mode.entry) j.verdict j.answer.text.items j.answer.status) }
    ensures status { IfOk result (λ j. StatusAnswer (schema_nodes writer.now) (schema_nodes reader.now) limits.now j.answer.status) }
{
    let verdict = judge_is_right(alloc, writer, reader, limits)?;
    let line = history_line(alloc, file, mode, writer, reader, &verdict)?;
    let status = status_of(&verdict);
    Ok(Judged {
        verdict,
        answer: Answer {
            text: line.into_bytes(),
            status,
        },
    })
}

/// Judges the schema of each text but the last against that of the last, and returns a line for each, which begins with
/// its number, from 0, with the worst status: a no outranks an undecided, which outranks a yes. With JSON output each line has that number
/// for the file. The texts are concatenated and given with their lengths; a length past the end stands for what is left.
///
/// # Errors
///
/// The first text that is refused: the last one as the reader's, another as a writer's; memory ran out.
pub fn history_text(
    alloc: Global,
    texts: &[u8],
    lengths: &[usize],
    limits: &JudgeLimits,
    form: Form,
) -> Result<Answer, Refusal>
    ensures answered { IfOk result (λ a. form ≡ Form.Text → HistoryAnswer (cut_texts texts.now lengths.now) limits.now a.text.items a.status) }
    ensures json { IfOk result (λ a. form ≡ Form.Json → HistoryJson (cut_texts texts.now lengths.now) limits.now a.text.items a.status) }
    ensures status { IfOk result (λ a. HistoryStatus (cut_texts texts.now lengths.now) limits.now a.status) }
    ensures refused { IfErr result (RefusesHistory (cut_texts texts.now lengths.now)) }
    ensures complete { AllHaveSchemas (cut_texts texts.now lengths.now) → IfErr result (λ e. e ≡ OutOfMemory) }
{
    let schemas = read_texts(alloc, texts, lengths)?;
    let answer = judge_history(alloc, &schemas, limits, form)?;
    Ok(answer)
}
