ghost use Rattle.std.specs.Prelude.{◌≡◌, ◌≤◌, ℕ, List, [], ◌∷◌, length, false, map, IfOk, OnOk, option_copied, string_bytes, Some, None};
ghost use Rattle.avro_schema.specs.SeenSchema.{schema_nodes};
ghost use Rattle.avro_judge.specs.Answered.{IfApproved};
ghost use Rattle.avro_judge.specs.Headline.{IsRight};
ghost use Rattle.avro_history.specs.ConfirmedHistory.{are_closed, nodes_of_all};
ghost use Rattle.avro_history.specs.SeenHistory.{sets_of};
ghost use Rattle.avro_answer.specs.HistoryAnswer.{LineAnswer};
ghost use Rattle.avro_answer.specs.JsonAnswer.{IsHistoryLine};
ghost use Rattle.avro_answer.specs.JudgeAnswer.{StatusAnswer};
ghost use Rattle.avro_answer.specs.declared.form.Form.{Form};
ghost use Rattle.avro_tool.specs.ConfirmedHistories.{TellsConfirmed};
ghost use Rattle.avro_tool.specs.FailsOnlyFor.{FailsOnlyFor};
ghost use Rattle.avro_tool.specs.EachAnswer.{later_of, EachAnswer};
ghost use Rattle.avro_tool.specs.FailureText.{IsPutFailure};
ghost use Rattle.avro_tool.specs.FoundStatus.{finding_status, IsVerdict};
ghost use Rattle.avro_tool.specs.KeptCertificates.{AddsClosed};
ghost use Rattle.avro_tool.specs.ModeAnswer.{line_word, FormAnswer, ModeAnswer};
ghost use Rattle.avro_tool.specs.declared.failure.Failure.TheVariants.{CannotPrint};
ghost use Rattle.avro_tool.specs.declared.request.Mode.{Mode};

use crate::Finding;
use crate::failure::Failure;
use crate::files::certificate::{read_history_file, write_history_file};
use crate::files::schema::read_schema_file;
use crate::files::texts::Texts;
use crate::printing::print_bytes;
use crate::request::{Evidence, History, Mode};
use avro_answer::{Form, Judged, answer_confirmed, judge_json_line, judge_line};
use avro_device::Output;
use avro_history::{HistoryCert, confirm_history};
use avro_judge::{Approved, Certificate, Verdict};
use avro_schema::{Memory, Schema};
use std::alloc::{AllocError, Global};
use std::rt::Files;

/// What a line of a history is about: the file of an earlier schema, and the mode if there are two.
#[derive(Clone, Copy)]
struct Line<'a> {
    file: &'a str,
    mode: Option<&'static str>,
}

impl Line<'_> {
    /// What the line begins with.
    fn word(&self, alloc: Global) -> Result<String, AllocError>
        ensures { IfOk result (λ word. string_bytes word ≡ line_word self.now.file.now (option_copied self.now.mode)) }
    {
        let mut word = String::from_str(alloc, self.file)?;
        if let Some(mode) = self.mode {
            word.push(' ')?;
            word.push_str(mode)?;
        }
        Ok(word)
    }
}

/// Prints whether the schemas of several files read each other's data as the mode asks: by judging them, or by
/// the certificates of a file.
pub(crate) fn history_of_files<'a, T: Texts, R: Files + AllocGlobal, O: Output>(
    texts: &T,
    rt: &R,
    history: &History<'a>,
    out: &mut O,
) -> Result<Finding, Failure<'a>> {
    let earlier = read_schema_files(texts, &history.writers)?;
    history_of_earlier(texts, rt, history, &earlier, out)
}

/// The answer for the earlier schemas; the last one is read first.
fn history_of_earlier<'a, T: Texts, R: Files + AllocGlobal, O: Output>(
    texts: &T,
    rt: &R,
    history: &History<'a>,
    earlier: &[Schema],
    out: &mut O,
) -> Result<Finding, Failure<'a>> {
    let last = read_schema_file(texts, history.reader)?;
    history_of_schemas(texts, rt, history, earlier, &last, out)
}

/// The answer for the earlier schemas and the last one.
fn history_of_schemas<'a, T: Texts, R: Files + AllocGlobal, O: Output>(
    texts: &T,
    rt: &R,
    history: &History<'a>,
    earlier: &[Schema],
    last: &Schema,
    out: &mut O,
) -> Result<Finding, Failure<'a>> {
    match history.evidence {
        Evidence::Given(word) => confirm_given(texts, word, history.form, earlier, last, out),
        Evidence::Written(word) => certify_into(rt, word, history, earlier, last, out),
        Evidence::Left => judge_each(rt.alloc(), history, earlier, last, out),
    }
}

/// Prints whether the certificates of a file confirm schemas with the last one.
fn confirm_given<'a, T: Texts, O: Output>(
    texts: &T,
    word: &'a str,
    form: Form,
    earlier: &[Schema],
    last: &Schema,
    out: &mut O,
) -> Result<Finding, Failure<'a>> {
    let certificates = read_history_file(texts, word)?;
    confirm_by(texts.alloc(), &certificates, form, earlier, last, out)
}

/// Prints whether certificates confirm schemas with the last one.
fn confirm_by<'a, O: Output>(
    alloc: Global,
    certificates: &HistoryCert,
    form: Form,
    earlier: &[Schema],
    last: &Schema,
    out: &mut O,
) -> Result<Finding, Failure<'a>>
    ensures answered { IfOk result (λ f. (text : List ℕ)
        × TellsConfirmed (are_closed (nodes_of_all earlier.now) (schema_nodes last.now) (sets_of certificates.now)) form text (finding_status f) × O.keeps out.old text out.new) }
{
    let is_confirmed = are_confirmed(alloc, earlier, last, certificates)?;
    tell_confirmed(alloc, is_confirmed, form, out)
}

/// Whether certificates confirm schemas with the last one.
fn are_confirmed(
    alloc: Global,
    earlier: &[Schema],
    last: &Schema,
    certificates: &HistoryCert,
) -> Result<bool, Memory>
    ensures { IfOk result (λ b. b ≡ are_closed (nodes_of_all earlier.now) (schema_nodes last.now) (sets_of certificates.now)) }
{
    Ok(confirm_history(alloc, earlier, last, certificates)?.is_some())
}

/// Prints whether certificates confirm schemas.
fn tell_confirmed<'a, O: Output>(
    alloc: Global,
    is_confirmed: bool,
    form: Form,
    out: &mut O,
) -> Result<Finding, Failure<'a>>
    ensures answered { IfOk result (λ f. (text : List ℕ) × TellsConfirmed is_confirmed form text (finding_status f) × O.keeps out.old text out.new) }
    ensures fails { FailsOnlyFor IsPutFailure O.failures O.stuck out.old out.new result }
{
    let answer = answer_confirmed(alloc, is_confirmed, form)?;
    print_bytes(out, &answer.text)?;
    Ok(Finding::of_verdict(answer.status))
}

/// Judges each earlier schema with the last one, and writes the certificates into a file where all are approved.
fn certify_into<'a, R: Files + AllocGlobal, O: Output>(
    rt: &R,
    word: &'a str,
    history: &History<'a>,
    earlier: &[Schema],
    last: &Schema,
    out: &mut O,
) -> Result<Finding, Failure<'a>> {
    let mut certificates = Vec::new(rt.alloc());
    let finding = certify_each(rt.alloc(), history, earlier, last, &mut certificates, out)?;
    if finding == Finding::Yes {
        write_history_file(rt, certificates, word)?;
    }
    Ok(finding)
}

/// The schemas of files, in order.
fn read_schema_files<'a, T: Texts>(
    texts: &T,
    words: &[&'a str],
) -> Result<Vec<Schema>, Failure<'a>> {
    let mut schemas = Vec::new(texts.alloc());
    for word in words {
        let schema = read_schema_file(texts, word)?;
        if schemas.push(schema).is_err() {
            return Err(Failure::OutOfMemory);
        }
    }
    Ok(schemas)
}

/// Judges each earlier schema with the last one, or with the next one alone, and prints its lines, in order.
/// The answer has what was found of all.
fn judge_each<'a, O: Output>(
    alloc: Global,
    history: &History<'a>,
    schemas: &[Schema],
    last: &Schema,
    out: &mut O,
) -> Result<Finding, Failure<'a>>
    ensures answered { IfOk result (λ f. (text : List ℕ)
        × EachAnswer history.now.form history.now.mode history.now.is_next (map (λ w. w.now) history.now.writers.items) schemas.now last.now history.now.limits text (finding_status f)
        × O.keeps out.old text out.new) }
    ensures verdict { IfOk result IsVerdict }
    ensures fails { FailsOnlyFor IsPutFailure O.failures O.stuck out.old out.new result }
{
    let files = history.writers.as_slice();
    let count = files.len().min(schemas.len());
    let mut finding = Finding::Yes;
    for index in 0..count {
        let (_, after) = schemas.split_at(index + 1);
        let later = later_of(history.is_next, after, last);
        let found = judge_modes(
            alloc,
            history,
            files[index],
            &schemas[index],
            later,
            &mut *out,
        )?;
        finding = finding.and(found);
    }
    Ok(finding)
}

/// The schema with which one is judged that has these after it: the next one, where that is asked for and there is one,
/// else the last one.
fn later_of<'s>(is_next: bool, after: &'s [Schema], last: &'s Schema) -> &'s Schema
    ensures { result.now ≡ later_of is_next after.now last.now }
{
    if !is_next {
        return last;
    }
    match after.split_first() {
        Some((next, _)) => next,
        None => last,
    }
}

/// Judges two schemas as the mode asks, and prints the lines of it.
fn judge_modes<'a, O: Output>(
    alloc: Global,
    history: &History<'a>,
    file: &str,
    earlier: &Schema,
    later: &Schema,
    out: &mut O,
) -> Result<Finding, Failure<'a>>
    ensures answered { IfOk result (λ f. (text : List ℕ)
        × ModeAnswer history.now.form history.now.mode file.now earlier.now later.now history.now.limits text (finding_status f) × O.keeps out.old text out.new) }
    ensures verdict { IfOk result IsVerdict }
    ensures fails { FailsOnlyFor IsPutFailure O.failures O.stuck out.old out.new result }
{
    let line = Line { file, mode: None };
    match history.mode {
        Mode::Backward => judge_one(alloc, history, line, earlier, later, out),
        Mode::Forward => judge_one(alloc, history, line, later, earlier, out),
        Mode::Full => judge_both(alloc, history, file, earlier, later, out),
    }
}

/// Judges whether each of two schemas reads the data of the other, and prints the two lines of it.
fn judge_both<'a, O: Output>(
    alloc: Global,
    history: &History<'a>,
    file: &str,
    earlier: &Schema,
    later: &Schema,
    out: &mut O,
) -> Result<Finding, Failure<'a>>
    ensures answered { IfOk result (λ f. (text : List ℕ)
        × ModeAnswer history.now.form Mode.Full file.now earlier.now later.now history.now.limits text (finding_status f) × O.keeps out.old text out.new) }
    ensures verdict { IfOk result IsVerdict }
    ensures fails { FailsOnlyFor IsPutFailure O.failures O.stuck out.old out.new result }
{
    let line = Line {
        file,
        mode: Some("backward"),
    };
    let backward = judge_one(alloc, history, line, earlier, later, &mut *out)?;
    let line = Line {
        file,
        mode: Some("forward"),
    };
    let forward = judge_one(alloc, history, line, later, earlier, out)?;
    Ok(backward.and(forward))
}

/// Judges a writer's schema and a reader's, and prints a line of it.
fn judge_one<'a, O: Output>(
    alloc: Global,
    history: &History<'a>,
    line: Line<'_>,
    writer: &Schema,
    reader: &Schema,
    out: &mut O,
) -> Result<Finding, Failure<'a>>
    ensures answered { IfOk result (λ f. (text : List ℕ)
        × FormAnswer history.now.form line.entry.file.now (option_copied line.entry.mode) writer.now reader.now history.now.limits text (finding_status f)
        × O.keeps out.old text out.new) }
    ensures status { IfOk result (λ f. StatusAnswer (schema_nodes writer.now) (schema_nodes reader.now) history.now.limits (finding_status f)) }
    ensures verdict { IfOk result IsVerdict }
    ensures fails { FailsOnlyFor IsPutFailure O.failures O.stuck out.old out.new result }
{
    let judged = judge_as(alloc, history, line, writer, reader)?;
    let finding = tell_judged(&judged, out)?;
    Ok(finding)
}

/// Judges a writer's schema and a reader's, and answers a line in the form that is asked for.
fn judge_as<'s>(
    alloc: Global,
    history: &History<'_>,
    line: Line<'_>,
    writer: &'s Schema,
    reader: &'s Schema,
) -> Result<Judged<'s>, Memory>
    ensures right { IfOk result (λ j. IsRight writer.now reader.now history.now.limits j.verdict) }
    ensures answered { IfOk result (λ j. history.now.form ≡ Form.Text
        → LineAnswer (line_word line.entry.file.now (option_copied line.entry.mode)) (schema_nodes writer.now) (schema_nodes reader.now) history.now.limits j.answer.text.items j.answer.status) }
    ensures json { IfOk result (λ j. history.now.form ≡ Form.Json
        → IsHistoryLine line.entry.file.now (option_copied line.entry.mode) j.verdict j.answer.text.items j.answer.status) }
    ensures status { IfOk result (λ j. StatusAnswer (schema_nodes writer.now) (schema_nodes reader.now) history.now.limits j.answer.status) }
{
    let limits = &history.limits;
    match history.form {
        Form::Text => judge_line(alloc, &line.word(alloc)?, writer, reader, limits),
        Form::Json => judge_json_line(alloc, line.file, line.mode, writer, reader, limits),
    }
}

/// Judges each writer's schema once, and prints a line for each, in order. The answer has what was found
/// of all; the certificates of the approvals are kept.
fn certify_each<'a, O: Output>(
    alloc: Global,
    history: &History<'a>,
    writers: &[Schema],
    reader: &Schema,
    certificates: &mut Vec<Certificate>,
    out: &mut O,
) -> Result<Finding, Failure<'a>>
    ensures answered { IfOk result (λ f. (text : List ℕ)
        × EachAnswer history.now.form Mode.Backward false (map (λ w. w.now) history.now.writers.items) writers.now reader.now history.now.limits text (finding_status f)
        × O.keeps out.old text out.new) }
    ensures verdict { IfOk result IsVerdict }
    // After a yes of all the certificates are those that confirm the schemas.
    ensures kept { IfOk result (λ f. length history.now.writers.items ≡ length writers.now → finding_status f ≡ 0
        → AddsClosed (nodes_of_all writers.now) (schema_nodes reader.now) certificates.old.items certificates.new.items) }
    ensures fails { FailsOnlyFor IsPutFailure O.failures O.stuck out.old out.new result }
{
    let files = history.writers.as_slice();
    let count = files.len().min(writers.len());
    let mut finding = Finding::Yes;
    for index in 0..count {
        let file = files[index];
        let certified = certify_one(
            alloc,
            history,
            file,
            &writers[index],
            reader,
            &mut *certificates,
            &mut *out,
        )?;
        finding = finding.and(certified);
    }
    Ok(finding)
}

/// Judges a writer's schema and a reader's, prints a line of it, and keeps the certificate of an approval.
fn certify_one<'a, O: Output>(
    alloc: Global,
    history: &History<'a>,
    file: &str,
    writer: &Schema,
    reader: &Schema,
    certificates: &mut Vec<Certificate>,
    out: &mut O,
) -> Result<Finding, Failure<'a>>
    ensures answered { IfOk result (λ f. (text : List ℕ)
        × FormAnswer history.now.form file.now None writer.now reader.now history.now.limits text (finding_status f) × O.keeps out.old text out.new) }
    ensures verdict { IfOk result IsVerdict }
    ensures kept { IfOk result (λ f. finding_status f ≡ 0
        → AddsClosed (schema_nodes writer.now ∷ []) (schema_nodes reader.now) certificates.old.items certificates.new.items) }
    ensures fails { FailsOnlyFor IsPutFailure O.failures O.stuck out.old out.new result }
{
    let line = Line { file, mode: None };
    let judged = judge_as(alloc, history, line, writer, reader)?;
    let finding = tell_certified(alloc, &judged, certificates, out)?;
    Ok(finding)
}

/// Prints the line of a verdict, and keeps the certificate of an approval.
fn tell_certified<'a, O: Output>(
    alloc: Global,
    judged: &Judged<'_>,
    certificates: &mut Vec<Certificate>,
    out: &mut O,
) -> Result<Finding, Failure<'a>>
    ensures put { OnOk result (O.keeps out.old judged.now.answer.text.items out.new) }
    ensures verdict { IfOk result IsVerdict }
    ensures status { IfOk result (λ f. judged.now.answer.status ≤ 2 → finding_status f ≡ judged.now.answer.status) }
    ensures kept { OnOk result (IfApproved judged.now.verdict (λ a.
        AddsClosed (schema_nodes a.0 ∷ []) (schema_nodes a.1) certificates.old.items certificates.new.items)) }
    ensures fails { FailsOnlyFor IsPutFailure O.failures O.stuck out.old out.new result }
{
    let finding = tell_judged(judged, out)?;
    keep_certificate(alloc, &judged.verdict, certificates)?;
    Ok(finding)
}

/// Prints the line of a verdict.
fn tell_judged<'a, O: Output>(judged: &Judged<'_>, out: &mut O) -> Result<Finding, Failure<'a>>
    ensures put { OnOk result (O.keeps out.old judged.now.answer.text.items out.new) }
    ensures verdict { IfOk result IsVerdict }
    ensures status { IfOk result (λ f. judged.now.answer.status ≤ 2 → finding_status f ≡ judged.now.answer.status) }
    ensures fails { FailsOnlyFor (λ f. f ≡ CannotPrint) O.failures O.stuck out.old out.new result }
{
    print_bytes(out, &judged.answer.text)?;
    Ok(Finding::of_verdict(judged.answer.status))
}

/// Keeps the certificate of a verdict that approves.
fn keep_certificate(
    alloc: Global,
    verdict: &Verdict<'_>,
    certificates: &mut Vec<Certificate>,
) -> Result<(), Memory>
    ensures { OnOk result (IfApproved verdict.now (λ a.
        AddsClosed (schema_nodes a.0 ∷ []) (schema_nodes a.1) certificates.old.items certificates.new.items)) }
{
    match verdict {
        Verdict::Approved(approved) => keep_approval(alloc, approved, certificates),
        Verdict::Refuted(_) => Ok(()),
        Verdict::Undecided(_) => Ok(()),
    }
}

/// Keeps the certificate of an approval.
fn keep_approval(
    alloc: Global,
    approved: &Approved<'_>,
    certificates: &mut Vec<Certificate>,
) -> Result<(), Memory>
    ensures { OnOk result (AddsClosed (schema_nodes approved.now.0 ∷ []) (schema_nodes approved.now.1) certificates.old.items certificates.new.items) }
{
    let certificate = approved.certificate(alloc)?;
    certificates.push(certificate)?;
    Ok(())
}
