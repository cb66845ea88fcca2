//! The program `avro`, as a function over its words, its files, an input, an output and a writer for errors. Of its own functions these are
//! proved: that a command and its files make the request for these files (`request_of`, for eight commands); that `judge`, `explain` and
//! `confirm` of files of which it is known what they hold put the answer for these texts, with its status, and refuse no text that is one
//! (`run_over`); the exit status of each `Failure` and each `Finding`, and the line of each refusal; that the text and the status of
//! `schema` and `read` are those of `avro_answer` for the schemas and the data that were read (`tell_schema`, `tell_datum`); that the lines
//! of `history`, as text and as JSON, are those of its files, in their order, with the worst status, that the certificates that are kept
//! confirm their schemas (`judge_each`, `certify_each`), and whether those of a file do (`confirm_by`); that `copy` and `pipe` make a copy
//! of what they take (`copy_into`, `pipe_from`); the counts of `check` (`counts_of`), and their line of JSON (`tell_file_counts`); that
//! `header` prints the text of the schema of the header that it takes, or the line of all its metadata (`tell_header`); that `show` prints
//! what `avro_lines` says of the file that it takes (`tell_lines`); that what these tell fails for nothing but memory, the output, or a
//! file that cannot be read or has a fault (`IsPutFailure`, `IsFileFailure`, `IsDataFailure`), and blames the output only where it failed
//! or took nothing; the bytes of the file of a refutation (`put_block`); and that `Watched`, an input around another for `--progress`,
//! takes, ends and counts as the other does. The rest is safe, and returns.
//!
//! `run` makes an `Output` of the writer for the answers, and the commands put into that. No failed call of it is retried.
//! `Texts` are files of which it may be known what they hold; nothing is known of the system's.
#![tactic(auto)]

ghost use Rattle.std.specs.Borrow.{Bor};
ghost use Rattle.std.specs.Prelude.{◌≡◌, ◌⊎◌, ◌≤◌, ◌∷◌, ℕ, List, map, string_bytes};
ghost use Rattle.avro_answer.specs.declared.form.Form.{Form};
ghost use Rattle.avro_tool.specs.FailureText.{exit_status};
ghost use Rattle.avro_tool.specs.FilesAnswered.{AnswersWords, ConfirmsFiles, ExplainsFiles, JudgesFiles};
ghost use Rattle.avro_tool.specs.FoundStatus.{finding_status, first_failed, IsVerdict, worse};
ghost use Rattle.avro_tool.specs.PlainAnswers.{AnswersPlain};
ghost use Rattle.avro_tool.specs.PlainWords.{files_of, name_of, AreApart, HaveNoOption, PlainWords};
ghost use Rattle.avro_tool.specs.TextsRefused.{RefusesPlain};
ghost use Rattle.avro_tool.specs.declared.request.Explaining.{Explaining};
ghost use Rattle.avro_tool.specs.declared.request.Judging.{Judging};
ghost use Rattle.avro_tool.specs.declared.request.Request.{Request as Asked};

mod command_line;
mod commands;
mod container_line;
mod failure;
mod files;
mod grammar;
mod number_options;
mod printing;
mod progress;
mod request;

use avro_device::{Output, WriteOutput, put_all};
use command_line::request_of;
use commands::{
    check, confirm, copy, explain, header, history, judge, pipe, read, schema, show, version,
};
use failure::Failure;
use files::kept::refuse_files;
use files::texts::SystemTexts;
pub use files::texts::Texts;
use request::Request;
use std::alloc::Global;
use std::io;
use std::io::{Read, Write};
use std::rt::{Clock, Files};

/// What a command found, which gives the exit status.
#[derive(Clone, Copy, PartialEq, Eq)]
enum Finding {
    Good,
    Yes,
    No,
    Undecided,
    /// Faults that are reported already; the status is that of the first one.
    Failed(u8),
}

impl Finding {
    /// The finding for a verdict with this status.
    fn of_verdict(status: u8) -> Finding
        ensures verdict { IsVerdict result }
        ensures status { status ≤ 2 → finding_status result ≡ status }
    {
        match status {
            0 => Finding::Yes,
            1 => Finding::No,
            _ => Finding::Undecided,
        }
    }

    fn status(self) -> u8
        ensures { result ≡ finding_status self }
    {
        match self {
            Finding::Good | Finding::Yes => 0,
            Finding::No => 1,
            Finding::Undecided => 2,
            Finding::Failed(status) => status,
        }
    }

    /// The finding for several, after one more failed with a status.
    fn or_failed(self, status: u8) -> Finding
        ensures { finding_status result ≡ first_failed self status }
    {
        match self {
            Finding::Failed(first) => Finding::Failed(first),
            _ => Finding::Failed(status),
        }
    }

    /// The finding for both: a no outranks an undecided, which outranks a yes.
    fn and(self, other: Finding) -> Finding
        ensures verdict { IsVerdict self → IsVerdict other → IsVerdict result }
        ensures status { IsVerdict self → IsVerdict other → finding_status result ≡ worse (finding_status self) (finding_status other) }
    {
        if self == Finding::No || other == Finding::No {
            Finding::No
        } else if self == Finding::Undecided {
            Finding::Undecided
        } else {
            other
        }
    }
}

/// Reports that the words could not be taken from the system, and returns the status.
pub fn refuse_words<E: Write>(error: &io::Error, err: &mut E) -> u8 {
    let failure = Failure::of_words(error);
    let _ = err.write_all(failure.fixed_line().as_bytes());
    failure.status()
}

/// Runs the program on its words, without its name, and returns its exit status: 0 good or yes, 1
/// no, 2 undecided, 3 refused input, 4 a file's fault, 5 out of memory, 64 usage. Answers go to
/// `out`, errors and usage texts to `err`; that a file is standard error goes to `out`, since it would stand in the
/// file. Only the command that copies `input` reads it.
pub fn run<R: Files + Clock + AllocGlobal, I: Read, O: Write, E: Write>(
    rt: &R,
    words: &[String],
    input: &mut I,
    out: &mut O,
    err: &mut E,
) -> u8 {
    run_over(
        &SystemTexts { rt },
        rt,
        words,
        input,
        &mut WriteOutput::new(out),
        err,
    )
}

/// Runs the program on its words, as [`run`] does, over an output.
pub fn run_over<T: Texts, R: Files + Clock + AllocGlobal, I: Read, O: Output, E: Write>(
    texts: &T,
    rt: &R,
    words: &[String],
    input: &mut I,
    out: &mut O,
    err: &mut E,
) -> u8
    ensures answered { (plain : PlainWords) → map string_bytes words.now ≡ name_of plain ∷ files_of plain → HaveNoOption (files_of plain) → AreApart plain
        → result ≤ 2 → AnswersPlain (T.known texts.now) (λ text. O.keeps out.old text out.new) result plain }
    ensures refused { (plain : PlainWords) → map string_bytes words.now ≡ name_of plain ∷ files_of plain → HaveNoOption (files_of plain) → AreApart plain
        → result ≡ 3 → RefusesPlain (T.known texts.now) plain }
{
    match answer(texts, rt, words, input, out, err) {
        Ok(finding) => finding.status(),
        Err(failure) => refuse(rt.alloc(), &failure, out, err),
    }
}

/// Reports a failure to standard error, or to standard output where a file of the words is standard error, and returns its status.
fn refuse<O: Output, E: Write>(alloc: Global, failure: &Failure<'_>, out: &mut O, err: &mut E) -> u8
    ensures { (result ≡ exit_status failure.now) ⊎ (result ≡ 5) }
{
    if matches!(failure, Failure::IsError(_)) {
        return report(alloc, failure, out);
    }
    report(alloc, failure, &mut WriteOutput::new(err))
}

/// Reports a failure by one write, and returns its status. If standard error fails too, the
/// status is all that can be reported; if memory runs out for the line, that is reported in its
/// place.
fn report<E: Output>(alloc: Global, failure: &Failure<'_>, err: &mut E) -> u8
    ensures { (result ≡ exit_status failure.now) ⊎ (result ≡ 5) }
{
    match failure.line(alloc) {
        Ok(line) => {
            let _ = put_all(err, &line);
            failure.status()
        }
        Err(_) => report_memory(err),
    }
}

/// Reports that memory ran out, without allocating.
fn report_memory<E: Output>(err: &mut E) -> u8
    ensures { result ≡ 5 }
{
    let failure = Failure::OutOfMemory;
    let _ = put_all(err, failure.fixed_line().as_bytes());
    failure.status()
}

/// Does what the words ask for.
fn answer<'a, T: Texts, R: Files + Clock + AllocGlobal, I: Read, O: Output, E: Write>(
    texts: &T,
    rt: &R,
    words: &'a [String],
    input: &mut I,
    out: &mut O,
    err: &mut E,
) -> Result<Finding, Failure<'a>>
    ensures { (plain : PlainWords) → map string_bytes words.entry.now ≡ name_of plain ∷ files_of plain → HaveNoOption (files_of plain) → AreApart plain
        → AnswersWords (T.known texts.now) (λ text. O.keeps out.old text out.new) plain result }
{
    let request = request_of(rt.alloc(), words)?;
    refuse_files(texts, rt, &request)?;
    answer_request(texts, rt, &request, input, out, err)
}

/// Does what is asked for.
fn answer_request<'a, T: Texts, R: Files + Clock + AllocGlobal, I: Read, O: Output, E: Write>(
    texts: &T,
    rt: &R,
    request: &Request<'a>,
    input: &mut I,
    out: &mut O,
    err: &mut E,
) -> Result<Finding, Failure<'a>>
    ensures judge { (asked : Judging) → request.now ≡ Asked.Judge asked → JudgesFiles (T.known texts.now) (λ text. O.keeps out.old text out.new) asked result }
    ensures explain { (asked : Explaining) → request.now ≡ Asked.Explain asked → ExplainsFiles (T.known texts.now) (λ text. O.keeps out.old text out.new) asked result }
    ensures confirm { (writer reader certificate : Bor (List ℕ)) (form : Form) → request.now ≡ Asked.Confirm writer reader certificate form
        → ConfirmsFiles (T.known texts.now) (λ text. O.keeps out.old text out.new) writer reader certificate form result }
{
    match request {
        Request::Judge(asked) => judge::judge_files(texts, rt, asked, out),
        Request::Explain(asked) => explain::explain_files(texts, asked, out),
        Request::Confirm {
            writer,
            reader,
            certificate,
            form,
        } => confirm::confirm_files(texts, writer, reader, certificate, *form, out),
        Request::History(history) => history::history_of_files(texts, rt, history, out),
        Request::Schema {
            file,
            shown,
            is_why,
        } => schema::show_schema(texts, file, *shown, *is_why, out, err),
        Request::Check {
            files,
            form,
            is_watched,
        } => Ok(check::check_files(rt, files, *form, *is_watched, out, err)),
        Request::Show {
            file,
            reader,
            limit,
        } => show::show_file(texts, rt, file, *reader, *limit, out),
        Request::Copy(asked) => copy::copy_file(texts, rt, asked, out, err),
        Request::Pipe(asked) => pipe::pipe_streams(texts, rt, asked, input, out, err),
        Request::Header { file, is_metadata } => header::show_header(rt, file, *is_metadata, out),
        Request::Read(asked) => read::read_file(texts, rt, asked, out),
        Request::Version => version::tell_version(rt.alloc(), out),
    }
}
