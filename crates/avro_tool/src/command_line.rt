//! From the words of a command line to a request.
ghost use Rattle.std.specs.Prelude.{◌≡◌, ℕ, List, None, Some, Ok, codes, map, string_bytes, IfOk, IfErr, IsErrAnd, ◌∷◌, option_map};
ghost use Rattle.avro_answer.specs.declared.form.Form.{Form};
ghost use Rattle.clap.specs.Words.{app_of, found_of, kind_of, matched_of, one_text, raw_values, subcommand_rows_of};
ghost use Rattle.clap.specs.declared.error.kind.ErrorKind.{ErrorKind};
ghost use Rattle.avro_tool.specs.declared.failure.Failure.TheVariants.{OutOfMemory};
ghost use Rattle.avro_tool.specs.inside.Grammar.{app_with, command_app};
ghost use Rattle.avro_tool.specs.inside.PlainFound.{FindsCheck, FindsConfirm, FindsCopy, FindsExplain, FindsHeader, FindsJudge, FindsRead, FindsShow, Gives, GivesOk, GivesOrMemory, IsEntered};
ghost use Rattle.avro_tool.specs.PlainWords.{default_judge_limits, files_of, name_of, AreApart, AsksFor, HaveNoOption, MakesPlainRequest, PlainWords};

use crate::failure::Failure;
use crate::grammar::{history_command, program};
use crate::number_options::{limits_in, lines_in, marker_in, pairs_in, skip_in};
use crate::request::{
    Copying, Evidence, Explaining, History, Judging, Mode, Piping, Reading, Request,
};
use avro_answer::{Form, Shown};
use avro_judge::JudgeLimits;
use clap::error::ErrorKind;
use clap::{ArgMatches, Command};
use std::alloc::{AllocError, Global};

/// The request that the words make.
pub(crate) fn request_of<'a>(alloc: Global, words: &'a [String]) -> Result<Request<'a>, Failure<'a>>
    ensures plain { MakesPlainRequest (map string_bytes words.entry.now) result }
{
    let mut command = program(alloc, words)?;
    request_by(alloc, &mut command, words)
}

/// The request that the words make, parsed with a command.
fn request_by<'a>(
    alloc: Global,
    command: &mut Command<'a>,
    words: &'a [String],
) -> Result<Request<'a>, Failure<'a>>
    ensures { (plain : PlainWords) → app_of command.old ≡ app_with (command_app plain)
        → map string_bytes words.entry.now ≡ name_of plain ∷ files_of plain → HaveNoOption (files_of plain) → AreApart plain
        → IfOk result (AsksFor plain) × IfErr result (λ failure. failure ≡ OutOfMemory) }
{
    match command.try_get_matches_from_mut(words) {
        Ok(matches) => request_found(alloc, command, &matches),
        Err(e) => refused_by(e),
    }
}

/// The request of words that the parser did not take, or what is reported of them.
fn refused_by<'a>(e: clap::Error) -> Result<Request<'a>, Failure<'a>>
    ensures { kind_of e ≡ ErrorKind.OutOfMemory → IsErrAnd result (λ failure. failure ≡ OutOfMemory) }
{
    match e.kind() {
        ErrorKind::DisplayVersion => Ok(Request::Version),
        _ => Err(Failure::from(e)),
    }
}

/// The request of words that have the form of the program's.
fn request_found<'a>(
    alloc: Global,
    command: &mut Command<'_>,
    matches: &ArgMatches<'a>,
) -> Result<Request<'a>, Failure<'a>>
    ensures { (plain : PlainWords) → IsEntered plain (subcommand_rows_of matches.now) → AreApart plain
        → IfOk result (AsksFor plain) × IfErr result (λ failure. failure ≡ OutOfMemory) }
{
    match request_in(alloc, matches) {
        Ok(None) => Err(no_command(command)?),
        Ok(Some(request)) => Ok(request),
        Err(failure) => Err(failure),
    }
}

/// The request of the command that was entered, if there is one.
fn request_in<'a>(
    alloc: Global,
    matches: &ArgMatches<'a>,
) -> Result<Option<Request<'a>>, Failure<'a>>
    ensures { (plain : PlainWords) → IsEntered plain (subcommand_rows_of matches.now) → AreApart plain → GivesOrMemory plain result }
{
    match matches.subcommand() {
        Some((name, given)) => request_named(alloc, name, given),
        None => Ok(None),
    }
}

/// The request of a command of this name.
fn request_named<'a>(
    alloc: Global,
    name: &str,
    given: &ArgMatches<'a>,
) -> Result<Option<Request<'a>>, Failure<'a>>
    ensures judge { name.now ≡ codes "judge" → (a b : List ℕ) → FindsJudge a b (found_of given.now) → GivesOk (PlainWords.judge a b) result }
    ensures explain { name.now ≡ codes "explain" → (a b : List ℕ) → FindsExplain a b (found_of given.now) → GivesOk (PlainWords.explain a b) result }
    ensures confirm { name.now ≡ codes "confirm" → (a b c : List ℕ) → FindsConfirm a b c (found_of given.now) → GivesOk (PlainWords.confirm a b c) result }
    ensures check { name.now ≡ codes "check" → (a : List ℕ) → FindsCheck a (found_of given.now) → GivesOrMemory (PlainWords.check a) result }
    ensures show { name.now ≡ codes "show" → (a : List ℕ) → FindsShow a (found_of given.now) → GivesOk (PlainWords.show a) result }
    ensures header { name.now ≡ codes "header" → (a : List ℕ) → FindsHeader a (found_of given.now) → GivesOk (PlainWords.header a) result }
    ensures read { name.now ≡ codes "read" → (a b : List ℕ) → FindsRead a b (found_of given.now) → GivesOk (PlainWords.read a b) result }
    ensures copy { name.now ≡ codes "copy" → (a b : List ℕ) → FindsCopy a b (found_of given.now) → GivesOk (PlainWords.copy a b) result }
{
    match name {
        "judge" => judging_in(given),
        "explain" => explaining_in(given),
        "confirm" => Ok(confirming_in(given)),
        _ => other_named(alloc, name, given),
    }
}

/// The same for the commands that judge no pair.
fn other_named<'a>(
    alloc: Global,
    name: &str,
    given: &ArgMatches<'a>,
) -> Result<Option<Request<'a>>, Failure<'a>>
    ensures check { name.now ≡ codes "check" → (a : List ℕ) → FindsCheck a (found_of given.now) → GivesOrMemory (PlainWords.check a) result }
    ensures show { name.now ≡ codes "show" → (a : List ℕ) → FindsShow a (found_of given.now) → GivesOk (PlainWords.show a) result }
    ensures header { name.now ≡ codes "header" → (a : List ℕ) → FindsHeader a (found_of given.now) → GivesOk (PlainWords.header a) result }
    ensures read { name.now ≡ codes "read" → (a b : List ℕ) → FindsRead a b (found_of given.now) → GivesOk (PlainWords.read a b) result }
    ensures copy { name.now ≡ codes "copy" → (a b : List ℕ) → FindsCopy a b (found_of given.now) → GivesOk (PlainWords.copy a b) result }
{
    match name {
        "history" => Ok(Some(history_in(alloc, given)?)),
        "schema" => Ok(schema_in(given)),
        "check" => Ok(Some(checking_in(alloc, given)?)),
        "show" => showing_in(given),
        "copy" => copying_in(given),
        "pipe" => Ok(Some(piping_in(given)?)),
        "header" => Ok(header_in(given)),
        "read" => reading_in(given),
        _ => Ok(None),
    }
}

/// What is reported if the words have no command.
fn no_command<'a>(command: &mut Command<'_>) -> Result<Failure<'a>, AllocError> {
    let error = command.error(ErrorKind::MissingSubcommand, "a command is required")?;
    Ok(Failure::Usage(error))
}

/// What is reported of the words of a history, with the usage of its command.
fn history_usage<'a>(
    alloc: Global,
    kind: ErrorKind,
    message: &str,
) -> Result<Failure<'a>, AllocError> {
    let mut command = history_command(alloc)?.bin_name("avro history")?;
    Ok(Failure::Usage(command.error(kind, message)?))
}

/// What is reported of a history of one schema.
fn too_few_schemas<'a>(alloc: Global) -> Result<Failure<'a>, AllocError> {
    history_usage(
        alloc,
        ErrorKind::TooFewValues,
        "at least two schemas are required",
    )
}

/// The request of the words that confirm a certificate.
fn confirming_in<'a>(confirm: &ArgMatches<'a>) -> Option<Request<'a>>
    ensures { (a b c : List ℕ) → FindsConfirm a b c (found_of confirm.now) → Gives (PlainWords.confirm a b c) result }
{
    let writer = confirm.get_str("writer")?;
    let reader = confirm.get_str("reader")?;
    let certificate = confirm.get_str("certificate")?;
    Some(Request::Confirm {
        writer,
        reader,
        certificate,
        form: form_in(confirm),
    })
}

/// The request of the words that check a schema.
fn schema_in<'a>(schema: &ArgMatches<'a>) -> Option<Request<'a>> {
    let file = schema.get_str("file")?;
    Some(Request::Schema {
        file,
        shown: shown_in(schema),
        is_why: schema.get_flag("why"),
    })
}

/// The request of the words that show a header.
fn header_in<'a>(header: &ArgMatches<'a>) -> Option<Request<'a>>
    ensures { (a : List ℕ) → FindsHeader a (found_of header.now) → Gives (PlainWords.header a) result }
{
    let file = header.get_str("file")?;
    Some(Request::Header {
        file,
        is_metadata: header.get_flag("metadata"),
    })
}

/// The request of the words that copy a stream.
fn piping_in<'a>(pipe: &ArgMatches<'a>) -> Result<Request<'a>, Failure<'a>> {
    let sync = marker_in(pipe)?;
    Ok(Request::Pipe(Piping {
        reader: pipe.get_str("reader"),
        sync,
        is_counted: pipe.get_flag("counts"),
        is_watched: pipe.get_flag("progress"),
    }))
}

/// The request of the words that copy a file, into another one.
fn copying_in<'a>(copy: &ArgMatches<'a>) -> Result<Option<Request<'a>>, Failure<'a>>
    ensures { (a b : List ℕ) → FindsCopy a b (found_of copy.now) → GivesOk (PlainWords.copy a b) result }
{
    let Some(source) = copy.get_str("input") else {
        return Ok(None);
    };
    let Some(output) = copy.get_str("output") else {
        return Ok(None);
    };
    if source == output {
        return Err(Failure::OneWord);
    }
    let sync = marker_in(copy)?;
    Ok(Some(copying_with(copy, source, output, sync)))
}

/// The same between these words.
fn copying_with<'a>(
    copy: &ArgMatches<'a>,
    source: &'a str,
    output: &'a str,
    sync: Option<[u8; 16]>,
) -> Request<'a>
    ensures { (a b : List ℕ) → FindsCopy a b (found_of copy.now) → source.entry.now ≡ a → output.entry.now ≡ b → sync ≡ None
        → AsksFor (PlainWords.copy a b) result }
{
    Request::Copy(Copying {
        source,
        output,
        reader: copy.get_str("reader"),
        sync,
        is_watched: copy.get_flag("progress"),
    })
}

/// The request of the words of a verdict on two schemas.
fn judging_in<'a>(judge: &ArgMatches<'a>) -> Result<Option<Request<'a>>, Failure<'a>>
    ensures { (a b : List ℕ) → FindsJudge a b (found_of judge.now) → GivesOk (PlainWords.judge a b) result }
{
    let limits = limits_in(judge)?;
    Ok(judging_within(judge, limits))
}

/// The same within these limits.
fn judging_within<'a>(judge: &ArgMatches<'a>, limits: JudgeLimits) -> Option<Request<'a>>
    ensures { (a b : List ℕ) → FindsJudge a b (found_of judge.now) → limits ≡ default_judge_limits → Gives (PlainWords.judge a b) result }
{
    let writer = judge.get_str("writer")?;
    let reader = judge.get_str("reader")?;
    Some(Request::Judge(Judging {
        writer,
        reader,
        certificate: judge.get_str("certificate"),
        refutation: judge.get_str("refutation"),
        limits,
        form: form_in(judge),
    }))
}

/// The request of the words that ask for all faults.
fn explaining_in<'a>(explain: &ArgMatches<'a>) -> Result<Option<Request<'a>>, Failure<'a>>
    ensures { (a b : List ℕ) → FindsExplain a b (found_of explain.now) → GivesOk (PlainWords.explain a b) result }
{
    let max_pairs = pairs_in(explain)?;
    Ok(explaining_within(explain, max_pairs))
}

/// The same within this limit.
fn explaining_within<'a>(explain: &ArgMatches<'a>, max_pairs: u32) -> Option<Request<'a>>
    ensures { (a b : List ℕ) → FindsExplain a b (found_of explain.now) → max_pairs ≡ 4194304 → Gives (PlainWords.explain a b) result }
{
    let writer = explain.get_str("writer")?;
    let reader = explain.get_str("reader")?;
    Some(Request::Explain(Explaining {
        writer,
        reader,
        max_pairs,
        form: form_in(explain),
    }))
}

/// The request of the words that show data.
fn showing_in<'a>(show: &ArgMatches<'a>) -> Result<Option<Request<'a>>, Failure<'a>>
    ensures { (a : List ℕ) → FindsShow a (found_of show.now) → GivesOk (PlainWords.show a) result }
{
    let limit = lines_in(show)?;
    Ok(showing_within(show, limit))
}

/// The same within this limit.
fn showing_within<'a>(show: &ArgMatches<'a>, limit: Option<u64>) -> Option<Request<'a>>
    ensures { (a : List ℕ) → FindsShow a (found_of show.now) → limit ≡ None → Gives (PlainWords.show a) result }
{
    let file = show.get_str("file")?;
    Some(Request::Show {
        file,
        reader: show.get_str("reader"),
        limit,
    })
}

/// The request of the words that read encoded data.
fn reading_in<'a>(read: &ArgMatches<'a>) -> Result<Option<Request<'a>>, Failure<'a>>
    ensures { (a b : List ℕ) → FindsRead a b (found_of read.now) → GivesOk (PlainWords.read a b) result }
{
    let skip = skip_in(read)?;
    Ok(reading_after(read, skip))
}

/// The same after these bytes.
fn reading_after<'a>(read: &ArgMatches<'a>, skip: u32) -> Option<Request<'a>>
    ensures { (a b : List ℕ) → FindsRead a b (found_of read.now) → skip ≡ 0 → Gives (PlainWords.read a b) result }
{
    let writer = read.get_str("writer")?;
    let data = read.get_str("data")?;
    Some(Request::Read(Reading {
        writer,
        data,
        reader: read.get_str("reader"),
        skip,
        form: form_in(read),
    }))
}

/// The request of the words that check containers.
fn checking_in<'a>(alloc: Global, check: &ArgMatches<'a>) -> Result<Request<'a>, Failure<'a>>
    ensures plain { (a : List ℕ) → FindsCheck a (found_of check.now) → IfOk result (AsksFor (PlainWords.check a)) }
    ensures fails { IfErr result (λ failure. failure ≡ OutOfMemory) }
{
    let files = words_in(alloc, check, "files")?;
    Ok(Request::Check {
        files,
        form: form_in(check),
        is_watched: check.get_flag("progress"),
    })
}

/// The request of the words of a history, if they are consistent.
fn history_in<'a>(alloc: Global, history: &ArgMatches<'a>) -> Result<Request<'a>, Failure<'a>> {
    refuse_history(alloc, history)?;
    let limits = limits_in(history)?;
    let files = words_in(alloc, history, "files")?;
    history_of(alloc, history, limits, files)
}

/// Refuses a history of one schema, and a request for certificates with any reader's schema but the last
/// one.
fn refuse_history<'a>(alloc: Global, history: &ArgMatches<'a>) -> Result<(), Failure<'a>> {
    if !matches!(history.get_strs("files"), Some(files) if files.len() > 1) {
        return Err(too_few_schemas(alloc)?);
    }
    let is_plain = !history.get_flag("next") && matches!(mode_in(history), Mode::Backward);
    if is_plain || matches!(evidence_in(history), Evidence::Left) {
        return Ok(());
    }
    let message = "certificates are for --mode backward without --next alone";
    Err(history_usage(alloc, ErrorKind::ArgumentConflict, message)?)
}

/// The request of the words of a history over these files, the last of which is the reader's.
fn history_of<'a>(
    alloc: Global,
    history: &ArgMatches<'a>,
    limits: JudgeLimits,
    mut files: Vec<&'a str>,
) -> Result<Request<'a>, Failure<'a>> {
    let Some(reader) = files.pop() else {
        return Err(too_few_schemas(alloc)?);
    };
    Ok(Request::History(History {
        writers: files,
        reader,
        evidence: evidence_in(history),
        mode: mode_in(history),
        is_next: history.get_flag("next"),
        limits,
        form: form_in(history),
    }))
}

/// The words of an argument, in order.
fn words_in<'a>(
    alloc: Global,
    matches: &ArgMatches<'a>,
    id: &str,
) -> Result<Vec<&'a str>, AllocError>
    ensures { (words : List (List ℕ)) → option_map raw_values (matched_of (found_of matches.now) id.now) ≡ Some words
        → IfOk result (λ found. map (λ w. w.now) found.items ≡ words) }
{
    match matches.get_strs(id) {
        Some(given) => given.to_vec(alloc),
        None => Ok(Vec::new(alloc)),
    }
}

/// Which data are to be read in a history.
fn mode_in(history: &ArgMatches<'_>) -> Mode {
    match history.get_str("mode") {
        Some("forward") => Mode::Forward,
        Some("full") => Mode::Full,
        _ => Mode::Backward,
    }
}

/// How the answer is to be written.
fn form_in(matches: &ArgMatches<'_>) -> Form
    ensures { one_text (found_of matches.now) (codes "json") ≡ Some (codes "false") → result ≡ Form.Text }
{
    if matches.get_flag("json") {
        Form::Json
    } else {
        Form::Text
    }
}

/// What is to be done with the certificates of a history.
fn evidence_in<'a>(history: &ArgMatches<'a>) -> Evidence<'a> {
    if let Some(file) = history.get_str("certificates") {
        return Evidence::Written(file);
    }
    if let Some(file) = history.get_str("confirm") {
        return Evidence::Given(file);
    }
    Evidence::Left
}

/// What is to be shown of a schema.
fn shown_in(matches: &ArgMatches<'_>) -> Shown {
    if matches.get_flag("canonical") {
        return Shown::Canonical;
    }
    if matches.get_flag("fingerprint") {
        return Shown::Fingerprint;
    }
    Shown::Count
}
