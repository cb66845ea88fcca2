//! The words that the program takes.
ghost use Rattle.std.specs.Prelude.{◌≡◌, ◌∷◌, ℕ, List, false, IfOk, IsSomeAnd, codes, is_some, map, string_bytes};
ghost use Rattle.clap.specs.Words.{app_of, rule_of};
ghost use Rattle.clap.specs.declared.builder.command.Command.TheViews.{out-Command};
ghost use Rattle.avro_tool.specs.inside.Grammar.{app_in, app_with, bare_app, check_app, command_app, confirm_app, copy_app, explain_app, has_rival, header_app, judge_app, option_rule, read_app, rule_choosing, rule_in, rule_taking, show_app};
ghost use Rattle.avro_tool.specs.PlainWords.{name_of, PlainWords};

use crate::commands::version::VERSION;
use clap::{Arg, ArgAction, Command};
use std::alloc::{AllocError, Global};

/// The modes of a history.
const MODES: [&str; 3] = ["backward", "forward", "full"];

/// What an argument takes.
#[derive(Clone, Copy)]
enum Takes {
    /// A word that must be there, of this name in the usage.
    Word(&'static str),
    /// One or more such words.
    Words(&'static str),
    /// A word after the option, of this name in the usage, and which one.
    Option(&'static str, Choice),
    /// Nothing after the option.
    Nothing,
}

/// Which word an option takes.
#[derive(Clone, Copy)]
enum Choice {
    /// Any, and none where the option is left out.
    Any,
    /// Any, and this one where the option is left out.
    Or(&'static str),
    /// One of these, and this one where the option is left out.
    Among(&'static [&'static str], &'static str),
}

/// An argument: its name, what it takes, and its help.
type Argument = (&'static str, Takes, &'static str);

/// A command: its name, what it does, and its arguments.
type Words = (&'static str, &'static str, &'static [Argument]);

const WRITER: Argument = (
    "writer",
    Takes::Word("WRITER"),
    "Schema that the data were written with",
);

const READER: Argument = ("reader", Takes::Word("READER"), "Schema to read them with");

const RESOLVED: Argument = (
    "reader",
    Takes::Option("SCHEMA", Choice::Any),
    "Resolve each datum to SCHEMA",
);

const CONTAINER: Argument = ("file", Takes::Word("FILE"), "Container file");

const SYNC: Argument = (
    "sync",
    Takes::Option("HEX32", Choice::Any),
    "Use this sync marker instead of the input's",
);

const JSON: Argument = (
    "json",
    Takes::Nothing,
    "Print each answer as a line of JSON",
);

const PROGRESS: Argument = (
    "progress",
    Takes::Nothing,
    "Report progress on standard error",
);

const MAX_PAIRS: Argument = (
    "max-pairs",
    Takes::Option("N", Choice::Or("4194304")),
    "Limit the product of the node counts to N, at most 16777216: raise N if the answer is 'undecided Pairs'",
);

const MAX_SIZE: Argument = (
    "max-size",
    Takes::Option("N", Choice::Or("4096")),
    "Limit the refuting datum to N nodes, at most 1048576: raise N if the answer is 'undecided Size'",
);

const MAX_DEPTH: Argument = (
    "max-depth",
    Takes::Option("N", Choice::Or("128")),
    "Limit the refuting datum to depth N, at most 256: raise N if the answer is 'undecided Depth'",
);

const JUDGE: [Argument; 8] = [
    WRITER,
    READER,
    (
        "certificate",
        Takes::Option("OUT", Choice::Any),
        "Write the certificate of a yes to OUT",
    ),
    (
        "refutation",
        Takes::Option("OUT", Choice::Any),
        "Write the refuting datum to OUT, as a container",
    ),
    MAX_PAIRS,
    MAX_SIZE,
    MAX_DEPTH,
    JSON,
];

const EXPLAIN: [Argument; 4] = [
    WRITER,
    READER,
    (
        "max-pairs",
        Takes::Option("N", Choice::Or("4194304")),
        "Limit the pairs of nodes to visit to N, at most 16777216: raise N if the answer is 'undecided Pairs'",
    ),
    JSON,
];

const CONFIRM: [Argument; 4] = [
    WRITER,
    READER,
    ("certificate", Takes::Word("CERT"), "Certificate of the yes"),
    JSON,
];

const HISTORY: [Argument; 9] = [
    (
        "files",
        Takes::Words("SCHEMA"),
        "Schemas in order, two at least",
    ),
    (
        "certificates",
        Takes::Option("OUT", Choice::Any),
        "Write the certificates to OUT if each answer is yes",
    ),
    (
        "confirm",
        Takes::Option("CERT", Choice::Any),
        "Recheck the certificates in CERT, and judge nothing",
    ),
    (
        "mode",
        Takes::Option("MODE", Choice::Among(&MODES, "backward")),
        "Judge whether later schemas read earlier data, earlier schemas read later data, or both",
    ),
    (
        "next",
        Takes::Nothing,
        "Judge each schema with the next one only",
    ),
    MAX_PAIRS,
    MAX_SIZE,
    MAX_DEPTH,
    JSON,
];

const SCHEMA: [Argument; 4] = [
    ("file", Takes::Word("FILE"), "Schema"),
    (
        "canonical",
        Takes::Nothing,
        "Print the Parsing Canonical Form instead of the number of nodes",
    ),
    (
        "fingerprint",
        Takes::Nothing,
        "Print the SHA-256 fingerprint instead of the number of nodes",
    ),
    (
        "why",
        Takes::Nothing,
        "Print where and why a schema is refused, a line for each place",
    ),
];

const CHECK: [Argument; 3] = [
    ("files", Takes::Words("FILE"), "Container files"),
    JSON,
    PROGRESS,
];

const SHOW: [Argument; 3] = [
    CONTAINER,
    RESOLVED,
    (
        "limit",
        Takes::Option("N", Choice::Any),
        "Stop after N lines",
    ),
];

const COPY: [Argument; 5] = [
    ("input", Takes::Word("IN"), "Container file"),
    (
        "output",
        Takes::Word("OUT"),
        "File that the copy is written to",
    ),
    RESOLVED,
    SYNC,
    PROGRESS,
];

const PIPE: [Argument; 4] = [
    RESOLVED,
    SYNC,
    (
        "counts",
        Takes::Nothing,
        "Print the numbers of data and blocks on standard error",
    ),
    PROGRESS,
];

const HEADER: [Argument; 2] = [
    CONTAINER,
    (
        "metadata",
        Takes::Nothing,
        "Print all metadata instead of the schema, as a line of JSON",
    ),
];

const READ: [Argument; 5] = [
    WRITER,
    (
        "data",
        Takes::Word("DATA"),
        "Encoded data; what follows the first datum is ignored",
    ),
    RESOLVED,
    (
        "skip",
        Takes::Option("N", Choice::Any),
        "Skip N bytes first (5 for a schema registry's message)",
    ),
    JSON,
];

const OF_JUDGE: Words = (
    "judge",
    "Check that one schema reads all data written with another",
    &JUDGE,
);

const OF_EXPLAIN: Words = (
    "explain",
    "List all faults of two schemas, by name",
    &EXPLAIN,
);

const OF_CONFIRM: Words = ("confirm", "Recheck the certificate of a yes", &CONFIRM);

const OF_HISTORY: Words = (
    "history",
    "Check that the last schema reads data written with each earlier one",
    &HISTORY,
);

const OF_SCHEMA: Words = (
    "schema",
    "Check a schema, and print its canonical form or fingerprint",
    &SCHEMA,
);

const OF_CHECK: Words = (
    "check",
    "Check container files, and count their data and blocks",
    &CHECK,
);

const OF_SHOW: Words = ("show", "Print each datum of a container file", &SHOW);

const OF_COPY: Words = (
    "copy",
    "Copy a container file, each datum in its plain encoding",
    &COPY,
);

const OF_PIPE: Words = (
    "pipe",
    "Copy a container file from standard input to standard output",
    &PIPE,
);

const OF_HEADER: Words = (
    "header",
    "Print the schema of a container file, whatever its codec",
    &HEADER,
);

const OF_READ: Words = (
    "read",
    "Print the first datum in DATA, and its length in bytes",
    &READ,
);

/// The commands, in the order of the help.
static COMMANDS: [Words; 11] = [
    OF_JUDGE, OF_EXPLAIN, OF_CONFIRM, OF_HISTORY, OF_SCHEMA, OF_CHECK, OF_SHOW, OF_COPY, OF_PIPE,
    OF_HEADER, OF_READ,
];

/// The commands that can be asked for: the one that the first word names, or else all, with the arguments of those that the words name.
pub(crate) fn program<'a>(alloc: Global, words: &[String]) -> Result<Command<'a>, AllocError>
    ensures { (plain : PlainWords) (files : List (List ℕ)) → map string_bytes words.now ≡ name_of plain ∷ files
        → IfOk result (λ c. app_of c ≡ app_with (command_app plain)) }
{
    match first_command(words) {
        Some(named) => program_with(alloc, named),
        None => whole_program(alloc, words),
    }
}

/// The program with one command.
fn program_with<'a>(alloc: Global, named: Words) -> Result<Command<'a>, AllocError>
    ensures { IfOk result (λ c. app_of c ≡ app_with (app_in named.entry)) }
{
    let command = command_of(alloc, named)?;
    bare_program(alloc)?.subcommand(command)
}

/// The program with all commands.
fn whole_program<'a>(alloc: Global, words: &[String]) -> Result<Command<'a>, AllocError> {
    let commands = commands_of(alloc, words)?;
    bare_program(alloc)?.subcommands(commands)
}

/// The program without its commands.
fn bare_program<'a>(alloc: Global) -> Result<Command<'a>, AllocError>
    ensures { IfOk result (λ c. app_of c ≡ bare_app) }
{
    Command::new(alloc, "avro")
        .about("Check Avro schemas and container files")
        .version(VERSION)
        .no_binary_name(true)
        .subcommand_required(true)
        .bin_name("avro")
}

/// The command over a history of schemas.
pub(crate) fn history_command<'a>(alloc: Global) -> Result<Command<'a>, AllocError> {
    command_of(alloc, OF_HISTORY)
}

/// The command that the first word names.
fn first_command(words: &[String]) -> Option<Words>
    ensures { (plain : PlainWords) (files : List (List ℕ)) → map string_bytes words.now ≡ name_of plain ∷ files
        → IsSomeAnd result (λ words. app_in words ≡ command_app plain) }
{
    match words.first() {
        Some(first) => command_named(first.as_str()),
        None => None,
    }
}

/// The command of this name.
fn command_named(name: &str) -> Option<Words>
    ensures judge { name.now ≡ codes "judge" → IsSomeAnd result (λ words. app_in words ≡ judge_app) }
    ensures explain { name.now ≡ codes "explain" → IsSomeAnd result (λ words. app_in words ≡ explain_app) }
    ensures confirm { name.now ≡ codes "confirm" → IsSomeAnd result (λ words. app_in words ≡ confirm_app) }
    ensures check { name.now ≡ codes "check" → IsSomeAnd result (λ words. app_in words ≡ check_app) }
    ensures show { name.now ≡ codes "show" → IsSomeAnd result (λ words. app_in words ≡ show_app) }
    ensures header { name.now ≡ codes "header" → IsSomeAnd result (λ words. app_in words ≡ header_app) }
    ensures read { name.now ≡ codes "read" → IsSomeAnd result (λ words. app_in words ≡ read_app) }
    ensures copy { name.now ≡ codes "copy" → IsSomeAnd result (λ words. app_in words ≡ copy_app) }
{
    match name {
        "judge" => Some(OF_JUDGE),
        "explain" => Some(OF_EXPLAIN),
        "confirm" => Some(OF_CONFIRM),
        _ => other_named(name),
    }
}

/// The same for the commands that judge no pair.
fn other_named(name: &str) -> Option<Words>
    ensures check { name.now ≡ codes "check" → IsSomeAnd result (λ words. app_in words ≡ check_app) }
    ensures show { name.now ≡ codes "show" → IsSomeAnd result (λ words. app_in words ≡ show_app) }
    ensures header { name.now ≡ codes "header" → IsSomeAnd result (λ words. app_in words ≡ header_app) }
    ensures read { name.now ≡ codes "read" → IsSomeAnd result (λ words. app_in words ≡ read_app) }
    ensures copy { name.now ≡ codes "copy" → IsSomeAnd result (λ words. app_in words ≡ copy_app) }
{
    match name {
        "history" => Some(OF_HISTORY),
        "schema" => Some(OF_SCHEMA),
        "check" => Some(OF_CHECK),
        "show" => Some(OF_SHOW),
        "copy" => Some(OF_COPY),
        "pipe" => Some(OF_PIPE),
        "header" => Some(OF_HEADER),
        "read" => Some(OF_READ),
        _ => None,
    }
}

/// All commands, with the arguments of those that the words name.
fn commands_of<'a>(alloc: Global, words: &[String]) -> Result<Vec<Command<'a>>, AllocError> {
    let mut commands = Vec::new(alloc);
    for command in &COMMANDS {
        let is_named = words.iter().any(|word| word.as_str() == command.0);
        commands.push(listed(alloc, *command, is_named)?)?;
    }
    Ok(commands)
}

/// The command of these words, with its arguments or without.
fn listed<'a>(alloc: Global, words: Words, has_arguments: bool) -> Result<Command<'a>, AllocError> {
    if has_arguments {
        return command_of(alloc, words);
    }
    let (name, about, _) = words;
    Ok(Command::new(alloc, name).about(about))
}

/// The command of these words, with its arguments.
fn command_of<'a>(alloc: Global, words: Words) -> Result<Command<'a>, AllocError>
    ensures { IfOk result (λ c. (app_of c ≡ app_in words.entry) × ((out-Command c).has_globals ≡ false)) }
{
    let (name, about, arguments) = words;
    let args = arguments_of(alloc, arguments)?;
    Command::new(alloc, name).about(about).args(args)
}

/// The arguments of these words.
fn arguments_of<'a>(alloc: Global, arguments: &[Argument]) -> Result<Vec<Arg<'a>>, AllocError>
    ensures { IfOk result (λ args. map rule_of args.items ≡ map rule_in arguments.now) }
{
    let mut args = Vec::new(alloc);
    for argument in arguments {
        args.push(argument_of(alloc, argument)?)?;
    }
    Ok(args)
}

/// The argument of these words.
fn argument_of<'a>(alloc: Global, argument: &Argument) -> Result<Arg<'a>, AllocError>
    ensures { IfOk result (λ a. rule_of a ≡ rule_in argument.now) }
{
    let (id, takes, help) = *argument;
    let arg = taking(Arg::new(alloc, id), id, takes).help(help);
    match rival_of(id) {
        Some(rival) => arg.conflicts_with(rival),
        None => Ok(arg),
    }
}

/// The option that conflicts with this one.
fn rival_of(id: &str) -> Option<&'static str>
    ensures { is_some result ≡ has_rival id.now }
{
    match id {
        "canonical" => Some("fingerprint"),
        "certificates" => Some("confirm"),
        _ => None,
    }
}

/// The argument with what it takes.
fn taking<'a>(arg: Arg<'a>, id: &'static str, takes: Takes) -> Arg<'a>
    ensures { rule_of result ≡ rule_taking (rule_of arg.entry) id.entry.now takes }
{
    match takes {
        Takes::Word(name) => arg.value_name(name).required(true).action(ArgAction::Set),
        Takes::Words(name) => arg
            .value_name(name)
            .required(true)
            .num_args(1..)
            .action(ArgAction::Append),
        Takes::Option(name, choice) => choosing(option(arg, id, name), choice),
        Takes::Nothing => arg.long(id).action(ArgAction::SetTrue),
    }
}

/// The argument, as an option that takes a word of this name.
fn option<'a>(arg: Arg<'a>, id: &'static str, name: &'static str) -> Arg<'a>
    ensures { rule_of result ≡ option_rule (rule_of arg.entry) id.entry.now }
{
    arg.long(id).value_name(name).action(ArgAction::Set)
}

/// The option with the words that it takes.
fn choosing<'a>(option: Arg<'a>, choice: Choice) -> Arg<'a>
    ensures { rule_of result ≡ rule_choosing (rule_of option.entry) choice }
{
    match choice {
        Choice::Any => option,
        Choice::Or(default) => option.default_value(default),
        Choice::Among(words, default) => option.value_parser(words).default_value(default),
    }
}
