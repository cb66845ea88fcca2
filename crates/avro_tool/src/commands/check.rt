ghost use Rattle.std.specs.Prelude.{◌≡◌, ◌≢◌, IfOk, IsErrOf, Err, Some};
ghost use Rattle.std.specs.Result.{IfErr};
ghost use Rattle.avro_file.specs.FileFault.{FileFault};
ghost use Rattle.avro_file.specs.FileSeen.{file_fault};
ghost use Rattle.avro_file.specs.declared.error.CopyError.{CopyError};
ghost use Rattle.avro_container.specs.Checking.{Takes, IsWhole, IsFaulty};
ghost use Rattle.avro_tool.specs.DefaultLimits.{default_limits};
ghost use Rattle.avro_tool.specs.FailureText.{IsFileFailure};
ghost use Rattle.avro_tool.specs.declared.failure.Failure.TheVariants.{Container, CannotRead, CannotPrint};

use crate::failure::Failure;
use crate::files::container::{open_container, open_watched, tell_file_counts};
use crate::{Finding, report};
use avro_answer::Form;
use avro_container::{Counts, check};
use avro_device::{Input, Output, WriteOutput};
use avro_file::FileLimits;
use std::alloc::Global;
use std::io::Write;
use std::rt::{Clock, Files};

/// Reads the containers in files, and prints how many data and blocks each has. If one has a fault, it is
/// reported and the others are still read; the status is that of the first fault.
pub(crate) fn check_files<'a, R: Files + Clock + AllocGlobal, O: Output, E: Write>(
    rt: &R,
    words: &[&'a str],
    form: Form,
    is_watched: bool,
    out: &mut O,
    err: &mut E,
) -> Finding {
    let is_named = words.len() > 1;
    let mut finding = Finding::Good;
    for word in words {
        let counts = if is_watched {
            watch_file(rt, word, err)
        } else {
            check_file(rt, word)
        };
        let Err(failure) = tell_file(rt.alloc(), word, counts, is_named, form, out) else {
            continue;
        };
        let status = report(rt.alloc(), &failure, &mut WriteOutput::new(&mut *err));
        finding = finding.or_failed(status);
        if matches!(failure, Failure::CannotPrint) {
            break;
        }
    }
    finding
}

/// How many data and blocks the container in a file has, each of which is read.
fn check_file<'a, R: Files + AllocGlobal>(rt: &R, word: &'a str) -> Result<Counts, Failure<'a>> {
    let mut input = open_container(rt, word)?;
    counts_of(rt.alloc(), &mut input, word)
}

/// The same, with its progress reported.
fn watch_file<'a, R: Files + Clock + AllocGlobal, E: Write>(
    rt: &R,
    word: &'a str,
    err: &mut E,
) -> Result<Counts, Failure<'a>> {
    let mut input = open_watched(rt, word, err)?;
    let counts = counts_of(rt.alloc(), &mut input, word);
    input.finish();
    counts
}

/// Prints how many data and blocks a container has, if it has no fault.
fn tell_file<'a, O: Output>(
    alloc: Global,
    word: &'a str,
    counts: Result<Counts, Failure<'a>>,
    is_named: bool,
    form: Form,
    out: &mut O,
) -> Result<Finding, Failure<'a>> {
    match counts {
        Ok(counts) => tell_file_counts(alloc, out, word, is_named, form, counts),
        Err(failure) => Err(failure),
    }
}

/// How many data and blocks a container has, each of which is read.
fn counts_of<'a, I: Input>(
    alloc: Global,
    input: &mut I,
    word: &'a str,
) -> Result<Counts, Failure<'a>>
    ensures whole { IfOk result (λ counts. Takes I.gives input.old input.new
        (IsWhole default_limits (I.ended input.new) counts.items counts.blocks)) }
    ensures refused { (e : CopyError) (f : FileFault) → result ≡ Err (Container word.exit e) → file_fault e ≡ Some f
        → Takes I.gives input.old input.new (IsFaulty default_limits (I.ended input.new) f) }
    ensures fails { IfErr result (IsFileFailure word.exit) }
    ensures not_printed { result ≢ Err CannotPrint }
    ensures lost { IsErrOf result (CannotRead word.exit) → I.failures input.new ≢ I.failures input.old }
{
    match check(alloc, input, &FileLimits::default()) {
        Ok(counts) => Ok(counts),
        Err(error) => Err(Failure::of_container(word, error)),
    }
}
