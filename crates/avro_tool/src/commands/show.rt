//! The data of a container, a line for each.

ghost use Rattle.std.specs.Prelude.{◌≡◌, ◌≢◌, ◌⊎◌, IfOk, OnOk, OnErr, IsErrOf, Err, Some};
ghost use Rattle.std.specs.Result.{IfErr};
ghost use Rattle.avro_file.specs.FileFault.{FileFault};
ghost use Rattle.avro_file.specs.FileSeen.{file_fault};
ghost use Rattle.avro_file.specs.declared.error.CopyError.{CopyError};
ghost use Rattle.avro_container.specs.Moved.{Moved};
ghost use Rattle.avro_lines.specs.Shown.{ShowsFault, ShowsFront, ShowsWhole, nodes_of};
ghost use Rattle.avro_tool.specs.DefaultLimits.{default_limits};
ghost use Rattle.avro_tool.specs.FailureText.{IsFileFailure};
ghost use Rattle.avro_tool.specs.FoundStatus.{finding_status};
ghost use Rattle.avro_tool.specs.declared.failure.Failure.TheVariants.{Container, CannotRead, CannotPrint};

use crate::Finding;
use crate::failure::Failure;
use crate::files::container::open_container;
use crate::files::schema::read_reader;
use crate::files::texts::Texts;
use avro_device::{Input, Output};
use avro_file::{CopyError, FileLimits};
use avro_lines::show;
use avro_schema::Schema;
use avro_schema_json::ReaderText;
use std::alloc::Global;
use std::rt::Files;

/// Prints a line for each datum of the container in a file, resolved to a reader's schema if a file is
/// named for it, and no more lines than the limit, if there is one.
pub(crate) fn show_file<'a, T: Texts, R: Files + AllocGlobal, O: Output>(
    texts: &T,
    rt: &R,
    word: &'a str,
    reader: Option<&'a str>,
    limit: Option<u64>,
    out: &mut O,
) -> Result<Finding, Failure<'a>> {
    let reader = read_reader(texts, reader)?;
    show_for(rt, word, schema_of(&reader), limit, out)
}

/// The schema of a reader, if there is one.
fn schema_of(reader: &Option<ReaderText>) -> Option<&Schema> {
    match reader {
        Some(reader) => Some(reader.schema()),
        None => None,
    }
}

/// Prints the data of the container in a file for a reader's schema, where there is one.
fn show_for<'a, R: Files + AllocGlobal, O: Output>(
    rt: &R,
    word: &'a str,
    reader: Option<&Schema>,
    limit: Option<u64>,
    out: &mut O,
) -> Result<Finding, Failure<'a>> {
    let mut input = open_container(rt, word)?;
    tell_lines(rt.alloc(), &mut input, word, reader, limit, out)
}

/// Prints the lines of the data of a container. Where it has a fault, those of the blocks before it are printed.
fn tell_lines<'a, I: Input, O: Output>(
    alloc: Global,
    input: &mut I,
    word: &'a str,
    reader: Option<&Schema>,
    limit: Option<u64>,
    out: &mut O,
) -> Result<Finding, Failure<'a>>
    ensures whole { OnOk result (Moved I.gives O.keeps input.old input.new out.old out.new
        (ShowsWhole (nodes_of reader.entry) limit default_limits (I.ended input.new))) }
    ensures flushed { OnOk result (O.flushed out.new) }
    ensures front { OnErr result (Moved I.gives O.keeps input.old input.new out.old out.new (ShowsFront (nodes_of reader.entry) limit default_limits)) }
    ensures refused { (e : CopyError) (f : FileFault) → result ≡ Err (Container word.exit e) → file_fault e ≡ Some f
        → Moved I.gives O.keeps input.old input.new out.old out.new (λ taken put. ShowsFault (nodes_of reader.entry) limit default_limits (I.ended input.new) taken put f) }
    ensures good { IfOk result (λ f. finding_status f ≡ 0) }
    ensures fails { IfErr result (IsFileFailure word.exit) }
    ensures failed { IsErrOf result CannotPrint → (O.failures out.new ≢ O.failures out.old) ⊎ O.stuck out.new }
    ensures works { OnOk result (O.failures out.new ≡ O.failures out.old) }
    ensures lost { IsErrOf result (CannotRead word.exit) → I.failures input.new ≢ I.failures input.old }
{
    match show(alloc, input, out, reader, limit, &FileLimits::default()) {
        Ok(()) => Ok(Finding::Good),
        Err(CopyError::OutputFailed) => Err(Failure::CannotPrint),
        Err(error) => Err(Failure::of_container(word, error)),
    }
}
