//! A container from one stream to another.

ghost use Rattle.std.specs.Prelude.{◌≡◌, ◌≢◌, ◌⊎◌, List, ℕ, IfOk, OnOk, OnErr, IsErrOf, Err, Some};
ghost use denote.Ref.{Bor};
ghost use Rattle.std.specs.Result.{IfErr};
ghost use Rattle.avro_file.specs.FileFault.{FileFault};
ghost use Rattle.avro_file.specs.FileSeen.{file_fault};
ghost use Rattle.avro_file.specs.declared.error.CopyError.{CopyError};
ghost use Rattle.avro_container.specs.Copying.{CopiesFile, CopiesFront, CopiesUpTo};
ghost use Rattle.avro_container.specs.TaskSeen.{job_from};
ghost use Rattle.avro_tool.specs.DefaultLimits.{default_limits};
ghost use Rattle.avro_tool.specs.FailureText.{IsFileFailure};
ghost use Rattle.avro_tool.specs.declared.failure.Failure.{Failure};

use crate::Finding;
use crate::failure::Failure;
use crate::files::container::{CAPACITY, length_of, print_counts};
use crate::files::kept::STANDARD_INPUT;
use crate::files::schema::read_reader;
use crate::files::texts::Texts;
use crate::progress::Watched;
use crate::request::Piping;
use avro_container::{Counts, copy};
use avro_device::{Input, Output, ReadInput, WriteOutput};
use avro_file::{CopyError, FileLimits};
use avro_schema_json::ReaderText;
use std::alloc::Global;
use std::io::{BufReader, Read, Write};
use std::rt::{Clock, Files};

/// The word for standard input.
const INPUT: &str = "-";

/// Copies a container from a reader to a writer, and, if asked for, reports how many data and blocks a whole copy
/// has.
pub(crate) fn pipe_streams<
    'a,
    T: Texts,
    R: Files + Clock + AllocGlobal,
    I: Read,
    O: Output,
    E: Write,
>(
    texts: &T,
    rt: &R,
    asked: &Piping<'a>,
    input: &mut I,
    out: &mut O,
    err: &mut E,
) -> Result<Finding, Failure<'a>> {
    let reader = read_reader(texts, asked.reader)?;
    let counts = if asked.is_watched {
        pipe_watched(rt, reader.as_ref(), asked.sync, input, out, err)?
    } else {
        pipe_for(rt.alloc(), reader.as_ref(), asked.sync, input, out)?
    };
    if asked.is_counted {
        // If standard error fails, the copy is still whole.
        let _ = print_counts(&mut WriteOutput::new(err), counts);
    }
    Ok(Finding::Good)
}

/// Copies a container from a reader to a writer for a reader's schema, where there is one, and returns how many data and
/// blocks it has.
fn pipe_for<'a, I: Read, O: Output>(
    alloc: Global,
    reader: Option<&ReaderText>,
    sync: Option<[u8; 16]>,
    input: &mut I,
    out: &mut O,
) -> Result<Counts, Failure<'a>> {
    match BufReader::with_capacity(alloc, CAPACITY, input) {
        Ok(input) => pipe_from(alloc, &mut ReadInput::new(input), reader, sync, out),
        Err(_) => Err(Failure::OutOfMemory),
    }
}

/// The same, with its progress reported.
fn pipe_watched<'a, R: Files + Clock + AllocGlobal, I: Read, O: Output, E: Write>(
    rt: &R,
    reader: Option<&ReaderText>,
    sync: Option<[u8; 16]>,
    input: &mut I,
    out: &mut O,
    err: &mut E,
) -> Result<Counts, Failure<'a>> {
    match BufReader::with_capacity(rt.alloc(), CAPACITY, input) {
        Ok(input) => pipe_told(rt, ReadInput::new(input), reader, sync, out, err),
        Err(_) => Err(Failure::OutOfMemory),
    }
}

/// The same for an input, and reports its progress.
fn pipe_told<'a, R: Files + Clock + AllocGlobal, I: Input + Drop, O: Output, E: Write>(
    rt: &R,
    input: I,
    reader: Option<&ReaderText>,
    sync: Option<[u8; 16]>,
    out: &mut O,
    err: &mut E,
) -> Result<Counts, Failure<'a>> {
    let length = length_of(rt, STANDARD_INPUT);
    let mut source = Watched::new(input, length, rt, err);
    let counts = pipe_from(rt.alloc(), &mut source, reader, sync, out);
    source.finish();
    counts
}

/// The same for what is read.
fn pipe_from<'a, I: Input, O: Output>(
    alloc: Global,
    input: &mut I,
    reader: Option<&ReaderText>,
    sync: Option<[u8; 16]>,
    out: &mut O,
) -> Result<Counts, Failure<'a>>
    ensures whole { IfOk result (λ counts. CopiesFile I.gives O.keeps input.old input.new out.old out.new
        (job_from reader.entry sync) default_limits (I.ended input.new) counts.items counts.blocks) }
    ensures flushed { OnOk result (O.flushed out.new) }
    ensures front { OnErr result (CopiesFront I.gives O.keeps input.old input.new out.old out.new (job_from reader.entry sync) default_limits) }
    ensures refused { (word : Bor (List ℕ)) (e : CopyError) (f : FileFault) → result ≡ Err (Failure.Container word e) → file_fault e ≡ Some f
        → CopiesUpTo I.gives O.keeps input.old input.new out.old out.new (job_from reader.entry sync) default_limits (I.ended input.new) f }
    ensures fails { IfErr result (λ f. (word : Bor (List ℕ)) × IsFileFailure word f) }
    ensures failed { IsErrOf result Failure.CannotPrint → (O.failures out.new ≢ O.failures out.old) ⊎ O.stuck out.new }
    ensures works { OnOk result (O.failures out.new ≡ O.failures out.old) }
    ensures lost { (word : Bor (List ℕ)) → IsErrOf result (Failure.CannotRead word) → I.failures input.new ≢ I.failures input.old }
{
    match copy(alloc, input, out, reader, sync, &FileLimits::default()) {
        Ok(counts) => Ok(counts),
        Err(CopyError::OutputFailed) => Err(Failure::CannotPrint),
        Err(error) => Err(Failure::of_container(INPUT, error)),
    }
}
