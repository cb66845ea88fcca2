ghost use Rattle.std.specs.Prelude.{◌≡◌, IfOk, OnOk, OnErr, Some};
ghost use Rattle.std.specs.Result.{IfErr};
ghost use Rattle.avro_file.specs.FileFault.{FileFault};
ghost use Rattle.avro_file.specs.FileSeen.{file_fault};
ghost use Rattle.avro_container.specs.Copying.{CopiesFile, CopiesFront, CopiesUpTo};
ghost use Rattle.avro_container.specs.TaskSeen.{job_from};
ghost use Rattle.avro_tool.specs.DefaultLimits.{default_limits};

use crate::Finding;
use crate::failure::Failure;
use crate::files::container::{open_container, open_watched, tell_counts};
use crate::files::late::LateFile;
use crate::files::schema::read_reader;
use crate::files::texts::Texts;
use crate::request::Copying;
use avro_container::{Counts, copy};
use avro_device::{Input, Output, WriteOutput};
use avro_file::{CopyError, FileLimits};
use avro_schema_json::ReaderText;
use std::alloc::Global;
use std::io::Write;
use std::rt::{Clock, Files};

/// Copies the container in a file into another one, and prints how many data and blocks it has. The other
/// file is created, or truncated, once the header was read.
pub(crate) fn copy_file<'a, T: Texts, R: Files + Clock + AllocGlobal, O: Output, E: Write>(
    texts: &T,
    rt: &R,
    asked: &Copying<'a>,
    out: &mut O,
    err: &mut E,
) -> Result<Finding, Failure<'a>> {
    let reader = read_reader(texts, asked.reader)?;
    let counts = if asked.is_watched {
        copy_watched(rt, asked, reader.as_ref(), err)?
    } else {
        copy_for(rt, asked, reader.as_ref())?
    };
    tell_counts(out, counts)
}

/// Copies the container in a file for a reader's schema, where there is one.
fn copy_for<'a, R: Files + AllocGlobal>(
    rt: &R,
    asked: &Copying<'a>,
    reader: Option<&ReaderText>,
) -> Result<Counts, Failure<'a>> {
    let mut source = open_container(rt, asked.source)?;
    copy_from(rt, &mut source, asked, reader)
}

/// The same, with its progress reported.
fn copy_watched<'a, R: Files + Clock + AllocGlobal, E: Write>(
    rt: &R,
    asked: &Copying<'a>,
    reader: Option<&ReaderText>,
    err: &mut E,
) -> Result<Counts, Failure<'a>> {
    let mut source = open_watched(rt, asked.source, err)?;
    let counts = copy_from(rt, &mut source, asked, reader);
    source.finish();
    counts
}

/// Copies a container into a file, which is closed before the counts are printed.
fn copy_from<'a, R: Files + AllocGlobal, I: Input>(
    rt: &R,
    source: &mut I,
    asked: &Copying<'a>,
    reader: Option<&ReaderText>,
) -> Result<Counts, Failure<'a>> {
    let mut file = LateFile::new(rt, asked.output);
    let copied = copy_into(
        rt.alloc(),
        source,
        &mut WriteOutput::new(&mut file),
        asked,
        reader,
    );
    match copied {
        Ok(counts) => Ok(counts),
        Err(CopyError::OutputFailed) => Err(file.failure()),
        Err(error) => Err(Failure::of_container(asked.source, error)),
    }
}

/// Copies a container into an output, with the marker that is asked for.
fn copy_into<I: Input, O: Output>(
    alloc: Global,
    input: &mut I,
    output: &mut O,
    asked: &Copying<'_>,
    reader: Option<&ReaderText>,
) -> Result<Counts, CopyError>
    ensures whole { IfOk result (λ counts. CopiesFile I.gives O.keeps input.old input.new output.old output.new
        (job_from reader.entry asked.now.sync) default_limits (I.ended input.new) counts.items counts.blocks) }
    ensures flushed { OnOk result (O.flushed output.new) }
    ensures front { OnErr result (CopiesFront I.gives O.keeps input.old input.new output.old output.new (job_from reader.entry asked.now.sync) default_limits) }
    ensures fault { IfErr result (λ e. (f : FileFault) → file_fault e ≡ Some f
        → CopiesUpTo I.gives O.keeps input.old input.new output.old output.new (job_from reader.entry asked.now.sync) default_limits (I.ended input.new) f) }
{
    copy(
        alloc,
        input,
        output,
        reader,
        asked.sync,
        &FileLimits::default(),
    )
}
