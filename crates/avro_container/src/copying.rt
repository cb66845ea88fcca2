//! Copying a whole file.

ghost use Rattle.std.specs.Prelude.{◌≡◌, ◌≢◌, ◌⊎◌, OnOk, Err, IfOk, OnErr, Some};
ghost use Rattle.std.specs.Result.{IfErr};
ghost use Rattle.avro_container.specs.Copying.{CopiesFile, CopiesFront, CopiesUpTo};
ghost use Rattle.avro_file.specs.FileFault.{FileFault};
ghost use Rattle.avro_file.specs.FileSeen.{file_fault};
ghost use Rattle.avro_file.specs.Named.{IsNamed};
ghost use Rattle.avro_container.specs.CopierSeen.{job_in, limits_in, stored_of};
ghost use Rattle.avro_container.specs.Steps.{fresh};
ghost use Rattle.avro_container.specs.TaskSeen.{job_from};

mod block;
pub(crate) mod copier;
mod datum;
mod header;
mod opened;
mod packing;
mod state;

use crate::copying::copier::Copier;
use crate::sink::put_rest;
use avro_device::{Input, Output};
use avro_file::{CopyError, FileLimits};
use avro_schema_json::ReaderText;
use std::alloc::Global;

/// What a step of a copy did.
#[derive(Clone, Copy, Debug, PartialEq, Eq)]
pub enum Step {
    /// It put the header.
    Header,
    /// It put a block with this number of data.
    Block(u64),
    /// The input has reported its end.
    End,
}

/// The number of data and blocks in a file.
#[derive(Clone, Copy, Debug, PartialEq, Eq)]
pub struct Counts {
    /// The number of data in all blocks.
    pub items: u64,
    /// The number of blocks.
    pub blocks: u64,
}

/// Copies a whole file within the limits in one pass, to where the input reports its end, and returns the number of its data and blocks.
/// Each datum is resolved for the reader, if there is one, and put in its plain encoding. `sync` is the marker of the copy; without it, the
/// copy has the file's. After an Ok the last call on the output was a successful flush.
///
/// # Errors
///
/// The first fault of the file, and then exactly the copy of what comes before it was put; `InputFailed`, `OutputFailed`, `OutOfMemory`,
/// and then a prefix of a copy was put.
pub fn copy<'a, I: Input, O: Output>(
    alloc: Global,
    input: &mut I,
    output: &mut O,
    reader: Option<&'a ReaderText>,
    sync: Option<[u8; 16]>,
    limits: &FileLimits,
) -> Result<Counts, CopyError>
    ensures whole { IfOk result (λ counts. CopiesFile I.gives O.keeps input.old input.new output.old output.new
        (job_from reader.entry sync) limits.now (I.ended input.new) counts.items counts.blocks) }
    ensures front { OnErr result (CopiesFront I.gives O.keeps input.old input.new output.old output.new
        (job_from reader.entry sync) limits.now) }
    ensures fault { IfErr result (λ e. (f : FileFault) → file_fault e ≡ Some f → CopiesUpTo I.gives O.keeps input.old input.new output.old output.new
        (job_from reader.entry sync) limits.now (I.ended input.new) f) }
    ensures named { IfErr result IsNamed }
    ensures input_fails { result ≡ Err CopyError.InputFailed → I.failures input.new ≢ I.failures input.old }
    ensures output_fails { result ≡ Err CopyError.OutputFailed → (O.failures output.new ≢ O.failures output.old) ⊎ O.stuck output.new }
    ensures output_works { OnOk result (O.failures output.new ≡ O.failures output.old) }
    ensures flushed { OnOk result (O.flushed output.new) }
    ensures first { result ≢ Err CopyError.FailedBefore }
    ensures input_works { OnOk result (I.failures input.new ≡ I.failures input.old) }
{
    let mut copier = Copier::new(alloc, reader, sync, limits);
    copy_all(&mut copier, input, output)
}

/// Takes all steps of a new copier, and flushes the output.
///
/// # Errors
///
/// The first fault of the file; `InputFailed`, `OutputFailed`, `OutOfMemory`.
fn copy_all<I: Input, O: Output>(
    copier: &mut Copier<'_>,
    input: &mut I,
    output: &mut O,
) -> Result<Counts, CopyError>
    requires fresh { stored_of copier.old ≡ fresh }
    ensures whole { IfOk result (λ counts. CopiesFile I.gives O.keeps input.old input.new output.old output.new
        (job_in copier.old) (limits_in copier.old) (I.ended input.new) counts.items counts.blocks) }
    ensures front { OnErr result (CopiesFront I.gives O.keeps input.old input.new output.old output.new
        (job_in copier.old) (limits_in copier.old)) }
    ensures fault { IfErr result (λ e. (f : FileFault) → file_fault e ≡ Some f → CopiesUpTo I.gives O.keeps input.old input.new output.old output.new
        (job_in copier.old) (limits_in copier.old) (I.ended input.new) f) }
    ensures named { IfErr result IsNamed }
    ensures input_fails { result ≡ Err CopyError.InputFailed → I.failures input.new ≢ I.failures input.old }
    ensures output_fails { result ≡ Err CopyError.OutputFailed → (O.failures output.new ≢ O.failures output.old) ⊎ O.stuck output.new }
    ensures output_works { OnOk result (O.failures output.new ≡ O.failures output.old) }
    ensures flushed { OnOk result (O.flushed output.new) }
    ensures first { result ≢ Err CopyError.FailedBefore }
    ensures input_works { OnOk result (I.failures input.new ≡ I.failures input.old) }
{
    let mut counts = Counts {
        items: 0,
        blocks: 0,
    };
    loop {
        match copier.step(input, output)? {
            Step::Header => {}
            Step::Block(count) => {
                counts.items += count;
                counts.blocks += 1;
            }
            Step::End => break,
        }
    }
    put_rest(output)?;
    Ok(counts)
}
