//! Showing a whole file.

ghost use Rattle.std.specs.Prelude.{◌≡◌, ◌≢◌, ◌⊎◌, [], length, option_map, unwrap_or, Some, Err, IfOk, OnOk, OnErr};
ghost use Rattle.std.specs.Option.{option_copied};
ghost use Rattle.std.specs.Result.{IfErr};
ghost use Rattle.avro_file.specs.FileFault.{FileFault};
ghost use Rattle.avro_file.specs.FileSeen.{file_fault};
ghost use Rattle.avro_file.specs.HeaderTaken.{header_value};
ghost use Rattle.avro_file.specs.Named.{IsNamed};
ghost use Rattle.avro_container.specs.Moved.{Moved};
ghost use Rattle.avro_lines.specs.Shown.{ShowsFault, ShowsFront, ShowsWhole, nodes_of};
ghost use Rattle.avro_lines.specs.inside.BlocksShown.{ShowsOr};
ghost use Rattle.avro_lines.specs.inside.OpenedSeen.{header_for, limits_for, reader_for};

use crate::holding::{Lines, put_before, put_held};
use crate::successive::show_blocks;
use crate::task::{Opened, Task};
use avro_device::{Input, Output};
use avro_display::DisplayTable;
use avro_file::{CopyError, FileLimits, Header};
use avro_resolve::Plan;
use avro_schema::{Memory, Schema};
use std::alloc::Global;

/// Shows a file within the limits in one pass: puts the line of each of its data, in order, or of as many as `limit` says, if it is
/// given. Each datum is resolved for the reader, if there is one. A block is read whole before a line of it is put; what is behind
/// the last block that is shown is not asked for. After an Ok the last call on the output was a successful flush.
///
/// # Errors
///
/// The first fault of the header and of the blocks that are asked for, and then exactly the lines of the blocks before it were put;
/// `InputFailed`, `OutputFailed`, `OutOfMemory`, and then a prefix of the lines was put.
pub fn show<I: Input, O: Output>(
    alloc: Global,
    input: &mut I,
    output: &mut O,
    reader: Option<&Schema>,
    limit: Option<u64>,
    limits: &FileLimits,
) -> Result<(), CopyError>
    ensures whole { OnOk result (Moved I.gives O.keeps input.old input.new output.old output.new
        (ShowsWhole (nodes_of reader.entry) limit limits.now (I.ended input.new))) }
    ensures front { OnErr result (Moved I.gives O.keeps input.old input.new output.old output.new
        (ShowsFront (nodes_of reader.entry) limit limits.now)) }
    ensures fault { IfErr result (λ e. (f : FileFault) → file_fault e ≡ Some f → Moved I.gives O.keeps input.old input.new output.old output.new
        (λ taken put. ShowsFault (nodes_of reader.entry) limit limits.now (I.ended input.new) taken put f)) }
    ensures named { IfErr result IsNamed }
    ensures input_fails { result ≡ Err CopyError.InputFailed → I.failures input.new ≢ I.failures input.old }
    ensures output_fails { result ≡ Err CopyError.OutputFailed → (O.failures output.new ≢ O.failures output.old) ⊎ O.stuck output.new }
    ensures output_works { OnOk result (O.failures output.new ≡ O.failures output.old) }
    ensures flushed { OnOk result (O.flushed output.new) }
    ensures first { result ≢ Err CopyError.FailedBefore }
    ensures input_works { OnOk result (I.failures input.new ≡ I.failures input.old) }
{
    let header = Header::read(alloc, input, limits)?;
    let task = Task {
        alloc,
        reader,
        limits: *limits,
    };
    match show_after(input, output, &task, &header, limit) {
        Ok(()) => Ok(()),
        Err(error) => Err(error),
    }
}

/// Shows the blocks after a header, by a plan if there is a reader.
///
/// # Errors
///
/// The first fault of a block; `InputFailed`, `OutputFailed`, `OutOfMemory`.
fn show_after<I: Input, O: Output>(
    input: &mut I,
    output: &mut O,
    task: &Task<'_>,
    header: &Header,
    limit: Option<u64>,
) -> Result<(), CopyError>
    requires marker { length header.now.sync ≡ 16 }
    ensures shown { ShowsOr I.gives I.ended I.failures O.keeps O.failures O.stuck task.now.limits (nodes_of task.now.reader) (header_value header.now) limit
        input.old input.new output.old output.new [] result }
    ensures flushed { OnOk result (O.flushed output.new) }
{
    let plan = plan_of(task, header)?;
    let table = DisplayTable::new(task.alloc, shown_schema(task, header))?;
    let opened = Opened {
        task,
        header,
        plan: &plan,
        table: &table,
    };
    show_opened(input, output, &opened, limit)
}

/// Shows the blocks after a header, and puts all lines that are held.
///
/// # Errors
///
/// Those of [`show_after`].
fn show_opened<I: Input, O: Output>(
    input: &mut I,
    output: &mut O,
    opened: &Opened<'_>,
    limit: Option<u64>,
) -> Result<(), CopyError>
    requires marker { length opened.now.header.now.sync ≡ 16 }
    ensures shown { ShowsOr I.gives I.ended I.failures O.keeps O.failures O.stuck (limits_for opened.now) (reader_for opened.now) (header_for opened.now) limit
        input.old input.new output.old output.new [] result }
    ensures flushed { OnOk result (O.flushed output.new) }
{
    let mut lines = Lines::new(opened.task.alloc);
    match show_blocks(input, &mut *output, &mut lines, opened, limit) {
        Ok(()) => put_held(output, &mut lines),
        Err(error) => Err(put_before(output, &mut lines, error)),
    }
}

/// The plan by which the data of a file are read, if there is a reader. It is made once for all blocks.
fn plan_of<'a>(task: &'a Task<'a>, header: &'a Header) -> Result<Option<Plan<'a>>, Memory>
    ensures { IfOk result (λ plan. plan ≡ option_map (λ r. (header.now.schema, r)) (option_copied task.now.reader)) }
{
    match task.reader {
        Some(reader) => Ok(Some(Plan::reached(task.alloc, header.schema(), reader)?)),
        None => Ok(None),
    }
}

/// The schema of what is shown: the reader's, if there is one.
fn shown_schema<'a>(task: &'a Task<'a>, header: &'a Header) -> &'a Schema
    ensures { result.now ≡ unwrap_or (option_copied task.now.reader) header.now.schema }
{
    match task.reader {
        Some(reader) => reader,
        None => header.schema(),
    }
}
