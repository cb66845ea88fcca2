//! Showing a block.

ghost use Rattle.std.specs.Prelude.{◌≡◌, ◌≤◌, None, Some, OnOk};
ghost use Rattle.std.specs.Result.{IfErr};
ghost use Rattle.avro_schema.specs.Value.{Values};
ghost use Rattle.avro_file.specs.BlockFails.{DataAreWhole};
ghost use Rattle.avro_file.specs.DataRead.{IsDataFault};
ghost use Rattle.avro_file.specs.FileFault.{FileFault};
ghost use Rattle.avro_file.specs.FileSeen.{file_fault};
ghost use Rattle.avro_lines.specs.inside.OpenedSeen.{ShowsBlock, reading_for};

use crate::holding::{Lines, put_long};
use crate::reaching::{Reached, hold_lines, show_rest};
use crate::task::Opened;
use avro_binary::Nothing;
use avro_device::Output;
use avro_file::{Block, CopyError};

/// Walks over a block: reads its data one by one, resolved for the reader if there is one.
///
/// # Errors
///
/// The first fault of the data; `OutOfMemory`.
fn walk(opened: &Opened<'_>, block: &Block<'_>) -> Result<(), CopyError>
    requires same { (block.now.header.now ≡ opened.now.header.now) × (block.now.limits ≡ opened.now.task.now.limits) }
    ensures found { OnOk result ((made : Values) × DataAreWhole (reading_for opened.now) block.now.count block.now.body.items made) }
    ensures refused { IfErr result (λ e. (f : FileFault) → file_fault e ≡ Some f → IsDataFault (reading_for opened.now) block.now.number block.now.count block.now.body.items f) }
    ensures memory { IfErr result (λ e. file_fault e ≡ None → e ≡ CopyError.OutOfMemory) }
{
    match opened.plan {
        Some(plan) => match block.read_by(plan, &mut Nothing) {
            Ok(_) => Ok(()),
            Err(error) => Err(error),
        },
        None => block.check(),
    }
}

/// Shows the first data of a block, which is walked over before.
///
/// # Errors
///
/// The first fault of the block's data, and then nothing is shown of it; `OutputFailed`, `OutOfMemory`.
fn show_part<O: Output>(
    output: &mut O,
    lines: &mut Lines,
    opened: &Opened<'_>,
    block: &Block<'_>,
    count: u32,
) -> Result<(), CopyError>
    requires same { (block.now.header.now ≡ opened.now.header.now) × (block.now.limits ≡ opened.now.task.now.limits) }
    requires few { count ≤ block.now.count }
    ensures { ShowsBlock O.keeps O.failures O.stuck opened.now block.now.number block.now.count count block.now.body.items
        output.old lines.old.text output.new lines.new.text result }
{
    match walk(opened, block) {
        Ok(()) => {
            let body = block.body();
            let all = block.count();
            let front = Reached { done: 0, start: 0 };
            let to = hold_lines(&mut *lines, opened, body, front, count);
            show_rest(output, lines, opened, body, all, to, count)
        }
        Err(error) => Err(error),
    }
}

/// Shows all data of a block. It is walked over only where they are not all held.
///
/// # Errors
///
/// Those of [`show_part`].
fn show_whole<O: Output>(
    output: &mut O,
    lines: &mut Lines,
    opened: &Opened<'_>,
    block: &Block<'_>,
) -> Result<(), CopyError>
    requires same { (block.now.header.now ≡ opened.now.header.now) × (block.now.limits ≡ opened.now.task.now.limits) }
    ensures { ShowsBlock O.keeps O.failures O.stuck opened.now block.now.number block.now.count block.now.count block.now.body.items
        output.old lines.old.text output.new lines.new.text result }
{
    let held = lines.text.len();
    let body = block.body();
    let count = block.count();
    let front = Reached { done: 0, start: 0 };
    let to = hold_lines(&mut *lines, opened, body, front, count);
    if to.done == count && to.start == body.len() {
        return put_long(output, lines);
    }
    match walk(opened, block) {
        Ok(()) => show_rest(output, lines, opened, body, count, to, count),
        Err(error) => {
            lines.text.truncate(held);
            Err(error)
        }
    }
}

/// Shows the first data of a block. Nothing is put of a block with a fault.
///
/// # Errors
///
/// Those of [`show_part`].
pub(crate) fn show_block<O: Output>(
    output: &mut O,
    lines: &mut Lines,
    opened: &Opened<'_>,
    block: &Block<'_>,
    count: u32,
) -> Result<(), CopyError>
    requires same { (block.now.header.now ≡ opened.now.header.now) × (block.now.limits ≡ opened.now.task.now.limits) }
    requires few { count ≤ block.now.count }
    ensures { ShowsBlock O.keeps O.failures O.stuck opened.now block.now.number block.now.count count block.now.body.items
        output.old lines.old.text output.new lines.new.text result }
{
    if count < block.count() {
        return show_part(output, lines, opened, block, count);
    }
    show_whole(output, lines, opened, block)
}
