//! Showing block after block, up to a limit.

ghost use Rattle.std.specs.Prelude.{◌≡◌, ◌≢◌, ◌+◌, ◌≤◌, ℕ, List, [], true, false, length, take, Some, IfOk, IfSome, MatchResult};
ghost use Rattle.avro_file.specs.BlockFails.{max_blocks};
ghost use Rattle.avro_lines.specs.Lines.{up_to};
ghost use Rattle.avro_lines.specs.inside.BlocksShown.{Goes, IsAll, IsFaultNext, IsNext, Shows, ShowsOr, Stops, lessened};
ghost use Rattle.avro_lines.specs.inside.OpenedSeen.{header_for, limits_for, reader_for};

use crate::block::show_block;
use crate::holding::Lines;
use crate::task::Opened;
use avro_device::{Input, Output};
use avro_file::{Blocks, CopyError};

/// Whether no more lines are wanted.
fn is_reached(left: Option<u64>) -> bool
    ensures reached { result ≡ true → left ≡ Some 0 }
    ensures more { result ≡ false → left ≢ Some 0 }
{
    match left {
        Some(left) => left == 0,
        None => false,
    }
}

/// How many lines are wanted after so many.
fn left_after(left: Option<u64>, count: u32) -> Option<u64>
    ensures { result ≡ lessened left count }
{
    match left {
        Some(left) => Some(left.saturating_sub(u64::from(count))),
        None => None,
    }
}

/// How many of so many lines are wanted.
fn wanted_of(left: Option<u64>, count: u32) -> u32
    ensures few { result ≤ count }
    ensures wanted { (lines : List (List ℕ)) → length lines ≡ count → up_to left lines ≡ take result lines }
{
    match left {
        Some(left) => {
            if left < u64::from(count) {
                left as u32
            } else {
                count
            }
        }
        None => count,
    }
}

/// Takes the next block and shows its data, as many as are wanted, and returns their number; `None` if the input ends before it.
///
/// # Errors
///
/// The first fault of the block, and then nothing is shown of it; `InputFailed`, `OutputFailed`, `OutOfMemory`.
fn show_next<I: Input, O: Output>(
    input: &mut I,
    output: &mut O,
    blocks: &mut Blocks<'_>,
    lines: &mut Lines,
    opened: &Opened<'_>,
    left: Option<u64>,
) -> Result<Option<u32>, CopyError>
    requires goes_on { (blocks.old.failed ≡ false) × (blocks.old.ended ≡ false) }
    requires same { (blocks.old.header.now ≡ opened.now.header.now) × (blocks.old.limits ≡ opened.now.task.now.limits) }
    requires marker { length opened.now.header.now.sync ≡ 16 }
    requires few { blocks.old.number ≤ max_blocks }
    ensures shown { MatchResult result
        (λ found. Goes I.gives I.failures O.keeps O.failures input.old input.new output.old output.new
        (Shows (limits_for opened.now) (reader_for opened.now) (header_for opened.now) left blocks.old.number lines.old.text lines.new.text
        (IsAll (IsNext found (I.ended input.new)))))
        (λ e. Stops I.gives I.failures O.keeps O.failures O.stuck input.old input.new output.old output.new
        (Shows (limits_for opened.now) (reader_for opened.now) (header_for opened.now) left blocks.old.number lines.old.text lines.new.text
        (IsFaultNext (limits_for opened.now) (reader_for opened.now) (header_for opened.now) blocks.old.number (I.ended input.new) e)) e) }
    ensures goes_on { IfOk result (λ found. IfSome found (λ _. (blocks.new.number ≡ blocks.old.number + 1) × (blocks.new.failed ≡ false) × (blocks.new.ended ≡ false))) }
    ensures kept { (blocks.new.header ≡ blocks.old.header) × (blocks.new.limits ≡ blocks.old.limits) }
{
    match blocks.next(input)? {
        Some(block) => {
            let count = block.count();
            let wanted = wanted_of(left, count);
            show_block(output, lines, opened, &block, wanted)?;
            Ok(Some(count))
        }
        None => Ok(None),
    }
}

/// Shows the data of the blocks after a header, up to a limit. What is behind the last block that is shown is not asked for.
///
/// # Errors
///
/// The first fault of a block; `InputFailed`, `OutputFailed`, `OutOfMemory`.
pub(crate) fn show_blocks<I: Input, O: Output>(
    input: &mut I,
    output: &mut O,
    lines: &mut Lines,
    opened: &Opened<'_>,
    limit: Option<u64>,
) -> Result<(), CopyError>
    requires none { lines.old.text ≡ [] }
    requires marker { length opened.now.header.now.sync ≡ 16 }
    ensures { ShowsOr I.gives I.ended I.failures O.keeps O.failures O.stuck (limits_for opened.now) (reader_for opened.now) (header_for opened.now) limit
        input.old input.new output.old output.new lines.new.text result }
{
    let mut blocks = Blocks::new(opened.task.alloc, opened.header, &opened.task.limits);
    let mut left = limit;
    while !is_reached(left) {
        match show_next(
            &mut *input,
            &mut *output,
            &mut blocks,
            &mut *lines,
            opened,
            left,
        )? {
            Some(count) => left = left_after(left, count),
            None => return Ok(()),
        }
    }
    Ok(())
}
