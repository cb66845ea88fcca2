//! The lines of the data of a block, one after another.

ghost use Rattle.std.specs.Prelude.{◌++◌, ℕ, ◌<◌, ◌≤◌, List, length, take, drop, IfOk, MatchResult};
ghost use Rattle.avro_schema.specs.Value.{Value, Values};
ghost use Rattle.avro_file.specs.BlockFails.{DataAreWhole};
ghost use Rattle.avro_lines.specs.Lines.{line_of};
ghost use Rattle.avro_lines.specs.inside.DataShown.{HasShown, HoldsMore, PutsOr, PutsSome, Stands, first_of, text_of};
ghost use Rattle.avro_lines.specs.inside.OpenedSeen.{reading_for, shown_for};

use crate::holding::{Lines, put_long};
use crate::line::{hold_line, put_read};
use crate::task::Opened;
use avro_binary::laws::prefix;
use avro_device::Output;
use avro_file::CopyError;

/// The most text that is held where more may follow.
const MOST: usize = 1_048_576;

/// How far the data of a block are shown: so many of them, which have so many bytes.
#[derive(Clone, Copy)]
pub(crate) struct Reached {
    pub(crate) done: u32,
    pub(crate) start: usize,
}

/// Holds the lines of data from a place on, up to a number of data, and returns how far. It ends sooner where much is held, or at a
/// datum whose line is not.
pub(crate) fn hold_lines(
    lines: &mut Lines,
    opened: &Opened<'_>,
    body: &[u8],
    from: Reached,
    count: u32,
) -> Reached
    requires inside { from.start ≤ length body.now }
    requires few { from.done ≤ count }
    ensures inside { result.start ≤ length body.now }
    ensures few { (from.done ≤ result.done) × (result.done ≤ count) }
    ensures holds { (some : Values) → DataAreWhole (reading_for opened.now) from.done (take from.start body.now) some
        → HoldsMore (reading_for opened.now) (shown_for opened.now) some result.done (take result.start body.now) lines.old.text lines.new.text }
{
    let mut done = from.done;
    let mut start = from.start;
    while done < count && lines.text.len() <= MOST {
        let (_, rest) = body.split_at(start);
        match hold_line(lines, opened, rest) {
            Some(len) => {
                start += len;
                done += 1;
            }
            None => return Reached { done, start },
        }
    }
    Reached { done, start }
}

/// Puts what is held and the line of the datum at a place, holds the lines of those after it as [`hold_lines`] does, and returns how
/// far. The data were walked over.
///
/// # Errors
///
/// `OutputFailed`, `OutOfMemory`.
fn put_more<O: Output>(
    output: &mut O,
    lines: &mut Lines,
    opened: &Opened<'_>,
    body: &[u8],
    from: Reached,
    count: u32,
) -> Result<Reached, CopyError>
    requires inside { from.start ≤ length body.now }
    requires less { from.done < count }
    ensures inside { IfOk result (λ to. to.start ≤ length body.now) }
    ensures few { IfOk result (λ to. (from.done < to.done) × (to.done ≤ count)) }
    ensures shown { (first : O) (held : List ℕ) (u : Value) (size : ℕ) → Stands (reading_for opened.now) (drop from.start body.now) size u
        → (had : HasShown O.keeps O.failures (reading_for opened.now) (shown_for opened.now) from.done (take from.start body.now) first held output.old lines.old.text)
        → MatchResult result (λ to. HasShown O.keeps O.failures (reading_for opened.now) (shown_for opened.now) to.done (take to.start body.now) first held output.new lines.new.text)
        (PutsSome O.keeps O.failures O.stuck first held (text_of (shown_for opened.now) had.made ++ line_of (shown_for opened.now) u) output.new lines.new.text) }
{
    let (_, rest) = body.split_at(from.start);
    let len = put_read(output, &mut *lines, opened, rest)?;
    let next = Reached {
        done: from.done + 1,
        start: from.start + len,
    };
    Ok(hold_lines(lines, opened, body, next, count))
}

/// Shows the data of a block from a place on, up to a number of data of all. The block was walked over.
///
/// # Errors
///
/// `OutputFailed`, `OutOfMemory`.
pub(crate) fn show_rest<O: Output>(
    output: &mut O,
    lines: &mut Lines,
    opened: &Opened<'_>,
    body: &[u8],
    all: u32,
    from: Reached,
    count: u32,
) -> Result<(), CopyError>
    requires inside { from.start ≤ length body.now }
    requires few { (from.done ≤ count) × (count ≤ all) }
    ensures { (first : O) (held : List ℕ) (made : Values) → DataAreWhole (reading_for opened.now) all body.now made
        → HasShown O.keeps O.failures (reading_for opened.now) (shown_for opened.now) from.done (take from.start body.now) first held output.old lines.old.text
        → PutsOr O.keeps O.failures O.stuck first held (first_of (shown_for opened.now) count made) output.new lines.new.text result }
{
    prefix();
    let mut to = from;
    while to.done < count {
        to = put_more(&mut *output, &mut *lines, opened, body, to, count)?;
    }
    put_long(output, lines)
}
