//! The text that is held, and putting it.

ghost use Rattle.std.specs.Prelude.{◌≡◌, [], MatchResult};
ghost use Rattle.avro_lines.specs.inside.DataShown.{Puts, PutsSome};
ghost use Rattle.avro_lines.specs.inside.OutputTold.{PutFails, PutsBefore, PutsFlushed};

use avro_device::{Output, put_all};
use avro_display::Text;
use avro_file::CopyError;
use avro_show::Scratch;
use std::alloc::Global;

/// So much text goes out at once.
const CAPACITY: usize = 65_536;

/// The lines that are held, and what the display of a datum is made in.
#[derive(Drop)]
pub(crate) struct Lines {
    pub(crate) text: Text,
    pub(crate) scratch: Scratch,
}

impl Lines {
    ghost use Rattle.std.specs.Prelude.{◌≡◌, []};

    /// No lines.
    pub(crate) fn new(alloc: Global) -> Lines
        ensures { result.text ≡ [] }
    {
        Lines {
            text: Text::new(alloc),
            scratch: Scratch::new(alloc),
        }
    }
}

/// Puts bytes, and flushes.
///
/// # Errors
///
/// `OutputFailed`: a prefix of the bytes was put.
fn put_flushed<O: Output>(output: &mut O, bytes: &[u8]) -> Result<(), CopyError>
    ensures { MatchResult result (λ _. PutsFlushed O.keeps O.flushed O.failures output.old bytes.now output.new)
        (PutFails O.keeps O.failures O.stuck output.old bytes.now output.new) }
{
    match put_all(&mut *output, bytes) {
        Ok(()) => {}
        Err(_) => return Err(CopyError::OutputFailed),
    }
    match output.flush() {
        Ok(()) => Ok(()),
        Err(_) => Err(CopyError::OutputFailed),
    }
}

/// Puts all that is held, and flushes. No part of it is put again if the output fails.
///
/// # Errors
///
/// `OutputFailed`.
pub(crate) fn put_held<O: Output>(output: &mut O, lines: &mut Lines) -> Result<(), CopyError>
    ensures none { lines.new.text ≡ [] }
    ensures held { MatchResult result (λ _. PutsFlushed O.keeps O.flushed O.failures output.old lines.old.text output.new)
        (PutFails O.keeps O.failures O.stuck output.old lines.old.text output.new) }
{
    let put = put_flushed(output, lines.text.as_slice());
    lines.text.clear();
    put
}

/// Puts what is held if it is long.
///
/// # Errors
///
/// `OutputFailed`.
pub(crate) fn put_long<O: Output>(output: &mut O, lines: &mut Lines) -> Result<(), CopyError>
    ensures { MatchResult result (λ _. Puts O.keeps O.failures output.old lines.old.text [] output.new lines.new.text)
        (λ e. (e ≡ CopyError.OutputFailed) × PutsSome O.keeps O.failures O.stuck output.old lines.old.text [] output.new lines.new.text e) }
{
    if lines.text.len() < CAPACITY {
        return Ok(());
    }
    put_held(output, lines)
}

/// Puts what is held before an error is told, and returns the error to tell: that the output failed, if it did.
pub(crate) fn put_before<O: Output>(
    output: &mut O,
    lines: &mut Lines,
    error: CopyError,
) -> CopyError
    ensures { PutsBefore O.keeps O.failures O.stuck output.old lines.old.text output.new error result }
{
    if error == CopyError::OutputFailed {
        return error;
    }
    match put_held(output, lines) {
        Ok(()) => error,
        Err(failed) => failed,
    }
}
