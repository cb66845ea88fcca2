//! Taking a length, or a length and the content after it, of a header's metadata.

ghost use Rattle.std.specs.Prelude.{◌≡◌, ◌≢◌, ◌+◌, ◌^◌, ◌<◌, ◌≤◌, ℕ, Bool, List, max, length, take, drop, pos, IfOk, Some};
ghost use Rattle.std.specs.Result.{IfErr};
ghost use Rattle.avro_cursor.specs.Breaks.{ContentBreaks, StartsWithLong};
ghost use Rattle.avro_file.specs.FileFault.{FileFault};
ghost use Rattle.avro_file.specs.FileSeen.{file_fault, header_part_fault};
ghost use Rattle.avro_file.specs.HeaderFails.{ContentWants};
ghost use Rattle.avro_file.specs.inside.HeaderParts.{ContentFrom, LengthBreaks, LengthWants, PartStops, Refused, Takes};
ghost use Rattle.avro_file.specs.Held.{held};
ghost use Rattle.avro_file.specs.Named.{IsNamed};

use crate::error::{CopyError, LimitPlace};
use crate::input::buffer::Buffer;
use crate::input::number::take_long;
use crate::input::{PartError, Reach, fill};
use avro_binary::ReadError;
use avro_device::Input;

/// The error when a part of the metadata, whose number is at `offset`, cannot be taken.
pub(crate) fn metadata_error(error: PartError, offset: usize) -> CopyError
    ensures fault { file_fault result ≡ header_part_fault offset error }
    ensures device { result ≡ CopyError.InputFailed → error ≡ PartError.Device }
    ensures failed { error ≡ PartError.Device → result ≡ CopyError.InputFailed }
    ensures no_output { result ≢ CopyError.OutputFailed }
    ensures first { result ≢ CopyError.FailedBefore }
    ensures named { IsNamed result }
{
    match error {
        PartError::OutOfRange => CopyError::InvalidMetadata(ReadError::InvalidNumber {
            place: offset,
        }),
        PartError::Limit => CopyError::LimitExceeded(LimitPlace::Header),
        PartError::Ended => CopyError::CutHeader,
        PartError::Device => CopyError::InputFailed,
        PartError::OutOfMemory => CopyError::OutOfMemory,
    }
}

/// Takes the length that starts at `at`; returns it and the number of bytes it takes.
///
/// # Errors
///
/// `InvalidMetadata`, `LimitExceeded`, `CutHeader`; `InputFailed`, `OutOfMemory`.
pub(crate) fn take_length<I: Input>(
    input: &mut I,
    buffer: &mut Buffer,
    at: usize,
    reach: Reach,
) -> Result<(u64, usize), CopyError>
    requires begins { at ≤ length (held buffer.old) }
    requires small { reach.limit + reach.ahead < 2 ^ 62 }
    requires fits { length (held buffer.old) ≤ reach.limit }
    ensures inside { IfOk result (λ r. at + r.1 ≤ length (held buffer.new)) }
    ensures counted { IfOk result (λ r. r.0 < 2 ^ 63) }
    ensures found { IfOk result (λ r. StartsWithLong (pos r.0) (drop at (held buffer.new)) (take r.1 (drop at (held buffer.new))) (drop r.1 (drop at (held buffer.new)))) }
    ensures within { IfOk result (λ r. length (held buffer.new) ≤ max (length (held buffer.old)) (at + r.1 + reach.ahead)) }
    ensures took { IfOk result (λ _. Takes I.gives I.failures reach.limit input.old input.new (held buffer.old) (held buffer.new)) }
    ensures lost { IfErr result (λ e. Refused I.gives I.failures reach.limit input.old input.new (held buffer.old) (held buffer.new) e) }
    ensures refused { IfErr result (λ e. (f : FileFault) → file_fault e ≡ Some f → PartStops reach.limit at (I.ended input.new) (held buffer.new) LengthBreaks LengthWants f) }
{
    match take_long(input, buffer, at, reach) {
        Ok((value, len)) => {
            if value < 0 {
                return Err(CopyError::InvalidMetadata(ReadError::InvalidLength { place: at }));
            }
            Ok((value as u64, len))
        }
        Err(error) => Err(metadata_error(error, at)),
    }
}

/// Takes the content whose length starts at `at`; returns where the content starts and ends.
///
/// # Errors
///
/// `InvalidMetadata` for the length, `LimitExceeded`, `CutHeader`; `InputFailed`, `OutOfMemory`.
pub(crate) fn take_content<I: Input>(
    input: &mut I,
    buffer: &mut Buffer,
    at: usize,
    reach: Reach,
) -> Result<(usize, usize), CopyError>
    requires begins { at ≤ length (held buffer.old) }
    requires small { reach.limit + reach.ahead < 2 ^ 62 }
    requires fits { length (held buffer.old) ≤ reach.limit }
    ensures found { IfOk result (λ r. ContentFrom at r.0 r.1 (held buffer.new)) }
    ensures within { IfOk result (λ r. length (held buffer.new) ≤ max (length (held buffer.old)) (r.1 + reach.ahead)) }
    ensures took { IfOk result (λ _. Takes I.gives I.failures reach.limit input.old input.new (held buffer.old) (held buffer.new)) }
    ensures lost { IfErr result (λ e. Refused I.gives I.failures reach.limit input.old input.new (held buffer.old) (held buffer.new) e) }
    ensures refused { IfErr result (λ e. (f : FileFault) (is_content : List ℕ → Bool) → file_fault e ≡ Some f
        → PartStops reach.limit at (I.ended input.new) (held buffer.new) (ContentBreaks is_content (2 ^ 63)) ContentWants f) }
{
    let (count, len) = take_length(input, buffer, at, reach)?;
    let start = at + len;
    let end = start + count as usize;
    match fill(input, buffer, end, reach) {
        Ok(()) => Ok((start, end)),
        Err(error) => Err(metadata_error(error, at)),
    }
}
