//! Taking the head of a block in a header's metadata.

ghost use Rattle.std.specs.Prelude.{◌≡◌, ◌+◌, ◌^◌, ◌<◌, ◌≤◌, ℕ, true, max, length, take, drop, IfOk, Some};
ghost use Rattle.std.specs.Result.{IfErr};
ghost use Rattle.avro_cursor.specs.Breaks.{HeadBreaks, StartsWithLong};
ghost use Rattle.avro_cursor.specs.BlockHeads.{signed_count};
ghost use Rattle.avro_file.specs.FileFault.{FileFault};
ghost use Rattle.avro_file.specs.FileSeen.{file_fault};
ghost use Rattle.avro_file.specs.inside.HeaderParts.{PartStops, Refused, Takes};
ghost use Rattle.avro_file.specs.inside.MetadataParts.{TakesHead};
ghost use Rattle.avro_file.specs.Held.{held};

use crate::error::CopyError;
use crate::header::content::{metadata_error, take_length};
use crate::input::Reach;
use crate::input::buffer::Buffer;
use crate::input::number::take_long;
use avro_binary::ReadError;
use avro_device::Input;

/// The head of a block in the metadata: the number of its properties, where they start, and the size given for them, if
/// any, with its offset. A block without properties ends the metadata.
#[derive(Clone, Copy, Debug)]
pub(crate) struct PropertiesHead {
    pub(crate) count: u64,
    pub(crate) start: usize,
    pub(crate) is_sized: bool,
    pub(crate) size: u64,
    pub(crate) offset: usize,
}

/// Takes the block count that starts at `at`; returns whether it is negative, its magnitude, and the number of bytes it
/// takes.
///
/// # Errors
///
/// `InvalidMetadata`, `LimitExceeded`, `CutHeader`; `InputFailed`, `OutOfMemory`.
fn take_properties_count<I: Input>(
    input: &mut I,
    buffer: &mut Buffer,
    at: usize,
    reach: Reach,
) -> Result<(bool, u64, usize), CopyError>
    requires begins { at ≤ length (held buffer.old) }
    requires small { reach.limit + reach.ahead < 2 ^ 62 }
    requires fits { length (held buffer.old) ≤ reach.limit }
    ensures inside { IfOk result (λ r. at + r.2 ≤ length (held buffer.new)) }
    ensures some { IfOk result (λ r. r.0 ≡ true → 0 < r.1) }
    ensures small { IfOk result (λ r. r.1 < 2 ^ 63) }
    ensures stands { IfOk result (λ r. StartsWithLong (signed_count r.0 r.1) (drop at (held buffer.new)) (take r.2 (drop at (held buffer.new))) (drop r.2 (drop at (held buffer.new)))) }
    ensures within { IfOk result (λ r. length (held buffer.new) ≤ max (length (held buffer.old)) (at + r.2 + reach.ahead)) }
    ensures took { IfOk result (λ _. Takes I.gives I.failures reach.limit input.old input.new (held buffer.old) (held buffer.new)) }
    ensures lost { IfErr result (λ e. Refused I.gives I.failures reach.limit input.old input.new (held buffer.old) (held buffer.new) e) }
    ensures refused { IfErr result (λ e. (f : FileFault) (nodes : ℕ) → file_fault e ≡ Some f → PartStops reach.limit at (I.ended input.new) (held buffer.new) (HeadBreaks nodes) (HeadBreaks nodes) f) }
{
    let (count, len) = match take_long(input, buffer, at, reach) {
        Ok(found) => found,
        Err(error) => return Err(metadata_error(error, at)),
    };
    if count == i64::MIN {
        return Err(CopyError::InvalidMetadata(ReadError::InvalidLength { place: at }));
    }
    Ok((count < 0, count.unsigned_abs(), len))
}

/// Takes the head of the block that starts at `at`, or the 0 that ends the metadata.
///
/// # Errors
///
/// `InvalidMetadata`, `LimitExceeded`, `CutHeader`; `InputFailed`, `OutOfMemory`.
pub(crate) fn take_properties_head<I: Input>(
    input: &mut I,
    buffer: &mut Buffer,
    at: usize,
    reach: Reach,
) -> Result<PropertiesHead, CopyError>
    requires begins { at ≤ length (held buffer.old) }
    requires small { reach.limit + reach.ahead < 2 ^ 62 }
    requires fits { length (held buffer.old) ≤ reach.limit }
    ensures found { IfOk result (TakesHead at (held buffer.new)) }
    ensures within { IfOk result (λ h. length (held buffer.new) ≤ max (length (held buffer.old)) (h.start + reach.ahead)) }
    ensures inside { IfOk result (λ h. h.start ≤ length (held buffer.new)) }
    ensures took { IfOk result (λ _. Takes I.gives I.failures reach.limit input.old input.new (held buffer.old) (held buffer.new)) }
    ensures lost { IfErr result (λ e. Refused I.gives I.failures reach.limit input.old input.new (held buffer.old) (held buffer.new) e) }
    ensures refused { IfErr result (λ e. (f : FileFault) (nodes : ℕ) → file_fault e ≡ Some f → 2 ^ 63 ≤ nodes
        → PartStops reach.limit at (I.ended input.new) (held buffer.new) (HeadBreaks nodes) (HeadBreaks nodes) f) }
{
    let (is_sized, count, len) = take_properties_count(input, buffer, at, reach)?;
    let offset = at + len;
    if !is_sized {
        return Ok(PropertiesHead {
            count,
            start: offset,
            is_sized,
            size: 0,
            offset,
        });
    }
    let (size, more) = take_length(input, buffer, offset, reach)?;
    Ok(PropertiesHead {
        count,
        start: offset + more,
        is_sized,
        size,
        offset,
    })
}
