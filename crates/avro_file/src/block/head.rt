//! Checking whether there is another block, and taking its count and size.

ghost use Rattle.std.specs.Prelude.{◌≡◌, ◌≢◌, ◌+◌, ◌-◌, ◌^◌, ◌<◌, ◌≤◌, max, true, false, None, length, OnOk, OnErr, IfOk, Err, pos, take, drop, Some, ℕ, List};
ghost use Rattle.std.specs.Result.{IfErr};
ghost use Rattle.avro_cursor.specs.Breaks.{StartsWithLong};
ghost use Rattle.avro_file.specs.FileSeen.{file_fault, part_fault};
ghost use Rattle.avro_file.specs.Filled.{GrowsBy, TakesAtMost, UnlessFailed};
ghost use Rattle.avro_file.specs.Held.{held};
ghost use Rattle.avro_file.specs.Named.{IsNamed};
ghost use Rattle.avro_file.specs.BlockStands.{CountStops, IsBlockFault};
ghost use Rattle.avro_file.specs.FileFault.{FileFault};
ghost use Rattle.avro_file.specs.BlockFails.{BlockBegins, max_blocks};

use crate::error::{CopyError, CountError, LimitPlace};
use crate::input::buffer::Buffer;
use crate::input::number::take_long;
use crate::input::{PartError, Reach, fill};
use crate::limits::FileLimits;
use avro_device::Input;
use avro_zigzag::VarError;

/// Whether there is another byte, which starts a block. If not, the input has reported its end.
///
/// # Errors
///
/// `InputFailed`, `OutOfMemory`.
pub(crate) fn begins_block<I: Input>(
    input: &mut I,
    buffer: &mut Buffer,
    number: u64,
    reach: Reach,
) -> Result<bool, CopyError>
    requires small { reach.limit + reach.ahead < 2 ^ 63 }
    requires some { 1 ≤ reach.limit }
    ensures there { IfOk result (λ there. there ≡ true → 0 < length (held buffer.new)) }
    ensures none { IfOk result (λ there. there ≡ false → length (held buffer.new) ≡ 0) }
    ensures told { IfOk result (λ there. there ≡ false → I.ended input.new) }
    ensures taken { UnlessFailed result (GrowsBy I.gives input.old input.new (held buffer.old) (held buffer.new)) }
    ensures lost { OnErr result (TakesAtMost I.gives input.old input.new (reach.limit - length (held buffer.old))) }
    ensures within { length (held buffer.new) ≤ max (length (held buffer.old)) (1 + reach.ahead) }
    ensures limited { length (held buffer.new) ≤ max (length (held buffer.old)) reach.limit }
    ensures refused { IfErr result (λ e. file_fault e ≡ None) }
    ensures works { OnOk result (I.failures input.new ≡ I.failures input.old) }
    ensures fails { result ≡ Err CopyError.InputFailed → I.failures input.new ≢ I.failures input.old }
    ensures no_output { result ≢ Err CopyError.OutputFailed }
    ensures first { result ≢ Err CopyError.FailedBefore }
    ensures named { IfErr result IsNamed }
{
    match fill(input, buffer, 1, reach) {
        Ok(()) => Ok(true),
        Err(PartError::Ended) => Ok(false),
        Err(error) => Err(block_error(error, number)),
    }
}

/// The error when a part of a block cannot be taken.
pub(crate) fn block_error(error: PartError, number: u64) -> CopyError
    ensures fault { file_fault result ≡ part_fault number error }
    ensures device { result ≡ CopyError.InputFailed → error ≡ PartError.Device }
    ensures no_output { result ≢ CopyError.OutputFailed }
    ensures first { result ≢ CopyError.FailedBefore }
    ensures failed { error ≡ PartError.Device → result ≡ CopyError.InputFailed }
    ensures named { IsNamed result }
{
    match error {
        PartError::OutOfRange => {
            CopyError::InvalidCount(number, CountError::Invalid(VarError::OutOfRange))
        }
        PartError::Limit => CopyError::LimitExceeded(LimitPlace::Block(number)),
        PartError::Ended => CopyError::CutBlock(number),
        PartError::Device => CopyError::InputFailed,
        PartError::OutOfMemory => CopyError::OutOfMemory,
    }
}

/// Takes the count or the size that starts after a number of bytes of a block; returns it and its
/// length in bytes.
///
/// # Errors
///
/// `InvalidCount`, `CutBlock`; `InputFailed`, `OutOfMemory`.
pub(crate) fn take_count<I: Input>(
    input: &mut I,
    buffer: &mut Buffer,
    at: usize,
    number: u64,
    reach: Reach,
) -> Result<(u64, usize), CopyError>
    requires begins { at ≤ length (held buffer.old) }
    requires small { reach.limit + reach.ahead < 2 ^ 63 }
    requires fits { length (held buffer.old) < 2 ^ 63 }
    requires near { at + 10 ≤ reach.limit }
    ensures inside { IfOk result (λ r. at + r.1 ≤ length (held buffer.new)) }
    ensures short { IfOk result (λ r. r.1 ≤ 10) }
    ensures found { IfOk result (λ r. StartsWithLong (pos r.0) (drop at (held buffer.new)) (take r.1 (drop at (held buffer.new))) (drop r.1 (drop at (held buffer.new)))) }
    ensures taken { UnlessFailed result (GrowsBy I.gives input.old input.new (held buffer.old) (held buffer.new)) }
    ensures lost { OnErr result (TakesAtMost I.gives input.old input.new (reach.limit - length (held buffer.old))) }
    ensures within { IfOk result (λ r. length (held buffer.new) ≤ max (length (held buffer.old)) (at + r.1 + reach.ahead)) }
    ensures limited { length (held buffer.new) ≤ max (length (held buffer.old)) reach.limit }
    ensures refused { IfErr result (λ e. (f : FileFault) → file_fault e ≡ Some f → CountStops number (I.ended input.new) (drop at (held buffer.new)) f) }
    ensures works { OnOk result (I.failures input.new ≡ I.failures input.old) }
    ensures fails { result ≡ Err CopyError.InputFailed → I.failures input.new ≢ I.failures input.old }
    ensures no_output { result ≢ Err CopyError.OutputFailed }
    ensures first { result ≢ Err CopyError.FailedBefore }
    ensures named { IfErr result IsNamed }
{
    match take_long(input, buffer, at, reach) {
        Ok((value, len)) => {
            if value < 0 {
                return Err(CopyError::InvalidCount(number, CountError::Negative));
            }
            Ok((value as u64, len))
        }
        Err(error) => Err(block_error(error, number)),
    }
}

/// The number of a block's data, where among its bytes they start, and their length in bytes.
#[derive(Clone, Copy, Debug)]
pub struct BlockHead {
    /// The number of data.
    pub count: u32,
    /// Where the data start.
    pub start: usize,
    /// The length of the data in bytes.
    pub size: usize,
}

/// Takes the count and the size of a block.
///
/// # Errors
///
/// `InvalidCount`, `CutBlock`, `LimitExceeded`; `InputFailed`, `OutOfMemory`.
pub(crate) fn take_head<I: Input>(
    input: &mut I,
    buffer: &mut Buffer,
    number: u64,
    limits: &FileLimits,
    reach: Reach,
) -> Result<BlockHead, CopyError>
    requires small { reach.limit + reach.ahead < 2 ^ 63 }
    requires fits { length (held buffer.old) < 2 ^ 63 }
    requires near { 20 ≤ reach.limit }
    requires some { 0 < length (held buffer.old) }
    requires few { number < max_blocks }
    ensures inside { IfOk result (λ head. head.start ≤ length (held buffer.new)) }
    ensures short { IfOk result (λ head. head.start ≤ 20) }
    ensures found { IfOk result (λ head. BlockBegins (held buffer.new) head.count head.size (drop head.start (held buffer.new))) }
    ensures counted { IfOk result (λ head. head.count ≤ limits.now.per_block) }
    ensures sized { IfOk result (λ head. head.size ≤ limits.now.block) }
    ensures taken { UnlessFailed result (GrowsBy I.gives input.old input.new (held buffer.old) (held buffer.new)) }
    ensures lost { OnErr result (TakesAtMost I.gives input.old input.new (reach.limit - length (held buffer.old))) }
    ensures within { IfOk result (λ head. length (held buffer.new) ≤ max (length (held buffer.old)) (head.start + reach.ahead)) }
    ensures limited { length (held buffer.new) ≤ max (length (held buffer.old)) reach.limit }
    ensures refused { IfErr result (λ e. (f : FileFault) (sync : List ℕ) → file_fault e ≡ Some f → IsBlockFault limits.now sync number (I.ended input.new) (held buffer.new) f) }
    ensures works { OnOk result (I.failures input.new ≡ I.failures input.old) }
    ensures fails { result ≡ Err CopyError.InputFailed → I.failures input.new ≢ I.failures input.old }
    ensures no_output { result ≢ Err CopyError.OutputFailed }
    ensures first { result ≢ Err CopyError.FailedBefore }
    ensures named { IfErr result IsNamed }
{
    let (count, len) = take_count(input, buffer, 0, number, reach)?;
    let (size, more) = take_count(input, buffer, len, number, reach)?;
    if count > u64::from(limits.per_block()) {
        return Err(CopyError::LimitExceeded(LimitPlace::Block(number)));
    }
    if size > u64::from(limits.block()) {
        return Err(CopyError::LimitExceeded(LimitPlace::Block(number)));
    }
    Ok(BlockHead {
        count: count as u32,
        start: len + more,
        size: size as usize,
    })
}
