//! Taking a whole block: its head, its data and its marker.

ghost use Rattle.std.specs.Prelude.{◌≡◌, ◌≢◌, ◌↔◌, ◌+◌, ◌-◌, ◌^◌, ◌<◌, ◌≤◌, max, length, take, drop, OnOk, OnErr, IsTrue, Some, Err, IfOk, IfSome, IfNone};
ghost use Rattle.std.specs.Result.{IfErr};
ghost use Rattle.avro_file.specs.BlockFails.{BlockBegins, FileLimitValues, max_blocks};
ghost use Rattle.avro_file.specs.BlockStands.{IsBlockFault, BlockStands};
ghost use Rattle.avro_file.specs.FileFault.{FileFault};
ghost use Rattle.avro_file.specs.FileSeen.{file_fault};
ghost use Rattle.avro_file.specs.Filled.{GrowsBy, TakesAtMost, UnlessFailed};
ghost use Rattle.avro_file.specs.Held.{held};
ghost use Rattle.avro_file.specs.Named.{IsNamed};

use crate::block::head::{BlockHead, begins_block, block_error, take_head};
use crate::error::{CopyError, LimitPlace};
use crate::input::buffer::Buffer;
use crate::input::{Reach, fill};
use crate::limits::FileLimits;
use avro_device::Input;

/// Whether the bytes are the marker.
fn is_marker(bytes: &[u8], sync: &[u8; 16]) -> bool
    ensures { IsTrue result ↔ (bytes.now ≡ sync.now) }
{
    bytes == sync.as_slice()
}

/// Takes the data of a block and the marker after them, and compares the marker.
///
/// # Errors
///
/// `CutBlock`, `WrongMarker`; `InputFailed`, `OutOfMemory`.
pub(crate) fn take_body<I: Input>(
    input: &mut I,
    buffer: &mut Buffer,
    head: BlockHead,
    number: u64,
    sync: &[u8; 16],
    reach: Reach,
) -> Result<(), CopyError>
    requires small { reach.limit + reach.ahead < 2 ^ 63 }
    requires inside { head.start ≤ length (held buffer.old) }
    requires near { head.start + head.size + 16 ≤ reach.limit }
    ensures there { OnOk result (head.start + head.size + 16 ≤ length (held buffer.new)) }
    ensures marker { OnOk result (take 16 (drop (head.start + head.size) (held buffer.new)) ≡ sync.now) }
    ensures taken { UnlessFailed result (GrowsBy I.gives input.old input.new (held buffer.old) (held buffer.new)) }
    ensures lost { OnErr result (TakesAtMost I.gives input.old input.new (reach.limit - length (held buffer.old))) }
    ensures within { OnOk result (length (held buffer.new) ≤ max (length (held buffer.old)) (head.start + head.size + 16 + reach.ahead)) }
    ensures limited { length (held buffer.new) ≤ max (length (held buffer.old)) reach.limit }
    ensures refused { IfErr result (λ e. (f : FileFault) (limits : FileLimitValues) → file_fault e ≡ Some f → number < max_blocks
        → BlockBegins (held buffer.old) head.count head.size (drop head.start (held buffer.old)) → head.count ≤ limits.per_block → head.size ≤ limits.block
        → IsBlockFault limits sync.now number (I.ended input.new) (held buffer.new) f) }
    ensures works { OnOk result (I.failures input.new ≡ I.failures input.old) }
    ensures fails { result ≡ Err CopyError.InputFailed → I.failures input.new ≢ I.failures input.old }
    ensures no_output { result ≢ Err CopyError.OutputFailed }
    ensures first { result ≢ Err CopyError.FailedBefore }
    ensures named { IfErr result IsNamed }
{
    let end = head.start + head.size;
    match fill(input, buffer, end + 16, reach) {
        Ok(()) => {}
        Err(error) => return Err(block_error(error, number)),
    }
    let (_, behind) = buffer.bytes().split_at(end);
    let (marker, _) = behind.split_at(16);
    if is_marker(marker, sync) {
        return Ok(());
    }
    Err(CopyError::WrongMarker(number))
}

/// The most blocks in a file.
const MAX_BLOCKS: u64 = 4_294_967_296;

/// Takes the whole next block, given the number of earlier ones; `None` if the input ends before it.
///
/// # Errors
///
/// `LimitExceeded`, `InvalidCount`, `CutBlock`, `WrongMarker`; `InputFailed`, `OutOfMemory`.
pub fn take_block<I: Input>(
    input: &mut I,
    buffer: &mut Buffer,
    number: u64,
    limits: &FileLimits,
    sync: &[u8; 16],
    reach: Reach,
) -> Result<Option<BlockHead>, CopyError>
    requires small { reach.limit + reach.ahead < 2 ^ 63 }
    requires fits { length (held buffer.old) < 2 ^ 63 }
    requires room { reach.limit ≡ limits.now.block + 36 }
    ensures inside { IfOk result (λ found. IfSome found (λ head. head.start + head.size + 16 ≤ length (held buffer.new))) }
    ensures stands { IfOk result (λ found. IfSome found (λ head. BlockStands limits.now sync.now head.count
        (take head.size (drop head.start (held buffer.new))) (take (head.start + head.size + 16) (held buffer.new)))) }
    ensures few { IfOk result (λ found. IfSome found (λ head. number < max_blocks)) }
    ensures none { IfOk result (λ found. IfNone found (length (held buffer.new) ≡ 0)) }
    ensures told { IfOk result (λ found. IfNone found (I.ended input.new)) }
    ensures taken { UnlessFailed result (GrowsBy I.gives input.old input.new (held buffer.old) (held buffer.new)) }
    ensures lost { OnErr result (TakesAtMost I.gives input.old input.new (reach.limit - length (held buffer.old))) }
    ensures within { IfOk result (λ found. IfSome found (λ head. length (held buffer.new) ≤ max (length (held buffer.old)) (head.start + head.size + 16 + reach.ahead))) }
    ensures limited { length (held buffer.new) ≤ max (length (held buffer.old)) reach.limit }
    ensures refused { IfErr result (λ e. (f : FileFault) → file_fault e ≡ Some f → IsBlockFault limits.now sync.now number (I.ended input.new) (held buffer.new) f) }
    ensures works { OnOk result (I.failures input.new ≡ I.failures input.old) }
    ensures fails { result ≡ Err CopyError.InputFailed → I.failures input.new ≢ I.failures input.old }
    ensures no_output { result ≢ Err CopyError.OutputFailed }
    ensures first { result ≢ Err CopyError.FailedBefore }
    ensures named { IfErr result IsNamed }
{
    if !begins_block(input, buffer, number, reach)? {
        return Ok(None);
    }
    if number >= MAX_BLOCKS {
        return Err(CopyError::LimitExceeded(LimitPlace::Block(number)));
    }
    let head = take_head(input, buffer, number, limits, reach)?;
    take_body(input, buffer, head, number, sync, reach)?;
    Ok(Some(head))
}
