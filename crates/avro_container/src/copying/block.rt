//! Copying a block.

ghost use Rattle.std.specs.Prelude.{◌≡◌, ◌≢◌, ◌⊎◌, ◌+◌, ◌<◌, ◌≤◌, [], length, OnOk, IfOk, IfSome, IfNone, Some, Err, ◌-◌, take, OnErr};
ghost use Rattle.std.specs.Result.{IfErr};
ghost use Rattle.avro_container.specs.inside.BlockCopied.{CopiesBlock, RefusesWithin};
ghost use Rattle.avro_container.specs.inside.BlockSeen.{header_for, job_for, limits_for, reading_for};
ghost use Rattle.avro_container.specs.inside.DataPacked.{IsCopyFault, IsKeptOf, PacksBlock};
ghost use Rattle.avro_file.specs.BlockFails.{max_blocks};
ghost use Rattle.avro_file.specs.FileSeen.{file_fault};
ghost use Rattle.avro_file.specs.Held.{held};
ghost use Rattle.avro_file.specs.Named.{IsNamed};
ghost use Rattle.avro_container.specs.Moved.{Moved};
ghost use Rattle.avro_container.specs.Steps.{Stored};
ghost use Rattle.avro_file.specs.FileFault.{FileFault};
ghost use Rattle.avro_file.specs.Filled.{GrowsBy, TakesAtMost, UnlessFailed};

use crate::copying::header::marker;
use crate::copying::packing::pack_data;
use crate::copying::state::{BlockTask, Store};
use crate::sink::put_block;
use avro_device::{Input, Output};
use avro_file::{BlockHead, CopyError, Reach, take_block};

/// Takes the next block, puts its copy, and returns the number of its data; `None` if the input ends before it.
///
/// # Errors
///
/// `InvalidCount` to `UnresolvedDatum`, `CutBlock`; `InputFailed`, `OutputFailed`, `OutOfMemory`.
pub(crate) fn copy_block<I: Input, O: Output>(
    input: &mut I,
    output: &mut O,
    store: &mut Store,
    block: &BlockTask<'_>,
) -> Result<Option<u32>, CopyError>
    requires near { length (held store.old.buffer) ≤ (limits_for block.now).block + 36 }
    requires known { IsKeptOf (reading_for block.now) store.old.empty }
    ensures known { IsKeptOf (reading_for block.now) store.new.empty }
    ensures block { IfOk result (λ found. IfSome found (λ count. Moved I.gives O.keeps input.old input.new output.old output.new
        (CopiesBlock (job_for block.now) (limits_for block.now) (header_for block.now) block.now.number count (held store.old.buffer) (held store.new.buffer)))) }
    ensures few { IfOk result (λ found. IfSome found (λ count. block.now.number < max_blocks)) }
    ensures small { IfOk result (λ found. IfSome found (λ count. count ≤ 16777216)) }
    ensures none { IfOk result (λ found. IfNone found (I.gives input.old [] input.new)) }
    ensures still { IfOk result (λ found. IfNone found (output.new ≡ output.old)) }
    ensures empty { IfOk result (λ found. IfNone found ((held store.old.buffer ≡ []) × (held store.new.buffer ≡ []))) }
    ensures told { IfOk result (λ found. IfNone found (I.ended input.new)) }
    ensures refused { (before : Stored) → before.header ≡ Some (header_for block.now) → before.blocks ≡ block.now.number → before.ahead ≡ held store.old.buffer
        → IfErr result (λ e. Moved I.gives O.keeps input.old input.new output.old output.new
        (RefusesWithin (job_for block.now) (limits_for block.now) (I.ended input.new) before (file_fault e))) }
    ensures limited { length (held store.new.buffer) ≤ (limits_for block.now).block + 36 }
    ensures input_works { OnOk result (I.failures input.new ≡ I.failures input.old) }
    ensures input_fails { result ≡ Err CopyError.InputFailed → I.failures input.new ≢ I.failures input.old }
    ensures output_works { OnOk result (O.failures output.new ≡ O.failures output.old) }
    ensures output_fails { result ≡ Err CopyError.OutputFailed → (O.failures output.new ≢ O.failures output.old) ⊎ O.stuck output.new }
    ensures first { result ≢ Err CopyError.FailedBefore }
    ensures named { IfErr result IsNamed }
{
    match take_packed(input, store, block) {
        Ok(None) => Ok(None),
        Ok(Some(head)) => {
            let sync = marker(block.task, block.header);
            put_block(output, &mut store.block, &sync, head.count, &store.packed)?;
            store.buffer.pass(head.start + head.size + 16);
            Ok(Some(head.count))
        }
        Err(refused) => Err(refused),
    }
}

/// How many bytes may be taken beyond a block.
const AHEAD: usize = 65_536;

/// Takes the whole next block, and packs its data; `None` if the input ends before it.
///
/// # Errors
///
/// `InvalidCount` to `UnresolvedDatum`, `CutBlock`; `InputFailed`, `OutOfMemory`.
fn take_packed<I: Input>(
    input: &mut I,
    store: &mut Store,
    block: &BlockTask<'_>,
) -> Result<Option<BlockHead>, CopyError>
    requires near { length (held store.old.buffer) ≤ (limits_for block.now).block + 36 }
    requires known { IsKeptOf (reading_for block.now) store.old.empty }
    ensures known { IsKeptOf (reading_for block.now) store.new.empty }
    ensures inside { IfOk result (λ found. IfSome found (λ head. head.start + head.size + 16 ≤ length (held store.new.buffer))) }
    ensures made { IfOk result (λ found. IfSome found (λ head. PacksBlock (job_for block.now) (limits_for block.now) (header_for block.now) head.count
        (take (head.start + head.size + 16) (held store.new.buffer)) store.new.packed.items)) }
    ensures few { IfOk result (λ found. IfSome found (λ head. block.now.number < max_blocks)) }
    ensures none { IfOk result (λ found. IfNone found (length (held store.new.buffer) ≡ 0)) }
    ensures told { IfOk result (λ found. IfNone found (I.ended input.new)) }
    ensures taken { UnlessFailed result (GrowsBy I.gives input.old input.new (held store.old.buffer) (held store.new.buffer)) }
    ensures lost { OnErr result (TakesAtMost I.gives input.old input.new ((limits_for block.now).block + 36 - length (held store.old.buffer))) }
    ensures limited { length (held store.new.buffer) ≤ (limits_for block.now).block + 36 }
    ensures small { IfOk result (λ found. IfSome found (λ head. head.count ≤ 16777216)) }
    ensures refused { IfErr result (λ e. (f : FileFault) → file_fault e ≡ Some f
        → IsCopyFault (job_for block.now) (limits_for block.now) (header_for block.now) block.now.number (I.ended input.new) (held store.new.buffer) f) }
    ensures works { OnOk result (I.failures input.new ≡ I.failures input.old) }
    ensures fails { result ≡ Err CopyError.InputFailed → I.failures input.new ≢ I.failures input.old }
    ensures no_output { result ≢ Err CopyError.OutputFailed }
    ensures first { result ≢ Err CopyError.FailedBefore }
    ensures named { IfErr result IsNamed }
{
    let limits = &block.task.limits;
    let reach = Reach {
        limit: limits.block() as usize + 36,
        ahead: AHEAD,
    };
    let sync = block.header.sync();
    match take_block(input, &mut store.buffer, block.number, limits, sync, reach)? {
        None => Ok(None),
        Some(head) => {
            let (_, rest) = store.buffer.bytes().split_at(head.start);
            let (body, _) = rest.split_at(head.size);
            pack_data(block, head.count, body, &mut store.empty, &mut store.packed)?;
            Ok(Some(head))
        }
    }
}
