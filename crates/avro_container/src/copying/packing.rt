//! Packing the data of a block, where a datum without bytes may be known from an earlier block.

ghost use Rattle.std.specs.Prelude.{◌≡◌, ℕ, ◌≤◌, List, None, Some, OnOk, IfNone, IfSome, take};
ghost use Rattle.std.specs.Result.{IfErr};
ghost use Rattle.avro_container.specs.inside.BlockSeen.{reading_for};
ghost use Rattle.avro_container.specs.inside.DataPacked.{IsKeptOf, PacksData};
ghost use Rattle.avro_file.specs.DataRead.{IsDataFault};
ghost use Rattle.avro_file.specs.NoBytes.{PacksNoBytes};
ghost use Rattle.avro_file.specs.FileFault.{FileFault};
ghost use Rattle.avro_file.specs.FileSeen.{file_fault};

use crate::copying::datum::pack_each;
use crate::copying::state::BlockTask;
use avro_binary::laws::{plain_encodes, prefix};
use avro_file::{CopyError, LimitPlace};

/// Packs the data of a block after the first `done`: none, or data without bytes, for each of which it appends what is kept.
///
/// # Errors
///
/// `LimitExceeded`, `OutOfMemory`.
fn pack_rest(
    block: &BlockTask<'_>,
    done: u32,
    count: u32,
    empty: &Option<Vec<u8>>,
    packed: &mut Vec<u8>,
) -> Result<(), CopyError>
    requires few { done ≤ count }
    requires all { IfNone empty.now (done ≡ count) }
    requires known { IfSome empty.now (λ unit. PacksNoBytes (reading_for block.now) unit.items) }
    ensures found { (front : List ℕ) → PacksData (reading_for block.now) done front packed.old.items
        → OnOk result (PacksData (reading_for block.now) count front packed.new.items) }
    ensures refused { (body : List ℕ) (start : ℕ) → PacksData (reading_for block.now) done (take start body) packed.old.items
        → IfErr result (λ e. (f : FileFault) → file_fault e ≡ Some f → IsDataFault (reading_for block.now) block.now.number count body f) }
    ensures memory { IfErr result (λ e. file_fault e ≡ None → e ≡ CopyError.OutOfMemory) }
{
    let Some(unit) = empty else {
        return Ok(());
    };
    if unit.is_empty() {
        return Ok(());
    }
    let limit = block.task.limits.block() as usize;
    let mut datum = done;
    while datum < count {
        packed.extend_from_slice(unit)?;
        if packed.len() > limit {
            return Err(CopyError::LimitExceeded(LimitPlace::Block(block.number)));
        }
        datum += 1;
    }
    Ok(())
}

/// Reads the data of a block, resolves them for the reader, and packs their plain encodings. `empty` keeps that of a datum
/// without bytes from block to block, so that such a datum is read only once.
///
/// # Errors
///
/// The first of `LimitExceeded`, `InvalidDatum` and `UnresolvedDatum`; `BytesLeft` after the last datum; `OutOfMemory`.
pub(crate) fn pack_data(
    block: &BlockTask<'_>,
    count: u32,
    body: &[u8],
    empty: &mut Option<Vec<u8>>,
    packed: &mut Vec<u8>,
) -> Result<(), CopyError>
    requires known { IsKeptOf (reading_for block.now) empty.old }
    ensures known { IsKeptOf (reading_for block.now) empty.new }
    ensures found { OnOk result (PacksData (reading_for block.now) count body.now packed.new.items) }
    ensures refused { IfErr result (λ e. (f : FileFault) → file_fault e ≡ Some f → IsDataFault (reading_for block.now) block.now.number count body.now f) }
    ensures memory { IfErr result (λ e. file_fault e ≡ None → e ≡ CopyError.OutOfMemory) }
{
    prefix();
    plain_encodes();
    // Only the contract of this call matters here: the schema is well formed.
    let _ = block.header.schema().len();
    packed.clear();
    let (done, start) = pack_each(block, count, body, empty, packed)?;
    pack_rest(block, done, count, empty, packed)?;
    if start < body.len() {
        return Err(CopyError::BytesLeft(block.number));
    }
    Ok(())
}
