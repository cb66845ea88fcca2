ghost use Rattle.std.specs.Prelude.{◌≡◌, ◌∷◌, [], ◌+◌, ◌-◌, ◌^◌, ◌≤◌, ◌<◌, ℕ, length, take, drop, pos, negsuc, neg_ℤ, IfOk, true};
ghost use Rattle.std.specs.Result.{IfErr};
ghost use Rattle.avro_zigzag.specs.Number.{SpellsLong};
ghost use Rattle.avro_cursor.specs.BlockHeads.{IsBlock, ReadsHead, EndsBlock, signed_count};
ghost use Rattle.avro_cursor.specs.Breaks.{Head, HeadBreaks, head_bytes, StartsWithLong};
ghost use Rattle.avro_cursor.specs.Elements.{Refuses};

use super::{Cursor, number_error};
use crate::block::{Block, BlockSize};
use crate::error::ReadError;
use avro_zigzag::read_long;

impl<'a> Cursor<'a> {
    /// Reads and checks a block's count; returns whether it is negative, its magnitude, and the number of
    /// bytes it takes.
    fn block_count(&self) -> Result<(bool, u32, usize), ReadError>
        ensures inside { IfOk result (λ r. r.2 ≤ length self.now.bytes) }
        ensures within { IfOk result (λ r. r.1 ≤ self.now.nodes) }
        ensures some { IfOk result (λ r. r.0 ≡ true → 0 < r.1) }
        ensures small { IfOk result (λ r. r.1 < 2 ^ 63) }
        ensures stands { IfOk result (λ r. StartsWithLong (signed_count r.0 r.1) self.now.bytes (take r.2 self.now.bytes) (drop r.2 self.now.bytes)) }
        ensures refused { IfErr result (Refuses (HeadBreaks self.now.nodes) self.now) }
    {
        match read_long(self.rest()) {
            Ok((count, len)) => {
                if count == i64::MIN {
                    return Err(ReadError::InvalidLength {
                        place: self.offset(),
                    });
                }
                let magnitude = count.unsigned_abs();
                if magnitude > u64::from(self.nodes) {
                    return Err(ReadError::LimitExceeded);
                }
                Ok((count < 0, magnitude as u32, len))
            }
            Err(error) => Err(number_error(error, self.offset())),
        }
    }

    /// Reads and checks the size after a block's count; returns it and the number of bytes the two take.
    fn block_size(&self, len: usize) -> Result<(u64, usize), ReadError>
        requires { len ≤ length self.now.bytes }
        ensures inside { IfOk result (λ r. (len ≤ r.1) × (r.1 ≤ length self.now.bytes)) }
        ensures stands { IfOk result (λ r. StartsWithLong (pos r.0) (drop len self.now.bytes) (take (r.1 - len) (drop len self.now.bytes)) (drop (r.1 - len) (drop len self.now.bytes))) }
        ensures refused { (n : ℕ) → SpellsLong (negsuc n) (take len self.now.bytes) → n + 1 < 2 ^ 63 → n < self.now.nodes → IfErr result (Refuses (HeadBreaks self.now.nodes) self.now) }
    {
        let (_, behind) = self.rest().split_at(len);
        match read_long(behind) {
            Ok((size, more)) => {
                if size < 0 {
                    return Err(ReadError::InvalidLength {
                        place: self.offset_behind(len),
                    });
                }
                Ok((size as u64, len + more))
            }
            Err(error) => Err(number_error(error, self.offset_behind(len))),
        }
    }

    /// Reads the head of a block, or returns `None` for the 0 that ends the blocks.
    ///
    /// # Errors
    ///
    /// For the count: `EndOfInput` or `InvalidNumber`, then `InvalidLength` if it is the smallest long,
    /// then `LimitExceeded` if it exceeds the nodes left; then for the size: `EndOfInput` or
    /// `InvalidNumber`, then `InvalidLength` if it is negative.
    #[inline(always)]
    pub fn block(&mut self) -> Result<Option<Block>, ReadError>
        ensures { ReadsHead self.old self.new result }
    {
        if self.is_at_end() {
            self.pass(1);
            return Ok(None);
        }
        self.head()
    }

    /// Whether the next byte is the 0 that ends the blocks.
    #[inline(always)]
    fn is_at_end(&self) -> bool
        ensures inside { result ≡ true → 1 ≤ length self.now.bytes }
        ensures zero { result ≡ true → take 1 self.now.bytes ≡ 0 ∷ [] }
    {
        let rest = self.rest();
        !rest.is_empty() && rest[0] == 0
    }

    /// Like `block`, where 0 may be padded.
    fn head(&mut self) -> Result<Option<Block>, ReadError>
        ensures { ReadsHead self.old self.new result }
    {
        let (is_sized, count, len) = self.block_count()?;
        if is_sized {
            return self.sized_block(count, len);
        }
        self.pass(len);
        if count == 0 {
            return Ok(None);
        }
        Ok(Some(Block { count, size: None }))
    }

    /// Reads the rest of a block's head, in which a size follows the count of `len` bytes.
    fn sized_block(&mut self, count: u32, len: usize) -> Result<Option<Block>, ReadError>
        requires inside { len ≤ length self.old.bytes }
        requires some { 0 < count }
        requires within { count ≤ self.old.nodes }
        requires small { count < 2 ^ 63 }
        requires spelled { SpellsLong (neg_ℤ (pos count)) (take len self.old.bytes) }
        ensures { ReadsHead self.old self.new result }
    {
        let (bytes, both) = self.block_size(len)?;
        let offset = self.offset_behind(len);
        let items = self.offset_behind(both);
        self.pass(both);
        let size = BlockSize {
            bytes,
            offset,
            items,
        };
        Ok(Some(Block {
            count,
            size: Some(size),
        }))
    }

    /// Checks the size given in a block's head, if any, against the cursor's offset after the block's
    /// items.
    ///
    /// # Errors
    ///
    /// `WrongBlockSize`.
    pub fn end_block(&self, block: &Block) -> Result<(), ReadError>
        ensures { (offset n : ℕ) (head : Head) → IsBlock offset head block.now → self.now.offset ≡ offset + length (head_bytes head) + n → EndsBlock offset head n result }
    {
        match block.size {
            Some(size) => {
                let offset = self.offset();
                if offset >= size.items && (offset - size.items) as u64 == size.bytes {
                    Ok(())
                } else {
                    Err(ReadError::WrongBlockSize { place: size.offset })
                }
            }
            None => Ok(()),
        }
    }
}
