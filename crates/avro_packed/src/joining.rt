//! Putting parts of an encoding together.

ghost use Rattle.std.specs.Prelude.{◌≡◌, ◌++◌, ◌+◌, ◌<◌, ◌≤◌, [], List, ℕ, true, false, length, IfOk, OnErr, OnOk};
ghost use Rattle.avro_cursor.specs.Encoding.{plain_bytes};
ghost use Rattle.avro_binary.specs.Outputs.{Grows, StandsAt};
ghost use Rattle.avro_packed.specs.Appended.{Holds};

use crate::appending::Appending;
use crate::numbers::{append_bytes, append_number};
use crate::written::Written;
use avro_binary::list;
use std::alloc::{AllocError, Global};

/// How many buffers are kept for later at most, and how many bytes each has room for at most.
const BUFFERS: usize = 16;

const BYTES: usize = 8192;

/// Keeps the buffer of what was written for later, if it has a small one and few are kept. If memory runs out it is dropped.
pub(crate) fn give_back(buffers: &mut Vec<Vec<u8>>, written: Written) {
    match written {
        Written::Apart(buffer) => {
            if buffer.capacity() <= BYTES && buffers.len() < BUFFERS {
                match buffers.push(buffer) {
                    Ok(()) => {}
                    Err(_) => {}
                }
            }
        }
        Written::Range(..) => {}
        Written::Counted(_) => {}
    }
}

/// Appends the bytes of an output between two offsets to other bytes.
#[inline(always)]
fn append_range(out: &[u8], start: usize, end: usize, to: &mut Vec<u8>) -> Result<(), AllocError>
    ensures appended { (bytes : List ℕ) → StandsAt out.now start end bytes → OnOk result (to.new.items ≡ to.old.items ++ bytes) }
    ensures unchanged { OnErr result (to.new.items ≡ to.old.items) }
{
    if start > end || end > out.len() {
        return Ok(());
    }
    let (_, rest) = out.split_at(start);
    let (bytes, _) = rest.split_at(end - start);
    append_bytes(bytes, to)
}

/// Appends what was written to other bytes, and says so, or leaves them as they are where it was only counted.
#[inline(always)]
pub(crate) fn append_written(
    out: &[u8],
    written: &Written,
    to: &mut Vec<u8>,
) -> Result<bool, AllocError>
    ensures appended { (bytes : List ℕ) → Holds out.now written.now bytes → IfOk result (λ done. done ≡ true → to.new.items ≡ to.old.items ++ bytes) }
    ensures none { IfOk result (λ done. done ≡ false → to.new.items ≡ to.old.items) }
    ensures unchanged { OnErr result (to.new.items ≡ to.old.items) }
{
    match written {
        Written::Range(start, end) => append_range(out, *start, *end, to)?,
        Written::Apart(bytes) => to.extend_from_slice(bytes)?,
        Written::Counted(_) => return Ok(false),
    }
    Ok(true)
}

/// How many bytes were written.
#[inline(always)]
pub(crate) fn size(written: &Written) -> usize
    ensures { (out bytes : List ℕ) → Holds out written.now bytes → result ≡ length bytes }
{
    match written {
        Written::Range(start, end) => end.saturating_sub(*start),
        Written::Apart(bytes) => bytes.len(),
        Written::Counted(count) => *count,
    }
}

/// Whether an output would be longer than `most` with so many bytes more behind its end.
pub(crate) fn is_past(end: usize, count: usize, most: usize) -> bool
    ensures past { result ≡ true → most < end + count }
    ensures within { result ≡ false → end + count ≤ most }
{
    end > most || count > most - end
}

/// Whether these are no bytes, where none is apart.
#[inline(always)]
pub(crate) fn is_nothing(written: &Written) -> bool
    ensures { (out bytes : List ℕ) → result ≡ true → Holds out written.now bytes → bytes ≡ [] }
{
    match written {
        Written::Range(start, end) => *start == *end,
        Written::Apart(_) => false,
        Written::Counted(count) => *count == 0,
    }
}

/// Extends a range by one that starts where it ends, and says whether it did.
#[inline(always)]
fn extend(first: &mut Written, second: &Written) -> bool
    ensures joined { (out a b : List ℕ) → result ≡ true → Holds out first.old a → Holds out second.now b → Holds out first.new (a ++ b) }
    ensures none { result ≡ false → first.new ≡ first.old }
{
    match first {
        Written::Range(_, end) => match second {
            Written::Range(from, to) => {
                if *from == *end {
                    *end = *to;
                    return true;
                }
                false
            }
            Written::Apart(_) => false,
            Written::Counted(_) => false,
        },
        Written::Apart(_) => false,
        Written::Counted(_) => false,
    }
}

/// Counts what was written before and what was written after it, and keeps neither.
#[inline(never)]
fn count_both(first: &mut Written, second: &Written) -> Result<(), AllocError>
    ensures { (out a b : List ℕ) → Holds out first.old a → Holds out second.now b → OnOk result (Holds out first.new (a ++ b)) }
{
    match size(first).checked_add(size(second)) {
        Some(count) => {
            *first = Written::Counted(count);
            Ok(())
        }
        None => Err(AllocError),
    }
}

impl Appending {
    ghost use Rattle.std.specs.Prelude.{◌≡◌, ◌++◌, List, ℕ, OnOk};
    ghost use Rattle.avro_cursor.specs.Encoding.{plain_bytes};
    ghost use Rattle.avro_packed.specs.Appended.{Holds};

    /// Puts what was written after what was written before.
    #[inline(always)]
    pub(crate) fn join(
        &mut self,
        alloc: Global,
        first: &mut Written,
        second: Written,
    ) -> Result<(), AllocError>
        ensures joined { (a b : List ℕ) → Holds self.old.bytes first.old a → Holds self.old.bytes second b → OnOk result (Holds self.new.bytes first.new (a ++ b)) }
        ensures same { self.new ≡ self.old }
    {
        if extend(first, &second) {
            return Ok(());
        }
        if is_nothing(first) {
            *first = second;
            return Ok(());
        }
        self.join_apart(alloc, first, second)
    }

    /// The same for what does not stand one behind the other: in a buffer, or counted where either only was.
    #[inline(always)]
    fn join_apart(
        &mut self,
        alloc: Global,
        first: &mut Written,
        second: Written,
    ) -> Result<(), AllocError>
        ensures joined { (a b : List ℕ) → Holds self.old.bytes first.old a → Holds self.old.bytes second b → OnOk result (Holds self.new.bytes first.new (a ++ b)) }
        ensures same { self.new ≡ self.old }
    {
        self.set_apart(alloc, first)?;
        match first {
            Written::Apart(all) => {
                if append_written(&self.out, &second, all)? {
                    give_back(&mut self.buffers, second);
                    return Ok(());
                }
                count_both(first, &second)
            }
            Written::Range(..) => count_both(first, &second),
            Written::Counted(_) => count_both(first, &second),
        }
    }

    /// Copies what stands in the output into a buffer.
    #[inline(always)]
    fn set_apart(&mut self, alloc: Global, written: &mut Written) -> Result<(), AllocError>
        ensures holds { (bytes : List ℕ) → Holds self.old.bytes written.old bytes → OnOk result (Holds self.new.bytes written.new bytes) }
        ensures same { self.new ≡ self.old }
    {
        match written {
            Written::Range(start, end) => {
                let mut all = list(alloc, &mut self.buffers);
                append_range(&self.out, *start, *end, &mut all)?;
                *written = Written::Apart(all);
                Ok(())
            }
            Written::Apart(_) => Ok(()),
            Written::Counted(_) => Ok(()),
        }
    }

    /// Puts a key after what was written before.
    #[inline(always)]
    pub(crate) fn join_key(
        &mut self,
        alloc: Global,
        first: &mut Written,
        key: &[u8],
    ) -> Result<(), AllocError>
        ensures joined { (a : List ℕ) → Holds self.old.bytes first.old a → OnOk result (Holds self.new.bytes first.new (a ++ plain_bytes key.now)) }
        ensures same { self.new ≡ self.old }
    {
        match first {
            Written::Apart(all) => append_measured(key, all),
            _ => {
                let mut all = list(alloc, &mut self.buffers);
                append_measured(key, &mut all)?;
                self.join(alloc, first, Written::Apart(all))
            }
        }
    }
}

/// Appends a length, and the bytes.
#[inline(always)]
pub(crate) fn append_measured(content: &[u8], to: &mut Vec<u8>) -> Result<(), AllocError>
    ensures appended { OnOk result (to.new.items ≡ to.old.items ++ plain_bytes content.now) }
    ensures stays { (front : List ℕ) → Grows front to.old.items → Grows front to.new.items }
{
    append_number(content.len() as i64, to)?;
    to.extend_from_slice(content)
}
