//! The maker that appends the plain encoding of what is read.

ghost use Rattle.std.specs.Prelude.{◌≡◌, ◌++◌, [], ◌∷◌, ◌≤◌, List, ℕ, IfNone, IfOk, OnOk, OnErr, length, max};
ghost use Rattle.std.specs.Option.{IfSome};
ghost use Rattle.avro_zigzag.specs.Number.{number_bytes};
ghost use Rattle.avro_cursor.specs.Encoding.{plain_blocks};
ghost use Rattle.avro_binary.specs.Outputs.{Grows};
ghost use Rattle.avro_packed.specs.Appended.{AppendsWithin, Holds, Keeps, branch_bytes};

use crate::gathered::Gathered;
use crate::joining::{append_written, give_back, is_past, size};
use crate::numbers::append_number;
use crate::written::Written;
use std::alloc::{AllocError, Global};
use std::marker::Model;

/// Appends the plain encoding of what is read to an output of its own, as it is read. What is for a branch of a union has
/// the index of the branch in front.
///
/// What does not stand there in its order is copied into a buffer of its own: so are the items of an array and the entries of a map,
/// since their number comes before them. Buffers are kept for later. What would make the output longer than a limit is taken back,
/// and only counted.
#[derive(Drop)]
pub struct Appending {
    pub(crate) out: Vec<u8>,
    // how many bytes of the output are kept at most
    pub(crate) most: usize,
    // whether nothing is put that may be in no datum
    pub(crate) sparing: bool,
    pub(crate) buffers: Vec<Vec<u8>>,
    pub(crate) slots: Vec<Vec<Option<Written>>>,
    pub(crate) ends: Vec<Vec<usize>>,
}

impl Model for Appending {
    ghost use Rattle.avro_packed.specs.Appended.{Output};

    ghost Value = { Output };

    ghost view = { λ a. record { bytes = a.out.items; most = a.most } };
}

impl Appending {
    /// A maker whose output is empty and has no limit.
    pub fn new(alloc: Global) -> Appending
        ensures { result.bytes ≡ [] }
    {
        Appending {
            out: Vec::new(alloc),
            most: usize::MAX,
            sparing: false,
            buffers: Vec::new(alloc),
            slots: Vec::new(alloc),
            ends: Vec::new(alloc),
        }
    }

    /// Empties the output, and sets how many bytes of it are kept at most, and whether nothing is put that may be in no datum.
    #[inline(always)]
    pub(crate) fn restart(&mut self, most: usize, sparing: bool)
        ensures bytes { self.new.bytes ≡ [] }
        ensures limit { self.new.most ≡ most }
    {
        self.out.clear();
        self.most = most;
        self.sparing = sparing;
    }

    /// Appends to other bytes what was written, unless they would be more than `most`. Returns whether they were not, or `None`
    /// for what was only counted, and would fit. Its buffer is kept for later.
    ///
    /// # Errors
    ///
    /// Memory ran out; they are as they were.
    pub(crate) fn append(
        &mut self,
        written: Written,
        most: usize,
        to: &mut Vec<u8>,
    ) -> Result<Option<bool>, AllocError>
        ensures appended { (bytes : List ℕ) → Holds self.old.bytes written bytes → IfOk result (λ told. IfSome told (λ fits. AppendsWithin most to.old.items to.new.items bytes fits)) }
        ensures none { IfOk result (λ told. IfNone told (to.new.items ≡ to.old.items)) }
        ensures unchanged { OnErr result (to.new.items ≡ to.old.items) }
        ensures same { self.new ≡ self.old }
    {
        if is_past(to.len(), size(&written), most) {
            return Ok(Some(false));
        }
        let is_kept = append_written(&self.out, &written, to)?;
        give_back(&mut self.buffers, written);
        Ok(is_kept.then_some(true))
    }

    /// Writes the index of a branch, if there is one, and returns where.
    #[inline(always)]
    pub(crate) fn begin(&mut self, branch: Option<u32>) -> Result<usize, AllocError>
        ensures begun { OnOk result (self.new.bytes ≡ self.old.bytes ++ branch_bytes branch) }
        ensures limit { self.new.most ≡ self.old.most }
        ensures start { IfOk result (λ start. start ≡ length self.old.bytes) }
        ensures stays { (front : List ℕ) → Grows front self.old.bytes → Grows front self.new.bytes }
    {
        let start = self.out.len();
        match branch {
            Some(branch) => append_number(i64::from(branch), &mut self.out)?,
            None => {}
        }
        Ok(start)
    }

    /// What was written from an offset on, where it is kept.
    #[inline(always)]
    pub(crate) fn since(&mut self, start: usize) -> Written
        ensures holds { (before bytes : List ℕ) → self.old.bytes ≡ before ++ bytes → start ≡ length before → Holds self.new.bytes result bytes }
        ensures kept { (before bytes : List ℕ) → self.old.bytes ≡ before ++ bytes → start ≡ length before → Grows before self.new.bytes }
        ensures within { (before bytes : List ℕ) → self.old.bytes ≡ before ++ bytes → start ≡ length before
            → length self.new.bytes ≤ max self.old.most (length before) }
        ensures limit { self.new.most ≡ self.old.most }
    {
        written_since(&mut self.out, start, self.most)
    }

    /// Writes a number.
    #[inline(always)]
    pub(crate) fn number(&mut self, branch: Option<u32>, value: i64) -> Result<Written, AllocError>
        ensures kept { OnOk result (Keeps self.old self.new) }
        ensures holds { IfOk result (λ out. Holds self.new.bytes out (branch_bytes branch ++ number_bytes value)) }
        ensures stays { (front : List ℕ) → Grows front self.old.bytes → Grows front self.new.bytes }
    {
        let start = self.begin(branch)?;
        append_number(value, &mut self.out)?;
        Ok(self.since(start))
    }

    /// Nothing, at the end of the output.
    #[inline(always)]
    pub(crate) fn here(&self) -> Written
        ensures { Holds self.now.bytes result [] }
    {
        let end = self.out.len();
        Written::Range(end, end)
    }

    /// No items or entries, for a branch of a union, if there is one.
    #[inline(always)]
    pub(crate) fn gather(&self, into: Option<u32>) -> Gathered
        ensures into { result.into ≡ into }
        ensures count { result.count ≡ 0 }
        ensures written { Holds self.now.bytes result.written [] }
    {
        Gathered {
            into,
            count: 0,
            written: self.here(),
        }
    }

    /// The one block of items or entries, if there are any, and the end.
    pub(crate) fn block(&mut self, alloc: Global, gathered: Gathered) -> Result<Written, AllocError>
        ensures kept { OnOk result (Keeps self.old self.new) }
        ensures holds { (bytes : List ℕ) → Holds self.old.bytes gathered.written bytes
            → IfOk result (λ out. Holds self.new.bytes out (branch_bytes gathered.into ++ plain_blocks gathered.count bytes)) }
        ensures stays { (front : List ℕ) → Grows front self.old.bytes → Grows front self.new.bytes }
    {
        if gathered.count == 0 {
            return self.number(gathered.into, 0);
        }
        match i64::try_from(gathered.count) {
            Ok(count) => {
                let head = self.number(gathered.into, count)?;
                self.closed(alloc, head, gathered.written)
            }
            Err(_) => Err(AllocError),
        }
    }

    /// A block behind its head, and the end of its array or map.
    #[inline(always)]
    fn closed(
        &mut self,
        alloc: Global,
        head: Written,
        written: Written,
    ) -> Result<Written, AllocError>
        ensures kept { OnOk result (Keeps self.old self.new) }
        ensures holds { (a b : List ℕ) → Holds self.old.bytes head a → Holds self.old.bytes written b
            → IfOk result (λ all. Holds self.new.bytes all ((a ++ b) ++ 0 ∷ [])) }
        ensures stays { (front : List ℕ) → Grows front self.old.bytes → Grows front self.new.bytes }
    {
        let mut all = head;
        self.join(alloc, &mut all, written)?;
        let end = self.number(None, 0)?;
        self.join(alloc, &mut all, end)?;
        Ok(all)
    }
}

/// What was written from an offset on. Where the output is longer than `most`, it is taken back, and counted.
#[inline(always)]
fn written_since(out: &mut Vec<u8>, start: usize, most: usize) -> Written
    ensures holds { (before bytes : List ℕ) → out.old.items ≡ before ++ bytes → start ≡ length before → Holds out.new.items result bytes }
    ensures kept { (before bytes : List ℕ) → out.old.items ≡ before ++ bytes → start ≡ length before → Grows before out.new.items }
    ensures within { (before bytes : List ℕ) → out.old.items ≡ before ++ bytes → start ≡ length before → length out.new.items ≤ max most (length before) }
{
    if out.len() > most {
        return count_since(out, start);
    }
    Written::Range(start, out.len())
}

/// Takes back what was written from an offset on, and counts it.
#[inline(never)]
fn count_since(out: &mut Vec<u8>, start: usize) -> Written
    ensures holds { (before bytes : List ℕ) → out.old.items ≡ before ++ bytes → start ≡ length before → Holds out.new.items result bytes }
    ensures back { (before bytes : List ℕ) → out.old.items ≡ before ++ bytes → start ≡ length before → out.new.items ≡ before }
{
    let count = out.len().saturating_sub(start);
    out.truncate(start);
    Written::Counted(count)
}
