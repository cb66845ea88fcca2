ghost use Rattle.std.specs.Prelude.{◌≡◌, ◌⊎◌, ◌+◌, ◌*◌, ◌^◌, ◌≤◌, ◌<◌, ℕ, length, slice_index, take, Some, OnOk, OnErr};
ghost use Rattle.std.specs.Result.{IfErr};
ghost use Rattle.avro_cursor.specs.Breaks.{number_fault};
ghost use Rattle.avro_cursor.specs.CursorValue.{Passes, Enters, Counts};
ghost use Rattle.avro_cursor.specs.Fault.{behind, limit_exceeded};
ghost use Rattle.avro_cursor.specs.CountsAgain.{CountsAgain};
ghost use Rattle.avro_cursor.specs.Seen.{read_fault};

mod blocks;
mod elements;

use crate::content::drop_content;
use crate::error::ReadError;
use avro_schema::Limits;
use avro_zigzag::VarError;
use std::marker::Model;

/// A position in some bytes, and what is left of the limits there. Each call reads one element;
/// contents are returned as slices of the bytes.
///
/// A call that returns an error leaves the cursor where it was.
#[derive(Drop)]
pub struct Cursor<'a> {
    rest: &'a [u8],
    len: usize,
    depth: u32,
    nodes: u32,
    blob: u32,
}

impl<'a> Model for Cursor<'a> {
    ghost use Rattle.std.specs.Prelude.{◌-◌, ◌≤◌, length};
    ghost use Rattle.avro_cursor.specs.CursorValue.{CursorValue};

    ghost Value = { CursorValue };

    ghost view = { λ c. record { bytes = c.rest.now; offset = c.len - length c.rest.now; depth = c.depth; nodes = c.nodes; blob = c.blob } };

    ghost invariant = { λ c. (length c.rest.now ≤ c.len) × (c.depth ≤ 256) };
}

impl<'a> Cursor<'a> {
    /// A cursor at the start of `bytes`.
    pub fn new(bytes: &'a [u8], limits: &Limits) -> Self
        ensures { result ≡ record { bytes = bytes.now; offset = 0; depth = limits.now.depth; nodes = limits.now.nodes; blob = limits.now.blob } }
    {
        Cursor {
            rest: bytes,
            len: bytes.len(),
            depth: limits.depth(),
            nodes: limits.nodes(),
            blob: limits.blob(),
        }
    }

    /// The number of bytes read so far.
    #[inline(always)]
    pub fn offset(&self) -> usize
        ensures { result ≡ self.now.offset }
    {
        self.len - self.rest.len()
    }

    /// The number of bytes left.
    #[inline(always)]
    pub fn left(&self) -> usize
        ensures { result ≡ length self.now.bytes }
    {
        self.rest.len()
    }

    /// The number of nodes that the limit still allows.
    #[inline(always)]
    pub fn nodes(&self) -> u32
        ensures count { result ≡ self.now.nodes }
        ensures in_range { self.now.nodes < 2 ^ 32 }
    {
        self.nodes
    }

    /// A second cursor at the same position.
    #[inline(always)]
    pub fn ahead(&self) -> Cursor<'a>
        ensures { result ≡ self.now }
    {
        Cursor {
            rest: self.rest,
            len: self.len,
            depth: self.depth,
            nodes: self.nodes,
            blob: self.blob,
        }
    }

    /// The bytes left.
    #[inline(always)]
    pub fn rest(&self) -> &'a [u8]
        ensures { result.now ≡ self.now.bytes }
    {
        self.rest
    }

    /// Skips `count` bytes, and returns them.
    #[inline(always)]
    fn pass(&mut self, count: usize) -> &'a [u8]
        requires { count ≤ length self.old.bytes }
        ensures passed { Passes self.old (take count self.old.bytes) self.new }
        ensures front { result.now ≡ take count self.old.bytes }
    {
        let (front, rest) = self.rest.split_at(count);
        self.rest = rest;
        front
    }

    /// The offset after the next `count` bytes.
    #[inline(always)]
    fn offset_behind(&self, count: usize) -> usize
        requires { count ≤ length self.now.bytes }
        ensures { result ≡ self.now.offset + count }
    {
        self.len - (self.rest.len() - count)
    }

    /// Counts a node without parts, as entering and leaving it would: one node fewer is left.
    ///
    /// # Errors
    ///
    /// `LimitExceeded` if no node or no depth is left.
    #[inline(always)]
    pub fn count(&mut self) -> Result<(), ReadError>
        ensures counted { OnOk result (Counts self.old self.new) }
        ensures shallow { self.old.depth ≤ 256 }
        ensures refused { IfErr result (λ e. (read_fault e ≡ Some limit_exceeded) × ((self.old.depth ≡ 0) ⊎ (self.old.nodes ≡ 0))) }
        ensures unchanged { OnErr result (self.new ≡ self.old) }
    {
        if self.depth == 0 || self.nodes == 0 {
            return Err(ReadError::LimitExceeded);
        }
        self.nodes -= 1;
        Ok(())
    }

    /// Counts the nodes of `count` data of `size` nodes each.
    ///
    /// # Errors
    ///
    /// `LimitExceeded` if fewer are left.
    pub fn count_again(&mut self, size: u32, count: u32) -> Result<(), ReadError>
        ensures counted { OnOk result (CountsAgain self.old (size * count) self.new) }
        ensures refused { IfErr result (λ e. (read_fault e ≡ Some limit_exceeded) × (self.old.nodes < size * count)) }
        ensures in_range { (self.old.nodes < 2 ^ 32) × (self.old.blob < 2 ^ 32) }
        ensures are_bytes { (i : ℕ) → slice_index self.old.bytes i < 2 ^ 8 }
    {
        drop_content(self.rest);
        let _blob = self.blob;
        match size.checked_mul(count) {
            Some(all) => match self.nodes.checked_sub(all) {
                Some(left) => {
                    self.nodes = left;
                    Ok(())
                }
                None => Err(ReadError::LimitExceeded),
            },
            None => Err(ReadError::LimitExceeded),
        }
    }

    /// Passes a datum that takes no bytes, given its number of nodes and its depth.
    ///
    /// # Errors
    ///
    /// `LimitExceeded` if fewer nodes or less depth are left.
    pub fn pass_empty(&mut self, nodes: u32, depth: u32) -> Result<(), ReadError>
        ensures counted { OnOk result (CountsAgain self.old nodes self.new) }
        ensures deep { OnOk result (depth ≤ self.old.depth) }
        ensures refused { IfErr result (λ e. (read_fault e ≡ Some limit_exceeded) × ((self.old.nodes < nodes) ⊎ (self.old.depth < depth))) }
        ensures unchanged { OnErr result (self.new ≡ self.old) }
        ensures in_range { (self.old.nodes < 2 ^ 32) × (self.old.blob < 2 ^ 32) }
        ensures are_bytes { (i : ℕ) → slice_index self.old.bytes i < 2 ^ 8 }
    {
        drop_content(self.rest);
        let _blob = self.blob;
        if self.nodes < nodes || self.depth < depth {
            return Err(ReadError::LimitExceeded);
        }
        self.nodes -= nodes;
        Ok(())
    }

    /// Enters a node: one node fewer and one level less are left.
    ///
    /// # Errors
    ///
    /// `LimitExceeded` if no node or no level is left.
    #[inline(always)]
    pub fn enter(&mut self) -> Result<(), ReadError>
        ensures entered { OnOk result (Enters self.old self.new) }
        ensures shallow { self.old.depth ≤ 256 }
        ensures refused { IfErr result (λ e. (read_fault e ≡ Some limit_exceeded) × ((self.old.depth ≡ 0) ⊎ (self.old.nodes ≡ 0))) }
        ensures unchanged { OnErr result (self.new ≡ self.old) }
    {
        self.count()?;
        self.depth -= 1;
        Ok(())
    }

    /// Leaves a node: one more level is left, up to 256, the greatest limit.
    #[inline(always)]
    pub fn leave(&mut self)
        ensures freed { self.old.depth < 256 → self.new ≡ record self.old { depth = self.old.depth + 1 } }
        ensures whole { 256 ≤ self.old.depth → self.new ≡ self.old }
    {
        if self.depth < 256 {
            self.depth += 1;
        }
    }
}

/// The read error for a number that is faulty at an offset.
fn number_error(error: VarError, offset: usize) -> ReadError
    ensures { read_fault result ≡ Some (behind offset (number_fault error)) }
{
    match error {
        VarError::EndOfInput => ReadError::EndOfInput { place: offset },
        VarError::NotShortest | VarError::OutOfRange => ReadError::InvalidNumber { place: offset },
    }
}
