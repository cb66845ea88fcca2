//! Bytes that were taken from an input but not used yet.

ghost use Rattle.std.specs.Prelude.{◌≡◌, ◌≢◌, ◌+◌, ◌^◌, ◌<◌, ◌≤◌, [], length, drop, IfOk, OnOk, OnErr, Err};
ghost use Rattle.avro_file.specs.Filled.{GrowsBy, TakesAtMost};

use avro_device::Input;
use std::alloc::{AllocError, Global};

/// The most bytes that a buffer grows by before they have arrived.
pub(crate) const GROWTH: usize = 65_536;

/// Why nothing was taken.
#[derive(Clone, Copy, Debug)]
pub(crate) enum TakeError {
    /// The input failed in this call.
    Device,
    /// Memory ran out, before the call.
    OutOfMemory,
}

impl From<AllocError> for TakeError {
    ghost use Rattle.avro_file.specs.declared.input.buffer.TakeError.TheVariants.{OutOfMemory};

    ghost from_gives = { λ _ error. error ≡ OutOfMemory };

    fn from(_error: AllocError) -> TakeError {
        TakeError::OutOfMemory
    }
}

/// The bytes taken so far: those of `storage` from `start` to `end`.
///
/// Passing bytes does not shrink `storage`: it is reused, and only newly allocated space is filled with zeros.
#[derive(Drop)]
pub struct Buffer {
    storage: Vec<u8>,
    start: usize,
    end: usize,
    ghost ordered: { start ≤ end },
    ghost within: { end ≤ length storage.items },
}

impl Buffer {
    ghost use Rattle.avro_file.specs.Held.{held, free};

    /// An empty buffer.
    pub fn new(alloc: Global) -> Buffer
        ensures { held result ≡ [] }
    {
        Buffer {
            storage: Vec::new(alloc),
            start: 0,
            end: 0,
        }
    }

    /// The bytes held.
    pub fn bytes(&self) -> &[u8]
        ensures { result.now ≡ held self.now }
    {
        &self.storage[self.start..self.end]
    }

    /// The number of bytes held.
    pub fn len(&self) -> usize
        ensures { result ≡ length (held self.now) }
    {
        self.end - self.start
    }

    /// Drops the first `count` bytes.
    pub fn pass(&mut self, count: usize)
        requires { count ≤ length (held self.old) }
        ensures { held self.new ≡ drop count (held self.old) }
    {
        self.start += count;
    }

    /// Moves the bytes held to the front of `storage`.
    fn move_to_front(&mut self)
        ensures same { held self.new ≡ held self.old }
        ensures front { free self.new + length (held self.new) ≡ length self.new.storage.items }
    {
        if self.start == 0 {
            return;
        }
        let (start, end) = (self.start, self.end);
        self.storage.as_mut_slice().copy_within(start..end, 0);
        self.start = 0;
        self.end = end - start;
    }

    /// Makes room for `count` more bytes. If there is too little, it makes room for at least [`GROWTH`], so that the bytes held
    /// are not moved for every few bytes.
    fn reserve(&mut self, count: usize) -> Result<(), AllocError>
        requires { length (held self.old) + count < 2 ^ 64 }
        ensures same { held self.new ≡ held self.old }
        ensures storage { OnOk result (count ≤ free self.new) }
    {
        if self.storage.len() - self.end >= count {
            return Ok(());
        }
        self.move_to_front();
        let end = self.end.saturating_add(count.max(GROWTH));
        if self.storage.len() < end {
            self.storage.reserve_exact(end - self.storage.len())?;
            self.storage.resize(end, 0)?;
        }
        Ok(())
    }

    /// Takes at most `most` bytes in one call, and appends them to those held.
    ///
    /// # Errors
    ///
    /// `Device` or `OutOfMemory`; the bytes held are unchanged.
    pub(crate) fn take_more<I: Input>(
        &mut self,
        input: &mut I,
        most: usize,
    ) -> Result<usize, TakeError>
        requires some { 0 < most }
        requires fits { length (held self.old) + most < 2 ^ 64 }
        ensures taken { OnOk result (GrowsBy I.gives input.old input.new (held self.old) (held self.new)) }
        ensures count { IfOk result (λ n. length (held self.new) ≡ length (held self.old) + n) }
        ensures within { IfOk result (λ n. n ≤ most) }
        ensures end { IfOk result (λ n. n ≡ 0 → I.ended input.new) }
        ensures works { OnOk result (I.failures input.new ≡ I.failures input.old) }
        ensures fails { result ≡ Err TakeError.Device → I.failures input.new ≢ I.failures input.old }
        ensures lost { OnErr result (TakesAtMost I.gives input.old input.new most) }
        ensures not_taken { result ≡ Err TakeError.OutOfMemory → input.new ≡ input.old }
        ensures same { OnErr result (held self.new ≡ held self.old) }
    {
        self.reserve(most)?;
        let (start, end) = (self.end, self.end + most);
        match input.take(&mut self.storage[start..end]) {
            Ok(count) => {
                self.end += count;
                Ok(count)
            }
            Err(_fault) => Err(TakeError::Device),
        }
    }
}
