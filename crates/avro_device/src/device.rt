//! Inputs and outputs.

ghost use Rattle.std.specs.Prelude.{◌≡◌, ◌≢◌, ℕ, ◌+◌, ◌%◌, ◌^◌, ◌<◌, ◌≤◌, List, [], ◌++◌, length, take, IfOk, OnOk, OnErr};

use thiserror::Error;

/// The device failed in this call.
#[derive(Clone, Copy, Debug, PartialEq, Eq, Error)]
#[error("the device failed")]
pub struct DeviceFault;

/// Supplies the bytes of a file in order.
///
/// An implementation defines which bytes were taken between two states, whether the end was reported, and how many calls
/// have failed.
pub trait Input {
    /// These bytes were taken between two states.
    ghost gives: { Self → List ℕ → Self → Type 0 };

    /// The last call reported the end.
    ghost ended: { Self → Type 0 };

    /// The number of failed calls, modulo 2^64.
    ghost failures: { Self → ℕ };

    /// Takes some bytes into the front of the buffer, and returns how many. If the buffer is not empty, 0 means the end.
    ///
    /// # Errors
    ///
    /// The device failed. Some bytes may be lost, at most as many as the buffer holds.
    fn take(&mut self, buffer: &mut [u8]) -> Result<usize, DeviceFault>
        ensures within { IfOk result (λ n. n ≤ length buffer.new) }
        ensures taken { IfOk result (λ n. gives self.old (take n buffer.new) self.new) }
        ensures end { IfOk result (λ n. n ≡ 0 → 0 < length buffer.new → ended self.new) }
        ensures only_end { IfOk result (λ n. ended self.new → (n ≡ 0) × (0 < length buffer.new)) }
        ensures works { OnOk result (failures self.new ≡ failures self.old) }
        ensures fails { OnErr result (failures self.new ≢ failures self.old) }
        ensures counts { OnErr result (failures self.new ≡ (failures self.old + 1) % 2 ^ 64) }
        ensures lost { OnErr result ((bytes : List ℕ) × gives self.old bytes self.new × (length bytes ≤ length buffer.new)) };

    /// With no call, no bytes are taken; the bytes of successive calls are concatenated.
    ghost none: { (s : Self) → gives s [] s };

    ghost chain: { (s t u : Self) (front back : List ℕ) → gives s front t → gives t back u → gives s (front ++ back) u };
}

/// Takes the bytes of a file in order.
///
/// An implementation defines which bytes were put between two states, whether the last call was a successful flush, and
/// how many calls have failed.
pub trait Output {
    /// These bytes were put between two states.
    ghost keeps: { Self → List ℕ → Self → Type 0 };

    /// The last call took none of the bytes.
    ghost stuck: { Self → Type 0 };

    /// The last call was a successful flush.
    ghost flushed: { Self → Type 0 };

    /// The number of failed calls, modulo 2^64.
    ghost failures: { Self → ℕ };

    /// Puts a prefix of the bytes, and returns its length.
    ///
    /// # Errors
    ///
    /// The device failed, and nothing was put.
    fn put(&mut self, bytes: &[u8]) -> Result<usize, DeviceFault>
        ensures within { IfOk result (λ n. n ≤ length bytes.now) }
        ensures put { IfOk result (λ n. keeps self.old (take n bytes.now) self.new) }
        ensures none { IfOk result (λ n. n ≡ 0 → 0 < length bytes.now → stuck self.new) }
        ensures only_none { IfOk result (λ n. stuck self.new → (n ≡ 0) × (0 < length bytes.now)) }
        ensures lost { OnErr result (keeps self.old [] self.new) }
        ensures not_flushed { ¬ flushed self.new }
        ensures works { OnOk result (failures self.new ≡ failures self.old) }
        ensures fails { OnErr result (failures self.new ≢ failures self.old) }
        ensures counts { OnErr result (failures self.new ≡ (failures self.old + 1) % 2 ^ 64) };

    /// Flushes whatever the device has buffered.
    ///
    /// # Errors
    ///
    /// The device failed.
    fn flush(&mut self) -> Result<(), DeviceFault>
        ensures none { keeps self.old [] self.new }
        ensures told { OnOk result (flushed self.new) }
        ensures only_told { OnErr result (¬ flushed self.new) }
        ensures works { OnOk result (failures self.new ≡ failures self.old) }
        ensures fails { OnErr result (failures self.new ≢ failures self.old) }
        ensures counts { OnErr result (failures self.new ≡ (failures self.old + 1) % 2 ^ 64) };

    /// With no call, no bytes are put; the bytes of successive calls are concatenated.
    ghost none: { (s : Self) → keeps s [] s };

    ghost chain: { (s t u : Self) (front back : List ℕ) → keeps s front t → keeps t back u → keeps s (front ++ back) u };
}
