//! Taking bytes from an input until a part of a file is complete.

ghost use Rattle.std.specs.Prelude.{◌≡◌, ◌≢◌, ◌+◌, ◌-◌, ◌^◌, ◌<◌, ◌≤◌, max, length, OnOk, OnErr, Err};
ghost use Rattle.avro_file.specs.Filled.{GrowsBy, TakesAtMost, UnlessLost};
ghost use Rattle.avro_file.specs.Held.{held};

pub(crate) mod buffer;
pub(crate) mod number;

use crate::input::buffer::{Buffer, GROWTH, TakeError};
use avro_device::Input;

/// Why a part of a file cannot be taken as a whole.
#[derive(Clone, Copy, Debug, PartialEq, Eq)]
pub(crate) enum PartError {
    /// A number is too large.
    OutOfRange,
    /// It exceeds a limit.
    Limit,
    /// The input ends in it.
    Ended,
    /// The input failed in this call.
    Device,
    /// Memory ran out.
    OutOfMemory,
}

/// How far an input may be taken: up to `limit` bytes in all, and up to `ahead` bytes beyond what is asked for.
#[derive(Clone, Copy, Debug)]
pub struct Reach {
    /// The most bytes in all.
    pub limit: usize,
    /// The most bytes beyond what is asked for.
    pub ahead: usize,
}

/// Takes bytes until the buffer holds a given number.
///
/// # Errors
///
/// `Limit` if the number exceeds the limit, `Ended` if the input ends first; `Device`, `OutOfMemory`.
pub(crate) fn fill<I: Input>(
    input: &mut I,
    buffer: &mut Buffer,
    want: usize,
    reach: Reach,
) -> Result<(), PartError>
    requires { reach.limit + reach.ahead < 2 ^ 63 }
    ensures there { OnOk result (want ≤ length (held buffer.new)) }
    ensures taken { UnlessLost result (GrowsBy I.gives input.old input.new (held buffer.old) (held buffer.new)) }
    ensures lost { OnErr result (TakesAtMost I.gives input.old input.new (reach.limit - length (held buffer.old))) }
    ensures within { length (held buffer.new) ≤ max (length (held buffer.old)) (want + reach.ahead) }
    ensures limited { length (held buffer.new) ≤ max (length (held buffer.old)) reach.limit }
    ensures over { result ≡ Err PartError.Limit → reach.limit < want }
    ensures kept { result ≡ Err PartError.Limit → held buffer.new ≡ held buffer.old }
    ensures ended { result ≡ Err PartError.Ended → I.ended input.new }
    ensures short { result ≡ Err PartError.Ended → length (held buffer.new) < want }
    ensures inside { result ≡ Err PartError.Ended → want ≤ reach.limit }
    ensures in_range { result ≢ Err PartError.OutOfRange }
    ensures works { OnOk result (I.failures input.new ≡ I.failures input.old) }
    ensures still { result ≡ Err PartError.Ended → I.failures input.new ≡ I.failures input.old }
    ensures fails { result ≡ Err PartError.Device → I.failures input.new ≢ I.failures input.old }
{
    if want <= buffer.len() {
        return Ok(());
    }
    if want > reach.limit {
        return Err(PartError::Limit);
    }
    let most = (want + reach.ahead).min(reach.limit);
    while buffer.len() < want {
        let wanted = (most - buffer.len()).min(GROWTH);
        match buffer.take_more(input, wanted) {
            Ok(count) => {
                if count == 0 {
                    return Err(PartError::Ended);
                }
            }
            Err(TakeError::Device) => return Err(PartError::Device),
            Err(TakeError::OutOfMemory) => return Err(PartError::OutOfMemory),
        }
    }
    Ok(())
}
