//! Taking a number.

ghost use Rattle.std.specs.Prelude.{◌≡◌, ◌≢◌, ◌+◌, ◌-◌, ◌^◌, ◌<◌, ◌≤◌, max, length, take, drop, OnOk, OnErr, IfOk, Err};
ghost use Rattle.avro_zigzag.specs.NumberFault.{LongFails};
ghost use Rattle.avro_zigzag.specs.declared.VarError.TheVariants.{EndOfInput, OutOfRange};
ghost use Rattle.avro_cursor.specs.Breaks.{StartsWithLong};
ghost use Rattle.avro_file.specs.Filled.{GrowsBy, TakesAtMost, UnlessLost};
ghost use Rattle.avro_file.specs.Held.{held};

use crate::input::buffer::Buffer;
use crate::input::{PartError, Reach, fill};
use avro_device::Input;
use avro_zigzag::{VarError, read_long};

/// Takes the long that starts after a number of bytes; returns it and its length in bytes.
///
/// # Errors
///
/// `OutOfRange`, `Limit`, `Ended`, `Device`, `OutOfMemory`.
pub(crate) fn take_long<I: Input>(
    input: &mut I,
    buffer: &mut Buffer,
    at: usize,
    reach: Reach,
) -> Result<(i64, usize), PartError>
    requires begins { at ≤ length (held buffer.old) }
    requires small { reach.limit + reach.ahead < 2 ^ 63 }
    requires fits { length (held buffer.old) < 2 ^ 63 }
    ensures inside { IfOk result (λ r. at + r.1 ≤ length (held buffer.new)) }
    ensures short { IfOk result (λ r. r.1 ≤ 10) }
    ensures found { IfOk result (λ r. StartsWithLong r.0 (drop at (held buffer.new)) (take r.1 (drop at (held buffer.new))) (drop r.1 (drop at (held buffer.new)))) }
    ensures taken { UnlessLost result (GrowsBy I.gives input.old input.new (held buffer.old) (held buffer.new)) }
    ensures lost { OnErr result (TakesAtMost I.gives input.old input.new (reach.limit - length (held buffer.old))) }
    ensures within { IfOk result (λ r. length (held buffer.new) ≤ max (length (held buffer.old)) (at + r.1 + reach.ahead)) }
    ensures limited { length (held buffer.new) ≤ max (length (held buffer.old)) reach.limit }
    ensures out { result ≡ Err PartError.OutOfRange → LongFails (drop at (held buffer.new)) OutOfRange }
    ensures over { result ≡ Err PartError.Limit → reach.limit ≤ length (held buffer.new) }
    ensures over_cut { result ≡ Err PartError.Limit → LongFails (drop at (held buffer.new)) EndOfInput }
    ensures ended { result ≡ Err PartError.Ended → I.ended input.new }
    ensures inside_limit { result ≡ Err PartError.Ended → length (held buffer.new) < reach.limit }
    ensures cut { result ≡ Err PartError.Ended → LongFails (drop at (held buffer.new)) EndOfInput }
    ensures works { OnOk result (I.failures input.new ≡ I.failures input.old) }
    ensures fails { result ≡ Err PartError.Device → I.failures input.new ≢ I.failures input.old }
{
    loop {
        let (_, rest) = buffer.bytes().split_at(at);
        match read_long(rest) {
            Ok(found) => return Ok(found),
            Err(VarError::EndOfInput) => {
                let want = buffer.len() + 1;
                fill(input, buffer, want, reach)?;
            }
            Err(VarError::NotShortest) => return Err(PartError::OutOfRange),
            Err(VarError::OutOfRange) => return Err(PartError::OutOfRange),
        }
    }
}
