//! Reading numbers (Avro 1.11, "Binary Encoding").

ghost use Rattle.std.specs.Prelude.{◌≡◌, ℕ, ◌+◌, ◌-◌, ◌*◌, ◌^◌, ◌<◌, ◌≤◌, ℤ, true, List, ◌++◌, length, take, IfOk};
ghost use Rattle.std.specs.Result.{IfErr};
ghost use Rattle.avro_zigzag.specs.declared.VarError.{VarError};
ghost use Rattle.avro_zigzag.specs.Number.{zigzag, AreGroups, SpellsInt, SpellsLong, is_int, is_long};
ghost use Rattle.avro_zigzag.specs.NumberFault.{NumberFails, IntFails, LongFails};

use crate::VarError;

/// The value whose zig-zag number is `number`.
#[inline(always)]
fn from_zigzag(number: u64) -> i64
    ensures { zigzag result ≡ number }
{
    let half = (number / 2) as i64;
    if number % 2 == 0 { half } else { -half - 1 }
}

/// The value of the groups at the start of `bytes`, and how many there are: at most `most`, of which group number
/// `most` is at most `top`.
///
/// Most numbers take one or two bytes: these cases are inlined.
#[inline(always)]
fn read_groups(bytes: &[u8], most: usize, top: u8) -> Result<(u64, usize), VarError>
    requires several { 3 ≤ most }
    requires low { top < 128 }
    requires fits { (top + 1) * 128 ^ (most - 1) ≤ 2 ^ 64 }
    ensures found { IfOk result (λ r. (1 ≤ r.1) × (r.1 ≤ length bytes.now) × AreGroups most r.0 (take r.1 bytes.now)) }
    ensures below { IfOk result (λ r. r.0 < (top + 1) * 128 ^ (most - 1)) }
    ensures refused { IfErr result (λ e. NumberFails most top bytes.now e) }
{
    if !bytes.is_empty() && bytes[0] < 128 {
        return Ok((u64::from(bytes[0]), 1));
    }
    if bytes.len() >= 2 && bytes[0] >= 128 && bytes[1] < 128 {
        return Ok((u64::from(bytes[0] - 128) + (u64::from(bytes[1]) << 7), 2));
    }
    read_each_group(bytes, most, top)
}

/// Like `read_groups`, in a loop.
fn read_each_group(bytes: &[u8], most: usize, top: u8) -> Result<(u64, usize), VarError>
    requires several { 2 ≤ most }
    requires low { top < 128 }
    requires fits { (top + 1) * 128 ^ (most - 1) ≤ 2 ^ 64 }
    ensures found { IfOk result (λ r. (1 ≤ r.1) × (r.1 ≤ length bytes.now) × AreGroups most r.0 (take r.1 bytes.now)) }
    ensures below { IfOk result (λ r. r.0 < (top + 1) * 128 ^ (most - 1)) }
    ensures refused { IfErr result (λ e. NumberFails most top bytes.now e) }
{
    let mut value = 0;
    for (index, byte) in bytes.iter().enumerate() {
        let byte = *byte;
        if byte < 128 {
            if index + 1 == most && byte > top {
                return Err(VarError::OutOfRange);
            }
            return Ok((value + (u64::from(byte) << (7 * index)), index + 1));
        }
        if index + 1 == most {
            return Err(VarError::OutOfRange);
        }
        value += u64::from(byte - 128) << (7 * index);
    }
    Err(VarError::EndOfInput)
}

/// Reads the long at the start of `bytes`, padded or not; returns it and the number of bytes it takes.
///
/// Avro 1.11, "Binary Encoding", "Primitive Types": zig-zag, then groups of seven bits, least significant first. The
/// number may be padded with groups of 0, up to ten bytes in all.
///
/// # Errors
///
/// Whichever comes first, byte by byte: `EndOfInput` if no byte is left, `OutOfRange` if the tenth byte is above `01`.
#[inline(always)]
pub fn read_long(bytes: &[u8]) -> Result<(i64, usize), VarError>
    ensures found { IfOk result (λ r. (r.1 ≤ length bytes.now) × SpellsLong r.0 (take r.1 bytes.now)) }
    ensures nonempty { IfOk result (λ r. 1 ≤ r.1) }
    ensures in_range { IfOk result (λ r. is_long r.0 ≡ true) }
    ensures only { (v : ℤ) (front rest : List ℕ) → is_long v ≡ true → SpellsLong v front → bytes.now ≡ front ++ rest → result ≡ Ok (v, length front) }
    ensures refused { IfErr result (λ e. LongFails bytes.now e) }
    ensures fails { (e : VarError) → LongFails bytes.now e → result ≡ Err e }
{
    let (number, len) = read_groups(bytes, 10, 1)?;
    Ok((from_zigzag(number), len))
}

/// Reads the int at the start of `bytes`, padded or not; returns it and the number of bytes it takes.
///
/// Avro 1.11, "Binary Encoding", "Primitive Types": zig-zag, then groups of seven bits, least significant first. The
/// number may be padded with groups of 0, up to five bytes in all.
///
/// # Errors
///
/// Whichever comes first, byte by byte: `EndOfInput` if no byte is left, `OutOfRange` if the fifth byte is above `0f`.
#[inline(always)]
pub fn read_int(bytes: &[u8]) -> Result<(i32, usize), VarError>
    ensures found { IfOk result (λ r. (r.1 ≤ length bytes.now) × SpellsInt r.0 (take r.1 bytes.now)) }
    ensures nonempty { IfOk result (λ r. 1 ≤ r.1) }
    ensures in_range { IfOk result (λ r. is_int r.0 ≡ true) }
    ensures only { (v : ℤ) (front rest : List ℕ) → is_int v ≡ true → SpellsInt v front → bytes.now ≡ front ++ rest → result ≡ Ok (v, length front) }
    ensures refused { IfErr result (λ e. IntFails bytes.now e) }
    ensures fails { (e : VarError) → IntFails bytes.now e → result ≡ Err e }
{
    let (number, len) = read_groups(bytes, 5, 15)?;
    Ok((from_zigzag(number) as i32, len))
}
