//! Writing numbers (Avro 1.11, "Binary Encoding").

ghost use Rattle.std.specs.Prelude.{◌≡◌, ℕ, ◌≤◌, take, slice_index};
ghost use Rattle.avro_zigzag.specs.Number.{zigzag, AreLeastGroups, IsShortest};

/// The zig-zag number of `value`: small for a value near 0, of either sign.
///
/// Avro 1.11, "Binary Encoding", "Primitive Types".
#[inline(always)]
pub fn to_zigzag(value: i64) -> u64
    ensures { result ≡ zigzag value }
{
    if value >= 0 {
        2 * (value as u64)
    } else {
        2 * (-(value + 1) as u64) + 1
    }
}

/// The shortest groups of `number`, and how many of the ten bytes they take. The rest are zero.
fn write_groups(number: u64) -> ([u8; 10], usize)
    ensures length { (1 ≤ result.1) × (result.1 ≤ 10) }
    ensures spelled { AreLeastGroups number (take result.1 result.0) }
    ensures rest_zero { (k : ℕ) → result.1 ≤ k → slice_index result.0 k ≡ 0 }
{
    let mut bytes = [0; 10];
    let mut rest = number;
    let mut len = 0;
    while rest >= 128 {
        bytes[len] = 128 + (rest % 128) as u8;
        rest >>= 7;
        len += 1;
    }
    bytes[len] = rest as u8;
    (bytes, len + 1)
}

/// The shortest encoding of `value` as an int or a long, and how many of the ten bytes it takes. The rest are zero.
///
/// Avro 1.11, "Binary Encoding", "Primitive Types": zig-zag, then groups of seven bits, least significant first.
#[inline(always)]
pub fn write_long(value: i64) -> ([u8; 10], usize)
    ensures length { (1 ≤ result.1) × (result.1 ≤ 10) }
    ensures spelled { IsShortest value (take result.1 result.0) }
    ensures rest_zero { (k : ℕ) → result.1 ≤ k → slice_index result.0 k ≡ 0 }
{
    let number = to_zigzag(value);
    // Most numbers take one byte: this case is inlined.
    if number < 128 {
        return ([number as u8, 0, 0, 0, 0, 0, 0, 0, 0, 0], 1);
    }
    write_groups(number)
}
