//! Telling the shortest encoding from padded ones (Avro 1.11, "Binary Encoding").

ghost use Rattle.std.specs.Prelude.{◌≡◌, ℕ, ℤ, true, List, ◌++◌};
ghost use Rattle.avro_zigzag.specs.Number.{zigzag, are_groups, groups_value, AreGroups, AreLeastGroups, IsShortest};

/// Whether the number at the start of `bytes` is in its shortest encoding, the one that `write_long` writes. No clause says that a
/// shortest one is found to be so: a copy is then only slower.
///
/// Most numbers take one byte: this case is inlined.
#[inline(always)]
pub fn starts_shortest(bytes: &[u8]) -> bool
    ensures { (most : ℕ) (v : ℤ) (front rest : List ℕ) → AreGroups most (zigzag v) front → bytes.now ≡ front ++ rest → result ≡ true → IsShortest v front }
{
    if !bytes.is_empty() && bytes[0] < 128 {
        return true;
    }
    ends_shortest(bytes)
}

/// Whether the last group at the start of `bytes` is not 0, so that fewer groups cannot hold the value.
fn ends_shortest(bytes: &[u8]) -> bool
    ensures { (front rest : List ℕ) → are_groups front ≡ true → bytes.now ≡ front ++ rest → result ≡ true → AreLeastGroups (groups_value front) front }
{
    for byte in bytes {
        let byte = *byte;
        if byte < 128 {
            return byte > 0;
        }
    }
    false
}
