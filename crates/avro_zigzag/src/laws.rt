//! Laws about the encoding of numbers.

ghost use Rattle.std.specs.Prelude.{◌≡◌, ◌⊎◌, ◌≤◌, true, ℕ, ℤ, List, ◌++◌, length, nat_lt};
ghost use Rattle.std.specs.List.{list_all};
ghost use Rattle.avro_zigzag.specs.Number.{zigzag, AreGroups, SpellsInt, SpellsLong, IsShortest, number_bytes, is_int, is_long};
ghost use Rattle.avro_zigzag.specs.NumberFault.{LongFails, IntFails};
ghost use Rattle.avro_zigzag.specs.declared.VarError.{VarError};

/// Each number has a shortest encoding, and `number_bytes` computes it.
pub fn spelled()
    ensures { (v : ℤ) → IsShortest v (number_bytes v) }
{}

/// The shortest encoding of a long encodes it as a long.
pub fn long_spelled()
    ensures { (v : ℤ) (bytes : List ℕ) → is_long v ≡ true → IsShortest v bytes → SpellsLong v bytes }
{}

/// The shortest encoding of an int encodes it as an int.
pub fn int_spelled()
    ensures { (v : ℤ) (bytes : List ℕ) → is_int v ≡ true → IsShortest v bytes → SpellsInt v bytes }
{}

/// No encoding of a number is shorter than its shortest one.
pub fn none_shorter()
    ensures { (most : ℕ) (v : ℤ) (short bytes : List ℕ) → IsShortest v short → AreGroups most (zigzag v) bytes → length short ≤ length bytes }
{}

/// No encoding of an int or a long is a proper prefix of another: the bytes determine the number and where it ends.
pub fn one_spelling()
    ensures { (most more : ℕ) (v w : ℤ) (a b x y : List ℕ) → AreGroups most (zigzag v) a → AreGroups more (zigzag w) b → a ++ x ≡ b ++ y → (a ≡ b) × (v ≡ w) }
{}

/// Bytes start with a long in range, or have a fault of a long; there is no third case.
pub fn long_or_fault()
    ensures { (bytes : List ℕ) → list_all (λ b. nat_lt b 256) bytes ≡ true
        → ((v : ℤ) × (front rest : List ℕ) × (is_long v ≡ true) × SpellsLong v front × (bytes ≡ front ++ rest)) ⊎ ((e : VarError) × LongFails bytes e) }
{}

/// The same for an int.
pub fn int_or_fault()
    ensures { (bytes : List ℕ) → list_all (λ b. nat_lt b 256) bytes ≡ true
        → ((v : ℤ) × (front rest : List ℕ) × (is_int v ≡ true) × SpellsInt v front × (bytes ≡ front ++ rest)) ⊎ ((e : VarError) × IntFails bytes e) }
{}
