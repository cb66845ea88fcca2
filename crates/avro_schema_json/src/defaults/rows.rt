//! Sets of nodes as rows of bits. Each node has a place, the number of its bit; a row has all nodes whose bits are set.

ghost use Rattle.std.specs.Prelude.{◌≡◌, ◌/◌, ◌%◌, ◌==◌, ℕ, true};
ghost use Rattle.std.specs.Int.{bit_at};
ghost use Rattle.avro_schema_json.specs.inside.Covers.{place_of as place_by};
ghost use Rattle.avro_schema_json.specs.inside.Rows.{has_place, IsWithin};

/// A row of bits, one for each place.
#[derive(Clone, Copy, PartialEq, Eq, PartialOrd, Ord, Drop)]
pub(crate) struct Row {
    pub words: [u64; 64],
}

/// The place of a node: its id, but the nodes past the last place share it.
pub(crate) fn place_of(last: u32, id: usize) -> u32
    ensures { result ≡ place_by last id }
{
    if id < last as usize { id as u32 } else { last }
}

/// The row that has no place.
pub(crate) fn empty_row() -> Row {
    Row { words: [0; 64] }
}

/// Whether the bit of a place is set. A place past the row counts as set.
pub(crate) fn has(row: &Row, place: usize) -> bool
    ensures { result ≡ has_place row.now.words place }
{
    (word_of(row, place / 64) >> (place % 64)) & 1 == 1
}

/// The bits of 64 places. Those past the row count as set.
pub(crate) fn word_of(row: &Row, word: usize) -> u64
    ensures { (p : ℕ) → p / 64 ≡ word → has_place row.now.words p ≡ (bit_at result (p % 64) == 1) }
{
    if word < 64 { row.words[word] } else { u64::MAX }
}

/// Sets bits of a word.
pub(crate) fn put_bits(row: &mut Row, word: usize, bits: u64)
    ensures kept { IsWithin row.old.words row.new.words }
    ensures added { (p : ℕ) → p / 64 ≡ word → bit_at bits (p % 64) ≡ 1 → has_place row.new.words p ≡ true }
{
    if word < 64 {
        row.words[word] |= bits;
    }
}

/// Sets the bit of a place.
pub(crate) fn put(row: &mut Row, place: u32)
    ensures kept { IsWithin row.old.words row.new.words }
    ensures added { has_place row.new.words place ≡ true }
{
    put_bits(row, place as usize / 64, 1 << (place % 64));
}

/// Adds what another row has.
pub(crate) fn add_row(row: &mut Row, other: &Row)
    ensures kept { IsWithin row.old.words row.new.words }
    ensures added { IsWithin other.now.words row.new.words }
{
    for i in 0..64 {
        row.words[i] |= other.words[i];
    }
}

/// Keeps what another row has too.
pub(crate) fn keep_row(row: &mut Row, other: &Row)
    ensures { (p : ℕ) → has_place row.old.words p ≡ true → has_place other.now.words p ≡ true → has_place row.new.words p ≡ true }
{
    for i in 0..64 {
        row.words[i] &= other.words[i];
    }
}
