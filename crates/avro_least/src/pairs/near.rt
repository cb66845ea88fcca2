//! The indices of numbers that are known, each looked for first where it mostly is.

ghost use Rattle.std.specs.Prelude.{◌≡◌, ◌<◌, ◌==◌, Some, true, nat_eq, position, slice_get, IfSome, OnOk};
ghost use Rattle.indexmap.specs.IndexSet.{index_set_len, insert_key, keys};

use avro_schema::Memory;
use avro_texts::Seeded;
use indexmap::IndexSet;

/// Whether a number is the one at an index.
fn is_at(known: &IndexSet<u64, Seeded>, i: usize, key: u64) -> bool
    ensures { result ≡ true → slice_get (keys known.now) i ≡ Some key }
{
    match known.get_index(i) {
        Some(own) => *own == key,
        None => false,
    }
}

/// The index of a number, if it is known, which is looked for at the index `near` first.
pub(crate) fn index_near(known: &IndexSet<u64, Seeded>, key: u64, near: usize) -> Option<usize>
    ensures index { result ≡ position (λ k. key == k) (keys known.now) }
    ensures within { IfSome result (λ i. i < index_set_len known.now) }
{
    // The contract of this call says that no number is known twice, which the proof needs.
    let _ = known.len();
    if is_at(known, near, key) {
        return Some(near);
    }
    known.get_index_of(&key)
}

/// The same, looked for first after the number that was found before.
pub(crate) fn index_next(known: &IndexSet<u64, Seeded>, key: u64, next: &mut usize) -> Option<usize>
    ensures index { result ≡ position (λ k. key == k) (keys known.now) }
    ensures within { IfSome result (λ i. i < index_set_len known.now) }
{
    let found = index_near(known, key, *next);
    match found {
        Some(i) => *next = i.saturating_add(1),
        None => {}
    }
    found
}

/// Adds a number if it is not known, which is looked for first after the number that was added before.
pub(crate) fn add_next(
    known: &mut IndexSet<u64, Seeded>,
    key: u64,
    next: &mut usize,
) -> Result<(), Memory>
    ensures { OnOk result (keys known.new ≡ insert_key nat_eq (keys known.old) key) }
{
    if is_at(known, *next, key) {
        *next = next.saturating_add(1);
        return Ok(());
    }
    let (i, _) = known.insert_full(key)?;
    *next = i.saturating_add(1);
    Ok(())
}
