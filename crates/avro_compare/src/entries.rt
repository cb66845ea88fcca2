//! Lists of what is kept of some indices, in the order of these. They are read from the front, as the indices pass.

ghost use Rattle.std.specs.Prelude.{◌≡◌, ◌++◌, ◌∷◌, [], OnOk};
ghost use Rattle.avro_compare.specs.Entries.{first_entry, rest_entries};

use avro_schema::Memory;

/// What the first entry keeps, if it is of this index.
#[inline(always)]
pub fn first_entry<T: Copy>(entries: &[(usize, T)], index: usize) -> Option<T>
    ensures { result ≡ first_entry entries.now index }
{
    if entries.len() > 0 && entries[0].0 == index {
        Some(entries[0].1)
    } else {
        None
    }
}

/// The entries without the first, if that is of this index.
#[inline(always)]
pub fn rest_entries<T>(entries: &[(usize, T)], index: usize) -> &[(usize, T)]
    ensures { result.now ≡ rest_entries entries.now index }
{
    if entries.len() > 0 && entries[0].0 == index {
        &entries[1..]
    } else {
        entries
    }
}

/// Adds an entry to a list that mostly gets no other: it begins with room for one.
pub(crate) fn push_lone<T: Copy>(
    kept: &mut Vec<(usize, T)>,
    entry: (usize, T),
) -> Result<(), Memory>
    ensures { OnOk result (kept.new.items ≡ kept.old.items ++ entry ∷ []) }
{
    if kept.len() == kept.capacity() {
        kept.reserve_exact(kept.len().max(1))?;
    }
    kept.push(entry)?;
    Ok(())
}
