//! Checking that no element of a list occurs twice.

ghost use Rattle.std.specs.Prelude.{◌≡◌, ℕ, ◌+◌, ◌<◌, length, map, bytes_eq, IfOk, MatchBool, slice_index_or};
ghost use Rattle.std.specs.List.{AllAdjacentBelow};
ghost use Rattle.std.specs.Ordering.{eq_by_cmp};
ghost use Rattle.std.specs.declared.cmp.Ordering.TheVariants.{Less};
ghost use Rattle.avro_schema.specs.Distinct.{are_distinct};

use crate::datum::Memory;
use std::cmp::Ordering;

/// Whether all items are different. Sorts them.
pub(crate) fn are_unique<T: Ord + Drop>(items: Vec<T>) -> Result<bool, Memory>
    ensures { IfOk result (λ answer. answer ≡ are_distinct (eq_by_cmp T.cmp) items.items) }
{
    let mut sorted = items;
    sorted.sort()?;
    Ok(rise(&sorted))
}

/// Whether the items are strictly increasing.
fn rise<T: Ord>(items: &[T]) -> bool
    ensures { MatchBool result (AllAdjacentBelow (λ x y. T.cmp x y ≡ Less) items.now (length items.now))
        ((k : ℕ) × (k + 1 < length items.now)
        × ((d : T) → T.cmp (slice_index_or items.now k d) (slice_index_or items.now (k + 1) d) ≡ Less → ⊥)) }
{
    for i in 1..items.len() {
        match items[i - 1].cmp(&items[i]) {
            Ordering::Less => {}
            _ => return false,
        }
    }
    true
}

/// Whether all texts are different.
pub(crate) fn are_unique_texts(texts: Vec<&str>) -> Result<bool, Memory>
    ensures { IfOk result (λ answer. answer ≡ are_distinct bytes_eq (map (λ t. t.now) texts.entry.items)) }
{
    are_unique(texts)
}
