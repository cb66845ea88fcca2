//! The entries of the least data that fail at pairs of nodes.

ghost use Rattle.std.specs.Prelude.{◌≡◌, ◌==◌, cond, Option, nat_lt, Some, position};
ghost use Rattle.indexmap.specs.IndexSet.{keys};
ghost use Rattle.avro_least.specs.Tables.{erring_of, reached_entry, pair_number, no_parts};
ghost use Rattle.avro_least.specs.SeenLeast.{seen, seen_all, table_of};

use crate::kept::Least;
use crate::nodes::least::entry;
use crate::pairs::near::index_near;
use crate::pairs::reaching::number;
use crate::queue::entry_at;
use avro_schema::NodeId;
use avro_texts::Seeded;
use indexmap::IndexSet;

/// The entry of a pair, given its number, which is looked for at the index `near` first.
fn numbered_entry(
    known: &IndexSet<u64, Seeded>,
    entries: &[Option<Least>],
    key: u64,
    near: usize,
) -> Option<Least>
    ensures { seen result ≡ reached_entry (seen_all entries.now) (position (λ k. key == k) (keys known.now)) }
{
    match index_near(known, key, near) {
        None => Some(Least { nodes: 0, depth: 0 }),
        Some(i) => entry_at(entries, i),
    }
}

/// The entry of a pair whose writer's node has data.
fn live_entry(
    count: u32,
    known: &IndexSet<u64, Seeded>,
    entries: &[Option<Least>],
    w: NodeId,
    r: NodeId,
    near: usize,
) -> Option<Least>
    ensures { seen result ≡ cond (nat_lt r.0 count) (reached_entry (seen_all entries.now) (position (λ k. pair_number count w.0 r.0 == k) (keys known.now))) (Some no_parts) }
{
    if r.0 < count {
        numbered_entry(known, entries, number(count, w, r), near)
    } else {
        Some(Least { nodes: 0, depth: 0 })
    }
}

/// The entry of a pair, from the table of least data and the entries of the pairs that were reached. It is
/// `None` if no datum fails.
pub fn pair_entry(
    table: &[Option<Least>],
    count: u32,
    known: &IndexSet<u64, Seeded>,
    entries: &[Option<Least>],
    w: NodeId,
    r: NodeId,
) -> Option<Least>
    ensures { seen result ≡ erring_of count (table_of table.now) (keys known.now) (seen_all entries.now) w.0 r.0 }
{
    pair_entry_near(table, count, known, entries, w, r, 0)
}

/// The same of a pair that is mostly at the index `near`.
pub(crate) fn pair_entry_near(
    table: &[Option<Least>],
    count: u32,
    known: &IndexSet<u64, Seeded>,
    entries: &[Option<Least>],
    w: NodeId,
    r: NodeId,
    near: usize,
) -> Option<Least>
    ensures { seen result ≡ erring_of count (table_of table.now) (keys known.now) (seen_all entries.now) w.0 r.0 }
{
    match entry(table, w) {
        None => None,
        Some(_) => live_entry(count, known, entries, w, r, near),
    }
}
