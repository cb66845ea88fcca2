//! Chooses the branch or the field of a least datum that fails.

ghost use Rattle.std.specs.Prelude.{◌≡◌, ◌<◌, ◌≤◌, ℕ, true, length, slice_get, Some, is_some, IfOk};
ghost use Rattle.std.proofs.Math.ListN.{drop};
ghost use Rattle.avro_schema.specs.Seen.{ids_of};
ghost use Rattle.avro_least.specs.Asked.{err_of_row, err_of_rows};
ghost use Rattle.avro_least.specs.BuiltErrors.{total_from};
ghost use Rattle.avro_least.specs.SeenAsk.{row_of, rows_of};
ghost use Rattle.avro_least.specs.SeenLeast.{given_entry, seen};
ghost use Rattle.avro_least.specs.SeenTables.{erring_in, least_in};
ghost use Rattle.avro_least.specs.Tables.{best_of, together};

use crate::datum::least::are_same;
use crate::datum::tables::Tables;
use crate::kept::Least;
use crate::nodes::least::{entry, lesser, together};
use crate::pairs::asking::FieldAsk;
use crate::pairs::erring::pair_entry;
use crate::queue::entry_at;
use avro_schema::{Memory, NodeId};
use std::alloc::Global;

/// The entry of a pair.
fn erring_entry(tables: &Tables, w: NodeId, r: NodeId) -> Option<Least>
    ensures { seen result ≡ erring_in tables.now w.0 r.0 }
{
    let known = &tables.reached.known;
    pair_entry(tables.table, tables.count, known, tables.entries, w, r)
}

/// The best entry of the branches of a writer's union.
fn best_branch(tables: &Tables, ids: &[NodeId], r: NodeId) -> Option<Least>
    ensures { seen result ≡ best_of (λ p. erring_in tables.now p r.0) (ids_of ids.now) }
{
    let mut best = None;
    let mut i = ids.len();
    while i > 0 {
        i -= 1;
        best = lesser(erring_entry(tables, ids[i], r), best);
    }
    best
}

/// The entry of a writer's field, or `None` if no reader's field takes its value.
fn row_entry(tables: &Tables, row: FieldAsk) -> Option<Least>
    ensures { seen result ≡ err_of_row (erring_in tables.now) (row_of row) }
{
    match row.theirs {
        None => None,
        Some(theirs) => erring_entry(tables, row.node, theirs),
    }
}

/// The best entry of a record in which one field fails, beside the least data of the others.
fn best_field(tables: &Tables, rows: &[FieldAsk]) -> Option<Least>
    requires { tables.now.limit ≤ 16777216 }
    ensures { seen result ≡ err_of_rows tables.now.limit (least_in tables.now) (erring_in tables.now) (rows_of rows.now) }
{
    let mut all = Some(Least { nodes: 0, depth: 0 });
    let mut best = None;
    let mut i = rows.len();
    while i > 0 {
        i -= 1;
        let own = entry(tables.table, rows[i].node);
        let first = together(tables.limit, row_entry(tables, rows[i]), all);
        best = lesser(first, together(tables.limit, own, best));
        all = together(tables.limit, own, all);
    }
    best
}

/// The index of the branch with the best entry against a reader's node.
pub(crate) fn best_error_index(tables: &Tables, ids: &[NodeId], r: NodeId) -> usize
    ensures { is_some (best_of (λ p. erring_in tables.now p r.0) (ids_of ids.now)) ≡ true
        → (p : ℕ) × (slice_get (ids_of ids.now) result ≡ Some p)
        × (erring_in tables.now p r.0 ≡ best_of (λ p. erring_in tables.now p r.0) (ids_of ids.now)) }
{
    let best = best_branch(tables, ids, r);
    for i in 0..ids.len() {
        if are_same(erring_entry(tables, ids[i], r), best) {
            return i;
        }
    }
    0
}

/// For each field, the entry of the least data of all before it.
fn totals_before(
    alloc: Global,
    tables: &Tables,
    rows: &[FieldAsk],
) -> Result<Vec<Option<Least>>, Memory>
    requires { tables.now.limit ≤ 16777216 }
    ensures { IfOk result (λ b. (i : ℕ) → i < length rows.now → (k : ℕ) → i ≤ k
        → total_from tables.now.limit (least_in tables.now) (erring_in tables.now) k 0 (rows_of rows.now)
        ≡ together tables.now.limit (given_entry (slice_get b.items i))
        (total_from tables.now.limit (least_in tables.now) (erring_in tables.now) k i (rows_of (drop i rows.now)))) }
{
    let mut totals = Vec::new(alloc);
    let mut all = Some(Least { nodes: 0, depth: 0 });
    for i in 0..rows.len() {
        totals.push(all)?;
        all = together(tables.limit, all, entry(tables.table, rows[i].node));
    }
    Ok(totals)
}

/// The index of the first field that gives the best entry if it is the chosen one.
///
/// # Errors
///
/// Memory ran out.
pub(crate) fn best_row(alloc: Global, tables: &Tables, rows: &[FieldAsk]) -> Result<usize, Memory>
    requires { tables.now.limit ≤ 16777216 }
    ensures { IfOk result (λ n. (k : ℕ) → k < length rows.now
        → total_from tables.now.limit (least_in tables.now) (erring_in tables.now) k 0 (rows_of rows.now)
        ≡ err_of_rows tables.now.limit (least_in tables.now) (erring_in tables.now) (rows_of rows.now)
        → (n < length rows.now)
        × (total_from tables.now.limit (least_in tables.now) (erring_in tables.now) n 0 (rows_of rows.now)
        ≡ err_of_rows tables.now.limit (least_in tables.now) (erring_in tables.now) (rows_of rows.now))) }
{
    let best = best_field(tables, rows);
    let before = totals_before(alloc, tables, rows)?;
    let mut chosen = 0;
    let mut behind = Some(Least { nodes: 0, depth: 0 });
    let mut i = rows.len();
    while i > 0 {
        i -= 1;
        let own = row_entry(tables, rows[i]);
        let fails = together(tables.limit, own, behind);
        let all = together(tables.limit, entry_at(&before, i), fails);
        behind = together(tables.limit, entry(tables.table, rows[i].node), behind);
        if are_same(all, best) {
            chosen = i;
        }
    }
    Ok(chosen)
}
