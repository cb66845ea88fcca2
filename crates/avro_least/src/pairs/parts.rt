//! The parts of a pair of nodes: the pairs that it leads to, and what its entry comes to by one of them.

ghost use Rattle.std.specs.Prelude.{◌≡◌, ◌<◌, ◌≤◌, ◌+◌, ℕ, List, Some, IfOk, length, slice_get, None, map, unwrap_or};
ghost use Rattle.std.proofs.Math.ListN.{drop};
ghost use Rattle.avro_schema.specs.Node.{field_ids};
ghost use Rattle.avro_schema.specs.Seen.{ids_of, node_of, seen_fields};
ghost use Rattle.avro_schema.specs.SeenSchema.{schema_nodes};
ghost use Rattle.avro_compare.specs.Entries.{AreAscending, entry_at as kept_at};
ghost use Rattle.avro_least.specs.Asked.{Row, Asked};
ghost use Rattle.avro_least.specs.Asks.{AreOrdered, IsKept, kept_count, kept_part, nth_part, pair_for, seen_part, with_index};
ghost use Rattle.avro_least.specs.SeenLeast.{seen, given_entry, table_of};
ghost use Rattle.avro_least.specs.Tables.{all_of};
ghost use Rattle.avro_least.specs.inside.Parts.{around_part, least_of_others, nodes_of, others_at, seen_pair, value_alone, AreOthers, AreOthersOf};

use crate::filled::filled;
use crate::kept::Least;
use crate::nodes::least::{around, count, entry, together};
use crate::pairs::asking::Ask;
use crate::queue::entry_at;
use avro_compare::{At, first_entry};
use avro_schema::{Field, Memory, Node, NodeId, Schema};
use std::alloc::Global;

/// The number of parts that are kept of a pair.
pub(crate) fn part_count(ask: Ask) -> usize
    ensures { result ≡ kept_count ask.entry }
{
    match ask {
        Ask::Quiet => 0,
        Ask::Whole => 0,
        Ask::Lone => 0,
        Ask::Same(_) => 1,
        Ask::Part(_, _) => 1,
        Ask::Branches(ids) => ids.len(),
        Ask::Fields(parts) => parts.len(),
    }
}

/// The id at an index, if there is one.
fn id_at(ids: &[NodeId], k: usize) -> Option<NodeId>
    ensures { result ≡ slice_get ids.now k }
{
    ids.get(k).copied()
}

/// The entry at an index, if there is one.
fn entry_in(parts: &[(usize, At)], n: usize) -> Option<(usize, At)>
    ensures { result ≡ slice_get parts.now n }
{
    parts.get(n).copied()
}

/// The branch at an index against a reader's node.
fn branch_at(ids: &[NodeId], r: NodeId, k: usize) -> Option<(NodeId, NodeId)>
    ensures { seen_pair result ≡ unwrap_or (slice_get (map (λ p. Some (record { w = p; r = r.0 })) (ids_of ids.now)) k) None }
{
    match id_at(ids, k) {
        None => None,
        Some(id) => Some((id, r)),
    }
}

/// The pair that a field leads to, if it leads to one.
fn pair_for(part: Option<At>) -> Option<(NodeId, NodeId)>
    ensures { seen_pair result ≡ pair_for part }
{
    match part {
        Some(At::Pair(a, b)) => Some((a, b)),
        Some(At::Ignored) => None,
        None => None,
    }
}

/// The nodes of the part at an index. There are none past the last part, and of a field that no reader's field takes.
pub(crate) fn part_at(w: NodeId, r: NodeId, ask: Ask, k: usize) -> Option<(NodeId, NodeId)>
    requires { AreOrdered ask }
    ensures { seen_pair result ≡ kept_part w.0 r.0 ask.entry k }
{
    match ask {
        Ask::Quiet => None,
        Ask::Whole => None,
        Ask::Lone => None,
        Ask::Same(q) => (k == 0).then_some((w, q)),
        Ask::Part(a, b) => (k == 0).then_some((a, b)),
        Ask::Branches(ids) => branch_at(ids, r, k),
        Ask::Fields(parts) => pair_for(find_entry(parts, k)),
    }
}

/// What is kept of an index.
fn find_entry(entries: &[(usize, At)], index: usize) -> Option<At>
    requires { AreAscending 0 entries.now }
    ensures { result ≡ kept_at entries.now index }
{
    let mut left = entries;
    while left.len() > 1 {
        left = half_with(left, index);
    }
    first_entry(left, index)
}

/// The half of some entries that has all that is kept of an index.
#[tactic(auto, using(crate::proofs::Entries::high_ordered, crate::proofs::Entries::high_read, crate::proofs::Entries::low_ordered, crate::proofs::Entries::low_read))]
fn half_with(entries: &[(usize, At)], index: usize) -> &[(usize, At)]
    requires order { AreAscending 0 entries.now }
    requires many { 1 < length entries.now }
    ensures order { AreAscending 0 result.now }
    ensures same { kept_at entries.now index ≡ kept_at result.now index }
    ensures fewer { length result.now < length entries.now }
{
    let (low, high) = entries.split_at(entries.len() / 2);
    if high[0].0 <= index { high } else { low }
}

/// A pair beside an index.
fn at_index(k: usize, pair: Option<(NodeId, NodeId)>) -> Option<(usize, NodeId, NodeId)>
    ensures { seen_part result ≡ with_index k (seen_pair pair) }
{
    match pair {
        None => None,
        Some((a, b)) => Some((k, a, b)),
    }
}

/// The index of one of the parts that are kept, with its nodes.
pub(crate) fn nth_part(w: NodeId, r: NodeId, ask: Ask, n: usize) -> Option<(usize, NodeId, NodeId)>
    ensures { seen_part result ≡ nth_part w.0 r.0 ask.entry n }
{
    match ask {
        Ask::Quiet => None,
        Ask::Whole => None,
        Ask::Lone => None,
        Ask::Same(q) => at_index(n, (n == 0).then_some((w, q))),
        Ask::Part(a, b) => at_index(n, (n == 0).then_some((a, b))),
        Ask::Branches(ids) => at_index(n, branch_at(ids, r, n)),
        Ask::Fields(parts) => match entry_in(parts, n) {
            None => None,
            Some((k, part)) => at_index(k, pair_for(Some(part))),
        },
    }
}

/// The entry of a pair around that of its part at an index. `others` has the least data of all of the writer's fields but each.
pub(crate) fn around_part(
    limit: u32,
    table: &[Option<Least>],
    others: &[Option<Least>],
    ask: Ask,
    k: usize,
    part: Option<Least>,
) -> Option<Least>
    requires { limit ≤ 16777216 }
    ensures { (a : Asked) → IsKept ask.entry a
        → ((rows : List Row) → a ≡ Asked.fields rows → given_entry (slice_get others.now k) ≡ least_of_others limit (table_of table.now) (map (λ row. row.node) rows) k)
        → seen result ≡ around_part limit (table_of table.now) a k (seen part) }
{
    match ask {
        Ask::Quiet => None,
        Ask::Whole => None,
        Ask::Lone => None,
        Ask::Same(_) => part,
        Ask::Part(_, _) => around(limit, part),
        Ask::Branches(_) => around(limit, part),
        Ask::Fields(_) => around(limit, together(limit, part, entry_at(others, k))),
    }
}

/// The entry of a pair that needs no part.
pub(crate) fn value_alone(table: &[Option<Least>], w: NodeId, ask: Ask) -> Option<Least>
    ensures { (a : Asked) → IsKept ask.entry a → seen result ≡ value_alone (table_of table.now) w.0 a }
{
    match ask {
        Ask::Whole => entry(table, w),
        Ask::Lone => Some(Least { nodes: 1, depth: 1 }),
        _ => None,
    }
}

/// For each field, the entry of the least data of all after it.
fn behind(
    alloc: Global,
    limit: u32,
    table: &[Option<Least>],
    fields: &[Field],
) -> Result<Vec<Option<Least>>, Memory>
    requires { limit ≤ 16777216 }
    ensures one_each { IfOk result (λ b. length b.items ≡ length fields.now) }
    ensures each { IfOk result (λ b. (k : ℕ) → k < length fields.now → given_entry (slice_get b.items k) ≡ all_of limit (table_of table.now) (drop (k + 1) (field_ids (seen_fields fields.now)))) }
{
    let mut behind = filled(alloc, fields.len(), None)?;
    let mut all = Some(Least { nodes: 0, depth: 0 });
    let mut i = fields.len();
    while i > 0 {
        i -= 1;
        behind[i] = all;
        all = together(limit, entry(table, fields[i].node), all);
    }
    Ok(behind)
}

/// For each field, the entry of the least data of all others.
fn others_of(
    alloc: Global,
    limit: u32,
    table: &[Option<Least>],
    fields: &[Field],
) -> Result<Vec<Option<Least>>, Memory>
    requires { limit ≤ 16777216 }
    ensures { IfOk result (λ o. AreOthersOf limit (table_of table.now) (field_ids (seen_fields fields.now)) o.items) }
{
    let mut others = behind(alloc, limit, table, fields)?;
    let mut before = Some(Least { nodes: 0, depth: 0 });
    for i in 0..fields.len() {
        let behind = entry_at(&others, i);
        others[i] = together(limit, before, behind);
        before = together(limit, before, entry(table, fields[i].node));
    }
    Ok(others)
}

/// The same for the fields of a node, which has none unless it is a record.
fn others_of_node(
    alloc: Global,
    limit: u32,
    table: &[Option<Least>],
    node: &Node,
) -> Result<Vec<Option<Least>>, Memory>
    requires { limit ≤ 16777216 }
    ensures { IfOk result (λ o. AreOthersOf limit (table_of table.now) (nodes_of (node_of node.now)) o.items) }
{
    match node {
        Node::Record(record) => others_of(alloc, limit, table, &record.fields),
        _ => Ok(Vec::new(alloc)),
    }
}

/// For each of the writer's nodes and each of its fields, the entry of the least data of all other fields.
///
/// # Errors
///
/// Memory ran out.
pub(crate) fn others(
    alloc: Global,
    writer: &Schema,
    limit: u32,
    table: &[Option<Least>],
) -> Result<Vec<Vec<Option<Least>>>, Memory>
    requires { limit ≤ 16777216 }
    ensures { IfOk result (λ o. AreOthers (schema_nodes writer.now) limit (table_of table.now) (length (schema_nodes writer.now)) o.items) }
{
    let count = count(writer);
    let mut rows = Vec::with_capacity(alloc, count as usize)?;
    for i in 0..count {
        let node = writer.node(NodeId(i));
        rows.push(others_of_node(alloc, limit, table, node)?)?;
    }
    Ok(rows)
}

/// The row at an index, or nothing past the end.
pub(crate) fn others_at(rows: &[Vec<Option<Least>>], i: usize) -> &[Option<Least>]
    ensures { result.now ≡ others_at rows.now i }
{
    match rows.get(i) {
        None => &[],
        Some(row) => row,
    }
}
