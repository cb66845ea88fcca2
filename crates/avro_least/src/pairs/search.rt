//! Finds the least data that fail at the pairs that were reached, the least of all first.

ghost use Rattle.std.specs.Prelude.{◌≡◌, ◌≤◌, ◌*◌, ◌/◌, ◌%◌, ℕ, Some, None, true, false, length, nat_lt, slice_get, IfOk, OnOk};
ghost use Rattle.std.specs.List.{list_all};
ghost use Rattle.indexmap.specs.IndexSet.{keys};
ghost use Rattle.avro_schema.specs.SeenSchema.{schema_nodes};
ghost use Rattle.avro_least.specs.Asked.{asked_at, steps_at, ArePairsShown};
ghost use Rattle.avro_least.specs.Reached.{AreFollowed};
ghost use Rattle.avro_least.specs.Asks.{AreFound};
ghost use Rattle.avro_least.specs.SeenLeast.{seen, seen_all, table_of};
ghost use Rattle.avro_least.specs.Tables.{erring_of, AreDataShown, AreLow, IsLowForData};
ghost use Rattle.avro_least.specs.inside.Parts.{value_alone, value_by_part};
ghost use Rattle.avro_least.specs.inside.Falling.{effort, IsQuiet};
ghost use Rattle.avro_least.specs.inside.Leading.{HasTaken, HasTakenAlone, IsGraph, IsLowAt, IsSearchOf};

use crate::filled::filled;
use crate::kept::Least;
use crate::nodes::least::count;
use crate::pairs::erring::pair_entry_near;
use crate::pairs::graph::Graph;
use crate::pairs::leads::{Leads, all_leads, last_lead, lead_at};
use crate::pairs::near::index_next;
use crate::pairs::parts::{
    around_part, nth_part, others, others_at, part_at, part_count, value_alone,
};
use crate::pairs::reaching::{Reached, ask_at_index, number, readers, writers};
use crate::queue::Search;
use avro_schema::{Memory, NodeId, Schema};
use std::alloc::Global;

/// What the entry of a pair comes to by its part at an index. The pair is given by its number and the index of that,
/// and the part is mostly the pair at the index `near`.
fn value_by_part(
    graph: &Graph,
    entries: &[Option<Least>],
    i: usize,
    key: u64,
    k: usize,
    near: usize,
) -> Option<Least>
    requires graph { IsGraph graph.now }
    requires here { slice_get (keys graph.now.reached.now.known) i ≡ Some key }
    ensures { seen result ≡ value_by_part graph.now.limit (table_of graph.now.table.now)
        (erring_of (length (schema_nodes graph.now.reader.now)) (table_of graph.now.table.now) (keys graph.now.reached.now.known) (seen_all entries.now))
        (key / length (schema_nodes graph.now.reader.now)) (key % length (schema_nodes graph.now.reader.now)) (asked_at (schema_nodes graph.now.writer.now) (schema_nodes graph.now.reader.now) key) k }
{
    let nodes = count(graph.reader);
    let w = writers(graph.writer, graph.reader, key);
    let r = readers(graph.reader, key);
    let ask = ask_at_index(graph.writer, graph.reader, graph.reached, i);
    match part_at(w, r, ask, k) {
        None => None,
        Some((a, b)) => {
            let part = pair_entry_near(
                graph.table,
                nodes,
                &graph.reached.known,
                entries,
                a,
                b,
                near,
            );
            let others = others_at(graph.others, w.0 as usize);
            around_part(graph.limit, graph.table, others, ask, k, part)
        }
    }
}

/// What the entry of the pair at an index comes to by no part.
fn value_without_parts(
    writer: &Schema,
    reader: &Schema,
    table: &[Option<Least>],
    reached: &Reached,
    i: usize,
) -> Option<Least>
    requires below { list_all (λ k. nat_lt k (length (schema_nodes writer.now) * length (schema_nodes reader.now))) (keys reached.now.known) ≡ true }
    requires one_each { length reached.now.found.items ≡ length (keys reached.now.known) }
    requires of_keys { AreFound (schema_nodes writer.now) (schema_nodes reader.now) (keys reached.now.known) reached.now.found.items }
    ensures is { (key : ℕ) → slice_get (keys reached.now.known) i ≡ Some key
        → seen result ≡ value_alone (table_of table.now) (key / length (schema_nodes reader.now)) (asked_at (schema_nodes writer.now) (schema_nodes reader.now) key) }
{
    match reached.known.get_index(i) {
        None => None,
        Some(key) => {
            let w = writers(writer, reader, *key);
            let ask = ask_at_index(writer, reader, reached, i);
            value_alone(table, w, ask)
        }
    }
}

/// Whether some pair fails whatever becomes of its parts.
fn has_failing(writer: &Schema, reader: &Schema, table: &[Option<Least>], reached: &Reached) -> bool
    requires below { list_all (λ k. nat_lt k (length (schema_nodes writer.now) * length (schema_nodes reader.now))) (keys reached.now.known) ≡ true }
    requires one_each { length reached.now.found.items ≡ length (keys reached.now.known) }
    requires of_keys { AreFound (schema_nodes writer.now) (schema_nodes reader.now) (keys reached.now.known) reached.now.found.items }
    ensures { result ≡ false → (i key : ℕ) → slice_get (keys reached.now.known) i ≡ Some key
        → value_alone (table_of table.now) (key / length (schema_nodes reader.now)) (asked_at (schema_nodes writer.now) (schema_nodes reader.now) key) ≡ None }
{
    for i in 0..reached.known.len() {
        let value = value_without_parts(writer, reader, table, reached, i);
        if value.is_some() {
            return true;
        }
    }
    false
}

/// Lowers the entry of a pair to what it comes to by its part at an index, which is mostly the pair at the index `near`. The
/// pair is given by its number and the index of that.
fn take_part(
    graph: &Graph,
    i: usize,
    key: u64,
    k: usize,
    near: usize,
    search: &mut Search,
) -> Result<(), Memory>
    requires graph { IsGraph graph.now }
    requires here { slice_get (keys graph.now.reached.now.known) i ≡ Some key }
    requires search { IsSearchOf graph.now search.old }
    ensures search { OnOk result (IsSearchOf graph.now search.new) }
    ensures effort { OnOk result (effort search.new ≤ effort search.old) }
    ensures quiet { OnOk result (IsQuiet search.new → IsQuiet search.old × (search.new.entries.items ≡ search.old.entries.items) × HasTaken graph.now search.old i k) }
{
    let found = value_by_part(graph, &search.entries, i, key, k, near);
    search.lower(i, found)?;
    Ok(())
}

/// Lowers it to what it comes to by no part.
fn take_alone(graph: &Graph, i: usize, key: u64, search: &mut Search) -> Result<(), Memory>
    requires graph { IsGraph graph.now }
    requires here { slice_get (keys graph.now.reached.now.known) i ≡ Some key }
    requires search { IsSearchOf graph.now search.old }
    ensures search { OnOk result (IsSearchOf graph.now search.new) }
    ensures effort { OnOk result (effort search.new ≤ effort search.old) }
    ensures quiet { OnOk result (IsQuiet search.new → IsQuiet search.old × (search.new.entries.items ≡ search.old.entries.items) × HasTakenAlone graph.now search.old i) }
{
    let found = value_without_parts(graph.writer, graph.reader, graph.table, graph.reached, i);
    search.lower(i, found)?;
    Ok(())
}

/// Lowers it to what it comes to by a part, which is looked for first after the one before, at `next`.
fn take_nth(
    graph: &Graph,
    i: usize,
    key: u64,
    part: Option<(usize, NodeId, NodeId)>,
    next: &mut usize,
    search: &mut Search,
) -> Result<(), Memory>
    requires graph { IsGraph graph.now }
    requires here { slice_get (keys graph.now.reached.now.known) i ≡ Some key }
    requires search { IsSearchOf graph.now search.old }
    ensures search { OnOk result (IsSearchOf graph.now search.new) }
    ensures effort { OnOk result (effort search.new ≤ effort search.old) }
    ensures quiet { OnOk result (IsQuiet search.new → IsQuiet search.old × (search.new.entries.items ≡ search.old.entries.items)
        × ((k : ℕ) (a b : NodeId) → part ≡ Some (k, a, b) → HasTaken graph.now search.old i k)) }
{
    match part {
        None => Ok(()),
        Some((k, a, b)) => {
            let to = number(count(graph.reader), a, b);
            let near = index_next(&graph.reached.known, to, next).unwrap_or(0);
            take_part(graph, i, key, k, near, search)?;
            Ok(())
        }
    }
}

/// Lowers it to what it comes to by each part.
fn take_parts(
    graph: &Graph,
    i: usize,
    key: u64,
    next: &mut usize,
    search: &mut Search,
) -> Result<(), Memory>
    requires graph { IsGraph graph.now }
    requires here { slice_get (keys graph.now.reached.now.known) i ≡ Some key }
    requires search { IsSearchOf graph.now search.old }
    ensures search { OnOk result (IsSearchOf graph.now search.new) }
    ensures effort { OnOk result (effort search.new ≤ effort search.old) }
    ensures quiet { OnOk result (IsQuiet search.new → IsQuiet search.old × (search.new.entries.items ≡ search.old.entries.items)
        × ((k : ℕ) → HasTaken graph.now search.old i k)) }
{
    let w = writers(graph.writer, graph.reader, key);
    let r = readers(graph.reader, key);
    let ask = ask_at_index(graph.writer, graph.reader, graph.reached, i);
    for n in 0..part_count(ask) {
        let part = nth_part(w, r, ask, n);
        take_nth(graph, i, key, part, next, search)?;
    }
    Ok(())
}

/// Lowers the entry of the pair at an index to what it comes to by those of its parts.
fn relax(graph: &Graph, i: usize, next: &mut usize, search: &mut Search) -> Result<(), Memory>
    requires graph { IsGraph graph.now }
    requires search { IsSearchOf graph.now search.old }
    ensures search { OnOk result (IsSearchOf graph.now search.new) }
    ensures effort { OnOk result (effort search.new ≤ effort search.old) }
    ensures quiet { OnOk result (IsQuiet search.new → IsQuiet search.old × (search.new.entries.items ≡ search.old.entries.items) × IsLowAt graph.now search.old i) }
{
    match graph.reached.known.get_index(i) {
        None => Ok(()),
        Some(key) => {
            take_alone(graph, i, *key, search)?;
            take_parts(graph, i, *key, next, search)?;
            Ok(())
        }
    }
}

/// Lowers the entries of all pairs, where the queue is empty.
fn relax_all(graph: &Graph, search: &mut Search) -> Result<(), Memory>
    requires graph { IsGraph graph.now }
    requires search { IsSearchOf graph.now search.old }
    ensures search { OnOk result (IsSearchOf graph.now search.new) }
    ensures effort { OnOk result (effort search.new ≤ effort search.old) }
    ensures quiet { OnOk result (IsQuiet search.new → (i : ℕ) → IsLowAt graph.now search.new i) }
{
    if !search.is_quiet() {
        return Ok(());
    }
    let mut next = 0;
    for i in 0..graph.reached.known.len() {
        relax(graph, i, &mut next, search)?;
    }
    Ok(())
}

/// Lowers the entries of all pairs that lead to the pair at an index, if its entry waits.
fn take_leads(
    graph: &Graph,
    leads: &Leads,
    i: usize,
    waits: bool,
    search: &mut Search,
) -> Result<(), Memory>
    requires graph { IsGraph graph.now }
    requires search { IsSearchOf graph.now search.old }
    ensures search { OnOk result (IsSearchOf graph.now search.new) }
    ensures effort { OnOk result (effort search.new ≤ effort search.old) }
{
    let mut left = if waits { last_lead(leads, i) } else { 0 };
    while left > 0 {
        left -= 1;
        if let Some(lead) = lead_at(leads, left) {
            left = left.min(lead.before as usize);
            let pair = lead.pair as usize;
            if let Some(key) = graph.reached.known.get_index(pair) {
                take_part(graph, pair, *key, lead.part as usize, i, search)?;
            }
        }
    }
    Ok(())
}

/// A search without entries.
fn start(alloc: Global, graph: &Graph) -> Result<Search, Memory>
    ensures { IfOk result (IsSearchOf graph.now) }
{
    let search = Search::new(alloc, graph.reached.known.len())?;
    Ok(search)
}

/// Finds the entries of all pairs. The pairs that lead to one whose entry fell are looked at first; all pairs are looked at
/// before the first and after the last.
fn search(alloc: Global, graph: &Graph) -> Result<Vec<Option<Least>>, Memory>
    requires graph { IsGraph graph.now }
    requires least { IsLowForData (schema_nodes graph.now.writer.now) graph.now.limit (table_of graph.now.table.now) }
    ensures shown { IfOk result (λ t. ArePairsShown (schema_nodes graph.now.writer.now) (schema_nodes graph.now.reader.now) graph.now.limit (table_of graph.now.table.now) (keys graph.now.reached.now.known) (seen_all t.items)) }
    ensures low { IfOk result (λ t. AreLow (schema_nodes graph.now.writer.now) (schema_nodes graph.now.reader.now) graph.now.limit (table_of graph.now.table.now)
        (erring_of (length (schema_nodes graph.now.reader.now)) (table_of graph.now.table.now) (keys graph.now.reached.now.known) (seen_all t.items))) }
{
    let leads = all_leads(alloc, graph)?;
    let mut search = start(alloc, graph)?;
    relax_all(graph, &mut search)?;
    while let Some((i, waits)) = search.next() {
        take_leads(graph, &leads, i, waits, &mut search)?;
        relax_all(graph, &mut search)?;
    }
    Ok(search.entries)
}

/// The table of the least data that fail at each pair that was reached, from the table of least data.
///
/// # Errors
///
/// Memory ran out.
pub fn least_errors(
    alloc: Global,
    writer: &Schema,
    reader: &Schema,
    limit: u32,
    table: &[Option<Least>],
    reached: &Reached,
) -> Result<Vec<Option<Least>>, Memory>
    requires range { limit ≤ 16777216 }
    requires data { AreDataShown (schema_nodes writer.now) limit (table_of table.now) }
    requires least { IsLowForData (schema_nodes writer.now) limit (table_of table.now) }
    requires below { list_all (λ k. nat_lt k (length (schema_nodes writer.now) * length (schema_nodes reader.now))) (keys reached.now.known) ≡ true }
    requires closed { AreFollowed (steps_at (schema_nodes writer.now) (schema_nodes reader.now) (table_of table.now)) (keys reached.now.known) (length (keys reached.now.known)) }
    requires one_each { length reached.now.found.items ≡ length (keys reached.now.known) }
    requires of_keys { AreFound (schema_nodes writer.now) (schema_nodes reader.now) (keys reached.now.known) reached.now.found.items }
    ensures shown { IfOk result (λ t. ArePairsShown (schema_nodes writer.now) (schema_nodes reader.now) limit (table_of table.now) (keys reached.now.known) (seen_all t.items)) }
    ensures low { IfOk result (λ t. AreLow (schema_nodes writer.now) (schema_nodes reader.now) limit (table_of table.now)
        (erring_of (length (schema_nodes reader.now)) (table_of table.now) (keys reached.now.known) (seen_all t.items))) }
{
    // The contracts of these calls say that the schemas are well formed, which the proof needs.
    let _ = count(writer);
    let _ = count(reader);
    if !has_failing(writer, reader, table, reached) {
        // Then no pair fails at all, and no entry is searched for.
        let entries = filled(alloc, reached.known.len(), None)?;
        return Ok(entries);
    }
    let others = others(alloc, writer, limit, table)?;
    let graph = Graph {
        writer,
        reader,
        limit,
        table,
        others: &others,
        reached,
    };
    search(alloc, &graph)
}
