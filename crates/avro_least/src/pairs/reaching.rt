//! The pairs of nodes that are reached from the roots.

ghost use Rattle.std.specs.Prelude.{◌≡◌, ◌||◌, map, ◌<◌, ◌*◌, ◌/◌, ◌%◌, ℕ, Bool, true, List, [], ◌∷◌, ◌++◌, length, nat_lt, slice_get, Some, IfOk, OnOk};
ghost use Rattle.std.specs.List.{list_all};
ghost use Rattle.indexmap.specs.IndexSet.{keys};
ghost use Rattle.avro_schema.specs.SeenSchema.{schema_nodes};
ghost use Rattle.avro_schema.specs.Node.{node_at};
ghost use Rattle.avro_compare.specs.Leads.{lead_pair};
ghost use Rattle.avro_compare.specs.Planned.{AreComparisons, IsComparison};
ghost use Rattle.avro_least.specs.Tables.{pair_number};
ghost use Rattle.avro_least.specs.SeenLeast.{table_of};
ghost use Rattle.avro_least.specs.Reached.{is_key, AreFollowed, IsSteppedTo};
ghost use Rattle.avro_least.specs.Asked.{asked_at, live_numbers, open_children, steps_at};
ghost use Rattle.avro_least.specs.Asks.{AreFound, IsFound, IsKept};

use crate::kept::Least;
use crate::nodes::least::{count, entry};
use crate::pairs::asking::{Ask, ask_of_pair};
use crate::pairs::near::add_next;
use avro_compare::{Comparison, Lead, Names, add_leads, compare, has_fault};
use avro_schema::{Memory, NodeId, Schema};
use avro_texts::Seeded;
use indexmap::IndexSet;
use std::alloc::Global;

/// The pairs that were reached, and the comparison of each.
#[derive(Drop)]
pub struct Reached {
    /// The number of each pair, in order of discovery.
    pub known: IndexSet<u64, Seeded>,
    /// The comparison of the pair at each index.
    pub found: Vec<Comparison>,
}

/// Adds numbers, each once. Each is looked for first after the one before, at `next`.
fn add_all(known: &mut IndexSet<u64, Seeded>, more: &[u64], next: &mut usize) -> Result<(), Memory>
    ensures kept { OnOk result ((rest : List ℕ) × (keys known.new ≡ keys known.old ++ rest)) }
    ensures added { OnOk result (list_all (is_key (keys known.new)) more.now ≡ true) }
    ensures old_or_new { OnOk result ((k : ℕ) → is_key (keys known.new) k ≡ true → (is_key (keys known.old) k || is_key more.now k) ≡ true) }
    ensures all { OnOk result ((P : ℕ → Bool) → list_all P (keys known.old) ≡ true → list_all P more.now ≡ true → list_all P (keys known.new) ≡ true) }
{
    for key in more {
        add_next(known, *key, next)?;
    }
    Ok(())
}

/// The number of a pair.
pub(crate) fn number(count: u32, w: NodeId, r: NodeId) -> u64
    ensures { result ≡ pair_number count w.0 r.0 }
{
    u64::from(w.0) * u64::from(count) + u64::from(r.0)
}

/// Adds the number of a pair, unless its writer's node has no data.
fn add_number(
    numbers: &mut Vec<u64>,
    table: &[Option<Least>],
    count: u32,
    w: NodeId,
    r: NodeId,
) -> Result<(), Memory>
    ensures { OnOk result (numbers.new.items ≡ numbers.old.items ++ live_numbers count (table_of table.now) (record { w = w.0; r = r.0 } ∷ [])) }
{
    if entry(table, w).is_none() {
        return Ok(());
    }
    numbers.push(number(count, w, r))?;
    Ok(())
}

/// Adds the numbers of the pairs of some leads, without those whose writer's node has no data.
fn add_numbers(
    numbers: &mut Vec<u64>,
    table: &[Option<Least>],
    count: u32,
    leads: &[Lead],
) -> Result<(), Memory>
    ensures { OnOk result (numbers.new.items ≡ numbers.old.items ++ live_numbers count (table_of table.now) (map lead_pair leads.now)) }
{
    for lead in leads {
        add_number(numbers, table, count, lead.w, lead.r)?;
    }
    Ok(())
}

/// Replaces numbers by those of the pairs that a pair leads to: none where the pair fails by itself. Its leads are listed
/// in `leads`, which is filled again for each pair.
fn steps(
    names: &Names,
    table: &[Option<Least>],
    count: u32,
    pair: &Comparison,
    leads: &mut Vec<Lead>,
    numbers: &mut Vec<u64>,
) -> Result<(), Memory>
    requires { IsComparison (schema_nodes names.now.0) (schema_nodes names.now.1) pair.now }
    ensures { OnOk result (numbers.new.items ≡ live_numbers count (table_of table.now) (open_children (schema_nodes names.now.0) (schema_nodes names.now.1) pair.now.w.0 pair.now.r.0
        (node_at (schema_nodes names.now.0) pair.now.w.0) (node_at (schema_nodes names.now.1) pair.now.r.0))) }
{
    numbers.clear();
    if has_fault(names, pair) {
        return Ok(());
    }
    leads.clear();
    add_leads(names, pair, leads)?;
    add_numbers(numbers, table, count, leads)
}

/// The writer's node of a pair, by the pair's number.
pub fn writers(writer: &Schema, reader: &Schema, key: u64) -> NodeId
    requires { key < length (schema_nodes writer.now) * length (schema_nodes reader.now) }
    ensures is { result.0 ≡ key / length (schema_nodes reader.now) }
    ensures within { result.0 < length (schema_nodes writer.now) }
{
    // The contract of this call bounds the number of nodes, which the proof needs.
    let _ = count(writer);
    NodeId((key / u64::from(count(reader))) as u32)
}

/// The reader's node of a pair, by the pair's number.
pub fn readers(reader: &Schema, key: u64) -> NodeId
    ensures is { result.0 ≡ key % length (schema_nodes reader.now) }
    ensures within { result.0 < length (schema_nodes reader.now) }
{
    NodeId((key % u64::from(count(reader))) as u32)
}

/// Compares a pair, and replaces numbers by those of the pairs that it leads to.
fn visit(
    alloc: Global,
    names: &Names,
    table: &[Option<Least>],
    key: u64,
    leads: &mut Vec<Lead>,
    more: &mut Vec<u64>,
) -> Result<Comparison, Memory>
    requires { key < length (schema_nodes names.now.0) * length (schema_nodes names.now.1) }
    ensures found { IfOk result (λ p. IsFound (schema_nodes names.now.0) (schema_nodes names.now.1) key p) }
    ensures steps { OnOk result (more.new.items ≡ steps_at (schema_nodes names.now.0) (schema_nodes names.now.1) (table_of table.now) key) }
{
    let reader = names.reader();
    let w = writers(names.writer(), reader, key);
    let r = readers(reader, key);
    let pair = compare(alloc, names, w, r)?;
    steps(names, table, count(reader), &pair, leads, more)?;
    Ok(pair)
}

/// The comparison at an index.
fn found_at(reached: &Reached, i: usize) -> &Comparison
    requires { i < length reached.now.found.items }
    ensures { slice_get reached.now.found.items i ≡ Some result.now }
{
    &reached.found[i]
}

/// What the pair at an index asks for.
pub(crate) fn ask_at_index<'a>(
    writer: &'a Schema,
    reader: &Schema,
    reached: &'a Reached,
    i: usize,
) -> Ask<'a>
    requires within { i < length reached.now.found.items }
    requires one_each { length reached.now.found.items ≡ length (keys reached.now.known) }
    requires of_keys { AreFound (schema_nodes writer.now) (schema_nodes reader.now) (keys reached.now.known) reached.now.found.items }
    ensures { (key : ℕ) → slice_get (keys reached.now.known) i ≡ Some key → IsKept result (asked_at (schema_nodes writer.now) (schema_nodes reader.now) key) }
{
    let pair = found_at(reached, i);
    ask_of_pair(writer, reader, pair)
}

/// The pair of the roots alone, before it is compared.
fn start(alloc: Global, seed: Seeded) -> Result<Reached, Memory>
    ensures root { IfOk result (λ p. is_key (keys p.known) 0 ≡ true) }
    ensures alone { IfOk result (λ p. (k : ℕ) → is_key (keys p.known) k ≡ true → is_key (0 ∷ []) k ≡ true) }
    ensures all { IfOk result (λ p. (P : ℕ → Bool) → P 0 ≡ true → list_all P (keys p.known) ≡ true) }
    ensures none { IfOk result (λ p. p.found.items ≡ []) }
{
    let mut known = IndexSet::with_hasher(alloc, seed);
    let mut near = 0;
    add_all(&mut known, &[0], &mut near)?;
    Ok(Reached {
        known,
        found: Vec::new(alloc),
    })
}

/// Keeps the comparison of a pair, and adds the pairs that it leads to.
fn keep(
    reached: &mut Reached,
    pair: Comparison,
    more: &[u64],
    near: &mut usize,
) -> Result<(), Memory>
    ensures kept { OnOk result ((rest : List ℕ) × (keys reached.new.known ≡ keys reached.old.known ++ rest)) }
    ensures added { OnOk result (list_all (is_key (keys reached.new.known)) more.now ≡ true) }
    ensures old_or_new { OnOk result ((k : ℕ) → is_key (keys reached.new.known) k ≡ true → (is_key (keys reached.old.known) k || is_key more.now k) ≡ true) }
    ensures all { OnOk result ((P : ℕ → Bool) → list_all P (keys reached.old.known) ≡ true → list_all P more.now ≡ true → list_all P (keys reached.new.known) ≡ true) }
    ensures found { OnOk result (reached.new.found.items ≡ reached.old.found.items ++ pair ∷ []) }
{
    add_all(&mut reached.known, more, near)?;
    reached.found.push(pair)?;
    Ok(())
}

/// The number of the pair at an index.
fn key_at(known: &IndexSet<u64, Seeded>, i: usize) -> u64
    requires { i < length (keys known.now) }
    ensures { slice_get (keys known.now) i ≡ Some result }
{
    match known.get_index(i) {
        None => unreachable!(),
        Some(key) => *key,
    }
}

/// All pairs that the roots lead to. A pair whose writer's node has no data, by the table of the
/// writer's least data, is left out.
///
/// # Errors
///
/// Memory ran out.
pub fn reach(
    alloc: Global,
    writer: &Schema,
    reader: &Schema,
    table: &[Option<Least>],
) -> Result<Reached, Memory>
    ensures root { IfOk result (λ p. is_key (keys p.known) 0 ≡ true) }
    ensures below { IfOk result (λ p. list_all (λ k. nat_lt k (length (schema_nodes writer.now) * length (schema_nodes reader.now))) (keys p.known) ≡ true) }
    ensures closed { IfOk result (λ p. AreFollowed (steps_at (schema_nodes writer.now) (schema_nodes reader.now) (table_of table.now)) (keys p.known) (length (keys p.known))) }
    ensures reached { IfOk result (λ p. (P : ℕ → Bool) → P 0 ≡ true
        → ((k : ℕ) → P k ≡ true → list_all P (steps_at (schema_nodes writer.now) (schema_nodes reader.now) (table_of table.now) k) ≡ true) → list_all P (keys p.known) ≡ true) }
    ensures stepped { IfOk result (λ p. (k : ℕ) → is_key (keys p.known) k ≡ true
        → IsSteppedTo (steps_at (schema_nodes writer.now) (schema_nodes reader.now) (table_of table.now)) k) }
    ensures one_each { IfOk result (λ p. length p.found.items ≡ length (keys p.known)) }
    ensures of_keys { IfOk result (λ p. AreFound (schema_nodes writer.now) (schema_nodes reader.now) (keys p.known) p.found.items) }
    ensures found { IfOk result (λ p. AreComparisons (schema_nodes writer.now) (schema_nodes reader.now) p.found.items) }
{
    let names = Names::new(alloc, writer, reader)?;
    reach_by(alloc, &names, table)
}

/// The same by the tables of names.
fn reach_by(alloc: Global, names: &Names, table: &[Option<Least>]) -> Result<Reached, Memory>
    ensures root { IfOk result (λ p. is_key (keys p.known) 0 ≡ true) }
    ensures below { IfOk result (λ p. list_all (λ k. nat_lt k (length (schema_nodes names.now.0) * length (schema_nodes names.now.1))) (keys p.known) ≡ true) }
    ensures closed { IfOk result (λ p. AreFollowed (steps_at (schema_nodes names.now.0) (schema_nodes names.now.1) (table_of table.now)) (keys p.known) (length (keys p.known))) }
    ensures reached { IfOk result (λ p. (P : ℕ → Bool) → P 0 ≡ true
        → ((k : ℕ) → P k ≡ true → list_all P (steps_at (schema_nodes names.now.0) (schema_nodes names.now.1) (table_of table.now) k) ≡ true) → list_all P (keys p.known) ≡ true) }
    ensures stepped { IfOk result (λ p. (k : ℕ) → is_key (keys p.known) k ≡ true
        → IsSteppedTo (steps_at (schema_nodes names.now.0) (schema_nodes names.now.1) (table_of table.now)) k) }
    ensures one_each { IfOk result (λ p. length p.found.items ≡ length (keys p.known)) }
    ensures of_keys { IfOk result (λ p. AreFound (schema_nodes names.now.0) (schema_nodes names.now.1) (keys p.known) p.found.items) }
    ensures found { IfOk result (λ p. AreComparisons (schema_nodes names.now.0) (schema_nodes names.now.1) p.found.items) }
{
    // The contract of these calls bounds the number of nodes, which the proof needs.
    let _ = count(names.writer());
    let _ = count(names.reader());
    let mut reached = start(alloc, names.seed())?;
    let mut leads = Vec::new(alloc);
    let mut more = Vec::new(alloc);
    let mut near = 0;
    let mut next = 0;
    while next < reached.known.len() {
        let key = key_at(&reached.known, next);
        let pair = visit(alloc, names, table, key, &mut leads, &mut more)?;
        keep(&mut reached, pair, &more, &mut near)?;
        next += 1;
    }
    Ok(reached)
}
