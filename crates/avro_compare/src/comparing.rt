ghost use Rattle.std.specs.Prelude.{◌≡◌, ◌⊎◌, ℕ, [], IfOk, length, slice_get, suc};
ghost use Rattle.avro_schema.specs.Node.{node_at};
ghost use Rattle.avro_schema.specs.Seen.{seen_fields};
ghost use Rattle.avro_compare.specs.Resolve.{fields_at};
ghost use Rattle.avro_schema.specs.SeenSchema.{schema_nodes};
ghost use Rattle.avro_compare.specs.Entries.{AreAscending, entry_at};
ghost use Rattle.avro_compare.specs.inside.Listed.{AreListedFor, AreListedSources, listed_source, shared_part};
ghost use Rattle.avro_compare.specs.inside.NameTables.{symbols_at};
ghost use Rattle.avro_compare.specs.inside.Noting.{AreIgnored, noted};
ghost use Rattle.avro_compare.specs.Planned.{AreFor, AreInside, AreComparisons, AreSources, AreSymbols, IsComparison};

use crate::comparison::{At, Comparison, Target};
use crate::entries::push_lone;
use crate::names::Names;
use crate::sourcing::{fields_of, missing_among, node_of_field, source_kept};
use crate::symbols::{find_lacking, symbols_of};
use avro_schema::{Field, Memory, NodeId, Schema};
use std::alloc::Global;

/// How many times as many symbols as the reader the writer may have, for the reader's to be kept.
const MOST_TIMES: usize = 16;

/// Compares each pair of nodes, for a plan to keep.
pub fn compare_all(
    alloc: Global,
    writer: &Schema,
    reader: &Schema,
    pairs: &[(NodeId, NodeId)],
) -> Result<Vec<Comparison>, Memory>
    ensures { IfOk result (λ kept. AreComparisons (schema_nodes writer.now) (schema_nodes reader.now) kept.items) }
{
    let names = Names::new(alloc, writer, reader)?;
    compare_each(alloc, &names, pairs)
}

/// The same by the tables of names.
fn compare_each(
    alloc: Global,
    names: &Names,
    pairs: &[(NodeId, NodeId)],
) -> Result<Vec<Comparison>, Memory>
    ensures { IfOk result (λ kept. AreComparisons (schema_nodes names.now.0) (schema_nodes names.now.1) kept.items) }
{
    let mut kept = Vec::new(alloc);
    for pair in pairs {
        let comparison = compare(alloc, names, pair.0, pair.1)?;
        kept.push(comparison)?;
    }
    Ok(kept)
}

/// Compares a writer's node with a reader's, for a plan to keep. Only this compares their names: reading and
/// judging by the result look up what was found.
///
/// # Errors
///
/// Memory ran out.
pub fn compare(alloc: Global, names: &Names, w: NodeId, r: NodeId) -> Result<Comparison, Memory>
    ensures { IfOk result (λ p. IsComparison (schema_nodes names.now.0) (schema_nodes names.now.1) p × (p.w ≡ w) × (p.r ≡ r)) }
{
    let target = names.target(w, r);
    match target {
        Target::Fault(_) => Ok(outside(alloc, w, r, target)),
        Target::To(Some(_), _) => Ok(outside(alloc, w, r, target)),
        Target::To(None, _) => compare_inside(alloc, names, w, r, target),
    }
}

/// The comparison of a pair of nodes that leads to another node or to a fault. Nothing else is kept of it.
fn outside(alloc: Global, w: NodeId, r: NodeId, target: Target) -> Comparison
    ensures { (result.target ≡ target) × (result.w ≡ w) × (result.r ≡ r) }
{
    Comparison {
        w,
        r,
        target,
        missing: None,
        lacking: None,
        fields: Vec::new(alloc),
        sources: Vec::new(alloc),
        symbols: Vec::new(alloc),
    }
}

/// The comparison of a pair of nodes that leads to the reader's node itself.
fn compare_inside(
    alloc: Global,
    names: &Names,
    w: NodeId,
    r: NodeId,
    target: Target,
) -> Result<Comparison, Memory>
    ensures { IfOk result (λ p. AreInside (node_at (schema_nodes names.now.0) w.0) (node_at (schema_nodes names.now.1) r.0) p
        × (p.target ≡ target) × (p.w ≡ w) × (p.r ≡ r)) }
{
    let writes = fields_of(names.writer(), w);
    let reads = fields_of(names.reader(), r);
    let found = list_sources(alloc, names, w, r, writes, reads)?;
    let fields = keep_fields(alloc, writes, reads, &found)?;
    let sources = keep_sources(alloc, writes, reads, &found)?;
    let symbols = keep_symbols(alloc, names, w, r)?;
    Ok(Comparison {
        w,
        r,
        target,
        missing: missing_among(writes, reads, &found),
        lacking: find_lacking(names, w, r, &symbols),
        fields,
        sources,
        symbols,
    })
}

/// The sources of a reader's fields, or nothing where the writer has no field.
fn list_sources(
    alloc: Global,
    names: &Names,
    w: NodeId,
    r: NodeId,
    writes: &[Field],
    reads: &[Field],
) -> Result<Vec<Option<usize>>, Memory>
    requires { seen_fields reads.now ≡ fields_at (node_at (schema_nodes names.now.1) r.0) }
    ensures each { IfOk result (λ found. AreListedSources (fields_at (node_at (schema_nodes names.now.0) w.0)) (seen_fields reads.now) found.items) }
    ensures all { IfOk result (λ found. (length found.items ≡ length (seen_fields reads.now)) ⊎ (seen_fields writes.now ≡ [])) }
{
    if writes.len() > 0 {
        find_sources(alloc, names, w, r, reads)
    } else {
        Ok(Vec::new(alloc))
    }
}

/// The sources of a reader's fields.
fn find_sources(
    alloc: Global,
    names: &Names,
    w: NodeId,
    r: NodeId,
    reads: &[Field],
) -> Result<Vec<Option<usize>>, Memory>
    requires { seen_fields reads.now ≡ fields_at (node_at (schema_nodes names.now.1) r.0) }
    ensures each { IfOk result (λ found. AreListedSources (fields_at (node_at (schema_nodes names.now.0) w.0)) (seen_fields reads.now) found.items) }
    ensures all { IfOk result (λ found. length found.items ≡ length reads.now) }
{
    let mut found = Vec::with_capacity(alloc, reads.len())?;
    for index in 0..reads.len() {
        found.push(names.source_at(w, r, index, &reads[index]))?;
    }
    Ok(found)
}

/// The reader's fields that have a source, by the sources of all of them.
fn keep_sources(
    alloc: Global,
    writes: &[Field],
    reads: &[Field],
    found: &[Option<usize>],
) -> Result<Vec<(usize, usize)>, Memory>
    requires each { AreListedSources (seen_fields writes.now) (seen_fields reads.now) found.now }
    requires all { (length found.now ≡ length (seen_fields reads.now)) ⊎ (seen_fields writes.now ≡ []) }
    ensures { IfOk result (λ kept. AreSources (seen_fields writes.now) (seen_fields reads.now) kept.items) }
{
    shared_sources(alloc, found)
}

/// The writer's fields that the reader takes, by the sources of the reader's fields.
fn keep_fields(
    alloc: Global,
    writes: &[Field],
    reads: &[Field],
    sources: &[Option<usize>],
) -> Result<Vec<(usize, At)>, Memory>
    requires { AreListedSources (seen_fields writes.now) (seen_fields reads.now) sources.now }
    ensures { IfOk result (λ kept. AreFor (seen_fields writes.now) (seen_fields reads.now) kept.items) }
{
    if reads.len() > 0 {
        let found = find_fields(alloc, writes, reads, sources)?;
        shared_fields(alloc, &found)
    } else {
        Ok(Vec::new(alloc))
    }
}

/// The parts that are for something, each with its index.
fn shared_fields(alloc: Global, parts: &[At]) -> Result<Vec<(usize, At)>, Memory>
    ensures { IfOk result (λ kept. AreAscending 0 kept.items × ((k : ℕ) → entry_at kept.items k ≡ shared_part (slice_get parts.now k))) }
{
    let mut kept = Vec::new(alloc);
    for index in 0..parts.len() {
        match parts[index] {
            At::Ignored => {}
            At::Pair(w, r) => push_lone(&mut kept, (index, At::Pair(w, r)))?,
        }
    }
    kept.shrink_to_fit();
    Ok(kept)
}

/// The sources that there are, each with the index of the reader's field.
fn shared_sources(alloc: Global, found: &[Option<usize>]) -> Result<Vec<(usize, usize)>, Memory>
    ensures { IfOk result (λ kept. AreAscending 0 kept.items × ((k : ℕ) → entry_at kept.items k ≡ listed_source (slice_get found.now k))) }
{
    let mut kept = Vec::new(alloc);
    for index in 0..found.len() {
        match found[index] {
            None => {}
            Some(source) => push_lone(&mut kept, (index, source))?,
        }
    }
    kept.shrink_to_fit();
    Ok(kept)
}

/// What each of the writer's fields is for, from the sources of the reader's fields. One ignored
/// part is after the last, since reading asks about that index too. The loop goes from the
/// reader's last field to its first, so that the first of two with the same source is kept.
fn find_fields(
    alloc: Global,
    writes: &[Field],
    reads: &[Field],
    sources: &[Option<usize>],
) -> Result<Vec<At>, Memory>
    requires { AreListedSources (seen_fields writes.now) (seen_fields reads.now) sources.now }
    ensures each { IfOk result (λ found. AreListedFor (seen_fields writes.now) (seen_fields reads.now) found.items) }
    ensures all { IfOk result (λ found. length found.items ≡ suc (length (seen_fields writes.now))) }
{
    let mut found = all_ignored(alloc, writes.len() + 1)?;
    if writes.len() == 0 {
        return Ok(found);
    }
    let mut left = reads.len();
    while left > 0 {
        left -= 1;
        let f = &reads[left];
        match source_kept(writes, sources, left, f) {
            Some(index) => note(
                &mut found,
                index,
                At::Pair(node_of_field(writes, index), f.node),
            ),
            None => {}
        }
    }
    Ok(found)
}

/// A list of `count` ignored parts.
fn all_ignored(alloc: Global, count: usize) -> Result<Vec<At>, Memory>
    ensures ignored { IfOk result (λ found. AreIgnored found.items) }
    ensures all { IfOk result (λ found. length found.items ≡ count) }
{
    let mut found = Vec::with_capacity(alloc, count)?;
    for _part in 0..count {
        found.push(At::Ignored)?;
    }
    Ok(found)
}

/// Records what the part at an index is for.
fn note(found: &mut Vec<At>, index: usize, at: At)
    ensures { found.new.items ≡ noted found.old.items index at }
{
    if index < found.len() {
        found[index] = at;
    }
}

/// The reader's symbol for each symbol of a writer's enum, or nothing where the writer has many more symbols.
fn keep_symbols(
    alloc: Global,
    names: &Names,
    w: NodeId,
    r: NodeId,
) -> Result<Vec<Option<u32>>, Memory>
    ensures each { IfOk result (λ found. AreSymbols (node_at (schema_nodes names.now.0) w.0) (node_at (schema_nodes names.now.1) r.0) found.items) }
    ensures all { IfOk result (λ found. (found.items ≡ []) ⊎ (length found.items ≡ length (symbols_at (node_at (schema_nodes names.now.0) w.0)))) }
{
    let writes = symbols_of(names.writer(), w).len();
    let reads = symbols_of(names.reader(), r).len();
    if writes / MOST_TIMES > reads {
        Ok(Vec::new(alloc))
    } else {
        find_symbols(alloc, names, w, r)
    }
}

/// The reader's symbol for each symbol of a writer's enum.
fn find_symbols(
    alloc: Global,
    names: &Names,
    w: NodeId,
    r: NodeId,
) -> Result<Vec<Option<u32>>, Memory>
    ensures each { IfOk result (λ found. AreSymbols (node_at (schema_nodes names.now.0) w.0) (node_at (schema_nodes names.now.1) r.0) found.items) }
    ensures all { IfOk result (λ found. length found.items ≡ length (symbols_at (node_at (schema_nodes names.now.0) w.0))) }
{
    let writes = symbols_of(names.writer(), w);
    let mut found = Vec::new(alloc);
    for index in 0..writes.len() {
        found.push(names.symbol_at(w, index, r))?;
    }
    Ok(found)
}
