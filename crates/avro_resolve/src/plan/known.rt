//! Pairs of nodes by number, each once, and the index of each among them. It is a hint: what is kept at an index says
//! which pair it is of.

use avro_compare::{Comparison, Names};
use avro_schema::{Memory, NodeId, Schema};
use avro_texts::Seeded;
use indexmap::IndexSet;
use std::alloc::Global;

/// The number of a pair: that of the writer's node times the count of the reader's nodes, plus that of the reader's node.
fn number(count: u32, w: NodeId, r: NodeId) -> u64 {
    u64::from(w.0) * u64::from(count) + u64::from(r.0)
}

/// The number of nodes of a schema.
pub(crate) fn count(schema: &Schema) -> u32 {
    schema.len() as u32
}

/// An index in the width in which plans keep it, and 0 where it is wider.
pub(crate) fn narrow(index: usize) -> u32 {
    match u32::try_from(index) {
        Ok(index) => index,
        Err(_) => 0,
    }
}

/// The pair at an index.
fn pair_at(
    known: &IndexSet<u64, Seeded>,
    reader: &Schema,
    index: usize,
) -> Option<(NodeId, NodeId)> {
    let number = *known.get_index(index)?;
    let count = u64::from(reader.len() as u32);
    match u32::try_from(number / count) {
        Ok(w) => Some((NodeId(w), NodeId((number % count) as u32))),
        Err(_) => None,
    }
}

/// The index of a pair, and 0 where it is not known.
pub(crate) fn index_in(known: &IndexSet<u64, Seeded>, count: u32, w: NodeId, r: NodeId) -> u32 {
    match known.get_index_of(&number(count, w, r)) {
        Some(index) => narrow(index),
        None => 0,
    }
}

/// The same, where the pair is looked for first after the one that was found before, at `next`: mostly it is there.
pub(crate) fn index_next(
    known: &IndexSet<u64, Seeded>,
    count: u32,
    part: (NodeId, NodeId),
    next: &mut usize,
) -> u32 {
    match index_near(known, number(count, part.0, part.1), *next) {
        Some(index) => {
            *next = index.saturating_add(1);
            narrow(index)
        }
        None => 0,
    }
}

/// The index of a number, if it is known, which is looked for at the index `near` first.
fn index_near(known: &IndexSet<u64, Seeded>, number: u64, near: usize) -> Option<usize> {
    match known.get_index(near) {
        Some(own) => {
            if *own == number {
                return Some(near);
            }
            known.get_index_of(&number)
        }
        None => known.get_index_of(&number),
    }
}

/// The numbers of the pairs that are kept, in their order. Where a pair is there before, a number that no pair has stands
/// for it, so that each pair after it has its index.
pub(crate) fn numbers_of(
    alloc: Global,
    writer: &Schema,
    reader: &Schema,
    pairs: &[Comparison],
) -> Result<IndexSet<u64, Seeded>, Memory> {
    let names = Names::none(alloc, writer, reader);
    let mut known = IndexSet::with_hasher(alloc, names.seed());
    for index in 0..pairs.len() {
        let pair = &pairs[index];
        if !known.insert(number(count(reader), pair.w, pair.r))? {
            known.insert(u64::MAX - index as u64)?;
        }
    }
    Ok(known)
}

/// How many parts the pairs of a plan have together, at most: what is not kept is found by its names.
const MOST_PARTS: usize = 262_144;

/// The pairs of nodes that were found so far, each once.
#[derive(Drop)]
pub struct Found {
    known: IndexSet<u64, Seeded>,
    parts: usize,
}

impl Found {
    /// No pairs.
    pub fn new(alloc: Global, seed: Seeded) -> Found {
        Found {
            known: IndexSet::with_hasher(alloc, seed),
            parts: 0,
        }
    }

    /// The pair at an index, if it is kept.
    pub fn pair(&self, reader: &Schema, index: usize) -> Option<(NodeId, NodeId)> {
        if self.parts > MOST_PARTS {
            return None;
        }
        pair_at(&self.known, reader, index)
    }

    /// The index of a part's pair, which is added after the others where it is new.
    pub fn index_of(&mut self, reader: &Schema, w: NodeId, r: NodeId) -> Result<u32, Memory> {
        self.parts = self.parts.saturating_add(1);
        let (index, _) = self.known.insert_full(number(count(reader), w, r))?;
        Ok(narrow(index))
    }
}
