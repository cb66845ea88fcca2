//! Which pairs lead to a pair: a hint of what to look at again once an entry has fallen.

ghost use Rattle.avro_least.specs.inside.Leading.{IsGraph};

use crate::filled::filled;
use crate::nodes::least::count;
use crate::pairs::graph::Graph;
use crate::pairs::near::index_next;
use crate::pairs::parts::{nth_part, part_count};
use crate::pairs::reaching::{ask_at_index, number, readers, writers};
use avro_schema::Memory;
use std::alloc::Global;

/// A pair that leads to another one, by the part at an index.
#[derive(Clone, Copy)]
pub(crate) struct Lead {
    /// The index of the pair.
    pub(crate) pair: u32,
    /// The index of its part.
    pub(crate) part: u32,
    /// The number of the lead before it to the same pair, counted from 1, or 0.
    pub(crate) before: u32,
}

/// The leads to all pairs.
#[derive(Drop)]
pub(crate) struct Leads {
    /// Of each pair the number of the last lead to it, counted from 1, or 0.
    last: Vec<u32>,
    /// All leads.
    all: Vec<Lead>,
}

/// The number of the last lead to the pair at an index, or 0.
pub(crate) fn last_lead(leads: &Leads, i: usize) -> usize {
    match leads.last.get(i) {
        None => 0,
        Some(last) => *last as usize,
    }
}

/// The lead at an index.
pub(crate) fn lead_at(leads: &Leads, n: usize) -> Option<Lead> {
    leads.all.get(n).copied()
}

/// An index in four bytes. One past them would exceed any memory.
fn short(i: usize) -> Result<u32, Memory> {
    match u32::try_from(i) {
        Ok(i) => Ok(i),
        Err(_) => Err(Memory),
    }
}

/// Adds a lead to the pair at an index.
fn add_lead(leads: &mut Leads, to: usize, pair: usize, part: usize) -> Result<(), Memory> {
    let lead = Lead {
        pair: short(pair)?,
        part: short(part)?,
        before: short(last_lead(leads, to))?,
    };
    leads.all.push(lead)?;
    if to < leads.last.len() {
        leads.last[to] = short(leads.all.len())?;
    }
    Ok(())
}

/// Adds the pair at an index as a lead to those of its parts.
fn add_leads(graph: &Graph, i: usize, next: &mut usize, leads: &mut Leads) -> Result<(), Memory>
    requires { IsGraph graph.now }
{
    let reached = graph.reached;
    let Some(key) = reached.known.get_index(i) else {
        return Ok(());
    };
    let w = writers(graph.writer, graph.reader, *key);
    let r = readers(graph.reader, *key);
    let ask = ask_at_index(graph.writer, graph.reader, reached, i);
    for n in 0..part_count(ask) {
        if let Some((k, a, b)) = nth_part(w, r, ask, n) {
            let to = number(count(graph.reader), a, b);
            if let Some(j) = index_next(&reached.known, to, next) {
                add_lead(leads, j, i, k)?;
            }
        }
    }
    Ok(())
}

/// The leads to all pairs.
///
/// # Errors
///
/// Memory ran out.
pub(crate) fn all_leads(alloc: Global, graph: &Graph) -> Result<Leads, Memory>
    requires { IsGraph graph.now }
{
    let pairs = graph.reached.known.len();
    let mut leads = Leads {
        last: filled(alloc, pairs, 0)?,
        all: Vec::new(alloc),
    };
    let mut next = 0;
    for i in 0..pairs {
        add_leads(graph, i, &mut next, &mut leads)?;
    }
    Ok(leads)
}
