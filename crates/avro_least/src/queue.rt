//! Tables of least entries that are still to be found, the least of them first.

ghost use Rattle.std.specs.Prelude.{◌≡◌, ◌<◌, ◌≤◌, ◌==◌, false, None, slice_get, IfOk, OnOk, IfSome, IfNone};
ghost use Rattle.std.specs.BinaryHeap.{heap_len};
ghost use Rattle.std.proofs.Math.ListN.{replicate};
ghost use Rattle.avro_least.specs.SeenLeast.{seen, given_entry, improves};

use crate::filled::filled;
use crate::kept::Least;
use crate::nodes::least::improves;
use avro_schema::Memory;
use std::alloc::Global;
use std::cmp::Reverse;
use std::collections::BinaryHeap;

/// An entry that has fallen: its numbers, and its index.
#[derive(Clone, Copy, PartialEq, Eq, PartialOrd, Ord)]
pub(crate) struct Fallen {
    nodes: u32,
    depth: u32,
    index: usize,
}

/// The least entries that are found so far. Those that have fallen wait in a queue, until what depends on them takes
/// them. What waits is a hint: where the queue is empty, all is looked at once more.
#[derive(Drop)]
pub(crate) struct Search {
    pub(crate) entries: Vec<Option<Least>>,
    waiting: Vec<bool>,
    queue: BinaryHeap<Reverse<Fallen>>,
}

/// The entry at an index, or the least of all entries past the end.
pub(crate) fn entry_at(entries: &[Option<Least>], i: usize) -> Option<Least>
    ensures { seen result ≡ given_entry (slice_get entries.now i) }
{
    match entries.get(i) {
        None => Some(Least { nodes: 0, depth: 0 }),
        Some(e) => *e,
    }
}

impl Search {
    ghost use Rattle.avro_least.specs.inside.Falling.{lowered, effort, IsQuiet};

    /// A table of this many entries, none of them known.
    pub(crate) fn new(alloc: Global, count: usize) -> Result<Search, Memory>
        ensures { IfOk result (λ s. s.entries.items ≡ replicate count None) }
    {
        Ok(Search {
            entries: filled(alloc, count, None)?,
            waiting: filled(alloc, count, false)?,
            queue: BinaryHeap::new(alloc),
        })
    }

    /// Keeps an entry if it is better than the old one at its index, and lets it wait.
    pub(crate) fn lower(&mut self, i: usize, found: Option<Least>) -> Result<(), Memory>
        ensures entries { OnOk result (self.new.entries.items ≡ lowered self.old.entries.items i found) }
        ensures effort { OnOk result (effort self.new ≤ effort self.old) }
        ensures quiet { OnOk result (IsQuiet self.new → IsQuiet self.old × (improves (seen found) (given_entry (slice_get self.old.entries.items i)) ≡ false)) }
    {
        let Some(entry) = found else {
            return Ok(());
        };
        if improves(found, entry_at(&self.entries, i)) {
            self.queue.push(Reverse(Fallen {
                nodes: entry.nodes,
                depth: entry.depth,
                index: i,
            }))?;
            self.entries[i] = found;
            self.mark(i, true);
        }
        Ok(())
    }

    /// Says of the entry at an index whether it waits.
    fn mark(&mut self, i: usize, waits: bool)
        ensures entries { self.new.entries ≡ self.old.entries }
        ensures queue { self.new.queue ≡ self.old.queue }
    {
        if i < self.waiting.len() {
            self.waiting[i] = waits;
        }
    }

    /// Whether the entry at an index waits.
    pub(crate) fn waits(&self, i: usize) -> bool {
        match self.waiting.get(i) {
            None => false,
            Some(waits) => *waits,
        }
    }

    /// Whether the queue is empty.
    pub(crate) fn is_quiet(&self) -> bool
        ensures { result ≡ (heap_len self.now.queue == 0) }
    {
        self.queue.is_empty()
    }

    /// The index of the least entry in the queue, and whether it waits. It waits no more.
    pub(crate) fn next(&mut self) -> Option<(usize, bool)>
        ensures entries { self.new.entries ≡ self.old.entries }
        ensures quiet { IfNone result (IsQuiet self.old) }
        ensures effort { IfSome result (λ i. effort self.new < effort self.old) }
    {
        match self.queue.pop() {
            None => None,
            Some(Reverse(fallen)) => {
                let waits = self.waits(fallen.index);
                self.mark(fallen.index, false);
                Some((fallen.index, waits))
            }
        }
    }
}
