ghost use Rattle.std.specs.Prelude.{◌≡◌, ◌++◌, ◌∷◌, [], ℕ, IfOk, List, OnOk, replicate, true, false, ◌+◌, ◌<◌};
ghost use Rattle.avro_schema.specs.Node.{Node, node_at};
ghost use Rattle.avro_schema.specs.Seen.{entries_from, values_from};
ghost use Rattle.avro_schema.specs.SeenSchema.{schema_nodes};
ghost use Rattle.avro_schema.specs.Value.{Value};
ghost use Rattle.avro_binary.specs.Places.{AreTold};
ghost use Rattle.avro_binary.specs.declared.place.Place.{Place as SeenPlace};
ghost use Rattle.avro_resolve.specs.inside.Guided.{EntriesStandAs, ItemsStandAs, StandsAs, next_at, part_below};

use crate::plan::plan_ref::PlanRef;
use crate::resolving::failing::{fault_apart, step_apart};
use crate::resolving::guided::{Made, Part, Run};
use crate::resolving::leaves::into_branch;
use avro_binary::{Make, Place};
use avro_compare::{At, Target};
use std::alloc::{AllocError, Global};

/// What the next item or entry is for, whose pair may be kept at an index.
pub(crate) fn next_part<I>(run: &Run<I>, index: u32) -> Part
    ensures { result ≡ part_below (next_at run.now) index }
{
    let at = match run {
        Run::Good(_, _, _, a, b) => At::Pair(*a, *b),
        Run::Faulty(_) => At::Ignored,
        Run::Nothing => At::Ignored,
    };
    Part {
        at,
        index,
        branch: None,
    }
}

/// What was made of no items: where a pair of nodes leads to a fault, that fault.
pub(crate) fn start_items<M: Make<At = Place>>(
    alloc: Global,
    maker: &mut M,
    plan: &PlanRef<'_>,
    part: Part,
) -> Result<(Run<M::Items>, u32), AllocError>
    ensures kept { OnOk result (M.keeps maker.old maker.new) }
    ensures stands { AreTold M.branch_at M.item_at M.entry_at M.field_at → (nodes : List Node) (id : ℕ) → IfOk result (λ run. ItemsStandAs (M.items_stand_for maker.new) (schema_nodes plan.now.0) (schema_nodes plan.now.1) nodes id part.at run.0 []) }
{
    let index = plan.index_of(part);
    match part.at {
        At::Ignored => Ok((Run::Nothing, 0)),
        At::Pair(w, r) => match plan.target(index, w, r) {
            Target::Fault(kind) => Ok((Run::Faulty(fault_apart(alloc, kind)?), 0)),
            Target::To(branch, q) => {
                let (a, b) = plan.items(w, q);
                let kept = maker.items(alloc, Place { node: q, branch })?;
                let below = plan.index_below(plan.index_to(index, branch), 0);
                Ok((Run::Good(kept, 0, branch, a, b), below))
            }
        },
    }
}

/// Adds what was made of an item after those before.
pub(crate) fn put_item<M: Make<At = Place>>(
    alloc: Global,
    maker: &mut M,
    items: &mut Run<M::Items>,
    made: Made<M::Out>,
) -> Result<(), AllocError>
    ensures kept { OnOk result (M.keeps maker.old maker.new) }
    ensures stands { AreTold M.branch_at M.item_at M.entry_at M.field_at → (writer reader nodes : List Node) (id : ℕ) (at : At) (vs : List Value) (v : Value) → ItemsStandAs (M.items_stand_for maker.old) writer reader nodes id at items.old vs
        → StandsAs (M.stands_for maker.old) writer reader nodes (node_at nodes id) (next_at items.old) made v
        → OnOk result (ItemsStandAs (M.items_stand_for maker.new) writer reader nodes id at items.new (vs ++ v ∷ [])) }
{
    match items {
        Run::Good(kept, count, _, _, _) => match made {
            Made::Good(out) => {
                let next = one_more(*count)?;
                maker.item(alloc, kept, out)?;
                *count = next;
                Ok(())
            }
            Made::Faulty(fault) => {
                let outer = step_apart(*count, fault)?;
                *items = Run::Faulty(outer);
                Ok(())
            }
            Made::Nothing => Ok(()),
        },
        Run::Faulty(_) => Ok(()),
        Run::Nothing => Ok(()),
    }
}

/// Adds a number of items, each of which is what was made, or adds none and answers false. Where no item is asked for, none is missed.
pub(crate) fn repeat_item<M: Make<At = Place>>(
    maker: &M,
    items: &mut Run<M::Items>,
    made: &Made<M::Out>,
    count: u32,
) -> bool
    ensures added { AreTold M.branch_at M.item_at M.entry_at M.field_at → (writer reader nodes : List Node) (id : ℕ) (at : At) (vs : List Value) (v : Value) → result ≡ true → ItemsStandAs (M.items_stand_for maker.now) writer reader nodes id at items.old vs
        → StandsAs (M.stands_for maker.now) writer reader nodes (node_at nodes id) (next_at items.old) made.now v
        → ItemsStandAs (M.items_stand_for maker.now) writer reader nodes id at items.new (vs ++ replicate count v) }
    ensures next { next_at items.new ≡ next_at items.old }
    ensures none { result ≡ false → items.new ≡ items.old }
{
    match items {
        Run::Good(kept, known, _, _, _) => match made {
            Made::Good(out) => repeat_good(maker, kept, known, out, count),
            Made::Faulty(_) => false,
            Made::Nothing => false,
        },
        Run::Faulty(_) => true,
        Run::Nothing => true,
    }
}

/// Adds a number of items, each of which is what was made, and counts them, or adds none.
fn repeat_good<M: Make<At = Place>>(
    maker: &M,
    kept: &mut M::Items,
    known: &mut usize,
    out: &M::Out,
    count: u32,
) -> bool
    ensures added { (nodes : List Node) (id : ℕ) (at : SeenPlace) (vs : List Value) (v : Value) → result ≡ true → M.items_stand_for maker.now nodes id at kept.old vs
        → M.stands_for maker.now nodes (node_at nodes id) (M.item_at maker.now kept.old id) out.now v → M.items_stand_for maker.now nodes id at kept.new (vs ++ replicate count v) }
    ensures some { result ≡ true → 0 < count }
    ensures counted { result ≡ true → known.new ≡ known.old + count }
    ensures none { result ≡ false → (kept.new ≡ kept.old) × (known.new ≡ known.old) }
{
    if count == 0 {
        return false;
    }
    match known.checked_add(count as usize) {
        Some(next) => {
            if maker.repeat(kept, out, count) {
                *known = next;
                return true;
            }
            false
        }
        None => false,
    }
}

/// The number of parts with one more, as far as it is a number of the machine: no memory holds more.
fn one_more(count: usize) -> Result<usize, AllocError>
    ensures { IfOk result (λ next. next ≡ count + 1) }
{
    match count.checked_add(1) {
        Some(next) => Ok(next),
        None => Err(AllocError),
    }
}

/// What was made of an array, from its items.
pub(crate) fn make_array<M: Make<At = Place>>(
    alloc: Global,
    maker: &mut M,
    items: Run<M::Items>,
) -> Result<Made<M::Out>, AllocError>
    ensures kept { OnOk result (M.keeps maker.old maker.new) }
    ensures stands { AreTold M.branch_at M.item_at M.entry_at M.field_at → (writer reader nodes : List Node) (id : ℕ) (at : At) (vs : List Value) → ItemsStandAs (M.items_stand_for maker.old) writer reader nodes id at items vs
        → IfOk result (λ made. StandsAs (M.stands_for maker.new) writer reader nodes (Node.array id) at made (Value.array (values_from vs))) }
{
    match items {
        Run::Good(kept, _, branch, _, _) => {
            let out = maker.array(alloc, kept)?;
            into_branch(alloc, maker, branch, out)
        }
        Run::Faulty(fault) => Ok(Made::Faulty(fault)),
        Run::Nothing => Ok(Made::Nothing),
    }
}

/// What was made of no entries: where a pair of nodes leads to a fault, that fault.
pub(crate) fn start_entries<M: Make<At = Place>>(
    alloc: Global,
    maker: &mut M,
    plan: &PlanRef<'_>,
    part: Part,
) -> Result<(Run<M::Entries>, u32), AllocError>
    ensures kept { OnOk result (M.keeps maker.old maker.new) }
    ensures stands { AreTold M.branch_at M.item_at M.entry_at M.field_at → (nodes : List Node) (id : ℕ) → IfOk result (λ run. EntriesStandAs (M.entries_stand_for maker.new) (schema_nodes plan.now.0) (schema_nodes plan.now.1) nodes id part.at run.0 []) }
{
    let index = plan.index_of(part);
    match part.at {
        At::Ignored => Ok((Run::Nothing, 0)),
        At::Pair(w, r) => match plan.target(index, w, r) {
            Target::Fault(kind) => Ok((Run::Faulty(fault_apart(alloc, kind)?), 0)),
            Target::To(branch, q) => {
                let (a, b) = plan.values(w, q);
                let kept = maker.entries(alloc, Place { node: q, branch })?;
                let below = plan.index_below(plan.index_to(index, branch), 0);
                Ok((Run::Good(kept, 0, branch, a, b), below))
            }
        },
    }
}

/// Adds what was made of an entry's value after those before.
pub(crate) fn put_entry<M: Make<At = Place>>(
    alloc: Global,
    maker: &mut M,
    entries: &mut Run<M::Entries>,
    key: &str,
    made: Made<M::Out>,
) -> Result<(), AllocError>
    ensures kept { OnOk result (M.keeps maker.old maker.new) }
    ensures stands { AreTold M.branch_at M.item_at M.entry_at M.field_at → (writer reader nodes : List Node) (id : ℕ) (at : At) (es : List (List ℕ × Value)) (v : Value) → EntriesStandAs (M.entries_stand_for maker.old) writer reader nodes id at entries.old es
        → StandsAs (M.stands_for maker.old) writer reader nodes (node_at nodes id) (next_at entries.old) made v
        → OnOk result (EntriesStandAs (M.entries_stand_for maker.new) writer reader nodes id at entries.new (es ++ (key.now, v) ∷ [])) }
{
    match entries {
        Run::Good(kept, count, _, _, _) => match made {
            Made::Good(out) => {
                let next = one_more(*count)?;
                maker.entry(alloc, kept, key, out)?;
                *count = next;
                Ok(())
            }
            Made::Faulty(fault) => {
                let outer = step_apart(*count, fault)?;
                *entries = Run::Faulty(outer);
                Ok(())
            }
            Made::Nothing => Ok(()),
        },
        Run::Faulty(_) => Ok(()),
        Run::Nothing => Ok(()),
    }
}

/// What was made of a map, from its entries.
pub(crate) fn make_map<M: Make<At = Place>>(
    alloc: Global,
    maker: &mut M,
    entries: Run<M::Entries>,
) -> Result<Made<M::Out>, AllocError>
    ensures kept { OnOk result (M.keeps maker.old maker.new) }
    ensures stands { AreTold M.branch_at M.item_at M.entry_at M.field_at → (writer reader nodes : List Node) (id : ℕ) (at : At) (es : List (List ℕ × Value)) → EntriesStandAs (M.entries_stand_for maker.old) writer reader nodes id at entries es
        → IfOk result (λ made. StandsAs (M.stands_for maker.new) writer reader nodes (Node.map_of id) at made (Value.map_of (entries_from es))) }
{
    match entries {
        Run::Good(kept, _, branch, _, _) => {
            let out = maker.map(alloc, kept)?;
            into_branch(alloc, maker, branch, out)
        }
        Run::Faulty(fault) => Ok(Made::Faulty(fault)),
        Run::Nothing => Ok(Made::Nothing),
    }
}
