//! The pairs of nodes that the roots lead to, and what fails at them.

ghost use Rattle.std.specs.Prelude.{◌≡◌, ◌<◌, ◌≤◌, ℕ, ◌++◌, [], List, Some, None, length, slice_get, IfOk, OnOk};
ghost use Rattle.std.specs.Result.{IfErr};
ghost use Rattle.indexmap.specs.IndexSet.{keys};
ghost use Rattle.avro_schema.specs.SeenSchema.{schema_nodes};
ghost use Rattle.avro_compare.specs.Children.{Pair};
ghost use Rattle.avro_certificate.specs.Closed.{is_among};
ghost use Rattle.avro_certificate.specs.Compatible.{AreCompatible};
ghost use Rattle.avro_certificate.specs.Evidence.{IsGreatestDead};
ghost use Rattle.avro_compare.specs.Leads.{leads_at};
ghost use Rattle.avro_explain.specs.Places.{marked, pairs_of, ArePlaced, AreByBreadth, AreFollowed, AreReached, AreTooMany, AreFaults, findings, findings_at};
ghost use Rattle.avro_explain.specs.Search.{AreSearched, roots_place, with_place, with_lead, with_leads};
ghost use Rattle.avro_explain.specs.inside.Walks.{IsWalk, keys_of};
ghost use Rattle.avro_explain.specs.declared.error.ExplainError.TheVariants.{TooManyPairs};
ghost use Rattle.avro_explain.specs.declared.found.Place.{Place};

use crate::dying::{dead_nodes, is_marked};
use crate::error::ExplainError;
use crate::failing::details;
use crate::found::{Detail, Explanation, Finding, Place};
use avro_compare::{Lead, Names, compare, leads};
use avro_schema::{Memory, NodeId, Schema};
use avro_texts::Seeded;
use indexmap::IndexSet;
use std::alloc::Global;

/// The places so far, their pairs, and the faults of those that were visited.
#[derive(Drop)]
pub(crate) struct Walk {
    known: IndexSet<(u32, u32), Seeded>,
    places: Vec<Place>,
    faults: Vec<Finding>,
}

/// Finds exactly the pairs that the roots lead to, but for dead nodes of the writer's, each once and breadth-first, and
/// exactly their faults; none if and only if no datum fails.
///
/// # Errors
///
/// `TooManyPairs` where the roots lead to more than `max_pairs` pairs of nodes; `OutOfMemory`.
pub fn explain(
    alloc: Global,
    writer: &Schema,
    reader: &Schema,
    max_pairs: usize,
) -> Result<Explanation, ExplainError>
    // The nodes that no datum has are all marked.
    ensures dead { IfOk result (λ e. IsGreatestDead (schema_nodes writer.now) (marked e.dead.items)) }
    // The pairs are within the limit, or there are more.
    ensures limit { IfOk result (λ e. length e.places.items ≤ max_pairs) }
    ensures above { IfErr result (λ e. e ≡ TooManyPairs → (dead : List ℕ) × (pairs : List Pair) × IsGreatestDead (schema_nodes writer.now) dead
        × AreTooMany (schema_nodes writer.now) (schema_nodes reader.now) dead max_pairs pairs) }
    // The places are exactly the pairs that the roots lead to, each once, each with the step to it, by breadth.
    ensures visited { IfOk result (λ e. AreReached (schema_nodes writer.now) (schema_nodes reader.now) (marked e.dead.items) (pairs_of e.places.items)) }
    ensures placed { IfOk result (λ e. ArePlaced (schema_nodes writer.now) (schema_nodes reader.now) e.places.items) }
    ensures breadth { IfOk result (λ e. AreByBreadth e.places.items) }
    ensures followed { IfOk result (λ e. AreFollowed (schema_nodes writer.now) (schema_nodes reader.now) (marked e.dead.items) e.places.items (length e.places.items)) }
    // They are those of the search by breadth, in its order, and each has the step by which that finds it.
    ensures searched { IfOk result (λ e. AreSearched (schema_nodes writer.now) (schema_nodes reader.now) (marked e.dead.items) e.places.items) }
    // The faults are exactly those of the places.
    ensures faults { IfOk result (λ e. AreFaults (schema_nodes writer.now) (schema_nodes reader.now) e.places.items e.faults.items) }
    // There is none exactly where no datum fails.
    ensures compatible { IfOk result (λ e. e.faults.items ≡ [] → AreCompatible (schema_nodes writer.now) (schema_nodes reader.now)) }
    ensures none { IfOk result (λ e. AreCompatible (schema_nodes writer.now) (schema_nodes reader.now) → e.faults.items ≡ []) }
{
    // The contract of these calls says that the nodes are schemas, which the proof needs.
    let _ = writer.len();
    let _ = reader.len();
    let names = Names::new(alloc, writer, reader)?;
    let dead = dead_nodes(alloc, writer)?;
    let walk = explore(alloc, &names, &dead, max_pairs)?;
    Ok(Explanation {
        dead,
        places: walk.places,
        faults: walk.faults,
    })
}

/// Visits the places in the order in which they are found.
fn explore(
    alloc: Global,
    names: &Names,
    dead: &[bool],
    max_pairs: usize,
) -> Result<Walk, ExplainError>
    ensures walked { IfOk result (λ walk. IsWalk (schema_nodes names.now.0) (schema_nodes names.now.1) (marked dead.now) (length walk.places.items) (length walk.places.items) walk.places.items) }
    ensures searched { IfOk result (λ walk. AreSearched (schema_nodes names.now.0) (schema_nodes names.now.1) (marked dead.now) walk.places.items) }
    ensures limit { IfOk result (λ walk. length walk.places.items ≤ max_pairs) }
    ensures faults { IfOk result (λ walk. AreFaults (schema_nodes names.now.0) (schema_nodes names.now.1) walk.places.items walk.faults.items) }
    ensures above { IfErr result (λ e. e ≡ TooManyPairs → (pairs : List Pair) × AreTooMany (schema_nodes names.now.0) (schema_nodes names.now.1) (marked dead.now) max_pairs pairs) }
{
    let mut walk = start(alloc, names.seed(), dead)?;
    if walk.places.len() > max_pairs {
        return Err(ExplainError::TooManyPairs);
    }
    let mut next = 0;
    while next < walk.places.len() {
        visit(alloc, names, dead, next, &mut walk)?;
        if walk.places.len() > max_pairs {
            return Err(ExplainError::TooManyPairs);
        }
        next += 1;
    }
    Ok(walk)
}

/// The place of the roots alone, or none where the writer's is dead.
fn start(alloc: Global, seed: Seeded, dead: &[bool]) -> Result<Walk, Memory>
    ensures keys { IfOk result (λ walk. keys walk.known ≡ keys_of walk.places.items) }
    ensures places { IfOk result (λ walk. walk.places.items ≡ roots_place (is_among (marked dead.now) 0)) }
    ensures faults { IfOk result (λ walk. walk.faults.items ≡ []) }
{
    let mut walk = Walk {
        known: IndexSet::with_hasher(alloc, seed),
        places: Vec::new(alloc),
        faults: Vec::new(alloc),
    };
    if !is_marked(dead, NodeId(0)) {
        add_place(
            &mut walk,
            Place {
                w: NodeId(0),
                r: NodeId(0),
                from: None,
            },
        )?;
    }
    Ok(walk)
}

/// Adds a place, unless its pair is there already.
fn add_place(walk: &mut Walk, place: Place) -> Result<(), Memory>
    requires { keys walk.old.known ≡ keys_of walk.old.places.items }
    ensures keys { OnOk result (keys walk.new.known ≡ keys_of walk.new.places.items) }
    ensures places { OnOk result (walk.new.places.items ≡ with_place walk.old.places.items place) }
    ensures faults { OnOk result (walk.new.faults.items ≡ walk.old.faults.items) }
{
    if walk.known.insert((place.w.0, place.r.0))? {
        walk.places.push(place)?;
    }
    Ok(())
}

/// Adds the places that a place leads to, without those whose writer's node is dead.
fn add_leads(walk: &mut Walk, dead: &[bool], at: usize, leads: &[Lead]) -> Result<(), Memory>
    requires { keys walk.old.known ≡ keys_of walk.old.places.items }
    ensures keys { OnOk result (keys walk.new.known ≡ keys_of walk.new.places.items) }
    ensures places { OnOk result (walk.new.places.items ≡ with_leads (marked dead.now) at walk.old.places.items leads.now) }
    ensures faults { OnOk result (walk.new.faults.items ≡ walk.old.faults.items) }
{
    for lead in leads {
        add_lead(walk, dead, at, *lead)?;
    }
    Ok(())
}

/// Adds one of them.
fn add_lead(walk: &mut Walk, dead: &[bool], at: usize, lead: Lead) -> Result<(), Memory>
    requires { keys walk.old.known ≡ keys_of walk.old.places.items }
    ensures keys { OnOk result (keys walk.new.known ≡ keys_of walk.new.places.items) }
    ensures places { OnOk result (walk.new.places.items ≡ with_lead (marked dead.now) at walk.old.places.items lead) }
    ensures faults { OnOk result (walk.new.faults.items ≡ walk.old.faults.items) }
{
    if is_marked(dead, lead.w) {
        return Ok(());
    }
    add_place(
        walk,
        Place {
            w: lead.w,
            r: lead.r,
            from: Some((at, lead.step)),
        },
    )
}

/// Adds faults of one place.
fn add_findings(faults: &mut Vec<Finding>, at: usize, details: &[Detail]) -> Result<(), Memory>
    ensures { OnOk result (faults.new.items ≡ faults.old.items ++ findings at details.now) }
{
    for detail in details {
        faults.push(Finding {
            place: at,
            detail: *detail,
        })?;
    }
    Ok(())
}

/// Visits the place at an index: adds its faults, and the places that it leads to.
fn visit(
    alloc: Global,
    names: &Names,
    dead: &[bool],
    at: usize,
    walk: &mut Walk,
) -> Result<(), Memory>
    requires within { at < length walk.old.places.items }
    requires keys { keys walk.old.known ≡ keys_of walk.old.places.items }
    ensures keys { OnOk result (keys walk.new.known ≡ keys_of walk.new.places.items) }
    ensures visited { OnOk result ((p : Place) → slice_get walk.old.places.items at ≡ Some p
        → (walk.new.places.items ≡ with_leads (marked dead.now) at walk.old.places.items (leads_at (schema_nodes names.now.0) (schema_nodes names.now.1) p.w.0 p.r.0))
        × (walk.new.faults.items ≡ walk.old.faults.items ++ findings_at (schema_nodes names.now.0) (schema_nodes names.now.1) at p)) }
{
    let place = walk.places[at];
    let pair = compare(alloc, names, place.w, place.r)?;
    let details = details(alloc, names, &pair)?;
    add_findings(&mut walk.faults, at, &details)?;
    let leads = leads(alloc, names, &pair)?;
    add_leads(walk, dead, at, &leads)
}
