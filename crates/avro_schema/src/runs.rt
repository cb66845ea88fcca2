//! Runs of adjacent fields whose data take no bytes.

ghost use Rattle.std.specs.Prelude.{◌≡◌, true, ℕ, List, ◌∷◌, IfOk, drop};
ghost use Rattle.avro_schema.specs.Empties.{AreEmpties, empty_datum, has_measure};
ghost use Rattle.avro_schema.specs.Node.{Node as SeenNode, node_at, field_ids};
ghost use Rattle.avro_schema.specs.Runs.{AreAllRuns, AreRuns, ids_at, is_run};
ghost use Rattle.avro_schema.specs.Seen.{node_of, nodes_of, seen_fields};

use crate::datum::Memory;
use crate::empties::{Empty, known_at, with};
use crate::schema::{Field, Node, NodeId};
use std::alloc::Global;

/// A run of adjacent fields whose data take no bytes.
#[derive(Clone, Copy, Debug)]
pub struct EmptyFields {
    /// The number of fields.
    pub fields: u32,
    /// The number of nodes of all their data.
    pub nodes: u32,
    /// The greatest depth of their data.
    pub depth: u32,
}

/// The least length of a run for which a record's runs are kept.
const FEWEST: u32 = 8;

/// The empty run.
fn none() -> EmptyFields
    ensures { (nodes : List SeenNode) (ids : List ℕ) → is_run nodes ids result ≡ true }
{
    EmptyFields {
        fields: 0,
        nodes: 0,
        depth: 0,
    }
}

/// Extends a run by the field before it; the empty run if the field's data may take bytes.
fn before(known: &[Option<Empty>], id: NodeId, others: EmptyFields) -> EmptyFields
    ensures { (nodes : List SeenNode) (ids : List ℕ) → AreEmpties nodes known.now → is_run nodes ids others ≡ true → is_run nodes (id.0 ∷ ids) result ≡ true }
{
    match known_at(known, id) {
        Some(first) => one_more(first, others),
        None => none(),
    }
}

/// Extends a run by the datum before it; the empty run if a number overflows.
fn one_more(first: Empty, others: EmptyFields) -> EmptyFields
    ensures { (nodes : List SeenNode) (id : ℕ) (ids : List ℕ) → has_measure first.nodes first.depth (empty_datum first.depth nodes (node_at nodes id)) ≡ true
        → is_run nodes ids others ≡ true → is_run nodes (id ∷ ids) result ≡ true }
{
    let rest = Empty {
        nodes: others.nodes,
        depth: others.depth,
    };
    match others.fields.checked_add(1) {
        Some(fields) => match with(first, rest) {
            Some(all) => EmptyFields {
                fields,
                nodes: all.nodes,
                depth: all.depth,
            },
            None => none(),
        },
        None => none(),
    }
}

/// The length of the longest run.
fn longest(known: &[Option<Empty>], fields: &[Field]) -> u32 {
    let mut longest = 0;
    let mut run = none();
    let mut left = fields.len();
    while left > 0 {
        left -= 1;
        run = before(known, fields[left].node, run);
        longest = run.fields.max(longest);
    }
    longest
}

/// For each field, the run that starts there.
fn runs_of_all(
    alloc: Global,
    known: &[Option<Empty>],
    fields: &[Field],
) -> Result<Vec<EmptyFields>, Memory>
    ensures { (nodes : List SeenNode) → AreEmpties nodes known.now → IfOk result (λ runs. AreRuns nodes (field_ids (seen_fields fields.now)) runs.items) }
{
    let mut runs = no_runs(alloc, fields.len())?;
    let mut run = none();
    let mut left = fields.len();
    while left > 0 {
        left -= 1;
        run = before(known, fields[left].node, run);
        put(&mut runs, left, run);
    }
    Ok(runs)
}

/// Stores a run at an index, if the list has that index.
fn put(runs: &mut Vec<EmptyFields>, index: usize, run: EmptyFields)
    ensures { (nodes : List SeenNode) (ids : List ℕ) → AreRuns nodes ids runs.old.items → is_run nodes (drop index ids) run ≡ true → AreRuns nodes ids runs.new.items }
{
    if index < runs.len() {
        runs[index] = run;
    }
}

/// A list of `count` empty runs.
fn no_runs(alloc: Global, count: usize) -> Result<Vec<EmptyFields>, Memory>
    ensures { (nodes : List SeenNode) (ids : List ℕ) → IfOk result (λ runs. AreRuns nodes ids runs.items) }
{
    let mut runs = Vec::new(alloc);
    for _field in 0..count {
        runs.push(none())?;
    }
    Ok(runs)
}

/// For each field, the run that starts there; an empty list if all runs are short.
fn runs_of(
    alloc: Global,
    known: &[Option<Empty>],
    fields: &[Field],
) -> Result<Vec<EmptyFields>, Memory>
    ensures { (nodes : List SeenNode) → AreEmpties nodes known.now → IfOk result (λ runs. AreRuns nodes (field_ids (seen_fields fields.now)) runs.items) }
{
    if longest(known, fields) < FEWEST {
        return Ok(Vec::new(alloc));
    }
    runs_of_all(alloc, known, fields)
}

/// The runs of a node's fields, as `runs_of`.
fn runs_of_node(
    alloc: Global,
    known: &[Option<Empty>],
    node: &Node,
) -> Result<Vec<EmptyFields>, Memory>
    ensures { (nodes : List SeenNode) → AreEmpties nodes known.now → IfOk result (λ runs. AreRuns nodes (ids_at (node_of node.now)) runs.items) }
{
    match node.fields() {
        Some(fields) => runs_of(alloc, known, fields),
        None => Ok(Vec::new(alloc)),
    }
}

/// The runs of each node's fields.
///
/// # Errors
///
/// Memory ran out.
pub(crate) fn find_runs(
    alloc: Global,
    nodes: &[Node],
    known: &[Option<Empty>],
) -> Result<Vec<Vec<EmptyFields>>, Memory>
    ensures { AreEmpties (nodes_of nodes.now) known.now → IfOk result (λ lists. AreAllRuns (nodes_of nodes.now) lists.items) }
{
    let mut lists = Vec::new(alloc);
    for i in 0..nodes.len() {
        let runs = runs_of_node(alloc, known, &nodes[i])?;
        lists.push(runs)?;
    }
    Ok(lists)
}

/// Whether any of the lists has an entry.
fn has_entry(lists: &[Vec<EmptyFields>]) -> bool {
    for runs in lists {
        if runs.len() > 0 {
            return true;
        }
    }
    false
}

/// Returns the lists, or no list if all are empty.
pub(crate) fn lists_with_entries(
    alloc: Global,
    lists: Vec<Vec<EmptyFields>>,
) -> Vec<Vec<EmptyFields>>
    ensures { (nodes : List SeenNode) → AreAllRuns nodes lists.items → AreAllRuns nodes result.items }
{
    if has_entry(&lists) {
        lists
    } else {
        Vec::new(alloc)
    }
}

/// The runs of a node's fields, as far as they are kept.
#[inline(always)]
pub(crate) fn runs_at(lists: &[Vec<EmptyFields>], id: NodeId) -> &[EmptyFields]
    ensures { (nodes : List SeenNode) → AreAllRuns nodes lists.now → AreRuns nodes (ids_at (node_at nodes id.0)) result.now }
{
    match lists.get(id.0 as usize) {
        Some(runs) => runs,
        None => &[],
    }
}
