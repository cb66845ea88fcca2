//! Finding the nodes whose data take no bytes (Avro 1.11, "Binary Encoding").

ghost use Rattle.std.specs.Prelude.{◌≡◌, ◌<◌, ◌+◌, ◌≤◌, max, suc, true, ℕ, List, ◌∷◌, Some, IfSome, IfOk, length, slice_get, OnOk};
ghost use Rattle.avro_schema.specs.Empties.{AreEmpties, empty_datum, empty_parts, has_measure, have_measure};
ghost use Rattle.avro_name.specs.Name.{Name};
ghost use Rattle.avro_schema.specs.Node.{Node as SeenNode, node_at, field_ids};
ghost use Rattle.avro_schema.specs.Seen.{node_of, nodes_of, seen_fields};

use crate::datum::Memory;
use crate::schema::{Field, Node, NodeId};
use std::alloc::Global;

/// The one datum of a node whose data take no bytes.
#[derive(Clone, Copy, Debug)]
pub struct Empty {
    /// Its number of nodes.
    pub nodes: u32,
    /// Its depth.
    pub depth: u32,
}

/// The greatest number of passes over all nodes. Deeper data are never read.
const MOST_ROUNDS: u32 = 256;

/// The node's datum without bytes, if one is known.
#[inline(always)]
pub(crate) fn known_at(known: &[Option<Empty>], id: NodeId) -> Option<Empty>
    ensures { IfSome result (λ e. slice_get known.now id.0 ≡ Some (Some e)) }
{
    match known.get(id.0 as usize) {
        Some(entry) => *entry,
        None => None,
    }
}

/// A datum and its siblings together: the sum of their nodes and the greater depth, unless the sum overflows.
pub(crate) fn with(first: Empty, others: Empty) -> Option<Empty>
    ensures { IfSome result (λ e. (e.nodes ≡ first.nodes + others.nodes) × (e.depth ≡ max first.depth others.depth)) }
{
    let nodes = first.nodes.checked_add(others.nodes)?;
    Some(Empty {
        nodes,
        depth: first.depth.max(others.depth),
    })
}

/// The datum that has these parts.
fn around(parts: Empty) -> Option<Empty>
    ensures { IfSome result (λ e. (e.nodes ≡ suc parts.nodes) × (e.depth ≡ suc parts.depth)) }
{
    let nodes = parts.nodes.checked_add(1)?;
    let depth = parts.depth.checked_add(1)?;
    Some(Empty { nodes, depth })
}

/// A node's datum together with its later siblings, if it is known to take no bytes.
fn before(known: &[Option<Empty>], id: NodeId, others: Empty) -> Option<Empty>
    ensures { (nodes : List SeenNode) (ids : List ℕ) → AreEmpties nodes known.now
        → have_measure others.nodes others.depth (empty_parts (λ i. empty_datum others.depth nodes (node_at nodes i)) ids) ≡ true
        → IfSome result (λ e. have_measure e.nodes e.depth (empty_parts (λ i. empty_datum e.depth nodes (node_at nodes i)) (id.0 ∷ ids)) ≡ true) }
{
    match known_at(known, id) {
        Some(first) => with(first, others),
        None => None,
    }
}

/// The data of all fields together, if all are known to take no bytes.
fn empty_fields(known: &[Option<Empty>], fields: &[Field]) -> Option<Empty>
    ensures { (nodes : List SeenNode) → AreEmpties nodes known.now → IfSome result (λ e. have_measure e.nodes e.depth (empty_parts (λ id. empty_datum e.depth nodes (node_at nodes id)) (field_ids (seen_fields fields.now))) ≡ true) }
{
    let mut all = Empty { nodes: 0, depth: 0 };
    let mut left = fields.len();
    while left > 0 {
        left -= 1;
        match before(known, fields[left].node, all) {
            Some(more) => all = more,
            None => return None,
        }
    }
    Some(all)
}

/// The datum of a node, if it is known to take no bytes.
fn empty_of(known: &[Option<Empty>], node: &Node) -> Option<Empty>
    ensures { (nodes : List SeenNode) → AreEmpties nodes known.now → IfSome result (λ e. has_measure e.nodes e.depth (empty_datum e.depth nodes (node_of node.now)) ≡ true) }
{
    match node {
        Node::Null => Some(Empty { nodes: 1, depth: 1 }),
        Node::Fixed(fixed) => empty_fixed(fixed.size),
        Node::Record(record) => empty_record(known, &record.fields),
        _ => None,
    }
}

/// The datum of a fixed of size 0.
fn empty_fixed(size: u32) -> Option<Empty>
    ensures none { IfSome result (λ e. size ≡ 0) }
    ensures count { IfSome result (λ e. e.nodes ≡ 1) }
    ensures levels { IfSome result (λ e. e.depth ≡ 1) }
{
    if size == 0 {
        Some(Empty { nodes: 1, depth: 1 })
    } else {
        None
    }
}

/// The datum of a record with these fields, if it is known to take no bytes.
fn empty_record(known: &[Option<Empty>], fields: &[Field]) -> Option<Empty>
    ensures { (nodes : List SeenNode) → AreEmpties nodes known.now → (name : Name) (aliases : List Name) → IfSome result (λ e. has_measure e.nodes e.depth (empty_datum e.depth nodes (SeenNode.record_of name aliases (seen_fields fields.now))) ≡ true) }
{
    match empty_fields(known, fields) {
        Some(parts) => around(parts),
        None => None,
    }
}

/// Records it if the data of the node at an index are newly found to take no bytes; returns whether they are.
fn learn(nodes: &[Node], known: &mut Vec<Option<Empty>>, index: usize) -> bool
    requires { index < length nodes.now }
    ensures { AreEmpties (nodes_of nodes.now) known.old.items → AreEmpties (nodes_of nodes.now) known.new.items }
{
    if index >= known.len() || known[index].is_some() {
        return false;
    }
    match empty_of(known, &nodes[index]) {
        Some(empty) => {
            known[index] = Some(empty);
            true
        }
        None => false,
    }
}

/// Makes a pass over all nodes, last to first since most parts have greater ids; returns whether it found anything new.
fn learn_all(nodes: &[Node], known: &mut Vec<Option<Empty>>) -> bool
    ensures { AreEmpties (nodes_of nodes.now) known.old.items → AreEmpties (nodes_of nodes.now) known.new.items }
{
    let mut is_new = false;
    let mut left = nodes.len();
    while left > 0 {
        left -= 1;
        is_new |= learn(nodes, known, left);
    }
    is_new
}

/// A list of `count` entries in which nothing is known.
fn nothing_known(alloc: Global, count: usize) -> Result<Vec<Option<Empty>>, Memory>
    ensures { (nodes : List SeenNode) → IfOk result (λ known. AreEmpties nodes known.items) }
{
    let mut known = Vec::new(alloc);
    for _node in 0..count {
        known.push(None)?;
    }
    Ok(known)
}

/// For each node, its datum without bytes, if it has one. Data nested too deeply to be read, or with too many nodes, may
/// be missing.
///
/// # Errors
///
/// Memory ran out.
pub(crate) fn find_empties(alloc: Global, nodes: &[Node]) -> Result<Vec<Option<Empty>>, Memory>
    ensures { IfOk result (λ known. AreEmpties (nodes_of nodes.now) known.items) }
{
    let mut known = nothing_known(alloc, nodes.len())?;
    for _round in 0..MOST_ROUNDS {
        if !learn_all(nodes, &mut known) {
            return Ok(known);
        }
    }
    Ok(known)
}

/// Whether any record is known to take no bytes.
fn has_empty_record(nodes: &[Node], known: &[Option<Empty>]) -> bool {
    for i in 0..nodes.len() {
        if nodes[i].fields().is_some() && i < known.len() && known[i].is_some() {
            return true;
        }
    }
    false
}

/// Returns `known`, or an empty list if it has no record: other data without bytes are as fast to read as to look up.
pub(crate) fn worth_keeping(
    alloc: Global,
    nodes: &[Node],
    known: Vec<Option<Empty>>,
) -> Vec<Option<Empty>>
    ensures { AreEmpties (nodes_of nodes.now) known.items → AreEmpties (nodes_of nodes.now) result.items }
{
    if has_empty_record(nodes, &known) {
        known
    } else {
        Vec::new(alloc)
    }
}
