//! The branches of unions.

ghost use Rattle.std.specs.Prelude.{◌≡◌, map, IfOk, option_map};
ghost use Rattle.std.specs.Ordering.{eq_by_cmp, nat_cmp};
ghost use Rattle.avro_schema.specs.Distinct.{are_distinct};
ghost use Rattle.avro_schema.specs.Node.{node_at};
ghost use Rattle.avro_schema.specs.Seen.{node_of, nodes_of, ids_of};
ghost use Rattle.avro_schema.specs.SeenKind.{kind_of, AreKinds};
ghost use Rattle.avro_schema.specs.WellFormed.{branch_kind, is_union as is_good_union, same_kind};

use crate::datum::Memory;
use crate::schema::{Node, NodeId};
use crate::uniqueness::are_unique;
use avro_name::FullName;
use std::alloc::Global;

/// What the branches of a union must differ in.
#[derive(Clone, Copy, PartialEq, Eq, PartialOrd, Ord)]
pub(crate) enum Kind<'a> {
    Null,
    Boolean,
    Int,
    Long,
    Bytes,
    Str,
    Array,
    Map,
    Named(&'a FullName),
}

/// The kind of a node; `None` for a union.
fn kind_of_node(node: &Node) -> Option<Kind<'_>>
    ensures { option_map kind_of result ≡ branch_kind (node_of node.now) }
{
    match node {
        Node::Null => Some(Kind::Null),
        Node::Boolean => Some(Kind::Boolean),
        Node::Int => Some(Kind::Int),
        Node::Long => Some(Kind::Long),
        Node::Bytes => Some(Kind::Bytes),
        Node::Str => Some(Kind::Str),
        Node::Array(_) => Some(Kind::Array),
        Node::Map(_) => Some(Kind::Map),
        Node::Union(_) => None,
        Node::Record(record) => Some(Kind::Named(&record.name)),
        Node::Enum(enumeration) => Some(Kind::Named(&enumeration.name)),
        Node::Fixed(fixed) => Some(Kind::Named(&fixed.name)),
    }
}

/// The kind of the node with this id; null's if there is no such node.
fn kind_at(nodes: &[Node], id: NodeId) -> Option<Kind<'_>>
    ensures { option_map kind_of result ≡ branch_kind (node_at (nodes_of nodes.now) id.0) }
{
    match nodes.get(id.0 as usize) {
        Some(node) => kind_of_node(node),
        None => Some(Kind::Null),
    }
}

/// The kinds of the branches, or `None` if one of them is a union.
fn kinds<'a>(
    alloc: Global,
    nodes: &'a [Node],
    branches: &[NodeId],
) -> Result<Option<Vec<Kind<'a>>>, Memory>
    ensures { IfOk result (λ found. AreKinds (nodes_of nodes.now) (ids_of branches.now) found) }
{
    let mut kinds: Vec<Kind<'a>> = Vec::new(alloc);
    for branch in branches {
        match kind_at(nodes, *branch) {
            Some(kind) => kinds.push(kind)?,
            None => return Ok(None),
        }
    }
    Ok(Some(kinds))
}

/// Whether no node occurs twice. Only ids are compared, since comparing long names that are used many
/// times would be slow.
fn are_unique_ids(alloc: Global, branches: &[NodeId]) -> Result<bool, Memory>
    ensures { IfOk result (λ answer. answer ≡ are_distinct (eq_by_cmp nat_cmp) (ids_of branches.now)) }
{
    let mut ids: Vec<u32> = Vec::new(alloc);
    for branch in branches {
        ids.push(branch.0)?;
    }
    are_unique(ids)
}

/// Whether the branches form a valid union.
pub(crate) fn is_union(alloc: Global, nodes: &[Node], branches: &[NodeId]) -> Result<bool, Memory>
    ensures { IfOk result (λ answer. answer ≡ is_good_union (nodes_of nodes.now) (ids_of branches.now)) }
{
    if branches.is_empty() {
        return Ok(false);
    }
    if !are_unique_ids(alloc, branches)? {
        return Ok(false);
    }
    match kinds(alloc, nodes, branches)? {
        Some(kinds) => are_unique_kinds(kinds),
        None => Ok(false),
    }
}

/// Whether no kind occurs twice.
fn are_unique_kinds(kinds: Vec<Kind<'_>>) -> Result<bool, Memory>
    ensures { IfOk result (λ answer. answer ≡ are_distinct same_kind (map kind_of kinds.entry.items)) }
{
    are_unique(kinds)
}
