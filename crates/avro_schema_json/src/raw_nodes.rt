//! What is asked of nodes before their defaults are read.

ghost use Rattle.std.specs.Prelude.{◌≡◌, is_some, option_map};
ghost use Rattle.std.specs.List.{list_all};
ghost use Rattle.avro_schema.specs.Node.{node_at, node_name, branches_of as branches_in};
ghost use Rattle.avro_schema.specs.Seen.{ids_of};
ghost use Rattle.avro_schema.specs.WellFormed.{is_edge as is_good_edge};
ghost use Rattle.avro_schema_json.specs.inside.OwnDefaults.{without_defaults, all_without_defaults, node_or_null};

use crate::raw::RawNode;
use avro_schema::NodeId;

/// The node of an id, if there is one. Elsewhere it counts as null.
pub(crate) fn raw_at<'a, 'b>(raws: &'a [RawNode<'b>], id: NodeId) -> Option<&'a RawNode<'b>>
    ensures { node_or_null result ≡ node_at (all_without_defaults raws.now) id.0 }
{
    raws.get(id.0 as usize)
}

/// The branches of a union.
pub(crate) fn branches<'a>(node: &'a RawNode<'_>) -> Option<&'a [NodeId]>
    ensures { option_map (λ ids. ids_of ids.now) result ≡ branches_in (without_defaults node.now) }
{
    match node {
        RawNode::Union(ids) => Some(ids),
        _ => None,
    }
}

/// The branches of the union of an id.
pub(crate) fn branches_at<'a>(raws: &'a [RawNode<'_>], id: NodeId) -> Option<&'a [NodeId]>
    ensures { option_map (λ ids. ids_of ids.now) result ≡ branches_in (node_at (all_without_defaults raws.now) id.0) }
{
    match raw_at(raws, id) {
        Some(node) => branches(node),
        None => None,
    }
}

/// Whether the node of an id is a record, an enum or a fixed.
fn is_named(raws: &[RawNode], id: NodeId) -> bool
    ensures { result ≡ is_some (node_name (node_at (all_without_defaults raws.now) id.0)) }
{
    matches!(
        raw_at(&*raws, id),
        Some(RawNode::Record(_) | RawNode::Enum(_) | RawNode::Fixed(_))
    )
}

/// Whether an edge stays among the nodes, and goes to a later one or to a record, an enum or a fixed.
fn is_edge(raws: &[RawNode], from: usize, to: NodeId) -> bool
    ensures { result ≡ is_good_edge (all_without_defaults raws.now) from to.0 }
{
    let index = to.0 as usize;
    if index >= raws.len() {
        return false;
    }
    from < index || is_named(raws, to)
}

/// Whether the edges of a union are good.
pub(crate) fn are_edges(raws: &[RawNode], from: usize, branches: &[NodeId]) -> bool
    ensures { result ≡ list_all (is_good_edge (all_without_defaults raws.now) from) (ids_of branches.now) }
{
    for branch in branches {
        if !is_edge(raws, from, *branch) {
            return false;
        }
    }
    true
}
