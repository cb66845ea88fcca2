//! What a datum needs to fail at a pair of nodes, from the comparison of the pair.

ghost use Rattle.std.specs.Prelude.{◌≡◌, ℕ, List, IfOk, is_some, cond, option_map, true};
ghost use Rattle.avro_schema.specs.Node.{Node as SeenNode, node_at, field_ids};
ghost use Rattle.avro_schema.specs.Seen.{node_of, seen_fields};
ghost use Rattle.avro_schema.specs.SeenSchema.{schema_nodes};
ghost use Rattle.avro_schema.specs.WellFormed.{is_schema};
ghost use Rattle.avro_compare.specs.Planned.{AreFor, AreInside, IsComparison};
ghost use Rattle.avro_compare.specs.Resolve.{fields_at};
ghost use Rattle.avro_least.specs.Asked.{Asked, asked, asked_inside};
ghost use Rattle.avro_least.specs.Asks.{AreTaken, IsKept, view_of};
ghost use Rattle.avro_least.specs.SeenAsk.{rows_by, rows_of, theirs_in};
ghost use Rattle.avro_least.specs.inside.Parts.{nodes_of};

use avro_compare::{At, Comparison, Target, first_entry, rest_entries};
use avro_schema::{Field, Memory, Node, NodeId, Schema};
use std::alloc::Global;

/// What a pair of nodes asks of a datum that fails there, as its comparison and the writer's node say it. Nothing is
/// copied for it.
#[derive(Clone, Copy)]
pub(crate) enum Ask<'a> {
    /// Nothing: no datum fails.
    Quiet,
    /// The writer's least datum: each datum fails.
    Whole,
    /// A datum of one node: a symbol that the reader lacks, or bytes that are not UTF-8.
    Lone,
    /// What the writer's node and this node of the reader's ask for.
    Same(NodeId),
    /// An item or a value that fails at these two nodes.
    Part(NodeId, NodeId),
    /// A value that fails in one of the branches of the writer's union.
    Branches(&'a [NodeId]),
    /// One field that fails, beside the least data of the others: the fields that the reader takes, in order, each
    /// with its index.
    Fields(&'a [(usize, At)]),
}

/// A writer's field, and the reader's field that takes its value.
#[derive(Clone, Copy)]
pub(crate) struct FieldAsk {
    /// The node of the writer's field.
    pub(crate) node: NodeId,
    /// The node of the reader's field, if there is one.
    pub(crate) theirs: Option<NodeId>,
}

/// The node of the reader's field that a part is for, if there is one.
fn theirs_in(part: Option<At>) -> Option<NodeId>
    ensures { option_map (λ id. id.0) result ≡ theirs_in part }
{
    match part {
        Some(At::Pair(_, theirs)) => Some(theirs),
        Some(At::Ignored) => None,
        None => None,
    }
}

/// Each of the writer's fields, with the reader's field that takes its value.
fn rows(alloc: Global, writer: &[Field], parts: &[(usize, At)]) -> Result<Vec<FieldAsk>, Memory>
    ensures { IfOk result (λ rows. rows_of rows.items ≡ rows_by parts.now 0 (field_ids (seen_fields writer.now))) }
{
    let mut rows = Vec::new(alloc);
    let mut left = parts;
    for i in 0..writer.len() {
        let row = FieldAsk {
            node: writer[i].node,
            theirs: theirs_in(first_entry(left, i)),
        };
        left = rest_entries(left, i);
        rows.push(row)?;
    }
    Ok(rows)
}

/// What two records ask for.
fn ask_fields(pair: &Comparison) -> Ask<'_>
    ensures shown { (ids : List ℕ) → view_of ids result ≡ cond (is_some pair.now.missing) Asked.whole (Asked.fields (rows_by pair.now.fields.items 0 ids)) }
    ensures taken { (n q : SeenNode) → AreFor (fields_at n) (fields_at q) pair.now.fields.items → AreTaken n q result }
{
    if pair.missing.is_some() {
        return Ask::Whole;
    }
    Ask::Fields(&pair.fields)
}

/// What two enums ask for.
fn ask_symbols(pair: &Comparison) -> Ask<'_>
    ensures shown { (ids : List ℕ) → view_of ids result ≡ cond (is_some pair.now.lacking) Asked.lone Asked.quiet }
    ensures taken { (n q : SeenNode) → AreTaken n q result }
{
    if pair.lacks_symbol() {
        Ask::Lone
    } else {
        Ask::Quiet
    }
}

/// What two matching nodes ask for, neither of which is a union.
fn ask_inside<'a>(w: &Node, r: &Node, pair: &'a Comparison) -> Ask<'a>
    requires { AreInside (node_of w.now) (node_of r.now) pair.now }
    ensures shown { view_of (nodes_of (node_of w.now)) result ≡ asked_inside (node_of w.now) (node_of r.now) }
    ensures taken { AreTaken (node_of w.now) (node_of r.now) result }
{
    match w {
        Node::Bytes => if matches!(r, Node::Str) {
            Ask::Lone
        } else {
            Ask::Quiet
        },
        Node::Array(a) => match r {
            Node::Array(b) => Ask::Part(*a, *b),
            _ => Ask::Quiet,
        },
        Node::Map(a) => match r {
            Node::Map(b) => Ask::Part(*a, *b),
            _ => Ask::Quiet,
        },
        Node::Record(_) => match r {
            Node::Record(_) => ask_fields(pair),
            _ => Ask::Quiet,
        },
        Node::Enum(_) => match r {
            Node::Enum(_) => ask_symbols(pair),
            _ => Ask::Quiet,
        },
        _ => Ask::Quiet,
    }
}

/// What a pair of nodes asks for, from its comparison; no name is compared here. An id that a schema does not
/// have counts as a null.
pub(crate) fn ask_of_pair<'a>(writer: &'a Schema, reader: &Schema, pair: &'a Comparison) -> Ask<'a>
    requires { IsComparison (schema_nodes writer.now) (schema_nodes reader.now) pair.now }
    ensures shown { view_of (nodes_of (node_at (schema_nodes writer.now) pair.now.w.0)) result
        ≡ asked (schema_nodes writer.now) (schema_nodes reader.now) (node_at (schema_nodes writer.now) pair.now.w.0) (node_at (schema_nodes reader.now) pair.now.r.0) }
    ensures kept { IsKept result (asked (schema_nodes writer.now) (schema_nodes reader.now) (node_at (schema_nodes writer.now) pair.now.w.0) (node_at (schema_nodes reader.now) pair.now.r.0)) }
    ensures formed { is_schema (schema_nodes reader.now) ≡ true }
{
    let from = writer.get(pair.w);
    let to = reader.get(pair.r);
    ask_nodes(writer, reader, from, to, pair)
}

/// The same, given the two nodes.
fn ask_nodes<'a>(
    writer: &Schema,
    reader: &Schema,
    from: &'a Node,
    to: &Node,
    pair: &'a Comparison,
) -> Ask<'a>
    requires pair { IsComparison (schema_nodes writer.now) (schema_nodes reader.now) pair.now }
    requires from { node_of from.now ≡ node_at (schema_nodes writer.now) pair.now.w.0 }
    requires to { node_of to.now ≡ node_at (schema_nodes reader.now) pair.now.r.0 }
    ensures shown { view_of (nodes_of (node_of from.now)) result ≡ asked (schema_nodes writer.now) (schema_nodes reader.now) (node_of from.now) (node_of to.now) }
    ensures taken { AreTaken (node_of from.now) (node_of to.now) result }
{
    match from {
        Node::Union(ids) => Ask::Branches(ids),
        _ => match pair.target {
            Target::Fault(_) => Ask::Whole,
            Target::To(Some(_), q) => Ask::Same(q),
            Target::To(None, _) => ask_inside(from, to, pair),
        },
    }
}

/// Each of the fields of a writer's node, with the reader's field that takes its value. Only a record has fields.
pub(crate) fn rows_of_node(
    alloc: Global,
    node: &Node,
    parts: &[(usize, At)],
) -> Result<Vec<FieldAsk>, Memory>
    ensures { IfOk result (λ rows. rows_of rows.items ≡ rows_by parts.now 0 (nodes_of (node_of node.now))) }
{
    match node {
        Node::Record(record) => rows(alloc, &record.fields, parts),
        _ => Ok(Vec::new(alloc)),
    }
}
