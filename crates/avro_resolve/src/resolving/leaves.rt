//! What leaves are for a reader.

ghost use Rattle.std.specs.Prelude.{◌≡◌, ℕ, IfOk, List, Ok, OnOk, true};
ghost use Rattle.avro_schema.specs.Value.{Value};
ghost use Rattle.avro_schema.specs.Fits.{fits};
ghost use Rattle.avro_schema.specs.Node.{Node as SeenNode, node_at};
ghost use Rattle.avro_schema.specs.SeenSchema.{schema_nodes};
ghost use Rattle.avro_binary.specs.LeafValue.{leaf_value};
ghost use Rattle.avro_binary.specs.Places.{AreTold, in_branch, placed};
ghost use Rattle.avro_resolve.specs.inside.Guided.{IsLeafFor, LeadsTo, MadeAs, StandsAs, leaf_as, of_node};
ghost use Rattle.avro_compare.specs.Pairs.{Tells};
ghost use Rattle.avro_compare.specs.Resolve.{bytes_as as kept_bytes, int_as as kept_int, string_as as kept_string};

use crate::plan::plan_ref::PlanRef;
use crate::resolving::failing::fault_apart;
use crate::resolving::guided::{Made, Part};
use avro_binary::{Leaf, Make, Place};
use avro_compare::{At, FaultKind, Target};
use avro_cursor::text_of;
use avro_schema::{Node, NodeId, Schema};
use std::alloc::{AllocError, Global};

/// What is made of a writer's leaf.
#[inline(always)]
pub(crate) fn make_leaf<M: Make<At = Place>>(
    alloc: Global,
    maker: &mut M,
    plan: &PlanRef<'_>,
    part: Part,
    leaf: Leaf<'_>,
) -> Result<Made<M::Out>, AllocError>
    ensures kept { OnOk result (M.keeps maker.old maker.new) }
    ensures stands { (nodes : List SeenNode) (n : SeenNode) → AreTold M.branch_at M.item_at M.entry_at M.field_at → fits nodes n (leaf_value leaf.entry) ≡ true
        → IfOk result (λ made. StandsAs (M.stands_for maker.new) (schema_nodes plan.now.0) (schema_nodes plan.now.1) nodes n part.at made (leaf_value leaf.entry)) }
{
    let At::Pair(w, r) = part.at else {
        return Ok(Made::Nothing);
    };
    let index = plan.index_of(part);
    match plan.target(index, w, r) {
        Target::Fault(kind) => {
            let lost = fault_apart(alloc, kind)?;
            Ok(Made::Faulty(lost))
        }
        Target::To(branch, q) => match leaf_for(plan, plan.index_to(index, branch), w, q, leaf) {
            Ok(taken) => {
                let out = maker.leaf(alloc, Place { node: q, branch }, taken)?;
                into_branch(alloc, maker, branch, out)
            }
            Err(kind) => {
                let bad = fault_apart(alloc, kind)?;
                Ok(Made::Faulty(bad))
            }
        },
    }
}

/// What was made of a datum in its place, as data of the reader's union that has the branch, where there is one.
#[inline(always)]
pub(crate) fn into_branch<M: Make<At = Place>>(
    alloc: Global,
    maker: &mut M,
    branch: Option<u32>,
    out: M::Out,
) -> Result<Made<M::Out>, AllocError>
    ensures kept { OnOk result (M.keeps maker.old maker.new) }
    ensures stands { (nodes : List SeenNode) (r q : ℕ) (v : Value) → AreTold M.branch_at M.item_at M.entry_at M.field_at → LeadsTo nodes r branch q → M.stands_for maker.old nodes (node_at nodes q) (placed branch q) out v
        → IfOk result (λ made. MadeAs (of_node (M.stands_for maker.new) nodes r) made (Ok (in_branch branch v))) }
{
    match branch {
        Some(branch) => {
            let outer = maker.branch(alloc, branch, out)?;
            Ok(Made::Good(outer))
        }
        None => Ok(Made::Good(out)),
    }
}

/// What a writer's leaf is for a reader's node that its own leads to: a long for an int, bytes for a text or the text whose
/// UTF-8 bytes are, and the reader's symbol. The pair of the two nodes may be kept at an index.
#[inline(always)]
fn leaf_for<'d>(
    plan: &PlanRef<'_>,
    index: u32,
    w: NodeId,
    q: NodeId,
    leaf: Leaf<'d>,
) -> Result<Leaf<'d>, FaultKind>
    ensures { IsLeafFor (leaf_as (node_at (schema_nodes plan.now.0) w.0) (leaf_value leaf.entry) (node_at (schema_nodes plan.now.1) q.0)) result }
{
    let reader = plan.reader();
    match leaf {
        Leaf::Null => Ok(Leaf::Null),
        Leaf::Boolean(value) => Ok(Leaf::Boolean(value)),
        Leaf::Int(value) => Ok(int_for(reader, q, value)),
        Leaf::Long(value) => Ok(Leaf::Long(value)),
        Leaf::Bytes(content) => bytes_for(reader, q, content),
        Leaf::Text(text) => Ok(text_for(reader, q, text)),
        Leaf::Fixed(content) => Ok(Leaf::Fixed(content)),
        Leaf::Symbol(symbol) => match plan.symbol(index, w, symbol, q) {
            Some(taken) => Ok(Leaf::Symbol(taken)),
            None => Err(FaultKind::NoSymbol),
        },
    }
}

/// What a reader's node takes of an int: a long where it is one.
#[inline(always)]
fn int_for<'d>(reader: &Schema, q: NodeId, value: i32) -> Leaf<'d>
    ensures { kept_int value (node_at (schema_nodes reader.now) q.0) ≡ Ok (leaf_value result) }
{
    if is_long(reader, q) {
        return Leaf::Long(i64::from(value));
    }
    Leaf::Int(value)
}

/// What a reader's node takes of bytes: the text whose UTF-8 they are where it is a string.
#[inline(always)]
fn bytes_for<'d>(reader: &Schema, q: NodeId, content: &'d [u8]) -> Result<Leaf<'d>, FaultKind>
    ensures { IsLeafFor (kept_bytes content.now (node_at (schema_nodes reader.now) q.0)) result }
{
    if !is_text(reader, q) {
        return Ok(Leaf::Bytes(content));
    }
    match text_of(content) {
        Ok(text) => Ok(Leaf::Text(text)),
        Err(_) => Err(FaultKind::NotUtf8),
    }
}

/// What a reader's node takes of a text: its UTF-8 where it is bytes.
#[inline(always)]
fn text_for<'d>(reader: &Schema, q: NodeId, text: &'d str) -> Leaf<'d>
    ensures { kept_string text.now (node_at (schema_nodes reader.now) q.0) ≡ Ok (leaf_value result) }
{
    if is_bytes(reader, q) {
        return Leaf::Bytes(text.as_bytes());
    }
    Leaf::Text(text)
}

/// Whether a node is a long.
#[inline(always)]
fn is_long(schema: &Schema, id: NodeId) -> bool
    ensures { Tells result (node_at (schema_nodes schema.now) id.0) SeenNode.long }
{
    matches!(schema.get(id), Node::Long)
}

/// Whether a node is a string.
#[inline(always)]
fn is_text(schema: &Schema, id: NodeId) -> bool
    ensures { Tells result (node_at (schema_nodes schema.now) id.0) SeenNode.string }
{
    matches!(schema.get(id), Node::Str)
}

/// Whether a node is bytes.
#[inline(always)]
fn is_bytes(schema: &Schema, id: NodeId) -> bool
    ensures { Tells result (node_at (schema_nodes schema.now) id.0) SeenNode.bytes }
{
    matches!(schema.get(id), Node::Bytes)
}
