//! Passing records whose makers take the encodings of their fields.

ghost use Rattle.std.specs.Prelude.{◌≡◌, ℕ, IfOk, List, None, true};
ghost use Rattle.avro_name.specs.Name.{Name};
ghost use Rattle.avro_schema.specs.Node.{Node as SeenNode, node_at};
ghost use Rattle.avro_schema.specs.Seen.{seen_fields, values_from};
ghost use Rattle.avro_schema.specs.SeenSchema.{schema_nodes};
ghost use Rattle.avro_schema.specs.Value.{Value};
ghost use Rattle.avro_binary.specs.CursorReads.{FindsValue, outside, left_node};
ghost use Rattle.avro_binary.specs.Pieces.{ArePieces};
ghost use Rattle.avro_binary.specs.inside.PassesAtOnce.{PassesAtOnce};

use crate::leaves::next_leaf;
use crate::make::Make;
use avro_cursor::{Cursor, ReadError};
use avro_schema::{Field, Node, NodeId, Schema};
use std::alloc::{AllocError, Global};

/// Passes a record and makes it from the encodings of its fields, where its maker takes them and no field has parts.
#[inline(always)]
pub(crate) fn take_pieces<'c, M: Make>(
    alloc: Global,
    schema: &Schema,
    fields: &[Field],
    cursor: &mut Cursor<'c>,
    maker: &mut M,
    at: M::At,
) -> Result<Option<M::Out>, ReadError>
    ensures level { IfOk result (λ o. o ≡ None → cursor.new.depth ≡ cursor.old.depth) }
    ensures passes { (name : Name) (aliases : List Name) → PassesAtOnce M.keeps (λ m. M.stands_for m (schema_nodes schema.now) (SeenNode.record_of name aliases (seen_fields fields.now)) at) (schema_nodes schema.now) (SeenNode.record_of name aliases (seen_fields fields.now)) maker.old maker.new cursor.old cursor.new result }
    ensures stays { (front : List ℕ) → M.begins maker.old front → M.begins maker.new front }
{
    match maker.ends(alloc, at) {
        Some(ends) => make_of_pieces(alloc, schema, fields, ends, cursor, maker, at),
        None => Ok(None),
    }
}

/// The same by a list for the ends of the fields.
#[inline(never)]
fn make_of_pieces<'c, M: Make>(
    alloc: Global,
    schema: &Schema,
    fields: &[Field],
    ends: Vec<usize>,
    cursor: &mut Cursor<'c>,
    maker: &mut M,
    at: M::At,
) -> Result<Option<M::Out>, ReadError>
    ensures level { IfOk result (λ o. o ≡ None → cursor.new.depth ≡ cursor.old.depth) }
    ensures passes { (name : Name) (aliases : List Name) → PassesAtOnce M.keeps (λ m. M.stands_for m (schema_nodes schema.now) (SeenNode.record_of name aliases (seen_fields fields.now)) at) (schema_nodes schema.now) (SeenNode.record_of name aliases (seen_fields fields.now)) maker.old maker.new cursor.old cursor.new result }
    ensures stays { (front : List ℕ) → M.begins maker.old front → M.begins maker.new front }
{
    let mut ends = ends;
    let mut ahead = cursor.ahead();
    if !pass_record(schema, fields, &mut ahead, &mut ends)? {
        return Ok(None);
    }
    match maker.pieces(alloc, at, cursor.rest(), ends)? {
        Some(out) => {
            *cursor = ahead;
            Ok(Some(out))
        }
        None => Ok(None),
    }
}

/// Passes a record none of whose fields has parts, says whether it could, and lists where the encoding of each field ends.
#[inline(never)]
fn pass_record(
    schema: &Schema,
    fields: &[Field],
    cursor: &mut Cursor<'_>,
    ends: &mut Vec<usize>,
) -> Result<bool, AllocError>
    ensures { (name : Name) (aliases : List Name) → IfOk result (λ passed. passed ≡ true
        → (vs : List Value) × FindsValue (schema_nodes schema.now) (SeenNode.record_of name aliases (seen_fields fields.now)) cursor.old cursor.new (Value.record_of (values_from vs))
        × ArePieces vs cursor.old.bytes ends.new.items) }
{
    match cursor.enter() {
        Ok(()) => {}
        Err(_) => return Ok(false),
    }
    let passed = pass_fields(schema, fields, cursor, ends)?;
    cursor.leave();
    Ok(passed)
}

/// Passes a datum for each field, and lists where each ends.
#[inline(always)]
fn pass_fields(
    schema: &Schema,
    fields: &[Field],
    cursor: &mut Cursor<'_>,
    ends: &mut Vec<usize>,
) -> Result<bool, AllocError>
    ensures { (name : Name) (aliases : List Name) → IfOk result (λ passed. passed ≡ true
        → (vs : List Value) × FindsValue (schema_nodes schema.now) (SeenNode.record_of name aliases (seen_fields fields.now)) (outside cursor.old) (left_node cursor.new) (Value.record_of (values_from vs))
        × ArePieces vs cursor.old.bytes ends.new.items) }
{
    let start = cursor.offset();
    ends.clear();
    ends.push(0)?;
    for field in fields {
        if !pass_leaf(schema, field.node, cursor) {
            return Ok(false);
        }
        ends.push(cursor.offset() - start)?;
    }
    Ok(true)
}

/// Passes a datum of a node without parts, and says whether it could.
#[inline(always)]
fn pass_leaf(schema: &Schema, id: NodeId, cursor: &mut Cursor<'_>) -> bool
    ensures { result ≡ true → (v : Value) × FindsValue (schema_nodes schema.now) (node_at (schema_nodes schema.now) id.0) cursor.old cursor.new v }
{
    match schema.get(id) {
        Node::Array(_) | Node::Map(_) | Node::Union(_) | Node::Record(_) => false,
        node => next_leaf(node, cursor).is_ok(),
    }
}
