//! Reading records, within the cycle that reads a node.

ghost use Rattle.std.specs.Prelude.{◌≡◌, ℕ, IfOk, List, None};
ghost use Rattle.avro_name.specs.Name.{Name};
ghost use Rattle.avro_schema.specs.Empty.{IsEmptyDatum};
ghost use Rattle.avro_schema.specs.Node.{Node as SeenNode, node_at};
ghost use Rattle.avro_schema.specs.Seen.{seen_fields};
ghost use Rattle.avro_schema.specs.SeenSchema.{schema_nodes};
ghost use Rattle.avro_binary.specs.CursorReads.{ReadsNode};
ghost use Rattle.avro_binary.specs.Making.{Made};
ghost use Rattle.avro_binary.specs.inside.PassesAtOnce.{PassesAtOnce};

use crate::make::Make;
use crate::reading::enter_record;
use crate::reading::pieces::take_pieces;
use avro_cursor::{Cursor, ReadError};
use avro_schema::{Empty, Field, NodeId, Schema};
use std::alloc::Global;

/// Reads a record: at once where its maker needs no parts of it.
#[cycle(reading)]
#[inline(never)]
pub(crate) fn read_record<M: Make>(
    alloc: Global,
    schema: &Schema,
    id: NodeId,
    fields: &[Field],
    cursor: &mut Cursor<'_>,
    maker: &mut M,
    at: M::At,
) -> Result<M::Out, ReadError>
    ensures reads { (name : Name) (aliases : List Name) → node_at (schema_nodes schema.now) id.0 ≡ SeenNode.record_of name aliases (seen_fields fields.now)
        → ReadsNode (Made M.keeps (λ m. M.stands_for m (schema_nodes schema.now) (node_at (schema_nodes schema.now) id.0) at) maker.old maker.new) (schema_nodes schema.now) (node_at (schema_nodes schema.now) id.0) cursor.old cursor.new result }
    ensures stays { (front : List ℕ) → M.begins maker.old front → M.begins maker.new front }
{
    match pass_at_once(alloc, schema, id, fields, cursor, maker, at)? {
        Some(out) => Ok(out),
        None => enter_record(alloc, schema, id, fields, cursor, maker, at),
    }
}

/// Passes a record at once: where it has no bytes, or where its maker takes the encodings of its fields.
#[inline(always)]
fn pass_at_once<M: Make>(
    alloc: Global,
    schema: &Schema,
    id: NodeId,
    fields: &[Field],
    cursor: &mut Cursor<'_>,
    maker: &mut M,
    at: M::At,
) -> Result<Option<M::Out>, ReadError>
    ensures level { IfOk result (λ o. o ≡ None → cursor.new.depth ≡ cursor.old.depth) }
    ensures passes { (name : Name) (aliases : List Name) → node_at (schema_nodes schema.now) id.0 ≡ SeenNode.record_of name aliases (seen_fields fields.now)
        → PassesAtOnce M.keeps (λ m. M.stands_for m (schema_nodes schema.now) (node_at (schema_nodes schema.now) id.0) at) (schema_nodes schema.now) (node_at (schema_nodes schema.now) id.0) maker.old maker.new cursor.old cursor.new result }
    ensures stays { (front : List ℕ) → M.begins maker.old front → M.begins maker.new front }
{
    match pass_empty(alloc, schema, id, cursor, maker, at)? {
        Some(out) => Ok(Some(out)),
        None => take_pieces(alloc, schema, fields, cursor, maker, at),
    }
}

/// Passes the datum of a node without bytes, where one is known and made at once.
#[inline(always)]
fn pass_empty<M: Make>(
    alloc: Global,
    schema: &Schema,
    id: NodeId,
    cursor: &mut Cursor<'_>,
    maker: &mut M,
    at: M::At,
) -> Result<Option<M::Out>, ReadError>
    ensures passes { PassesAtOnce M.keeps (λ m. M.stands_for m (schema_nodes schema.now) (node_at (schema_nodes schema.now) id.0) at) (schema_nodes schema.now) (node_at (schema_nodes schema.now) id.0) maker.old maker.new cursor.old cursor.new result }
    ensures stays { (front : List ℕ) → M.begins maker.old front → M.begins maker.new front }
{
    match schema.empty(id) {
        Some(empty) => make_empty(alloc, schema, id, empty, cursor, maker, at),
        None => Ok(None),
    }
}

/// Makes the datum of a node without bytes, and passes it, unless its maker needs its parts.
#[inline(never)]
fn make_empty<M: Make>(
    alloc: Global,
    schema: &Schema,
    id: NodeId,
    empty: Empty,
    cursor: &mut Cursor<'_>,
    maker: &mut M,
    at: M::At,
) -> Result<Option<M::Out>, ReadError>
    ensures passes { IsEmptyDatum (schema_nodes schema.now) (node_at (schema_nodes schema.now) id.0) empty.nodes empty.depth
        → PassesAtOnce M.keeps (λ m. M.stands_for m (schema_nodes schema.now) (node_at (schema_nodes schema.now) id.0) at) (schema_nodes schema.now) (node_at (schema_nodes schema.now) id.0) maker.old maker.new cursor.old cursor.new result }
    ensures stays { (front : List ℕ) → M.begins maker.old front → M.begins maker.new front }
{
    // Its contract says that the schema is well formed, which the laws of faults ask for.
    let _count = schema.len();
    match maker.empty(alloc, at)? {
        Some(out) => {
            cursor.pass_empty(empty.nodes, empty.depth)?;
            Ok(Some(out))
        }
        None => Ok(None),
    }
}
