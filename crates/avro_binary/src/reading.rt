ghost use Rattle.std.specs.Prelude.{◌≡◌, ℕ, List, [], ◌++◌, replicate, true, false};
ghost use Rattle.avro_name.specs.Name.{Name};
ghost use Rattle.avro_schema.specs.Fits.{LimitValues};
ghost use Rattle.avro_schema.specs.Node.{Node as SeenNode, node_at};
ghost use Rattle.avro_schema.specs.Seen.{ids_of, seen_fields};
ghost use Rattle.avro_schema.specs.SeenSchema.{schema_nodes};
ghost use Rattle.avro_schema.specs.Value.{Value};
ghost use Rattle.avro_binary.specs.CursorReads.{ReadsNode, ReadsRun, ValuesRun, value_breaks, outside, left_node};
ghost use Rattle.avro_binary.specs.Making.{Made};
ghost use Rattle.avro_binary.specs.Places.{HoldsNoUnion};

mod fields;
mod maps;
mod pieces;
mod records;

use crate::leaves::read_leaf;
use crate::make::Make;
use crate::reading::fields::read_parts;
use crate::reading::maps::read_map;
use crate::reading::records::read_record;
use avro_cursor::{Cursor, ReadError};
use avro_schema::{Field, Node, NodeId, Schema};
use std::alloc::Global;

/// Reads a datum of the node of an id through a cursor: what the cursor passes is an encoding of a datum that the result stands for.
/// An id without a node is that of null.
///
/// # Errors
///
/// A fault of the bytes; `OutOfMemory`.
#[cycle(reading)]
#[inline(always)]
pub fn read_at<M: Make>(
    alloc: Global,
    schema: &Schema,
    id: NodeId,
    cursor: &mut Cursor<'_>,
    maker: &mut M,
    at: M::At,
) -> Result<M::Out, ReadError>
    ensures reads { ReadsNode (Made M.keeps (λ m. M.stands_for m (schema_nodes schema.now) (node_at (schema_nodes schema.now) id.0) at) maker.old maker.new) (schema_nodes schema.now) (node_at (schema_nodes schema.now) id.0) cursor.old cursor.new result }
    ensures stays { (front : List ℕ) → M.begins maker.old front → M.begins maker.new front }
{
    match schema.get(id) {
        Node::Array(items) => read_array(alloc, schema, *items, cursor, maker, at),
        Node::Map(values) => read_map(alloc, schema, *values, cursor, maker, at),
        Node::Union(branches) => read_union(alloc, schema, branches, cursor, maker, at),
        Node::Record(record) => read_record(alloc, schema, id, &record.fields, cursor, maker, at),
        node => read_leaf(alloc, node, cursor, maker, at),
    }
}

/// Reads an array.
#[cycle(reading)]
#[inline(never)]
fn read_array<M: Make>(
    alloc: Global,
    schema: &Schema,
    id: NodeId,
    cursor: &mut Cursor<'_>,
    maker: &mut M,
    at: M::At,
) -> Result<M::Out, ReadError>
    ensures reads { ReadsNode (Made M.keeps (λ m. M.stands_for m (schema_nodes schema.now) (SeenNode.array id.0) at) maker.old maker.new) (schema_nodes schema.now) (SeenNode.array id.0) cursor.old cursor.new result }
    ensures stays { (front : List ℕ) → M.begins maker.old front → M.begins maker.new front }
{
    cursor.enter()?;
    let out = read_item_blocks(alloc, schema, id, cursor, maker, at)?;
    cursor.leave();
    Ok(out)
}

/// Reads the blocks of an array. A count reserves no memory: items are kept one by one.
#[cycle(reading)]
#[inline(always)]
fn read_item_blocks<M: Make>(
    alloc: Global,
    schema: &Schema,
    id: NodeId,
    cursor: &mut Cursor<'_>,
    maker: &mut M,
    at: M::At,
) -> Result<M::Out, ReadError>
    ensures reads { ReadsNode (Made M.keeps (λ m. M.stands_for m (schema_nodes schema.now) (SeenNode.array id.0) at) maker.old maker.new) (schema_nodes schema.now) (SeenNode.array id.0) (outside cursor.old) (left_node cursor.new) result }
    ensures stays { (front : List ℕ) → M.begins maker.old front → M.begins maker.new front }
{
    // Its contract says that fewer than 2^32 nodes are left, so that no count of parts is too large.
    let _nodes = cursor.nodes();
    let mut items = maker.items(alloc, at)?;
    while let Some(block) = cursor.block()? {
        read_items(alloc, schema, id, block.count(), cursor, maker, &mut items)?;
        cursor.end_block(&block)?;
    }
    Ok(maker.array(alloc, items)?)
}

/// Reads a number of items, and adds them to those before.
#[cycle(reading)]
#[inline(always)]
fn read_items<M: Make>(
    alloc: Global,
    schema: &Schema,
    id: NodeId,
    count: u32,
    cursor: &mut Cursor<'_>,
    maker: &mut M,
    items: &mut M::Items,
) -> Result<(), ReadError>
    ensures reads { (limits : LimitValues) → limits.depth ≡ cursor.old.depth → limits.blob ≡ cursor.old.blob → (let nodes = schema_nodes schema.now in let n = node_at nodes id.0 in
        ReadsRun (ValuesRun nodes limits n) (value_breaks nodes limits n)
        (λ vs after. M.keeps maker.old maker.new × ((at : M.At) (us : List Value) → M.items_stand_for maker.old nodes id.0 at items.old us → M.items_stand_for maker.new nodes id.0 at items.new (us ++ vs))) count [] cursor.old cursor.new result) }
    ensures stays { (front : List ℕ) → M.begins maker.old front → M.begins maker.new front }
{
    // Its contract says that the schema is well formed, which the laws of faults ask for.
    let _count = schema.len();
    for done in 0..count {
        let left = cursor.left();
        let nodes = cursor.nodes();
        let at = maker.item_at(items, id);
        let value = read_at(alloc, schema, id, cursor, maker, at)?;
        let is_empty = cursor.left() == left;
        let size = nodes - cursor.nodes();
        let others = count - 1 - done;
        let alike = add_others(is_empty, maker, items, &value, others);
        maker.item(alloc, items, value)?;
        if alike {
            return cursor.count_again(size, others);
        }
    }
    Ok(())
}

/// Adds the other items of a block where the first of them took no bytes, so that they are the same, and the maker needs no more than their number.
#[inline(always)]
fn add_others<M: Make>(
    is_empty: bool,
    maker: &M,
    items: &mut M::Items,
    value: &M::Out,
    others: u32,
) -> bool
    ensures empty { result ≡ true → is_empty ≡ true }
    ensures added { (nodes : List SeenNode) (id : ℕ) (at : M.At) (vs : List Value) (v : Value) → result ≡ true → M.items_stand_for maker.now nodes id at items.old vs
        → M.stands_for maker.now nodes (node_at nodes id) (M.item_at maker.now items.old id) value.now v
        → M.items_stand_for maker.now nodes id at items.new (vs ++ replicate others v) }
    ensures next { (id : ℕ) → M.item_at maker.now items.new id ≡ M.item_at maker.now items.old id }
    ensures none { result ≡ false → items.new ≡ items.old }
{
    if is_empty {
        return maker.repeat(items, value, others);
    }
    false
}

/// Reads a union.
#[cycle(reading)]
#[inline(never)]
fn read_union<M: Make>(
    alloc: Global,
    schema: &Schema,
    branches: &[NodeId],
    cursor: &mut Cursor<'_>,
    maker: &mut M,
    at: M::At,
) -> Result<M::Out, ReadError>
    ensures reads { HoldsNoUnion (schema_nodes schema.now) (ids_of branches.now)
        → ReadsNode (Made M.keeps (λ m. M.stands_for m (schema_nodes schema.now) (SeenNode.union (ids_of branches.now)) at) maker.old maker.new) (schema_nodes schema.now) (SeenNode.union (ids_of branches.now)) cursor.old cursor.new result }
    ensures stays { (front : List ℕ) → M.begins maker.old front → M.begins maker.new front }
{
    cursor.enter()?;
    let out = read_branch(alloc, schema, branches, cursor, maker, at)?;
    cursor.leave();
    Ok(out)
}

/// Reads the index of a branch and a datum of the branch.
#[cycle(reading)]
#[inline(always)]
fn read_branch<M: Make>(
    alloc: Global,
    schema: &Schema,
    branches: &[NodeId],
    cursor: &mut Cursor<'_>,
    maker: &mut M,
    at: M::At,
) -> Result<M::Out, ReadError>
    ensures reads { HoldsNoUnion (schema_nodes schema.now) (ids_of branches.now)
        → ReadsNode (Made M.keeps (λ m. M.stands_for m (schema_nodes schema.now) (SeenNode.union (ids_of branches.now)) at) maker.old maker.new) (schema_nodes schema.now) (SeenNode.union (ids_of branches.now)) (outside cursor.old) (left_node cursor.new) result }
    ensures stays { (front : List ℕ) → M.begins maker.old front → M.begins maker.new front }
{
    let index = cursor.index(branches.len())?;
    let node = branches[index];
    let part = maker.branch_at(at, index as u32, node);
    let value = read_at(alloc, schema, node, cursor, maker, part)?;
    Ok(maker.branch(alloc, index as u32, value)?)
}

/// Enters a record, reads a datum for each field, and leaves it.
#[cycle(reading)]
#[inline(always)]
fn enter_record<M: Make>(
    alloc: Global,
    schema: &Schema,
    id: NodeId,
    fields: &[Field],
    cursor: &mut Cursor<'_>,
    maker: &mut M,
    at: M::At,
) -> Result<M::Out, ReadError>
    ensures reads { (name : Name) (aliases : List Name) → node_at (schema_nodes schema.now) id.0 ≡ SeenNode.record_of name aliases (seen_fields fields.now)
        → ReadsNode (Made M.keeps (λ m. M.stands_for m (schema_nodes schema.now) (SeenNode.record_of name aliases (seen_fields fields.now)) at) maker.old maker.new) (schema_nodes schema.now) (SeenNode.record_of name aliases (seen_fields fields.now)) cursor.old cursor.new result }
    ensures stays { (front : List ℕ) → M.begins maker.old front → M.begins maker.new front }
{
    cursor.enter()?;
    let out = read_parts(alloc, schema, id, fields, cursor, maker, at)?;
    cursor.leave();
    Ok(out)
}
