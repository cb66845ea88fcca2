//! Reading maps, within the cycle that reads a node.

ghost use Rattle.std.specs.Prelude.{◌≡◌, List, ℕ, ◌++◌, true, bytes_eq};
ghost use Rattle.avro_schema.specs.Distinct.{are_distinct};
ghost use Rattle.avro_schema.specs.Fits.{LimitValues};
ghost use Rattle.avro_schema.specs.Node.{Node as SeenNode, node_at};
ghost use Rattle.avro_schema.specs.SeenSchema.{schema_nodes};
ghost use Rattle.avro_schema.specs.Value.{Value};
ghost use Rattle.avro_binary.specs.CursorReads.{ReadsNode, ReadsRun, EntriesRun, entry_breaks, outside, left_node};
ghost use Rattle.avro_cursor.specs.KeySet.{key_set};
ghost use Rattle.avro_binary.specs.Making.{Made};

use crate::make::Make;
use crate::reading::read_at;
use avro_cursor::{Cursor, Keys, ReadError};
use avro_schema::{NodeId, Schema};
use std::alloc::Global;

/// Reads a map.
#[cycle(reading)]
#[inline(never)]
pub(crate) fn read_map<M: Make>(
    alloc: Global,
    schema: &Schema,
    id: NodeId,
    cursor: &mut Cursor<'_>,
    maker: &mut M,
    at: M::At,
) -> Result<M::Out, ReadError>
    ensures reads { ReadsNode (Made M.keeps (λ m. M.stands_for m (schema_nodes schema.now) (SeenNode.map_of id.0) at) maker.old maker.new) (schema_nodes schema.now) (SeenNode.map_of id.0) cursor.old cursor.new result }
    ensures stays { (front : List ℕ) → M.begins maker.old front → M.begins maker.new front }
{
    cursor.enter()?;
    let out = read_entry_blocks(alloc, schema, id, cursor, maker, at)?;
    cursor.leave();
    Ok(out)
}

/// Reads the blocks of a map. A count reserves no memory: entries are kept one by one.
#[cycle(reading)]
#[inline(always)]
fn read_entry_blocks<M: Make>(
    alloc: Global,
    schema: &Schema,
    id: NodeId,
    cursor: &mut Cursor<'_>,
    maker: &mut M,
    at: M::At,
) -> Result<M::Out, ReadError>
    ensures reads { ReadsNode (Made M.keeps (λ m. M.stands_for m (schema_nodes schema.now) (SeenNode.map_of id.0) at) maker.old maker.new) (schema_nodes schema.now) (SeenNode.map_of id.0) (outside cursor.old) (left_node cursor.new) result }
    ensures stays { (front : List ℕ) → M.begins maker.old front → M.begins maker.new front }
{
    // Its contract says that fewer than 2^32 nodes are left, so that no count of parts is too large.
    let _nodes = cursor.nodes();
    let mut keys = Keys::new(alloc);
    let mut entries = maker.entries(alloc, at)?;
    while let Some(head) = cursor.block()? {
        let count = head.count();
        read_entries(
            alloc,
            schema,
            id,
            count,
            cursor,
            &mut keys,
            maker,
            &mut entries,
        )?;
        cursor.end_block(&head)?;
    }
    Ok(maker.map(alloc, entries)?)
}

/// Reads a number of entries, none of whose keys is among those before it, and adds them to those before.
#[cycle(reading)]
#[inline(always)]
fn read_entries<'a, M: Make>(
    alloc: Global,
    schema: &Schema,
    id: NodeId,
    count: u32,
    cursor: &mut Cursor<'a>,
    keys: &mut Keys<'a>,
    maker: &mut M,
    entries: &mut M::Entries,
) -> Result<(), ReadError>
    ensures reads { (limits : LimitValues) (before : List (List ℕ)) → limits.depth ≡ cursor.old.depth → limits.blob ≡ cursor.old.blob → keys.old ≡ key_set before
        → are_distinct bytes_eq before ≡ true → (let nodes = schema_nodes schema.now in let n = node_at nodes id.0 in
        ReadsRun (EntriesRun nodes limits n) (entry_breaks nodes limits n)
        (λ es after. (keys.new ≡ key_set after) × M.keeps maker.old maker.new × ((at : M.At) (fs : List (List ℕ × Value)) → M.entries_stand_for maker.old nodes id.0 at entries.old fs → M.entries_stand_for maker.new nodes id.0 at entries.new (fs ++ es)))
        count before cursor.old cursor.new result) }
    ensures stays { (front : List ℕ) → M.begins maker.old front → M.begins maker.new front }
{
    for _done in 0..count {
        let key = cursor.key(keys)?;
        let at = maker.entry_at(entries, id);
        let value = read_at(alloc, schema, id, cursor, maker, at)?;
        maker.entry(alloc, entries, key, value)?;
    }
    Ok(())
}
