//! The least data of a schema's nodes, the least of all first.

ghost use Rattle.std.specs.Prelude.{◌≡◌, ◌≤◌, length, IfOk, OnOk};
ghost use Rattle.avro_schema.specs.SeenSchema.{schema_nodes};
ghost use Rattle.avro_least.specs.Tables.{IsLowForData, AreDataShown};
ghost use Rattle.avro_least.specs.SeenLeast.{table_of};
ghost use Rattle.avro_least.specs.inside.Falling.{effort, IsQuiet};
ghost use Rattle.avro_least.specs.inside.Settled.{IsLowAt, IsOver, table_in};

use crate::filled::filled;
use crate::kept::Least;
use crate::nodes::least::{around, count, entry, improves, least_of};
use crate::nodes::uses::{all_uses, users_at};
use crate::queue::{Search, entry_at};
use avro_schema::{Field, Memory, Node, NodeId, Schema};
use std::alloc::Global;

/// Lowers the entry of a node to what those of its parts come to.
fn relax(writer: &Schema, limit: u32, id: u32, search: &mut Search) -> Result<(), Memory>
    requires range { limit ≤ 16777216 }
    requires over { IsOver (schema_nodes writer.now) limit search.old }
    ensures over { OnOk result (IsOver (schema_nodes writer.now) limit search.new) }
    ensures effort { OnOk result (effort search.new ≤ effort search.old) }
    ensures quiet { OnOk result (IsQuiet search.new → IsQuiet search.old × (search.new.entries.items ≡ search.old.entries.items)
        × IsLowAt (schema_nodes writer.now) limit (table_in search.old) id) }
{
    // The contract of this call says that the schema is well formed, which the proof needs.
    let _ = count(writer);
    let found = least_of(limit, &search.entries, writer.get(NodeId(id)));
    search.lower(id as usize, found)?;
    Ok(())
}

/// Lowers the entries of all nodes, where the queue is empty.
fn relax_all(writer: &Schema, limit: u32, search: &mut Search) -> Result<(), Memory>
    requires range { limit ≤ 16777216 }
    requires over { IsOver (schema_nodes writer.now) limit search.old }
    ensures over { OnOk result (IsOver (schema_nodes writer.now) limit search.new) }
    ensures effort { OnOk result (effort search.new ≤ effort search.old) }
    ensures quiet { OnOk result (IsQuiet search.new → IsLowForData (schema_nodes writer.now) limit (table_in search.new)) }
{
    if !search.is_quiet() {
        return Ok(());
    }
    for id in 0..count(writer) {
        relax(writer, limit, id, search)?;
    }
    Ok(())
}

/// Whether a node has no entry yet, or one that waits.
fn is_open(search: &Search, id: NodeId) -> bool {
    entry(&search.entries, id).is_none() || search.waits(id.0 as usize)
}

/// Whether the node of a field is open, from the field of the hint on. The hint moves to the first such field.
fn has_open(search: &Search, fields: &[Field], hint: &mut usize) -> bool {
    while *hint < fields.len() {
        if is_open(search, fields[*hint].node) {
            return true;
        }
        *hint += 1;
    }
    false
}

/// Whether the entry of a union falls by that of the branch at an index, or no field of a record is open: the index of
/// one that was, when it was looked at last, is its hint.
fn may_fall(
    limit: u32,
    search: &Search,
    node: &Node,
    own: usize,
    part: usize,
    hint: &mut usize,
) -> bool
    requires { limit ≤ 16777216 }
{
    match node {
        Node::Union(_) => improves(
            around(limit, entry_at(&search.entries, part)),
            entry_at(&search.entries, own),
        ),
        Node::Record(record) => !has_open(search, &record.fields, hint),
        _ => false,
    }
}

/// Lowers the entries of the users of the node at an index, where they may fall.
fn lower_users(
    writer: &Schema,
    limit: u32,
    search: &mut Search,
    hints: &mut [usize],
    i: usize,
    users: &[u32],
) -> Result<(), Memory>
    requires range { limit ≤ 16777216 }
    requires over { IsOver (schema_nodes writer.now) limit search.old }
    ensures over { OnOk result (IsOver (schema_nodes writer.now) limit search.new) }
    ensures effort { OnOk result (effort search.new ≤ effort search.old) }
{
    for user in users {
        let own = *user as usize;
        if own < hints.len() {
            let node = writer.get(NodeId(*user));
            if may_fall(limit, search, node, own, i, &mut hints[own]) {
                relax(writer, limit, *user, search)?;
            }
        }
    }
    Ok(())
}

/// A search without entries.
fn start(alloc: Global, writer: &Schema, limit: u32) -> Result<Search, Memory>
    ensures { IfOk result (IsOver (schema_nodes writer.now) limit) }
{
    let search = Search::new(alloc, count(writer) as usize)?;
    Ok(search)
}

/// The table of the least data of each node, where all data of more nodes than the limit count as the same. What the
/// entries that fell lead to is looked at first; all nodes are looked at before the first and after the last.
///
/// # Errors
///
/// Memory ran out.
pub fn least_data(alloc: Global, writer: &Schema, limit: u32) -> Result<Vec<Option<Least>>, Memory>
    requires range { limit ≤ 16777216 }
    ensures one_each { IfOk result (λ t. length t.items ≡ length (schema_nodes writer.now)) }
    ensures shown { IfOk result (λ t. AreDataShown (schema_nodes writer.now) limit (table_of t.items)) }
    ensures low { IfOk result (λ t. IsLowForData (schema_nodes writer.now) limit (table_of t.items)) }
{
    let uses = all_uses(alloc, writer)?;
    let mut hints = filled(alloc, writer.len(), 0)?;
    let mut search = start(alloc, writer, limit)?;
    relax_all(writer, limit, &mut search)?;
    while let Some((i, waits)) = search.next() {
        if waits {
            let users = users_at(&uses, i);
            lower_users(writer, limit, &mut search, &mut hints, i, users)?;
        }
        relax_all(writer, limit, &mut search)?;
    }
    Ok(search.entries)
}
