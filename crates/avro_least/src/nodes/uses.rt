//! The unions and records whose least data are made of those of a node: a hint of what to look at again once an entry
//! has fallen.

use crate::nodes::least::count;
use avro_schema::{Memory, Node, NodeId, Schema};
use std::alloc::Global;

/// The users of the node at an index, or none past the end.
pub(crate) fn users_at(rows: &[Vec<u32>], i: usize) -> &[u32] {
    match rows.get(i) {
        None => &[],
        Some(row) => row,
    }
}

/// Whether a row ends with a user.
fn ends_with(row: &[u32], user: u32) -> bool {
    match row.last() {
        None => false,
        Some(last) => *last == user,
    }
}

/// Adds a user to the row of a node, unless the row ends with it.
fn add_user(rows: &mut [Vec<u32>], id: NodeId, user: u32) -> Result<(), Memory> {
    let i = id.0 as usize;
    if i >= rows.len() {
        return Ok(());
    }
    if ends_with(&rows[i], user) {
        return Ok(());
    }
    let row = &mut rows[i];
    row.push(user)?;
    Ok(())
}

/// Adds a node to the rows of those that its least data are made of.
fn add_node(rows: &mut [Vec<u32>], node: &Node, user: u32) -> Result<(), Memory> {
    match node {
        Node::Union(ids) => {
            for id in ids {
                add_user(rows, *id, user)?;
            }
            Ok(())
        }
        Node::Record(record) => {
            for field in &record.fields {
                add_user(rows, field.node, user)?;
            }
            Ok(())
        }
        _ => Ok(()),
    }
}

/// For each node, the unions and records that have it as a branch or as a field.
///
/// # Errors
///
/// Memory ran out.
pub(crate) fn all_uses(alloc: Global, writer: &Schema) -> Result<Vec<Vec<u32>>, Memory> {
    let count = count(writer);
    let mut rows = Vec::with_capacity(alloc, count as usize)?;
    for done in 0..count {
        rows.push(Vec::new(alloc))?;
    }
    for user in 0..count {
        add_node(&mut rows, writer.node(NodeId(user)), user)?;
    }
    Ok(rows)
}
