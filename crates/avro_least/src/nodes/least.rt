//! The least data of a schema's nodes.

ghost use Rattle.std.specs.Prelude.{◌≡◌, ◌≤◌, true, length, Some, None};
ghost use Rattle.avro_schema.specs.Seen.{node_of, ids_of, seen_fields};
ghost use Rattle.avro_schema.specs.Node.{field_ids};
ghost use Rattle.avro_schema.specs.SeenSchema.{schema_nodes};
ghost use Rattle.avro_schema.specs.WellFormed.{is_schema};
ghost use Rattle.avro_least.specs.Tables.{capped, around, together, lesser, best_of, all_of, least_datum};
ghost use Rattle.avro_least.specs.SeenLeast.{seen, table_of, improves};

use crate::kept::Least;
use avro_schema::{Field, Node, NodeId, Schema};

/// The entry of these numbers, where all numbers of nodes above the limit count as the same.
fn capped(limit: u32, nodes: u32, depth: u32) -> Least
    requires range { limit ≤ 16777216 }
    requires flat { depth ≤ nodes }
    ensures { seen (Some result) ≡ Some (capped limit (record { nodes = nodes; depth = depth })) }
{
    if nodes <= limit {
        Least { nodes, depth }
    } else {
        Least {
            nodes: limit + 1,
            depth: 0,
        }
    }
}

/// The entry of a datum inside one more node.
pub(crate) fn around(limit: u32, entry: Option<Least>) -> Option<Least>
    requires { limit ≤ 16777216 }
    ensures { seen result ≡ around limit (seen entry) }
{
    match entry {
        None => None,
        Some(e) => Some(capped(limit, e.nodes + 1, e.depth + 1)),
    }
}

/// The entry of two data side by side.
pub(crate) fn together(limit: u32, first: Option<Least>, second: Option<Least>) -> Option<Least>
    requires { limit ≤ 16777216 }
    ensures { seen result ≡ together limit (seen first) (seen second) }
{
    match first {
        None => None,
        Some(a) => match second {
            None => None,
            Some(b) => Some(capped(limit, a.nodes + b.nodes, a.depth.max(b.depth))),
        },
    }
}

/// Whether the first entry is less than the second. `None` is greater than every entry.
pub(crate) fn improves(found: Option<Least>, old: Option<Least>) -> bool
    ensures { result ≡ improves (seen found) (seen old) }
{
    match found {
        None => false,
        Some(a) => match old {
            None => true,
            Some(b) => a.nodes < b.nodes || (a.nodes == b.nodes && a.depth < b.depth),
        },
    }
}

/// The lesser of two entries, or the first if they are equal.
pub(crate) fn lesser(first: Option<Least>, second: Option<Least>) -> Option<Least>
    ensures { seen result ≡ lesser (seen first) (seen second) }
{
    match first {
        None => second,
        Some(a) => match second {
            None => Some(a),
            Some(b) => {
                if b.nodes < a.nodes || (b.nodes == a.nodes && b.depth < a.depth) {
                    Some(b)
                } else {
                    Some(a)
                }
            }
        },
    }
}

/// The entry of a node, or `None` if the node has no data.
pub fn entry(table: &[Option<Least>], id: NodeId) -> Option<Least>
    ensures { seen result ≡ table_of table.now id.0 }
{
    match table.get(id.0 as usize) {
        None => Some(Least { nodes: 1, depth: 1 }),
        Some(e) => *e,
    }
}

/// The best entry of some nodes.
pub(crate) fn best_of(table: &[Option<Least>], ids: &[NodeId]) -> Option<Least>
    ensures { seen result ≡ best_of (table_of table.now) (ids_of ids.now) }
{
    let mut best = None;
    let mut i = ids.len();
    while i > 0 {
        i -= 1;
        best = lesser(entry(table, ids[i]), best);
    }
    best
}

/// The entry of the least data of all fields together.
pub(crate) fn all_of(limit: u32, table: &[Option<Least>], fields: &[Field]) -> Option<Least>
    requires { limit ≤ 16777216 }
    ensures { seen result ≡ all_of limit (table_of table.now) (field_ids (seen_fields fields.now)) }
{
    let mut all = Some(Least { nodes: 0, depth: 0 });
    let mut i = fields.len();
    while i > 0 {
        i -= 1;
        all = together(limit, entry(table, fields[i].node), all);
    }
    all
}

/// The entry of a node, computed from those of its parts.
pub(crate) fn least_of(limit: u32, table: &[Option<Least>], node: &Node) -> Option<Least>
    requires { limit ≤ 16777216 }
    ensures { seen result ≡ least_datum limit (table_of table.now) (node_of node.now) }
{
    match node {
        Node::Union(ids) => around(limit, best_of(table, ids)),
        Node::Record(record) => around(limit, all_of(limit, table, &record.fields)),
        _ => Some(Least { nodes: 1, depth: 1 }),
    }
}

/// The number of nodes of a schema.
pub fn count(schema: &Schema) -> u32
    ensures count { result ≡ length (schema_nodes schema.now) }
    ensures formed { is_schema (schema_nodes schema.now) ≡ true }
{
    schema.len() as u32
}
