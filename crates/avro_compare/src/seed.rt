//! The seed of the tables of two schemas.

use avro_name::FullName;
use avro_schema::{EnumNode, Field, FixedNode, Node, NodeId, RecordNode, Schema};
use avro_texts::{Seeded, Seeding};

/// How many bytes of a namespace are taken in.
const FRONT: usize = 256;

/// A byte between texts, and one that ends a list. No name has them.
const BETWEEN: [u8; 1] = [0];

const END: [u8; 1] = [1];

/// A seed from all that decides which pairs of nodes two schemas have, and which names: every name,
/// of a namespace the front, every edge, every size, and whether there is a default.
///
/// Whoever writes the two schemas cannot plan which of their names or pairs have hashes alike,
/// since what decides them also decides the seed.
pub(crate) fn seed_of(writer: &Schema, reader: &Schema) -> Seeded {
    let mut seeding = Seeding::new();
    take_schema(&mut seeding, writer);
    take_schema(&mut seeding, reader);
    seeding.seed()
}

/// Takes in each node of a schema.
fn take_schema(seeding: &mut Seeding, schema: &Schema) {
    for index in 0..schema.len() {
        take_node(seeding, schema.get(NodeId(index as u32)));
    }
    seeding.take(&[12]);
}

/// Takes in a node. That of a type begins with its name, and so with a letter or `_`; each other one with the number of its kind.
fn take_node(seeding: &mut Seeding, node: &Node) {
    match node {
        Node::Null => seeding.take(&[0]),
        Node::Boolean => seeding.take(&[1]),
        Node::Int => seeding.take(&[2]),
        Node::Long => seeding.take(&[3]),
        Node::Bytes => seeding.take(&[4]),
        Node::Str => seeding.take(&[5]),
        Node::Array(items) => take_edge(seeding, 6, *items),
        Node::Map(values) => take_edge(seeding, 7, *values),
        Node::Union(branches) => take_branches(seeding, branches),
        Node::Record(record) => take_record(seeding, record),
        Node::Enum(en) => take_enum(seeding, en),
        Node::Fixed(fixed) => take_fixed(seeding, fixed),
    }
}

/// Takes in a byte, and the node that something has as its part. There are at most 4,096 nodes, so two bytes tell it.
fn take_edge(seeding: &mut Seeding, mark: u8, node: NodeId) {
    let number = node.0.to_le_bytes();
    seeding.take(&[mark, number[0], number[1]]);
}

/// Takes in the branches of a union.
fn take_branches(seeding: &mut Seeding, branches: &[NodeId]) {
    seeding.take(&[8]);
    for branch in branches {
        take_edge(seeding, 8, *branch);
    }
    seeding.take(&END);
}

/// Takes in a record.
fn take_record(seeding: &mut Seeding, record: &RecordNode) {
    take_names(seeding, &record.name, &record.aliases, 9);
    for field in &record.fields {
        take_field(seeding, field);
    }
    seeding.take(&END);
}

/// Takes in a field.
fn take_field(seeding: &mut Seeding, field: &Field) {
    seeding.take(field.name.as_bytes());
    take_texts(seeding, &field.aliases);
    take_edge(seeding, default_mark(field.default.is_some()), field.node);
}

/// Takes in an enum.
fn take_enum(seeding: &mut Seeding, en: &EnumNode) {
    take_names(seeding, &en.name, &en.aliases, 10);
    take_texts(seeding, &en.symbols);
    seeding.take(&[default_mark(en.default.is_some())]);
}

/// Takes in a fixed.
fn take_fixed(seeding: &mut Seeding, fixed: &FixedNode) {
    take_names(seeding, &fixed.name, &fixed.aliases, 11);
    seeding.take(&fixed.size.to_le_bytes());
}

/// A byte that ends a list, and says whether there is a default.
fn default_mark(has_default: bool) -> u8 {
    if has_default { 2 } else { 1 }
}

/// Takes in the name of a type and its aliases, and behind them the number of its kind.
fn take_names(seeding: &mut Seeding, name: &FullName, aliases: &[FullName], kind: u8) {
    take_name(seeding, name);
    for alias in aliases {
        seeding.take(&BETWEEN);
        take_name(seeding, alias);
    }
    seeding.take(&[kind]);
}

/// Takes in a fullname, of its namespace the front. A long one is in each name that is declared below it, so that all of it
/// would be read too often; and a text has room for few that differ only behind these bytes.
fn take_name(seeding: &mut Seeding, name: &FullName) {
    seeding.take(name.simple().as_bytes());
    seeding.take(&BETWEEN);
    let space = name.namespace().as_bytes();
    seeding.take(space.get(..FRONT).unwrap_or(space));
}

/// Takes in symbols, or the aliases of a field.
fn take_texts(seeding: &mut Seeding, texts: &[String]) {
    for text in texts {
        seeding.take(&BETWEEN);
        seeding.take(text.as_bytes());
    }
}
