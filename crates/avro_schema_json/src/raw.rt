ghost use Rattle.std.proofs.Props.{props};
ghost use Rattle.std.specs.Option.{IfSome};
ghost use Rattle.avro_schema.specs.Seen.{texts_of};
ghost use Rattle.avro_schema_json.specs.inside.SymbolIndices.{FindsSymbols};

use avro_name::FullName;
use avro_schema::{EnumNode, FixedNode, NodeId};
use avro_texts::Seeded;
use indexmap::IndexMap;
use serde_json::Value;

/// A field whose default is still JSON.
#[derive(Drop)]
pub(crate) struct RawField<'a> {
    pub name: String,
    pub aliases: Vec<String>,
    pub node: NodeId,
    pub default: Option<&'a Value>,
}

/// A node before its defaults are read; only a record has any.
#[derive(Drop)]
pub(crate) enum RawNode<'a> {
    Null,
    Boolean,
    Int,
    Long,
    Bytes,
    Str,
    /// An array, with the type of its items.
    Array(NodeId),
    /// A map, with the type of its values.
    Map(NodeId),
    /// A union of these branches.
    Union(Vec<NodeId>),
    Record(RawRecord<'a>),
    Enum(RawEnum),
    Fixed(FixedNode),
}

/// An enum, and the first index of each of its symbols if defaults are looked up in them. They are apart, so that nodes
/// stay small.
#[derive(Drop)]
pub(crate) struct RawEnum {
    pub node: EnumNode,
    pub indices: Option<Box<IndexMap<String, u32, Seeded>>>,
    ghost agree: { IfSome indices (λ i. FindsSymbols (texts_of node.symbols.items) i.value) } by { Prim.hlevel props },
}

/// A record whose defaults are still JSON.
#[derive(Drop)]
pub(crate) struct RawRecord<'a> {
    pub name: FullName,
    pub aliases: Vec<FullName>,
    pub fields: Vec<RawField<'a>>,
}
