//! The types that are declared.

use crate::names::Name;
use crate::places::PlaceId;
use avro_texts::Seeded;
use indexmap::IndexMap;

/// The number of a node.
pub(crate) type NodeId = usize;

/// A type. A part with a fault is unknown, and a name too that is missing or refused.
#[derive(Drop)]
pub(crate) enum Node<'a> {
    Unknown,
    Null,
    Boolean,
    Int,
    Long,
    Bytes,
    Str,
    Array(NodeId),
    Map(NodeId),
    Union(Vec<NodeId>),
    /// A record with its fields.
    Record(Option<Name<'a>>, Option<IndexMap<&'a str, NodeId, Seeded>>),
    /// An enum with its symbols and their places.
    Enum(Option<Name<'a>>, Option<IndexMap<&'a str, PlaceId, Seeded>>),
    /// A fixed with its size.
    Fixed(Option<Name<'a>>, Option<u64>),
}

impl<'a> Node<'a> {
    /// The kind of a node.
    fn kind(&self) -> &'static str {
        match self {
            Node::Unknown => "a type",
            Node::Null => "null",
            Node::Boolean => "boolean",
            Node::Int => "int",
            Node::Long => "long",
            Node::Bytes => "bytes",
            Node::Str => "string",
            Node::Array(_) => "array",
            Node::Map(_) => "map",
            Node::Union(_) => "union",
            Node::Record(..) => "record",
            Node::Enum(..) => "enum",
            Node::Fixed(..) => "fixed",
        }
    }

    /// What a node is called: the name of a definition, or its kind if it has none.
    pub(crate) fn title(&self) -> Name<'a> {
        match self {
            Node::Record(Some(name), _) | Node::Enum(Some(name), _) | Node::Fixed(Some(name), _) =>
                { *name }
            _ => Name::plain(self.kind()),
        }
    }

    /// What is the same for two branches that a union cannot both have: the kind, or the number of a definition.
    pub(crate) fn branch(&self, id: NodeId) -> Option<(&'static str, NodeId)> {
        match self {
            Node::Unknown | Node::Union(_) => None,
            Node::Record(..) | Node::Enum(..) | Node::Fixed(..) => Some(("", id)),
            _ => Some((self.kind(), 0)),
        }
    }
}

/// The primitive type that a word names.
pub(crate) fn primitive<'a>(word: &str) -> Option<Node<'a>> {
    match word {
        "null" => Some(Node::Null),
        "boolean" => Some(Node::Boolean),
        "int" => Some(Node::Int),
        "long" => Some(Node::Long),
        "bytes" => Some(Node::Bytes),
        "string" => Some(Node::Str),
        _ => None,
    }
}

/// The primitive type that a word names, if it is not supported.
pub(crate) fn unsupported(word: &str) -> Option<&'static str> {
    match word {
        "float" => Some("float"),
        "double" => Some("double"),
        _ => None,
    }
}
