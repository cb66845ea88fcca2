//! The parts of a node.

ghost use Rattle.std.specs.Prelude.{◌≡◌, map, slice_get, option_map, option_and_then};
ghost use Rattle.avro_schema.specs.Node.{node_name, items_node, values_node, branches_of, fields_of, symbols_of};
ghost use Rattle.avro_schema.specs.Seen.{node_of, ids_of, seen_fields, texts_of};

use crate::schema::{Field, Node, NodeId};
use avro_name::FullName;

impl Node {
    /// The name of a record, an enum or a fixed.
    pub fn name(&self) -> Option<&FullName>
        ensures { option_map (λ name. name.now) result ≡ node_name (node_of self.now) }
    {
        match self {
            Node::Record(record) => Some(&record.name),
            Node::Enum(enumeration) => Some(&enumeration.name),
            Node::Fixed(fixed) => Some(&fixed.name),
            _ => None,
        }
    }

    /// The node of an array's items.
    pub fn items(&self) -> Option<NodeId>
        ensures { option_map (λ id. id.0) result ≡ items_node (node_of self.now) }
    {
        match self {
            Node::Array(id) => Some(*id),
            _ => None,
        }
    }

    /// The node of a map's values.
    pub fn values(&self) -> Option<NodeId>
        ensures { option_map (λ id. id.0) result ≡ values_node (node_of self.now) }
    {
        match self {
            Node::Map(id) => Some(*id),
            _ => None,
        }
    }

    /// The nodes of a union's branches.
    pub fn branches(&self) -> Option<&[NodeId]>
        ensures { option_map (λ ids. ids_of ids.now) result ≡ branches_of (node_of self.now) }
    {
        match self {
            Node::Union(ids) => Some(ids),
            _ => None,
        }
    }

    /// The node of the union's branch at an index.
    pub fn branch(&self, index: u32) -> Option<NodeId>
        ensures { option_map (λ id. id.0) result ≡ option_and_then (λ ids. slice_get ids index) (branches_of (node_of self.now)) }
    {
        match self {
            Node::Union(ids) => ids.get(index as usize).copied(),
            _ => None,
        }
    }

    /// The fields of a record.
    pub fn fields(&self) -> Option<&[Field]>
        ensures { option_map (λ fields. seen_fields fields.now) result ≡ fields_of (node_of self.now) }
    {
        match self {
            Node::Record(record) => Some(&record.fields),
            _ => None,
        }
    }

    /// The symbols of an enum.
    pub fn symbols(&self) -> Option<&[String]>
        ensures { option_map (λ symbols. texts_of symbols.now) result ≡ symbols_of (node_of self.now) }
    {
        match self {
            Node::Enum(enumeration) => Some(&enumeration.symbols),
            _ => None,
        }
    }
}
