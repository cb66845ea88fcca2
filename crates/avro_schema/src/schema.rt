ghost use Rattle.std.specs.Prelude.{◌≡◌, true};
ghost use Rattle.avro_schema.specs.Seen.{node_of, nodes_of};
ghost use Rattle.avro_schema.specs.Fits.{is_null_node};
ghost use Rattle.avro_schema.specs.Empties.{AreEmpties};
ghost use Rattle.avro_schema.specs.Runs.{AreAllRuns};
ghost use Rattle.avro_schema.specs.WellFormed.{is_schema};

use crate::datum::Datum;
use crate::empties::{Empty, known_at};
use crate::runs::{EmptyFields, runs_at};
use avro_name::FullName;

/// The index of a node among those of its schema; 0 is the root.
#[derive(Clone, Copy, Debug, PartialEq, Eq, PartialOrd, Ord)]
pub struct NodeId(pub u32);

/// A node of a schema (Avro 1.11, "Schema Declaration").
#[derive(Debug, PartialEq, Drop)]
pub enum Node {
    /// Null, the only datum of its type.
    Null,
    /// A boolean.
    Boolean,
    /// A signed 32-bit integer.
    Int,
    /// A signed 64-bit integer.
    Long,
    /// Bytes.
    Bytes,
    /// A string.
    Str,
    /// An array, with the node of its items.
    Array(NodeId),
    /// A map, with the node of its values.
    Map(NodeId),
    /// A union, with the nodes of its branches.
    Union(Vec<NodeId>),
    /// A record.
    Record(RecordNode),
    /// An enum.
    Enum(EnumNode),
    /// A fixed.
    Fixed(FixedNode),
}

/// A record: its fullname, its aliases, and its fields in order.
#[derive(Debug, PartialEq, Drop)]
pub struct RecordNode {
    /// Its fullname.
    pub name: FullName,
    /// Alternative fullnames for a writer's type.
    pub aliases: Vec<FullName>,
    /// The fields, in order.
    pub fields: Vec<Field>,
}

/// A field of a record: its name, its aliases, the node of its data, and its default.
#[derive(Debug, PartialEq, Drop)]
pub struct Field {
    /// Its name, which is a simple name.
    pub name: String,
    /// Alternative names for a writer's field.
    pub aliases: Vec<String>,
    /// The node of its data.
    pub node: NodeId,
    /// Its default, a datum of that node.
    pub default: Option<Datum>,
}

/// An enum: its fullname, its aliases, its symbols in order, and the index of its default.
#[derive(Debug, PartialEq, Drop)]
pub struct EnumNode {
    /// Its fullname.
    pub name: FullName,
    /// Alternative fullnames for a writer's type.
    pub aliases: Vec<FullName>,
    /// The symbols in order, without duplicates.
    pub symbols: Vec<String>,
    /// The index of the symbol that replaces an unknown one.
    pub default: Option<u32>,
}

/// A fixed: its fullname, its aliases, and its number of bytes.
#[derive(Debug, PartialEq, Drop)]
pub struct FixedNode {
    /// Its fullname.
    pub name: FullName,
    /// Alternative fullnames for a writer's type.
    pub aliases: Vec<FullName>,
    /// The number of bytes.
    pub size: u32,
}

impl EnumNode {
    /// The greatest number of symbols.
    pub const MAX_SYMBOLS: usize = 1_048_576;
}

impl FixedNode {
    /// The greatest size in bytes.
    pub const MAX_SIZE: u32 = 1_048_576;
}

/// A well-formed schema: 1 to 4,096 nodes that obey the rules of the standard.
#[derive(Debug, Drop)]
pub struct Schema {
    nodes: Vec<Node>,
    // what an id without a node stands for
    null: Node,
    // for each node, its datum without bytes, if one is known
    empties: Vec<Option<Empty>>,
    // for each node and each of its fields, the run of fields without bytes that starts there, unless all are short
    runs: Vec<Vec<EmptyFields>>,
    ghost is_null: { is_null_node (node_of null) ≡ true },
    ghost formed: { is_schema (nodes_of nodes.items) ≡ true },
    ghost are_empties: { AreEmpties (nodes_of nodes.items) empties.items },
    ghost are_runs: { AreAllRuns (nodes_of nodes.items) runs.items },
}

impl Schema {
    ghost use Rattle.std.specs.Prelude.{◌≡◌, ◌<◌, ◌↔◌, ℕ, true, IsTrue, IfSome, Some, length, slice_get, drop};
    ghost use Rattle.avro_schema.specs.Empty.{IsEmptyDatum};
    ghost use Rattle.avro_schema.specs.Empties.{AreEmpties};
    ghost use Rattle.avro_schema.specs.Runs.{AreAllRuns, StartWithEmpties, ids_at};
    ghost use Rattle.avro_schema.specs.Node.{node_at};
    ghost use Rattle.avro_schema.specs.Seen.{node_of, nodes_of};
    ghost use Rattle.avro_schema.specs.SeenSchema.{schema_nodes};
    ghost use Rattle.avro_schema.specs.WellFormed.{is_schema};

    /// The greatest number of nodes.
    pub const MAX_NODES: usize = 4096;

    /// Makes a schema from nodes that form one, and what is known about their data without bytes.
    pub(crate) fn from_nodes(
        nodes: Vec<Node>,
        empties: Vec<Option<Empty>>,
        runs: Vec<Vec<EmptyFields>>,
    ) -> Schema
        requires formed { is_schema (nodes_of nodes.items) ≡ true }
        requires empties { AreEmpties (nodes_of nodes.items) empties.items }
        requires runs { AreAllRuns (nodes_of nodes.items) runs.items }
        ensures { schema_nodes result ≡ nodes_of nodes.items }
    {
        Schema {
            nodes,
            null: Node::Null,
            empties,
            runs,
        }
    }

    /// The nodes, in the order of their ids.
    pub(crate) fn nodes(&self) -> &[Node]
        ensures { nodes_of result.now ≡ schema_nodes self.now }
    {
        &self.nodes
    }

    /// The root: the node that the schema's data are valid for.
    pub fn root(&self) -> NodeId
        ensures root { result.0 ≡ 0 }
        ensures in_schema { result.0 < length (schema_nodes self.now) }
        ensures formed { is_schema (schema_nodes self.now) ≡ true }
    {
        NodeId(0)
    }

    /// The node with this id, which must be in the schema; [`Schema::has`] checks that.
    pub fn node(&self, id: NodeId) -> &Node
        requires { id.0 < length (schema_nodes self.now) }
        ensures { node_of result.now ≡ node_at (schema_nodes self.now) id.0 }
    {
        &self.nodes[id.0 as usize]
    }

    /// The node with this id; null if there is none.
    pub fn get(&self, id: NodeId) -> &Node
        ensures node { node_of result.now ≡ node_at (schema_nodes self.now) id.0 }
        ensures formed { is_schema (schema_nodes self.now) ≡ true }
    {
        match self.nodes.get(id.0 as usize) {
            Some(node) => node,
            None => &self.null,
        }
    }

    /// The number of nodes: 1 to 4,096.
    pub fn len(&self) -> usize
        ensures count { result ≡ length (schema_nodes self.now) }
        ensures formed { is_schema (schema_nodes self.now) ≡ true }
    {
        self.nodes.len()
    }

    /// The number of nodes and the depth of the node's datum without bytes, if one is known. No clause says that each is known: without
    /// it, reading is only slower.
    #[inline(always)]
    pub fn empty(&self, id: NodeId) -> Option<Empty>
        ensures { IfSome result (λ e. IsEmptyDatum (schema_nodes self.now) (node_at (schema_nodes self.now) id.0) e.nodes e.depth) }
    {
        known_at(&self.empties, id)
    }

    /// For each of a node's first fields, the run of fields without bytes that starts there, as far as it is known. No clause says that
    /// each is known: without it, reading is only slower.
    #[inline(always)]
    pub fn empty_fields(&self, id: NodeId) -> &[EmptyFields]
        ensures { (k : ℕ) (run : EmptyFields) → slice_get result.now k ≡ Some run → StartWithEmpties (schema_nodes self.now) (drop k (ids_at (node_at (schema_nodes self.now) id.0))) run }
    {
        runs_at(&self.runs, id)
    }

    /// Whether the schema has a node with this id.
    pub fn has(&self, id: NodeId) -> bool
        ensures { IsTrue result ↔ (id.0 < length (schema_nodes self.now)) }
    {
        (id.0 as usize) < self.nodes.len()
    }
}
