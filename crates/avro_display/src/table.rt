ghost use Rattle.std.specs.Prelude.{◌≡◌, IfOk, option_map};
ghost use Rattle.avro_schema.specs.SeenSchema.{schema_nodes};
ghost use Rattle.avro_display.specs.inside.Tables.{AreOpenings, AreAllMembers};

use crate::labels::opening;
use crate::member::Member;
use crate::members::members_of;
use crate::parts::node_fields;
use avro_schema::{Memory, Node, NodeId, Schema};
use std::alloc::Global;
use std::marker::Model;

/// What the display of a schema's data needs of its names: made once, so that no name is compared or copied for a datum.
/// Contracts see the schema.
#[derive(Drop)]
pub struct DisplayTable<'a> {
    schema: &'a Schema,
    openings: Vec<Option<Vec<u8>>>,
    members: Vec<Vec<Member>>,
    // the members of what is no record
    none: Vec<Member>,
    null: Node,
}

impl<'a> Model for DisplayTable<'a> {
    ghost use Rattle.avro_schema.specs.contracts.datum.Datum as datum;
    ghost use Rattle.avro_schema.specs.declared.schema.Schema.{Schema};
    ghost use Rattle.avro_schema.specs.Node.Node.{null as NullNode};
    ghost use Rattle.avro_schema.specs.Seen.{node_of};
    ghost use Rattle.avro_schema.specs.SeenSchema.{schema_nodes};
    ghost use Rattle.avro_display.specs.inside.Tables.{AreOpenings, AreAllMembers};
    ghost use Rattle.std.specs.Prelude.{◌≡◌, []};
    ghost use Rattle.std.specs.Coded.{codes};

    ghost Value = { Schema };

    ghost coded = { Prim.hlevel (codes, datum.the_row.coded) };

    ghost view = { λ t. t.schema.now };

    ghost invariant = { λ t. AreOpenings (schema_nodes t.schema.now) t.openings.items × AreAllMembers (schema_nodes t.schema.now) t.members.items × (t.none.items ≡ []) × (node_of t.null ≡ NullNode) };
}

impl<'a> DisplayTable<'a> {
    ghost use Rattle.std.specs.Prelude.{◌≡◌, IfOk, option_map};
    ghost use Rattle.avro_schema.specs.Node.{node_at};
    ghost use Rattle.avro_schema.specs.Seen.{node_of};
    ghost use Rattle.avro_schema.specs.SeenSchema.{schema_nodes};
    ghost use Rattle.avro_display.specs.DisplayTree.{part_at, record_fields};
    ghost use Rattle.avro_display.specs.Table.{AreMembers, opening_of};

    /// The table of a schema.
    ///
    /// # Errors
    ///
    /// Memory ran out.
    pub fn new(alloc: Global, schema: &'a Schema) -> Result<DisplayTable<'a>, Memory>
        ensures { IfOk result (λ table. table ≡ schema.now) }
    {
        let openings = openings(alloc, schema)?;
        let members = all_members(alloc, schema)?;
        Ok(DisplayTable {
            schema,
            openings,
            members,
            none: Vec::new(alloc),
            null: Node::Null,
        })
    }

    /// The schema.
    pub fn schema(&self) -> &'a Schema
        ensures { result.now ≡ self.now }
    {
        self.schema
    }

    /// The node with this id; null if there is none.
    pub fn node(&self, id: Option<NodeId>) -> &Node
        ensures { node_of result.now ≡ part_at (schema_nodes self.now) (option_map (λ id. id.0) id) }
    {
        match id {
            Some(id) => self.schema.get(id),
            None => &self.null,
        }
    }

    /// The fields of a record, in the order in which they are displayed; none for other nodes.
    pub fn members(&self, id: NodeId) -> &[Member]
        ensures { AreMembers (record_fields (node_at (schema_nodes self.now) id.0)) result.now }
    {
        match self.members.get(id.0 as usize) {
            Some(members) => members,
            None => &self.none,
        }
    }

    /// The same for a node that may be missing.
    pub fn part_members(&self, id: Option<NodeId>) -> &[Member]
        ensures { AreMembers (record_fields (part_at (schema_nodes self.now) (option_map (λ id. id.0) id))) result.now }
    {
        match id {
            Some(id) => self.members(id),
            None => &self.none,
        }
    }

    /// The text before the value of a union's branch of this node; none if the node is null.
    pub fn opening(&self, id: NodeId) -> Option<&[u8]>
        ensures { option_map (λ text. text.now) result ≡ opening_of (node_at (schema_nodes self.now) id.0) }
    {
        match self.openings.get(id.0 as usize) {
            Some(opening) => bytes_of(opening),
            None => None,
        }
    }

    /// The same for a node that may be missing.
    pub fn part_opening(&self, id: Option<NodeId>) -> Option<&[u8]>
        ensures { option_map (λ text. text.now) result ≡ opening_of (part_at (schema_nodes self.now) (option_map (λ id. id.0) id)) }
    {
        match id {
            Some(id) => self.opening(id),
            None => None,
        }
    }
}

/// The bytes of a text, if there is one.
fn bytes_of(text: &Option<Vec<u8>>) -> Option<&[u8]>
    ensures { option_map (λ bytes. bytes.now) result ≡ option_map (λ t. t.items) text.now }
{
    match text {
        Some(text) => Some(text),
        None => None,
    }
}

/// For each node the text that opens it as a union's branch.
fn openings(alloc: Global, schema: &Schema) -> Result<Vec<Option<Vec<u8>>>, Memory>
    ensures { IfOk result (λ openings. AreOpenings (schema_nodes schema.now) openings.items) }
{
    let mut openings = Vec::new(alloc);
    for index in 0..schema.len() {
        openings.push(opening(alloc, schema.get(NodeId(index as u32)))?)?;
    }
    Ok(openings)
}

/// For each node the members of its data, where it is a record.
fn all_members(alloc: Global, schema: &Schema) -> Result<Vec<Vec<Member>>, Memory>
    ensures { IfOk result (λ lists. AreAllMembers (schema_nodes schema.now) lists.items) }
{
    let mut lists = Vec::new(alloc);
    for index in 0..schema.len() {
        lists.push(members_of(alloc, node_fields(schema.get(NodeId(index as u32))))?)?;
    }
    Ok(lists)
}
