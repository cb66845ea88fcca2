use crate::fault::Fault;
use crate::names::{Name, Names};
use crate::nodes::{Node, NodeId};
use crate::places::{PlaceId, Places, WHOLE};
use avro_schema::Schema;
use avro_schema_json::SchemaError;
use avro_texts::Seeded;
use serde_json::{Map, Value};
use std::alloc::{AllocError, Global};

/// The members of an object.
pub(crate) type Members = Map<String, Value>;

/// The node that stands for each type with a fault.
pub(crate) const UNKNOWN: NodeId = 0;

/// A default, the type of its field, and its place.
#[derive(Clone, Copy)]
pub(crate) struct FieldDefault<'a> {
    pub(crate) value: &'a Value,
    pub(crate) node: NodeId,
    pub(crate) place: PlaceId,
}

/// A walk through a tree: what was found so far.
#[derive(Drop)]
pub(crate) struct Walk<'a> {
    pub(crate) alloc: Global,
    // the seed of all tables of names
    pub(crate) seed: Seeded,
    pub(crate) places: Places<'a>,
    pub(crate) faults: Vec<(PlaceId, Fault<'a>)>,
    pub(crate) nodes: Vec<Node<'a>>,
    pub(crate) names: Names<'a>,
    pub(crate) defaults: Vec<FieldDefault<'a>>,
    // how many nodes the schema has so far
    count: usize,
}

impl<'a> Walk<'a> {
    /// A walk before its first step.
    pub(crate) fn new(
        alloc: Global,
        seed: Seeded,
        places: Places<'a>,
    ) -> Result<Walk<'a>, AllocError> {
        let mut nodes = Vec::new(alloc);
        nodes.push(Node::Unknown)?;
        Ok(Walk {
            alloc,
            seed,
            places,
            faults: Vec::new(alloc),
            nodes,
            names: Names::new(alloc, seed),
            defaults: Vec::new(alloc),
            count: 0,
        })
    }

    /// Walks through a tree for which a text is refused with this error.
    pub(crate) fn read(&mut self, tree: &'a Value, error: SchemaError) -> Result<(), AllocError> {
        // Other errors are found only in trees of integers.
        if error == SchemaError::UnsupportedNumber {
            self.read_numbers(tree, WHOLE)?;
        }
        let null = self.names.space("")?;
        self.read_type(tree, Some(null), WHOLE)?;
        self.check_defaults()
    }

    /// Notes a fault of the value at a place.
    pub(crate) fn note(&mut self, place: PlaceId, fault: Fault<'a>) -> Result<(), AllocError> {
        self.faults.push((place, fault))?;
        Ok(())
    }

    /// Notes a fault of the member of a key.
    pub(crate) fn note_member(
        &mut self,
        around: PlaceId,
        key: &'a str,
        fault: Fault<'a>,
    ) -> Result<(), AllocError> {
        let place = self.places.member(around, key);
        self.note(place, fault)
    }

    /// Counts a node that begins at a place. Only the first past the limit is a fault.
    pub(crate) fn count_node(&mut self, place: PlaceId) -> Result<(), AllocError> {
        if self.count == Schema::MAX_NODES {
            self.note(place, Fault::TooMany)?;
        }
        self.count = self.count.saturating_add(1);
        Ok(())
    }

    /// Adds a node.
    pub(crate) fn add(&mut self, node: Node<'a>) -> Result<NodeId, AllocError> {
        let id = self.nodes.len();
        self.nodes.push(node)?;
        Ok(id)
    }

    /// Sets a node.
    pub(crate) fn set(&mut self, id: NodeId, node: Node<'a>) {
        if id < self.nodes.len() {
            self.nodes[id] = node;
        }
    }

    /// What a node is called.
    pub(crate) fn title(&self, id: NodeId) -> Name<'a> {
        match self.nodes.get(id) {
            Some(node) => node.title(),
            None => Name::plain("a type"),
        }
    }

    /// The text of a member. A missing one, or another value, is noted.
    pub(crate) fn text(
        &mut self,
        members: &'a Members,
        key: &'a str,
        place: PlaceId,
    ) -> Result<Option<&'a str>, AllocError> {
        let found = members.get(key);
        if let Some(Value::String(text)) = found {
            return Ok(Some(text.as_str()));
        }
        if found.is_some() {
            self.note_must(place, key, "a string")?;
        } else {
            self.note(place, Fault::Missing(key))?;
        }
        Ok(None)
    }

    /// Notes that a member must be something else.
    pub(crate) fn note_must(
        &mut self,
        around: PlaceId,
        key: &'a str,
        what: &'static str,
    ) -> Result<(), AllocError> {
        self.note_member(around, key, Fault::Must(key, what))
    }
}
