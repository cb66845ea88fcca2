//! Types, in the order in which a schema is read.

use crate::definitions::Begun;
use crate::fault::Fault;
use crate::names::{Name, Space};
use crate::nodes::{Node, NodeId, primitive, unsupported};
use crate::places::{PlaceId, WHOLE};
use crate::walk::{FieldDefault, Members, UNKNOWN, Walk};
use avro_texts::Seeded;
use indexmap::IndexMap;
use serde_json::Value;
use std::alloc::AllocError;

impl<'a> Walk<'a> {
    /// The type that a tree declares at a place. The namespace that encloses it may be unknown.
    #[cycle(types)]
    pub(crate) fn read_type(
        &mut self,
        tree: &'a Value,
        space: Option<Space<'a>>,
        place: PlaceId,
    ) -> Result<NodeId, AllocError> {
        match tree {
            Value::String(word) => self.read_word(word.as_str(), space, place),
            Value::Array(branches) => self.read_union(branches, space, place),
            Value::Object(members) => self.read_object(members, space, place),
            Value::Null | Value::Bool(_) | Value::Number(_) => {
                self.note(place, Fault::NoType)?;
                Ok(UNKNOWN)
            }
        }
    }

    /// A union of its branches.
    #[cycle(types)]
    fn read_union(
        &mut self,
        branches: &'a Vec<Value>,
        space: Option<Space<'a>>,
        place: PlaceId,
    ) -> Result<NodeId, AllocError> {
        self.count_node(place)?;
        if branches.is_empty() {
            self.note(place, Fault::EmptyUnion)?;
        }
        let mut ids = Vec::new(self.alloc);
        let mut seen = IndexMap::with_hasher(self.alloc, self.seed);
        for (index, branch) in branches.iter().enumerate() {
            let at = self.places.item(place, index);
            let id = self.read_type(branch, space, at)?;
            self.note_branch(&mut seen, id, at)?;
            ids.push(id)?;
        }
        self.add(Node::Union(ids))
    }

    /// The type that an object declares.
    #[cycle(types)]
    fn read_object(
        &mut self,
        members: &'a Members,
        space: Option<Space<'a>>,
        place: PlaceId,
    ) -> Result<NodeId, AllocError> {
        if is_answer(members, place) {
            self.note(place, Fault::Answer)?;
            return Ok(UNKNOWN);
        }
        let Some(word) = self.text(members, "type", place)? else {
            return Ok(UNKNOWN);
        };
        match word {
            "record" => self.read_record(members, space, place),
            "error" => {
                self.note_member(place, "type", Fault::Unsupported("error"))?;
                self.read_record(members, space, place)
            }
            "enum" => self.read_enum(members, space, place),
            "fixed" => self.read_fixed(members, space, place),
            "array" => {
                let part = self.read_part(members, "items", space, place)?;
                self.add(Node::Array(part))
            }
            "map" => {
                let part = self.read_part(members, "values", space, place)?;
                self.add(Node::Map(part))
            }
            _ => {
                let at = self.places.member(place, "type");
                self.read_word(word, space, at)
            }
        }
    }

    /// The type of the items of an array, or of the values of a map.
    #[cycle(types)]
    fn read_part(
        &mut self,
        members: &'a Members,
        key: &'a str,
        space: Option<Space<'a>>,
        place: PlaceId,
    ) -> Result<NodeId, AllocError> {
        self.count_node(place)?;
        match members.get(key) {
            Some(part) => {
                let at = self.places.member(place, key);
                self.read_type(part, space, at)
            }
            None => {
                self.note(place, Fault::Missing(key))?;
                Ok(UNKNOWN)
            }
        }
    }

    /// A record.
    #[cycle(types)]
    fn read_record(
        &mut self,
        members: &'a Members,
        space: Option<Space<'a>>,
        place: PlaceId,
    ) -> Result<NodeId, AllocError> {
        let Begun { id, name, inner } = self.begin(members, space, place)?;
        match members.get("fields") {
            Some(Value::Array(items)) => {
                let at = self.places.member(place, "fields");
                let fields = self.read_fields(items, inner, at)?;
                self.set(id, Node::Record(name, fields));
            }
            Some(_) => self.note_must(place, "fields", "an array")?,
            None => self.note(place, Fault::Missing("fields"))?,
        }
        Ok(id)
    }

    /// The fields of a record, by their names. They are unknown where one is.
    #[cycle(types)]
    fn read_fields(
        &mut self,
        items: &'a Vec<Value>,
        space: Option<Space<'a>>,
        place: PlaceId,
    ) -> Result<Option<IndexMap<&'a str, NodeId, Seeded>>, AllocError> {
        let mut fields = IndexMap::with_hasher(self.alloc, self.seed);
        let mut seen = IndexMap::with_hasher(self.alloc, self.seed);
        let mut are_known = true;
        for (index, item) in items.iter().enumerate() {
            let at = self.places.item(place, index);
            match self.read_field(item, space, at, &mut seen)? {
                Some((name, node)) => {
                    fields.insert(name, node)?;
                }
                None => are_known = false,
            }
        }
        Ok(if are_known { Some(fields) } else { None })
    }

    /// A field of a record: its name and its type. `seen` has the names and aliases before it.
    #[cycle(types)]
    fn read_field(
        &mut self,
        item: &'a Value,
        space: Option<Space<'a>>,
        place: PlaceId,
        seen: &mut IndexMap<&'a str, PlaceId, Seeded>,
    ) -> Result<Option<(&'a str, NodeId)>, AllocError> {
        let Value::Object(members) = item else {
            self.note(place, Fault::NoField)?;
            return Ok(None);
        };
        let name = self.read_field_names(members, place, seen)?;
        let node = match members.get("type") {
            Some(tree) => {
                let at = self.places.member(place, "type");
                self.read_type(tree, space, at)?
            }
            None => {
                self.note(place, Fault::Missing("type"))?;
                UNKNOWN
            }
        };
        // Its type is known once the whole tree is read.
        if let Some(value) = members.get("default") {
            let place = self.places.member(place, "default");
            self.defaults.push(FieldDefault { value, node, place })?;
        }
        Ok(name.map(|name| (name, node)))
    }

    /// Notes a branch that is a union, or a duplicate.
    fn note_branch(
        &mut self,
        seen: &mut IndexMap<(&'a str, NodeId), PlaceId, Seeded>,
        id: NodeId,
        place: PlaceId,
    ) -> Result<(), AllocError> {
        if matches!(self.nodes.get(id), Some(Node::Union(_))) {
            return self.note(place, Fault::UnionInUnion);
        }
        let Some(branch) = self.nodes.get(id).and_then(|node| node.branch(id)) else {
            return Ok(());
        };
        match seen.get(&branch).copied() {
            Some(before) => {
                let title = self.title(id);
                self.note(place, Fault::Branch(title, before))
            }
            None => {
                seen.insert(branch, place)?;
                Ok(())
            }
        }
    }

    /// The type that a word names.
    fn read_word(
        &mut self,
        word: &'a str,
        space: Option<Space<'a>>,
        place: PlaceId,
    ) -> Result<NodeId, AllocError> {
        if let Some(node) = primitive(word) {
            self.count_node(place)?;
            return self.add(node);
        }
        if let Some(kind) = unsupported(word) {
            self.count_node(place)?;
            self.note(place, Fault::Unsupported(kind))?;
            return Ok(UNKNOWN);
        }
        self.read_reference(word, space, place)
    }

    /// The definition that a word refers to, if the namespace around it is known.
    fn read_reference(
        &mut self,
        word: &'a str,
        space: Option<Space<'a>>,
        place: PlaceId,
    ) -> Result<NodeId, AllocError> {
        if !self.is_full_name(word, place)? {
            return Ok(UNKNOWN);
        }
        let (Some(space), simple) = self.names.split(word, space)? else {
            return Ok(UNKNOWN);
        };
        if let Some(definition) = self.names.find(space, simple) {
            return Ok(definition.node);
        }
        let name = Name {
            space: space.text,
            simple,
        };
        self.note(place, Fault::Undefined(name))?;
        Ok(UNKNOWN)
    }
}

/// Whether the whole text is what a registry answers: an object with the schema as a string.
fn is_answer(members: &Members, place: PlaceId) -> bool {
    place == WHOLE
        && !members.contains_key("type")
        && matches!(members.get("schema"), Some(Value::String(_)))
}
