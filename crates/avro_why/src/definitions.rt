//! Definitions: their names, the attributes of enums and fixeds, and the names of fields.

use crate::fault::Fault;
use crate::names::{Definition, Name, Space};
use crate::nodes::{Node, NodeId};
use crate::places::PlaceId;
use crate::walk::{Members, Walk};
use avro_name::{FullName, NameError, Namespace, is_simple_name};
use avro_schema::FixedNode;
use avro_texts::Seeded;
use indexmap::IndexMap;
use serde_json::Value;
use std::alloc::AllocError;

/// A definition whose name was read: its node, its name, and the namespace of what is inside.
#[derive(Clone, Copy)]
pub(crate) struct Begun<'a> {
    pub(crate) id: NodeId,
    pub(crate) name: Option<Name<'a>>,
    pub(crate) inner: Option<Space<'a>>,
}

impl<'a> Walk<'a> {
    /// Begins a definition: its node, its name, and the namespace of what is inside.
    pub(crate) fn begin(
        &mut self,
        members: &'a Members,
        enclosing: Option<Space<'a>>,
        place: PlaceId,
    ) -> Result<Begun<'a>, AllocError> {
        self.count_node(place)?;
        let written = self.text(members, "name", place)?;
        let inner = self.space_of(members, written.unwrap_or(""), enclosing, place)?;
        let id = self.add(Node::Unknown)?;
        let name = match written {
            Some(text) => self.read_name(text, inner, id, place)?,
            None => None,
        };
        self.set(id, Node::Record(name, None));
        self.read_type_aliases(members, place)?;
        Ok(Begun { id, name, inner })
    }

    /// The name of a definition, which it defines. There is none if it is refused, or if its namespace is unknown.
    fn read_name(
        &mut self,
        text: &'a str,
        space: Option<Space<'a>>,
        id: NodeId,
        place: PlaceId,
    ) -> Result<Option<Name<'a>>, AllocError> {
        let at = self.places.member(place, "name");
        if !self.is_full_name(text, at)? {
            return Ok(None);
        }
        let Some(space) = space else {
            return Ok(None);
        };
        let name = Name {
            space: space.text,
            simple: simple_part(text),
        };
        self.define(space, name, id, place)?;
        Ok(Some(name))
    }

    /// The namespace of a definition, which is unknown if it is refused. If the name has a dot, `namespace` is ignored.
    fn space_of(
        &mut self,
        members: &'a Members,
        name: &'a str,
        enclosing: Option<Space<'a>>,
        place: PlaceId,
    ) -> Result<Option<Space<'a>>, AllocError> {
        if let Some((space, _)) = name.rsplit_once('.') {
            return self.valid_space(space);
        }
        if !members.contains_key("namespace") {
            return Ok(enclosing);
        }
        let Some(text) = self.text(members, "namespace", place)? else {
            return Ok(None);
        };
        let space = self.valid_space(text)?;
        if space.is_none() {
            self.note_member(place, "namespace", Fault::NoName(text))?;
        }
        Ok(space)
    }

    /// The namespace of a text, if it is valid.
    fn valid_space(&mut self, text: &'a str) -> Result<Option<Space<'a>>, AllocError> {
        match Namespace::read(self.alloc, text) {
            Ok(_) => Ok(Some(self.names.space(text)?)),
            Err(NameError::OutOfMemory) => Err(AllocError),
            Err(_) => Ok(None),
        }
    }

    /// Defines a name. A duplicate is noted.
    fn define(
        &mut self,
        space: Space<'a>,
        name: Name<'a>,
        node: NodeId,
        place: PlaceId,
    ) -> Result<(), AllocError> {
        match self.names.find(space, name.simple) {
            Some(definition) => self.note(place, Fault::Defined(name, definition.place)),
            None => self
                .names
                .define(space, name.simple, Definition { node, place }),
        }
    }

    /// Whether a text is a valid fullname. What is wrong with it is noted.
    pub(crate) fn is_full_name(
        &mut self,
        text: &'a str,
        place: PlaceId,
    ) -> Result<bool, AllocError> {
        match FullName::read(self.alloc, text, &Namespace::null(self.alloc)) {
            Ok(_) => return Ok(true),
            Err(NameError::OutOfMemory) => return Err(AllocError),
            Err(NameError::PrimitiveName) => {
                self.note(place, Fault::PrimitiveName(simple_part(text)))?;
            }
            Err(NameError::EmptyPart | NameError::BadCharacter) => {
                self.note(place, Fault::NoName(text))?;
            }
        }
        Ok(false)
    }

    /// Whether a text is a valid simple name. If not, that is noted.
    fn is_simple_name(&mut self, text: &'a str, place: PlaceId) -> Result<bool, AllocError> {
        if is_simple_name(text) {
            return Ok(true);
        }
        self.note(place, Fault::NoName(text))?;
        Ok(false)
    }

    /// The texts of a list, if it is there, with their places. Another value, or one with another item, is noted.
    fn texts(
        &mut self,
        members: &'a Members,
        key: &'a str,
        around: PlaceId,
    ) -> Result<Option<Vec<(&'a str, PlaceId)>>, AllocError> {
        let Some(value) = members.get(key) else {
            return Ok(None);
        };
        let list = self.places.member(around, key);
        let mut texts = Vec::new(self.alloc);
        if let Value::Array(items) = value {
            for (index, item) in items.iter().enumerate() {
                if let Value::String(text) = item {
                    texts.push((text.as_str(), self.places.item(list, index)))?;
                }
            }
            if texts.len() == items.len() {
                return Ok(Some(texts));
            }
        }
        self.note(list, Fault::Must(key, "an array of strings"))?;
        Ok(None)
    }

    /// Reads the aliases of a type.
    fn read_type_aliases(
        &mut self,
        members: &'a Members,
        place: PlaceId,
    ) -> Result<(), AllocError> {
        if let Some(texts) = self.texts(members, "aliases", place)? {
            for (text, at) in &texts {
                self.is_full_name(text, *at)?;
            }
        }
        Ok(())
    }

    /// The name of a field, if it has one. `seen` has the names and aliases of the fields before it.
    pub(crate) fn read_field_names(
        &mut self,
        members: &'a Members,
        place: PlaceId,
        seen: &mut IndexMap<&'a str, PlaceId, Seeded>,
    ) -> Result<Option<&'a str>, AllocError> {
        let name = self.text(members, "name", place)?;
        if let Some(name) = name {
            let at = self.places.member(place, "name");
            self.read_field_name(name, at, seen)?;
        }
        if let Some(texts) = self.texts(members, "aliases", place)? {
            for (text, at) in &texts {
                self.read_field_name(text, *at, seen)?;
            }
        }
        Ok(name)
    }

    /// Notes a name or an alias of a field that is not valid, or a duplicate.
    fn read_field_name(
        &mut self,
        name: &'a str,
        place: PlaceId,
        seen: &mut IndexMap<&'a str, PlaceId, Seeded>,
    ) -> Result<(), AllocError> {
        if !self.is_simple_name(name, place)? {
            return Ok(());
        }
        match seen.get(name).copied() {
            Some(before) => self.note(place, Fault::FieldName(name, before)),
            None => {
                seen.insert(name, place)?;
                Ok(())
            }
        }
    }

    /// An enum.
    pub(crate) fn read_enum(
        &mut self,
        members: &'a Members,
        space: Option<Space<'a>>,
        place: PlaceId,
    ) -> Result<NodeId, AllocError> {
        let Begun { id, name, .. } = self.begin(members, space, place)?;
        if !members.contains_key("symbols") {
            self.note(place, Fault::Missing("symbols"))?;
        }
        let symbols = self.read_symbols(members, place)?;
        self.check_symbol(members, &symbols, place)?;
        self.set(id, Node::Enum(name, symbols));
        Ok(id)
    }

    /// The symbols of an enum with their places, if they are known.
    fn read_symbols(
        &mut self,
        members: &'a Members,
        around: PlaceId,
    ) -> Result<Option<IndexMap<&'a str, PlaceId, Seeded>>, AllocError> {
        let Some(texts) = self.texts(members, "symbols", around)? else {
            return Ok(None);
        };
        if texts.is_empty() {
            self.note_member(around, "symbols", Fault::NoSymbols)?;
        }
        let mut seen = IndexMap::with_hasher(self.alloc, self.seed);
        for (symbol, place) in &texts {
            self.is_simple_name(symbol, *place)?;
            match seen.get(symbol).copied() {
                Some(before) => self.note(*place, Fault::Symbol(symbol, before))?,
                None => {
                    seen.insert(*symbol, *place)?;
                }
            }
        }
        Ok(Some(seen))
    }

    /// Notes a default of an enum that is not a string, or not one of its symbols if these are known.
    fn check_symbol(
        &mut self,
        members: &'a Members,
        symbols: &Option<IndexMap<&'a str, PlaceId, Seeded>>,
        place: PlaceId,
    ) -> Result<(), AllocError> {
        match (members.get("default"), symbols) {
            (Some(Value::String(text)), Some(symbols)) => {
                if !symbols.contains_key(text.as_str()) {
                    self.note_member(place, "default", Fault::NoSuchSymbol)?;
                }
            }
            (None | Some(Value::String(_)), _) => {}
            (Some(_), _) => self.note_must(place, "default", "a string")?,
        }
        Ok(())
    }

    /// A fixed.
    pub(crate) fn read_fixed(
        &mut self,
        members: &'a Members,
        space: Option<Space<'a>>,
        place: PlaceId,
    ) -> Result<NodeId, AllocError> {
        let Begun { id, name, .. } = self.begin(members, space, place)?;
        let size = self.read_size(members, place)?;
        self.set(id, Node::Fixed(name, size));
        Ok(id)
    }

    /// The size of a fixed.
    fn read_size(
        &mut self,
        members: &'a Members,
        place: PlaceId,
    ) -> Result<Option<u64>, AllocError> {
        match members.get("size") {
            Some(Value::Number(number)) => {
                let size = number.as_u64().filter(|n| *n <= FixedNode::MAX_SIZE as u64);
                if size.is_none() && !number.is_f64() {
                    self.note_member(place, "size", Fault::Size)?;
                }
                Ok(size)
            }
            Some(_) => {
                self.note_must(place, "size", "an integer")?;
                Ok(None)
            }
            None => {
                self.note(place, Fault::Missing("size"))?;
                Ok(None)
            }
        }
    }
}

/// The part of a name after its last dot.
fn simple_part(name: &str) -> &str {
    name.rsplit_once('.').map_or(name, |parts| parts.1)
}
