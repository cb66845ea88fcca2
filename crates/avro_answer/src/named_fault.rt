//! A fault of two schemas, with the names of what it is about.

ghost use Rattle.std.specs.Prelude.{◌≡◌, ◌<◌, ◌++◌, true, None, length, slice_get, string_bytes, option_map, OnOk, IfOk};
ghost use Rattle.std.specs.Option.{IfSome};
ghost use Rattle.serde_json.specs.Written.{compact_text};
ghost use Rattle.avro_schema.specs.SeenSchema.{schema_nodes};
ghost use Rattle.avro_answer.specs.FaultLine.{symbol_at, field_at, missing_of, fault_word, kind_part, reason_text, field_part, writer_part};
ghost use Rattle.avro_answer.specs.JsonAnswer.{detail_key, detail_member};
ghost use Rattle.avro_answer.specs.inside.JsonText.{PutsMembers};
ghost use Rattle.avro_answer.specs.inside.NamedLine.{IsNamed, named_line, named_tree, missing_seen};

use crate::json_object::JsonObject;
use crate::named_place::{NamedPlace, field_name, name_place};
use crate::type_names::node_at;
use avro_explain::{Detail, Finding, Place, way_to};
use avro_schema::{Memory, NodeId, Schema};
use std::alloc::{AllocError, Global};

/// A fault, with both nodes by name.
#[derive(Drop)]
pub(crate) struct NamedFault<'a> {
    detail: Detail,
    // The name of the writer's symbol, or of the reader's field, that is missing.
    missing: Option<&'a str>,
    writer: NamedPlace,
    reader: NamedPlace,
}

/// A fault by name, or `None` if its place is not among those found, which never happens for a fault of
/// `explain`.
pub(crate) fn name_fault<'a>(
    alloc: Global,
    writer: &'a Schema,
    reader: &'a Schema,
    places: &[Place],
    fault: Finding,
) -> Result<Option<NamedFault<'a>>, Memory>
    ensures named { IfOk result (λ found. IfSome found (IsNamed (schema_nodes writer.now) (schema_nodes reader.now) places.now fault)) }
    ensures some { fault.place < length places.now → IfOk result (λ found. found ≡ None → ⊥) }
{
    let Some(place) = place_at(places, fault.place) else {
        return Ok(None);
    };
    let way = way_to(alloc, places, fault.place)?;
    Ok(Some(NamedFault {
        detail: fault.detail,
        missing: missing_name(writer, reader, &place, fault.detail),
        writer: name_place(alloc, writer, place.w, &way.writer)?,
        reader: name_place(alloc, reader, place.r, &way.reader)?,
    }))
}

/// The place at an index.
fn place_at(places: &[Place], index: usize) -> Option<Place>
    ensures { result ≡ slice_get places.now index }
{
    places.get(index).copied()
}

/// The name of what is missing.
fn missing_name<'a>(
    writer: &'a Schema,
    reader: &'a Schema,
    place: &Place,
    detail: Detail,
) -> Option<&'a str>
    ensures { option_map (λ name. name.now) result ≡ missing_of (schema_nodes writer.now) (schema_nodes reader.now) place.now detail }
{
    match detail {
        Detail::NoSymbol(index) => symbol_name(writer, place.w, index),
        Detail::MissingField(index) => name_of_field(reader, place.r, index),
        _ => None,
    }
}

/// The name of a record's field at an index.
fn name_of_field(schema: &Schema, id: NodeId, index: usize) -> Option<&str>
    ensures { option_map (λ name. name.now) result ≡ field_at (schema_nodes schema.now) id.0 index }
{
    field_name(node_at(schema, id)?, index)
}

/// The symbol of an enum at an index.
fn symbol_name(schema: &Schema, id: NodeId, index: usize) -> Option<&str>
    ensures { option_map (λ name. name.now) result ≡ symbol_at (schema_nodes schema.now) id.0 index }
{
    let symbol = node_at(schema, id)?.symbols()?.get(index)?;
    Some(symbol.as_str())
}

/// The word of a kind of fault.
fn kind_word(detail: Detail) -> &'static str
    ensures { result.now ≡ fault_word detail }
{
    match detail {
        Detail::NoMatch => "NoMatch",
        Detail::NoBranch => "NoBranch",
        Detail::NotUtf8 => "NotUtf8",
        Detail::NoSymbol(_) => "NoSymbol",
        Detail::MissingField(_) => "MissingField",
    }
}

/// Appends the word of a kind of fault, between colons.
fn put_kind(text: &mut String, detail: Detail) -> Result<(), AllocError>
    ensures { OnOk result (string_bytes text.new ≡ string_bytes text.old ++ kind_part detail) }
{
    text.push_str(": ")?;
    text.push_str(kind_word(detail))?;
    text.push_str(": ")
}

/// Appends the writer's place, and the end of the line.
fn put_writer(text: &mut String, at: &str) -> Result<(), AllocError>
    ensures { OnOk result (string_bytes text.new ≡ string_bytes text.old ++ writer_part at.now) }
{
    text.push_str(" (writer's ")?;
    text.push_str(at)?;
    text.push_str(")\n")
}

impl<'a> NamedFault<'a> {
    /// Appends the line of the fault.
    pub(crate) fn put_line(&self, text: &mut String) -> Result<(), AllocError>
        ensures { OnOk result (string_bytes text.new ≡ string_bytes text.old ++ named_line self.now) }
    {
        text.push_str(self.reader.at.as_str())?;
        self.put_field(text)?;
        put_kind(text, self.detail)?;
        self.put_reason(text)?;
        put_writer(text, self.writer.at.as_str())
    }

    /// Appends the field that is missing, if one is.
    fn put_field(&self, text: &mut String) -> Result<(), AllocError>
        ensures { OnOk result (string_bytes text.new ≡ string_bytes text.old ++ field_part self.now.detail (missing_seen self.now)) }
    {
        match self.detail {
            Detail::MissingField(_) => {
                text.push_str(".")?;
                self.put_missing(text)
            }
            _ => Ok(()),
        }
    }

    /// Appends the name of what is missing.
    fn put_missing(&self, text: &mut String) -> Result<(), AllocError>
        ensures { OnOk result (string_bytes text.new ≡ string_bytes text.old ++ missing_seen self.now) }
    {
        match self.missing {
            Some(name) => text.push_str(name),
            None => Ok(()),
        }
    }

    /// Appends an explanation of the fault.
    fn put_reason(&self, text: &mut String) -> Result<(), AllocError>
        ensures { OnOk result (string_bytes text.new ≡ string_bytes text.old
            ++ reason_text self.now.detail (missing_seen self.now) (string_bytes self.now.writer.type_text) (string_bytes self.now.reader.type_text)) }
    {
        match self.detail {
            Detail::NoMatch => {
                text.push_str(self.writer.type_text.as_str())?;
                text.push_str(" cannot be read as ")?;
                text.push_str(self.reader.type_text.as_str())
            }
            Detail::NoBranch => {
                text.push_str("no branch of the reader's union accepts ")?;
                text.push_str(self.writer.type_text.as_str())?;
                Ok(())
            }
            Detail::NotUtf8 => {
                text.push_str("bytes read as string may not be UTF-8")?;
                Ok(())
            }
            Detail::NoSymbol(_) => {
                self.put_missing(text)?;
                text.push_str(" is not a symbol of the reader's ")?;
                text.push_str(self.reader.type_text.as_str())?;
                text.push_str(", which has no default")?;
                Ok(())
            }
            Detail::MissingField(_) => {
                text.push_str(self.writer.type_text.as_str())?;
                text.push_str(" of the writer has no such field, and there is no default")?;
                Ok(())
            }
        }
    }

    /// The object of the fault.
    pub(crate) fn json(&self, alloc: Global) -> Result<String, AllocError>
        ensures { IfOk result (λ json. string_bytes json ≡ compact_text (named_tree self.now)) }
    {
        let mut fault = JsonObject::new(alloc)?;
        fault.put_text("fault", kind_word(self.detail))?;
        put_name(&mut fault, self.detail, self.missing)?;
        let writer = self.writer.json(alloc)?;
        fault.put_json("writer", &writer)?;
        let reader = self.reader.json(alloc)?;
        fault.put_json("reader", &reader)?;
        fault.json()
    }
}

/// Puts the name of what is missing, if there is one.
fn put_name(fault: &mut JsonObject, detail: Detail, missing: Option<&str>) -> Result<(), AllocError>
    ensures { fault.old.later ≡ true → OnOk result (PutsMembers fault.old (detail_member detail (option_map (λ name. name.now) missing.entry)) fault.new) }
{
    match missing {
        Some(name) => fault.put_text(key_of_name(detail), name),
        None => Ok(()),
    }
}

/// The key of what is missing.
fn key_of_name(detail: Detail) -> &'static str
    ensures { result.now ≡ detail_key detail }
{
    match detail {
        Detail::MissingField(_) => "field",
        Detail::NoSymbol(_) => "symbol",
        Detail::NoMatch => "symbol",
        Detail::NoBranch => "symbol",
        Detail::NotUtf8 => "symbol",
    }
}
