//! The text of a type.

ghost use Rattle.std.specs.Prelude.{◌≡◌, ◌++◌, Some, codes, decimal, string_bytes, option_map, slice_get, OnOk, IfOk};
ghost use Rattle.avro_schema.specs.Seen.{node_of};
ghost use Rattle.avro_schema.specs.SeenSchema.{schema_nodes};
ghost use Rattle.avro_display.specs.DisplayTree.{name_text};
ghost use Rattle.avro_answer.specs.PlaceText.{type_word, branch_word, own_type, type_text, type_front, type_held};

use avro_name::FullName;
use avro_schema::{Node, NodeId, Schema};
use std::alloc::AllocError;

/// How many arrays and maps within one another the text of a type shows.
const LEVELS: usize = 256;

/// The node of an id, where there is one.
pub(crate) fn node_at(schema: &Schema, id: NodeId) -> Option<&Node>
    ensures { option_map (λ node. node_of node.now) result ≡ slice_get (schema_nodes schema.now) id.0 }
{
    if schema.has(id) {
        Some(schema.node(id))
    } else {
        None
    }
}

/// Appends a type: a fullname, that of a fixed with its size, or a word, that of an array or a map with what it holds.
pub(crate) fn push_type(schema: &Schema, id: NodeId, text: &mut String) -> Result<(), AllocError>
    ensures { OnOk result (string_bytes text.new ≡ string_bytes text.old ++ type_text 256 (schema_nodes schema.now) id.0) }
{
    let mut id = id;
    for _level in 0..LEVELS {
        match push_level(schema, id, text)? {
            Some(held) => id = held,
            None => return Ok(()),
        }
    }
    Ok(())
}

/// Appends the word of an array or a map, and returns what it holds; or appends another type.
fn push_level(schema: &Schema, id: NodeId, text: &mut String) -> Result<Option<NodeId>, AllocError>
    ensures text { OnOk result (string_bytes text.new ≡ string_bytes text.old ++ type_front (slice_get (schema_nodes schema.now) id.0)) }
    ensures held { IfOk result (λ held. option_map (λ i. i.0) held ≡ type_held (slice_get (schema_nodes schema.now) id.0)) }
{
    match node_at(schema, id) {
        None => Ok(None),
        Some(node) => push_front(node, text),
    }
}

/// The same of a node.
fn push_front(node: &Node, text: &mut String) -> Result<Option<NodeId>, AllocError>
    ensures text { OnOk result (string_bytes text.new ≡ string_bytes text.old ++ type_front (Some (node_of node.now))) }
    ensures held { IfOk result (λ held. option_map (λ i. i.0) held ≡ type_held (Some (node_of node.now))) }
{
    match node {
        Node::Array(items) => {
            text.push_str("array of ")?;
            Ok(Some(*items))
        }
        Node::Map(values) => {
            text.push_str("map of ")?;
            Ok(Some(*values))
        }
        _ => {
            push_own_type(node, text)?;
            Ok(None)
        }
    }
}

/// Appends the type of a node that is no array and no map.
fn push_own_type(node: &Node, text: &mut String) -> Result<(), AllocError>
    ensures { OnOk result (string_bytes text.new ≡ string_bytes text.old ++ own_type (node_of node.now)) }
{
    match node {
        Node::Fixed(fixed) => push_fixed(&fixed.name, fixed.size, text),
        _ => push_branch_word(node, text),
    }
}

/// Appends a fixed with its size.
fn push_fixed(name: &FullName, size: u32, text: &mut String) -> Result<(), AllocError>
    ensures { OnOk result (string_bytes text.new ≡ string_bytes text.old ++ (name_text name.now ++ codes "(" ++ decimal size ++ codes ")")) }
{
    push_name(name, text)?;
    text.push_str("(")?;
    let digits = size.to_string(*text.allocator())?;
    text.push_str(digits.as_str())?;
    text.push_str(")")
}

/// Appends a fullname.
fn push_name(name: &FullName, text: &mut String) -> Result<(), AllocError>
    ensures { OnOk result (string_bytes text.new ≡ string_bytes text.old ++ name_text name.now) }
{
    let namespace = name.namespace();
    if namespace.is_empty() {
        return text.push_str(name.simple());
    }
    text.push_str(namespace)?;
    text.push_str(".")?;
    text.push_str(name.simple())
}

/// The word of a kind of type.
fn word_of(node: &Node) -> &'static str
    ensures { result.now ≡ type_word (node_of node.now) }
{
    match node {
        Node::Null => "null",
        Node::Boolean => "boolean",
        Node::Int => "int",
        Node::Long => "long",
        Node::Bytes => "bytes",
        Node::Str => "string",
        Node::Array(_) => "array",
        Node::Map(_) => "map",
        Node::Union(_) => "union",
        Node::Record(_) => "record",
        Node::Enum(_) => "enum",
        Node::Fixed(_) => "fixed",
    }
}

/// Appends a fullname, or the word of a type.
pub(crate) fn push_branch_word(node: &Node, text: &mut String) -> Result<(), AllocError>
    ensures { OnOk result (string_bytes text.new ≡ string_bytes text.old ++ branch_word (node_of node.now)) }
{
    match node {
        Node::Record(record) => push_name(&record.name, text),
        Node::Enum(enumeration) => push_name(&enumeration.name, text),
        Node::Fixed(fixed) => push_name(&fixed.name, text),
        _ => text.push_str(word_of(node)),
    }
}
