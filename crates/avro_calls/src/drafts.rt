//! Schemas that are built node by node, of nodes in words.

use crate::datum::datum_of;
use crate::words::number_of;
use anyhow::{Result, bail};
use avro_canonical::canonical;
use avro_name::{FullName, Namespace};
use avro_schema::{
    Datum, Draft, DraftError, EnumNode, Field, FixedNode, Node, NodeId, RecordNode, Schema,
};
use std::alloc::Global;
use std::io::Write;

/// Tells the number of nodes and the canonical form of a draft, or the code of its fault, `NODES` or `NODES | DATUM`: the first
/// field of the first record has the datum as its default.
pub(crate) fn put(alloc: Global, text: &str, out: &mut Vec<u8>) -> Result<()> {
    let (nodes, words) = text.split_once(" | ").unwrap_or((text, ""));
    let mut default = default_of(alloc, words)?;
    match finished(alloc, nodes, &mut default)? {
        Ok(schema) => put_form(alloc, &schema, out),
        Err(error) => Ok(writeln!(out, "{error}")?),
    }
}

/// The default of words, or none.
fn default_of(alloc: Global, words: &str) -> Result<Option<Datum>> {
    if words.is_empty() {
        return Ok(None);
    }
    Ok(Some(datum_of(alloc, words)?))
}

/// The number of a schema's nodes, and its canonical form.
pub(crate) fn put_form(alloc: Global, schema: &Schema, out: &mut Vec<u8>) -> Result<()> {
    let form = canonical(alloc, schema)?;
    Ok(writeln!(out, "{} {form}", schema.len())?)
}

/// The schema of nodes in words.
pub(crate) fn finished(
    alloc: Global,
    nodes: &str,
    default: &mut Option<Datum>,
) -> Result<Result<Schema, DraftError>> {
    let mut draft = Draft::new(alloc);
    for word in nodes.split_whitespace() {
        draft.add(node_of(alloc, word, default)?)?;
    }
    Ok(draft.finish())
}

/// The node of a word: a type without parts by its name, `array:1`, `map:1`, `union:1,2`, `fixed:F=1`, `enum:A,B` or
/// `enum:A,B=1` with a default, and `record:R;x=1;y,z=2`, where `z` is an alias.
fn node_of(alloc: Global, word: &str, default: &mut Option<Datum>) -> Result<Node> {
    let (kind, text) = word.split_once(':').unwrap_or((word, ""));
    match kind {
        "null" => Ok(Node::Null),
        "int" => Ok(Node::Int),
        "long" => Ok(Node::Long),
        "bytes" => Ok(Node::Bytes),
        "string" => Ok(Node::Str),
        "array" => Ok(Node::Array(NodeId(number_of(text)?))),
        "map" => Ok(Node::Map(NodeId(number_of(text)?))),
        "union" => union_of(alloc, text),
        "record" => record_of(alloc, text, default),
        "enum" => enum_of(alloc, text),
        "fixed" => fixed_of(alloc, text),
        _ => bail!("no node is a {kind}"),
    }
}

/// A union of the nodes of these numbers.
fn union_of(alloc: Global, text: &str) -> Result<Node> {
    let mut branches = Vec::new(alloc);
    for number in text.split_terminator(',') {
        branches.push(NodeId(number_of(number)?))?;
    }
    Ok(Node::Union(branches))
}

/// A name in no namespace.
fn name_of(alloc: Global, text: &str) -> Result<FullName> {
    let null = Namespace::null(alloc);
    Ok(FullName::read(alloc, text, &null)?)
}

/// Texts that commas part.
fn texts_of(alloc: Global, text: &str) -> Result<Vec<String>> {
    let mut texts = Vec::new(alloc);
    for word in text.split_terminator(',') {
        texts.push(String::from_str(alloc, word)?)?;
    }
    Ok(texts)
}

/// A record of fields, of which the first takes the default.
fn record_of(alloc: Global, text: &str, default: &mut Option<Datum>) -> Result<Node> {
    let (name, list) = text.split_once(';').unwrap_or((text, ""));
    let mut fields = Vec::new(alloc);
    for field in list.split_terminator(';') {
        fields.push(field_of(alloc, field, default)?)?;
    }
    Ok(Node::Record(RecordNode {
        name: name_of(alloc, name)?,
        aliases: Vec::new(alloc),
        fields,
    }))
}

/// A field, which takes the default.
fn field_of(alloc: Global, text: &str, default: &mut Option<Datum>) -> Result<Field> {
    let (names, number) = text.split_once('=').unwrap_or((text, ""));
    let (name, aliases) = names.split_once(',').unwrap_or((names, ""));
    Ok(Field {
        name: String::from_str(alloc, name)?,
        aliases: texts_of(alloc, aliases)?,
        node: NodeId(number_of(number)?),
        default: default.take(),
    })
}

/// An enum E.
fn enum_of(alloc: Global, text: &str) -> Result<Node> {
    let (symbols, default) = text.split_once('=').unwrap_or((text, ""));
    Ok(Node::Enum(EnumNode {
        name: name_of(alloc, "E")?,
        aliases: Vec::new(alloc),
        symbols: texts_of(alloc, symbols)?,
        default: default.parse::<u32>().ok(),
    }))
}

/// A fixed of a size.
fn fixed_of(alloc: Global, text: &str) -> Result<Node> {
    let (name, size) = text.split_once('=').unwrap_or((text, ""));
    Ok(Node::Fixed(FixedNode {
        name: name_of(alloc, name)?,
        aliases: Vec::new(alloc),
        size: number_of(size)?,
    }))
}
