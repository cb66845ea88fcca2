ghost use Rattle.std.specs.Prelude.{◌≡◌, ◌<◌, List, length, map, IfOk, slice_get, option_map, option_and_then, string_bytes};
ghost use Rattle.avro_schema.specs.Fits.{fits as value_fits, each_fits as values_fit, entries_fit as values_of_map_fit, fields_fit as values_fit_fields};
ghost use Rattle.avro_schema.specs.Node.{Node as SeenNode, node_at, branches_of, field_ids};
ghost use Rattle.avro_schema.specs.Seen.{value_of, values_of, entries_of, node_of, nodes_of, seen_fields};
ghost use Rattle.avro_schema.specs.SeenSchema.{schema_nodes};
ghost use Rattle.avro_schema.specs.Value.{Value, keys_of};

use crate::datum::{Datum, Memory};
use crate::schema::{Field, Node, NodeId, Schema};
use crate::uniqueness::are_unique_texts;
use std::alloc::Global;

/// Whether a datum is valid for a node of the schema.
///
/// # Errors
///
/// Memory ran out.
pub fn fits(alloc: Global, schema: &Schema, node: NodeId, datum: &Datum) -> Result<bool, Memory>
    requires { node.0 < length (schema_nodes schema.now) }
    ensures { IfOk result (λ answer.
        answer ≡ value_fits (schema_nodes schema.now) (node_at (schema_nodes schema.now) node.0) (value_of datum.now)) }
{
    fits_at(alloc, schema.nodes(), node, datum)
}

/// Whether a datum is valid for the node with this id; an id without a node counts as null.
#[cycle(fitting)]
pub(crate) fn fits_at(
    alloc: Global,
    nodes: &[Node],
    id: NodeId,
    datum: &Datum,
) -> Result<bool, Memory>
    ensures { IfOk result (λ answer. answer ≡ value_fits (nodes_of nodes.now) (node_at (nodes_of nodes.now) id.0) (value_of datum.now)) }
{
    match nodes.get(id.0 as usize) {
        Some(node) => fits_node(alloc, nodes, node, datum),
        None => fits_node(alloc, nodes, &Node::Null, datum),
    }
}

/// Whether a datum is valid for a node.
#[cycle(fitting)]
fn fits_node(alloc: Global, nodes: &[Node], node: &Node, datum: &Datum) -> Result<bool, Memory>
    ensures { IfOk result (λ answer. answer ≡ value_fits (nodes_of nodes.now) (node_of node.now) (value_of datum.now)) }
{
    match datum {
        Datum::Null => Ok(matches!(node, Node::Null)),
        Datum::Bool(_) => Ok(matches!(node, Node::Boolean)),
        Datum::Int(value) => Ok(fits_int(node, value)),
        Datum::Long(value) => Ok(fits_long(node, value)),
        Datum::Bytes(bytes) => Ok(fits_bytes(node, bytes)),
        Datum::Str(text) => Ok(fits_text(node, text)),
        Datum::Array(items) => fits_array(alloc, nodes, node, items),
        Datum::Map(entries) => fits_map(alloc, nodes, node, entries),
        Datum::Union(branch, value) => match node.branch(*branch) {
            Some(id) => fits_at(alloc, nodes, id, value),
            None => Ok(false),
        },
        Datum::Record(values) => fits_record(alloc, nodes, node, values),
        Datum::Enum(symbol) => Ok(fits_enum(node, *symbol)),
        Datum::Fixed(bytes) => Ok(fits_fixed(node, bytes)),
    }
}

/// Whether an int is valid for the node.
fn fits_int(node: &Node, value: &i32) -> bool
    ensures { (nodes : List SeenNode) → result ≡ value_fits nodes (node_of node.now) (Value.int value.now) }
{
    // Reading the number tells the proof that it is in range.
    let _value = *value;
    matches!(node, Node::Int)
}

/// Whether a long is valid for the node.
fn fits_long(node: &Node, value: &i64) -> bool
    ensures { (nodes : List SeenNode) → result ≡ value_fits nodes (node_of node.now) (Value.long value.now) }
{
    // Reading the number tells the proof that it is in range.
    let _value = *value;
    matches!(node, Node::Long)
}

/// Whether bytes are valid for the node.
fn fits_bytes(node: &Node, bytes: &Vec<u8>) -> bool
    ensures { (nodes : List SeenNode) → result ≡ value_fits nodes (node_of node.now) (Value.bytes bytes.now.items) }
{
    matches!(node, Node::Bytes)
}

/// Whether a string is valid for the node.
fn fits_text(node: &Node, text: &String) -> bool
    ensures { (nodes : List SeenNode) → result ≡ value_fits nodes (node_of node.now) (Value.string (string_bytes text.now)) }
{
    matches!(node, Node::Str)
}

/// Whether the index of a symbol is valid for the node.
fn fits_enum(node: &Node, symbol: u32) -> bool
    ensures { (nodes : List SeenNode) → result ≡ value_fits nodes (node_of node.now) (Value.enum symbol) }
{
    match node {
        Node::Enum(enumeration) => (symbol as usize) < enumeration.symbols.len(),
        _ => false,
    }
}

/// Whether the bytes of a fixed are valid for the node.
fn fits_fixed(node: &Node, bytes: &Vec<u8>) -> bool
    ensures { (nodes : List SeenNode) → result ≡ value_fits nodes (node_of node.now) (Value.fixed bytes.now.items) }
{
    match node {
        Node::Fixed(fixed) => bytes.len() == fixed.size as usize,
        _ => false,
    }
}

/// Whether an array of these items is valid for the node.
#[cycle(fitting)]
fn fits_array(
    alloc: Global,
    nodes: &[Node],
    node: &Node,
    items: &Vec<Datum>,
) -> Result<bool, Memory>
    ensures { IfOk result (λ answer. answer ≡ value_fits (nodes_of nodes.now) (node_of node.now) (Value.array (values_of items.now.items))) }
{
    match node {
        Node::Array(id) => each_fits(alloc, nodes, *id, items),
        _ => Ok(false),
    }
}

/// Whether all these data are valid for the node with this id.
#[cycle(fitting)]
fn each_fits(alloc: Global, nodes: &[Node], id: NodeId, items: &[Datum]) -> Result<bool, Memory>
    ensures { IfOk result (λ answer. answer ≡ values_fit (nodes_of nodes.now) (node_at (nodes_of nodes.now) id.0) (values_of items.now)) }
{
    for item in items {
        if !fits_at(alloc, nodes, id, item)? {
            return Ok(false);
        }
    }
    Ok(true)
}

/// Whether a map of these entries is valid for the node.
#[cycle(fitting)]
fn fits_map(
    alloc: Global,
    nodes: &[Node],
    node: &Node,
    entries: &Vec<(String, Datum)>,
) -> Result<bool, Memory>
    ensures { IfOk result (λ answer. answer ≡ value_fits (nodes_of nodes.now) (node_of node.now) (Value.map_of (entries_of entries.now.items))) }
{
    match node {
        Node::Map(id) => {
            if !are_unique_texts(keys(alloc, entries)?)? {
                return Ok(false);
            }
            entries_fit(alloc, nodes, *id, entries)
        }
        _ => Ok(false),
    }
}

/// The keys of a map.
fn keys(alloc: Global, entries: &[(String, Datum)]) -> Result<Vec<&str>, Memory>
    ensures { IfOk result (λ keys. map (λ key. key.now) keys.items ≡ keys_of (entries_of entries.now)) }
{
    let mut keys: Vec<&str> = Vec::new(alloc);
    for entry in entries {
        keys.push(entry.0.as_str())?;
    }
    Ok(keys)
}

/// Whether all values of a map are valid for the node with this id.
#[cycle(fitting)]
fn entries_fit(
    alloc: Global,
    nodes: &[Node],
    id: NodeId,
    entries: &[(String, Datum)],
) -> Result<bool, Memory>
    ensures { IfOk result (λ answer. answer ≡ values_of_map_fit (nodes_of nodes.now) (node_at (nodes_of nodes.now) id.0) (entries_of entries.now)) }
{
    for entry in entries {
        if !fits_at(alloc, nodes, id, &entry.1)? {
            return Ok(false);
        }
    }
    Ok(true)
}

/// Whether a record of these field values is valid for the node.
#[cycle(fitting)]
fn fits_record(alloc: Global, nodes: &[Node], node: &Node, values: &[Datum]) -> Result<bool, Memory>
    ensures { IfOk result (λ answer. answer ≡ value_fits (nodes_of nodes.now) (node_of node.now) (Value.record_of (values_of values.now))) }
{
    match node {
        Node::Record(record) => fields_fit(alloc, nodes, &record.fields, values),
        _ => Ok(false),
    }
}

/// Whether there is exactly one value for each field, valid for the field's node.
#[cycle(fitting)]
fn fields_fit(
    alloc: Global,
    nodes: &[Node],
    fields: &[Field],
    values: &[Datum],
) -> Result<bool, Memory>
    ensures { IfOk result (λ answer. answer ≡ values_fit_fields (nodes_of nodes.now) (field_ids (seen_fields fields.now)) (values_of values.now)) }
{
    if fields.len() != values.len() {
        return Ok(false);
    }
    for i in 0..values.len() {
        if !fits_at(alloc, nodes, fields[i].node, &values[i])? {
            return Ok(false);
        }
    }
    Ok(true)
}
