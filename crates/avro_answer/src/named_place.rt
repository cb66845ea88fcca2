//! A node of a schema, with the way to it by names.

ghost use Rattle.std.specs.Prelude.{◌≡◌, ◌++◌, Some, string_bytes, option_map, option_and_then, slice_get, OnOk, IfOk};
ghost use Rattle.serde_json.specs.Written.{compact_text};
ghost use Rattle.avro_schema.specs.Seen.{node_of};
ghost use Rattle.avro_schema.specs.SeenSchema.{schema_nodes};
ghost use Rattle.avro_answer.specs.PlaceText.{type_text, branch_mark, field_mark, field_name_at, field_id_at, branch_id_at, mark_from, end_from, step_mark, step_end, way_text, place_text};

use crate::json_object::JsonObject;
use crate::type_names::{node_at, push_branch_word, push_type};
use avro_explain::PathStep;
use avro_schema::{Node, NodeId, Schema};
use std::alloc::{AllocError, Global};

/// A node of a schema, by names.
#[derive(Drop)]
pub(crate) struct NamedPlace {
    /// The number of the node.
    node: u32,
    /// The way from the root: `$`, then `.field`, `[]`, `{}` and `<branch>`.
    pub(crate) at: String,
    /// The type.
    pub(crate) type_text: String,
}

impl NamedPlace {
    ghost use Rattle.avro_answer.specs.inside.NamedTree.{named_place_tree};

    /// The object of the place.
    pub(crate) fn json(&self, alloc: Global) -> Result<String, AllocError>
        ensures { IfOk result (λ json. string_bytes json ≡ compact_text (named_place_tree self.now)) }
    {
        let mut place = JsonObject::new(alloc)?;
        place.put_number("node", u64::from(self.node))?;
        place.put_text("at", &self.at)?;
        place.put_text("type", &self.type_text)?;
        place.json()
    }
}

/// The node of an id by names, with the way to it.
pub(crate) fn name_place(
    alloc: Global,
    schema: &Schema,
    id: NodeId,
    way: &[PathStep],
) -> Result<NamedPlace, AllocError>
    ensures node { IfOk result (λ p. p.node ≡ id.0) }
    ensures at { IfOk result (λ p. string_bytes p.at ≡ place_text (schema_nodes schema.now) way.now) }
    ensures type_text { IfOk result (λ p. string_bytes p.type_text ≡ type_text 256 (schema_nodes schema.now) id.0) }
{
    let mut at = String::from_str(alloc, "$")?;
    push_way(schema, way, &mut at)?;
    let mut type_text = String::new(alloc);
    push_type(schema, id, &mut type_text)?;
    Ok(NamedPlace {
        node: id.0,
        at,
        type_text,
    })
}

/// Appends texts.
pub(crate) fn push_all(text: &mut String, parts: &[&str]) -> Result<(), AllocError> {
    for part in parts {
        text.push_str(part)?;
    }
    Ok(())
}

/// Appends the steps of a way from the root.
fn push_way(schema: &Schema, way: &[PathStep], text: &mut String) -> Result<(), AllocError>
    ensures { OnOk result (string_bytes text.new ≡ string_bytes text.old ++ way_text (schema_nodes schema.now) (Some 0) way.now) }
{
    let mut here = Some(schema.root());
    for step in way {
        here = push_from(schema, here, *step, text)?;
    }
    Ok(())
}

/// Appends one step from a node, if there is one, and returns the node that it leads to.
fn push_from(
    schema: &Schema,
    here: Option<NodeId>,
    step: PathStep,
    text: &mut String,
) -> Result<Option<NodeId>, AllocError>
    ensures text { OnOk result (string_bytes text.new ≡ string_bytes text.old
        ++ mark_from (schema_nodes schema.now) (option_and_then (slice_get (schema_nodes schema.now)) (option_map (λ id. id.0) here)) step) }
    ensures next { IfOk result (λ next. option_map (λ id. id.0) next
        ≡ end_from (option_and_then (slice_get (schema_nodes schema.now)) (option_map (λ id. id.0) here)) step) }
{
    let Some(id) = here else {
        return Ok(None);
    };
    match node_at(schema, id) {
        None => Ok(None),
        Some(node) => push_step(schema, node, step, text),
    }
}

/// Appends one step from a node, and returns the node that it leads to.
fn push_step(
    schema: &Schema,
    node: &Node,
    step: PathStep,
    text: &mut String,
) -> Result<Option<NodeId>, AllocError>
    ensures text { OnOk result (string_bytes text.new ≡ string_bytes text.old ++ step_mark (schema_nodes schema.now) (node_of node.now) step) }
    ensures next { IfOk result (λ next. option_map (λ id. id.0) next ≡ step_end (node_of node.now) step) }
{
    match step {
        PathStep::Field(index) => {
            push_field(field_name(node, index), text)?;
            Ok(field_id(node, index))
        }
        PathStep::Branch(index) => {
            push_branch_at(schema, branch_id(node, index), text)?;
            Ok(branch_id(node, index))
        }
        PathStep::Items => {
            text.push_str("[]")?;
            Ok(node.items())
        }
        PathStep::Values => {
            text.push_str("{}")?;
            Ok(node.values())
        }
    }
}

/// The node of a union's branch at an index.
fn branch_id(node: &Node, index: usize) -> Option<NodeId>
    ensures { option_map (λ id. id.0) result ≡ branch_id_at (node_of node.now) index }
{
    node.branches()?.get(index).copied()
}

/// Appends a step to a record's field.
fn push_field(name: Option<&str>, text: &mut String) -> Result<(), AllocError>
    ensures { OnOk result (string_bytes text.new ≡ string_bytes text.old ++ field_mark (option_map (λ n. n.now) name.entry)) }
{
    let Some(name) = name else {
        return Ok(());
    };
    text.push_str(".")?;
    text.push_str(name)
}

/// The name of a record's field at an index.
pub(crate) fn field_name(node: &Node, index: usize) -> Option<&str>
    ensures { option_map (λ n. n.now) result ≡ field_name_at (node_of node.now) index }
{
    let field = node.fields()?.get(index)?;
    Some(field.name.as_str())
}

/// The node of a record's field at an index.
fn field_id(node: &Node, index: usize) -> Option<NodeId>
    ensures { option_map (λ id. id.0) result ≡ field_id_at (node_of node.now) index }
{
    let field = node.fields()?.get(index)?;
    Some(field.node)
}

/// Appends a step to a branch of a union, if there is one.
fn push_branch_at(schema: &Schema, id: Option<NodeId>, text: &mut String) -> Result<(), AllocError>
    ensures { OnOk result (string_bytes text.new ≡ string_bytes text.old
        ++ branch_mark (option_and_then (slice_get (schema_nodes schema.now)) (option_map (λ i. i.0) id))) }
{
    match id {
        None => Ok(()),
        Some(id) => push_branch(schema, id, text),
    }
}

/// Appends a step to a branch of a union: its fullname, or the word of its type.
pub(crate) fn push_branch(schema: &Schema, id: NodeId, text: &mut String) -> Result<(), AllocError>
    ensures { OnOk result (string_bytes text.new ≡ string_bytes text.old ++ branch_mark (slice_get (schema_nodes schema.now) id.0)) }
{
    let Some(branch) = node_at(schema, id) else {
        return Ok(());
    };
    text.push_str("<")?;
    push_branch_word(branch, text)?;
    text.push_str(">")
}
