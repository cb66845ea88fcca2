//! Nodes with their defaults.

ghost use Rattle.std.specs.Prelude.{◌≡◌, ◌⊎◌, ◌<◌, true, [], None, length, map, option_map, IfOk, IfErr, IfSome, OnOk, Contains};
ghost use Rattle.std.specs.List.{list_all};
ghost use Rattle.std.specs.Vec.Iter.{into_iter_items};
ghost use Rattle.avro_schema.specs.Seen.{value_of, node_of, seen_fields};
ghost use Rattle.avro_schema.specs.SeenSchema.{schema_nodes, draft_nodes};
ghost use Rattle.avro_schema.specs.WellFormed.{is_schema};
ghost use Rattle.avro_schema.specs.declared.fault.DraftError.TheVariants.{LimitExceeded as DraftLimit, OutOfMemory as DraftMemory};
ghost use Rattle.avro_schema_json.specs.DeclaredAttributes.{unless};
ghost use Rattle.avro_schema_json.specs.DeclaredFaults.{refusals_of_nodes, or_else};
ghost use Rattle.avro_schema_json.specs.DeclaredSchema.{field_default, is_default_read, are_defaults_read, are_all_defaults_read, completed_nodes};
ghost use Rattle.avro_schema_json.specs.inside.Repeats.{AreNamesDistinct, IsRepeat};
ghost use Rattle.avro_schema_json.specs.inside.Tables.{IsMarking};
ghost use Rattle.avro_schema_json.specs.inside.OwnDefaults.{all_without_defaults};
ghost use Rattle.avro_schema_json.specs.inside.SeenDefaults.{data_seen, lists_seen, defaults_of_node as node_defaults_by, first_or, others_of, fields_with_defaults, node_with_defaults, nodes_with_defaults};
ghost use Rattle.avro_schema_json.specs.inside.SeenRaw.{raw_field_of, raw_fields_of, raw_node_of, raw_nodes_of};
ghost use Rattle.avro_schema_json.specs.declared.error.SchemaError.TheVariants.{InvalidDefault, OutOfMemory};

use crate::defaults::tables::{Marking, marking_of};
use crate::defaults::{default_of, unmarked_default};
use crate::error::SchemaError;
use crate::raw::{RawEnum, RawField, RawNode, RawRecord};
use crate::repeats::{has_repeated_branch, has_repeated_field};
use crate::seeds::Seeds;
use avro_schema::{Datum, Draft, DraftError, Field, Memory, Node, RecordNode, Schema};
use avro_texts::Seeded;
use std::alloc::Global;
use std::vec::IntoIter;

/// The defaults of the fields of a node, and whether each one present is a datum.
#[derive(Drop)]
struct NodeDefaults {
    of_fields: Vec<Option<Datum>>,
    are_read: bool,
}

/// The defaults of nodes, and whether each one present is a datum.
#[derive(Drop)]
struct Defaults {
    of_nodes: Vec<Vec<Option<Datum>>>,
    are_read: bool,
}

/// The default of a field, where it is present and a datum.
fn default_of_field(
    alloc: Global,
    seed: Seeded,
    raws: &[RawNode],
    marking: &mut Option<Marking<'_>>,
    field: &RawField,
) -> Result<Option<Datum>, Memory>
    requires marking { IfSome marking.old (IsMarking (all_without_defaults raws.now)) }
    ensures marking { OnOk result (IfSome marking.new (IsMarking (all_without_defaults raws.now))) }
    ensures default { IfOk result (λ datum. option_map value_of datum ≡ field_default (all_without_defaults raws.now) (raw_field_of field.now)) }
{
    match field.default {
        Some(tree) => match marking {
            Some(marking) => default_of(alloc, seed, raws, marking, tree, field.node),
            None => unmarked_default(alloc, seed, raws, tree, field.node),
        },
        None => Ok(None),
    }
}

/// The defaults of fields.
fn defaults_of_fields(
    alloc: Global,
    seed: Seeded,
    raws: &[RawNode],
    marking: &mut Option<Marking<'_>>,
    fields: &[RawField],
) -> Result<NodeDefaults, Memory>
    requires marking { IfSome marking.old (IsMarking (all_without_defaults raws.now)) }
    ensures marking { OnOk result (IfSome marking.new (IsMarking (all_without_defaults raws.now))) }
    ensures data { IfOk result (λ defaults. data_seen defaults.of_fields.items ≡ map (field_default (all_without_defaults raws.now)) (raw_fields_of fields.now)) }
    ensures read { IfOk result (λ defaults. defaults.are_read ≡ list_all (is_default_read (all_without_defaults raws.now)) (raw_fields_of fields.now)) }
{
    let mut of_fields: Vec<Option<Datum>> = Vec::with_capacity(alloc, fields.len())?;
    let mut are_read = true;
    for field in fields {
        let default = default_of_field(alloc, seed, raws, marking, field)?;
        are_read = are_read && (default.is_some() || !field.default.is_some());
        of_fields.push(default)?;
    }
    Ok(NodeDefaults {
        of_fields,
        are_read,
    })
}

/// The defaults of a node.
fn defaults_of_node(
    alloc: Global,
    seed: Seeded,
    raws: &[RawNode],
    marking: &mut Option<Marking<'_>>,
    raw: &RawNode,
) -> Result<NodeDefaults, Memory>
    requires marking { IfSome marking.old (IsMarking (all_without_defaults raws.now)) }
    ensures marking { OnOk result (IfSome marking.new (IsMarking (all_without_defaults raws.now))) }
    ensures data { IfOk result (λ defaults. data_seen defaults.of_fields.items ≡ node_defaults_by (all_without_defaults raws.now) (raw_node_of raw.now)) }
    ensures read { IfOk result (λ defaults. defaults.are_read ≡ are_defaults_read (all_without_defaults raws.now) (raw_node_of raw.now)) }
{
    match raw {
        RawNode::Record(record) => defaults_of_fields(alloc, seed, raws, marking, &record.fields),
        _ => Ok(NodeDefaults {
            of_fields: Vec::new(alloc),
            are_read: true,
        }),
    }
}

/// The defaults of all nodes, by the tables.
fn defaults_by_tables(
    alloc: Global,
    seed: Seeded,
    raws: &[RawNode],
    marking: &mut Option<Marking<'_>>,
) -> Result<Defaults, Memory>
    requires marking { IfSome marking.old (IsMarking (all_without_defaults raws.now)) }
    ensures marking { OnOk result (IfSome marking.new (IsMarking (all_without_defaults raws.now))) }
    ensures data { IfOk result (λ defaults. lists_seen defaults.of_nodes.items ≡ map (node_defaults_by (all_without_defaults raws.now)) (raw_nodes_of raws.now)) }
    ensures read { IfOk result (λ defaults. defaults.are_read ≡ are_all_defaults_read (raw_nodes_of raws.now)) }
{
    let mut of_nodes: Vec<Vec<Option<Datum>>> = Vec::with_capacity(alloc, raws.len())?;
    let mut are_read = true;
    for raw in raws {
        let NodeDefaults {
            of_fields,
            are_read: are_these_read,
        } = defaults_of_node(alloc, seed, raws, marking, raw)?;
        are_read = are_read && are_these_read;
        of_nodes.push(of_fields)?;
    }
    Ok(Defaults { of_nodes, are_read })
}

/// The defaults of all nodes, for which tables are made.
fn tabled_defaults(alloc: Global, seed: Seeded, raws: &[RawNode]) -> Result<Defaults, Memory>
    requires distinct { AreNamesDistinct (all_without_defaults raws.now) }
    ensures data { IfOk result (λ defaults. lists_seen defaults.of_nodes.items ≡ map (node_defaults_by (all_without_defaults raws.now)) (raw_nodes_of raws.now)) }
    ensures read { IfOk result (λ defaults. defaults.are_read ≡ are_all_defaults_read (raw_nodes_of raws.now)) }
{
    let mut marking = Some(marking_of(alloc, seed, raws)?);
    defaults_by_tables(alloc, seed, raws, &mut marking)
}

/// Refuses unions in which a branch occurs twice, and records with two fields of one name.
fn check_repeats(alloc: Global, seed: Seeded, raws: &[RawNode]) -> Result<(), SchemaError>
    ensures distinct { OnOk result (AreNamesDistinct (all_without_defaults raws.now)) }
    ensures refused { IfErr result (IsRepeat (all_without_defaults raws.now)) }
{
    if has_repeated_branch(alloc, raws)? {
        return Err(SchemaError::InvalidUnion);
    }
    if has_repeated_field(alloc, seed, raws)? {
        return Err(SchemaError::DuplicateField);
    }
    Ok(())
}

/// The defaults of all nodes. Where tables are made for them, what repeats is refused first.
fn defaults_of_nodes(alloc: Global, seeds: Seeds, raws: &[RawNode]) -> Result<Defaults, SchemaError>
    ensures data { IfOk result (λ defaults. lists_seen defaults.of_nodes.items ≡ map (node_defaults_by (all_without_defaults raws.now)) (raw_nodes_of raws.now)) }
    ensures read { IfOk result (λ defaults. defaults.are_read ≡ are_all_defaults_read (raw_nodes_of raws.now)) }
    ensures refused { IfErr result (IsRepeat (all_without_defaults raws.now)) }
{
    match seeds.defaults {
        Some(seed) => {
            check_repeats(alloc, seed, raws)?;
            Ok(tabled_defaults(alloc, seed, raws)?)
        }
        None => Ok(defaults_by_tables(alloc, seeds.names, raws, &mut None)?),
    }
}

/// The next default, or none where the list ends.
fn next_default(defaults: &mut IntoIter<Option<Datum>>) -> Option<Datum>
    ensures first { option_map value_of result ≡ first_or None (data_seen (into_iter_items defaults.old)) }
    ensures others { data_seen (into_iter_items defaults.new) ≡ others_of (data_seen (into_iter_items defaults.old)) }
{
    match defaults.next() {
        Some(default) => default,
        None => None,
    }
}

/// The next list of defaults, or an empty one where there is none.
fn next_list(alloc: Global, defaults: &mut IntoIter<Vec<Option<Datum>>>) -> Vec<Option<Datum>>
    ensures first { data_seen result.items ≡ first_or [] (lists_seen (into_iter_items defaults.old)) }
    ensures others { lists_seen (into_iter_items defaults.new) ≡ others_of (lists_seen (into_iter_items defaults.old)) }
{
    match defaults.next() {
        Some(list) => list,
        None => Vec::new(alloc),
    }
}

/// The fields with these defaults.
fn complete_fields(
    alloc: Global,
    fields: Vec<RawField<'_>>,
    defaults: Vec<Option<Datum>>,
) -> Result<Vec<Field>, Memory>
    ensures { IfOk result (λ completed. seen_fields completed.items ≡ fields_with_defaults (raw_fields_of fields.entry.items) (data_seen defaults.items)) }
{
    let mut completed: Vec<Field> = Vec::with_capacity(alloc, fields.len())?;
    let mut rest = defaults.into_iter();
    for field in fields {
        let default = next_default(&mut rest);
        completed.push(Field {
            name: field.name,
            aliases: field.aliases,
            node: field.node,
            default,
        })?;
    }
    Ok(completed)
}

/// The node with these defaults.
fn complete_node(
    alloc: Global,
    raw: RawNode<'_>,
    defaults: Vec<Option<Datum>>,
) -> Result<Node, Memory>
    ensures { IfOk result (λ node. node_of node ≡ node_with_defaults (raw_node_of raw.entry) (data_seen defaults.items)) }
{
    match raw {
        RawNode::Null => Ok(Node::Null),
        RawNode::Boolean => Ok(Node::Boolean),
        RawNode::Int => Ok(Node::Int),
        RawNode::Long => Ok(Node::Long),
        RawNode::Bytes => Ok(Node::Bytes),
        RawNode::Str => Ok(Node::Str),
        RawNode::Array(items) => Ok(Node::Array(items)),
        RawNode::Map(values) => Ok(Node::Map(values)),
        RawNode::Union(branches) => Ok(Node::Union(branches)),
        RawNode::Record(
            RawRecord {
                name,
                aliases,
                fields,
            },
        ) => {
            let fields = complete_fields(alloc, fields, defaults)?;
            Ok(Node::Record(RecordNode {
                name,
                aliases,
                fields,
            }))
        }
        RawNode::Enum(RawEnum { node, indices: _ }) => Ok(Node::Enum(node)),
        RawNode::Fixed(node) => Ok(Node::Fixed(node)),
    }
}

/// A draft of the nodes with these defaults.
fn draft_of(
    alloc: Global,
    raws: Vec<RawNode<'_>>,
    defaults: Vec<Vec<Option<Datum>>>,
) -> Result<Draft, DraftError>
    ensures nodes { IfOk result (λ draft. draft_nodes draft ≡ nodes_with_defaults (raw_nodes_of raws.entry.items) (lists_seen defaults.items)) }
    ensures refused { IfErr result (λ e. (e ≡ DraftMemory) ⊎ ((e ≡ DraftLimit) × (4096 < length raws.entry.items))) }
{
    let mut draft = Draft::new(alloc);
    let mut rest = defaults.into_iter();
    for raw in raws {
        let node = complete_node(alloc, raw, next_list(alloc, &mut rest))?;
        draft.add(node)?;
    }
    Ok(draft)
}

/// The schema of nodes. A default that is not a datum is left out at first, so that another fault
/// of the nodes is reported before it.
pub(crate) fn schema_of(
    alloc: Global,
    seeds: Seeds,
    raws: Vec<RawNode<'_>>,
) -> Result<Schema, SchemaError>
    ensures found { IfOk result (λ schema. schema_nodes schema ≡ completed_nodes (raw_nodes_of raws.entry.items)) }
    ensures formed { OnOk result (is_schema (completed_nodes (raw_nodes_of raws.entry.items)) ≡ true) }
    ensures read { OnOk result (are_all_defaults_read (raw_nodes_of raws.entry.items) ≡ true) }
    ensures refused { IfErr result (λ e. (e ≡ OutOfMemory)
        ⊎ Contains (or_else (refusals_of_nodes (completed_nodes (raw_nodes_of raws.entry.items))) (unless (are_all_defaults_read (raw_nodes_of raws.entry.items)) InvalidDefault)) e) }
{
    let Defaults { of_nodes, are_read } = defaults_of_nodes(alloc, seeds, &raws)?;
    let draft = draft_of(alloc, raws, of_nodes)?;
    let schema = draft.finish()?;
    if !are_read {
        return Err(SchemaError::InvalidDefault);
    }
    Ok(schema)
}
