//! Defaults of fields.

ghost use Rattle.std.specs.Prelude.{◌≡◌, Some, option_map, IfOk, OnOk};
ghost use Rattle.avro_schema.specs.Node.{node_at, branches_of};
ghost use Rattle.avro_schema.specs.Seen.{value_of, values_of, entries_of, ids_of};
ghost use Rattle.avro_schema.specs.Value.{Value as SeenValue};
ghost use Rattle.avro_schema_json.specs.DeclaredDefaults.{default_of as default_by, each_default, entries_default as each_entry, default_under, fields_default as each_field, object_default as default_of_object, items_default as default_of_items, member_keys, first_fit};
ghost use Rattle.avro_schema_json.specs.inside.OwnDefaults.{own_default as own_default_by, default_of_fields, without_defaults, all_without_defaults, fields_seen};
ghost use Rattle.avro_schema_json.specs.inside.Tables.{IsMarking};
ghost use Rattle.avro_schema_json.specs.inside.Walk.{AreFirsts, IsKnown, nodes_of};
ghost use Rattle.serde_json.specs.Data.{Data};
ghost use Rattle.serde_json.specs.View.{view, items_view, members_view};

mod edges;
mod fields;
mod kinds;
mod leaves;
mod marks;
mod parents;
mod parts;
mod plain_defaults;
mod rows;
mod sets;
mod steps;
pub(crate) mod tables;
mod walk;

use crate::defaults::fields::names_fields;
use crate::defaults::marks::mark_tree;
use crate::defaults::parts::{Mark, no_marks};
use crate::defaults::plain_defaults::{
    boolean_default, null_default, number_default, text_default,
};
use crate::defaults::tables::Marking;
use crate::defaults::walk::{
    Firsts, Walk, first_branch, is_ruled_out, marks_of_members, member_mark, part_mark,
};
use crate::raw::{RawField, RawNode};
use crate::raw_nodes::{branches_at, raw_at};
use crate::texts::copy_of_text;
use avro_schema::{Datum, Memory, NodeId};
use avro_texts::Seeded;
use serde_json::{Map, Value};
use std::alloc::Global;
use std::collections::BTreeMap;

/// The default that JSON gives for the node of an id, or nothing where there is none. A union
/// takes it as one of the first branch that it fits. By the tables it is found first which nodes each part of it may be
/// a default of.
pub(crate) fn default_of(
    alloc: Global,
    seed: Seeded,
    raws: &[RawNode],
    marking: &mut Marking,
    tree: &Value,
    id: NodeId,
) -> Result<Option<Datum>, Memory>
    requires marking { IsMarking (all_without_defaults raws.now) marking.old }
    ensures marking { OnOk result (IsMarking (all_without_defaults raws.now) marking.new) }
    ensures default { IfOk result (λ datum. option_map value_of datum ≡ default_by (all_without_defaults raws.now) (view tree.now) (node_at (all_without_defaults raws.now) id.0)) }
{
    let mark = mark_tree(alloc, &marking.tables, tree, &mut marking.marks)?;
    let walk = Walk {
        seed,
        raws,
        last: marking.tables.last,
        marks: &marking.marks,
    };
    let mut firsts: Firsts = BTreeMap::new(alloc);
    known_default(alloc, &walk, tree, id, Some(mark), &mut firsts)
}

/// The same where no tables are made.
pub(crate) fn unmarked_default(
    alloc: Global,
    seed: Seeded,
    raws: &[RawNode],
    tree: &Value,
    id: NodeId,
) -> Result<Option<Datum>, Memory>
    ensures { IfOk result (λ datum. option_map value_of datum ≡ default_by (all_without_defaults raws.now) (view tree.now) (node_at (all_without_defaults raws.now) id.0)) }
{
    let marks = no_marks(alloc);
    let walk = Walk {
        seed,
        raws,
        last: 0,
        marks: &marks,
    };
    let mut firsts: Firsts = BTreeMap::new(alloc);
    known_default(alloc, &walk, tree, id, None, &mut firsts)
}

/// The default that JSON gives for the node of an id.
#[cycle(defaults)]
fn known_default(
    alloc: Global,
    walk: &Walk,
    tree: &Value,
    id: NodeId,
    mark: Option<Mark>,
    firsts: &mut Firsts,
) -> Result<Option<Datum>, Memory>
    requires known { IsKnown walk.now (view tree.now) mark }
    requires firsts { AreFirsts walk.now firsts.old }
    ensures firsts { OnOk result (AreFirsts walk.now firsts.new) }
    ensures default { IfOk result (λ datum. option_map value_of datum ≡ default_by (nodes_of walk.now) (view tree.now) (node_at (nodes_of walk.now) id.0)) }
{
    match branches_at(walk.raws, id) {
        Some(ids) => branch_default(alloc, walk, tree, id, ids, mark, firsts),
        None => default_at(alloc, walk, tree, id, mark, firsts),
    }
}

/// The default that JSON gives for the first of the branches of a union that it fits. Those that its set has not are
/// passed over.
#[cycle(defaults)]
fn branch_default(
    alloc: Global,
    walk: &Walk,
    tree: &Value,
    union: NodeId,
    ids: &[NodeId],
    mark: Option<Mark>,
    firsts: &mut Firsts,
) -> Result<Option<Datum>, Memory>
    requires known { IsKnown walk.now (view tree.now) mark }
    requires firsts { AreFirsts walk.now firsts.old }
    requires branches { branches_of (node_at (nodes_of walk.now) union.0) ≡ Some (ids_of ids.now) }
    ensures firsts { OnOk result (AreFirsts walk.now firsts.new) }
    ensures default { IfOk result (λ datum. option_map value_of datum
        ≡ first_fit (nodes_of walk.now) (own_default_by (nodes_of walk.now) (view tree.now)) 0 (ids_of ids.now)) }
{
    let start = first_branch(walk, mark, union, ids, firsts)?;
    for i in start..ids.len() {
        let id = ids[i];
        if is_ruled_out(walk, mark, id) {
            continue;
        }
        match default_at(alloc, walk, tree, id, mark, firsts)? {
            Some(datum) => return in_branch(alloc, i, datum),
            None => {}
        }
    }
    Ok(None)
}

/// The default that JSON gives for the node of an id itself. One that is missing counts as null.
#[cycle(defaults)]
fn default_at(
    alloc: Global,
    walk: &Walk,
    tree: &Value,
    id: NodeId,
    mark: Option<Mark>,
    firsts: &mut Firsts,
) -> Result<Option<Datum>, Memory>
    requires known { IsKnown walk.now (view tree.now) mark }
    requires firsts { AreFirsts walk.now firsts.old }
    ensures firsts { OnOk result (AreFirsts walk.now firsts.new) }
    ensures default { IfOk result (λ datum. option_map value_of datum ≡ own_default_by (nodes_of walk.now) (view tree.now) (node_at (nodes_of walk.now) id.0)) }
{
    match raw_at(walk.raws, id) {
        Some(node) => own_default(alloc, walk, tree, node, mark, firsts),
        None => own_default(alloc, walk, tree, &RawNode::Null, mark, firsts),
    }
}

/// A datum as one of a union, of this branch. A branch past the range of numbers would exceed any
/// memory.
fn in_branch(alloc: Global, branch: usize, datum: Datum) -> Result<Option<Datum>, Memory>
    ensures { IfOk result (λ whole. option_map value_of whole ≡ Some (SeenValue.union branch (value_of datum))) }
{
    match u32::try_from(branch) {
        Ok(branch) => Ok(Some(Datum::Union(branch, Box::new(alloc, datum)?))),
        Err(_) => Err(Memory),
    }
}

/// The default that JSON gives for a node itself.
#[cycle(defaults)]
fn own_default(
    alloc: Global,
    walk: &Walk,
    tree: &Value,
    node: &RawNode,
    mark: Option<Mark>,
    firsts: &mut Firsts,
) -> Result<Option<Datum>, Memory>
    requires known { IsKnown walk.now (view tree.now) mark }
    requires firsts { AreFirsts walk.now firsts.old }
    ensures firsts { OnOk result (AreFirsts walk.now firsts.new) }
    ensures default { IfOk result (λ datum. option_map value_of datum ≡ own_default_by (nodes_of walk.now) (view tree.now) (without_defaults node.now)) }
{
    match tree {
        Value::Null => Ok(null_default(node)),
        Value::Bool(value) => Ok(boolean_default(*value, node)),
        Value::Number(number) => Ok(number_default(*number, node)),
        Value::String(text) => text_default(alloc, text.as_str(), node),
        Value::Array(items) => items_default(alloc, walk, items, node, mark, firsts),
        Value::Object(members) => object_default(alloc, walk, members, node, mark, firsts),
    }
}

/// The default that an array gives.
#[cycle(defaults)]
fn items_default(
    alloc: Global,
    walk: &Walk,
    items: &Vec<Value>,
    node: &RawNode,
    mark: Option<Mark>,
    firsts: &mut Firsts,
) -> Result<Option<Datum>, Memory>
    requires known { IsKnown walk.now (Data.array (items_view items.now.items)) mark }
    requires firsts { AreFirsts walk.now firsts.old }
    ensures firsts { OnOk result (AreFirsts walk.now firsts.new) }
    ensures default { IfOk result (λ datum. option_map value_of datum
        ≡ default_of_items (nodes_of walk.now) (λ m. each_default (nodes_of walk.now) (items_view items.now.items) m) (without_defaults node.now)) }
{
    match node {
        RawNode::Array(id) => match item_defaults(alloc, walk, items, *id, mark, firsts)? {
            Some(values) => Ok(Some(Datum::Array(values))),
            None => Ok(None),
        },
        _ => Ok(None),
    }
}

/// The defaults that items give for the node of an id.
#[cycle(defaults)]
fn item_defaults(
    alloc: Global,
    walk: &Walk,
    items: &Vec<Value>,
    id: NodeId,
    mark: Option<Mark>,
    firsts: &mut Firsts,
) -> Result<Option<Vec<Datum>>, Memory>
    requires known { IsKnown walk.now (Data.array (items_view items.now.items)) mark }
    requires firsts { AreFirsts walk.now firsts.old }
    ensures firsts { OnOk result (AreFirsts walk.now firsts.new) }
    ensures default { IfOk result (λ values. option_map (λ vs. values_of vs.items) values
        ≡ each_default (nodes_of walk.now) (items_view items.now.items) (node_at (nodes_of walk.now) id.0)) }
{
    let mut values: Vec<Datum> = Vec::with_capacity(alloc, items.len())?;
    for item in items {
        let index = values.len();
        let part = part_mark(walk, item, mark, index);
        let Some(value) = known_default(alloc, walk, item, id, part, firsts)? else {
            return Ok(None);
        };
        values.push(value)?;
    }
    Ok(Some(values))
}

/// The default that an object gives.
#[cycle(defaults)]
fn object_default(
    alloc: Global,
    walk: &Walk,
    members: &Map<String, Value>,
    node: &RawNode,
    mark: Option<Mark>,
    firsts: &mut Firsts,
) -> Result<Option<Datum>, Memory>
    requires known { IsKnown walk.now (Data.object (members_view members.now.entries)) mark }
    requires firsts { AreFirsts walk.now firsts.old }
    ensures firsts { OnOk result (AreFirsts walk.now firsts.new) }
    ensures default { IfOk result (λ datum. option_map value_of datum
        ≡ default_of_object (nodes_of walk.now) (λ m. each_entry (nodes_of walk.now) (members_view members.now.entries) m)
        (λ key. default_under (nodes_of walk.now) key (members_view members.now.entries)) (member_keys (members_view members.now.entries)) (without_defaults node.now)) }
{
    match node {
        RawNode::Map(id) => match entry_defaults(alloc, walk, members, *id, mark, firsts)? {
            Some(entries) => Ok(Some(Datum::Map(entries))),
            None => Ok(None),
        },
        RawNode::Record(record) => {
            record_default(alloc, walk, members, &record.fields, mark, firsts)
        }
        _ => Ok(None),
    }
}

/// The keys, each with the default that its value gives for the node of an id.
#[cycle(defaults)]
fn entry_defaults(
    alloc: Global,
    walk: &Walk,
    members: &Map<String, Value>,
    id: NodeId,
    mark: Option<Mark>,
    firsts: &mut Firsts,
) -> Result<Option<Vec<(String, Datum)>>, Memory>
    requires known { IsKnown walk.now (Data.object (members_view members.now.entries)) mark }
    requires firsts { AreFirsts walk.now firsts.old }
    ensures firsts { OnOk result (AreFirsts walk.now firsts.new) }
    ensures default { IfOk result (λ entries. option_map (λ es. entries_of es.items) entries
        ≡ each_entry (nodes_of walk.now) (members_view members.now.entries) (node_at (nodes_of walk.now) id.0)) }
{
    let mut entries: Vec<(String, Datum)> = Vec::with_capacity(alloc, members.len())?;
    for (key, tree) in members.iter() {
        let index = entries.len();
        let part = part_mark(walk, tree, mark, index);
        let Some(value) = known_default(alloc, walk, tree, id, part, firsts)? else {
            return Ok(None);
        };
        entries.push((copy_of_text(alloc, key.as_str())?, value))?;
    }
    Ok(Some(entries))
}

/// The record that an object gives by a member for each field and no other.
#[cycle(defaults)]
fn record_default(
    alloc: Global,
    walk: &Walk,
    members: &Map<String, Value>,
    fields: &[RawField],
    mark: Option<Mark>,
    firsts: &mut Firsts,
) -> Result<Option<Datum>, Memory>
    requires known { IsKnown walk.now (Data.object (members_view members.now.entries)) mark }
    requires firsts { AreFirsts walk.now firsts.old }
    ensures firsts { OnOk result (AreFirsts walk.now firsts.new) }
    ensures default { IfOk result (λ datum. option_map value_of datum
        ≡ default_of_fields (nodes_of walk.now) (members_view members.now.entries) (fields_seen fields.now)) }
{
    let Some(values) = field_defaults(alloc, walk, members, fields, mark, firsts)? else {
        return Ok(None);
    };
    if names_fields(alloc, walk.seed, members, fields)? {
        Ok(Some(Datum::Record(values)))
    } else {
        Ok(None)
    }
}

/// The default of each field, by the member of its name.
#[cycle(defaults)]
fn field_defaults(
    alloc: Global,
    walk: &Walk,
    members: &Map<String, Value>,
    fields: &[RawField],
    mark: Option<Mark>,
    firsts: &mut Firsts,
) -> Result<Option<Vec<Datum>>, Memory>
    requires known { IsKnown walk.now (Data.object (members_view members.now.entries)) mark }
    requires firsts { AreFirsts walk.now firsts.old }
    ensures firsts { OnOk result (AreFirsts walk.now firsts.new) }
    ensures default { IfOk result (λ values. option_map (λ vs. values_of vs.items) values
        ≡ each_field (nodes_of walk.now) (λ key. default_under (nodes_of walk.now) key (members_view members.now.entries)) (fields_seen fields.now)) }
{
    let marks = marks_of_members(alloc, walk, members, mark)?;
    let mut values: Vec<Datum> = Vec::with_capacity(alloc, members.len())?;
    for field in fields {
        let name = field.name.as_str();
        let Some(tree) = members.get(name) else {
            return Ok(None);
        };
        let part = member_mark(walk, members, tree, &marks, name);
        let Some(value) = known_default(alloc, walk, tree, field.node, part, firsts)? else {
            return Ok(None);
        };
        values.push(value)?;
    }
    Ok(Some(values))
}
