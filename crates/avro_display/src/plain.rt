//! A datum of a node as what is displayed.

ghost use Rattle.std.specs.Prelude.{◌≡◌, ◌<◌, ◌≤◌, List, ℕ, Some, IfSome, map, option_map, slice_get, suc};
ghost use Rattle.avro_schema.specs.Node.{Node as SeenNode};
ghost use Rattle.avro_schema.specs.Seen.{entries_of, seen_fields, value_of, values_of};
ghost use Rattle.avro_schema.specs.SeenSchema.{schema_nodes};
ghost use Rattle.avro_schema.specs.Value.{Value, Values, depth, entries_depth, keys_of, values_count, values_depth};
ghost use Rattle.serde_json.specs.Data.{Data, no_members, object};
ghost use Rattle.avro_display.specs.Displayed.{AreBelow, IsShown};
ghost use Rattle.avro_display.specs.DisplayTree.{branch_tree, display_fields, display_tree, part_at, record_fields};
ghost use Rattle.avro_display.specs.Plain.{OpensPlain, plain_levels, plain_node, plain_shows, plain_value};
ghost use Rattle.avro_display.specs.Table.{entry_tree, field_tree, value_at};

use crate::displayed::{Displayed, Opened};
use crate::labels::symbol_text;
use crate::member::Member;
use crate::parts::{entry_key, node_fields};
use crate::table::DisplayTable;
use avro_schema::{Datum, Field, NodeId};

/// Data of a table's schema.
#[derive(Clone, Copy)]
pub struct Plain<'a> {
    table: &'a DisplayTable<'a>,
}

impl<'a> Plain<'a> {
    /// The data of a table's schema.
    pub fn new(table: &'a DisplayTable<'a>) -> Plain<'a>
        ensures { result.table.now ≡ table.now }
    {
        Plain { table }
    }
}

impl<'a> Displayed for Plain<'a> {
    ghost use Rattle.avro_schema.specs.SeenSchema.{schema_nodes};
    ghost use Rattle.avro_display.specs.Plain.{plain_entry, plain_item, plain_levels, plain_member, plain_shows};

    type Part = (Option<NodeId>, &'a Datum);

    ghost shows = { λ s part d. plain_shows (schema_nodes s.table.now) part d };

    ghost item_shows = { λ s part i d. plain_item (schema_nodes s.table.now) part i d };

    ghost entry_shows = { λ s part i k d. plain_entry (schema_nodes s.table.now) part i k d };

    ghost member_shows = { λ s part m d. plain_member (schema_nodes s.table.now) part m d };

    ghost levels = { λ s part. plain_levels part };

    #[inline(always)]
    fn open(&self, part: Self::Part) -> Opened<'_, Self::Part> {
        let (id, datum) = part;
        match datum {
            Datum::Null => Opened::Null,
            Datum::Bool(value) => Opened::Bool(*value),
            Datum::Int(value) => Opened::Number(i64::from(*value)),
            Datum::Long(value) => Opened::Number(*value),
            Datum::Bytes(bytes) => Opened::Bytes(bytes),
            Datum::Str(string) => Opened::Text(string.as_str()),
            Datum::Array(items) => Opened::Items(part, items.len()),
            Datum::Map(entries) => Opened::Entries(part, entries.len()),
            Datum::Union(branch, value) => {
                opened_branch(self.table, self.table.node(id).branch(*branch), value)
            }
            Datum::Record(values) => opened_record(self.table, part, values.len()),
            Datum::Enum(symbol) => Opened::Text(symbol_text(self.table.node(id), *symbol)),
            Datum::Fixed(bytes) => Opened::Bytes(bytes),
        }
    }

    #[tactic(auto, using(crate::proofs::Plains::seen_values))]
    #[inline(always)]
    fn item(&self, array: Self::Part, index: usize) -> Option<Self::Part> {
        match array.1 {
            Datum::Array(items) => item_of(self.table.node(array.0).items(), items, index),
            _ => None,
        }
    }

    #[tactic(auto, using(crate::proofs::Plains::seen_values))]
    fn key(&self, object: Self::Part, index: usize) -> &str {
        match object.1 {
            Datum::Map(entries) => entry_key(entries, index),
            _ => field_name(node_fields(self.table.node(object.0)), index),
        }
    }

    #[tactic(auto, using(crate::proofs::Plains::seen_values))]
    fn entry(&self, object: Self::Part, index: usize) -> Option<Self::Part> {
        match object.1 {
            Datum::Map(entries) => { entry_of(self.table.node(object.0).values(), entries, index) }
            Datum::Record(values) => {
                value_of_field(node_fields(self.table.node(object.0)), values, index)
            }
            _ => None,
        }
    }

    #[tactic(auto, using(crate::proofs::Plains::seen_values))]
    #[inline(always)]
    fn member(&self, object: Self::Part, member: &Member) -> Option<Self::Part> {
        match object.1 {
            Datum::Record(values) => item_of(Some(member.node), values, member.field),
            _ => None,
        }
    }
}

/// Opens the value of a union's branch of a node.
fn opened_branch<'a>(
    table: &'a DisplayTable<'a>,
    id: Option<NodeId>,
    value: &'a Datum,
) -> Opened<'a, (Option<NodeId>, &'a Datum)>
    ensures opens { (d : Data) → d ≡ branch_tree (part_at (schema_nodes table.now) (option_map (λ id. id.0) id))
        (display_tree (schema_nodes table.now) (part_at (schema_nodes table.now) (option_map (λ id. id.0) id)) (value_of value.now))
        → OpensPlain (schema_nodes table.now) result d }
    ensures levels { AreBelow plain_levels (suc (depth (value_of value.now))) result }
{
    match table.part_opening(id) {
        Some(opening) => Opened::Branch(opening, (id, value)),
        None => Opened::Null,
    }
}

/// Opens a record of so many values. If it has fewer than fields, it does not fit; those that it has are displayed.
#[inline(always)]
fn opened_record<'a>(
    table: &'a DisplayTable<'a>,
    part: (Option<NodeId>, &'a Datum),
    count: usize,
) -> Opened<'a, (Option<NodeId>, &'a Datum)>
    ensures opens { (vs : Values) (d : Data) → plain_value part.entry ≡ Value.record_of vs → count ≡ values_count vs
        → d ≡ object (display_fields (schema_nodes table.now) (record_fields (plain_node (schema_nodes table.now) part.entry)) vs no_members)
        → OpensPlain (schema_nodes table.now) result d }
    ensures levels { AreBelow plain_levels (plain_levels part.entry) result }
{
    if node_fields(table.node(part.0)).len() <= count {
        Opened::Members(part, table.part_members(part.0))
    } else {
        Opened::Entries(part, count)
    }
}

/// The item at an index, as one of a node.
#[tactic(auto, using(std::proofs::lemmas::Option::gets, crate::proofs::Plains::count_is, crate::proofs::Plains::item_depth, crate::proofs::Plains::item_here))]
#[inline(always)]
fn item_of<'a>(
    id: Option<NodeId>,
    items: &'a [Datum],
    index: usize,
) -> Option<(Option<NodeId>, &'a Datum)>
    ensures shows { (nodes : List SeenNode) (d : Data) → index < values_count (values_of items.now)
        → d ≡ display_tree nodes (part_at nodes (option_map (λ id. id.0) id)) (value_at (values_of items.now) index)
        → IsShown (plain_shows nodes) result d }
    ensures levels { IfSome result (λ p. plain_levels p ≤ values_depth (values_of items.now)) }
{
    match items.get(index) {
        Some(item) => Some((id, item)),
        None => None,
    }
}

/// The value of the entry at an index, as one of a node.
#[tactic(auto, using(std::proofs::lemmas::Option::gets, crate::proofs::Plains::entry_depth, crate::proofs::Plains::entry_here, crate::proofs::Plains::key_at))]
fn entry_of<'a>(
    id: Option<NodeId>,
    entries: &'a [(String, Datum)],
    index: usize,
) -> Option<(Option<NodeId>, &'a Datum)>
    ensures shows { (nodes : List SeenNode) (k : List ℕ) (d : Data) → slice_get (keys_of (entries_of entries.now)) index ≡ Some k
        → d ≡ entry_tree nodes (part_at nodes (option_map (λ id. id.0) id)) (entries_of entries.now) index
        → IsShown (plain_shows nodes) result d }
    ensures levels { IfSome result (λ p. plain_levels p ≤ entries_depth (entries_of entries.now)) }
{
    match entries.get(index) {
        Some(entry) => Some((id, &entry.1)),
        None => None,
    }
}

/// The name of the field at an index.
#[tactic(auto, using(std::proofs::lemmas::Option::gets, crate::proofs::Plains::named_at))]
fn field_name(fields: &[Field], index: usize) -> &str
    ensures { (k : List ℕ) → slice_get (map (λ f. f.name) (seen_fields fields.now)) index ≡ Some k → result.now ≡ k }
{
    match fields.get(index) {
        Some(field) => field.name.as_str(),
        None => "",
    }
}

/// The value of the field at an index.
#[tactic(auto, using(std::proofs::lemmas::Option::gets, crate::proofs::Plains::named_at, crate::proofs::Plains::node_at_field))]
fn value_of_field<'a>(
    fields: &[Field],
    values: &'a [Datum],
    index: usize,
) -> Option<(Option<NodeId>, &'a Datum)>
    ensures shows { (nodes : List SeenNode) (k : List ℕ) (d : Data) → index < values_count (values_of values.now)
        → slice_get (map (λ f. f.name) (seen_fields fields.now)) index ≡ Some k
        → d ≡ field_tree nodes (seen_fields fields.now) (values_of values.now) index
        → IsShown (plain_shows nodes) result d }
    ensures levels { IfSome result (λ p. plain_levels p ≤ values_depth (values_of values.now)) }
{
    match fields.get(index) {
        Some(field) => item_of(Some(field.node), values, index),
        None => None,
    }
}
