//! The opening of a part.

ghost use Rattle.std.specs.Prelude.{◌≡◌, ◌<◌, ◌≤◌, ℕ, Ok, false, IfSome, MatchOption, string_bytes, suc};
ghost use Rattle.avro_schema.specs.Seen.{node_of, value_of, values_of};
ghost use Rattle.avro_schema.specs.SeenSchema.{schema_nodes};
ghost use Rattle.avro_schema.specs.Value.{Value, Values, depth, values_depth};
ghost use Rattle.avro_schema.specs.declared.schema.Schema.{Schema as SeenSchema};
ghost use Rattle.avro_compare.specs.Pairs.{IsSymbol};
ghost use Rattle.avro_compare.specs.Resolve.{Resolved, bytes_as, string_as, through};
ghost use Rattle.serde_json.specs.Data.{Data};
ghost use Rattle.avro_display.specs.Displayed.{AreBelow, IsShown};
ghost use Rattle.avro_display.specs.DisplayTree.{branch_tree, display_tree};
ghost use Rattle.avro_display.specs.Plain.{OpensPlain, plain_levels, plain_shows};
ghost use Rattle.avro_show.specs.Showing.{AreFields, IsTaken, IsWritten, OpensResolved, levels_from, reader_node, resolved_levels, resolved_shows, shown, shown_node, writer_node};
ghost use Rattle.avro_show.specs.Taken.{is_union, taken_as};

use crate::part::Part;
use avro_compare::{Target, fields_of};
use avro_cursor::text_of;
use avro_display::{DisplayTable, Opened, node_fields, symbol_text};
use avro_resolve::{PlanPair, PlanRef};
use avro_schema::{Datum, Node, NodeId};

/// Opens what a writer's datum is for the reader's node of a pair.
pub(crate) fn opened_written<'a>(
    plan: &PlanRef<'_>,
    table: &'a DisplayTable<'a>,
    pair: PlanPair,
    id: Option<NodeId>,
    datum: &'a Datum,
) -> Opened<'a, Part<'a>>
    ensures opens { (u : Value) (d : Data) → IsWritten plan.now pair (value_of datum.now) u → d ≡ shown table.now id u → OpensResolved plan.now table.now result d }
    ensures levels { AreBelow (resolved_levels plan.now) (suc (levels_from plan.now (depth (value_of datum.now)))) result }
{
    let (pair, datum) = out_of_unions(plan, pair, datum);
    match pair.target(plan) {
        Target::Fault(_) => Opened::Null,
        Target::To(None, q) => opened_targeted(
            plan,
            table,
            pair.targeted(plan, None, q),
            id,
            datum,
        ),
        Target::To(Some(branch), q) => opened_branch(
            table,
            pair.targeted(plan, Some(branch), q),
            table.node(id).branch(branch),
            datum,
        ),
    }
}

/// What is in a writer's unions, and the pair of its node and the same reader's node.
fn out_of_unions<'a>(plan: &PlanRef<'_>, pair: PlanPair, datum: &'a Datum) -> (PlanPair, &'a Datum)
    ensures resolves { (u : Value) → IsWritten plan.now pair (value_of datum.now) u
        → through (schema_nodes plan.now.0) (schema_nodes plan.now.1) (writer_node plan.now result.0) (reader_node plan.now result.0)
        (taken_as (schema_nodes plan.now.0) (schema_nodes plan.now.1) (writer_node plan.now result.0) (value_of result.1.now)) ≡ Ok u }
    ensures depth { depth (value_of result.1.now) ≤ depth (value_of datum.now) }
{
    let mut at = pair;
    let mut inner = datum;
    while let Some((branch, value)) = branch_of(inner) {
        at = at.branch(plan, branch);
        inner = value;
    }
    (at, inner)
}

/// The branch and the value of a union.
fn branch_of(datum: &Datum) -> Option<(u32, &Datum)>
    ensures { MatchOption result (is_union (value_of datum.now) ≡ false) (λ u. value_of datum.now ≡ Value.union u.0 (value_of u.1.now)) }
{
    match datum {
        Datum::Union(branch, value) => Some((*branch, value)),
        Datum::Null
        | Datum::Bool(_)
        | Datum::Int(_)
        | Datum::Long(_)
        | Datum::Bytes(_)
        | Datum::Str(_)
        | Datum::Array(_)
        | Datum::Map(_)
        | Datum::Record(_)
        | Datum::Enum(_)
        | Datum::Fixed(_) => None,
    }
}

/// Opens what a branch of the reader's union takes.
fn opened_branch<'a>(
    table: &'a DisplayTable<'a>,
    pair: PlanPair,
    id: Option<NodeId>,
    datum: &'a Datum,
) -> Opened<'a, Part<'a>>
    ensures opens { (s : SeenSchema × SeenSchema) (u : Value) (d : Data) → IsTaken s pair (value_of datum.now) u
        → d ≡ branch_tree (shown_node table.now id) (shown table.now id u) → OpensResolved s table.now result d }
    ensures levels { (s : SeenSchema × SeenSchema) → AreBelow (resolved_levels s) (suc (levels_from s (depth (value_of datum.now)))) result }
{
    match table.part_opening(id) {
        Some(opening) => Opened::Branch(opening, Part::Targeted(pair, id, datum)),
        None => Opened::Null,
    }
}

/// Opens what a reader's node that is no union takes of a datum in no union.
pub(crate) fn opened_targeted<'a>(
    plan: &PlanRef<'_>,
    table: &'a DisplayTable<'a>,
    pair: PlanPair,
    id: Option<NodeId>,
    datum: &'a Datum,
) -> Opened<'a, Part<'a>>
    ensures opens { (u : Value) (d : Data) → IsTaken plan.now pair (value_of datum.now) u → d ≡ shown table.now id u → OpensResolved plan.now table.now result d }
    ensures levels { AreBelow (resolved_levels plan.now) (levels_from plan.now (depth (value_of datum.now))) result }
{
    match datum {
        Datum::Null => Opened::Null,
        Datum::Bool(value) => Opened::Bool(*value),
        Datum::Int(value) => Opened::Number(i64::from(*value)),
        Datum::Long(value) => Opened::Number(*value),
        Datum::Bytes(bytes) => opened_bytes(plan.reader().get(pair.r), bytes),
        Datum::Str(string) => opened_string(plan.reader().get(pair.r), string),
        Datum::Array(items) => {
            let part = Part::Items(pair.items(plan), table.node(id).items(), items);
            Opened::Items(part, items.len())
        }
        Datum::Map(entries) => {
            let part = Part::Entries(pair.values(plan), table.node(id).values(), entries);
            Opened::Entries(part, entries.len())
        }
        Datum::Union(_, _) => Opened::Null,
        Datum::Record(values) => opened_record(plan, table, pair, id, values),
        Datum::Enum(symbol) => opened_symbol(pair.symbol(plan, *symbol), table.node(id)),
        Datum::Fixed(bytes) => Opened::Bytes(bytes),
    }
}

/// Opens bytes, or the text whose UTF-8 they are where the reader has a string.
fn opened_bytes<'a>(node: &Node, bytes: &'a Vec<u8>) -> Opened<'a, Part<'a>>
    ensures opens { (s : SeenSchema × SeenSchema) (t : SeenSchema) (id : _) (u : Value) (d : Data) → bytes_as bytes.now.items (node_of node.now) ≡ Ok u
        → d ≡ shown t id u → OpensResolved s t result d }
    ensures levels { (s : SeenSchema × SeenSchema) (most : ℕ) → AreBelow (resolved_levels s) most result }
{
    match node {
        Node::Str => match text_of(bytes) {
            Ok(string) => Opened::Text(string),
            Err(_) => Opened::Null,
        },
        _ => Opened::Bytes(bytes),
    }
}

/// Opens a text, or its UTF-8 where the reader has bytes.
fn opened_string<'a>(node: &Node, string: &'a String) -> Opened<'a, Part<'a>>
    ensures opens { (s : SeenSchema × SeenSchema) (t : SeenSchema) (id : _) (u : Value) (d : Data) → string_as (string_bytes string.now) (node_of node.now) ≡ Ok u
        → d ≡ shown t id u → OpensResolved s t result d }
    ensures levels { (s : SeenSchema × SeenSchema) (most : ℕ) → AreBelow (resolved_levels s) most result }
{
    match node {
        Node::Bytes => Opened::Bytes(string.as_bytes()),
        _ => Opened::Text(string.as_str()),
    }
}

/// Opens a symbol of the reader's.
fn opened_symbol<'a>(symbol: Option<u32>, node: &'a Node) -> Opened<'a, Part<'a>>
    ensures opens { (s : SeenSchema × SeenSchema) (t : SeenSchema) (r : Resolved) (u : Value) (d : Data) → IsSymbol r symbol → r ≡ Ok u
        → d ≡ display_tree (schema_nodes t) (node_of node.now) u → OpensResolved s t result d }
    ensures levels { (s : SeenSchema × SeenSchema) (most : ℕ) → AreBelow (resolved_levels s) most result }
{
    match symbol {
        Some(symbol) => Opened::Text(symbol_text(node, symbol)),
        None => Opened::Null,
    }
}

/// Opens a record. If it has fewer values for the reader than are displayed, those that it has are displayed.
fn opened_record<'a>(
    plan: &PlanRef<'_>,
    table: &'a DisplayTable<'a>,
    pair: PlanPair,
    id: Option<NodeId>,
    values: &'a Vec<Datum>,
) -> Opened<'a, Part<'a>>
    ensures opens { (us : Values) (d : Data) → AreFields plan.now pair (values_of values.now.items) us → d ≡ shown table.now id (Value.record_of us)
        → OpensResolved plan.now table.now result d }
    ensures levels { AreBelow (resolved_levels plan.now) (levels_from plan.now (suc (values_depth (values_of values.now.items)))) result }
{
    let part = Part::Fields(pair, id, values);
    let count = fields_of(plan.reader(), pair.r).len();
    if node_fields(table.node(id)).len() <= count {
        Opened::Members(part, table.part_members(id))
    } else {
        Opened::Entries(part, count)
    }
}

/// An opened default, as what is displayed.
pub(crate) fn opened_default<'s, 'a>(
    opened: Opened<'s, (Option<NodeId>, &'a Datum)>,
) -> Opened<'s, Part<'a>>
    ensures opens { (s : SeenSchema × SeenSchema) (t : SeenSchema) (d : Data) → OpensPlain (schema_nodes t) opened.entry d → OpensResolved s t result d }
    ensures levels { (s : SeenSchema × SeenSchema) (most : ℕ) → AreBelow plain_levels most opened.entry → AreBelow (resolved_levels s) most result }
{
    match opened {
        Opened::Null => Opened::Null,
        Opened::Bool(value) => Opened::Bool(value),
        Opened::Number(value) => Opened::Number(value),
        Opened::Bytes(bytes) => Opened::Bytes(bytes),
        Opened::Text(string) => Opened::Text(string),
        Opened::Branch(opening, value) => Opened::Branch(opening, Part::Default(value)),
        Opened::Items(array, count) => Opened::Items(Part::Default(array), count),
        Opened::Entries(object, count) => Opened::Entries(Part::Default(object), count),
        Opened::Members(object, members) => Opened::Members(Part::Default(object), members),
    }
}

/// A part of a default, as what is displayed.
pub(crate) fn as_default<'a>(part: Option<(Option<NodeId>, &'a Datum)>) -> Option<Part<'a>>
    ensures shows { (s : SeenSchema × SeenSchema) (t : SeenSchema) (d : Data) → IsShown (plain_shows (schema_nodes t)) part.entry d → IsShown (resolved_shows s t) result d }
    ensures levels { (s : SeenSchema × SeenSchema) (most : ℕ) → IfSome part.entry (λ p. plain_levels p < most) → IfSome result (λ p. resolved_levels s p < most) }
{
    match part {
        Some(part) => Some(Part::Default(part)),
        None => None,
    }
}
