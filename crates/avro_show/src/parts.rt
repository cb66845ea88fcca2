//! The parts of a writer's array, map or record for a reader.

ghost use Rattle.std.specs.Prelude.{◌≡◌, ◌<◌, ◌≤◌, Some, option_map, slice_get, suc};
ghost use Rattle.avro_schema.specs.Node.{FieldNode};
ghost use Rattle.avro_schema.specs.Seen.{entries_of, field_of, seen_fields, values_of};
ghost use Rattle.avro_schema.specs.Value.{Entries, Value, Values, entries_depth, values_depth};
ghost use Rattle.avro_schema.specs.declared.schema.Schema.{Schema as SeenSchema};
ghost use Rattle.serde_json.specs.Data.{Data};
ghost use Rattle.avro_display.specs.Table.{entry_at, value_at};
ghost use Rattle.avro_show.specs.Showing.{AreEntries, AreFields, IsAt, default_depth, default_value, levels_from, resolved_levels, resolved_shows, shown};

use crate::part::Part;
use avro_compare::fields_of;
use avro_resolve::{PlanPair, PlanRef};
use avro_schema::{Datum, Field, NodeId};

/// What the value at an index is for the reader; null if there is none.
#[tactic(auto, using(crate::proofs::Values::value_there, crate::proofs::Values::count_values))]
pub(crate) fn value_part<'a>(
    pair: PlanPair,
    id: Option<NodeId>,
    values: &'a [Datum],
    index: usize,
) -> Part<'a>
    ensures shows { (s : SeenSchema × SeenSchema) (t : SeenSchema) (u : Value) (d : Data) → IsAt s pair (values_of values.now) index u
        → d ≡ shown t id u → resolved_shows s t result d }
    ensures levels { (s : SeenSchema × SeenSchema) → resolved_levels s result < levels_from s (suc (values_depth (values_of values.now))) }
{
    match values.get(index) {
        Some(value) => Part::Written(pair, id, value),
        None => Part::Null,
    }
}

/// What the value of the entry at an index is for the reader.
#[tactic(auto, using(crate::proofs::Values::entry_there, crate::proofs::Taken::entry_is))]
pub(crate) fn entry_part<'a>(
    pair: PlanPair,
    id: Option<NodeId>,
    entries: &'a [(String, Datum)],
    index: usize,
) -> Part<'a>
    ensures shows { (s : SeenSchema × SeenSchema) (t : SeenSchema) (us : Entries) (d : Data) → AreEntries s pair (entries_of entries.now) us
        → d ≡ shown t id (entry_at us index) → resolved_shows s t result d }
    ensures levels { (s : SeenSchema × SeenSchema) → resolved_levels s result < levels_from s (suc (entries_depth (entries_of entries.now))) }
{
    match entries.get(index) {
        Some(entry) => Part::Written(pair, id, &entry.1),
        None => Part::Null,
    }
}

/// What the reader's field at an index takes of a writer's record: what its source is for it, or its default.
pub(crate) fn field_part<'a>(
    plan: &'a PlanRef<'_>,
    pair: PlanPair,
    id: Option<NodeId>,
    values: &'a [Datum],
    index: usize,
) -> Part<'a>
    ensures shows { (t : SeenSchema) (us : Values) (d : Data) → AreFields plan.now pair (values_of values.now) us
        → d ≡ shown t id (value_at us index) → resolved_shows plan.now t result d }
    ensures levels { resolved_levels plan.now result < levels_from plan.now (suc (values_depth (values_of values.now))) }
{
    match fields_of(plan.reader(), pair.r).get(index) {
        Some(field) => match pair.source(plan, index, field) {
            Some(source) => value_part(pair.field(plan, source, field.node), id, values, source),
            None => default_part(id, field),
        },
        None => Part::Null,
    }
}

/// The default of a field; null if it has none.
fn default_part<'a>(id: Option<NodeId>, field: &'a Field) -> Part<'a>
    ensures shows { (s : SeenSchema × SeenSchema) (t : SeenSchema) (d : Data) → d ≡ shown t id (default_value (field_of field.now)) → resolved_shows s t result d }
    ensures levels { (s : SeenSchema × SeenSchema) → resolved_levels s result ≤ default_depth (field_of field.now) }
{
    match &field.default {
        Some(default) => Part::Default((id, default)),
        None => Part::Null,
    }
}

/// The name of the field at an index.
pub(crate) fn field_name(fields: &[Field], index: usize) -> &str
    ensures { (f : FieldNode) → slice_get (seen_fields fields.now) index ≡ Some f → result.now ≡ f.name }
{
    match fields.get(index) {
        Some(field) => field.name.as_str(),
        None => "",
    }
}

/// The node of the field at an index.
pub(crate) fn node_of_field(fields: &[Field], index: usize) -> Option<NodeId>
    ensures { option_map (λ id. id.0) result ≡ option_map (λ f. f.node) (slice_get (seen_fields fields.now) index) }
{
    match fields.get(index) {
        Some(field) => Some(field.node),
        None => None,
    }
}
