ghost use Rattle.std.specs.Prelude.{◌≡◌, ◌+◌, ◌++◌, ◌∷◌, [], ℕ, true, IfOk, IfSome, List, OnOk, Option, Some, map, slice_get, unwrap_or, bytes_eq};
ghost use Rattle.std.specs.List.{flat_map};
ghost use Rattle.avro_schema.specs.Fits.{fits};
ghost use Rattle.avro_schema.specs.Node.{FieldNode, node_at};
ghost use Rattle.avro_schema.specs.SeenSchema.{schema_nodes};
ghost use Rattle.avro_schema.specs.Value.{Value};
ghost use Rattle.avro_binary.specs.Places.{AreTold};
ghost use Rattle.avro_binary.specs.declared.place.Place.{Place as SeenPlace};
ghost use Rattle.avro_resolve.specs.inside.Guided.{AreFitting, of_node};
ghost use Rattle.avro_schema.specs.Distinct.{are_distinct};
ghost use Rattle.avro_schema.specs.WellFormed.{field_names};
ghost use Rattle.avro_schema.specs.Seen.{field_of, seen_fields};
ghost use Rattle.avro_compare.specs.Resolve.{Sourced, field_value};
ghost use Rattle.avro_compare.specs.Planned.{AreSources, AreSourcesFrom};
ghost use Rattle.avro_compare.specs.Source.{source_of};
ghost use Rattle.avro_resolve.specs.Ends.{SlotsAre, SlotsFor, slot_out};

use crate::giving::give;
use avro_binary::{Leaf, Make, Place};
use avro_compare::{first_entry, rest_entries, source_among};
use avro_schema::{Field, Schema};
use std::alloc::{AllocError, Global};

/// What is made of the fields of a reader's record, in its order: each is what is in the slot of its
/// source, or its default. Returns the slots, too.
#[inline(always)]
pub(crate) fn fill<M: Make<At = Place>>(
    maker: &mut M,
    reader: &Schema,
    writes: &[Field],
    reads: &[Field],
    sources: Option<&[(usize, usize)]>,
    slots: Vec<Option<M::Out>>,
    start: M::Fields,
) -> Result<(Vec<Option<M::Out>>, M::Fields), AllocError>
    requires distinct { are_distinct bytes_eq (flat_map field_names (seen_fields reads.now)) ≡ true }
    requires sources { IfSome sources (λ ss. AreSources (seen_fields writes.now) (seen_fields reads.now) ss.now) }
    ensures kept { OnOk result (M.keeps maker.old maker.new) }
    ensures stands { (found : Sourced) (at : SeenPlace) → AreTold M.branch_at M.item_at M.entry_at M.field_at → AreFitting (schema_nodes reader.now) (seen_fields reads.now) (field_value (seen_fields writes.now) found)
        → SlotsAre (of_node (M.stands_for maker.old) (schema_nodes reader.now)) (seen_fields writes.now) (seen_fields reads.now) found slots.items → M.fields_stand_for maker.old (schema_nodes reader.now) (seen_fields reads.now) at start []
        → IfOk result (λ filled. M.fields_stand_for maker.new (schema_nodes reader.now) (seen_fields reads.now) at filled.1 (map (field_value (seen_fields writes.now) found) (seen_fields reads.now))) }
{
    let alloc = *slots.allocator();
    let mut slots = slots;
    let mut fields = start;
    let mut left = sources;
    for index in 0..reads.len() {
        let f = &reads[index];
        let source = source_left(writes, left, index, f);
        left = sources_after(left, index);
        let value = value_of_field(alloc, maker, reader, source, f, &mut slots)?;
        maker.field(alloc, &mut fields, value)?;
    }
    Ok((slots, fields))
}

/// The source of the reader's field at an index, by what is kept from there on or else by name.
#[inline(always)]
fn source_left(
    writes: &[Field],
    left: Option<&[(usize, usize)]>,
    index: usize,
    f: &Field,
) -> Option<usize>
    ensures { (rs : List FieldNode) → IfSome left.entry (λ ss. AreSourcesFrom index (seen_fields writes.now) rs ss.now) → slice_get rs index ≡ Some (field_of f.now)
        → result ≡ source_of (seen_fields writes.now) (field_of f.now) }
{
    match left {
        Some(left) => first_entry(left, index),
        None => source_among(writes, f),
    }
}

/// What is kept of the sources of the fields after the one at an index, by what is kept from there on.
#[inline(always)]
fn sources_after(left: Option<&[(usize, usize)]>, index: usize) -> Option<&[(usize, usize)]>
    ensures { (ws rs : List FieldNode) → IfSome left.entry (λ ss. AreSourcesFrom index ws rs ss.now) → IfSome result (λ ss. AreSourcesFrom (index + 1) ws rs ss.now) }
{
    match left {
        Some(left) => Some(rest_entries(left, index)),
        None => None,
    }
}

/// What is made of the value of a reader's field, by its source.
#[inline(always)]
fn value_of_field<M: Make<At = Place>>(
    alloc: Global,
    maker: &mut M,
    reader: &Schema,
    source: Option<usize>,
    f: &Field,
    slots: &mut Vec<Option<M::Out>>,
) -> Result<M::Out, AllocError>
    ensures kept { OnOk result (M.keeps maker.old maker.new) }
    ensures stands { (ws : List FieldNode) (found : Sourced) (rest : List FieldNode) → source ≡ source_of ws (field_of f.now) → fits (schema_nodes reader.now) (node_at (schema_nodes reader.now) f.now.node.0) (field_value ws found (field_of f.now)) ≡ true
        → are_distinct bytes_eq (field_names (field_of f.now) ++ flat_map field_names rest) ≡ true
        → SlotsFor (of_node (M.stands_for maker.old) (schema_nodes reader.now)) ws (field_of f.now ∷ rest) found slots.old.items
        → SlotsFor (of_node (M.stands_for maker.old) (schema_nodes reader.now)) ws rest found slots.new.items
        × IfOk result (λ out. of_node (M.stands_for maker.new) (schema_nodes reader.now) f.now.node.0 out (field_value ws found (field_of f.now))) }
{
    match source {
        Some(index) => match taken(slots, index) {
            Some(out) => Ok(out),
            None => maker.leaf(alloc, Place::of(f.node), Leaf::Null),
        },
        None => make_default(alloc, maker, reader, f),
    }
}

/// What is made of the default of a reader's field, or of null where it has none.
#[inline(always)]
pub(crate) fn make_default<M: Make<At = Place>>(
    alloc: Global,
    maker: &mut M,
    reader: &Schema,
    f: &Field,
) -> Result<M::Out, AllocError>
    ensures kept { OnOk result (M.keeps maker.old maker.new) }
    ensures stands { fits (schema_nodes reader.now) (node_at (schema_nodes reader.now) f.now.node.0) (unwrap_or (field_of f.now).default Value.null) ≡ true
        → IfOk result (λ out. of_node (M.stands_for maker.new) (schema_nodes reader.now) f.now.node.0 out (unwrap_or (field_of f.now).default Value.null)) }
{
    let at = Place::of(f.node);
    match &f.default {
        Some(datum) => match maker.default(alloc, at, datum)? {
            Some(out) => Ok(out),
            None => give(alloc, reader, f.node, datum, maker, at),
        },
        None => maker.leaf(alloc, at, Leaf::Null),
    }
}

/// Takes what a slot holds, and leaves the slot empty.
#[inline(always)]
fn taken<O: Drop>(slots: &mut Vec<Option<O>>, index: usize) -> Option<O>
    ensures this { result ≡ slot_out (slice_get slots.old.items index) }
    ensures others { (k : ℕ) → (k ≡ index → ⊥) → slice_get slots.new.items k ≡ slice_get slots.old.items k }
{
    if index < slots.len() {
        slots[index].take()
    } else {
        None
    }
}
