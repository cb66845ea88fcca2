ghost use denote.Ref.{Bor};
ghost use Rattle.std.specs.Prelude.{◌≡◌, ◌+◌, ◌++◌, ◌∷◌, [], ℕ, IfOk, IfSome, List, OnOk, Option, Some, length, slice_get, true};
ghost use Rattle.avro_name.specs.Name.{Name};
ghost use Rattle.avro_schema.specs.Fits.{fields_fit};
ghost use Rattle.avro_schema.specs.Node.{FieldNode, Node, field_ids, node_at};
ghost use Rattle.avro_schema.specs.Seen.{values_from};
ghost use Rattle.avro_schema.specs.SeenSchema.{schema_nodes};
ghost use Rattle.avro_schema.specs.Value.{Value};
ghost use Rattle.avro_compare.specs.Planned.{AreForFrom};
ghost use Rattle.avro_binary.specs.Places.{AreTold};
ghost use Rattle.avro_resolve.specs.inside.Guided.{FieldsStandAs, FillsAs, KnowsFields, KnowsNext, StandsAs, field_part, next_field, next_index, part_below, part_next};

use crate::plan::plan_ref::{PlanRef, index_at};
use crate::resolving::failing::{fault_apart, step_apart};
use crate::resolving::guided::{Filling, Made, Part, Slots};
use crate::resolving::leaves::into_branch;
use crate::resolving::slots::fill;
use avro_binary::{Make, Place};
use avro_compare::{At, FaultKind, Target, fields_of, first_entry, rest_entries};
use std::alloc::{AllocError, Global};

/// What was made of no fields, and what is known of the first.
#[inline(always)]
pub(crate) fn start_filling<'a, M: Make<At = Place>>(
    alloc: Global,
    maker: &mut M,
    plan: &PlanRef<'a>,
    part: Part,
) -> Result<Filling<'a, M::Out, M::Fields>, AllocError>
    ensures kept { OnOk result (M.keeps maker.old maker.new) }
    ensures stands { AreTold M.branch_at M.item_at M.entry_at M.field_at → (nodes : List Node) (fs : List FieldNode) → IfOk result (λ filling. FillsAs (M.stands_for maker.new) (M.fields_stand_for maker.new) (schema_nodes plan.now.0) (schema_nodes plan.now.1) nodes fs part.at filling []) }
{
    match part.at {
        At::Ignored => start_apart(alloc, maker, plan, part),
        At::Pair(w, r) => {
            let index = plan.index_of(part);
            match plan.whole(index, w, r) {
                Some(known) => {
                    let slots = maker.slots(alloc);
                    let fields = maker.fields(alloc, Place::of(r))?;
                    let parts = plan.parts(index);
                    Ok(Filling {
                        slots: Slots::Good(slots, fields, None, w, r),
                        index,
                        known: Some(known),
                        parts,
                    })
                }
                None => start_apart(alloc, maker, plan, part),
            }
        }
    }
}

/// The same of any two nodes, step by step.
#[inline(always)]
fn start_apart<'a, M: Make<At = Place>>(
    alloc: Global,
    maker: &mut M,
    plan: &PlanRef<'a>,
    part: Part,
) -> Result<Filling<'a, M::Out, M::Fields>, AllocError>
    ensures kept { OnOk result (M.keeps maker.old maker.new) }
    ensures stands { AreTold M.branch_at M.item_at M.entry_at M.field_at → (nodes : List Node) (fs : List FieldNode) → IfOk result (λ filling. FillsAs (M.stands_for maker.new) (M.fields_stand_for maker.new) (schema_nodes plan.now.0) (schema_nodes plan.now.1) nodes fs part.at filling []) }
{
    let start = plan.index_of(part);
    let slots = start_fields(alloc, maker, plan, start, part.at)?;
    let index = index_of_records(plan, start, &slots);
    let known = known_fields(plan, index, &slots);
    let parts = plan.parts(index);
    Ok(Filling {
        slots,
        index,
        known,
        parts,
    })
}

/// What was made of no fields: where a pair of nodes leads to a fault, or a reader's field is missing, that
/// fault.
fn start_fields<M: Make<At = Place>>(
    alloc: Global,
    maker: &mut M,
    plan: &PlanRef<'_>,
    index: u32,
    at: At,
) -> Result<Slots<M::Out, M::Fields>, AllocError>
    ensures kept { OnOk result (M.keeps maker.old maker.new) }
    ensures stands { AreTold M.branch_at M.item_at M.entry_at M.field_at → (nodes : List Node) (fs : List FieldNode) → IfOk result (λ slots. FieldsStandAs (M.stands_for maker.new) (M.fields_stand_for maker.new) (schema_nodes plan.now.0) (schema_nodes plan.now.1) nodes fs at slots []) }
    ensures none { IfOk result (λ slots. next_index slots ≡ 0) }
{
    match at {
        At::Ignored => Ok(Slots::Nothing),
        At::Pair(w, r) => match plan.target(index, w, r) {
            Target::Fault(kind) => Ok(Slots::Faulty(fault_apart(alloc, kind)?)),
            Target::To(branch, q) => match plan.missing(plan.index_to(index, branch), w, q) {
                Some(field) => {
                    let fault = fault_apart(alloc, FaultKind::MissingField(field))?;
                    Ok(Slots::Faulty(fault))
                }
                None => {
                    let slots = maker.slots(alloc);
                    let fields = maker.fields(alloc, Place { node: q, branch })?;
                    Ok(Slots::Good(slots, fields, branch, w, q))
                }
            },
        },
    }
}

/// Where the pair of the records may be kept, by the index of the pair that leads to it.
fn index_of_records<O, F>(plan: &PlanRef<'_>, index: u32, slots: &Slots<O, F>) -> u32 {
    match slots {
        Slots::Good(_, _, branch, _, _) => plan.index_to(index, *branch),
        Slots::Faulty(_) => 0,
        Slots::Nothing => 0,
    }
}

/// What the writer's fields are for, if it is kept at an index.
#[inline(always)]
fn known_fields<'a, O, F>(
    plan: &PlanRef<'a>,
    index: u32,
    fields: &Slots<O, F>,
) -> Option<&'a [(usize, At)]>
    ensures { next_index fields.now ≡ 0 → KnowsFields (schema_nodes plan.now.0) (schema_nodes plan.now.1) fields.now result }
{
    match fields {
        Slots::Good(_, _, _, w, q) => plan.fields(index, *w, *q),
        Slots::Faulty(_) => None,
        Slots::Nothing => None,
    }
}

/// What the next field is for, by what is known from there on.
#[inline(always)]
pub(crate) fn next_field_part<O, F>(
    plan: &PlanRef<'_>,
    known: Option<&[(usize, At)]>,
    parts: &[u32],
    fields: &Slots<O, F>,
) -> Part
    ensures { result ≡ part_next (schema_nodes plan.now.0) (schema_nodes plan.now.1) known.entry parts.now fields.now }
{
    match fields {
        Slots::Good(slots, _, _, w, q) => {
            let field = slots.len();
            Part {
                at: plan.field(known, *w, *q, field),
                index: index_at(parts, 0),
                branch: None,
            }
        }
        Slots::Faulty(_) => ignored(),
        Slots::Nothing => ignored(),
    }
}

/// A part that is for nothing.
fn ignored() -> Part
    ensures { result ≡ part_below At.Ignored 0 }
{
    Part {
        at: At::Ignored,
        index: 0,
        branch: None,
    }
}

/// The index of the next field.
#[inline(always)]
fn next_index<O, F>(fields: &Slots<O, F>) -> usize
    ensures { result ≡ next_index fields.now }
{
    match fields {
        Slots::Good(slots, _, _, _, _) => slots.len(),
        Slots::Faulty(_) => 0,
        Slots::Nothing => 0,
    }
}

/// What is known of the fields after the one at an index, by what is known from there on.
#[inline(always)]
fn known_after(known: Option<&[(usize, At)]>, field: usize) -> Option<&[(usize, At)]>
    ensures { (ws rs : List FieldNode) → IfSome known.entry (λ ps. AreForFrom field ws rs ps.now) → IfSome result (λ ps. AreForFrom (field + 1) ws rs ps.now) }
{
    match known {
        Some(known) => Some(rest_entries(known, field)),
        None => None,
    }
}

/// Where the plan may keep the pairs of the fields after the one at an index.
#[inline(always)]
fn parts_after<'a>(known: Option<&[(usize, At)]>, parts: &'a [u32], field: usize) -> &'a [u32] {
    match known {
        Some(known) => {
            if first_entry(known, field).is_some() && parts.len() > 0 {
                &parts[1..]
            } else {
                parts
            }
        }
        None => parts,
    }
}

/// Adds what was made of a field after those before.
#[inline(always)]
pub(crate) fn fill_next<M: Make<At = Place>>(
    maker: &M,
    fields: &mut Filling<'_, M::Out, M::Fields>,
    made: Made<M::Out>,
) -> Result<(), AllocError>
    ensures { AreTold M.branch_at M.item_at M.entry_at M.field_at → (writer reader nodes : List Node) (fs : List FieldNode) (id : ℕ) (at : At) (vs : List Value) (v : Value) → FillsAs (M.stands_for maker.now) (M.fields_stand_for maker.now) writer reader nodes fs at fields.old vs
        → slice_get (field_ids fs) (length vs) ≡ Some id → StandsAs (M.stands_for maker.now) writer reader nodes (node_at nodes id) (field_part writer reader fields.old).at made v
        → OnOk result (FillsAs (M.stands_for maker.now) (M.fields_stand_for maker.now) writer reader nodes fs at fields.new (vs ++ v ∷ [])) }
{
    let field = next_index(&fields.slots);
    fields.parts = parts_after(fields.known, fields.parts, field);
    fields.known = known_after(fields.known, field);
    put_field(maker, &mut fields.slots, made)
}

/// Adds what was made of a field after those before.
#[inline(always)]
fn put_field<M: Make<At = Place>>(
    _maker: &M,
    fields: &mut Slots<M::Out, M::Fields>,
    made: Made<M::Out>,
) -> Result<(), AllocError>
    ensures known { (writer reader : List Node) (known : Option (Bor (List (ℕ × At)))) → KnowsNext writer reader fields.old known → OnOk result (KnowsFields writer reader fields.new known) }
    ensures stands { AreTold M.branch_at M.item_at M.entry_at M.field_at → (writer reader nodes : List Node) (fs : List FieldNode) (id : ℕ) (at : At) (vs : List Value) (v : Value) → FieldsStandAs (M.stands_for _maker.now) (M.fields_stand_for _maker.now) writer reader nodes fs at fields.old vs
        → slice_get (field_ids fs) (length vs) ≡ Some id → StandsAs (M.stands_for _maker.now) writer reader nodes (node_at nodes id) (next_field writer reader fields.old) made v
        → OnOk result (FieldsStandAs (M.stands_for _maker.now) (M.fields_stand_for _maker.now) writer reader nodes fs at fields.new (vs ++ v ∷ [])) }
{
    match fields {
        Slots::Good(slots, _, _, _, _) => match made {
            Made::Good(out) => {
                slots.push(Some(out))?;
                Ok(())
            }
            Made::Faulty(fault) => {
                let outer = step_apart(slots.len(), fault)?;
                *fields = Slots::Faulty(outer);
                Ok(())
            }
            Made::Nothing => {
                slots.push(None)?;
                Ok(())
            }
        },
        Slots::Faulty(_) => Ok(()),
        Slots::Nothing => Ok(()),
    }
}

/// Whether nothing is kept of the fields that follow, since nothing is asked or a fault was met.
#[inline(always)]
pub(crate) fn skip_fields<M: Make<At = Place>>(
    _maker: &M,
    fields: &Slots<M::Out, M::Fields>,
) -> bool
    ensures { AreTold M.branch_at M.item_at M.entry_at M.field_at → (writer reader nodes : List Node) (fs : List FieldNode) (at : At) (vs ws : List Value) → result ≡ true → FieldsStandAs (M.stands_for _maker.now) (M.fields_stand_for _maker.now) writer reader nodes fs at fields.now vs
        → FieldsStandAs (M.stands_for _maker.now) (M.fields_stand_for _maker.now) writer reader nodes fs at fields.now (vs ++ ws) }
{
    match fields {
        Slots::Good(..) => false,
        Slots::Faulty(_) => true,
        Slots::Nothing => true,
    }
}

/// What was made of a record, from its fields: the reader's in its order.
#[inline(always)]
pub(crate) fn make_record<M: Make<At = Place>>(
    alloc: Global,
    maker: &mut M,
    plan: &PlanRef<'_>,
    index: u32,
    fields: Slots<M::Out, M::Fields>,
) -> Result<Made<M::Out>, AllocError>
    ensures kept { OnOk result (M.keeps maker.old maker.new) }
    ensures stands { AreTold M.branch_at M.item_at M.entry_at M.field_at → (nodes : List Node) (name : Name) (aliases : List Name) (fs : List FieldNode) (at : At) (vs : List Value) → FieldsStandAs (M.stands_for maker.old) (M.fields_stand_for maker.old) (schema_nodes plan.now.0) (schema_nodes plan.now.1) nodes fs at fields vs
        → fields_fit nodes (field_ids fs) (values_from vs) ≡ true → IfOk result (λ made. StandsAs (M.stands_for maker.new) (schema_nodes plan.now.0) (schema_nodes plan.now.1) nodes (Node.record_of name aliases fs) at made (Value.record_of (values_from vs))) }
{
    match fields {
        Slots::Good(slots, start, branch, w, q) => {
            let reader = plan.reader();
            // Its contract says that the schema is well formed.
            let _root = reader.root();
            let writes = fields_of(plan.writer(), w);
            let reads = fields_of(reader, q);
            let sources = plan.sources(index, w, q);
            let (taken, filled) = fill(maker, reader, writes, reads, sources, slots, start)?;
            let out = maker.record(alloc, filled)?;
            maker.keep_slots(taken);
            into_branch(alloc, maker, branch, out)
        }
        Slots::Faulty(fault) => Ok(Made::Faulty(fault)),
        Slots::Nothing => Ok(Made::Nothing),
    }
}
