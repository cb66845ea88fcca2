//! Reading the fields of records, within the cycle that reads a node.

ghost use Rattle.std.specs.Prelude.{◌≡◌, ◌≤◌, ◌++◌, ℕ, List, length, take, drop, IfOk, OnOk};
ghost use Rattle.std.specs.Result.{IfErr};
ghost use Rattle.avro_name.specs.Name.{Name};
ghost use Rattle.avro_schema.specs.Node.{Node as SeenNode, FieldNode, node_at, field_ids};
ghost use Rattle.avro_schema.specs.Runs.{StartWithEmpties};
ghost use Rattle.avro_schema.specs.Seen.{seen_fields};
ghost use Rattle.avro_schema.specs.SeenSchema.{schema_nodes};
ghost use Rattle.avro_schema.specs.Value.{Value};
ghost use Rattle.avro_binary.specs.CursorReads.{ReadsNode, outside, left_node};
ghost use Rattle.avro_binary.specs.Making.{Made};
ghost use Rattle.avro_binary.specs.inside.PassesRun.{FindsEmpties, RefusesEmpties, TellOfRuns};

use crate::make::Make;
use crate::reading::read_at;
use avro_cursor::{Cursor, ReadError};
use avro_schema::{EmptyFields, Field, NodeId, Schema};
use std::alloc::Global;

/// Reads a datum for each field: at once those next to one another that take no bytes, as far as the schema tells of them.
#[cycle(reading)]
#[inline(always)]
pub(crate) fn read_parts<M: Make>(
    alloc: Global,
    schema: &Schema,
    id: NodeId,
    fields: &[Field],
    cursor: &mut Cursor<'_>,
    maker: &mut M,
    at: M::At,
) -> Result<M::Out, ReadError>
    ensures reads { (name : Name) (aliases : List Name) → node_at (schema_nodes schema.now) id.0 ≡ SeenNode.record_of name aliases (seen_fields fields.now)
        → ReadsNode (Made M.keeps (λ m. M.stands_for m (schema_nodes schema.now) (SeenNode.record_of name aliases (seen_fields fields.now)) at) maker.old maker.new) (schema_nodes schema.now) (SeenNode.record_of name aliases (seen_fields fields.now)) (outside cursor.old) (left_node cursor.new) result }
    ensures stays { (front : List ℕ) → M.begins maker.old front → M.begins maker.new front }
{
    let runs = schema.empty_fields(id);
    if runs.is_empty() {
        return read_fields(alloc, schema, fields, cursor, maker, at);
    }
    read_runs(alloc, schema, runs, fields, cursor, maker, at)
}

/// Reads a datum for each field.
#[cycle(reading)]
#[inline(always)]
fn read_fields<M: Make>(
    alloc: Global,
    schema: &Schema,
    fields: &[Field],
    cursor: &mut Cursor<'_>,
    maker: &mut M,
    at: M::At,
) -> Result<M::Out, ReadError>
    ensures reads { (name : Name) (aliases : List Name) → ReadsNode (Made M.keeps (λ m. M.stands_for m (schema_nodes schema.now) (SeenNode.record_of name aliases (seen_fields fields.now)) at) maker.old maker.new) (schema_nodes schema.now) (SeenNode.record_of name aliases (seen_fields fields.now)) (outside cursor.old) (left_node cursor.new) result }
    ensures stays { (front : List ℕ) → M.begins maker.old front → M.begins maker.new front }
{
    let mut values = maker.fields(alloc, at)?;
    for field in fields {
        let part = maker.field_at(&values, field.node);
        let value = read_at(alloc, schema, field.node, cursor, maker, part)?;
        maker.field(alloc, &mut values, value)?;
    }
    Ok(maker.record(alloc, values)?)
}

/// Reads a datum for each field, and passes at once the data without bytes of those that the runs tell of.
#[cycle(reading)]
#[inline(never)]
fn read_runs<M: Make>(
    alloc: Global,
    schema: &Schema,
    runs: &[EmptyFields],
    fields: &[Field],
    cursor: &mut Cursor<'_>,
    maker: &mut M,
    at: M::At,
) -> Result<M::Out, ReadError>
    ensures reads { (name : Name) (aliases : List Name) → TellOfRuns (schema_nodes schema.now) (field_ids (seen_fields fields.now)) runs.now
        → ReadsNode (Made M.keeps (λ m. M.stands_for m (schema_nodes schema.now) (SeenNode.record_of name aliases (seen_fields fields.now)) at) maker.old maker.new) (schema_nodes schema.now) (SeenNode.record_of name aliases (seen_fields fields.now)) (outside cursor.old) (left_node cursor.new) result }
    ensures stays { (front : List ℕ) → M.begins maker.old front → M.begins maker.new front }
{
    // Its contract says that the schema is well formed, which the laws of data without bytes ask for.
    let _count = schema.len();
    let mut values = maker.fields(alloc, at)?;
    let mut index = 0;
    while index < fields.len() {
        let run = run_at(runs, index);
        let passed = pass_run(
            schema,
            run,
            fields.len() - index,
            cursor,
            maker,
            &mut values,
        )?;
        if passed == 0 {
            let node = fields[index].node;
            let part = maker.field_at(&values, node);
            let value = read_apart(alloc, schema, node, cursor, maker, part)?;
            maker.field(alloc, &mut values, value)?;
            index += 1;
        } else {
            index += passed;
        }
    }
    Ok(maker.record(alloc, values)?)
}

/// Reads a datum by a call: what reads one at hand stands in the loop over all fields alone.
#[cycle(reading)]
#[inline(never)]
fn read_apart<M: Make>(
    alloc: Global,
    schema: &Schema,
    id: NodeId,
    cursor: &mut Cursor<'_>,
    maker: &mut M,
    at: M::At,
) -> Result<M::Out, ReadError>
    ensures reads { ReadsNode (Made M.keeps (λ m. M.stands_for m (schema_nodes schema.now) (node_at (schema_nodes schema.now) id.0) at) maker.old maker.new) (schema_nodes schema.now) (node_at (schema_nodes schema.now) id.0) cursor.old cursor.new result }
    ensures stays { (front : List ℕ) → M.begins maker.old front → M.begins maker.new front }
{
    read_at(alloc, schema, id, cursor, maker, at)
}

/// The run of the fields from an index on: none where nothing is known of them.
#[inline(always)]
fn run_at(runs: &[EmptyFields], index: usize) -> EmptyFields
    ensures { (nodes : List SeenNode) (ids : List ℕ) → TellOfRuns nodes ids runs.now → StartWithEmpties nodes (drop index ids) result }
{
    match runs.get(index) {
        Some(run) => *run,
        None => EmptyFields {
            fields: 0,
            nodes: 0,
            depth: 0,
        },
    }
}

/// Passes at once the data of the next fields, which take no bytes, and says how many they are: none where the maker needs them one by one.
#[inline(always)]
fn pass_run<M: Make>(
    schema: &Schema,
    run: EmptyFields,
    left: usize,
    cursor: &mut Cursor<'_>,
    maker: &M,
    values: &mut M::Fields,
) -> Result<usize, ReadError>
    ensures few { IfOk result (λ count. count ≤ left) }
    ensures level { OnOk result (cursor.new.depth ≡ cursor.old.depth) }
    ensures found { (fs : List FieldNode) (at : M.At) (vs : List Value) → StartWithEmpties (schema_nodes schema.now) (drop (length vs) (field_ids fs)) run → M.fields_stand_for maker.now (schema_nodes schema.now) fs at values.old vs
        → IfOk result (λ count. (ws : List Value) × (length ws ≡ count) × FindsEmpties (schema_nodes schema.now) (take count (drop (length vs) (field_ids fs))) cursor.old cursor.new ws
        × M.fields_stand_for maker.now (schema_nodes schema.now) fs at values.new (vs ++ ws)) }
    ensures refused { (ids : List ℕ) → StartWithEmpties (schema_nodes schema.now) ids run → IfErr result (RefusesEmpties (schema_nodes schema.now) ids cursor.old) }
{
    // Its contract says that the schema is well formed, which the laws of faults ask for.
    let _count = schema.len();
    let count = run.fields as usize;
    if count > left {
        return Ok(0);
    }
    if maker.empty_fields(values, run.fields) {
        cursor.pass_empty(run.nodes, run.depth)?;
        return Ok(count);
    }
    Ok(0)
}
