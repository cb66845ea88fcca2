//! Builds a least datum that fails from the tables.

ghost use Rattle.std.specs.Prelude.{◌+◌, ◌≤◌, ℕ, IfOk};
ghost use Rattle.avro_schema.specs.Seen.{ids_of, value_of};
ghost use Rattle.avro_schema.specs.SeenSchema.{schema_nodes};
ghost use Rattle.avro_compare.specs.Planned.{AreComparisons, IsComparison};
ghost use Rattle.avro_least.specs.Asked.{Asked};
ghost use Rattle.avro_least.specs.BuiltErrors.{BuildsAsked, BuildsError, BuildsRow};
ghost use Rattle.avro_least.specs.SeenAsk.{row_of, rows_of};
ghost use Rattle.avro_least.specs.SeenTables.{erring_in, least_in};

use crate::datum::found_pairs::{compare_alone, found_of, lone};
use crate::datum::least::{build, id_at, make_record, wrap};
use crate::datum::made::around_part;
use crate::datum::selecting::{best_error_index, best_row};
use crate::datum::tables::Tables;
use crate::pairs::asking::{Ask, FieldAsk, ask_of_pair, rows_of_node};
use avro_compare::Comparison;
use avro_schema::{Datum, Memory, NodeId};
use std::alloc::Global;

/// Builds a least datum that fails at a pair. Its entry has at most `left` nodes; at 0 a null stands in for it.
///
/// # Errors
///
/// Memory ran out.
#[cycle(build_error)]
pub fn build_error(
    alloc: Global,
    tables: &Tables,
    w: NodeId,
    r: NodeId,
    left: u32,
) -> Result<Datum, Memory>
    requires few { tables.now.limit ≤ 16777216 }
    requires found { AreComparisons (schema_nodes tables.now.writer.now) (schema_nodes tables.now.reader.now) tables.now.reached.now.found.items }
    ensures { IfOk result (λ d. BuildsError (schema_nodes tables.now.writer.now) (schema_nodes tables.now.reader.now) tables.now.limit (least_in tables.now) (erring_in tables.now) left w.0 r.0 (value_of d)) }
{
    match found_of(tables, w, r) {
        Some(pair) => {
            let value = build_asked(alloc, tables, pair, left)?;
            Ok(value)
        }
        None => {
            let pair = compare_alone(alloc, tables, w, r)?;
            let value = build_asked(alloc, tables, &pair, left)?;
            Ok(value)
        }
    }
}

/// The same, given the comparison of the pair.
#[cycle(build_error)]
fn build_asked(
    alloc: Global,
    tables: &Tables,
    pair: &Comparison,
    left: u32,
) -> Result<Datum, Memory>
    requires few { tables.now.limit ≤ 16777216 }
    requires found { AreComparisons (schema_nodes tables.now.writer.now) (schema_nodes tables.now.reader.now) tables.now.reached.now.found.items }
    requires pair { IsComparison (schema_nodes tables.now.writer.now) (schema_nodes tables.now.reader.now) pair.now }
    ensures { IfOk result (λ d. BuildsError (schema_nodes tables.now.writer.now) (schema_nodes tables.now.reader.now) tables.now.limit (least_in tables.now) (erring_in tables.now) left pair.now.w.0 pair.now.r.0 (value_of d)) }
{
    if left == 0 {
        return Ok(Datum::Null);
    }
    match ask_of_pair(tables.writer, tables.reader, pair) {
        Ask::Quiet => Ok(Datum::Null),
        Ask::Whole => {
            let value = build(alloc, tables.writer, tables.table, pair.w, left)?;
            Ok(value)
        }
        Ask::Lone => {
            let value = lone(alloc, tables, pair)?;
            Ok(value)
        }
        Ask::Same(q) => {
            let value = build_error(alloc, tables, pair.w, q, left)?;
            Ok(value)
        }
        Ask::Part(a, b) => {
            let part = build_error(alloc, tables, a, b, left - 1)?;
            let value = around_part(alloc, tables.writer, pair.w, part)?;
            Ok(value)
        }
        Ask::Branches(ids) => {
            let value = build_branches(alloc, tables, ids, pair.r, left - 1)?;
            Ok(value)
        }
        Ask::Fields(parts) => {
            let rows = rows_of_node(alloc, tables.writer.get(pair.w), parts)?;
            let value = build_rows(alloc, tables, &rows, left - 1)?;
            Ok(value)
        }
    }
}

/// Builds a least datum of a writer's union that fails: a value in the branch with the best entry.
#[cycle(build_error)]
fn build_branches(
    alloc: Global,
    tables: &Tables,
    ids: &[NodeId],
    r: NodeId,
    left: u32,
) -> Result<Datum, Memory>
    requires few { tables.now.limit ≤ 16777216 }
    requires found { AreComparisons (schema_nodes tables.now.writer.now) (schema_nodes tables.now.reader.now) tables.now.reached.now.found.items }
    ensures { IfOk result (λ d. (w more : ℕ) → more ≤ left + 1 → BuildsAsked (schema_nodes tables.now.writer.now) (schema_nodes tables.now.reader.now) tables.now.limit (least_in tables.now) (erring_in tables.now) more w r.0 (Asked.branches (ids_of ids.now)) (value_of d)) }
{
    let k = best_error_index(tables, ids, r);
    let value = build_error(alloc, tables, id_at(ids, k), r, left)?;
    let whole = wrap(alloc, k, value)?;
    Ok(whole)
}

/// Builds a record in which one field fails.
#[cycle(build_error)]
fn build_rows(alloc: Global, tables: &Tables, rows: &[FieldAsk], left: u32) -> Result<Datum, Memory>
    requires few { tables.now.limit ≤ 16777216 }
    requires found { AreComparisons (schema_nodes tables.now.writer.now) (schema_nodes tables.now.reader.now) tables.now.reached.now.found.items }
    ensures { IfOk result (λ d. (w r more : ℕ) → more ≤ left + 1 → BuildsAsked (schema_nodes tables.now.writer.now) (schema_nodes tables.now.reader.now) tables.now.limit (least_in tables.now) (erring_in tables.now) more w r (Asked.fields (rows_of rows.now)) (value_of d)) }
{
    let k = best_row(alloc, tables, rows)?;
    let mut values = Vec::new(alloc);
    for i in 0..rows.len() {
        let value = build_row(alloc, tables, rows[i], i == k, left)?;
        values.push(value)?;
    }
    Ok(make_record(values))
}

/// Builds a field's least datum, or its least datum that fails if the field is the chosen one.
#[cycle(build_error)]
fn build_row(
    alloc: Global,
    tables: &Tables,
    row: FieldAsk,
    chosen: bool,
    left: u32,
) -> Result<Datum, Memory>
    requires few { tables.now.limit ≤ 16777216 }
    requires found { AreComparisons (schema_nodes tables.now.writer.now) (schema_nodes tables.now.reader.now) tables.now.reached.now.found.items }
    ensures { IfOk result (λ d. BuildsRow (schema_nodes tables.now.writer.now) (schema_nodes tables.now.reader.now) tables.now.limit (least_in tables.now) (erring_in tables.now) left chosen (row_of row) (value_of d)) }
{
    if chosen {
        match row.theirs {
            None => Ok(Datum::Null),
            Some(theirs) => {
                let value = build_error(alloc, tables, row.node, theirs, left)?;
                Ok(value)
            }
        }
    } else {
        let value = build(alloc, tables.writer, tables.table, row.node, left)?;
        Ok(value)
    }
}
