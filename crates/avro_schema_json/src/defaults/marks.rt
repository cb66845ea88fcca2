//! Which nodes JSON and each of its parts are defaults of, from the innermost outwards.

ghost use Rattle.std.specs.Prelude.{◌≡◌, ℕ, List, Some, IfOk, OnOk};
ghost use Rattle.avro_schema.specs.Node.{Node};
ghost use Rattle.avro_schema_json.specs.inside.Covers.{Covers};
ghost use Rattle.avro_schema_json.specs.inside.Marks.{ArePartsMarked, IsMarked, IsPartUnder, IsSetOf, Stays};
ghost use Rattle.avro_schema_json.specs.inside.Rows.{KeepsEither};
ghost use Rattle.avro_schema_json.specs.inside.Sets.{KeepsRows, row_at};
ghost use Rattle.avro_schema_json.specs.inside.Steps.{AreSteps};
ghost use Rattle.avro_schema_json.specs.inside.Tables.{AreTables};
ghost use Rattle.serde_json.specs.Data.{Data};
ghost use Rattle.serde_json.specs.View.{view, items_view, members_view};

use crate::defaults::edges::label_of;
use crate::defaults::leaves::row_of_leaf;
use crate::defaults::parents::{ITEMS, VALUES};
use crate::defaults::parts::{Mark, Marks};
use crate::defaults::rows::{Row, add_row, keep_row};
use crate::defaults::sets::{Sets, number_of, row_of};
use crate::defaults::steps::{Memo, step};
use crate::defaults::tables::Tables;
use avro_schema::Memory;
use serde_json::{Map, Value};
use std::alloc::Global;

/// Marks JSON and all of its parts.
#[cycle(marks)]
pub(crate) fn mark_tree(
    alloc: Global,
    tables: &Tables,
    tree: &Value,
    marks: &mut Marks,
) -> Result<Mark, Memory>
    requires steps { AreSteps tables.now.parents marks.old.memo }
    ensures steps { OnOk result (AreSteps tables.now.parents marks.new.memo) }
    ensures stays { OnOk result (Stays marks.old marks.new) }
    ensures marked { IfOk result (λ mark. (nodes : List Node) → AreTables nodes tables.now → IsMarked nodes tables.now.last marks.new (view tree.now) mark) }
{
    match tree {
        Value::Array(items) => {
            let row = row_apart(alloc, tables, tree)?;
            mark_array(alloc, tables, items, row, marks)
        }
        Value::Object(members) => {
            let row = row_apart(alloc, tables, tree)?;
            mark_object(alloc, tables, members, row, marks)
        }
        _ => mark_leaf(alloc, tables, tree, marks),
    }
}

/// Marks JSON without parts. No row is in a frame of the recursion.
#[inline(never)]
fn mark_leaf(
    alloc: Global,
    tables: &Tables,
    tree: &Value,
    marks: &mut Marks,
) -> Result<Mark, Memory>
    requires steps { AreSteps tables.now.parents marks.old.memo }
    ensures steps { OnOk result (AreSteps tables.now.parents marks.new.memo) }
    ensures stays { OnOk result (Stays marks.old marks.new) }
    ensures marked { IfOk result (λ mark. (nodes : List Node) → AreTables nodes tables.now → IsMarked nodes tables.now.last marks.new (view tree.now) mark) }
{
    let row = row_of_leaf(alloc, tables, tree)?;
    mark_whole(alloc, tables, &row, &[], marks)
}

/// The nodes that JSON may be a default of, whatever its parts are, apart from the frames of the recursion.
#[inline(never)]
fn row_apart(alloc: Global, tables: &Tables, tree: &Value) -> Result<Box<Row>, Memory>
    ensures { IfOk result (λ row. (nodes : List Node) → AreTables nodes tables.now → Covers nodes tables.now.last (view tree.now) row.value.words) }
{
    Ok(Box::new(alloc, row_of_leaf(alloc, tables, tree)?)?)
}

/// Marks an array and its items, by a row that has the nodes that it may be a default of.
#[cycle(marks)]
fn mark_array(
    alloc: Global,
    tables: &Tables,
    items: &Vec<Value>,
    mut row: Box<Row>,
    marks: &mut Marks,
) -> Result<Mark, Memory>
    requires steps { AreSteps tables.now.parents marks.old.memo }
    ensures steps { OnOk result (AreSteps tables.now.parents marks.new.memo) }
    ensures stays { OnOk result (Stays marks.old marks.new) }
    ensures marked { IfOk result (λ mark. (nodes : List Node) → AreTables nodes tables.now → Covers nodes tables.now.last (Data.array (items_view items.now.items)) row.value.words
        → IsMarked nodes tables.now.last marks.new (Data.array (items_view items.now.items)) mark) }
{
    let mut parts: Vec<Mark> = Vec::with_capacity(alloc, items.len())?;
    for item in items {
        let mark = mark_tree(alloc, tables, item, marks)?;
        keep_parents(alloc, tables, ITEMS, mark.set, &mut marks.memo, &mut row)?;
        parts.push(mark)?;
    }
    mark_whole(alloc, tables, &row, &parts, marks)
}

/// Marks an object and its members, by a row that has the nodes that it may be a default of.
#[cycle(marks)]
fn mark_object(
    alloc: Global,
    tables: &Tables,
    members: &Map<String, Value>,
    mut row: Box<Row>,
    marks: &mut Marks,
) -> Result<Mark, Memory>
    requires steps { AreSteps tables.now.parents marks.old.memo }
    ensures steps { OnOk result (AreSteps tables.now.parents marks.new.memo) }
    ensures stays { OnOk result (Stays marks.old marks.new) }
    ensures marked { IfOk result (λ mark. (nodes : List Node) → AreTables nodes tables.now → Covers nodes tables.now.last (Data.object (members_view members.now.entries)) row.value.words
        → IsMarked nodes tables.now.last marks.new (Data.object (members_view members.now.entries)) mark) }
{
    let mut parts: Vec<Mark> = Vec::with_capacity(alloc, members.len())?;
    for (key, member) in members.iter() {
        let mark = mark_tree(alloc, tables, member, marks)?;
        let label = label_of(&tables.labels, key.as_str());
        keep_parents(alloc, tables, label, mark.set, &mut marks.memo, &mut row)?;
        parts.push(mark)?;
    }
    mark_whole(alloc, tables, &row, &parts, marks)
}

/// Keeps what may have a part in a set under a label, and the maps that hold it: a member may be the value of a map as
/// well. No row is in a frame of the recursion.
#[inline(never)]
fn keep_parents(
    alloc: Global,
    tables: &Tables,
    label: u32,
    set: u32,
    memo: &mut Memo,
    row: &mut Box<Row>,
) -> Result<(), Memory>
    requires steps { AreSteps tables.now.parents memo.old }
    ensures steps { OnOk result (AreSteps tables.now.parents memo.new) }
    ensures kept { OnOk result (KeepsRows memo.old.sets memo.new.sets) }
    ensures row { OnOk result ((nodes : List Node) (d e : Data) → AreTables nodes tables.now → IsPartUnder tables.now.labels label d e
        → IsSetOf nodes tables.now.last memo.old.sets e set → Covers nodes tables.now.last d row.old.value.words
        → Covers nodes tables.now.last d row.new.value.words) }
{
    let Some(under) = step(alloc, &tables.parents, memo, label, set)? else {
        return Ok(());
    };
    let Some(maps) = step(alloc, &tables.parents, memo, VALUES, set)? else {
        return Ok(());
    };
    keep_either(row, &memo.sets, under, maps);
    Ok(())
}

/// Keeps what one of two sets has too.
fn keep_either(row: &mut Row, sets: &Sets, one: u32, other: u32)
    ensures { (first second : List ℕ) → row_at sets.now one ≡ Some first → row_at sets.now other ≡ Some second
        → KeepsEither row.old.words first second row.new.words }
{
    let Some(first) = row_of(sets, one) else {
        return;
    };
    let Some(second) = row_of(sets, other) else {
        return;
    };
    let mut either = *first;
    add_row(&mut either, second);
    keep_row(row, &either);
}

/// Marks JSON by its row and the marks of its parts, which are put behind all others.
fn mark_whole(
    alloc: Global,
    tables: &Tables,
    row: &Row,
    parts: &[Mark],
    marks: &mut Marks,
) -> Result<Mark, Memory>
    requires steps { AreSteps tables.now.parents marks.old.memo }
    ensures steps { OnOk result (AreSteps tables.now.parents marks.new.memo) }
    ensures stays { OnOk result (Stays marks.old marks.new) }
    ensures marked { IfOk result (λ mark. (nodes : List Node) (last : ℕ) (d : Data) → Covers nodes last d row.now.words
        → ArePartsMarked nodes last marks.old d parts.now → IsMarked nodes last marks.new d mark) }
{
    let set = number_of(alloc, &mut marks.memo.sets, row)?;
    let Ok(first) = u32::try_from(marks.all.len()) else {
        return Err(Memory);
    };
    let Ok(count) = u32::try_from(parts.len()) else {
        return Err(Memory);
    };
    marks.all.extend_from_slice(parts)?;
    Ok(Mark {
        set,
        parts: first,
        count,
    })
}
