//! Which nodes JSON may be a default of, whatever its parts are.

ghost use Rattle.std.specs.Prelude.{◌≡◌, ℕ, true, List, IfOk};
ghost use Rattle.avro_schema.specs.Node.{Node};
ghost use Rattle.avro_schema_json.specs.inside.Covers.{Covers};
ghost use Rattle.avro_schema_json.specs.inside.Kinds.{HasKind};
ghost use Rattle.avro_schema_json.specs.inside.Rows.{has_place};
ghost use Rattle.avro_schema_json.specs.inside.Tables.{AreTables};
ghost use Rattle.serde_json.specs.Data.{Data};
ghost use Rattle.serde_json.specs.View.{number_view, view, members_view};

use crate::defaults::edges::label_of;
use crate::defaults::kinds::{
    ARRAY, BOOLEAN, BYTES, FIXED, INT, LONG, MAP, NULL, RECORD, TEXT, add_kind, row_of_kind,
};
use crate::defaults::parents::put_parents_at;
use crate::defaults::plain_defaults::bytes_of_text;
use crate::defaults::rows::{Row, empty_row};
use crate::defaults::tables::Tables;
use avro_schema::Memory;
use serde_json::{Map, Number, Value};
use std::alloc::Global;

/// The nodes that JSON may be a default of, whatever its parts are: those that it is one of, where it has none.
pub(crate) fn row_of_leaf(alloc: Global, tables: &Tables, tree: &Value) -> Result<Row, Memory>
    ensures { IfOk result (λ row. (nodes : List Node) → AreTables nodes tables.now → Covers nodes tables.now.last (view tree.now) row.words) }
{
    match tree {
        Value::Null => Ok(row_of_kind(&tables.kinds, NULL)),
        Value::Bool(_) => Ok(row_of_kind(&tables.kinds, BOOLEAN)),
        Value::Number(number) => Ok(row_of_number(tables, *number)),
        Value::String(text) => row_of_text(alloc, tables, text.as_str()),
        Value::Array(_) => Ok(row_of_kind(&tables.kinds, ARRAY)),
        Value::Object(members) => Ok(row_of_object(tables, members)),
    }
}

/// The nodes that a number is a default of: long, and int where it is in its range.
fn row_of_number(tables: &Tables, number: Number) -> Row
    ensures { (nodes : List Node) → AreTables nodes tables.now → Covers nodes tables.now.last (Data.number (number_view number)) result.words }
{
    let Some(value) = number.as_i64() else {
        return empty_row();
    };
    let mut row = row_of_kind(&tables.kinds, LONG);
    match i32::try_from(value) {
        Ok(_) => {
            add_kind(&mut row, &tables.kinds, INT);
            row
        }
        Err(_) => row,
    }
}

/// The nodes that a text is a default of: string, the enums of which it is a symbol, and where each of its characters
/// is that of a byte, bytes and the fixeds of as many bytes.
fn row_of_text(alloc: Global, tables: &Tables, text: &str) -> Result<Row, Memory>
    ensures { IfOk result (λ row. (nodes : List Node) → AreTables nodes tables.now → Covers nodes tables.now.last (Data.string text.now) row.words) }
{
    let mut row = row_of_kind(&tables.kinds, TEXT);
    let label = label_of(&tables.labels, text);
    put_parents_at(&mut row, &tables.parents, label, tables.last as usize + 1);
    let found = bytes_of_text(alloc, text)?;
    match found {
        Some(bytes) => {
            add_kind(&mut row, &tables.kinds, BYTES);
            add_kind(&mut row, &tables.kinds, (FIXED, bytes.len() as u64));
            Ok(row)
        }
        None => Ok(row),
    }
}

/// The maps, and the records of as many fields as an object has members.
pub(crate) fn row_of_object(tables: &Tables, members: &Map<String, Value>) -> Row
    ensures { (nodes : List Node) → AreTables nodes tables.now → Covers nodes tables.now.last (Data.object (members_view members.now.entries)) result.words }
{
    let mut row = row_of_kind(&tables.kinds, MAP);
    add_kind(&mut row, &tables.kinds, (RECORD, members.len() as u64));
    row
}
