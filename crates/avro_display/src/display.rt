ghost use Rattle.std.specs.Prelude.{◌≡◌, ◌≢◌, ◌⊎◌, ◌++◌, [], ◌∷◌, string_bytes, IfOk, OnOk, OnErr, IsErrOf};
ghost use Rattle.avro_device.specs.PutFront.{PutsFrontOf};
ghost use Rattle.avro_schema.specs.Node.{node_at, root_of};
ghost use Rattle.avro_schema.specs.Seen.{value_of};
ghost use Rattle.avro_schema.specs.SeenSchema.{schema_nodes};
ghost use Rattle.avro_display.specs.DisplayTree.{display_text};
ghost use Rattle.avro_display.specs.Pieces.{PutsText};
ghost use Rattle.avro_display.specs.declared.put_error.PutError.{PutError};

use crate::pieces::put_byte;
use crate::plain::Plain;
use crate::put_error::PutError;
use crate::putting::put_displayed;
use crate::table::DisplayTable;
use crate::text::Text;
use avro_device::{Output, WriteOutput, put_all};
use avro_schema::{Datum, Memory, NodeId, Schema};
use std::alloc::Global;
use std::mem::replace;

/// Displays a datum of a node of a schema as compact JSON. Many data of a schema are displayed by one table ([`show_by`]).
///
/// # Errors
///
/// Memory ran out.
pub fn show(alloc: Global, schema: &Schema, id: NodeId, datum: &Datum) -> Result<String, Memory>
    ensures { IfOk result (λ text.
        string_bytes text ≡ display_text (schema_nodes schema.now) (node_at (schema_nodes schema.now) id.0) (value_of datum.now)) }
{
    let table = DisplayTable::new(alloc, schema)?;
    show_by(alloc, &table, id, datum)
}

/// Displays a datum of a node of a table's schema as compact JSON.
///
/// # Errors
///
/// Memory ran out.
pub fn show_by(
    alloc: Global,
    table: &DisplayTable<'_>,
    node: NodeId,
    datum: &Datum,
) -> Result<String, Memory>
    ensures { IfOk result (λ text.
        string_bytes text ≡ display_text (schema_nodes table.now) (node_at (schema_nodes table.now) node.0) (value_of datum.now)) }
{
    match shown(alloc, table, node, datum) {
        Ok(text) => match String::from_utf8(text) {
            Ok(text) => Ok(text),
            Err(_) => Err(Memory),
        },
        Err(_) => Err(Memory),
    }
}

/// The display of a datum of a node.
fn shown(
    alloc: Global,
    table: &DisplayTable<'_>,
    node: NodeId,
    datum: &Datum,
) -> Result<Vec<u8>, PutError>
    ensures { IfOk result (λ text. text.items ≡ display_text (schema_nodes table.now) (node_at (schema_nodes table.now) node.0) (value_of datum.now)) }
{
    let mut out = WriteOutput::new(Vec::new(alloc));
    put_shown(&mut out, alloc, table, node, datum)?;
    Ok(out.into_inner())
}

/// Puts the display of a datum of a node, and all of it.
fn put_shown<O: Output>(
    out: &mut O,
    alloc: Global,
    table: &DisplayTable<'_>,
    node: NodeId,
    datum: &Datum,
) -> Result<(), PutError>
    ensures { OnOk result (O.keeps out.old (display_text (schema_nodes table.now) (node_at (schema_nodes table.now) node.0) (value_of datum.now)) out.new) }
{
    let mut text = Vec::new(alloc);
    put_display(&mut *out, &mut text, alloc, table, node, datum)?;
    put_all(out, &text)?;
    Ok(())
}

/// Appends the display of a datum of a node to a text, and puts the text in pieces if it is long: what the text held,
/// and then the display, is what was put, and then what the text holds.
///
/// # Errors
///
/// The output failed, or took none of the bytes; memory ran out. A prefix of what the text held and then the display was put.
pub fn put_display<O: Output>(
    out: &mut O,
    text: &mut Vec<u8>,
    alloc: Global,
    table: &DisplayTable<'_>,
    node: NodeId,
    datum: &Datum,
) -> Result<(), PutError>
    ensures put { OnOk result (PutsText O.keeps out.old text.old.items
        (display_text (schema_nodes table.now) (node_at (schema_nodes table.now) node.0) (value_of datum.now)) out.new text.new.items) }
    ensures front { OnErr result (PutsFrontOf O.keeps out.old out.new
        (text.old.items ++ display_text (schema_nodes table.now) (node_at (schema_nodes table.now) node.0) (value_of datum.now))) }
    ensures works { OnOk result (O.failures out.new ≡ O.failures out.old) }
    ensures fails { IsErrOf result PutError.CannotWrite → (O.failures out.new ≢ O.failures out.old) ⊎ O.stuck out.new }
    ensures memory { IsErrOf result PutError.OutOfMemory → O.failures out.new ≡ O.failures out.old }
{
    let mut held = Text::holding(replace(text, Vec::new(alloc)));
    let put = put_datum(out, &mut held, table, node, datum);
    *text = held.into_inner();
    put
}

/// The same for a text that keeps its buffers.
fn put_datum<O: Output>(
    out: &mut O,
    text: &mut Text,
    table: &DisplayTable<'_>,
    node: NodeId,
    datum: &Datum,
) -> Result<(), PutError>
    ensures put { OnOk result (PutsText O.keeps out.old text.old
        (display_text (schema_nodes table.now) (node_at (schema_nodes table.now) node.0) (value_of datum.now)) out.new text.new) }
    ensures front { OnErr result (PutsFrontOf O.keeps out.old out.new
        (text.old ++ display_text (schema_nodes table.now) (node_at (schema_nodes table.now) node.0) (value_of datum.now))) }
    ensures works { OnOk result (O.failures out.new ≡ O.failures out.old) }
    ensures fails { IsErrOf result PutError.CannotWrite → (O.failures out.new ≢ O.failures out.old) ⊎ O.stuck out.new }
    ensures memory { IsErrOf result PutError.OutOfMemory → O.failures out.new ≡ O.failures out.old }
{
    put_displayed(out, text, &Plain::new(table), Some((Some(node), datum)))
}

/// Appends the line of a datum of the schema, its display and a line feed, to a text, and puts the text in
/// pieces if it is long.
///
/// # Errors
///
/// Those of [`put_display`]. A prefix of what the text held and then the line was put.
pub fn put_line<O: Output>(
    out: &mut O,
    text: &mut Text,
    table: &DisplayTable<'_>,
    datum: &Datum,
) -> Result<(), PutError>
    ensures put { OnOk result (PutsText O.keeps out.old text.old
        (display_text (schema_nodes table.now) (root_of (schema_nodes table.now)) (value_of datum.now) ++ 10 ∷ []) out.new text.new) }
    ensures front { OnErr result (PutsFrontOf O.keeps out.old out.new
        (text.old ++ (display_text (schema_nodes table.now) (root_of (schema_nodes table.now)) (value_of datum.now) ++ 10 ∷ []))) }
    ensures works { OnOk result (O.failures out.new ≡ O.failures out.old) }
    ensures fails { IsErrOf result PutError.CannotWrite → (O.failures out.new ≢ O.failures out.old) ⊎ O.stuck out.new }
    ensures memory { IsErrOf result PutError.OutOfMemory → O.failures out.new ≡ O.failures out.old }
{
    let root = table.schema().root();
    put_datum(&mut *out, &mut *text, table, root, datum)?;
    put_byte(out, text, b'\n')
}
