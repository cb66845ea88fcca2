ghost use Rattle.std.specs.Prelude.{◌≡◌, ◌≢◌, ◌⊎◌, ◌++◌, [], ◌∷◌, Ok, OnOk, OnErr, IsErrOf};
ghost use Rattle.avro_device.specs.PutFront.{PutsFrontOf};
ghost use Rattle.avro_schema.specs.Node.{root_of};
ghost use Rattle.avro_schema.specs.Seen.{value_of};
ghost use Rattle.avro_schema.specs.SeenSchema.{schema_nodes};
ghost use Rattle.avro_schema.specs.Value.{Value};
ghost use Rattle.avro_compare.specs.Resolve.{resolve_root};
ghost use Rattle.avro_display.specs.DisplayTree.{display_text};
ghost use Rattle.avro_display.specs.Pieces.{PutsText};
ghost use Rattle.avro_display.specs.declared.put_error.PutError.{PutError};

use crate::part::Part;
use crate::resolved::Resolved;
use avro_device::Output;
use avro_display::{PutError, Text, put_byte, put_displayed};
use avro_resolve::PlanPair;
use avro_schema::Datum;

/// Appends the display of what a writer's datum is for the reader, as a datum of the table's schema, to a text, and puts the text in
/// pieces if it is long: what the text held, and then the display, is what was put, and then what the text holds. If resolution gives
/// nothing, no clause says what is put.
///
/// # Errors
///
/// The output failed, or took none of the bytes; memory ran out. A prefix of what the text held and then the display was put.
pub fn put_resolved<O: Output>(
    out: &mut O,
    text: &mut Text,
    resolved: &Resolved<'_>,
    datum: &Datum,
) -> Result<(), PutError>
    ensures put { (u : Value) → resolve_root (schema_nodes resolved.now.plan.now.0) (schema_nodes resolved.now.plan.now.1) (value_of datum.now) ≡ Ok u
        → OnOk result (PutsText O.keeps out.old text.old
        (display_text (schema_nodes resolved.now.table.now) (root_of (schema_nodes resolved.now.table.now)) u) out.new text.new) }
    ensures front { (u : Value) → resolve_root (schema_nodes resolved.now.plan.now.0) (schema_nodes resolved.now.plan.now.1) (value_of datum.now) ≡ Ok u
        → OnErr result (PutsFrontOf O.keeps out.old out.new (text.old
        ++ display_text (schema_nodes resolved.now.table.now) (root_of (schema_nodes resolved.now.table.now)) u)) }
    ensures works { OnOk result (O.failures out.new ≡ O.failures out.old) }
    ensures fails { IsErrOf result PutError.CannotWrite → (O.failures out.new ≢ O.failures out.old) ⊎ O.stuck out.new }
    ensures memory { IsErrOf result PutError.OutOfMemory → O.failures out.new ≡ O.failures out.old }
{
    let part = Part::Written(
        PlanPair::roots(resolved.plan),
        Some(resolved.table.schema().root()),
        datum,
    );
    put_displayed(out, text, resolved, Some(part))
}

/// The same of the line of it: its display and a line feed.
///
/// # Errors
///
/// Those of [`put_resolved`]. A prefix of what the text held and then the line was put.
pub fn put_resolved_line<O: Output>(
    out: &mut O,
    text: &mut Text,
    resolved: &Resolved<'_>,
    datum: &Datum,
) -> Result<(), PutError>
    ensures put { (u : Value) → resolve_root (schema_nodes resolved.now.plan.now.0) (schema_nodes resolved.now.plan.now.1) (value_of datum.now) ≡ Ok u
        → OnOk result (PutsText O.keeps out.old text.old
        (display_text (schema_nodes resolved.now.table.now) (root_of (schema_nodes resolved.now.table.now)) u ++ 10 ∷ []) out.new text.new) }
    ensures front { (u : Value) → resolve_root (schema_nodes resolved.now.plan.now.0) (schema_nodes resolved.now.plan.now.1) (value_of datum.now) ≡ Ok u
        → OnErr result (PutsFrontOf O.keeps out.old out.new (text.old
        ++ (display_text (schema_nodes resolved.now.table.now) (root_of (schema_nodes resolved.now.table.now)) u ++ 10 ∷ []))) }
    ensures works { OnOk result (O.failures out.new ≡ O.failures out.old) }
    ensures fails { IsErrOf result PutError.CannotWrite → (O.failures out.new ≢ O.failures out.old) ⊎ O.stuck out.new }
    ensures memory { IsErrOf result PutError.OutOfMemory → O.failures out.new ≡ O.failures out.old }
{
    put_resolved(&mut *out, &mut *text, resolved, datum)?;
    put_byte(out, text, b'\n')
}
