//! The line of one datum: held while the datum is read, or put in pieces.

ghost use Rattle.std.specs.Prelude.{◌≡◌, ◌≢◌, ◌⊎◌, ◌++◌, ℕ, ◌≤◌, length, Ok, IfOk, IfNone, IfSome, IsErrOf, MatchResult, OnOk, OnErr};
ghost use Rattle.avro_device.specs.PutFront.{PutsFrontOf};
ghost use Rattle.avro_schema.specs.Seen.{value_of};
ghost use Rattle.avro_schema.specs.SeenSchema.{schema_nodes};
ghost use Rattle.avro_schema.specs.Value.{Value};
ghost use Rattle.avro_display.specs.Pieces.{PutsText};
ghost use Rattle.avro_display.specs.declared.put_error.PutError.{PutError};
ghost use Rattle.avro_file.specs.Copied.{into, unchanged};
ghost use Rattle.avro_show.specs.Spans.{StandsIn};
ghost use Rattle.avro_lines.specs.Lines.{line_of};
ghost use Rattle.avro_lines.specs.inside.DataShown.{Displays, HoldsNext, Puts, PutsOr, PutsSome, Stands};
ghost use Rattle.avro_lines.specs.inside.OpenedSeen.{limits_for, reading_for, shown_for};

use crate::holding::{Lines, put_held};
use crate::task::Opened;
use avro_binary::decode;
use avro_device::Output;
use avro_display::{DisplayTable, PutError, Text, put_line};
use avro_file::CopyError;
use avro_resolve::Plan;
use avro_schema::{Datum, Limits};
use avro_show::{
    Resolved, Scratch, append_line, display_read, display_resolved, put_resolved_line,
};
use std::alloc::Global;

/// Makes the display of the datum at the front of bytes, and returns the length of its encoding. None if the display is long, or the bytes
/// have a fault.
fn display_own(
    alloc: Global,
    table: &DisplayTable<'_>,
    bytes: &[u8],
    limits: &Limits,
    scratch: &mut Scratch,
) -> Option<usize>
    ensures { IfSome result (λ len. Displays (schema_nodes table.now) limits.now (unchanged (schema_nodes table.now)) (schema_nodes table.now)
        bytes.now len (StandsIn scratch.new.text scratch.new.shown)) }
{
    match display_read(alloc, table, bytes, limits, scratch) {
        Ok(len) => Some(len),
        Err(_) => None,
    }
}

/// The same of what the datum is for the reader of a plan, which may also take no such datum.
fn display_planned(
    alloc: Global,
    plan: &Plan<'_>,
    table: &DisplayTable<'_>,
    bytes: &[u8],
    limits: &Limits,
    scratch: &mut Scratch,
) -> Option<usize>
    ensures { schema_nodes table.now ≡ schema_nodes plan.now.1 → IfSome result (λ len. Displays (schema_nodes plan.now.0) limits.now
        (into (schema_nodes plan.now.1) (schema_nodes plan.now.0)) (schema_nodes table.now) bytes.now len (StandsIn scratch.new.text scratch.new.shown)) }
{
    match display_resolved(alloc, &plan.by_ref(), table, bytes, limits, scratch) {
        Ok(len) => Some(len),
        Err(error) => {
            drop(error);
            None
        }
    }
}

/// The same by the plan, if there is one.
fn display(scratch: &mut Scratch, opened: &Opened<'_>, bytes: &[u8]) -> Option<usize>
    ensures { IfSome result (λ len. Displays (reading_for opened.now).nodes (limits_for opened.now).datum (reading_for opened.now).resolve (shown_for opened.now)
        bytes.now len (StandsIn scratch.new.text scratch.new.shown)) }
{
    let limits = opened.task.limits.datum();
    let alloc = opened.task.alloc;
    match opened.plan {
        Some(plan) => display_planned(alloc, plan, opened.table, bytes, &limits, scratch),
        None => display_own(alloc, opened.table, bytes, &limits, scratch),
    }
}

/// Holds the line of the datum at the front of bytes, and returns the length of its encoding. None, and nothing is held, if the
/// line is long, the bytes have a fault, or the reader takes no such datum.
pub(crate) fn hold_line(lines: &mut Lines, opened: &Opened<'_>, bytes: &[u8]) -> Option<usize>
    ensures inside { IfSome result (λ len. len ≤ length bytes.now) }
    ensures holds { IfSome result (λ len. HoldsNext (reading_for opened.now) (shown_for opened.now) bytes.now len lines.old.text lines.new.text) }
    ensures kept { IfNone result (lines.new.text ≡ lines.old.text) }
{
    match display(&mut lines.scratch, opened, bytes) {
        Some(len) => match append_line(&lines.scratch, &mut lines.text) {
            Ok(()) => Some(len),
            Err(_) => None,
        },
        None => None,
    }
}

/// Puts the line of a datum in pieces, by the plan if there is one. What the text held goes out before it.
fn put_by<O: Output>(
    output: &mut O,
    text: &mut Text,
    opened: &Opened<'_>,
    datum: &Datum,
) -> Result<(), PutError>
    ensures put { (u : Value) → (reading_for opened.now).resolve (value_of datum.now) ≡ Ok u
        → OnOk result (PutsText O.keeps output.old text.old (line_of (shown_for opened.now) u) output.new text.new) }
    ensures front { (u : Value) → (reading_for opened.now).resolve (value_of datum.now) ≡ Ok u
        → OnErr result (PutsFrontOf O.keeps output.old output.new (text.old ++ line_of (shown_for opened.now) u)) }
    ensures works { OnOk result (O.failures output.new ≡ O.failures output.old) }
    ensures fails { IsErrOf result PutError.CannotWrite → (O.failures output.new ≢ O.failures output.old) ⊎ O.stuck output.new }
    ensures memory { IsErrOf result PutError.OutOfMemory → O.failures output.new ≡ O.failures output.old }
{
    match opened.plan {
        Some(plan) => {
            let plan = plan.by_ref();
            put_resolved_line(output, text, &Resolved::new(&plan, opened.table), datum)
        }
        None => put_line(output, text, opened.table, datum),
    }
}

/// The error of a line that was not put.
fn error_of(error: PutError) -> CopyError
    ensures failed { error ≡ PutError.CannotWrite → result ≡ CopyError.OutputFailed }
    ensures memory { error ≡ PutError.OutOfMemory → result ≡ CopyError.OutOfMemory }
{
    match error {
        PutError::CannotWrite => CopyError::OutputFailed,
        PutError::OutOfMemory => CopyError::OutOfMemory,
    }
}

/// Puts what is held, and then the line of a datum in pieces, of which the last may be held.
///
/// # Errors
///
/// `OutputFailed`, `OutOfMemory`: a prefix of both was put, and nothing is held.
fn put_datum<O: Output>(
    output: &mut O,
    lines: &mut Lines,
    opened: &Opened<'_>,
    datum: &Datum,
) -> Result<(), CopyError>
    ensures { (u : Value) → (reading_for opened.now).resolve (value_of datum.now) ≡ Ok u
        → PutsOr O.keeps O.failures O.stuck output.old lines.old.text (line_of (shown_for opened.now) u) output.new lines.new.text result }
{
    put_held(&mut *output, &mut *lines)?;
    match put_by(output, &mut lines.text, opened, datum) {
        Ok(()) => Ok(()),
        Err(error) => {
            lines.text.clear();
            Err(error_of(error))
        }
    }
}

/// Puts what is held, and then the line of the datum at the front of bytes in pieces, of which the last may be held, and returns
/// the length of its encoding. The bytes were walked over.
///
/// # Errors
///
/// `OutputFailed`, `OutOfMemory`: a prefix of both was put or is held.
pub(crate) fn put_read<O: Output>(
    output: &mut O,
    lines: &mut Lines,
    opened: &Opened<'_>,
    bytes: &[u8],
) -> Result<usize, CopyError>
    ensures inside { IfOk result (λ len. len ≤ length bytes.now) }
    ensures shown { (u : Value) (size : ℕ) → Stands (reading_for opened.now) bytes.now size u → MatchResult result
        (λ len. (len ≡ size) × Puts O.keeps O.failures output.old lines.old.text (line_of (shown_for opened.now) u) output.new lines.new.text)
        (PutsSome O.keeps O.failures O.stuck output.old lines.old.text (line_of (shown_for opened.now) u) output.new lines.new.text) }
{
    let schema = opened.header.schema();
    let limits = opened.task.limits.datum();
    match decode(opened.task.alloc, schema, schema.root(), bytes, &limits) {
        Ok((datum, len)) => {
            put_datum(output, lines, opened, &datum)?;
            Ok(len)
        }
        // After the walk only memory can run out.
        Err(_) => Err(CopyError::OutOfMemory),
    }
}
