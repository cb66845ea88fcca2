//! The lines of all faults of two schemas, by names.

ghost use Rattle.std.specs.Prelude.{◌≡◌, ◌≢◌, ◌<◌, ◌⊎◌, ◌++◌, ℕ, List, false, length, string_bytes, IfOk, OnOk, OnErr, IsErrOf};
ghost use Rattle.avro_schema.specs.SeenSchema.{schema_nodes};
ghost use Rattle.avro_device.specs.PutFront.{PutsFrontOf};
ghost use Rattle.avro_explain.specs.Places.{AreFaults, ArePlaced};
ghost use Rattle.avro_answer.specs.FaultLine.{AreFaultLines, IsLineAdded, no_line};
ghost use Rattle.avro_answer.specs.FaultTree.{AreFaultTrees};
ghost use Rattle.avro_answer.specs.inside.FaultsAdded.{HavePlaces, AreFaultsAdded, AreTold, IsArrayBegun, IsBegun, IsFaultAdded, IsFrontAdded, IsTreeAdded, faults_end};
ghost use Rattle.avro_answer.specs.declared.form.Form.{Form};
ghost use Rattle.avro_display.specs.declared.put_error.PutError.{PutError};

use crate::form::Form;
use crate::json_object::{JsonObject, append_comma};
use crate::named_fault::name_fault;
use crate::putting::put_text;
use avro_device::{Output, WriteOutput};
use avro_display::PutError;
use avro_explain::{Explanation, Finding, Place};
use avro_schema::{Memory, Schema};
use std::alloc::{AllocError, Global};

/// A longer text is put in several pieces.
const PIECE: usize = 1_048_576;

/// Puts a no and all faults that [`explain`](avro_explain::explain) found, of which there are some, into an output: their number, and a line
/// for each, in order, with the paths to the nodes of its place; or one line of JSON with an object for each.
///
/// # Errors
///
/// The output failed, or took none of the bytes; memory ran out. A prefix of the text was put then.
pub fn put_faults<O: Output>(
    out: &mut O,
    alloc: Global,
    writer: &Schema,
    reader: &Schema,
    found: &Explanation,
    form: Form,
) -> Result<(), PutError>
    ensures put { form ≡ Form.Text → AreFaults (schema_nodes writer.now) (schema_nodes reader.now) found.now.places.items found.now.faults.items → OnOk result ((text : List ℕ)
        × AreFaultLines (schema_nodes writer.now) (schema_nodes reader.now) found.now.places.items found.now.faults.items text × O.keeps out.old text out.new) }
    ensures json { form ≡ Form.Json → AreFaults (schema_nodes writer.now) (schema_nodes reader.now) found.now.places.items found.now.faults.items → OnOk result ((line : List ℕ)
        × AreFaultTrees (schema_nodes writer.now) (schema_nodes reader.now) found.now.places.items found.now.faults.items line × O.keeps out.old line out.new) }
    ensures front { form ≡ Form.Text → ArePlaced (schema_nodes writer.now) (schema_nodes reader.now) found.now.places.items
        → AreFaults (schema_nodes writer.now) (schema_nodes reader.now) found.now.places.items found.now.faults.items → OnErr result ((text : List ℕ)
        × AreFaultLines (schema_nodes writer.now) (schema_nodes reader.now) found.now.places.items found.now.faults.items text × PutsFrontOf O.keeps out.old out.new text) }
    ensures front_json { form ≡ Form.Json → ArePlaced (schema_nodes writer.now) (schema_nodes reader.now) found.now.places.items
        → AreFaults (schema_nodes writer.now) (schema_nodes reader.now) found.now.places.items found.now.faults.items → OnErr result ((line : List ℕ)
        × AreFaultTrees (schema_nodes writer.now) (schema_nodes reader.now) found.now.places.items found.now.faults.items line × PutsFrontOf O.keeps out.old out.new line) }
    ensures works { OnOk result (O.failures out.new ≡ O.failures out.old) }
    ensures fails { IsErrOf result PutError.CannotWrite → (O.failures out.new ≢ O.failures out.old) ⊎ O.stuck out.new }
    ensures memory { IsErrOf result PutError.OutOfMemory → O.failures out.new ≡ O.failures out.old }
{
    let mut text = begin_faults(alloc, found.faults.len(), form)?;
    put_lines(&mut *out, &mut text, writer, reader, found, form)?;
    text.push_str(end_of_faults(form))?;
    put_text(out, text.as_bytes())
}

/// The text that `put_faults` puts.
pub(crate) fn faults_text(
    alloc: Global,
    writer: &Schema,
    reader: &Schema,
    found: &Explanation,
    form: Form,
) -> Result<Vec<u8>, Memory>
    ensures { AreFaults (schema_nodes writer.now) (schema_nodes reader.now) found.now.places.items found.now.faults.items
        → IfOk result (λ text. AreTold form (schema_nodes writer.now) (schema_nodes reader.now) found.now.places.items found.now.faults.items text.items) }
{
    let mut out = WriteOutput::new(Vec::new(alloc));
    let put = put_faults(&mut out, alloc, writer, reader, found, form);
    match put {
        Ok(()) => Ok(out.into_inner()),
        Err(_) => Err(Memory),
    }
}

/// Puts all faults by name, except for what stays in the text. Where that fails, a prefix of some was put.
fn put_lines<O: Output>(
    out: &mut O,
    text: &mut String,
    writer: &Schema,
    reader: &Schema,
    found: &Explanation,
    form: Form,
) -> Result<(), PutError>
    ensures put { HavePlaces found.now.places.items found.now.faults.items → OnOk result ((put : List ℕ) × O.keeps out.old put out.new
        × AreFaultsAdded form (schema_nodes writer.now) (schema_nodes reader.now) found.now.places.items false found.now.faults.items (string_bytes text.old)
        (put ++ string_bytes text.new)) }
    ensures front { HavePlaces found.now.places.items found.now.faults.items → OnErr result (IsFrontAdded O.keeps out.old out.new form (schema_nodes writer.now)
        (schema_nodes reader.now) found.now.places.items found.now.faults.items (string_bytes text.old)) }
    ensures works { OnOk result (O.failures out.new ≡ O.failures out.old) }
    ensures fails { IsErrOf result PutError.CannotWrite → (O.failures out.new ≢ O.failures out.old) ⊎ O.stuck out.new }
    ensures memory { IsErrOf result PutError.OutOfMemory → O.failures out.new ≡ O.failures out.old }
{
    let mut later = false;
    for fault in &found.faults {
        append_fault(&mut *text, writer, reader, found, *fault, form, later)?;
        later = true;
        put_piece(&mut *out, &mut *text)?;
    }
    Ok(())
}

/// Puts and clears a text if it is long. Where that fails, a prefix of it was put.
fn put_piece<O: Output>(out: &mut O, text: &mut String) -> Result<(), PutError>
    ensures put { OnOk result ((put : List ℕ) × O.keeps out.old put out.new × (string_bytes text.old ≡ put ++ string_bytes text.new)) }
    ensures front { OnErr result (PutsFrontOf O.keeps out.old out.new (string_bytes text.old)) }
    ensures works { OnOk result (O.failures out.new ≡ O.failures out.old) }
    ensures fails { IsErrOf result PutError.CannotWrite → (O.failures out.new ≢ O.failures out.old) ⊎ O.stuck out.new }
    ensures memory { IsErrOf result PutError.OutOfMemory → O.failures out.new ≡ O.failures out.old }
{
    if text.len() <= PIECE {
        return Ok(());
    }
    put_text(out, text.as_bytes())?;
    text.clear();
    Ok(())
}

/// The start of the text, before the faults.
fn begin_faults(alloc: Global, count: usize, form: Form) -> Result<String, AllocError>
    ensures { IfOk result (λ begun. IsBegun form count (string_bytes begun)) }
{
    match form {
        Form::Text => begin_lines(alloc, count),
        Form::Json => begin_array(alloc),
    }
}

/// The object of a no, up to the first of its faults.
fn begin_array(alloc: Global) -> Result<String, AllocError>
    ensures { IfOk result (λ begun. IsArrayBegun (string_bytes begun)) }
{
    let mut answer = JsonObject::new(alloc)?;
    answer.put_text("verdict", "no")?;
    answer.put_key("faults")?;
    let mut text = answer.front();
    text.push_str("[")?;
    Ok(text)
}

/// The line before those of the faults.
fn begin_lines(alloc: Global, count: usize) -> Result<String, AllocError>
    ensures { IfOk result (λ begun. string_bytes begun ≡ no_line count) }
{
    let mut line = String::from_str(alloc, "no ")?;
    let digits = count.to_string(alloc)?;
    line.push_str(digits.as_str())?;
    line.push_str("\n")?;
    Ok(line)
}

/// Appends a fault by names.
fn append_fault(
    text: &mut String,
    writer: &Schema,
    reader: &Schema,
    found: &Explanation,
    fault: Finding,
    form: Form,
    later: bool,
) -> Result<(), Memory>
    ensures { fault.place < length found.now.places.items → OnOk result (IsFaultAdded form (schema_nodes writer.now) (schema_nodes reader.now)
        found.now.places.items later fault (string_bytes text.old) (string_bytes text.new)) }
{
    let alloc = *text.allocator();
    match form {
        Form::Text => append_line(text, alloc, writer, reader, &found.places, fault),
        Form::Json => append_json(text, alloc, writer, reader, &found.places, fault, later),
    }
}

/// Appends the line of a fault.
fn append_line(
    text: &mut String,
    alloc: Global,
    writer: &Schema,
    reader: &Schema,
    places: &[Place],
    fault: Finding,
) -> Result<(), Memory>
    ensures { fault.place < length places.now → OnOk result (IsLineAdded (schema_nodes writer.now) (schema_nodes reader.now) places.now fault
        (string_bytes text.old) (string_bytes text.new)) }
{
    match name_fault(alloc, writer, reader, places, fault)? {
        None => Ok(()),
        Some(named) => {
            named.put_line(text)?;
            Ok(())
        }
    }
}

/// Appends the object of a fault, after a comma if one is before it.
fn append_json(
    text: &mut String,
    alloc: Global,
    writer: &Schema,
    reader: &Schema,
    places: &[Place],
    fault: Finding,
    later: bool,
) -> Result<(), Memory>
    ensures { fault.place < length places.now → OnOk result (IsTreeAdded (schema_nodes writer.now) (schema_nodes reader.now) places.now later fault
        (string_bytes text.old) (string_bytes text.new)) }
{
    match name_fault(alloc, writer, reader, places, fault)? {
        None => Ok(()),
        Some(named) => {
            append_comma(text, later)?;
            let json = named.json(alloc)?;
            text.push_str(&json)?;
            Ok(())
        }
    }
}

/// The end of the text, after the faults.
fn end_of_faults(form: Form) -> &'static str
    ensures { result.now ≡ faults_end form }
{
    match form {
        Form::Text => "",
        Form::Json => "]}\n",
    }
}
