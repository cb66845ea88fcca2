//! The texts of verdicts.

ghost use Rattle.std.specs.Prelude.{◌≡◌, ◌≢◌, ◌≤◌, ◌-◌, ◌^◌, ◌⊎◌, ◌++◌, List, codes, IfOk, OnOk, OnErr, IsErrOf};
ghost use Rattle.avro_device.specs.PutFront.{PutsFrontOf};
ghost use Rattle.avro_schema.specs.Node.{Node};
ghost use Rattle.avro_schema.specs.Seen.{value_of};
ghost use Rattle.avro_schema.specs.SeenSchema.{schema_nodes};
ghost use Rattle.avro_schema.specs.Value.{size as value_size};
ghost use Rattle.avro_compare.specs.Seen.{fault_of};
ghost use Rattle.avro_judge.specs.Answered.{IfRefuted};
ghost use Rattle.avro_answer.specs.Texts.{cause_text};
ghost use Rattle.avro_display.specs.Pieces.{PutsText};
ghost use Rattle.avro_display.specs.declared.put_error.PutError.{PutError};
ghost use Rattle.avro_answer.specs.JsonAnswer.{NamedPath, json_line, judged_tree, verdict_status};
ghost use Rattle.avro_answer.specs.inside.VerdictTexts.{no_front, verdict_front, verdict_datum, verdict_text, verdict_words};
ghost use Rattle.avro_answer.specs.declared.form.Form.{Form};

use crate::faults::append_fault;
use crate::form::Form;
use crate::json_answers::judged_front;
use crate::putting::put_text;
use avro_certificate::append_decimal;
use avro_device::Output;
use avro_display::{DisplayTable, PutError, put_display};
use avro_judge::{Cause, Refutation, Verdict};
use avro_schema::{Memory, Schema, size};
use std::alloc::{AllocError, Global};

/// The word of a cause.
pub(crate) fn cause_word(cause: Cause) -> &'static str
    ensures { result.now ≡ cause_text cause }
{
    match cause {
        Cause::Pairs => "Pairs",
        Cause::Size => "Size",
        Cause::Depth => "Depth",
    }
}

/// The exit status of a verdict.
pub(crate) fn status_of(verdict: &Verdict<'_>) -> u8
    ensures { result ≡ verdict_status verdict.now }
{
    match verdict {
        Verdict::Approved(_) => 0,
        Verdict::Refuted(_) => 1,
        Verdict::Undecided(_) => 2,
    }
}

/// Puts the answer for a verdict. Where that fails, a prefix of it was put.
pub(crate) fn put_verdict<O: Output>(
    out: &mut O,
    alloc: Global,
    writer: &Schema,
    reader: &Schema,
    verdict: &Verdict<'_>,
    form: Form,
) -> Result<(), PutError>
    requires small { IfRefuted verdict.now (λ r. value_size (value_of r.datum) ≤ 2 ^ 64 - 1) }
    ensures put { form ≡ Form.Text → OnOk result (O.keeps out.old (verdict_text (schema_nodes writer.now) verdict.now) out.new) }
    ensures front { form ≡ Form.Text → OnErr result (PutsFrontOf O.keeps out.old out.new (verdict_text (schema_nodes writer.now) verdict.now)) }
    ensures front_json { form ≡ Form.Json → OnErr result ((named : NamedPath) × PutsFrontOf O.keeps out.old out.new (json_line (judged_tree (schema_nodes writer.now) named verdict.now))) }
    ensures put_json { form ≡ Form.Json → OnOk result ((named : NamedPath) × O.keeps out.old (json_line (judged_tree (schema_nodes writer.now) named verdict.now)) out.new) }
    ensures works { OnOk result (O.failures out.new ≡ O.failures out.old) }
    ensures fails { IsErrOf result PutError.CannotWrite → (O.failures out.new ≢ O.failures out.old) ⊎ O.stuck out.new }
    ensures memory { IsErrOf result PutError.OutOfMemory → O.failures out.new ≡ O.failures out.old }
{
    let mut text = front_of(alloc, writer, reader, verdict, form)?;
    put_datum(&mut *out, &mut text, alloc, writer, verdict)?;
    text.extend_from_slice(end_of(form))?;
    put_text(out, &text)
}

/// The answer for a verdict, up to the datum of a no.
fn front_of(
    alloc: Global,
    writer: &Schema,
    reader: &Schema,
    verdict: &Verdict<'_>,
    form: Form,
) -> Result<Vec<u8>, Memory>
    requires small { IfRefuted verdict.now (λ r. value_size (value_of r.datum) ≤ 2 ^ 64 - 1) }
    ensures text { IfOk result (λ text. form ≡ Form.Text → text.items ≡ verdict_front verdict.now) }
    ensures json { IfOk result (λ text. form ≡ Form.Json → (named : NamedPath) × ((nodes : List Node) → (text.items ++ verdict_datum nodes verdict.now) ++ codes "}\n" ≡ json_line (judged_tree nodes named verdict.now))) }
{
    match form {
        Form::Json => Ok(judged_front(alloc, writer, reader, verdict)?.into_bytes()),
        Form::Text => front_text_of(alloc, verdict),
    }
}

/// The same as text.
fn front_text_of(alloc: Global, verdict: &Verdict<'_>) -> Result<Vec<u8>, Memory>
    requires small { IfRefuted verdict.now (λ r. value_size (value_of r.datum) ≤ 2 ^ 64 - 1) }
    ensures { IfOk result (λ text. text.items ≡ verdict_front verdict.now) }
{
    match verdict {
        Verdict::Approved(_) => Ok(Vec::from_slice(alloc, b"yes")?),
        Verdict::Refuted(found) => front_of_no(alloc, found),
        Verdict::Undecided(cause) => front_of_undecided(alloc, *cause),
    }
}

/// The text of a no, up to the datum.
fn front_of_no(alloc: Global, found: &Refutation) -> Result<Vec<u8>, Memory>
    requires small { value_size (value_of found.now.datum) ≤ 2 ^ 64 - 1 }
    ensures { IfOk result (λ text. text.items ≡ no_front (value_of found.now.datum) (fault_of found.now.fault)) }
{
    let mut text = Vec::new(alloc);
    text.extend_from_slice(b"no\nfault ")?;
    append_fault(&mut text, &found.fault)?;
    text.extend_from_slice(b"\nnodes ")?;
    append_decimal(&mut text, size(&found.datum))?;
    text.extend_from_slice(b"\ndatum ")?;
    Ok(text)
}

/// The text of an undecided, up to its end.
fn front_of_undecided(alloc: Global, cause: Cause) -> Result<Vec<u8>, Memory>
    ensures { IfOk result (λ text. text.items ≡ codes "undecided " ++ cause_text cause) }
{
    let mut text = Vec::new(alloc);
    text.extend_from_slice(b"undecided ")?;
    text.extend_from_slice(cause_word(cause).as_bytes())?;
    Ok(text)
}

/// Puts the datum of a no behind a text, except for what stays in the text.
fn put_datum<O: Output>(
    out: &mut O,
    text: &mut Vec<u8>,
    alloc: Global,
    writer: &Schema,
    verdict: &Verdict<'_>,
) -> Result<(), PutError>
    ensures put { OnOk result (PutsText O.keeps out.old text.old.items (verdict_datum (schema_nodes writer.now) verdict.now) out.new text.new.items) }
    ensures front { OnErr result (PutsFrontOf O.keeps out.old out.new (text.old.items ++ verdict_datum (schema_nodes writer.now) verdict.now)) }
    ensures works { OnOk result (O.failures out.new ≡ O.failures out.old) }
    ensures fails { IsErrOf result PutError.CannotWrite → (O.failures out.new ≢ O.failures out.old) ⊎ O.stuck out.new }
    ensures memory { IsErrOf result PutError.OutOfMemory → O.failures out.new ≡ O.failures out.old }
{
    let Verdict::Refuted(found) = verdict else {
        return Ok(());
    };
    let table = DisplayTable::new(alloc, writer)?;
    put_display(out, text, alloc, &table, writer.root(), &found.datum)
}

/// The end of the answer, after the datum.
fn end_of(form: Form) -> &'static [u8]
    ensures text { form ≡ Form.Text → result.now ≡ codes "\n" }
    ensures json { form ≡ Form.Json → result.now ≡ codes "}\n" }
{
    match form {
        Form::Text => b"\n",
        Form::Json => b"}\n",
    }
}

/// Appends the words of a verdict.
pub(crate) fn append_verdict(text: &mut Vec<u8>, verdict: &Verdict<'_>) -> Result<(), AllocError>
    ensures { OnOk result (text.new.items ≡ text.old.items ++ verdict_words verdict.now) }
{
    match verdict {
        Verdict::Approved(_) => text.extend_from_slice(b" yes"),
        Verdict::Refuted(_) => text.extend_from_slice(b" no"),
        Verdict::Undecided(cause) => {
            text.extend_from_slice(b" undecided ")?;
            text.extend_from_slice(cause_word(*cause).as_bytes())
        }
    }
}
