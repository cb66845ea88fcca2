ghost use Rattle.std.specs.Prelude.{◌≡◌, ℕ, List, IfOk, OnOk};
ghost use Rattle.avro_schema.specs.SeenSchema.{schema_nodes};
ghost use Rattle.avro_answer.specs.SchemaAnswer.{NodesAnswer};
ghost use Rattle.avro_tool.specs.FailsOnlyFor.{FailsOnlyFor};
ghost use Rattle.avro_tool.specs.FailureText.{IsPutFailure};
ghost use Rattle.avro_tool.specs.FoundStatus.{finding_status};

use crate::Finding;
use crate::failure::Failure;
use crate::files::schema::{TEXT_READ, bytes_of};
use crate::files::texts::Texts;
use crate::printing::print_bytes;
use avro_answer::{Shown, schema_refusal};
use avro_device::Output;
use avro_schema::Schema;
use avro_schema_json::{SchemaError, read_schema};
use avro_why::{Reason, Reasons, find_reasons};
use std::alloc::{AllocError, Global};
use std::io::Write;

/// The most places of faults that are reported.
const MAX_REASONS: usize = 100;

/// Reads the schema of a file, and prints its number of nodes, its canonical form or its fingerprint. If it is refused,
/// and the words ask for that, the places of its faults are reported.
pub(crate) fn show_schema<'a, T: Texts, O: Output, E: Write>(
    texts: &T,
    file: &'a str,
    shown: Shown,
    is_why: bool,
    out: &mut O,
    err: &mut E,
) -> Result<Finding, Failure<'a>> {
    let text = bytes_of(texts, file, TEXT_READ)?;
    match read_schema(texts.alloc(), &text) {
        Ok(schema) => tell_schema(texts.alloc(), &schema, shown, out),
        Err(error) if is_why && error != SchemaError::OutOfMemory => {
            tell_reasons(texts.alloc(), file, &text, error, err)
        }
        Err(error) => Err(Failure::of_schema(file, error)),
    }
}

/// Prints what is shown of a schema.
fn tell_schema<'a, O: Output>(
    alloc: Global,
    schema: &Schema,
    shown: Shown,
    out: &mut O,
) -> Result<Finding, Failure<'a>>
    ensures answered { OnOk result ((text : List ℕ) × NodesAnswer shown (schema_nodes schema.now) text × O.keeps out.old text out.new) }
    ensures good { IfOk result (λ f. finding_status f ≡ 0) }
    ensures fails { FailsOnlyFor IsPutFailure O.failures O.stuck out.old out.new result }
{
    let line = avro_answer::show_schema(alloc, schema, shown)?;
    print_bytes(out, &line)?;
    Ok(Finding::Good)
}

/// Reports a refused text and the places of its faults, in one write. If standard error fails too, the status is all that
/// is reported.
fn tell_reasons<'a, E: Write>(
    alloc: Global,
    file: &'a str,
    text: &[u8],
    error: SchemaError,
    err: &mut E,
) -> Result<Finding, Failure<'a>> {
    let reasons = find_reasons(alloc, text, error, MAX_REASONS)?;
    let lines = lines_of(alloc, file, error, &reasons)?;
    let _ = err.write_all(&lines);
    Ok(Finding::Failed(Failure::of_schema(file, error).status()))
}

/// The line of a refused text, and those of the places of its faults.
fn lines_of(
    alloc: Global,
    file: &str,
    error: SchemaError,
    reasons: &Reasons,
) -> Result<Vec<u8>, AllocError> {
    let mut lines = schema_refusal(alloc, file, error)?;
    for reason in &reasons.first {
        put_reason(alloc, &mut lines, file, reason)?;
    }
    put_others(alloc, &mut lines, file, reasons.others)?;
    Ok(lines)
}

/// Appends the line of a place; the whole text has no pointer.
fn put_reason(
    alloc: Global,
    lines: &mut Vec<u8>,
    file: &str,
    reason: &Reason,
) -> Result<(), AllocError> {
    let Reason {
        line,
        column,
        pointer,
        words,
    } = reason;
    let text = match pointer {
        Some(pointer) if !pointer.is_empty() => format!(in alloc;
            "{file}:{line}:{column}: {pointer}: {words}\n"
        )?,
        _ => format!(in alloc; "{file}:{line}:{column}: {words}\n")?,
    };
    lines.extend_from_slice(text.as_bytes())
}

/// Appends the line of how many places there are after the reported ones.
fn put_others(
    alloc: Global,
    lines: &mut Vec<u8>,
    file: &str,
    others: usize,
) -> Result<(), AllocError> {
    if others == 0 {
        return Ok(());
    }
    let text = format!(in alloc; "{file}: and {others} more\n")?;
    lines.extend_from_slice(text.as_bytes())
}
