ghost use Rattle.std.specs.Prelude.{◌≡◌, ◌<◌, ◌++◌, length, codes, IfOk, IsErrOf};
ghost use Rattle.std.specs.Result.{IfErr};
ghost use Rattle.avro_schema.specs.SeenSchema.{schema_nodes};
ghost use Rattle.avro_schema_json.specs.Declaration.{max_text};
ghost use Rattle.avro_schema_json.specs.declared.error.SchemaError.{SchemaError};
ghost use Rattle.avro_certificate.specs.CertificateText.{decimal};
ghost use Rattle.avro_answer.specs.SchemaAnswer.{NodesAnswer, SchemaAnswer};
ghost use Rattle.avro_answer.specs.RefusalText.{RefusesOne};
ghost use Rattle.avro_answer.specs.declared.refusal.Refusal.TheVariants.{Writer};

use crate::reading::read_writer;
use crate::refusal::Refusal;
use avro_canonical::{canonical, fingerprint_text};
use avro_certificate::append_decimal;
use avro_schema::{Memory, Schema};
use std::alloc::Global;

/// What is shown of a schema.
#[derive(Clone, Copy, Debug, PartialEq, Eq)]
pub enum Shown {
    /// Its number of nodes.
    Count,
    /// Its canonical form.
    Canonical,
    /// The digits of its fingerprint.
    Fingerprint,
}

/// What is shown of a schema, and a line end: its number of nodes, its canonical form, or its fingerprint.
///
/// # Errors
///
/// Memory ran out.
pub fn show_schema(alloc: Global, schema: &Schema, shown: Shown) -> Result<Vec<u8>, Memory>
    ensures { IfOk result (λ text. NodesAnswer shown (schema_nodes schema.now) text.items) }
{
    match shown {
        Shown::Count => count_line(alloc, schema),
        Shown::Canonical => {
            let form = canonical(alloc, schema)?;
            line_of(alloc, form.as_bytes())
        }
        Shown::Fingerprint => {
            let digits = fingerprint_text(alloc, schema)?;
            line_of(alloc, digits.as_bytes())
        }
    }
}

/// The line of the number of nodes.
fn count_line(alloc: Global, schema: &Schema) -> Result<Vec<u8>, Memory>
    ensures { IfOk result (λ text. text.items ≡ codes "ok " ++ decimal (length (schema_nodes schema.now)) ++ codes "\n") }
{
    let mut line = Vec::new(alloc);
    line.extend_from_slice(b"ok ")?;
    append_decimal(&mut line, schema.len() as u64)?;
    line.push(b'\n')?;
    Ok(line)
}

/// Bytes with the end of a line.
fn line_of(alloc: Global, bytes: &[u8]) -> Result<Vec<u8>, Memory>
    ensures { IfOk result (λ line. line.items ≡ bytes.now ++ codes "\n") }
{
    let mut line = Vec::new(alloc);
    line.extend_from_slice(bytes)?;
    line.push(b'\n')?;
    Ok(line)
}

/// What [`show_schema`] shows of the schema of a text.
///
/// # Errors
///
/// The text is refused; memory ran out.
pub fn schema_text(alloc: Global, text: &[u8], shown: Shown) -> Result<Vec<u8>, Refusal>
    ensures answered { IfOk result (λ answer. SchemaAnswer shown text.now answer.items) }
    ensures too_long { max_text < length text.now → IsErrOf result (Writer SchemaError.LimitExceeded) }
    ensures refused { IfErr result (RefusesOne text.now) }
{
    let schema = read_writer(alloc, text)?;
    Ok(show_schema(alloc, &schema, shown)?)
}
