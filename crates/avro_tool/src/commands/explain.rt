//! All faults of two schemas, by name.

ghost use Rattle.std.specs.Prelude.{◌≡◌, ℕ, List, IfOk};
ghost use Rattle.avro_schema.specs.SeenSchema.{schema_nodes};
ghost use Rattle.avro_answer.specs.ExplainAnswer.{FaultsAnswer, FaultsJson, FaultsStatus};
ghost use Rattle.avro_answer.specs.declared.form.Form.{Form};
ghost use Rattle.avro_tool.specs.FailsOnlyFor.{FailsOnlyFor};
ghost use Rattle.avro_tool.specs.FailureText.{IsPutFailure};
ghost use Rattle.avro_tool.specs.FilesAnswered.{ExplainsFiles};
ghost use Rattle.avro_tool.specs.FoundStatus.{finding_status};

use crate::Finding;
use crate::failure::Failure;
use crate::files::schema::read_pair;
use crate::files::texts::Texts;
use crate::printing::print;
use crate::request::Explaining;
use avro_answer::{no_fault, over_pairs, put_faults};
use avro_device::Output;
use avro_explain::{ExplainError, explain};
use avro_schema::Schema;
use std::alloc::Global;

/// Finds all faults of the schemas of two files, and prints them.
pub(crate) fn explain_files<'a, T: Texts, O: Output>(
    texts: &T,
    asked: &Explaining<'a>,
    out: &mut O,
) -> Result<Finding, Failure<'a>>
    ensures { ExplainsFiles (T.known texts.now) (λ text. O.keeps out.old text out.new) asked.now result }
{
    let (writer, reader) = read_pair(texts, asked.writer, asked.reader)?;
    explain_pair(texts.alloc(), asked, writer.schema(), &reader, out)
}

/// Finds all faults of two schemas, and prints them.
fn explain_pair<'a, O: Output>(
    alloc: Global,
    asked: &Explaining<'a>,
    writer: &Schema,
    reader: &Schema,
    out: &mut O,
) -> Result<Finding, Failure<'a>>
    ensures answered { IfOk result (λ f. asked.now.form ≡ Form.Text → (text : List ℕ)
        × FaultsAnswer (schema_nodes writer.now) (schema_nodes reader.now) asked.now.max_pairs text (finding_status f) × O.keeps out.old text out.new) }
    ensures json { IfOk result (λ f. asked.now.form ≡ Form.Json → (line : List ℕ)
        × FaultsJson (schema_nodes writer.now) (schema_nodes reader.now) asked.now.max_pairs line (finding_status f) × O.keeps out.old line out.new) }
    ensures status { IfOk result (λ f. FaultsStatus (schema_nodes writer.now) (schema_nodes reader.now) asked.now.max_pairs (finding_status f)) }
    ensures fails { FailsOnlyFor IsPutFailure O.failures O.stuck out.old out.new result }
{
    match explain(alloc, writer, reader, asked.max_pairs as usize) {
        Ok(found) if found.faults.is_empty() => {
            print(out, no_fault(asked.form))?;
            Ok(Finding::Yes)
        }
        Ok(found) => {
            put_faults(out, alloc, writer, reader, &found, asked.form)?;
            Ok(Finding::No)
        }
        Err(ExplainError::TooManyPairs) => {
            print(out, over_pairs(asked.form))?;
            Ok(Finding::Undecided)
        }
        Err(ExplainError::OutOfMemory) => Err(Failure::OutOfMemory),
    }
}
