//! All faults of two schemas, by names.

ghost use Rattle.std.specs.Prelude.{◌≡◌, ◌<◌, length, codes, IfOk, IsErrOf};
ghost use Rattle.std.specs.Result.{IfErr};
ghost use Rattle.avro_schema.specs.SeenSchema.{schema_nodes};
ghost use Rattle.avro_schema_json.specs.Declaration.{max_text};
ghost use Rattle.avro_schema_json.specs.declared.error.SchemaError.{SchemaError};
ghost use Rattle.avro_answer.specs.ExplainAnswer.{FaultsAnswer, FaultsJson, FaultsStatus, ExplainAnswer, ExplainJson, ExplainStatus};
ghost use Rattle.avro_answer.specs.JsonAnswer.{json_line, no_fault_tree, over_pairs_tree};
ghost use Rattle.avro_answer.specs.RefusalText.{RefusesPair, HaveSchemas};
ghost use Rattle.avro_answer.specs.declared.form.Form.{Form};
ghost use Rattle.avro_answer.specs.declared.refusal.Refusal.TheVariants.{Writer, OutOfMemory};

use crate::answer::Answer;
use crate::fault_lines::faults_text;
use crate::form::Form;
use crate::reading::{read_reader, read_writer};
use crate::refusal::Refusal;
use avro_explain::{ExplainError, explain};
use avro_schema::{Memory, Schema};
use std::alloc::Global;

/// Finds all faults of the schemas of two texts: `undecided Pairs` if and only if the roots lead to more than `max_pairs` pairs of nodes,
/// otherwise `yes` if and only if no datum fails, and a no if not every datum resolves, with the number of faults and a line for each, in
/// order; as JSON the same in one line, with an object for each fault.
///
/// # Errors
///
/// The writer's text is refused, or else the reader's; memory ran out.
pub fn explain_text(
    alloc: Global,
    writer: &[u8],
    reader: &[u8],
    max_pairs: usize,
    form: Form,
) -> Result<Answer, Refusal>
    ensures answered { IfOk result (λ a. form ≡ Form.Text → ExplainAnswer writer.now reader.now max_pairs a.text.items a.status) }
    ensures json { IfOk result (λ a. form ≡ Form.Json → ExplainJson writer.now reader.now max_pairs a.text.items a.status) }
    ensures status { IfOk result (λ a. ExplainStatus writer.now reader.now max_pairs a.status) }
    ensures too_long { max_text < length writer.now → IsErrOf result (Writer SchemaError.LimitExceeded) }
    ensures refused { IfErr result (RefusesPair writer.now reader.now) }
    ensures complete { HaveSchemas writer.now reader.now → IfErr result (λ e. e ≡ OutOfMemory) }
{
    let writer = read_writer(alloc, writer)?;
    let reader = read_reader(alloc, reader)?;
    Ok(explain_schemas(alloc, &writer, &reader, max_pairs, form)?)
}

/// Finds all faults of two schemas.
fn explain_schemas(
    alloc: Global,
    writer: &Schema,
    reader: &Schema,
    max_pairs: usize,
    form: Form,
) -> Result<Answer, Memory>
    ensures answered { IfOk result (λ a. form ≡ Form.Text → FaultsAnswer (schema_nodes writer.now) (schema_nodes reader.now) max_pairs a.text.items a.status) }
    ensures json { IfOk result (λ a. form ≡ Form.Json → FaultsJson (schema_nodes writer.now) (schema_nodes reader.now) max_pairs a.text.items a.status) }
    ensures status { IfOk result (λ a. FaultsStatus (schema_nodes writer.now) (schema_nodes reader.now) max_pairs a.status) }
{
    match explain(alloc, writer, reader, max_pairs) {
        Ok(found) if found.faults.is_empty() => Ok(Answer {
            text: Vec::from_slice(alloc, no_fault(form).as_bytes())?,
            status: 0,
        }),
        Ok(found) => Ok(Answer {
            text: faults_text(alloc, writer, reader, &found, form)?,
            status: 1,
        }),
        Err(ExplainError::TooManyPairs) => Ok(Answer {
            text: Vec::from_slice(alloc, over_pairs(form).as_bytes())?,
            status: 2,
        }),
        Err(ExplainError::OutOfMemory) => Err(Memory),
    }
}

/// The answer for two schemas without a fault.
pub fn no_fault(form: Form) -> &'static str
    ensures text { form ≡ Form.Text → result.now ≡ codes "yes\n" }
    ensures json { form ≡ Form.Json → result.now ≡ json_line no_fault_tree }
{
    match form {
        Form::Text => "yes\n",
        Form::Json => "{\"verdict\":\"yes\",\"faults\":[]}\n",
    }
}

/// The answer for two schemas whose roots lead to more pairs than the limit.
pub fn over_pairs(form: Form) -> &'static str
    ensures text { form ≡ Form.Text → result.now ≡ codes "undecided Pairs\n" }
    ensures json { form ≡ Form.Json → result.now ≡ json_line over_pairs_tree }
{
    match form {
        Form::Text => "undecided Pairs\n",
        Form::Json => "{\"verdict\":\"undecided\",\"cause\":\"Pairs\"}\n",
    }
}
