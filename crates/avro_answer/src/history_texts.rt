//! Reading the texts of a history.

ghost use Rattle.std.specs.Prelude.{◌≡◌, true, false, take, drop, map, IfOk};
ghost use Rattle.std.specs.Result.{IfErr};
ghost use Rattle.std.specs.List.{AllZip};
ghost use Rattle.avro_schema.specs.SeenSchema.{schema_nodes};
ghost use Rattle.avro_answer.specs.HistoryAnswer.{cut_texts, RefusesHistory, AllHaveSchemas};
ghost use Rattle.avro_answer.specs.ReadText.{IsReadAs};
ghost use Rattle.avro_answer.specs.RefusalText.{HasSchema, RefusesOne};
ghost use Rattle.avro_answer.specs.inside.Read.{RefusesReader};
ghost use Rattle.avro_answer.specs.declared.refusal.Refusal.TheVariants.{OutOfMemory};

use crate::reading::{read_reader, read_writer};
use crate::refusal::Refusal;
use avro_schema::Schema;
use std::alloc::Global;

/// The schemas of concatenated texts.
pub(crate) fn read_texts(
    alloc: Global,
    texts: &[u8],
    lengths: &[usize],
) -> Result<Vec<Schema>, Refusal>
    ensures found { IfOk result (λ schemas. AllZip IsReadAs (cut_texts texts.now lengths.now) (map schema_nodes schemas.items)) }
    ensures refused { IfErr result (RefusesHistory (cut_texts texts.now lengths.now)) }
    ensures complete { AllHaveSchemas (cut_texts texts.now lengths.now) → IfErr result (λ e. e ≡ OutOfMemory) }
{
    let mut schemas = Vec::new(alloc);
    let mut rest = texts;
    for index in 0..lengths.len() {
        let (text, others) = cut(rest, lengths[index]);
        let schema = read_text(alloc, text, index + 1 == lengths.len())?;
        schemas.push(schema)?;
        rest = others;
    }
    Ok(schemas)
}

/// Splits off a prefix of this length, or everything if there is less.
pub(crate) fn cut(texts: &[u8], length: usize) -> (&[u8], &[u8])
    ensures front { result.0.now ≡ take length texts.now }
    ensures back { result.1.now ≡ drop length texts.now }
{
    texts.split_at(length.min(texts.len()))
}

/// The schema of a text: the last one is the reader's, another is a writer's.
fn read_text(alloc: Global, text: &[u8], is_last: bool) -> Result<Schema, Refusal>
    ensures found { IfOk result (λ schema. IsReadAs text.now (schema_nodes schema)) }
    ensures last { is_last ≡ true → IfErr result (RefusesReader text.now) }
    ensures other { is_last ≡ false → IfErr result (RefusesOne text.now) }
    ensures complete { HasSchema text.now → IfErr result (λ e. e ≡ OutOfMemory) }
{
    if is_last {
        read_reader(alloc, text)
    } else {
        read_writer(alloc, text)
    }
}
