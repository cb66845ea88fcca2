ghost use Rattle.std.specs.Prelude.{◌≡◌, IfOk, take};
ghost use Rattle.std.specs.Option.{IfSome};
ghost use Rattle.std.specs.Result.{IfErr};
ghost use Rattle.avro_schema.specs.SeenSchema.{schema_nodes};
ghost use Rattle.avro_answer.specs.ReadText.{IsReadAs};
ghost use Rattle.avro_tool.specs.TextsRefused.{RefusesNothing, RefusesSchema, RefusesTwo};

use crate::failure::Failure;
use crate::files::texts::Texts;
use avro_schema::Schema;
use avro_schema_json::{ReaderText, read_schema};

/// So many bytes of a schema's text are read: one more than it may have.
pub(crate) const TEXT_READ: u64 = 1_048_577;

/// The schemas in two files, the writer's with its text. That is read first.
pub(crate) fn read_pair<'a, T: Texts>(
    texts: &T,
    writer: &'a str,
    reader: &'a str,
) -> Result<(ReaderText, Schema), Failure<'a>>
    ensures written { IfOk result (λ pair. IfSome (T.known texts.now writer.now) (λ text. IsReadAs text (schema_nodes pair.0.1))) }
    ensures read { IfOk result (λ pair. IfSome (T.known texts.now reader.now) (λ text. IsReadAs text (schema_nodes pair.1))) }
    ensures refused { IfErr result (RefusesTwo (T.known texts.now) writer.now reader.now) }
{
    let written = read_text_file(texts, writer)?;
    let read = read_schema_file(texts, reader)?;
    Ok((written, read))
}

/// The schema in a file. At most one byte more than a text may have is read, once.
pub(crate) fn read_schema_file<'a, T: Texts>(
    texts: &T,
    word: &'a str,
) -> Result<Schema, Failure<'a>>
    ensures found { IfOk result (λ schema. IfSome (T.known texts.now word.now) (λ text. IsReadAs text (schema_nodes schema))) }
    ensures refused { IfErr result (RefusesSchema (T.known texts.now) word.now) }
{
    let bytes = bytes_of(texts, word, TEXT_READ)?;
    match read_schema(texts.alloc(), &bytes) {
        Ok(schema) => Ok(schema),
        Err(e) => Err(Failure::of_schema(word, e)),
    }
}

/// The schema in a file, with its text.
pub(crate) fn read_text_file<'a, T: Texts>(
    texts: &T,
    word: &'a str,
) -> Result<ReaderText, Failure<'a>>
    ensures found { IfOk result (λ reader. IfSome (T.known texts.now word.now) (λ text. IsReadAs text (schema_nodes reader.1))) }
    ensures refused { IfErr result (RefusesSchema (T.known texts.now) word.now) }
{
    let bytes = bytes_of(texts, word, TEXT_READ)?;
    match ReaderText::read(texts.alloc(), &bytes) {
        Ok(text) => Ok(text),
        Err(e) => Err(Failure::of_schema(word, e)),
    }
}

/// The schema of a reader, if a file is named for it.
pub(crate) fn read_reader<'a, T: Texts>(
    texts: &T,
    word: Option<&'a str>,
) -> Result<Option<ReaderText>, Failure<'a>> {
    match word {
        Some(word) => Ok(Some(read_text_file(texts, word)?)),
        None => Ok(None),
    }
}

/// The first bytes of a file: so many, or all where it has fewer.
pub(crate) fn bytes_of<'a, T: Texts>(
    texts: &T,
    word: &'a str,
    most: u64,
) -> Result<Vec<u8>, Failure<'a>>
    ensures found { IfOk result (λ bytes. IfSome (T.known texts.now word.now) (λ all. bytes.items ≡ take most all)) }
    ensures fails { IfErr result RefusesNothing }
{
    match texts.text(word, most) {
        Ok(bytes) => Ok(bytes),
        Err(e) => Err(Failure::of_reading(word, &e)),
    }
}
