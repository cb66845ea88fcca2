//! The schema and the codec in a header's metadata.

ghost use Rattle.std.specs.Prelude.{◌≡◌, ◌≢◌, codes, IfOk, IfSome, IfNone, Some, None};
ghost use Rattle.std.specs.Result.{IfErr};
ghost use Rattle.avro_schema.specs.SeenSchema.{schema_nodes};
ghost use Rattle.avro_schema_json.specs.DeclaredText.{DeclaresText};
ghost use Rattle.avro_file.specs.File.{property, is_plain_codec};
ghost use Rattle.avro_file.specs.FileFault.{FileFault};
ghost use Rattle.avro_file.specs.FileSeen.{file_fault};
ghost use Rattle.avro_file.specs.inside.HeaderEnds.{IsNoSchema, SayNone, SaySchema};
ghost use Rattle.avro_file.specs.Named.{IsNamed};
ghost use Rattle.avro_file.specs.Parts.{properties_of};

use crate::error::CopyError;
use avro_schema::Schema;
use avro_schema_json::{SchemaError, read_schema};
use std::alloc::Global;

/// The content of the first property with this name, if any.
fn content_of<'a>(properties: &'a [(String, Vec<u8>)], name: &str) -> Option<&'a [u8]>
    ensures some { IfSome result (λ content. property name.now (properties_of properties.now) ≡ Some content.now) }
    ensures none { IfNone result (property name.now (properties_of properties.now) ≡ None) }
{
    for (key, content) in properties {
        if key.as_str() == name {
            return Some(content.as_slice());
        }
    }
    None
}

/// The text of the schema in a header's metadata, if any. It need not declare a schema.
pub fn schema_text(metadata: &[(String, Vec<u8>)]) -> Option<&[u8]>
    ensures some { IfSome result (λ text. property (codes "avro.schema") (properties_of metadata.now) ≡ Some text.now) }
    ensures none { IfNone result (property (codes "avro.schema") (properties_of metadata.now) ≡ None) }
{
    content_of(metadata, "avro.schema")
}

/// Whether the codec is `null`, or not given.
fn has_plain_codec(properties: &[(String, Vec<u8>)]) -> bool
    ensures { result ≡ is_plain_codec (property (codes "avro.codec") (properties_of properties.now)) }
{
    match content_of(properties, "avro.codec") {
        Some(word) => word == "null".as_bytes(),
        None => true,
    }
}

/// The schema that a text declares.
///
/// # Errors
///
/// `InvalidSchema`; `OutOfMemory`.
fn schema_in(alloc: Global, text: &[u8]) -> Result<Schema, CopyError>
    ensures found { IfOk result (λ schema. DeclaresText text.now (schema_nodes schema)) }
    ensures refused { IfErr result (λ e. (f : FileFault) → file_fault e ≡ Some f → IsNoSchema text.now f) }
    ensures named { IfErr result IsNamed }
    ensures no_input { IfErr result (λ e. e ≢ CopyError.InputFailed) }
    ensures no_output { IfErr result (λ e. e ≢ CopyError.OutputFailed) }
    ensures first { IfErr result (λ e. e ≢ CopyError.FailedBefore) }
{
    match read_schema(alloc, text) {
        Ok(schema) => Ok(schema),
        Err(error) => {
            if error == SchemaError::OutOfMemory {
                return Err(CopyError::OutOfMemory);
            }
            Err(CopyError::InvalidSchema(error))
        }
    }
}

/// The schema of a file, from its metadata.
///
/// # Errors
///
/// `NoSchema`, `UnknownCodec`, `InvalidSchema`; `OutOfMemory`.
pub(crate) fn schema_of(
    alloc: Global,
    properties: &[(String, Vec<u8>)],
) -> Result<Schema, CopyError>
    ensures found { IfOk result (λ schema. SaySchema (properties_of properties.now) (schema_nodes schema)) }
    ensures refused { IfErr result (λ e. (f : FileFault) → file_fault e ≡ Some f → SayNone (properties_of properties.now) f) }
    ensures named { IfErr result IsNamed }
    ensures no_input { IfErr result (λ e. e ≢ CopyError.InputFailed) }
    ensures no_output { IfErr result (λ e. e ≢ CopyError.OutputFailed) }
    ensures first { IfErr result (λ e. e ≢ CopyError.FailedBefore) }
{
    let text = match content_of(properties, "avro.schema") {
        Some(text) => text,
        None => return Err(CopyError::NoSchema),
    };
    if !has_plain_codec(properties) {
        return Err(CopyError::UnknownCodec);
    }
    schema_in(alloc, text)
}
