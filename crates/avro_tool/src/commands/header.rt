//! Printing what the header of a container contains.

ghost use Rattle.std.specs.Prelude.{◌≡◌, ◌≢◌, ◌⊎◌, ◌++◌, ◌∷◌, [], List, ℕ, IfOk, OnOk, IsErrOf, Err, Some, None, codes, string_bytes, encode_utf8_all};
ghost use Rattle.std.specs.Result.{IfErr};
ghost use Rattle.serde_json.specs.View.{view};
ghost use Rattle.serde_json.specs.Written.{compact_text};
ghost use Rattle.avro_answer.specs.JsonAnswer.{json_line};
ghost use Rattle.avro_file.specs.File.{property};
ghost use Rattle.avro_file.specs.FileFault.{FileFault, in_header, no_schema};
ghost use Rattle.avro_file.specs.FileSeen.{file_fault};
ghost use Rattle.avro_file.specs.HeaderTaken.{TakesHeaderFault};
ghost use Rattle.avro_file.specs.Named.{IsNamed};
ghost use Rattle.avro_file.specs.Parts.{properties_of};
ghost use Rattle.avro_file.specs.declared.error.CopyError.{CopyError};
ghost use Rattle.avro_tool.specs.FailsOnlyFor.{FailsOnlyFor};
ghost use Rattle.avro_tool.specs.DefaultLimits.{default_limits};
ghost use Rattle.avro_tool.specs.FailureText.{IsFileFailure};
ghost use Rattle.avro_tool.specs.FoundStatus.{finding_status};
ghost use Rattle.avro_tool.specs.HeaderText.{IsHeaderLine, IsHeaderTold, metadata_tree};
ghost use Rattle.avro_tool.specs.declared.failure.Failure.TheVariants.{Container, CannotRead};

use crate::Finding;
use crate::failure::Failure;
use crate::files::container::open_container;
use crate::printing::print_bytes;
use avro_device::{Input, Output};
use avro_file::{CopyError, FileLimits, read_metadata, schema_text};
use serde_json::{Map, Value};
use std::alloc::{AllocError, Global};
use std::rt::Files;

/// Prints the text of the schema of the container in a file, or all of its metadata. Its codec may be any,
/// and the text need not declare a schema.
pub(crate) fn show_header<'a, R: Files + AllocGlobal, O: Output>(
    rt: &R,
    word: &'a str,
    is_metadata: bool,
    out: &mut O,
) -> Result<Finding, Failure<'a>> {
    let mut input = open_container(rt, word)?;
    tell_header(rt.alloc(), &mut input, word, is_metadata, out)
}

/// Prints the same of the container with which an input begins.
fn tell_header<'a, I: Input, O: Output>(
    alloc: Global,
    input: &mut I,
    word: &'a str,
    is_metadata: bool,
    out: &mut O,
) -> Result<Finding, Failure<'a>>
    ensures told { OnOk result ((line : List ℕ) × IsHeaderTold I.gives input.old input.new default_limits.header is_metadata line × O.keeps out.old line out.new) }
    ensures flushed { OnOk result (O.flushed out.new) }
    ensures good { IfOk result (λ f. finding_status f ≡ 0) }
    ensures refused { (e : CopyError) (f : FileFault) → result ≡ Err (Container word.exit e) → file_fault e ≡ Some f
        → TakesHeaderFault I.gives I.ended input.old input.new default_limits.header f }
    ensures fails { FailsOnlyFor (IsFileFailure word.exit) O.failures O.stuck out.old out.new result }
    ensures lost { IsErrOf result (CannotRead word.exit) → I.failures input.new ≢ I.failures input.old }
{
    match header_line(alloc, input, is_metadata) {
        Ok(line) => {
            print_bytes(out, &line)?;
            Ok(Finding::Good)
        }
        Err(error) => Err(Failure::of_container(word, error)),
    }
}

/// The line to print for the header with which an input begins.
fn header_line<I: Input>(
    alloc: Global,
    input: &mut I,
    is_metadata: bool,
) -> Result<Vec<u8>, CopyError>
    ensures told { IfOk result (λ line. IsHeaderTold I.gives input.old input.new default_limits.header is_metadata line.items) }
    ensures refused { IfErr result (λ e. (f : FileFault) → file_fault e ≡ Some f → TakesHeaderFault I.gives I.ended input.old input.new default_limits.header f) }
    ensures lost { IsErrOf result CopyError.InputFailed → I.failures input.new ≢ I.failures input.old }
    ensures named { IfErr result IsNamed }
    ensures no_output { result ≢ Err CopyError.OutputFailed }
    ensures first { result ≢ Err CopyError.FailedBefore }
{
    let metadata = read_metadata(alloc, input, &FileLimits::default())?;
    let line = line_of(alloc, &metadata, is_metadata)?;
    Ok(line)
}

/// The line to print for a header with this metadata.
fn line_of(
    alloc: Global,
    metadata: &[(String, Vec<u8>)],
    is_metadata: bool,
) -> Result<Vec<u8>, CopyError>
    ensures told { IfOk result (λ line. IsHeaderLine is_metadata (properties_of metadata.now) line.items) }
    ensures refused { IfErr result (λ e. (f : FileFault) → file_fault e ≡ Some f → (f ≡ in_header no_schema) × (property (codes "avro.schema") (properties_of metadata.now) ≡ None)) }
    ensures fails { IfErr result (λ e. (e ≡ CopyError.NoSchema) ⊎ (e ≡ CopyError.OutOfMemory)) }
{
    let Some(text) = schema_text(metadata) else {
        return Err(CopyError::NoSchema);
    };
    if is_metadata {
        let line = metadata_line(alloc, metadata)?;
        Ok(line)
    } else {
        let line = text_line(alloc, text)?;
        Ok(line)
    }
}

/// A text and a line feed.
fn text_line(alloc: Global, text: &[u8]) -> Result<Vec<u8>, AllocError>
    ensures { IfOk result (λ line. line.items ≡ text.now ++ 10 ∷ []) }
{
    let mut line = text.to_vec(alloc)?;
    line.push(b'\n')?;
    Ok(line)
}

/// The display of metadata and a line feed.
fn metadata_line(alloc: Global, metadata: &[(String, Vec<u8>)]) -> Result<Vec<u8>, AllocError>
    ensures { IfOk result (λ line. line.items ≡ json_line (metadata_tree (properties_of metadata.now))) }
{
    let mut line = display_of(alloc, metadata)?.into_bytes();
    line.push(b'\n')?;
    Ok(line)
}

/// The display of metadata: an object of their keys, in the order of their bytes.
fn display_of(alloc: Global, metadata: &[(String, Vec<u8>)]) -> Result<String, AllocError>
    ensures { IfOk result (λ text. string_bytes text ≡ compact_text (metadata_tree (properties_of metadata.now))) }
{
    let tree = tree_of(alloc, metadata)?;
    let text = tree.to_string(alloc)?;
    Ok(text)
}

/// Metadata as an object of their keys.
fn tree_of(alloc: Global, metadata: &[(String, Vec<u8>)]) -> Result<Value, AllocError>
    ensures { IfOk result (λ tree. view tree ≡ metadata_tree (properties_of metadata.now)) }
{
    let mut members: Map<String, Value> = Map::new(alloc);
    for (key, content) in metadata {
        let key = String::from_str(alloc, key)?;
        members.insert(key, Value::String(bytes_text(alloc, content)?))?;
    }
    Ok(Value::Object(members))
}

/// The display of bytes: a text of one character for each, whose code is the byte's value.
fn bytes_text(alloc: Global, bytes: &[u8]) -> Result<String, AllocError>
    ensures { IfOk result (λ text. string_bytes text ≡ encode_utf8_all bytes.now) }
{
    let mut text = String::new(alloc);
    for byte in bytes {
        text.push(char::from(*byte))?;
    }
    Ok(text)
}
