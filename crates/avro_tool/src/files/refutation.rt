ghost use Rattle.std.specs.Prelude.{◌++◌, OnOk};
ghost use Rattle.avro_file.specs.Parts.{header_part, block_part, properties_of};

use crate::failure::Failure;
use avro_binary::append_plain;
use avro_canonical::fingerprint;
use avro_container::Sink;
use avro_device::{Output, WriteOutput};
use avro_file::CopyError;
use avro_schema::Datum;
use avro_schema_json::ReaderText;
use std::alloc::{AllocError, Global};
use std::fs;
use std::rt::Files;

/// Writes a container of a writer's text and of one datum into a file. Its marker is the start of the
/// schema's fingerprint.
pub(crate) fn write_refutation_file<'a, R: Files + AllocGlobal>(
    rt: &R,
    writer: &ReaderText,
    datum: &Datum,
    word: &'a str,
) -> Result<(), Failure<'a>> {
    let mut body = Vec::new(rt.alloc());
    append_plain(datum, &mut body)?;
    let metadata = metadata_of(rt.alloc(), writer.text())?;
    let digest = fingerprint(rt.alloc(), writer.schema())?;
    let mut sync = [0; 16];
    sync.copy_from_slice(&digest[..16]);
    let mut output = match fs::create(rt, word) {
        Ok(file) => WriteOutput::new(file),
        Err(e) => return Err(Failure::of_writing(word, &e)),
    };
    match put_block(rt.alloc(), &mut output, &metadata, sync, &body) {
        Ok(()) => Ok(()),
        Err(error) => Err(Failure::of_container(word, error)),
    }
}

/// The metadata of a container: the text of its schema, and the codec `null`.
fn metadata_of(alloc: Global, text: &[u8]) -> Result<Vec<(String, Vec<u8>)>, AllocError> {
    let mut metadata = Vec::new(alloc);
    for (name, content) in [("avro.schema", text), ("avro.codec", "null".as_bytes())] {
        metadata.push((String::from_str(alloc, name)?, content.to_vec(alloc)?))?;
    }
    Ok(metadata)
}

/// Puts a container of one block, which has one datum.
fn put_block<O: Output>(
    alloc: Global,
    output: &mut O,
    metadata: &[(String, Vec<u8>)],
    sync: [u8; 16],
    body: &[u8],
) -> Result<(), CopyError>
    ensures { OnOk result (O.keeps output.old (header_part (properties_of metadata.now) sync ++ block_part sync 1 body.now) output.new) }
{
    let mut sink = Sink::start(alloc, output, metadata, sync)?;
    sink.block(output, 1, body)?;
    match output.flush() {
        Ok(()) => Ok(()),
        Err(_) => Err(CopyError::OutputFailed),
    }
}
