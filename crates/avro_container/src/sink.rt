//! Writing a file part by part.

ghost use Rattle.std.specs.Prelude.{◌≡◌, ◌≢◌, ◌⊎◌, ◌++◌, ◌^◌, ◌<◌, [], pos, true, false, None, IfOk, OnOk, OnErr, Err};
ghost use Rattle.std.specs.Result.{IfErr};
ghost use Rattle.avro_zigzag.specs.Number.{number_bytes};
ghost use Rattle.avro_cursor.specs.Encoding.{plain, plain_bytes, plain_entries};
ghost use Rattle.avro_file.specs.File.{metadata_value, property_entries};
ghost use Rattle.avro_file.specs.FileSeen.{file_fault};
ghost use Rattle.avro_file.specs.Named.{IsNamed};
ghost use Rattle.avro_file.specs.Parts.{block_part, header_part, properties_of};
ghost use Rattle.avro_device.specs.PutFront.{PutsFrontOf};

use avro_device::{Output, put_all};
use avro_file::{CopyError, MAGIC};
use avro_zigzag::write_long;
use std::alloc::{AllocError, Global};

/// A file being put: its header, then block by block (Avro 1.11, "Object Container Files").
#[derive(Drop)]
pub struct Sink {
    sync: [u8; 16],
    buffer: Vec<u8>,
    failed: bool,
}

impl Sink {
    /// Puts the header: the metadata, in order, and the marker.
    ///
    /// # Errors
    ///
    /// `OutputFailed`, `OutOfMemory`: a prefix of the header was put.
    pub fn start<O: Output>(
        alloc: Global,
        output: &mut O,
        metadata: &[(String, Vec<u8>)],
        sync: [u8; 16],
    ) -> Result<Sink, CopyError>
        ensures put { OnOk result (O.keeps output.old (header_part (properties_of metadata.now) sync) output.new) }
        ensures front { OnErr result (PutsFrontOf O.keeps output.old output.new (header_part (properties_of metadata.now) sync)) }
        ensures told { IfErr result (λ e. file_fault e ≡ None) }
        ensures no_input { result ≢ Err CopyError.InputFailed }
        ensures works { OnOk result (O.failures output.new ≡ O.failures output.old) }
        ensures fails { result ≡ Err CopyError.OutputFailed → (O.failures output.new ≢ O.failures output.old) ⊎ O.stuck output.new }
        ensures kept { IfOk result (λ sink. sink.sync ≡ sync) }
        ensures begins { IfOk result (λ sink. sink.failed ≡ false) }
        ensures first { result ≢ Err CopyError.FailedBefore }
        ensures named { IfErr result IsNamed }
    {
        let mut buffer = Vec::new(alloc);
        append_header(metadata, &sync, &mut buffer)?;
        match put_all(output, &buffer) {
            Ok(()) => Ok(Sink {
                sync,
                buffer,
                failed: false,
            }),
            Err(_) => Err(CopyError::OutputFailed),
        }
    }

    /// Puts a block of `count` data, whose concatenated encodings are `body`.
    ///
    /// # Errors
    ///
    /// `OutputFailed`, `OutOfMemory`: a prefix of the block was put. After an error, `FailedBefore`.
    pub fn block<O: Output>(
        &mut self,
        output: &mut O,
        count: u32,
        body: &[u8],
    ) -> Result<(), CopyError>
        ensures before { self.old.failed ≡ true → (result ≡ Err CopyError.FailedBefore) × (output.new ≡ output.old) }
        ensures put { OnOk result (O.keeps output.old (block_part self.old.sync count body.now) output.new) }
        ensures front { self.old.failed ≡ false → OnErr result (PutsFrontOf O.keeps output.old output.new (block_part self.old.sync count body.now)) }
        ensures stays { OnErr result (self.new.failed ≡ true) }
        ensures goes_on { OnOk result (self.new.failed ≡ false) }
        ensures told { IfErr result (λ e. file_fault e ≡ None) }
        ensures no_input { result ≢ Err CopyError.InputFailed }
        ensures works { OnOk result (O.failures output.new ≡ O.failures output.old) }
        ensures fails { result ≡ Err CopyError.OutputFailed → (O.failures output.new ≢ O.failures output.old) ⊎ O.stuck output.new }
        ensures only_before { result ≡ Err CopyError.FailedBefore → self.old.failed ≡ true }
        ensures same { self.new.sync ≡ self.old.sync }
        ensures named { IfErr result IsNamed }
    {
        if self.failed {
            return Err(CopyError::FailedBefore);
        }
        match put_block(output, &mut self.buffer, &self.sync, count, body) {
            Ok(()) => Ok(()),
            Err(error) => {
                self.failed = true;
                Err(error)
            }
        }
    }
}

/// Puts a block as a whole, from a buffer that is reused from block to block.
pub(crate) fn put_block<O: Output>(
    output: &mut O,
    buffer: &mut Vec<u8>,
    sync: &[u8; 16],
    count: u32,
    body: &[u8],
) -> Result<(), CopyError>
    ensures put { OnOk result (O.keeps output.old (block_part sync.now count body.now) output.new) }
    ensures front { OnErr result (PutsFrontOf O.keeps output.old output.new (block_part sync.now count body.now)) }
    ensures told { IfErr result (λ e. file_fault e ≡ None) }
    ensures no_input { result ≢ Err CopyError.InputFailed }
    ensures works { OnOk result (O.failures output.new ≡ O.failures output.old) }
    ensures fails { result ≡ Err CopyError.OutputFailed → (O.failures output.new ≢ O.failures output.old) ⊎ O.stuck output.new }
    ensures first { result ≢ Err CopyError.FailedBefore }
    ensures named { IfErr result IsNamed }
{
    buffer.clear();
    append_block(sync, count, body, buffer)?;
    match put_all(output, buffer) {
        Ok(()) => Ok(()),
        Err(_) => Err(CopyError::OutputFailed),
    }
}

/// Flushes the output.
///
/// # Errors
///
/// `OutputFailed`.
pub(crate) fn put_rest<O: Output>(output: &mut O) -> Result<(), CopyError>
    ensures none { O.keeps output.old [] output.new }
    ensures flushed { OnOk result (O.flushed output.new) }
    ensures works { OnOk result (O.failures output.new ≡ O.failures output.old) }
    ensures fails { OnErr result (O.failures output.new ≢ O.failures output.old) }
    ensures only { OnErr result (result ≡ Err CopyError.OutputFailed) }
{
    match output.flush() {
        Ok(()) => Ok(()),
        Err(_fault) => Err(CopyError::OutputFailed),
    }
}

/// Appends a header.
fn append_header(
    metadata: &[(String, Vec<u8>)],
    sync: &[u8; 16],
    out: &mut Vec<u8>,
) -> Result<(), AllocError>
    ensures { OnOk result (out.new.items ≡ out.old.items ++ header_part (properties_of metadata.now) sync.now) }
{
    out.extend_from_slice(&MAGIC)?;
    append_metadata(metadata, out)?;
    out.extend_from_slice(sync)
}

/// Appends the metadata as one block, if there is any, and the end of the metadata.
fn append_metadata(metadata: &[(String, Vec<u8>)], out: &mut Vec<u8>) -> Result<(), AllocError>
    ensures { OnOk result (out.new.items ≡ out.old.items ++ plain (metadata_value (properties_of metadata.now))) }
{
    if !metadata.is_empty() {
        append_count(metadata.len(), out)?;
        append_properties(metadata, out)?;
    }
    out.push(0)?;
    Ok(())
}

/// Appends the entries of the metadata.
fn append_properties(metadata: &[(String, Vec<u8>)], out: &mut Vec<u8>) -> Result<(), AllocError>
    ensures { OnOk result (out.new.items ≡ out.old.items ++ plain_entries (property_entries (properties_of metadata.now))) }
{
    for (name, content) in metadata {
        append_bytes(name.as_bytes(), out)?;
        append_bytes(content, out)?;
    }
    Ok(())
}

/// Appends bytes, preceded by their length.
fn append_bytes(content: &[u8], out: &mut Vec<u8>) -> Result<(), AllocError>
    ensures { OnOk result (out.new.items ≡ out.old.items ++ plain_bytes content.now) }
{
    append_count(content.len(), out)?;
    out.extend_from_slice(content)
}

/// Appends a block.
fn append_block(
    sync: &[u8; 16],
    count: u32,
    body: &[u8],
    out: &mut Vec<u8>,
) -> Result<(), AllocError>
    ensures { OnOk result (out.new.items ≡ out.old.items ++ block_part sync.now count body.now) }
{
    append_number(i64::from(count), out)?;
    append_count(body.len(), out)?;
    out.extend_from_slice(body)?;
    out.extend_from_slice(sync)
}

/// Appends a count or a length.
fn append_count(count: usize, out: &mut Vec<u8>) -> Result<(), AllocError>
    requires { count < 2 ^ 63 }
    ensures { OnOk result (out.new.items ≡ out.old.items ++ number_bytes (pos count)) }
{
    append_number(count as i64, out)
}

/// Appends a number.
fn append_number(value: i64, out: &mut Vec<u8>) -> Result<(), AllocError>
    ensures { OnOk result (out.new.items ≡ out.old.items ++ number_bytes value) }
{
    let (bytes, len) = write_long(value);
    out.extend_from_slice(&bytes[..len])
}
