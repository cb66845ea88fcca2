//! A header, and reading it.

ghost use Rattle.std.specs.Prelude.{◌≡◌, ◌≢◌, OnOk, IfOk, Some, Err, [], ◌+◌, ◌^◌, ◌<◌, ◌≤◌, max, length, take, OnErr};
ghost use Rattle.std.specs.Result.{IfErr};
ghost use Rattle.avro_file.specs.FileFault.{FileFault};
ghost use Rattle.avro_file.specs.FileSeen.{file_fault};
ghost use Rattle.avro_file.specs.HeaderTaken.{TakesHeader, TakesHeaderFault, header_value, IsHeaderFault};
ghost use Rattle.avro_file.specs.Named.{IsNamed};
ghost use Rattle.avro_file.specs.File.{IsHeader};
ghost use Rattle.avro_file.specs.Filled.{GrowsBy, TakesAtMost, TakesSome, UnlessFailed};
ghost use Rattle.avro_file.specs.Held.{held};

mod content;
pub(crate) mod frame;
pub(crate) mod metadata;
mod properties;
mod properties_head;
pub(crate) mod schema_and_codec;

use crate::error::CopyError;
use crate::header::frame::{Frame, take_frame};
use crate::header::schema_and_codec::schema_of;
use crate::input::Reach;
use crate::input::buffer::Buffer;
use crate::limits::FileLimits;
use avro_device::Input;
use avro_schema::Schema;
use std::alloc::Global;

/// The header of a file: its schema, metadata and sync marker (Avro 1.11, "Object Container Files").
#[derive(Drop)]
pub struct Header {
    pub(crate) schema: Schema,
    pub(crate) metadata: Vec<(String, Vec<u8>)>,
    pub(crate) sync: [u8; 16],
}

impl Header {
    ghost use Rattle.std.specs.Prelude.{◌≡◌, length};

    /// The schema of the file's data.
    pub fn schema(&self) -> &Schema
        ensures { result.now ≡ self.now.schema }
    {
        &self.schema
    }

    /// The metadata, in the file's order.
    pub fn metadata(&self) -> &[(String, Vec<u8>)]
        ensures { result.now ≡ self.now.metadata.items }
    {
        &self.metadata
    }

    /// The sync marker, which follows the header and each block.
    pub fn sync(&self) -> &[u8; 16]
        ensures marker { result.now ≡ self.now.sync }
        ensures length { length result.now ≡ 16 }
    {
        &self.sync
    }
}

impl Header {
    /// Takes the header of a file, and no byte after it.
    ///
    /// # Errors
    ///
    /// `NoMagic`; then, from left to right, `InvalidMetadata`, `LimitExceeded` for a part that would exceed the limit, or
    /// `CutHeader` if the input ends; then `NoSchema`, `UnknownCodec`, `InvalidSchema`. `InputFailed`, `OutOfMemory`.
    pub fn read<I: Input>(
        alloc: Global,
        input: &mut I,
        limits: &FileLimits,
    ) -> Result<Header, CopyError>
        ensures found { IfOk result (λ h. TakesHeader I.gives input.old input.new limits.now.header (header_value h)) }
        ensures refused { IfErr result (λ e. (f : FileFault) → file_fault e ≡ Some f → TakesHeaderFault I.gives I.ended input.old input.new limits.now.header f) }
        ensures lost { OnErr result (TakesSome I.gives input.old input.new) }
        ensures works { OnOk result (I.failures input.new ≡ I.failures input.old) }
        ensures fails { result ≡ Err CopyError.InputFailed → I.failures input.new ≢ I.failures input.old }
        ensures no_output { result ≢ Err CopyError.OutputFailed }
        ensures first { result ≢ Err CopyError.FailedBefore }
        ensures named { IfErr result IsNamed }
    {
        let mut buffer = Buffer::new(alloc);
        let (header, _len) = take_header(alloc, input, &mut buffer, limits, 0)?;
        Ok(header)
    }
}

/// Takes a header into an empty buffer, and returns it with its length in bytes.
///
/// # Errors
///
/// `NoMagic`, `InvalidMetadata`, `LimitExceeded`, `CutHeader`, `NoSchema`, `UnknownCodec`, `InvalidSchema`; `InputFailed`,
/// `OutOfMemory`.
pub fn take_header<I: Input>(
    alloc: Global,
    input: &mut I,
    buffer: &mut Buffer,
    limits: &FileLimits,
    ahead: usize,
) -> Result<(Header, usize), CopyError>
    requires small { ahead < 2 ^ 62 }
    requires none { held buffer.old ≡ [] }
    ensures inside { IfOk result (λ r. r.1 ≤ length (held buffer.new)) }
    ensures stands { IfOk result (λ r. IsHeader (header_value r.0) (take r.1 (held buffer.new))) }
    ensures short { IfOk result (λ r. r.1 ≤ limits.now.header) }
    ensures taken { UnlessFailed result (GrowsBy I.gives input.old input.new (held buffer.old) (held buffer.new)) }
    ensures lost { OnErr result (TakesAtMost I.gives input.old input.new (max 4 limits.now.header)) }
    ensures within { IfOk result (λ r. length (held buffer.new) ≤ r.1 + ahead) }
    ensures limited { length (held buffer.new) ≤ max 4 limits.now.header }
    ensures refused { IfErr result (λ e. (f : FileFault) → file_fault e ≡ Some f → IsHeaderFault limits.now.header (I.ended input.new) (held buffer.new) f) }
    ensures works { OnOk result (I.failures input.new ≡ I.failures input.old) }
    ensures fails { result ≡ Err CopyError.InputFailed → I.failures input.new ≢ I.failures input.old }
    ensures no_output { result ≢ Err CopyError.OutputFailed }
    ensures first { result ≢ Err CopyError.FailedBefore }
    ensures named { IfErr result IsNamed }
{
    let limit = limits.header() as usize;
    let reach = Reach {
        limit,
        ahead: ahead.min(limit),
    };
    let frame = take_frame(alloc, input, buffer, reach)?;
    let schema = schema_of(alloc, &frame.metadata)?;
    let Frame {
        metadata,
        sync,
        end,
    } = frame;
    let header = Header {
        schema,
        metadata,
        sync,
    };
    Ok((header, end))
}
