//! Taking the magic, the metadata and the sync marker of a header.

ghost use Rattle.std.specs.Prelude.{◌≡◌, ◌≢◌, ◌↔◌, [], ◌+◌, ◌^◌, ◌<◌, ◌≤◌, max, length, take, drop, IfOk, OnOk, IsTrue, Some};
ghost use Rattle.std.specs.Result.{IfErr};
ghost use Rattle.avro_file.specs.File.{magic};
ghost use Rattle.avro_file.specs.FileFault.{FileFault};
ghost use Rattle.avro_file.specs.FileSeen.{file_fault};
ghost use Rattle.avro_file.specs.inside.HeaderEnds.{BeginsHeader, MarkerStops, FrameStands};
ghost use Rattle.avro_file.specs.inside.HeaderParts.{Refused, Takes};
ghost use Rattle.avro_file.specs.HeaderTaken.{IsHeaderFault, IsOfFrame};
ghost use Rattle.avro_file.specs.Held.{held};
ghost use Rattle.avro_file.specs.Named.{IsNamed};
ghost use Rattle.avro_file.specs.Parts.{properties_of};

use crate::error::{CopyError, LimitPlace};
use crate::header::content::metadata_error;
use crate::header::metadata::take_metadata;
use crate::input::buffer::Buffer;
use crate::input::{PartError, Reach, fill};
use avro_device::Input;
use std::alloc::Global;

/// The first bytes of a file.
pub const MAGIC: [u8; 4] = [0x4f, 0x62, 0x6a, 1];

/// Whether the bytes are the magic.
fn is_magic(bytes: &[u8]) -> bool
    ensures { IsTrue result ↔ (bytes.now ≡ magic) }
{
    bytes == MAGIC.as_slice()
}

/// The error when the magic cannot be taken as a whole.
fn magic_error(error: PartError) -> CopyError
    ensures device { result ≡ CopyError.InputFailed → error ≡ PartError.Device }
    ensures failed { error ≡ PartError.Device → result ≡ CopyError.InputFailed }
    ensures memory { error ≡ PartError.OutOfMemory → result ≡ CopyError.OutOfMemory }
    ensures ended { error ≡ PartError.Ended → result ≡ CopyError.NoMagic }
    ensures named { IsNamed result }
    ensures no_output { result ≢ CopyError.OutputFailed }
    ensures first { result ≢ CopyError.FailedBefore }
    ensures framed { IsOfFrame result }
{
    match error {
        PartError::Device => CopyError::InputFailed,
        PartError::OutOfMemory => CopyError::OutOfMemory,
        PartError::Ended | PartError::Limit | PartError::OutOfRange => CopyError::NoMagic,
    }
}

/// Takes the magic into an empty buffer. It is checked before the limit.
///
/// # Errors
///
/// `NoMagic`, `LimitExceeded`; `InputFailed`, `OutOfMemory`.
pub(crate) fn take_magic<I: Input>(
    input: &mut I,
    buffer: &mut Buffer,
    reach: Reach,
) -> Result<(), CopyError>
    requires none { held buffer.old ≡ [] }
    requires small { reach.limit + reach.ahead < 2 ^ 62 }
    ensures begins { OnOk result (BeginsHeader reach.limit (held buffer.new)) }
    ensures within { OnOk result (length (held buffer.new) ≤ 4 + reach.ahead) }
    ensures took { OnOk result (Takes I.gives I.failures (max 4 reach.limit) input.old input.new (held buffer.old) (held buffer.new)) }
    ensures lost { IfErr result (λ e. Refused I.gives I.failures (max 4 reach.limit) input.old input.new (held buffer.old) (held buffer.new) e) }
    ensures refused { IfErr result (λ e. (f : FileFault) → file_fault e ≡ Some f → IsHeaderFault reach.limit (I.ended input.new) (held buffer.new) f) }
    ensures framed { IfErr result IsOfFrame }
{
    let first = Reach {
        limit: reach.limit.max(4),
        ahead: reach.ahead,
    };
    match fill(input, buffer, 4, first) {
        Ok(()) => {}
        Err(error) => return Err(magic_error(error)),
    }
    let (front, _) = buffer.bytes().split_at(4);
    if !is_magic(front) {
        return Err(CopyError::NoMagic);
    }
    if reach.limit < 4 {
        return Err(CopyError::LimitExceeded(LimitPlace::Header));
    }
    Ok(())
}

/// The bytes as a marker.
fn marker_of(bytes: &[u8]) -> [u8; 16]
    requires { length bytes.now ≡ 16 }
    ensures { result ≡ bytes.now }
{
    let mut sync = [0; 16];
    sync.copy_from_slice(bytes);
    sync
}

/// Takes the marker that begins at `at`.
///
/// # Errors
///
/// `LimitExceeded`, `CutHeader`; `InputFailed`, `OutOfMemory`.
pub(crate) fn take_marker<I: Input>(
    input: &mut I,
    buffer: &mut Buffer,
    at: usize,
    reach: Reach,
) -> Result<[u8; 16], CopyError>
    requires begins { at ≤ length (held buffer.old) }
    requires small { reach.limit + reach.ahead < 2 ^ 62 }
    requires fits { length (held buffer.old) ≤ reach.limit }
    ensures inside { OnOk result (at + 16 ≤ length (held buffer.new)) }
    ensures marker { IfOk result (λ sync. sync ≡ take 16 (drop at (held buffer.new))) }
    ensures within { OnOk result (length (held buffer.new) ≤ max (length (held buffer.old)) (at + 16 + reach.ahead)) }
    ensures took { OnOk result (Takes I.gives I.failures reach.limit input.old input.new (held buffer.old) (held buffer.new)) }
    ensures lost { IfErr result (λ e. Refused I.gives I.failures reach.limit input.old input.new (held buffer.old) (held buffer.new) e) }
    ensures refused { IfErr result (λ e. (f : FileFault) → file_fault e ≡ Some f → MarkerStops reach.limit at (I.ended input.new) (held buffer.new) f) }
{
    let end = at + 16;
    match fill(input, buffer, end, reach) {
        Ok(()) => {}
        Err(error) => return Err(metadata_error(error, at)),
    }
    let (_, behind) = buffer.bytes().split_at(at);
    let (marker, _) = behind.split_at(16);
    Ok(marker_of(marker))
}

/// The parts of a header, and where it ends.
#[derive(Drop)]
pub(crate) struct Frame {
    pub(crate) metadata: Vec<(String, Vec<u8>)>,
    pub(crate) sync: [u8; 16],
    pub(crate) end: usize,
}

/// Takes the parts of a header into an empty buffer.
///
/// # Errors
///
/// `NoMagic`, `InvalidMetadata`, `LimitExceeded`, `CutHeader`; `InputFailed`, `OutOfMemory`.
pub(crate) fn take_frame<I: Input>(
    alloc: Global,
    input: &mut I,
    buffer: &mut Buffer,
    reach: Reach,
) -> Result<Frame, CopyError>
    requires none { held buffer.old ≡ [] }
    requires small { reach.limit + reach.ahead < 2 ^ 62 }
    ensures found { IfOk result (λ frame. FrameStands reach.limit (held buffer.new) (properties_of frame.metadata.items) frame.sync frame.end) }
    ensures within { IfOk result (λ frame. length (held buffer.new) ≤ frame.end + reach.ahead) }
    ensures took { IfOk result (λ _. Takes I.gives I.failures (max 4 reach.limit) input.old input.new (held buffer.old) (held buffer.new)) }
    ensures lost { IfErr result (λ e. Refused I.gives I.failures (max 4 reach.limit) input.old input.new (held buffer.old) (held buffer.new) e) }
    ensures refused { IfErr result (λ e. (f : FileFault) → file_fault e ≡ Some f → IsHeaderFault reach.limit (I.ended input.new) (held buffer.new) f) }
    ensures framed { IfErr result IsOfFrame }
{
    take_magic(input, buffer, reach)?;
    let (metadata, at) = take_metadata(alloc, input, buffer, reach)?;
    let sync = take_marker(input, buffer, at, reach)?;
    Ok(Frame {
        metadata,
        sync,
        end: at + 16,
    })
}
