//! Taking the metadata of a header, and reading it on its own.

ghost use Rattle.std.specs.Prelude.{◌≡◌, ◌≢◌, ◌+◌, ◌^◌, ◌<◌, ◌≤◌, true, false, max, length, IfOk, Some, OnOk, Err};
ghost use Rattle.std.specs.Result.{IfErr};
ghost use Rattle.avro_cursor.specs.Breaks.{all_left};
ghost use Rattle.avro_file.specs.FileFault.{FileFault};
ghost use Rattle.avro_file.specs.FileSeen.{file_fault};
ghost use Rattle.avro_file.specs.HeaderFails.{PropertyWants, entry_limits};
ghost use Rattle.avro_file.specs.inside.HeaderParts.{PartStops, PropertyBreaks, Refused, Takes};
ghost use Rattle.avro_file.specs.Held.{held};
ghost use Rattle.avro_file.specs.inside.MetadataParts.{Blocks, MetadataEnds, MetadataSoFar};
ghost use Rattle.avro_file.specs.Parts.{properties_of};
ghost use Rattle.avro_file.specs.HeaderTaken.{IsOfFrame, TakesHeaderFault, TakesMetadata};
ghost use Rattle.avro_file.specs.Named.{IsNamed};

use crate::error::CopyError;
use crate::header::frame::{Frame, take_frame};
use crate::header::properties::{Properties, take_properties};
use crate::header::properties_head::{PropertiesHead, take_properties_head};
use crate::input::Reach;
use crate::input::buffer::Buffer;
use crate::limits::FileLimits;
use avro_binary::ReadError;
use avro_device::Input;
use std::alloc::Global;
use std::collections::BTreeSet;

/// Whether the head of a block of `len` bytes gives another size.
fn is_other_size(head: PropertiesHead, len: u64) -> bool
    ensures other { result ≡ true → (head.is_sized ≡ true) × (len ≢ head.size) }
    ensures same { result ≡ false → head.is_sized ≡ true → head.size ≡ len }
{
    head.is_sized && len != head.size
}

/// Takes the block of properties that starts at `at`; returns whether there is one, and where it ends.
/// If there is none, the metadata ends there.
///
/// # Errors
///
/// `InvalidMetadata`, `LimitExceeded`, `CutHeader`; `InputFailed`, `OutOfMemory`.
fn take_metadata_block<I: Input>(
    alloc: Global,
    input: &mut I,
    buffer: &mut Buffer,
    at: usize,
    properties: &mut Properties,
    reach: Reach,
) -> Result<(bool, usize), CopyError>
    requires begins { at ≤ length (held buffer.old) }
    requires small { reach.limit + reach.ahead < 2 ^ 62 }
    requires fits { length (held buffer.old) ≤ reach.limit }
    ensures further { IfOk result (λ r. (at < r.1) × (r.1 ≤ length (held buffer.new))) }
    ensures more { IfOk result (λ r. r.0 ≡ true → MetadataSoFar at (held buffer.old) properties.old.names (properties_of properties.old.entries.items)
        → MetadataSoFar r.1 (held buffer.new) properties.new.names (properties_of properties.new.entries.items)) }
    ensures end { IfOk result (λ r. r.0 ≡ false → MetadataSoFar at (held buffer.old) properties.old.names (properties_of properties.old.entries.items)
        → MetadataEnds r.1 (held buffer.new) (properties_of properties.new.entries.items)) }
    ensures within { IfOk result (λ r. length (held buffer.new) ≤ max (length (held buffer.old)) (r.1 + reach.ahead)) }
    ensures took { IfOk result (λ _. Takes I.gives I.failures reach.limit input.old input.new (held buffer.old) (held buffer.new)) }
    ensures lost { IfErr result (λ e. Refused I.gives I.failures reach.limit input.old input.new (held buffer.old) (held buffer.new) e) }
    ensures refused { IfErr result (λ e. (f : FileFault) → file_fault e ≡ Some f → MetadataSoFar at (held buffer.old) properties.old.names (properties_of properties.old.entries.items)
        → PartStops reach.limit 4 (I.ended input.new) (held buffer.new) (Blocks PropertyBreaks (all_left entry_limits)) (Blocks PropertyWants (all_left entry_limits)) f) }
{
    let head = take_properties_head(input, buffer, at, reach)?;
    if head.count == 0 {
        return Ok((false, head.start));
    }
    let start = head.start;
    let end = take_properties(alloc, input, buffer, start, head.count, properties, reach)?;
    if is_other_size(head, (end - start) as u64) {
        return Err(CopyError::InvalidMetadata(ReadError::WrongBlockSize { place: head.offset }));
    }
    Ok((true, end))
}

/// Takes the metadata after the magic; returns its properties in order, and where it ends.
///
/// # Errors
///
/// `InvalidMetadata`, `LimitExceeded`, `CutHeader`; `InputFailed`, `OutOfMemory`.
pub(crate) fn take_metadata<I: Input>(
    alloc: Global,
    input: &mut I,
    buffer: &mut Buffer,
    reach: Reach,
) -> Result<(Vec<(String, Vec<u8>)>, usize), CopyError>
    requires begins { 4 ≤ length (held buffer.old) }
    requires small { reach.limit + reach.ahead < 2 ^ 62 }
    requires fits { length (held buffer.old) ≤ reach.limit }
    ensures found { IfOk result (λ r. MetadataEnds r.1 (held buffer.new) (properties_of r.0.items)) }
    ensures within { IfOk result (λ r. length (held buffer.new) ≤ max (length (held buffer.old)) (r.1 + reach.ahead)) }
    ensures took { IfOk result (λ _. Takes I.gives I.failures reach.limit input.old input.new (held buffer.old) (held buffer.new)) }
    ensures lost { IfErr result (λ e. Refused I.gives I.failures reach.limit input.old input.new (held buffer.old) (held buffer.new) e) }
    ensures refused { IfErr result (λ e. (f : FileFault) → file_fault e ≡ Some f
        → PartStops reach.limit 4 (I.ended input.new) (held buffer.new) (Blocks PropertyBreaks (all_left entry_limits)) (Blocks PropertyWants (all_left entry_limits)) f) }
{
    let mut properties = Properties {
        entries: Vec::new(alloc),
        names: BTreeSet::new(alloc),
    };
    let mut at = 4;
    loop {
        match take_metadata_block(alloc, input, buffer, at, &mut properties, reach) {
            Ok((true, end)) => at = end,
            Ok((false, end)) => {
                let Properties { entries, names: _ } = properties;
                return Ok((entries, end));
            }
            Err(error) => return Err(error),
        }
    }
}

/// Takes the header of a file, and no byte after it; returns its metadata in the file's order. Its
/// content is not checked: any codec will do, and a schema may be missing.
///
/// # Errors
///
/// `NoMagic`; then, from left to right, `InvalidMetadata`, `LimitExceeded` for a part that would exceed the limit, or
/// `CutHeader` if the input ends. `InputFailed`, `OutOfMemory`.
pub fn read_metadata<I: Input>(
    alloc: Global,
    input: &mut I,
    limits: &FileLimits,
) -> Result<Vec<(String, Vec<u8>)>, CopyError>
    ensures found { IfOk result (λ all. TakesMetadata I.gives input.old input.new limits.now.header (properties_of all.items)) }
    ensures refused { IfErr result (λ e. (f : FileFault) → file_fault e ≡ Some f → TakesHeaderFault I.gives I.ended input.old input.new limits.now.header f) }
    ensures framed { IfErr result IsOfFrame }
    ensures works { OnOk result (I.failures input.new ≡ I.failures input.old) }
    ensures fails { result ≡ Err CopyError.InputFailed → I.failures input.new ≢ I.failures input.old }
    ensures no_output { result ≢ Err CopyError.OutputFailed }
    ensures first { result ≢ Err CopyError.FailedBefore }
    ensures named { IfErr result IsNamed }
{
    let mut buffer = Buffer::new(alloc);
    let limit = limits.header() as usize;
    let reach = Reach { limit, ahead: 0 };
    let frame = take_frame(alloc, input, &mut buffer, reach)?;
    let Frame {
        metadata,
        sync: _,
        end: _,
    } = frame;
    Ok(metadata)
}
