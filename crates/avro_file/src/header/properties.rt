//! Taking the properties in a header's metadata.

ghost use Rattle.std.specs.Prelude.{◌≡◌, ℕ, cond, true, false, List, bytes_eq, string_bytes, IfOk, OnOk, Err, ◌+◌, ◌^◌, ◌<◌, ◌≤◌, [], ◌∷◌, ◌++◌, max, length, slice_index, Some};
ghost use Rattle.std.specs.BTreeSet.{contains_text};
ghost use Rattle.std.specs.Str.{is_utf8};
ghost use Rattle.std.specs.Result.{IfErr};
ghost use Rattle.avro_schema.specs.Distinct.{are_distinct};
ghost use Rattle.avro_cursor.specs.Breaks.{KeyBreaks, Left};
ghost use Rattle.avro_file.specs.FileFault.{FileFault};
ghost use Rattle.avro_file.specs.FileSeen.{file_fault};
ghost use Rattle.avro_file.specs.HeaderFails.{ContentWants, PropertyWants};
ghost use Rattle.avro_file.specs.inside.HeaderParts.{AreNames, PartStops, PropertyBreaks, Refused, RunStops, Takes, TakesName, TakesProperty, TakesProperties};
ghost use Rattle.avro_file.specs.Held.{held};
ghost use Rattle.avro_file.specs.Parts.{properties_of};

use crate::error::CopyError;
use crate::header::content::take_content;
use crate::input::Reach;
use crate::input::buffer::Buffer;
use avro_binary::ReadError;
use avro_cursor::text_of;
use avro_device::Input;
use std::alloc::{AllocError, Global};
use std::collections::BTreeSet;

/// Why some bytes are not a new name.
#[derive(Clone, Copy, Debug)]
pub(crate) enum NameError {
    /// They are not UTF-8.
    NoText,
    /// The name exists already.
    Twice,
    /// Memory ran out.
    OutOfMemory,
}

impl From<AllocError> for NameError {
    ghost use Rattle.avro_file.specs.declared.header.properties.NameError.TheVariants.{OutOfMemory};

    ghost from_gives = { λ _ error. error ≡ OutOfMemory };

    fn from(_error: AllocError) -> NameError {
        NameError::OutOfMemory
    }
}

/// Adds a name to the earlier ones.
///
/// # Errors
///
/// It is not UTF-8, or exists already; memory ran out.
pub(crate) fn add_name(
    alloc: Global,
    names: &mut BTreeSet<String>,
    content: &[u8],
) -> Result<String, NameError>
    ensures name { IfOk result (λ name. string_bytes name ≡ content.now) }
    ensures valid { OnOk result (is_utf8 content.now ≡ true) }
    ensures fresh { OnOk result (contains_text names.old content.now ≡ false) }
    ensures added { OnOk result ((word : List ℕ) → contains_text names.new word ≡ cond (bytes_eq content.now word) true (contains_text names.old word)) }
    ensures no_text { result ≡ Err NameError.NoText → is_utf8 content.now ≡ false }
    ensures text { result ≡ Err NameError.Twice → is_utf8 content.now ≡ true }
    ensures twice { result ≡ Err NameError.Twice → contains_text names.old content.now ≡ true }
{
    let Ok(text) = text_of(content) else {
        return Err(NameError::NoText);
    };
    let name = String::from_str(alloc, text)?;
    let kept = String::from_str(alloc, text)?;
    match names.insert(kept) {
        Ok(is_new) => {
            if is_new {
                Ok(name)
            } else {
                Err(NameError::Twice)
            }
        }
        Err(_) => Err(NameError::OutOfMemory),
    }
}

/// The properties so far, with their names in byte order, so that no choice of names makes a lookup slow.
#[derive(Drop)]
pub(crate) struct Properties {
    pub(crate) entries: Vec<(String, Vec<u8>)>,
    pub(crate) names: BTreeSet<String>,
}

/// Takes the name of a property; returns it, and where it ends.
///
/// # Errors
///
/// `InvalidMetadata`, `LimitExceeded`, `CutHeader`; `InputFailed`, `OutOfMemory`.
fn take_name<I: Input>(
    alloc: Global,
    input: &mut I,
    buffer: &mut Buffer,
    at: usize,
    names: &mut BTreeSet<String>,
    reach: Reach,
) -> Result<(String, usize), CopyError>
    requires begins { at ≤ length (held buffer.old) }
    requires small { reach.limit + reach.ahead < 2 ^ 62 }
    requires fits { length (held buffer.old) ≤ reach.limit }
    ensures found { IfOk result (λ r. TakesName names.old names.new at r.1 (held buffer.new) (string_bytes r.0)) }
    ensures within { IfOk result (λ r. length (held buffer.new) ≤ max (length (held buffer.old)) (r.1 + reach.ahead)) }
    ensures took { IfOk result (λ _. Takes I.gives I.failures reach.limit input.old input.new (held buffer.old) (held buffer.new)) }
    ensures lost { IfErr result (λ e. Refused I.gives I.failures reach.limit input.old input.new (held buffer.old) (held buffer.new) e) }
    ensures refused { IfErr result (λ e. (f : FileFault) (keys : List (List ℕ)) → file_fault e ≡ Some f → AreNames names.old keys
        → PartStops reach.limit at (I.ended input.new) (held buffer.new) (KeyBreaks keys (2 ^ 63)) ContentWants f) }
{
    let (start, end) = take_content(input, buffer, at, reach)?;
    let (_, rest) = buffer.bytes().split_at(start);
    let (content, _) = rest.split_at(end - start);
    match add_name(alloc, names, content) {
        Ok(name) => Ok((name, end)),
        Err(NameError::NoText) => Err(CopyError::InvalidMetadata(ReadError::InvalidText {
            place: start,
        })),
        Err(NameError::Twice) => Err(CopyError::InvalidMetadata(ReadError::DuplicateKey {
            place: at,
        })),
        Err(NameError::OutOfMemory) => Err(CopyError::OutOfMemory),
    }
}

/// Adds a property to the earlier ones.
///
/// # Errors
///
/// Memory ran out.
fn add_property(
    alloc: Global,
    properties: &mut Vec<(String, Vec<u8>)>,
    name: String,
    content: &[u8],
) -> Result<(), AllocError>
    ensures added { OnOk result (properties_of properties.new.items ≡ properties_of properties.old.items ++ record { name = string_bytes name; content = content.now } ∷ []) }
    ensures bytes { (i : ℕ) → slice_index content.now i < 2 ^ 8 }
{
    let content = Vec::from_slice(alloc, content)?;
    properties.push((name, content))?;
    Ok(())
}

/// Takes a property and adds it to the earlier ones; returns where it ends.
///
/// # Errors
///
/// `InvalidMetadata`, `LimitExceeded`, `CutHeader`; `InputFailed`, `OutOfMemory`.
fn take_property<I: Input>(
    alloc: Global,
    input: &mut I,
    buffer: &mut Buffer,
    at: usize,
    properties: &mut Properties,
    reach: Reach,
) -> Result<usize, CopyError>
    requires begins { at ≤ length (held buffer.old) }
    requires small { reach.limit + reach.ahead < 2 ^ 62 }
    requires fits { length (held buffer.old) ≤ reach.limit }
    ensures found { IfOk result (λ end. TakesProperty properties.old.names properties.new.names at end (held buffer.new) (properties_of properties.old.entries.items) (properties_of properties.new.entries.items)) }
    ensures within { IfOk result (λ end. length (held buffer.new) ≤ max (length (held buffer.old)) (end + reach.ahead)) }
    ensures took { IfOk result (λ _. Takes I.gives I.failures reach.limit input.old input.new (held buffer.old) (held buffer.new)) }
    ensures lost { IfErr result (λ e. Refused I.gives I.failures reach.limit input.old input.new (held buffer.old) (held buffer.new) e) }
    ensures refused { IfErr result (λ e. (f : FileFault) (left : Left) → file_fault e ≡ Some f → 0 < left.nodes → AreNames properties.old.names left.keys
        → PartStops reach.limit at (I.ended input.new) (held buffer.new) (PropertyBreaks left) (PropertyWants left) f) }
{
    let (name, middle) = take_name(alloc, input, buffer, at, &mut properties.names, reach)?;
    let (start, end) = take_content(input, buffer, middle, reach)?;
    let (_, rest) = buffer.bytes().split_at(start);
    let (content, _) = rest.split_at(end - start);
    add_property(alloc, &mut properties.entries, name, content)?;
    Ok(end)
}

/// Takes `count` properties; returns where they end.
///
/// # Errors
///
/// `InvalidMetadata`, `LimitExceeded`, `CutHeader`; `InputFailed`, `OutOfMemory`.
pub(crate) fn take_properties<I: Input>(
    alloc: Global,
    input: &mut I,
    buffer: &mut Buffer,
    at: usize,
    count: u64,
    properties: &mut Properties,
    reach: Reach,
) -> Result<usize, CopyError>
    requires begins { at ≤ length (held buffer.old) }
    requires small { reach.limit + reach.ahead < 2 ^ 62 }
    requires fits { length (held buffer.old) ≤ reach.limit }
    ensures further { IfOk result (λ end. (at ≤ end) × (end ≤ length (held buffer.new))) }
    ensures found { IfOk result (λ end. (left : Left) → count ≤ left.nodes → AreNames properties.old.names left.keys → are_distinct bytes_eq left.keys ≡ true
        → TakesProperties left properties.new.names count at end (held buffer.new) (properties_of properties.old.entries.items) (properties_of properties.new.entries.items)) }
    ensures within { IfOk result (λ end. length (held buffer.new) ≤ max (length (held buffer.old)) (end + reach.ahead)) }
    ensures took { IfOk result (λ _. Takes I.gives I.failures reach.limit input.old input.new (held buffer.old) (held buffer.new)) }
    ensures lost { IfErr result (λ e. Refused I.gives I.failures reach.limit input.old input.new (held buffer.old) (held buffer.new) e) }
    ensures refused { IfErr result (λ e. (f : FileFault) (left : Left) → file_fault e ≡ Some f → count ≤ left.nodes → AreNames properties.old.names left.keys → are_distinct bytes_eq left.keys ≡ true
        → PartStops reach.limit at (I.ended input.new) (held buffer.new) (RunStops PropertyBreaks left count) (RunStops PropertyWants left count) f) }
{
    let mut end = at;
    let mut done = 0;
    while done < count {
        end = take_property(alloc, input, buffer, end, properties, reach)?;
        done += 1;
    }
    Ok(end)
}
