//! The texts of faults of bytes and of resolution.

ghost use Rattle.std.specs.Prelude.{◌≡◌, ◌++◌, codes, flat_map, OnOk};
ghost use Rattle.avro_compare.specs.Seen.{cause_of, fault_of};
ghost use Rattle.avro_certificate.specs.CertificateText.{decimal};
ghost use Rattle.avro_answer.specs.Texts.{kind_text, step_text, path_text, fault_text, reading_text};

use avro_binary::ReadError;
use avro_certificate::append_decimal;
use avro_compare::{Fault, FaultKind};
use std::alloc::AllocError;

/// Appends a fault: its kind, and the way to it.
///
/// # Errors
///
/// Memory ran out.
pub fn append_fault(text: &mut Vec<u8>, fault: &Fault) -> Result<(), AllocError>
    ensures { OnOk result (text.new.items ≡ text.old.items ++ fault_text (fault_of fault.now)) }
{
    append_kind(text, fault.kind)?;
    text.extend_from_slice(b" at ")?;
    append_path(text, &fault.path)
}

/// Appends the kind of a fault.
fn append_kind(text: &mut Vec<u8>, kind: FaultKind) -> Result<(), AllocError>
    ensures { OnOk result (text.new.items ≡ text.old.items ++ kind_text (cause_of kind)) }
{
    text.extend_from_slice(kind.name().as_bytes())?;
    match kind {
        FaultKind::MissingField(index) => {
            text.push(b' ')?;
            append_decimal(text, index as u64)
        }
        FaultKind::NoMatch | FaultKind::NoBranch | FaultKind::NoSymbol | FaultKind::NotUtf8 => {
            Ok(())
        }
    }
}

/// Appends the way to a fault.
fn append_path(text: &mut Vec<u8>, path: &[usize]) -> Result<(), AllocError>
    ensures { OnOk result (text.new.items ≡ text.old.items ++ path_text path.now) }
{
    if path.is_empty() {
        return text.extend_from_slice(b"/");
    }
    append_steps(text, path)
}

/// Appends each step of a way.
fn append_steps(text: &mut Vec<u8>, path: &[usize]) -> Result<(), AllocError>
    ensures { OnOk result (text.new.items ≡ text.old.items ++ flat_map step_text path.now) }
{
    for step in path {
        append_step(text, *step)?;
    }
    Ok(())
}

/// Appends a step.
fn append_step(text: &mut Vec<u8>, step: usize) -> Result<(), AllocError>
    ensures { OnOk result (text.new.items ≡ text.old.items ++ step_text step) }
{
    text.push(b'/')?;
    append_decimal(text, step as u64)
}

/// Appends why bytes cannot be read: the code, and the offset of the part that fails.
///
/// # Errors
///
/// Memory ran out.
pub fn append_reading(text: &mut Vec<u8>, error: ReadError) -> Result<(), AllocError>
    ensures { OnOk result (text.new.items ≡ text.old.items ++ reading_text error) }
{
    text.extend_from_slice(error.code().as_bytes())?;
    match error.place() {
        Some(place) => append_at(text, place),
        None => Ok(()),
    }
}

/// Appends an offset.
fn append_at(text: &mut Vec<u8>, place: usize) -> Result<(), AllocError>
    ensures { OnOk result (text.new.items ≡ text.old.items ++ (codes " at " ++ decimal place)) }
{
    text.extend_from_slice(b" at ")?;
    append_decimal(text, place as u64)
}
