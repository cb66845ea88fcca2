//! The line of a refused container file.

ghost use Rattle.std.specs.Prelude.{◌≡◌, ◌++◌, OnOk, IfOk};
ghost use Rattle.avro_certificate.specs.CertificateText.{decimal};
ghost use Rattle.avro_tool.specs.ContainerText.{block_text, datum_text, place_text, reason_text, container_text};

use avro_answer::{append_fault, append_reading};
use avro_certificate::append_decimal;
use avro_file::{CopyError, CountError, LimitPlace};
use std::alloc::{AllocError, Global};

/// The line that reports a container as refused, by the word that names its file.
pub(crate) fn container_line(
    alloc: Global,
    word: &str,
    error: &CopyError,
) -> Result<Vec<u8>, AllocError>
    ensures { IfOk result (λ line. line.items ≡ container_text word.now error.now) }
{
    let mut line = Vec::new(alloc);
    line.extend_from_slice(b"avro: ")?;
    line.extend_from_slice(word.as_bytes())?;
    line.extend_from_slice(b": ")?;
    line.extend_from_slice(error.code().as_bytes())?;
    append_place(&mut line, error.place())?;
    append_reason(&mut line, error)?;
    line.push(b'\n')?;
    Ok(line)
}

/// Appends the place of an error, where it is in a block.
fn append_place(text: &mut Vec<u8>, place: LimitPlace) -> Result<(), AllocError>
    ensures { OnOk result (text.new.items ≡ text.old.items ++ place_text place) }
{
    match place {
        LimitPlace::Header => Ok(()),
        LimitPlace::Block(block) => append_block(text, block),
        LimitPlace::Datum(block, datum) => append_datum(text, block, datum),
    }
}

/// Appends the number of a block.
fn append_block(text: &mut Vec<u8>, block: u64) -> Result<(), AllocError>
    ensures { OnOk result (text.new.items ≡ text.old.items ++ block_text block) }
{
    text.extend_from_slice(b" block ")?;
    append_decimal(text, block)
}

/// Appends the numbers of a block and of a datum in it.
fn append_datum(text: &mut Vec<u8>, block: u64, datum: u32) -> Result<(), AllocError>
    ensures { OnOk result (text.new.items ≡ text.old.items ++ datum_text block datum) }
{
    append_block(text, block)?;
    text.extend_from_slice(b" datum ")?;
    append_decimal(text, u64::from(datum))
}

/// Appends the reason of an error, if any, after a colon.
fn append_reason(text: &mut Vec<u8>, error: &CopyError) -> Result<(), AllocError>
    ensures { OnOk result (text.new.items ≡ text.old.items ++ reason_text error.now) }
{
    match error {
        CopyError::InvalidMetadata(error) | CopyError::InvalidDatum(_, _, error) => {
            text.extend_from_slice(b": ")?;
            append_reading(text, *error)
        }
        CopyError::InvalidSchema(error) => {
            text.extend_from_slice(b": ")?;
            text.extend_from_slice(error.code().as_bytes())
        }
        CopyError::InvalidCount(_, CountError::Invalid(error)) => {
            text.extend_from_slice(b": ")?;
            text.extend_from_slice(error.code().as_bytes())
        }
        CopyError::InvalidCount(_, CountError::Negative) => text.extend_from_slice(b": negative"),
        CopyError::UnresolvedDatum(_, _, fault) => {
            text.extend_from_slice(b": ")?;
            append_fault(text, fault)
        }
        _ => Ok(()),
    }
}
