//! What is told of a datum that was read, and of data that are refused.

ghost use Rattle.std.specs.Prelude.{◌≡◌, ◌≢◌, ◌<◌, ◌≤◌, ◌++◌, drop, false, true, length, IfOk, OnOk};
ghost use Rattle.std.specs.Result.{IfErr};
ghost use Rattle.avro_cursor.specs.declared.error.ReadError.{ReadError};
ghost use Rattle.avro_resolve.specs.declared.error.ReadResolveError.TheVariants.{Read};
ghost use Rattle.avro_answer.specs.inside.DatumParts.{before_of, between_of, head_of, tail_of, text_around};
ghost use Rattle.avro_answer.specs.RefusalText.{refusal_text};
ghost use Rattle.avro_answer.specs.DataRead.{error_text};

use crate::faults::{append_fault, append_reading};
use crate::form::Form;
use crate::refusal::refusal_line;
use avro_binary::ReadError;
use avro_certificate::append_decimal;
use avro_resolve::ReadResolveError;
use std::alloc::{AllocError, Global};

/// Appends the text of a datum by its display and the length of its encoding.
pub(crate) fn append_text(
    text: &mut Vec<u8>,
    display: &[u8],
    len: usize,
    form: Form,
) -> Result<(), AllocError>
    ensures { OnOk result (text.new.items ≡ text.old.items ++ text_around form display.now len) }
{
    append_head(text, len, form)?;
    text.extend_from_slice(display)?;
    text.extend_from_slice(tail(form))
}

/// What is before the display of a datum: the length of its encoding.
pub(crate) fn head(alloc: Global, len: usize, form: Form) -> Result<Vec<u8>, AllocError>
    ensures { IfOk result (λ text. text.items ≡ head_of form len) }
{
    let mut text = Vec::new(alloc);
    append_head(&mut text, len, form)?;
    Ok(text)
}

/// Appends what is before the display of a datum.
fn append_head(text: &mut Vec<u8>, len: usize, form: Form) -> Result<(), AllocError>
    ensures { OnOk result (text.new.items ≡ text.old.items ++ head_of form len) }
{
    text.extend_from_slice(before(form))?;
    append_decimal(text, len as u64)?;
    text.extend_from_slice(between(form))
}

/// What is before the length.
fn before(form: Form) -> &'static [u8]
    ensures { result.now ≡ before_of form }
{
    match form {
        Form::Text => b"bytes ",
        Form::Json => b"{\"bytes\":",
    }
}

/// What is between that and the display.
fn between(form: Form) -> &'static [u8]
    ensures { result.now ≡ between_of form }
{
    match form {
        Form::Text => b"\ndatum ",
        Form::Json => b",\"datum\":",
    }
}

/// What is after the display.
pub(crate) fn tail(form: Form) -> &'static [u8]
    ensures { result.now ≡ tail_of form }
{
    match form {
        Form::Text => b"\n",
        Form::Json => b"}\n",
    }
}

/// The line that reports encoded data as refused, by the word that names their file.
///
/// # Errors
///
/// Memory ran out.
pub fn data_refusal(
    alloc: Global,
    word: &str,
    error: &ReadResolveError,
) -> Result<Vec<u8>, AllocError>
    ensures { IfOk result (λ line. line.items ≡ refusal_text word.now (error_text error.now)) }
{
    let mut reason = Vec::new(alloc);
    append_error(&mut reason, error)?;
    refusal_line(alloc, word, &reason)
}

/// Appends why encoded data are refused.
pub(crate) fn append_error(text: &mut Vec<u8>, error: &ReadResolveError) -> Result<(), AllocError>
    ensures { OnOk result (text.new.items ≡ text.old.items ++ error_text error.now) }
{
    match error {
        ReadResolveError::Read(error) => append_reading(text, *error),
        ReadResolveError::Resolve(fault) => append_fault(text, fault),
    }
}

/// Whether an error is that memory ran out.
pub(crate) fn is_memory(error: &ReadResolveError) -> bool
    ensures no { result ≡ false → error.now ≢ Read ReadError.OutOfMemory }
{
    match error {
        ReadResolveError::Read(error) => *error == ReadError::OutOfMemory,
        ReadResolveError::Resolve(_) => false,
    }
}

/// The bytes after a number of them, which are skipped.
///
/// # Errors
///
/// `EndOfInput` at their end if there are not so many.
pub fn behind(bytes: &[u8], skip: usize) -> Result<&[u8], ReadResolveError>
    ensures behind { IfOk result (λ rest. rest.now ≡ drop skip bytes.now) }
    ensures within { IfOk result (λ _. skip ≤ length bytes.now) }
    ensures few { IfErr result (λ _. length bytes.now < skip) }
    ensures end { IfErr result (λ e. e ≡ Read (ReadError.EndOfInput 0)) }
{
    if bytes.len() < skip {
        return Err(ReadResolveError::Read(ReadError::EndOfInput { place: 0 }));
    }
    let (_, rest) = bytes.split_at(skip);
    Ok(rest)
}
