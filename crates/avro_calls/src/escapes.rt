//! The bytes that a text of a sheet stands for.

use anyhow::{Result, bail};
use avro_samples::MARK;
use std::alloc::Global;

/// Puts what a text stands for that follows a backslash: a line's end for `n`, the marker of the sample files for `m`,
/// and a byte for `x` and two hexadecimal digits; then what comes after, as it is.
fn push_escaped(bytes: &mut Vec<u8>, text: &str) -> Result<()> {
    let (kind, rest) = text.as_bytes().split_at(text.len().min(1));
    let (digits, after) = rest.split_at(rest.len().min(2));
    match kind {
        b"n" => bytes.push(b'\n')?,
        b"m" => bytes.extend_from_slice(&MARK)?,
        _ => {
            bytes.push(byte_of(kind, digits)?)?;
            return Ok(bytes.extend_from_slice(after)?);
        }
    }
    Ok(bytes.extend_from_slice(rest)?)
}

/// The byte of an `x` and two hexadecimal digits.
fn byte_of(kind: &[u8], digits: &[u8]) -> Result<u8> {
    let text = str::from_utf8(digits).unwrap_or("");
    match u8::from_str_radix(text, 16) {
        Ok(byte) if kind == b"x".as_slice() && text.len() == 2 => Ok(byte),
        _ => bail!("a backslash takes n, m, or x and two digits"),
    }
}

/// The bytes that a text stands for.
pub fn bytes_of(alloc: Global, text: &str) -> Result<Vec<u8>> {
    let mut bytes = Vec::new(alloc);
    let mut is_first = true;
    for piece in text.split('\\') {
        if is_first {
            bytes.extend_from_slice(piece.as_bytes())?;
        } else {
            push_escaped(&mut bytes, piece)?;
        }
        is_first = false;
    }
    Ok(bytes)
}

/// The text that a text stands for.
pub fn text_of(alloc: Global, text: &str) -> Result<String> {
    let bytes = bytes_of(alloc, text)?;
    match str::from_utf8(&bytes) {
        Ok(text) => Ok(String::from_str(alloc, text)?),
        Err(_) => bail!("words and names are texts"),
    }
}

/// A text up to the first blank, and what comes after that.
pub fn halves(text: &str) -> (&str, &str) {
    text.split_once(' ').unwrap_or((text, ""))
}
