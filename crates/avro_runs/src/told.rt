//! Steps that tell what the last run wrote.

use crate::steps::Sheet;
use anyhow::Result;
use avro_calls::{bytes_of, halves, text_of};
use serde_json::Value;
use std::alloc::Global;

/// Whether what is not told yet of some bytes begins with others. These are told then.
fn takes(bytes: &[u8], told: &mut usize, wanted: &[u8]) -> bool {
    let rest = bytes.get(*told..).unwrap_or(b"");
    *told = told.saturating_add(wanted.len());
    rest.starts_with(wanted)
}

/// A line of the output or the error, or bytes of the output.
pub(crate) fn told_step(alloc: Global, sheet: &mut Sheet, word: &str, text: &str) -> Result<bool> {
    let mut wanted = bytes_of(alloc, text)?;
    if word != "put" {
        wanted.push(b'\n')?;
    }
    if word == "err" {
        return Ok(takes(&sheet.ran.err.bytes, &mut sheet.err_told, &wanted));
    }
    Ok(takes(&sheet.ran.out.bytes, &mut sheet.out_told, &wanted))
}

/// Whether the next line of some bytes, behind its last carriage return, begins and ends so. It is told then.
fn takes_line(bytes: &[u8], told: &mut usize, front: &str, back: &str) -> bool {
    let rest = str::from_utf8(bytes.get(*told..).unwrap_or(b"")).unwrap_or("");
    let Some((line, _)) = rest.split_once('\n') else {
        return false;
    };
    *told = told.saturating_add(line.len()).saturating_add(1);
    let last = line
        .rsplit_once('\r')
        .map_or(line, |parts| parts.1)
        .trim_end();
    last.starts_with(front) && last.ends_with(back)
}

/// The next line of the error, as it stands at last: how it begins and ends, `FRONT~BACK`.
pub(crate) fn about_step(sheet: &mut Sheet, text: &str) -> bool {
    let (front, back) = text.split_once('~').unwrap_or((text, ""));
    takes_line(&sheet.ran.err.bytes, &mut sheet.err_told, front, back)
}

/// How many writes went to the output and to the error, each of whole lines.
pub(crate) fn writes_step(sheet: &Sheet, text: &str) -> bool {
    let (outs, errs) = halves(text);
    let counts = (outs.parse::<usize>().ok(), errs.parse::<usize>().ok());
    counts == (Some(sheet.ran.out.calls), Some(sheet.ran.err.calls))
        && sheet.ran.out.torn == 0
        && sheet.ran.err.torn == 0
}

/// How many bytes went to the output. They are told by this.
pub(crate) fn size_step(sheet: &mut Sheet, text: &str) -> bool {
    sheet.out_told = sheet.ran.out.bytes.len();
    text.parse::<usize>().ok() == Some(sheet.out_told)
}

/// The output and the error of any bytes.
pub(crate) fn any_step(sheet: &mut Sheet) -> bool {
    sheet.out_told = sheet.ran.out.bytes.len();
    sheet.err_told = sheet.ran.err.bytes.len();
    true
}

/// Whether each line of the output is a JSON object.
pub(crate) fn json_step(alloc: Global, sheet: &Sheet) -> Result<bool> {
    for line in str::from_utf8(&sheet.ran.out.bytes).unwrap_or("").lines() {
        let Ok(value) = Value::from_str(alloc, line) else {
            return Ok(false);
        };
        if !value.is_object() {
            return Ok(false);
        }
    }
    Ok(true)
}

/// The text at a JSON Pointer of a value, or no text.
fn text_at<'a>(value: &'a Value, place: &str) -> &'a str {
    value.pointer(place).and_then(Value::as_str).unwrap_or("")
}

/// The text at a JSON Pointer of the output, `POINTER TEXT`.
pub(crate) fn pointer_step(alloc: Global, sheet: &Sheet, text: &str) -> Result<bool> {
    let (place, escaped) = halves(text);
    let wanted = text_of(alloc, escaped)?;
    let out = str::from_utf8(&sheet.ran.out.bytes).unwrap_or("");
    match Value::from_str(alloc, out) {
        Ok(value) => Ok(text_at(&value, place) == wanted.as_str()),
        Err(_) => Ok(false),
    }
}
