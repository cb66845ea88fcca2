//! Steps that make files, and that look at them.

use anyhow::Result;
use avro_calls::{bytes_of, halves, text_of};
use avro_samples::{Text, built};
use std::alloc::{AllocError, Global};
use std::fs;
use std::os::unix::fs::symlink;
use std::rt::Files;

/// A schema that is built of this kind and number.
fn kind_of(kind: &str, count: u32) -> Option<Text> {
    match kind {
        "padded" => Some(Text::Padded(count as usize)),
        "ints" => Some(Text::Ints(count)),
        "defaults" => Some(Text::Defaults(count)),
        "doubled" => Some(Text::Doubled(count)),
        "chain" => Some(Text::Chain(count)),
        _ => None,
    }
}

/// A file of a schema that is built, `NAME KIND NUMBER`.
fn built_step<R: Files + AllocGlobal>(rt: &R, name: &str, rest: &str) -> Result<bool> {
    let (kind, count) = halves(rest);
    let Ok(count) = count.parse::<u32>() else {
        return Ok(false);
    };
    let Some(text) = kind_of(kind, count) else {
        return Ok(false);
    };
    fs::write(rt, name, &built(rt.alloc(), text)?)?;
    Ok(true)
}

/// Puts a number behind some bytes.
fn push_number(alloc: Global, bytes: &mut Vec<u8>, number: u32) -> Result<(), AllocError> {
    let digits = number.to_string(alloc)?;
    bytes.extend_from_slice(digits.as_bytes())
}

/// Puts a text behind some bytes, so many times. The first `#` of the text stands for the number of the time.
fn push_times(
    alloc: Global,
    bytes: &mut Vec<u8>,
    part: &str,
    count: u32,
) -> Result<(), AllocError> {
    let (front, back) = part.split_once('#').unwrap_or((part, ""));
    let is_numbered = front.len() < part.len();
    for time in 1..=count {
        bytes.extend_from_slice(front.as_bytes())?;
        if is_numbered {
            push_number(alloc, bytes, time)?;
        }
        bytes.extend_from_slice(back.as_bytes())?;
    }
    Ok(())
}

/// The same behind what a file holds.
fn add_to_file<R: Files + AllocGlobal>(rt: &R, name: &str, part: &str, count: u32) -> Result<()> {
    let mut bytes = fs::read(rt, name)?;
    push_times(rt.alloc(), &mut bytes, part, count)?;
    Ok(fs::write(rt, name, &bytes)?)
}

/// The same of a step, `NAME NUMBER TEXT`.
fn add_step<R: Files + AllocGlobal>(rt: &R, name: &str, rest: &str) -> Result<bool> {
    let (count, escaped) = halves(rest);
    let Ok(count) = count.parse::<u32>() else {
        return Ok(false);
    };
    let part = text_of(rt.alloc(), escaped)?;
    add_to_file(rt, name, &part, count)?;
    Ok(true)
}

/// Whether a file holds this number of lines.
fn has_lines<R: Files + AllocGlobal>(rt: &R, name: &str, count: &str) -> Result<bool> {
    let text = fs::read_to_string(rt, name)?;
    Ok(count.parse::<usize>().ok() == Some(text.lines().count()))
}

/// A step that makes a file of this name or looks at one.
fn named_step<R: Files + AllocGlobal>(rt: &R, word: &str, name: &str, rest: &str) -> Result<bool> {
    match word {
        "file" => fs::write(rt, name, &bytes_of(rt.alloc(), rest)?)?,
        "add" => return add_step(rt, name, rest),
        "built" => return built_step(rt, name, rest),
        "folder" => fs::create_dir(rt, name)?,
        "hard" => fs::hard_link(rt, name, rest)?,
        "soft" => symlink(rt, name, rest)?,
        "holds" => return Ok(fs::read(rt, name)? == bytes_of(rt.alloc(), rest)?),
        "lines" => return has_lines(rt, name, rest),
        "absent" => return Ok(fs::read(rt, name).is_err()),
        _ => return Ok(false),
    }
    Ok(true)
}

/// A step that makes a file or looks at one.
pub(crate) fn file_step<R: Files + AllocGlobal>(rt: &R, word: &str, text: &str) -> Result<bool> {
    let (escaped, rest) = halves(text);
    let name = text_of(rt.alloc(), escaped)?;
    named_step(rt, word, &name, rest)
}
