//! Schema texts.

use std::alloc::{AllocError, Global};

/// A schema text, or how to build one and how large.
#[derive(Clone, Copy)]
pub enum Text {
    /// This text.
    Plain(&'static str),
    /// An int, padded with blanks to this length.
    Padded(usize),
    /// A record of this many int fields.
    Ints(u32),
    /// A record of unions, with a default of this depth that fits no branch.
    Defaults(u32),
    /// This many records, each of which contains the previous one twice.
    Doubled(u32),
    /// A union of this many records, each of which contains the previous one.
    Chain(u32),
}

/// Builds the text.
///
/// # Errors
///
/// Memory ran out.
pub fn built(alloc: Global, text: Text) -> Result<String, AllocError> {
    match text {
        Text::Plain(text) => String::from_str(alloc, text),
        Text::Padded(len) => padded_int(alloc, len),
        Text::Ints(count) => record_of_ints(alloc, count),
        Text::Defaults(depth) => unions_with_default(alloc, depth),
        Text::Doubled(count) => doubled(alloc, count),
        Text::Chain(count) => chain(alloc, count),
    }
}

/// The text of an int, padded with blanks to a length.
fn padded_int(alloc: Global, len: usize) -> Result<String, AllocError> {
    let mut text = String::from_str(alloc, "\"int\"")?;
    for _ in text.len()..len {
        text.push(' ')?;
    }
    Ok(text)
}

/// A record of this many int fields.
fn record_of_ints(alloc: Global, fields: u32) -> Result<String, AllocError> {
    let mut text = String::from_str(alloc, r#"{"type":"record","name":"R","fields":["#)?;
    for number in 0..fields {
        if number > 0 {
            text.push(',')?;
        }
        let field = format!(in alloc; "{{\"name\":\"f{number}\",\"type\":\"int\"}}")?;
        text.push_str(field.as_str())?;
    }
    text.push_str("]}")?;
    Ok(text)
}

/// A record whose second field is a union of two records, each with a field that is a union of both. The field's default
/// is `depth` nested objects around a number that fits no branch.
fn unions_with_default(alloc: Global, depth: u32) -> Result<String, AllocError> {
    let mut text = String::from_str(
        alloc,
        r#"{"type":"record","name":"O","fields":[{"name":"a","type":{"type":"record","name":"A","fields":[{"name":"f","type":["A",{"type":"record","name":"B","fields":[{"name":"f","type":["A","B"]}]}]}]}},{"name":"x","type":["A","B"],"default":"#,
    )?;
    for _ in 0..depth {
        text.push_str("{\"f\":")?;
    }
    text.push_str("3")?;
    for _ in 0..depth {
        text.push_str("}")?;
    }
    text.push_str("}]}")?;
    Ok(text)
}

/// Records, each of which contains the previous one twice. The first contains an enum of one symbol.
fn doubled(alloc: Global, count: u32) -> Result<String, AllocError> {
    let mut text = String::from_str(
        alloc,
        r#"{"type":"record","name":"R0","fields":[{"name":"f","type":{"type":"enum","name":"E","symbols":["S"]}}]}"#,
    )?;
    for number in 1..=count {
        let before = number.saturating_sub(1);
        text = format!(in alloc;
            "{{\"type\":\"record\",\"name\":\"R{number}\",\"fields\":[{{\"name\":\"a\",\"type\":{text}}},{{\"name\":\"b\",\"type\":\"R{before}\"}}]}}"
        )?;
    }
    Ok(text)
}

/// A union of records: the first without fields, each later one with a field of the previous one.
fn chain(alloc: Global, count: u32) -> Result<String, AllocError> {
    let mut text = String::from_str(alloc, r#"[{"type":"record","name":"A0","fields":[]}"#)?;
    for number in 1..count {
        let before = number.saturating_sub(1);
        let record = format!(in alloc;
            ",{{\"type\":\"record\",\"name\":\"A{number}\",\"fields\":[{{\"name\":\"f\",\"type\":\"A{before}\"}}]}}"
        )?;
        text.push_str(record.as_str())?;
    }
    text.push_str("]")?;
    Ok(text)
}
