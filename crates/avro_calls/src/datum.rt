//! Data in words, of which each makes a datum of those before it.

use crate::encoded::put_encoded;
use crate::escapes::{bytes_of, halves, text_of};
use crate::words::number_of;
use anyhow::{Result, bail};
use avro_packed::Packed;
use avro_resolve::Build;
use avro_schema::{Datum, Schema, depth, fits, size};
use avro_schema_json::{read_schema, show};
use std::alloc::Global;
use std::io::Write;

/// The datum of a text's words: `null`, `bool:true`, `int:1`, `long:1`, `enum:1`, `bytes:b`, `str:t` and `fixed:b` stand for
/// themselves; `union:1` is a branch of the one before, and `array:2`, `record:2` and `map:a,b` have as many of those before.
pub(crate) fn datum_of(alloc: Global, text: &str) -> Result<Datum> {
    let mut data = Vec::new(alloc);
    for word in text.split_whitespace() {
        let (kind, rest) = word.split_once(':').unwrap_or((word, ""));
        let datum = made(alloc, kind, rest, &mut data)?;
        data.push(datum)?;
    }
    last_of(&mut data)
}

/// The last datum, which is taken away.
fn last_of(data: &mut Vec<Datum>) -> Result<Datum> {
    match data.pop() {
        Some(datum) => Ok(datum),
        None => bail!("no datum"),
    }
}

/// The datum of a word.
fn made(alloc: Global, kind: &str, text: &str, data: &mut Vec<Datum>) -> Result<Datum> {
    match kind {
        "null" => Ok(Datum::Null),
        "bool" => Ok(Datum::Bool(text == "true")),
        "int" => Ok(Datum::Int(text.parse::<i32>()?)),
        "long" => Ok(Datum::Long(text.parse::<i64>()?)),
        "enum" => Ok(Datum::Enum(number_of(text)?)),
        "bytes" => Ok(Datum::Bytes(bytes_of(alloc, text)?)),
        "str" => Ok(Datum::Str(text_of(alloc, text)?)),
        "fixed" => Ok(Datum::Fixed(bytes_of(alloc, text)?)),
        _ => whole(alloc, kind, text, data),
    }
}

/// The datum of a word that has others.
fn whole(alloc: Global, kind: &str, text: &str, data: &mut Vec<Datum>) -> Result<Datum> {
    match kind {
        "union" => branch(alloc, number_of(text)?, data),
        "array" => Ok(Datum::Array(taken(number_of(text)?, data)?)),
        "record" => Ok(Datum::Record(taken(number_of(text)?, data)?)),
        "map" => Ok(Datum::Map(entries(alloc, text, data)?)),
        _ => bail!("no datum is a {kind}"),
    }
}

/// A branch that is the last datum.
fn branch(alloc: Global, number: u32, data: &mut Vec<Datum>) -> Result<Datum> {
    let datum = last_of(data)?;
    Ok(Datum::Union(number, Box::new(alloc, datum)?))
}

/// The last data, so many.
fn taken(count: u32, data: &mut Vec<Datum>) -> Result<Vec<Datum>> {
    let count = count as usize;
    if count > data.len() {
        bail!("too few data");
    }
    Ok(data.split_off(data.len() - count)?)
}

/// The last data by their keys, of which the last stands first.
fn entries(alloc: Global, keys: &str, data: &mut Vec<Datum>) -> Result<Vec<(String, Datum)>> {
    let mut entries = Vec::new(alloc);
    for key in keys.split(',') {
        if !key.is_empty() {
            let value = last_of(data)?;
            entries.push((String::from_str(alloc, key)?, value))?;
        }
    }
    Ok(entries)
}

/// Tells of a datum, `SCHEMA DATUM` or `DATUM`.
pub(crate) fn put(alloc: Global, word: &str, text: &str, out: &mut Vec<u8>) -> Result<()> {
    let (json, words) = halves(text);
    match word {
        "default" => put_default(alloc, &datum_of(alloc, text)?, out),
        "measure" => put_measure(&datum_of(alloc, text)?, out),
        _ => put_of(
            alloc,
            word,
            &read_schema(alloc, json.as_bytes())?,
            words,
            out,
        ),
    }
}

/// What a datum in words is for a schema.
fn put_of(
    alloc: Global,
    word: &str,
    schema: &Schema,
    words: &str,
    out: &mut Vec<u8>,
) -> Result<()> {
    let datum = datum_of(alloc, words)?;
    if word == "encode" {
        put_encoded(alloc, schema, &datum, out)
    } else {
        put_fit(alloc, schema, &datum, out)
    }
}

/// The display of a datum that fits the root, or `no`.
fn put_fit(alloc: Global, schema: &Schema, datum: &Datum, out: &mut Vec<u8>) -> Result<()> {
    let root = schema.root();
    if fits(alloc, schema, root, datum)? {
        let shown = show(alloc, schema, root, datum)?;
        Ok(writeln!(out, "{shown}")?)
    } else {
        Ok(writeln!(out, "no")?)
    }
}

/// What is packed of a default.
fn put_default(alloc: Global, datum: &Datum, out: &mut Vec<u8>) -> Result<()> {
    let packed = Packed.default(alloc, datum)?;
    Ok(out.extend_from_slice(&packed)?)
}

/// How many nodes a datum has, on how many levels.
fn put_measure(datum: &Datum, out: &mut Vec<u8>) -> Result<()> {
    Ok(writeln!(out, "{} {}", size(datum), depth(datum))?)
}
