//! What bytes of a schema are: by each reader the same, and their plain encodings.

use crate::escapes::{bytes_of, halves};
use anyhow::{Result, ensure};
use avro_binary::{decode, encode, walk};
use avro_display::show;
use avro_packed::Packed;
use avro_resolve::{Nothing, Tree, read_own};
use avro_schema::{Datum, Limits, Schema};
use avro_schema_json::read_schema;
use std::alloc::Global;
use std::io::Write;

/// What is in the output before a datum is encoded.
const BEFORE: [u8; 2] = [0xaa, 0xbb];

/// Tells what bytes of a schema are, `SCHEMA BYTES`.
pub(crate) fn put(
    alloc: Global,
    limits: &Limits,
    word: &str,
    text: &str,
    out: &mut Vec<u8>,
) -> Result<()> {
    let (json, escaped) = halves(text);
    let bytes = bytes_of(alloc, escaped)?;
    let schema = read_schema(alloc, json.as_bytes())?;
    match word {
        "decode" => put_decoded(alloc, &schema, limits, &bytes, out)?,
        "walk" => {}
        "pack" => return put_packed(alloc, &schema, limits, &bytes, out),
        _ => return put_recoded(alloc, &schema, limits, &bytes, out),
    }
    put_walked(alloc, &schema, limits, &bytes, out)
}

/// What `decode` returns, which is what the builder of trees does: the display and the length, or the refusal.
fn put_decoded(
    alloc: Global,
    schema: &Schema,
    limits: &Limits,
    bytes: &[u8],
    out: &mut Vec<u8>,
) -> Result<()> {
    let root = schema.root();
    ensure!(
        is_built(alloc, schema, limits, bytes),
        "another tree is built"
    );
    match decode(alloc, schema, root, bytes, limits) {
        Ok((datum, len)) => {
            let shown = show(alloc, schema, root, &datum)?;
            Ok(writeln!(out, "{shown} {len}")?)
        }
        Err(error) => Ok(writeln!(out, "{error}")?),
    }
}

/// Whether `decode` returns the same as the builder of trees.
fn is_built(alloc: Global, schema: &Schema, limits: &Limits, bytes: &[u8]) -> bool {
    let built = read_own(alloc, schema, bytes, limits, &mut Tree);
    decode(alloc, schema, schema.root(), bytes, limits) == built
}

/// What `walk` returns, which is what the builder of nothing does: the length, or the refusal.
fn put_walked(
    alloc: Global,
    schema: &Schema,
    limits: &Limits,
    bytes: &[u8],
    out: &mut Vec<u8>,
) -> Result<()> {
    let answer = walk(alloc, schema, schema.root(), bytes, limits);
    let passed = read_own(alloc, schema, bytes, limits, &mut Nothing);
    ensure!(
        passed == answer.map(|len| ((), len)),
        "nothing is built otherwise"
    );
    match answer {
        Ok(len) => Ok(writeln!(out, "{len}")?),
        Err(error) => Ok(writeln!(out, "{error}")?),
    }
}

/// The length, and the plain encoding that is built while the bytes are read.
fn put_packed(
    alloc: Global,
    schema: &Schema,
    limits: &Limits,
    bytes: &[u8],
    out: &mut Vec<u8>,
) -> Result<()> {
    let (packed, len) = read_own(alloc, schema, bytes, limits, &mut Packed)?;
    writeln!(out, "{len}")?;
    Ok(out.extend_from_slice(&packed)?)
}

/// The length, and the encoding of the datum that is decoded.
fn put_recoded(
    alloc: Global,
    schema: &Schema,
    limits: &Limits,
    bytes: &[u8],
    out: &mut Vec<u8>,
) -> Result<()> {
    let (datum, len) = decode(alloc, schema, schema.root(), bytes, limits)?;
    writeln!(out, "{len}")?;
    put_encoded(alloc, schema, &datum, out)
}

/// Two bytes, and behind them the encoding of a datum of the root, or nothing and the refusal.
pub(crate) fn put_encoded(
    alloc: Global,
    schema: &Schema,
    datum: &Datum,
    out: &mut Vec<u8>,
) -> Result<()> {
    out.extend_from_slice(&BEFORE)?;
    match encode(alloc, schema, schema.root(), datum, out) {
        Ok(()) => Ok(()),
        Err(error) => Ok(writeln!(out, "{error}")?),
    }
}
