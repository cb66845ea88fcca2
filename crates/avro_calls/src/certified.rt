//! Certificates, histories and refutations.

use crate::datum::datum_of;
use crate::escapes::bytes_of;
use crate::words::thirds;
use anyhow::Result;
use avro_history::HistoryCert;
use avro_judge::{Certificate, check_refutation, confirm};
use avro_schema::{Datum, Schema};
use avro_schema_json::read_schema;
use std::alloc::Global;
use std::io::Write;

/// Tells of a text, `TEXT`, or of a certificate or a datum of two schemas, `WRITER READER TEXT` or `WRITER READER DATUM`.
pub(crate) fn put(alloc: Global, word: &str, text: &str, out: &mut Vec<u8>) -> Result<()> {
    match word {
        "certificate" => put_written(alloc, &certificate_of(alloc, text)?, out),
        "history" => put_history(alloc, text, out),
        _ => put_of(alloc, word, text, out),
    }
}

/// The certificate of an escaped text.
fn certificate_of(alloc: Global, escaped: &str) -> Result<Certificate> {
    let text = bytes_of(alloc, escaped)?;
    Ok(Certificate::read(alloc, &text)?)
}

/// The text of a certificate.
fn put_written(alloc: Global, certificate: &Certificate, out: &mut Vec<u8>) -> Result<()> {
    let written = certificate.write(alloc)?;
    Ok(out.extend_from_slice(&written)?)
}

/// The text of the history of an escaped text.
fn put_history(alloc: Global, escaped: &str, out: &mut Vec<u8>) -> Result<()> {
    let text = bytes_of(alloc, escaped)?;
    let history = HistoryCert::read(alloc, &text)?;
    let written = history.write(alloc)?;
    Ok(out.extend_from_slice(&written)?)
}

/// What is told of two schemas.
fn put_of(alloc: Global, word: &str, text: &str, out: &mut Vec<u8>) -> Result<()> {
    let (writer, reader, rest) = thirds(text);
    let writer = read_schema(alloc, writer.as_bytes())?;
    put_for(alloc, word, &writer, reader, rest, out)
}

/// The same for the text of the reader's schema.
fn put_for(
    alloc: Global,
    word: &str,
    writer: &Schema,
    reader: &str,
    text: &str,
    out: &mut Vec<u8>,
) -> Result<()> {
    let reader = read_schema(alloc, reader.as_bytes())?;
    if word == "confirm" {
        put_confirmed(alloc, writer, &reader, &certificate_of(alloc, text)?, out)
    } else {
        put_refuted(alloc, writer, &reader, &datum_of(alloc, text)?, out)
    }
}

/// The certificate of the approval that a certificate confirms, or `none`.
fn put_confirmed(
    alloc: Global,
    writer: &Schema,
    reader: &Schema,
    certificate: &Certificate,
    out: &mut Vec<u8>,
) -> Result<()> {
    match confirm(alloc, writer, reader, certificate)? {
        Some(confirmed) => put_written(alloc, &confirmed.certificate(alloc)?, out),
        None => Ok(writeln!(out, "none")?),
    }
}

/// The fault of a datum that a refutation has, or `none`.
fn put_refuted(
    alloc: Global,
    writer: &Schema,
    reader: &Schema,
    datum: &Datum,
    out: &mut Vec<u8>,
) -> Result<()> {
    match check_refutation(alloc, writer, reader, datum)? {
        Some(fault) => Ok(writeln!(out, "{fault}")?),
        None => Ok(writeln!(out, "none")?),
    }
}
