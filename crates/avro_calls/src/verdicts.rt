//! Verdicts, taken apart, and what approvals read.

use crate::words::{thirds, three_of};
use anyhow::{Context, Result, bail, ensure};
use avro_binary::Tree;
use avro_judge::{Approved, Cause, Certificate, JudgeLimits, Refutation, Verdict, confirm, judge};
use avro_schema::{Limits, Schema};
use avro_schema_json::read_schema;
use std::alloc::{AllocError, Global};
use std::io::Write;

/// What the approval of two schemas reads, and the one that its certificate confirms.
pub(crate) fn put_approved(
    alloc: Global,
    writer: &Schema,
    reader: &Schema,
    limits: &Limits,
    bytes: &[u8],
    out: &mut Vec<u8>,
) -> Result<()> {
    match judge(alloc, writer, reader, &JudgeLimits::default())? {
        Verdict::Approved(judged) => {
            put_judged(alloc, (writer, reader), &judged, limits, bytes, out)
        }
        _ => bail!("no approval"),
    }
}

/// The same of the approval.
fn put_judged(
    alloc: Global,
    schemas: (&Schema, &Schema),
    judged: &Approved<'_>,
    limits: &Limits,
    bytes: &[u8],
    out: &mut Vec<u8>,
) -> Result<()> {
    let text = read_by(alloc, judged, limits, bytes)?;
    ensure!(
        read_certified(alloc, schemas, judged, limits, bytes)? == text,
        "the certificate's approval reads otherwise"
    );
    Ok(writeln!(out, "{text}")?)
}

/// What the approval reads that the certificate of another confirms.
fn read_certified(
    alloc: Global,
    schemas: (&Schema, &Schema),
    judged: &Approved<'_>,
    limits: &Limits,
    bytes: &[u8],
) -> Result<String> {
    let certificate = judged.certificate(alloc)?;
    read_again(alloc, schemas, &certificate, limits, bytes)
}

/// What an approval reads.
fn read_by(
    alloc: Global,
    approved: &Approved<'_>,
    limits: &Limits,
    bytes: &[u8],
) -> Result<String, AllocError> {
    match approved.read(alloc, bytes, limits, &mut Tree) {
        Ok((datum, len)) => format!(in alloc; "{datum:?} {len}"),
        Err(error) => format!(in alloc; "{error}"),
    }
}

/// What the approval reads that a certificate confirms.
fn read_again(
    alloc: Global,
    (writer, reader): (&Schema, &Schema),
    certificate: &Certificate,
    limits: &Limits,
    bytes: &[u8],
) -> Result<String> {
    match confirm(alloc, writer, reader, certificate)? {
        Some(confirmed) => Ok(read_by(alloc, &confirmed, limits, bytes)?),
        None => bail!("the certificate is not confirmed"),
    }
}

/// Tells the verdict of two schemas, `PAIRS SIZE DEPTH WRITER READER`.
pub(crate) fn put(alloc: Global, text: &str, out: &mut Vec<u8>) -> Result<()> {
    let (pairs, size, others) = thirds(text);
    let (depth, writer, reader) = thirds(others);
    let limits = limits_of(three_of((pairs, size, depth))?)?;
    let writer = read_schema(alloc, writer.as_bytes())?;
    put_for(alloc, &writer, reader, &limits, out)
}

/// The limits of pairs, size and depth.
fn limits_of((pairs, size, depth): (u32, u32, u32)) -> Result<JudgeLimits> {
    let limits = Limits::new(depth, 1_048_576, 1).context("limits")?;
    JudgeLimits::new(pairs, size, limits).context("limits of judging")
}

/// The same for the text of the reader's schema.
fn put_for(
    alloc: Global,
    writer: &Schema,
    reader: &str,
    limits: &JudgeLimits,
    out: &mut Vec<u8>,
) -> Result<()> {
    let reader = read_schema(alloc, reader.as_bytes())?;
    match judge(alloc, writer, &reader, limits)? {
        Verdict::Approved(_) => Ok(writeln!(out, "approved")?),
        Verdict::Refuted(refutation) => put_refutation(&refutation, out),
        Verdict::Undecided(cause) => Ok(writeln!(out, "undecided {}", name_of(cause))?),
    }
}

/// The name of a cause.
fn name_of(cause: Cause) -> &'static str {
    match cause {
        Cause::Pairs => "Pairs",
        Cause::Size => "Size",
        Cause::Depth => "Depth",
    }
}

/// The fault and the datum of a refutation.
fn put_refutation(refutation: &Refutation, out: &mut Vec<u8>) -> Result<()> {
    Ok(writeln!(out, "{} {:?}", refutation.fault, refutation.datum)?)
}
