//! Numbers that are written and read, and those that are limits.

use crate::escapes::{bytes_of, halves};
use crate::words::{number_of, thirds, three_of};
use anyhow::{Result, ensure};
use avro_container::FileLimits;
use avro_judge::JudgeLimits;
use avro_schema::Limits;
use avro_zigzag::{VarError, read_int, read_long, write_long};
use std::alloc::Global;
use std::fmt::Display;
use std::io::Write;

/// Tells a number or its bytes.
pub(crate) fn put(alloc: Global, word: &str, text: &str, out: &mut Vec<u8>) -> Result<()> {
    let bytes = bytes_of(alloc, text)?;
    match word {
        "write_long" => put_written(text.parse::<i64>()?, out),
        "read_long" => put_read(read_long(&bytes), out),
        _ => put_read(read_int(&bytes), out),
    }
}

/// The bytes of a long, which are read again.
fn put_written(value: i64, out: &mut Vec<u8>) -> Result<()> {
    let (bytes, len) = write_long(value);
    let written = &bytes[..len];
    ensure!(
        read_long(written) == Ok((value, len)),
        "another number is read again"
    );
    Ok(out.extend_from_slice(written)?)
}

/// A number and its length, or the refusal.
fn put_read<N: Display + Drop>(
    read: Result<(N, usize), VarError>,
    out: &mut Vec<u8>,
) -> Result<()> {
    match read {
        Ok((number, len)) => Ok(writeln!(out, "{number} {len}")?),
        Err(error) => Ok(writeln!(out, "{error}")?),
    }
}

/// Tells whether numbers are limits, or the limits by default.
pub(crate) fn put_limits(limits: &Limits, word: &str, text: &str, out: &mut Vec<u8>) -> Result<()> {
    if word == "defaults" {
        return put_defaults(out);
    }
    let is_good = match word {
        "judge_limits" => are_judging(limits, text)?,
        _ => are_limits(word, three_of(thirds(text))?),
    };
    Ok(writeln!(out, "{is_good}")?)
}

/// Whether numbers are limits of data or of files.
fn are_limits(word: &str, (first, second, third): (u32, u32, u32)) -> bool {
    if word == "limits" {
        return Limits::new(first, second, third).is_some();
    }
    FileLimits::new(first, second, third, Limits::default()).is_some()
}

/// Whether a number of pairs and a size are limits of judging.
fn are_judging(limits: &Limits, text: &str) -> Result<bool> {
    let (pairs, size) = halves(text);
    Ok(JudgeLimits::new(number_of(pairs)?, number_of(size)?, *limits).is_some())
}

/// The limits of data, of files and of judging by default.
fn put_defaults(out: &mut Vec<u8>) -> Result<()> {
    let data = Limits::default();
    let files = FileLimits::default();
    let judging = JudgeLimits::default();
    writeln!(out, "{} {} {}", data.depth(), data.nodes(), data.blob())?;
    writeln!(
        out,
        "{} {} {}",
        files.header(),
        files.block(),
        files.per_block()
    )?;
    Ok(writeln!(
        out,
        "{} {} {}",
        judging.pairs(),
        judging.size(),
        judging.limits().depth()
    )?)
}
