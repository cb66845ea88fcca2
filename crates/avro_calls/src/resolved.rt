//! What a writer's bytes are for a reader.

use crate::escapes::bytes_of;
use crate::readings::put_resolved;
use crate::verdicts::put_approved;
use crate::words::thirds;
use anyhow::{Result, ensure};
use avro_packed::{Appending, append_resolved};
use avro_resolve::{Plan, PlanRef, ReadResolveError, first_match, matches};
use avro_schema::{Limits, Schema};
use avro_schema_json::read_schema;
use std::alloc::{AllocError, Global};
use std::io::Write;

/// Tells of bytes of a writer's for a reader, `WRITER READER BYTES`, or of the two alone.
pub(crate) fn put(
    alloc: Global,
    limits: &Limits,
    word: &str,
    text: &str,
    out: &mut Vec<u8>,
) -> Result<()> {
    let (writer, reader, escaped) = thirds(text);
    let bytes = bytes_of(alloc, escaped)?;
    let writer = read_schema(alloc, writer.as_bytes())?;
    let asked = Asked {
        limits,
        word,
        bytes: &bytes,
    };
    put_for(alloc, &writer, reader, &asked, out)
}

/// What is asked of two schemas.
#[derive(Clone, Copy)]
struct Asked<'a> {
    limits: &'a Limits,
    word: &'a str,
    bytes: &'a [u8],
}

/// The same for the text of the reader's schema.
fn put_for(
    alloc: Global,
    writer: &Schema,
    reader: &str,
    asked: &Asked<'_>,
    out: &mut Vec<u8>,
) -> Result<()> {
    let reader = read_schema(alloc, reader.as_bytes())?;
    match asked.word {
        "matches" => put_matches(writer, &reader, out),
        "resolve" => put_resolved(alloc, writer, &reader, asked.limits, asked.bytes, out),
        "append" => put_appended(alloc, writer, &reader, asked, out),
        _ => put_approved(alloc, writer, &reader, asked.limits, asked.bytes, out),
    }
}

/// Whether the roots match, and the first branch of the reader's that does.
fn put_matches(writer: &Schema, reader: &Schema, out: &mut Vec<u8>) -> Result<()> {
    let (w, r) = (writer.root(), reader.root());
    let branch = first_match(writer, w, reader, r);
    Ok(writeln!(out, "{} {branch:?}", matches(writer, w, reader, r))?)
}

/// The same by a plan of the two.
fn put_appended(
    alloc: Global,
    writer: &Schema,
    reader: &Schema,
    asked: &Asked<'_>,
    out: &mut Vec<u8>,
) -> Result<()> {
    let plan = Plan::reached(alloc, writer, reader)?;
    put_planned(alloc, &plan.by_ref(), asked, out)
}

/// How many bytes were read, or the refusal, and what is appended. Where the output has less room, the same is answered and
/// appended, or that there is no room.
fn put_planned(
    alloc: Global,
    plan: &PlanRef<'_>,
    asked: &Asked<'_>,
    out: &mut Vec<u8>,
) -> Result<()> {
    let mut plain = Vec::new(alloc);
    let answer = answer_in(alloc, plan, asked, &mut plain)?;
    let whole = Whole {
        answer: &answer,
        plain: &plain,
    };
    ensure!(
        is_appended(alloc, plan, asked, &whole)?,
        "something else is appended in less room"
    );
    writeln!(out, "{answer}")?;
    Ok(out.extend_from_slice(&plain)?)
}

/// What is answered of bytes where there is room, and what is appended.
#[derive(Clone, Copy)]
struct Whole<'a> {
    answer: &'a str,
    plain: &'a [u8],
}

/// What is answered of bytes into an output that takes all.
fn answer_in(
    alloc: Global,
    plan: &PlanRef<'_>,
    asked: &Asked<'_>,
    out: &mut Vec<u8>,
) -> Result<String, AllocError> {
    let mut scratch = Appending::new(alloc);
    let answer = append_resolved(
        alloc,
        plan,
        asked.bytes,
        asked.limits,
        usize::MAX,
        &mut scratch,
        out,
    );
    answer_text(alloc, answer)
}

/// What is answered of bytes for a reader: how many were read, that the output would be too long, or the refusal.
fn answer_text(
    alloc: Global,
    answer: Result<(bool, usize), ReadResolveError>,
) -> Result<String, AllocError> {
    match answer {
        Ok((true, len)) => format!(in alloc; "{len}"),
        Ok((false, _)) => format!(in alloc; "over"),
        Err(error) => format!(in alloc; "{error}"),
    }
}

/// Whether the whole, or that there is no room, is answered of bytes once, for an output of so many bytes at most. What is
/// refused leaves the output as it was.
fn is_answered(
    alloc: Global,
    plan: &PlanRef<'_>,
    asked: &Asked<'_>,
    whole: &Whole<'_>,
    most: usize,
    scratch: &mut Appending,
    out: &mut Vec<u8>,
) -> Result<bool, AllocError> {
    let end = out.len();
    let answer = append_resolved(alloc, plan, asked.bytes, asked.limits, most, scratch, out);
    let fits = end + whole.plain.len() <= most;
    let wanted = if fits { whole.answer } else { "over" };
    let appended = if fits { whole.plain } else { &[] };
    let (_, behind) = out.split_at(end);
    Ok(answer_text(alloc, answer)?.as_str() == wanted && behind == appended)
}

/// The same twice with one scratch, where the output has just the room for that, or so many bytes less.
fn is_appended_in(
    alloc: Global,
    plan: &PlanRef<'_>,
    asked: &Asked<'_>,
    whole: &Whole<'_>,
    less: usize,
    scratch: &mut Appending,
) -> Result<bool, AllocError> {
    let mut out = Vec::new(alloc);
    let most = (2 * whole.plain.len()).saturating_sub(less);
    let is_first = is_answered(alloc, plan, asked, whole, most, scratch, &mut out)?;
    let is_second = is_answered(alloc, plan, asked, whole, most, scratch, &mut out)?;
    Ok(is_first && is_second)
}

/// The same with a new scratch, for each number of bytes less.
fn is_appended(
    alloc: Global,
    plan: &PlanRef<'_>,
    asked: &Asked<'_>,
    whole: &Whole<'_>,
) -> Result<bool, AllocError> {
    let mut scratch = Appending::new(alloc);
    for less in 0..2 * whole.plain.len() + 1 {
        if !is_appended_in(alloc, plan, asked, whole, less, &mut scratch)? {
            return Ok(false);
        }
    }
    Ok(true)
}
