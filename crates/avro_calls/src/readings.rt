//! A writer's bytes for a reader: by each reading and each builder the same as by `resolve` after `decode`.

use anyhow::{Result, bail, ensure};
use avro_binary::{Nothing, Tree, append_plain, decode};
use avro_packed::Packed;
use avro_resolve::{Plan, ReadResolveError, decode_resolved, read_resolved, resolve};
use avro_schema::{Datum, Limits, NodeId, Schema, fits};
use avro_schema_json::show;
use std::alloc::{AllocError, Global};
use std::io::Write;

/// What a reading returns.
type Read<O> = Result<(O, usize), ReadResolveError>;

/// Bytes, what they are, and the plain encoding of the datum where there is one.
#[derive(Clone, Copy)]
struct Row<'a> {
    limits: &'a Limits,
    bytes: &'a [u8],
    text: &'a str,
    plain: &'a [u8],
}

/// The datum of the reader's and its length, or the refusal, and its plain encoding.
pub(crate) fn put_resolved(
    alloc: Global,
    writer: &Schema,
    reader: &Schema,
    limits: &Limits,
    bytes: &[u8],
    out: &mut Vec<u8>,
) -> Result<()> {
    let mut plain = Vec::new(alloc);
    let text = answer_in(alloc, writer, reader, limits, bytes, &mut plain)?;
    let row = Row {
        limits,
        bytes,
        text: &text,
        plain: &plain,
    };
    refuse_others(alloc, writer, reader, &row)?;
    writeln!(out, "{text}")?;
    Ok(out.extend_from_slice(&plain)?)
}

/// What `resolve` returns after `decode`, and the plain encoding of that.
fn answer_in(
    alloc: Global,
    writer: &Schema,
    reader: &Schema,
    limits: &Limits,
    bytes: &[u8],
    plain: &mut Vec<u8>,
) -> Result<String> {
    match decode(alloc, writer, writer.root(), bytes, limits) {
        Ok((datum, len)) => resolved_in(alloc, writer, reader, &datum, len, plain),
        Err(error) => Ok(format!(in alloc; "{error}")?),
    }
}

/// The same of a datum of this length.
fn resolved_in(
    alloc: Global,
    writer: &Schema,
    reader: &Schema,
    datum: &Datum,
    len: usize,
    plain: &mut Vec<u8>,
) -> Result<String> {
    if !fits(alloc, writer, writer.root(), datum)? {
        bail!("the datum is none of the writer's");
    }
    match resolve(alloc, writer, reader, datum) {
        Ok(resolved) => {
            append_plain(&resolved, plain)?;
            shown(alloc, reader, &resolved, len)
        }
        Err(error) => Ok(format!(in alloc; "{error}")?),
    }
}

/// A datum of the root's display, and a length.
fn shown(alloc: Global, schema: &Schema, datum: &Datum, len: usize) -> Result<String> {
    if fits(alloc, schema, schema.root(), datum)? {
        let display = show(alloc, schema, schema.root(), datum)?;
        Ok(with_length(alloc, display, len)?)
    } else {
        bail!("the datum is none of the schema's")
    }
}

/// A display and a length.
fn with_length(alloc: Global, display: String, len: usize) -> Result<String, AllocError> {
    format!(in alloc; "{display} {len}")
}

/// Whether a reading returns the datum of a row, or the refusal.
fn is_tree(alloc: Global, reader: &Schema, read: &Read<Datum>, row: &Row<'_>) -> Result<bool> {
    let text = match read {
        Ok((datum, len)) => shown(alloc, reader, datum, *len)?,
        Err(error) => format!(in alloc; "{error}")?,
    };
    Ok(text.as_str() == row.text)
}

/// Whether the plain encoding of a datum are these bytes.
fn is_encoded(alloc: Global, datum: &Datum, plain: &[u8]) -> Result<bool, AllocError> {
    let mut encoded = Vec::new(alloc);
    append_plain(datum, &mut encoded)?;
    Ok(encoded.as_slice() == plain)
}

/// Whether the readings of each builder are alike, and what is packed is the plain encoding of the datum, these bytes.
fn are_alike(
    alloc: Global,
    tree: &Read<Datum>,
    packed: &Read<Vec<u8>>,
    walked: &Read<()>,
    plain: &[u8],
) -> Result<bool, AllocError> {
    match (tree, packed, walked) {
        (Ok((datum, len)), Ok((packed, packed_len)), Ok((_, walked_len))) => {
            let is_plain = is_encoded(alloc, datum, plain)? && packed.as_slice() == plain;
            Ok(is_plain && len == packed_len && len == walked_len)
        }
        (Err(read), Err(packed), Err(walked)) => Ok(read == packed && read == walked),
        _ => Ok(false),
    }
}

/// Whether the readings of each builder return what a row says.
fn is_answer(
    alloc: Global,
    reader: &Schema,
    row: &Row<'_>,
    readings: (&Read<Datum>, &Read<Vec<u8>>, &Read<()>),
) -> Result<bool> {
    let (tree, packed, walked) = readings;
    let is_row = is_tree(alloc, reader, tree, row)?;
    Ok(is_row && are_alike(alloc, tree, packed, walked, row.plain)?)
}

/// Whether a plan's readings return it.
fn is_planned(alloc: Global, plan: &Plan<'_>, reader: &Schema, row: &Row<'_>) -> Result<bool> {
    let tree = plan.read(alloc, row.bytes, row.limits, &mut Tree);
    let packed = plan.read(alloc, row.bytes, row.limits, &mut Packed);
    let walked = plan.read(alloc, row.bytes, row.limits, &mut Nothing);
    is_answer(alloc, reader, row, (&tree, &packed, &walked))
}

/// Whether the readings without a plan return it.
fn is_read(alloc: Global, writer: &Schema, reader: &Schema, row: &Row<'_>) -> Result<bool> {
    let tree = decode_resolved(alloc, writer, reader, row.bytes, row.limits);
    let packed = read_resolved(alloc, writer, reader, row.bytes, row.limits, &mut Packed);
    let walked = read_resolved(alloc, writer, reader, row.bytes, row.limits, &mut Nothing);
    is_answer(alloc, reader, row, (&tree, &packed, &walked))
}

/// Whether the readings return it by a plan of these pairs.
fn is_read_by(
    alloc: Global,
    writer: &Schema,
    reader: &Schema,
    pairs: &[(NodeId, NodeId)],
    row: &Row<'_>,
) -> Result<bool> {
    let plan = Plan::new(alloc, writer, reader, pairs)?;
    is_planned(alloc, &plan, reader, row)
}

/// Whether the readings return it by a plan of the pairs that the roots lead to.
fn is_read_by_reached(
    alloc: Global,
    writer: &Schema,
    reader: &Schema,
    row: &Row<'_>,
) -> Result<bool> {
    let plan = Plan::reached(alloc, writer, reader)?;
    is_planned(alloc, &plan, reader, row)
}

/// Pairs of the numbers of nodes, some of which no schema of the sheets has.
fn all_pairs(alloc: Global) -> Result<Vec<(NodeId, NodeId)>, AllocError> {
    let mut pairs = Vec::new(alloc);
    for w in 0..10 {
        for r in 0..10 {
            pairs.push((NodeId(w), NodeId(r)))?;
        }
    }
    Ok(pairs)
}

/// The roots.
const ROOTS: (NodeId, NodeId) = (NodeId(0), NodeId(0));

/// Some pairs, repeatedly.
const AGAIN: [(NodeId, NodeId); 4] = [ROOTS, (NodeId(1), NodeId(1)), ROOTS, ROOTS];

/// Whether the readings return it by a plan of all pairs.
fn is_read_by_all(alloc: Global, writer: &Schema, reader: &Schema, row: &Row<'_>) -> Result<bool> {
    let all = all_pairs(alloc)?;
    is_read_by(alloc, writer, reader, &all, row)
}

/// Refuses readings that return something else: without a plan, and with plans of no pair, of all pairs, of some of them
/// repeatedly, and of those that the roots lead to.
fn refuse_others(alloc: Global, writer: &Schema, reader: &Schema, row: &Row<'_>) -> Result<()> {
    ensure!(is_read(alloc, writer, reader, row)?, "without a plan");
    ensure!(is_read_by(alloc, writer, reader, &[], row)?, "no pair");
    ensure!(is_read_by_all(alloc, writer, reader, row)?, "all pairs");
    ensure!(
        is_read_by(alloc, writer, reader, &AGAIN, row)?,
        "pairs repeatedly"
    );
    ensure!(
        is_read_by_reached(alloc, writer, reader, row)?,
        "the pairs that were reached"
    );
    Ok(())
}
