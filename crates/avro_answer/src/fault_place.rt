//! Where a datum of a writer's schema fails, by the names of the schemas.

use crate::named_place::{field_name, push_all, push_branch};
use crate::type_names::node_at;
use avro_compare::{At, FaultKind, Names, Target, compare};
use avro_judge::{Refutation, Verdict};
use avro_schema::{Datum, Memory, Node, NodeId, Schema};
use std::alloc::{AllocError, Global};

/// Where a fault is, and what is missing there.
#[derive(Drop)]
pub(crate) struct FaultPlace<'a> {
    /// The path down the writer's schema: `$`, then the name of a field, the position of an item or of an
    /// entry, or the branch of a union.
    pub(crate) at: String,
    /// The name of the reader's field, or of the writer's symbol, that is missing.
    pub(crate) missing: Option<&'a str>,
}

/// A part of a writer's datum, its node, and the reader's node that it is for.
#[derive(Clone, Copy)]
struct Part<'a> {
    datum: &'a Datum,
    w: NodeId,
    r: NodeId,
}

/// Where the fault of a verdict is. A verdict without a fault has an empty path.
pub(crate) fn place_of_verdict<'a>(
    alloc: Global,
    writer: &'a Schema,
    reader: &'a Schema,
    verdict: &Verdict<'_>,
) -> Result<FaultPlace<'a>, Memory> {
    match verdict {
        Verdict::Refuted(found) => place_of(alloc, writer, reader, found),
        Verdict::Approved(_) | Verdict::Undecided(_) => Ok(FaultPlace {
            at: String::new(alloc),
            missing: None,
        }),
    }
}

/// Where the fault of a refutation is.
fn place_of<'a>(
    alloc: Global,
    writer: &'a Schema,
    reader: &'a Schema,
    refutation: &Refutation,
) -> Result<FaultPlace<'a>, Memory> {
    let names = Names::new(alloc, writer, reader)?;
    let mut at = String::from_str(alloc, "$")?;
    let mut part = Part {
        datum: &refutation.datum,
        w: writer.root(),
        r: reader.root(),
    };
    for step in &refutation.fault.path {
        push_step(writer, &part, *step, &mut at)?;
        match part_below(alloc, &names, &part, *step)? {
            Some(below) => part = below,
            None => break,
        }
    }
    let missing = match refutation.fault.kind {
        FaultKind::MissingField(index) => missing_field(&names, reader, &part, index),
        FaultKind::NoSymbol => symbol_of(writer, &part),
        _ => None,
    };
    Ok(FaultPlace { at, missing })
}

/// Appends a step down a part: the name of a field, a position, or the branch.
fn push_step(
    writer: &Schema,
    part: &Part<'_>,
    step: usize,
    at: &mut String,
) -> Result<(), AllocError> {
    let Some(node) = node_at(writer, part.w) else {
        return Ok(());
    };
    match part.datum {
        Datum::Record(_) => match field_name(node, step) {
            Some(name) => push_all(at, &[".", name]),
            None => Ok(()),
        },
        Datum::Array(_) => push_position(at, "[", step, "]"),
        Datum::Map(_) => push_position(at, "{", step, "}"),
        Datum::Union(branch, _) => match node.branch(*branch) {
            Some(id) => push_branch(writer, id, at),
            None => Ok(()),
        },
        _ => Ok(()),
    }
}

/// Appends a position between brackets.
fn push_position(
    at: &mut String,
    open: &str,
    position: usize,
    close: &str,
) -> Result<(), AllocError> {
    let text = format!(in *at.allocator(); "{open}{position}{close}")?;
    at.push_str(&text)
}

/// The part of a part's datum that a step leads to.
fn part_below<'a>(
    alloc: Global,
    names: &Names<'_>,
    part: &Part<'a>,
    step: usize,
) -> Result<Option<Part<'a>>, Memory> {
    match part.datum {
        Datum::Union(branch, value) => Ok(branch_below(names, part, *branch, value)),
        Datum::Record(values) => match values.get(step) {
            Some(datum) => field_below(alloc, names, part, step, datum),
            None => Ok(None),
        },
        Datum::Array(items) => Ok(item_below(names, part, items.get(step))),
        Datum::Map(entries) => Ok(value_below(names, part, entries.get(step))),
        _ => Ok(None),
    }
}

/// The value of a union, which is for the same node of the reader's.
fn branch_below<'a>(
    names: &Names<'_>,
    part: &Part<'_>,
    branch: u32,
    value: &'a Datum,
) -> Option<Part<'a>> {
    let w = node_at(names.writer(), part.w)?.branch(branch)?;
    Some(Part {
        datum: value,
        w,
        r: part.r,
    })
}

/// An item of an array, and what it is for.
fn item_below<'a>(names: &Names<'_>, part: &Part<'_>, item: Option<&'a Datum>) -> Option<Part<'a>> {
    let w = node_at(names.writer(), part.w)?.items()?;
    let r = node_at(names.reader(), targeted(names, part))?.items()?;
    Some(Part { datum: item?, w, r })
}

/// A value of a map, and what it is for.
fn value_below<'a>(
    names: &Names<'_>,
    part: &Part<'_>,
    entry: Option<&'a (String, Datum)>,
) -> Option<Part<'a>> {
    let w = node_at(names.writer(), part.w)?.values()?;
    let r = node_at(names.reader(), targeted(names, part))?.values()?;
    Some(Part {
        datum: &entry?.1,
        w,
        r,
    })
}

/// A value of a record, and what it is for.
fn field_below<'a>(
    alloc: Global,
    names: &Names<'_>,
    part: &Part<'_>,
    index: usize,
    datum: &'a Datum,
) -> Result<Option<Part<'a>>, Memory> {
    let records = compare(alloc, names, part.w, targeted(names, part))?;
    for field in &records.fields {
        match field.1 {
            At::Pair(w, r) if field.0 == index => return Ok(Some(Part { datum, w, r })),
            _ => {}
        }
    }
    Ok(None)
}

/// The reader's node that a part is for: the branch that takes it, if it is for a union.
fn targeted(names: &Names<'_>, part: &Part<'_>) -> NodeId {
    match names.target(part.w, part.r) {
        Target::To(_, node) => node,
        Target::Fault(_) => part.r,
    }
}

/// The name of the reader's field at an index, of the record that a part is for.
fn missing_field<'a>(
    names: &Names<'_>,
    reader: &'a Schema,
    part: &Part<'_>,
    index: usize,
) -> Option<&'a str> {
    let record = node_at(reader, targeted(names, part))?;
    field_name(record, index)
}

/// The writer's symbol that a part is.
fn symbol_of<'a>(writer: &'a Schema, part: &Part<'_>) -> Option<&'a str> {
    let Datum::Enum(index) = part.datum else {
        return None;
    };
    let symbol = node_at(writer, part.w)?.symbols()?.get(*index as usize)?;
    Some(symbol.as_str())
}
