//! Schemas that are read, with their texts.

use crate::drafts::put_form;
use crate::escapes::halves;
use crate::words::number_of;
use anyhow::{Result, bail, ensure};
use avro_canonical::{canonical, fingerprint, fingerprint_text};
use avro_schema::{Empty, Node, NodeId, RecordNode, Schema};
use avro_schema_json::ReaderText;
use std::alloc::Global;
use std::io::Write;

/// Tells of a schema, `SCHEMA`, or of some of its nodes, `NUMBER SCHEMA`.
pub(crate) fn put(alloc: Global, word: &str, text: &str, out: &mut Vec<u8>) -> Result<()> {
    let (number, json) = match word {
        "empties" | "empty_fields" => halves(text),
        _ => ("0", text),
    };
    match ReaderText::read(alloc, json.as_bytes()) {
        Ok(read) => {
            ensure!(read.text() == json.as_bytes(), "another text is kept");
            put_of(alloc, word, number_of(number)?, read.schema(), out)
        }
        Err(error) => Ok(writeln!(out, "{error}")?),
    }
}

/// The same of a schema that was read.
fn put_of(
    alloc: Global,
    word: &str,
    number: u32,
    schema: &Schema,
    out: &mut Vec<u8>,
) -> Result<()> {
    match word {
        "record" => put_record(schema, out),
        "empties" => put_empties(schema, number, out),
        "empty_fields" => put_empty_fields(schema, number, out),
        "canonical" => put_canonical(alloc, schema, out),
        _ => put_form(alloc, schema, out),
    }
}

/// The form, and the fingerprint in digits and in bytes.
fn put_canonical(alloc: Global, schema: &Schema, out: &mut Vec<u8>) -> Result<()> {
    writeln!(out, "{}", canonical(alloc, schema)?)?;
    writeln!(out, "{}", fingerprint_text(alloc, schema)?)?;
    Ok(out.extend_from_slice(&fingerprint(alloc, schema)?)?)
}

/// The number of nodes and the record that the root is.
fn put_record(schema: &Schema, out: &mut Vec<u8>) -> Result<()> {
    writeln!(out, "{}", schema.len())?;
    match schema.node(schema.root()) {
        Node::Record(record) => put_parts(record, out),
        _ => bail!("no record"),
    }
}

/// The namespace and the simple name of a record and of its aliases, and its fields with their nodes.
fn put_parts(record: &RecordNode, out: &mut Vec<u8>) -> Result<()> {
    writeln!(out, "{} {}", record.name.namespace(), record.name.simple())?;
    for alias in &record.aliases {
        writeln!(out, "{} {}", alias.namespace(), alias.simple())?;
    }
    for field in &record.fields {
        writeln!(out, "{} {}", field.name, field.node.0)?;
    }
    Ok(())
}

/// The nodes and levels of the datum without bytes of each of so many nodes, or `none`.
fn put_empties(schema: &Schema, count: u32, out: &mut Vec<u8>) -> Result<()> {
    for id in 0..count {
        match schema.empty(NodeId(id)) {
            Some(Empty { nodes, depth }) => writeln!(out, "{nodes} {depth}")?,
            None => writeln!(out, "none")?,
        }
    }
    Ok(())
}

/// How many fields without bytes come from each field of a node on, with how many nodes and levels, where they are known.
fn put_empty_fields(schema: &Schema, node: u32, out: &mut Vec<u8>) -> Result<()> {
    for run in schema.empty_fields(NodeId(node)) {
        writeln!(out, "{} {} {}", run.fields, run.nodes, run.depth)?;
    }
    Ok(())
}
