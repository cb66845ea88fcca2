//! The lines of a file's data: for readers, up to limits, and where a block has a fault.

use crate::escapes::bytes_of;
use crate::files::reader_of;
use crate::words::thirds;
use anyhow::Result;
use avro_container::{FileLimits, ReadInput, WriteOutput};
use avro_lines::show;
use avro_schema::Schema;
use avro_schema_json::ReaderText;
use std::alloc::Global;
use std::io::Write;

/// Tells the lines of a file's data and whether no fault is told, `LIMIT READER FILE`, where no limit and no reader are `-`.
pub(crate) fn put(alloc: Global, text: &str, out: &mut Vec<u8>) -> Result<()> {
    let (limit, reader, escaped) = thirds(text);
    let file = bytes_of(alloc, escaped)?;
    let reader = reader_of(alloc, reader)?;
    let is_good = put_lines(alloc, &file, &reader, limit.parse::<u64>().ok(), out);
    Ok(writeln!(out, "{is_good}")?)
}

/// The schema of a reader, if there is one.
fn schema_of(reader: &Option<ReaderText>) -> Option<&Schema> {
    match reader {
        Some(reader) => Some(reader.schema()),
        None => None,
    }
}

/// Puts the lines of a file. Whether no fault is told.
fn put_lines(
    alloc: Global,
    file: &[u8],
    reader: &Option<ReaderText>,
    limit: Option<u64>,
    out: &mut Vec<u8>,
) -> bool {
    let answer = show(
        alloc,
        &mut ReadInput::new(file),
        &mut WriteOutput::new(out),
        schema_of(reader),
        limit,
        &FileLimits::default(),
    );
    answer.is_ok()
}
