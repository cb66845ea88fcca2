//! What reading, checking and copying a container file return.

use crate::escapes::bytes_of;
use crate::words::{thirds, three_of};
use anyhow::{Context, Result, ensure};
use avro_binary::Nothing;
use avro_container::{
    Block, Blocks, CopyError, Counts, FileLimits, Header, Input, ReadInput, WriteOutput, check,
    copy,
};
use avro_file::Checker;
use avro_schema::Limits;
use avro_schema_json::{ReaderText, SchemaError};
use std::alloc::{AllocError, Global};
use std::io::Write;

/// Tells what reading and copying a file return, `HEADER BLOCK PER_BLOCK READER FILE`, where no reader is `-`.
pub(crate) fn put(alloc: Global, text: &str, out: &mut Vec<u8>) -> Result<()> {
    let (header, block, others) = thirds(text);
    let (per_block, reader, escaped) = thirds(others);
    let (header, block, per_block) = three_of((header, block, per_block))?;
    let limits = FileLimits::new(header, block, per_block, Limits::default()).context("no limits")?;
    let file = bytes_of(alloc, escaped)?;
    put_file(alloc, &file, reader, &limits, out)
}

/// The same of a file.
fn put_file(
    alloc: Global,
    file: &[u8],
    reader: &str,
    limits: &FileLimits,
    out: &mut Vec<u8>,
) -> Result<()> {
    let reader = reader_of(alloc, reader)?;
    let read = answer_text(alloc, read_all(alloc, file, reader.as_ref(), limits))?;
    ensure!(
        reader.is_some() || is_checked(alloc, file, limits, &read)?,
        "checking returns something else"
    );
    writeln!(out, "{read}")?;
    put_answer(copy_all(alloc, file, reader.as_ref(), limits), out)
}

/// A reader's text, where there is one.
pub(crate) fn reader_of(alloc: Global, text: &str) -> Result<Option<ReaderText>, SchemaError> {
    if text == "-" {
        return Ok(None);
    }
    let reader = ReaderText::read(alloc, text.as_bytes())?;
    Ok(Some(reader))
}

/// A result for a file.
fn put_answer(answer: Result<Counts, CopyError>, out: &mut Vec<u8>) -> Result<()> {
    match answer {
        Ok(counts) => Ok(writeln!(out, "data {} blocks {}", counts.items, counts.blocks)?),
        Err(error) => Ok(writeln!(out, "{error}")?),
    }
}

/// The same as text.
fn answer_text(alloc: Global, answer: Result<Counts, CopyError>) -> Result<String, AllocError> {
    match answer {
        Ok(counts) => format!(in alloc; "data {} blocks {}", counts.items, counts.blocks),
        Err(error) => format!(in alloc; "{error}"),
    }
}

/// Whether checking a file returns this, by `check` and block by block.
fn is_checked(
    alloc: Global,
    file: &[u8],
    limits: &FileLimits,
    wanted: &str,
) -> Result<bool, AllocError> {
    let whole = answer_text(alloc, check(alloc, &mut ReadInput::new(file), limits))?;
    let blocks = answer_text(alloc, check_all(alloc, file, limits))?;
    Ok(whole.as_str() == wanted && blocks.as_str() == wanted)
}

/// No block and no datum.
const NONE: Counts = Counts {
    items: 0,
    blocks: 0,
};

/// One block more, of this number of data.
fn with_block(counts: Counts, items: u64) -> Counts {
    Counts {
        items: counts.items.saturating_add(items),
        blocks: counts.blocks.saturating_add(1),
    }
}

/// How many data are read of a block.
fn items_of(block: &Block<'_>, reader: Option<&ReaderText>) -> Result<u64, CopyError> {
    Ok(block.read(reader, &mut Nothing)?.len() as u64)
}

/// Reads all data of all blocks.
fn read_blocks<I: Input>(
    input: &mut I,
    blocks: &mut Blocks<'_>,
    reader: Option<&ReaderText>,
) -> Result<Counts, CopyError> {
    let mut counts = NONE;
    for _ in 0..100 {
        let Some(block) = blocks.next(input)? else {
            break;
        };
        counts = with_block(counts, items_of(&block, reader)?);
    }
    Ok(counts)
}

/// Reads all data of a file.
fn read_all(
    alloc: Global,
    file: &[u8],
    reader: Option<&ReaderText>,
    limits: &FileLimits,
) -> Result<Counts, CopyError> {
    let mut input = ReadInput::new(file);
    let header = Header::read(alloc, &mut input, limits)?;
    let mut blocks = Blocks::new(alloc, &header, limits);
    read_blocks(&mut input, &mut blocks, reader)
}

/// Copies a file.
fn copy_all(
    alloc: Global,
    file: &[u8],
    reader: Option<&ReaderText>,
    limits: &FileLimits,
) -> Result<Counts, CopyError> {
    let mut out = Vec::new(alloc);
    let mut output = WriteOutput::new(&mut out);
    copy(
        alloc,
        &mut ReadInput::new(file),
        &mut output,
        reader,
        None,
        limits,
    )
}

/// Checks a block by a checker and by itself, and counts its data.
fn check_block(checker: &mut Checker<'_>, block: &Block<'_>) -> Result<u64, CopyError> {
    checker.check(block)?;
    block.check()?;
    Ok(u64::from(block.count()))
}

/// Checks all blocks, each by one checker and by itself.
fn check_blocks<I: Input>(
    input: &mut I,
    blocks: &mut Blocks<'_>,
    checker: &mut Checker<'_>,
) -> Result<Counts, CopyError> {
    let mut counts = NONE;
    for _ in 0..100 {
        let Some(block) = blocks.next(input)? else {
            break;
        };
        counts = with_block(counts, check_block(checker, &block)?);
    }
    Ok(counts)
}

/// Checks the data of a file.
fn check_all(alloc: Global, file: &[u8], limits: &FileLimits) -> Result<Counts, CopyError> {
    let mut input = ReadInput::new(file);
    let header = Header::read(alloc, &mut input, limits)?;
    let mut blocks = Blocks::new(alloc, &header, limits);
    let mut checker = Checker::new(alloc, &header, limits);
    check_blocks(&mut input, &mut blocks, &mut checker)
}
