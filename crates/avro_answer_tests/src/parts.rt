//! The steps of a copy, and files that are put part by part.

use crate::devices::{Failing, Kept};
use avro_container::{
    Copier, CopyError, Counts, FileLimits, Input, Output, ReadInput, Sink, Step, WriteOutput, copy,
};
use avro_samples::{FIVE, FIVE_COPIED, LONG_OR_INT, MARK, NULLS};
use avro_schema::Limits;
use avro_schema_json::ReaderText;
use std::alloc::{AllocError, Global};
use std::test::Fail;

/// The steps of a copy of the file of three nulls.
const STEPS: [Step; 4] = [Step::Header, Step::Block(3), Step::End, Step::End];

/// The first step, if any, that is another one, or takes ahead what is not the end of the file.
fn wrong_step<I: Input, O: Output>(
    copier: &mut Copier<'_>,
    input: &mut I,
    output: &mut O,
) -> Result<Option<Step>, CopyError> {
    for wanted in STEPS {
        if copier.step(input, output)? != wanted || !NULLS.ends_with(copier.ahead()) {
            return Ok(Some(wanted));
        }
    }
    Ok(None)
}

/// The same into an output, and whether nothing is ahead in the end.
fn steps_into(alloc: Global, out: &mut Vec<u8>) -> Result<(Option<Step>, bool), CopyError> {
    let mut output = WriteOutput::new(out);
    let mut copier = Copier::new(alloc, None, None, &FileLimits::default());
    let wrong = wrong_step(&mut copier, &mut ReadInput::new(NULLS), &mut output)?;
    Ok((wrong, copier.ahead().is_empty()))
}

/// The same, and whether the copy is the file.
fn steps_of_nulls(alloc: Global) -> Result<((Option<Step>, bool), bool), CopyError> {
    let mut out = Vec::new(alloc);
    let found = steps_into(alloc, &mut out)?;
    Ok((found, out.as_slice() == NULLS))
}

#[test]
fn a_copy_has_a_step_for_each_part(rt: HostRuntime) -> Result<(), Fail> {
    assert_eq!(rt; steps_of_nulls(rt.alloc())?, ((None, true), true));
    Ok(())
}

/// Whether an error is shown so.
fn is_shown(alloc: Global, error: &CopyError, text: &str) -> Result<bool, AllocError> {
    Ok(format!(in alloc; "{error}")?.as_str() == text)
}

/// Whether the header is copied, and then the block fails at its limit, and again since it failed before.
fn is_over_limit<I: Input, O: Output>(
    alloc: Global,
    copier: &mut Copier<'_>,
    input: &mut I,
    output: &mut O,
) -> Result<bool, Fail> {
    if copier.step(input, output)? != Step::Header {
        return Ok(false);
    }
    let Err(error) = copier.step(input, output) else {
        return Ok(false);
    };
    let is_again = copier.step(input, output) == Err(CopyError::FailedBefore);
    Ok(is_again && is_shown(alloc, &error, "C9 block 0")?)
}

/// The same of the file of one int for a reader, at a limit of one byte a block.
fn is_five_over_limit(alloc: Global, out: &mut Vec<u8>, reader: &ReaderText) -> Result<bool, Fail> {
    let limits = FileLimits::new(4_194_304, 1, 1, Limits::default()).ok_or("no limits")?;
    let mut output = WriteOutput::new(out);
    let mut copier = Copier::new(alloc, Some(reader), None, &limits);
    is_over_limit(alloc, &mut copier, &mut ReadInput::new(FIVE), &mut output)
}

/// The same, into an output of this front of the copy.
fn is_front_kept(alloc: Global, reader: &ReaderText, front: usize) -> Result<bool, Fail> {
    let mut out = Vec::new(alloc);
    let is_over = is_five_over_limit(alloc, &mut out, reader)?;
    Ok(is_over && out.len() == front && FIVE_COPIED.starts_with(out.as_slice()))
}

/// The same for a long or an int.
fn is_block_limited(alloc: Global) -> Result<bool, Fail> {
    let reader = ReaderText::read(alloc, LONG_OR_INT.as_bytes())?;
    is_front_kept(alloc, &reader, 49)
}

#[test]
fn an_output_block_has_the_limit_of_a_block(rt: HostRuntime) -> Result<(), Fail> {
    assert!(rt; is_block_limited(rt.alloc())?);
    Ok(())
}

/// Copies a file with this marker.
fn copy_with(
    alloc: Global,
    file: &[u8],
    mark: [u8; 16],
    out: &mut Vec<u8>,
) -> Result<Counts, CopyError> {
    let mut output = WriteOutput::new(out);
    let limits = FileLimits::default();
    copy(
        alloc,
        &mut ReadInput::new(file),
        &mut output,
        None,
        Some(mark),
        &limits,
    )
}

/// Whether a file is the one of three nulls with another marker.
fn has_other_mark(file: &[u8]) -> bool {
    let (header, _) = NULLS.split_at(25);
    file.starts_with(header) && file.ends_with(&[7; 16]) && file.len() == 59
}

/// How many data a file has, and whether it is the one of three nulls with its own marker again.
fn copied_back(alloc: Global, file: &[u8]) -> Result<(u64, bool), CopyError> {
    let mut back = Vec::new(alloc);
    let counts = copy_with(alloc, file, MARK, &mut back)?;
    Ok((counts.items, back.as_slice() == NULLS))
}

/// Whether the file of three nulls is copied with another marker, and the same of the copy of that with its own.
fn marked(alloc: Global) -> Result<(bool, (u64, bool)), CopyError> {
    let mut other = Vec::new(alloc);
    copy_with(alloc, NULLS, [7; 16], &mut other)?;
    Ok((has_other_mark(&other), copied_back(alloc, &other)?))
}

#[test]
fn a_marker_is_put_in_place_of_the_files(rt: HostRuntime) -> Result<(), Fail> {
    assert_eq!(rt; marked(rt.alloc())?, (true, (3, true)));
    Ok(())
}

/// Puts a header and two blocks.
fn put_parts(alloc: Global, out: &mut Vec<u8>) -> Result<(), CopyError> {
    let mut output = WriteOutput::new(out);
    let mut sink = Sink::start(alloc, &mut output, &[], [9; 16])?;
    sink.block(&mut output, 1, b"\x0a")?;
    sink.block(&mut output, 64, &[])
}

/// Whether bytes are these parts, each before the marker.
fn are_parts(bytes: &[u8], parts: &[&[u8]]) -> bool {
    let mut rest = bytes;
    for part in parts {
        let Some((front, others)) = rest.split_at_checked(part.len().saturating_add(16)) else {
            return false;
        };
        if !front.starts_with(part) || !front.ends_with(&[9; 16]) {
            return false;
        }
        rest = others;
    }
    rest.is_empty()
}

/// Whether the parts that are put are these.
fn is_put(alloc: Global, parts: &[&[u8]]) -> Result<bool, CopyError> {
    let mut out = Vec::new(alloc);
    put_parts(alloc, &mut out)?;
    Ok(are_parts(&out, parts))
}

#[test]
fn a_sink_puts_parts(rt: HostRuntime) -> Result<(), Fail> {
    let parts = [b"Obj\x01\x00".as_slice(), b"\x02\x02\x0a", b"\x80\x01\x00"];
    assert!(rt; is_put(rt.alloc(), &parts)?);
    Ok(())
}

/// Whether a block fails so.
fn is_block_failed<O: Output>(sink: &mut Sink, output: &mut O, wanted: &CopyError) -> bool {
    match sink.block(output, 1, b"\x0a") {
        Ok(()) => false,
        Err(error) => error == *wanted,
    }
}

/// Whether a sink at a writer that takes a byte a call, and fails in this one, starts only behind its header, and stays failed.
fn is_sink_failed(alloc: Global, call: usize) -> bool {
    let mut output = WriteOutput::new(Kept::new(alloc, Failing::Put(call)));
    match Sink::start(alloc, &mut output, &[], MARK) {
        Ok(mut sink) => {
            call >= 21
                && is_block_failed(&mut sink, &mut output, &CopyError::OutputFailed)
                && is_block_failed(&mut sink, &mut output, &CopyError::FailedBefore)
        }
        Err(error) => call < 21 && error == CopyError::OutputFailed,
    }
}

/// The first call, if any, at which a sink does not fail so.
fn wrong_sink(alloc: Global) -> Option<usize> {
    for call in 0..40 {
        if !is_sink_failed(alloc, call) {
            return Some(call);
        }
    }
    None
}

#[test]
fn a_sink_stays_failed(rt: HostRuntime) {
    assert_eq!(rt; wrong_sink(rt.alloc()), None);
}
