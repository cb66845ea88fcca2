//! Devices that move few bytes a call, and that fail.

use avro_container::{
    Copier, CopyError, DeviceFault, FileLimits, Input, Output, ReadInput, WriteOutput, check, copy,
};
use avro_samples::{FIVE, FIVE_COPIED, LONG_OR_INT};
use avro_schema_json::{ReaderText, SchemaError};
use std::alloc::Global;
use std::io;
use std::io::{Read, Write};
use std::test::Fail;

/// A number of a call that is never made.
const NEVER: usize = 1_000_000;

/// A reader of bytes, which gives up to `size` a call, and fails in one call.
#[derive(Drop)]
struct Source<'a> {
    rest: &'a [u8],
    size: usize,
    calls: usize,
    failing: usize,
}

impl Read for Source<'_> {
    fn read(&mut self, buf: &mut [u8]) -> io::Result<usize> {
        let call = self.calls;
        self.calls = call.saturating_add(1);
        if call == self.failing {
            return Err(io::Error::from(io::ErrorKind::Interrupted));
        }
        let count = self.size.min(self.rest.len()).min(buf.len());
        let (front, rest) = self.rest.split_at(count);
        buf[..count].copy_from_slice(front);
        self.rest = rest;
        Ok(count)
    }
}

/// What a writer does in one call.
#[derive(Clone, Copy, PartialEq, Eq)]
pub(crate) enum Failing {
    Never,
    Put(usize),
    None(usize),
    Flush(usize),
}

/// A writer that keeps one byte a call, and fails in one call. Writes and flushes are counted apart.
#[derive(Drop)]
pub(crate) struct Kept {
    bytes: Vec<u8>,
    calls: usize,
    flushes: usize,
    failing: Failing,
}

impl Kept {
    pub(crate) fn new(alloc: Global, failing: Failing) -> Kept {
        Kept {
            bytes: Vec::new(alloc),
            calls: 0,
            flushes: 0,
            failing,
        }
    }
}

impl Write for Kept {
    fn write(&mut self, buf: &[u8]) -> io::Result<usize> {
        let call = self.calls;
        self.calls = call.saturating_add(1);
        if self.failing == Failing::Put(call) {
            return Err(io::Error::from(io::ErrorKind::Interrupted));
        }
        if self.failing == Failing::None(call) {
            return Ok(0);
        }
        match buf.first() {
            Some(byte) => {
                self.bytes.push(*byte)?;
                Ok(1)
            }
            None => Ok(0),
        }
    }

    fn flush(&mut self) -> io::Result<()> {
        let call = self.flushes;
        self.flushes = call.saturating_add(1);
        if self.failing == Failing::Flush(call) {
            return Err(io::Error::from(io::ErrorKind::StorageFull));
        }
        Ok(())
    }
}

/// A copy of the file of one int, whose input gives up to `size` bytes a call and where one call fails.
fn copied(
    alloc: Global,
    reader: &ReaderText,
    size: usize,
    take: usize,
    failing: Failing,
) -> (Kept, Result<(), CopyError>) {
    let mut source = Source {
        rest: FIVE,
        size,
        calls: 0,
        failing: take,
    };
    let mut kept = Kept::new(alloc, failing);
    let limits = FileLimits::default();
    let mut input = ReadInput::new(&mut source);
    let mut output = WriteOutput::new(&mut kept);
    let answer = copy(alloc, &mut input, &mut output, Some(reader), None, &limits);
    (kept, answer.map(|_| ()))
}

/// Whether the copy is good and whole where the input gives up to `size` bytes a call.
fn is_whole(alloc: Global, reader: &ReaderText, size: usize) -> bool {
    let (kept, answer) = copied(alloc, reader, size, NEVER, Failing::Never);
    answer.is_ok() && kept.bytes.as_slice() == FIVE_COPIED && kept.flushes == 1
}

/// The first number of bytes a call, if any, that gives another copy.
fn wrong_size(alloc: Global) -> Result<Option<usize>, SchemaError> {
    let reader = ReaderText::read(alloc, LONG_OR_INT.as_bytes())?;
    for size in [1, 2, 3, 7, 59] {
        if !is_whole(alloc, &reader, size) {
            return Ok(Some(size));
        }
    }
    Ok(None)
}

#[test]
fn any_cut_gives_the_same_copy(rt: HostRuntime) -> Result<(), Fail> {
    assert_eq!(rt; wrong_size(rt.alloc())?, None);
    Ok(())
}

/// Whether the failure of this call is told, after the bytes of the calls before it, and nothing is called again.
fn is_put_told(alloc: Global, reader: &ReaderText, call: usize, failing: Failing) -> bool {
    let (kept, answer) = copied(alloc, reader, 1, NEVER, failing);
    answer == Err(CopyError::OutputFailed)
        && kept.bytes.len() == call
        && kept.calls == call.saturating_add(1)
        && FIVE_COPIED.starts_with(&kept.bytes)
}

/// Whether the failure of the flush is told, after all bytes.
fn is_flush_told(alloc: Global, reader: &ReaderText) -> bool {
    let (kept, answer) = copied(alloc, reader, 1, NEVER, Failing::Flush(0));
    answer == Err(CopyError::OutputFailed)
        && kept.bytes.as_slice() == FIVE_COPIED
        && kept.flushes == 1
}

/// The first call, if any, whose failure is not told, or the number of calls if that of the flush is not.
fn wrong_put(alloc: Global) -> Result<Option<usize>, SchemaError> {
    let reader = ReaderText::read(alloc, LONG_OR_INT.as_bytes())?;
    for call in 0..69 {
        if !is_put_told(alloc, &reader, call, Failing::Put(call))
            || !is_put_told(alloc, &reader, call, Failing::None(call))
        {
            return Ok(Some(call));
        }
    }
    Ok((!is_flush_told(alloc, &reader)).then_some(69))
}

#[test]
fn failed_puts_are_told(rt: HostRuntime) -> Result<(), Fail> {
    assert_eq!(rt; wrong_put(rt.alloc())?, None);
    Ok(())
}

/// Whether the failure of this call is told, after bytes of the copy, and after none in the header.
fn is_take_told(alloc: Global, reader: &ReaderText, call: usize) -> bool {
    let (kept, answer) = copied(alloc, reader, 1, call, Failing::Never);
    answer == Err(CopyError::InputFailed)
        && FIVE_COPIED.starts_with(&kept.bytes)
        && (call >= 40 || kept.bytes.is_empty())
}

/// The first call, if any, whose failure is not told.
fn wrong_take(alloc: Global) -> Result<Option<usize>, SchemaError> {
    let reader = ReaderText::read(alloc, LONG_OR_INT.as_bytes())?;
    for call in 0..60 {
        if !is_take_told(alloc, &reader, call) {
            return Ok(Some(call));
        }
    }
    Ok(None)
}

#[test]
fn failed_takes_are_told(rt: HostRuntime) -> Result<(), Fail> {
    assert_eq!(rt; wrong_take(rt.alloc())?, None);
    Ok(())
}

/// The first call, if any, whose failure a check does not tell.
fn wrong_checked_take(alloc: Global) -> Option<usize> {
    for call in 0..60 {
        let mut input = ReadInput::new(Source {
            rest: FIVE,
            size: 1,
            calls: 0,
            failing: call,
        });
        let answer = check(alloc, &mut input, &FileLimits::default());
        if answer != Err(CopyError::InputFailed) {
            return Some(call);
        }
    }
    None
}

#[test]
fn failed_takes_of_a_check_are_told(rt: HostRuntime) {
    assert_eq!(rt; wrong_checked_take(rt.alloc()), None);
}

/// Whether of five calls this one alone fails, and the reader is called five times.
fn is_take_one_call(failing: usize) -> bool {
    let mut source = Source {
        rest: FIVE,
        size: 1,
        calls: 0,
        failing,
    };
    let mut input = ReadInput::new(&mut source);
    for call in 0..5 {
        if (input.take(&mut [0; 4]) == Err(DeviceFault)) != (call == failing) {
            return false;
        }
    }
    source.calls == 5
}

/// The first failing call, if any, that is not one call.
fn wrong_single_take() -> Option<usize> {
    for failing in 0..5 {
        if !is_take_one_call(failing) {
            return Some(failing);
        }
    }
    None
}

#[test]
fn a_failed_take_is_one_call(rt: HostRuntime) {
    assert_eq!(rt; wrong_single_take(), None);
}

/// Whether of five puts this one alone fails, and the writer is called five times.
fn is_put_one_call(alloc: Global, failing: usize) -> bool {
    let mut kept = Kept::new(alloc, Failing::Put(failing));
    let mut output = WriteOutput::new(&mut kept);
    for call in 0..5 {
        if (output.put(FIVE) == Err(DeviceFault)) != (call == failing) {
            return false;
        }
    }
    kept.calls == 5 && kept.bytes.len() == 4
}

/// Whether of five flushes this one alone fails, and the writer is flushed five times.
fn is_flush_one_call(alloc: Global, failing: usize) -> bool {
    let mut kept = Kept::new(alloc, Failing::Flush(failing));
    let mut output = WriteOutput::new(&mut kept);
    for call in 0..5 {
        if (output.flush() == Err(DeviceFault)) != (call == failing) {
            return false;
        }
    }
    kept.flushes == 5 && kept.calls == 0
}

/// The first failing call, if any, that is not one call.
fn wrong_single_put(alloc: Global) -> Option<usize> {
    for failing in 0..5 {
        if !is_put_one_call(alloc, failing) || !is_flush_one_call(alloc, failing) {
            return Some(failing);
        }
    }
    None
}

#[test]
fn a_failed_put_or_flush_is_one_call(rt: HostRuntime) {
    assert_eq!(rt; wrong_single_put(rt.alloc()), None);
}

/// Whether steps fail so in the end, and one more has failed before.
fn stays_failed<I: Input, O: Output>(
    copier: &mut Copier<'_>,
    input: &mut I,
    output: &mut O,
    wanted: &CopyError,
) -> bool {
    for _ in 0..4 {
        if let Err(error) = copier.step(input, output) {
            return error == *wanted && is_failed_before(copier, input, output);
        }
    }
    false
}

/// Whether a step has failed before.
fn is_failed_before<I: Input, O: Output>(
    copier: &mut Copier<'_>,
    input: &mut I,
    output: &mut O,
) -> bool {
    match copier.step(input, output) {
        Ok(_) => false,
        Err(error) => error == CopyError::FailedBefore,
    }
}

/// Whether a copier stays failed at devices of which one fails in one call.
fn is_failed(alloc: Global, take: usize, failing: Failing, wanted: &CopyError) -> bool {
    let mut input = ReadInput::new(Source {
        rest: FIVE,
        size: 1,
        calls: 0,
        failing: take,
    });
    let mut output = WriteOutput::new(Kept::new(alloc, failing));
    let mut copier = Copier::new(alloc, None, None, &FileLimits::default());
    stays_failed(&mut copier, &mut input, &mut output, wanted)
}

/// The first call, if any, after whose failure a copier does not stay failed.
fn wrong_failed(alloc: Global) -> Option<usize> {
    for call in 0..60 {
        let put = call.min(58);
        if !is_failed(alloc, call, Failing::Never, &CopyError::InputFailed)
            || !is_failed(alloc, NEVER, Failing::Put(put), &CopyError::OutputFailed)
            || !is_failed(alloc, NEVER, Failing::None(put), &CopyError::OutputFailed)
        {
            return Some(call);
        }
    }
    None
}

#[test]
fn a_copier_stays_failed(rt: HostRuntime) {
    assert_eq!(rt; wrong_failed(rt.alloc()), None);
}
