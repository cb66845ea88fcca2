//! Inputs that end early or fail, and how the copy of an input is put.

use crate::devices::Given;
use crate::steps::{Outcome, outcome_from};
use anyhow::{Result, ensure};
use avro_samples::{NULL_HEADER, NULLS, file_of};
use std::alloc::{AllocError, Global};

/// An output and an error that take all.
const ALL: (usize, usize) = (usize::MAX, usize::MAX);

/// What a pipe of the front of a file of three nulls returns.
fn of_front(len: usize) -> (u8, &'static [u8], &'static [u8]) {
    if len < 4 {
        (3, b"", b"avro: -: C1\n")
    } else if len < NULL_HEADER.len() {
        (3, b"", b"avro: -: C16\n")
    } else if len == NULL_HEADER.len() {
        (0, NULL_HEADER, b"")
    } else if len < NULLS.len() {
        (3, NULL_HEADER, b"avro: -: C16 block 0\n")
    } else {
        (0, NULLS, b"")
    }
}

/// Whether a run of these words over an input ends so.
fn ends_with(
    rt: &HostRuntime,
    line: &str,
    input: &mut Given<'_>,
    (status, out, err): (u8, &[u8], &[u8]),
) -> Result<bool, AllocError> {
    Ok(outcome_from(rt, line, input, ALL)?.is(status, out, err))
}

/// The first number of bytes, if any, where the input is cut and something else is told.
fn wrong_cut(rt: &HostRuntime) -> Result<Option<usize>, AllocError> {
    for len in 0..60 {
        let mut input = Given::all(NULLS.get(..len).unwrap_or(NULLS));
        if !ends_with(rt, "pipe", &mut input, of_front(len))? {
            return Ok(Some(len));
        }
    }
    Ok(None)
}

/// How many bytes of a file an input gives before it fails, how many at once, and what is put of the copy.
const FAILING: [(usize, usize, &[u8]); 6] = [
    (0, 1, b""),
    (3, 1, b""),
    (40, 7, b""),
    (41, 41, NULL_HEADER),
    (58, 58, NULL_HEADER),
    (59, 59, NULLS),
];

/// The bytes of the first row, if any, of which something else is told.
fn wrong_failing(
    rt: &HostRuntime,
    rows: &[(usize, usize, &'static [u8])],
) -> Result<Option<usize>, AllocError> {
    for (len, most, out) in rows {
        let mut input = Given {
            rest: NULLS.get(..*len).unwrap_or(NULLS),
            most: *most,
            fails: true,
            calls: 0,
        };
        let wanted: (u8, &[u8], &[u8]) = (4, out, b"avro: -: cannot read\n");
        if !ends_with(rt, "pipe --counts", &mut input, wanted)? {
            return Ok(Some(*len));
        }
    }
    Ok(None)
}

/// A file of two blocks, each of 65,536 bytes.
fn large_file(alloc: Global) -> Result<Vec<u8>, AllocError> {
    let mut block = Vec::from_slice(alloc, b"\x02\x80\x80\x08")?;
    for _ in 0..65_536 {
        block.push(0)?;
    }
    file_of(
        alloc,
        r#"{"type":"fixed","name":"F","size":65536}"#,
        &[&block, &block],
    )
}

/// Whether a run put a file, told how many data it has, and made these writes.
fn is_put_whole(found: &Outcome, file: &[u8], writes: (usize, usize)) -> bool {
    found.is(0, file, b"data 2 blocks 2\n") && (found.out.calls, found.err.calls) == writes
}

/// Whether a file is put in three writes, and read in a few calls.
fn is_put(rt: &HostRuntime, file: &[u8]) -> Result<bool, AllocError> {
    let mut input = Given::all(file);
    let found = outcome_from(rt, "pipe --counts", &mut input, ALL)?;
    Ok(is_put_whole(&found, file, (3, 1)) && input.calls < 8)
}

/// The same of the file of two blocks.
fn are_blocks_put(rt: &HostRuntime) -> Result<bool, AllocError> {
    let file = large_file(rt.alloc())?;
    is_put(rt, &file)
}

/// Whether a copy is good though the error takes only three bytes of its numbers.
fn is_good_untold(rt: &HostRuntime) -> Result<bool, AllocError> {
    let mut input = Given::all(NULLS);
    let found = outcome_from(rt, "pipe --counts", &mut input, (usize::MAX, 3))?;
    Ok(found.is(0, NULLS, b"dat"))
}

/// Tests what is told of inputs that end early or fail, and how a copy is put.
///
/// # Errors
///
/// One of them is told otherwise, or memory ran out.
pub(crate) fn check_inputs(rt: &HostRuntime) -> Result<()> {
    ensure!(wrong_cut(rt)?.is_none(), "a cut input");
    ensure!(
        wrong_failing(rt, &FAILING)?.is_none(),
        "an input that fails"
    );
    ensure!(are_blocks_put(rt)?, "blocks are put in whole writes");
    ensure!(is_good_untold(rt)?, "numbers that are not told");
    println!(rt; "inputs")?;
    Ok(())
}
