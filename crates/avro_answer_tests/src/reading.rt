//! Blocks: what is taken of a file, and what they return once they failed.

use avro_binary::Tree;
use avro_container::{Block, Blocks, CopyError, FileLimits, Header, ReadInput};
use avro_samples::{FIVE, MARK};
use avro_schema::Datum;
use std::alloc::Global;
use std::test::Fail;

/// Whether a header has the marker, and the text of an int as its only metadata.
fn is_header(header: &Header) -> bool {
    let mut metadata = header.metadata().iter();
    let is_text = match metadata.next() {
        Some((name, content)) => {
            name.as_str() == "avro.schema" && content.as_slice() == b"\"int\"".as_slice()
        }
        None => false,
    };
    is_text && metadata.next().is_none() && *header.sync() == MARK && header.schema().len() == 1
}

/// The header of the file of one int, and how many bytes are left behind it.
fn header_of_five(alloc: Global) -> Result<(Header, usize), CopyError> {
    let mut rest = FIVE;
    let header = Header::read(
        alloc,
        &mut ReadInput::new(&mut rest),
        &FileLimits::default(),
    )?;
    Ok((header, rest.len()))
}

/// Whether a block is of one int, a 5.
fn is_five(block: &Block<'_>) -> Result<bool, CopyError> {
    let data = block.read(None, &mut Tree)?;
    let is_datum = data.as_slice() == [Datum::Int(5)].as_slice();
    Ok(is_datum && block.count() == 1 && block.body() == b"\x0a".as_slice())
}

/// Whether the next block is of one int, a 5, and leaves this number of bytes; or there is none where it is to be the end.
fn is_next(
    blocks: &mut Blocks<'_>,
    rest: &mut &[u8],
    left: Option<usize>,
) -> Result<bool, CopyError> {
    match blocks.next(&mut ReadInput::new(&mut *rest))? {
        Some(block) => Ok(left == Some(rest.len()) && is_five(&block)?),
        None => Ok(left.is_none()),
    }
}

/// The first step, if any, over two blocks and twice over the end that takes something else.
fn wrong_step(blocks: &mut Blocks<'_>, file: &[u8]) -> Result<Option<usize>, CopyError> {
    let mut rest = file;
    for (number, left) in [Some(19), Some(0), None, None].into_iter().enumerate() {
        if !is_next(blocks, &mut rest, left)? {
            return Ok(Some(number));
        }
    }
    Ok(None)
}

/// The same of the block of the file of one int, twice.
fn wrong_of_two(blocks: &mut Blocks<'_>, alloc: Global) -> Result<Option<usize>, CopyError> {
    let (_, block) = FIVE.split_at(40);
    let mut file = block.to_vec(alloc)?;
    file.extend_from_slice(block)?;
    wrong_step(blocks, &file)
}

/// How many bytes are left behind the header, whether it is that of an int, and the first wrong step over two blocks.
fn taken(alloc: Global) -> Result<(usize, bool, Option<usize>), CopyError> {
    let (header, left) = header_of_five(alloc)?;
    let mut blocks = Blocks::new(alloc, &header, &FileLimits::default());
    let wrong = wrong_of_two(&mut blocks, alloc)?;
    Ok((left, is_header(&header), wrong))
}

#[test]
fn no_byte_behind_a_part_is_taken(rt: HostRuntime) -> Result<(), Fail> {
    assert_eq!(rt; taken(rt.alloc())?, (19, true, None));
    Ok(())
}

/// Whether the next block fails so.
fn fails(blocks: &mut Blocks<'_>, input: &mut ReadInput<&[u8]>, wanted: &CopyError) -> bool {
    match blocks.next(input) {
        Ok(_) => false,
        Err(error) => error == *wanted,
    }
}

/// Whether the next block is cut, and each later one has failed before.
fn stay_failed(blocks: &mut Blocks<'_>) -> bool {
    let mut input = ReadInput::new(b"\x02\x02".as_slice());
    fails(blocks, &mut input, &CopyError::CutBlock(0))
        && fails(blocks, &mut input, &CopyError::FailedBefore)
        && fails(blocks, &mut input, &CopyError::FailedBefore)
}

/// The same behind the header of an int.
fn stay_failed_of_five(alloc: Global) -> Result<bool, CopyError> {
    let (header, _) = header_of_five(alloc)?;
    let mut blocks = Blocks::new(alloc, &header, &FileLimits::default());
    Ok(stay_failed(&mut blocks))
}

#[test]
fn blocks_stay_failed(rt: HostRuntime) -> Result<(), Fail> {
    assert!(rt; stay_failed_of_five(rt.alloc())?);
    Ok(())
}
