//! Files that a run would spoil: those that are standard output or standard error, those that are read and written too, and those
//! that hold a schema and are written.

ghost use Rattle.std.specs.Result.{IfErr};
ghost use Rattle.avro_tool.specs.TextsRefused.{RefusesNothing};

use crate::failure::Failure;
use crate::files::schema::TEXT_READ;
use crate::files::texts::Texts;
use crate::request::Request;
use avro_schema_json::{SchemaError, read_schema};
use std::fs::Metadata;
use std::os::unix::fs::{FileTypeExt, MetadataExt};
use std::rt::Files;
use std::{fs, io};

/// The file that standard input is.
pub(crate) const STANDARD_INPUT: &str = "/dev/stdin";

/// The file that standard output is.
const STANDARD_OUTPUT: &str = "/dev/stdout";

/// The file that standard error is.
const STANDARD_ERROR: &str = "/dev/stderr";

/// The regular files that standard output and standard error are.
#[derive(Drop)]
struct Streams {
    output: Option<Metadata>,
    error: Option<Metadata>,
}

/// Refuses a request by which a file of its words would be spoiled.
pub(crate) fn refuse_files<'a, T: Texts, R: Files + AllocGlobal>(
    texts: &T,
    rt: &R,
    request: &Request<'a>,
) -> Result<(), Failure<'a>>
    ensures { IfErr result RefusesNothing }
{
    let read = request.files_read(rt.alloc())?;
    refuse_streams(rt, request, &read)?;
    refuse_pipe(rt, request)?;
    let [first, second] = request.files_written();
    refuse_read_file(rt, request, first, &read)?;
    refuse_read_file(rt, request, second, &read)?;
    refuse_schema_file(texts, rt, first)?;
    refuse_schema_file(texts, rt, second)
}

/// Refuses files that standard output is, or standard error where more than an error goes there.
fn refuse_streams<'a, R: Files>(
    rt: &R,
    request: &Request<'a>,
    read: &[&'a str],
) -> Result<(), Failure<'a>>
    ensures { IfErr result RefusesNothing }
{
    let streams = Streams {
        output: regular_file(rt, STANDARD_OUTPUT)?,
        error: regular_file(rt, STANDARD_ERROR)?,
    };
    if streams.output.is_none() && streams.error.is_none() {
        return Ok(());
    }
    for word in read {
        refuse_stream(rt, request, &streams, Some(word))?;
    }
    let [first, second] = request.files_written();
    refuse_stream(rt, request, &streams, first)?;
    refuse_stream(rt, request, &streams, second)?;
    match request {
        Request::Pipe(_) if request.is_told() && is_one(&streams.output, &streams.error) => {
            Err(Failure::IsError(STANDARD_OUTPUT))
        }
        _ => Ok(()),
    }
}

/// Refuses a word that names one of these streams. The line goes to the other stream, and nowhere if both are the file.
fn refuse_stream<'a, R: Files>(
    rt: &R,
    request: &Request<'a>,
    streams: &Streams,
    word: Option<&'a str>,
) -> Result<(), Failure<'a>>
    ensures { IfErr result RefusesNothing }
{
    let Some(word) = word else {
        return Ok(());
    };
    let file = regular_file(rt, word)?;
    let is_output = is_one(&file, &streams.output);
    let is_error = is_one(&file, &streams.error);
    match (is_output, is_error) {
        (true, true) => Err(Failure::IsStreams),
        (true, false) => Err(request.output_failure(word)),
        (false, true) if request.is_told() => Err(Failure::IsError(word)),
        _ => Ok(()),
    }
}

/// Refuses a copy into the pipe that standard output is: the counts would stand behind it.
fn refuse_pipe<'a, R: Files>(rt: &R, request: &Request<'a>) -> Result<(), Failure<'a>>
    ensures { IfErr result RefusesNothing }
{
    let Request::Copy(asked) = request else {
        return Ok(());
    };
    let file = file_of(rt, asked.output)?;
    let output = file_of(rt, STANDARD_OUTPUT)?;
    match &file {
        Some(found) if found.file_type().is_fifo() && is_one(&file, &output) => {
            Err(Failure::IsPipe(asked.output))
        }
        _ => Ok(()),
    }
}

/// Refuses a file that is to be written if it is one of those that are read.
fn refuse_read_file<'a, R: Files>(
    rt: &R,
    request: &Request<'a>,
    output: Option<&'a str>,
    inputs: &[&'a str],
) -> Result<(), Failure<'a>>
    ensures { IfErr result RefusesNothing }
{
    let Some(output) = output else {
        return Ok(());
    };
    let file = regular_file(rt, output)?;
    for input in inputs {
        if is_one(&file, &regular_file(rt, input)?) {
            return Err(request.read_failure(input, output));
        }
    }
    Ok(())
}

/// Refuses a file that is to be written if its text declares a schema. A file that is not regular or not
/// readable is not checked.
fn refuse_schema_file<'a, T: Texts, R: Files + AllocGlobal>(
    texts: &T,
    rt: &R,
    output: Option<&'a str>,
) -> Result<(), Failure<'a>>
    ensures { IfErr result RefusesNothing }
{
    let Some(output) = output else {
        return Ok(());
    };
    if regular_file(rt, output)?.is_none() {
        return Ok(());
    }
    let bytes = match texts.text(output, TEXT_READ) {
        Ok(bytes) => bytes,
        Err(e) if e.kind() == io::ErrorKind::PermissionDenied => return Ok(()),
        Err(e) => return Err(Failure::of_reading(output, &e)),
    };
    match read_schema(rt.alloc(), &bytes) {
        Ok(_) => Err(Failure::IsSchema(output)),
        Err(SchemaError::OutOfMemory) => Err(Failure::OutOfMemory),
        Err(_) => Ok(()),
    }
}

/// Whether two files are one: one inode of one device. A file system without inodes has 0 for each file.
fn is_one(first: &Option<Metadata>, second: &Option<Metadata>) -> bool {
    match (first, second) {
        (Some(one), Some(other)) => {
            one.ino() != 0 && one.ino() == other.ino() && one.dev() == other.dev()
        }
        _ => false,
    }
}

/// The metadata of the file that a word names, if it is a regular file.
fn regular_file<'a, R: Files>(rt: &R, word: &'a str) -> Result<Option<Metadata>, Failure<'a>>
    ensures { IfErr result RefusesNothing }
{
    match file_of(rt, word) {
        Ok(Some(found)) if found.is_file() => Ok(Some(found)),
        Ok(_) => Ok(None),
        Err(failure) => Err(failure),
    }
}

/// The metadata of the file that a word names, if there is one.
fn file_of<'a, R: Files>(rt: &R, word: &'a str) -> Result<Option<Metadata>, Failure<'a>>
    ensures { IfErr result RefusesNothing }
{
    match fs::metadata(rt, word) {
        Ok(found) => Ok(Some(found)),
        Err(e) if e.kind() == io::ErrorKind::OutOfMemory => Err(Failure::OutOfMemory),
        Err(_) => Ok(None),
    }
}
