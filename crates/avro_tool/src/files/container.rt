ghost use Rattle.std.specs.Prelude.{◌≡◌, string_bytes, IfOk, OnOk};
ghost use Rattle.avro_answer.specs.JsonAnswer.{json_line, counts_tree};
ghost use Rattle.avro_answer.specs.declared.form.Form.{Form};
ghost use Rattle.avro_tool.specs.FailsOnlyFor.{FailsOnlyFor};
ghost use Rattle.avro_tool.specs.FailureText.{IsPutFailure};
ghost use Rattle.avro_tool.specs.FoundStatus.{finding_status};
ghost use Rattle.avro_tool.specs.declared.failure.Failure.TheVariants.{CannotPrint};

use crate::Finding;
use crate::failure::Failure;
use crate::printing::{print, print_bytes};
use crate::progress::Watched;
use avro_answer::{Form, counts_line};
use avro_container::Counts;
use avro_device::{Output, ReadInput};
use std::alloc::{AllocError, Global};
use std::fs;
use std::io::{BufReader, Cursor, Write};
use std::rt::{Clock, Files};

/// How many bytes are read or written at once.
pub(crate) const CAPACITY: usize = 65_536;

/// The most bytes in a line of two counts.
const ROOM_OF_COUNTS: usize = 54;

/// The container in a file, of which nothing is read yet.
pub(crate) fn open_container<'a, R: Files + AllocGlobal>(
    rt: &R,
    word: &'a str,
) -> Result<ReadInput<BufReader<R::File>>, Failure<'a>> {
    Ok(ReadInput::new(open_file(rt, word)?))
}

/// A file, of which nothing is read yet.
pub(crate) fn open_file<'a, R: Files + AllocGlobal>(
    rt: &R,
    word: &'a str,
) -> Result<BufReader<R::File>, Failure<'a>> {
    match fs::open(rt, word) {
        Ok(file) => match BufReader::with_capacity(rt.alloc(), CAPACITY, file) {
            Ok(reader) => Ok(reader),
            Err(_) => Err(Failure::OutOfMemory),
        },
        Err(e) => Err(Failure::of_reading(word, &e)),
    }
}

/// The same, with its progress reported.
pub(crate) fn open_watched<'a, 'r, R: Files + Clock + AllocGlobal, E: Write + Drop>(
    rt: &'r R,
    word: &'a str,
    err: E,
) -> Result<Watched<ReadInput<BufReader<R::File>>, &'r R, E>, Failure<'a>> {
    let input = open_container(rt, word)?;
    Ok(Watched::new(input, length_of(rt, word), rt, err))
}

/// The length of the file that a word names, if it is a regular file.
pub(crate) fn length_of<R: Files>(rt: &R, word: &str) -> Option<u64> {
    match fs::metadata(rt, word) {
        Ok(found) if found.is_file() => Some(found.len()),
        _ => None,
    }
}

/// Prints how many data and blocks a container has.
pub(crate) fn tell_counts<'a, O: Output>(
    out: &mut O,
    counts: Counts,
) -> Result<Finding, Failure<'a>>
    ensures good { IfOk result (λ f. finding_status f ≡ 0) }
    ensures fails { FailsOnlyFor (λ f. f ≡ CannotPrint) O.failures O.stuck out.old out.new result }
{
    print_counts(out, counts)?;
    Ok(Finding::Good)
}

/// Prints how many data and blocks the container in a file has, with the file's name if there are several
/// files, or if the line is one of JSON.
pub(crate) fn tell_file_counts<'a, O: Output>(
    alloc: Global,
    out: &mut O,
    word: &str,
    is_named: bool,
    form: Form,
    counts: Counts,
) -> Result<Finding, Failure<'a>>
    ensures json { form ≡ Form.Json → OnOk result (O.keeps out.old (json_line (counts_tree word.now counts.items counts.blocks)) out.new) }
    ensures good { IfOk result (λ f. finding_status f ≡ 0) }
    ensures fails { FailsOnlyFor IsPutFailure O.failures O.stuck out.old out.new result }
{
    if matches!(form, Form::Text) && !is_named {
        return tell_counts(out, counts);
    }
    let line = file_counts_line(alloc, word, form, counts)?;
    print(out, &line)?;
    Ok(Finding::Good)
}

/// The line of how many data and blocks the container in a file has, by the file's name.
fn file_counts_line(
    alloc: Global,
    word: &str,
    form: Form,
    counts: Counts,
) -> Result<String, AllocError>
    ensures { form ≡ Form.Json → IfOk result (λ line. string_bytes line ≡ json_line (counts_tree word.now counts.items counts.blocks)) }
{
    let Counts { items, blocks } = counts;
    match form {
        Form::Json => counts_line(alloc, word, items, blocks),
        Form::Text => format!(in alloc; "{word} data {items} blocks {blocks}\n"),
    }
}

/// Prints the line of two counts by one write.
pub(crate) fn print_counts<'a, O: Output>(out: &mut O, counts: Counts) -> Result<(), Failure<'a>>
    ensures fails { FailsOnlyFor (λ f. f ≡ CannotPrint) O.failures O.stuck out.old out.new result }
{
    let Counts { items, blocks } = counts;
    let mut line = Cursor::new([0; ROOM_OF_COUNTS]);
    // The line of the greatest counts fits.
    let _ = writeln!(line, "data {items} blocks {blocks}");
    let len = (line.position() as usize).min(ROOM_OF_COUNTS);
    print_bytes(out, &line.get_ref()[..len])
}
