//! Copying a header.

ghost use Rattle.std.specs.Prelude.{◌≡◌, ◌≢◌, ◌⊎◌, ◌+◌, ◌≤◌, [], None, length, OnOk, OnErr, IfOk, Err, map, bytes_eq, codes};
ghost use Rattle.std.specs.Option.{option_copied};
ghost use Rattle.std.specs.Result.{IfErr};
ghost use Rattle.avro_container.specs.inside.BlockCopied.{RefusesWithin};
ghost use Rattle.avro_file.specs.Copied.{copied_header, copied_property, or_else};
ghost use Rattle.avro_file.specs.FileSeen.{file_fault};
ghost use Rattle.avro_device.specs.PutFront.{PutsFrontOf};
ghost use Rattle.avro_container.specs.inside.HeaderCopied.{CopiesHeader};
ghost use Rattle.avro_file.specs.HeaderTaken.{header_value};
ghost use Rattle.avro_file.specs.Held.{held};
ghost use Rattle.avro_file.specs.Named.{IsNamed};
ghost use Rattle.avro_container.specs.Moved.{Moved};
ghost use Rattle.avro_container.specs.Steps.{Stored};
ghost use Rattle.avro_container.specs.TaskSeen.{job_of};
ghost use Rattle.avro_file.specs.Parts.{properties_of, property_of};

use crate::copying::opened::Opened;
use crate::copying::state::{Store, Task};
use crate::sink::Sink;
use avro_device::{Input, Output};
use avro_file::{CopyError, Header, take_header};
use std::alloc::{AllocError, Global};

/// Takes the header of a file, puts its copy, and returns it.
///
/// # Errors
///
/// `NoMagic` to `UnknownCodec`, `LimitExceeded`, `CutHeader`; `InputFailed`, `OutputFailed`, `OutOfMemory`.
pub(crate) fn copy_header<'a, I: Input, O: Output>(
    alloc: Global,
    input: &mut I,
    output: &mut O,
    store: &mut Store,
    task: &Task<'a>,
) -> Result<Opened<'a>, CopyError>
    requires none { held store.old.buffer ≡ [] }
    ensures copied { IfOk result (λ opened. Moved I.gives O.keeps input.old input.new output.old output.new
        (CopiesHeader (job_of task.now) task.now.limits (header_value opened.0) (held store.new.buffer))) }
    ensures same { IfOk result (λ opened. opened.1 ≡ option_copied task.now.reader) }
    ensures refused { (before : Stored) → before.header ≡ None → before.ahead ≡ []
        → IfErr result (λ e. Moved I.gives O.keeps input.old input.new output.old output.new
        (RefusesWithin (job_of task.now) task.now.limits (I.ended input.new) before (file_fault e))) }
    ensures limited { length (held store.new.buffer) ≤ task.now.limits.block + 36 }
    ensures none_left { OnErr result (held store.new.buffer ≡ []) }
    ensures input_works { OnOk result (I.failures input.new ≡ I.failures input.old) }
    ensures input_fails { result ≡ Err CopyError.InputFailed → I.failures input.new ≢ I.failures input.old }
    ensures output_works { OnOk result (O.failures output.new ≡ O.failures output.old) }
    ensures output_fails { result ≡ Err CopyError.OutputFailed → (O.failures output.new ≢ O.failures output.old) ⊎ O.stuck output.new }
    ensures first { result ≢ Err CopyError.FailedBefore }
    ensures named { IfErr result IsNamed }
{
    let ahead = task.limits.block() as usize;
    match take_header(alloc, input, &mut store.buffer, &task.limits, ahead) {
        Ok((header, len)) => match put_opened(alloc, output, task, header) {
            Ok(opened) => {
                store.buffer.pass(len);
                Ok(opened)
            }
            Err(error) => {
                store.forget();
                Err(error)
            }
        },
        Err(error) => {
            store.forget();
            Err(error)
        }
    }
}

/// Prepares reading a file's data for the reader, and puts the copy of its header.
///
/// # Errors
///
/// `OutputFailed`, `OutOfMemory`.
fn put_opened<'a, O: Output>(
    alloc: Global,
    output: &mut O,
    task: &Task<'a>,
    header: Header,
) -> Result<Opened<'a>, CopyError>
    ensures header { IfOk result (λ opened. opened.0 ≡ header) }
    ensures same { IfOk result (λ opened. opened.1 ≡ option_copied task.now.reader) }
    ensures put { OnOk result (O.keeps output.old (copied_header (job_of task.now) (header_value header)) output.new) }
    ensures front { OnErr result (PutsFrontOf O.keeps output.old output.new (copied_header (job_of task.now) (header_value header))) }
    ensures told { IfErr result (λ e. file_fault e ≡ None) }
    ensures no_input { result ≢ Err CopyError.InputFailed }
    ensures works { OnOk result (O.failures output.new ≡ O.failures output.old) }
    ensures fails { result ≡ Err CopyError.OutputFailed → (O.failures output.new ≢ O.failures output.old) ⊎ O.stuck output.new }
    ensures first { result ≢ Err CopyError.FailedBefore }
    ensures named { IfErr result IsNamed }
{
    let opened = Opened::new(alloc, header, task.reader)?;
    put_header(alloc, output, task, opened.header())?;
    Ok(opened)
}

/// The metadata key of the schema.
const SCHEMA: &str = "avro.schema";

/// The marker of a copy: the one given, or the file's.
pub(crate) fn marker(task: &Task, header: &Header) -> [u8; 16]
    ensures { result ≡ or_else task.now.sync header.now.sync }
{
    match task.sync {
        Some(sync) => sync,
        None => *header.sync(),
    }
}

/// Puts the header of a copy.
///
/// # Errors
///
/// `OutputFailed`, `OutOfMemory`.
pub(crate) fn put_header<O: Output>(
    alloc: Global,
    output: &mut O,
    task: &Task,
    header: &Header,
) -> Result<(), CopyError>
    ensures put { OnOk result (O.keeps output.old (copied_header (job_of task.now) (header_value header.now)) output.new) }
    ensures front { OnErr result (PutsFrontOf O.keeps output.old output.new (copied_header (job_of task.now) (header_value header.now))) }
    ensures told { IfErr result (λ e. file_fault e ≡ None) }
    ensures no_input { result ≢ Err CopyError.InputFailed }
    ensures works { OnOk result (O.failures output.new ≡ O.failures output.old) }
    ensures fails { result ≡ Err CopyError.OutputFailed → (O.failures output.new ≢ O.failures output.old) ⊎ O.stuck output.new }
    ensures first { result ≢ Err CopyError.FailedBefore }
    ensures named { IfErr result IsNamed }
{
    let metadata = copied_metadata(alloc, header.metadata(), task)?;
    Sink::start(alloc, output, &metadata, marker(task, header))?;
    Ok(())
}

/// The metadata, with the reader's text, if any, in place of the schema's.
fn copied_metadata(
    alloc: Global,
    metadata: &[(String, Vec<u8>)],
    task: &Task,
) -> Result<Vec<(String, Vec<u8>)>, AllocError>
    ensures { IfOk result (λ all. properties_of all.items ≡ map (copied_property (job_of task.now).text) (properties_of metadata.now)) }
{
    let mut all = Vec::new(alloc);
    for entry in metadata {
        all.push(copied_entry(alloc, entry, task)?)?;
    }
    Ok(all)
}

/// An entry of the metadata, with the reader's text, if any, in place of the schema's.
fn copied_entry(
    alloc: Global,
    entry: &(String, Vec<u8>),
    task: &Task,
) -> Result<(String, Vec<u8>), AllocError>
    ensures { IfOk result (λ made. property_of made ≡ copied_property (job_of task.now).text (property_of entry.now)) }
{
    let (name, content) = entry;
    let content = match task.reader {
        Some(reader) => {
            if is_schema(name) {
                reader.text()
            } else {
                content.as_slice()
            }
        }
        None => content.as_slice(),
    };
    Ok((String::from_str(alloc, name)?, content.to_vec(alloc)?))
}

/// Whether the entry with this name is the schema.
fn is_schema(name: &str) -> bool
    ensures { result ≡ bytes_eq name.now (codes "avro.schema") }
{
    name == SCHEMA
}
