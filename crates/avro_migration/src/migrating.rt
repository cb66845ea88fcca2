//! A copy of a file into the form of a reader's schema that reads everything, and the data of a block that are read for one.

ghost use Rattle.std.specs.Prelude.{◌≡◌, ℕ, length, IfOk, OnOk, Some};
ghost use Rattle.std.specs.Result.{IfErr};
ghost use Rattle.avro_schema.specs.SeenSchema.{schema_nodes};
ghost use Rattle.avro_compare.specs.Fault.{ResolutionFault};
ghost use Rattle.avro_certificate.specs.Compatible.{AreCompatible};
ghost use Rattle.avro_file.specs.DataRead.{StandForData, reading};
ghost use Rattle.avro_file.specs.FileFault.{BlockFault, in_block, unresolved_datum};
ghost use Rattle.avro_file.specs.FileSeen.{file_fault};
ghost use Rattle.avro_container.specs.CopiedFile.{IsMarker};
ghost use Rattle.avro_container.specs.Moved.{Moved};
ghost use Rattle.avro_migration.specs.Migrates.{IsNoneWithin, IsOfOther, Migrates};

use avro_binary::Build;
use avro_binary::laws::{fault_or_within, plain_encodes, prefix};
use avro_container::{Counts, copy};
use avro_device::{Input, Output};
use avro_file::{Block, CopyError, FileLimits};
use avro_judge::Approved;
use avro_resolve::Plan;
use avro_resolve::laws::resolved_fits;
use avro_schema::Schema;
use avro_schema_json::ReaderText;
use avro_schema_json::laws::{declared_is_schema, one_schema};
use std::alloc::Global;

// A marker has 16 bytes.
fn one_marker(mark: [u8; 16])
    ensures { length mark ≡ 16 }
{}

// The marker that is given, if any, has 16 bytes.
fn given_marker(sync: Option<[u8; 16]>)
    ensures { IsMarker sync }
{
    if let Some(mark) = sync {
        one_marker(mark);
    }
}

/// Copies a file for a reader's schema that reads everything written under a writer's. A copy that ends well is a file of the
/// reader's schema, with what resolution gives of each datum, and its own copy. If the file is of the writer's schema, no error says
/// that a datum does not resolve, and none is one of a block, if the file and its copy are within the limits.
///
/// # Errors
///
/// Those of [`copy`].
pub fn migrate<I: Input, O: Output>(
    alloc: Global,
    input: &mut I,
    output: &mut O,
    writer: &Schema,
    reader: &ReaderText,
    sync: Option<[u8; 16]>,
    limits: &FileLimits,
) -> Result<Counts, CopyError>
    requires compatible { AreCompatible (schema_nodes writer.now) (schema_nodes reader.now.1) }
    // A file was taken, and a file of the reader's schema put, with what resolution gives of each datum.
    ensures migrates { OnOk result (Moved I.gives O.keeps input.old input.new output.old output.new
        (Migrates reader.now.0 (schema_nodes reader.now.1) sync)) }
    // A datum that does not resolve is reported only in a file of another schema.
    ensures resolves { IfErr result (λ e. (n m : ℕ) (f : ResolutionFault) → file_fault e ≡ Some (in_block n (unresolved_datum m f))
        → Moved I.gives O.keeps input.old input.new output.old output.new (λ taken put. IsOfOther (schema_nodes writer.now) taken)) }
    // No fault of a block is reported in a file of this schema within the limits, if its copy is within them.
    ensures sound { IfErr result (λ e. (n : ℕ) (f : BlockFault) → file_fault e ≡ Some (in_block n f)
        → Moved I.gives O.keeps input.old input.new output.old output.new
        (λ taken put. IsNoneWithin limits.now (schema_nodes writer.now) (schema_nodes reader.now.1) (I.ended input.new) taken)) }
{
    prefix();
    plain_encodes();
    fault_or_within();
    resolved_fits();
    declared_is_schema();
    one_schema();
    // Only the contracts of these calls matter here: the text declares the schema, and the limit is in range.
    let _ = reader.text();
    let _ = limits.block();
    given_marker(sync);
    copy(alloc, input, output, Some(reader), sync, limits)
}

/// Copies a file for the reader's schema of an approval, which is that of the text, as [`migrate`] does.
///
/// # Errors
///
/// Those of [`copy`].
pub fn copied_after_a_yes<I: Input, O: Output>(
    alloc: Global,
    input: &mut I,
    output: &mut O,
    approved: &Approved<'_>,
    reader: &ReaderText,
    sync: Option<[u8; 16]>,
    limits: &FileLimits,
) -> Result<Counts, CopyError>
    requires same { approved.now.1 ≡ reader.now.1 }
    ensures migrates { OnOk result (Moved I.gives O.keeps input.old input.new output.old output.new
        (Migrates reader.now.0 (schema_nodes approved.now.1) sync)) }
    ensures resolves { IfErr result (λ e. (n m : ℕ) (f : ResolutionFault) → file_fault e ≡ Some (in_block n (unresolved_datum m f))
        → Moved I.gives O.keeps input.old input.new output.old output.new (λ taken put. IsOfOther (schema_nodes approved.now.0) taken)) }
    ensures sound { IfErr result (λ e. (n : ℕ) (f : BlockFault) → file_fault e ≡ Some (in_block n f)
        → Moved I.gives O.keeps input.old input.new output.old output.new
        (λ taken put. IsNoneWithin limits.now (schema_nodes approved.now.0) (schema_nodes reader.now.1) (I.ended input.new) taken)) }
{
    let (writer, _) = approved.schemas();
    migrate(alloc, input, output, writer, reader, sync, limits)
}

/// Reads the data of a block by a plan of the two schemas of an approval, as `show` does for a reader. No error says that a datum
/// does not resolve.
///
/// # Errors
///
/// `LimitExceeded` or `InvalidDatum`; `BytesLeft` after the last datum; `OutOfMemory`.
pub fn read_after_a_yes<B: Build>(
    block: &Block<'_>,
    approved: &Approved<'_>,
    plan: &Plan<'_>,
    builder: &mut B,
) -> Result<Vec<B::Out>, CopyError>
    requires same { plan.now ≡ approved.now }
    // What the builder made stands for what resolution gives of each datum.
    ensures found { IfOk result (λ outs. StandForData B.stands_for
        (reading block.now.limits (schema_nodes plan.now.0) block.now.header.now.sync (Some (schema_nodes plan.now.1)))
        block.now.count block.now.body.items outs.items) }
    ensures resolves { IfErr result (λ e. (n m : ℕ) (f : ResolutionFault) → file_fault e ≡ Some (in_block n (unresolved_datum m f)) → ⊥) }
{
    // Only the contract of this call matters here: the schemas are compatible.
    let _ = approved.schemas();
    block.read_by(plan, builder)
}
