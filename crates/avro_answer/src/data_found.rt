//! What is found at the front of encoded data.

ghost use Rattle.std.specs.Prelude.{◌≡◌, ℕ, List, Option, Some, None, IfOk};
ghost use Rattle.std.specs.Option.{IfSome};
ghost use Rattle.std.specs.Result.{IfErr};
ghost use Rattle.avro_schema.specs.Fits.{LimitValues};
ghost use Rattle.avro_schema.specs.Node.{Node};
ghost use Rattle.avro_schema.specs.Value.{Value};
ghost use Rattle.avro_schema.specs.SeenSchema.{schema_nodes};
ghost use Rattle.avro_show.specs.Spans.{StandsIn};
ghost use Rattle.avro_answer.specs.DataRead.{fault_found};
ghost use Rattle.avro_answer.specs.ReadAnswer.{Found, datum, IsAllFound, IsAtFront};
ghost use Rattle.avro_answer.specs.inside.AtFront.{IsDisplayed};

use avro_binary::laws::{fault_or_within, one_fault, prefix};
use avro_binary::{Nothing, walk};
use avro_display::DisplayTable;
use avro_resolve::{Plan, ReadResolveError};
use avro_schema::{Limits, Schema};
use avro_show::{Scratch, display_read, display_resolved};
use std::alloc::Global;

/// What stands at the front of data of a schema is all that is found there.
fn one_found(writer: &Schema)
    ensures { (reader : Option (List Node)) (limits : LimitValues) (bytes : List ℕ) (found : Found)
        → IsAtFront (schema_nodes writer.now) reader limits bytes found → IsAllFound (schema_nodes writer.now) reader limits 0 bytes found }
{
    prefix();
    fault_or_within();
    one_fault();
    // Its contract says that the schema is well formed, which the laws of faults ask for.
    let _root = writer.root();
}

/// Makes the display of the datum at the front of bytes as what it is for a plan's reader, whose schema the table's is, and returns the
/// length of its encoding.
pub(crate) fn display_for(
    alloc: Global,
    plan: &Plan<'_>,
    table: &DisplayTable<'_>,
    bytes: &[u8],
    limits: &Limits,
    scratch: &mut Scratch,
) -> Result<usize, ReadResolveError>
    ensures shown { schema_nodes table.now ≡ schema_nodes plan.now.1 → IfOk result (λ len. (display : List ℕ)
        × IsDisplayed (schema_nodes plan.now.0) (Some (schema_nodes plan.now.1)) limits.now bytes.now len display × StandsIn scratch.new.text scratch.new.shown display) }
    ensures refused { IfErr result (λ e. IfSome (fault_found e) (IsAllFound (schema_nodes plan.now.0) (Some (schema_nodes plan.now.1)) limits.now 0 bytes.now)) }
{
    let plan = plan.by_ref();
    one_found(plan.writer());
    display_resolved(alloc, &plan, table, bytes, limits, scratch)
}

/// The same of the datum as it is.
pub(crate) fn display_plain(
    alloc: Global,
    table: &DisplayTable<'_>,
    bytes: &[u8],
    limits: &Limits,
    scratch: &mut Scratch,
) -> Result<usize, ReadResolveError>
    ensures shown { IfOk result (λ len. (display : List ℕ)
        × IsDisplayed (schema_nodes table.now) None limits.now bytes.now len display × StandsIn scratch.new.text scratch.new.shown display) }
    ensures refused { IfErr result (λ e. IfSome (fault_found e) (IsAllFound (schema_nodes table.now) None limits.now 0 bytes.now)) }
{
    one_found(table.schema());
    match display_read(alloc, table, bytes, limits, scratch) {
        Ok(len) => Ok(len),
        Err(error) => Err(ReadResolveError::Read(error)),
    }
}

/// Passes the datum at the front of bytes, which is resolved for a plan's reader, and returns the length of its encoding.
pub(crate) fn pass_for(
    alloc: Global,
    plan: &Plan<'_>,
    bytes: &[u8],
    limits: &Limits,
) -> Result<usize, ReadResolveError>
    ensures found { IfOk result (λ len. (u : Value) × IsAllFound (schema_nodes plan.now.0) (Some (schema_nodes plan.now.1)) limits.now 0 bytes.now (datum u len)) }
    ensures refused { IfErr result (λ e. IfSome (fault_found e) (IsAllFound (schema_nodes plan.now.0) (Some (schema_nodes plan.now.1)) limits.now 0 bytes.now)) }
{
    let plan = plan.by_ref();
    one_found(plan.writer());
    match plan.read(alloc, bytes, limits, &mut Nothing) {
        Ok(read) => Ok(read.1),
        Err(error) => Err(error),
    }
}

/// The same of the datum as it is.
pub(crate) fn pass_plain(
    alloc: Global,
    writer: &Schema,
    bytes: &[u8],
    limits: &Limits,
) -> Result<usize, ReadResolveError>
    ensures found { IfOk result (λ len. (u : Value) × IsAllFound (schema_nodes writer.now) None limits.now 0 bytes.now (datum u len)) }
    ensures refused { IfErr result (λ e. IfSome (fault_found e) (IsAllFound (schema_nodes writer.now) None limits.now 0 bytes.now)) }
{
    one_found(writer);
    match walk(alloc, writer, writer.root(), bytes, limits) {
        Ok(len) => Ok(len),
        Err(error) => Err(ReadResolveError::Read(error)),
    }
}
