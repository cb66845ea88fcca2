//! Reading a datum for a reader, and appending its plain encoding.

ghost use Rattle.std.specs.Prelude.{◌≡◌, ◌≤◌, ℕ, Ok, Err, IfNone, IfOk, OnErr, OnOk, length};
ghost use Rattle.std.specs.Option.{IfSome};
ghost use Rattle.avro_schema.specs.Node.{root_of};
ghost use Rattle.avro_schema.specs.SeenSchema.{schema_nodes};
ghost use Rattle.avro_schema.specs.Value.{Value};
ghost use Rattle.avro_cursor.specs.Breaks.{Breaks};
ghost use Rattle.avro_cursor.specs.Encoding.{plain};
ghost use Rattle.avro_cursor.specs.Seen.{read_fault};
ghost use Rattle.avro_resolve.specs.Reading.{ReadsAs};
ghost use Rattle.avro_packed.specs.Appended.{AppendsWithin, Holds, Keeps};
ghost use Rattle.avro_compare.specs.Seen.{fault_of};
ghost use Rattle.avro_resolve.specs.Seen.{IfUnread, IfUnresolved};

use crate::appending::Appending;
use crate::written::Written;
use avro_binary::ReadError;
use avro_resolve::{PlanRef, ReadResolveError};
use avro_schema::Limits;
use std::alloc::Global;

/// Reads a writer's datum from the front of bytes by a plan, and appends the plain encoding of what it is for the reader to an output, unless
/// this would then be longer than `most` bytes. Returns whether it was appended, and the length of what was read. Past that limit, bytes
/// are only counted. The scratch is kept from datum to datum; its content between calls is unspecified.
///
/// # Errors
///
/// Those of [`avro_resolve::PlanRef::read`]; the output is unchanged. No clause says that putting a datum a second time suffices if bytes
/// that are in no result pass the limit: `OutOfMemory` otherwise.
pub fn append_resolved(
    alloc: Global,
    plan: &PlanRef<'_>,
    bytes: &[u8],
    limits: &Limits,
    most: usize,
    scratch: &mut Appending,
    out: &mut Vec<u8>,
) -> Result<(bool, usize), ReadResolveError>
    ensures found { IfOk result (λ read. (u : Value) × AppendsWithin most out.old.items out.new.items (plain u) read.0
        × ReadsAs (schema_nodes plan.now.0) (schema_nodes plan.now.1) limits.now bytes.now read.1 (Ok u)) }
    ensures unchanged { OnErr result (out.new.items ≡ out.old.items) }
    ensures faulty { IfUnresolved result (λ f. (len : ℕ) × ReadsAs (schema_nodes plan.now.0) (schema_nodes plan.now.1) limits.now bytes.now len (Err (fault_of f))) }
    ensures refused { IfUnread result (λ e. IfSome (read_fault e) (Breaks (schema_nodes plan.now.0) limits.now (root_of (schema_nodes plan.now.0)) bytes.now)) }
    ensures kept { OnOk result (length scratch.new.bytes ≤ most) }
{
    // Bytes that are in no datum may pass the limit: then the datum is put again, without any that may be in none.
    for sparing in [false, true] {
        scratch.restart(most.saturating_sub(out.len()), sparing);
        match append_put(alloc, plan, bytes, limits, most, scratch, out) {
            Ok((Some(fits), len)) => return Ok((fits, len)),
            Ok((None, _)) => {}
            Err(error) => return Err(error),
        }
    }
    Err(ReadResolveError::Read(ReadError::OutOfMemory))
}

/// The same, where the scratch is empty and says how many bytes are kept; `None` where what was only counted would fit.
fn append_put(
    alloc: Global,
    plan: &PlanRef<'_>,
    bytes: &[u8],
    limits: &Limits,
    most: usize,
    scratch: &mut Appending,
    out: &mut Vec<u8>,
) -> Result<(Option<bool>, usize), ReadResolveError>
    ensures found { IfOk result (λ read. (u : Value) × IfSome read.0 (λ fits. AppendsWithin most out.old.items out.new.items (plain u) fits)
        × ReadsAs (schema_nodes plan.now.0) (schema_nodes plan.now.1) limits.now bytes.now read.1 (Ok u)) }
    ensures none { IfOk result (λ read. IfNone read.0 (out.new.items ≡ out.old.items)) }
    ensures unchanged { OnErr result (out.new.items ≡ out.old.items) }
    ensures faulty { IfUnresolved result (λ f. (len : ℕ) × ReadsAs (schema_nodes plan.now.0) (schema_nodes plan.now.1) limits.now bytes.now len (Err (fault_of f))) }
    ensures refused { IfUnread result (λ e. IfSome (read_fault e) (Breaks (schema_nodes plan.now.0) limits.now (root_of (schema_nodes plan.now.0)) bytes.now)) }
    ensures kept { OnOk result (Keeps scratch.old scratch.new) }
{
    match put_into(alloc, plan, bytes, limits, scratch) {
        Ok((written, len)) => match scratch.append(written, most, out) {
            Ok(told) => Ok((told, len)),
            Err(_) => Err(ReadResolveError::Read(ReadError::OutOfMemory)),
        },
        Err(error) => Err(error),
    }
}

/// Puts a datum into the scratch, which then has its plain encoding where the answer says.
fn put_into(
    alloc: Global,
    plan: &PlanRef<'_>,
    bytes: &[u8],
    limits: &Limits,
    scratch: &mut Appending,
) -> Result<(Written, usize), ReadResolveError>
    ensures found { IfOk result (λ read. (u : Value) × Holds scratch.new.bytes read.0 (plain u)
        × ReadsAs (schema_nodes plan.now.0) (schema_nodes plan.now.1) limits.now bytes.now read.1 (Ok u)) }
    ensures faulty { IfUnresolved result (λ f. (len : ℕ) × ReadsAs (schema_nodes plan.now.0) (schema_nodes plan.now.1) limits.now bytes.now len (Err (fault_of f))) }
    ensures refused { IfUnread result (λ e. IfSome (read_fault e) (Breaks (schema_nodes plan.now.0) limits.now (root_of (schema_nodes plan.now.0)) bytes.now)) }
    ensures kept { OnOk result (Keeps scratch.old scratch.new) }
{
    plan.put(alloc, bytes, limits, scratch)
}
