ghost use Rattle.std.specs.Prelude.{IfOk};
ghost use Rattle.std.specs.Option.{IfSome, IfNone};
ghost use Rattle.avro_schema.specs.Seen.{value_of};
ghost use Rattle.avro_schema.specs.SeenSchema.{schema_nodes};
ghost use Rattle.avro_compare.specs.Seen.{fault_of};
ghost use Rattle.avro_certificate.specs.Compatible.{ErrsWith, Errs};

use avro_resolve::{Fault, Nothing, Plan, ResolveError};
use avro_schema::{Datum, Memory, Schema, fits};
use std::alloc::Global;

/// The fault of a writer's datum for the reader, or `None` if it resolves or is not a datum of the
/// writer's.
///
/// # Errors
///
/// Memory ran out.
pub fn check_refutation(
    alloc: Global,
    writer: &Schema,
    reader: &Schema,
    datum: &Datum,
) -> Result<Option<Fault>, Memory>
    ensures errs { IfOk result (λ o. IfSome o (λ f. ErrsWith (schema_nodes writer.now) (schema_nodes reader.now) (value_of datum.now) (fault_of f))) }
    ensures none { IfOk result (λ o. IfNone o (Errs (schema_nodes writer.now) (schema_nodes reader.now) (value_of datum.now) → ⊥)) }
{
    if !fits(alloc, writer, writer.root(), datum)? {
        return Ok(None);
    }
    let plan = Plan::reached(alloc, writer, reader)?;
    match plan.by_ref().of_datum(alloc, datum, &mut Nothing) {
        Err(ResolveError::Fault(fault)) => Ok(Some(fault)),
        Err(ResolveError::Memory) => Err(Memory),
        Ok(_) => Ok(None),
    }
}
