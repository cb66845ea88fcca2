//! The fault of a datum that errs.

ghost use Rattle.std.specs.Prelude.{IfOk};
ghost use Rattle.avro_schema.specs.Seen.{value_of};
ghost use Rattle.avro_schema.specs.SeenSchema.{schema_nodes};
ghost use Rattle.avro_compare.specs.Planned.{AreComparisons};
ghost use Rattle.avro_compare.specs.Seen.{fault_of};
ghost use Rattle.avro_certificate.specs.Compatible.{Errs, ErrsWith};

use avro_least::Reached;
use avro_resolve::{Fault, Nothing, PlanTable, ResolveError};
use avro_schema::{Datum, Memory, Schema};
use std::alloc::Global;

/// The fault of a datum that errs, given the pairs of nodes that the roots lead to. Nothing is built of the datum: what it is for
/// the reader may have far more nodes.
///
/// # Errors
///
/// Memory ran out.
pub(crate) fn fault_of_datum(
    alloc: Global,
    writer: &Schema,
    reader: &Schema,
    reached: Reached,
    datum: &Datum,
) -> Result<Fault, Memory>
    requires errs { Errs (schema_nodes writer.now) (schema_nodes reader.now) (value_of datum.now) }
    requires found { AreComparisons (schema_nodes writer.now) (schema_nodes reader.now) reached.found.items }
    ensures { IfOk result (λ f. ErrsWith (schema_nodes writer.now) (schema_nodes reader.now) (value_of datum.now) (fault_of f)) }
{
    let table = PlanTable::of_one_read(alloc, reached.found, reached.known);
    let plan = table.plan(writer, reader);
    match plan.of_datum(alloc, datum, &mut Nothing) {
        Err(ResolveError::Fault(fault)) => Ok(fault),
        Err(ResolveError::Memory) => Err(Memory),
        Ok(_) => unreachable!(),
    }
}
