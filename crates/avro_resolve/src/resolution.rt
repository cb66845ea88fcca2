ghost use Rattle.std.specs.Prelude.{◌≡◌, IfOk, true};
ghost use Rattle.avro_schema.specs.Fits.{fits};
ghost use Rattle.avro_schema.specs.Node.{root_of};
ghost use Rattle.avro_schema.specs.Seen.{value_of};
ghost use Rattle.avro_schema.specs.SeenSchema.{schema_nodes};
ghost use Rattle.avro_compare.specs.Resolve.{resolve_root};
ghost use Rattle.avro_binary.specs.Places.{AreTold};
ghost use Rattle.avro_resolve.specs.inside.Guided.{of_node};
ghost use Rattle.avro_resolve.specs.Seen.{Answers, StandsForResult};

use crate::error::ResolveError;
use crate::giving::give;
use crate::plan::plan_ref::PlanRef;
use crate::plan::plan_table::PlanTable;
use crate::resolving::Resolving;
use crate::resolving::failing::turn_apart;
use crate::resolving::guided::Made;
use avro_binary::{Make, Place, Tree, Wrapping};
use avro_schema::{Datum, Schema};
use std::alloc::Global;

/// What a datum that fits the writer's root becomes for the reader's schema, whose root it then fits (Avro 1.11, "Schema Resolution").
///
/// # Errors
///
/// The first fault, with its path in the datum; or memory ran out.
#[tactic(auto, using(crate::proofs::Resolved::resolved_root_fits))]
pub fn resolve(
    alloc: Global,
    writer: &Schema,
    reader: &Schema,
    datum: &Datum,
) -> Result<Datum, ResolveError>
    requires fitting { fits (schema_nodes writer.now) (root_of (schema_nodes writer.now)) (value_of datum.now) ≡ true }
    ensures answers { Answers result (resolve_root (schema_nodes writer.now) (schema_nodes reader.now) (value_of datum.now)) }
    ensures fitting { IfOk result (λ u. fits (schema_nodes reader.now) (root_of (schema_nodes reader.now)) (value_of u) ≡ true) }
{
    let table = PlanTable::reached(alloc, writer, reader)?;
    let mut tree = Tree;
    let mut maker = Wrapping::new(&mut tree);
    put_datum(alloc, &table.plan(writer, reader), datum, &mut maker)
}

/// What a maker makes of what a writer's datum is for the reader of a plan.
pub(crate) fn put_datum<M: Make<At = Place>>(
    alloc: Global,
    plan: &PlanRef<'_>,
    datum: &Datum,
    maker: &mut M,
) -> Result<M::Out, ResolveError>
    requires told { AreTold M.branch_at M.item_at M.entry_at M.field_at }
    requires fitting { fits (schema_nodes plan.now.0) (root_of (schema_nodes plan.now.0)) (value_of datum.now) ≡ true }
    ensures { StandsForResult (of_node (M.stands_for maker.new) (schema_nodes plan.now.1) 0) result (resolve_root (schema_nodes plan.now.0) (schema_nodes plan.now.1) (value_of datum.now)) }
{
    let part = plan.root_part();
    let writer = plan.writer();
    let mut resolving = Resolving::new(plan, maker);
    match give(alloc, writer, writer.root(), datum, &mut resolving, part) {
        Ok(made) => match made {
            Made::Good(out) => Ok(out),
            Made::Faulty(fault) => Err(ResolveError::Fault(turn_apart(fault))),
            Made::Nothing => unreachable!(),
        },
        Err(_) => Err(ResolveError::Memory),
    }
}
