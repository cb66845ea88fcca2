ghost use Rattle.std.specs.Prelude.{OnOk};
ghost use Rattle.avro_schema.specs.SeenSchema.{schema_nodes};
ghost use Rattle.avro_binary.specs.Places.{AreTold};
ghost use Rattle.avro_resolve.specs.inside.Guided.{of_node};
ghost use Rattle.avro_resolve.specs.Reading.{BuildsResolved, ReadsResolved};

use crate::error::ReadResolveError;
use crate::plan::plan_ref::PlanRef;
use crate::plan::plan_table::PlanTable;
use crate::resolving::Resolving;
use crate::resolving::failing::turn_apart;
use crate::resolving::guided::Made;
use avro_binary::{Build, Make, Place, Tree, Wrapping, read_made};
use avro_schema::{Datum, Limits, Schema};
use std::alloc::Global;

/// Reads a writer's datum from the front of bytes, and returns the datum that it is for the reader,
/// with the length of its encoding (Avro 1.11, "Schema Resolution").
///
/// # Errors
///
/// Those of [`read_resolved`].
pub fn decode_resolved(
    alloc: Global,
    writer: &Schema,
    reader: &Schema,
    bytes: &[u8],
    limits: &Limits,
) -> Result<(Datum, usize), ReadResolveError>
    ensures { ReadsResolved (schema_nodes writer.now) (schema_nodes reader.now) limits.now bytes.now result }
{
    let mut tree = Tree;
    read_resolved(alloc, writer, reader, bytes, limits, &mut tree)
}

/// Reads a writer's datum from the front of bytes once, and returns what a builder builds of what
/// it is for the reader, with the length of its encoding (Avro 1.11, "Schema Resolution"). No
/// writer's datum is made: a field that the reader ignores is walked over, and so is the rest of
/// the datum after a fault of resolution.
///
/// # Errors
///
/// The first fault of the bytes, and else the first fault of resolution; `OutOfMemory`, which is a
/// [`ReadError`](avro_binary::ReadError).
pub fn read_resolved<B: Build>(
    alloc: Global,
    writer: &Schema,
    reader: &Schema,
    bytes: &[u8],
    limits: &Limits,
    builder: &mut B,
) -> Result<(B::Out, usize), ReadResolveError>
    ensures { BuildsResolved B.stands_for (schema_nodes writer.now) (schema_nodes reader.now) limits.now bytes.now result }
{
    let table = PlanTable::none(alloc);
    let plan = table.plan(writer, reader);
    read_planned(alloc, &plan, bytes, limits, builder)
}

/// The same of the two schemas of a plan.
pub(crate) fn read_planned<B: Build>(
    alloc: Global,
    plan: &PlanRef<'_>,
    bytes: &[u8],
    limits: &Limits,
    builder: &mut B,
) -> Result<(B::Out, usize), ReadResolveError>
    ensures { BuildsResolved B.stands_for (schema_nodes plan.now.0) (schema_nodes plan.now.1) limits.now bytes.now result }
{
    let mut maker = Wrapping::new(builder);
    put_planned(alloc, plan, bytes, limits, &mut maker)
}

/// The same by a [`Make`](crate::Make), which may keep something as it goes.
pub(crate) fn put_planned<M: Make<At = Place>>(
    alloc: Global,
    plan: &PlanRef<'_>,
    bytes: &[u8],
    limits: &Limits,
    maker: &mut M,
) -> Result<(M::Out, usize), ReadResolveError>
    requires told { AreTold M.branch_at M.item_at M.entry_at M.field_at }
    ensures reads { BuildsResolved (of_node (M.stands_for maker.new) (schema_nodes plan.now.1) 0) (schema_nodes plan.now.0) (schema_nodes plan.now.1) limits.now bytes.now result }
    ensures kept { OnOk result (M.keeps maker.old maker.new) }
{
    let writer = plan.writer();
    let w = writer.root();
    let part = plan.root_part();
    let mut resolving = Resolving::new(plan, maker);
    match read_made(alloc, writer, w, bytes, limits, &mut resolving, part) {
        Ok((made, len)) => match made {
            Made::Good(out) => Ok((out, len)),
            Made::Faulty(fault) => Err(ReadResolveError::Resolve(turn_apart(fault))),
            Made::Nothing => unreachable!(),
        },
        Err(error) => Err(ReadResolveError::Read(error)),
    }
}
