pub(crate) mod known;
pub(crate) mod lookup;
pub(crate) mod ordering;
pub(crate) mod parts;
pub(crate) mod plan_pair;
pub(crate) mod plan_ref;
pub(crate) mod plan_table;
pub(crate) mod reachable;
pub(crate) mod verbatim;

use crate::error::ReadResolveError;
use crate::plan::plan_ref::PlanRef;
use crate::plan::plan_table::PlanTable;
use avro_binary::Build;
use avro_compare::compare_all;
use avro_schema::{Limits, Memory, NodeId, Schema};
use std::alloc::Global;
use std::marker::Model;

/// A writer's schema and a reader's, with the comparisons of some pairs of their nodes, made in advance.
/// Contracts see the two schemas.
#[derive(Drop)]
pub struct Plan<'a> {
    writer: &'a Schema,
    reader: &'a Schema,
    table: PlanTable,
}

impl<'a> Model for Plan<'a> {
    ghost use Rattle.std.specs.Coded.{codes};
    ghost use Rattle.avro_schema.specs.contracts.datum.Datum as datum;
    ghost use Rattle.avro_schema.specs.declared.schema.Schema.{Schema};
    ghost use Rattle.avro_schema.specs.SeenSchema.{schema_nodes};
    ghost use Rattle.avro_resolve.specs.Tables.{IsTableOf};

    ghost Value = { Schema × Schema };

    ghost coded = { Prim.hlevel (codes, datum.the_row.coded) };

    ghost view = { λ p. (p.writer.now, p.reader.now) };

    ghost invariant = { λ p. IsTableOf (schema_nodes p.writer.now) (schema_nodes p.reader.now) p.table };
}

impl<'a> Plan<'a> {
    ghost use Rattle.std.specs.Prelude.{◌≡◌, IfOk};
    ghost use Rattle.avro_schema.specs.SeenSchema.{schema_nodes};
    ghost use Rattle.avro_resolve.specs.Reading.{BuildsResolved};
    ghost use Rattle.avro_resolve.specs.Tables.{IsTableOf};

    /// The plan that keeps these pairs of a writer's node and a reader's, in any order. A pair that
    /// is not among them is still resolved, by its names.
    ///
    /// # Errors
    ///
    /// Memory ran out.
    pub fn new(
        alloc: Global,
        writer: &'a Schema,
        reader: &'a Schema,
        pairs: &[(NodeId, NodeId)],
    ) -> Result<Plan<'a>, Memory>
        ensures { IfOk result (λ plan. plan ≡ (writer.now, reader.now)) }
    {
        let kept = compare_all(alloc, writer, reader, pairs)?;
        let table = PlanTable::of(alloc, writer, reader, kept)?;
        Ok(Plan::of(writer, reader, table))
    }

    /// The plan of two schemas that keeps this table.
    pub fn of(writer: &'a Schema, reader: &'a Schema, table: PlanTable) -> Plan<'a>
        requires { IsTableOf (schema_nodes writer.now) (schema_nodes reader.now) table }
        ensures { result ≡ (writer.now, reader.now) }
    {
        Plan {
            writer,
            reader,
            table,
        }
    }

    /// The plan that keeps the pairs of nodes that the roots lead to.
    ///
    /// # Errors
    ///
    /// Memory ran out.
    pub fn reached(
        alloc: Global,
        writer: &'a Schema,
        reader: &'a Schema,
    ) -> Result<Plan<'a>, Memory>
        ensures { IfOk result (λ plan. plan ≡ (writer.now, reader.now)) }
    {
        let table = PlanTable::reached(alloc, writer, reader)?;
        Ok(Plan::of(writer, reader, table))
    }

    /// Reads a writer's datum from the front of bytes in one pass. Returns what the builder builds of the reader's
    /// datum, with the length of the encoding, as [`read_resolved`](crate::read_resolved) does. No name is compared
    /// at a pair of nodes that the plan keeps.
    ///
    /// # Errors
    ///
    /// The first fault of the bytes, and else the first fault of resolution; `OutOfMemory`.
    pub fn read<B: Build>(
        &self,
        alloc: Global,
        bytes: &[u8],
        limits: &Limits,
        builder: &mut B,
    ) -> Result<(B::Out, usize), ReadResolveError>
        ensures { BuildsResolved B.stands_for (schema_nodes self.now.0) (schema_nodes self.now.1) limits.now bytes.now result }
    {
        self.by_ref().read(alloc, bytes, limits, builder)
    }

    /// The same plan by reference.
    pub fn by_ref(&self) -> PlanRef<'_>
        ensures { result ≡ self.now }
    {
        self.table.plan(self.writer, self.reader)
    }
}
