use crate::plan::known::{count, index_in, numbers_of};
use crate::plan::ordering::indices_of;
use crate::plan::plan_ref::PlanRef;
use crate::plan::reachable::compare_reached;
use crate::plan::verbatim::flags_of;
use avro_compare::Comparison;
use avro_schema::{Memory, Schema};
use avro_texts::Seeded;
use indexmap::IndexSet;
use std::alloc::Global;

/// What a plan keeps of pairs of nodes of two schemas, without the schemas.
#[derive(Drop)]
pub struct PlanTable {
    pub(crate) pairs: Vec<Comparison>,
    parts: Vec<Vec<u32>>,
    pub(crate) flags: Vec<bool>,
    root: u32,
    // The number of each pair, for a table that has no parts.
    known: Option<IndexSet<u64, Seeded>>,
}

impl PlanTable {
    ghost use Rattle.std.specs.Prelude.{◌≡◌, List, IfOk};
    ghost use Rattle.avro_schema.specs.Node.{Node};
    ghost use Rattle.avro_schema.specs.SeenSchema.{schema_nodes};
    ghost use Rattle.avro_compare.specs.Planned.{AreComparisons};
    ghost use Rattle.avro_resolve.specs.Tables.{IsTableOf};

    /// What a plan keeps of no pairs.
    pub(crate) fn none(alloc: Global) -> PlanTable
        ensures { (writer reader : List Node) → IsTableOf writer reader result }
    {
        PlanTable {
            pairs: Vec::new(alloc),
            parts: Vec::new(alloc),
            flags: Vec::new(alloc),
            root: 0,
            known: None,
        }
    }

    /// What a plan keeps of these pairs of nodes, each as [`compare`](crate::compare) found it.
    ///
    /// # Errors
    ///
    /// Memory ran out.
    pub fn of(
        alloc: Global,
        writer: &Schema,
        reader: &Schema,
        pairs: Vec<Comparison>,
    ) -> Result<PlanTable, Memory>
        requires { AreComparisons (schema_nodes writer.now) (schema_nodes reader.now) pairs.items }
        ensures { IfOk result (λ table. IsTableOf (schema_nodes writer.now) (schema_nodes reader.now) table) }
    {
        let known = numbers_of(alloc, writer, reader, &pairs)?;
        PlanTable::of_known(alloc, writer, reader, pairs, known)
    }

    /// The same by the numbers of the pairs, in their order. The number of a pair is that of the writer's node times the
    /// count of the reader's nodes, plus that of the reader's node. Other numbers cost time, and change no result.
    ///
    /// # Errors
    ///
    /// Memory ran out.
    pub fn of_known(
        alloc: Global,
        writer: &Schema,
        reader: &Schema,
        pairs: Vec<Comparison>,
        known: IndexSet<u64, Seeded>,
    ) -> Result<PlanTable, Memory>
        requires { AreComparisons (schema_nodes writer.now) (schema_nodes reader.now) pairs.items }
        ensures { IfOk result (λ table. IsTableOf (schema_nodes writer.now) (schema_nodes reader.now) table) }
    {
        let parts = indices_of(alloc, writer, reader, &pairs, &known)?;
        let flags = flags_of(alloc, writer, reader, &pairs, &parts)?;
        Ok(PlanTable {
            pairs,
            parts,
            flags,
            root: index_in(&known, count(reader), writer.root(), reader.root()),
            known: None,
        })
    }

    /// The same as [`of_known`](PlanTable::of_known) for the reading of one datum: it keeps the numbers of the pairs, in
    /// place of the indices of the parts of each. Reading looks for each pair by its nodes, and copies no record as it
    /// stands.
    pub fn of_one_read(
        alloc: Global,
        pairs: Vec<Comparison>,
        known: IndexSet<u64, Seeded>,
    ) -> PlanTable
        ensures { (writer reader : List Node) → AreComparisons writer reader pairs.items → IsTableOf writer reader result }
    {
        PlanTable {
            pairs,
            parts: Vec::new(alloc),
            flags: Vec::new(alloc),
            root: 0,
            known: Some(known),
        }
    }

    /// What a plan keeps of the pairs that the roots lead to.
    ///
    /// # Errors
    ///
    /// Memory ran out.
    pub fn reached(alloc: Global, writer: &Schema, reader: &Schema) -> Result<PlanTable, Memory>
        ensures { IfOk result (λ table. IsTableOf (schema_nodes writer.now) (schema_nodes reader.now) table) }
    {
        let (pairs, parts) = compare_reached(alloc, writer, reader)?;
        let flags = flags_of(alloc, writer, reader, &pairs, &parts)?;
        Ok(PlanTable {
            pairs,
            parts,
            flags,
            root: 0,
            known: None,
        })
    }

    /// The plan that keeps this, of the schemas that it was made of.
    pub fn plan<'a>(&'a self, writer: &'a Schema, reader: &'a Schema) -> PlanRef<'a>
        requires { IsTableOf (schema_nodes writer.now) (schema_nodes reader.now) self.now }
        ensures { result ≡ (writer.now, reader.now) }
    {
        PlanRef::new(
            writer,
            reader,
            &self.pairs,
            &self.parts,
            &self.flags,
            self.root,
            self.known.as_ref(),
        )
    }
}
