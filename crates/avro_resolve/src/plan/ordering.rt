ghost use Rattle.avro_schema.specs.SeenSchema.{schema_nodes};
ghost use Rattle.avro_compare.specs.Planned.{AreComparisons, IsComparison};

use crate::plan::known::{count, index_next};
use avro_compare::{At, Comparison, Lead, Names, add_leads, has_fault};
use avro_schema::{Memory, NodeId, Schema};
use avro_texts::Seeded;
use indexmap::IndexSet;
use std::alloc::Global;

/// The pairs of the parts of a pair, in lists that are filled again for each pair.
#[derive(Drop)]
pub(crate) struct Parts {
    leads: Vec<Lead>,
    pub(crate) pairs: Vec<(NodeId, NodeId)>,
}

impl Parts {
    /// No parts.
    pub(crate) fn new(alloc: Global) -> Parts {
        Parts {
            leads: Vec::new(alloc),
            pairs: Vec::new(alloc),
        }
    }

    /// Finds those of a pair, in the order by which reading counts them; none where nothing is made of them.
    pub(crate) fn find(&mut self, names: &Names, pair: &Comparison) -> Result<(), Memory>
        requires { IsComparison (schema_nodes names.now.0) (schema_nodes names.now.1) pair.now }
    {
        self.pairs.clear();
        if has_fault(names, pair) {
            return Ok(());
        }
        if pair.fields.len() > 0 {
            return add_fields(&mut self.pairs, &pair.fields);
        }
        self.leads.clear();
        add_leads(names, pair, &mut self.leads)?;
        add_led(&mut self.pairs, &self.leads)
    }
}

/// Adds the pairs of a writer's fields that the reader takes, in the writer's order.
fn add_fields(pairs: &mut Vec<(NodeId, NodeId)>, fields: &[(usize, At)]) -> Result<(), Memory> {
    for field in fields {
        match field.1 {
            At::Pair(w, r) => pairs.push((w, r))?,
            At::Ignored => {}
        }
    }
    Ok(())
}

/// Adds the pairs of some leads.
fn add_led(pairs: &mut Vec<(NodeId, NodeId)>, leads: &[Lead]) -> Result<(), Memory> {
    for lead in leads {
        pairs.push((lead.w, lead.r))?;
    }
    Ok(())
}

/// The indices of the pairs of the parts of each pair, by the numbers of these pairs.
pub(crate) fn indices_of(
    alloc: Global,
    writer: &Schema,
    reader: &Schema,
    pairs: &[Comparison],
    known: &IndexSet<u64, Seeded>,
) -> Result<Vec<Vec<u32>>, Memory>
    requires { AreComparisons (schema_nodes writer.now) (schema_nodes reader.now) pairs.now }
{
    let names = Names::none(alloc, writer, reader);
    let mut parts = Parts::new(alloc);
    let mut next = 0;
    let mut indices = Vec::with_capacity(alloc, pairs.len())?;
    for index in 0..pairs.len() {
        parts.find(&names, &pairs[index])?;
        let found = indices_among(alloc, &parts.pairs, known, count(reader), &mut next)?;
        indices.push(found)?;
    }
    Ok(indices)
}

/// The indices of some pairs.
fn indices_among(
    alloc: Global,
    pairs: &[(NodeId, NodeId)],
    known: &IndexSet<u64, Seeded>,
    count: u32,
    next: &mut usize,
) -> Result<Vec<u32>, Memory> {
    let mut indices = Vec::with_capacity(alloc, pairs.len())?;
    for pair in pairs {
        indices.push(index_next(known, count, *pair, next))?;
    }
    Ok(indices)
}
