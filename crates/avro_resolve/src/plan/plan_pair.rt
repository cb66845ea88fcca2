ghost use Rattle.std.specs.Prelude.{◌≡◌, Some, slice_get, unwrap_or};
ghost use Rattle.avro_schema.specs.Node.{field_ids, node_at};
ghost use Rattle.avro_schema.specs.Seen.{field_of, seen_fields};
ghost use Rattle.avro_schema.specs.SeenSchema.{schema_nodes};
ghost use Rattle.avro_compare.specs.Entries.{AreAscending, entry_at};
ghost use Rattle.avro_compare.specs.Pairs.{IsTarget, IsSymbol, branch_id, item_id, value_id};
ghost use Rattle.avro_compare.specs.Resolve.{enum_as, fields_at, symbol_at};
ghost use Rattle.avro_compare.specs.Source.{source_of};

use crate::plan::plan_ref::PlanRef;
use avro_compare::{Target, fields_of, source_among};
use avro_schema::{Field, NodeId};

/// A writer's node and a reader's, and where a plan may keep the pair.
#[derive(Clone, Copy, Debug, PartialEq, Eq)]
pub struct PlanPair {
    /// The writer's node.
    pub w: NodeId,
    /// The reader's node.
    pub r: NodeId,
    index: u32,
}

impl PlanPair {
    /// The pair of the roots.
    pub fn roots(plan: &PlanRef<'_>) -> PlanPair
        ensures of_writer { result.w.0 ≡ 0 }
        ensures of_reader { result.r.0 ≡ 0 }
    {
        PlanPair {
            w: NodeId(0),
            r: NodeId(0),
            index: plan.root(),
        }
    }

    /// The pair of a branch of the writer's union and the same reader's node.
    pub fn branch(self, plan: &PlanRef<'_>, branch: u32) -> PlanPair
        ensures of_writer { result.w.0 ≡ branch_id (node_at (schema_nodes plan.now.0) self.w.0) branch }
        ensures of_reader { result.r ≡ self.r }
    {
        PlanPair {
            w: plan.branch(self.w, branch),
            r: self.r,
            index: plan.index_below(self.index, branch as usize),
        }
    }

    /// Where the pair leads, if the writer's node is not a union.
    #[inline(always)]
    pub fn target(self, plan: &PlanRef<'_>) -> Target
        ensures { IsTarget (schema_nodes plan.now.0) (schema_nodes plan.now.1)
            (node_at (schema_nodes plan.now.0) self.w.0) (node_at (schema_nodes plan.now.1) self.r.0) result }
    {
        plan.target(self.index, self.w, self.r)
    }

    /// The pair of the same writer's node and the reader's node that the pair leads to, by a branch where there is one.
    pub fn targeted(self, plan: &PlanRef<'_>, branch: Option<u32>, q: NodeId) -> PlanPair
        ensures of_writer { result.w ≡ self.w }
        ensures of_reader { result.r ≡ q }
    {
        PlanPair {
            w: self.w,
            r: q,
            index: plan.index_to(self.index, branch),
        }
    }

    /// The pair of the items of two nodes.
    pub fn items(self, plan: &PlanRef<'_>) -> PlanPair
        ensures of_writer { result.w.0 ≡ item_id (node_at (schema_nodes plan.now.0) self.w.0) }
        ensures of_reader { result.r.0 ≡ item_id (node_at (schema_nodes plan.now.1) self.r.0) }
    {
        let (w, r) = plan.items(self.w, self.r);
        PlanPair {
            w,
            r,
            index: plan.index_below(self.index, 0),
        }
    }

    /// The pair of the values of two nodes.
    pub fn values(self, plan: &PlanRef<'_>) -> PlanPair
        ensures of_writer { result.w.0 ≡ value_id (node_at (schema_nodes plan.now.0) self.w.0) }
        ensures of_reader { result.r.0 ≡ value_id (node_at (schema_nodes plan.now.1) self.r.0) }
    {
        let (w, r) = plan.values(self.w, self.r);
        PlanPair {
            w,
            r,
            index: plan.index_below(self.index, 0),
        }
    }

    /// The index of the writer's field that the reader's field at an index takes its value from, of two records.
    pub fn source(self, plan: &PlanRef<'_>, index: usize, field: &Field) -> Option<usize>
        ensures { slice_get (fields_at (node_at (schema_nodes plan.now.1) self.r.0)) index ≡ Some (field_of field.now)
            → result ≡ source_of (fields_at (node_at (schema_nodes plan.now.0) self.w.0)) (field_of field.now) }
    {
        match plan.sources(self.index, self.w, self.r) {
            Some(sources) => source_at(sources, index),
            None => source_among(fields_of(plan.writer(), self.w), field),
        }
    }

    /// The pair of the writer's field at an index and a node of the reader's, of two records.
    pub fn field(self, plan: &PlanRef<'_>, source: usize, r: NodeId) -> PlanPair
        ensures of_writer { result.w.0 ≡ unwrap_or (slice_get (field_ids (fields_at (node_at (schema_nodes plan.now.0) self.w.0))) source) 0 }
        ensures of_reader { result.r ≡ r }
    {
        let part = match plan.fields(self.index, self.w, self.r) {
            Some(fields) => place_of(fields, source),
            None => source,
        };
        PlanPair {
            w: node_of_field(fields_of(plan.writer(), self.w), source),
            r,
            index: plan.index_below(self.index, part),
        }
    }

    /// The reader's symbol for a writer's, of two enums.
    pub fn symbol(self, plan: &PlanRef<'_>, symbol: u32) -> Option<u32>
        ensures { IsSymbol (enum_as (symbol_at (node_at (schema_nodes plan.now.0) self.w.0) symbol) (node_at (schema_nodes plan.now.1) self.r.0)) result }
    {
        plan.symbol(self.index, self.w, symbol, self.r)
    }
}

/// The node of the field at an index.
pub(crate) fn node_of_field(fields: &[Field], index: usize) -> NodeId
    ensures { result.0 ≡ unwrap_or (slice_get (field_ids (seen_fields fields.now)) index) 0 }
{
    if index < fields.len() {
        fields[index].node
    } else {
        NodeId(0)
    }
}

/// Where an index stands among entries that are in order, or would stand.
fn place_of<T>(entries: &[(usize, T)], index: usize) -> usize {
    match entries.binary_search_by_key(&index, |entry| entry.0) {
        Ok(at) => at,
        Err(at) => at,
    }
}

/// What is kept of an index among sources.
fn source_at(sources: &[(usize, usize)], index: usize) -> Option<usize>
    ensures { AreAscending 0 sources.now → result ≡ entry_at sources.now index }
{
    match sources.binary_search_by_key(&index, |entry| entry.0) {
        Ok(at) => Some(sources[at].1),
        Err(_) => None,
    }
}
