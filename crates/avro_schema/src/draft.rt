ghost use Rattle.std.specs.Prelude.{◌≤◌, vec_len};

use crate::checking::check_nodes;
use crate::empties::{find_empties, worth_keeping};
use crate::fault::DraftError;
use crate::runs::{find_runs, lists_with_entries};
use crate::schema::{Node, NodeId, Schema};
use std::alloc::Global;

/// A schema under construction: its nodes, in the order of their ids.
#[derive(Debug, Drop)]
pub struct Draft {
    nodes: Vec<Node>,
    ghost few: { vec_len nodes ≤ 4096 },
}

impl Draft {
    ghost use Rattle.std.specs.Prelude.{◌≡◌, ◌⊎◌, ◌↔◌, true, [], ◌∷◌, ◌++◌, length, IfOk, IfErr, OnOk, OnErr, IsErrOf};
    ghost use Rattle.avro_schema.specs.Faulty.{IsRefused};
    ghost use Rattle.avro_schema.specs.Seen.{node_of};
    ghost use Rattle.avro_schema.specs.SeenSchema.{schema_nodes, draft_nodes};
    ghost use Rattle.avro_schema.specs.WellFormed.{is_schema};

    /// An empty draft.
    pub fn new(alloc: Global) -> Draft
        ensures { draft_nodes result ≡ [] }
    {
        Draft {
            nodes: Vec::new(alloc),
        }
    }

    /// Adds a node under the next id. The first node is the root.
    ///
    /// # Errors
    ///
    /// `LimitExceeded` if there are 4,096 nodes already; `OutOfMemory`. Either leaves the draft unchanged.
    pub fn add(&mut self, node: Node) -> Result<NodeId, DraftError>
        ensures added { OnOk result (draft_nodes self.new ≡ draft_nodes self.old ++ node_of node ∷ []) }
        ensures number { IfOk result (λ id. id.0 ≡ length (draft_nodes self.old)) }
        ensures full { IsErrOf result DraftError.LimitExceeded ↔ (length (draft_nodes self.old) ≡ 4096) }
        ensures errors { IfErr result (λ e. (e ≡ DraftError.LimitExceeded) ⊎ (e ≡ DraftError.OutOfMemory)) }
        ensures err { OnErr result (draft_nodes self.new ≡ draft_nodes self.old) }
    {
        let number = self.nodes.len();
        if number >= Schema::MAX_NODES {
            return Err(DraftError::LimitExceeded);
        }
        self.nodes.push(node)?;
        Ok(NodeId(number as u32))
    }

    /// The schema of these nodes, which is returned if and only if they are one.
    ///
    /// # Errors
    ///
    /// A fault of the nodes, as described at the variants of [`DraftError`]; `OutOfMemory`.
    pub fn finish(self) -> Result<Schema, DraftError>
        ensures schema { IfOk result (λ schema. schema_nodes schema ≡ draft_nodes self) }
        ensures formed { OnOk result (is_schema (draft_nodes self) ≡ true) }
        ensures succeeds { is_schema (draft_nodes self) ≡ true → IfErr result (λ e. e ≡ DraftError.OutOfMemory) }
        ensures faulty { IfErr result (IsRefused (draft_nodes self)) }
    {
        let alloc = *self.nodes.allocator();
        check_nodes(alloc, &self.nodes)?;
        let known = find_empties(alloc, &self.nodes)?;
        let runs = lists_with_entries(alloc, find_runs(alloc, &self.nodes, &known)?);
        let empties = worth_keeping(alloc, &self.nodes, known);
        Ok(Schema::from_nodes(self.nodes, empties, runs))
    }
}
