use avro_resolve::PlanPair;
use avro_schema::{Datum, NodeId};

/// A part of what is displayed. What is the writer's is resolved by a pair of nodes and displayed as data of a node, if there
/// is one.
#[derive(Clone, Copy)]
pub enum Part<'a> {
    /// What a writer's datum is for a reader's node.
    Written(PlanPair, Option<NodeId>, &'a Datum),
    /// What a reader's node that is no union takes of a datum in no union.
    Targeted(PlanPair, Option<NodeId>, &'a Datum),
    /// The items of an array, by the pair of their nodes.
    Items(PlanPair, Option<NodeId>, &'a [Datum]),
    /// The entries of a map, by the pair of the nodes of their values.
    Entries(PlanPair, Option<NodeId>, &'a [(String, Datum)]),
    /// The values of a record, by the pair of the records.
    Fields(PlanPair, Option<NodeId>, &'a [Datum]),
    /// A default of the reader's.
    Default((Option<NodeId>, &'a Datum)),
    /// Null.
    Null,
}
