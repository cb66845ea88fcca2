use avro_compare::Step;
use avro_schema::NodeId;

/// A pair of nodes that the roots lead to, and how it was found.
#[derive(Clone, Copy, Debug)]
pub struct Place {
    /// The writer's node.
    pub w: NodeId,
    /// The reader's node.
    pub r: NodeId,
    /// The index of the place before it, and the step from there; the roots have none.
    pub from: Option<(usize, Step)>,
}

/// What fails at a pair of nodes.
#[derive(Clone, Copy, Debug, PartialEq, Eq)]
pub enum Detail {
    /// The nodes do not match.
    NoMatch,
    /// No branch of the reader's union matches.
    NoBranch,
    /// Bytes are read as a string.
    NotUtf8,
    /// The reader's enum lacks the writer's symbol at this index, and has no default.
    NoSymbol(usize),
    /// The reader's field at this index has no source in the writer's record, and no default.
    MissingField(usize),
}

/// A fault, and the index of its place.
#[derive(Clone, Copy, Debug)]
pub struct Finding {
    /// The index of the place.
    pub place: usize,
    /// What fails there.
    pub detail: Detail,
}

/// All places of two schemas, and all faults.
#[derive(Debug, Drop)]
pub struct Explanation {
    /// Whether each of the writer's nodes is dead: no datum is of it.
    pub dead: Vec<bool>,
    /// The pairs of nodes that the roots lead to, by breadth.
    pub places: Vec<Place>,
    /// The faults, in the order of their places.
    pub faults: Vec<Finding>,
}

/// A step of the way from the root of one schema to a node.
#[derive(Clone, Copy, Debug, PartialEq, Eq)]
pub enum PathStep {
    /// To the field at this index.
    Field(usize),
    /// To the items of an array.
    Items,
    /// To the values of a map.
    Values,
    /// To the branch at this index.
    Branch(usize),
}
