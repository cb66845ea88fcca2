use crate::error::FaultKind;
use avro_schema::NodeId;

/// What a plan keeps of a pair of nodes: what resolution finds by names, but no list that is long for the other node.
#[derive(Debug, Drop)]
pub struct Comparison {
    /// The writer's node.
    pub w: NodeId,
    /// The reader's node.
    pub r: NodeId,
    /// Where the pair leads. The members below are empty unless it leads to the reader's node itself.
    pub target: Target,
    /// The reader's first field without a source and a default.
    pub missing: Option<usize>,
    /// The first of the writer's symbols that the reader lacks and has no default for.
    pub lacking: Option<usize>,
    /// The writer's fields that the reader takes, in order: the index of each, and what it is for. All others are ignored.
    pub fields: Vec<(usize, At)>,
    /// The reader's fields that have a source, in order: the index of each, and that of its source. All others have none.
    pub sources: Vec<(usize, usize)>,
    /// The reader's symbol for each of the writer's; none where the writer has many more symbols than the reader.
    pub symbols: Vec<Option<u32>>,
}

impl Comparison {
    ghost use Rattle.std.specs.Prelude.{◌≡◌, is_some};

    /// Whether the reader's enum lacks a symbol of the writer's and has no default.
    pub fn lacks_symbol(&self) -> bool
        ensures { result ≡ is_some self.now.lacking }
    {
        self.lacking.is_some()
    }
}

/// What a part of a writer's datum is for: nothing, or the reader's node, beside its own.
#[derive(Clone, Copy, Debug, PartialEq, Eq)]
pub enum At {
    /// No field of the reader takes it.
    Ignored,
    /// The writer's node and the reader's.
    Pair(NodeId, NodeId),
}

/// Where a pair of nodes leads, if the writer's is not a union: to a fault, or to a reader's node
/// that is not a union, by a branch of the reader's union where there is one.
#[derive(Clone, Copy, Debug, PartialEq, Eq)]
pub enum Target {
    /// The nodes do not match, or no branch does.
    Fault(FaultKind),
    /// The reader's node, and the branch that it is of.
    To(Option<u32>, NodeId),
}

/// A step from a pair of nodes, a writer's and a reader's, to another pair.
#[derive(Clone, Copy, Debug, PartialEq, Eq)]
pub enum Step {
    /// To the branch at this index of the writer's union.
    Branch(usize),
    /// To the branch at this index of the reader's union, the first that matches.
    Choice(usize),
    /// To the items of two arrays.
    Items,
    /// To the values of two maps.
    Values,
    /// To the reader's field at the second index, and the writer's at the first, which is its source.
    Field(usize, usize),
}

/// A pair of nodes, and the step by which another pair leads to it.
#[derive(Clone, Copy)]
pub struct Lead {
    /// The step.
    pub step: Step,
    /// The writer's node.
    pub w: NodeId,
    /// The reader's node.
    pub r: NodeId,
}
