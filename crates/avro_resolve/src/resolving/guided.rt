use avro_compare::{At, Fault};
use avro_schema::NodeId;

/// What a part of a writer's datum is for, and where a plan may keep its pair of nodes.
#[derive(Clone, Copy, Debug, PartialEq, Eq)]
pub struct Part {
    /// What it is for.
    pub at: At,
    /// The index of its pair, or of the pair of the union that it is a branch of.
    pub index: u32,
    /// Its branch, where it is one.
    pub branch: Option<u32>,
}

/// What was made of a part of a writer's datum.
#[derive(Drop)]
pub enum Made<O> {
    /// What it is for the reader.
    Good(O),
    /// Its fault, with its path kept in reverse.
    Faulty(Box<Fault>),
    /// Nothing, since nothing was asked.
    Nothing,
}

/// What was made of the items of an array, or of the entries of a map, so far.
#[derive(Drop)]
pub enum Run<I> {
    /// All of them, how many they are, the branch of the reader's union to go into, and the nodes of the
    /// next, the writer's and the reader's.
    Good(I, usize, Option<u32>, NodeId, NodeId),
    /// The fault of one, with its path kept in reverse.
    Faulty(Box<Fault>),
    /// Nothing, since nothing was asked.
    Nothing,
}

/// What was made of the fields of a record so far.
#[derive(Drop)]
pub enum Slots<O, F> {
    /// A slot for each of the writer's, which is empty where the field is ignored, the start of the reader's, the
    /// branch of the reader's union to go into, and the nodes of the records, the writer's and the reader's.
    Good(Vec<Option<O>>, F, Option<u32>, NodeId, NodeId),
    /// The fault of one, or of the record, with its path kept in reverse.
    Faulty(Box<Fault>),
    /// Nothing, since nothing was asked.
    Nothing,
}

/// What was made of the fields of a record so far, and what is known of the others.
#[derive(Drop)]
pub struct Filling<'a, O, F> {
    /// What was made.
    pub slots: Slots<O, F>,
    /// Where a plan may keep the pair of the record.
    pub index: u32,
    /// What the writer's other fields are for, if the plan keeps it.
    pub known: Option<&'a [(usize, At)]>,
    /// Where the plan may keep the pairs of these fields.
    pub parts: &'a [u32],
}
