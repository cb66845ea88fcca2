use crate::approval::Approved;
use avro_resolve::Fault;
use avro_schema::Datum;

/// The verdict on a writer's and a reader's schema.
#[derive(Drop)]
pub enum Verdict<'a> {
    /// Every datum of the writer's schema resolves.
    Approved(Approved<'a>),
    /// A datum of the writer's schema does not resolve.
    Refuted(Refutation),
    /// A limit was exceeded.
    Undecided(Cause),
}

/// A datum of the writer's schema that does not resolve, and why. No datum with fewer nodes fails.
#[derive(Debug, Drop)]
pub struct Refutation {
    /// The datum.
    pub datum: Datum,
    /// Its fault.
    pub fault: Fault,
}

/// Why a pair of schemas is undecided.
#[derive(Clone, Copy, Debug, PartialEq, Eq, Hash)]
pub enum Cause {
    /// The product of the two node counts is over the pair limit.
    Pairs,
    /// Some data fail, but each of them has more nodes than the size limit.
    Size,
    /// Some data fail, but each of the smallest ones is deeper than the depth limit.
    Depth,
}
