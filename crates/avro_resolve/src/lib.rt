//! Schema resolution (Avro 1.11, "Schema Resolution"): what a datum of a writer's schema becomes under a
//! reader's schema.
//!
//! [`resolve`] resolves a datum. [`read_resolved`] resolves bytes in one pass: a builder gets each part as
//! the reader sees it, and no writer's datum is built. [`decode_resolved`] does the same and returns the
//! datum. A [`Plan`] reads like [`read_resolved`], with the comparisons of pairs of nodes that a
//! [`PlanTable`] keeps; a [`PlanRef`] borrows the table and the schemas. The contracts of a builder are
//! about the values it builds; a [`Make`] may instead write to an output as it goes.
//!
//! [`resolve`] makes a plan of the pairs that the roots lead to, and gives the datum to it part by part (`giving.rt`), as reading gives
//! what bytes start with: so resolution of data and of bytes have one maker and one proof. What each writer's field resolves to is stored
//! in the slot of its index, and moved from there to the reader's field; no slot is used twice, since the names and aliases of a record's
//! fields are distinct. The path of a fault is built from its end, and reversed once.
//!
//! # How a plan is kept
//!
//! A table keeps the comparison of each pair that it is given (`Plan::new`, `PlanTable::of`) or that the roots lead to
//! (`Plan::reached`), and the indices of the pairs of its parts. Reading passes an index from each pair to those of its
//! parts, and compares no names, except for a symbol of an enum whose symbols are not kept. An entry says which pair it is
//! of, and any other pair is compared by names: so an index needs no proof, and a wrong one only costs time. The invariant
//! is that what is kept of a pair is what the definitions say of it. `read_resolved` reads by a plan that keeps no pair, so
//! both have one proof. `PlanTable::of_one_read` looks pairs up as they are met, for a table that reads one datum. Wherever an index
//! is looked for, it is in a set of the numbers of the pairs; what judging has found by such a set, it hands on with it.
//!
//! A table also marks records that can be copied as raw bytes: the pair leads to the reader's record, no field is missing,
//! and each field that has a source is a leaf whose encoding is the same for the reader, as an int's is for a long. Such a
//! record is made from the encodings of its fields, in the reader's order and with the defaults between them. If an
//! encoding is padded, it is not the plain one, and the record is read part by part. Enums are excluded, since their symbols may have
//! other positions, and so are bytes as a string, which must be UTF-8; a field that no reader's field takes may also be an enum.
//!
//! `reached` keeps the pairs that the roots lead to until these have 262,144 parts. A pair that is not kept is found by its names, so this
//! limit bounds memory and changes no result.
#![tactic(auto)]

mod error;
mod giving;
pub mod laws;
mod plan;
mod read;
mod resolution;
mod resolving;

pub use avro_binary::{Build, Make, Nothing, Place, Tree, read_own};
pub use avro_compare::{
    At, Comparison, Fault, FaultKind, Names, Target, compare, first_match, matches, source,
};
pub use error::{ReadResolveError, ResolveError};
pub use giving::give;
pub use plan::Plan;
pub use plan::plan_pair::PlanPair;
pub use plan::plan_ref::PlanRef;
pub use plan::plan_table::PlanTable;
pub use read::{decode_resolved, read_resolved};
pub use resolution::resolve;
