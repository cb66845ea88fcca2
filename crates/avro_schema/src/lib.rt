//! Avro schemas as graphs of nodes, and the data that they describe.
//!
//! A [`Schema`] is well formed: it is made from a [`Draft`], which checks the rules. Contracts see a
//! schema as the list of its nodes, and a [`Datum`] as a tree without capacities and pointers, in which a string is its UTF-8 bytes: so
//! a string becomes bytes without a change, and bytes become a string by a test.
//!
//! # How the rules are checked
//!
//! Names, symbols, fields and the keys of a map are tested for being distinct by sorting references to them, never pairwise. A union
//! is first searched for a repeated node, by number, and then for two nodes with the same name. What a union's branches and a default
//! are depends on the nodes that edges lead to: so a node breaks these rules (`InvalidUnion`, `InvalidDefault`) only if its edges are
//! valid, and edges are checked before branches are compared.
//!
//! A schema also keeps which of its records have data without bytes, with how many nodes and what depth, and for each other record the
//! runs of adjacent fields with such data, if eight or more are adjacent. Both are found when a draft is finished, in at most 256 passes
//! over its nodes, since no datum is deeper.
//!
//! A type whose value contains a [`Schema`] has a `ghost coded`, here and in the crates above, since a schema contains data, which
//! contain themselves.
#![tactic(auto)]

mod branches;
mod checking;
mod datum;
mod draft;
mod empties;
mod fault;
mod fitting;
pub mod laws;
mod limits;
mod naming;
mod parts;
mod runs;
mod schema;
mod uniqueness;

pub use datum::{Datum, Memory, depth, size};
pub use draft::Draft;
pub use empties::Empty;
pub use fault::DraftError;
pub use fitting::fits;
pub use limits::Limits;
pub use runs::EmptyFields;
pub use schema::{EnumNode, Field, FixedNode, Node, NodeId, RecordNode, Schema};
