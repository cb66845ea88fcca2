//! Finds a smallest datum of a writer's schema that fails for a reader's. One table holds the size of a smallest
//! datum of each node, another that of a smallest datum that fails at each pair of nodes that the roots lead to.
//!
//! [`least_data`] makes the first table, [`reach`] finds the pairs, and [`least_errors`] makes the second
//! table. [`build_error`] builds a datum from them.
//!
//! # How the tables are made
//!
//! An entry is the fewest nodes, and among those the least depth, of a datum. Both tables are filled by Knuth's
//! generalization of Dijkstra's algorithm to functions of several arguments: an entry is the cost of a node or a pair,
//! the entries that fell are in a queue, and the least of them is taken. It lowers those of the pairs that lead to it,
//! each through the one part that is this pair, with the smallest data of a record's other fields. So each part of each
//! pair is looked at once.
//!
//! Of this order nothing is proved. Each entry is that of a datum, since it falls only to what a step gives. Where the queue
//! is empty each pair is looked at once more, by all of its parts: if no entry falls then, no step lowers an entry, and by
//! induction on the datum no failing datum is smaller than its pair's entry. If one did, the search would go on from it.
#![tactic(auto)]

mod datum;
mod filled;
mod kept;
pub mod laws;
mod nodes;
mod pairs;
mod queue;

pub use datum::failing::build_error;
pub use datum::tables::Tables;
pub use kept::Least;
pub use nodes::least::{count, entry};
pub use nodes::search::least_data;
pub use pairs::erring::pair_entry;
pub use pairs::reaching::{Reached, reach, readers, writers};
pub use pairs::search::least_errors;
