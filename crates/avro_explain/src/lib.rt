//! All faults of a writer's schema and a reader's at once: each pair of nodes that the roots lead to and that fails
//! by itself, with all that fails there, and the way to it.
//!
//! [`explain`] finds them; [`way_to`] returns the way to a place in both schemas.
#![tactic(auto)]

mod dying;
mod error;
mod exploring;
mod failing;
mod found;
pub mod laws;
mod paths;

pub use avro_compare::Step;
pub use error::ExplainError;
pub use exploring::explain;
pub use found::{Detail, Explanation, Finding, PathStep, Place};
pub use paths::{Way, way_to};
