//! Certificates: a set of nodes and a set of pairs of nodes, which together show that a reader's schema
//! reads everything that was written with a writer's schema.
//!
//! A [`Certificate`] is read from and written to a text. [`find_closed`] checks whether it shows this
//! for two schemas, whoever made it, and returns the comparisons of its pairs, from which a plan can be
//! made.
#![tactic(auto)]

mod checks;
mod closing;
mod error;
mod kept;
pub mod laws;
mod lines;
mod lookup;
mod numbers;
mod sets;
mod writing;

pub use closing::find_closed;
pub use error::CertError;
pub use kept::Certificate;
pub use numbers::append_decimal;
