//! Samples for tests: schema texts and container files.
#![tactic(auto)]

mod containers;
mod texts;

pub use containers::{FIVE, FIVE_COPIED, LONG_OR_INT, MARK, NULL_HEADER, NULLS, file_of};
pub use texts::{Text, built};
