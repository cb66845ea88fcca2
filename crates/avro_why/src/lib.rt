//! Where and why a text of a schema is refused.
//!
//! [`find_reasons`] looks at a refused text a second time. It walks through the tree that `serde_json` reads, goes on after
//! each fault, and has the places of all values from one scan of the text. A [`Reason`] has the line and the column of a
//! value, its JSON pointer, and words, each at most a few hundred bytes long.
#![tactic(auto)]

mod defaults;
mod definitions;
mod fault;
mod json_fault;
mod names;
mod nodes;
mod numbers;
mod places;
mod position;
mod reasons;
mod shortened;
mod types;
mod walk;
mod words;

pub use reasons::{Reason, Reasons, find_reasons};
