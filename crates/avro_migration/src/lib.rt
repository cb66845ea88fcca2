//! Migration: a copy of a file for a reader's schema, after a yes.
//!
//! If no datum of the schema in a file's header fails for a reader, no copy of the file for that reader ends with a datum that does
//! not resolve. If it ends well, what was put is a file of the reader's schema, whose data are, block by block and one by one, what
//! resolution gives of those that were taken; and a copy of that file is the file itself, byte for byte.
#![tactic(auto)]

pub mod laws;
mod migrating;

pub use migrating::{copied_after_a_yes, migrate, read_after_a_yes};
