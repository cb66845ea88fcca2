//! Names of Avro types (Avro 1.11, "Names").
//!
//! Contracts see a [`FullName`] as its namespace and simple name, and a [`Namespace`] as its text.
//!
//! Names share the text of their namespace by reference counting, and are compared, ordered and hashed by their simple name first: if
//! these differ, a long namespace is not compared.
#![tactic(auto)]

mod check;
mod error;
mod full_name;
pub mod laws;
mod namespace;

pub use check::is_simple_name;
pub use error::NameError;
pub use full_name::FullName;
pub use namespace::Namespace;
