//! The least data of a schema's nodes: their entries, and the search that finds them.

pub(crate) mod least;
pub(crate) mod search;
pub(crate) mod uses;
