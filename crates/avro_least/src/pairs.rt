//! The pairs that the roots lead to, what each asks for, and the search for the least data that fail there.

pub(crate) mod asking;
pub(crate) mod erring;
pub(crate) mod graph;
pub(crate) mod leads;
pub(crate) mod near;
pub(crate) mod parts;
pub(crate) mod reaching;
pub(crate) mod search;
