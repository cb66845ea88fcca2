//! Builds a least datum, and a least one that fails, from the tables.

pub(crate) mod failing;
pub(crate) mod found_pairs;
pub(crate) mod least;
pub(crate) mod made;
pub(crate) mod selecting;
pub(crate) mod tables;
