//! Files that are opened, read or written.

pub(crate) mod certificate;
pub(crate) mod container;
pub(crate) mod kept;
pub(crate) mod late;
pub(crate) mod refutation;
pub(crate) mod schema;
pub(crate) mod texts;
