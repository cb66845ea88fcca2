//! The commands of the program, each in a file of its name.

pub(crate) mod check;
pub(crate) mod confirm;
pub(crate) mod copy;
pub(crate) mod explain;
pub(crate) mod header;
pub(crate) mod history;
pub(crate) mod judge;
pub(crate) mod pipe;
pub(crate) mod read;
pub(crate) mod schema;
pub(crate) mod show;
pub(crate) mod version;
