//! Avro schemas as JSON texts.
//!
//! [`read_schema`] reads the schema that a text declares, or returns a [`SchemaError`] that says
//! why there is none. A [`ReaderText`] keeps the text together with its schema. [`show`] displays a datum of a schema as JSON.
//!
//! Contracts speak of the tree that `serde_json` reads in a text.
//!
//! # How a schema is read
//!
//! `read_schema` tests the length, reads the JSON tree, and looks for a float. The declarations are then read into
//! nodes whose defaults are still JSON, together with the names that are known so far. The namespaces of a text are
//! numbered while it is read, and a name is found by the number of its namespace and its simple part, so that a
//! reference without a dot need not compare the text of its namespace. Next each default is read for the node of its
//! field, and a `Draft` tests the rules of the whole. The definition goes the same way, as a function of the tree: what
//! its parts make, the defaults among those nodes, and whether the outcome is a schema. So each step is proved equal to
//! its part of the definition, and a fault of one step is a fault of the tree.
//!
//! A default of a union is one of the first branch that its JSON fits. For each JSON value, from the innermost
//! outwards, the set of nodes is found that it is a default of itself (`defaults/marks.rt`). That of a leaf is found by
//! its kind (`leaves.rt`). What an item or a member fits leads to its parents: the arrays, maps and records that may
//! have such a part (`parents.rt`). A step from a set along a label, as the name of a field, to the set of the parents
//! looks only at the places that have a parent under the label, and is remembered (`steps.rt`). A set is kept once, by a
//! number (`sets.rt`). The set of an array has the arrays that are among the parents of each item; that of an object
//! likewise the maps, and the records that have as many fields as it has members. Then the default is made from the root
//! down: each union passes over the branches that are not in the set of its JSON (`walk.rt`).
#![tactic(auto)]

mod completed;
mod declarations;
mod defaults;
mod error;
pub mod laws;
mod raw;
mod raw_nodes;
mod read;
mod reader_text;
mod repeats;
mod seeds;
mod survey;
mod symbol_indices;
mod texts;

pub use avro_display::show;
pub use error::SchemaError;
pub use read::read_schema;
pub use reader_text::ReaderText;
