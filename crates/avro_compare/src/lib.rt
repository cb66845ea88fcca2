//! What resolution is (Avro 1.11, "Schema Resolution"), and how two nodes of two schemas relate.
//!
//! [`compare`] finds how they relate by [`Names`], the tables of names of two schemas. The simple names and the namespaces
//! of all types are numbered once, so that two types are compared by numbers, and an alias is looked up in a set. So are
//! the names of fields and symbols: each record, each enum and each field's aliases are a list of numbers, and one table
//! has the first place of each number in each list that is searched. The
//! result for two records lists only the fields that both share, in the order of their indices. The symbols of two enums
//! are not kept if the writer has more than some 16 times as many as the reader: the list would be long for many short
//! enums, and `find_lacking` finds the first symbol that the reader lacks.
#![tactic(auto)]

mod children;
mod comparing;
mod comparison;
mod entries;
mod error;
pub mod laws;
mod matching;
mod named_type;
mod names;
mod pairs;
mod part_finding;
mod part_numbers;
mod place;
mod reader_types;
mod seed;
mod sourcing;
mod symbols;
mod type_names;

pub use children::{add_leads, has_fault, leads};
pub use comparing::{compare, compare_all};
pub use comparison::{At, Comparison, Lead, Step, Target};
pub use entries::{first_entry, rest_entries};
pub use error::{Fault, FaultKind};
pub use matching::matches;
pub use names::Names;
pub use pairs::{first_match, target};
pub use sourcing::{fields_of, missing, part_for, source, source_among};
pub use symbols::{symbol_for, symbol_kept};
