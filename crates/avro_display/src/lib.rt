//! Displaying data as compact JSON, as `serde_json` writes it.
//!
//! The form is this project's own, not part of the Avro specification: the value of a union is an object
//! whose key is its branch, except for null, and bytes are a string of one character per byte.
//!
//! A display goes out in pieces ([`put_display`], [`put_line`]), so that nothing holds all of it; [`show`] and [`show_by`] return
//! it as one text.
//! What is displayed need not be held either: [`put_displayed`] opens one part after another of whatever is [`Displayed`].
#![tactic(auto)]

mod display;
mod displayed;
mod labels;
mod member;
mod members;
mod parts;
mod pieces;
mod plain;
mod put_error;
mod putting;
mod table;
mod text;

pub use display::{put_display, put_line, show, show_by};
pub use displayed::{Displayed, Opened};
pub use labels::symbol_text;
pub use member::Member;
pub use parts::{entry_key, node_fields};
pub use pieces::put_byte;
pub use plain::Plain;
pub use put_error::PutError;
pub use putting::put_displayed;
pub use table::DisplayTable;
pub use text::Text;
