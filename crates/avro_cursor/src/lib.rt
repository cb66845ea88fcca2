//! A cursor over the binary encoding of data (Avro 1.11, "Binary Encoding"). Each call reads one element in place, or returns its fault
//! and the offset of the fault, and then the cursor has not moved.
//!
//! `specs/` defines the encodings, and the first fault of bytes that are not one.
//!
//! A node without parts is counted in place ([`Cursor::count`]), and only the others are entered, which is faster. The keys of a map that
//! is read are slices of the input: [`Keys`] stores the first three inline, without memory, and the others in an ordered tree, so that no
//! choice of keys makes them slow.
#![tactic(auto)]

mod block;
mod content;
mod cursor;
mod error;
mod keys;
mod text;

pub use block::Block;
pub use content::drop_content;
pub use cursor::Cursor;
pub use error::ReadError;
pub use keys::Keys;
pub use text::text_of;
