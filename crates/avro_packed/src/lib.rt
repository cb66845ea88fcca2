//! Plain encodings that are built while data are read, for copies (Avro 1.11, "Binary Encoding").
//!
//! [`Appending`] is a maker that appends them to an output as data are read. [`append_read`] reads a datum by it, and
//! [`append_resolved`] reads it for a reader. [`Packed`] builds that of a datum alone.
//!
//! An encoding is written to the maker's output while the datum is read, without memory for each part. Parts that do not stand there in
//! their order, the items of an array and the entries of a map, whose number comes first, are joined in buffers of their own, which contain
//! copies of its bytes and keys. A count over 2^63 - 1, which no block can have and no reading reaches, is refused as if memory had run out.
#![tactic(auto)]

mod appending;
mod gathered;
mod joining;
mod numbers;
mod packed;
mod putting;
mod reading;
mod resolving;
mod written;

pub use appending::Appending;
pub use gathered::Gathered;
pub use packed::{Packed, Parts};
pub use reading::append_read;
pub use resolving::append_resolved;
pub use written::Written;
