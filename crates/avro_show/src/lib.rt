//! Displaying encoded data, and a writer's data as what they are for a reader.
//!
//! [`display_read`] and [`display_resolved`] make the display of a datum while the datum is read, unless it is long, and make no datum.
//! [`put_resolved`] puts the display of what a writer's datum is for a reader (Avro 1.11, "Schema Resolution") in pieces, however long. It
//! goes through the writer's datum by pairs of nodes, so that no datum of the reader's is made.
//!
//! A record's fields are displayed in another order than they are encoded, so their texts are made first and then put together. If the
//! display and those of its parts turn out to have more than 64 KiB, all is given up, and the datum is read and printed in pieces.
#![tactic(auto)]

mod composing;
mod displaying;
mod leaf;
mod line;
mod opening;
mod part;
mod parts;
mod resolved;
mod scratch;
mod show;
mod spans;

pub use line::{append_line, display_read, display_resolved};
pub use resolved::Resolved;
pub use scratch::Scratch;
pub use show::{put_resolved, put_resolved_line};
