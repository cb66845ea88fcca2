//! The binary encoding of data (Avro 1.11, "Binary Encoding").
//!
//! [`decode`] reads a datum of any kind from the start of some bytes, whatever follows it. It accepts
//! exactly the valid encodings of data within limits, and returns the first fault of other bytes with
//! its offset. [`walk`] returns the same length or fault without building a datum. [`encode`] appends
//! the plain encoding of a datum.
//!
//! # How bytes are read
//!
//! One cycle of functions (`read_at`) goes down a schema's nodes, reads elements in place with a [`Cursor`], and passes
//! each part to a [`Make`], which also learns what the part is for, by the part's node. [`Nothing`] is one, and [`Wrapping`], which
//! makes what a [`Build`] builds, as [`Tree`] builds the datum. Most are told a [`Place`]: the node of a part, and the branch of the union
//! that its datum goes into, so that an output gets the index of the branch before the datum. Makers have an order `keeps`, so
//! that one may append to its own buffer as it goes.
//!
//! The cycle is proved sound, and nothing more (`ReadsNode`): a result stands for a datum whose encoding was passed, and an error is a
//! fault of the bytes. That there is no other result, and that the fault is the first, follows from laws about the definitions, so that
//! each call proves half as much. The exactness of reading is then one record of facts (`BuildsExactly`): its parts share their
//! arguments, and a proof names each of them. `ReadsExactly` and `WalksExactly` follow from it, and only name the datum and its length.
//! The depth left falls at each node, so the recursion ends, after 256 levels at most. A count or a length allocates nothing before its
//! bytes are there: items and entries are stored one by one, and contents are copied once.
//!
//! Generic code costs nothing at run time: a type without content vanishes. Leaves and the dispatcher are inlined, and nodes with parts
//! are calls. When data are read for a reader, a leaf other than a long is also a call: otherwise the dispatcher is too large to be
//! inlined, and each part costs a call.
//!
//! Four shortcuts change the time, not the result. The items after one that takes no bytes are the same datum: they are
//! added at once (`repeat`), and the cursor counts their nodes, so that a limit is exceeded exactly where reading them one
//! by one would exceed it. A datum or a run of fields without bytes, which may have a million nodes, is passed at once, by
//! what the `Schema` knows of it (`empty`, `empty_fields`). A record whose fields all are leaves is given to a maker that
//! accepts it as its bytes and the offsets where fields end (`ends`, `pieces`); if a leaf fails or the maker declines, the
//! record is read again part by part, so faults and limits are those of that way.
//! Items that are ints or longs are read in one loop into a list (`number_list`), and added at once (`numbers`); if one
//! of them fails or the maker declines, they are read again one by one.
#![tactic(auto)]

mod build;
mod encode_error;
pub mod laws;
mod leaf;
mod leaves;
mod make;
mod nothing;
mod pieces;
mod place;
mod read;
mod reading;
mod spare;
mod tree;
mod walking;
mod wrapping;
mod write;

pub use avro_cursor::{Block, Cursor, Keys, ReadError};
pub use build::Build;
pub use encode_error::EncodeError;
pub use leaf::Leaf;
pub use leaves::leaf_of;
pub use make::Make;
pub use nothing::Nothing;
pub use pieces::{Pieces, piece_of};
pub use place::Place;
pub use read::{decode, read_made, read_own};
pub use reading::read_at;
pub use spare::{give_list, list};
pub use tree::Tree;
pub use walking::walk;
pub use wrapping::Wrapping;
pub use write::{append_plain, encode};
