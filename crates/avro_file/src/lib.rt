//! Object container files (Avro 1.11, "Object Container Files").
//!
//! A file is read part by part from an `Input` of `avro_device`: [`Header::read`] takes its header, [`Blocks::next`] takes a
//! block, and [`Block::read`] reads the data of a block. A [`Checker`] reads those of all blocks, and knows whether one was without
//! bytes: all further data are then the same. A caller that keeps its own [`Buffer`] and may take ahead of the
//! part at hand uses [`take_header`] and [`take_block`].
//!
//! A [`Buffer`] holds the bytes that were taken but belong to no part yet. Its capacity is at most 65,536 bytes more than the most it has
//! held at once, and bytes are moved to its front only if the space after them is too short for a read. The header is taken part by part: the magic, the
//! blocks of the metadata, the marker. What is missing is asked for, and not a byte more unless the caller may take ahead.
//! A block is taken whole: its count and size, then as many bytes as they say, allocated 65,536 at a time, and its marker.
#![tactic(auto)]

mod block;
mod error;
mod header;
mod input;
pub mod laws;
mod limits;

pub use block::Block;
pub use block::blocks::Blocks;
pub use block::checker::Checker;
pub use block::datum::datum_error;
pub use block::frame::take_block;
pub use block::head::BlockHead;
pub use error::{CopyError, CountError, LimitPlace};
pub use header::frame::MAGIC;
pub use header::metadata::read_metadata;
pub use header::schema_and_codec::schema_text;
pub use header::{Header, take_header};
pub use input::Reach;
pub use input::buffer::Buffer;
pub use limits::FileLimits;
