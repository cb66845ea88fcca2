//! Object container files and their copies (Avro 1.11, "Object Container Files").
//!
//! What a file is read from and written to, and what reads its parts, is defined in the crates below: it is re-exported here,
//! so that a caller names one crate. A [`Sink`] puts a header and blocks. [`copy`] takes a whole file and puts its copy; a [`Copier`] does the same one part
//! per step. [`check`] takes a whole file and puts nothing.
//!
//! # How a file is copied
//!
//! Each block is taken whole, its data are read from the buffer and packed without building a datum, and the packed data
//! are put as one block. Without a reader, a datum's bytes are appended right after those of the previous datum; for a
//! reader they are gathered first. All data after one without bytes are the same datum, in this block and in later ones,
//! and are not read again. The names of two schemas are compared once per file: the copier keeps the plan table beside the
//! header, and its invariant is that the table is of the header's schema and the reader's. The table is made before the header is put, so
//! that nothing was put if memory runs out there.
//!
//! The contract of a step says what was held and taken before it, and what is put and held after it. A run of such steps
//! takes the start of a file and puts its copy: that is a law about the definitions alone (`laws.rt`), on which the loop of
//! `copy` rests.
#![tactic(auto)]

mod checking;
mod copying;
pub mod laws;
mod sink;

pub use avro_device::{DeviceFault, Input, Output, ReadInput, WriteOutput};
pub use avro_file::{Block, Blocks, CopyError, CountError, FileLimits, Header, LimitPlace};
pub use checking::check;
pub use copying::copier::Copier;
pub use copying::{Counts, Step, copy};
pub use sink::Sink;
