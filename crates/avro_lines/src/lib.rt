//! Lines of the data of an object container file: [`show`] takes a file and puts a line for each datum, or for the first ones. A line
//! is the display of a datum, resolved for a reader if there is one, and a line feed.
//!
//! # How a block is shown
//!
//! A block is taken whole. The lines of its data are held while its bytes are read, once, and are cut off again if they turn out to
//! have a fault, so that nothing is put of a block with a fault. Where more than 1 MiB is held, a display has more than 64 KiB, or only a
//! part of the block is shown, the block is walked over first, and its lines may then go out before the last of them is made. A datum
//! with a long display is built after the walk, and its line is put in pieces.
//!
//! What is held goes out before all else, so the contracts see what was put and what is held as one list of bytes: a step
//! appends the lines of what it passes, and on a fault of a block that list is as it was before the block.
#![tactic(auto)]

mod block;
mod holding;
mod line;
mod reaching;
mod showing;
mod successive;
mod task;

pub use showing::show;
