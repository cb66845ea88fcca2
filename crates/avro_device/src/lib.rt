//! What a file is read from and written to.
//!
//! An [`Input`] supplies the bytes of a file in order, and an [`Output`] takes them. [`ReadInput`] and [`WriteOutput`]
//! adapt any reader and any writer; [`put_all`] puts a whole slice.
#![tactic(auto)]

mod device;
mod putting;
mod read_input;
mod write_output;

pub use device::{DeviceFault, Input, Output};
pub use putting::put_all;
pub use read_input::ReadInput;
pub use write_output::WriteOutput;
