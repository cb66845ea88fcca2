//! Integers in Avro's binary encoding: zig-zag, then groups of seven bits.
//!
//! [`read_long`] and [`read_int`] read the number at the start of some bytes, padded or not, or return a [`VarError`].
//! [`write_long`] writes the shortest encoding, [`starts_shortest`] recognizes it, and [`to_zigzag`] computes the zig-zag
//! number.
#![tactic(auto)]

pub mod laws;
pub mod read;
pub mod shortest;
pub mod write;

pub use read::{read_int, read_long};
pub use shortest::starts_shortest;
use thiserror::Error;
pub use write::{to_zigzag, write_long};

/// Why no number can be read at the start of some bytes.
#[derive(Clone, Copy, Debug, PartialEq, Eq, Hash, Error)]
#[error("{}", self.code())]
pub enum VarError {
    /// The bytes end before the number does.
    EndOfInput,
    /// The number is not in its shortest encoding. Never returned: padded encodings are read.
    NotShortest,
    /// The number has more than 32 bits (for an int) or 64 bits (for a long).
    OutOfRange,
}

impl VarError {
    ghost use Rattle.std.specs.Prelude.{◌≡◌};
    ghost use Rattle.avro_zigzag.specs.NumberFault.{number_code};

    /// The error's code: Z1 to Z3.
    pub fn code(self) -> &'static str
        ensures { result.now ≡ number_code self }
    {
        match self {
            VarError::EndOfInput => "Z1",
            VarError::NotShortest => "Z2",
            VarError::OutOfRange => "Z3",
        }
    }
}
