ghost use Rattle.std.specs.Prelude.{◌≡◌};
ghost use Rattle.avro_cursor.specs.declared.error.ReadError.TheVariants.{OutOfMemory};

use std::alloc::AllocError;
use thiserror::Error;

/// Why bytes do not start with an encoding within limits. `place` is the offset of the part that fails.
#[derive(Clone, Copy, Debug, PartialEq, Eq, Error)]
pub enum ReadError {
    /// The input ends before a number, a boolean or content does.
    #[error("{} at {place}", self.code())]
    EndOfInput { place: usize },
    /// A number has more than 32 bits (for an int) or 64 bits (for a long).
    #[error("{} at {place}", self.code())]
    InvalidNumber { place: usize },
    /// A boolean is neither 0 nor 1.
    #[error("{} at {place}", self.code())]
    InvalidBoolean { place: usize },
    /// A string or a map key is not UTF-8.
    #[error("{} at {place}", self.code())]
    InvalidText { place: usize },
    /// An index is not that of a branch or a symbol.
    #[error("{} at {place}", self.code())]
    UnknownIndex { place: usize },
    /// A length or a block's size is negative, or a block's count is the smallest long.
    #[error("{} at {place}", self.code())]
    InvalidLength { place: usize },
    /// A block's items do not have the size that its head gives.
    #[error("{} at {place}", self.code())]
    WrongBlockSize { place: usize },
    /// A key occurs twice in a map; `place` is the second occurrence.
    #[error("{} at {place}", self.code())]
    DuplicateKey { place: usize },
    /// A limit is exceeded.
    #[error("{}", self.code())]
    LimitExceeded,
    /// Memory ran out.
    #[error("{}", self.code())]
    OutOfMemory,
}

impl From<AllocError> for ReadError {
    ghost from_gives = { λ _ error. error ≡ OutOfMemory };

    fn from(_error: AllocError) -> ReadError {
        ReadError::OutOfMemory
    }
}

impl ReadError {
    ghost use Rattle.avro_cursor.specs.ErrorCode.{read_code, place_of};

    /// The error's code: B1 to B10.
    pub fn code(self) -> &'static str
        ensures { result.now ≡ read_code self }
    {
        match self {
            ReadError::EndOfInput { .. } => "B1",
            ReadError::InvalidNumber { .. } => "B2",
            ReadError::InvalidBoolean { .. } => "B3",
            ReadError::InvalidText { .. } => "B4",
            ReadError::UnknownIndex { .. } => "B5",
            ReadError::InvalidLength { .. } => "B6",
            ReadError::WrongBlockSize { .. } => "B7",
            ReadError::DuplicateKey { .. } => "B8",
            ReadError::LimitExceeded => "B9",
            ReadError::OutOfMemory => "B10",
        }
    }

    /// The offset of the part that fails, if there is one.
    pub fn place(self) -> Option<usize>
        ensures { result ≡ place_of self }
    {
        match self {
            ReadError::EndOfInput { place } => Some(place),
            ReadError::InvalidNumber { place } => Some(place),
            ReadError::InvalidBoolean { place } => Some(place),
            ReadError::InvalidText { place } => Some(place),
            ReadError::UnknownIndex { place } => Some(place),
            ReadError::InvalidLength { place } => Some(place),
            ReadError::WrongBlockSize { place } => Some(place),
            ReadError::DuplicateKey { place } => Some(place),
            ReadError::LimitExceeded | ReadError::OutOfMemory => None,
        }
    }
}
