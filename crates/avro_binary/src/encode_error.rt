ghost use Rattle.std.specs.Prelude.{◌≡◌};
ghost use Rattle.avro_binary.specs.declared.encode_error.EncodeError.TheVariants.{OutOfMemory};

use std::alloc::AllocError;
use thiserror::Error;

/// Why a datum was not encoded.
#[derive(Clone, Copy, Debug, PartialEq, Eq, Error)]
#[error("{}", self.code())]
pub enum EncodeError {
    /// The datum is not one of the node's.
    DoesNotFit,
    /// Memory ran out.
    OutOfMemory,
}

impl EncodeError {
    ghost use Rattle.avro_binary.specs.EncodeCode.{encode_code};

    /// The error's code: E1 or E2.
    pub fn code(self) -> &'static str
        ensures { result.now ≡ encode_code self }
    {
        match self {
            EncodeError::DoesNotFit => "E1",
            EncodeError::OutOfMemory => "E2",
        }
    }
}

impl From<AllocError> for EncodeError {
    ghost from_gives = { λ _ error. error ≡ OutOfMemory };

    fn from(_error: AllocError) -> EncodeError {
        EncodeError::OutOfMemory
    }
}
