use std::alloc::AllocError;
use thiserror::Error;

/// Why a text is not a name. If it has several faults, this is one of them.
#[derive(Clone, Copy, Debug, PartialEq, Eq, Error)]
#[error("{}", self.code())]
pub enum NameError {
    /// A part is empty: nothing stands before, after or between dots.
    EmptyPart,
    /// A character is not allowed at its position.
    BadCharacter,
    /// The simple part is the name of a primitive type.
    PrimitiveName,
    /// Memory ran out.
    OutOfMemory,
}

impl NameError {
    ghost use Rattle.std.specs.Prelude.{◌≡◌};
    ghost use Rattle.avro_name.specs.NameFault.{name_code};

    /// The error's code: N1 to N4.
    pub fn code(self) -> &'static str
        ensures { result.now ≡ name_code self }
    {
        match self {
            NameError::EmptyPart => "N1",
            NameError::BadCharacter => "N2",
            NameError::PrimitiveName => "N3",
            NameError::OutOfMemory => "N4",
        }
    }
}

impl From<AllocError> for NameError {
    ghost use Rattle.std.specs.Prelude.{◌≡◌};
    ghost use Rattle.avro_name.specs.declared.error.NameError.TheVariants.{OutOfMemory};

    ghost from_gives = { λ _ e. e ≡ OutOfMemory };

    fn from(_error: AllocError) -> NameError {
        NameError::OutOfMemory
    }
}
