ghost use Rattle.std.specs.Prelude.{◌≡◌};
ghost use Rattle.avro_schema.specs.declared.fault.DraftError.TheVariants.{OutOfMemory};

use crate::datum::Memory;
use std::alloc::AllocFailed;
use thiserror::Error;

/// Why nodes do not form a schema. If they have several faults, this is one of them.
#[derive(Clone, Copy, Debug, PartialEq, Eq, Error)]
#[error("{}", self.code())]
pub enum DraftError {
    /// An edge goes to a node that does not exist, or that is neither later nor a record, an enum or a fixed.
    UnknownNode,
    /// Two types have the same fullname.
    DuplicateName,
    /// A symbol, or the name or an alias of a field, is not a simple name.
    InvalidName,
    /// A union whose edges are valid has no branch, a union as a branch, or two branches of the same kind.
    InvalidUnion,
    /// An enum has no symbol, a duplicate symbol, or a default that is not one of its symbols.
    InvalidSymbols,
    /// A name or alias occurs twice among the fields of a record.
    DuplicateField,
    /// A default is not a datum of its field, in a record whose edges are valid.
    InvalidDefault,
    /// There is no node, or there are more than 4,096; or an enum has more than 1,048,576 symbols, or a
    /// fixed has more bytes than that.
    LimitExceeded,
    /// Memory ran out.
    OutOfMemory,
}

impl DraftError {
    ghost use Rattle.avro_schema.specs.Faulty.{draft_code};

    /// The error's code: one of S2 to S9, S12 and S13.
    pub fn code(self) -> &'static str
        ensures { result.now ≡ draft_code self }
    {
        match self {
            DraftError::UnknownNode => "S2",
            DraftError::DuplicateName => "S3",
            DraftError::InvalidName => "S4",
            DraftError::InvalidUnion => "S6",
            DraftError::InvalidSymbols => "S7",
            DraftError::DuplicateField => "S8",
            DraftError::InvalidDefault => "S9",
            DraftError::LimitExceeded => "S12",
            DraftError::OutOfMemory => "S13",
        }
    }
}

impl<T: Drop> From<AllocFailed<T>> for DraftError {
    ghost from_gives = { λ _ e. e ≡ OutOfMemory };

    fn from(_e: AllocFailed<T>) -> DraftError {
        DraftError::OutOfMemory
    }
}

impl From<Memory> for DraftError {
    ghost from_gives = { λ _ e. e ≡ OutOfMemory };

    fn from(_e: Memory) -> DraftError {
        DraftError::OutOfMemory
    }
}
