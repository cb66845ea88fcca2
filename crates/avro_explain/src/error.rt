ghost use Rattle.std.specs.Prelude.{◌≡◌};
ghost use Rattle.avro_explain.specs.declared.error.ExplainError.TheVariants.{OutOfMemory};

use avro_schema::Memory;
use std::alloc::AllocFailed;
use thiserror::Error;

/// Why the faults of two schemas are not reported.
#[derive(Clone, Copy, Debug, PartialEq, Eq, Error)]
pub enum ExplainError {
    /// The roots lead to more pairs than the limit.
    #[error("more pairs than the limit")]
    TooManyPairs,
    /// Memory ran out.
    #[error("out of memory")]
    OutOfMemory,
}

impl<T: Drop> From<AllocFailed<T>> for ExplainError {
    ghost from_gives = { λ _ e. e ≡ OutOfMemory };

    fn from(_e: AllocFailed<T>) -> ExplainError {
        ExplainError::OutOfMemory
    }
}

impl From<Memory> for ExplainError {
    ghost from_gives = { λ _ e. e ≡ OutOfMemory };

    fn from(_e: Memory) -> ExplainError {
        ExplainError::OutOfMemory
    }
}
