use avro_binary::ReadError;
use avro_compare::Fault;
use avro_schema::Memory;
use std::alloc::{AllocError, AllocFailed};
use thiserror::Error;

/// Why a datum has no resolution.
#[derive(Debug, PartialEq, Eq, Drop, Error)]
pub enum ResolveError {
    /// It has a fault.
    #[error("{0}")]
    Fault(Fault),
    /// Memory ran out.
    #[error("out of memory")]
    Memory,
}

impl ResolveError {
    ghost use Rattle.std.specs.Prelude.{◌≡◌};
    ghost use Rattle.avro_resolve.specs.ErrorCode.{resolve_code};

    /// The error's code: V1 to V6.
    pub fn code(&self) -> &'static str
        ensures { result.now ≡ resolve_code self.now }
    {
        match self {
            ResolveError::Fault(fault) => fault.kind.code(),
            ResolveError::Memory => "V6",
        }
    }
}

impl From<AllocError> for ResolveError {
    ghost use Rattle.std.specs.Prelude.{◌≡◌};
    ghost use Rattle.avro_resolve.specs.declared.error.ResolveError.TheVariants.{Memory as memory};

    ghost from_gives = { λ _ error. error ≡ memory };

    fn from(_error: AllocError) -> ResolveError {
        ResolveError::Memory
    }
}

impl<T: Drop> From<AllocFailed<T>> for ResolveError {
    ghost use Rattle.std.specs.Prelude.{◌≡◌};
    ghost use Rattle.avro_resolve.specs.declared.error.ResolveError.TheVariants.{Memory as memory};

    ghost from_gives = { λ _ error. error ≡ memory };

    fn from(_error: AllocFailed<T>) -> ResolveError {
        ResolveError::Memory
    }
}

impl From<Memory> for ResolveError {
    ghost use Rattle.std.specs.Prelude.{◌≡◌};
    ghost use Rattle.avro_resolve.specs.declared.error.ResolveError.TheVariants.{Memory as memory};

    ghost from_gives = { λ _ error. error ≡ memory };

    fn from(_error: Memory) -> ResolveError {
        ResolveError::Memory
    }
}

/// Why bytes are not read into a reader's datum.
#[derive(Debug, PartialEq, Eq, Drop, Error)]
pub enum ReadResolveError {
    /// They begin with no encoding of a writer's datum within limits.
    #[error("{0}")]
    Read(ReadError),
    /// The writer's datum does not resolve.
    #[error("{0}")]
    Resolve(Fault),
}

impl ReadResolveError {
    ghost use Rattle.std.specs.Prelude.{◌≡◌};
    ghost use Rattle.avro_resolve.specs.ErrorCode.{read_resolve_code};

    /// The error's code: B1 to B10, or V1 to V5.
    pub fn code(&self) -> &'static str
        ensures { result.now ≡ read_resolve_code self.now }
    {
        match self {
            ReadResolveError::Read(error) => error.code(),
            ReadResolveError::Resolve(fault) => fault.kind.code(),
        }
    }
}
