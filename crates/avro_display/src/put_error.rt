use avro_device::DeviceFault;
use avro_schema::Memory;
use std::alloc::AllocError;
use thiserror::Error;

/// Why a text was not put.
#[derive(Clone, Copy, Debug, PartialEq, Eq, Error)]
pub enum PutError {
    /// The output failed, or took none of the bytes.
    #[error("cannot write")]
    CannotWrite,
    /// Memory ran out.
    #[error("out of memory")]
    OutOfMemory,
}

impl From<Memory> for PutError {
    ghost use Rattle.std.specs.Prelude.{◌≡◌};
    ghost use Rattle.avro_display.specs.declared.put_error.PutError.TheVariants.{OutOfMemory};

    ghost from_gives = { λ _ error. error ≡ OutOfMemory };

    fn from(_error: Memory) -> PutError {
        PutError::OutOfMemory
    }
}

impl From<AllocError> for PutError {
    ghost use Rattle.std.specs.Prelude.{◌≡◌};
    ghost use Rattle.avro_display.specs.declared.put_error.PutError.TheVariants.{OutOfMemory};

    ghost from_gives = { λ _ error. error ≡ OutOfMemory };

    fn from(_error: AllocError) -> PutError {
        PutError::OutOfMemory
    }
}

impl From<DeviceFault> for PutError {
    ghost use Rattle.std.specs.Prelude.{◌≡◌};
    ghost use Rattle.avro_display.specs.declared.put_error.PutError.TheVariants.{CannotWrite};

    ghost from_gives = { λ _ error. error ≡ CannotWrite };

    fn from(_error: DeviceFault) -> PutError {
        PutError::CannotWrite
    }
}
