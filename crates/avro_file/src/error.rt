use avro_binary::ReadError;
use avro_resolve::Fault;
use avro_schema::Memory;
use avro_schema_json::SchemaError;
use avro_zigzag::VarError;
use std::alloc::{AllocError, AllocFailed};
use thiserror::Error;

/// Why a block's count or size is invalid.
#[derive(Clone, Copy, Debug, PartialEq, Eq, Error)]
pub enum CountError {
    /// It is not a valid long.
    #[error("{0}")]
    Invalid(VarError),
    /// It is negative.
    #[error("negative")]
    Negative,
}

/// Where a limit is exceeded. Blocks and data are counted from 0.
#[derive(Clone, Copy, Debug, PartialEq, Eq, Error)]
#[error("{}", self.code())]
pub enum LimitPlace {
    /// In the header.
    Header,
    /// In a block, or in its copy.
    #[error("{code} block {0}", code = self.code())]
    Block(u64),
    /// In a datum of a block.
    #[error("{code} block {0} datum {1}", code = self.code())]
    Datum(u64, u32),
}

/// Why a file cannot be read or copied (Avro 1.11, "Object Container Files"). Blocks and data are counted from 0.
#[derive(Debug, PartialEq, Eq, Drop, Error)]
#[error("{}", self.code())]
pub enum CopyError {
    /// The file does not start with the four magic bytes.
    NoMagic,
    /// The metadata is not a map of bytes. The offset counts from the start of the file.
    #[error("{code}: {0}", code = self.code())]
    InvalidMetadata(ReadError),
    /// The metadata has no `avro.schema`.
    NoSchema,
    /// `avro.schema` is not a schema.
    #[error("{code}: {0}", code = self.code())]
    InvalidSchema(SchemaError),
    /// `avro.codec` is not `null`.
    UnknownCodec,
    /// A block's count or size is invalid.
    #[error("{code} block {0}: {1}", code = self.code())]
    InvalidCount(u64, CountError),
    /// A block has bytes after its last datum.
    #[error("{code} block {0}", code = self.code())]
    BytesLeft(u64),
    /// The marker after a block differs from the header's.
    #[error("{code} block {0}", code = self.code())]
    WrongMarker(u64),
    /// A limit is exceeded.
    #[error("{0}")]
    LimitExceeded(LimitPlace),
    /// A datum of a block is not validly encoded. The offset counts from the start of the block's data.
    #[error("{code} block {0} datum {1}: {2}", code = self.code())]
    InvalidDatum(u64, u32, ReadError),
    /// A datum of a block does not resolve.
    #[error("{code} block {0} datum {1}: {2}", code = self.code())]
    UnresolvedDatum(u64, u32, Fault),
    /// The input failed in this call.
    #[error("cannot read")]
    InputFailed,
    /// The output failed in this call, or took none of the bytes.
    #[error("cannot write")]
    OutputFailed,
    /// Memory ran out.
    #[error("out of memory")]
    OutOfMemory,
    /// An earlier call failed.
    FailedBefore,
    /// The input ends in the header.
    CutHeader,
    /// The input ends in a block.
    #[error("{code} block {0}", code = self.code())]
    CutBlock(u64),
}

impl LimitPlace {
    ghost use Rattle.std.specs.Prelude.{◌≡◌};
    ghost use Rattle.avro_file.specs.ErrorText.{limit_code};

    /// The code of each limit that is exceeded: C9.
    pub fn code(self) -> &'static str
        ensures { result.now ≡ limit_code }
    {
        "C9"
    }
}

impl CopyError {
    ghost use Rattle.std.specs.Prelude.{◌≡◌};
    ghost use Rattle.avro_file.specs.ErrorText.{error_code, place_of};

    /// The error's code: C1 to C16.
    pub fn code(&self) -> &'static str
        ensures { result.now ≡ error_code self.now }
    {
        match self {
            CopyError::NoMagic => "C1",
            CopyError::InvalidMetadata(_) => "C2",
            CopyError::NoSchema => "C3",
            CopyError::InvalidSchema(_) => "C4",
            CopyError::UnknownCodec => "C5",
            CopyError::InvalidCount(_, _) => "C6",
            CopyError::BytesLeft(_) => "C7",
            CopyError::WrongMarker(_) => "C8",
            CopyError::LimitExceeded(place) => place.code(),
            CopyError::InvalidDatum(_, _, _) => "C10",
            CopyError::UnresolvedDatum(_, _, _) => "C11",
            CopyError::InputFailed => "C12",
            CopyError::OutputFailed => "C13",
            CopyError::OutOfMemory => "C14",
            CopyError::FailedBefore => "C15",
            CopyError::CutHeader | CopyError::CutBlock(_) => "C16",
        }
    }

    /// The block or datum that the error is in; otherwise the header.
    pub fn place(&self) -> LimitPlace
        ensures { result ≡ place_of self.now }
    {
        match self {
            CopyError::InvalidCount(block, _) => LimitPlace::Block(*block),
            CopyError::BytesLeft(block) => LimitPlace::Block(*block),
            CopyError::WrongMarker(block) => LimitPlace::Block(*block),
            CopyError::CutBlock(block) => LimitPlace::Block(*block),
            CopyError::LimitExceeded(place) => *place,
            CopyError::InvalidDatum(block, datum, _) => LimitPlace::Datum(*block, *datum),
            CopyError::UnresolvedDatum(block, datum, _) => LimitPlace::Datum(*block, *datum),
            _ => LimitPlace::Header,
        }
    }
}

impl From<AllocError> for CopyError {
    ghost use Rattle.std.specs.Prelude.{◌≡◌};
    ghost use Rattle.avro_file.specs.declared.error.CopyError.TheVariants.{OutOfMemory};

    ghost from_gives = { λ _ error. error ≡ OutOfMemory };

    fn from(_error: AllocError) -> CopyError {
        CopyError::OutOfMemory
    }
}

impl<T: Drop> From<AllocFailed<T>> for CopyError {
    ghost use Rattle.std.specs.Prelude.{◌≡◌};
    ghost use Rattle.avro_file.specs.declared.error.CopyError.TheVariants.{OutOfMemory};

    ghost from_gives = { λ _ error. error ≡ OutOfMemory };

    fn from(_error: AllocFailed<T>) -> CopyError {
        CopyError::OutOfMemory
    }
}

impl From<Memory> for CopyError {
    ghost use Rattle.std.specs.Prelude.{◌≡◌};
    ghost use Rattle.avro_file.specs.declared.error.CopyError.TheVariants.{OutOfMemory};

    ghost from_gives = { λ _ error. error ≡ OutOfMemory };

    fn from(_error: Memory) -> CopyError {
        CopyError::OutOfMemory
    }
}
