ghost use Rattle.avro_schema_json.specs.Refusals.{refusal_of};
ghost use Rattle.avro_schema_json.specs.inside.NameRefusal.{refusal_of_name};
ghost use Rattle.avro_schema_json.specs.declared.error.SchemaError.TheVariants.{OutOfMemory};

use avro_name::NameError;
use avro_schema::{DraftError, Memory};
use std::alloc::{AllocError, AllocFailed};
use thiserror::Error;

/// Why a text is not a schema. Each is shown as its code.
#[derive(Clone, Copy, Debug, PartialEq, Eq, Hash, Error)]
#[error("{}", self.code())]
pub enum SchemaError {
    /// The text is not JSON, is not UTF-8, or nests more than 127 levels.
    NotJson,
    /// A reference to a type that is not defined before it.
    UnknownName,
    /// A name that is defined twice.
    DuplicateName,
    /// A name, namespace, alias or symbol that breaks the rules of names.
    InvalidName,
    /// An attribute is missing or of a wrong kind, or the JSON is not a schema.
    InvalidDeclaration,
    /// A union that is empty, holds a union, or holds two branches of one kind.
    InvalidUnion,
    /// An enum without symbols, with a symbol twice, or with an unknown default.
    InvalidSymbols,
    /// A name or an alias that two fields of a record have.
    DuplicateField,
    /// A default that is not a datum of its field.
    InvalidDefault,
    /// A type `float`, `double` or `error`.
    UnsupportedType,
    /// A number that is not a whole number of 64 bits.
    UnsupportedNumber,
    /// The text, the number of nodes or a count in it is over its limit.
    LimitExceeded,
    /// Memory ran out.
    OutOfMemory,
}

impl SchemaError {
    ghost use Rattle.std.specs.Prelude.{◌≡◌};
    ghost use Rattle.avro_schema_json.specs.Refusals.{schema_code};

    /// The error's code: S1 to S13.
    pub fn code(self) -> &'static str
        ensures { result.now ≡ schema_code self }
    {
        match self {
            SchemaError::NotJson => "S1",
            SchemaError::UnknownName => "S2",
            SchemaError::DuplicateName => "S3",
            SchemaError::InvalidName => "S4",
            SchemaError::InvalidDeclaration => "S5",
            SchemaError::InvalidUnion => "S6",
            SchemaError::InvalidSymbols => "S7",
            SchemaError::DuplicateField => "S8",
            SchemaError::InvalidDefault => "S9",
            SchemaError::UnsupportedType => "S10",
            SchemaError::UnsupportedNumber => "S11",
            SchemaError::LimitExceeded => "S12",
            SchemaError::OutOfMemory => "S13",
        }
    }
}

impl From<DraftError> for SchemaError {
    ghost use Rattle.std.specs.Prelude.{◌≡◌};

    ghost from_gives = { λ e refusal. refusal ≡ refusal_of e };

    fn from(e: DraftError) -> SchemaError {
        match e {
            DraftError::UnknownNode => SchemaError::UnknownName,
            DraftError::DuplicateName => SchemaError::DuplicateName,
            DraftError::InvalidName => SchemaError::InvalidName,
            DraftError::InvalidUnion => SchemaError::InvalidUnion,
            DraftError::InvalidSymbols => SchemaError::InvalidSymbols,
            DraftError::DuplicateField => SchemaError::DuplicateField,
            DraftError::InvalidDefault => SchemaError::InvalidDefault,
            DraftError::LimitExceeded => SchemaError::LimitExceeded,
            DraftError::OutOfMemory => SchemaError::OutOfMemory,
        }
    }
}

impl From<NameError> for SchemaError {
    ghost use Rattle.std.specs.Prelude.{◌≡◌};

    ghost from_gives = { λ e refusal. refusal ≡ refusal_of_name e };

    fn from(e: NameError) -> SchemaError {
        match e {
            NameError::OutOfMemory => SchemaError::OutOfMemory,
            NameError::EmptyPart | NameError::BadCharacter | NameError::PrimitiveName => {
                SchemaError::InvalidName
            }
        }
    }
}

impl From<Memory> for SchemaError {
    ghost use Rattle.std.specs.Prelude.{◌≡◌};

    ghost from_gives = { λ _ e. e ≡ OutOfMemory };

    fn from(_error: Memory) -> SchemaError {
        SchemaError::OutOfMemory
    }
}

impl From<AllocError> for SchemaError {
    ghost use Rattle.std.specs.Prelude.{◌≡◌};

    ghost from_gives = { λ _ e. e ≡ OutOfMemory };

    fn from(_error: AllocError) -> SchemaError {
        SchemaError::OutOfMemory
    }
}

impl<T: Drop> From<AllocFailed<T>> for SchemaError {
    ghost use Rattle.std.specs.Prelude.{◌≡◌};

    ghost from_gives = { λ _ e. e ≡ OutOfMemory };

    fn from(_error: AllocFailed<T>) -> SchemaError {
        SchemaError::OutOfMemory
    }
}
