//! How errors are shown: as their codes.

use avro_binary::EncodeError;
use avro_name::NameError;
use avro_schema::DraftError;
use avro_schema_json::SchemaError;
use std::alloc::{AllocError, Global};
use std::fmt::Display;
use std::test::Fail;

/// The code of the first row, if any, whose error is shown as something else.
fn wrong_code<E: Display>(
    alloc: Global,
    rows: &[(E, &'static str)],
) -> Result<Option<&'static str>, AllocError> {
    for (error, code) in rows {
        let shown = format!(in alloc; "{error}")?;
        if shown.as_str() != *code {
            return Ok(Some(code));
        }
    }
    Ok(None)
}

/// The errors of names, and their codes.
const NAMES: [(NameError, &str); 4] = [
    (NameError::EmptyPart, "N1"),
    (NameError::BadCharacter, "N2"),
    (NameError::PrimitiveName, "N3"),
    (NameError::OutOfMemory, "N4"),
];

#[test]
fn errors_of_names_are_shown_as_their_codes(rt: HostRuntime) -> Result<(), Fail> {
    assert_eq!(rt; wrong_code(rt.alloc(), &NAMES[..])?, None);
    Ok(())
}

/// The errors of schemas, and their codes.
const SCHEMAS: [(SchemaError, &str); 13] = [
    (SchemaError::NotJson, "S1"),
    (SchemaError::UnknownName, "S2"),
    (SchemaError::DuplicateName, "S3"),
    (SchemaError::InvalidName, "S4"),
    (SchemaError::InvalidDeclaration, "S5"),
    (SchemaError::InvalidUnion, "S6"),
    (SchemaError::InvalidSymbols, "S7"),
    (SchemaError::DuplicateField, "S8"),
    (SchemaError::InvalidDefault, "S9"),
    (SchemaError::UnsupportedType, "S10"),
    (SchemaError::UnsupportedNumber, "S11"),
    (SchemaError::LimitExceeded, "S12"),
    (SchemaError::OutOfMemory, "S13"),
];

#[test]
fn errors_of_schemas_are_shown_as_their_codes(rt: HostRuntime) -> Result<(), Fail> {
    assert_eq!(rt; wrong_code(rt.alloc(), &SCHEMAS[..])?, None);
    Ok(())
}

/// The errors of drafts, and their codes.
const DRAFTS: [(DraftError, &str); 9] = [
    (DraftError::UnknownNode, "S2"),
    (DraftError::DuplicateName, "S3"),
    (DraftError::InvalidName, "S4"),
    (DraftError::InvalidUnion, "S6"),
    (DraftError::InvalidSymbols, "S7"),
    (DraftError::DuplicateField, "S8"),
    (DraftError::InvalidDefault, "S9"),
    (DraftError::LimitExceeded, "S12"),
    (DraftError::OutOfMemory, "S13"),
];

#[test]
fn errors_of_drafts_are_shown_as_their_codes(rt: HostRuntime) -> Result<(), Fail> {
    assert_eq!(rt; wrong_code(rt.alloc(), &DRAFTS[..])?, None);
    Ok(())
}

/// The errors of encoding, and their codes.
const ENCODING: [(EncodeError, &str); 2] = [
    (EncodeError::DoesNotFit, "E1"),
    (EncodeError::OutOfMemory, "E2"),
];

#[test]
fn errors_of_encoding_are_shown_as_their_codes(rt: HostRuntime) -> Result<(), Fail> {
    assert_eq!(rt; wrong_code(rt.alloc(), &ENCODING[..])?, None);
    Ok(())
}
