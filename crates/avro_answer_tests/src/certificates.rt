//! How refusals of certificates, and faults, are shown.

use avro_judge::CertError;
use avro_resolve::{Fault, FaultKind};
use std::alloc::{AllocError, Global};
use std::test::Fail;

/// The refusals, and their codes.
const CODES: [(CertError, &str); 3] = [
    (CertError::Malformed, "G1"),
    (CertError::NumberTooLarge, "G2"),
    (CertError::OutOfMemory, "G3"),
];

/// The code of the first refusal, if any, that is shown as another one.
fn wrong_code(
    alloc: Global,
    rows: &[(CertError, &'static str)],
) -> Result<Option<&'static str>, AllocError> {
    for (error, code) in rows {
        let shown = format!(in alloc; "{error}")?;
        if shown.as_str() != *code {
            return Ok(Some(code));
        }
    }
    Ok(None)
}

#[test]
fn refusals_are_shown_as_their_codes(rt: HostRuntime) -> Result<(), Fail> {
    assert_eq!(rt; wrong_code(rt.alloc(), &CODES[..])?, None);
    Ok(())
}

/// Faults, and how they are shown with their paths.
const FAULTS: [(FaultKind, &[usize], &str); 5] = [
    (FaultKind::NoMatch, &[], "NoMatch at /"),
    (FaultKind::NoBranch, &[0], "NoBranch at /0"),
    (
        FaultKind::MissingField(1),
        &[12, 0],
        "MissingField 1 at /12/0",
    ),
    (FaultKind::NoSymbol, &[], "NoSymbol at /"),
    (FaultKind::NotUtf8, &[], "NotUtf8 at /"),
];

/// How a fault is shown.
fn fault_text(alloc: Global, kind: FaultKind, steps: &[usize]) -> Result<String, AllocError> {
    let path = steps.to_vec(alloc)?;
    shown(alloc, Fault { kind, path })
}

/// The text of a fault.
fn shown(alloc: Global, fault: Fault) -> Result<String, AllocError> {
    format!(in alloc; "{fault}")
}

/// The text of the first fault, if any, that is shown as another one.
fn wrong_fault(
    alloc: Global,
    rows: &[(FaultKind, &[usize], &'static str)],
) -> Result<Option<&'static str>, AllocError> {
    for (kind, steps, text) in rows {
        let found = fault_text(alloc, *kind, steps)?;
        if found.as_str() != *text {
            return Ok(Some(text));
        }
    }
    Ok(None)
}

#[test]
fn faults_are_shown(rt: HostRuntime) -> Result<(), Fail> {
    assert_eq!(rt; wrong_fault(rt.alloc(), &FAULTS[..])?, None);
    Ok(())
}
