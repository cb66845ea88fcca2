//! The lines of refused schemas and certificates.

use avro_answer::{certificate_refusal, schema_refusal};
use avro_judge::CertError;
use avro_schema_json::SchemaError;
use std::alloc::{AllocError, Global};
use std::test::Fail;

/// Whether the line of a refused schema is this.
fn is_schema_line(alloc: Global, line: &[u8]) -> Result<bool, AllocError> {
    Ok(schema_refusal(alloc, "w", SchemaError::UnsupportedType)?.as_slice() == line)
}

/// Whether the line of a refused certificate is this.
fn is_certificate_line(alloc: Global, line: &[u8]) -> Result<bool, AllocError> {
    Ok(certificate_refusal(alloc, "c", CertError::NumberTooLarge)?.as_slice() == line)
}

#[test]
fn refusals_have_their_lines(rt: HostRuntime) -> Result<(), Fail> {
    let schema = is_schema_line(rt.alloc(), b"avro: w: S10\n")?;
    let certificate = is_certificate_line(rt.alloc(), b"avro: c: G2\n")?;
    assert_eq!(rt; (schema, certificate), (true, true));
    Ok(())
}
