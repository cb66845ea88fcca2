//! Texts that are refused.

ghost use Rattle.std.specs.Prelude.{◌≡◌, ◌++◌, IfOk};
ghost use Rattle.avro_schema_json.specs.Refusals.{schema_code};
ghost use Rattle.avro_certificate.specs.CertificateRead.{certificate_code};
ghost use Rattle.avro_answer.specs.RefusalText.{refusal_text};

use avro_certificate::CertError;
use avro_schema::Memory;
use avro_schema_json::SchemaError;
use std::alloc::{AllocError, AllocFailed, Global};
use thiserror::Error;

/// Which text is refused, and why.
#[derive(Clone, Copy, Debug, PartialEq, Eq, Error)]
pub enum Refusal {
    /// The writer's schema, or the only one.
    #[error("writer: {0}")]
    Writer(SchemaError),
    /// The reader's schema.
    #[error("reader: {0}")]
    Reader(SchemaError),
    /// The certificate.
    #[error("certificate: {0}")]
    Certificate(CertError),
    /// Memory ran out.
    #[error("out of memory")]
    OutOfMemory,
}

impl From<Memory> for Refusal {
    ghost use Rattle.avro_answer.specs.declared.refusal.Refusal.TheVariants.{OutOfMemory};

    ghost from_gives = { λ _ refusal. refusal ≡ OutOfMemory };

    fn from(_e: Memory) -> Refusal {
        Refusal::OutOfMemory
    }
}

impl From<AllocError> for Refusal {
    ghost use Rattle.avro_answer.specs.declared.refusal.Refusal.TheVariants.{OutOfMemory};

    ghost from_gives = { λ _ refusal. refusal ≡ OutOfMemory };

    fn from(_e: AllocError) -> Refusal {
        Refusal::OutOfMemory
    }
}

impl<T: Drop> From<AllocFailed<T>> for Refusal {
    ghost use Rattle.avro_answer.specs.declared.refusal.Refusal.TheVariants.{OutOfMemory};

    ghost from_gives = { λ _ refusal. refusal ≡ OutOfMemory };

    fn from(_e: AllocFailed<T>) -> Refusal {
        Refusal::OutOfMemory
    }
}

/// The line that reports a schema's text as refused, by the word that names its file.
///
/// # Errors
///
/// Memory ran out.
pub fn schema_refusal(alloc: Global, word: &str, error: SchemaError) -> Result<Vec<u8>, AllocError>
    ensures { IfOk result (λ line. line.items ≡ refusal_text word.now (schema_code error)) }
{
    refusal_line(alloc, word, error.code().as_bytes())
}

/// The line that reports a certificate's text as refused, by the word that names its file.
///
/// # Errors
///
/// Memory ran out.
pub fn certificate_refusal(
    alloc: Global,
    word: &str,
    error: CertError,
) -> Result<Vec<u8>, AllocError>
    ensures { IfOk result (λ line. line.items ≡ refusal_text word.now (certificate_code error)) }
{
    refusal_line(alloc, word, error.code().as_bytes())
}

/// The line of what is refused, and of the reason.
pub(crate) fn refusal_line(alloc: Global, word: &str, reason: &[u8]) -> Result<Vec<u8>, AllocError>
    ensures { IfOk result (λ line. line.items ≡ refusal_text word.now reason.now) }
{
    let mut line = Vec::new(alloc);
    line.extend_from_slice(b"avro: ")?;
    line.extend_from_slice(word.as_bytes())?;
    line.extend_from_slice(b": ")?;
    line.extend_from_slice(reason)?;
    line.push(b'\n')?;
    Ok(line)
}
