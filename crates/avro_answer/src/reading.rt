//! Reading the texts that an answer is about.

ghost use Rattle.std.specs.Prelude.{◌≡◌, ◌<◌, true, length, IfOk, IsErrOf};
ghost use Rattle.std.specs.Result.{IfErr};
ghost use Rattle.avro_schema.specs.SeenSchema.{schema_nodes};
ghost use Rattle.avro_schema_json.specs.Declaration.{max_text};
ghost use Rattle.avro_certificate.specs.CertificateText.{CertText, are_small};
ghost use Rattle.avro_certificate.specs.SeenCertificate.{dead_of, pairs_in};
ghost use Rattle.avro_answer.specs.ConfirmAnswer.{HasCertificate};
ghost use Rattle.avro_answer.specs.ReadText.{IsReadAs};
ghost use Rattle.avro_answer.specs.RefusalText.{HasSchema, RefusesOne};
ghost use Rattle.avro_answer.specs.inside.Read.{RefusesReader, RefusesCertificate};
ghost use Rattle.avro_answer.specs.declared.refusal.Refusal.TheVariants.{Writer, Reader, OutOfMemory};
ghost use Rattle.avro_schema_json.specs.declared.error.SchemaError.{SchemaError};

use crate::refusal::Refusal;
use avro_certificate::{CertError, Certificate};
use avro_schema::Schema;
use avro_schema_json::{SchemaError, read_schema};
use std::alloc::Global;

/// The schema of the writer's text.
pub(crate) fn read_writer(alloc: Global, text: &[u8]) -> Result<Schema, Refusal>
    ensures found { IfOk result (λ schema. IsReadAs text.now (schema_nodes schema)) }
    ensures too_long { max_text < length text.now → IsErrOf result (Writer SchemaError.LimitExceeded) }
    ensures refused { IfErr result (RefusesOne text.now) }
    ensures complete { HasSchema text.now → IfErr result (λ e. e ≡ OutOfMemory) }
{
    match read_schema(alloc, text) {
        Ok(schema) => Ok(schema),
        Err(e) => Err(unless_memory(e, Refusal::Writer(e))),
    }
}

/// The schema of the reader's text.
pub(crate) fn read_reader(alloc: Global, text: &[u8]) -> Result<Schema, Refusal>
    ensures found { IfOk result (λ schema. IsReadAs text.now (schema_nodes schema)) }
    ensures too_long { max_text < length text.now → IsErrOf result (Reader SchemaError.LimitExceeded) }
    ensures refused { IfErr result (RefusesReader text.now) }
    ensures complete { HasSchema text.now → IfErr result (λ e. e ≡ OutOfMemory) }
{
    match read_schema(alloc, text) {
        Ok(schema) => Ok(schema),
        Err(e) => Err(unless_memory(e, Refusal::Reader(e))),
    }
}

/// The refusal, or that memory ran out.
fn unless_memory(e: SchemaError, refusal: Refusal) -> Refusal
    ensures memory { e ≡ SchemaError.OutOfMemory → result ≡ OutOfMemory }
    ensures other { (e ≡ SchemaError.OutOfMemory → ⊥) → result ≡ refusal }
{
    if e == SchemaError::OutOfMemory {
        Refusal::OutOfMemory
    } else {
        refusal
    }
}

/// The certificate of a text.
pub(crate) fn read_certificate(alloc: Global, text: &[u8]) -> Result<Certificate, Refusal>
    ensures found { IfOk result (λ c. CertText (dead_of c) (pairs_in c) text.now) }
    ensures small { IfOk result (λ c. are_small (dead_of c) (pairs_in c) ≡ true) }
    ensures refused { IfErr result (RefusesCertificate text.now) }
    ensures complete { HasCertificate text.now → IfErr result (λ e. e ≡ OutOfMemory) }
{
    match Certificate::read(alloc, text) {
        Ok(certificate) => Ok(certificate),
        Err(CertError::OutOfMemory) => Err(Refusal::OutOfMemory),
        Err(e) => Err(Refusal::Certificate(e)),
    }
}
