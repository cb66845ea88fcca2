//! Files of certificates.

ghost use Rattle.std.specs.Prelude.{◌≡◌, true, IfOk};
ghost use Rattle.std.specs.Option.{IfSome};
ghost use Rattle.std.specs.Result.{IfErr};
ghost use Rattle.avro_certificate.specs.CertificateText.{CertText, are_small};
ghost use Rattle.avro_certificate.specs.SeenCertificate.{dead_of, pairs_in};
ghost use Rattle.avro_tool.specs.TextsRefused.{RefusesCertificateOf, RefusesNothing};

use crate::failure::Failure;
use crate::files::schema::bytes_of;
use crate::files::texts::Texts;
use avro_history::HistoryCert;
use avro_judge::{Approved, CertError, Certificate};
use std::fs;
use std::rt::Files;

/// The certificate in a file.
pub(crate) fn read_certificate_file<'a, T: Texts>(
    texts: &T,
    word: &'a str,
) -> Result<Certificate, Failure<'a>>
    ensures found { IfOk result (λ c. IfSome (T.known texts.now word.now) (λ text. CertText (dead_of c) (pairs_in c) text)) }
    ensures small { IfOk result (λ c. are_small (dead_of c) (pairs_in c) ≡ true) }
    ensures refused { IfErr result (RefusesCertificateOf (T.known texts.now) word.now) }
{
    let bytes = bytes_of_certificates(texts, word)?;
    match Certificate::read(texts.alloc(), &bytes) {
        Ok(certificate) => Ok(certificate),
        Err(e) => Err(Failure::of_certificate(word, e)),
    }
}

/// Writes the certificate of an approval into a file.
pub(crate) fn write_certificate_file<'a, R: Files + AllocGlobal>(
    rt: &R,
    approved: &Approved<'_>,
    word: &'a str,
) -> Result<(), Failure<'a>>
    ensures { IfErr result RefusesNothing }
{
    let certificate = approved.certificate(rt.alloc())?;
    let text = certificate.write(rt.alloc())?;
    match fs::write(rt, word, &text) {
        Ok(()) => Ok(()),
        Err(e) => Err(Failure::of_writing(word, &e)),
    }
}

/// The history in a file.
pub(crate) fn read_history_file<'a, T: Texts>(
    texts: &T,
    word: &'a str,
) -> Result<HistoryCert, Failure<'a>> {
    let bytes = bytes_of_certificates(texts, word)?;
    match HistoryCert::read(texts.alloc(), &bytes) {
        Ok(history) => Ok(history),
        Err(e) => Err(Failure::of_certificate(word, e)),
    }
}

/// Writes certificates into a file, in order.
pub(crate) fn write_history_file<'a, R: Files + AllocGlobal>(
    rt: &R,
    certificates: Vec<Certificate>,
    word: &'a str,
) -> Result<(), Failure<'a>> {
    let text = HistoryCert::new(certificates).write(rt.alloc())?;
    match fs::write(rt, word, &text) {
        Ok(()) => Ok(()),
        Err(e) => Err(Failure::of_writing(word, &e)),
    }
}

/// The bytes of a file of certificates. At most one byte more than a text may have is read, once; a
/// longer text is refused.
fn bytes_of_certificates<'a, T: Texts>(texts: &T, word: &'a str) -> Result<Vec<u8>, Failure<'a>>
    ensures found { IfOk result (λ bytes. IfSome (T.known texts.now word.now) (λ text. bytes.items ≡ text)) }
    ensures refused { IfErr result (RefusesCertificateOf (T.known texts.now) word.now) }
{
    let bytes = bytes_of(texts, word, Certificate::MAX_LEN as u64 + 1)?;
    if bytes.len() > Certificate::MAX_LEN {
        return Err(Failure::of_certificate(word, CertError::Malformed));
    }
    Ok(bytes)
}
