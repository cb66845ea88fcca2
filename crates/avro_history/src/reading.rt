//! Reading the certificates of a history.

ghost use Rattle.std.specs.Prelude.{◌≡◌, ◌≢◌, ℕ, true, List, ◌++◌, map, IfOk, MatchOption};
ghost use Rattle.std.specs.Result.{IfErr};
ghost use Rattle.avro_history.specs.HistoryText.{Sets, all_small};
ghost use Rattle.avro_history.specs.HistoryRead.{UnlessOutOfMemory};
ghost use Rattle.avro_history.specs.SeenHistory.{set_of};
ghost use Rattle.avro_history.specs.inside.CertificatesRead.{AreLines, RefusesLines};

use crate::cutting::split_certificate;
use avro_judge::{CertError, Certificate};
use std::alloc::Global;

/// The text after the line that it starts with.
pub(crate) fn after<'a>(text: &'a [u8], line: &[u8]) -> Option<&'a [u8]>
    ensures { MatchOption result ((rest : List ℕ) → text.now ≢ line.now ++ rest) (λ rest. text.now ≡ line.now ++ rest.now) }
{
    text.strip_prefix(line)
}

/// Reads certificates up to a line `end` that does not belong to any of them, which must end the text. A
/// number that is too large is reported only if the whole text has the right form.
pub(crate) fn read_certificates(alloc: Global, text: &[u8]) -> Result<Vec<Certificate>, CertError>
    ensures found { IfOk result (λ v. AreLines (map set_of v.items) text.now) }
    ensures small { IfOk result (λ v. all_small (map set_of v.items) ≡ true) }
    ensures complete { (sets : List Sets) → AreLines sets text.now → all_small sets ≡ true
        → UnlessOutOfMemory result (λ v. map set_of v.items ≡ sets) }
    ensures refused { IfErr result (λ e. RefusesLines e text.now) }
{
    let mut certificates = Vec::new(alloc);
    let mut is_too_large = false;
    let mut rest = text;
    while rest != b"end\n".as_slice() {
        let (front, more) = split_certificate(rest);
        match Certificate::read(alloc, front) {
            Ok(certificate) => certificates.push(certificate)?,
            Err(CertError::NumberTooLarge) => is_too_large = true,
            Err(CertError::Malformed) => return Err(CertError::Malformed),
            Err(CertError::OutOfMemory) => return Err(CertError::OutOfMemory),
        }
        rest = more;
    }
    if is_too_large {
        Err(CertError::NumberTooLarge)
    } else {
        Ok(certificates)
    }
}
