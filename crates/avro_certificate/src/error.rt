ghost use Rattle.std.specs.Prelude.{◌≡◌};
ghost use Rattle.avro_certificate.specs.declared.error.CertError.TheVariants.{OutOfMemory};

use std::alloc::AllocFailed;
use thiserror::Error;

/// Why a text cannot be read as a certificate.
#[derive(Clone, Copy, Debug, PartialEq, Eq, Error)]
#[error("{}", self.code())]
pub enum CertError {
    /// It is not the text of a certificate, or longer than any.
    Malformed,
    /// It has the form of a certificate, but a number over 4,095.
    NumberTooLarge,
    /// Memory ran out.
    OutOfMemory,
}

impl CertError {
    ghost use Rattle.avro_certificate.specs.CertificateRead.{certificate_code};

    /// The error's code: G1 to G3.
    pub fn code(self) -> &'static str
        ensures { result.now ≡ certificate_code self }
    {
        match self {
            CertError::Malformed => "G1",
            CertError::NumberTooLarge => "G2",
            CertError::OutOfMemory => "G3",
        }
    }
}

impl<T: Drop> From<AllocFailed<T>> for CertError {
    ghost from_gives = { λ _ e. e ≡ OutOfMemory };

    fn from(_e: AllocFailed<T>) -> CertError {
        CertError::OutOfMemory
    }
}
