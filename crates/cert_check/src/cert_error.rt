//! Why a value is not read as a certificate, with the number of each reason.

ghost use Rattle.std.specs.Prelude.{◌≡◌};
ghost use Rattle.cert_check.specs.CertErrors.{number_of};

use std::alloc::{AllocError, AllocFailed};
use thiserror::Error;

/// Why a value was not read as a certificate.
#[derive(Clone, Copy, Debug, PartialEq, Eq, Error)]
pub enum CertError {
    /// An allocation was refused.
    #[error("no memory")]
    Memory,
    /// The value is the form of no certificate.
    #[error("no certificate")]
    BadCertificate,
}

impl From<AllocError> for CertError {
    ghost use Rattle.std.specs.Prelude.{◌≡◌};
    ghost use Rattle.cert_check.specs.declared.cert_error.CertError.TheVariants.{Memory};

    ghost from_gives = { λ _ e. e ≡ Memory };

    fn from(_refused: AllocError) -> CertError {
        CertError::Memory
    }
}

impl<T: Drop> From<AllocFailed<T>> for CertError {
    ghost use Rattle.std.specs.Prelude.{◌≡◌};
    ghost use Rattle.cert_check.specs.declared.cert_error.CertError.TheVariants.{Memory};

    ghost from_gives = { λ _ e. e ≡ Memory };

    fn from(_refused: AllocFailed<T>) -> CertError {
        CertError::Memory
    }
}

impl CertError {
    /// The number by which the refusal is reported: 8 or 20.
    pub fn number(&self) -> u8
        ensures { result ≡ number_of self.now }
    {
        match self {
            CertError::Memory => 8,
            CertError::BadCertificate => 20,
        }
    }
}
