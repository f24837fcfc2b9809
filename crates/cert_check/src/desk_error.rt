//! Why a case file is refused, or what is asked of a case, with the number of each reason.

ghost use Rattle.std.specs.Prelude.{◌≡◌};
ghost use Rattle.cert_check.specs.DeskErrors.{number_of};

use std::alloc::{AllocError, AllocFailed};
use thiserror::Error;

/// Why a desk refused to make or file a case file, or to do what was asked of a case.
#[derive(Clone, Copy, Debug, PartialEq, Eq, Error)]
pub enum DeskError {
    /// An allocation was refused.
    #[error("no memory")]
    Memory,
    /// The number of workers is not from 1 to 16.
    #[error("not 1 to 16 workers")]
    BadWorkers,
    /// The certificate is for another criterion, or does not have the shape of the history.
    #[error("a certificate of another shape")]
    ShapeMismatch,
    /// A desk has at most 64 cases.
    #[error("a desk has at most 64 cases")]
    Full,
    /// The pattern is not accepted for the file of the case.
    #[error("the pattern is not in the history")]
    NotThatPattern,
    /// The piece has a verdict.
    #[error("the piece has a verdict")]
    Doubled,
    /// What came is of another case.
    #[error("a verdict of another case")]
    Stranger,
    /// There is no such case or no such piece.
    #[error("no such case or piece")]
    NoSuch,
}

impl From<AllocError> for DeskError {
    ghost use Rattle.std.specs.Prelude.{◌≡◌};
    ghost use Rattle.cert_check.specs.declared.desk_error.DeskError.TheVariants.{Memory};

    ghost from_gives = { λ _ e. e ≡ Memory };

    fn from(_refused: AllocError) -> DeskError {
        DeskError::Memory
    }
}

impl<T: Drop> From<AllocFailed<T>> for DeskError {
    ghost use Rattle.std.specs.Prelude.{◌≡◌};
    ghost use Rattle.cert_check.specs.declared.desk_error.DeskError.TheVariants.{Memory};

    ghost from_gives = { λ _ e. e ≡ Memory };

    fn from(_refused: AllocFailed<T>) -> DeskError {
        DeskError::Memory
    }
}

impl DeskError {
    /// The number by which the refusal is reported: 8, 10, or 21 to 26.
    pub fn number(&self) -> u8
        ensures { result ≡ number_of self.now }
    {
        match self {
            DeskError::Memory => 8,
            DeskError::BadWorkers => 10,
            DeskError::ShapeMismatch => 21,
            DeskError::Full => 22,
            DeskError::NotThatPattern => 23,
            DeskError::Doubled => 24,
            DeskError::Stranger => 25,
            DeskError::NoSuch => 26,
        }
    }
}
