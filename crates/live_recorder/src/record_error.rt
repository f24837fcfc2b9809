//! The reasons why a recorder is not made, or a step is not recorded.

ghost use Rattle.std.specs.Prelude.{◌≡◌};
ghost use Rattle.live_recorder.specs.RecordErrors.{number_of};

use std::alloc::{AllocError, AllocFailed};
use thiserror::Error;

/// Why a recorder was not made, or a step was not recorded.
#[derive(Clone, Copy, Debug, PartialEq, Eq, Error)]
pub enum RecordError {
    /// An allocation was refused.
    #[error("no memory")]
    Memory,
    /// A recorder has 1 to 16 lanes of 1 to 256 operations.
    #[error("a recorder has 1 to 16 lanes of 1 to 256 operations")]
    BadLimits,
    /// The session has begun as many operations as its lane has places.
    #[error("the lane is full")]
    LaneFull,
    /// The session's last operation has no return yet.
    #[error("an operation is still pending")]
    StillPending,
    /// A cell that was to be set already held a value. No run meets this.
    #[error("a cell gave the value back")]
    CellGaveBack,
    /// The session has no operation without a return.
    #[error("no operation is pending")]
    NothingPending,
    /// The pending call cannot have a return of this kind.
    #[error("the return doesn't fit the call")]
    WrongReturn,
}

impl From<AllocError> for RecordError {
    ghost use Rattle.std.specs.Prelude.{◌≡◌};
    ghost use Rattle.live_recorder.specs.declared.record_error.RecordError.TheVariants.{Memory};

    ghost from_gives = { λ _ e. e ≡ Memory };

    fn from(_refused: AllocError) -> RecordError {
        RecordError::Memory
    }
}

impl<T: Drop> From<AllocFailed<T>> for RecordError {
    ghost use Rattle.std.specs.Prelude.{◌≡◌};
    ghost use Rattle.live_recorder.specs.declared.record_error.RecordError.TheVariants.{Memory};

    ghost from_gives = { λ _ e. e ≡ Memory };

    fn from(_refused: AllocFailed<T>) -> RecordError {
        RecordError::Memory
    }
}

impl RecordError {
    /// The number that reports the refusal: 8, 10 to 14, or 17.
    pub fn number(&self) -> u8
        ensures { result ≡ number_of self.now }
    {
        match self {
            RecordError::Memory => 8,
            RecordError::BadLimits => 10,
            RecordError::LaneFull => 11,
            RecordError::StillPending => 12,
            RecordError::CellGaveBack => 13,
            RecordError::NothingPending => 14,
            RecordError::WrongReturn => 17,
        }
    }
}
