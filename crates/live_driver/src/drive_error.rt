//! The refusals of a drive, with their numbers.

ghost use Rattle.std.specs.Prelude.{◌≡◌};
ghost use Rattle.live_driver.specs.DriveErrors.{number_of};

use std::alloc::{AllocError, AllocFailed};
use thiserror::Error;

/// Why a store was not driven to the end.
#[derive(Clone, Copy, Debug, PartialEq, Eq, Error)]
pub enum DriveError {
    /// The history has no session.
    #[error("the history has no session")]
    BadLimits,
    /// The history does not have the session that is to stop.
    #[error("there is no such session")]
    NoSuch,
    /// An allocation was refused.
    #[error("no memory")]
    Memory,
    /// The clock of a replica was at the greatest stamp. No run meets this.
    #[error("the clock stands at the greatest stamp")]
    ClockFull,
    /// A cell that was to be set held a value, a client left nothing, or a seal has a call that its session did not begin. No run meets
    /// this.
    #[error("a cell gave the value back")]
    CellGaveBack,
}

impl From<AllocError> for DriveError {
    ghost use Rattle.std.specs.Prelude.{◌≡◌};
    ghost use Rattle.live_driver.specs.declared.drive_error.DriveError.TheVariants.{Memory};

    ghost from_gives = { λ _ e. e ≡ Memory };

    fn from(_refused: AllocError) -> DriveError {
        DriveError::Memory
    }
}

impl<T: Drop> From<AllocFailed<T>> for DriveError {
    ghost use Rattle.std.specs.Prelude.{◌≡◌};
    ghost use Rattle.live_driver.specs.declared.drive_error.DriveError.TheVariants.{Memory};

    ghost from_gives = { λ _ e. e ≡ Memory };

    fn from(_refused: AllocFailed<T>) -> DriveError {
        DriveError::Memory
    }
}

impl DriveError {
    /// The number that reports the refusal.
    pub fn number(&self) -> u8
        ensures { result ≡ number_of self.now }
    {
        match self {
            DriveError::BadLimits => 10,
            DriveError::NoSuch => 26,
            DriveError::Memory => 8,
            DriveError::ClockFull => 16,
            DriveError::CellGaveBack => 13,
        }
    }
}
