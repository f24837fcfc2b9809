//! The reasons why a replica refuses an operation or an update.

ghost use Rattle.std.specs.Prelude.{◌≡◌};
ghost use Rattle.live_replica.specs.ReplicaErrors.{number_of};

use std::alloc::{AllocError, AllocFailed};
use thiserror::Error;

/// Why a replica refused an operation or an update.
#[derive(Clone, Copy, Debug, PartialEq, Eq, Error)]
pub enum ReplicaError {
    /// An allocation was refused.
    #[error("no memory")]
    Memory,
    /// The session has had as many operations as a session may have.
    #[error("the session has had 256 operations")]
    LaneFull,
    /// The clock is at the greatest stamp.
    #[error("the clock stands at the greatest stamp")]
    ClockFull,
}

impl From<AllocError> for ReplicaError {
    ghost use Rattle.std.specs.Prelude.{◌≡◌};
    ghost use Rattle.live_replica.specs.declared.replica_error.ReplicaError.TheVariants.{Memory};

    ghost from_gives = { λ _ e. e ≡ Memory };

    fn from(_refused: AllocError) -> ReplicaError {
        ReplicaError::Memory
    }
}

impl ReplicaError {
    /// The number by which the refusal is reported.
    pub fn number(&self) -> u8
        ensures { result ≡ number_of self.now }
    {
        match self {
            ReplicaError::Memory => 8,
            ReplicaError::LaneFull => 11,
            ReplicaError::ClockFull => 16,
        }
    }
}
