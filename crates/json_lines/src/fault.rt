//! Why a stream is not answered to its end.

use std::alloc::{AllocError, AllocFailed};
use thiserror::Error;

/// Why a stream is not answered to its end.
#[derive(Clone, Copy, Debug, PartialEq, Eq, Error)]
pub enum Fault {
    /// An allocation was refused.
    #[error("no memory")]
    Memory,
    /// The reader failed, or it did not reach the end of a line in as many read calls as may be made for one.
    #[error("the lines could not be read")]
    Read,
    /// The writer failed, or took nothing.
    #[error("the answers could not be written")]
    Write,
}

impl From<AllocError> for Fault {
    ghost use Rattle.std.specs.Prelude.{◌≡◌};
    ghost use Rattle.json_lines.specs.declared.fault.Fault.TheVariants.{Memory};

    ghost from_gives = { λ _ e. e ≡ Memory };

    fn from(_refused: AllocError) -> Fault {
        Fault::Memory
    }
}

impl<T: Drop> From<AllocFailed<T>> for Fault {
    ghost use Rattle.std.specs.Prelude.{◌≡◌};
    ghost use Rattle.json_lines.specs.declared.fault.Fault.TheVariants.{Memory};

    ghost from_gives = { λ _ e. e ≡ Memory };

    fn from(_refused: AllocFailed<T>) -> Fault {
        Fault::Memory
    }
}
