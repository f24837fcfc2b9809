//! The reasons why a text is not read as a history.

ghost use Rattle.std.specs.Prelude.{◌≡◌};
ghost use Rattle.json_histories.specs.Refusals.{number_of};

use model_history::OpId;
use std::alloc::{AllocError, AllocFailed};
use thiserror::Error;

/// Why a text was not read as a history: the first of these in the order of reading, or want of memory.
#[derive(Clone, Copy, Debug, PartialEq, Eq, Error)]
pub enum ReadError {
    /// The text is no JSON.
    #[error("no JSON")]
    NotJson,
    /// The value does not have the shape of a history, or an element does not have that of a session.
    #[error("no history")]
    BadShape,
    /// No object has the name.
    #[error("an unknown object")]
    UnknownObject,
    /// The element has none of the forms of the object's operations.
    #[error("no operation at {}.{}", .0.session, .0.index)]
    BadOp(OpId),
    /// The operation has a known return, and an earlier operation of its session does not.
    #[error("a known return after an unknown one at {}.{}", .0.session, .0.index)]
    ReturnAfterUnknown(OpId),
    /// There are more than 16 sessions.
    #[error("more than 16 sessions")]
    TooManySessions,
    /// A session has more than 256 operations.
    #[error("more than 256 operations")]
    TooManyOps,
    /// An allocation was refused.
    #[error("no memory")]
    Memory,
    /// The value after the sessions is no table of initial values of the object's.
    #[error("no table of initial values")]
    BadInitial,
}

impl From<AllocError> for ReadError {
    ghost use Rattle.std.specs.Prelude.{◌≡◌};
    ghost use Rattle.json_histories.specs.declared.read_error.ReadError.TheVariants.{Memory};

    ghost from_gives = { λ _ e. e ≡ Memory };

    fn from(_refused: AllocError) -> ReadError {
        ReadError::Memory
    }
}

impl<T: Drop> From<AllocFailed<T>> for ReadError {
    ghost use Rattle.std.specs.Prelude.{◌≡◌};
    ghost use Rattle.json_histories.specs.declared.read_error.ReadError.TheVariants.{Memory};

    ghost from_gives = { λ _ e. e ≡ Memory };

    fn from(_refused: AllocFailed<T>) -> ReadError {
        ReadError::Memory
    }
}

impl ReadError {
    /// The number by which the refusal is reported: 1 to 8, or 29.
    pub fn number(&self) -> u8
        ensures { result ≡ number_of self.now }
    {
        match self {
            ReadError::NotJson => 1,
            ReadError::BadShape => 2,
            ReadError::UnknownObject => 3,
            ReadError::BadOp(_) => 4,
            ReadError::ReturnAfterUnknown(_) => 5,
            ReadError::TooManySessions => 6,
            ReadError::TooManyOps => 7,
            ReadError::Memory => 8,
            ReadError::BadInitial => 29,
        }
    }
}
