//! The reasons for which a text is refused as a script, and their numbers.

ghost use Rattle.std.specs.Prelude.{◌≡◌};
ghost use Rattle.live_script.specs.Refusals.{number_of};

use std::alloc::{AllocError, AllocFailed};
use thiserror::Error;

/// Why a text was not read as a script: the first of these in the order of reading, or want of memory.
#[derive(Clone, Copy, Debug, PartialEq, Eq, Error)]
pub enum ScriptError {
    /// The text is no JSON.
    #[error("no JSON")]
    NotJson,
    /// The value does not have the shape of a script.
    #[error("no script")]
    BadShape,
    /// No object has the name.
    #[error("an unknown object")]
    UnknownObject,
    /// There are no sessions, or more than 16.
    #[error("not from 1 to 16 sessions")]
    BadLimits,
    /// The step at this place has no form.
    #[error("no step at {0}")]
    BadStep(usize),
    /// There are more steps than a script may have.
    #[error("more than {most} steps", most = crate::script::MAX_STEPS)]
    TooManySteps,
    /// The value after the steps is no table of initial values of the object's.
    #[error("no table of initial values")]
    BadInitial,
    /// An allocation was refused.
    #[error("no memory")]
    Memory,
}

impl From<AllocError> for ScriptError {
    ghost use Rattle.std.specs.Prelude.{◌≡◌};
    ghost use Rattle.live_script.specs.declared.script_error.ScriptError.TheVariants.{Memory};

    ghost from_gives = { λ _ e. e ≡ Memory };

    fn from(_refused: AllocError) -> ScriptError {
        ScriptError::Memory
    }
}

impl<T: Drop> From<AllocFailed<T>> for ScriptError {
    ghost use Rattle.std.specs.Prelude.{◌≡◌};
    ghost use Rattle.live_script.specs.declared.script_error.ScriptError.TheVariants.{Memory};

    ghost from_gives = { λ _ e. e ≡ Memory };

    fn from(_refused: AllocFailed<T>) -> ScriptError {
        ScriptError::Memory
    }
}

impl ScriptError {
    /// The number by which the refusal is reported: 1, 2, 3, 8, 10, 27, 28 or 29.
    pub fn number(&self) -> u8
        ensures { result ≡ number_of self.now }
    {
        match self {
            ScriptError::NotJson => 1,
            ScriptError::BadShape => 2,
            ScriptError::UnknownObject => 3,
            ScriptError::Memory => 8,
            ScriptError::BadLimits => 10,
            ScriptError::TooManySteps => 27,
            ScriptError::BadStep(_) => 28,
            ScriptError::BadInitial => 29,
        }
    }
}
