//! The reasons why a JSON text is not read.

ghost use Rattle.std.specs.Prelude.{◌≡◌};

use json::Invalid;
use std::alloc::{AllocError, AllocFailed};
use thiserror::Error;

/// Why a text was not read.
#[derive(Clone, Copy, Debug, PartialEq, Eq, Error)]
pub enum TextError {
    /// The text is no JSON.
    #[error("no JSON")]
    NotJson,
    /// An allocation was refused.
    #[error("no memory")]
    Memory,
}

impl From<Invalid> for TextError {
    ghost use Rattle.std.specs.Prelude.{◌≡◌};
    ghost use Rattle.json_bounded.specs.declared.text_error.TextError.TheVariants.{NotJson};

    ghost from_gives = { λ _ e. e ≡ NotJson };

    fn from(_refused: Invalid) -> TextError {
        TextError::NotJson
    }
}

impl From<AllocError> for TextError {
    ghost use Rattle.std.specs.Prelude.{◌≡◌};
    ghost use Rattle.json_bounded.specs.declared.text_error.TextError.TheVariants.{Memory};

    ghost from_gives = { λ _ e. e ≡ Memory };

    fn from(_refused: AllocError) -> TextError {
        TextError::Memory
    }
}

impl<T: Drop> From<AllocFailed<T>> for TextError {
    ghost use Rattle.std.specs.Prelude.{◌≡◌};
    ghost use Rattle.json_bounded.specs.declared.text_error.TextError.TheVariants.{Memory};

    ghost from_gives = { λ _ e. e ≡ Memory };

    fn from(_refused: AllocFailed<T>) -> TextError {
        TextError::Memory
    }
}
