//! The refusals of steps, their texts and their numbers.

ghost use Rattle.std.specs.Prelude.{◌≡◌};
ghost use Rattle.live_simulation.specs.Refusals.{number_of};

use live_case_board::BoardError;
use thiserror::Error;

/// Why a step was refused.
#[derive(Clone, Copy, Debug, PartialEq, Eq, Error)]
pub enum Refusal {
    /// A session has at most 256 operations.
    #[error("the session has 256 operations")]
    LaneFull,
    /// The session has an operation that has not ended.
    #[error("an operation is pending")]
    StillPending,
    /// The session has no operation that has not ended.
    #[error("no operation is pending")]
    NothingPending,
    /// The call cannot have a return of this kind.
    #[error("the return does not fit the call")]
    WrongReturn,
    /// The certificate is for another criterion, or does not have the shape of the history.
    #[error("the certificate does not fit the history")]
    ShapeMismatch,
    /// 64 cases are filed.
    #[error("64 cases are filed")]
    Full,
    /// The pattern is not accepted for the case.
    #[error("the pattern is not in the history")]
    NotThatPattern,
    /// The piece has a verdict.
    #[error("the piece has a verdict")]
    Doubled,
    /// The verdict is of another case.
    #[error("a verdict of another case")]
    Stranger,
    /// The step names something that is not there.
    #[error("there is no such session, sealer, case, verdict or piece")]
    NoSuch,
}

impl From<BoardError> for Refusal {
    ghost use Rattle.std.specs.Prelude.{◌≡◌};
    ghost use Rattle.live_simulation.specs.Refusals.{refusal_of};

    ghost from_gives = { λ error refusal. refusal ≡ refusal_of error };

    fn from(error: BoardError) -> Refusal {
        match error {
            BoardError::Full => Refusal::Full,
            BoardError::NotThatPattern => Refusal::NotThatPattern,
            BoardError::Doubled => Refusal::Doubled,
            BoardError::Stranger => Refusal::Stranger,
            BoardError::NoSuch => Refusal::NoSuch,
        }
    }
}

impl Refusal {
    /// The number by which the refusal is reported.
    pub fn number(&self) -> u8
        ensures { result ≡ number_of self.now }
    {
        match self {
            Refusal::LaneFull => 11,
            Refusal::StillPending => 12,
            Refusal::NothingPending => 14,
            Refusal::WrongReturn => 17,
            Refusal::ShapeMismatch => 21,
            Refusal::Full => 22,
            Refusal::NotThatPattern => 23,
            Refusal::Doubled => 24,
            Refusal::Stranger => 25,
            Refusal::NoSuch => 26,
        }
    }
}
