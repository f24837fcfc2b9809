//! Refusals of a board, with the numbers by which they are reported.

ghost use Rattle.std.specs.Prelude.{◌≡◌};
ghost use Rattle.live_case_board.specs.BoardErrors.{number_of};

use thiserror::Error;

/// Why an event of a board was refused.
#[derive(Clone, Copy, Debug, PartialEq, Eq, Error)]
pub enum BoardError {
    /// A board has at most 64 cases.
    #[error("a board has at most 64 cases")]
    Full,
    /// The pattern is not accepted for the file of the case.
    #[error("the pattern is not in the history")]
    NotThatPattern,
    /// The row has a verdict.
    #[error("the piece has a verdict")]
    Doubled,
    /// What came is of another case.
    #[error("a verdict of another case")]
    Stranger,
    /// There is no such case or no such row.
    #[error("no such case or piece")]
    NoSuch,
}

impl BoardError {
    /// The number by which the refusal is reported: 22 to 26.
    pub fn number(&self) -> u8
        ensures { result ≡ number_of self.now }
    {
        match self {
            BoardError::Full => 22,
            BoardError::NotThatPattern => 23,
            BoardError::Doubled => 24,
            BoardError::Stranger => 25,
            BoardError::NoSuch => 26,
        }
    }
}
