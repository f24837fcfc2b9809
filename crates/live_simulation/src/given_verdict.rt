//! Verdicts that workers gave on pieces.

use cert_check::Outcome;
use live_case_board::Piece;

/// A verdict that was given: the piece that was checked, and the outcome of the check.
#[derive(Clone, Copy, Debug, PartialEq, Eq)]
pub struct GivenVerdict {
    /// The piece.
    pub piece: Piece,
    /// The outcome of its check.
    pub outcome: Outcome,
}
