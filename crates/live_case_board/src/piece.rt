//! Pieces of cases, as a board hands them out.

use model_history::OpId;

/// One piece of a case: the number of the case, and the operation.
#[derive(Clone, Copy, Debug, PartialEq, Eq)]
pub struct Piece {
    /// The number of the case, in the order of filing from 0.
    pub number: usize,
    /// The operation.
    pub op: OpId,
}
