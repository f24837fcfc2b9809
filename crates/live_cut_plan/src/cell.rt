//! Cells of a recorder, each for the call or the return of one operation.

use model_history::OpId;

/// A cell of a recorder: the one for the return of an operation, or the one for its call.
#[derive(Clone, Copy, Debug, PartialEq, Eq)]
pub enum Cell {
    Return(OpId),
    Call(OpId),
}
