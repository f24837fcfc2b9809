//! The effect on a case of a verdict and of handing an operation out. The functions do nothing: what they ensure is the law.

ghost use Rattle.std.specs.Prelude.{◌≡◌, ◌≢◌, Some};
ghost use Rattle.model_history.specs.declared.op_id.OpId.{OpId as Operation};
ghost use Rattle.cert_check.specs.declared.checking.Outcome.{Outcome as Verdict};
ghost use Rattle.live_case_board.specs.Boards.{CaseState, row_of, with_verdict, handed_out};
ghost use Rattle.live_case_board.specs.Events.{IsRow, IsFree};

use crate::mark::Mark;

/// A verdict on an operation fills its row, and leaves each other row unchanged.
pub fn verdict_fills_one_row<M: Mark>()
    ensures row { (s : CaseState M) (o : Operation) (outcome : Verdict) → IsRow s o
        → row_of (with_verdict s o outcome) o ≡ Some (Some outcome) }
    ensures others { (s : CaseState M) (o a : Operation) (outcome : Verdict) → IsRow s o → a ≢ o
        → row_of (with_verdict s o outcome) a ≡ row_of s a }
{}

/// Handing an operation out leaves each row unchanged, and the operation is not handed out again.
pub fn operation_is_handed_out_once<M: Mark>()
    ensures rows { (s : CaseState M) (o a : Operation) → IsRow s o → row_of (handed_out s o) a ≡ row_of s a }
    ensures once { (s : CaseState M) (o : Operation) → IsRow s o → ¬ IsFree (handed_out s o) o }
{}
