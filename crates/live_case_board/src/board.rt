//! The board itself, with the events that change or read its cases.

ghost use Rattle.std.specs.Prelude.{◌≡◌, ◌<◌, ◌≤◌, ◌∷◌, ◌++◌, ℕ, [], length, IfOk, IfErr, IfSome, IsNone, OnOk, OnErr};
ghost use Rattle.std.specs.Prelude.{MatchOption, None, Some, option_copied, option_map, slice_get};
ghost use Rattle.live_case_board.specs.Boards.{CaseState, fresh_case, row_of, handed_out, with_verdict, refuted};
ghost use Rattle.live_case_board.specs.Steps.InSessions.{HasRowAt};
ghost use Rattle.live_case_board.specs.Events.{IsChanged, IsDueOf, IsIdleAt, IsStanding, put_refusal, refute_refusal, ask_refusal};

use crate::answer::Answer;
use crate::board_error::BoardError;
use crate::case_rows::CaseRows;
use crate::filed_case::FiledCase;
use crate::mark::Mark;
use crate::piece::Piece;
use cert_check::Outcome;
use model_history::OpId;
use pattern_check::Pattern;
use std::alloc::{AllocError, Global};
use std::marker::Model;

/// How many cases a board may have.
pub const MAX_CASES: usize = 64;

/// What is known of some cases: for each its mark, its rows, which row is handed out next, and the pattern that refutes it.
///
/// It has no case file: callers check pieces and patterns elsewhere, and put the results. Only the making of a board
/// takes memory, and no event waits.
#[derive(Drop)]
pub struct Board<M: Mark> {
    cases: Vec<FiledCase<M>>,
}

impl<M: Mark> Model for Board<M> {
    ghost use Rattle.std.specs.Prelude.{◌≤◌, List, length, vec_capacity};
    ghost use Rattle.live_case_board.specs.Boards.{CaseState};
    ghost use Rattle.live_case_board.specs.declared.board.TheConstants.{MAX_CASES};

    ghost Value = { List (CaseState M) };

    ghost view = { λ b. b.cases.items };

    ghost invariant = { λ b. (MAX_CASES ≤ vec_capacity b.cases) × (length b.cases.items ≤ MAX_CASES) };
}

impl<M: Mark> Board<M> {
    /// A board without cases, with room for 64.
    ///
    /// Fails for want of memory alone. O(1).
    pub fn new(alloc: Global) -> Result<Board<M>, AllocError>
        ensures { IfOk result (λ b. b ≡ []) }
    {
        let cases = Vec::with_capacity(alloc, MAX_CASES)?;
        Ok(Board { cases })
    }

    /// How many cases were filed: at most 64.
    pub fn cases(&self) -> usize
        ensures cases { result ≡ length self.now }
        ensures few { result ≤ MAX_CASES }
    {
        self.cases.len()
    }

    /// The mark of a case, where there is such a case.
    pub fn mark(&self, number: usize) -> Option<&M>
        ensures { option_copied result ≡ option_map (λ (s : CaseState M). s.mark) (slice_get self.now number) }
    {
        Some(self.case(number)?.mark())
    }

    /// The case of this number, where there is one.
    fn case(&self, number: usize) -> Option<&FiledCase<M>>
        ensures { option_copied result ≡ slice_get self.now number }
    {
        self.cases.get(number)
    }

    /// Files a case with these rows, and gives its number.
    ///
    /// `Full` where 64 cases are filed; the board is then as before. O(1).
    pub fn file(&mut self, mark: M, rows: CaseRows) -> Result<usize, BoardError>
        ensures number { IfOk result (λ number. number ≡ length self.old) }
        ensures room { IfOk result (λ _. length self.old < MAX_CASES) }
        ensures filed { OnOk result (self.new ≡ self.old ++ fresh_case mark rows ∷ []) }
        ensures refused { IfErr result (λ e. (e ≡ BoardError.Full) × (MAX_CASES ≤ length self.old)) }
        ensures unchanged { OnErr result (self.new ≡ self.old) }
    {
        let number = self.cases.len();
        if number >= MAX_CASES {
            return Err(BoardError::Full);
        }
        self.cases.push_reserved(FiledCase::new(mark, rows));
        Ok(number)
    }

    /// Hands out the next piece: the first operation, by session and then by index, that was not handed out and has no
    /// verdict, of the first case that no pattern refutes and that has such a row.
    ///
    /// O(c k + n) for c cases of k sessions and n rows that got a verdict without being handed out.
    #[tactic(auto, using(crate::proofs::Due::due_is_row))]
    pub fn take(&mut self) -> Option<Piece>
        ensures none { IsNone result → self.new ≡ self.old }
        ensures idle { IsNone result → (number : ℕ) → IsIdleAt self.old number }
        ensures due { IfSome result (λ p. IsDueOf self.old p) }
        ensures taken { IfSome result (λ p. IsChanged p.number (λ s. handed_out s p.op) self.old self.new) }
    {
        let due = self.due()?;
        self.hand_out(due.number, due.op);
        Some(due)
    }

    /// Hands out an operation of a case.
    fn hand_out(&mut self, number: usize, op: OpId)
        requires filed { number < length self.old }
        requires inside { HasRowAt self.old number op }
        ensures { IsChanged number (λ s. handed_out s op) self.old self.new }
    {
        self.cases[number].hand_out(op);
    }

    /// Puts a verdict on an operation into a row of a case.
    fn fill(&mut self, number: usize, op: OpId, outcome: Outcome)
        requires filed { number < length self.old }
        requires inside { HasRowAt self.old number op }
        ensures { IsChanged number (λ s. with_verdict s op outcome) self.old self.new }
    {
        self.cases[number].fill(op, outcome);
    }

    /// The piece that is due.
    fn due(&self) -> Option<Piece>
        ensures { MatchOption result ((number : ℕ) → IsIdleAt self.now number) (IsDueOf self.now) }
    {
        for number in 0..self.cases.len() {
            if let Some(op) = self.cases[number].due() {
                return Some(Piece { number, op });
            }
        }
        None
    }

    /// Puts a verdict on an operation into a row of a case. The mark is that of the file that was checked.
    ///
    /// Refused in this order: `NoSuch` where there is no such case, `Stranger` where its mark is of another place, `NoSuch`
    /// where it has no such row, `Doubled` where the row has a verdict. The board is then as before. O(1).
    #[tactic(auto, using(crate::proofs::Due::put_is_filed, crate::proofs::Due::put_is_row))]
    pub fn put(
        &mut self,
        number: usize,
        mark: &M,
        op: OpId,
        outcome: Outcome,
    ) -> Result<(), BoardError>
        ensures accepted { IfOk result (λ _. put_refusal M.place (slice_get self.old number) mark.now op ≡ None) }
        ensures filled { OnOk result (IsChanged number (λ s. with_verdict s op outcome) self.old self.new) }
        ensures refused { IfErr result (λ e. put_refusal M.place (slice_get self.old number) mark.now op ≡ Some e) }
        ensures unchanged { OnErr result (self.new ≡ self.old) }
    {
        if let Some(refusal) = self.put_refusal(number, mark, op) {
            return Err(refusal);
        }
        self.fill(number, op, outcome);
        Ok(())
    }

    /// Why a verdict is refused.
    fn put_refusal(&self, number: usize, mark: &M, op: OpId) -> Option<BoardError>
        ensures { result ≡ put_refusal M.place (slice_get self.now number) mark.now op }
    {
        match self.case(number) {
            None => Some(BoardError::NoSuch),
            Some(filed) => filed.put_refusal(mark, op),
        }
    }

    /// Takes a pattern against a case. `passes` says whether the test of patterns accepts it for the file of the case. A
    /// second good pattern changes nothing.
    ///
    /// Refused in this order: `NoSuch` where there is no such case, `Stranger` where its mark is of another place,
    /// `NotThatPattern` where the pattern does not pass. The board is then as before. O(1).
    pub fn refute(
        &mut self,
        number: usize,
        mark: &M,
        pattern: Pattern,
        passes: bool,
    ) -> Result<(), BoardError>
        ensures accepted { IfOk result (λ _. refute_refusal M.place (slice_get self.old number) mark.now passes ≡ None) }
        ensures refuted { OnOk result (IsChanged number (λ s. refuted s pattern) self.old self.new) }
        ensures refused { IfErr result (λ e. refute_refusal M.place (slice_get self.old number) mark.now passes ≡ Some e) }
        ensures unchanged { OnErr result (self.new ≡ self.old) }
    {
        if let Some(refusal) = self.refute_refusal(number, mark, passes) {
            drop(pattern);
            return Err(refusal);
        }
        self.cases[number].refute(pattern);
        Ok(())
    }

    /// Why a pattern is refused.
    fn refute_refusal(&self, number: usize, mark: &M, passes: bool) -> Option<BoardError>
        ensures { result ≡ refute_refusal M.place (slice_get self.now number) mark.now passes }
    {
        match self.case(number) {
            None => Some(BoardError::NoSuch),
            Some(filed) => filed.refute_refusal(mark, passes),
        }
    }

    /// The answer for a case.
    ///
    /// Refused in this order: `NoSuch` where there is no such case, `Stranger` where its mark is of another place. O(n) for
    /// n rows.
    pub fn ask(&self, number: usize, mark: &M) -> Result<Answer, BoardError>
        ensures accepted { IfOk result (λ _. ask_refusal M.place (slice_get self.now number) mark.now ≡ None) }
        ensures standing { IfOk result (λ a. (s : CaseState M) → slice_get self.now number ≡ Some s → IsStanding s a) }
        ensures refused { IfErr result (λ e. ask_refusal M.place (slice_get self.now number) mark.now ≡ Some e) }
    {
        let Some(filed) = self.case(number) else {
            return Err(BoardError::NoSuch);
        };
        match filed.ask_refusal(mark) {
            Some(refusal) => Err(refusal),
            None => Ok(filed.standing()),
        }
    }

    /// The case of a question.
    ///
    /// Refused in this order: `NoSuch` where there is no such case, `Stranger` where its mark is of another place.
    fn asked(&self, number: usize, mark: &M) -> Result<&FiledCase<M>, BoardError>
        ensures accepted { IfOk result (λ _. ask_refusal M.place (slice_get self.now number) mark.now ≡ None) }
        ensures filed { IfOk result (λ c. slice_get self.now number ≡ Some c.now) }
        ensures refused { IfErr result (λ e. ask_refusal M.place (slice_get self.now number) mark.now ≡ Some e) }
    {
        let Some(filed) = self.case(number) else {
            return Err(BoardError::NoSuch);
        };
        match filed.ask_refusal(mark) {
            Some(refusal) => Err(refusal),
            None => Ok(filed),
        }
    }

    /// The pattern that was accepted against a case, where there is one.
    ///
    /// Refused in this order: `NoSuch` where there is no such case, `Stranger` where its mark is of another place. O(1).
    pub fn pattern(&self, number: usize, mark: &M) -> Result<Option<&Pattern>, BoardError>
        ensures accepted { IfOk result (λ _. ask_refusal M.place (slice_get self.now number) mark.now ≡ None) }
        ensures pattern { IfOk result (λ p. (s : CaseState M) → slice_get self.now number ≡ Some s → option_copied p ≡ s.pattern) }
        ensures refused { IfErr result (λ e. ask_refusal M.place (slice_get self.now number) mark.now ≡ Some e) }
    {
        Ok(self.asked(number, mark)?.pattern())
    }

    /// The row of an operation of a case, where there is one: the outcome of its piece, or `None` until a verdict comes.
    ///
    /// Refused in this order: `NoSuch` where there is no such case, `Stranger` where its mark is of another place. O(1).
    pub fn row(
        &self,
        number: usize,
        mark: &M,
        op: OpId,
    ) -> Result<Option<Option<Outcome>>, BoardError>
        ensures accepted { IfOk result (λ _. ask_refusal M.place (slice_get self.now number) mark.now ≡ None) }
        ensures row { IfOk result (λ r. (s : CaseState M) → slice_get self.now number ≡ Some s → r ≡ row_of s op) }
        ensures refused { IfErr result (λ e. ask_refusal M.place (slice_get self.now number) mark.now ≡ Some e) }
    {
        Ok(self.asked(number, mark)?.row(op))
    }
}
