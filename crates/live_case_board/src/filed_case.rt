//! Filed cases: the mark, the rows and the pattern of each.

ghost use Rattle.std.specs.Prelude.{◌≡◌, ◌==◌, ◌<◌, ◌↔◌, ℕ, length, option_copied, IsTrue, MatchOption, Some};
ghost use Rattle.live_case_board.specs.Boards.{fresh_case, row_of, open_rows, with_verdict, handed_out, refuted};
ghost use Rattle.live_case_board.specs.Steps.InSessions.{IsFirstLeft};
ghost use Rattle.live_case_board.specs.Events.{IsDue, IsIdle, IsRow, AllExplained, IsFirstUnexplained, IsStanding};
ghost use Rattle.live_case_board.specs.Events.{put_refusal_of, refute_refusal_of, ask_refusal_of};

use crate::answer::Answer;
use crate::board_error::BoardError;
use crate::case_rows::CaseRows;
use crate::case_session::CaseSession;
use crate::mark::Mark;
use cert_check::Outcome;
use model_history::{MAX_SESSIONS, OpId};
use pattern_check::Pattern;
use std::marker::Model;

/// A case of a board.
#[derive(Drop)]
pub struct FiledCase<M: Mark> {
    mark: M,
    has_certificate: bool,
    sessions: Vec<CaseSession>,
    pattern: Option<Pattern>,
}

impl<M: Mark> Model for FiledCase<M> {
    ghost use Rattle.std.specs.Prelude.{◌≤◌, length};
    ghost use Rattle.live_case_board.specs.Boards.{CaseState};
    ghost use Rattle.model_history.specs.declared.limits.TheConstants.{MAX_SESSIONS};

    ghost Value = { CaseState M };

    ghost view = { λ c. record { mark = c.mark; has_certificate = c.has_certificate; sessions = c.sessions.items; pattern = c.pattern } };

    ghost invariant = { λ c. length c.sessions.items ≤ MAX_SESSIONS };
}

impl<M: Mark> FiledCase<M> {
    /// A case with these rows, and with no pattern.
    pub(crate) fn new(mark: M, rows: CaseRows) -> FiledCase<M>
        ensures { result ≡ fresh_case mark rows }
    {
        let (has_certificate, sessions) = rows.into_parts();
        FiledCase {
            mark,
            has_certificate,
            sessions,
            pattern: None,
        }
    }

    /// Its mark.
    pub(crate) fn mark(&self) -> &M
        ensures { result.now ≡ self.now.mark }
    {
        &self.mark
    }

    /// Whether a mark has the same place as the case's own.
    fn is_of(&self, mark: &M) -> bool
        ensures { result ≡ (M.place self.now.mark == M.place mark.now) }
    {
        self.mark.place() == mark.place()
    }

    /// The operation that is due: the first free one, if no pattern was accepted.
    pub(crate) fn due(&self) -> Option<OpId>
        ensures { MatchOption result (IsIdle self.now) (IsDue self.now) }
    {
        if self.pattern.is_some() {
            return None;
        }
        for session in 0..self.sessions.len() {
            if let Some(index) = self.sessions[session].due() {
                return Some(OpId::at(session, index));
            }
        }
        None
    }

    /// Hands an operation out.
    #[tactic(auto, using(crate::proofs::Due::is_inside))]
    pub(crate) fn hand_out(&mut self, op: OpId)
        requires { IsRow self.old op }
        ensures { self.new ≡ handed_out self.old op }
    {
        self.sessions[op.session_place()].hand_out(op.place());
    }

    /// The row of an operation.
    pub(crate) fn row(&self, op: OpId) -> Option<Option<Outcome>>
        ensures { result ≡ row_of self.now op }
    {
        let session = op.session_place();
        if session < self.sessions.len() {
            self.sessions[session].get(op.place())
        } else {
            None
        }
    }

    /// Why a verdict on a row is refused.
    pub(crate) fn put_refusal(&self, mark: &M, op: OpId) -> Option<BoardError>
        ensures { result ≡ put_refusal_of M.place self.now mark.now op }
    {
        if !self.is_of(mark) {
            return Some(BoardError::Stranger);
        }
        match self.row(op) {
            None => Some(BoardError::NoSuch),
            Some(None) => None,
            Some(Some(_)) => Some(BoardError::Doubled),
        }
    }

    /// Puts a verdict on an operation into its row.
    #[tactic(auto, using(crate::proofs::Due::is_inside))]
    pub(crate) fn fill(&mut self, op: OpId, outcome: Outcome)
        requires { IsRow self.old op }
        ensures { self.new ≡ with_verdict self.old op outcome }
    {
        self.sessions[op.session_place()].fill(op.place(), outcome);
    }

    /// Why a pattern is refused.
    pub(crate) fn refute_refusal(&self, mark: &M, passes: bool) -> Option<BoardError>
        ensures { result ≡ refute_refusal_of M.place self.now mark.now passes }
    {
        if !self.is_of(mark) {
            return Some(BoardError::Stranger);
        }
        if passes {
            None
        } else {
            Some(BoardError::NotThatPattern)
        }
    }

    /// Keeps a pattern if there is none yet.
    pub(crate) fn refute(&mut self, pattern: Pattern)
        ensures { self.new ≡ refuted self.old pattern }
    {
        self.pattern.get_or_insert(pattern);
    }

    /// Why a question is refused.
    pub(crate) fn ask_refusal(&self, mark: &M) -> Option<BoardError>
        ensures { result ≡ ask_refusal_of M.place self.now mark.now }
    {
        if self.is_of(mark) {
            None
        } else {
            Some(BoardError::Stranger)
        }
    }

    /// The pattern that was accepted.
    pub(crate) fn pattern(&self) -> Option<&Pattern>
        ensures { option_copied result ≡ self.now.pattern }
    {
        self.pattern.as_ref()
    }

    /// The answer for the case.
    #[tactic(auto, using(crate::proofs::Verdicts::first_verdict))]
    pub(crate) fn standing(&self) -> Answer
        ensures { IsStanding self.now result }
    {
        if let Some(pattern) = &self.pattern {
            return Answer::No(pattern.kind());
        }
        if !self.has_certificate {
            return Answer::Unknown(None);
        }
        let open = self.open_rows();
        if open > 0 {
            return Answer::Open(open);
        }
        match self.first_unexplained() {
            None => Answer::Yes,
            Some(op) => Answer::Unknown(Some(op)),
        }
    }

    /// How many rows have no verdict.
    fn open_rows(&self) -> u32
        ensures { result ≡ open_rows self.now }
    {
        let mut open = 0;
        for session in 0..self.sessions.len() {
            open += self.sessions[session].open() as u32;
        }
        open
    }

    /// The first operation whose row has no verdict which explains it.
    fn first_unexplained(&self) -> Option<OpId>
        ensures { MatchOption result (AllExplained self.now) (IsFirstLeft self.now) }
    {
        for session in 0..self.sessions.len() {
            if let Some(index) = self.sessions[session].first_unexplained() {
                return Some(OpId::at(session, index));
            }
        }
        None
    }
}
