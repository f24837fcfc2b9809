//! The rows of one session of a case, and which of them is handed out next.

ghost use Rattle.std.specs.Prelude.{◌≡◌, ◌<◌, ◌≤◌, ◌↔◌, ℕ, length, IfOk, IsTrue, MatchOption, Some, slice_get};
ghost use Rattle.live_case_board.specs.Boards.{fresh_rows, after_row, filled, open_of};
ghost use Rattle.live_case_board.specs.Events.{IsFreeIn};
ghost use Rattle.live_case_board.specs.Steps.InSessions.{IsFirstFree, IsExplainedIn, IsFirstUnexplainedIn};

use cert_check::Outcome;
use model_history::MAX_OPERATIONS;
use std::alloc::{AllocError, Global};
use std::marker::Model;

/// The rows of a session's operations: at most 256.
#[derive(Debug, Drop)]
pub struct CaseSession {
    rows: Vec<Option<Outcome>>,
    next: usize,
}

impl Model for CaseSession {
    ghost use Rattle.std.specs.Prelude.{◌≤◌, length};
    ghost use Rattle.live_case_board.specs.Boards.{SessionRows};
    ghost use Rattle.model_history.specs.declared.limits.TheConstants.{MAX_OPERATIONS};

    ghost Value = { SessionRows };

    ghost view = { λ t. record { rows = t.rows.items; next = t.next } };

    ghost invariant = { λ t. length t.rows.items ≤ MAX_OPERATIONS };
}

impl CaseSession {
    /// So many rows without a verdict.
    ///
    /// Fails for want of memory alone.
    pub(crate) fn new(alloc: Global, operations: usize) -> Result<CaseSession, AllocError>
        requires { operations ≤ MAX_OPERATIONS }
        ensures { IfOk result (λ t. t ≡ fresh_rows operations) }
    {
        let mut rows = Vec::with_capacity(alloc, operations)?;
        for _row in 0..operations {
            rows.push(None)?;
        }
        Ok(CaseSession { rows, next: 0 })
    }

    /// A row, where there is one.
    pub(crate) fn get(&self, index: usize) -> Option<Option<Outcome>>
        ensures { result ≡ slice_get self.now.rows index }
    {
        self.rows.get(index).copied()
    }

    /// The first free row.
    pub(crate) fn due(&self) -> Option<usize>
        ensures { MatchOption result ((i : ℕ) → ¬ IsFreeIn self.now i) (IsFirstFree self.now) }
    {
        for row in self.next..self.rows.len() {
            if self.rows[row].is_none() {
                return Some(row);
            }
        }
        None
    }

    /// Hands a row out.
    pub(crate) fn hand_out(&mut self, row: usize)
        requires { row < length self.old.rows }
        ensures { self.new ≡ after_row self.old row }
    {
        let _rows = self.rows.len();
        self.next = row + 1;
    }

    /// Puts a verdict into a row.
    pub(crate) fn fill(&mut self, row: usize, outcome: Outcome)
        requires { row < length self.old.rows }
        ensures { self.new ≡ filled self.old row outcome }
    {
        self.rows[row] = Some(outcome);
    }

    /// How many rows have no verdict.
    pub(crate) fn open(&self) -> usize
        ensures count { result ≡ open_of self.now }
        ensures few { result ≤ MAX_OPERATIONS }
    {
        self.rows.iter().filter(|row| row.is_none()).count()
    }

    /// The first row that has no verdict which explains its operation.
    pub(crate) fn first_unexplained(&self) -> Option<usize>
        ensures { MatchOption result ((i : ℕ) → i < length self.now.rows → IsExplainedIn self.now i) (IsFirstUnexplainedIn self.now) }
    {
        for row in 0..self.rows.len() {
            if !is_explained(self.rows[row]) {
                return Some(row);
            }
        }
        None
    }
}

/// Whether a row has a verdict that explains its operation.
fn is_explained(row: Option<Outcome>) -> bool
    ensures { IsTrue result ↔ (row ≡ Some Outcome.Explained) }
{
    match row {
        Some(Outcome::Explained) => true,
        Some(Outcome::Unexplained) | None => false,
    }
}
