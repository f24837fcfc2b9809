//! Verdicts on the pieces of cases, true by their type.

ghost use Rattle.std.specs.Prelude.{◌≡◌};
ghost use Rattle.live_case_board.specs.CaseFiles.{HasPiece, IsOutcome};

use crate::shelf_name::ShelfName;
use crate::ticket::Ticket;
use cert_check::Outcome;
use model_history::OpId;
use model_object_trait::SeqObject;
use std::marker::Model;

/// The result of the check of one piece of a case. Its type ensures that it is what `check_piece` says of that case file.
#[derive(Drop)]
pub struct Verdict<O: SeqObject, K: ShelfName> {
    ticket: Ticket<O, K>,
    op: OpId,
    outcome: Outcome,
}

impl<O: SeqObject, K: ShelfName> Model for Verdict<O, K> {
    ghost use Rattle.live_case_board.specs.CaseFiles.{HasPiece, IsOutcome};
    ghost use Rattle.live_case_desk.specs.Files.{VerdictOf};

    ghost Value = { VerdictOf O.Start O.Call O.Ret };

    ghost view = { λ v. record { case_of = v.ticket; op = v.op; outcome = v.outcome } };

    ghost invariant = { λ v. HasPiece v.ticket.file v.op × IsOutcome O.answer v.ticket.file v.op v.outcome };
}

impl<O: SeqObject, K: ShelfName> Verdict<O, K> {
    /// A verdict on an operation of a case.
    pub(crate) fn of(ticket: Ticket<O, K>, op: OpId, outcome: Outcome) -> Verdict<O, K>
        requires piece { HasPiece ticket.file op }
        requires truth { IsOutcome O.answer ticket.file op outcome }
        ensures { result ≡ record { case_of = ticket; op = op; outcome = outcome } }
    {
        Verdict {
            ticket,
            op,
            outcome,
        }
    }

    /// The number of the case.
    pub fn case(&self) -> u32
        ensures { result ≡ self.now.case_of.number }
    {
        self.ticket.number()
    }

    /// The ticket of the case.
    pub(crate) fn ticket(&self) -> &Ticket<O, K>
        ensures { result.now ≡ self.now.case_of }
    {
        &self.ticket
    }

    /// The operation, which the history of the case has.
    pub fn op(&self) -> OpId
        ensures op { result ≡ self.now.op }
        ensures piece { HasPiece self.now.case_of.file result }
    {
        self.op
    }

    /// The result of the check of its piece.
    pub fn outcome(&self) -> Outcome
        ensures outcome { result ≡ self.now.outcome }
        ensures truth { IsOutcome O.answer self.now.case_of.file self.now.op result }
    {
        self.outcome
    }

    /// Another verdict that says the same.
    pub fn again(&self) -> Verdict<O, K>
        ensures { result ≡ self.now }
    {
        Verdict {
            ticket: self.ticket.again(),
            op: self.op,
            outcome: self.outcome,
        }
    }
}
