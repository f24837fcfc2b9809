//! What a worker holds between two pieces of a case.

ghost use Rattle.std.specs.Prelude.{◌≡◌, IfOk, IsSome};
ghost use Rattle.live_case_board.specs.CaseFiles.{HasPiece};

use crate::desk::Desk;
use crate::shelf_name::ShelfName;
use crate::ticket::Ticket;
use crate::verdict::Verdict;
use cert_check::PieceChecker;
use model_history::OpId;
use model_object_trait::SeqObject;
use pattern_check::Refutable;
use std::alloc::{AllocError, Global};
use std::marker::Model;

/// Checks pieces of one case of a desk one after another, each from where it parts from the one before.
#[derive(Drop)]
pub struct CaseChecker<'a, O: SeqObject, K: ShelfName> {
    ticket: Ticket<O, K>,
    pieces: PieceChecker<'a, O>,
}

impl<'a, O: SeqObject, K: ShelfName> Model for CaseChecker<'a, O, K> {
    ghost use Rattle.std.specs.Prelude.{◌≡◌};
    ghost use Rattle.live_case_desk.specs.Files.{CaseOf};

    ghost Value = { CaseOf O.Start O.Call O.Ret };

    ghost view = { λ checker. checker.ticket };

    ghost invariant = { λ checker. checker.pieces ≡ checker.ticket.file };
}

impl<'a, O: Refutable, K: ShelfName> CaseChecker<'a, O, K> {
    /// A checker of the pieces of a case that has a certificate.
    ///
    /// Fails for want of memory alone. O(n k^2) for n operations and k sessions, and O(n k) where each needs one other.
    pub fn of(
        alloc: Global,
        desk: &'a Desk<O, K>,
        ticket: &Ticket<O, K>,
    ) -> Result<CaseChecker<'a, O, K>, AllocError>
        requires { IsSome ticket.now.file.2 }
        ensures { IfOk result (λ checker. checker ≡ ticket.now) }
    {
        let pieces = PieceChecker::new(alloc, ticket.file(desk))?;
        Ok(CaseChecker {
            ticket: ticket.again(),
            pieces,
        })
    }

    /// The ticket of the case.
    pub fn ticket(&self) -> &Ticket<O, K>
        ensures { result.now ≡ self.now }
    {
        &self.ticket
    }

    /// The result of the check of a piece of the case.
    ///
    /// Fails for want of memory alone. Costs as much as `check_piece`, except for what its schedule shares with the one before.
    pub fn check(&mut self, alloc: Global, op: OpId) -> Result<Verdict<O, K>, AllocError>
        requires { HasPiece self.old.file op }
        ensures ticket { IfOk result (λ v. v.case_of ≡ self.old) }
        ensures op { IfOk result (λ v. v.op ≡ op) }
        ensures same { self.new ≡ self.old }
    {
        let outcome = self.pieces.check(alloc, op)?;
        Ok(Verdict::of(self.ticket.again(), op, outcome))
    }
}
