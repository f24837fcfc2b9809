//! What workers do at a desk.

ghost use Rattle.std.specs.Prelude.{◌≡◌, ◌≤◌, IfErr, IfOk, IfSome, IsSome};
ghost use Rattle.live_case_board.specs.CaseFiles.{HasPiece};

use crate::case_checker::CaseChecker;
use crate::desk::Desk;
use crate::shelf_name::ShelfName;
use crate::ticket::Ticket;
use crate::verdict::Verdict;
use cert_check::DeskError;
use judge_workers::Gate;
use model_history::OpId;
use pattern_check::Refutable;
use std::alloc::{AllocError, Global};
use std::sync::Wait;

/// How many pieces one call of `work` takes at most.
const MAX_TURNS: u32 = 65_536;

impl<O: Refutable, K: ShelfName> Desk<O, K> {
    /// Takes pieces, checks each outside the lock, between `enter` and `leave` of the gate, and puts the verdicts, until
    /// nothing is left to take or 65,536 pieces were taken. Returns how many verdicts it put.
    ///
    /// A verdict that comes second is passed over. Fails for want of memory alone: the piece that it had taken stays without a
    /// verdict, and the verdicts already put stay. The cost of a piece is that of `check_piece`, but for what its schedule shares
    /// with that of the piece before.
    pub fn work<G: Gate>(&self, rt: &impl Wait, gate: &G) -> Result<u32, DeskError>
        ensures turns { IfOk result (λ put. put ≤ MAX_TURNS) }
        ensures refused { IfErr result (λ e. e ≡ DeskError.Memory) }
    {
        let mut put = 0;
        let mut held = None;
        for _turn in 0..MAX_TURNS {
            let Some((checker, is_put)) = self.work_once(rt, gate, held)? else {
                return Ok(put);
            };
            held = Some(checker);
            if is_put {
                put += 1;
            }
        }
        drop(held);
        Ok(put)
    }

    /// Takes one piece, and checks it by the checker that a worker holds or by a new one: that checker, and whether the
    /// verdict was put. `None` where nothing is left to take.
    fn work_once<'a, G: Gate>(
        &'a self,
        rt: &impl Wait,
        gate: &G,
        held: Option<CaseChecker<'a, O, K>>,
    ) -> Result<Option<(CaseChecker<'a, O, K>, bool)>, AllocError> {
        match self.take(rt) {
            None => {
                drop(held);
                Ok(None)
            }
            Some((ticket, op)) => {
                let worked = self.work_on(rt, gate, held, &ticket, op);
                drop(ticket);
                worked.map(Some)
            }
        }
    }

    /// The same for a piece that was taken.
    fn work_on<'a, G: Gate>(
        &'a self,
        rt: &impl Wait,
        gate: &G,
        held: Option<CaseChecker<'a, O, K>>,
        ticket: &Ticket<O, K>,
        op: OpId,
    ) -> Result<(CaseChecker<'a, O, K>, bool), AllocError>
        requires { HasPiece ticket.now.file op }
    {
        let (checker, verdict) = self.check_with(gate, held, ticket, op)?;
        let is_put = self.put(rt, ticket, verdict).is_ok();
        Ok((checker, is_put))
    }

    /// Checks a piece by the checker that a worker holds, where it is of the case of the ticket, or else by one of that case.
    fn check_with<'a, G: Gate>(
        &'a self,
        gate: &G,
        held: Option<CaseChecker<'a, O, K>>,
        ticket: &Ticket<O, K>,
        op: OpId,
    ) -> Result<(CaseChecker<'a, O, K>, Verdict<O, K>), AllocError>
        requires { HasPiece ticket.now.file op }
    {
        let mut checker = self.checker_of(held, ticket)?;
        match check_between(self.alloc(), gate, &mut checker, op) {
            Ok(verdict) => Ok((checker, verdict)),
            Err(no_memory) => {
                drop(checker);
                Err(no_memory)
            }
        }
    }

    /// The checker that a worker holds, where it is of the case of a ticket, or else one of that case.
    fn checker_of<'a>(
        &'a self,
        held: Option<CaseChecker<'a, O, K>>,
        ticket: &Ticket<O, K>,
    ) -> Result<CaseChecker<'a, O, K>, AllocError>
        requires { IsSome ticket.now.file.2 }
        ensures { IfOk result (λ checker. checker.file ≡ ticket.now.file) }
    {
        match self.held_of(held, ticket) {
            Some(checker) => Ok(checker),
            None => CaseChecker::of(self.alloc(), self, ticket),
        }
    }

    /// The checker that a worker holds, where it is of the case of a ticket.
    fn held_of<'a>(
        &self,
        held: Option<CaseChecker<'a, O, K>>,
        ticket: &Ticket<O, K>,
    ) -> Option<CaseChecker<'a, O, K>>
        ensures { IfSome result (λ checker. checker.file ≡ ticket.now.file) }
    {
        let Some(checker) = held else {
            return None;
        };
        if !checker.ticket().is_same_case(ticket) {
            drop(checker);
            return None;
        }
        self.agree(checker.ticket(), ticket);
        Some(checker)
    }

    /// Checks each piece of a case whose row has no verdict yet, outside the lock, and puts the verdicts.
    ///
    /// A verdict that comes second is passed over. Fails for want of memory alone: the verdicts already put stay. Once it has
    /// returned without an error, each row of the case had a verdict when it was looked at. O(n) for n operations, and what
    /// `check` takes for each piece that is checked.
    pub fn settle(&self, rt: &impl Wait, ticket: &Ticket<O, K>) -> Result<(), DeskError>
        ensures { IfErr result (λ e. e ≡ DeskError.Memory) }
    {
        let file = ticket.file(self);
        if file.certificate().is_none() {
            return Ok(());
        }
        for session in 0..file.history().sessions() {
            self.settle_session(rt, ticket, session)?;
        }
        Ok(())
    }

    /// The same for the pieces of one session.
    fn settle_session(
        &self,
        rt: &impl Wait,
        ticket: &Ticket<O, K>,
        session: usize,
    ) -> Result<(), DeskError>
        requires { IsSome ticket.now.file.2 }
        ensures { IfErr result (λ e. e ≡ DeskError.Memory) }
    {
        let operations = ticket.file(self).history().len(session);
        for index in 0..operations {
            let op = OpId::at(session, index);
            if self.is_open(rt, ticket, op) {
                let verdict = self.check(ticket, op)?;
                let _second = self.put(rt, ticket, verdict);
            }
        }
        Ok(())
    }
}

/// Checks a piece between `enter` and `leave` of a gate.
fn check_between<'a, O: Refutable, K: ShelfName, G: Gate>(
    alloc: Global,
    gate: &G,
    checker: &mut CaseChecker<'a, O, K>,
    op: OpId,
) -> Result<Verdict<O, K>, AllocError>
    requires { HasPiece checker.old.file op }
{
    gate.enter(op);
    let verdict = checker.check(alloc, op);
    gate.leave(op);
    verdict
}
