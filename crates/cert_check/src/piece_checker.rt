//! Checks the pieces of a certificate one after another.

ghost use Rattle.std.specs.Prelude.{◌≡◌, ◌↔◌, IfOk, IsSome, IsTrue, Some};
ghost use Rattle.model_history.specs.History.{IsOp};
ghost use Rattle.order_causal.specs.Orders.{only, program_past};
ghost use Rattle.order_causal.specs.Vectors.{AreVectorsOf};
ghost use Rattle.cert_check.specs.declared.certificate.Certificate.{Certificate as AnyCertificate};
ghost use Rattle.cert_check.specs.Certificates.{vectors_of, IsExplainedIn, IsExplainedPiece, IsScheduledPiece};
ghost use Rattle.cert_check.specs.Steps.Needs.{AreNeedsOf};

use crate::arbitrated::is_arbitrated_piece;
use crate::case_file::CaseFile;
use crate::certificate::Certificate;
use crate::checking::Outcome;
use crate::list_walk::ListWalk;
use crate::need::Needs;
use crate::own_answers::explains_own;
use crate::past_replay::PastReplay;
use crate::schedule_walk::ScheduleWalk;
use model_history::{History, OpId};
use model_object_trait::SeqObject;
use order_causal::Vectors;
use std::alloc::{AllocError, Global};
use std::marker::Model;

/// Checks pieces of the certificate of a case file one after another. It goes through the schedule of each from where it parts from
/// the one before.
#[derive(Drop)]
pub struct PieceChecker<'a, O: SeqObject> {
    file: &'a CaseFile<O>,
    certificate: &'a Certificate,
    walk: ScheduleWalk<'a, O>,
    past: PastReplay<'a, O>,
    list: ListWalk,
}

impl<'a, O: SeqObject> Model for PieceChecker<'a, O> {
    ghost use Rattle.cert_check.specs.Certificates.{CaseRecord};
    ghost use Rattle.cert_check.specs.Steps.Walks.{IsCheckerOf};

    ghost Value = { CaseRecord O.Start O.Call O.Ret };

    ghost view = { λ checker. checker.file.now };

    ghost invariant = { λ checker. IsCheckerOf checker.file.now checker.certificate.now checker.walk checker.past
        checker.list.place checker.list.naming.counts.items };
}

impl<'a, O: SeqObject> PieceChecker<'a, O> {
    /// A checker of many pieces of a case file that has a certificate.
    ///
    /// Fails for want of memory alone. O(n k^2) for n operations and k sessions, and O(n k) where each needs one other.
    pub fn new(alloc: Global, file: &'a CaseFile<O>) -> Result<PieceChecker<'a, O>, AllocError>
        requires certificate { IsSome file.now.2 }
        ensures { IfOk result (λ checker. checker ≡ file.now) }
    {
        let certificate = file.certificate().unwrap();
        let needs = Needs::of(alloc, file.history(), certificate.vectors())?;
        PieceChecker::with(alloc, file, certificate, needs)
    }

    /// A checker of a single piece, for which the needs of all operations are not worth their cost. O(k) for k sessions.
    pub(crate) fn of_one(
        alloc: Global,
        file: &'a CaseFile<O>,
    ) -> Result<PieceChecker<'a, O>, AllocError>
        requires certificate { IsSome file.now.2 }
        ensures { IfOk result (λ checker. checker ≡ file.now) }
    {
        let certificate = file.certificate().unwrap();
        PieceChecker::with(alloc, file, certificate, Needs::none(alloc))
    }

    /// A checker by these needs.
    fn with(
        alloc: Global,
        file: &'a CaseFile<O>,
        certificate: &'a Certificate,
        needs: Needs,
    ) -> Result<PieceChecker<'a, O>, AllocError>
        requires certificate { file.now.2 ≡ Some certificate.now }
        requires needs { AreNeedsOf (vectors_of certificate.now) needs }
        ensures { IfOk result (λ checker. checker ≡ file.now) }
    {
        let _is_case_file = file.certificate();
        let walk = ScheduleWalk::new(alloc, file.history(), certificate.vectors(), needs)?;
        let list = ListWalk::new(alloc, file.history())?;
        Ok(PieceChecker {
            file,
            certificate,
            walk,
            past: PastReplay::new(file.history()),
            list,
        })
    }

    /// The history whose operations have pieces.
    pub(crate) fn history(&self) -> &'a History<O>
        ensures { result.now ≡ self.now.0 }
    {
        self.file.history()
    }

    /// The certificate.
    fn certificate(&self) -> &'a Certificate
        ensures { self.now.2 ≡ Some result.now }
    {
        self.certificate
    }

    /// The result of the check of the piece of an operation.
    ///
    /// Fails for want of memory alone. As `check_piece`, but it goes through the schedule from where it parts from that of the
    /// piece before. For causal memory it checks the known returns of the session in the same way.
    pub fn check(&mut self, alloc: Global, op: OpId) -> Result<Outcome, AllocError>
        requires is_op { IsOp self.old.0 op }
        ensures exact { IfOk result (λ outcome. (outcome ≡ Outcome.Explained) ↔ IsExplainedIn O.answer self.old op) }
        ensures same { self.new ≡ self.old }
    {
        let _certificate = self.certificate();
        if self.is_explained(alloc, op)? {
            Ok(Outcome::Explained)
        } else {
            Ok(Outcome::Unexplained)
        }
    }

    /// Whether the piece of an operation explains it.
    pub(crate) fn is_explained(&mut self, alloc: Global, op: OpId) -> Result<bool, AllocError>
        requires is_op { IsOp self.old.0 op }
        ensures exact { IfOk result (λ yes. (c : AnyCertificate) → self.old.2 ≡ Some c
            → IsTrue yes ↔ IsExplainedPiece O.answer self.old.0 c op) }
        ensures same { self.new ≡ self.old }
    {
        let h = self.file.history();
        match self.certificate {
            Certificate::Cc(v, schedules) => {
                is_own_piece(alloc, &mut self.walk, h, v, schedules.get(op), op)
            }
            Certificate::Cm(v, schedules) => {
                is_past_piece(
                    alloc,
                    &mut self.walk,
                    &mut self.past,
                    v,
                    schedules.get(op),
                    op,
                )
            }
            Certificate::Ccv(v, arbitration) => {
                is_arbitrated_piece(alloc, &mut self.list, h, v, arbitration.sessions(), op)
            }
        }
    }
}

/// Whether the vector and the schedule of an operation explain its own known return.
fn is_own_piece<'a, O: SeqObject>(
    alloc: Global,
    walk: &mut ScheduleWalk<'a, O>,
    h: &History<O>,
    v: &Vectors,
    schedule: &'a [u8],
    op: OpId,
) -> Result<bool, AllocError>
    requires walk { walk.old ≡ (h.now, v.now) }
    requires shape { AreVectorsOf h.now v.now }
    requires is_op { IsOp h.now op }
    ensures exact { IfOk result (λ yes. IsTrue yes ↔ IsScheduledPiece O.answer h.now v.now schedule.now op (only op)) }
    ensures same { walk.new ≡ walk.old }
{
    if !walk.is_schedule(schedule, op) {
        return Ok(false);
    }
    explains_own(alloc, h, v, schedule, op)
}

/// Whether the vector and the schedule of an operation explain the known returns of its session up to it.
fn is_past_piece<'a, O: SeqObject>(
    alloc: Global,
    walk: &mut ScheduleWalk<'a, O>,
    past: &mut PastReplay<'a, O>,
    v: &Vectors,
    schedule: &'a [u8],
    op: OpId,
) -> Result<bool, AllocError>
    requires walk { walk.old ≡ (past.old, v.now) }
    requires shape { AreVectorsOf past.old v.now }
    requires is_op { IsOp past.old op }
    ensures exact { IfOk result (λ yes. IsTrue yes ↔ IsScheduledPiece O.answer past.old v.now schedule.now op (program_past op)) }
    ensures same_walk { walk.new ≡ walk.old }
    ensures same_past { past.new ≡ past.old }
{
    if !walk.is_schedule(schedule, op) {
        return Ok(false);
    }
    past.explains(alloc, v, schedule, op)
}
