//! A client, which records the calls of a session and answers them from its replica.

ghost use Rattle.std.specs.Prelude.{◌≡◌, ◌<◌, ◌+◌, [], length, IfErr, IfOk, None, OnOk};
ghost use Rattle.model_history.specs.declared.limits.TheConstants.{MAX_OPERATIONS};
ghost use Rattle.live_recorder.specs.Refusals.{HasPlace};
ghost use Rattle.live_recorder.specs.Sessions.{after_begin, receipt_of};
ghost use Rattle.live_driver.specs.Clients.{HasReturned, IsGivenUp};

use crate::drive_error::DriveError;
use crate::run::Run;
use crate::steps::{ask, begin, finish};
use crate::taking_in::take_in;
use judge_workers::Gate;
use live_recorder::{Receipt, Session};
use live_replica::{Replica, UpdateOrder};
use model_history::OpId;
use model_object_trait::SeqObject;
use std::sync::Wait;

/// The client of a session: what records its calls, and what answers them.
#[derive(Drop)]
pub(crate) struct Client<O: SeqObject, P: UpdateOrder> {
    pub(crate) session: Session<O>,
    pub(crate) replica: Replica<O, P>,
}

impl<O: SeqObject, P: UpdateOrder> Client<O, P> {
    /// Takes in the updates in its mailbox, and records a call between `enter` and `leave` of the gate.
    pub(crate) fn play<R: Wait, G: Gate>(
        &mut self,
        rt: &R,
        run: &Run<O>,
        gate: &G,
        call: O::Call,
    ) -> Result<Receipt<O>, DriveError>
        requires place { HasPlace self.old.session }
        requires answers { self.old.replica.operations < MAX_OPERATIONS }
        ensures returned { IfOk result (λ _. HasReturned self.old.session call self.new.session) }
        ensures receipt { IfOk result (λ receipt. receipt ≡ receipt_of self.new.session) }
        ensures answered { OnOk result (self.new.replica.operations ≡ self.old.replica.operations + 1) }
        ensures refused { IfErr result IsGivenUp }
    {
        let op = self.next_op();
        take_in(rt, run, op.session_place(), &mut self.replica)?;
        gate.enter(op);
        let recorded = self.record(rt, run, call);
        gate.leave(op);
        recorded
    }

    /// Records the last call as begun, and leaves it open.
    pub(crate) fn leave_open<R: Wait, G: Gate>(
        &mut self,
        rt: &R,
        run: &Run<O>,
        gate: &G,
        call: O::Call,
    ) -> Result<(), DriveError>
        requires { HasPlace self.old.session }
        ensures begun { OnOk result (self.new.session ≡ after_begin self.old.session call) }
        ensures refused { IfErr result IsGivenUp }
    {
        let op = self.next_op();
        take_in(rt, run, op.session_place(), &mut self.replica)?;
        gate.enter(op);
        let begun = begin(&mut self.session, call);
        gate.leave(op);
        begun
    }

    /// The session, without the replica.
    pub(crate) fn into_session(self) -> Session<O>
        ensures { result ≡ self.session }
    {
        let Client { session, replica } = self;
        drop(replica);
        session
    }

    /// The operation that comes next.
    fn next_op(&self) -> OpId {
        OpId {
            session: self.session.lane(),
            index: self.session.returned() as u64,
        }
    }

    /// Begins a call, asks the replica, sends the update to the others, and ends the call.
    fn record<R: Wait>(
        &mut self,
        rt: &R,
        run: &Run<O>,
        call: O::Call,
    ) -> Result<Receipt<O>, DriveError>
        requires place { HasPlace self.old.session }
        requires answers { self.old.replica.operations < MAX_OPERATIONS }
        ensures returned { IfOk result (λ _. HasReturned self.old.session call self.new.session) }
        ensures receipt { IfOk result (λ receipt. receipt ≡ receipt_of self.new.session) }
        ensures answered { OnOk result (self.new.replica.operations ≡ self.old.replica.operations + 1) }
        ensures refused { IfErr result IsGivenUp }
    {
        begin(&mut self.session, call)?;
        let acted = ask(&mut self.replica, call)?;
        if let Some(update) = &acted.update {
            run.mailboxes.send(rt, update)?;
        }
        finish(&mut self.session, acted.ret, acted.advice)
    }
}
