//! The steps of one call, with their possible refusals.

ghost use Rattle.std.specs.Prelude.{◌≡◌, ◌<◌, ◌+◌, true, IfErr, IfOk, OnOk};
ghost use Rattle.model_history.specs.declared.limits.TheConstants.{MAX_OPERATIONS};
ghost use Rattle.live_recorder.specs.Refusals.{HasPlace};
ghost use Rattle.live_recorder.specs.Sessions.{CanReturn, HasFinished, after_begin, receipt_of};
ghost use Rattle.live_driver.specs.Clients.{IsGivenUp};

use crate::drive_error::DriveError;
use live_recorder::{Receipt, RecordError, Session};
use live_replica::{Acted, Replica, ReplicaError, UpdateOrder};
use model_history::Advice;
use model_object_trait::SeqObject;

/// Begins a call.
pub(crate) fn begin<O: SeqObject>(session: &mut Session<O>, call: O::Call) -> Result<(), DriveError>
    requires { HasPlace session.old }
    ensures begun { OnOk result (session.new ≡ after_begin session.old call) }
    ensures refused { IfErr result IsGivenUp }
{
    match session.begin(call) {
        Ok(_op) => Ok(()),
        Err(RecordError::Memory) => Err(DriveError::Memory),
        Err(RecordError::CellGaveBack) => Err(DriveError::CellGaveBack),
        Err(_) => unreachable!(),
    }
}

/// Asks a replica.
pub(crate) fn ask<O: SeqObject, P: UpdateOrder>(
    replica: &mut Replica<O, P>,
    call: O::Call,
) -> Result<Acted<O>, DriveError>
    requires { replica.old.operations < MAX_OPERATIONS }
    ensures fits { IfOk result (λ acted. O.matches call acted.ret ≡ true) }
    ensures answered { OnOk result (replica.new.operations ≡ replica.old.operations + 1) }
    ensures refused { IfErr result IsGivenUp }
{
    match replica.act(call) {
        Ok(acted) => Ok(acted),
        Err(ReplicaError::Memory) => Err(DriveError::Memory),
        Err(ReplicaError::ClockFull) => Err(DriveError::ClockFull),
        Err(ReplicaError::LaneFull) => unreachable!(),
    }
}

/// Ends the pending call with a return that it may have.
pub(crate) fn finish<O: SeqObject>(
    session: &mut Session<O>,
    ret: O::Ret,
    advice: Advice,
) -> Result<Receipt<O>, DriveError>
    requires { CanReturn O.matches session.old ret }
    ensures finished { IfOk result (λ _. HasFinished O.matches session.old ret advice session.new) }
    ensures receipt { IfOk result (λ receipt. receipt ≡ receipt_of session.new) }
    ensures refused { IfErr result IsGivenUp }
{
    match session.finish(ret, advice) {
        Ok(receipt) => Ok(receipt),
        Err((RecordError::CellGaveBack, _)) => Err(DriveError::CellGaveBack),
        Err(_) => unreachable!(),
    }
}
