//! The check that each seal has only the first calls of each session of the input.

ghost use Rattle.std.specs.Prelude.{◌≡◌, ◌<◌, IfErr, OnOk};
ghost use Rattle.live_seals.specs.Seals.{IsSealOf};
ghost use Rattle.live_driver.specs.Clients.{AreOfLanesFrom, AreRecorded, AreSealsOf, HasCallsOf, HasFirstCalls, HaveCallsOf};
ghost use Rattle.live_driver.specs.Clients.{HaveFirstCalls, IsGivenUp, IsRecorded};

use crate::drive_error::DriveError;
use crate::run::Run;
use live_recorder::Session;
use live_seals::{Sealed, meet};
use model_object_trait::SeqObject;

/// Refuses with `CellGaveBack` a seal that has a call which its session did not begin. No run meets this.
pub(crate) fn check_seals<O: SeqObject>(
    run: &Run<O>,
    sessions: &Vec<Session<O>>,
    seals: &Vec<Sealed<O>>,
) -> Result<(), DriveError>
    requires recorded { AreRecorded run.now.lanes.now run.now.input.now sessions.now.items }
    requires lanes { AreOfLanesFrom 0 run.now.input.now sessions.now.items }
    requires seals { AreSealsOf run.now.lanes.now seals.now.items }
    ensures calls { OnOk result (HaveFirstCalls run.now.input.now seals.now.items) }
    ensures refused { IfErr result IsGivenUp }
{
    check_each(run, sessions, seals)
}

fn check_each<O: SeqObject>(
    run: &Run<O>,
    sessions: &Vec<Session<O>>,
    seals: &Vec<Sealed<O>>,
) -> Result<(), DriveError>
    requires recorded { AreRecorded run.now.lanes.now run.now.input.now sessions.now.items }
    requires seals { AreSealsOf run.now.lanes.now seals.now.items }
    ensures calls { OnOk result (HaveCallsOf run.now.input.now sessions.now.items seals.now.items) }
    ensures refused { IfErr result IsGivenUp }
{
    for j in 0..seals.len() {
        check_sessions(run, sessions, &seals[j])?;
    }
    Ok(())
}

fn check_sessions<O: SeqObject>(
    run: &Run<O>,
    sessions: &Vec<Session<O>>,
    sealed: &Sealed<O>,
) -> Result<(), DriveError>
    requires recorded { AreRecorded run.now.lanes.now run.now.input.now sessions.now.items }
    requires seal { IsSealOf run.now.lanes.now sealed.now }
    ensures calls { OnOk result (HasCallsOf run.now.input.now sessions.now.items sealed.now.history) }
    ensures refused { IfErr result IsGivenUp }
{
    for j in 0..sessions.len() {
        check_session(run, &sessions[j], sealed)?;
    }
    Ok(())
}

fn check_session<O: SeqObject>(
    run: &Run<O>,
    session: &Session<O>,
    sealed: &Sealed<O>,
) -> Result<(), DriveError>
    requires recorded { IsRecorded run.now.lanes.now run.now.input.now session.now }
    requires seal { IsSealOf run.now.lanes.now sealed.now }
    ensures calls { OnOk result (HasFirstCalls run.now.input.now sealed.now.history session.now.lane) }
    ensures refused { IfErr result IsGivenUp }
{
    let met = meet(sealed, session);
    if met.calls == sealed.history().len(session.lane() as usize) {
        Ok(())
    } else {
        Err(DriveError::CellGaveBack)
    }
}
