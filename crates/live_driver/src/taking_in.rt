//! The way of updates from a mailbox into the replica of its client.

ghost use Rattle.std.specs.Prelude.{◌≡◌, IfErr, OnOk};
ghost use Rattle.live_driver.specs.Clients.{IsGivenUp};

use crate::drive_error::DriveError;
use crate::run::Run;
use live_replica::{Replica, ReplicaError, Update, UpdateOrder};
use model_history::{MAX_OPERATIONS, MAX_SESSIONS};
use model_object_trait::SeqObject;
use std::sync::Wait;

/// No mailbox has more updates than this.
const MAX_UPDATES: usize = MAX_SESSIONS * MAX_OPERATIONS;

/// Takes in the updates in the mailbox of a session.
pub(crate) fn take_in<O: SeqObject, P: UpdateOrder, R: Wait>(
    rt: &R,
    run: &Run<O>,
    session: usize,
    replica: &mut Replica<O, P>,
) -> Result<(), DriveError>
    ensures operations { OnOk result (replica.new.operations ≡ replica.old.operations) }
    ensures refused { IfErr result IsGivenUp }
{
    for _ in 0..MAX_UPDATES {
        let Some(update) = run.mailboxes.take(rt, session) else {
            return Ok(());
        };
        receive(replica, update)?;
    }
    Ok(())
}

fn receive<O: SeqObject, P: UpdateOrder>(
    replica: &mut Replica<O, P>,
    update: Update<O>,
) -> Result<(), DriveError>
    ensures operations { OnOk result (replica.new.operations ≡ replica.old.operations) }
    ensures refused { IfErr result IsGivenUp }
{
    match replica.receive(update) {
        Ok(()) => Ok(()),
        Err(ReplicaError::Memory) => Err(DriveError::Memory),
        Err(_) => unreachable!(),
    }
}
