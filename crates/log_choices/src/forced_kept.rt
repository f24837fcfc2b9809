//! The writes and deletes of a log that did not fail.

ghost use Rattle.std.specs.Prelude.{◌≡◌, ◌↔◌, All, Bool, Contains, IfOk, IfSome, IsTrue, Some, filter_map, map};
ghost use Rattle.log_events.specs.declared.event.Ending.TheVariants.{Lost as IsLost};
ghost use Rattle.log_events.specs.Events.{run_calls};
ghost use Rattle.log_choices.specs.ForcedSteps.{AreDeletes, IsKeptWrite, deleted_spot, spot_of, written_by};

use log_events::{ClientCall, Ending, EventLog, LoggedCall};
use std::alloc::{AllocError, Global};

/// A write or a delete that did not fail.
#[derive(Drop)]
pub(crate) struct Kept {
    pub(crate) client: u32,
    /// The place of its begin.
    pub(crate) place: u32,
    pub(crate) key: u32,
    /// What was written, or `None` for a delete.
    pub(crate) value: Option<u32>,
    /// Whether it was lost: then it comes before no later call of its client.
    pub(crate) is_lost: bool,
    /// For each client one more than the place of a call that comes before, or 0; none past the end.
    pub(crate) past: Vec<u32>,
}

/// A delete that did not fail.
#[derive(Clone, Copy)]
pub(crate) struct Delete {
    pub(crate) key: u32,
    /// The place of its begin.
    pub(crate) place: u32,
}

/// The writes and deletes that did not fail, in the order of their begins, with nothing known of what comes before them.
///
/// Fails for want of memory alone. O(n) for n calls.
pub(crate) fn kept_writes(alloc: Global, log: &EventLog) -> Result<Vec<Kept>, AllocError>
    ensures { IfOk result (λ writes. (in_time : Bool) → All (IsKeptWrite in_time log.now) writes.items) }
{
    let mut writes = Vec::new(alloc);
    for call in log.calls() {
        if let Some(write) = kept_write(alloc, log, call) {
            writes.push(write)?;
        }
    }
    Ok(writes)
}

/// A call as a write or a delete that did not fail, with nothing known of what comes before it.
fn kept_write(alloc: Global, log: &EventLog, call: &LoggedCall) -> Option<Kept>
    requires { Contains (run_calls log.now) call.now }
    ensures { IfSome result (λ write. (in_time : Bool) → IsKeptWrite in_time log.now write) }
{
    // It opens the log, so that its calls are known to be small.
    let _log = log.calls();
    let (key, value) = written(call)?;
    Some(Kept {
        client: call.client(),
        place: call.place(),
        key,
        value,
        is_lost: is_lost(call),
        past: Vec::new(alloc),
    })
}

/// The key of a write or a delete that did not fail, and the value that it writes.
fn written(call: &LoggedCall) -> Option<(u32, Option<u32>)>
    ensures { result ≡ written_by call.now.call call.now.ending }
{
    match (call.call(), call.ending()) {
        (_, Some(Ending::Failed)) | (ClientCall::ReadOf(_), _) => None,
        (ClientCall::WriteTo(key, value), _) => Some((key, Some(value))),
        (ClientCall::DeleteOf(key), _) => Some((key, None)),
    }
}

/// The deletes that did not fail, by key.
///
/// Fails for want of memory alone. O(n log n) for n calls.
pub(crate) fn kept_deletes(alloc: Global, log: &EventLog) -> Result<Vec<Delete>, AllocError>
    ensures { IfOk result (λ deletes. AreDeletes log.now deletes.items) }
{
    let mut deletes = listed_deletes(alloc, log.calls())?;
    deletes.sort_by_key(|delete| delete.key)?;
    Ok(deletes)
}

/// The deletes that did not fail, in the order of their begins.
///
/// Fails for want of memory alone. O(n) for n calls.
fn listed_deletes(alloc: Global, calls: &[LoggedCall]) -> Result<Vec<Delete>, AllocError>
    ensures { IfOk result (λ deletes. map spot_of deletes.items ≡ filter_map deleted_spot calls.now) }
{
    let mut deletes = Vec::new(alloc);
    for call in calls {
        if let Some(key) = call.deleted_key() {
            deletes.push(Delete {
                key,
                place: call.place(),
            })?;
        }
    }
    Ok(deletes)
}

/// Whether a call was lost.
fn is_lost(call: &LoggedCall) -> bool
    ensures { IsTrue result ↔ (call.now.ending ≡ Some IsLost) }
{
    matches!(call.ending(), Some(Ending::Lost))
}
