//! Schedules by program order alone, one for each operation.

ghost use Rattle.std.specs.Prelude.{◌<◌, ◌≤◌, length, IfOk};
ghost use Rattle.order_causal.specs.Steps.Gathered.{AreListsOf};
ghost use Rattle.order_causal.specs.Vectors.{HasOneEach};
ghost use Rattle.cert_make.specs.ByProgramOrder.{AreOwnSchedules, IsOwnSchedule};

use cert_check::Schedules;
use model_history::{History, MAX_SESSIONS};
use model_object_trait::SeqObject;
use order_causal::Rows;
use std::alloc::{AllocError, Global};

/// For each operation, the schedule of the operations before it in its session and of itself.
///
/// Fails for want of memory alone. O(n p) for n operations in sessions of at most p operations.
pub(crate) fn own_schedules<O: SeqObject>(
    alloc: Global,
    h: &History<O>,
) -> Result<Schedules, AllocError>
    ensures shape { IfOk result (HasOneEach h.now) }
    ensures exact { IfOk result (AreOwnSchedules h.now) }
{
    let mut schedules = Schedules::new(alloc);
    for session in 0..h.sessions() {
        schedules.push_rows(schedules_of(alloc, h, session)?)?;
    }
    Ok(schedules)
}

/// The schedules of the operations of a session.
fn schedules_of<O: SeqObject>(
    alloc: Global,
    h: &History<O>,
    session: usize,
) -> Result<Rows<u8>, AllocError>
    requires few { length h.now.1 ≤ MAX_SESSIONS }
    requires exists { session < length h.now.1 }
    ensures { IfOk result (AreListsOf h.now IsOwnSchedule session) }
{
    let mut schedule = Vec::new(alloc);
    let mut schedules = Rows::new(alloc);
    for _index in 0..h.len(session) {
        schedule.push(session as u8)?;
        schedules.push(&schedule)?;
    }
    Ok(schedules)
}
