//! Checks the known returns of a session from the end of a schedule back.

ghost use Rattle.std.specs.Prelude.{◌≤◌, ◌↔◌, length, take, IfOk, IfSome, IsTrue};
ghost use Rattle.model_history.specs.History.{IsOp};
ghost use Rattle.order_causal.specs.Orders.{program_past};
ghost use Rattle.order_causal.specs.Vectors.{AreVectorsOf, IsVectorOk};
ghost use Rattle.cert_check.specs.Schedules.{named, IsSchedule};
ghost use Rattle.cert_check.specs.Steps.Namings.{AreCountsAt};
ghost use Rattle.cert_check.specs.Steps.Replays.{AreAnswered, IsAnsweredAfter};

use crate::considered::is_answered_back_to;
use crate::naming::Naming;
use model_history::{History, OpId};
use model_object_trait::SeqObject;
use order_causal::Vectors;
use std::alloc::{AllocError, Global};

/// How far before a known return the check looks for the call that settles it.
const MAX_BACK: usize = 256;

/// Whether the known returns of a session up to an operation are the answers at their places in its schedule, given that those
/// before a place of it are. None if the call that settles one of them isn't found near before it.
///
/// Fails for want of memory alone. O(p + q r + k) for p numbers after that place, q known returns of the session among them, r
/// numbers (at most 256) from each back to the call that settles it, and k sessions.
pub fn are_answered_behind<O: SeqObject>(
    alloc: Global,
    h: &History<O>,
    v: &Vectors,
    schedule: &[u8],
    front: usize,
    op: OpId,
) -> Result<Option<bool>, AllocError>
    requires shape { AreVectorsOf h.now v.now }
    requires is_op { IsOp h.now op }
    requires vector { IsVectorOk h.now v.now op }
    requires schedule { IsSchedule h.now v.now op schedule.now }
    requires answered { AreAnswered O.answer h.now (program_past op) schedule.now front }
    ensures { IfOk result (λ told. IfSome told (λ yes. IsTrue yes
        ↔ AreAnswered O.answer h.now (program_past op) schedule.now (length schedule.now))) }
{
    let mut naming = Naming::at(alloc, v.get(op))?;
    let mut place = schedule.len();
    while place > front {
        place -= 1;
        let next = naming.back(schedule, place);
        if next.session == op.session {
            match is_answered_near(alloc, h, v, schedule, &naming, place, op, next)? {
                Some(true) => {}
                Some(false) => return Ok(Some(false)),
                None => return Ok(None),
            }
        }
    }
    Ok(Some(true))
}

/// Whether the return of an operation at a place of the schedule of another, where it is known, is the answer after the operations
/// before it. None if the call that settles it isn't found near before it.
fn is_answered_near<O: SeqObject>(
    alloc: Global,
    h: &History<O>,
    v: &Vectors,
    schedule: &[u8],
    naming: &Naming,
    place: usize,
    of: OpId,
    op: OpId,
) -> Result<Option<bool>, AllocError>
    requires shape { AreVectorsOf h.now v.now }
    requires of { IsOp h.now of }
    requires is_op { IsOp h.now op }
    requires schedule { IsSchedule h.now v.now of schedule.now }
    requires within { place ≤ length schedule.now }
    requires counts { AreCountsAt schedule.now place (length h.now.1) naming.now.counts.items }
    ensures { IfOk result (λ told. IfSome told (λ yes. IsTrue yes
        ↔ IsAnsweredAfter O.answer h.now (take place (named schedule.now)) op)) }
{
    if h.ret(op).is_none() {
        return Ok(Some(true));
    }
    let mut back = naming.copy(alloc)?;
    let from = place.saturating_sub(MAX_BACK);
    is_answered_back_to(alloc, h, v, schedule, &mut back, from, place, of, op)
}
