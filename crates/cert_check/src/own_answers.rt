//! The check of an operation's own known return against the operations in its schedule.

ghost use Rattle.std.specs.Prelude.{◌↔◌, IfOk, IsTrue};
ghost use Rattle.model_history.specs.History.{IsOp};
ghost use Rattle.order_causal.specs.Orders.{only};
ghost use Rattle.order_causal.specs.Vectors.{AreVectorsOf, IsVectorOk};
ghost use Rattle.cert_check.specs.Criteria.{Explains};
ghost use Rattle.cert_check.specs.Schedules.{named, IsSchedule};

use crate::considered::is_answered_at;
use crate::naming::Naming;
use model_history::{History, OpId};
use model_object_trait::SeqObject;
use order_causal::Vectors;
use std::alloc::{AllocError, Global};

/// Whether the operations in the schedule of an operation explain its own known return.
///
/// Fails for want of memory alone. O(p + k) for k sessions and p numbers from the last call before it on that settles the answer, and
/// O(k) where the answer depends on no call.
pub fn explains_own<O: SeqObject>(
    alloc: Global,
    h: &History<O>,
    v: &Vectors,
    schedule: &[u8],
    op: OpId,
) -> Result<bool, AllocError>
    requires shape { AreVectorsOf h.now v.now }
    requires is_op { IsOp h.now op }
    requires vector { IsVectorOk h.now v.now op }
    requires schedule { IsSchedule h.now v.now op schedule.now }
    ensures { IfOk result (λ yes. IsTrue yes ↔ Explains O.answer h.now (named schedule.now) (only op)) }
{
    if h.ret(op).is_none() {
        return Ok(true);
    }
    let mut naming = Naming::at(alloc, v.get(op))?;
    let place = naming.back_to(schedule, op);
    is_answered_at(alloc, h, v, schedule, &mut naming, place, op)
}
