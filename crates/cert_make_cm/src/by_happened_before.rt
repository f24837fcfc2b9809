//! Certificates of memory histories by their happened-before relations.

ghost use Rattle.std.specs.Prelude.{◌≡◌, ◌⊎◌, ◌+◌, ◌<◌, ◌≤◌, length, IfNone, IfOk, IfSome, IsTrue, IsFalse};
ghost use Rattle.model_history.specs.History.{IsOp};
ghost use Rattle.model_history.specs.declared.op_id.OpId.{OpId as Operation};
ghost use Rattle.order_memory.specs.HappenedBeforePatterns.{HasStartOverwrittenInHB};
ghost use Rattle.order_memory.specs.Memory.{memory_answer, IsDifferentiated};
ghost use Rattle.order_causal.specs.Steps.Gathered.{AreGatheredBefore};
ghost use Rattle.order_memory.specs.SourceOrder.{CountsSourceOrder, IsCyclic, LacksSource};
ghost use Rattle.order_causal.specs.Vectors.{HasOneEach, list_of};
ghost use Rattle.cert_check.specs.Certificates.{criterion_of, HasShapeOf, IsExplainedThroughout, vectors_of};
ghost use Rattle.cert_make_cm.specs.ByTurns.{HasNoTurns, IsByTurns, TakesTurns};

use crate::turns::{Turns, standing};
use cert_check::{Certificate, Criterion, Schedules};
use model_history::MAX_SESSIONS;
use order_memory::{CausalOrder, HappenedBefore, IndexedMemory, MAX_PAIRS, Saturation};
use std::alloc::{AllocError, Global};

/// A certificate of causal memory of a memory history: the past of an operation is what is before it in the order that
/// program order and the sources of the reads make, and its schedule goes by the happened-before relation of the
/// operation.
///
/// The source of a known read of a value that is not the initial one is the first write of that value. The schedule takes
/// the operations of its session in turn, up to it. What the relation puts before each and isn't placed yet comes before
/// it, by the topological rule. `None` where the order is cyclic, where a read has no source, or where the relation of some
/// operation is cyclic or has more than 100,000 pairs that the order doesn't have.
///
/// On distinct values the certificate explains all known returns where no relation puts a write before a read of the
/// initial value. So where no bad pattern against causal memory is present, it shows the criterion, and there is one unless
/// a relation has so many pairs.
/// Where values are not distinct, the checker of certificates decides whether the certificate explains the known returns.
/// Fails for want of memory alone. O(n p k + n k (k^2 + log n) + m k^2 log p) for n operations of k sessions, pasts of at
/// most p operations and m pairs more in each relation.
pub(crate) fn make_by_sources(
    alloc: Global,
    memory: &IndexedMemory,
) -> Result<Option<Certificate>, AllocError>
    ensures criterion { IfOk result (λ made. IfSome made (λ c. criterion_of c ≡ Criterion.Cm)) }
    ensures shape { IfOk result (λ made. IfSome made (HasShapeOf memory.now)) }
    ensures vectors { IfOk result (λ made. IfSome made (λ c. CountsSourceOrder memory.now (vectors_of c))) }
    ensures turns { IsDifferentiated memory.now → IfOk result (λ made. IfSome made (IsByTurns memory.now)) }
    ensures none { IsDifferentiated memory.now
        → IfOk result (λ made. IfNone made ((IsCyclic memory.now ⊎ LacksSource memory.now) ⊎ HasNoTurns memory.now)) }
    ensures some { IsDifferentiated memory.now → IfOk result (λ made. IfSome made (λ _. ¬ HasNoTurns memory.now)) }
    ensures explained { IsDifferentiated memory.now → ¬ HasStartOverwrittenInHB memory.now
        → IfOk result (λ made. IfSome made (IsExplainedThroughout memory_answer memory.now)) }
{
    let Some(order) = memory.order() else {
        return Ok(None);
    };
    make_by_order(alloc, &order)
}

/// The same, by the causal order of the history.
///
/// `None` where the happened-before relation of some operation is cyclic or has more than 100,000 pairs that the order
/// doesn't have. Fails for want of memory alone. O(n p k + n k (k^2 + log n) + m k^2 log p) for n operations of k sessions,
/// pasts of at most p operations and m pairs more in each relation.
fn make_by_order(alloc: Global, order: &CausalOrder) -> Result<Option<Certificate>, AllocError>
    ensures criterion { IfOk result (λ made. IfSome made (λ c. criterion_of c ≡ Criterion.Cm)) }
    ensures shape { IfOk result (λ made. IfSome made (HasShapeOf order.now)) }
    ensures vectors { IfOk result (λ made. IfSome made (λ c. CountsSourceOrder order.now (vectors_of c))) }
    ensures turns { IsDifferentiated order.now → IfOk result (λ made. IfSome made (IsByTurns order.now)) }
    ensures none { IsDifferentiated order.now → IfOk result (λ made. IfNone made (HasNoTurns order.now)) }
    ensures some { IsDifferentiated order.now → IfOk result (λ made. IfSome made (λ _. ¬ HasNoTurns order.now)) }
    ensures explained { IsDifferentiated order.now → ¬ HasStartOverwrittenInHB order.now
        → IfOk result (λ made. IfSome made (IsExplainedThroughout memory_answer order.now)) }
{
    order.history().value_is_history();
    let vectors = order.vectors().copy(alloc)?;
    let Some(schedules) = schedules_by_happened_before(alloc, order)? else {
        return Ok(None);
    };
    Ok(Some(Certificate::Cm(vectors, schedules)))
}

/// For each operation, the schedule of its past, or `None` where a happened-before relation is cyclic or given up.
fn schedules_by_happened_before(
    alloc: Global,
    order: &CausalOrder,
) -> Result<Option<Schedules>, AllocError>
    ensures shape { IfOk result (λ made. IfSome made (HasOneEach order.now)) }
    ensures each { IfOk result (λ made. IfSome made (λ schedules.
        (o : Operation) → IsOp order.now o → TakesTurns order.now o (list_of schedules o))) }
    ensures none { IsDifferentiated order.now → IfOk result (λ made. IfNone made (HasNoTurns order.now)) }
{
    let h = order.history();
    let mut schedules = Schedules::new(alloc);
    for session in 0..h.sessions() {
        if !push_schedules(alloc, order, session, &mut schedules)? {
            return Ok(None);
        }
    }
    Ok(Some(schedules))
}

/// Puts the schedules of a session after those of the sessions before it. Returns whether none of the session's
/// happened-before relations is cyclic or given up.
///
/// The schedule of an operation goes on from that of the operation before it, from the first turn that is no longer valid.
fn push_schedules(
    alloc: Global,
    order: &CausalOrder,
    session: usize,
    schedules: &mut Schedules,
) -> Result<bool, AllocError>
    requires few { length order.now.1 ≤ MAX_SESSIONS }
    requires exists { session < length order.now.1 }
    requires so_far { AreGatheredBefore order.now (TakesTurns order.now) session schedules.old }
    ensures all { IfOk result (λ all. IsTrue all → AreGatheredBefore order.now (TakesTurns order.now) (session + 1) schedules.new) }
    ensures none { IsDifferentiated order.now → IfOk result (λ all. IsFalse all → HasNoTurns order.now) }
{
    let h = order.history();
    let mut happened = HappenedBefore::of(alloc, order, session, Some(MAX_PAIRS))?;
    let mut turns = Turns::new(alloc);
    schedules.push_session()?;
    for index in 0..h.len(session) {
        let raises = happened.raises().len();
        happened = happened.take_next(order)?;
        match happened.saturation() {
            Saturation::Saturated => {}
            Saturation::Cyclic | Saturation::GivenUp => return Ok(false),
        }
        turns.keep(standing(h, &happened, session, index, raises));
        turns.go_on(h, happened.vectors(), session, index + 1)?;
        schedules.push(session, turns.schedule())?;
    }
    Ok(true)
}
