//! Certificates of memory histories by the writes that their reads read from.

ghost use Rattle.std.specs.Prelude.{◌≡◌, ◌⊎◌, ◌<◌, ◌≤◌, length, IfNone, IfOk, IfSome, IsSome};
ghost use Rattle.model_history.specs.History.{IsOp};
ghost use Rattle.model_history.specs.declared.op_id.OpId.{OpId as Operation};
ghost use Rattle.order_causal.specs.Steps.Gathered.{AreListsOf};
ghost use Rattle.order_memory.specs.Memory.{memory_answer};
ghost use Rattle.order_memory.specs.OverwrittenReads.{HasOverwrittenRead, HasOverwrittenStart};
ghost use Rattle.order_memory.specs.SourceOrder.{CountsSourceOrder, IsCyclic, LacksSource, SourceOrder};
ghost use Rattle.order_causal.specs.Vectors.{HasOneEach, list_of};
ghost use Rattle.cert_check.specs.Certificates.{criterion_of, HasShapeOf, IsExplainedThroughout};
ghost use Rattle.cert_make_cc.specs.BySources.{IsBySources, IsScheduleFor};
ghost use Rattle.cert_make_cc.specs.Steps.Cuts.{IsWalkOfAll};

use crate::cutting::Cutting;
use crate::schedule::schedule_of;
use crate::whole_walk::{WholeWalk, walk_of_all};
use cert_check::{Certificate, Criterion, Schedules};
use model_history::{MAX_SESSIONS, OpId};
use order_causal::{Rows, Vectors};
use order_memory::{CausalOrder, IndexedMemory};
use std::alloc::{AllocError, Global};

/// A certificate of causal consistency of a memory history: the past of an operation is what is before it in the order
/// that program order and the sources of the reads make, and in the schedule of a read its source comes as late as this
/// order lets it.
///
/// The source of a known read of a value that is not the initial one is the first write of that value. `None` where the
/// order is cyclic, or where a read has no source. The certificate explains all known returns where none of them is an
/// overwritten value; else the checker of certificates decides whether it does. So on distinct values, where no bad pattern
/// against causal consistency is present, there is one and it shows the criterion. Fails for want of memory alone.
/// O(n (n + p k)) for n operations of k sessions, where at most p operations of a past count the source of its read.
pub(crate) fn make_by_sources(
    alloc: Global,
    memory: &IndexedMemory,
) -> Result<Option<Certificate>, AllocError>
    ensures criterion { IfOk result (λ made. IfSome made (λ c. criterion_of c ≡ Criterion.Cc)) }
    ensures shape { IfOk result (λ made. IfSome made (HasShapeOf memory.now)) }
    ensures exact { IfOk result (λ made. IfSome made (IsBySources memory.now)) }
    ensures none { IfOk result (λ made. IfNone made (((a : Operation) × SourceOrder memory.now a a) ⊎ LacksSource memory.now)) }
    ensures made { ¬ IsCyclic memory.now → ¬ LacksSource memory.now → IfOk result (λ made. IsSome made) }
    ensures explained { ¬ HasOverwrittenStart memory.now → ¬ HasOverwrittenRead memory.now
        → IfOk result (λ made. IfSome made (IsExplainedThroughout memory_answer memory.now)) }
{
    let Some(order) = memory.order() else {
        return Ok(None);
    };
    Ok(Some(make_by_order(alloc, &order)?))
}

/// The same, by the causal order of the history.
///
/// Fails for want of memory alone. O(n (n + p k)) for n operations of k sessions, where at most p operations of a past count the
/// source of its read.
fn make_by_order(alloc: Global, order: &CausalOrder) -> Result<Certificate, AllocError>
    ensures criterion { IfOk result (λ c. criterion_of c ≡ Criterion.Cc) }
    ensures shape { IfOk result (HasShapeOf order.now) }
    ensures exact { IfOk result (IsBySources order.now) }
    ensures explained { ¬ HasOverwrittenStart order.now → ¬ HasOverwrittenRead order.now
        → IfOk result (IsExplainedThroughout memory_answer order.now) }
{
    order.memory().history().value_is_history();
    let vectors = order.vectors().copy(alloc)?;
    let schedules = schedules_by_sources(alloc, order, &vectors)?;
    Ok(Certificate::Cc(vectors, schedules))
}

/// For each operation, the schedule of its past, which these vectors count.
fn schedules_by_sources(
    alloc: Global,
    order: &CausalOrder,
    vectors: &Vectors,
) -> Result<Schedules, AllocError>
    requires counts { CountsSourceOrder order.now vectors.now }
    ensures shape { IfOk result (HasOneEach order.now) }
    ensures exact { IfOk result (λ schedules. (o : Operation) → IsOp order.now o
        → IsScheduleFor order.now vectors.now o (list_of schedules o)) }
{
    let whole = walk_of_all(alloc, order.memory().history(), vectors)?;
    let mut schedules = Schedules::new(alloc);
    for session in 0..order.memory().history().sessions() {
        schedules.push_rows(schedules_of(alloc, order, vectors, &whole, session)?)?;
    }
    Ok(schedules)
}

/// The schedules of the operations of a session, each cut from where the one before it parts from it.
fn schedules_of(
    alloc: Global,
    order: &CausalOrder,
    vectors: &Vectors,
    whole: &WholeWalk,
    session: usize,
) -> Result<Rows<u8>, AllocError>
    requires counts { CountsSourceOrder order.now vectors.now }
    requires whole { IsWalkOfAll vectors.now whole.now }
    requires few { length order.now.1 ≤ MAX_SESSIONS }
    requires exists { session < length order.now.1 }
    ensures { IfOk result (AreListsOf order.now (IsScheduleFor order.now vectors.now) session) }
{
    let mut cutting = Cutting::new(alloc, vectors.sessions())?;
    let mut schedules = Rows::new(alloc);
    for index in 0..order.memory().history().len(session) {
        let op = OpId::at(session, index);
        schedule_of(alloc, order, vectors, whole, op, &mut cutting)?;
        schedules.push(cutting.schedule())?;
    }
    Ok(schedules)
}
