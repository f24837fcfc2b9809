//! Schedules of the past of an operation.

ghost use Rattle.std.specs.Prelude.{◌≡◌, ◌<◌, ◌≤◌, ℕ, length, IfOk, OnOk, slice_index_or};
ghost use Rattle.model_history.specs.History.{IsOp};
ghost use Rattle.order_causal.specs.Vectors.{IsListed};
ghost use Rattle.order_causal.specs.Topological.{AreSquare};
ghost use Rattle.order_memory.specs.SourceOrder.{CountsSourceOrder};
ghost use Rattle.cert_make_cc.specs.BySources.{AreApart, IsApart, IsScheduleFor};
ghost use Rattle.cert_make_cc.specs.Steps.Cuts.{IsCountedOn, IsCut, IsWalkOfAll};

use crate::cutting::Cutting;
use crate::whole_walk::WholeWalk;
use model_history::{MAX_SESSIONS, OpId};
use order_causal::{MAX_PLACED, Vectors, has_counted};
use order_memory::CausalOrder;
use std::alloc::{AllocError, Global};

/// Changes to the schedule of an operation: a walk through its past by the topological rule. If it has a source, what isn't
/// after the source comes first, then the source, then the rest.
///
/// Fails for want of memory alone. O(m + p k + k^2 + k log n) for n operations of k sessions, p of which are in the past and
/// count the source, and m operations of the whole walk from the first one that only one of this cut and the one before has.
pub fn schedule_of(
    alloc: Global,
    order: &CausalOrder,
    vectors: &Vectors,
    whole: &WholeWalk,
    op: OpId,
    cutting: &mut Cutting,
) -> Result<(), AllocError>
    requires counts { CountsSourceOrder order.now vectors.now }
    requires few { length vectors.now ≤ MAX_SESSIONS }
    requires whole { IsWalkOfAll vectors.now whole.now }
    requires is_op { IsOp order.now op }
    requires size { length cutting.old.limits.items ≡ length vectors.now }
    requires cut { IsCut whole.now cutting.old.limits.items cutting.old.starts.items cutting.old.walk }
    ensures size { OnOk result (length cutting.new.limits.items ≡ length vectors.now) }
    ensures cut { OnOk result (IsCut whole.now cutting.new.limits.items cutting.new.starts.items cutting.new.walk) }
    ensures schedule { OnOk result (IsScheduleFor order.now vectors.now op cutting.new.walk) }
{
    let Some(write) = order.source(op) else {
        let past = Vec::from_slice(alloc, vectors.get(op))?;
        return cutting.cut_to(vectors, whole, past);
    };
    let limits = limits_apart_from(alloc, vectors, op, write)?;
    cutting.cut_to(vectors, whole, limits)?;
    cutting.run_behind(vectors, write.session_place(), vectors.get(op))
}

/// For each session, how many of its operations are in the past of an operation and are neither a write nor after it.
fn limits_apart_from(
    alloc: Global,
    vectors: &Vectors,
    op: OpId,
    write: OpId,
) -> Result<Vec<u16>, AllocError>
    requires few { length vectors.now ≤ MAX_SESSIONS }
    requires square { AreSquare vectors.now }
    requires listed { IsListed vectors.now op }
    requires rising { IsCountedOn vectors.now write }
    ensures apart { IfOk result (λ limits. AreApart vectors.now op write limits.items) }
    ensures small { IfOk result (λ limits. (s : ℕ) → s < length vectors.now → slice_index_or limits.items s 0 < MAX_PLACED) }
{
    let counts = vectors.get(op);
    let mut limits = Vec::new(alloc);
    for session in 0..vectors.sessions() {
        limits.push(limit_apart_from(vectors, session, counts[session], write))?;
    }
    Ok(limits)
}

/// How many of the first operations of a session, up to a limit, have a vector that doesn't count a write.
///
/// O(log p) for p operations up to the limit: from the first one that counts it on, all do.
fn limit_apart_from(vectors: &Vectors, session: usize, limit: u16, write: OpId) -> u16
    requires exists { session < length vectors.now }
    requires rising { IsCountedOn vectors.now write }
    ensures { IsApart vectors.now write session limit result }
{
    let mut free = 0;
    let mut end = vectors.operations(session).min(usize::from(limit));
    while free < end {
        let middle = free + (end - free) / 2;
        if has_counted(vectors, OpId::at(session, middle), write) {
            end = middle;
        } else {
            free = middle + 1;
        }
    }
    free as u16
}
