//! The decision whether a long history meets the three criteria.

ghost use Rattle.std.specs.Prelude.{[], ℕ, IfOk};
ghost use Rattle.cert_check.specs.declared.criterion.Criterion.TheVariants.{Cc, Ccv, Cm};
ghost use Rattle.pattern_check.specs.Kinds.{Shows};
ghost use Rattle.judge_memory.specs.Steps.{IsListedEdge, IsOrderBy};
ghost use Rattle.judge_columns.specs.Conflicts.{IsReducedIn};
ghost use Rattle.judge_columns.specs.Swept.{AreEdgesOf};
ghost use Rattle.judge_decision.specs.LongDecisions.{AreDecided, IsLongDecided};
ghost use Rattle.judge_decision.specs.Steps.Consistency.{IsAgainstAll, IsConsistent, IsFirstShown};

use crate::decisions::{LongDecision, LongDecisions};
use crate::session_work::SessionWork;
use crate::thin_air::lacks_source;
use judge_columns::is_convergent;
use judge_memory::{LongHistory, LongIndex, causal_order};
use judge_session_orders::SessionOrder;
use pattern_check::Kind;
use pattern_check::laws::present_kinds_exclude_criteria;
use std::alloc::{AllocError, Global};

/// Whether a long history meets each of the three criteria.
///
/// On distinct values it meets one exactly where no kind of bad pattern against it is present (Bouajjani, Enea, Guerraoui and Hamza, "On
/// Verifying Causal Consistency", POPL 2017). It looks first for kinds against causal consistency: in an order of all operations, and in
/// a column for each session, which says for each operation which operations of that session are before it. For causal convergence it
/// also orders the conflicts that columns leave, and for causal memory the past of each session's last operation. `Open` exactly where
/// values are not distinct.
///
/// `work` goes over the sessions: [`CallingThread`](workers::CallingThread) alone, or [`WorkerThreads`](workers::WorkerThreads), which
/// share them. Both give the same decisions.
///
/// Fails for want of memory alone. O(n (k + log n)) for n operations of k sessions, of which the workers share O(n k).
pub fn decide_long<W: SessionWork>(
    work: &W,
    alloc: Global,
    h: &LongHistory,
) -> Result<LongDecisions, AllocError>
    requires { W.can_work work.now }
    ensures { IfOk result (AreDecided h.now) }
{
    match LongIndex::of(alloc, h)? {
        Some(index) => decide_indexed(work, alloc, &index),
        None => Ok(LongDecisions {
            cc: LongDecision::Open,
            cm: LongDecision::Open,
            ccv: LongDecision::Open,
        }),
    }
}

/// What is decided where a kind against causal consistency is present, and none before it: it excludes all three criteria.
fn excluded_by(index: &LongIndex, kind: Kind) -> LongDecisions
    requires shown { Shows index.now.history kind }
    requires against { IsAgainstAll kind }
    requires first { IsFirstShown index.now.history kind }
    ensures { AreDecided index.now.history result }
{
    index.value_is_indexed();
    present_kinds_exclude_criteria();
    LongDecisions {
        cc: LongDecision::ExcludedBy(kind),
        cm: LongDecision::ExcludedBy(kind),
        ccv: LongDecision::ExcludedBy(kind),
    }
}

/// What [`decide_long`] decides of a history of distinct values, of which an index was made. It costs the same but for the index.
#[tactic(auto, using(crate::proofs::Firsts::first_cyclic))]
pub fn decide_indexed<W: SessionWork>(
    work: &W,
    alloc: Global,
    index: &LongIndex,
) -> Result<LongDecisions, AllocError>
    requires { W.can_work work.now }
    ensures { IfOk result (AreDecided index.now.history) }
{
    match causal_order(alloc, index)? {
        Some(order) => decide_ordered(work, alloc, index, &order),
        None => Ok(excluded_by(index, Kind::CyclicCO)),
    }
}

/// What is decided of a history whose causal order has no cycle. `order` is an order of all operations that keeps to it.
fn decide_ordered<W: SessionWork>(
    work: &W,
    alloc: Global,
    index: &LongIndex,
    order: &[u32],
) -> Result<LongDecisions, AllocError>
    requires can_work { W.can_work work.now }
    requires order { IsOrderBy index.now.history [] order.now }
    ensures { IfOk result (AreDecided index.now.history) }
{
    if lacks_source(index) {
        return Ok(excluded_by(index, Kind::ThinAirRead));
    }
    let swept = work.sweep(alloc, index, order)?;
    if swept.has_overwritten_start {
        return Ok(excluded_by(index, Kind::WriteCOInitRead));
    }
    if swept.has_overwritten_read {
        return Ok(excluded_by(index, Kind::WriteCORead));
    }
    decide_consistent(work, alloc, index, order, swept.edges)
}

/// What is decided of a history in which no kind against causal consistency is present: it meets causal consistency.
fn decide_consistent<W: SessionWork>(
    work: &W,
    alloc: Global,
    index: &LongIndex,
    order: &[u32],
    edges: Vec<(u32, u32)>,
) -> Result<LongDecisions, AllocError>
    requires can_work { W.can_work work.now }
    requires order { IsOrderBy index.now.history [] order.now }
    requires consistent { IsConsistent index.now.history }
    requires below { AreEdgesOf index.now.history edges.items }
    requires reduced { (t : ℕ) → IsReducedIn index.now.history t (IsListedEdge index.now.history edges.items) }
    ensures { IfOk result (AreDecided index.now.history) }
{
    let ccv = decide_convergence(alloc, index, edges)?;
    let cm = decide_memory(work, alloc, index, order)?;
    Ok(LongDecisions {
        cc: decide_consistency(index),
        cm,
        ccv,
    })
}

/// Such a history meets causal consistency.
#[tactic(auto, using(crate::proofs::Consistent::consistent_meets))]
fn decide_consistency(index: &LongIndex) -> LongDecision
    requires { IsConsistent index.now.history }
    ensures { IsLongDecided index.now.history Cc result }
{
    index.value_is_indexed();
    LongDecision::Meets
}

/// Whether such a history meets causal convergence.
fn decide_convergence(
    alloc: Global,
    index: &LongIndex,
    edges: Vec<(u32, u32)>,
) -> Result<LongDecision, AllocError>
    requires consistent { IsConsistent index.now.history }
    requires below { AreEdgesOf index.now.history edges.items }
    requires reduced { (t : ℕ) → IsReducedIn index.now.history t (IsListedEdge index.now.history edges.items) }
    ensures { IfOk result (IsLongDecided index.now.history Ccv) }
{
    index.value_is_indexed();
    present_kinds_exclude_criteria();
    if is_convergent(alloc, index, edges)? {
        Ok(LongDecision::Meets)
    } else {
        Ok(LongDecision::ExcludedBy(Kind::CyclicCF))
    }
}

/// Whether such a history meets causal memory.
#[tactic(auto, using(crate::proofs::Orders::orders_meet))]
fn decide_memory<W: SessionWork>(
    work: &W,
    alloc: Global,
    index: &LongIndex,
    order: &[u32],
) -> Result<LongDecision, AllocError>
    requires can_work { W.can_work work.now }
    requires order { IsOrderBy index.now.history [] order.now }
    requires consistent { IsConsistent index.now.history }
    ensures { IfOk result (IsLongDecided index.now.history Cm) }
{
    index.value_is_indexed();
    present_kinds_exclude_criteria();
    match work.order_sessions(alloc, index, order)? {
        SessionOrder::Explained => Ok(LongDecision::Meets),
        SessionOrder::StartOverwritten => Ok(LongDecision::ExcludedBy(Kind::WriteHBInitRead)),
        SessionOrder::Cyclic => Ok(LongDecision::ExcludedBy(Kind::CyclicHB)),
    }
}
