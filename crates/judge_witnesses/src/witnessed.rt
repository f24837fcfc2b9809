//! Whether histories of distinct values show that a history whose values repeat meets the criteria.

ghost use Rattle.std.specs.Prelude.{IfOk, IfSome, IsTrue};
ghost use Rattle.order_memory.specs.Memory.{MemoryHistory, memory_answer};
ghost use Rattle.cert_check.specs.Criteria.{Meets};
ghost use Rattle.judge_decision.specs.LongDecisions.{AreDecided, IsLongDecided};
ghost use Rattle.judge_witnesses.specs.Relabelled.{back};
ghost use Rattle.judge_witnesses.specs.Renamed.{IsRenamed};
ghost use Rattle.judge_witnesses.specs.Witnesses.{AreWitnessed};

use crate::laws::renamed_histories_meet_what_they_were_renamed_from;
use crate::places::Places;
use crate::plan::{PLANS, Plan};
use crate::relabelled::relabelled;
use crate::rounds::picks;
use cert_check::Criterion;
use judge_decision::{LongDecision, SessionWork, decide_long};
use judge_memory::LongHistory;
use std::alloc::{AllocError, Global};

/// The most operations of a history for which each plan is tried.
const MAX_TRIED: usize = 20_000;

/// How many plans are tried for a longer history.
const FEW_PLANS: usize = 2;

/// For each criterion, whether a witness was found: an order that explains each known return.
#[derive(Clone, Copy, Debug, PartialEq, Eq)]
pub struct Witnessed {
    pub cc: bool,
    pub cm: bool,
    pub ccv: bool,
}

impl Witnessed {
    /// No witness.
    fn none() -> Witnessed
        ensures { (h : MemoryHistory) → AreWitnessed h result }
    {
        Witnessed {
            cc: false,
            cm: false,
            ccv: false,
        }
    }

    /// Whether there is one for each criterion.
    fn is_full(&self) -> bool {
        self.cc && self.cm && self.ccv
    }
}

/// For each criterion, whether a witness was found for a history, whose values may repeat. With one, the history meets the criterion; that
/// none was found says nothing.
///
/// A walk over the history picks a write for each known read that may have seen several, and the history in which each write has a value of
/// its own is decided. `moments` says when each operation was, by its number, if that is known: nothing rests on what it says.
/// Fails for want of memory alone. It takes a few walks of O(n (k + log n)) for n operations of k sessions, and as many decisions.
pub fn witnessed_by<W: SessionWork>(
    work: &W,
    alloc: Global,
    history: &LongHistory,
    moments: Option<&[u64]>,
) -> Result<Witnessed, AllocError>
    requires { W.can_work work.now }
    ensures { IfOk result (AreWitnessed history.now) }
{
    let places = Places::of(alloc, history)?;
    let written = places.values(alloc)?;
    let few = if history.operations() > MAX_TRIED {
        FEW_PLANS
    } else {
        PLANS.len()
    };
    let mut found = Witnessed::none();
    for plan in 0..few {
        if !found.is_full()
            && let Some(plan) = PLANS.get(plan)
            && let Some(seen) = picks(alloc, history, &places, *plan, moments)?
        {
            found = with(
                found,
                shown_by(work, alloc, history, &written, &seen)?,
                history,
            );
        }
    }
    Ok(found)
}

/// The criteria for which one or the other has a witness.
fn with(found: Witnessed, more: Witnessed, _history: &LongHistory) -> Witnessed
    requires found { AreWitnessed _history.now found }
    requires more { AreWitnessed _history.now more }
    ensures { AreWitnessed _history.now result }
{
    Witnessed {
        cc: found.cc || more.cc,
        cm: found.cm || more.cm,
        ccv: found.ccv || more.ccv,
    }
}

/// The criteria that the history meets in which each read saw what it is said to have seen.
fn shown_by<W: SessionWork>(
    work: &W,
    alloc: Global,
    history: &LongHistory,
    written: &[u64],
    seen: &[u32],
) -> Result<Witnessed, AllocError>
    requires { W.can_work work.now }
    ensures { IfOk result (AreWitnessed history.now) }
{
    match relabelled(alloc, history, written, seen)? {
        Some(other) => decided_of(work, alloc, history, written, &other),
        None => Ok(Witnessed::none()),
    }
}

/// The criteria that a relabelled history meets.
fn decided_of<W: SessionWork>(
    work: &W,
    alloc: Global,
    history: &LongHistory,
    written: &[u64],
    other: &LongHistory,
) -> Result<Witnessed, AllocError>
    requires can_work { W.can_work work.now }
    requires renamed { IsRenamed (back history.now written.now) other.now history.now }
    ensures { IfOk result (AreWitnessed history.now) }
{
    let decisions = decide_long(work, alloc, other)?;
    Ok(Witnessed {
        cc: is_met(history, written, other, Criterion::Cc, decisions.cc),
        cm: is_met(history, written, other, Criterion::Cm, decisions.cm),
        ccv: is_met(history, written, other, Criterion::Ccv, decisions.ccv),
    })
}

/// Whether a relabelled history is decided to meet a criterion: then the history meets it.
fn is_met(
    _history: &LongHistory,
    _written: &[u64],
    _other: &LongHistory,
    _criterion: Criterion,
    decision: LongDecision,
) -> bool
    requires renamed { IsRenamed (back _history.now _written.now) _other.now _history.now }
    requires decided { IsLongDecided _other.now _criterion decision }
    ensures { IsTrue result → Meets memory_answer _history.now _criterion }
{
    renamed_histories_meet_what_they_were_renamed_from();
    match decision {
        LongDecision::Meets => true,
        LongDecision::ExcludedBy(_) | LongDecision::Open => false,
    }
}
