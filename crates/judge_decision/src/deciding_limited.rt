//! The decision whether a memory history meets a criterion.

ghost use Rattle.std.specs.Prelude.{◌≢◌, IfOk, None};
ghost use Rattle.pattern_check.specs.Kinds.{IsFreeOf};
ghost use Rattle.cert_check.specs.declared.criterion.Criterion.{Criterion as AnyCriterion};
ghost use Rattle.cert_check.specs.declared.criterion.Criterion.TheVariants.{Cc, Ccv, Cm};
ghost use Rattle.judge_decision.specs.Decisions.{IsDecided, decision_for};
ghost use Rattle.judge_decision.specs.LongDecisions.{AreDecided, IsLongDecided};
ghost use Rattle.order_memory.specs.HappenedBeforePatterns.{HasHBCycle, HasStartOverwrittenInHB};
ghost use Rattle.order_memory.specs.Memory.{IsDifferentiated};
ghost use Rattle.pattern_search.specs.Searches.{AreSearched};

use crate::lengthened::lengthened;
use crate::{LongDecision, LongDecisions, decide_long};
use cert_check::Criterion;
use judge_workers::CallingThread;
use model_history::History;
use model_objects::Memory;
use order_memory::IndexedMemory;
use pattern_check::laws::present_kinds_exclude_criteria;
use pattern_check::{Kind, Pattern};
use pattern_search::{Searched, SearchedKinds, find_in, search_happened_before};
use std::alloc::{AllocError, Global};

/// What is decided of a memory history and a criterion.
#[derive(Debug, Drop)]
pub enum Decision {
    /// The history meets the criterion.
    Meets,
    /// It does not meet the criterion: the pattern shows that. Its kind is the first that is against the criterion and present.
    Excluded(Pattern),
    /// It does not meet the criterion: this kind is the first against it that is present. A derivation that shows the kind might
    /// have more than 100,000 lines. Occurs only where some happened-before relation has more than 19,999 pairs that the causal
    /// order doesn't have.
    ExcludedBy(Kind),
    /// Its values are not distinct, and nothing is decided.
    Open,
}

/// Whether a memory history of distinct values meets a criterion.
///
/// It does exactly where no kind of bad pattern against the criterion is present (Bouajjani, Enea, Guerraoui and Hamza, "On
/// Verifying Causal Consistency", POPL 2017), so the search is for kinds, and no certificate is made. Where it does not, the
/// decision names the first kind that is present, whether a pattern of it is found or not. For causal memory it is decided first whether
/// the history meets the criterion, as for a long history. `Open` exactly where values are not distinct.
///
/// Fails for want of memory alone. O(n k (k + log n)) for n operations of k sessions. Causal memory that is not met costs more: for each
/// session O(n (log n + k^2) + m k log n) for m pairs that the happened-before relation of its last operation has more than the causal
/// order.
pub fn decide(
    alloc: Global,
    memory: &IndexedMemory,
    criterion: Criterion,
) -> Result<Decision, AllocError>
    ensures { IfOk result (IsDecided memory.now criterion) }
{
    if !memory.is_differentiated() {
        return Ok(Decision::Open);
    }
    match criterion {
        Criterion::Cc => decide_by_patterns(alloc, memory, Criterion::Cc),
        Criterion::Cm => {
            let whether = decide_whether(alloc, memory.history())?;
            decide_which(alloc, memory, Criterion::Cm, whether.cm)
        }
        Criterion::Ccv => decide_by_patterns(alloc, memory, Criterion::Ccv),
    }
}

/// What is decided of a memory history, for each criterion.
#[derive(Debug, Drop)]
pub struct Decisions {
    pub cc: Decision,
    pub cm: Decision,
    pub ccv: Decision,
}

/// What `decide` decides for each criterion: whether it is met for all three at once, and then the kind for each that is not.
///
/// Fails for want of memory alone. What [`decide_whether`] costs, and for each criterion that is not met what `decide` costs.
pub fn decide_all(alloc: Global, memory: &IndexedMemory) -> Result<Decisions, AllocError>
    ensures { IfOk result (λ all. (criterion : AnyCriterion) → IsDecided memory.now criterion (decision_for all criterion)) }
{
    let whether = decide_whether(alloc, memory.history())?;
    decide_kinds(alloc, memory, whether)
}

/// Whether a memory history meets each criterion, as [`decide_long`] decides it in the calling thread. `Open` exactly where values are not
/// distinct. The kind that it names for causal memory may be another than the first that is present.
///
/// Fails for want of memory alone. O(n (k + log n)) for n operations of k sessions.
pub fn decide_whether(alloc: Global, h: &History<Memory>) -> Result<LongDecisions, AllocError>
    ensures { IfOk result (AreDecided h.now) }
{
    let long = lengthened(alloc, h)?;
    decide_long(&CallingThread, alloc, &long)
}

/// What `decide` decides for each criterion, where it is known whether the history meets it.
///
/// Fails for want of memory alone. For each criterion that is not met what `decide` costs.
pub fn decide_kinds(
    alloc: Global,
    memory: &IndexedMemory,
    whether: LongDecisions,
) -> Result<Decisions, AllocError>
    requires { AreDecided memory.now whether }
    ensures { IfOk result (λ all. (criterion : AnyCriterion) → IsDecided memory.now criterion (decision_for all criterion)) }
{
    let cc = decide_which(alloc, memory, Criterion::Cc, whether.cc)?;
    match decide_stronger(alloc, memory, whether) {
        Ok((cm, ccv)) => Ok(Decisions { cc, cm, ccv }),
        Err(refused) => {
            drop(cc);
            Err(refused)
        }
    }
}

/// The same for causal memory and for causal convergence.
fn decide_stronger(
    alloc: Global,
    memory: &IndexedMemory,
    whether: LongDecisions,
) -> Result<(Decision, Decision), AllocError>
    requires { AreDecided memory.now whether }
    ensures { IfOk result (λ both. IsDecided memory.now Cm both.0 × IsDecided memory.now Ccv both.1) }
{
    let cm = decide_which(alloc, memory, Criterion::Cm, whether.cm)?;
    match decide_which(alloc, memory, Criterion::Ccv, whether.ccv) {
        Ok(ccv) => Ok((cm, ccv)),
        Err(refused) => {
            drop(cm);
            Err(refused)
        }
    }
}

/// What is decided of a criterion, where it is known whether the history meets it.
fn decide_which(
    alloc: Global,
    memory: &IndexedMemory,
    criterion: Criterion,
    whether: LongDecision,
) -> Result<Decision, AllocError>
    requires { IsLongDecided memory.now criterion whether }
    ensures { IfOk result (IsDecided memory.now criterion) }
{
    match whether {
        LongDecision::Meets => Ok(Decision::Meets),
        LongDecision::ExcludedBy(_) => decide_kind(alloc, memory, criterion),
        LongDecision::Open => Ok(Decision::Open),
    }
}

/// What is decided of a criterion by the kinds of a memory history of distinct values.
fn decide_kind(
    alloc: Global,
    memory: &IndexedMemory,
    criterion: Criterion,
) -> Result<Decision, AllocError>
    requires { IsDifferentiated memory.now }
    ensures { IfOk result (IsDecided memory.now criterion) }
{
    match criterion {
        Criterion::Cc => decide_by_patterns(alloc, memory, Criterion::Cc),
        Criterion::Cm => decide_causal_memory(alloc, memory),
        Criterion::Ccv => decide_by_patterns(alloc, memory, Criterion::Ccv),
    }
}

/// Whether a memory history of distinct values meets a criterion against which the search for patterns misses none.
fn decide_by_patterns(
    alloc: Global,
    memory: &IndexedMemory,
    criterion: Criterion,
) -> Result<Decision, AllocError>
    requires distinct { IsDifferentiated memory.now }
    requires apart { criterion ≢ Cm }
    ensures { IfOk result (IsDecided memory.now criterion) }
{
    memory.history().value_is_history();
    match find_in(alloc, memory, criterion)? {
        Some(pattern) => Ok(Decision::Excluded(pattern)),
        None => Ok(Decision::Meets),
    }
}

/// Whether a memory history of distinct values meets causal memory: the kinds against causal consistency are looked for first.
fn decide_causal_memory(alloc: Global, memory: &IndexedMemory) -> Result<Decision, AllocError>
    requires distinct { IsDifferentiated memory.now }
    ensures { IfOk result (IsDecided memory.now Cm) }
{
    if let Some(pattern) = find_in(alloc, memory, Criterion::Cc)? {
        return Ok(Decision::Excluded(pattern));
    }
    decide_consistent(alloc, memory)
}

/// Whether a memory history without a pattern against causal consistency meets causal memory.
fn decide_consistent(alloc: Global, memory: &IndexedMemory) -> Result<Decision, AllocError>
    requires distinct { IsDifferentiated memory.now }
    requires free { IsFreeOf memory.now Cc }
    ensures { IfOk result (IsDecided memory.now Cm) }
{
    let Some(order) = memory.order() else {
        unreachable!();
    };
    let searched = search_happened_before(alloc, &order, None)?;
    Ok(decision_of(memory, searched))
}

/// What a search of all happened-before relations decides of causal memory, where no kind against causal consistency is present.
fn decision_of(memory: &IndexedMemory, searched: SearchedKinds) -> Decision
    requires distinct { IsDifferentiated memory.now }
    requires free { IsFreeOf memory.now Cc }
    requires searched { AreSearched memory.now None (¬ HasStartOverwrittenInHB memory.now) (¬ HasHBCycle memory.now) searched }
    ensures { IsDecided memory.now Cm result }
{
    memory.history().value_is_history();
    present_kinds_exclude_criteria();
    let SearchedKinds { starts, cycles } = searched;
    match starts {
        Searched::Pattern(start) => Decision::Excluded(start),
        Searched::Present => Decision::ExcludedBy(Kind::WriteHBInitRead),
        Searched::Open => unreachable!(),
        Searched::Nothing => match cycles {
            Searched::Pattern(cycle) => Decision::Excluded(cycle),
            Searched::Present => Decision::ExcludedBy(Kind::CyclicHB),
            Searched::Open => unreachable!(),
            Searched::Nothing => Decision::Meets,
        },
    }
}
