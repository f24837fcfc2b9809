//! What is known of a history of a memory, for each criterion.

ghost use Rattle.std.specs.Prelude.{◌≡◌, IfOk, IfSome, Some};
ghost use Rattle.order_memory.specs.Memory.{IsDifferentiated, MemoryHistory, memory_answer};
ghost use Rattle.pattern_check.specs.Patterns.{IsBadPattern, kind_of};
ghost use Rattle.cert_check.specs.Criteria.{Meets};
ghost use Rattle.judge_decision.specs.Decisions.{IsDecided, decision_for};
ghost use Rattle.pattern_search.specs.FirstKinds.{ComesFirst};
ghost use Rattle.judge_decision.specs.LongDecisions.{AreDecided, IsLongDecided};
ghost use Rattle.app_findings.specs.declared.kept.Kept.TheVariants.{Answers};
ghost use Rattle.app_findings.specs.Findings.{EachIsFound, IsFound};

use crate::by_certificate::finding_by_certificate;
use crate::finding::{Finding, Findings};
use crate::kept::Kept;
use crate::made_certificates::{certificate_of, certificate_of_met};
use crate::piece_work::PieceWork;
use cert_check::Criterion;
use json_histories::AnyHistory;
use judge_decision::{
    Decision, Decisions, LongDecision, LongDecisions, decide_all, decide_kinds, decide_long,
    decide_whether,
};
use judge_memory::LongHistory;
use judge_subhistories::with_fewest_operations;
use judge_workers::CallingThread;
use model_history::{Advice, History};
use model_objects::Memory;
use order_memory::IndexedMemory;
use pattern_check::laws::bad_patterns_exclude_criteria;
use pattern_check::{Kind, Pattern};
use std::alloc::{AllocError, Global};

/// A type of histories of a memory.
trait OfMemory {
    // The history that a value is.
    ghost history: { Self → MemoryHistory };
}

impl OfMemory for History<Memory> {
    ghost history = { λ h. h };
}

impl OfMemory for LongHistory {
    ghost history = { λ h. h };
}

/// The answers on a history of a memory. Its index is made only where the decision of all lengths leaves an answer open: where values are
/// not distinct, or a cycle of happened-before is named.
///
/// Fails for want of memory alone.
pub(crate) fn report_on_memory<W: PieceWork>(
    work: &W,
    alloc: Global,
    history: &History<Memory>,
    advice: &[Option<Advice>],
) -> Result<Findings, AllocError>
    requires { W.can_check work.now }
    ensures { IfOk result (EachIsFound Answers (AnyHistory.Memory history.now)) }
{
    let whether = decide_whether(alloc, history)?;
    if let Some(findings) = findings_decided(history, whether) {
        return Ok(findings);
    }
    let memory = IndexedMemory::of(alloc, history)?;
    let decisions = decide_kinds(alloc, &memory, whether)?;
    findings_of_decisions(work, alloc, &memory, advice, decisions, Kept::Answers)
}

/// The answers on a history of a memory within the limits, if what is decided gives each of them, and else none.
///
/// Fails for want of memory alone. O(n (k + log n)) for n operations of k sessions.
pub fn report_decided(alloc: Global, history: &LongHistory) -> Result<Option<Findings>, AllocError>
    ensures { IfOk result (λ known. IfSome known (EachIsFound Answers (AnyHistory.Memory history.now))) }
{
    let whether = decide_long(&CallingThread, alloc, history)?;
    Ok(findings_decided(history, whether))
}

// The answers on a history of a memory, if what is decided gives each of them.
#[tactic(auto, using(crate::proofs::Each::each_found))]
fn findings_decided<H: OfMemory>(history: &H, whether: LongDecisions) -> Option<Findings>
    requires { AreDecided (H.history history.now) whether }
    ensures { IfSome result (EachIsFound Answers (AnyHistory.Memory (H.history history.now))) }
{
    let cc = finding_decided(history, Criterion::Cc, whether.cc);
    let cm = finding_decided(history, Criterion::Cm, whether.cm);
    let ccv = finding_decided(history, Criterion::Ccv, whether.ccv);
    match both(both(cc, cm), ccv) {
        Some(three) => {
            let ((cc, cm), ccv) = three;
            Some(Findings { cc, cm, ccv })
        }
        None => None,
    }
}

// Both values, where none of them lacks.
fn both<A: Drop, B: Drop>(first: Option<A>, second: Option<B>) -> Option<(A, B)>
    ensures first { IfSome result (λ values. first ≡ Some values.0) }
    ensures second { IfSome result (λ values. second ≡ Some values.1) }
{
    match first {
        Some(first) => match second {
            Some(second) => Some((first, second)),
            None => {
                drop(first);
                None
            }
        },
        None => {
            drop(second);
            None
        }
    }
}

// What a decision says of a history of a memory and a criterion, if it says it for certain. Where it names CyclicHB, WriteHBInitRead may be
// present too, and comes first.
#[tactic(auto, using(crate::proofs::OfMemory::found_met, crate::proofs::OfMemory::found_long_no))]
fn finding_decided<H: OfMemory>(
    _history: &H,
    _criterion: Criterion,
    decision: LongDecision,
) -> Option<Finding>
    requires { IsLongDecided (H.history _history.now) _criterion decision }
    ensures { IfSome result (IsFound Answers (AnyHistory.Memory (H.history _history.now)) _criterion) }
{
    match decision {
        LongDecision::Meets => Some(Finding::Met(None)),
        LongDecision::ExcludedBy(kind) => {
            if kind == Kind::CyclicHB {
                None
            } else {
                Some(Finding::Present(kind))
            }
        }
        LongDecision::Open => None,
    }
}

/// What is known of a history of a memory, for each criterion, as [`findings_of`](crate::findings_of) finds it.
///
/// Fails for want of memory alone. It costs what that takes but for the index.
pub fn findings_of_memory<W: PieceWork>(
    work: &W,
    alloc: Global,
    memory: &IndexedMemory,
    kept: Kept,
) -> Result<Findings, AllocError>
    requires { W.can_check work.now }
    ensures { IfOk result (EachIsFound kept (AnyHistory.Memory memory.now)) }
{
    let decisions = decide_all(alloc, memory)?;
    findings_of_decisions(work, alloc, memory, &[], decisions, kept)
}

// What is found from these decisions.
#[tactic(auto, using(crate::proofs::Each::each_found))]
fn findings_of_decisions<W: PieceWork>(
    work: &W,
    alloc: Global,
    memory: &IndexedMemory,
    advice: &[Option<Advice>],
    decisions: Decisions,
    kept: Kept,
) -> Result<Findings, AllocError>
    requires can_check { W.can_check work.now }
    requires decided { (criterion : Criterion) → IsDecided memory.now criterion (decision_for decisions criterion) }
    ensures { IfOk result (EachIsFound kept (AnyHistory.Memory memory.now)) }
{
    let Decisions { cc, cm, ccv } = decisions;
    let cc = finding_of_decision(work, alloc, memory, advice, Criterion::Cc, cc, kept);
    let cm = finding_of_decision(work, alloc, memory, advice, Criterion::Cm, cm, kept);
    let ccv = finding_of_decision(work, alloc, memory, advice, Criterion::Ccv, ccv, kept);
    Findings::together(cc, cm, ccv)
}

// What is found of a criterion: what its decision says if values are distinct, and else what the pieces of a certificate show.
fn finding_of_decision<W: PieceWork>(
    work: &W,
    alloc: Global,
    memory: &IndexedMemory,
    advice: &[Option<Advice>],
    criterion: Criterion,
    decision: Decision,
    kept: Kept,
) -> Result<Finding, AllocError>
    requires can_check { W.can_check work.now }
    requires decided { IsDecided memory.now criterion decision }
    ensures { IfOk result (IsFound kept (AnyHistory.Memory memory.now) criterion) }
{
    if memory.is_differentiated() {
        finding_on_distinct_values(alloc, memory, criterion, decision, kept)
    } else {
        finding_on_repeated_values(work, alloc, memory, advice, criterion, kept)
    }
}

// What a decision shows, with the certificate of what is met where it is wanted.
#[tactic(auto, using(crate::proofs::OfMemory::found_present))]
fn finding_on_distinct_values(
    alloc: Global,
    memory: &IndexedMemory,
    criterion: Criterion,
    decision: Decision,
    kept: Kept,
) -> Result<Finding, AllocError>
    requires distinct { IsDifferentiated memory.now }
    requires decided { IsDecided memory.now criterion decision }
    ensures { IfOk result (IsFound kept (AnyHistory.Memory memory.now) criterion) }
{
    match decision {
        Decision::Meets => finding_of_met(alloc, memory, criterion, kept),
        Decision::Excluded(pattern) => finding_of_pattern(alloc, memory, criterion, pattern, kept),
        Decision::ExcludedBy(kind) => Ok(Finding::Present(kind)),
        Decision::Open => unreachable!(),
    }
}

// What is found of a criterion that is met: a certificate where it is wanted, except that causal memory may have none.
fn finding_of_met(
    alloc: Global,
    memory: &IndexedMemory,
    criterion: Criterion,
    kept: Kept,
) -> Result<Finding, AllocError>
    requires distinct { IsDifferentiated memory.now }
    requires met { Meets memory_answer memory.now criterion }
    ensures { IfOk result (IsFound kept (AnyHistory.Memory memory.now) criterion) }
{
    memory.history().value_is_history();
    match kept {
        Kept::Answers | Kept::Patterns | Kept::Reasons => Ok(Finding::Met(None)),
        Kept::Certificates => {
            let certificate = certificate_of_met(alloc, memory, criterion)?;
            Ok(Finding::Met(certificate))
        }
    }
}

// What is found by a pattern: where patterns are wanted, one with the fewest operations that its kind takes.
fn finding_of_pattern(
    alloc: Global,
    memory: &IndexedMemory,
    criterion: Criterion,
    pattern: Pattern,
    kept: Kept,
) -> Result<Finding, AllocError>
    requires shown { IsBadPattern memory.now criterion pattern }
    requires first { ComesFirst memory.now criterion (kind_of pattern) }
    ensures { IfOk result (IsFound kept (AnyHistory.Memory memory.now) criterion) }
{
    bad_patterns_exclude_criteria();
    match kept {
        Kept::Answers => {
            let kind = pattern.kind();
            drop(pattern);
            Ok(Finding::Present(kind))
        }
        Kept::Patterns | Kept::Reasons | Kept::Certificates => {
            let history = memory.history();
            let fewest = with_fewest_operations(alloc, history, criterion, pattern)?;
            Ok(Finding::Shown(fewest))
        }
    }
}

// What the pieces of a certificate of a history show whose values are not distinct.
fn finding_on_repeated_values<W: PieceWork>(
    work: &W,
    alloc: Global,
    memory: &IndexedMemory,
    advice: &[Option<Advice>],
    criterion: Criterion,
    kept: Kept,
) -> Result<Finding, AllocError>
    requires can_check { W.can_check work.now }
    requires repeated { ¬ IsDifferentiated memory.now }
    ensures { IfOk result (IsFound kept (AnyHistory.Memory memory.now) criterion) }
{
    let made = certificate_of(alloc, memory, advice, criterion)?;
    match memory.history().copy(alloc) {
        Ok(copy) => {
            let history = AnyHistory::Memory(copy);
            finding_by_certificate(work, alloc, history, criterion, made, kept)
        }
        Err(no_memory) => {
            drop(made);
            Err(no_memory)
        }
    }
}
