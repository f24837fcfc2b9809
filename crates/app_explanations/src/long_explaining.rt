//! Why a memory history of any length meets each criterion, or does not.

ghost use Rattle.std.specs.Prelude.{◌≡◌, IfOk, IfSome, IsTrue};
ghost use Rattle.json_histories.specs.AnyForm.{IsAnyHistory};
ghost use Rattle.order_memory.specs.Memory.{IsDifferentiated, MemoryHistory};
ghost use Rattle.pattern_check.specs.Patterns.{IsShownBy, kind_of};
ghost use Rattle.judge_decision.specs.LongDecisions.{AreDecided, IsLongDecided};
ghost use Rattle.app_orders.specs.declared.length.Length.TheVariants.{Any};
ghost use Rattle.app_explanations.specs.Report.{AreFindingsOf};
ghost use Rattle.app_explanations.specs.Steps.Gathering.{ExcludesCriteria};
ghost use Rattle.app_explanations.specs.Steps.LongFound.{IsLongFound};

use crate::found::Found;
use app_findings::{Finding, Findings};
use cert_check::Criterion;
use json_histories::AnyHistory;
use judge_cores::{Gathered, core_of_kind};
use judge_decision::{LongDecision, LongDecisions, SessionWork, decide_indexed};
use judge_memory::{LongHistory, LongIndex};
use judge_patterns::is_shown_in_long;
use pattern_check::laws::bad_patterns_exclude_criteria;
use pattern_check::{Kind, Pattern};
use std::alloc::{AllocError, Global};

/// Why a long history meets each criterion or does not, with what was gathered of each kind that it shows.
#[derive(Drop)]
pub(crate) struct LongFindings {
    pub findings: Findings,
    pub found: Vec<Found>,
}

impl LongFindings {
    /// What was gathered of a kind.
    pub(crate) fn gathered(&self, kind: Kind) -> Option<&Gathered>
        ensures { IfSome result (λ gathered. ExcludesCriteria kind gathered.now) }
    {
        gathered_of(&self.found, kind)
    }
}

/// Why a memory history over the limits meets each criterion or does not, or why that is unknown.
///
/// A `no` has a pattern if few operations show it by themselves: these are judged as a history of their own, and the pattern that is
/// found there is tested in the whole. Else the `no` has its kind. Unknown, with no operation, exactly where values are not distinct.
///
/// Fails for want of memory alone. O(n (k + log n)) for n operations of k sessions.
pub(crate) fn findings_of_long<W: SessionWork>(
    work: &W,
    alloc: Global,
    history: &LongHistory,
) -> Result<LongFindings, AllocError>
    requires can_work { W.can_work work.now }
    requires over { ¬ IsAnyHistory (AnyHistory.Memory history.now) }
    ensures { IfOk result (λ said. AreFindingsOf Any (AnyHistory.Memory history.now) said.findings) }
{
    match LongIndex::of(alloc, history)? {
        Some(index) => findings_of_indexed(work, alloc, &index),
        None => Ok(LongFindings {
            findings: nothing_known(),
            found: Vec::new(alloc),
        }),
    }
}

// The findings where values are not distinct.
fn nothing_known() -> Findings
    ensures { (h : MemoryHistory) → ¬ IsDifferentiated h → ¬ IsAnyHistory (AnyHistory.Memory h)
        → AreFindingsOf Any (AnyHistory.Memory h) result }
{
    Findings {
        cc: Finding::Unexplained(None, None),
        cm: Finding::Unexplained(None, None),
        ccv: Finding::Unexplained(None, None),
    }
}

// The same of a history of distinct values.
#[tactic(auto, using(crate::proofs::Reports::long_findings))]
fn findings_of_indexed<W: SessionWork>(
    work: &W,
    alloc: Global,
    index: &LongIndex,
) -> Result<LongFindings, AllocError>
    requires can_work { W.can_work work.now }
    requires over { ¬ IsAnyHistory (AnyHistory.Memory index.now.history) }
    ensures { IfOk result (λ said. AreFindingsOf Any (AnyHistory.Memory index.now.history) said.findings) }
{
    let decisions = decide_indexed(work, alloc, index)?;
    let found = found_of(alloc, index, &decisions)?;
    let cc = finding_of(alloc, index, Criterion::Cc, decisions.cc, &found);
    let cm = finding_of(alloc, index, Criterion::Cm, decisions.cm, &found);
    let ccv = finding_of(alloc, index, Criterion::Ccv, decisions.ccv, &found);
    match Findings::together(cc, cm, ccv) {
        Ok(findings) => Ok(LongFindings { findings, found }),
        Err(no_memory) => {
            drop(found);
            Err(no_memory)
        }
    }
}

// What is gathered of the kinds that the decisions name, each once.
fn found_of(
    alloc: Global,
    index: &LongIndex,
    decisions: &LongDecisions,
) -> Result<Vec<Found>, AllocError> {
    let mut found = Vec::new(alloc);
    push_found(alloc, index, Criterion::Cc, decisions.cc, &mut found)?;
    push_found(alloc, index, Criterion::Cm, decisions.cm, &mut found)?;
    push_found(alloc, index, Criterion::Ccv, decisions.ccv, &mut found)?;
    Ok(found)
}

// Gathers the kind that a decision names, unless it was gathered before.
#[tactic(auto, using(crate::proofs::CoreLines::core_excludes))]
fn push_found(
    alloc: Global,
    index: &LongIndex,
    criterion: Criterion,
    decision: LongDecision,
    found: &mut Vec<Found>,
) -> Result<(), AllocError> {
    bad_patterns_exclude_criteria();
    if let LongDecision::ExcludedBy(kind) = decision
        && gathered_of(found, kind).is_none()
    {
        let gathered = core_of_kind(alloc, index, criterion, kind)?;
        found.push(Found { kind, gathered })?;
    }
    Ok(())
}

// What was gathered of a kind.
fn gathered_of(found: &[Found], kind: Kind) -> Option<&Gathered>
    ensures { IfSome result (λ gathered. ExcludesCriteria kind gathered.now) }
{
    for one in found {
        if one.kind == kind {
            return Some(&one.gathered);
        }
    }
    None
}

// The finding of a decision.
#[tactic(auto, using(crate::proofs::Reports::long_met, crate::proofs::Reports::long_shown, crate::proofs::Reports::long_present, crate::proofs::Reports::long_open))]
fn finding_of(
    alloc: Global,
    index: &LongIndex,
    criterion: Criterion,
    decision: LongDecision,
    found: &[Found],
) -> Result<Finding, AllocError>
    requires { IsLongDecided index.now.history criterion decision }
    ensures { IfOk result (IsLongFound index.now.history criterion) }
{
    index.value_is_indexed();
    match decision {
        LongDecision::Meets => Ok(Finding::Met(None)),
        LongDecision::ExcludedBy(kind) => match pattern_of(alloc, index, kind, found)? {
            Some(pattern) => Ok(Finding::Shown(pattern)),
            None => Ok(Finding::Present(kind)),
        },
        LongDecision::Open => Ok(Finding::Unexplained(None, None)),
    }
}

// The pattern of a kind in the whole history, if one was found. It is tested there.
fn pattern_of(
    alloc: Global,
    index: &LongIndex,
    kind: Kind,
    found: &[Found],
) -> Result<Option<Pattern>, AllocError>
    ensures shown { IfOk result (λ made. IfSome made (λ pattern. IsShownBy index.now.history pattern)) }
    ensures kind { IfOk result (λ made. IfSome made (λ pattern. kind_of pattern ≡ kind)) }
{
    let Some(Gathered::Core(core)) = gathered_of(found, kind) else {
        return Ok(None);
    };
    let pattern = core.pattern_in_whole(alloc)?;
    match shows_kind(alloc, index, kind, &pattern) {
        Ok(true) => Ok(Some(pattern)),
        Ok(false) => {
            drop(pattern);
            Ok(None)
        }
        Err(no_memory) => {
            drop(pattern);
            Err(no_memory)
        }
    }
}

// Whether a pattern is one of this kind that shows it in a history.
fn shows_kind(
    alloc: Global,
    index: &LongIndex,
    kind: Kind,
    pattern: &Pattern,
) -> Result<bool, AllocError>
    ensures shown { IfOk result (λ yes. IsTrue yes → IsShownBy index.now.history pattern.now) }
    ensures kind { IfOk result (λ yes. IsTrue yes → kind_of pattern.now ≡ kind) }
{
    if pattern.kind() == kind {
        is_shown_in_long(alloc, index, pattern)
    } else {
        Ok(false)
    }
}
