//! What an explanation says of a finding beside what shows it.

ghost use Rattle.std.specs.Prelude.{IfOk, IfSome};
ghost use Rattle.json_histories.specs.declared.any_history.AnyHistory.{AnyHistory as Whole};
ghost use Rattle.cert_check.specs.declared.criterion.Criterion.{Criterion as ACriterion};
ghost use Rattle.pattern_check.specs.Kinds.{IsTrueNo};
ghost use Rattle.judge_subhistories.specs.WithoutVariables.{IsExclusion, without_variables};
ghost use Rattle.app_explanations.specs.Remarks.{EachIsRemark, IsRemark, IsRemarkOnPart, IsRemarkOnPattern};

use crate::broken::broken_by;
use crate::clients::Clients;
use app_findings::{Finding, Findings};
use cert_check::Criterion;
use json_histories::AnyHistory;
use judge_decision::Decision;
use judge_subhistories::{Excluded, excluded_without};
use model_history::History;
use model_objects::Memory;
use order_memory::IndexedMemory;
use pattern_check::laws::bad_patterns_exclude_criteria;
use pattern_check::{Kind, Pattern};
use show_words::{Guarantee, Names, repeated_variables};
use std::alloc::{AllocError, Global};

/// What an explanation says of a finding beside what shows it.
#[derive(Debug, Drop)]
pub enum Remark {
    /// The stale read of the pattern breaks this guarantee.
    Breaks(Guarantee),
    /// The history without these variables does not meet the criterion, by a pattern of this kind.
    Without(Vec<u32>, Kind),
}

/// The remarks on what is found of a history, for each criterion.
#[derive(Debug, Drop)]
pub struct Remarks {
    /// For causal consistency.
    pub cc: Option<Remark>,
    /// For causal memory.
    pub cm: Option<Remark>,
    /// For causal convergence.
    pub ccv: Option<Remark>,
}

/// The remarks on what is found of a history within the limits.
///
/// Fails for want of memory alone. It costs O(n) for n operations of a pattern and, where a finding of a memory is unknown, what
/// [`excluded_without`] takes.
#[tactic(auto, using(crate::proofs::EachRemark::each_remark))]
pub(crate) fn remarks_on<N: Names>(
    alloc: Global,
    history: &AnyHistory,
    names: &N,
    clients: Clients,
    findings: &Findings,
) -> Result<Remarks, AllocError>
    ensures { IfOk result (EachIsRemark clients history.now findings.now) }
{
    let cc = remark_on(alloc, history, names, clients, Criterion::Cc, &findings.cc)?;
    let cm = remark_on(alloc, history, names, clients, Criterion::Cm, &findings.cm)?;
    let ccv = remark_on(
        alloc,
        history,
        names,
        clients,
        Criterion::Ccv,
        &findings.ccv,
    )?;
    Ok(Remarks { cc, cm, ccv })
}

/// The remarks on what is found of a history of any length: those on patterns.
///
/// Fails for want of memory alone. O(n) for n operations of a pattern.
#[tactic(auto, using(crate::proofs::EachRemark::each_remark))]
pub(crate) fn remarks_on_patterns<N: Names>(
    alloc: Global,
    names: &N,
    clients: Clients,
    findings: &Findings,
) -> Result<Remarks, AllocError>
    ensures { (history : Whole) → IfOk result (EachIsRemark clients history findings.now) }
{
    let cc = remark_on_pattern_in(alloc, names, clients, &findings.cc)?;
    let cm = remark_on_pattern_in(alloc, names, clients, &findings.cm)?;
    let ccv = remark_on_pattern_in(alloc, names, clients, &findings.ccv)?;
    Ok(Remarks { cc, cm, ccv })
}

// The remark on a finding of a history within the limits.
fn remark_on<N: Names>(
    alloc: Global,
    history: &AnyHistory,
    names: &N,
    clients: Clients,
    criterion: Criterion,
    finding: &Finding,
) -> Result<Option<Remark>, AllocError>
    ensures { IfOk result (IsRemark clients history.now criterion finding.now) }
{
    match finding {
        Finding::Unexplained(_, _) => remark_on_part(alloc, history, criterion),
        Finding::Met(_) | Finding::Shown(_) | Finding::Present(_) => {
            remark_on_pattern_in(alloc, names, clients, finding)
        }
    }
}

// The remark on the pattern of a finding, if it has one.
fn remark_on_pattern_in<N: Names>(
    alloc: Global,
    names: &N,
    clients: Clients,
    finding: &Finding,
) -> Result<Option<Remark>, AllocError>
    ensures { (history : Whole) → (criterion : ACriterion) → IfOk result (IsRemark clients history criterion finding.now) }
{
    match finding {
        Finding::Shown(pattern) => remark_on_pattern(alloc, names, clients, pattern),
        Finding::Met(_) | Finding::Present(_) | Finding::Unexplained(_, _) => Ok(None),
    }
}

// The remark on a pattern, if it shows a stale read.
fn remark_on_pattern<N: Names>(
    alloc: Global,
    names: &N,
    clients: Clients,
    pattern: &Pattern,
) -> Result<Option<Remark>, AllocError>
    ensures { IfOk result (IsRemarkOnPattern clients pattern.now) }
{
    match broken_by(alloc, names, clients, pattern)? {
        Some(guarantee) => Ok(Some(Remark::Breaks(guarantee))),
        None => Ok(None),
    }
}

// The remark on a history that a criterion is not known of: only memories have variables.
fn remark_on_part(
    alloc: Global,
    history: &AnyHistory,
    criterion: Criterion,
) -> Result<Option<Remark>, AllocError>
    ensures { IfOk result (IsRemarkOnPart history.now criterion) }
{
    match history.as_memory() {
        Some(memory) => remark_on_part_of_memory(alloc, memory, criterion),
        None => Ok(None),
    }
}

// The remark on a memory without the variables whose values are not distinct, if that part shows that it does not meet the criterion.
fn remark_on_part_of_memory(
    alloc: Global,
    history: &History<Memory>,
    criterion: Criterion,
) -> Result<Option<Remark>, AllocError>
    ensures { IfOk result (IsRemarkOnPart (AnyHistory.Memory history.now) criterion) }
{
    let variables = repeated_in(alloc, history)?;
    match kind_without(alloc, history, &variables, criterion)? {
        Some(kind) => Ok(Some(Remark::Without(variables, kind))),
        None => Ok(None),
    }
}

// The kind by which a history without these variables does not meet a criterion, if that part shows it.
fn kind_without(
    alloc: Global,
    history: &History<Memory>,
    variables: &[u32],
    criterion: Criterion,
) -> Result<Option<Kind>, AllocError>
    ensures { IfOk result (λ found. IfSome found (IsTrueNo (without_variables variables.now history.now) criterion)) }
{
    match excluded_without(alloc, history, variables, criterion)? {
        Some(excluded) => {
            let kind = kind_of_excluded(&excluded, criterion);
            drop(excluded);
            Ok(kind)
        }
        None => Ok(None),
    }
}

// The variables of a history whose values are not distinct.
fn repeated_in(alloc: Global, history: &History<Memory>) -> Result<Vec<u32>, AllocError> {
    let memory = IndexedMemory::of(alloc, history)?;
    let variables = repeated_variables(alloc, &memory);
    drop(memory);
    variables
}

// The kind by which a part does not meet a criterion.
fn kind_of_excluded(excluded: &Excluded, _criterion: Criterion) -> Option<Kind>
    requires { IsExclusion excluded.now.part _criterion excluded.now.decision }
    ensures { IfSome result (IsTrueNo excluded.now.part _criterion) }
{
    bad_patterns_exclude_criteria();
    match &excluded.decision {
        Decision::Excluded(pattern) => Some(pattern.kind()),
        Decision::ExcludedBy(kind) => Some(*kind),
        Decision::Meets | Decision::Open => None,
    }
}
