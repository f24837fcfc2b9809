//! What is known of a memory history of any length, for each criterion.

ghost use Rattle.std.specs.Prelude.{◌≡◌, IfOk};
ghost use Rattle.json_histories.specs.AnyForm.{IsAnyHistory};
ghost use Rattle.judge_decision.specs.LongDecisions.{IsLongDecided};
ghost use Rattle.app_findings.specs.Answers.{IsKnownOnDistinctValues, IsLongTrueOf, NamesUnexplained};
ghost use Rattle.app_findings.specs.Findings.{EachIsFinding, EachIsKnownOnDistinctValues, EachIsLongTrueOf, EachNamesUnexplained};
ghost use Rattle.app_findings.specs.Findings.{IsFinding, answer_of};

use crate::finding::{Finding, Findings};
use crate::of_any::report_on;
use cert_check::Criterion;
use json_histories::AnyHistory;
use judge_decision::{LongDecision, SessionWork, decide_long};
use judge_memory::LongHistory;
use judge_reader::small;
use judge_workers::CallingThread;
use std::alloc::{AllocError, Global};

/// The answers on a memory history of any length, with nothing that shows them. `work` goes over the sessions, and starts threads or none.
///
/// For a history within the limits of [`History`](operations::History) they are those of [`report_on`]. Else it
/// is decided: `Met` exactly where the history meets the criterion, and `Present` with the kind of a bad pattern that is present exactly
/// where it does not; `Unexplained` with no operation for all three criteria where values are not distinct.
///
/// Fails for want of memory alone. O(n (k + log n)) for n operations of k sessions.
pub fn report_on_long<W: SessionWork>(
    work: &W,
    alloc: Global,
    history: &LongHistory,
) -> Result<Findings, AllocError>
    requires { W.can_work work.now }
    ensures found { IfOk result (EachIsFinding (AnyHistory.Memory history.now)) }
    ensures truth { IfOk result (EachIsLongTrueOf (AnyHistory.Memory history.now)) }
    ensures unknown { IfOk result (EachIsKnownOnDistinctValues (AnyHistory.Memory history.now)) }
    ensures unexplained { IfOk result (EachNamesUnexplained (AnyHistory.Memory history.now)) }
{
    match small(alloc, history)? {
        Some(small) => {
            let limited = AnyHistory::Memory(small);
            let report = report_on(&CallingThread, alloc, &limited, &[]);
            limited.discard();
            report
        }
        None => report_on_larger(work, alloc, history),
    }
}

// The same of a history over the limits.
#[tactic(auto, using(crate::proofs::Each::each_finding))]
fn report_on_larger<W: SessionWork>(
    work: &W,
    alloc: Global,
    history: &LongHistory,
) -> Result<Findings, AllocError>
    requires can_work { W.can_work work.now }
    requires over { ¬ IsAnyHistory (AnyHistory.Memory history.now) }
    ensures found { IfOk result (EachIsFinding (AnyHistory.Memory history.now)) }
    ensures truth { IfOk result (EachIsLongTrueOf (AnyHistory.Memory history.now)) }
    ensures unknown { IfOk result (EachIsKnownOnDistinctValues (AnyHistory.Memory history.now)) }
    ensures unexplained { IfOk result (EachNamesUnexplained (AnyHistory.Memory history.now)) }
{
    let decisions = decide_long(work, alloc, history)?;
    Ok(Findings {
        cc: finding_of(history, Criterion::Cc, decisions.cc),
        cm: finding_of(history, Criterion::Cm, decisions.cm),
        ccv: finding_of(history, Criterion::Ccv, decisions.ccv),
    })
}

// The finding that a decision gives.
fn finding_of(_history: &LongHistory, _criterion: Criterion, decision: LongDecision) -> Finding
    requires { IsLongDecided _history.now _criterion decision }
    ensures found { IsFinding (AnyHistory.Memory _history.now) _criterion result }
    ensures truth { IsLongTrueOf (AnyHistory.Memory _history.now) _criterion (answer_of result) }
    ensures unknown { IsKnownOnDistinctValues (AnyHistory.Memory _history.now) (answer_of result) }
    ensures unexplained { NamesUnexplained (AnyHistory.Memory _history.now) _criterion (answer_of result) }
{
    match decision {
        LongDecision::Meets => Finding::Met(None),
        LongDecision::ExcludedBy(kind) => Finding::Present(kind),
        LongDecision::Open => Finding::Unexplained(None, None),
    }
}
