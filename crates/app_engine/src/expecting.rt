//! Reports on inputs, and the outcome of a report where criteria are expected to be met.
ghost use Rattle.std.specs.Prelude.{◌≡◌, IfErr, IfOk, IfSome};
ghost use Rattle.app_engine.specs.Expecting.{outcome_for, outcome_in};
ghost use Rattle.app_engine.specs.Steps.ReportErrors.{IsReportError};
ghost use Rattle.app_explanations.specs.Report.{IsReportOnAt};

use crate::failure::RunError;
use crate::long_judging::report_on_long_input;
use crate::reading::{read_short_memory, read_within_limits};
use app_findings::{Findings, PieceWork, report_decided, report_on};
use app_judging::Answer;
use app_orders::{Expected, Length};
use json::Scratch;
use json_lines::Outcome;
use judge_decision::SessionWork;
use std::alloc::Global;

/// The report on the history in an input, which may be that long. `work` checks the pieces of certificates, or goes over the sessions.
///
/// Refuses what is no history, and fails for want of memory. The cost is that of reading and of [`report_on`], or of
/// [`report_on_long`](crate::report_on_long).
pub(crate) fn report_on_input<W: PieceWork + SessionWork>(
    work: &W,
    alloc: Global,
    scratch: &mut Scratch<Global>,
    input: &[u8],
    allowed: Length,
) -> Result<Findings, RunError>
    requires can_check { W.can_check work.now }
    requires can_work { W.can_work work.now }
    ensures report { IfOk result (IsReportOnAt allowed input.now) }
    ensures error { IfErr result (IsReportError allowed input.now) }
{
    match allowed {
        Length::Limited => report_on_limited_input(work, alloc, scratch, input),
        Length::Any => report_on_long_input(work, alloc, input),
    }
}

// The report on a history within the limits.
fn report_on_limited_input<W: PieceWork>(
    work: &W,
    alloc: Global,
    scratch: &mut Scratch<Global>,
    input: &[u8],
) -> Result<Findings, RunError>
    requires { W.can_check work.now }
    ensures report { IfOk result (IsReportOnAt Length.Limited input.now) }
    ensures error { IfErr result (IsReportError Length.Limited input.now) }
{
    if let Some(report) = report_decided_on(alloc, scratch, input)? {
        return Ok(report);
    }
    let history = read_within_limits(alloc, input)?;
    let answers = report_on(work, alloc, &history, &[]);
    history.discard();
    Ok(answers?)
}

// The report on a history of a memory within the limits, if what is decided of it says it of each criterion. Else none, and then the input
// is read once more, whatever it holds.
fn report_decided_on(
    alloc: Global,
    scratch: &mut Scratch<Global>,
    input: &[u8],
) -> Result<Option<Findings>, RunError>
    ensures report { IfOk result (λ known. IfSome known (IsReportOnAt Length.Limited input.now)) }
    ensures error { IfErr result (IsReportError Length.Limited input.now) }
{
    match read_short_memory(alloc, scratch, input)? {
        Some(history) => {
            let known = report_decided(alloc, &history);
            drop(history);
            Ok(known?)
        }
        None => Ok(None),
    }
}

/// The outcome of a report if these criteria are expected to be met: [`Outcome::Met`] where each of them has a yes,
/// [`Outcome::Excluded`] where one has a no, and else [`Outcome::Unknown`].
pub fn outcome_of(report: &Findings, expected: Expected) -> Outcome
    ensures { result ≡ outcome_for expected report.now }
{
    let cc = outcome_of_answer(expected.cc, report.cc.answer());
    let cm = outcome_of_answer(expected.cm, report.cm.answer());
    let ccv = outcome_of_answer(expected.ccv, report.ccv.answer());
    cc.worse(cm.worse(ccv))
}

// The outcome of the answer for a criterion that is expected to be met, or isn't.
fn outcome_of_answer(is_expected: bool, answer: Answer) -> Outcome
    ensures { result ≡ outcome_in is_expected answer }
{
    if !is_expected {
        return Outcome::Met;
    }
    match answer {
        Answer::Yes => Outcome::Met,
        Answer::No(_) => Outcome::Excluded,
        Answer::Unknown(_) | Answer::Open(_) => Outcome::Unknown,
    }
}
