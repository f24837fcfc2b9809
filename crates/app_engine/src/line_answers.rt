//! The answer to a line that should hold a history, or that is blank.
ghost use Rattle.std.specs.Prelude.{◌≡◌, ◌≤◌, ◌↔◌, ◌++◌, ℕ, List, length, IfErr, IfOk, IsTrue, OnErr, OnOk};
ghost use Rattle.json_lines.specs.LineHandlers.{AppendsAnswer};
ghost use Rattle.json_lines.specs.Lines.{ended};
ghost use Rattle.app_engine.specs.LineAnswers.{IsHistoryAnswer, IsLineAnswer, IsLineError, IsSkipped, joined_for, unended};
ghost use Rattle.app_engine.specs.Steps.LineRefusals.{IsRefusalBy};
ghost use Rattle.app_explanations.specs.Report.{IsReportOnAt};

use crate::expecting::{outcome_of, report_on_input};
use crate::failure::{RunError, fault_line, status_of};
use crate::input::MAX_INPUT_BYTES;
use app_explanations::report_line;
use app_findings::Findings;
use app_orders::{BlankLines, Judging, Length, LineJudging};
use cert_check::Criterion;
use json::Scratch;
use json_lines::{Fault, Outcome, is_blank};
use judge_workers::CallingThread;
use std::alloc::{AllocError, Global};

// The joined lines of a report have fewer bytes.
const USUAL_BYTES: usize = 96;

/// Appends the answer to a line and a line feed, and returns the outcome. The answer is the lines of the report on its history
/// joined by `; `, or the line of its refusal. A blank line that is skipped gets an empty answer.
///
/// Fails for want of memory alone, and then the text is as it was. It starts no thread.
pub(crate) fn append_answer(
    alloc: Global,
    scratch: &mut Scratch<Global>,
    line: &[u8],
    judging: LineJudging,
    text: &mut Vec<u8>,
) -> Result<Outcome, Fault>
    ensures answered { IfOk result (AppendsAnswer (IsLineAnswer judging line.now) text.old.items text.new.items) }
    ensures unchanged { OnErr result (text.new.items ≡ text.old.items) }
    ensures error { IfErr result (λ e. e ≡ Fault.Memory) }
{
    if is_skipped(judging.blank, line) {
        text.extend_from_slice(b"\n")?;
        Ok(Outcome::Met)
    } else {
        append_answer_on_history(alloc, scratch, line, judging.judging, text)
    }
}

// Whether a line is skipped.
fn is_skipped(blank: BlankLines, line: &[u8]) -> bool
    ensures { IsTrue result ↔ IsSkipped blank line.now }
{
    match blank {
        BlankLines::Refused => false,
        BlankLines::Skipped => line.len() <= MAX_INPUT_BYTES && is_blank(line),
    }
}

// Appends the answer to a line that should hold a history, and a line feed.
fn append_answer_on_history(
    alloc: Global,
    scratch: &mut Scratch<Global>,
    line: &[u8],
    judging: Judging,
    text: &mut Vec<u8>,
) -> Result<Outcome, Fault>
    ensures answered { IfOk result
        (AppendsAnswer (IsHistoryAnswer judging.length judging.expected line.now) text.old.items text.new.items) }
    ensures unchanged { OnErr result (text.new.items ≡ text.old.items) }
    ensures error { IfErr result (λ e. e ≡ Fault.Memory) }
{
    match report_on_line(alloc, scratch, line, judging.length) {
        Ok(report) => {
            let appended = append_report(alloc, &report, text);
            let outcome = outcome_of(&report, judging.expected);
            drop(report);
            appended?;
            Ok(outcome)
        }
        Err(error) => append_refusal(alloc, &error, text),
    }
}

// The report on the history in a line.
#[tactic(auto, using(crate::proofs::Reported::error_of_line))]
fn report_on_line(
    alloc: Global,
    scratch: &mut Scratch<Global>,
    line: &[u8],
    allowed: Length,
) -> Result<Findings, RunError>
    ensures within { OnOk result (length line.now ≤ MAX_INPUT_BYTES) }
    ensures report { IfOk result (IsReportOnAt allowed line.now) }
    ensures error { IfErr result (IsLineError allowed line.now) }
{
    if line.len() > MAX_INPUT_BYTES {
        return Err(RunError::TooLong);
    }
    report_on_input(&CallingThread, alloc, scratch, line, allowed)
}

// Appends the lines of a report, joined to one, and a line feed.
fn append_report(alloc: Global, report: &Findings, text: &mut Vec<u8>) -> Result<(), AllocError>
    ensures appended { OnOk result (text.new.items ≡ text.old.items ++ ended (joined_for report.now)) }
    ensures unchanged { OnErr result (text.new.items ≡ text.old.items) }
{
    let joined = joined_text(alloc, report)?;
    text.extend_from_slice(joined.as_slice())
}

/// The lines of a report, joined by `; `, and a line feed.
///
/// Fails for want of memory alone. O(1).
pub fn joined_text(alloc: Global, report: &Findings) -> Result<Vec<u8>, AllocError>
    ensures { IfOk result (λ text. text.items ≡ ended (joined_for report.now)) }
{
    let cc = report_line(alloc, Criterion::Cc, report.cc.answer())?;
    let cm = report_line(alloc, Criterion::Cm, report.cm.answer())?;
    let ccv = report_line(alloc, Criterion::Ccv, report.ccv.answer())?;
    let mut text = Vec::with_capacity(alloc, USUAL_BYTES)?;
    text.extend_from_slice(without_end(cc.as_bytes()))?;
    text.extend_from_slice(b"; ")?;
    text.extend_from_slice(without_end(cm.as_bytes()))?;
    text.extend_from_slice(b"; ")?;
    text.extend_from_slice(without_end(ccv.as_bytes()))?;
    text.push(b'\n')?;
    Ok(text)
}

// A line without its line feed.
fn without_end(line: &[u8]) -> &[u8]
    ensures { result.now ≡ unended line.now }
{
    let (front, _) = line.split_at(line.len().saturating_sub(1));
    front
}

/// Appends the line of a refusal and a line feed. Want of memory is no refusal.
///
/// Fails for want of memory alone, and then the text is as it was.
pub(crate) fn append_refusal(
    alloc: Global,
    error: &RunError,
    text: &mut Vec<u8>,
) -> Result<Outcome, Fault>
    ensures answered { IfOk result (AppendsAnswer (IsRefusalBy error.now) text.old.items text.new.items) }
    ensures unchanged { OnErr result (text.new.items ≡ text.old.items) }
    ensures error { IfErr result (λ e. e ≡ Fault.Memory) }
{
    if status_of(&Err(*error)) != 1 {
        return Err(Fault::Memory);
    }
    let line = fault_line(alloc, error)?;
    let line = format!(in alloc; "{line}\n")?;
    text.extend_from_slice(line.as_bytes())?;
    Ok(Outcome::Refused)
}
