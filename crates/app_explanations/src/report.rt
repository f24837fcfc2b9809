//! The lines of a report.

ghost use Rattle.std.specs.Prelude.{◌≡◌, ◌++◌, codes, IfOk, string_bytes};
ghost use Rattle.app_explanations.specs.Report.{line_for, text_for};

use app_findings::Findings;
use app_judging::Answer;
use cert_check::Criterion;
use json_histories::OpId;
use std::alloc::{AllocError, Global};

/// The text of a report: its lines for causal consistency, causal memory and causal convergence, one after the other.
///
/// Fails for want of memory alone. O(1).
pub fn report_text(alloc: Global, report: &Findings) -> Result<String, AllocError>
    ensures { IfOk result (λ text. string_bytes text ≡ text_for report.now) }
{
    let cc = report_line(alloc, Criterion::Cc, report.cc.answer())?;
    let cm = report_line(alloc, Criterion::Cm, report.cm.answer())?;
    let ccv = report_line(alloc, Criterion::Ccv, report.ccv.answer())?;
    format!(in alloc; "{cc}{cm}{ccv}")
}

/// The line of a report: the criterion, a space, the answer and a line feed.
///
/// Fails for want of memory alone. O(1).
pub fn report_line(
    alloc: Global,
    criterion: Criterion,
    answer: Answer,
) -> Result<String, AllocError>
    ensures { IfOk result (λ text. string_bytes text ≡ line_for criterion answer) }
{
    let name = criterion.name();
    match answer {
        Answer::Yes => line_of(alloc, name, " yes", ""),
        Answer::No(kind) => line_of(alloc, name, " no ", kind.name()),
        Answer::Unknown(None) => line_of(alloc, name, " unknown", ""),
        Answer::Unknown(Some(OpId { session, index })) => {
            format!(in alloc; "{name} unknown {session}.{index}\n")
        }
        Answer::Open(rows) => format!(in alloc; "{name} open {rows}\n"),
    }
}

// Most lines have fewer bytes, so a line is allocated once.
const USUAL_LINE_BYTES: usize = 32;

// The line of a criterion of this name: an answer, and a kind of pattern or nothing.
fn line_of(alloc: Global, name: &str, answer: &str, kind: &str) -> Result<String, AllocError>
    ensures { IfOk result (λ line. string_bytes line ≡ name.now ++ (answer.now ++ (kind.now ++ codes "\n"))) }
{
    let mut line = String::with_capacity(alloc, USUAL_LINE_BYTES)?;
    line.push_str(name)?;
    line.push_str(answer)?;
    line.push_str(kind)?;
    line.push_str("\n")?;
    Ok(line)
}
