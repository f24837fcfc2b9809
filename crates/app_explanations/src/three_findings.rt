//! The text of three findings, from the lines on each.

ghost use Rattle.std.specs.Prelude.{◌≡◌, IfOk, IfSome, Some, string_bytes};
ghost use Rattle.json_histories.specs.declared.any_history.AnyHistory.{AnyHistory as Whole};
ghost use Rattle.cert_check.specs.declared.criterion.Criterion.TheVariants.{Cc, Ccv, Cm};
ghost use Rattle.app_orders.specs.declared.length.Length.{Length};
ghost use Rattle.app_explanations.specs.CoresInWords.{IsTextOfCore};
ghost use Rattle.app_explanations.specs.ExplainingInWords.{TellsEach};

use crate::finding_text::text_with_lines;
use crate::lines::Lines;
use app_findings::Findings;
use cert_check::Criterion;
use show_words::Names;
use std::alloc::{AllocError, Global};

/// The lines on the finding of each criterion.
#[derive(Drop)]
pub(crate) struct FindingLines {
    pub cc: Lines,
    pub cm: Lines,
    pub ccv: Lines,
}

/// The text of findings: for each criterion the line of `judge`, and after it the lines on its finding. If the lines were given for a
/// criterion before, one line names that criterion instead. The remarks of the names come last.
///
/// Fails for want of memory alone. O(n) for n bytes of lines.
pub(crate) fn text_of_findings<N: Names>(
    alloc: Global,
    names: &N,
    findings: &Findings,
    lines: FindingLines,
) -> Result<String, AllocError>
    ensures { (long : Length) (history : Whole) → IfSome lines.cc.core (λ t. IsTextOfCore long history Cc (string_bytes t))
        → IfSome lines.cm.core (λ t. IsTextOfCore long history Cm (string_bytes t))
        → IfSome lines.ccv.core (λ t. IsTextOfCore long history Ccv (string_bytes t))
        → IfOk result (λ text. TellsEach long history findings.now (string_bytes text)) }
{
    let mut once = given_once(alloc, lines)?;
    let text = match names.push_remarks(alloc, &mut once.ccv.after) {
        Ok(()) => text_of_lines(alloc, findings, &once),
        Err(no_memory) => Err(no_memory),
    };
    drop(once);
    text
}

// The text of findings with these lines.
fn text_of_lines(
    alloc: Global,
    findings: &Findings,
    lines: &FindingLines,
) -> Result<String, AllocError>
    ensures { (long : Length) (history : Whole) → IfSome lines.now.cc.core (λ t. IsTextOfCore long history Cc (string_bytes t))
        → IfSome lines.now.cm.core (λ t. IsTextOfCore long history Cm (string_bytes t))
        → IfSome lines.now.ccv.core (λ t. IsTextOfCore long history Ccv (string_bytes t))
        → IfOk result (λ text. TellsEach long history findings.now (string_bytes text)) }
{
    let cc = text_with_lines(alloc, Criterion::Cc, &findings.cc, &lines.cc)?;
    let cm = text_with_lines(alloc, Criterion::Cm, &findings.cm, &lines.cm)?;
    let ccv = text_with_lines(alloc, Criterion::Ccv, &findings.ccv, &lines.ccv)?;
    format!(in alloc; "{cc}{cm}{ccv}")
}

// The lines, each finding's once.
fn given_once(alloc: Global, lines: FindingLines) -> Result<FindingLines, AllocError>
    ensures cc { IfOk result (λ once. once.cc.core ≡ lines.cc.core) }
    ensures cm { IfOk result (λ once. IfSome once.cm.core (λ t. lines.cm.core ≡ Some t)) }
    ensures ccv { IfOk result (λ once. IfSome once.ccv.core (λ t. lines.ccv.core ≡ Some t)) }
{
    let FindingLines { cc, cm, ccv } = lines;
    let named = if are_given(&ccv, &cc) {
        Some(Criterion::Cc)
    } else if are_given(&ccv, &cm) {
        Some(Criterion::Cm)
    } else {
        None
    };
    let ccv = lines_or_name(alloc, ccv, named)?;
    let named = if are_given(&cm, &cc) {
        Some(Criterion::Cc)
    } else {
        None
    };
    let cm = lines_or_name(alloc, cm, named)?;
    Ok(FindingLines { cc, cm, ccv })
}

// The lines, or the line that names the criterion whose finding is the same.
fn lines_or_name(alloc: Global, lines: Lines, named: Option<Criterion>) -> Result<Lines, AllocError>
    ensures { IfOk result (λ once. IfSome once.core (λ t. lines.core ≡ Some t)) }
{
    match named {
        Some(criterion) => {
            drop(lines);
            let name = criterion.name();
            Lines::of_line(alloc, format!(in alloc; "as for {name}")?)
        }
        None => Ok(lines),
    }
}

// Whether these lines are the ones that were given before. A single line is as short as the one that would name its criterion.
fn are_given(lines: &Lines, before: &Lines) -> bool {
    !lines.are_short() && lines.are(before)
}
