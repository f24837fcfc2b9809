//! The text of one finding: the line of `judge`, and lines after it.

ghost use Rattle.std.specs.Prelude.{◌≡◌, ◌↔◌, ◌+◌, ◌++◌, ◌≤◌, ℕ, List, length, IfOk, IfSome, IsTrue, OnOk, string_bytes};
ghost use Rattle.std.specs.Str.Iter.{LacksByte};
ghost use Rattle.json_histories.specs.declared.any_history.AnyHistory.{AnyHistory as Whole};
ghost use Rattle.cert_check.specs.declared.criterion.Criterion.{Criterion as ACriterion};
ghost use Rattle.app_orders.specs.declared.length.Length.{Length};
ghost use Rattle.app_explanations.specs.CoresInWords.{AreWordsOn, IsTextOfCore, core_words, indented};
ghost use Rattle.app_explanations.specs.ExplainingInWords.{Tells};
ghost use Rattle.app_explanations.specs.Steps.ShortTexts.{IsIndentedUpTo};

use crate::lines::Lines;
use crate::report::report_line;
use app_findings::Finding;
use cert_check::Criterion;
use std::alloc::{AllocError, Global};

/// What begins the line of a core.
const CORE_WORDS: &str = "These operations alone are a no: ";

/// The text of one finding, with these lines after the line of `judge`. It leaves out a line that has a line feed, and words that begin as
/// the line of a core does.
pub(crate) fn text_with_lines(
    alloc: Global,
    criterion: Criterion,
    finding: &Finding,
    lines: &Lines,
) -> Result<String, AllocError>
    ensures { (long : Length) (history : Whole) → IfSome lines.now.core (λ t. IsTextOfCore long history criterion (string_bytes t))
        → IfOk result (λ text. Tells long history criterion finding.now (string_bytes text)) }
{
    let line = report_line(alloc, criterion, finding.answer())?;
    let words = text_of_words(alloc, &lines.words)?;
    let core = text_of_core(alloc, &lines.core)?;
    let after = text_of_words(alloc, &lines.after)?;
    format!(in alloc; "{line}{words}{core}{after}")
}

// Words, each after two spaces. It leaves out a line that has a line feed, or begins as the line of a core does.
#[tactic(auto, using(crate::proofs::CoreLines::no_words))]
fn text_of_words(alloc: Global, lines: &[String]) -> Result<String, AllocError>
    ensures { (long : Length) (history : Whole) (criterion : ACriterion)
        → IfOk result (λ text. AreWordsOn long history criterion (string_bytes text)) }
{
    let mut text = String::new(alloc);
    for line in lines {
        push_words(&mut text, line)?;
    }
    Ok(text)
}

// Adds words, unless they have a line feed, or begin as the line of a core does.
fn push_words(text: &mut String, line: &str) -> Result<(), AllocError>
    ensures { OnOk result ((long : Length) (history : Whole) (criterion : ACriterion)
        → AreWordsOn long history criterion (string_bytes text.old) → AreWordsOn long history criterion (string_bytes text.new)) }
{
    if is_one_line(line) && has_no_core(line) {
        push_line(text, line)?;
    }
    Ok(())
}

// The line of a core, if there is one. It leaves out a text that has a line feed.
#[tactic(auto, using(crate::proofs::CoreLines::no_words))]
fn text_of_core(alloc: Global, core: &Option<String>) -> Result<String, AllocError>
    ensures { (long : Length) (history : Whole) (criterion : ACriterion)
        → IfSome core.now (λ t. IsTextOfCore long history criterion (string_bytes t))
        → IfOk result (λ text. AreWordsOn long history criterion (string_bytes text)) }
{
    let mut text = String::new(alloc);
    if let Some(core) = core {
        push_core(alloc, &mut text, core)?;
    }
    Ok(text)
}

// Adds the line of a core, unless it has a line feed.
#[tactic(auto, unfolding(crate::specs::CoresInWords::core_words))]
fn push_core(alloc: Global, text: &mut String, core: &str) -> Result<(), AllocError>
    ensures { OnOk result ((long : Length) (history : Whole) (criterion : ACriterion)
        → IsTextOfCore long history criterion core.now
        → AreWordsOn long history criterion (string_bytes text.old) → AreWordsOn long history criterion (string_bytes text.new)) }
{
    let line = format!(in alloc; "These operations alone are a no: {core}")?;
    push_core_line(text, &line, core)
}

// Adds a line, which is that of a core, unless it has a line feed.
fn push_core_line(text: &mut String, line: &str, _core: &str) -> Result<(), AllocError>
    requires { line.now ≡ core_words ++ _core.now }
    ensures { OnOk result ((long : Length) (history : Whole) (criterion : ACriterion)
        → IsTextOfCore long history criterion _core.now
        → AreWordsOn long history criterion (string_bytes text.old) → AreWordsOn long history criterion (string_bytes text.new)) }
{
    if is_one_line(line) {
        push_line(text, line)?;
    }
    Ok(())
}

/// Lines, each after two spaces. It leaves out a line that has a line feed.
pub(crate) fn indented_text(alloc: Global, lines: &[String]) -> Result<String, AllocError>
    ensures { IfOk result (λ text. IsIndentedUpTo (length lines.now) (string_bytes text)) }
{
    let mut text = String::new(alloc);
    for line in lines {
        push_indented(&mut text, line)?;
    }
    Ok(text)
}

// Adds a line, unless it has a line feed.
fn push_indented(text: &mut String, line: &str) -> Result<(), AllocError>
    ensures { OnOk result ((n : ℕ) → IsIndentedUpTo n (string_bytes text.old) → IsIndentedUpTo (n + 1) (string_bytes text.new)) }
{
    if is_one_line(line) {
        push_line(text, line)?;
    }
    Ok(())
}

// Adds a line.
fn push_line(text: &mut String, line: &str) -> Result<(), AllocError>
    ensures { OnOk result (string_bytes text.new ≡ string_bytes text.old ++ indented line.now) }
{
    text.push_str("  ")?;
    text.push_str(line)?;
    text.push_str("\n")
}

// Whether a line has no line feed.
fn is_one_line(line: &str) -> bool
    ensures { IsTrue result ↔ LacksByte 0x0A line.now }
{
    line.as_bytes().iter().all(|byte| *byte != b'\n')
}

// Whether a line does not begin as that of a core.
fn has_no_core(line: &str) -> bool
    ensures { IsTrue result → (text : List ℕ) → ¬ (line.now ≡ core_words ++ text) }
{
    !line.as_bytes().starts_with(CORE_WORDS.as_bytes())
}
