//! The words that say why a memory history of any length meets each criterion, or does not.

ghost use Rattle.std.specs.Prelude.{◌≡◌, IfOk, IfSome, IsTrue, None, string_bytes};
ghost use Rattle.json_histories.specs.AnyForm.{IsJson, form_of};
ghost use Rattle.pattern_check.specs.Kinds.{is_against};
ghost use Rattle.app_orders.specs.declared.length.Length.TheVariants.{Any, Limited};
ghost use Rattle.app_findings.specs.Findings.{IsFinding};
ghost use Rattle.app_explanations.specs.CoresInWords.{IsTextOfCore, IsTextOfNo};
ghost use Rattle.app_explanations.specs.ExplainingInWords.{TellsEach};
ghost use Rattle.app_explanations.specs.Report.{AreFindingsOf};
ghost use Rattle.app_explanations.specs.Steps.Examining.{history_of};

use crate::core_names::CoreNames;
use crate::examined::Examined;
use crate::finding_lines::{line_of_kind, lines_of_finding, words_of_kind};
use crate::lines::Lines;
use crate::long_explaining::LongFindings;
use crate::long_repeated::push_repeated;
use crate::three_findings::{FindingLines, text_of_findings};
use app_findings::{Finding, Findings};
use cert_check::Criterion;
use json_histories::{AnyHistory, History, write_history};
use judge_cores::{Gathered, LongCore};
use judge_memory::LongHistory;
use model_objects::Memory;
use pattern_check::Kind;
use show_words::{
    Names, words_of_long_yes, words_of_operations, words_of_pattern, words_of_places,
};
use std::alloc::{AllocError, Global};

/// The text of what is found of a long history: for each criterion the line of `judge`, and after it what shows it.
///
/// Fails for want of memory alone. O(n) for n operations of the cores, beside their words.
pub(crate) fn text_of_long<N: Names>(
    alloc: Global,
    history: &LongHistory,
    names: &N,
    said: &LongFindings,
) -> Result<String, AllocError>
    requires { AreFindingsOf Any (AnyHistory.Memory history.now) said.now.findings }
    ensures { IfOk result (λ text. TellsEach Any (AnyHistory.Memory history.now) said.now.findings (string_bytes text)) }
{
    let findings = &said.findings;
    let lines = FindingLines {
        cc: lines_of_long_finding(alloc, history, names, said, Criterion::Cc, &findings.cc)?,
        cm: lines_of_long_finding(alloc, history, names, said, Criterion::Cm, &findings.cm)?,
        ccv: lines_of_long_finding(alloc, history, names, said, Criterion::Ccv, &findings.ccv)?,
    };
    text_of_findings(alloc, names, findings, lines)
}

// The lines on one finding.
#[tactic(auto, using(crate::proofs::CoreLines::finding_against))]
fn lines_of_long_finding<N: Names>(
    alloc: Global,
    history: &LongHistory,
    names: &N,
    said: &LongFindings,
    criterion: Criterion,
    finding: &Finding,
) -> Result<Lines, AllocError>
    requires { IsFinding (AnyHistory.Memory history.now) criterion finding.now }
    ensures { IfOk result (λ lines. IfSome lines.core (λ t. IsTextOfNo criterion (string_bytes t))) }
{
    match finding {
        Finding::Met(_) => lines_of_yes(alloc, history, names, criterion),
        Finding::Shown(pattern) => {
            lines_of_found(alloc, history, names, said, criterion, pattern.kind())
        }
        Finding::Present(kind) => lines_of_found(alloc, history, names, said, criterion, *kind),
        Finding::Unexplained(_, _) => lines_of_repeated(alloc, history, names),
    }
}

// The line on what is met.
fn lines_of_yes<N: Names>(
    alloc: Global,
    history: &LongHistory,
    names: &N,
    criterion: Criterion,
) -> Result<Lines, AllocError>
    ensures { IfOk result (λ lines. lines.core ≡ None) }
{
    let operations = history.operations();
    let sessions = history.sessions();
    Lines::of_line(
        alloc,
        words_of_long_yes(alloc, names, criterion, operations, sessions)?,
    )
}

// The lines on values that are not distinct.
fn lines_of_repeated<N: Names>(
    alloc: Global,
    history: &LongHistory,
    names: &N,
) -> Result<Lines, AllocError>
    ensures { IfOk result (λ lines. lines.core ≡ None) }
{
    let mut words = Vec::new(alloc);
    if names.tells_more() {
        push_repeated(alloc, &mut words, history, names)?;
    }
    words.push(String::from_str(
        alloc,
        "A variable is written twice with one value, or with its initial value. So a read does not name its write, and nothing is known.",
    )?)?;
    Ok(Lines::of_words(alloc, words))
}

/// The lines on a kind that a long history shows: the words of the pattern and its core, or the operations that were gathered.
///
/// Fails for want of memory alone. O(n) for n operations of the core, beside its words.
#[tactic(auto, using(crate::proofs::CoreLines::gathered_no))]
pub(crate) fn lines_of_found<N: Names>(
    alloc: Global,
    history: &LongHistory,
    names: &N,
    said: &LongFindings,
    _criterion: Criterion,
    kind: Kind,
) -> Result<Lines, AllocError>
    requires { IsTrue (is_against kind _criterion) }
    ensures { IfOk result (λ lines. IfSome lines.core (λ t. IsTextOfNo _criterion (string_bytes t))) }
{
    match said.gathered(kind) {
        Some(Gathered::Core(core)) => lines_of_core(alloc, history, names, core),
        Some(Gathered::Operations(ops)) => {
            let mut words = Vec::new(alloc);
            words.push(words_of_kind(alloc, kind)?)?;
            words.push(words_of_operations(alloc, names, ops)?)?;
            Ok(Lines::of_words(alloc, words))
        }
        None => line_of_kind(alloc, kind),
    }
}

// The words of a core: its pattern, the core as a history, and which operations of the whole it has.
fn lines_of_core<N: Names>(
    alloc: Global,
    history: &LongHistory,
    names: &N,
    core: &LongCore,
) -> Result<Lines, AllocError>
    ensures { IfOk result (λ lines. IfSome lines.core (λ t. IsJson (string_bytes t) (form_of (AnyHistory.Memory core.now.history)))) }
{
    let names = CoreNames {
        core,
        sessions: history.sessions(),
        whole: names,
    };
    let words = words_of_pattern(alloc, core.history(), &names, core.pattern())?;
    let text = text_of_history(alloc, core.history())?;
    let mut after = Vec::new(alloc);
    after.push(words_of_places(alloc, core.history(), &names)?)?;
    Ok(Lines {
        words,
        core: Some(text),
        after,
    })
}

// The text of a history of a memory.
fn text_of_history(alloc: Global, history: &History<Memory>) -> Result<String, AllocError>
    ensures { IfOk result (λ text. IsJson (string_bytes text) (form_of (AnyHistory.Memory history.now))) }
{
    let copy = AnyHistory::Memory(history.copy(alloc)?);
    let text = write_history(alloc, &copy);
    copy.discard();
    text
}

/// The text of what is found of a history within the limits, which was asked for as one of any length.
///
/// Fails for want of memory alone. The cost is that of the words of `explain`.
pub(crate) fn text_of_small<N: Names>(
    alloc: Global,
    history: &LongHistory,
    small: Examined<'_, '_>,
    names: &N,
    said: &Findings,
) -> Result<String, AllocError>
    ensures { IfOk result (λ text. TellsEach Limited (history_of small.entry) said.now (string_bytes text)) }
{
    let lines = FindingLines {
        cc: lines_of_small_finding(alloc, history, small, names, Criterion::Cc, &said.cc)?,
        cm: lines_of_small_finding(alloc, history, small, names, Criterion::Cm, &said.cm)?,
        ccv: lines_of_small_finding(alloc, history, small, names, Criterion::Ccv, &said.ccv)?,
    };
    text_of_findings(alloc, names, said, lines)
}

// The lines of one of them.
fn lines_of_small_finding<N: Names>(
    alloc: Global,
    history: &LongHistory,
    small: Examined<'_, '_>,
    names: &N,
    criterion: Criterion,
    finding: &Finding,
) -> Result<Lines, AllocError>
    ensures { IfOk result (λ lines. IfSome lines.core (λ t. IsTextOfCore Limited (history_of small.entry) criterion (string_bytes t))) }
{
    match finding {
        Finding::Met(_) => lines_of_yes(alloc, history, names, criterion),
        Finding::Shown(_) | Finding::Present(_) | Finding::Unexplained(_, _) => {
            lines_of_finding(alloc, small, names, criterion, finding)
        }
    }
}
