//! What is found of a history within the limits, in words.

ghost use Rattle.std.specs.Prelude.{IfOk, string_bytes};
ghost use Rattle.app_orders.specs.declared.length.Length.TheVariants.{Limited};
ghost use Rattle.app_explanations.specs.ExplainingInWords.{TellsEach};
ghost use Rattle.app_explanations.specs.ExplanationTexts.{IsWordsOf};
ghost use Rattle.app_explanations.specs.Steps.Examining.{history_of};

use crate::examined::Examined;
use crate::finding_lines::lines_of_finding;
use crate::three_findings::{FindingLines, text_of_findings};
use app_findings::{Findings, Kept, PieceWork, findings_of, findings_of_memory};
use cert_check::Criterion;
use json_histories::{AnyHistory, History};
use model_objects::Memory;
use order_memory::IndexedMemory;
use show_words::OwnNames;
use std::alloc::{AllocError, Global};

/// What is found of a history, in words: for each criterion the line of `judge`, and after it what shows it, in lines that begin with two
/// spaces. What shows two criteria is given once.
///
/// Fails for want of memory alone. It costs what [`findings_of`] takes, with its reasons, and the words. If a certificate does not explain
/// an operation, it replays the piece of the operation. Besides that, it costs O(n) for n bytes that are written.
pub fn words_of_history<W: PieceWork>(
    work: &W,
    alloc: Global,
    history: &AnyHistory,
) -> Result<String, AllocError>
    requires { W.can_check work.now }
    ensures { IfOk result (λ text. IsWordsOf Limited history.now (string_bytes text)) }
{
    match history.as_memory() {
        Some(memory) => words_of_memory(work, alloc, memory),
        None => words_of_object(work, alloc, history),
    }
}

// The same for a memory. What is known of it is made once.
fn words_of_memory<W: PieceWork>(
    work: &W,
    alloc: Global,
    history: &History<Memory>,
) -> Result<String, AllocError>
    requires { W.can_check work.now }
    ensures { IfOk result (λ text. IsWordsOf Limited (AnyHistory.Memory history.now) (string_bytes text)) }
{
    let memory = IndexedMemory::of(alloc, history)?;
    let findings = findings_of_memory(work, alloc, &memory, Kept::Reasons)?;
    let text = text_of_examined(alloc, Examined::Memory(&memory), &findings);
    drop(findings);
    text
}

// The same for another object.
fn words_of_object<W: PieceWork>(
    work: &W,
    alloc: Global,
    history: &AnyHistory,
) -> Result<String, AllocError>
    requires { W.can_check work.now }
    ensures { IfOk result (λ text. IsWordsOf Limited history.now (string_bytes text)) }
{
    let findings = findings_of(work, alloc, history, Kept::Reasons)?;
    let text = text_of_examined(alloc, Examined::Object(history), &findings);
    drop(findings);
    text
}

// The text of what is found of a history.
fn text_of_examined(
    alloc: Global,
    history: Examined<'_, '_>,
    findings: &Findings,
) -> Result<String, AllocError>
    ensures { IfOk result (λ text. TellsEach Limited (history_of history.entry) findings.now (string_bytes text)) }
{
    let lines = FindingLines {
        cc: lines_of_finding(alloc, history, &OwnNames, Criterion::Cc, &findings.cc)?,
        cm: lines_of_finding(alloc, history, &OwnNames, Criterion::Cm, &findings.cm)?,
        ccv: lines_of_finding(alloc, history, &OwnNames, Criterion::Ccv, &findings.ccv)?,
    };
    text_of_findings(alloc, &OwnNames, findings, lines)
}
