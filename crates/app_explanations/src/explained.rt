//! What is found of a memory history of any length, in each form.

ghost use Rattle.std.specs.Prelude.{◌≡◌, IfOk, string_bytes};
ghost use Rattle.json_histories.specs.AnyForm.{IsAnyHistory};
ghost use Rattle.app_orders.specs.declared.length.Length.TheVariants.{Any, Limited};
ghost use Rattle.app_explanations.specs.ExplanationTexts.{IsExplainedAs, IsExplainedBy, IsJsonOf, IsWordsOf};
ghost use Rattle.app_explanations.specs.Report.{AreFindingsOf};

use crate::clients::Clients;
use crate::examined::Examined;
use crate::finding_forms::findings_text;
use crate::history_forms::{drawing_of_history, json_with_names};
use crate::long_explaining::{LongFindings, findings_of_long};
use crate::long_picturing::picture_of_long;
use crate::long_words::{text_of_long, text_of_small};
use crate::remarks::remarks_on_patterns;
use app_findings::{Findings, Kept, PieceWork, findings_of_memory};
use app_orders::LongForm;
use json_histories::{AnyHistory, History};
use judge_decision::SessionWork;
use judge_memory::LongHistory;
use judge_reader::small;
use model_objects::Memory;
use order_memory::IndexedMemory;
use show_words::{Names, OwnNames};
use std::alloc::{AllocError, Global};

/// Why a memory history of any length meets each criterion or does not, in a form. `work` checks the pieces of certificates, or goes over
/// the sessions.
///
/// For a history within the limits of [`History`] it is the text on that history, except for the words after a yes.
///
/// Fails for want of memory alone. O(n (k + log n)) for n operations of k sessions, or what [`findings_of`] takes within the limits.
pub fn explained_long<W: PieceWork + SessionWork>(
    work: &W,
    alloc: Global,
    history: &LongHistory,
    form: LongForm,
) -> Result<String, AllocError>
    requires can_check { W.can_check work.now }
    requires can_work { W.can_work work.now }
    ensures { IfOk result (λ text. IsExplainedBy Any Clients.Sessions form (AnyHistory.Memory history.now) (string_bytes text)) }
{
    explained_by(work, alloc, history, &OwnNames, Clients::Sessions, form)
}

/// The same with these names, whose clients the sessions are of.
///
/// Fails for want of memory alone. The cost is that of [`explained_long`].
pub fn explained_as<W: PieceWork + SessionWork, N: Names>(
    work: &W,
    alloc: Global,
    history: &LongHistory,
    names: &N,
    form: LongForm,
) -> Result<String, AllocError>
    requires can_check { W.can_check work.now }
    requires can_work { W.can_work work.now }
    ensures { IfOk result (λ text. IsExplainedAs form (AnyHistory.Memory history.now) (string_bytes text)) }
{
    explained_by(work, alloc, history, names, Clients::Named, form)
}

// The same, with the sessions those of these clients.
fn explained_by<W: PieceWork + SessionWork, N: Names>(
    work: &W,
    alloc: Global,
    history: &LongHistory,
    names: &N,
    clients: Clients,
    form: LongForm,
) -> Result<String, AllocError>
    requires can_check { W.can_check work.now }
    requires can_work { W.can_work work.now }
    ensures { IfOk result (λ text. IsExplainedBy Any clients form (AnyHistory.Memory history.now) (string_bytes text)) }
{
    match small(alloc, history)? {
        Some(small) => small_as(work, alloc, history, small, names, clients, form),
        None => larger_as(work, alloc, history, names, clients, form),
    }
}

// The text on a history over the limits.
fn larger_as<W: SessionWork, N: Names>(
    work: &W,
    alloc: Global,
    history: &LongHistory,
    names: &N,
    clients: Clients,
    form: LongForm,
) -> Result<String, AllocError>
    requires can_work { W.can_work work.now }
    requires over { ¬ IsAnyHistory (AnyHistory.Memory history.now) }
    ensures { IfOk result (λ text. IsExplainedBy Any clients form (AnyHistory.Memory history.now) (string_bytes text)) }
{
    let said = findings_of_long(work, alloc, history)?;
    let text = text_of_larger(alloc, history, names, clients, &said, form);
    drop(said);
    text
}

// The text of what is found of a history over the limits.
fn text_of_larger<N: Names>(
    alloc: Global,
    history: &LongHistory,
    names: &N,
    clients: Clients,
    said: &LongFindings,
    form: LongForm,
) -> Result<String, AllocError>
    requires { AreFindingsOf Any (AnyHistory.Memory history.now) said.now.findings }
    ensures { IfOk result (λ text. IsExplainedBy Any clients form (AnyHistory.Memory history.now) (string_bytes text)) }
{
    match form {
        LongForm::Words => text_of_long(alloc, history, names, said),
        LongForm::Json => json_of_larger(alloc, history, names, clients, &said.findings),
        LongForm::Picture => picture_of_long(alloc, history, names, said),
    }
}

// The JSON text of what is found of a history over the limits.
fn json_of_larger<N: Names>(
    alloc: Global,
    _history: &LongHistory,
    names: &N,
    clients: Clients,
    findings: &Findings,
) -> Result<String, AllocError>
    requires { AreFindingsOf Any (AnyHistory.Memory _history.now) findings.now }
    ensures { IfOk result (λ text. IsJsonOf Any clients (AnyHistory.Memory _history.now) (string_bytes text)) }
{
    let remarks = remarks_on_patterns(alloc, names, clients, findings)?;
    let text = findings_text(alloc, findings, &remarks);
    drop(remarks);
    text
}

// The text on a history within the limits.
fn small_as<W: PieceWork, N: Names>(
    work: &W,
    alloc: Global,
    history: &LongHistory,
    small: History<Memory>,
    names: &N,
    clients: Clients,
    form: LongForm,
) -> Result<String, AllocError>
    requires { W.can_check work.now }
    ensures { IfOk result (λ text. IsExplainedBy Limited clients form (AnyHistory.Memory small) (string_bytes text)) }
{
    match form {
        LongForm::Words => words_of_small(work, alloc, history, &small, names),
        LongForm::Json => {
            let small = AnyHistory::Memory(small);
            let text = json_with_names(work, alloc, &small, names, clients);
            small.discard();
            text
        }
        LongForm::Picture => {
            let small = AnyHistory::Memory(small);
            let svg = drawing_of_history(work, alloc, &small, names);
            small.discard();
            svg
        }
    }
}

// The words on a history within the limits.
fn words_of_small<W: PieceWork, N: Names>(
    work: &W,
    alloc: Global,
    history: &LongHistory,
    small: &History<Memory>,
    names: &N,
) -> Result<String, AllocError>
    requires { W.can_check work.now }
    ensures { IfOk result (λ text. IsWordsOf Limited (AnyHistory.Memory small.now) (string_bytes text)) }
{
    let memory = IndexedMemory::of(alloc, small)?;
    let findings = findings_of_memory(work, alloc, &memory, Kept::Reasons)?;
    let text = text_of_small(alloc, history, Examined::Memory(&memory), names, &findings);
    drop(findings);
    text
}
