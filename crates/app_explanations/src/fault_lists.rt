//! Reads of a history that show a fault, in a list.

ghost use Rattle.std.specs.Prelude.{◌≡◌, ◌∷◌, ◌+◌, ◌++◌, ◌≤◌, ℕ, [], codes, length, option_map, IfOk, IfSome, OnOk, string_bytes};
ghost use Rattle.serde_json.specs.View.{view};
ghost use Rattle.serde_json.specs.Written.{compact_text};
ghost use Rattle.json_histories.specs.AnyForm.{IsAnyHistory, IsJson};
ghost use Rattle.json_histories.specs.Json.{list};
ghost use Rattle.json_histories.specs.declared.any_history.AnyHistory.{AnyHistory as Whole};
ghost use Rattle.app_orders.specs.declared.length.Length.{Length};
ghost use Rattle.app_orders.specs.declared.length.Length.TheVariants.{Any, Limited};
ghost use Rattle.app_findings.specs.Findings.{IsFinding, answer_of};
ghost use Rattle.app_explanations.specs.CoresInWords.{IsTextOfCore, IsTextOfNo};
ghost use Rattle.app_explanations.specs.ExplainingInWords.{TellsEach};
ghost use Rattle.app_explanations.specs.Steps.Examining.{history_of};
ghost use Rattle.app_explanations.specs.declared.clients.Clients.{Clients as Told};
ghost use Rattle.app_explanations.specs.declared.clients.Clients.TheVariants.{Sessions};
ghost use Rattle.app_explanations.specs.ListingFaults.{AreFaultsIn, AreLinesAfter, OTHER_LINES, fault_report_form, list_form};
ghost use Rattle.app_explanations.specs.ListTexts.{IsListBy, IsListInWords, IsListOf, IsLongOf};
ghost use Rattle.app_explanations.specs.Remarks.{EachIsRemark};
ghost use Rattle.app_explanations.specs.Report.{AreFindingsOf};

use crate::clients::Clients;
use crate::examined::Examined;
use crate::finding_forms::findings_value;
use crate::finding_lines::lines_of_finding;
use crate::finding_text::{indented_text, text_with_lines};
use crate::lines::Lines;
use crate::long_explaining::{LongFindings, findings_of_long};
use crate::long_words::lines_of_found;
use crate::remarks::{Remarks, remarks_on, remarks_on_patterns};
use crate::written::line_of_value;
use app_findings::{Finding, Findings, Kept, PieceWork, findings_of, findings_of_memory};
use app_judging::Answer;
use app_orders::ListForm;
use cert_check::Criterion;
use json_histories::{AnyHistory, History};
use judge_decision::SessionWork;
use judge_memory::{LongHistory, LongIndex};
use judge_reader::small;
use model_objects::Memory;
use order_memory::IndexedMemory;
use pattern_check::Kind;
use serde_json::Value;
use show_faults::{Faults, count_lines, fault_line, faults_value, find_faults};
use show_words::{Names, OwnNames};
use std::alloc::{AllocError, Global};

/// Why a history meets each criterion or does not, and its reads that show a fault. There is no list of such reads where values
/// are not distinct, nor for objects that have no keys to read.
#[derive(Drop)]
pub struct FaultReport {
    pub findings: Findings,
    pub remarks: Remarks,
    pub faults: Option<Faults>,
}

/// The list of a memory history of any length. `work` checks the pieces of certificates, or goes over the sessions.
///
/// Fails for want of memory alone. It costs what the findings cost, and O(n k) for n operations of k sessions.
pub fn listed_long<W: PieceWork + SessionWork>(
    work: &W,
    alloc: Global,
    history: &LongHistory,
    most: u32,
    form: ListForm,
) -> Result<String, AllocError>
    requires can_check { W.can_check work.now }
    requires can_work { W.can_work work.now }
    ensures { IfOk result (λ text. IsListBy Any Sessions form most (AnyHistory.Memory history.now) (string_bytes text)) }
{
    list_of_long(
        work,
        alloc,
        history,
        &OwnNames,
        Clients::Sessions,
        most,
        form,
    )
}

/// The same with these names, whose clients the sessions are of.
///
/// Fails for want of memory alone. The cost is that of [`listed_long`].
pub fn list_in_long<W: PieceWork + SessionWork, N: Names>(
    work: &W,
    alloc: Global,
    history: &LongHistory,
    names: &N,
    most: u32,
    form: ListForm,
) -> Result<String, AllocError>
    requires can_check { W.can_check work.now }
    requires can_work { W.can_work work.now }
    ensures { IfOk result (λ text. IsListOf form most (AnyHistory.Memory history.now) (string_bytes text)) }
{
    list_of_long(work, alloc, history, names, Clients::Named, most, form)
}

// The same, with the sessions those of these clients.
fn list_of_long<W: PieceWork + SessionWork, N: Names>(
    work: &W,
    alloc: Global,
    history: &LongHistory,
    names: &N,
    clients: Clients,
    most: u32,
    form: ListForm,
) -> Result<String, AllocError>
    requires can_check { W.can_check work.now }
    requires can_work { W.can_work work.now }
    ensures { IfOk result (λ text. IsListBy Any clients form most (AnyHistory.Memory history.now) (string_bytes text)) }
{
    match small(alloc, history)? {
        Some(small) => { list_in_small(work, alloc, history, small, names, clients, most, form) }
        None => list_in_larger(work, alloc, history, names, clients, most, form),
    }
}

// The list of a memory history within the limits.
fn list_in_small<W: PieceWork, N: Names>(
    work: &W,
    alloc: Global,
    history: &LongHistory,
    small: History<Memory>,
    names: &N,
    clients: Clients,
    most: u32,
    form: ListForm,
) -> Result<String, AllocError>
    requires can_check { W.can_check work.now }
    requires same { small ≡ history.now }
    ensures { IfOk result (λ text. IsListBy Limited clients form most (AnyHistory.Memory small) (string_bytes text)) }
{
    let small = AnyHistory::Memory(small);
    let text = match form {
        ListForm::Words => words_in_limited(work, alloc, &small, Some(history), names, most),
        ListForm::Json => {
            json_in_limited(work, alloc, &small, Some(history), names, clients, most)
        }
    };
    small.discard();
    text
}

/// The list of a history within the limits. A memory history is given a second time, as one of any length.
///
/// Fails for want of memory alone. It costs what the findings cost, and O(n k) for n operations of k sessions.
pub fn list_in_limited<W: PieceWork>(
    work: &W,
    alloc: Global,
    history: AnyHistory,
    long: Option<&LongHistory>,
    most: u32,
    form: ListForm,
) -> Result<String, AllocError>
    requires can_check { W.can_check work.now }
    requires long { IsLongOf history (option_map (λ g. g.now) long) }
    ensures { IfOk result (λ text. IsListBy Limited Sessions form most history (string_bytes text)) }
{
    let text = match form {
        ListForm::Words => words_in_limited(work, alloc, &history, long, &OwnNames, most),
        ListForm::Json => {
            json_in_limited(
                work,
                alloc,
                &history,
                long,
                &OwnNames,
                Clients::Sessions,
                most,
            )
        }
    };
    history.discard();
    text
}

// That list in words.
fn words_in_limited<W: PieceWork, N: Names>(
    work: &W,
    alloc: Global,
    history: &AnyHistory,
    long: Option<&LongHistory>,
    names: &N,
    most: u32,
) -> Result<String, AllocError>
    requires { W.can_check work.now }
    ensures { IfOk result (λ text. IsListInWords Limited most history.now (string_bytes text)) }
{
    match history.as_memory() {
        Some(memory) => words_on_memory(work, alloc, memory, long, names, most),
        None => words_on_object(work, alloc, history, long, names, most),
    }
}

// That list of a memory in words. What is known of it is made once.
fn words_on_memory<W: PieceWork, N: Names>(
    work: &W,
    alloc: Global,
    history: &History<Memory>,
    long: Option<&LongHistory>,
    names: &N,
    most: u32,
) -> Result<String, AllocError>
    requires { W.can_check work.now }
    ensures { IfOk result (λ text. IsListInWords Limited most (AnyHistory.Memory history.now) (string_bytes text)) }
{
    let memory = IndexedMemory::of(alloc, history)?;
    let findings = findings_of_memory(work, alloc, &memory, Kept::Reasons)?;
    let text = words_on_findings(
        alloc,
        Examined::Memory(&memory),
        long,
        names,
        &findings,
        most,
    );
    drop(findings);
    text
}

// That list of another object in words.
fn words_on_object<W: PieceWork, N: Names>(
    work: &W,
    alloc: Global,
    history: &AnyHistory,
    long: Option<&LongHistory>,
    names: &N,
    most: u32,
) -> Result<String, AllocError>
    requires { W.can_check work.now }
    ensures { IfOk result (λ text. IsListInWords Limited most history.now (string_bytes text)) }
{
    let findings = findings_of(work, alloc, history, Kept::Reasons)?;
    let text = words_on_findings(
        alloc,
        Examined::Object(history),
        long,
        names,
        &findings,
        most,
    );
    drop(findings);
    text
}

// That list in words, with these findings.
fn words_on_findings<N: Names>(
    alloc: Global,
    history: Examined<'_, '_>,
    long: Option<&LongHistory>,
    names: &N,
    findings: &Findings,
    most: u32,
) -> Result<String, AllocError>
    ensures { IfOk result (λ text. AreLinesAfter Limited most (history_of history.entry) findings.now (string_bytes text)) }
{
    let first = text_in_list(alloc, history, names, findings)?;
    let mut lines = fault_lines_of_any(alloc, long, names, most)?;
    push_remark(alloc, names, &mut lines)?;
    joined(alloc, &first, &lines, most)
}

// That list as JSON.
fn json_in_limited<W: PieceWork, N: Names>(
    work: &W,
    alloc: Global,
    history: &AnyHistory,
    long: Option<&LongHistory>,
    names: &N,
    clients: Clients,
    most: u32,
) -> Result<String, AllocError>
    requires can_check { W.can_check work.now }
    requires long { IsLongOf history.now (option_map (λ g. g.now) long) }
    ensures { IfOk result (λ text. IsListBy Limited clients ListForm.Json most history.now (string_bytes text)) }
{
    let faults = faults_of_any(alloc, history, long, names, most)?;
    let findings = findings_of(work, alloc, history, Kept::Patterns)?;
    let remarks = remarks_on(alloc, history, names, clients, &findings);
    text_of_parts(alloc, findings, remarks, faults)
}

// The list of a history over the limits.
fn list_in_larger<W: SessionWork, N: Names>(
    work: &W,
    alloc: Global,
    history: &LongHistory,
    names: &N,
    clients: Clients,
    most: u32,
    form: ListForm,
) -> Result<String, AllocError>
    requires can_work { W.can_work work.now }
    requires over { ¬ IsAnyHistory (AnyHistory.Memory history.now) }
    ensures { IfOk result (λ text. IsListBy Any clients form most (AnyHistory.Memory history.now) (string_bytes text)) }
{
    let said = findings_of_long(work, alloc, history)?;
    match form {
        ListForm::Words => {
            let text = words_in_larger(alloc, history, names, &said, most);
            drop(said);
            text
        }
        ListForm::Json => {
            let LongFindings { findings, found } = said;
            drop(found);
            json_in_larger(alloc, history, names, clients, findings, most)
        }
    }
}

// That list in words.
fn words_in_larger<N: Names>(
    alloc: Global,
    history: &LongHistory,
    names: &N,
    said: &LongFindings,
    most: u32,
) -> Result<String, AllocError>
    requires { AreFindingsOf Any (AnyHistory.Memory history.now) said.now.findings }
    ensures { IfOk result (λ text. AreLinesAfter Any most (AnyHistory.Memory history.now) said.now.findings (string_bytes text)) }
{
    let first = long_text_in_list(alloc, history, names, said)?;
    let mut lines = fault_lines_of(alloc, history, names, most)?;
    push_remark(alloc, names, &mut lines)?;
    joined(alloc, &first, &lines, most)
}

// That list as JSON.
fn json_in_larger<N: Names>(
    alloc: Global,
    history: &LongHistory,
    names: &N,
    clients: Clients,
    findings: Findings,
    most: u32,
) -> Result<String, AllocError>
    requires { AreFindingsOf Any (AnyHistory.Memory history.now) findings }
    ensures { IfOk result (λ text. IsListBy Any clients ListForm.Json most (AnyHistory.Memory history.now) (string_bytes text)) }
{
    match faults_of(alloc, history, names, most) {
        Ok(faults) => {
            let remarks = remarks_on_patterns(alloc, names, clients, &findings);
            text_of_parts(alloc, findings, remarks, faults)
        }
        Err(no_memory) => {
            drop(findings);
            Err(no_memory)
        }
    }
}

// The text of findings, and lines after it.
#[tactic(auto, using(crate::proofs::ListedTexts::lines_after))]
fn joined(alloc: Global, first: &str, lines: &[String], _most: u32) -> Result<String, AllocError>
    requires { length lines.now ≤ _most + OTHER_LINES }
    ensures { IfOk result (λ text. (long : Length) (history : Whole) (findings : Findings)
        → TellsEach long history findings first.now → AreLinesAfter long _most history findings (string_bytes text)) }
{
    let rest = indented_text(alloc, lines)?;
    format!(in alloc; "{first}{rest}")
}

// The faults of a memory history.
#[tactic(auto, using(crate::proofs::ListedTexts::first_faults))]
fn faults_of<N: Names>(
    alloc: Global,
    history: &LongHistory,
    names: &N,
    most: u32,
) -> Result<Option<Faults>, AllocError>
    ensures { IfOk result (AreFaultsIn most (AnyHistory.Memory history.now)) }
{
    match LongIndex::of(alloc, history)? {
        Some(index) => Ok(Some(find_faults(alloc, &index, names, most as usize)?)),
        None => Ok(None),
    }
}

// The faults of a history of any object: those of a memory.
#[tactic(auto, using(crate::proofs::ListedTexts::faults_of_long, crate::proofs::ListedTexts::no_faults))]
fn faults_of_any<N: Names>(
    alloc: Global,
    _history: &AnyHistory,
    long: Option<&LongHistory>,
    names: &N,
    most: u32,
) -> Result<Option<Faults>, AllocError>
    requires { IsLongOf _history.now (option_map (λ g. g.now) long) }
    ensures { IfOk result (AreFaultsIn most _history.now) }
{
    match long {
        Some(long) => faults_of(alloc, long, names, most),
        None => Ok(None),
    }
}

// Adds the remark of the names, if they make one: the first where they make more.
fn push_remark<N: Names>(
    alloc: Global,
    names: &N,
    lines: &mut Vec<String>,
) -> Result<(), AllocError>
    ensures { OnOk result (length lines.new.items ≤ length lines.old.items + 1) }
{
    let mut remarks = Vec::new(alloc);
    names.push_remarks(alloc, &mut remarks)?;
    remarks.truncate(1);
    if let Some(remark) = remarks.pop() {
        lines.push(remark)?;
    }
    Ok(())
}

// The lines on the faults of a history of any object.
fn fault_lines_of_any<N: Names>(
    alloc: Global,
    long: Option<&LongHistory>,
    names: &N,
    most: u32,
) -> Result<Vec<String>, AllocError>
    ensures { IfOk result (λ lines. length lines.items ≤ most + 25) }
{
    match long {
        Some(long) => fault_lines_of(alloc, long, names, most),
        None => one_line(alloc, "No faults of single reads are known of this object."),
    }
}

// The lines on the faults of a memory history: how many there are, and some of them.
fn fault_lines_of<N: Names>(
    alloc: Global,
    history: &LongHistory,
    names: &N,
    most: u32,
) -> Result<Vec<String>, AllocError>
    ensures { IfOk result (λ lines. length lines.items ≤ most + 25) }
{
    let Some(index) = LongIndex::of(alloc, history)? else {
        return one_line(
            alloc,
            "A read does not name its write, since values are not distinct: so no fault is known.",
        );
    };
    let lines = lines_of_index(alloc, &index, names, most);
    drop(index);
    lines
}

// The same of a history whose reads name their writes.
fn lines_of_index<N: Names>(
    alloc: Global,
    index: &LongIndex,
    names: &N,
    most: u32,
) -> Result<Vec<String>, AllocError>
    ensures { IfOk result (λ lines. length lines.items ≤ most + 25) }
{
    let found = find_faults(alloc, index, names, most as usize)?;
    let mut lines = count_lines(alloc, names, &found)?;
    push_faults(alloc, index, names, &found, &mut lines)?;
    Ok(lines)
}

// Adds a line for each fault that is listed.
fn push_faults<N: Names>(
    alloc: Global,
    index: &LongIndex,
    names: &N,
    found: &Faults,
    lines: &mut Vec<String>,
) -> Result<(), AllocError>
    ensures { OnOk result (length lines.new.items ≤ length lines.old.items + length found.now.listed.items) }
{
    let mut place: usize = 0;
    for fault in &found.listed {
        lines.push(fault_line(alloc, index, names, fault, found.broken.at(place))?)?;
        place = place.saturating_add(1);
    }
    Ok(())
}

fn one_line(alloc: Global, words: &'static str) -> Result<Vec<String>, AllocError>
    ensures { IfOk result (λ lines. length lines.items ≡ 1) }
{
    let mut lines = Vec::new(alloc);
    lines.push(String::from_str(alloc, words)?)?;
    Ok(lines)
}

// The JSON text of a report of these parts, if there are remarks.
fn text_of_parts(
    alloc: Global,
    findings: Findings,
    remarks: Result<Remarks, AllocError>,
    faults: Option<Faults>,
) -> Result<String, AllocError>
    ensures { (long : Length) (clients : Told) (most : ℕ) (history : Whole) → AreFindingsOf long history findings
        → IfOk remarks (EachIsRemark clients history findings) → AreFaultsIn most history faults
        → IfOk result (λ text. IsListBy long clients ListForm.Json most history (string_bytes text)) }
{
    match remarks {
        Ok(remarks) => {
            let report = FaultReport {
                findings,
                remarks,
                faults,
            };
            let text = text_of_report(alloc, &report);
            drop(report);
            text
        }
        Err(no_memory) => {
            drop((findings, faults));
            Err(no_memory)
        }
    }
}

// The JSON text of a report, and a line feed.
fn text_of_report(alloc: Global, report: &FaultReport) -> Result<String, AllocError>
    ensures whole { IfOk result (λ text. string_bytes text ≡ compact_text (fault_report_form report.now) ++ codes "\n") }
    ensures json { OnOk result (IsJson (compact_text (fault_report_form report.now)) (fault_report_form report.now)) }
{
    let value = value_of_report(alloc, report)?;
    line_of_value(alloc, &value)
}

// The form of a report.
fn value_of_report(alloc: Global, report: &FaultReport) -> Result<Value, AllocError>
    ensures { IfOk result (λ value. view value ≡ fault_report_form report.now) }
{
    let findings = findings_value(alloc, &report.findings, &report.remarks)?;
    let faults = value_of_faults(alloc, &report.faults)?;
    let mut values = Vec::new(alloc);
    values.push(findings)?;
    values.push(faults)?;
    Ok(Value::Array(values))
}

// The form of the faults, if there are any.
fn value_of_faults(alloc: Global, faults: &Option<Faults>) -> Result<Value, AllocError>
    ensures { IfOk result (λ value. view value ≡ list_form faults.now) }
{
    match faults {
        Some(faults) => faults_value(alloc, faults),
        None => Ok(Value::Null),
    }
}

// The text of what is found of a history within the limits.
fn text_in_list<N: Names>(
    alloc: Global,
    history: Examined<'_, '_>,
    names: &N,
    said: &Findings,
) -> Result<String, AllocError>
    ensures { IfOk result (λ text. TellsEach Limited (history_of history.entry) said.now (string_bytes text)) }
{
    let lines = lines_in_list(alloc, history, names, Criterion::Cc, &said.cc, None)?;
    let cc = text_with_lines(alloc, Criterion::Cc, &said.cc, &lines)?;
    let before = kind_in(&said.cc);
    let lines = lines_in_list(alloc, history, names, Criterion::Cm, &said.cm, before)?;
    let cm = text_with_lines(alloc, Criterion::Cm, &said.cm, &lines)?;
    let lines = lines_in_list(alloc, history, names, Criterion::Ccv, &said.ccv, before)?;
    let ccv = text_with_lines(alloc, Criterion::Ccv, &said.ccv, &lines)?;
    format!(in alloc; "{cc}{cm}{ccv}")
}

// The lines of a finding: none where the list has the reads that show it, or the kind was shown before.
fn lines_in_list<N: Names>(
    alloc: Global,
    history: Examined<'_, '_>,
    names: &N,
    criterion: Criterion,
    finding: &Finding,
    before: Option<Kind>,
) -> Result<Lines, AllocError>
    ensures { IfOk result (λ lines. IfSome lines.core (λ t. IsTextOfCore Limited (history_of history.entry) criterion (string_bytes t))) }
{
    if is_shown_apart(finding, before) {
        lines_of_finding(alloc, history, names, criterion, finding)
    } else {
        Ok(Lines::none(alloc))
    }
}

// The text of what is found of a history over the limits.
fn long_text_in_list<N: Names>(
    alloc: Global,
    history: &LongHistory,
    names: &N,
    said: &LongFindings,
) -> Result<String, AllocError>
    requires { AreFindingsOf Any (AnyHistory.Memory history.now) said.now.findings }
    ensures { IfOk result (λ text. TellsEach Any (AnyHistory.Memory history.now) said.now.findings (string_bytes text)) }
{
    let findings = &said.findings;
    let lines = long_lines_in_list(
        alloc,
        history,
        names,
        said,
        Criterion::Cc,
        &findings.cc,
        None,
    )?;
    let cc = text_with_lines(alloc, Criterion::Cc, &findings.cc, &lines)?;
    let before = kind_in(&findings.cc);
    let lines = long_lines_in_list(
        alloc,
        history,
        names,
        said,
        Criterion::Cm,
        &findings.cm,
        before,
    )?;
    let cm = text_with_lines(alloc, Criterion::Cm, &findings.cm, &lines)?;
    let lines = long_lines_in_list(
        alloc,
        history,
        names,
        said,
        Criterion::Ccv,
        &findings.ccv,
        before,
    )?;
    let ccv = text_with_lines(alloc, Criterion::Ccv, &findings.ccv, &lines)?;
    format!(in alloc; "{cc}{cm}{ccv}")
}

// The lines of a finding on a history over the limits, as above.
#[tactic(auto, using(crate::proofs::CoreLines::finding_against))]
fn long_lines_in_list<N: Names>(
    alloc: Global,
    history: &LongHistory,
    names: &N,
    said: &LongFindings,
    criterion: Criterion,
    finding: &Finding,
    before: Option<Kind>,
) -> Result<Lines, AllocError>
    requires { IsFinding (AnyHistory.Memory history.now) criterion finding.now }
    ensures { IfOk result (λ lines. IfSome lines.core (λ t. IsTextOfNo criterion (string_bytes t))) }
{
    match kind_in(finding) {
        Some(kind) if is_shown_apart(finding, before) => {
            lines_of_found(alloc, history, names, said, criterion, kind)
        }
        _ => Ok(Lines::none(alloc)),
    }
}

// The kind of a finding that is a no.
fn kind_in(finding: &Finding) -> Option<Kind>
    ensures { IfSome result (λ kind. answer_of finding.now ≡ Answer.No kind) }
{
    match finding {
        Finding::Shown(pattern) => Some(pattern.kind()),
        Finding::Present(kind) => Some(*kind),
        Finding::Met(_) | Finding::Unexplained(_, _) => None,
    }
}

// Whether a finding names a kind that no single read shows, and that was not shown before.
fn is_shown_apart(finding: &Finding, before: Option<Kind>) -> bool {
    match kind_in(finding) {
        None | Some(Kind::ThinAirRead | Kind::WriteCOInitRead | Kind::WriteCORead) => false,
        kind => kind != before,
    }
}
