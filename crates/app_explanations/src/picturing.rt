//! A history as a picture, with the pattern of its first `no`.

ghost use Rattle.std.specs.Prelude.{IfOk, IfSome, string_bytes};
ghost use Rattle.show_pictures.specs.Markup.{IsSvgElement};

use crate::broken::broken_by;
use crate::clients::Clients;
use crate::report::report_line;
use app_findings::{Finding, Findings};
use cert_check::Criterion;
use json_histories::{AnyHistory, History, OpId};
use model_objects::Memory;
use show_pictures::{Labelled, Reason, picture_of_history, picture_of_pattern};
use show_words::Names;
use std::alloc::{AllocError, Global};

/// The picture of a history, as an SVG text, with what is found of it and these names: with the pattern of the first criterion that is not
/// met, if one is at hand, and else all of the history, with the first operation that a certificate does not explain drawn out. For objects
/// other than a memory no patterns are known.
///
/// Fails for want of memory alone. It costs what drawing takes.
pub(crate) fn picture_of_findings<N: Names>(
    alloc: Global,
    history: &AnyHistory,
    names: &N,
    findings: &Findings,
) -> Result<String, AllocError>
    ensures { IfOk result (λ svg. IsSvgElement (string_bytes svg)) }
{
    match history {
        AnyHistory::Register(plain) => picture_of_whole(alloc, plain.history(), names, findings),
        AnyHistory::Counter(plain) => picture_of_whole(alloc, plain.history(), names, findings),
        AnyHistory::Set(plain) => picture_of_whole(alloc, plain.history(), names, findings),
        AnyHistory::Queue(plain) => picture_of_whole(alloc, plain.history(), names, findings),
        AnyHistory::Memory(history) => picture_of_memory(alloc, history, names, findings),
        AnyHistory::Counters(history) => picture_of_whole(alloc, history, names, findings),
        AnyHistory::Sets(history) => picture_of_whole(alloc, history, names, findings),
        AnyHistory::Queues(history) => picture_of_whole(alloc, history, names, findings),
    }
}

// The picture of a history of a memory, with what is found of it.
fn picture_of_memory<N: Names>(
    alloc: Global,
    history: &History<Memory>,
    names: &N,
    findings: &Findings,
) -> Result<String, AllocError>
    ensures { IfOk result (λ svg. IsSvgElement (string_bytes svg)) }
{
    match picture_of_first(alloc, history, names, findings)? {
        Some(svg) => Ok(svg),
        None => picture_of_whole(alloc, history, names, findings),
    }
}

// The picture of the pattern of the first criterion that is not met, if a finding has one.
fn picture_of_first<N: Names>(
    alloc: Global,
    history: &History<Memory>,
    names: &N,
    findings: &Findings,
) -> Result<Option<String>, AllocError>
    ensures { IfOk result (λ made. IfSome made (λ svg. IsSvgElement (string_bytes svg))) }
{
    if let Some(svg) = picture_of_finding(alloc, history, names, Criterion::Cc, &findings.cc)? {
        return Ok(Some(svg));
    }
    if let Some(svg) = picture_of_finding(alloc, history, names, Criterion::Cm, &findings.cm)? {
        return Ok(Some(svg));
    }
    picture_of_finding(alloc, history, names, Criterion::Ccv, &findings.ccv)
}

// The picture of the pattern of a finding, if it has one.
fn picture_of_finding<N: Names>(
    alloc: Global,
    history: &History<Memory>,
    names: &N,
    criterion: Criterion,
    finding: &Finding,
) -> Result<Option<String>, AllocError>
    ensures { IfOk result (λ made. IfSome made (λ svg. IsSvgElement (string_bytes svg))) }
{
    match finding {
        Finding::Shown(pattern) => {
            let broken = broken_by(alloc, names, Clients::Named, pattern)?;
            let reason = Reason {
                criterion,
                pattern,
                broken,
            };
            Ok(Some(picture_of_pattern(alloc, history, names, reason)?))
        }
        Finding::Met(_) | Finding::Present(_) | Finding::Unexplained(_, _) => Ok(None),
    }
}

// The picture of all of a history, with what is found of it at its head.
fn picture_of_whole<O: Labelled, N: Names>(
    alloc: Global,
    history: &History<O>,
    names: &N,
    findings: &Findings,
) -> Result<String, AllocError>
    ensures { IfOk result (λ svg. IsSvgElement (string_bytes svg)) }
{
    let marked = first_unexplained(findings);
    let lines = lines_above(alloc, names, findings, marked)?;
    picture_of_history(alloc, history, names, lines.as_slice(), marked)
}

// The lines above a whole history: the title, and the sentence on the operation that is marked.
fn lines_above<N: Names>(
    alloc: Global,
    names: &N,
    findings: &Findings,
    marked: Option<OpId>,
) -> Result<Vec<String>, AllocError> {
    let mut lines = Vec::new(alloc);
    lines.push(title_of(alloc, findings)?)?;
    if let Some(op) = marked {
        lines.push(sentence_about(alloc, names, op)?)?;
    }
    Ok(lines)
}

/// The lines of a report, joined to one line.
pub(crate) fn title_of(alloc: Global, findings: &Findings) -> Result<String, AllocError> {
    let cc = report_line(alloc, Criterion::Cc, findings.cc.answer())?;
    let cm = report_line(alloc, Criterion::Cm, findings.cm.answer())?;
    let ccv = report_line(alloc, Criterion::Ccv, findings.ccv.answer())?;
    let cc = cc.trim_end();
    let cm = cm.trim_end();
    let ccv = ccv.trim_end();
    format!(in alloc; "{cc}, {cm}, {ccv}")
}

// The sentence on an operation that is not explained.
fn sentence_about<N: Names>(alloc: Global, names: &N, op: OpId) -> Result<String, AllocError> {
    let name = names.operation(alloc, op)?;
    format!(in alloc; "The certificate that was made does not explain {name}.")
}

// The first operation that is not explained.
fn first_unexplained(findings: &Findings) -> Option<OpId> {
    match unexplained_in(&findings.cc) {
        Some(op) => Some(op),
        None => match unexplained_in(&findings.cm) {
            Some(op) => Some(op),
            None => unexplained_in(&findings.ccv),
        },
    }
}

// The operation that a finding names as not explained.
fn unexplained_in(finding: &Finding) -> Option<OpId> {
    match finding {
        Finding::Unexplained(place, _) => *place,
        Finding::Met(_) | Finding::Shown(_) | Finding::Present(_) => None,
    }
}
