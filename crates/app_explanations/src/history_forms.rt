//! What is found of a history within the limits, as JSON and as a picture.

ghost use Rattle.std.specs.Prelude.{IfOk, string_bytes};
ghost use Rattle.show_pictures.specs.Markup.{IsSvgElement};
ghost use Rattle.app_orders.specs.declared.length.Length.TheVariants.{Limited};
ghost use Rattle.app_explanations.specs.Certifying.{EachIsEvidence};
ghost use Rattle.app_explanations.specs.ExplanationTexts.{IsCertifiedJsonOf, IsJsonOf};
ghost use Rattle.app_explanations.specs.Report.{AreFindingsOf};

use crate::clients::Clients;
use crate::finding_forms::{certified_text, findings_text};
use crate::picturing::picture_of_findings;
use crate::remarks::remarks_on;
use app_findings::{Findings, Kept, PieceWork, findings_of};
use json_histories::AnyHistory;
use show_words::{Names, OwnNames};
use std::alloc::{AllocError, Global};

/// What is found of a history, as JSON: for each criterion whether it is met, what shows it, and the [remark](crate::Remark) on that.
/// A line feed ends the text.
///
/// Fails for want of memory alone. It costs what [`findings_of`] takes, with its patterns, the remarks, and O(n) for n bytes of the text.
pub fn json_of_history<W: PieceWork>(
    work: &W,
    alloc: Global,
    history: &AnyHistory,
) -> Result<String, AllocError>
    requires { W.can_check work.now }
    ensures { IfOk result (λ text. IsJsonOf Limited Clients.Sessions history.now (string_bytes text)) }
{
    json_with_names(work, alloc, history, &OwnNames, Clients::Sessions)
}

/// The same with these names, whose clients the sessions are of.
pub(crate) fn json_with_names<W: PieceWork, N: Names>(
    work: &W,
    alloc: Global,
    history: &AnyHistory,
    names: &N,
    clients: Clients,
) -> Result<String, AllocError>
    requires { W.can_check work.now }
    ensures { IfOk result (λ text. IsJsonOf Limited clients history.now (string_bytes text)) }
{
    let findings = findings_of(work, alloc, history, Kept::Patterns)?;
    let text = json_of_findings(alloc, history, names, clients, &findings);
    drop(findings);
    text
}

// The JSON text of what is found of a history.
fn json_of_findings<N: Names>(
    alloc: Global,
    history: &AnyHistory,
    names: &N,
    clients: Clients,
    findings: &Findings,
) -> Result<String, AllocError>
    requires { AreFindingsOf Limited history.now findings.now }
    ensures { IfOk result (λ text. IsJsonOf Limited clients history.now (string_bytes text)) }
{
    let remarks = remarks_on(alloc, history, names, clients, findings)?;
    let text = findings_text(alloc, findings, &remarks);
    drop(remarks);
    text
}

/// The same with the certificates of what is met. Causal memory may have none.
///
/// Fails for want of memory alone. It costs what [`findings_of`] takes, with its certificates, the remarks, and O(n) for n bytes of the
/// text.
pub fn certified_json_of_history<W: PieceWork>(
    work: &W,
    alloc: Global,
    history: &AnyHistory,
) -> Result<String, AllocError>
    requires { W.can_check work.now }
    ensures { IfOk result (λ text. IsCertifiedJsonOf history.now (string_bytes text)) }
{
    let findings = findings_of(work, alloc, history, Kept::Certificates)?;
    let text = certified_json_of_findings(alloc, history, &findings);
    drop(findings);
    text
}

// The JSON text of what is found of a history, with its certificates.
fn certified_json_of_findings(
    alloc: Global,
    history: &AnyHistory,
    findings: &Findings,
) -> Result<String, AllocError>
    requires { EachIsEvidence history.now findings.now }
    ensures { IfOk result (λ text. IsCertifiedJsonOf history.now (string_bytes text)) }
{
    let remarks = remarks_on(alloc, history, &OwnNames, Clients::Sessions, findings)?;
    let text = certified_text(alloc, findings, &remarks);
    drop(remarks);
    text
}

/// A history with what is found of it and these names, as a picture, an SVG text: with the pattern of the first criterion that is not met,
/// if one is at hand, and else all of the history, with the first operation that a certificate does not explain drawn out.
///
/// Fails for want of memory alone. It costs what [`findings_of`] takes, with its patterns, and drawing.
pub fn drawing_of_history<W: PieceWork, N: Names>(
    work: &W,
    alloc: Global,
    history: &AnyHistory,
    names: &N,
) -> Result<String, AllocError>
    requires { W.can_check work.now }
    ensures { IfOk result (λ svg. IsSvgElement (string_bytes svg)) }
{
    let findings = findings_of(work, alloc, history, Kept::Patterns)?;
    let svg = picture_of_findings(alloc, history, names, &findings);
    drop(findings);
    svg
}
