//! Findings as JSON.

ghost use Rattle.std.specs.Prelude.{◌≡◌, ◌++◌, ◌∷◌, [], codes, IfOk, OnOk, string_bytes};
ghost use Rattle.serde_json.specs.Data.{string};
ghost use Rattle.serde_json.specs.View.{view};
ghost use Rattle.serde_json.specs.Written.{compact_text};
ghost use Rattle.json_histories.specs.AnyForm.{IsJson};
ghost use Rattle.json_histories.specs.Json.{list};
ghost use Rattle.json_histories.specs.Reads.{list_form, number_form};
ghost use Rattle.app_explanations.specs.Certifying.{certified_form, proof_form, proved_form};
ghost use Rattle.app_explanations.specs.Explaining.{finding_form, findings_form, shown_form, word_of};
ghost use Rattle.app_explanations.specs.Remarks.{beside, remark_form};

use crate::remarks::{Remark, Remarks};
use crate::written::line_of_value;
use app_findings::{Finding, Findings};
use cert_check::Criterion;
use pattern_json::{certificate_value, op_value, pattern_value};
use serde_json::Value;
use std::alloc::{AllocError, Global};

/// The JSON text of findings without certificates, with these remarks, and a line feed.
///
/// Fails for want of memory alone. O(n) for n bytes of the text.
pub(crate) fn findings_text(
    alloc: Global,
    findings: &Findings,
    remarks: &Remarks,
) -> Result<String, AllocError>
    ensures whole { IfOk result (λ text. string_bytes text ≡ compact_text (findings_form findings.now remarks.now) ++ codes "\n") }
    ensures json { OnOk result (IsJson (compact_text (findings_form findings.now remarks.now)) (findings_form findings.now remarks.now)) }
{
    let value = findings_value(alloc, findings, remarks)?;
    line_of_value(alloc, &value)
}

/// The JSON text of findings with their certificates and these remarks, and a line feed.
///
/// Fails for want of memory alone. O(n) for n bytes of the text.
pub(crate) fn certified_text(
    alloc: Global,
    findings: &Findings,
    remarks: &Remarks,
) -> Result<String, AllocError>
    ensures whole { IfOk result (λ text. string_bytes text ≡ compact_text (certified_form findings.now remarks.now) ++ codes "\n") }
    ensures json { OnOk result (IsJson (compact_text (certified_form findings.now remarks.now)) (certified_form findings.now remarks.now)) }
{
    let value = certified_value(alloc, findings, remarks)?;
    line_of_value(alloc, &value)
}

/// The form of findings without certificates, with these remarks.
pub(crate) fn findings_value(
    alloc: Global,
    findings: &Findings,
    remarks: &Remarks,
) -> Result<Value, AllocError>
    ensures { IfOk result (λ value. view value ≡ findings_form findings.now remarks.now) }
{
    let cc = finding_value(alloc, Criterion::Cc, &findings.cc, &remarks.cc)?;
    let cm = finding_value(alloc, Criterion::Cm, &findings.cm, &remarks.cm)?;
    let ccv = finding_value(alloc, Criterion::Ccv, &findings.ccv, &remarks.ccv)?;
    list_of_three(alloc, cc, cm, ccv)
}

// The form of findings with their certificates and these remarks.
fn certified_value(
    alloc: Global,
    findings: &Findings,
    remarks: &Remarks,
) -> Result<Value, AllocError>
    ensures { IfOk result (λ value. view value ≡ certified_form findings.now remarks.now) }
{
    let cc = proved_value(alloc, Criterion::Cc, &findings.cc, &remarks.cc)?;
    let cm = proved_value(alloc, Criterion::Cm, &findings.cm, &remarks.cm)?;
    let ccv = proved_value(alloc, Criterion::Ccv, &findings.ccv, &remarks.ccv)?;
    list_of_three(alloc, cc, cm, ccv)
}

// The form of a finding for a criterion, with the remark on it.
fn finding_value(
    alloc: Global,
    criterion: Criterion,
    finding: &Finding,
    remark: &Option<Remark>,
) -> Result<Value, AllocError>
    ensures { IfOk result (λ value. view value ≡ finding_form criterion finding.now remark.now) }
{
    let name = text_value(alloc, criterion.name())?;
    let word = text_value(alloc, word_for(finding))?;
    list_with_remark(alloc, name, word, shown_value(alloc, finding)?, remark)
}

// The same with the certificate of what is met.
fn proved_value(
    alloc: Global,
    criterion: Criterion,
    finding: &Finding,
    remark: &Option<Remark>,
) -> Result<Value, AllocError>
    ensures { IfOk result (λ value. view value ≡ proved_form criterion finding.now remark.now) }
{
    let name = text_value(alloc, criterion.name())?;
    let word = text_value(alloc, word_for(finding))?;
    list_with_remark(alloc, name, word, proof_value(alloc, finding)?, remark)
}

// Whether the criterion is met.
fn word_for(finding: &Finding) -> &'static str
    ensures { result.now ≡ word_of finding.now }
{
    match finding {
        Finding::Met(_) => "yes",
        Finding::Shown(_) | Finding::Present(_) => "no",
        Finding::Unexplained(_, _) => "unknown",
    }
}

// What shows it, without certificates.
fn shown_value(alloc: Global, finding: &Finding) -> Result<Value, AllocError>
    ensures { IfOk result (λ value. view value ≡ shown_form finding.now) }
{
    match finding {
        Finding::Shown(pattern) => pattern_value(alloc, pattern),
        Finding::Present(kind) => text_value(alloc, kind.name()),
        Finding::Unexplained(Some(op), _) => op_value(alloc, *op),
        Finding::Met(_) | Finding::Unexplained(None, _) => Ok(Value::Null),
    }
}

// What shows it, with the certificate of what is met.
fn proof_value(alloc: Global, finding: &Finding) -> Result<Value, AllocError>
    ensures { IfOk result (λ value. view value ≡ proof_form finding.now) }
{
    match finding {
        Finding::Met(Some(certificate)) => certificate_value(alloc, certificate),
        Finding::Met(None) | Finding::Shown(_) | Finding::Present(_) | Finding::Unexplained(_, _) =>
            shown_value(alloc, finding),
    }
}

// The list of three values, and of the form of a remark after them, if there is one.
fn list_with_remark(
    alloc: Global,
    first: Value,
    second: Value,
    third: Value,
    remark: &Option<Remark>,
) -> Result<Value, AllocError>
    ensures { IfOk result (λ value. view value ≡ list (view first ∷ view second ∷ view third ∷ beside remark.now)) }
{
    match remark {
        Some(remark) => {
            let fourth = remark_value(alloc, remark)?;
            let values = vec![in alloc; first, second, third, fourth]?;
            Ok(Value::Array(values))
        }
        None => list_of_three(alloc, first, second, third),
    }
}

// The form of a remark.
fn remark_value(alloc: Global, remark: &Remark) -> Result<Value, AllocError>
    ensures { IfOk result (λ value. view value ≡ remark_form remark.now) }
{
    match remark {
        Remark::Breaks(guarantee) => text_value(alloc, guarantee.name()),
        Remark::Without(variables, kind) => {
            let variables = numbers_value(alloc, variables)?;
            let kind = text_value(alloc, kind.name())?;
            let values = vec![in alloc; variables, kind]?;
            Ok(Value::Array(values))
        }
    }
}

// The list of numbers.
fn numbers_value(alloc: Global, numbers: &[u32]) -> Result<Value, AllocError>
    ensures { IfOk result (λ value. view value ≡ list_form number_form numbers.now) }
{
    let mut values = Vec::new(alloc);
    for number in numbers {
        values.push(Value::from(u64::from(*number)))?;
    }
    Ok(Value::Array(values))
}

// A text as a JSON value.
fn text_value(alloc: Global, text: &str) -> Result<Value, AllocError>
    ensures { IfOk result (λ value. view value ≡ string text.now) }
{
    Ok(Value::String(String::from_str(alloc, text)?))
}

// The list of three values.
fn list_of_three(
    alloc: Global,
    first: Value,
    second: Value,
    third: Value,
) -> Result<Value, AllocError>
    ensures { IfOk result (λ value. view value ≡ list (view first ∷ view second ∷ view third ∷ [])) }
{
    let values = vec![in alloc; first, second, third]?;
    Ok(Value::Array(values))
}
