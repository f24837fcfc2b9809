//! A memory history of any length as a picture: the sessions of a pattern alone.

ghost use Rattle.std.specs.Prelude.{IfOk, IfSome, string_bytes};
ghost use Rattle.show_pictures.specs.Markup.{IsSvgElement};

use crate::broken::broken_by;
use crate::clients::Clients;
use crate::core_names::CoreNames;
use crate::long_explaining::LongFindings;
use crate::picturing::title_of;
use app_findings::Finding;
use cert_check::Criterion;
use json_histories::History;
use judge_cores::Gathered;
use judge_memory::LongHistory;
use model_objects::{Memory, Table};
use show_pictures::{Reason, picture_of_history, picture_of_pattern};
use show_words::{Names, OwnNames};
use std::alloc::{AllocError, Global};

/// The picture of the pattern of the first criterion that is not met, with these names. It shows the sessions of its operations alone, and
/// how many operations are left out between them. If no pattern is at hand, it shows only what is known of each criterion.
///
/// Fails for want of memory alone. It costs what [`picture_of_pattern`] takes for a few operations.
pub(crate) fn picture_of_long<N: Names>(
    alloc: Global,
    history: &LongHistory,
    names: &N,
    said: &LongFindings,
) -> Result<String, AllocError>
    ensures { IfOk result (λ svg. IsSvgElement (string_bytes svg)) }
{
    let findings = &said.findings;
    if let Some(svg) = picture_of_found(alloc, history, names, said, Criterion::Cc, &findings.cc)? {
        return Ok(svg);
    }
    if let Some(svg) = picture_of_found(alloc, history, names, said, Criterion::Cm, &findings.cm)? {
        return Ok(svg);
    }
    if let Some(svg) = picture_of_found(
        alloc,
        history,
        names,
        said,
        Criterion::Ccv,
        &findings.ccv,
    )? {
        return Ok(svg);
    }
    picture_of_title(alloc, said)
}

// The picture of what was gathered of a finding, if it shows a pattern.
fn picture_of_found<N: Names>(
    alloc: Global,
    history: &LongHistory,
    names: &N,
    said: &LongFindings,
    criterion: Criterion,
    finding: &Finding,
) -> Result<Option<String>, AllocError>
    ensures { IfOk result (λ made. IfSome made (λ svg. IsSvgElement (string_bytes svg))) }
{
    let Finding::Shown(pattern) = finding else {
        return Ok(None);
    };
    let Some(Gathered::Core(core)) = said.gathered(pattern.kind()) else {
        return Ok(None);
    };
    let reason = Reason {
        criterion,
        pattern: core.pattern(),
        broken: broken_by(alloc, names, Clients::Named, pattern)?,
    };
    let names = CoreNames {
        core,
        sessions: history.sessions(),
        whole: names,
    };
    Ok(Some(picture_of_pattern(alloc, core.history(), &names, reason)?))
}

// The picture of what is known of each criterion, and of no operation.
fn picture_of_title(alloc: Global, said: &LongFindings) -> Result<String, AllocError>
    ensures { IfOk result (λ svg. IsSvgElement (string_bytes svg)) }
{
    let mut lines = Vec::new(alloc);
    lines.push(title_of(alloc, &said.findings)?)?;
    let none: History<Memory> = History::of(Table::new(alloc), Vec::new(alloc));
    picture_of_history(alloc, &none, &OwnNames, lines.as_slice(), None)
}
