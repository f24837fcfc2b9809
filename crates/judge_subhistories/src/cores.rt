//! Cores, each judged by itself.

ghost use Rattle.std.specs.Prelude.{IfOk, IfSome, string_bytes};
ghost use Rattle.json_histories.specs.AnyForm.{IsJson, form_of};
ghost use Rattle.judge_subhistories.specs.Cores.{IsCoreOf, IsCoreText};

use crate::exclusion::exclusion_of;
use crate::gathering::ops_with_sources;
use cert_check::Criterion;
use cert_subhistories::{Listed, part_of};
use json_histories::{AnyHistory, write_history};
use model_history::History;
use model_objects::Memory;
use pattern_check::Pattern;
use std::alloc::{AllocError, Global};

/// The core of a pattern against a criterion: the operations of the pattern and the writes that its reads read from, as a history
/// of their own, where this does not meet the criterion by itself.
///
/// Sessions keep their numbers, and their operations their order. It is judged anew, and `None` is returned if it meets the
/// criterion, or if its values are not distinct. Fails for want of memory alone. O(n (m + log n)) for n operations and m of
/// the core, and what [`decide`](decision::decide) takes for the core.
pub fn core_of(
    alloc: Global,
    history: &History<Memory>,
    criterion: Criterion,
    pattern: &Pattern,
) -> Result<Option<History<Memory>>, AllocError>
    ensures { IfOk result (λ core. IfSome core (IsCoreOf history.now criterion)) }
{
    let ops = ops_with_sources(alloc, history, pattern)?;
    let part = part_of(alloc, history, &Listed(ops.as_slice()))?;
    match exclusion_of(alloc, &part, criterion)? {
        Some(decision) => {
            drop(decision);
            Ok(Some(part))
        }
        None => Ok(None),
    }
}

/// The core of a pattern as JSON text on one line, where it has one.
///
/// Fails for want of memory alone. It costs what [`core_of`] takes.
pub fn core_text(
    alloc: Global,
    history: &History<Memory>,
    criterion: Criterion,
    pattern: &Pattern,
) -> Result<Option<String>, AllocError>
    ensures { IfOk result (λ made. IfSome made (λ text. IsCoreText history.now criterion (string_bytes text))) }
{
    match core_of(alloc, history, criterion, pattern)? {
        Some(core) => Ok(Some(text_of(alloc, core)?)),
        None => Ok(None),
    }
}

/// A memory history as JSON text on one line.
///
/// Fails for want of memory alone. O(n) for n operations.
fn text_of(alloc: Global, history: History<Memory>) -> Result<String, AllocError>
    ensures { IfOk result (λ text. IsJson (string_bytes text) (form_of (AnyHistory.Memory history))) }
{
    write_history(alloc, &AnyHistory::Memory(history))
}
