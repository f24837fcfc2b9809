//! What is gathered, judged by itself.

ghost use Rattle.std.specs.Prelude.{IfOk, IfSome};
ghost use Rattle.judge_cores.specs.Cores.{IsCoreOfKind, IsShownAlone};
ghost use Rattle.judge_cores.specs.Gathered.{ShowsKind};

use crate::gathering::ops_of_kind;
use crate::long_core::{Gathered, LongCore};
use crate::part::Part;
use cert_check::Criterion;
use judge_memory::LongIndex;
use judge_subhistories::{ops_with_sources, with_fewest_operations};
use model_history::{History, OpId};
use model_objects::Memory;
use pattern_check::{Kind, Pattern};
use pattern_search::find;
use std::alloc::{AllocError, Global};

/// A few operations of a long history that show a kind of bad pattern by themselves. The kind is the first that is present against
/// the criterion.
///
/// It gathers them and judges them by themselves. It does not promise how many they are, nor that there is a core: mostly there is
/// one of a few operations. Fails for want of memory alone. O(n (k + log n)) for n operations of k sessions, and what
/// [`find`](pattern_search::find) takes for a history within the limits of `History`, twice.
pub fn core_of_kind(
    alloc: Global,
    index: &LongIndex,
    criterion: Criterion,
    kind: Kind,
) -> Result<Gathered, AllocError>
    ensures { IfOk result (ShowsKind criterion kind) }
{
    let ops = ops_of_kind(alloc, index, kind)?;
    match judged(alloc, index, criterion, kind, &ops)? {
        Some(core) => Ok(Gathered::Core(narrowed(alloc, index, criterion, kind, core)?)),
        None => Ok(Gathered::Operations(ops)),
    }
}

/// The part with these operations, which are in order, if it shows the kind by itself.
fn judged(
    alloc: Global,
    index: &LongIndex,
    criterion: Criterion,
    kind: Kind,
    ops: &[OpId],
) -> Result<Option<LongCore>, AllocError>
    ensures { IfOk result (λ found. IfSome found (IsCoreOfKind criterion kind)) }
{
    let Some(part) = Part::of(alloc, index.history(), ops)? else {
        return Ok(None);
    };
    let Part { history, places } = part;
    match pattern_of_kind(alloc, &history, criterion, kind)? {
        Some(pattern) => Ok(Some(LongCore {
            history,
            pattern,
            places,
        })),
        None => Ok(None),
    }
}

/// A pattern of the kind, if the search finds one and none of a kind before it.
fn pattern_of_kind(
    alloc: Global,
    history: &History<Memory>,
    criterion: Criterion,
    kind: Kind,
) -> Result<Option<Pattern>, AllocError>
    ensures { IfOk result (λ found. IfSome found (IsShownAlone criterion kind history.now)) }
{
    let Some(pattern) = find(alloc, history, criterion)? else {
        return Ok(None);
    };
    if pattern.kind() == kind {
        Ok(Some(pattern))
    } else {
        Ok(None)
    }
}

/// A core narrowed to the operations that its pattern with the fewest operations names, with the sources of their reads, if these
/// show the kind by themselves. Otherwise the core.
fn narrowed(
    alloc: Global,
    index: &LongIndex,
    criterion: Criterion,
    kind: Kind,
    core: LongCore,
) -> Result<LongCore, AllocError>
    requires { IsCoreOfKind criterion kind core }
    ensures { IfOk result (IsCoreOfKind criterion kind) }
{
    let LongCore {
        history,
        pattern,
        places,
    } = core;
    let pattern = with_fewest_operations(alloc, &history, criterion, pattern)?;
    let core = LongCore {
        history,
        pattern,
        places,
    };
    let named = ops_with_sources(alloc, core.history(), core.pattern())?;
    let mut ops = Vec::new(alloc);
    for op in &named {
        ops.push(core.in_whole(*op))?;
    }
    match judged(alloc, index, criterion, kind, &ops)? {
        Some(fewer) => Ok(fewer),
        None => Ok(core),
    }
}
