//! Cycles of the causal order, which are found by a topological sort.

ghost use Rattle.std.specs.Prelude.{IfOk, MatchOption};
ghost use Rattle.pattern_check.specs.Patterns.{IsCyclicPath};
ghost use Rattle.order_memory.specs.Memory.{IsDifferentiated};
ghost use Rattle.order_memory.specs.SourceOrder.{IsCyclic};
ghost use Rattle.order_memory.specs.Steps.Indexed.{ListsSourcesIfAny};

use model_history::History;
use model_objects::Memory;
use order_causal::{OrderOrCycle, topological_sort};
use order_memory::{Sources, waits_for_sources};
use pattern_check::Path;
use std::alloc::{AllocError, Global};

/// A path of the causal order from an operation to itself, where there is one.
///
/// The history has distinct values, and these are the sources of its operations. Fails for want of memory alone.
/// O(n k) for n operations of k sessions.
pub fn cyclic_order(
    alloc: Global,
    h: &History<Memory>,
    sources: &Sources,
) -> Result<Option<Path>, AllocError>
    requires sources { ListsSourcesIfAny h.now sources.now }
    requires differentiated { IsDifferentiated h.now }
    ensures { IfOk result (λ found. MatchOption found (¬ IsCyclic h.now) (IsCyclicPath h.now)) }
{
    let waits = waits_for_sources(alloc, h, sources)?;
    match topological_sort(alloc, &waits)? {
        OrderOrCycle::Order(_) => Ok(None),
        OrderOrCycle::Cycle(ops) => Ok(Some(Path::of(ops))),
    }
}
