//! The vectors of the causal order of a memory history, found from the sources of its reads.

ghost use Rattle.std.specs.Prelude.{IfOk, MatchOption};
ghost use Rattle.order_memory.specs.SourceOrder.{CountsSourceOrder};
ghost use Rattle.order_memory.specs.Steps.Indexed.{IsUnordered, ListsReads, ListsSourcesIfAny};

use crate::known_reads::{KnownRead, lacks_source};
use crate::placing::{Sources, order_of};
use model_history::History;
use model_objects::Memory;
use order_causal::Vectors;
use std::alloc::{AllocError, Global};

/// Vectors of the causal order of a memory history: program order, and from the first write of a value that is not the
/// initial one to each known read that returned it.
///
/// `None` where that order is cyclic, or where a known read returned a value that is not the initial one and that nobody writes.
/// The law `laws::source_order_is_causal_order` says what this means on distinct values. Fails for want of memory alone. O(n k)
/// for n operations of k sessions.
pub(crate) fn order_by_sources(
    alloc: Global,
    h: &History<Memory>,
    sources: &Sources,
    reads: &[KnownRead],
) -> Result<Option<Vectors>, AllocError>
    requires sources { ListsSourcesIfAny h.now sources.now }
    requires reads { ListsReads h.now reads.now }
    ensures { IfOk result (λ order. MatchOption order (IsUnordered h.now) (CountsSourceOrder h.now)) }
{
    if lacks_source(h, reads) {
        return Ok(None);
    }
    order_of(alloc, h, sources)
}
