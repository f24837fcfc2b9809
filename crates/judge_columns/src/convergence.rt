//! Whether the conflicts of writes make a cycle.

ghost use Rattle.std.specs.Prelude.{ℕ, IfOk, IsPermutation};
ghost use Rattle.judge_memory.specs.Steps.{IsListedEdge};
ghost use Rattle.judge_memory.specs.Edges.{AreSortedEdges};
ghost use Rattle.judge_columns.specs.Conflicts.{IsConvergence, IsReducedIn};
ghost use Rattle.judge_columns.specs.Swept.{AreEdgesOf};

use judge_memory::{LongIndex, order};
use std::alloc::{AllocError, Global};

/// Whether the causal order and the conflicts of writes have no cycle together.
///
/// The edges represent all conflicts, as those of [`crate::sweep`] do. Fails for want of memory alone. O(e log e) for e edges, and the cost
/// of [`order`]. While it sorts, it takes 8 bytes an edge more.
pub fn is_convergent(
    alloc: Global,
    index: &LongIndex,
    edges: Vec<(u32, u32)>,
) -> Result<bool, AllocError>
    requires below { AreEdgesOf index.now.history edges.items }
    requires reduced { (t : ℕ) → IsReducedIn index.now.history t (IsListedEdge index.now.history edges.items) }
    ensures { IfOk result (IsConvergence index.now.history) }
{
    let edges = sorted(edges)?;
    match order(alloc, index, &edges)? {
        Some(_) => Ok(true),
        None => Ok(false),
    }
}

/// The edges, sorted by where they lead.
///
/// [`sweep`](crate::sweep) pushes one sorted run for each session, and [`sweep_in_threads`](crate::sweep_in_threads) one for each
/// worker. Both push one for each 128 sessions with one write. The stable sort merges long runs, which matter for time alone. Fails for
/// want of memory alone.
fn sorted(mut edges: Vec<(u32, u32)>) -> Result<Vec<(u32, u32)>, AllocError>
    ensures same { IfOk result (λ sorted. IsPermutation edges.items sorted.items) }
    ensures sorted { IfOk result (λ sorted. AreSortedEdges sorted.items) }
{
    edges.sort_by_key(|edge| edge.1)?;
    Ok(edges)
}
