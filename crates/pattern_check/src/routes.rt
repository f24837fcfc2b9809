//! Where the paths of a pattern go.

ghost use Rattle.std.specs.Prelude.{◌↔◌, IsTrue, MatchOption};
ghost use Rattle.model_history.specs.declared.op_id.OpId.{OpId};
ghost use Rattle.order_memory.specs.Relations.{IsEdge};
ghost use Rattle.order_causal.specs.Orders.{IsPath};
ghost use Rattle.pattern_check.specs.Paths.{GoesFrom};
ghost use Rattle.pattern_check.specs.Patterns.{ArePathsToOverwrittenRead, IsCyclicPath, IsPathToInitialRead};

use crate::edges::{are_rival_writes, is_edge, reads_from, reads_initial};
use crate::known_memory::KnownMemory;
use crate::path::Path;
use model_history::OpId;

/// Whether each of the operations is joined to the next by an edge of the causal order.
fn is_path<M: KnownMemory>(h: &M, ops: &[OpId]) -> bool
    ensures { IsTrue result ↔ IsPath (IsEdge (M.history h.now)) ops.now }
{
    for i in 1..ops.len() {
        if !is_edge(h, ops[i - 1], ops[i]) {
            return false;
        }
    }
    true
}

/// The first and the last operation of a path, if it is a path of the history's causal order.
///
/// For each operation of the path it asks at most for its entry and its source.
pub fn ends_of<M: KnownMemory>(h: &M, path: &Path) -> Option<(OpId, OpId)>
    ensures { MatchOption result ((a b : OpId) → ¬ GoesFrom (M.history h.now) path.now a b)
        (λ ends. GoesFrom (M.history h.now) path.now ends.0 ends.1) }
{
    let ops = path.ops();
    if !is_path(h, ops) {
        return None;
    }
    let (Some(first), Some(last)) = (ops.first(), ops.last()) else {
        return None;
    };
    Some((*first, *last))
}

/// Whether a path with an edge ends where it begins. The cost is that of `ends_of`.
pub fn is_cyclic_path<M: KnownMemory>(h: &M, path: &Path) -> bool
    ensures { IsTrue result ↔ IsCyclicPath (M.history h.now) path.now }
{
    let Some(ends) = ends_of(h, path) else {
        return false;
    };
    path.ops().len() > 1 && ends.0 == ends.1
}

/// Whether a path goes from a write to a read of the initial value of its variable. The cost is that of `ends_of`.
pub fn is_path_to_initial_read<M: KnownMemory>(h: &M, path: &Path) -> bool
    ensures { IsTrue result ↔ IsPathToInitialRead (M.history h.now) path.now }
{
    let Some(ends) = ends_of(h, path) else {
        return false;
    };
    reads_initial(h, ends.0, ends.1)
}

/// Whether the first path goes from a write to another write of its variable, and the second from there to a read that
/// reads from the first write. The cost is that of `ends_of` for both.
pub fn are_paths_to_overwritten_read<M: KnownMemory>(h: &M, first: &Path, second: &Path) -> bool
    ensures { IsTrue result ↔ ArePathsToOverwrittenRead (M.history h.now) first.now second.now }
{
    let (Some(above), Some(below)) = (ends_of(h, first), ends_of(h, second)) else {
        return false;
    };
    above.1 == below.0 && reads_from(h, above.0, below.1) && are_rival_writes(h, above.0, above.1)
}
