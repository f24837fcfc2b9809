//! The past of the last operation of a session.

ghost use Rattle.std.specs.Prelude.{◌≡◌, ◌↔◌, ℕ, [], ◌<◌, length};
ghost use Rattle.model_history.specs.declared.op_id.OpId.{OpId as Operation};
ghost use Rattle.model_history.specs.History.{IsOp};
ghost use Rattle.order_memory.specs.Memory.{IsDifferentiated};
ghost use Rattle.order_memory.specs.Relations.{IsPast};
ghost use Rattle.judge_memory.specs.Steps.{IsOrderBy};
ghost use Rattle.judge_session_orders.specs.Backward.{IsLeft, IsOpen};
ghost use Rattle.judge_session_orders.specs.Pasts.{AreReadEdges, IsRaised, IsReadEdge};
ghost use Rattle.judge_session_orders.specs.SessionOrders.{last_op};
ghost use Rattle.judge_session_orders.specs.Tables.{left_counts};

use crate::numbers::raise;
use crate::read_edges::ReadEdge;
use judge_memory::LongIndex;

/// Starts from a state with nothing left: leaves the past of the last operation of a session.
///
/// For each session, `ends` has the number after that of the last operation that is left. The edges are those of the reads of `_order`.
/// O(m) for m reads.
pub(crate) fn leave_past(
    index: &LongIndex,
    _order: &[u32],
    edges: &[ReadEdge],
    own: u32,
    ends: &mut Vec<u32>,
)
    requires distinct { IsDifferentiated index.now.history }
    requires order { IsOrderBy index.now.history [] _order.now }
    requires edges { AreReadEdges index.now.history _order.now (length _order.now) edges.now }
    requires exists { own < length index.now.history.1 }
    requires operation { IsOp index.now.history (last_op index.now.history own) }
    requires sessions { length ends.old.items ≡ length index.now.history.1 }
    requires none { (t : ℕ) → ¬ IsOpen (left_counts index.now.history ends.old.items) t }
    ensures sessions { length ends.new.items ≡ length ends.old.items }
    ensures left { (a : Operation) → IsLeft (left_counts index.now.history ends.new.items) a
        ↔ IsPast index.now.history (last_op index.now.history own) a }
{
    raise(ends, own, index.end(own));
    for i in 0..edges.len() {
        leave_source(index, &edges[i], ends);
    }
}

/// Leaves the source of a read and what precedes the source, if the read is left.
fn leave_source(_index: &LongIndex, edge: &ReadEdge, ends: &mut Vec<u32>)
    requires distinct { IsDifferentiated _index.now.history }
    requires below { edge.now.session < length ends.old.items }
    requires source_below { edge.now.source_session < length ends.old.items }
    ensures sessions { length ends.new.items ≡ length ends.old.items }
    ensures raised { (b : Operation) → IsReadEdge _index.now.history b edge.now
        → IsRaised _index.now.history b (left_counts _index.now.history ends.old.items)
        (left_counts _index.now.history ends.new.items) }
{
    if edge.read < ends[edge.session as usize] {
        raise(ends, edge.source_session, edge.end);
    }
}
