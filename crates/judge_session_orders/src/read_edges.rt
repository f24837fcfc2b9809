//! The reads of written values with their sources, from the last read of an order to the first. `leave_past` finds the past of a session
//! by them.

ghost use Rattle.std.specs.Prelude.{◌≡◌, ◌<◌, ℕ, [], length, IfOk, OnOk};
ghost use Rattle.model_history.specs.declared.op_id.OpId.{OpId as Operation};
ghost use Rattle.model_history.specs.History.{IsOp, number};
ghost use Rattle.judge_memory.specs.Steps.{IsOrderBy, many};
ghost use Rattle.judge_session_orders.specs.Pasts.{AreReadEdges, IsPushed};

use judge_memory::LongIndex;
use std::alloc::{AllocError, Global};

/// A known read of a written value and its source, by numbers.
#[derive(Clone, Copy, Debug)]
pub(crate) struct ReadEdge {
    /// The number of the read.
    pub(crate) read: u32,
    /// The session of the read.
    pub(crate) session: u32,
    /// The number after that of the source.
    pub(crate) end: u32,
    /// The session of the source.
    pub(crate) source_session: u32,
}

/// The edge of each known read of a written value, from the last read of the order to the first.
///
/// Fails for want of memory alone. O(n) for n operations. It takes 16 bytes a read.
pub(crate) fn read_edges(
    alloc: Global,
    index: &LongIndex,
    order: &[u32],
) -> Result<Vec<ReadEdge>, AllocError>
    requires { IsOrderBy index.now.history [] order.now }
    ensures { IfOk result (λ edges. AreReadEdges index.now.history order.now (length order.now) edges.items) }
{
    let mut edges = Vec::new(alloc);
    for i in 0..order.len() {
        push_edge(index, order[order.len() - 1 - i], &mut edges)?;
    }
    Ok(edges)
}

/// Pushes the edge of an operation, if it is such a read.
fn push_edge(index: &LongIndex, operation: u32, edges: &mut Vec<ReadEdge>) -> Result<(), AllocError>
    requires { operation < many index.now.history }
    ensures { OnOk result ((b : Operation) → IsOp index.now.history b → number index.now.history b ≡ operation
        → IsPushed index.now.history b edges.old.items edges.new.items) }
{
    // There are so few operations that the number after that of the source fits 32 bits.
    let _operations = index.operations();
    if let Some(source) = index.source(operation) {
        edges.push(ReadEdge {
            read: operation,
            session: index.session_of(operation),
            end: source + 1,
            source_session: index.session_of(source),
        })?;
    }
    Ok(())
}
