//! An order of operations by the topological rule, or a cycle where there is none.

ghost use Rattle.std.specs.Prelude.{◌<◌, ℕ, length, slice_index_or, IfOk, MatchOption, []};
ghost use Rattle.order_causal.specs.Steps.Waiting.{IsOpen};
ghost use Rattle.order_causal.specs.Waits.{AreWaits, IsSorted};

use crate::by_operation::Vectors;
use crate::limits::limits_of;
use crate::topological::Walk;
use crate::waiting_cycle::cycle_from;
use crate::waits::Waits;
use model_history::OpId;
use std::alloc::{AllocError, Global};

/// The result of a topological sort of operations.
#[derive(Debug, Drop)]
pub enum OrderOrCycle {
    /// For each operation its session, in an order in which each operation comes after those before it in its session and after
    /// those that it waits for.
    Order(Vec<u8>),
    /// Operations: each comes before the next one in their session, or the next one waits for it. The last is the first.
    Cycle(Vec<OpId>),
}

/// An order of all operations in which each comes after those that it waits for, or operations that wait for one another.
///
/// The order follows the topological rule: it takes again and again the next operation of the least session whose next operation
/// waits for nothing that is not placed. A cycle has two operations at least, and at most two of each session and one more. Fails
/// for want of memory alone. O(n k) for n operations of k sessions.
pub fn topological_sort(alloc: Global, waits: &Waits) -> Result<OrderOrCycle, AllocError>
    ensures sorted { IfOk result (IsSorted waits.now) }
    ensures kept { IfOk result (λ _. AreWaits waits.now) }
{
    let counts = waits.counts();
    let limits = limits_of(alloc, counts)?;
    let mut walk = Walk::new(alloc);
    walk.run_to(counts, &limits)?;
    match open_session(counts, &walk) {
        Some(session) => Ok(OrderOrCycle::Cycle(cycle_from(alloc, counts, &walk, session)?)),
        None => Ok(OrderOrCycle::Order(walk.into_schedule())),
    }
}

/// The first session that has an operation that isn't placed.
fn open_session(waits: &Vectors, walk: &Walk) -> Option<usize>
    requires { AreWaits waits.now }
    ensures { MatchOption result ((s : ℕ) → ¬ IsOpen waits.now walk.now s) (IsOpen waits.now walk.now) }
{
    for session in 0..waits.sessions() {
        if walk.placed(session) < waits.operations(session) {
            return Some(session);
        }
    }
    None
}
