//! What the operations of a memory history wait for by its reads: sources, and writes that are in conflict with them.

ghost use Rattle.std.specs.Prelude.{IfOk};
ghost use Rattle.order_causal.specs.Vectors.{IsListed};
ghost use Rattle.order_causal.specs.Waits.{AreAlike, AreWaitsFor};
ghost use Rattle.order_memory.specs.Steps.Conflicts.{AddsWaits, IsDue, IsUpToWrite};

use crate::causal::CausalOrder;
use crate::known_reads::KnownRead;
use model_history::OpId;
use order_causal::Waits;
use std::alloc::{AllocError, Global};

/// Each read waits for its source, and the source for the writes of its variable that are in the past of the read.
///
/// Fails for want of memory alone. O(n k log n) for n operations of k sessions.
pub fn waits_with_conflicts(alloc: Global, order: &CausalOrder) -> Result<Waits, AllocError>
    ensures alike { IfOk result (λ waits. AreAlike waits order.now.1) }
    ensures exact { IfOk result (AreWaitsFor (IsDue order.now)) }
{
    let mut waits = Waits::of(alloc, order.history())?;
    for read in order.reads() {
        if let Some(source) = read.source {
            waits.add(read.op, source);
            add_past_writes(order, read, source, &mut waits);
        }
    }
    Ok(waits)
}

/// Lets the source of a read wait for the last write of its variable in each session, of those in the past of the read.
fn add_past_writes(order: &CausalOrder, read: &KnownRead, source: OpId, waits: &mut Waits)
    requires source { IsListed waits.old source }
    requires alike { AreAlike waits.old order.now.1 }
    ensures { AddsWaits (IsUpToWrite order.now read.now.key read.now.op) source waits.old waits.new }
{
    for session in 0..order.sessions() {
        if let Some(write) = order.last_write(read, session) {
            waits.add(source, write);
        }
    }
}
