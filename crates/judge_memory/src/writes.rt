//! The writes of a long history, and whether their values are distinct.

ghost use Rattle.std.specs.Prelude.{◌≢◌, ◌↔◌, ◌+◌, ◌<◌, All, length, IfOk, IsTrue, OnOk};
ghost use Rattle.order_causal.specs.Orders.{op};
ghost use Rattle.order_memory.specs.Memory.{initial, IsDifferentiated};
ghost use Rattle.order_memory.specs.Steps.Written.{ListsWritesBefore};
ghost use Rattle.judge_memory.specs.Writes.{ListsSortedWrites};

use crate::LongHistory;
use crate::reads::initial_value;
use model_history::OpId;
use model_objects::RegisterCall;
use order_memory::{Write, are_once};
use std::alloc::{AllocError, Global};

/// The writes of a history, by variable, value and operation.
///
/// Fails for want of memory alone. O(n log n + k) for n operations in k sessions.
pub(crate) fn sorted_writes(alloc: Global, h: &LongHistory) -> Result<Vec<Write>, AllocError>
    ensures { IfOk result (λ writes. ListsSortedWrites h.now writes.items) }
{
    let mut writes = Vec::with_capacity(alloc, h.operations())?;
    for session in 0..h.sessions() {
        push_writes(h, session, &mut writes)?;
    }
    writes.sort_unstable_by_key(|write| (write.key, write.value, write.op));
    Ok(writes)
}

/// Puts the writes of a session after those of the sessions before it.
fn push_writes(h: &LongHistory, session: usize, writes: &mut Vec<Write>) -> Result<(), AllocError>
    requires exists { session < length h.now.1 }
    requires so_far { ListsWritesBefore h.now (op session 0) writes.old.items }
    ensures { OnOk result (ListsWritesBefore h.now (op (session + 1) 0) writes.new.items) }
{
    for (index, (call, _)) in h.session(session).iter().enumerate() {
        if let RegisterCall::Write(value) = call.call {
            writes.push(Write {
                op: OpId::at(session, index),
                key: call.key,
                value,
            })?;
        }
    }
    Ok(())
}

/// Whether a history, whose writes these are, has distinct values: no variable is written twice with one value, and no write
/// writes its variable's initial value.
///
/// O(n log m) for n writes and m entries of the start.
pub(crate) fn are_distinct(h: &LongHistory, writes: &[Write]) -> bool
    requires { ListsSortedWrites h.now writes.now }
    ensures { IsTrue result ↔ IsDifferentiated h.now }
{
    are_once(writes) && are_not_initial(h, writes)
}

/// Whether none of the writes writes its variable's initial value.
fn are_not_initial(h: &LongHistory, writes: &[Write]) -> bool
    ensures { IsTrue result ↔ All (λ w. w.value ≢ initial h.now w.key) writes.now }
{
    writes
        .iter()
        .all(|write| write.value != initial_value(h, write.key))
}
