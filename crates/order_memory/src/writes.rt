//! The writes of a memory history, sorted by variable and value, and the search among them.

ghost use Rattle.std.specs.Prelude.{◌≡◌, ◌+◌, ◌<◌, ◌↔◌, length, Contains, IfOk, IsTrue, MatchOption, OnOk};
ghost use Rattle.order_causal.specs.Orders.{op};
ghost use Rattle.order_memory.specs.Steps.Written.{AreInOrder, IsLeastWrite, IsSorted, LacksWrite};
ghost use Rattle.order_memory.specs.Steps.Written.{ListsWrites, ListsWritesBefore};

use model_history::{History, OpId};
use model_objects::{Memory, RegisterCall};
use std::alloc::{AllocError, Global};

/// An operation that writes a value to a variable.
#[derive(Clone, Copy)]
pub struct Write {
    pub op: OpId,
    pub key: u32,
    pub value: u64,
}

/// The writes of a history, by variable, value and operation.
///
/// Fails for want of memory alone. O(n log n) for n operations.
pub fn sorted_writes(alloc: Global, h: &History<Memory>) -> Result<Vec<Write>, AllocError>
    ensures writes { IfOk result (λ writes. ListsWrites h.now writes.items) }
    ensures sorted { IfOk result (λ writes. IsSorted writes.items) }
    ensures in_order { IfOk result (λ writes. AreInOrder writes.items) }
{
    let mut writes = Vec::new(alloc);
    for session in 0..h.sessions() {
        push_writes(h, session, &mut writes)?;
    }
    writes.sort_unstable_by_key(|write| (write.key, write.value, write.op));
    Ok(writes)
}

/// Adds the writes of a session after those of the sessions before it.
fn push_writes(
    h: &History<Memory>,
    session: usize,
    writes: &mut Vec<Write>,
) -> Result<(), AllocError>
    requires exists { session < length h.now.1 }
    requires so_far { ListsWritesBefore h.now (op session 0) writes.old.items }
    ensures { OnOk result (ListsWritesBefore h.now (op (session + 1) 0) writes.new.items) }
{
    for (index, (call, _)) in h.session(session).iter().enumerate() {
        if let RegisterCall::Write(value) = call.call {
            let op = OpId::at(session, index);
            writes.push(Write {
                op,
                key: call.key,
                value,
            })?;
        }
    }
    Ok(())
}

/// Whether one of the writes, which are sorted, writes this value to this variable. O(log n) for n writes.
pub fn is_written(writes: &[Write], key: u32, value: u64) -> bool
    requires { IsSorted writes.now }
    ensures { IsTrue result ↔ ((w : Write) × Contains writes.now w × (w.key ≡ key) × (w.value ≡ value)) }
{
    writes
        .binary_search_by_key(&(key, value), |write| (write.key, write.value))
        .is_ok()
}

/// The first operation among the writes, which are sorted, that writes this value to this variable. O(log n) for n writes.
pub fn least_write(writes: &[Write], key: u32, value: u64) -> Option<OpId>
    requires sorted { IsSorted writes.now }
    requires in_order { AreInOrder writes.now }
    ensures { MatchOption result (LacksWrite writes.now key value) (IsLeastWrite writes.now key value) }
{
    let at = writes.partition_point(|write| (write.key, write.value) < (key, value));
    if at == writes.len() {
        return None;
    }
    let write = &writes[at];
    if write.key == key && write.value == value {
        Some(write.op)
    } else {
        None
    }
}
