//! The vectors of the causal order of a memory history.

ghost use Rattle.std.specs.Prelude.{◌⊎◌, ◌↔◌, IfNone, IfOk, IfSome, IsNone};
ghost use Rattle.model_history.specs.declared.op_id.OpId.{OpId as Operation};
ghost use Rattle.order_memory.specs.Memory.{IsDifferentiated};
ghost use Rattle.order_memory.specs.SourceOrder.{CountsCO, CountsSourceOrder, IsCyclic, LacksSource, SourceOrder};

use crate::indexed::IndexedMemory;
use model_history::History;
use model_objects::Memory;
use order_causal::Vectors;
use std::alloc::{AllocError, Global};

/// For each operation of a memory history, how many operations of each session are in its past in the causal order, itself
/// among them.
///
/// The order is that of program order and sources: the source of a known read of a value that is not the initial one is the
/// first write of that value to its variable. Where values are distinct it is the causal order. `None` where the order has a
/// cycle, or where a known read returned a value that is not the initial one and that nobody writes.
///
/// Fails for want of memory alone. O(n (log n + k)) for n operations of k sessions. A caller that asks more of the history keeps
/// [`IndexedMemory`], which has these vectors and all that they are made of.
pub fn memory_order(alloc: Global, h: &History<Memory>) -> Result<Option<Vectors>, AllocError>
    ensures counted { IfOk result (λ order. IfSome order (CountsSourceOrder h.now)) }
    ensures none { IfOk result (λ order. IfNone order (((a : Operation) × SourceOrder h.now a a) ⊎ LacksSource h.now)) }
    ensures causal { IsDifferentiated h.now → IfOk result (λ order. IfSome order (CountsCO h.now)) }
    ensures exact { IsDifferentiated h.now → IfOk result (λ order. IsNone order ↔ (IsCyclic h.now ⊎ LacksSource h.now)) }
{
    let memory = IndexedMemory::of(alloc, h)?;
    Ok(memory.into_order())
}
