//! Certificates of memory histories by the writes that their reads read from, and the conflicts of the other writes with
//! these.

ghost use Rattle.std.specs.Prelude.{◌≡◌, ◌⊎◌, IfNone, IfOk, IfSome};
ghost use Rattle.model_history.specs.declared.op_id.OpId.{OpId as Operation};
ghost use Rattle.order_causal.specs.Orders.{Leads};
ghost use Rattle.std.specs.Prelude.{IsSome};
ghost use Rattle.order_memory.specs.Memory.{memory_answer};
ghost use Rattle.order_memory.specs.OverwrittenReads.{HasOverwrittenStart};
ghost use Rattle.order_memory.specs.Relations.{CF, CO};
ghost use Rattle.cert_check.specs.Certificates.{IsExplainedThroughout};
ghost use Rattle.order_memory.specs.SourceOrder.{LacksSource};
ghost use Rattle.cert_check.specs.Certificates.{criterion_of, HasShapeOf};
ghost use Rattle.cert_make_ccv.specs.ByConflicts.{ComesFirst, IsByConflicts};

use cert_check::{Arbitration, Certificate, Criterion};
use order_causal::{OrderOrCycle, topological_sort};
use order_memory::{CausalOrder, IndexedMemory, waits_with_conflicts};
use std::alloc::{AllocError, Global};

/// A certificate of causal convergence of a memory history: the past of an operation is what is before it in the order
/// that program order and the sources of the reads make, and the one list goes by the topological rule, where also a
/// write that is before a read comes before the read's source, if that is another write of its variable.
///
/// The source of a known read of a value that is not the initial one is the first write of that value. `None` where a
/// read has no source, or where that order and these conflicts are cyclic. The certificate explains all known returns
/// where none of them is an overwritten initial value; else the checker of certificates decides that. So on distinct
/// values, where no bad pattern against causal convergence is present, there is one and it shows the criterion. Fails for
/// want of memory alone. O(n k log n) for n operations of k sessions.
pub(crate) fn make_by_sources(
    alloc: Global,
    memory: &IndexedMemory,
) -> Result<Option<Certificate>, AllocError>
    ensures criterion { IfOk result (λ made. IfSome made (λ c. criterion_of c ≡ Criterion.Ccv)) }
    ensures shape { IfOk result (λ made. IfSome made (HasShapeOf memory.now)) }
    ensures exact { IfOk result (λ made. IfSome made (IsByConflicts memory.now)) }
    ensures none { IfOk result (λ made. IfNone made (LacksSource memory.now ⊎ ((a : Operation) × Leads (ComesFirst memory.now) a a))) }
    ensures made { ¬ LacksSource memory.now → ((a : Operation) → ¬ Leads (λ b c. CO memory.now b c ⊎ CF memory.now b c) a a)
        → IfOk result (λ made. IsSome made) }
    ensures explained { ¬ HasOverwrittenStart memory.now
        → IfOk result (λ made. IfSome made (IsExplainedThroughout memory_answer memory.now)) }
{
    memory.history().value_is_history();
    let Some(order) = memory.order() else {
        return Ok(None);
    };
    make_by_order(alloc, &order)
}

/// The same, by the causal order of the history.
///
/// `None` where the order and the conflicts are cyclic. Fails for want of memory alone. O(n k log n) for n operations of k
/// sessions.
fn make_by_order(alloc: Global, order: &CausalOrder) -> Result<Option<Certificate>, AllocError>
    ensures criterion { IfOk result (λ made. IfSome made (λ c. criterion_of c ≡ Criterion.Ccv)) }
    ensures shape { IfOk result (λ made. IfSome made (HasShapeOf order.now)) }
    ensures exact { IfOk result (λ made. IfSome made (IsByConflicts order.now)) }
    ensures none { IfOk result (λ made. IfNone made ((a : Operation) × Leads (ComesFirst order.now) a a)) }
{
    let waits = waits_with_conflicts(alloc, order)?;
    match topological_sort(alloc, &waits)? {
        OrderOrCycle::Order(list) => {
            let vectors = order.vectors().copy(alloc)?;
            Ok(Some(Certificate::Ccv(vectors, Arbitration::of(list))))
        }
        OrderOrCycle::Cycle(_) => Ok(None),
    }
}
