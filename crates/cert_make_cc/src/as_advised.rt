//! Certificates from what a store reported, or made without it.

ghost use Rattle.std.specs.Prelude.{◌≡◌, ◌⊎◌, IfNone, IfOk, IfSome, IsSome, IsSomeAnd};
ghost use Rattle.model_history.specs.declared.op_id.OpId.{OpId as Operation};
ghost use Rattle.order_memory.specs.Memory.{memory_answer};
ghost use Rattle.order_memory.specs.OverwrittenReads.{HasOverwrittenRead, HasOverwrittenStart};
ghost use Rattle.order_memory.specs.SourceOrder.{IsCyclic, LacksSource, SourceOrder};
ghost use Rattle.cert_check.specs.Certificates.{criterion_of, HasShapeOf, IsExplainedThroughout};
ghost use Rattle.cert_make.specs.ByAdvice.{IsAsAdvised};
ghost use Rattle.cert_make.specs.MemoryAdvice.{AdviceDecides, IsMemoryByAdvice};
ghost use Rattle.cert_make_cc.specs.BySources.{IsBySources};

use crate::by_sources::make_by_sources;
use cert_check::{Certificate, Criterion};
use cert_make::{advice_decides, make_as_advised, make_by_advice};
use model_history::{Advice, History};
use model_object_trait::SeqObject;
use model_objects::Memory;
use order_memory::IndexedMemory;
use std::alloc::{AllocError, Global};

/// The certificate of causal consistency from what a store reported of each operation, or by program order alone where the advice
/// is empty or of another length than the history.
///
/// There always is one, of the shape of the history. The checker of certificates decides whether it explains the known
/// returns: nobody trusts advice. Fails for want of memory alone. O(n (n + k)) for n operations of k sessions and orders of
/// at most n entries; O(n (p + k)) without advice, for sessions of at most p operations.
pub fn make<O: SeqObject>(
    alloc: Global,
    h: &History<O>,
    advice: &[Option<Advice>],
) -> Result<Option<Certificate>, AllocError>
    ensures made { IfOk result (λ made. IsSome made) }
    ensures criterion { IfOk result (λ made. IfSome made (λ c. criterion_of c ≡ Criterion.Cc)) }
    ensures shape { IfOk result (λ made. IfSome made (HasShapeOf h.now)) }
    ensures exact { IfOk result (λ made. IfSome made (IsAsAdvised O.query h.now advice.now)) }
{
    Ok(Some(make_as_advised(alloc, h, advice, Criterion::Cc)?))
}

/// The certificate of causal consistency of a memory history: from advice where there is any and values are not distinct, else
/// by the sources of its reads. By the sources, the past of an operation is what is before it in the order that program order and
/// the sources make, and in the schedule of a read its source comes as late as this order lets it.
///
/// Where values are distinct the sources decide, whatever the advice. `None` where they leave no certificate. Fails for
/// want of memory alone. O(n (n + k)) for n operations of k sessions and orders of at most n entries where advice decides.
pub fn make_memory(
    alloc: Global,
    h: &History<Memory>,
    advice: &[Option<Advice>],
) -> Result<Option<Certificate>, AllocError>
    ensures criterion { IfOk result (λ made. IfSome made (λ c. criterion_of c ≡ Criterion.Cc)) }
    ensures shape { IfOk result (λ made. IfSome made (HasShapeOf h.now)) }
    ensures advised { AdviceDecides h.now advice.now → IfOk result (λ made. IsSomeAnd made (IsMemoryByAdvice h.now advice.now)) }
    ensures exact { ¬ AdviceDecides h.now advice.now → IfOk result (λ made. IfSome made (IsBySources h.now)) }
    ensures none { IfOk result (λ made. IfNone made (((a : Operation) × SourceOrder h.now a a) ⊎ LacksSource h.now)) }
    ensures made { ¬ IsCyclic h.now → ¬ LacksSource h.now → IfOk result (λ made. IsSome made) }
    ensures explained { ¬ AdviceDecides h.now advice.now → ¬ HasOverwrittenStart h.now → ¬ HasOverwrittenRead h.now
        → IfOk result (λ made. IfSome made (IsExplainedThroughout memory_answer h.now)) }
{
    let memory = IndexedMemory::of(alloc, h)?;
    make_indexed(alloc, &memory, advice)
}

/// The certificate that [`make_memory`] makes, for a caller that has what is known of the history already.
///
/// Fails for want of memory alone. What [`make_memory`] takes, without making what is known.
pub fn make_indexed(
    alloc: Global,
    memory: &IndexedMemory,
    advice: &[Option<Advice>],
) -> Result<Option<Certificate>, AllocError>
    ensures criterion { IfOk result (λ made. IfSome made (λ c. criterion_of c ≡ Criterion.Cc)) }
    ensures shape { IfOk result (λ made. IfSome made (HasShapeOf memory.now)) }
    ensures advised { AdviceDecides memory.now advice.now → IfOk result (λ made. IsSomeAnd made (IsMemoryByAdvice memory.now advice.now)) }
    ensures exact { ¬ AdviceDecides memory.now advice.now → IfOk result (λ made. IfSome made (IsBySources memory.now)) }
    ensures none { IfOk result (λ made. IfNone made (((a : Operation) × SourceOrder memory.now a a) ⊎ LacksSource memory.now)) }
    ensures made { ¬ IsCyclic memory.now → ¬ LacksSource memory.now → IfOk result (λ made. IsSome made) }
    ensures explained { ¬ AdviceDecides memory.now advice.now → ¬ HasOverwrittenStart memory.now → ¬ HasOverwrittenRead memory.now
        → IfOk result (λ made. IfSome made (IsExplainedThroughout memory_answer memory.now)) }
{
    if advice_decides(memory, advice) {
        Ok(Some(make_by_advice(alloc, memory.history(), advice, Criterion::Cc)?))
    } else {
        make_by_sources(alloc, memory)
    }
}
