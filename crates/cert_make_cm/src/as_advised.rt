//! Certificates from what a store reported, or as they are made without it.

ghost use Rattle.std.specs.Prelude.{◌≡◌, ◌⊎◌, IfNone, IfOk, IfSome, IsSome, IsSomeAnd};
ghost use Rattle.order_memory.specs.HappenedBeforePatterns.{HasStartOverwrittenInHB};
ghost use Rattle.order_memory.specs.Memory.{memory_answer, IsDifferentiated};
ghost use Rattle.order_memory.specs.SourceOrder.{CountsSourceOrder, IsCyclic, LacksSource};
ghost use Rattle.cert_check.specs.Certificates.{criterion_of, HasShapeOf, IsExplainedThroughout, vectors_of};
ghost use Rattle.cert_make.specs.ByAdvice.{IsAsAdvised};
ghost use Rattle.cert_make.specs.MemoryAdvice.{AdviceDecides, IsMemoryByAdvice};
ghost use Rattle.cert_make_cm.specs.ByTurns.{HasNoTurns, IsByTurns};

use crate::by_happened_before::make_by_sources;
use cert_check::{Certificate, Criterion};
use cert_make::{advice_decides, make_as_advised, make_by_advice};
use model_history::{Advice, History};
use model_object_trait::SeqObject;
use model_objects::Memory;
use order_memory::IndexedMemory;
use std::alloc::{AllocError, Global};

/// The certificate of causal memory from what a store reported of each operation, or by program order alone where the advice is
/// empty or of another length than the history.
///
/// There always is one, of the shape of the history. The checker of certificates decides whether it explains the known
/// returns: nobody trusts advice. Fails for want of memory alone. O(n (n + k)) for n operations of k sessions
/// and orders of at most n entries; O(n (p + k)) without advice, for sessions of at most p operations.
pub fn make<O: SeqObject>(
    alloc: Global,
    h: &History<O>,
    advice: &[Option<Advice>],
) -> Result<Option<Certificate>, AllocError>
    ensures made { IfOk result (λ made. IsSome made) }
    ensures criterion { IfOk result (λ made. IfSome made (λ c. criterion_of c ≡ Criterion.Cm)) }
    ensures shape { IfOk result (λ made. IfSome made (HasShapeOf h.now)) }
    ensures exact { IfOk result (λ made. IfSome made (IsAsAdvised O.query h.now advice.now)) }
{
    Ok(Some(make_as_advised(alloc, h, advice, Criterion::Cm)?))
}

/// The certificate of causal memory of a memory history: from advice where there is any and values are not distinct, else
/// by its happened-before relations: the past of an operation is what is before it in the order that program order and the sources of
/// the reads make, and its schedule takes the operations of its session in turn, each after what its relation puts before it.
///
/// Where values are distinct the sources decide, whatever the advice. `None` where they leave no certificate. Fails for
/// want of memory alone. O(n (n + k)) for n operations of k sessions and orders of at most n entries where advice decides.
pub fn make_memory(
    alloc: Global,
    h: &History<Memory>,
    advice: &[Option<Advice>],
) -> Result<Option<Certificate>, AllocError>
    ensures criterion { IfOk result (λ made. IfSome made (λ c. criterion_of c ≡ Criterion.Cm)) }
    ensures shape { IfOk result (λ made. IfSome made (HasShapeOf h.now)) }
    ensures advised { AdviceDecides h.now advice.now → IfOk result (λ made. IsSomeAnd made (IsMemoryByAdvice h.now advice.now)) }
    ensures vectors { ¬ AdviceDecides h.now advice.now
        → IfOk result (λ made. IfSome made (λ c. CountsSourceOrder h.now (vectors_of c))) }
    ensures turns { IsDifferentiated h.now → IfOk result (λ made. IfSome made (IsByTurns h.now)) }
    ensures none { IsDifferentiated h.now → IfOk result (λ made. IfNone made ((IsCyclic h.now ⊎ LacksSource h.now) ⊎ HasNoTurns h.now)) }
    ensures some { IsDifferentiated h.now → IfOk result (λ made. IfSome made (λ _. ¬ HasNoTurns h.now)) }
    ensures explained { IsDifferentiated h.now → ¬ HasStartOverwrittenInHB h.now
        → IfOk result (λ made. IfSome made (IsExplainedThroughout memory_answer h.now)) }
{
    let memory = IndexedMemory::of(alloc, h)?;
    make_indexed(alloc, &memory, advice)
}

/// The certificate that [`make_memory`] makes, for a caller that has what is known of the history already.
///
/// Fails for want of memory alone. It costs what [`make_memory`] takes, without making what is known.
pub fn make_indexed(
    alloc: Global,
    memory: &IndexedMemory,
    advice: &[Option<Advice>],
) -> Result<Option<Certificate>, AllocError>
    ensures criterion { IfOk result (λ made. IfSome made (λ c. criterion_of c ≡ Criterion.Cm)) }
    ensures shape { IfOk result (λ made. IfSome made (HasShapeOf memory.now)) }
    ensures advised { AdviceDecides memory.now advice.now → IfOk result (λ made. IsSomeAnd made (IsMemoryByAdvice memory.now advice.now)) }
    ensures vectors { ¬ AdviceDecides memory.now advice.now
        → IfOk result (λ made. IfSome made (λ c. CountsSourceOrder memory.now (vectors_of c))) }
    ensures turns { IsDifferentiated memory.now → IfOk result (λ made. IfSome made (IsByTurns memory.now)) }
    ensures none { IsDifferentiated memory.now
        → IfOk result (λ made. IfNone made ((IsCyclic memory.now ⊎ LacksSource memory.now) ⊎ HasNoTurns memory.now)) }
    ensures some { IsDifferentiated memory.now → IfOk result (λ made. IfSome made (λ _. ¬ HasNoTurns memory.now)) }
    ensures explained { IsDifferentiated memory.now → ¬ HasStartOverwrittenInHB memory.now
        → IfOk result (λ made. IfSome made (IsExplainedThroughout memory_answer memory.now)) }
{
    if advice_decides(memory, advice) {
        Ok(Some(make_by_advice(alloc, memory.history(), advice, Criterion::Cm)?))
    } else {
        make_by_sources(alloc, memory)
    }
}
