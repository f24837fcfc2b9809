//! Certificates of histories of a memory.

ghost use Rattle.std.specs.Prelude.{◌≡◌, ◌≢◌, IfOk, IfSome, IsSome};
ghost use Rattle.cert_check.specs.Certificates.{Certifies, HasShapeOf, criterion_of};
ghost use Rattle.cert_check.specs.Criteria.{Meets};
ghost use Rattle.cert_check.specs.declared.criterion.Criterion.TheVariants.{Cc, Ccv, Cm};
ghost use Rattle.order_memory.specs.Memory.{IsDifferentiated, memory_answer};

use cert_check::{Certificate, Criterion};
use model_history::Advice;
use order_memory::IndexedMemory;
use pattern_check::laws::present_kinds_exclude_criteria;
use std::alloc::{AllocError, Global};

/// The certificate of a history of a memory, if one is made: from advice if that decides, else by the sources of its reads.
///
/// Fails for want of memory alone.
pub(crate) fn certificate_of(
    alloc: Global,
    memory: &IndexedMemory,
    advice: &[Option<Advice>],
    criterion: Criterion,
) -> Result<Option<Certificate>, AllocError>
    ensures criterion { IfOk result (λ made. IfSome made (λ c. criterion_of c ≡ criterion)) }
    ensures shape { IfOk result (λ made. IfSome made (HasShapeOf memory.now)) }
{
    match criterion {
        Criterion::Cc => cert_make_cc::make_indexed(alloc, memory, advice),
        Criterion::Cm => cert_make_cm::make_indexed(alloc, memory, advice),
        Criterion::Ccv => cert_make_ccv::make_indexed(alloc, memory, advice),
    }
}

/// The certificate of a history of a memory that meets a criterion. There is always one, except for causal memory.
///
/// Fails for want of memory alone.
pub(crate) fn certificate_of_met(
    alloc: Global,
    memory: &IndexedMemory,
    criterion: Criterion,
) -> Result<Option<Certificate>, AllocError>
    requires distinct { IsDifferentiated memory.now }
    requires met { Meets memory_answer memory.now criterion }
    ensures certified { IfOk result (λ made. IfSome made (Certifies memory_answer memory.now criterion)) }
    ensures made { criterion ≢ Cm → IfOk result (λ made. IsSome made) }
{
    match criterion {
        Criterion::Cc => certificate_of_consistent(alloc, memory),
        Criterion::Cm => certificate_of_causal_memory(alloc, memory),
        Criterion::Ccv => certificate_of_convergent(alloc, memory),
    }
}

// The certificate of a history of a memory that is causally consistent.
fn certificate_of_consistent(
    alloc: Global,
    memory: &IndexedMemory,
) -> Result<Option<Certificate>, AllocError>
    requires distinct { IsDifferentiated memory.now }
    requires met { Meets memory_answer memory.now Cc }
    ensures certified { IfOk result (λ made. IfSome made (Certifies memory_answer memory.now Cc)) }
    ensures made { IfOk result (λ made. IsSome made) }
{
    present_kinds_exclude_criteria();
    cert_make_cc::make_indexed(alloc, memory, &[])
}

// The certificate of a history of a memory that meets causal memory, if one is made.
fn certificate_of_causal_memory(
    alloc: Global,
    memory: &IndexedMemory,
) -> Result<Option<Certificate>, AllocError>
    requires distinct { IsDifferentiated memory.now }
    requires met { Meets memory_answer memory.now Cm }
    ensures certified { IfOk result (λ made. IfSome made (Certifies memory_answer memory.now Cm)) }
{
    present_kinds_exclude_criteria();
    cert_make_cm::make_indexed(alloc, memory, &[])
}

// The certificate of a history of a memory that is causally convergent.
fn certificate_of_convergent(
    alloc: Global,
    memory: &IndexedMemory,
) -> Result<Option<Certificate>, AllocError>
    requires distinct { IsDifferentiated memory.now }
    requires met { Meets memory_answer memory.now Ccv }
    ensures certified { IfOk result (λ made. IfSome made (Certifies memory_answer memory.now Ccv)) }
    ensures made { IfOk result (λ made. IsSome made) }
{
    present_kinds_exclude_criteria();
    cert_make_ccv::make_indexed(alloc, memory, &[])
}
