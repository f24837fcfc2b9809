//! The judging of memory histories, by a decision, by a search for patterns and by the sources of the reads.

ghost use Rattle.std.specs.Prelude.{◌≡◌, ◌≢◌, IfNone, IfOk, IfSome, IsSomeAnd};
ghost use Rattle.pattern_check.specs.Kinds.{IsTrueNo};
ghost use Rattle.pattern_check.specs.Patterns.{IsBadPattern, kind_of};
ghost use Rattle.cert_check.specs.Certificates.{HasShapeOf, IsExplainedThroughout, criterion_of};
ghost use Rattle.cert_check.specs.Criteria.{Meets};
ghost use Rattle.cert_check.specs.declared.criterion.Criterion.TheVariants.{Cc, Ccv, Cm};
ghost use Rattle.order_memory.specs.Memory.{IsDifferentiated, memory_answer};
ghost use Rattle.app_judging.specs.Decided.{HasFewRaises, IsDecided};
ghost use Rattle.app_judging.specs.NamedKinds.{IfExcluded};
ghost use Rattle.pattern_search.specs.FirstKinds.{ComesFirst, ComesFirstOrLarge};

use crate::judged::Judged;
use cert_check::{Certificate, Criterion};
use judge_decision::Decision;
use model_history::{Advice, History};
use model_objects::Memory;
use order_memory::IndexedMemory;
use pattern_check::Pattern;
use pattern_check::laws::{bad_patterns_exclude_criteria, present_kinds_exclude_criteria};
use std::alloc::{AllocError, Global};

impl Judged for Memory {
    ghost resolves = { IsDifferentiated };

    ghost names = { ComesFirst };

    ghost decides = { IsDecided };

    ghost finds = { ComesFirstOrLarge };

    fn decide(
        alloc: Global,
        h: &History<Memory>,
        criterion: Criterion,
    ) -> Result<Decision, AllocError> {
        decide(alloc, h, criterion)
    }

    fn find(
        alloc: Global,
        h: &History<Memory>,
        criterion: Criterion,
    ) -> Result<Option<Pattern>, AllocError> {
        find(alloc, h, criterion)
    }

    fn make(
        alloc: Global,
        h: &History<Memory>,
        advice: &[Option<Advice>],
        criterion: Criterion,
    ) -> Result<Option<Certificate>, AllocError> {
        match criterion {
            Criterion::Cc => make_for_consistency(alloc, h, advice),
            Criterion::Cm => make_for_causal_memory(alloc, h, advice),
            Criterion::Ccv => make_for_convergence(alloc, h, advice),
        }
    }
}

/// What is decided of a memory history and a criterion: it is open exactly where values are not distinct.
fn decide(alloc: Global, h: &History<Memory>, criterion: Criterion) -> Result<Decision, AllocError>
    ensures meets { IfOk result (λ d. d ≡ Decision.Meets → Meets memory_answer h.now criterion) }
    ensures excluded { IfOk result (λ d. IfExcluded d (IsTrueNo h.now criterion)) }
    ensures not_met { IfOk result (λ d. IfExcluded d (λ kind. ¬ Meets memory_answer h.now criterion)) }
    ensures kind { IfOk result (λ d. IfExcluded d (ComesFirstOrLarge h.now criterion)) }
    ensures first { IfOk result (λ d. IfExcluded d (ComesFirst h.now criterion)) }
    ensures decided { IsDecided h.now criterion → IfOk result (λ d. d ≢ Decision.Open) }
    ensures resolved { IsDifferentiated h.now → IfOk result (λ d. d ≢ Decision.Open) }
{
    bad_patterns_exclude_criteria();
    let memory = IndexedMemory::of(alloc, h)?;
    judge_decision::decide(alloc, &memory, criterion)
}

/// A pattern that shows that a memory history does not meet a criterion.
fn find(
    alloc: Global,
    h: &History<Memory>,
    criterion: Criterion,
) -> Result<Option<Pattern>, AllocError>
    ensures found { IfOk result (λ found. IfSome found (IsBadPattern h.now criterion)) }
    ensures kind { IfOk result (λ found. IfSome found (λ pattern. ComesFirstOrLarge h.now criterion (kind_of pattern))) }
    ensures decided { IsDecided h.now criterion → IfOk result (λ found. IfNone found (Meets memory_answer h.now criterion)) }
{
    h.value_is_history();
    match pattern_search::find(alloc, h, criterion)? {
        Some(pattern) => Ok(Some(pattern)),
        None => Ok(None),
    }
}

/// A certificate of causal consistency of a memory history.
fn make_for_consistency(
    alloc: Global,
    h: &History<Memory>,
    advice: &[Option<Advice>],
) -> Result<Option<Certificate>, AllocError>
    ensures criterion { IfOk result (λ made. IfSome made (λ c. criterion_of c ≡ Cc)) }
    ensures shape { IfOk result (λ made. IfSome made (HasShapeOf h.now)) }
    ensures decided { IsDifferentiated h.now → Meets memory_answer h.now Cc
        → IfOk result (λ made. IsSomeAnd made (IsExplainedThroughout memory_answer h.now)) }
{
    present_kinds_exclude_criteria();
    cert_make_cc::make_memory(alloc, h, advice)
}

/// A certificate of causal memory of a memory history.
fn make_for_causal_memory(
    alloc: Global,
    h: &History<Memory>,
    advice: &[Option<Advice>],
) -> Result<Option<Certificate>, AllocError>
    ensures criterion { IfOk result (λ made. IfSome made (λ c. criterion_of c ≡ Cm)) }
    ensures shape { IfOk result (λ made. IfSome made (HasShapeOf h.now)) }
    ensures decided { IsDifferentiated h.now → HasFewRaises h.now → Meets memory_answer h.now Cm
        → IfOk result (λ made. IsSomeAnd made (IsExplainedThroughout memory_answer h.now)) }
{
    present_kinds_exclude_criteria();
    cert_make_cm::make_memory(alloc, h, advice)
}

/// A certificate of causal convergence of a memory history.
fn make_for_convergence(
    alloc: Global,
    h: &History<Memory>,
    advice: &[Option<Advice>],
) -> Result<Option<Certificate>, AllocError>
    ensures criterion { IfOk result (λ made. IfSome made (λ c. criterion_of c ≡ Ccv)) }
    ensures shape { IfOk result (λ made. IfSome made (HasShapeOf h.now)) }
    ensures decided { IsDifferentiated h.now → Meets memory_answer h.now Ccv
        → IfOk result (λ made. IsSomeAnd made (IsExplainedThroughout memory_answer h.now)) }
{
    present_kinds_exclude_criteria();
    cert_make_ccv::make_memory(alloc, h, advice)
}
