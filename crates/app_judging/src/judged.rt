//! What judging asks of an object: a decision, a search for patterns, and a maker of certificates.

ghost use Rattle.std.specs.Prelude.{◌≡◌, ◌≢◌, List, Option, IfNone, IfOk, IfSome, IsSomeAnd};
ghost use Rattle.pattern_check.specs.declared.kind.Kind.{Kind as AnyKind};
ghost use Rattle.pattern_check.specs.Patterns.{kind_of};
ghost use Rattle.model_history.specs.History.{HistoryValue};
ghost use Rattle.cert_check.specs.declared.criterion.Criterion.{Criterion as AnyCriterion};
ghost use Rattle.cert_check.specs.Certificates.{HasShapeOf, IsExplainedThroughout, criterion_of};
ghost use Rattle.cert_check.specs.Criteria.{Meets};
ghost use Rattle.app_judging.specs.NamedKinds.{IfExcluded};

use cert_check::{Certificate, Criterion};
use judge_decision::Decision;
use model_history::{Advice, History};
use pattern_check::{Pattern, Refutable};
use std::alloc::{AllocError, Global};

/// An object whose histories are judged: how they are decided, how patterns are looked for, and how certificates are made.
///
/// A decision is true, and leaves some histories open. For some histories and criteria find and make are exact: if the criterion
/// is not met, a pattern is found, and if it is met, the certificate that is made explains every operation.
pub trait Judged: Refutable {
    /// Whether decide leaves no criterion of a history open.
    ghost resolves: { HistoryValue Self.Start Self.Call Self.Ret → Type 0 };

    /// Whether a decision may name a kind: for a memory, no kind before it is against the criterion and present.
    ghost names: { HistoryValue Self.Start Self.Call Self.Ret → AnyCriterion → AnyKind → Type 0 };

    /// Whether find and make are exact for a history and a criterion.
    ghost decides: { HistoryValue Self.Start Self.Call Self.Ret → AnyCriterion → Type 0 };

    /// Whether a pattern of a kind may be found: for a memory, what `pattern_search::find` says of its kind.
    ghost finds: { HistoryValue Self.Start Self.Call Self.Ret → AnyCriterion → AnyKind → Type 0 };

    /// What is decided of a history and a criterion without a certificate.
    ///
    /// Fails for want of memory alone.
    fn decide(
        alloc: Global,
        h: &History<Self>,
        criterion: Criterion,
    ) -> Result<Decision, AllocError>
        ensures meets { IfOk result (λ d. d ≡ Decision.Meets → Meets Self.answer h.now criterion) }
        ensures excluded { IfOk result (λ d. IfExcluded d (Self.excluded h.now criterion)) }
        ensures not_met { IfOk result (λ d. IfExcluded d (λ kind. ¬ Meets Self.answer h.now criterion)) }
        ensures kind { IfOk result (λ d. IfExcluded d (finds h.now criterion)) }
        ensures first { IfOk result (λ d. IfExcluded d (names h.now criterion)) }
        ensures decided { decides h.now criterion → IfOk result (λ d. d ≢ Decision.Open) }
        ensures resolved { resolves h.now → IfOk result (λ d. d ≢ Decision.Open) };

    /// A pattern that shows that the history does not meet the criterion, where the search finds one.
    ///
    /// Fails for want of memory alone.
    fn find(
        alloc: Global,
        h: &History<Self>,
        criterion: Criterion,
    ) -> Result<Option<Pattern>, AllocError>
        ensures found { IfOk result (λ found. IfSome found (Self.passes h.now criterion)) }
        ensures kind { IfOk result (λ found. IfSome found (λ pattern. finds h.now criterion (kind_of pattern))) }
        ensures decided { decides h.now criterion → IfOk result (λ found. IfNone found (Meets Self.answer h.now criterion)) };

    /// A certificate for the criterion, where one is made: from what a store reported of each operation, unless what the history
    /// says of itself decides. Empty advice is none. The checker of certificates decides whether the certificate explains the
    /// known returns: nobody trusts advice.
    ///
    /// Fails for want of memory alone.
    fn make(
        alloc: Global,
        h: &History<Self>,
        advice: &[Option<Advice>],
        criterion: Criterion,
    ) -> Result<Option<Certificate>, AllocError>
        ensures criterion { IfOk result (λ made. IfSome made (λ c. criterion_of c ≡ criterion)) }
        ensures shape { IfOk result (λ made. IfSome made (HasShapeOf h.now)) }
        ensures decided { decides h.now criterion → Meets Self.answer h.now criterion
            → IfOk result (λ made. IsSomeAnd made (IsExplainedThroughout Self.answer h.now)) };
}
