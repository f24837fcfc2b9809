//! The trait of objects whose histories can be refuted by patterns, and its law.

ghost use Rattle.std.specs.Prelude.{◌↔◌, List, Option, IfOk, IsTrue};
ghost use Rattle.model_history.specs.History.{HistoryValue};
ghost use Rattle.cert_check.specs.declared.criterion.Criterion.{Criterion as AnyCriterion};
ghost use Rattle.cert_check.specs.Criteria.{Meets};
ghost use Rattle.pattern_check.specs.declared.kind.Kind.{Kind};
ghost use Rattle.pattern_check.specs.declared.pattern.Pattern.{Pattern as AnyPattern};
ghost use Rattle.pattern_check.specs.Patterns.{kind_of};

use crate::pattern::Pattern;
use cert_check::Criterion;
use model_history::History;
use model_object_trait::SeqObject;
use std::alloc::{AllocError, Global};

/// An object whose histories patterns may refute.
///
/// Its law holds for every implementation: a history for which a pattern passes does not meet the criterion.
pub trait Refutable: SeqObject {
    /// A pattern passes its test: it shows that a history does not meet a criterion.
    ghost passes: { HistoryValue Self.Start Self.Call Self.Ret → AnyCriterion → AnyPattern → Type 0 };

    /// A kind of pattern excludes a criterion for a history.
    ghost excluded: { HistoryValue Self.Start Self.Call Self.Ret → AnyCriterion → Kind → Type 0 };

    /// Whether a pattern shows that the history does not meet the criterion.
    ///
    /// Fails for want of memory alone.
    fn check_pattern(
        alloc: Global,
        h: &History<Self>,
        criterion: Criterion,
        pattern: &Pattern,
    ) -> Result<bool, AllocError>
        ensures { IfOk result (λ yes. IsTrue yes ↔ passes h.now criterion pattern.now) };

    /// The kind of a pattern that passes excludes the criterion, and the history does not meet it. The function does nothing:
    /// what it ensures is the law.
    fn passing_patterns_exclude()
        ensures excluded { (h : HistoryValue Self.Start Self.Call Self.Ret) (criterion : AnyCriterion) (pattern : AnyPattern)
            → passes h criterion pattern → excluded h criterion (kind_of pattern) }
        ensures not_met { (h : HistoryValue Self.Start Self.Call Self.Ret) (criterion : AnyCriterion) (pattern : AnyPattern)
            → passes h criterion pattern → ¬ Meets Self.answer h criterion };
}
