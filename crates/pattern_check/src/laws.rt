//! What holds of bad patterns. The functions do nothing: what they ensure is the law.

ghost use Rattle.std.specs.Prelude.{IsTrue};
ghost use Rattle.order_memory.specs.Memory.{MemoryHistory, memory_answer};
ghost use Rattle.cert_check.specs.Criteria.{Meets};
ghost use Rattle.pattern_check.specs.Kinds.{is_against, IsPresent, IsTrueNo};
ghost use Rattle.pattern_check.specs.Patterns.{IsBadPattern, kind_of};

use crate::kind::Kind;
use crate::pattern::Pattern;
use cert_check::Criterion;
use cert_check::laws::{
    causal_convergence_is_causally_consistent, causal_memory_is_causally_consistent,
};
use model_objects::Memory;

/// A history with a bad pattern against a criterion does not meet the criterion.
pub fn bad_patterns_exclude_criteria()
    ensures { (h : MemoryHistory) (criterion : Criterion) (pattern : Pattern)
        → IsBadPattern h criterion pattern → IsTrueNo h criterion (kind_of pattern) }
{
    present_kinds_exclude_criteria();
}

/// A kind that is against a criterion and present in a history excludes the criterion.
pub fn present_kinds_exclude_criteria()
    ensures { (h : MemoryHistory) (criterion : Criterion) (kind : Kind)
        → IsTrue (is_against kind criterion) → IsPresent h kind → ¬ Meets memory_answer h criterion }
{
    causal_memory_is_causally_consistent::<Memory>();
    causal_convergence_is_causally_consistent::<Memory>();
}
