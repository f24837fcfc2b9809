//! The tests of a pattern in a long history.

ghost use Rattle.std.specs.Prelude.{◌↔◌, IfOk, IsTrue};
ghost use Rattle.pattern_check.specs.Kinds.{IsTrueNo};
ghost use Rattle.pattern_check.specs.Patterns.{IsBadPattern, IsShownBy, kind_of};

use crate::numbered_memory::NumberedMemory;
use cert_check::Criterion;
use judge_memory::{LongHistory, LongIndex};
use pattern_check::laws::bad_patterns_exclude_criteria;
use pattern_check::{Pattern, is_shown};
use std::alloc::{AllocError, Global};

/// Whether the pattern shows that a long history does not meet the criterion.
///
/// It does where the history has distinct values, the pattern's kind is against the criterion, and the pattern's operations are in
/// the history and as its kind says. Fails for want of memory alone. O(n log n + k) for n operations of the history in k sessions, and
/// besides what `is_shown_in_long` takes.
pub fn check_long_pattern(
    alloc: Global,
    h: &LongHistory,
    criterion: Criterion,
    pattern: &Pattern,
) -> Result<bool, AllocError>
    ensures exact { IfOk result (λ yes. IsTrue yes ↔ IsBadPattern h.now criterion pattern.now) }
    ensures true_no { IfOk result (λ yes. IsTrue yes → IsTrueNo h.now criterion (kind_of pattern.now)) }
{
    bad_patterns_exclude_criteria();
    if !pattern.kind().is_against(criterion) {
        return Ok(false);
    }
    match LongIndex::of(alloc, h)? {
        Some(index) => {
            index.value_is_indexed();
            is_shown_in_long(alloc, &index, pattern)
        }
        None => Ok(false),
    }
}

/// Whether the operations of a pattern are as its kind says.
///
/// Fails for want of memory alone. O(n) for n operations and lines of the pattern, and O(log m) for a table of m initial values.
pub fn is_shown_in_long(
    alloc: Global,
    index: &LongIndex,
    pattern: &Pattern,
) -> Result<bool, AllocError>
    ensures { IfOk result (λ yes. IsTrue yes ↔ IsShownBy index.now.history pattern.now) }
{
    index.value_is_indexed();
    is_shown(alloc, &NumberedMemory { index }, pattern)
}
