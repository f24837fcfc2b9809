//! Memories, whose histories the bad patterns refute.

ghost use Rattle.pattern_check.specs.Kinds.{IsTrueNo};
ghost use Rattle.pattern_check.specs.Patterns.{IsBadPattern};

use crate::checking::check_pattern;
use crate::laws::bad_patterns_exclude_criteria;
use crate::pattern::Pattern;
use crate::refutable::Refutable;
use cert_check::Criterion;
use model_history::History;
use model_objects::Memory;
use std::alloc::{AllocError, Global};

impl Refutable for Memory {
    ghost passes = { IsBadPattern };

    ghost excluded = { IsTrueNo };

    fn check_pattern(
        alloc: Global,
        h: &History<Memory>,
        criterion: Criterion,
        pattern: &Pattern,
    ) -> Result<bool, AllocError> {
        check_pattern(alloc, h, criterion, pattern)
    }

    fn passing_patterns_exclude() {
        bad_patterns_exclude_criteria();
    }
}
