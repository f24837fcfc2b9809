//! Objects for which no kind of pattern is known.

ghost use Rattle.std.specs.Prelude.{IsTrue};

use crate::pattern::Pattern;
use crate::refutable::Refutable;
use cert_check::Criterion;
use model_history::History;
use model_objects::{AddRemoveSet, Counter, Counters, Queue, Queues, Register, Sets};
use std::alloc::{AllocError, Global};

// No kind of pattern is known for these objects: nothing refutes their histories. Each implementation is written out: one for all
// of them makes every call at an object under keys several times as long to prove.

impl Refutable for Register {
    ghost passes = { λ h criterion pattern. ⊥ };

    ghost excluded = { λ h criterion kind. ⊥ };

    fn check_pattern(
        _alloc: Global,
        _h: &History<Register>,
        _criterion: Criterion,
        _pattern: &Pattern,
    ) -> Result<bool, AllocError> {
        Ok(false)
    }

    fn passing_patterns_exclude() {}
}

impl Refutable for Counter {
    ghost passes = { λ h criterion pattern. ⊥ };

    ghost excluded = { λ h criterion kind. ⊥ };

    fn check_pattern(
        _alloc: Global,
        _h: &History<Counter>,
        _criterion: Criterion,
        _pattern: &Pattern,
    ) -> Result<bool, AllocError> {
        Ok(false)
    }

    fn passing_patterns_exclude() {}
}

impl Refutable for AddRemoveSet {
    ghost passes = { λ h criterion pattern. ⊥ };

    ghost excluded = { λ h criterion kind. ⊥ };

    fn check_pattern(
        _alloc: Global,
        _h: &History<AddRemoveSet>,
        _criterion: Criterion,
        _pattern: &Pattern,
    ) -> Result<bool, AllocError> {
        Ok(false)
    }

    fn passing_patterns_exclude() {}
}

impl Refutable for Queue {
    ghost passes = { λ h criterion pattern. ⊥ };

    ghost excluded = { λ h criterion kind. ⊥ };

    fn check_pattern(
        _alloc: Global,
        _h: &History<Queue>,
        _criterion: Criterion,
        _pattern: &Pattern,
    ) -> Result<bool, AllocError> {
        Ok(false)
    }

    fn passing_patterns_exclude() {}
}

impl Refutable for Counters {
    ghost passes = { λ h criterion pattern. ⊥ };

    ghost excluded = { λ h criterion kind. ⊥ };

    fn check_pattern(
        _alloc: Global,
        _h: &History<Counters>,
        _criterion: Criterion,
        _pattern: &Pattern,
    ) -> Result<bool, AllocError> {
        Ok(false)
    }

    fn passing_patterns_exclude() {}
}

impl Refutable for Sets {
    ghost passes = { λ h criterion pattern. ⊥ };

    ghost excluded = { λ h criterion kind. ⊥ };

    fn check_pattern(
        _alloc: Global,
        _h: &History<Sets>,
        _criterion: Criterion,
        _pattern: &Pattern,
    ) -> Result<bool, AllocError> {
        Ok(false)
    }

    fn passing_patterns_exclude() {}
}

impl Refutable for Queues {
    ghost passes = { λ h criterion pattern. ⊥ };

    ghost excluded = { λ h criterion kind. ⊥ };

    fn check_pattern(
        _alloc: Global,
        _h: &History<Queues>,
        _criterion: Criterion,
        _pattern: &Pattern,
    ) -> Result<bool, AllocError> {
        Ok(false)
    }

    fn passing_patterns_exclude() {}
}
