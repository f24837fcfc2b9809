//! The test of a pattern against a history.

ghost use Rattle.std.specs.Prelude.{◌↔◌, IfOk, IsTrue};
ghost use Rattle.order_memory.specs.Memory.{IsDifferentiated};
ghost use Rattle.pattern_check.specs.Kinds.{IsTrueNo};
ghost use Rattle.pattern_check.specs.Patterns.{IsBadPattern, IsShownBy, kind_of};

use crate::cycle::is_cycle;
use crate::edges::lacks_source;
use crate::happened_before::{is_derivation_of_cycle, is_derivation_of_initial_read};
use crate::known_memory::KnownMemory;
use crate::laws::bad_patterns_exclude_criteria;
use crate::listed_memory::ListedMemory;
use crate::pattern::Pattern;
use crate::routes::{are_paths_to_overwritten_read, is_cyclic_path, is_path_to_initial_read};
use cert_check::Criterion;
use model_history::History;
use model_objects::Memory;
use order_memory::{are_distinct, sorted_writes};
use std::alloc::{AllocError, Global};

/// Whether the pattern shows that the history does not meet the criterion.
///
/// It does where the history has distinct values, the pattern's kind is against the criterion, and the pattern's
/// operations are in the history and as its kind says.
///
/// Fails for want of memory alone. O(n log n) for n operations of the history, operations and lines of the pattern, and
/// entries of the start.
pub fn check_pattern(
    alloc: Global,
    h: &History<Memory>,
    criterion: Criterion,
    pattern: &Pattern,
) -> Result<bool, AllocError>
    ensures exact { IfOk result (λ yes. IsTrue yes ↔ IsBadPattern h.now criterion pattern.now) }
    ensures true_no { IfOk result (λ yes. IsTrue yes → IsTrueNo h.now criterion (kind_of pattern.now)) }
{
    bad_patterns_exclude_criteria();
    if !pattern.kind().is_against(criterion) {
        return Ok(false);
    }
    let writes = sorted_writes(alloc, h)?;
    if !are_distinct(h, &writes) {
        return Ok(false);
    }
    is_shown(alloc, &ListedMemory::of(h, &writes), pattern)
}

/// Whether the operations of a pattern are as its kind says.
///
/// The history has distinct values. Fails for want of memory alone. For each operation and each line of the pattern it asks for at
/// most a few entries and a source. It asks for an initial value at most once.
pub fn is_shown<M: KnownMemory>(alloc: Global, h: &M, pattern: &Pattern) -> Result<bool, AllocError>
    requires { IsDifferentiated (M.history h.now) }
    ensures { IfOk result (λ yes. IsTrue yes ↔ IsShownBy (M.history h.now) pattern.now) }
{
    match pattern {
        Pattern::CyclicCO(path) => Ok(is_cyclic_path(h, path)),
        Pattern::ThinAirRead(read) => Ok(lacks_source(h, *read)),
        Pattern::WriteCOInitRead(path) => Ok(is_path_to_initial_read(h, path)),
        Pattern::WriteCORead(first, second) => Ok(are_paths_to_overwritten_read(h, first, second)),
        Pattern::WriteHBInitRead(op, derivation) => {
            is_derivation_of_initial_read(alloc, h, *op, derivation)
        }
        Pattern::CyclicHB(op, derivation) => is_derivation_of_cycle(alloc, h, *op, derivation),
        Pattern::CyclicCF(links) => Ok(is_cycle(h, links.links())),
    }
}
