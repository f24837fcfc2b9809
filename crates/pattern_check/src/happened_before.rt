//! What the derivation of a pattern shows.

ghost use Rattle.std.specs.Prelude.{◌↔◌, IfOk, IsTrue};
ghost use Rattle.order_memory.specs.Memory.{IsDifferentiated};
ghost use Rattle.pattern_check.specs.Patterns.{IsDerivationOfCycle, IsDerivationOfInitialRead};

use crate::derivation::Derivation;
use crate::derived_pairs::derived_pair;
use crate::edges::reads_initial;
use crate::known_memory::KnownMemory;
use model_history::OpId;
use std::alloc::{AllocError, Global};

/// Whether a derivation for the operation gives one operation twice.
///
/// Fails for want of memory alone. The cost is that of `derived_pair`.
pub fn is_derivation_of_cycle<M: KnownMemory>(
    alloc: Global,
    h: &M,
    op: OpId,
    derivation: &Derivation,
) -> Result<bool, AllocError>
    requires { IsDifferentiated (M.history h.now) }
    ensures { IfOk result (λ yes. IsTrue yes ↔ IsDerivationOfCycle (M.history h.now) op derivation.now) }
{
    let Some(pair) = derived_pair(alloc, h, op, derivation.lines())? else {
        return Ok(false);
    };
    Ok(pair.0 == pair.1)
}

/// Whether a derivation for the operation gives a write and a read of the initial value of its variable, where the read is the
/// operation or is before it in program order.
///
/// Fails for want of memory alone. The cost is that of `derived_pair`.
pub fn is_derivation_of_initial_read<M: KnownMemory>(
    alloc: Global,
    h: &M,
    op: OpId,
    derivation: &Derivation,
) -> Result<bool, AllocError>
    requires { IsDifferentiated (M.history h.now) }
    ensures { IfOk result (λ yes. IsTrue yes ↔ IsDerivationOfInitialRead (M.history h.now) op derivation.now) }
{
    let Some(pair) = derived_pair(alloc, h, op, derivation.lines())? else {
        return Ok(false);
    };
    Ok(pair.1.is_in_program_past_of(op) && reads_initial(h, pair.0, pair.1))
}
