//! Vectors that don't count their own operation.

ghost use Rattle.std.specs.Prelude.{◌+◌, ◌<◌, ◌≤◌, ℕ, length, IfOk, OnOk};
ghost use Rattle.model_history.specs.History.{session as operations_of};
ghost use Rattle.order_causal.specs.Orders.{op as operation};
ghost use Rattle.order_causal.specs.Vectors.{Counts};
ghost use Rattle.order_memory.specs.Steps.GrowingOrders.{AreHeldVectors};
ghost use Rattle.order_memory.specs.Steps.HappenedBefores.{AreStrictBefore, AreStrictOf};

use model_history::{History, MAX_OPERATIONS, OpId};
use model_objects::Memory;
use order_causal::Vectors;
use std::alloc::{AllocError, Global};

/// The vectors, each without its own operation: of its own session it counts the operations before it.
///
/// Fails for want of memory alone. O(n k) for n operations of k sessions.
pub(crate) fn strict_vectors(
    alloc: Global,
    h: &History<Memory>,
    vectors: &Vectors,
) -> Result<Vectors, AllocError>
    requires { AreHeldVectors h.now vectors.now }
    ensures held { IfOk result (AreHeldVectors h.now) }
    ensures strict { IfOk result (AreStrictOf h.now vectors.now) }
    ensures short { OnOk result ((s : ℕ) → length (operations_of h.now s) ≤ MAX_OPERATIONS) }
{
    let mut strict = vectors.copy(alloc)?;
    for session in 0..h.sessions() {
        leave_out_own(h, session, &mut strict);
    }
    Ok(strict)
}

/// Makes each vector of a session's operations leave out its own operation.
fn leave_out_own(h: &History<Memory>, session: usize, strict: &mut Vectors)
    requires held { AreHeldVectors h.now strict.old }
    requires exists { session < length h.now.1 }
    ensures held { AreHeldVectors h.now strict.new }
    ensures strict { (v : Counts) → AreStrictBefore h.now v (operation session 0) strict.old
        → AreStrictBefore h.now v (operation (session + 1) 0) strict.new }
    ensures short { length (operations_of h.now session) ≤ MAX_OPERATIONS }
{
    for index in 0..h.len(session) {
        let op = OpId::at(session, index);
        strict.set(op, session, index as u16);
    }
}
