//! How far the operations of a session can follow one another.

ghost use Rattle.std.specs.Prelude.{◌<◌, ◌≤◌, length, IfOk};
ghost use Rattle.order_causal.specs.Steps.Waiting.{AreLimits, IsLimit};
ghost use Rattle.order_causal.specs.Waits.{AreWaits};

use crate::by_operation::Vectors;
use model_history::OpId;
use std::alloc::{AllocError, Global};

/// For each session, how many of its operations come before the first that waits for a later one of the session.
///
/// Fails for want of memory alone. O(n) for n operations.
pub(crate) fn limits_of(alloc: Global, waits: &Vectors) -> Result<Vec<u16>, AllocError>
    requires { AreWaits waits.now }
    ensures { IfOk result (λ limits. AreLimits waits.now limits.items) }
{
    let mut limits = Vec::new(alloc);
    for session in 0..waits.sessions() {
        limits.push(limit_of(waits, session))?;
    }
    Ok(limits)
}

/// How many operations of a session come before the first that waits for a later one of it.
fn limit_of(waits: &Vectors, session: usize) -> u16
    requires waits { AreWaits waits.now }
    requires exists { session < length waits.now }
    ensures { IsLimit waits.now session result }
{
    let len = waits.operations(session);
    for index in 0..len {
        let op = OpId::at(session, index);
        if index + 1 < usize::from(waits.get(op)[session]) {
            return index as u16;
        }
    }
    len as u16
}
