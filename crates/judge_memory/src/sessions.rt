//! The numbers of operations, by session, and the sessions of operations, by number.

ghost use Rattle.std.specs.Prelude.{◌+◌, ◌<◌, length, IfOk, OnOk};
ghost use Rattle.model_history.specs.History.{many_before};
ghost use Rattle.judge_memory.specs.Steps.{many};
ghost use Rattle.judge_memory.specs.Lists.{IsSessionOf, ListsEach, ListsStarts};

use crate::LongHistory;
use std::alloc::{AllocError, Global};

/// The number of the first operation of each session, and at last that of all operations.
///
/// Fails for want of memory alone. O(k) for k sessions.
pub(crate) fn starts(alloc: Global, h: &LongHistory) -> Result<Vec<u32>, AllocError>
    ensures { IfOk result (λ starts. ListsStarts h.now (length h.now.1) starts.items) }
{
    // There are so few operations that their numbers fit 32 bits.
    let _operations = h.operations();
    let mut starts = Vec::with_capacity(alloc, h.sessions() + 1)?;
    let mut next = 0;
    starts.push(next)?;
    for session in 0..h.sessions() {
        next += h.session(session).len() as u32;
        starts.push(next)?;
    }
    Ok(starts)
}

/// The session of each operation.
///
/// Fails for want of memory alone. O(n + k) for n operations in k sessions.
pub(crate) fn sessions(alloc: Global, h: &LongHistory) -> Result<Vec<u32>, AllocError>
    ensures { IfOk result (λ sessions. ListsEach h.now IsSessionOf (many h.now) sessions.items) }
{
    let mut sessions = Vec::with_capacity(alloc, h.operations())?;
    for session in 0..h.sessions() {
        push_session(h, session as u32, &mut sessions)?;
    }
    Ok(sessions)
}

/// Puts a session after those before it, once for each of its operations.
fn push_session(h: &LongHistory, session: u32, sessions: &mut Vec<u32>) -> Result<(), AllocError>
    requires exists { session < length h.now.1 }
    requires so_far { ListsEach h.now IsSessionOf (many_before h.now session) sessions.old.items }
    ensures { OnOk result (ListsEach h.now IsSessionOf (many_before h.now (session + 1)) sessions.new.items) }
{
    for _operation in h.session(session as usize) {
        sessions.push(session)?;
    }
    Ok(())
}
