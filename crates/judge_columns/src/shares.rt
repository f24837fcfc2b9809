//! The sessions of a list: those with one write each, and the others.

ghost use Rattle.std.specs.Prelude.{◌≡◌, ◌↔◌, ◌⊎◌, ◌<◌, ◌≤◌, ℕ, Some, length, slice_get, IfOk, IfSome, MatchOption, OnOk};
ghost use Rattle.model_history.specs.declared.op_id.OpId.{OpId as Operation};
ghost use Rattle.model_history.specs.History.{IsOp, number};
ghost use Rattle.judge_memory.specs.Steps.{many};
ghost use Rattle.judge_columns.specs.Forks.{AreNoWrites, IsFirstWrite, IsOnlyWrite};
ghost use Rattle.judge_columns.specs.Shares.{IsShare, IsShared};
ghost use Rattle.judge_columns.specs.Swept.{IsListed};

use judge_memory::{LongIndex, Part};
use std::alloc::{AllocError, Global};

/// The sessions of a list.
#[derive(Drop)]
pub(crate) struct Share {
    /// Those that are swept alone.
    pub(crate) sessions: Vec<u32>,
    /// Those with one write each, by the numbers of these writes.
    pub(crate) forks: Vec<u32>,
}

/// The sessions of a list.
///
/// Fails for want of memory alone. O(n) for n operations.
pub(crate) fn share_of(
    alloc: Global,
    index: &LongIndex,
    sessions: &[u32],
) -> Result<Share, AllocError>
    requires below { (k t : ℕ) → slice_get sessions.now k ≡ Some t → t < length index.now.history.1 }
    ensures share { IfOk result (IsShare index.now.history) }
    ensures all { IfOk result (λ share. (t : ℕ)
        → IsShared index.now.history share t ↔ IsListed sessions.now (length sessions.now) t) }
{
    let mut share = Share {
        sessions: Vec::new(alloc),
        forks: Vec::new(alloc),
    };
    for i in 0..sessions.len() {
        add(index, sessions[i], &mut share)?;
    }
    Ok(share)
}

/// Adds a session.
fn add(index: &LongIndex, session: u32, share: &mut Share) -> Result<(), AllocError>
    requires session { session < length index.now.history.1 }
    requires share { IsShare index.now.history share.old }
    ensures share { OnOk result (IsShare index.now.history share.new) }
    ensures added { OnOk result ((t : ℕ)
        → IsShared index.now.history share.new t ↔ (IsShared index.now.history share.old t ⊎ (t ≡ session))) }
{
    match only_write(index, session) {
        Some(write) => share.forks.push(write)?,
        None => share.sessions.push(session)?,
    }
    Ok(())
}

/// The number of the only write of a session, if it has just one. O(m) for m operations of the session.
fn only_write(index: &LongIndex, session: u32) -> Option<u32>
    requires { session < length index.now.history.1 }
    ensures { IfSome result (λ n. (w : Operation) × IsOp index.now.history w × (number index.now.history w ≡ n) × (w.session ≡ session)
        × IsOnlyWrite index.now.history w) }
{
    let end = index.end(session);
    match first_write(index, index.start(session), end) {
        Some(write) => {
            match first_write(index, write + 1, end) {
                Some(_) => None,
                None => Some(write),
            }
        }
        None => None,
    }
}

/// The number of the first write from a number up to another.
fn first_write(index: &LongIndex, from: u32, end: u32) -> Option<u32>
    requires { end ≤ many index.now.history }
    ensures { MatchOption result (AreNoWrites index.now.history from end) (IsFirstWrite index.now.history from end) }
{
    for operation in from..end {
        if let Part::Write = index.part(operation) {
            return Some(operation);
        }
    }
    None
}
