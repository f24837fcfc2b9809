//! Long histories that fit the limits of `History`.

ghost use Rattle.std.specs.Prelude.{◌≡◌, ◌↔◌, ◌≤◌, ℕ, length, map, IfOk, IfSome, IsTrue, MatchOption};
ghost use Rattle.model_history.specs.History.{session as operations_of};
ghost use Rattle.json_histories.specs.AnyForm.{IsAnyHistory};
ghost use Rattle.judge_reader.specs.Small.{IsSmall};

use json_histories::AnyHistory;
use judge_memory::{LongEntry, LongHistory};
use model_history::{History, MAX_OPERATIONS, MAX_SESSIONS};
use model_objects::{MAX_ENTRIES, Memory, Table};
use std::alloc::{AllocError, Global};

/// A copy of the table. Fails for want of memory alone.
fn copy_of_start(alloc: Global, start: &Table<u64>) -> Result<Table<u64>, AllocError>
    ensures { IfOk result (λ copy. copy ≡ start.now) }
{
    let mut copy = Table::new(alloc);
    for (key, value) in start.entries() {
        copy.push(*key, *value)?;
    }
    Ok(copy)
}

/// A copy of the sessions. Fails for want of memory alone.
fn copy_of_sessions(alloc: Global, history: &LongHistory) -> Result<Vec<Vec<LongEntry>>, AllocError>
    ensures { IfOk result (λ copy. map (λ s. s.items) copy.items ≡ history.now.1) }
{
    let mut copy = Vec::new(alloc);
    for s in 0..history.sessions() {
        copy.push(Vec::from_slice(alloc, history.session(s))?)?;
    }
    Ok(copy)
}

/// Whether no session has more than 256 operations.
fn are_short(history: &LongHistory) -> bool
    ensures { IsTrue result ↔ ((s : ℕ) → length (operations_of history.now s) ≤ MAX_OPERATIONS) }
{
    for s in 0..history.sessions() {
        if history.session(s).len() > MAX_OPERATIONS {
            return false;
        }
    }
    true
}

/// Whether a history is within the limits of `History`: 16 sessions, 256 operations in each, and 4,096 initial values.
///
/// It looks at most at 16 sessions.
pub fn is_small(history: &LongHistory) -> bool
    ensures small { IsTrue result ↔ IsSmall history.now }
    ensures is_history { IsTrue result → IsAnyHistory (AnyHistory.Memory history.now) }
{
    history.value_is_history();
    history.sessions() <= MAX_SESSIONS && history.start().len() <= MAX_ENTRIES && are_short(history)
}

/// The same history as a `History`, or none where it is not within the limits of that type, as [`is_small`] has them.
///
/// Fails for want of memory alone. It takes O(n) for n operations of a history that fits, and never more than these limits.
pub fn small(alloc: Global, history: &LongHistory) -> Result<Option<History<Memory>>, AllocError>
    ensures same { IfOk result (λ o. MatchOption o (¬ IsSmall history.now) (λ h. h ≡ history.now)) }
    ensures is_history { IfOk result (λ o. IfSome o (λ h. IsAnyHistory (AnyHistory.Memory h))) }
{
    history.value_is_history();
    if !is_small(history) {
        return Ok(None);
    }
    let sessions = copy_of_sessions(alloc, history)?;
    let start = copy_of_start(alloc, history.start())?;
    Ok(Some(History::of(start, sessions)))
}
