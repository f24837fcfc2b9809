//! The writes that reads read from, found among the sorted ones.
//!
//! At first a place is guessed for each read, and then the write at that place is looked at: so the processor waits for many places
//! of the memory at once.

ghost use Rattle.std.specs.Prelude.{◌<◌, length, MatchOption};
ghost use Rattle.order_memory.specs.Steps.Written.{AreInOrder, IsSorted, LacksWrite};
ghost use Rattle.judge_memory.specs.Writes.{IsWriter};

use crate::LongHistory;
use crate::guesses::{Guesses, NOWHERE, hash};
use model_history::OpId;
use model_objects::RegisterRet;
use order_memory::{Write, least_write};
use std::alloc::{AllocError, Global};

/// For how many writes guesses are made in the time of one search among them.
const WRITES_A_READ: usize = 8;

/// For each operation, by number, a guess at the place of its source among the writes: any number where it has none.
///
/// It is empty where writes are many and reads so few that guesses would take longer than the searches that they save.
/// Fails for want of memory alone. It takes at most 8 bytes an operation, of which it keeps 4. O(n + k) for n operations in k
/// sessions.
pub(crate) fn guessed_places(
    alloc: Global,
    h: &LongHistory,
    writes: &[Write],
) -> Result<Vec<u32>, AllocError> {
    let others = h.operations().saturating_sub(writes.len());
    if writes.len() / WRITES_A_READ > others {
        return Ok(Vec::new(alloc));
    }
    let guesses = write_guesses(alloc, writes, h.operations())?;
    let mut places = Vec::with_capacity(alloc, h.operations())?;
    for session in 0..h.sessions() {
        push_guesses(h, &guesses, session, &mut places)?;
    }
    Ok(places)
}

/// Guesses of the places of the writes, by key and value, in at most so many slots, beside some at the end.
fn write_guesses(alloc: Global, writes: &[Write], most: usize) -> Result<Guesses, AllocError> {
    let room = writes.len().saturating_mul(2).min(most);
    let mut guesses = Guesses::new(alloc, room, writes.len())?;
    for (place, write) in writes.iter().enumerate() {
        guesses.put(hash(write.key, write.value), place);
    }
    Ok(guesses)
}

/// Puts the guesses for the operations of a session after those for the sessions before it.
fn push_guesses(
    h: &LongHistory,
    guesses: &Guesses,
    session: usize,
    places: &mut Vec<u32>,
) -> Result<(), AllocError>
    requires exists { session < length h.now.1 }
{
    for (call, ret) in h.session(session) {
        let place = match *ret {
            Some(RegisterRet::Value(value)) => guesses.place(hash(call.key, value)),
            Some(RegisterRet::Done) | None => NOWHERE,
        };
        places.push(place)?;
    }
    Ok(())
}

/// An operation among the writes, which are sorted, that writes this value to this variable.
///
/// O(1) if it is at the guessed place, and else O(log n) for n writes.
pub(crate) fn writer(writes: &[Write], guess: u32, key: u32, value: u64) -> Option<OpId>
    requires sorted { IsSorted writes.now }
    requires in_order { AreInOrder writes.now }
    ensures { MatchOption result (LacksWrite writes.now key value) (IsWriter writes.now key value) }
{
    if let Some(write) = writes.get(guess as usize)
        && write.key == key
        && write.value == value
    {
        return Some(write.op);
    }
    least_write(writes, key, value)
}
