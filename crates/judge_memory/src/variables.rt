//! The variables of operations, by number: dense numbers in the place of keys.

ghost use Rattle.std.specs.Prelude.{◌≡◌, ◌+◌, ◌<◌, ◌≤◌, ℕ, All, Contains, length, IfOk, OnOk, Some, slice_get};
ghost use Rattle.std.specs.List.Sorted.{IsStrictlyIncreasing};
ghost use Rattle.model_history.specs.History.{many_before};
ghost use Rattle.judge_memory.specs.LongHistories.{IsLongHistory};
ghost use Rattle.judge_memory.specs.Steps.{many};
ghost use Rattle.judge_memory.specs.Lists.{ArePlaces, IsKeyOf, ListsEach};
ghost use Rattle.judge_memory.specs.Parts.{AreVariables};

use crate::guesses::{Guesses, hash};
use crate::{LongHistory, MAX_NUMBERS};
use std::alloc::{AllocError, Global};

/// The variable of each operation.
#[derive(Drop)]
pub(crate) struct Variables {
    pub(crate) by_number: Vec<u32>,
    /// Each variable's number is below this.
    pub(crate) bound: u32,
}

impl Variables {
    /// The variable of each operation: the place of its key among the keys of all operations.
    ///
    /// Fails for want of memory alone. O(n log n + k) for n operations in k sessions.
    pub(crate) fn of(alloc: Global, h: &LongHistory) -> Result<Variables, AllocError>
        ensures variables { IfOk result (λ found. AreVariables h.now found.by_number.items) }
        ensures count { IfOk result (λ found. length found.by_number.items ≡ many h.now) }
        ensures few { IfOk result (λ found. found.bound ≤ many h.now) }
        ensures below { IfOk result (λ found. (n x : ℕ) → slice_get found.by_number.items n ≡ Some x → x < found.bound) }
    {
        let keys = keys(alloc, h)?;
        let distinct = distinct(alloc, &keys)?;
        let by_number = places(alloc, &distinct, &keys)?;
        Ok(Variables {
            by_number,
            bound: distinct.len() as u32,
        })
    }
}

/// The key of each operation.
fn keys(alloc: Global, h: &LongHistory) -> Result<Vec<u32>, AllocError>
    ensures keys { IfOk result (λ keys. ListsEach h.now (IsKeyOf h.now) (many h.now) keys.items) }
    ensures few { IfOk result (λ keys. length keys.items ≤ MAX_NUMBERS) }
{
    let mut keys = Vec::with_capacity(alloc, h.operations())?;
    for session in 0..h.sessions() {
        push_keys(h, session, &mut keys)?;
    }
    Ok(keys)
}

/// Puts the keys of a session after those of the sessions before it.
fn push_keys(h: &LongHistory, session: usize, keys: &mut Vec<u32>) -> Result<(), AllocError>
    requires exists { session < length h.now.1 }
    requires so_far { ListsEach h.now (IsKeyOf h.now) (many_before h.now session) keys.old.items }
    ensures { OnOk result (ListsEach h.now (IsKeyOf h.now) (many_before h.now (session + 1)) keys.new.items) }
{
    for (call, _) in h.session(session) {
        keys.push(call.key)?;
    }
    Ok(())
}

/// The keys, each once, in rising order. O(n log n) for n keys.
fn distinct(alloc: Global, keys: &[u32]) -> Result<Vec<u32>, AllocError>
    ensures rising { IfOk result (λ distinct. IsStrictlyIncreasing distinct.items) }
    ensures each { IfOk result (λ distinct. All (Contains distinct.items) keys.now) }
    ensures few { IfOk result (λ distinct. length distinct.items ≤ length keys.now) }
{
    let mut distinct = Vec::from_slice(alloc, keys)?;
    distinct.sort_unstable();
    distinct.dedup();
    Ok(distinct)
}

/// The places of keys among the distinct ones. O(n log n) for n keys.
fn places(alloc: Global, distinct: &[u32], keys: &[u32]) -> Result<Vec<u32>, AllocError>
    requires few { length distinct.now ≤ MAX_NUMBERS }
    requires rising { IsStrictlyIncreasing distinct.now }
    requires each { All (Contains distinct.now) keys.now }
    ensures { IfOk result (λ places. ArePlaces distinct.now keys.now places.items) }
{
    let guesses = key_guesses(alloc, distinct, keys.len())?;
    let mut places = Vec::with_capacity(alloc, keys.len())?;
    for key in keys {
        places.push(place_of(distinct, &guesses, *key))?;
    }
    Ok(places)
}

/// Guesses of the places of the distinct keys, in at most so many slots, beside some at the end.
fn key_guesses(alloc: Global, distinct: &[u32], most: usize) -> Result<Guesses, AllocError> {
    let room = distinct.len().saturating_mul(8).min(most);
    let mut guesses = Guesses::new(alloc, room, distinct.len())?;
    for (place, key) in distinct.iter().enumerate() {
        guesses.put(hash(*key, 0), place);
    }
    Ok(guesses)
}

/// The place of a key among the distinct ones. O(log n) for n keys, or O(1) where the guess is right.
fn place_of(distinct: &[u32], guesses: &Guesses, key: u32) -> u32
    requires few { length distinct.now ≤ MAX_NUMBERS }
    requires rising { IsStrictlyIncreasing distinct.now }
    requires listed { Contains distinct.now key }
    ensures { slice_get distinct.now result ≡ Some key }
{
    let place = guesses.place(hash(key, 0));
    if let Some(other) = distinct.get(place as usize)
        && *other == key
    {
        return place;
    }
    distinct.partition_point(|other| *other < key) as u32
}
