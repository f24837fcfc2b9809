//! Walks that find what each null read of a log may have seen.

ghost use Rattle.std.specs.Prelude.{IfOk, IfSome};
ghost use Rattle.model_objects.specs.Table.{IsRising};
ghost use Rattle.log_choices.specs.Choices.{IsChoice, IsWhole};
ghost use Rattle.log_choices.specs.ChoiceTables.{choice_in};

use crate::Seen;
use crate::checked_choice::is_whole_choice;
use crate::walk_map::WriteMap;
use crate::walk_turns::{go_in_time, go_in_turn};
use crate::walking::{Ground, Walking, seen_at};
use log_events::{ClientCall, EventLog};
use model_objects::Table;
use std::alloc::{AllocError, Global};

/// The most clients.
const MAX_CLIENTS: u32 = 1024;

/// The most counts of what comes before writes and deletes.
const MAX_COUNTS: u64 = 268_435_456;

/// How a walk chooses among candidates.
#[derive(Clone, Copy, Debug, PartialEq, Eq)]
pub enum Walk {
    /// It takes what the client saw of the key the last time, if that may still be seen. Else it takes of the deletes that the client has come
    /// to know since then the one that began last, else of those that it does not know the one with which the least comes to be known.
    Latest,
    /// The same, but it passes over what contradicts an order of all writes and deletes that grows with the walk: for causal convergence. It
    /// goes over the log twice.
    Growing,
}

/// The walks in the order in which they are worth a try.
pub const WALKS: [Walk; 2] = [Walk::Latest, Walk::Growing];

/// What each null read of a log saw, by the places of their begins, as a walk over the log takes it: what is forced where that is known, and
/// else a candidate by the rules of the walk. With `in_time` the events have to stand in the order of time, and the walk goes in that order;
/// else it takes a call of each client in turn, and a read waits for its source as long as other clients go on.
///
/// Nothing rests on how the walk chooses: what it finds is checked. `None` where it does not find a candidate for each null read, where
/// there are more than 1,024 clients, and where the writes and deletes times the clients are more than 2^28.
///
/// Fails for want of memory alone. O(n (k + log n)) for n calls and k clients, and for each null read that is not forced
/// O(d k log n) for d deletes of its key. `Growing` takes O(k log n) more for each read, and its searches take 256 steps for each write at most
/// before the order grows no more. It takes 4 k bytes for each write and delete, and some 100 for each call. A log whose null reads are all
/// forced is not walked over.
pub fn walked_choice(
    alloc: Global,
    log: &EventLog,
    in_time: bool,
    forced: &Table<Seen>,
    walk: Walk,
) -> Result<Option<Table<Seen>>, AllocError>
    ensures rising { IfOk result (λ found. IfSome found (λ table. IsRising table)) }
    ensures choice { IfOk result (λ found. IfSome found (λ table. IsChoice in_time log.now (choice_in table))) }
    ensures whole { IfOk result (λ found. IfSome found (λ table. IsWhole log.now (choice_in table))) }
{
    let Some(table) = offered(alloc, log, in_time, forced, walk)? else {
        return Ok(None);
    };
    if is_whole_choice(alloc, log, in_time, &table)? {
        Ok(Some(table))
    } else {
        Ok(None)
    }
}

/// What a walk offers: for each null read what it saw, or `None` where it found nothing for one.
///
/// Fails for want of memory alone.
fn offered(
    alloc: Global,
    log: &EventLog,
    in_time: bool,
    forced: &Table<Seen>,
    walk: Walk,
) -> Result<Option<Table<Seen>>, AllocError> {
    let forced = forced.entries();
    let pairs = open_pairs(alloc, log, forced)?;
    if pairs.is_empty() {
        return Ok(Some(table_of(alloc, forced)?));
    }
    if !is_within_limits(log) {
        return Ok(None);
    }
    let map = WriteMap::of(alloc, log)?;
    let ground = Ground {
        alloc,
        log,
        in_time,
        forced,
        map: &map,
        pairs: &pairs,
    };
    walked(ground, walk)
}

/// What a walk over some ground offers.
///
/// Fails for want of memory alone.
fn walked(ground: Ground<'_>, walk: Walk) -> Result<Option<Table<Seen>>, AllocError> {
    let is_growing = walk == Walk::Growing;
    let mut walking = Walking::begun(ground, is_growing)?;
    if is_growing {
        go(ground, &mut walking)?;
        walking.begin_again()?;
    }
    if go(ground, &mut walking)? {
        Ok(Some(seen_by_place(ground, &walking.seen)?))
    } else {
        Ok(None)
    }
}

/// Goes over all calls: whether it came to the end.
///
/// Fails for want of memory alone.
fn go(ground: Ground<'_>, walking: &mut Walking<'_>) -> Result<bool, AllocError> {
    if ground.in_time {
        go_in_time(ground.alloc, ground.log, walking)
    } else {
        go_in_turn(ground.alloc, ground.log, walking)
    }
}

/// The clients and keys of reads that got nothing and are not forced, in order.
///
/// Fails for want of memory alone. O(n log n) for n calls.
fn open_pairs(
    alloc: Global,
    log: &EventLog,
    forced: &[(u32, Seen)],
) -> Result<Vec<(u32, u32)>, AllocError> {
    let mut pairs = Vec::new(alloc);
    for call in log.calls() {
        if let Some(key) = call.missed_key()
            && seen_at(forced, call.place()).is_none()
        {
            pairs.push((call.client(), key))?;
        }
    }
    pairs.sort_unstable();
    pairs.dedup();
    Ok(pairs)
}

/// Whether what is kept of the log is not too much.
fn is_within_limits(log: &EventLog) -> bool {
    let writes = log
        .calls()
        .iter()
        .filter(|call| !matches!(call.call(), ClientCall::ReadOf(_)))
        .count();
    log.clients() <= MAX_CLIENTS
        && (writes as u64).saturating_mul(u64::from(log.clients())) <= MAX_COUNTS
}

/// A table of some entries.
///
/// Fails for want of memory alone.
fn table_of(alloc: Global, entries: &[(u32, Seen)]) -> Result<Table<Seen>, AllocError> {
    let mut table = Table::new(alloc);
    for (place, seen) in entries {
        table.push(*place, *seen)?;
    }
    Ok(table)
}

/// What calls saw, by the places of their begins.
///
/// Fails for want of memory alone.
fn seen_by_place(ground: Ground<'_>, seen: &[Option<Seen>]) -> Result<Table<Seen>, AllocError> {
    let mut table = Table::new(ground.alloc);
    for (call, seen) in ground.log.calls().iter().zip(seen) {
        if let Some(seen) = seen {
            table.push(call.place(), *seen)?;
        }
    }
    Ok(table)
}
