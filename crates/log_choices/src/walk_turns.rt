//! In which order a walk goes over the calls of a log.

use crate::walking::{Step, Walking};
use log_events::{ClientCall, EventLog, LoggedCall};
use std::alloc::{AllocError, Global};

/// Goes over the calls in the order of time, writes and deletes at their begins and reads at their ends: whether each null read has a
/// candidate.
///
/// Fails for want of memory alone. O(n) for n events, besides the steps.
pub(crate) fn go_in_time(
    alloc: Global,
    log: &EventLog,
    walking: &mut Walking<'_>,
) -> Result<bool, AllocError> {
    for link in &calls_in_time(alloc, log)? {
        if let Some(number) = link.checked_sub(1)
            && walking.step(number, true)? == Step::Waiting
        {
            return Ok(false);
        }
    }
    Ok(true)
}

/// For each event one more than the number of the write or delete that begins there, or of the read that ends there, or 0.
///
/// Fails for want of memory alone. O(n) for n events.
fn calls_in_time(alloc: Global, log: &EventLog) -> Result<Vec<u32>, AllocError> {
    let mut links: Vec<u32> = vec![in alloc; 0; log.events() as usize]?;
    let mut number = 0u32;
    for call in log.calls() {
        let moment = match call.call() {
            ClientCall::ReadOf(_) => log.ended_at(number),
            _ => Some(call.place()),
        };
        number = number.saturating_add(1);
        if let Some(moment) = moment
            && let Some(link) = links.get_mut(moment as usize)
        {
            *link = number;
        }
    }
    Ok(links)
}

/// Where a walk stands at a client.
#[derive(Clone, Copy)]
struct Turn {
    /// How many of its calls the walk has gone past.
    passed: u32,
    /// Whether its next call waits until nothing else goes on.
    is_held: bool,
}

impl Turn {
    /// Where it stands after one call more.
    fn gone_on(self) -> Turn {
        Turn {
            passed: self.passed.saturating_add(1),
            is_held: false,
        }
    }
}

/// The number of the next call of a client, if it has one.
fn next_number(rows: &[Vec<u32>], client: usize, turn: Turn) -> Option<u32> {
    let row = rows.get(client)?;
    row.get(turn.passed as usize).copied()
}

/// Goes over the calls, one of each client in turn: whether it came to the end of all. A null read that has no candidate but those that do
/// not come before it waits until nothing else goes on, and so does a read whose source is still to be walked.
///
/// Fails for want of memory alone. O(n k) for n calls and k clients, besides the steps.
pub(crate) fn go_in_turn(
    alloc: Global,
    log: &EventLog,
    walking: &mut Walking<'_>,
) -> Result<bool, AllocError> {
    let rows = numbers_by_client(alloc, log)?;
    let start = Turn {
        passed: 0,
        is_held: false,
    };
    let mut turns: Vec<Turn> = vec![in alloc; start; rows.len()]?;
    // Each round but those before a forced one goes past a call.
    for _round in 0..log.calls().len().saturating_mul(2).saturating_add(2) {
        if go_round(&rows, &mut turns, walking)? {
            continue;
        }
        if is_at_end(&rows, &turns) {
            return Ok(true);
        }
        if !go_on_by_one(&rows, &mut turns, walking)? {
            return Ok(false);
        }
    }
    Ok(false)
}

/// Goes past the next call of each client that need not wait: whether it went past one.
///
/// Fails for want of memory alone.
fn go_round(
    rows: &[Vec<u32>],
    turns: &mut [Turn],
    walking: &mut Walking<'_>,
) -> Result<bool, AllocError> {
    let mut has_gone_on = false;
    for client in 0..turns.len().min(rows.len()) {
        let turn = turns[client];
        if let Some(number) = next_number(rows, client, turn)
            && !turn.is_held
        {
            match walking.step(number, false)? {
                Step::Done => {
                    turns[client] = turn.gone_on();
                    has_gone_on = true;
                }
                Step::Waiting => turns[client].is_held = true,
                Step::Early => {}
            }
        }
    }
    Ok(has_gone_on)
}

/// Goes past the next call of one client, whatever it waits for: whether there is one that it can go past.
///
/// Fails for want of memory alone.
fn go_on_by_one(
    rows: &[Vec<u32>],
    turns: &mut [Turn],
    walking: &mut Walking<'_>,
) -> Result<bool, AllocError> {
    for client in 0..turns.len().min(rows.len()) {
        let turn = turns[client];
        if let Some(number) = next_number(rows, client, turn)
            && walking.step(number, true)? == Step::Done
        {
            turns[client] = turn.gone_on();
            return Ok(true);
        }
    }
    Ok(false)
}

/// Whether a walk has gone past all calls.
fn is_at_end(rows: &[Vec<u32>], turns: &[Turn]) -> bool {
    for client in 0..turns.len().min(rows.len()) {
        if next_number(rows, client, turns[client]).is_some() {
            return false;
        }
    }
    true
}

/// For each client the numbers of its calls.
///
/// Fails for want of memory alone. O(n) for n calls and clients.
fn numbers_by_client(alloc: Global, log: &EventLog) -> Result<Vec<Vec<u32>>, AllocError> {
    let mut rows = Vec::new(alloc);
    for _ in 0..log.clients() {
        rows.push(Vec::new(alloc))?;
    }
    let mut number = 0u32;
    for call in log.calls() {
        put_call(&mut rows, call, number)?;
        number = number.saturating_add(1);
    }
    Ok(rows)
}

/// Puts the number of a call after those of its client.
///
/// Fails for want of memory alone.
fn put_call(rows: &mut Vec<Vec<u32>>, call: &LoggedCall, number: u32) -> Result<(), AllocError> {
    if let Some(row) = rows.get_mut(call.client() as usize) {
        row.push(number)?;
    }
    Ok(())
}
