//! The order of a walk: that of given moments, and for what is left one operation of each session in turn.

use crate::places::{NOWHERE, Places, number_of};
use crate::plan::Plan;
use crate::walk::Walk;
use judge_memory::LongHistory;
use std::alloc::{AllocError, Global};

/// Sessions that go on, and sessions that wait.
#[derive(Drop)]
struct Sessions {
    /// Those that go on.
    active: Vec<u32>,
    /// Those whose next operation waits for a source outside its past.
    waiting: Vec<u32>,
    /// For each write the first session that waits for it alone, or [`NOWHERE`].
    waits: Vec<u32>,
    /// For each session the next one that waits for the same write, or [`NOWHERE`].
    others: Vec<u32>,
}

/// What each operation wrote or saw, by a walk of all operations: none where it does not come to its end.
///
/// `moments` says when each operation was, by its number, if that is known: nothing rests on what it says. Fails for want of memory alone.
pub(crate) fn picks(
    alloc: Global,
    history: &LongHistory,
    places: &Places,
    plan: Plan,
    moments: Option<&[u64]>,
) -> Result<Option<Vec<u32>>, AllocError> {
    let mut walk = Walk::new(alloc, history, places, plan)?;
    if let Some(moments) = moments {
        walk_in_time(alloc, places, &mut walk, moments)?;
    }
    walk_in_rounds(alloc, places, &mut walk)?;
    if walk.is_done() {
        Ok(Some(Vec::from_slice(alloc, walk.seen())?))
    } else {
        Ok(None)
    }
}

/// Walks operations in the order of their moments. Where one has to wait, the rest of its session is left.
fn walk_in_time(
    alloc: Global,
    places: &Places,
    walk: &mut Walk,
    moments: &[u64],
) -> Result<(), AllocError> {
    let mut order = Vec::with_capacity(alloc, places.operations())?;
    for number in 0..places.operations() {
        let moment = moments.get(number).copied().unwrap_or(u64::MAX);
        order.push((moment, number_of(number)))?;
    }
    order.sort_unstable();
    for (_, number) in &order {
        if let Some(operation) = places.operation(*number)
            && walk.next(operation.session) == *number
        {
            let _walked = walk.step(*number, true)?;
        }
    }
    Ok(())
}

/// Walks the operations that are left, one of each session in turn.
fn walk_in_rounds(alloc: Global, places: &Places, walk: &mut Walk) -> Result<(), AllocError> {
    let mut sessions = Sessions {
        active: Vec::with_capacity(alloc, places.sessions())?,
        waiting: Vec::new(alloc),
        waits: vec![in alloc; NOWHERE; places.operations()]?,
        others: vec![in alloc; NOWHERE; places.sessions()]?,
    };
    for session in 0..places.sessions() {
        sessions.active.push(number_of(session))?;
    }
    for _round in 0..=places.operations().saturating_mul(2) {
        if sessions.active.is_empty() && !release(alloc, walk, &mut sessions)? {
            return Ok(());
        }
        go_on(alloc, walk, &mut sessions)?;
    }
    Ok(())
}

/// Walks one operation of each session that goes on.
fn go_on(alloc: Global, walk: &mut Walk, sessions: &mut Sessions) -> Result<(), AllocError> {
    let mut active = Vec::with_capacity(alloc, sessions.active.len())?;
    for session in &sessions.active {
        active.push(*session)?;
    }
    sessions.active.clear();
    for session in &active {
        let number = walk.next(*session);
        if number != NOWHERE {
            let walked = walk.step(number, false)?;
            settle(walk, sessions, *session, number, walked)?;
        }
    }
    Ok(())
}

/// Says where a session goes, once its next operation was tried: it goes on, and with it those that waited for what was walked, or it waits.
fn settle(
    walk: &Walk,
    sessions: &mut Sessions,
    session: u32,
    number: u32,
    walked: bool,
) -> Result<(), AllocError> {
    if walked {
        sessions.active.push(session)?;
        return wake(sessions, number);
    }
    let awaited = walk.awaited(number);
    match sessions.waits.get_mut(awaited as usize) {
        Some(first) => {
            let other = *first;
            *first = session;
            if let Some(next) = sessions.others.get_mut(session as usize) {
                *next = other;
            }
            Ok(())
        }
        None => {
            sessions.waiting.push(session)?;
            Ok(())
        }
    }
}

/// Lets the sessions go on that wait for a write.
fn wake(sessions: &mut Sessions, write: u32) -> Result<(), AllocError> {
    let Some(first) = sessions.waits.get_mut(write as usize) else {
        return Ok(());
    };
    let mut session = *first;
    *first = NOWHERE;
    for _other in 0..sessions.others.len() {
        let Some(next) = sessions.others.get_mut(session as usize) else {
            return Ok(());
        };
        let after = *next;
        *next = NOWHERE;
        sessions.active.push(session)?;
        session = after;
    }
    Ok(())
}

/// Lets one session go on whose next operation waits for a source outside its past. False where none can.
fn release(alloc: Global, walk: &mut Walk, sessions: &mut Sessions) -> Result<bool, AllocError> {
    let mut waiting = Vec::with_capacity(alloc, sessions.waiting.len())?;
    let mut is_released = false;
    for place in 0..sessions.waiting.len() {
        let Some(session) = sessions.waiting.get(place).copied() else {
            continue;
        };
        let number = walk.next(session);
        if !is_released && walk.step(number, true)? {
            is_released = true;
            settle(walk, sessions, session, number, true)?;
        } else {
            waiting.push(session)?;
        }
    }
    sessions.waiting = waiting;
    Ok(is_released)
}
