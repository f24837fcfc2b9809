//! Operations that wait for one another.

ghost use Rattle.std.specs.Prelude.{◌≡◌, ◌+◌, ◌<◌, ◌≤◌, ℕ, length, slice_index_or, IfOk, MatchOption, []};
ghost use Rattle.model_history.specs.declared.op_id.OpId.{OpId as Operation};
ghost use Rattle.order_causal.specs.Orders.{StandsAt};
ghost use Rattle.order_causal.specs.Steps.Waiting.{AreOfOthers, IsChain, IsOpen, IsPlaceOf, IsRepetition, IsStuck, IsUnplaced};
ghost use Rattle.order_causal.specs.Schedules.{next_of};
ghost use Rattle.order_causal.specs.Waits.{AreWaits, IsAwaited, IsWaitingCycle};

use crate::by_operation::Vectors;
use crate::topological::Walk;
use model_history::{MAX_SESSIONS, OpId};
use std::alloc::{AllocError, Global};

/// A cycle, if no session can go on after a walk and this session has an operation that isn't placed.
///
/// It goes from the next operation of a session to the last operation of that session that another next operation waits for, and
/// on to that next operation. Fails for want of memory alone. O(k^2) for k sessions.
pub(crate) fn cycle_from(
    alloc: Global,
    waits: &Vectors,
    walk: &Walk,
    session: usize,
) -> Result<Vec<OpId>, AllocError>
    requires waits { AreWaits waits.now }
    requires stuck { IsStuck waits.now walk.now }
    requires is_open { IsOpen waits.now walk.now session }
    ensures { IfOk result (λ ops. IsWaitingCycle waits.now ops.items) }
{
    let chain = awaited_in_turn(alloc, waits, walk, session)?;
    let places = first_repetition(&chain, waits.sessions());
    route_back(alloc, waits, walk, &chain, places)
}

/// The next operation of a session.
fn next_operation(walk: &Walk, session: usize) -> OpId
    requires { session < MAX_SESSIONS }
    ensures { result ≡ next_of walk.now session }
{
    OpId::at(session, walk.placed(session))
}

/// The next operation of the session of an operation.
fn next_in_session_of(walk: &Walk, op: OpId) -> OpId
    requires { op.session < MAX_SESSIONS }
    ensures { result ≡ next_of walk.now op.session }
{
    next_operation(walk, op.session_place())
}

/// What the next operation of a session waits for: the last such operation of the first other session of which one is not
/// placed, or else of its own.
fn awaited(waits: &Vectors, walk: &Walk, session: usize) -> OpId
    requires waits { AreWaits waits.now }
    requires stuck { IsStuck waits.now walk.now }
    requires is_open { IsOpen waits.now walk.now session }
    ensures awaited { IsAwaited waits.now (next_of walk.now session) result }
    ensures unplaced { IsUnplaced waits.now walk.now result }
{
    let counts = waits.get(next_operation(walk, session));
    let missing = walk.first_missing(counts, session, 0);
    let from = if missing < counts.len() {
        missing
    } else {
        session
    };
    OpId::at(from, usize::from(counts[from]) - 1)
}

/// Operations that are not placed, one more than there are sessions: the next operation of the session of each waits for the
/// operation after it.
fn awaited_in_turn(
    alloc: Global,
    waits: &Vectors,
    walk: &Walk,
    session: usize,
) -> Result<Vec<OpId>, AllocError>
    requires waits { AreWaits waits.now }
    requires stuck { IsStuck waits.now walk.now }
    requires is_open { IsOpen waits.now walk.now session }
    ensures chain { IfOk result (λ ops. IsChain waits.now walk.now ops.items) }
    ensures count { IfOk result (λ ops. length ops.items ≡ length waits.now + 1) }
{
    let mut chain = Vec::new(alloc);
    let mut last = session;
    for _session in 0..waits.sessions() + 1 {
        let op = awaited(waits, walk, last);
        chain.push(op)?;
        last = op.session_place();
    }
    Ok(chain)
}

/// The places of two operations of one session. The second is as early as possible.
fn first_repetition(ops: &[OpId], sessions: usize) -> (usize, usize)
    requires many { sessions < length ops.now }
    requires few { (j : ℕ) (a : Operation) → StandsAt ops.now j a → a.session < sessions }
    ensures { IsRepetition ops.now result.0 result.1 }
{
    for later in 0..ops.len() {
        if let Some(earlier) = place_of_session(ops, later, ops[later].session) {
            return (earlier, later);
        }
    }
    unreachable!()
}

/// The place of the first operation of a session before a place.
fn place_of_session(ops: &[OpId], end: usize, session: u64) -> Option<usize>
    requires { end ≤ length ops.now }
    ensures { MatchOption result (AreOfOthers ops.now end session) (IsPlaceOf ops.now end session) }
{
    for place in 0..end {
        if ops[place].session == session {
            return Some(place);
        }
    }
    None
}

/// The way back through a chain, from one of two operations of a session to the other.
fn route_back(
    alloc: Global,
    waits: &Vectors,
    walk: &Walk,
    chain: &[OpId],
    places: (usize, usize),
) -> Result<Vec<OpId>, AllocError>
    requires waits { AreWaits waits.now }
    requires chain { IsChain waits.now walk.now chain.now }
    requires places { IsRepetition chain.now places.0 places.1 }
    ensures { IfOk result (λ ops. IsWaitingCycle waits.now ops.items) }
{
    let mut reached = next_in_session_of(walk, chain[places.1]);
    let mut route = vec![in alloc; reached]?;
    for back in 0..places.1 - places.0 {
        let later = places.1 - back;
        let op = chain[later];
        if reached.index < op.index {
            route.push(op)?;
        }
        reached = next_in_session_of(walk, chain[later - 1]);
        route.push(reached)?;
    }
    Ok(route)
}
