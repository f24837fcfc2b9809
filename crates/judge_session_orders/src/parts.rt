//! Orders of all sessions: threads claim one after the other, or the calling thread orders all.

ghost use Rattle.std.specs.Prelude.{◌≡◌, ◌<◌, ℕ, [], length, vec_len, IfOk};
ghost use Rattle.judge_memory.specs.Steps.{IsOrderBy};
ghost use Rattle.order_memory.specs.SourceOrder.{LacksSource};
ghost use Rattle.judge_session_orders.specs.OnItsWay.{ListsSessions};
ghost use Rattle.judge_session_orders.specs.OrderedSessions.{AreClaimed, AreOrderedSessions, IsEarlier};
ghost use Rattle.judge_session_orders.specs.SessionOrders.{AreOrdered};

use crate::ordering::{OrderedSessions, SessionOrder, Unexplained, order_claimed, order_places};
use crate::turns::Turns;
use judge_memory::LongIndex;
use judge_workers::{Claims, unclaimed};
use std::alloc::{AllocError, Global};
use std::sync::Wait;
use std::thread;
use std::thread::Threads;

/// Whether each session has an order of what is before its last operation, in which each of its known reads reads what was last
/// written to its variable; otherwise, which kind shows that the first session without such an order has none.
///
/// `order` is an order of all operations that program order and the sources make, and no known read lacks its source. It starts no
/// thread. Fails for want of memory alone. O(n k) for n operations in k sessions with operations, and O(n + k) numbers of memory for k
/// sessions in all.
pub fn order_sessions(
    alloc: Global,
    index: &LongIndex,
    order: &[u32],
) -> Result<SessionOrder, AllocError>
    requires order { IsOrderBy index.now.history [] order.now }
    requires sources { ¬ LacksSource index.now.history }
    ensures { IfOk result (AreOrdered index.now.history) }
{
    let turns = Turns::of(alloc, index)?;
    order_left(
        alloc,
        index,
        order,
        &turns.sessions,
        OrderedSessions::none(alloc),
    )
}

/// The same, by threads of a runtime: so many workers, of which the calling thread is one, claim the sessions until none is left.
///
/// With one worker it starts no thread. Each worker takes O(n + k) numbers of memory.
pub fn order_sessions_in_threads<T: Threads + Wait + Sync>(
    rt: &T,
    alloc: Global,
    workers: usize,
    index: &LongIndex,
    order: &[u32],
) -> Result<SessionOrder, AllocError>
    requires order { IsOrderBy index.now.history [] order.now }
    requires sources { ¬ LacksSource index.now.history }
    ensures { IfOk result (AreOrdered index.now.history) }
{
    let turns = Turns::of(alloc, index)?;
    let workers = workers.min(turns.sessions.len()).max(1);
    let found = join_claimed(
        alloc,
        index,
        &turns.sessions,
        order_claimed_in(rt, alloc, workers, index, order, &turns.sessions)?,
    )?;
    order_left(alloc, index, order, &turns.sessions, found)
}

/// What the sessions show that each of so many workers claims.
fn order_claimed_in<T: Threads + Wait + Sync>(
    rt: &T,
    alloc: Global,
    workers: usize,
    index: &LongIndex,
    order: &[u32],
    sessions: &[u32],
) -> Result<Vec<Result<OrderedSessions, AllocError>>, AllocError>
    requires order { IsOrderBy index.now.history [] order.now }
    requires sources { ¬ LacksSource index.now.history }
    requires sessions { ListsSessions index.now.history (length index.now.history.1) sessions.now }
    ensures { IfOk result (λ found. AreClaimed index.now.history sessions.now (vec_len found) found.items) }
{
    let claims = Claims::new();
    thread::map_indices(
        rt,
        alloc,
        workers,
        &|_worker: usize| -> Result<OrderedSessions, AllocError>
            requires { IsOrderBy index.now.history [] order.now × (¬ LacksSource index.now.history)
                × ListsSessions index.now.history (length index.now.history.1) sessions.now }
            ensures { IfOk result (AreOrderedSessions index.entry.now.history sessions.entry.now) }
        { order_claimed(alloc, index, order, sessions, &claims) },
    )
}

/// What the sessions show that workers claimed. Of those without such an order the one at the least place is kept.
fn join_claimed(
    alloc: Global,
    _index: &LongIndex,
    _sessions: &[u32],
    mut parts: Vec<Result<OrderedSessions, AllocError>>,
) -> Result<OrderedSessions, AllocError>
    requires each { AreClaimed _index.now.history _sessions.now (vec_len parts) parts.items }
    ensures { IfOk result (AreOrderedSessions _index.now.history _sessions.now) }
{
    let mut whole = OrderedSessions::none(alloc);
    while let Some(part) = parts.pop() {
        let OrderedSessions {
            mut places,
            unexplained,
        } = part?;
        whole.places.append(&mut places)?;
        whole.unexplained = earlier(unexplained, whole.unexplained);
    }
    Ok(whole)
}

/// What all sessions show, once those are ordered that nobody claimed.
fn order_left(
    alloc: Global,
    index: &LongIndex,
    order: &[u32],
    sessions: &[u32],
    found: OrderedSessions,
) -> Result<SessionOrder, AllocError>
    requires order { IsOrderBy index.now.history [] order.now }
    requires sources { ¬ LacksSource index.now.history }
    requires sessions { ListsSessions index.now.history (length index.now.history.1) sessions.now }
    requires found { AreOrderedSessions index.now.history sessions.now found }
    ensures { IfOk result (AreOrdered index.now.history) }
{
    if let Some(unexplained) = found.unexplained {
        return Ok(unexplained.order);
    }
    let rest = unclaimed(alloc, &found.places, sessions.len())?;
    order_places(alloc, index, order, sessions, &rest)
}

/// The one of two that is at the lesser place, if there is one.
fn earlier(a: Option<Unexplained>, b: Option<Unexplained>) -> Option<Unexplained>
    ensures { IsEarlier a b result }
{
    match (a, b) {
        (Some(a), Some(b)) => { if b.place < a.place { Some(b) } else { Some(a) } }
        (Some(a), None) => Some(a),
        (None, b) => b,
    }
}
