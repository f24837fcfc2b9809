//! Schedules in the order in which a store had taken in updates.

ghost use Rattle.std.specs.Prelude.{◌≡◌, ◌<◌, ◌≤◌, ◌↔◌, ℕ, IsTrue, not, length, IfOk, IfSome, MatchOption, OnOk};
ghost use Rattle.model_history.specs.History.{IsOp, session as operations_of};
ghost use Rattle.cert_make.specs.ByOrder.{AreAsked, GoesByOrder, HasNoUpdate, IsNamed, IsNextUpdate, MayCome};
ghost use Rattle.cert_make.specs.ByOrder.{is_query, is_update, many_first, order_at};

use crate::schedule::place_before;
use model_history::{Advice, History, MAX_OPERATIONS, MAX_SESSIONS, OpId};
use model_object_trait::SeqObject;
use order_causal::Walk;
use std::alloc::{AllocError, Global};

/// The order in the advice on the operation at an index of a session; empty where there is no advice.
pub(crate) fn order_at(reported: &[Option<Advice>], index: usize) -> &[u8]
    requires { index < length reported.now }
    ensures { result.now ≡ order_at reported.now index }
{
    match &reported[index] {
        Some(advice) => advice.order.sessions(),
        None => &[],
    }
}

/// The schedule of an operation by the order in its advice: what each entry but the last names, the own queries once they
/// are due, and the operation itself.
///
/// Fails for want of memory alone. O(m + p) for an order of m entries and p operations that are placed.
pub(crate) fn schedule_by_order<O: SeqObject>(
    alloc: Global,
    h: &History<O>,
    reported: &[Option<Advice>],
    op: OpId,
) -> Result<Vec<u8>, AllocError>
    requires few { length h.now.1 ≤ MAX_SESSIONS }
    requires is_op { IsOp h.now op }
    requires short { op.index < MAX_OPERATIONS }
    requires reported { length reported.now ≡ length (operations_of h.now op.session) }
    ensures { IfOk result (λ schedule. GoesByOrder O.query h.now reported.now op schedule.items) }
{
    let order = order_at(reported, op.place());
    let mut walk = Walk::new(alloc);
    for done in 0..many_first(reported, op.place()) {
        ask(h, reported, op, Some(done), &mut walk)?;
        name(h, usize::from(order[done]), &mut walk)?;
    }
    ask(h, reported, op, None, &mut walk)?;
    let mut schedule = walk.into_schedule();
    schedule.push(op.session as u8)?;
    Ok(schedule)
}

/// How many entries of the order of an operation come before that of the operation itself.
fn many_first(reported: &[Option<Advice>], index: usize) -> usize
    requires { index < length reported.now }
    ensures { result ≡ many_first reported.now index }
{
    order_at(reported, index).len().saturating_sub(1)
}

/// Places the next own queries of an operation, as far as they may come.
#[tactic(auto, using(crate::proofs::Placing::session_there))]
fn ask<O: SeqObject>(
    h: &History<O>,
    reported: &[Option<Advice>],
    op: OpId,
    done: Option<usize>,
    walk: &mut Walk,
) -> Result<(), AllocError>
    requires few { length h.now.1 ≤ MAX_SESSIONS }
    requires is_op { IsOp h.now op }
    requires short { op.index < MAX_OPERATIONS }
    requires reported { length reported.now ≡ length (operations_of h.now op.session) }
    ensures { OnOk result (AreAsked O.query h.now reported.now op done walk.old walk.new) }
{
    let session = op.session_place();
    let end = end_of_asked(h, reported, op, done, walk.placed(session));
    place_before(walk, session, end)
}

/// The index up to which, from a given one on, the own queries of an operation may come.
fn end_of_asked<O: SeqObject>(
    h: &History<O>,
    reported: &[Option<Advice>],
    op: OpId,
    done: Option<usize>,
    from: usize,
) -> usize
    requires is_op { IsOp h.now op }
    requires reported { length reported.now ≡ length (operations_of h.now op.session) }
    ensures behind { from ≤ result }
    ensures short { from < result → result ≤ op.index }
    ensures each { (i : ℕ) → from ≤ i → i < result → MayCome O.query h.now reported.now op done i }
    ensures last { ¬ MayCome O.query h.now reported.now op done result }
{
    let mut end = from;
    while may_come(h, reported, op, done, end) {
        end += 1;
    }
    end
}

/// Whether an own query before an operation may come.
fn may_come<O: SeqObject>(
    h: &History<O>,
    reported: &[Option<Advice>],
    op: OpId,
    done: Option<usize>,
    index: usize,
) -> bool
    requires is_op { IsOp h.now op }
    requires reported { length reported.now ≡ length (operations_of h.now op.session) }
    ensures { IsTrue result ↔ MayCome O.query h.now reported.now op done index }
{
    if index >= op.place() || !is_query(h, OpId::at(op.session_place(), index)) {
        return false;
    }
    match done {
        Some(done) => many_first(reported, index) <= done,
        None => true,
    }
}

/// Places the next update of a session, with the queries before it directly before it; places nothing if there is no update.
fn name<O: SeqObject>(h: &History<O>, session: usize, walk: &mut Walk) -> Result<(), AllocError>
    requires few { length h.now.1 ≤ MAX_SESSIONS }
    ensures { OnOk result (IsNamed O.query h.now session walk.old walk.new) }
{
    match next_update(h, session, walk.placed(session)) {
        Some(index) => place_before(walk, session, index + 1),
        None => Ok(()),
    }
}

/// The first update of a session from an index on.
#[tactic(auto, using(crate::proofs::Placing::past_update, crate::proofs::Placing::session_there))]
fn next_update<O: SeqObject>(h: &History<O>, session: usize, from: usize) -> Option<usize>
    ensures next { MatchOption result (HasNoUpdate O.query h.now session from) (IsNextUpdate O.query h.now session from) }
    ensures short { IfSome result (λ i. i < MAX_OPERATIONS) }
    ensures there { IfSome result (λ _. session < length h.now.1) }
{
    for index in from..h.len(session) {
        if !is_query(h, OpId::at(session, index)) {
            return Some(index);
        }
    }
    None
}

/// Whether an operation is a query.
fn is_query<O: SeqObject>(h: &History<O>, op: OpId) -> bool
    requires { IsOp h.now op }
    ensures query { result ≡ is_query O.query h.now op }
    ensures update { is_update O.query h.now op ≡ not result }
{
    O::is_query(&h.call(op))
}
