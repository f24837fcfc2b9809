//! Orders of some sessions.

ghost use Rattle.std.specs.Prelude.{◌≡◌, ◌⊎◌, ◌<◌, ℕ, [], None, length, IfOk, IsTrue};
ghost use Rattle.judge_workers.specs.Numbers.{HasNumber};
ghost use Rattle.judge_memory.specs.Steps.{IsOrderBy, many};
ghost use Rattle.order_memory.specs.SourceOrder.{LacksSource};
ghost use Rattle.judge_session_orders.specs.Backward.{IsOpen};
ghost use Rattle.judge_session_orders.specs.Beginnings.{IsBeginning};
ghost use Rattle.judge_session_orders.specs.declared.ordering.SessionOrder.TheVariants.{Explained};
ghost use Rattle.judge_session_orders.specs.LoneSources.{CountsWrites};
ghost use Rattle.judge_session_orders.specs.OnItsWay.{CanBePlaced, IsAwake, IsClear, IsKnown, IsOnItsWay, IsStopped, ListsSessions};
ghost use Rattle.judge_session_orders.specs.OnItsWay.{left_of, many_left};
ghost use Rattle.judge_session_orders.specs.OrderedSessions.{AreOrderedSessions, IsOrderedAt};
ghost use Rattle.judge_session_orders.specs.SessionOrders.{AreOrdered, IsOutcome};

use crate::backward::Backward;
use crate::beginning::Beginning;
use crate::lone_sources::{count_writes, may_lack_order};
use crate::turns::Turns;
use judge_memory::LongIndex;
use judge_workers::Claims;
use std::alloc::{AllocError, Global};

/// Whether sessions have orders of what is before their last operations.
#[derive(Clone, Copy, Debug, PartialEq, Eq)]
pub enum SessionOrder {
    /// Each has one in which its known reads read what was last written.
    Explained,
    /// In the happened-before relation of some operation a write comes before a read of the initial value of its variable. The read is
    /// that operation or comes before it in program order.
    StartOverwritten,
    /// In the happened-before relation of some operation an operation comes before itself.
    Cyclic,
}

/// A session that has no such order.
#[derive(Clone, Copy, Debug)]
pub(crate) struct Unexplained {
    /// Its place in the list of the sessions.
    pub(crate) place: usize,
    /// What shows that it has none.
    pub(crate) order: SessionOrder,
}

/// What some sessions of a list show.
#[derive(Drop)]
pub(crate) struct OrderedSessions {
    /// The places of those that have such orders.
    pub(crate) places: Vec<usize>,
    /// A session that has none, if one was found.
    pub(crate) unexplained: Option<Unexplained>,
}

impl OrderedSessions {
    /// No sessions.
    pub(crate) fn none(alloc: Global) -> OrderedSessions
        ensures places { result.places.items ≡ [] }
        ensures unexplained { result.unexplained ≡ None }
    {
        OrderedSessions {
            places: Vec::new(alloc),
            unexplained: None,
        }
    }
}

/// What the sessions show that the calling thread claims, until none is left or one has no such order.
///
/// Fails for want of memory alone. O(n) for n operations for each session that it claims, and O(n + k) numbers of memory for k sessions
/// in all, of which four are for each known read of a written value.
// A function of its own keeps its loops in registers.
#[inline(never)]
pub(crate) fn order_claimed(
    alloc: Global,
    index: &LongIndex,
    order: &[u32],
    sessions: &[u32],
    claims: &Claims,
) -> Result<OrderedSessions, AllocError>
    requires order { IsOrderBy index.now.history [] order.now }
    requires sources { ¬ LacksSource index.now.history }
    requires sessions { ListsSessions index.now.history (length index.now.history.1) sessions.now }
    ensures { IfOk result (AreOrderedSessions index.now.history sessions.now) }
{
    index.value_is_indexed();
    let mut beginning = Beginning::of(alloc, index, order)?;
    let mut backward = Backward::clear(alloc, index)?;
    let mut turns = Turns::of(alloc, index)?;
    let counts = count_writes(alloc, index)?;
    order_each_claimed(
        alloc,
        index,
        order,
        sessions,
        claims,
        &counts,
        &mut beginning,
        &mut backward,
        &mut turns,
    )
}

/// The same by arrays that are made once for all sessions.
#[inline(always)]
fn order_each_claimed(
    alloc: Global,
    index: &LongIndex,
    order: &[u32],
    sessions: &[u32],
    claims: &Claims,
    counts: &[u32],
    beginning: &mut Beginning,
    backward: &mut Backward,
    turns: &mut Turns,
) -> Result<OrderedSessions, AllocError>
    requires order { IsOrderBy index.now.history [] order.now }
    requires sources { ¬ LacksSource index.now.history }
    requires sessions { ListsSessions index.now.history (length index.now.history.1) sessions.now }
    requires size { length counts.now ≡ index.now.bound }
    requires counts { CountsWrites index.now.history index.now.variables (many index.now.history) counts.now }
    requires beginning { IsBeginning index.now order.now beginning.old }
    requires clear { IsClear index.now backward.old }
    requires turns { ListsSessions index.now.history (length index.now.history.1) turns.old.sessions.items }
    ensures { IfOk result (AreOrderedSessions index.now.history sessions.now) }
{
    index.value_is_indexed();
    let mut found = OrderedSessions::none(alloc);
    for _claim in 0..sessions.len() {
        let Some(place) = claims.next_below(sessions.len()) else {
            return Ok(found);
        };
        let shown = order_where_needed(
            index,
            order,
            counts,
            sessions[place],
            beginning,
            backward,
            turns,
        )?;
        match shown {
            SessionOrder::Explained => found.places.push(place)?,
            _ => {
                found.unexplained = Some(Unexplained {
                    place,
                    order: shown,
                });
                return Ok(found);
            }
        }
    }
    Ok(found)
}

/// What all sessions of a list show, once those at some places are ordered too, in order, as far as the first that has no such order.
///
/// It costs what [`order_claimed`] does, or nothing where there are no such places.
#[inline(never)]
pub(crate) fn order_places(
    alloc: Global,
    index: &LongIndex,
    order: &[u32],
    sessions: &[u32],
    places: &[usize],
) -> Result<SessionOrder, AllocError>
    requires order { IsOrderBy index.now.history [] order.now }
    requires sources { ¬ LacksSource index.now.history }
    requires sessions { ListsSessions index.now.history (length index.now.history.1) sessions.now }
    requires below { (k : ℕ) → HasNumber places.now k → k < length sessions.now }
    requires others { (k : ℕ) → k < length sessions.now → HasNumber places.now k ⊎ IsOrderedAt index.now.history sessions.now k }
    ensures { IfOk result (AreOrdered index.now.history) }
{
    if places.is_empty() {
        return Ok(SessionOrder::Explained);
    }
    index.value_is_indexed();
    let mut beginning = Beginning::of(alloc, index, order)?;
    let mut backward = Backward::clear(alloc, index)?;
    let mut turns = Turns::of(alloc, index)?;
    let counts = count_writes(alloc, index)?;
    order_each_place(
        index,
        order,
        sessions,
        places,
        &counts,
        &mut beginning,
        &mut backward,
        &mut turns,
    )
}

/// The same by arrays that are made once for all sessions.
#[inline(always)]
fn order_each_place(
    index: &LongIndex,
    order: &[u32],
    sessions: &[u32],
    places: &[usize],
    counts: &[u32],
    beginning: &mut Beginning,
    backward: &mut Backward,
    turns: &mut Turns,
) -> Result<SessionOrder, AllocError>
    requires order { IsOrderBy index.now.history [] order.now }
    requires sources { ¬ LacksSource index.now.history }
    requires sessions { ListsSessions index.now.history (length index.now.history.1) sessions.now }
    requires below { (k : ℕ) → HasNumber places.now k → k < length sessions.now }
    requires others { (k : ℕ) → k < length sessions.now → HasNumber places.now k ⊎ IsOrderedAt index.now.history sessions.now k }
    requires size { length counts.now ≡ index.now.bound }
    requires counts { CountsWrites index.now.history index.now.variables (many index.now.history) counts.now }
    requires beginning { IsBeginning index.now order.now beginning.old }
    requires clear { IsClear index.now backward.old }
    requires turns { ListsSessions index.now.history (length index.now.history.1) turns.old.sessions.items }
    ensures { IfOk result (AreOrdered index.now.history) }
{
    index.value_is_indexed();
    for i in 0..places.len() {
        let shown = order_where_needed(
            index,
            order,
            counts,
            sessions[places[i]],
            beginning,
            backward,
            turns,
        )?;
        match shown {
            SessionOrder::Explained => {}
            _ => return Ok(shown),
        }
    }
    Ok(SessionOrder::Explained)
}

/// Orders one session, unless it has an order for certain. Nothing is left before, nor after if it is explained.
// In each loop that calls it the arrays are locals, whose places are kept in registers.
#[inline(always)]
fn order_where_needed(
    index: &LongIndex,
    order: &[u32],
    counts: &[u32],
    own: u32,
    beginning: &mut Beginning,
    backward: &mut Backward,
    turns: &mut Turns,
) -> Result<SessionOrder, AllocError>
    requires known { IsKnown index.now own }
    requires order { IsOrderBy index.now.history [] order.now }
    requires sources { ¬ LacksSource index.now.history }
    requires size { length counts.now ≡ index.now.bound }
    requires counts { CountsWrites index.now.history index.now.variables (many index.now.history) counts.now }
    requires beginning { IsBeginning index.now order.now beginning.old }
    requires clear { IsClear index.now backward.old }
    requires sessions { ListsSessions index.now.history (length index.now.history.1) turns.old.sessions.items }
    ensures outcome { IfOk result (IsOutcome index.now.history own) }
    ensures beginning { IfOk result (λ _. IsBeginning index.now order.now beginning.new) }
    ensures clear { IfOk result (λ outcome. outcome ≡ Explained → IsClear index.now backward.new) }
    ensures sessions { IfOk result (λ _. turns.new.sessions.items ≡ turns.old.sessions.items) }
{
    if may_lack_order(index, counts, own) {
        order_session(index, order, own, beginning, backward, turns)
    } else {
        Ok(SessionOrder::Explained)
    }
}

/// Orders one session. Nothing is left before, nor after if it is explained.
fn order_session(
    index: &LongIndex,
    order: &[u32],
    own: u32,
    beginning: &mut Beginning,
    backward: &mut Backward,
    turns: &mut Turns,
) -> Result<SessionOrder, AllocError>
    requires known { IsKnown index.now own }
    requires order { IsOrderBy index.now.history [] order.now }
    requires sources { ¬ LacksSource index.now.history }
    requires beginning { IsBeginning index.now order.now beginning.old }
    requires clear { IsClear index.now backward.old }
    requires sessions { ListsSessions index.now.history (length index.now.history.1) turns.old.sessions.items }
    ensures outcome { IfOk result (IsOutcome index.now.history own) }
    ensures beginning { IfOk result (λ _. IsBeginning index.now order.now beginning.new) }
    ensures clear { IfOk result (λ outcome. outcome ≡ Explained → IsClear index.now backward.new) }
    ensures sessions { IfOk result (λ _. turns.new.sessions.items ≡ turns.old.sessions.items) }
{
    beginning.begin(index, order, own, backward);
    turns.wake_all()?;
    while let Some(session) = backward.next_session(index, turns) {
        backward.place_run(index, session, turns)?;
    }
    Ok(backward.outcome(index, &turns.sessions))
}

impl Backward {
    /// Places operations of a session from its end as long as it can go on, but of the own session one. O(1) an operation, beside what
    /// hints cost.
    fn place_run(
        &mut self,
        index: &LongIndex,
        session: u32,
        turns: &mut Turns,
    ) -> Result<(), AllocError>
        requires next { CanBePlaced index.now self.old session }
        requires sessions { ListsSessions index.now.history (length index.now.history.1) turns.old.sessions.items }
        requires awake { IsAwake index.now self.old turns.old.awake.items }
        ensures on_its_way { IfOk result (λ _. IsOnItsWay index.now self.new) }
        ensures own { IfOk result (λ _. self.new.own ≡ self.old.own) }
        ensures sessions { IfOk result (λ _. turns.new.sessions.items ≡ turns.old.sessions.items) }
        ensures awake { IfOk result (λ _. IsAwake index.now self.new turns.new.awake.items) }
        ensures fewer { IfOk result (λ _. many_left index.now.history self.new < many_left index.now.history self.old) }
    {
        let mut goes_on = true;
        while goes_on {
            let hint = self.place(index, session);
            turns.take_hint(hint)?;
            goes_on = self.is_free_other(index, session);
        }
        Ok(())
    }

    /// The result for the own session, once no session can go on.
    fn outcome(&self, index: &LongIndex, sessions: &[u32]) -> SessionOrder
        requires on_its_way { IsOnItsWay index.now self.now }
        requires sources { ¬ LacksSource index.now.history }
        requires sessions { ListsSessions index.now.history (length index.now.history.1) sessions.now }
        requires stuck { (t : ℕ) → IsOpen (left_of index.now.history self.now) t → IsStopped index.now self.now t }
        ensures outcome { IsOutcome index.now.history self.now.own result }
        ensures clear { result ≡ Explained → IsClear index.now self.now }
    {
        if self.is_any_left(index, sessions) {
            SessionOrder::Cyclic
        } else if self.start {
            SessionOrder::StartOverwritten
        } else {
            SessionOrder::Explained
        }
    }

    /// Whether an operation is left.
    fn is_any_left(&self, index: &LongIndex, sessions: &[u32]) -> bool
        requires on_its_way { IsOnItsWay index.now self.now }
        requires sessions { ListsSessions index.now.history (length index.now.history.1) sessions.now }
        ensures some { IsTrue result → (t : ℕ) × IsOpen (left_of index.now.history self.now) t }
        ensures none { ¬ IsTrue result → (t : ℕ) → ¬ IsOpen (left_of index.now.history self.now) t }
    {
        for i in 0..sessions.len() {
            if self.ends[sessions[i] as usize] > index.start(sessions[i]) {
                return true;
            }
        }
        false
    }
}
