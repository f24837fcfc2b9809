//! Which session goes on next.

ghost use Rattle.std.specs.Prelude.{◌≡◌, ◌≢◌, ◌⊎◌, ◌<◌, ◌≤◌, ◌+◌, ℕ, length, slice_index_or};
ghost use Rattle.std.specs.Prelude.{IfNone, IfOk, IfSome, IsTrue};
ghost use Rattle.judge_session_orders.specs.Backward.{AreOthersBlocked, HasReadLeft, IsOpen, last_left};
ghost use Rattle.judge_session_orders.specs.OnItsWay.{AreStopped, CanBePlaced, IsAwake, IsOnItsWay, IsStopped, ListsSessions, left_of};
ghost use Rattle.judge_session_orders.specs.SessionOrders.{last_op};
ghost use Rattle.judge_session_orders.specs.Turns.{IsTakenOut, IsWoken};

use crate::backward::Backward;
use judge_memory::LongIndex;
use std::alloc::{AllocError, Global};

/// The order in which sessions are asked whether they can go on.
///
/// Hints only save time: a session is tested before it is taken.
#[derive(Drop)]
pub(crate) struct Turns {
    /// The sessions that have operations.
    pub(crate) sessions: Vec<u32>,
    /// The sessions that are asked in turn. Others can't go on: nothing of them is left, or a read of their last operation is.
    pub(crate) awake: Vec<u32>,
    /// The place in `awake` of the session that was found last.
    pub(crate) at: usize,
    /// Sessions that may be able to go on, the newest hint last.
    pub(crate) hints: Vec<u32>,
}

impl Turns {
    /// The turns of the sessions of a history. O(k) for k sessions.
    pub(crate) fn of(alloc: Global, index: &LongIndex) -> Result<Turns, AllocError>
        ensures { IfOk result (λ turns. ListsSessions index.now.history (length index.now.history.1) turns.sessions.items) }
    {
        let mut sessions = Vec::new(alloc);
        for session in 0..index.sessions() {
            list_session(index, session, &mut sessions)?;
        }
        Ok(Turns {
            sessions,
            awake: Vec::new(alloc),
            at: 0,
            hints: Vec::new(alloc),
        })
    }

    /// Asks all sessions that have operations. O(k) for k of them.
    pub(crate) fn wake_all(&mut self) -> Result<(), AllocError>
        ensures sessions { IfOk result (λ _. self.new.sessions.items ≡ self.old.sessions.items) }
        ensures awake { IfOk result (λ _. self.new.awake.items ≡ self.old.sessions.items) }
    {
        self.awake = self.sessions.clone()?;
        Ok(())
    }

    /// Takes a hint, if there is one. If hints have made `awake` longer than about twice `sessions`, it has each session once again.
    ///
    /// O(1), and O(k) for k sessions once in about k hints.
    pub(crate) fn take_hint(&mut self, hint: Option<u32>) -> Result<(), AllocError>
        ensures sessions { IfOk result (λ _. self.new.sessions.items ≡ self.old.sessions.items) }
        ensures awake { IfOk result (λ _. IsWoken self.old.awake.items hint self.new.awake.items
            ⊎ (self.new.awake.items ≡ self.old.sessions.items)) }
    {
        if let Some(session) = hint {
            self.hints.push(session)?;
            self.awake.push(session)?;
            self.limit()?;
        }
        Ok(())
    }

    /// Puts each session into `awake` once, if it is longer than about twice `sessions`. O(k) for k sessions.
    fn limit(&mut self) -> Result<(), AllocError>
        ensures sessions { IfOk result (λ _. self.new.sessions.items ≡ self.old.sessions.items) }
        ensures awake { IfOk result (λ _. (self.new.awake.items ≡ self.old.awake.items)
            ⊎ (self.new.awake.items ≡ self.old.sessions.items)) }
    {
        if self.awake.len() / 2 > self.sessions.len() {
            return self.wake_all();
        }
        Ok(())
    }
}

/// Appends a session to the list of those before it, if it has operations.
fn list_session(index: &LongIndex, session: u32, sessions: &mut Vec<u32>) -> Result<(), AllocError>
    requires exists { session < length index.now.history.1 }
    requires before { ListsSessions index.now.history session sessions.old.items }
    ensures { IfOk result (λ _. ListsSessions index.now.history (session + 1) sessions.new.items) }
{
    if index.start(session) < index.end(session) {
        sessions.push(session)?;
    }
    Ok(())
}

impl Backward {
    /// The session whose last operation that is left is placed next: another session if one can go on, else the own session, and none
    /// if that can't either.
    ///
    /// O(1) where a hint is good, else O(k) for k sessions that are asked.
    pub(crate) fn next_session(&self, index: &LongIndex, turns: &mut Turns) -> Option<u32>
        requires on_its_way { IsOnItsWay index.now self.now }
        requires awake { IsAwake index.now self.now turns.old.awake.items }
        ensures sessions { turns.new.sessions.items ≡ turns.old.sessions.items }
        ensures awake { IsAwake index.now self.now turns.new.awake.items }
        ensures next { IfSome result (CanBePlaced index.now self.now) }
        ensures stuck { IfNone result ((t : ℕ) → IsOpen (left_of index.now.history self.now) t → IsStopped index.now self.now t) }
    {
        if let Some(session) = self.hinted(index, &mut turns.hints) {
            return Some(session);
        }
        if let Some(place) = self.free_other(index, &turns.awake, turns.at) {
            turns.at = place;
            return Some(turns.awake[place]);
        }
        self.let_sleep(index, &mut turns.awake);
        if self.is_free(index, self.own) {
            Some(self.own)
        } else {
            None
        }
    }

    /// The session of the newest hint that is good. Drops the newer hints, which are not.
    fn hinted(&self, index: &LongIndex, hints: &mut Vec<u32>) -> Option<u32>
        requires { IsOnItsWay index.now self.now }
        ensures { IfSome result (CanBePlaced index.now self.now) }
    {
        while let Some(session) = hints.last().copied() {
            if session < index.sessions() && self.is_free_other(index, session) {
                return Some(session);
            }
            let _dropped = hints.pop();
        }
        None
    }

    /// The place of the first other session that can go on, from a place on and then from the start.
    fn free_other(&self, index: &LongIndex, sessions: &[u32], at: usize) -> Option<usize>
        requires on_its_way { IsOnItsWay index.now self.now }
        requires awake { IsAwake index.now self.now sessions.now }
        ensures inside { IfSome result (λ place. place < length sessions.now) }
        ensures next { IfSome result (λ place. CanBePlaced index.now self.now (slice_index_or sessions.now place 0)) }
        ensures none { IfNone result
            (AreOthersBlocked index.now.history (last_op index.now.history self.now.own) (left_of index.now.history self.now)) }
    {
        let at = at.min(sessions.len());
        match self.free_among(index, sessions, at, sessions.len()) {
            Some(place) => Some(place),
            None => self.free_among(index, sessions, 0, at),
        }
    }

    /// The first place in a range of another session that can go on.
    fn free_among(
        &self,
        index: &LongIndex,
        sessions: &[u32],
        from: usize,
        end: usize,
    ) -> Option<usize>
        requires on_its_way { IsOnItsWay index.now self.now }
        requires awake { IsAwake index.now self.now sessions.now }
        requires inside { end ≤ length sessions.now }
        ensures inside { IfSome result (λ place. place < length sessions.now) }
        ensures next { IfSome result (λ place. CanBePlaced index.now self.now (slice_index_or sessions.now place 0)) }
        ensures none { IfNone result (AreStopped index.now self.now sessions.now from end) }
    {
        for place in from..end {
            if self.is_free_other(index, sessions[place]) {
                return Some(place);
            }
        }
        None
    }

    /// Whether a session is not the own one and can go on.
    pub(crate) fn is_free_other(&self, index: &LongIndex, session: u32) -> bool
        requires on_its_way { IsOnItsWay index.now self.now }
        requires exists { session < length index.now.history.1 }
        ensures next { IsTrue result → CanBePlaced index.now self.now session }
        ensures stopped { ¬ IsTrue result → session ≢ self.now.own → IsOpen (left_of index.now.history self.now) session
            → IsStopped index.now self.now session }
    {
        if session == self.own {
            return false;
        }
        self.is_free(index, session)
    }

    /// Stops asking the sessions of which nothing is left, or whose last operation that is left has a read left.
    fn let_sleep(&self, index: &LongIndex, awake: &mut Vec<u32>)
        requires on_its_way { IsOnItsWay index.now self.now }
        requires awake { IsAwake index.now self.now awake.old.items }
        ensures { IsAwake index.now self.now awake.new.items }
    {
        for place in (0..awake.len()).rev() {
            if self.is_asleep(index, awake[place]) {
                take_out(awake, place);
            }
        }
    }

    /// Whether nothing of a session is left, or its last operation that is left has a read left. O(1).
    fn is_asleep(&self, index: &LongIndex, session: u32) -> bool
        requires on_its_way { IsOnItsWay index.now self.now }
        requires exists { session < length index.now.history.1 }
        ensures { IsTrue result → IsOpen (left_of index.now.history self.now) session → HasReadLeft index.now.history
            (left_of index.now.history self.now) (last_left (left_of index.now.history self.now) session) }
    {
        let end = self.ends[session as usize];
        if end <= index.start(session) {
            return true;
        }
        let last = end - 1;
        self.readers[last as usize] > 0
    }
}

/// Takes a number out of a list, and moves the last one to its place.
fn take_out(list: &mut Vec<u32>, place: usize)
    requires { place < length list.old.items }
    ensures { IsTakenOut list.old.items place list.new.items }
{
    let last = list.len() - 1;
    list[place] = list[last];
    list.truncate(last);
}
