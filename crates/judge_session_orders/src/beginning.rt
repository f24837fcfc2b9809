//! How the order of a session begins: what is in the past of its last operation is left, and counted.
//!
//! Most of a history is in that past. So the whole history is counted once, and the rest is taken out.

ghost use Rattle.std.specs.Prelude.{◌≡◌, ◌≢◌, ◌<◌, ◌≤◌, ◌+◌, ℕ, [], length, max, slice_index_or, IfOk};
ghost use Rattle.model_history.specs.History.{many_before};
ghost use Rattle.order_memory.specs.Memory.{IsDifferentiated};
ghost use Rattle.judge_memory.specs.Steps.{IsOrderBy};
ghost use Rattle.judge_session_orders.specs.Beginnings.{AreEndsWithin, IsBeginning, IsLeftOnly, IsWhole};
ghost use Rattle.judge_session_orders.specs.OnItsWay.{CountsUpTo, HasCounts, HasSizes, IsClear, IsKnown, IsOnItsWay, left_of};

use crate::backward::Backward;
use crate::numbers::take_one;
use crate::pasts::leave_past;
use crate::read_edges::{ReadEdge, read_edges};
use judge_memory::{LongIndex, Part};
use std::alloc::{AllocError, Global};

/// What the orders of all sessions begin with.
#[derive(Drop)]
pub(crate) struct Beginning {
    /// The state with everything left.
    pub(crate) whole: Backward,
    /// For each session, the number after that of its last operation in the past that was found last.
    pub(crate) pasts: Vec<u32>,
    /// The edges of the known reads of written values, from the last read of the order to the first.
    pub(crate) edges: Vec<ReadEdge>,
}

impl Beginning {
    /// Counts a whole history, and lists the edges of its reads. Fails for want of memory alone. O(n + k) for n operations of k sessions.
    pub(crate) fn of(
        alloc: Global,
        index: &LongIndex,
        order: &[u32],
    ) -> Result<Beginning, AllocError>
        requires { IsOrderBy index.now.history [] order.now }
        ensures { IfOk result (IsBeginning index.now order.now) }
    {
        Ok(Beginning {
            whole: Backward::whole(alloc, index)?,
            pasts: vec![in alloc; 0; index.sessions() as usize]?,
            edges: read_edges(alloc, index, order)?,
        })
    }

    /// Starts from a state with nothing left: leaves the past of the last operation of a session. O(n + k) for n operations of k sessions.
    pub(crate) fn begin(
        &mut self,
        index: &LongIndex,
        order: &[u32],
        own: u32,
        backward: &mut Backward,
    )
        requires known { IsKnown index.now own }
        requires order { IsOrderBy index.now.history [] order.now }
        requires clear { IsClear index.now backward.old }
        requires beginning { IsBeginning index.now order.now self.old }
        ensures on_its_way { IsOnItsWay index.now backward.new }
        ensures own { backward.new.own ≡ own }
        ensures beginning { IsBeginning index.now order.now self.new }
    {
        self.pasts.fill(0);
        leave_past(index, order, &self.edges, own, &mut self.pasts);
        backward.own = own;
        backward.start = false;
        backward.copy_left(&self.whole);
        backward.leave_only(index, &self.pasts);
    }
}

impl Backward {
    /// The state with everything left. Fails for want of memory alone. O(n + k) for n operations of k sessions.
    fn whole(alloc: Global, index: &LongIndex) -> Result<Backward, AllocError>
        ensures { IfOk result (IsWhole index.now) }
    {
        index.value_is_indexed();
        let mut whole = Backward::clear(alloc, index)?;
        whole.leave_all(index);
        whole.count(index);
        Ok(whole)
    }

    /// Leaves everything, of a state with nothing left, and counts nothing. O(k) for k sessions.
    fn leave_all(&mut self, index: &LongIndex)
        requires clear { IsClear index.now self.old }
        ensures sizes { HasSizes index.now self.new }
        ensures zero { CountsUpTo 0 self.new }
        ensures ends { (t : ℕ) → t < length index.now.history.1
            → slice_index_or self.new.ends.items t 0 ≡ many_before index.now.history (t + 1) }
    {
        for session in 0..index.sessions() {
            self.ends[session as usize] = index.end(session);
        }
    }

    /// Copies from a state of the same history what is left, and its counts. O(n + k) for n operations of k sessions.
    fn copy_left(&mut self, whole: &Backward)
        requires ends { length self.old.ends.items ≡ length whole.now.ends.items }
        requires readers { length self.old.readers.items ≡ length whole.now.readers.items }
        requires writes { length self.old.writes.items ≡ length whole.now.writes.items }
        ensures ends { self.new.ends.items ≡ whole.now.ends.items }
        ensures readers { self.new.readers.items ≡ whole.now.readers.items }
        ensures writes { self.new.writes.items ≡ whole.now.writes.items }
        ensures locks { self.new.locks.items ≡ self.old.locks.items }
        ensures own { self.new.own ≡ self.old.own }
        ensures start { self.new.start ≡ self.old.start }
    {
        self.ends.copy_from_slice(&whole.ends);
        self.readers.copy_from_slice(&whole.readers);
        self.writes.copy_from_slice(&whole.writes);
    }

    /// Takes out of a state with everything left the operations at these ends and after them. O(k + m) for k sessions and m operations that
    /// it takes out.
    fn leave_only(&mut self, index: &LongIndex, pasts: &[u32])
        requires distinct { IsDifferentiated index.now.history }
        requires whole { IsWhole index.now self.old }
        requires pasts { AreEndsWithin index.now.history pasts.now }
        ensures sizes { HasSizes index.now self.new }
        ensures counts { HasCounts index.now (left_of index.now.history self.new) self.new }
        ensures only { IsLeftOnly index.now.history (length index.now.history.1) pasts.now self.new.ends.items }
        ensures locks { self.new.locks.items ≡ self.old.locks.items }
        ensures own { self.new.own ≡ self.old.own }
        ensures start { self.new.start ≡ self.old.start }
    {
        for session in 0..index.sessions() {
            let past = pasts[session as usize];
            self.leave_before(index, session, past.max(index.start(session)));
        }
    }

    /// Takes out the operations of a session from an end on. O(m) for m operations that it takes out.
    fn leave_before(&mut self, index: &LongIndex, session: u32, end: u32)
        requires exists { session < length index.now.history.1 }
        requires distinct { IsDifferentiated index.now.history }
        requires sizes { HasSizes index.now self.old }
        requires counts { HasCounts index.now (left_of index.now.history self.old) self.old }
        requires from { many_before index.now.history session ≤ end }
        requires to { end ≤ slice_index_or self.old.ends.items session 0 }
        requires within { slice_index_or self.old.ends.items session 0 ≤ many_before index.now.history (session + 1) }
        ensures sizes { HasSizes index.now self.new }
        ensures counts { HasCounts index.now (left_of index.now.history self.new) self.new }
        ensures end { slice_index_or self.new.ends.items session 0 ≡ end }
        ensures others { (t : ℕ) → t ≢ session → slice_index_or self.new.ends.items t 0 ≡ slice_index_or self.old.ends.items t 0 }
        ensures locks { self.new.locks.items ≡ self.old.locks.items }
        ensures own { self.new.own ≡ self.old.own }
        ensures start { self.new.start ≡ self.old.start }
    {
        while self.ends[session as usize] > end {
            self.take_last(index, session);
        }
    }

    /// Takes out the last operation of a session that is still left. O(1).
    fn take_last(&mut self, index: &LongIndex, session: u32)
        requires exists { session < length index.now.history.1 }
        requires distinct { IsDifferentiated index.now.history }
        requires sizes { HasSizes index.now self.old }
        requires counts { HasCounts index.now (left_of index.now.history self.old) self.old }
        requires some { many_before index.now.history session < slice_index_or self.old.ends.items session 0 }
        requires within { slice_index_or self.old.ends.items session 0 ≤ many_before index.now.history (session + 1) }
        ensures sizes { HasSizes index.now self.new }
        ensures counts { HasCounts index.now (left_of index.now.history self.new) self.new }
        ensures less { slice_index_or self.old.ends.items session 0 ≡ slice_index_or self.new.ends.items session 0 + 1 }
        ensures others { (t : ℕ) → t ≢ session → slice_index_or self.new.ends.items t 0 ≡ slice_index_or self.old.ends.items t 0 }
        ensures locks { self.new.locks.items ≡ self.old.locks.items }
        ensures own { self.new.own ≡ self.old.own }
        ensures start { self.new.start ≡ self.old.start }
    {
        let last = self.ends[session as usize] - 1;
        take_one(&mut self.ends, session);
        match index.part(last) {
            Part::Write => take_one(&mut self.writes, index.variable(last)),
            Part::SourcedRead(source) => take_one(&mut self.readers, source),
            Part::InitialRead | Part::ThinAirRead | Part::UnknownRead => {}
        }
    }
}
