//! Placing one more operation.

ghost use Rattle.std.specs.Prelude.{◌≡◌, ◌≢◌, ◌⊎◌, ◌<◌, ℕ, length, None, Some, slice_index_or, IfSome};
ghost use Rattle.model_history.specs.declared.op_id.OpId.{OpId as Operation};
ghost use Rattle.model_history.specs.History.{IsOp, number};
ghost use Rattle.judge_memory.specs.Steps.{many};
ghost use Rattle.judge_memory.specs.declared.part.Part.TheVariants.{InitialRead, SourcedRead, Write};
ghost use Rattle.judge_memory.specs.Parts.{IsPart};
ghost use Rattle.judge_session_orders.specs.Backward.{HasReadLeft, IsOpen, last_left};
ghost use Rattle.judge_session_orders.specs.OnItsWay.{CanBePlaced, IsFreed, IsNextPart, IsOnItsWay, IsPlaced, left_of};

use crate::backward::Backward;
use crate::numbers::take_one;
use judge_memory::{LongIndex, Part};

impl Backward {
    /// Places the last operation of a session that is left, and returns a session that this may have freed to go on, if there is one.
    ///
    /// O(1).
    pub(crate) fn place(&mut self, index: &LongIndex, session: u32) -> Option<u32>
        requires { CanBePlaced index.now self.old session }
        ensures placed { IsPlaced index.now self.old self.new session }
        ensures below { IfSome result (λ s. s < length index.now.history.1) }
        ensures freed { IsFreed index.now (last_left (left_of index.now.history self.old) session) self.new result }
    {
        let last = self.ends[session as usize] - 1;
        let part = index.part(last);
        self.place_part(index, session, last, part);
        self.freed_by(index, part)
    }

    /// The session of the source of a placed read, if no other read of the source is left and nothing after the source is.
    fn freed_by(&self, index: &LongIndex, part: Part) -> Option<u32>
        requires on_its_way { IsOnItsWay index.now self.now }
        requires below { (n : ℕ) → part ≡ SourcedRead n → n < many index.now.history }
        ensures below { IfSome result (λ s. s < length index.now.history.1) }
        ensures freed { (p : Operation) → IsPart index.now.history p part → IsFreed index.now p self.now result }
    {
        if let Part::SourcedRead(source) = part {
            return self.freed(index, source);
        }
        None
    }

    /// The session of a write, if the write is left, and no read of it and nothing after it is.
    fn freed(&self, index: &LongIndex, write: u32) -> Option<u32>
        requires on_its_way { IsOnItsWay index.now self.now }
        requires below { write < many index.now.history }
        ensures below { IfSome result (λ s. s < length index.now.history.1) }
        ensures freed { (w : Operation) → IsOp index.now.history w → number index.now.history w ≡ write
            → IsOpen (left_of index.now.history self.now) w.session → w ≡ last_left (left_of index.now.history self.now) w.session
            → HasReadLeft index.now.history (left_of index.now.history self.now) w ⊎ (result ≡ Some w.session) }
    {
        let session = index.session_of(write);
        if self.readers[write as usize] > 0 {
            return None;
        }
        if self.ends[session as usize] != write + 1 {
            return None;
        }
        Some(session)
    }

    /// Places an operation, depending on its part.
    fn place_part(&mut self, index: &LongIndex, session: u32, last: u32, part: Part)
        requires next { CanBePlaced index.now self.old session }
        requires below { last < many index.now.history }
        requires source_below { (n : ℕ) → part ≡ SourcedRead n → n < many index.now.history }
        requires part { IsNextPart index.now self.old session last part }
        ensures { IsPlaced index.now self.old self.new session }
    {
        match part {
            Part::Write => self.place_write(index, session, last),
            Part::SourcedRead(source) => self.place_read(index, session, last, source),
            Part::InitialRead => self.place_initial_read(index, session, last),
            Part::ThinAirRead | Part::UnknownRead => take_one(&mut self.ends, session),
        }
    }

    /// Places a write, which opens its variable.
    fn place_write(&mut self, index: &LongIndex, session: u32, write: u32)
        requires next { CanBePlaced index.now self.old session }
        requires below { write < many index.now.history }
        requires part { IsNextPart index.now self.old session write Write }
        ensures { IsPlaced index.now self.old self.new session }
    {
        let variable = index.variable(write);
        take_one(&mut self.ends, session);
        take_one(&mut self.writes, variable);
        set_lock(&mut self.locks, variable, None);
    }

    /// Places a read of a written value; if the read is of the own session, it locks its variable for its source.
    fn place_read(&mut self, index: &LongIndex, session: u32, read: u32, source: u32)
        requires next { CanBePlaced index.now self.old session }
        requires below { read < many index.now.history }
        requires source_below { source < many index.now.history }
        requires part { IsNextPart index.now self.old session read (SourcedRead source) }
        ensures { IsPlaced index.now self.old self.new session }
    {
        take_one(&mut self.ends, session);
        take_one(&mut self.readers, source);
        if session == self.own {
            set_lock(&mut self.locks, index.variable(read), Some(source));
        }
    }

    /// Places a read of an initial value, and notes it if it is of the own session and a write of its variable is left.
    fn place_initial_read(&mut self, index: &LongIndex, session: u32, read: u32)
        requires next { CanBePlaced index.now self.old session }
        requires below { read < many index.now.history }
        requires part { IsNextPart index.now self.old session read InitialRead }
        ensures { IsPlaced index.now self.old self.new session }
    {
        take_one(&mut self.ends, session);
        if session != self.own {
            return;
        }
        if self.writes[index.variable(read) as usize] > 0 {
            self.start = true;
        }
    }
}

/// Sets the lock of a variable.
fn set_lock(locks: &mut Vec<Option<u32>>, variable: u32, lock: Option<u32>)
    requires { variable < length locks.old.items }
    ensures size { length locks.new.items ≡ length locks.old.items }
    ensures set { slice_index_or locks.new.items variable None ≡ lock }
    ensures others { (x : ℕ) → x ≢ variable → slice_index_or locks.new.items x None ≡ slice_index_or locks.old.items x None }
{
    locks[variable as usize] = lock;
}
