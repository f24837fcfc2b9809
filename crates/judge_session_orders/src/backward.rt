//! What is left of the past of a session's last operation, while an order of this past is made from its end.

ghost use Rattle.std.specs.Prelude.{◌≡◌, ◌<◌, ◌≤◌, ◌+◌, ℕ, length, None, slice_index_or};
ghost use Rattle.std.specs.Prelude.{IfOk};
ghost use Rattle.model_history.specs.History.{many_before};
ghost use Rattle.order_memory.specs.Memory.{IsDifferentiated};
ghost use Rattle.judge_memory.specs.Steps.{many};
ghost use Rattle.judge_session_orders.specs.OnItsWay.{CountsUpTo, HasCounts, HasSizes, IsClear, left_of};
ghost use Rattle.judge_session_orders.specs.Tables.{left_under};

use crate::numbers::add_one;
use judge_memory::{LongIndex, MAX_NUMBERS, Part};
use std::alloc::{AllocError, Global};

/// What is left to place of the past of a session's last operation, and what decides which session can go on.
#[derive(Drop)]
pub(crate) struct Backward {
    /// The session.
    pub(crate) own: u32,
    /// For each session, the number after that of its last operation that is left.
    pub(crate) ends: Vec<u32>,
    /// For each operation, how many reads of it are left.
    pub(crate) readers: Vec<u32>,
    /// For each variable, how many writes of it are left.
    pub(crate) writes: Vec<u32>,
    /// For each variable, the locked write, if any. That write is left, and a placed read of the session read from it, so no other
    /// write of the variable may come between.
    pub(crate) locks: Vec<Option<u32>>,
    /// Whether a write of a variable was left when a read of its initial value by the session was placed.
    pub(crate) start: bool,
}

impl Backward {
    /// The state with nothing left. O(n + k) for n operations of k sessions.
    pub(crate) fn clear(alloc: Global, index: &LongIndex) -> Result<Backward, AllocError>
        ensures { IfOk result (IsClear index.now) }
    {
        Ok(Backward {
            own: 0,
            ends: vec![in alloc; 0; index.sessions() as usize]?,
            readers: vec![in alloc; 0; index.operations() as usize]?,
            writes: vec![in alloc; 0; index.variables() as usize]?,
            locks: no_locks(alloc, index.variables())?,
            start: false,
        })
    }

    /// Counts the reads and writes that are left; none may be counted yet.
    pub(crate) fn count(&mut self, index: &LongIndex)
        requires distinct { IsDifferentiated index.now.history }
        requires few { many index.now.history ≤ MAX_NUMBERS }
        requires sizes { HasSizes index.now self.old }
        requires within { (t : ℕ) → slice_index_or self.old.ends.items t 0 ≤ many_before index.now.history (t + 1) }
        requires zero { CountsUpTo 0 self.old }
        requires none { HasCounts index.now (λ t. 0) self.old }
        ensures sizes { HasSizes index.now self.new }
        ensures ends { self.new.ends.items ≡ self.old.ends.items }
        ensures locks { self.new.locks.items ≡ self.old.locks.items }
        ensures own { self.new.own ≡ self.old.own }
        ensures counts { HasCounts index.now (left_of index.now.history self.new) self.new }
    {
        for operation in 0..index.operations() {
            self.count_operation(index, operation);
        }
    }

    /// Counts an operation if it is left; those with lower numbers are counted already.
    fn count_operation(&mut self, index: &LongIndex, operation: u32)
        requires distinct { IsDifferentiated index.now.history }
        requires few { many index.now.history ≤ MAX_NUMBERS }
        requires below { operation < many index.now.history }
        requires sizes { HasSizes index.now self.old }
        requires within { (t : ℕ) → slice_index_or self.old.ends.items t 0 ≤ many_before index.now.history (t + 1) }
        requires most { CountsUpTo operation self.old }
        ensures sizes { HasSizes index.now self.new }
        ensures ends { self.new.ends.items ≡ self.old.ends.items }
        ensures locks { self.new.locks.items ≡ self.old.locks.items }
        ensures own { self.new.own ≡ self.old.own }
        ensures most { CountsUpTo (operation + 1) self.new }
        ensures counted { HasCounts index.now (left_under index.now.history self.old.ends.items operation) self.old
            → HasCounts index.now (left_under index.now.history self.old.ends.items (operation + 1)) self.new }
    {
        if operation >= self.ends[index.session_of(operation) as usize] {
            return;
        }
        match index.part(operation) {
            Part::Write => add_one(&mut self.writes, index.variable(operation)),
            Part::SourcedRead(source) => add_one(&mut self.readers, source),
            Part::InitialRead | Part::ThinAirRead | Part::UnknownRead => {}
        }
    }
}

/// Locks for so many variables, none of which is locked.
fn no_locks(alloc: Global, variables: u32) -> Result<Vec<Option<u32>>, AllocError>
    ensures size { IfOk result (λ locks. length locks.items ≡ variables) }
    ensures none { IfOk result (λ locks. (x : ℕ) → slice_index_or locks.items x None ≡ None) }
{
    let mut locks = Vec::new(alloc);
    for _variable in 0..variables {
        locks.push(None)?;
    }
    Ok(locks)
}
