//! Whether a session can go on.

ghost use Rattle.std.specs.Prelude.{◌≡◌, ◌↔◌, ◌<◌, ℕ, length, None, Some, slice_index_or, IsTrue};
ghost use Rattle.model_history.specs.declared.op_id.OpId.{OpId as Operation};
ghost use Rattle.model_history.specs.History.{IsOp, number};
ghost use Rattle.judge_memory.specs.Steps.{many};
ghost use Rattle.judge_session_orders.specs.Backward.{IsOpen};
ghost use Rattle.judge_session_orders.specs.OnItsWay.{IsFree, IsOnItsWay, IsShutOut, IsStopped, left_of};

use crate::backward::Backward;
use judge_memory::{LongIndex, Part};

impl Backward {
    /// Whether the last operation of a session that is left can be placed: no read of it is left, and no lock prevents it.
    ///
    /// O(1).
    pub(crate) fn is_free(&self, index: &LongIndex, session: u32) -> bool
        requires on_its_way { IsOnItsWay index.now self.now }
        requires exists { session < length index.now.history.1 }
        ensures free { IsTrue result → IsFree index.now self.now session }
        ensures stopped { ¬ IsTrue result → IsOpen (left_of index.now.history self.now) session
            → IsStopped index.now self.now session }
    {
        let end = self.ends[session as usize];
        if end <= index.start(session) {
            return false;
        }
        let last = end - 1;
        if self.readers[last as usize] > 0 {
            return false;
        }
        self.is_admitted(index, session, last)
    }

    /// Whether no lock prevents placing an operation of a session.
    fn is_admitted(&self, index: &LongIndex, session: u32, operation: u32) -> bool
        requires on_its_way { IsOnItsWay index.now self.now }
        requires below { operation < many index.now.history }
        ensures admitted { (a : Operation) → IsOp index.now.history a → number index.now.history a ≡ operation → IsTrue result
            → ¬ IsShutOut index.now self.now session a }
        ensures shut_out { (a : Operation) → IsOp index.now.history a → number index.now.history a ≡ operation → ¬ IsTrue result
            → IsShutOut index.now self.now session a }
    {
        match index.part(operation) {
            Part::Write => self.admits(index.variable(operation), operation),
            Part::SourcedRead(source) => session != self.own
                || self.admits(index.variable(operation), source),
            Part::InitialRead | Part::ThinAirRead | Part::UnknownRead => true,
        }
    }

    /// Whether a variable is not locked, or is locked for this write.
    fn admits(&self, variable: u32, write: u32) -> bool
        requires { variable < length self.now.locks.items }
        ensures { IsTrue result ↔ ((n : ℕ) → slice_index_or self.now.locks.items variable None ≡ Some n → n ≡ write) }
    {
        match self.locks[variable as usize] {
            Some(locked) => locked == write,
            None => true,
        }
    }
}
