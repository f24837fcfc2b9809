//! The type of a long history.

ghost use Rattle.std.specs.Prelude.{◌≡◌, ◌⊎◌, ◌<◌, ◌≤◌, length, IfOk, IfErr};
ghost use Rattle.model_history.specs.History.{session as operations_of};
ghost use Rattle.judge_memory.specs.LongHistories.{IsLongHistory};
ghost use Rattle.judge_memory.specs.Steps.{many};

use crate::limits::MAX_NUMBERS;
use model_objects::{KeyedCall, RegisterCall, RegisterRet, Table};
use order_causal::Rows;
use std::alloc::AllocError;
use std::marker::Model;

/// An operation of a memory: its call, and its return where that is known.
pub type LongEntry = (KeyedCall<RegisterCall>, Option<RegisterRet>);

/// What each session called on a memory, in order, each call with the return that it had where that is known.
///
/// In each session the known returns come first, and each fits its call. The start is what the memory held before, a table whose keys
/// rise.
#[derive(Drop)]
pub struct LongHistory {
    start: Table<u64>,
    sessions: Rows<LongEntry>,
    /// How many operations all sessions have.
    operations: usize,
}

impl Model for LongHistory {
    ghost use Rattle.order_memory.specs.Memory.{MemoryHistory};
    ghost use Rattle.judge_memory.specs.Kept.{IsKept};

    ghost Value = { MemoryHistory };

    ghost view = { λ h. (h.start, h.sessions) };

    ghost invariant = { λ h. IsKept h.start h.sessions h.operations };
}

impl LongHistory {
    /// The history with this start and these sessions.
    ///
    /// Fails, as for want of memory, where it has more than [`MAX_NUMBERS`] operations or sessions. O(k) for k sessions.
    #[tactic(auto, using(crate::proofs::Numbers::one_more))]
    pub fn of(start: Table<u64>, sessions: Rows<LongEntry>) -> Result<LongHistory, AllocError>
        requires { IsLongHistory (start, sessions) }
        ensures history { IfOk result (λ h. h ≡ (start, sessions)) }
        ensures large { IfErr result (λ _. MAX_NUMBERS < length sessions ⊎ MAX_NUMBERS < many (start, sessions)) }
    {
        if sessions.len() > MAX_NUMBERS {
            return Err(AllocError);
        }
        let mut operations: usize = 0;
        for session in 0..sessions.len() {
            let more = sessions.get(session).len();
            if more > MAX_NUMBERS - operations {
                return Err(AllocError);
            }
            operations += more;
        }
        Ok(LongHistory {
            start,
            sessions,
            operations,
        })
    }

    /// What the memory held before the first call.
    pub fn start(&self) -> &Table<u64>
        ensures { result.now ≡ self.now.0 }
    {
        &self.start
    }

    /// How many sessions there are.
    pub fn sessions(&self) -> usize
        ensures count { result ≡ length self.now.1 }
        ensures few { result ≤ MAX_NUMBERS }
    {
        self.sessions.len()
    }

    /// How many operations all sessions have.
    pub fn operations(&self) -> usize
        ensures count { result ≡ many self.now }
        ensures few { result ≤ MAX_NUMBERS }
    {
        self.operations
    }

    /// The operations of a session, in order.
    pub fn session(&self, s: usize) -> &[LongEntry]
        requires { s < length self.now.1 }
        ensures { result.now ≡ operations_of self.now s }
    {
        self.sessions.get(s)
    }

    /// What the type keeps: the value is a history. The method does nothing: what it ensures is the law.
    pub fn value_is_history(&self)
        ensures { IsLongHistory self.now }
    {
        let _sessions = &self.sessions;
    }
}
