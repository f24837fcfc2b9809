//! A history of any of the objects that have a name.

ghost use Rattle.std.specs.Prelude.{◌≡◌, IfNone, IfSome};
ghost use Rattle.json_histories.specs.Memories.{IsOfAnotherObject};

use crate::plain_history::PlainHistory;
use model_history::History;
use model_objects::{AddRemoveSet, Counter, Counters, Memory, Queue, Queues, Register, Sets};

/// A history of one of the objects that have a name.
#[derive(Drop)]
pub enum AnyHistory {
    /// A history of a register, `"register"`.
    Register(PlainHistory<Register>),
    /// A history of a counter, `"counter"`.
    Counter(PlainHistory<Counter>),
    /// A history of a set, `"set"`.
    Set(PlainHistory<AddRemoveSet>),
    /// A history of a queue, `"queue"`.
    Queue(PlainHistory<Queue>),
    /// A history of registers under keys, `"memory"`.
    Memory(History<Memory>),
    /// A history of counters under keys, `"counters"`.
    Counters(History<Counters>),
    /// A history of sets under keys, `"sets"`.
    Sets(History<Sets>),
    /// A history of queues under keys, `"queues"`.
    Queues(History<Queues>),
}

impl AnyHistory {
    /// The history, where it is one of a memory.
    pub fn as_memory(&self) -> Option<&History<Memory>>
        ensures memory { IfSome result (λ memory. self.now ≡ AnyHistory.Memory memory.now) }
        ensures other { IfNone result (IsOfAnotherObject self.now) }
    {
        match self {
            AnyHistory::Memory(memory) => Some(memory),
            AnyHistory::Register(_)
            | AnyHistory::Counter(_)
            | AnyHistory::Set(_)
            | AnyHistory::Queue(_)
            | AnyHistory::Counters(_)
            | AnyHistory::Sets(_)
            | AnyHistory::Queues(_) => None,
        }
    }

    /// Drops the history. A crate that drops its histories by this call proves no destructor of them.
    pub fn discard(self) {
        drop(self);
    }
}
