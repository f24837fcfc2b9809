//! Scripts of any object that has a name.

use crate::script::Script;
use model_objects::{AddRemoveSet, Counter, Counters, Memory, Queue, Queues, Register, Sets};

/// A script of a run of one of the objects that have a name.
#[derive(Drop)]
pub enum AnyScript {
    /// A script for a register, `"register"`.
    Register(Script<Register>),
    /// A script for a counter, `"counter"`.
    Counter(Script<Counter>),
    /// A script for a set, `"set"`.
    Set(Script<AddRemoveSet>),
    /// A script for a queue, `"queue"`.
    Queue(Script<Queue>),
    /// A script for registers under keys, `"memory"`.
    Memory(Script<Memory>),
    /// A script for counters under keys, `"counters"`.
    Counters(Script<Counters>),
    /// A script for sets under keys, `"sets"`.
    Sets(Script<Sets>),
    /// A script for queues under keys, `"queues"`.
    Queues(Script<Queues>),
}
