//! What two operations of a history are to each other.

ghost use Rattle.std.specs.Prelude.{◌≡◌, ◌↔◌, ℕ, IsTrue, MatchOption};
ghost use Rattle.model_history.specs.History.{IsOp, Precedes};
ghost use Rattle.order_memory.specs.Memory.{initial, Reads, Writes};
ghost use Rattle.order_memory.specs.Relations.{AreRivalWrites, IsEdge, ReadsFrom};
ghost use Rattle.pattern_check.specs.Kinds.{IsThinAirRead};

use crate::known_memory::KnownMemory;
use model_history::OpId;
use model_objects::{RegisterCall, RegisterRet};

/// The variable and the value of a write, whether its return is known or not.
pub fn written<M: KnownMemory>(h: &M, op: OpId) -> Option<(u32, u64)>
    ensures { MatchOption result ((x v : ℕ) → ¬ Writes (M.history h.now) op x v)
        (λ write. Writes (M.history h.now) op write.0 write.1) }
{
    let (call, _) = h.entry(op)?;
    match call.call {
        RegisterCall::Write(value) => Some((call.key, value)),
        RegisterCall::Read => None,
    }
}

/// The variable and the value of a read whose return is known.
fn known_read<M: KnownMemory>(h: &M, op: OpId) -> Option<(u32, u64)>
    ensures { MatchOption result ((x v : ℕ) → ¬ Reads (M.history h.now) op x v)
        (λ read. Reads (M.history h.now) op read.0 read.1) }
{
    let (call, ret) = h.entry(op)?;
    match (call.call, ret) {
        (RegisterCall::Read, Some(RegisterRet::Value(value))) => Some((call.key, value)),
        _ => None,
    }
}

/// Whether the second operation reads from the first.
pub fn reads_from<M: KnownMemory>(h: &M, write: OpId, read: OpId) -> bool
    ensures { IsTrue result ↔ ReadsFrom (M.history h.now) write read }
{
    match h.source(read) {
        Some(source) => source == write,
        None => false,
    }
}

/// Whether the second operation reads the initial value of the variable that the first writes.
pub fn reads_initial<M: KnownMemory>(h: &M, write: OpId, read: OpId) -> bool
    ensures { IsTrue result
        ↔ ((x v : ℕ) × Writes (M.history h.now) write x v × Reads (M.history h.now) read x (initial (M.history h.now) x)) }
{
    let (Some(wrote), Some(seen)) = (written(h, write), known_read(h, read)) else {
        return false;
    };
    wrote.0 == seen.0 && seen.1 == h.initial_value(seen.0)
}

/// Whether an edge of the causal order goes from the first operation to the second.
pub fn is_edge<M: KnownMemory>(h: &M, a: OpId, b: OpId) -> bool
    ensures { IsTrue result ↔ IsEdge (M.history h.now) a b }
{
    is_later(h, a, b) || reads_from(h, a, b)
}

/// Whether the second is an operation of the history and is later than the first in the same session.
fn is_later<M: KnownMemory>(h: &M, a: OpId, b: OpId) -> bool
    ensures { IsTrue result ↔ (Precedes a b × IsOp (M.history h.now) b) }
{
    a.session == b.session && a.index < b.index && h.entry(b).is_some()
}

/// Whether these are two different writes of one variable.
pub fn are_rival_writes<M: KnownMemory>(h: &M, a: OpId, b: OpId) -> bool
    ensures { IsTrue result ↔ AreRivalWrites (M.history h.now) a b }
{
    let (Some(first), Some(second)) = (written(h, a), written(h, b)) else {
        return false;
    };
    a != b && first.0 == second.0
}

/// Whether the operation is a known read of a value that is not the initial one and that nobody wrote.
pub fn lacks_source<M: KnownMemory>(h: &M, read: OpId) -> bool
    ensures { IsTrue result ↔ IsThinAirRead (M.history h.now) read }
{
    match known_read(h, read) {
        Some((key, value)) => value != h.initial_value(key) && h.source(read).is_none(),
        None => false,
    }
}
