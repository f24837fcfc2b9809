//! The initial value of a variable, and the reads whose return is recorded.

ghost use Rattle.std.specs.Prelude.{◌≡◌, ℕ, MatchOption};
ghost use Rattle.order_memory.specs.Memory.{initial, Reads};

use model_history::{History, OpId};
use model_objects::{Memory, RegisterCall, RegisterRet};

/// The initial value of a variable. O(log n) for a table of n entries.
pub fn initial_value(h: &History<Memory>, key: u32) -> u64
    ensures { result ≡ initial h.now key }
{
    h.start().get(key).copied().unwrap_or(0)
}

/// The variable and the value of a read whose return is known.
pub fn known_read(h: &History<Memory>, op: OpId) -> Option<(u32, u64)>
    ensures { MatchOption result ((x v : ℕ) → ¬ Reads h.now op x v) (λ read. Reads h.now op read.0 read.1) }
{
    if !h.contains(op) {
        return None;
    }
    let call = h.call(op);
    match (call.call, h.ret(op)) {
        (RegisterCall::Read, Some(RegisterRet::Value(value))) => Some((call.key, value)),
        _ => None,
    }
}
