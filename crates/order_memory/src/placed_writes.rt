//! The writes of a memory history in an array, which takes no memory.

ghost use Rattle.std.specs.Prelude.{◌≡◌, ◌+◌, ◌<◌, ◌≤◌, length, take};
ghost use Rattle.order_causal.specs.Orders.{op};
ghost use Rattle.order_memory.specs.Steps.Written.{ListsWrites, ListsWritesBefore};

use crate::writes::Write;
use model_history::{History, MAX_OPERATIONS, OpId};
use model_objects::{Memory, RegisterCall};

/// How many writes a history may have: 16 sessions of 256 operations.
pub(crate) const MAX_WRITES: usize = 4096;

/// The filler of a place without a write.
pub(crate) const NO_WRITE: Write = Write {
    op: OpId {
        session: 0,
        index: 0,
    },
    key: 0,
    value: 0,
};

/// Puts the writes of a history at the first places, by operation, and returns their number.
pub(crate) fn place_writes(h: &History<Memory>, places: &mut [Write]) -> usize
    requires room { length places.old ≡ MAX_WRITES }
    ensures room { length places.new ≡ MAX_WRITES }
    ensures within { result ≤ MAX_WRITES }
    ensures writes { ListsWrites h.now (take result places.new) }
{
    let mut count = 0;
    for session in 0..h.sessions() {
        count = place_session(h, session, count, places);
    }
    count
}

/// Puts the writes of a session after those of the sessions before it, and returns the number of all.
fn place_session(h: &History<Memory>, session: usize, before: usize, places: &mut [Write]) -> usize
    requires exists { session < length h.now.1 }
    requires room { before + MAX_OPERATIONS ≤ length places.old }
    requires so_far { ListsWritesBefore h.now (op session 0) (take before places.old) }
    ensures places { length places.new ≡ length places.old }
    ensures within { result ≤ before + MAX_OPERATIONS }
    ensures so_far { ListsWritesBefore h.now (op (session + 1) 0) (take result places.new) }
{
    let mut count = before;
    for (index, (call, _)) in h.session(session).iter().enumerate() {
        if let RegisterCall::Write(value) = call.call {
            let op = OpId::at(session, index);
            places[count] = Write {
                op,
                key: call.key,
                value,
            };
            count += 1;
        }
    }
    count
}
