//! Whether the values of a memory history are distinct.

ghost use Rattle.std.specs.Prelude.{◌≢◌, ◌↔◌, All, IsTrue};
ghost use Rattle.order_memory.specs.Memory.{initial, IsDifferentiated};
ghost use Rattle.order_memory.specs.Steps.Written.{AreOnce, IsSorted, ListsWrites};

use crate::placed_writes::{MAX_WRITES, NO_WRITE, place_writes};
use crate::reads::initial_value;
use crate::writes::Write;
use model_history::History;
use model_objects::Memory;

/// Whether the history has distinct values: no variable is written twice with one value, and no write writes its
/// variable's initial value.
///
/// It takes no memory: the writes are sorted in an array of 128 KB, which has room for those of any history. O(n log n) for n
/// operations.
pub fn is_differentiated(h: &History<Memory>) -> bool
    ensures { IsTrue result ↔ IsDifferentiated h.now }
{
    let mut places = [NO_WRITE; MAX_WRITES];
    let count = place_writes(h, &mut places);
    let writes = &mut places[..count];
    writes.sort_unstable_by_key(|write| (write.key, write.value));
    are_distinct(h, writes)
}

/// Whether the history has distinct values, from its writes. O(n log m) for n writes and m entries of the start.
pub fn are_distinct(h: &History<Memory>, writes: &[Write]) -> bool
    requires writes { ListsWrites h.now writes.now }
    requires sorted { IsSorted writes.now }
    ensures { IsTrue result ↔ IsDifferentiated h.now }
{
    are_once(writes) && are_not_initial(h, writes)
}

/// Whether no two operations among the writes, which are sorted, write one value to one variable. O(n) for n writes.
pub fn are_once(writes: &[Write]) -> bool
    requires { IsSorted writes.now }
    ensures { IsTrue result ↔ AreOnce writes.now }
{
    for i in 1..writes.len() {
        let before = &writes[i - 1];
        let after = &writes[i];
        if before.key == after.key && before.value == after.value && before.op != after.op {
            return false;
        }
    }
    true
}

/// Whether none of the writes writes its variable's initial value.
fn are_not_initial(h: &History<Memory>, writes: &[Write]) -> bool
    ensures { IsTrue result ↔ All (λ w. w.value ≢ initial h.now w.key) writes.now }
{
    writes
        .iter()
        .all(|write| write.value != initial_value(h, write.key))
}
