//! Reads out of thin air, found in a sorted list of writes.

ghost use Rattle.std.specs.Prelude.{◌↔◌, IsTrue};
ghost use Rattle.pattern_check.specs.Kinds.{IsThinAirRead};
ghost use Rattle.order_memory.specs.Steps.Written.{IsSorted, ListsWrites};

use model_history::{History, OpId};
use model_objects::Memory;
use order_memory::{Write, initial_value, is_written, known_read};

/// Whether the operation is a known read of a value that is not the initial one and that nobody wrote.
///
/// The writes are those of the history. O(log n) for n operations.
pub fn is_thin_air_read(h: &History<Memory>, writes: &[Write], op: OpId) -> bool
    requires writes { ListsWrites h.now writes.now }
    requires sorted { IsSorted writes.now }
    ensures { IsTrue result ↔ IsThinAirRead h.now op }
{
    match known_read(h, op) {
        Some((key, value)) => value != initial_value(h, key) && !is_written(writes, key, value),
        None => false,
    }
}
