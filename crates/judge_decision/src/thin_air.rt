//! Reads of values that nobody wrote.

ghost use Rattle.std.specs.Prelude.{◌↔◌, IsTrue};
ghost use Rattle.order_memory.specs.SourceOrder.{LacksSource};

use judge_memory::{LongIndex, Part};

/// Whether a known read returned a value that is not the initial one and that nobody wrote. O(n) for n operations.
pub(crate) fn lacks_source(index: &LongIndex) -> bool
    ensures { IsTrue result ↔ LacksSource index.now.history }
{
    for operation in 0..index.operations() {
        if let Part::ThinAirRead = index.part(operation) {
            return true;
        }
    }
    false
}
