//! A history of a memory whose writes are listed in order.

ghost use Rattle.std.specs.Prelude.{◌≡◌};
ghost use Rattle.pattern_check.specs.Steps.DistinctWrites.{AreDistinctWrites};

use crate::known_memory::KnownMemory;
use model_history::{History, OpId};
use model_objects::{KeyedCall, Memory, RegisterCall, RegisterRet};
use order_memory::{Write, found_source, initial_value};
use std::marker::Model;

/// A history with distinct values, and its writes by variable, value and operation.
#[derive(Drop)]
pub(crate) struct ListedMemory<'a> {
    history: &'a History<Memory>,
    writes: &'a [Write],
}

impl<'a> Model for ListedMemory<'a> {
    ghost use Rattle.order_memory.specs.Memory.{MemoryHistory};
    ghost use Rattle.pattern_check.specs.Steps.DistinctWrites.{AreDistinctWrites};

    ghost Value = { MemoryHistory };

    ghost view = { λ memory. memory.history.now };

    ghost invariant = { λ memory. AreDistinctWrites memory.history.now memory.writes.now };
}

impl<'a> ListedMemory<'a> {
    /// The history, whose writes these are.
    pub(crate) fn of(history: &'a History<Memory>, writes: &'a [Write]) -> ListedMemory<'a>
        requires { AreDistinctWrites history.now writes.now }
        ensures { result ≡ history.now }
    {
        ListedMemory { history, writes }
    }
}

impl<'a> KnownMemory for ListedMemory<'a> {
    ghost history = { λ memory. memory };

    fn entry(&self, op: OpId) -> Option<(KeyedCall<RegisterCall>, Option<RegisterRet>)> {
        if op.session_place() >= self.history.sessions() {
            return None;
        }
        self.history
            .session(op.session_place())
            .get(op.place())
            .copied()
    }

    /// O(log n) for a table of n initial values.
    fn initial_value(&self, key: u32) -> u64 {
        initial_value(self.history, key)
    }

    /// O(log n) for n operations, besides the look-up of the initial value.
    fn source(&self, read: OpId) -> Option<OpId> {
        found_source(self.history, self.writes, read)
    }
}
