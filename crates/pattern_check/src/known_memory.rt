//! What a test of a pattern asks of a memory history.

ghost use Rattle.std.specs.Prelude.{◌≡◌, ◌↔◌, Some};
ghost use Rattle.model_history.specs.declared.op_id.OpId.{OpId as Operation};
ghost use Rattle.model_history.specs.History.{entry};
ghost use Rattle.order_memory.specs.Memory.{initial, MemoryHistory};
ghost use Rattle.order_memory.specs.Relations.{ReadsFrom};

use model_history::OpId;
use model_objects::{KeyedCall, RegisterCall, RegisterRet};

/// A memory history, with what answers the questions that a test of a pattern asks.
pub trait KnownMemory {
    /// The history.
    ghost history: { Self → MemoryHistory };

    /// The call of an operation of the history, with its return where that is known.
    fn entry(&self, op: OpId) -> Option<(KeyedCall<RegisterCall>, Option<RegisterRet>)>
        ensures { result ≡ entry (history self.now) op };

    /// The initial value of a variable.
    fn initial_value(&self, key: u32) -> u64
        ensures { result ≡ initial (history self.now) key };

    /// The one write that an operation reads from, where it is a known read of a written value.
    fn source(&self, read: OpId) -> Option<OpId>
        ensures { (write : Operation) → (ReadsFrom (history self.now) write read) ↔ (result ≡ Some write) };
}
