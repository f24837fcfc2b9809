//! The causal order of a memory history.

ghost use Rattle.std.specs.Prelude.{◌≡◌, ◌≢◌, ◌<◌, ◌↔◌, ℕ, length, IsTrue, MatchOption};
ghost use Rattle.order_causal.specs.Orders.{op as operation};
ghost use Rattle.order_memory.specs.SourceOrder.{CountsSourceOrder, LacksSource, SourceOrder};
ghost use Rattle.order_memory.specs.Steps.Indexed.{HasNoWriteOfPast, IsLastWriteOfPast, IsSourceIfAny, IsSourcePast, ListsReads};

use crate::indexed::IndexedMemory;
use crate::known_reads::KnownRead;
use model_history::{History, OpId};
use model_objects::Memory;
use order_causal::{Vectors, count_at, has_counted, has_counted_other};
use std::marker::Model;

/// The order of a memory history that program order and the sources of reads make, which is its causal order where values
/// are distinct: it has no cycle, and no source is missing.
#[derive(Drop)]
pub struct CausalOrder<'a> {
    memory: &'a IndexedMemory<'a>,
    vectors: &'a Vectors,
}

impl<'a> Model for CausalOrder<'a> {
    ghost use Rattle.order_memory.specs.Memory.{MemoryHistory};
    ghost use Rattle.order_memory.specs.SourceOrder.{CountsSourceOrder};

    ghost Value = { MemoryHistory };

    ghost view = { λ order. order.memory.now };

    ghost invariant = { λ order. CountsSourceOrder order.memory.now order.vectors.now };
}

impl<'a> CausalOrder<'a> {
    /// The order of a memory history that these vectors count.
    pub(crate) fn of(memory: &'a IndexedMemory<'a>, vectors: &'a Vectors) -> CausalOrder<'a>
        requires { CountsSourceOrder memory.now vectors.now }
        ensures { result ≡ memory.now }
    {
        CausalOrder { memory, vectors }
    }

    /// The memory history.
    pub fn history(&self) -> &'a History<Memory>
        ensures { result.now ≡ self.now }
    {
        self.memory.history()
    }

    /// What is known of the memory history.
    pub fn memory(&self) -> &'a IndexedMemory<'a>
        ensures { result.now ≡ self.now }
    {
        self.memory
    }

    /// The vectors that count the order.
    pub fn vectors(&self) -> &'a Vectors
        ensures { CountsSourceOrder self.now result.now }
    {
        self.vectors
    }

    /// How many sessions there are.
    pub fn sessions(&self) -> usize
        ensures { result ≡ length self.now.1 }
    {
        self.vectors.sessions()
    }

    /// The known reads, in the order of operations: each that has no source read the initial value.
    pub fn reads(&self) -> &'a [KnownRead]
        ensures reads { ListsReads self.now result.now }
        ensures sourced { ¬ LacksSource self.now }
    {
        self.memory.reads()
    }

    /// The source of an operation. O(1).
    pub fn source(&self, op: OpId) -> Option<OpId>
        ensures { IsSourceIfAny self.now op result }
    {
        self.memory.source(op)
    }

    /// How many operations of a session are in the past of an operation, itself among it. O(1).
    pub fn count(&self, op: OpId, session: usize) -> usize
        ensures { (i : ℕ) → (i < result) ↔ IsSourcePast self.now op (operation session i) }
    {
        count_at(self.vectors, op, session)
    }

    /// Whether an operation is in the past of another, or is that one. O(1).
    pub fn has_in_past(&self, op: OpId, earlier: OpId) -> bool
        ensures { IsTrue result ↔ IsSourcePast self.now op earlier }
    {
        has_counted(self.vectors, op, earlier)
    }

    /// Whether the first of two operations comes before the second. O(1).
    pub fn has_before(&self, pair: (OpId, OpId)) -> bool
        ensures before { IsTrue result ↔ SourceOrder self.now pair.0 pair.1 }
        ensures apart { IsTrue result → pair.0 ≢ pair.1 }
    {
        has_counted_other(self.vectors, pair.1, pair.0)
    }

    /// The last write of the variable of a read in a session, of those in the past of the read. O(log n) for n writes.
    pub fn last_write(&self, read: &KnownRead, session: usize) -> Option<OpId>
        ensures { MatchOption result (HasNoWriteOfPast self.now read.now.key session read.now.op)
            (IsLastWriteOfPast self.now read.now.key session read.now.op) }
    {
        let end = OpId::at(session, self.count(read.op, session));
        self.memory.last_write_before(read.key, end)
    }
}
