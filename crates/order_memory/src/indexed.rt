//! What is known of a memory history.

ghost use Rattle.std.specs.Prelude.{◌≡◌, ◌↔◌, IfOk, IfSome, IsTrue, MatchOption};
ghost use Rattle.order_memory.specs.Memory.{IsDifferentiated};
ghost use Rattle.order_memory.specs.SourceOrder.{CountsSourceOrder};
ghost use Rattle.order_memory.specs.Steps.Indexed.{HasNoWriteBefore, IsLastWriteBefore, IsOrdered, IsUnordered};
ghost use Rattle.order_memory.specs.Steps.Indexed.{IsSourceIfAny, ListsReads, ListsSourcesIfAny, listed_source};
ghost use Rattle.order_memory.specs.Steps.Written.{AreByVariable, AreInOrder, IsSorted, ListsWrites};

use crate::causal::CausalOrder;
use crate::differentiation::are_distinct;
use crate::found_sources::found_sources;
use crate::known_reads::{KnownRead, known_reads};
use crate::last_writes::{last_write_before, sort_by_variable};
use crate::order::order_by_sources;
use crate::placing::Sources;
use crate::writes::{Write, sorted_writes};
use model_history::{History, OpId};
use model_objects::Memory;
use order_causal::Vectors;
use std::alloc::{AllocError, Global};
use std::marker::Model;

/// A memory history with what is known of it, made once for all that is asked: its writes, its known reads, the source of
/// each operation, whether its values are distinct, and its causal order where it has one.
#[derive(Drop)]
pub struct IndexedMemory<'a> {
    history: &'a History<Memory>,
    /// By variable, value and operation.
    writes: Vec<Write>,
    /// By variable and operation.
    by_variable: Vec<Write>,
    sources: Sources,
    reads: Vec<KnownRead>,
    is_differentiated: bool,
    order: Option<Vectors>,
}

impl<'a> Model for IndexedMemory<'a> {
    ghost use Rattle.order_memory.specs.Memory.{MemoryHistory};
    ghost use Rattle.order_memory.specs.Steps.Indexed.{IsIndex};

    ghost Value = { MemoryHistory };

    ghost view = { λ memory. memory.history.now };

    ghost invariant = { λ memory.
        IsIndex memory.history.now memory.writes.items memory.by_variable.items memory.sources memory.reads.items
        memory.is_differentiated memory.order };
}

impl<'a> IndexedMemory<'a> {
    /// What is known of a history.
    ///
    /// Fails for want of memory alone. O(n (log n + k)) for n operations of k sessions.
    pub fn of(alloc: Global, h: &'a History<Memory>) -> Result<IndexedMemory<'a>, AllocError>
        ensures { IfOk result (λ memory. memory ≡ h.now) }
    {
        let writes = sorted_writes(alloc, h)?;
        let mut by_variable = Vec::from_slice(alloc, &writes)?;
        sort_by_variable(&mut by_variable);
        let sources = found_sources(alloc, h, &writes)?;
        let reads = known_reads(alloc, h, &sources)?;
        let is_differentiated = are_distinct(h, &writes);
        let order = order_by_sources(alloc, h, &sources, &reads)?;
        Ok(IndexedMemory {
            history: h,
            writes,
            by_variable,
            sources,
            reads,
            is_differentiated,
            order,
        })
    }

    /// The history.
    pub fn history(&self) -> &'a History<Memory>
        ensures { result.now ≡ self.now }
    {
        self.history
    }

    /// Its writes, by variable, value and operation.
    pub fn writes(&self) -> &[Write]
        ensures writes { ListsWrites self.now result.now }
        ensures sorted { IsSorted result.now }
        ensures in_order { AreInOrder result.now }
    {
        self.writes.as_slice()
    }

    /// Its writes, by variable and operation.
    pub fn writes_by_variable(&self) -> &[Write]
        ensures writes { ListsWrites self.now result.now }
        ensures sorted { AreByVariable result.now }
    {
        self.by_variable.as_slice()
    }

    /// The source of each operation.
    pub fn sources(&self) -> &Sources
        ensures { ListsSourcesIfAny self.now result.now }
    {
        &self.sources
    }

    /// The source of an operation. Only a known read of a value that is not the initial one has a source: the first write of that
    /// value to its variable, if there is one. O(1).
    pub fn source(&self, op: OpId) -> Option<OpId>
        ensures { IsSourceIfAny self.now op result }
    {
        source_in(&self.sources, op)
    }

    /// Its known reads, in the order of operations.
    pub fn reads(&self) -> &[KnownRead]
        ensures { ListsReads self.now result.now }
    {
        self.reads.as_slice()
    }

    /// The last write of a variable before `end` in the session of `end`. O(log n) for n writes.
    pub fn last_write_before(&self, key: u32, end: OpId) -> Option<OpId>
        ensures { MatchOption result (HasNoWriteBefore self.now key end) (IsLastWriteBefore self.now key end) }
    {
        last_write_before(&self.by_variable, key, end)
    }

    /// Whether it has distinct values: no variable is written twice with one value, and no write writes its variable's
    /// initial value.
    pub fn is_differentiated(&self) -> bool
        ensures { IsTrue result ↔ IsDifferentiated self.now }
    {
        self.is_differentiated
    }

    /// Its causal order, which is that of program order and sources: `None` where that has a cycle, or where a known read
    /// returned a value that is not the initial one and that nobody writes.
    pub fn order(&self) -> Option<CausalOrder<'_>>
        ensures order { MatchOption result (IsUnordered self.now) (λ order. order ≡ self.now) }
        ensures ordered { IfSome result (λ _. IsOrdered self.now) }
    {
        match &self.order {
            Some(vectors) => Some(CausalOrder::of(self, vectors)),
            None => None,
        }
    }

    /// The vectors of its causal order, where it has one. O(n) for n operations, whose index is dropped.
    pub(crate) fn into_order(self) -> Option<Vectors>
        ensures { MatchOption result (IsUnordered self.entry) (CountsSourceOrder self.entry) }
    {
        self.order
    }
}

/// The source that is listed for an operation.
pub(crate) fn source_in(sources: &Sources, op: OpId) -> Option<OpId>
    ensures { result ≡ listed_source sources.now op }
{
    let session = op.session_place();
    if session >= sources.len() {
        return None;
    }
    match sources.get(session).get(op.place()) {
        Some(source) => *source,
        None => None,
    }
}
