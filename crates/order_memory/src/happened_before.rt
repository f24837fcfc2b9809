//! What happened before the operations of a session.

ghost use Rattle.std.specs.Prelude.{◌≡◌, ◌⊎◌, ◌+◌, ◌<◌, ◌≤◌, [], ℕ, length, option_map, IfOk, MatchOption, Option, OnOk, Some};
ghost use Rattle.model_history.specs.History.{IsOp, entry, session as operations_of};
ghost use Rattle.order_memory.specs.Memory.{MemoryCall, IsDifferentiated, Writes};
ghost use Rattle.order_causal.specs.Orders.{op};
ghost use Rattle.order_memory.specs.SourceOrder.{CountsSourceOrder};
ghost use Rattle.order_memory.specs.Steps.GrowingOrders.{IsRaisedIn};
ghost use Rattle.order_memory.specs.Steps.GrowthSteps.{Always, IsGivenUp, IsIn, IsSettled, NoMore, Waits};
ghost use Rattle.order_memory.specs.Steps.Indexed.{ListsSourcesIfAny};
ghost use Rattle.order_memory.specs.Steps.HappenedBefores.{AreReadsFollowed, AreSourcesIn, AreStrictOf, HasGrown};
ghost use Rattle.order_memory.specs.Steps.HappenedBefores.{IsLastBelow, IsMade, IsReadFollowed, IsWellFormed, TakesIn};
ghost use Rattle.order_memory.specs.Steps.HappenedBefores.{TakesNext, Tells, most_of, raises_of, session_of, taken_of, vectors_of};
ghost use Rattle.order_causal.specs.Vectors.{Counts, count};

use crate::causal::CausalOrder;
use crate::growing_order::{GrowingOrder, Raise, Raised};
use crate::last_writes::end_of_writes;
use crate::placing::Sources;
use crate::writes::Write;
use model_history::{History, OpId};
use model_objects::Memory;
use order_causal::Vectors;
use std::alloc::{AllocError, Global};

/// How many pairs beyond those of the causal order a relation may have, if a certificate or a derivation is made of it.
pub const MAX_PAIRS: u32 = 100_000;

/// What is known of the happened-before relation of an operation.
#[derive(Clone, Copy, Debug, PartialEq, Eq)]
pub enum Saturation {
    /// The vectors are those of the relation, and no operation is before itself.
    Saturated,
    /// Some operation is before itself.
    Cyclic,
    /// The relation has more pairs beyond those of the causal order than it may have, and isn't made.
    GivenUp,
}

/// The happened-before relation of one operation of a session after another.
///
/// The relation of an operation o is on o and the operations that the causal order puts before o. It is the least transitive
/// relation that contains the causal order there, and in which, for each known read that is o or before o in its session, each
/// write of its variable that is before the read is before the source of the read, the source itself excepted. It is kept as
/// vectors: for each operation how many operations of each session are before it, where an operation counts itself only if it is
/// before itself. So the vector of an operation counts at least its own index of its own session.
#[derive(Drop)]
pub struct HappenedBefore {
    session: usize,
    taken: usize,
    order: GrowingOrder,
    /// The writes of the history, by variable and operation.
    writes: Vec<Write>,
    /// For each operation of the session its source.
    sources: Vec<Option<OpId>>,
}

impl HappenedBefore {
    /// The relation for the operations of a session, before any of them is taken in. It may have at most `most` pairs beyond
    /// those of the causal order, if a number is given.
    ///
    /// Fails for want of memory alone. O(n k) for n operations of k sessions.
    pub fn of(
        alloc: Global,
        order: &CausalOrder,
        session: usize,
        most: Option<u32>,
    ) -> Result<HappenedBefore, AllocError>
        requires exists { session < length order.now.1 }
        ensures made { IfOk result (IsMade order.now) }
        ensures session { IfOk result (λ happened. session_of happened ≡ session) }
        ensures taken { IfOk result (λ happened. taken_of happened ≡ 0) }
        ensures most { IfOk result (λ happened. most_of happened ≡ most) }
        ensures strict { IfOk result (λ happened. (v : Counts) × CountsSourceOrder order.now v
            × AreStrictOf order.now v (vectors_of happened)) }
    {
        let memory = order.memory();
        let writes = Vec::from_slice(alloc, memory.writes_by_variable())?;
        let sources = Vec::from_slice(alloc, memory.sources().get(session))?;
        let order = GrowingOrder::of(alloc, order.history(), order.vectors(), most)?;
        Ok(HappenedBefore {
            session,
            taken: 0,
            order,
            writes,
            sources,
        })
    }

    /// Goes on to the happened-before relation of the session's next operation.
    ///
    /// If values are distinct, its vectors then count exactly this relation, or it is given up: exactly if it has more pairs
    /// beyond those of the causal order than it may have. After a cyclic relation, those of the later operations are cyclic or
    /// given up, and after one that is given up, all are given up. Fails for want of memory alone, and then nothing is left.
    /// O(q k + m k log p) for q operations and m pairs that the relation has more than before, and k sessions of at most p
    /// operations.
    pub fn take_next(self, order: &CausalOrder) -> Result<HappenedBefore, AllocError>
        requires made { IsMade order.now self }
        requires next { taken_of self < length (operations_of order.now (session_of self)) }
        ensures { IfOk result (TakesNext order.now self) }
    {
        self.take_next_of(order.history(), order.memory().sources())
    }

    /// The same, of a history and the sources of its operations.
    fn take_next_of(
        self,
        h: &History<Memory>,
        sources: &Sources,
    ) -> Result<HappenedBefore, AllocError>
        requires made { IsMade h.now self }
        requires sources { ListsSourcesIfAny h.now sources.now }
        requires next { taken_of self < length (operations_of h.now (session_of self)) }
        ensures { IfOk result (TakesNext h.now self) }
    {
        if self.order.is_given_up() {
            Ok(self.pass_next(h))
        } else {
            self.make_next(h, sources)
        }
    }

    /// The same, if the relation of the operation before is given up: that of the next one is then given up too.
    fn pass_next(mut self, h: &History<Memory>) -> HappenedBefore
        requires made { IsMade h.now self }
        requires next { taken_of self < length (operations_of h.now (session_of self)) }
        requires given { IsGivenUp self.order }
        ensures { TakesNext h.now self result }
    {
        self.taken += 1;
        self
    }

    /// The same, if it is not given up.
    fn make_next(
        mut self,
        h: &History<Memory>,
        sources: &Sources,
    ) -> Result<HappenedBefore, AllocError>
        requires made { IsMade h.now self }
        requires kept { ¬ IsGivenUp self.order }
        requires sources { ListsSourcesIfAny h.now sources.now }
        requires next { taken_of self < length (operations_of h.now (session_of self)) }
        ensures { IfOk result (TakesNext h.now self) }
    {
        let index = self.taken;
        self.take_in(h, sources)?;
        self.follow_read_of_all(h, index)?;
        self.saturate(h)?;
        Ok(self)
    }

    /// The state of the relation of the last operation that was taken in. O(1).
    pub fn saturation(&self) -> Saturation
        ensures { Tells self.now result }
    {
        if self.order.is_given_up() {
            Saturation::GivenUp
        } else if self.order.is_cyclic {
            Saturation::Cyclic
        } else {
            Saturation::Saturated
        }
    }

    /// For each operation, how many operations of each session are before it. O(1).
    ///
    /// For an operation that is neither the last one taken in nor before it in the causal order, these are what the causal
    /// order puts before it.
    pub fn vectors(&self) -> &Vectors
        ensures { result.now ≡ vectors_of self.now }
    {
        &self.order.counts
    }

    /// What was raised in the vectors, in turn.
    ///
    /// Each raise puts operations before an operation whose vector did not count them until then, and names the cause, which
    /// rests on the causal order and on earlier raises. Whatever the vectors count beyond the causal order was raised. If values
    /// are distinct, the relation has at least as many such pairs as there are raises. O(1).
    pub fn raises(&self) -> &[Raise]
        ensures { result.now ≡ raises_of self.now }
    {
        self.order.raises.as_slice()
    }

    /// Takes the session's next operation in, with what is before it in the causal order.
    fn take_in(&mut self, h: &History<Memory>, sources: &Sources) -> Result<(), AllocError>
        requires made { IsMade h.now self.old }
        requires kept { ¬ IsGivenUp self.old.order }
        requires sources { ListsSourcesIfAny h.now sources.now }
        requires next { taken_of self.old < length (operations_of h.now (session_of self.old)) }
        ensures { OnOk result (TakesIn h.now self.old self.new) }
    {
        let op = OpId::at(self.session, self.taken);
        self.order.take_past(h, sources, op)?;
        self.taken += 1;
        Ok(())
    }

    /// Follows what was raised until nothing is left, or the order is given up.
    fn saturate(&mut self, h: &History<Memory>) -> Result<(), AllocError>
        requires well_formed { IsWellFormed h.now self.old }
        requires sources { AreSourcesIn h.now self.old }
        requires settled { IsSettled NoMore self.old.order }
        requires reads { AreReadsFollowed h.now NoMore (taken_of self.old) self.old }
        ensures grown { OnOk result (HasGrown h.now Always self.old self.new) }
        ensures settled { OnOk result (IsSettled NoMore self.new.order) }
        ensures reads { OnOk result (AreReadsFollowed h.now NoMore (taken_of self.new) self.new) }
        ensures ended { OnOk result ((length self.new.order.pending.items ≡ 0) ⊎ IsGivenUp self.new.order) }
    {
        while let Some(raised) = self.order.next_raised(h) {
            self.follow(h, raised)?;
        }
        Ok(())
    }

    /// Follows what was raised, in the order and at the reads of the session.
    fn follow(&mut self, h: &History<Memory>, raised: Raised) -> Result<(), AllocError>
        requires well_formed { IsWellFormed h.now self.old }
        requires sources { AreSourcesIn h.now self.old }
        requires raised { IsRaisedIn h.now raised }
        requires is_in { IsIn self.old.order raised.op }
        requires settled { IsSettled (λ e. e ≡ raised) self.old.order }
        requires reads { AreReadsFollowed h.now (λ e. e ≡ raised) (taken_of self.old) self.old }
        ensures grown { OnOk result (HasGrown h.now ⊥ self.old self.new) }
        ensures settled { OnOk result (IsSettled NoMore self.new.order) }
        ensures reads { OnOk result (AreReadsFollowed h.now NoMore (taken_of self.new) self.new) }
    {
        self.order.follow(h, raised)?;
        self.follow_reads(h, raised)
    }

    /// Puts writes before sources, as what was raised demands.
    fn follow_reads(&mut self, h: &History<Memory>, raised: Raised) -> Result<(), AllocError>
        requires well_formed { IsWellFormed h.now self.old }
        requires sources { AreSourcesIn h.now self.old }
        requires raised { IsRaisedIn h.now raised }
        requires settled { IsSettled NoMore self.old.order }
        requires reads { AreReadsFollowed h.now (λ e. e ≡ raised) (taken_of self.old) self.old }
        ensures grown { OnOk result (HasGrown h.now ⊥ self.old self.new) }
        ensures settled { OnOk result (IsSettled NoMore self.new.order) }
        ensures reads { OnOk result (AreReadsFollowed h.now NoMore (taken_of self.new) self.new) }
    {
        if raised.op.session_place() != self.session {
            return Ok(());
        }
        for index in raised.op.place()..raised.end.min(self.taken) {
            self.follow_read(h, index, raised.session)?;
        }
        Ok(())
    }

    /// Puts the writes of each session that are before a read of this session before its source.
    fn follow_read_of_all(&mut self, h: &History<Memory>, index: usize) -> Result<(), AllocError>
        requires well_formed { IsWellFormed h.now self.old }
        requires sources { AreSourcesIn h.now self.old }
        requires index { index < taken_of self.old }
        ensures grown { OnOk result (HasGrown h.now ⊥ self.old self.new) }
        ensures followed { OnOk result ((u : ℕ) → u < length h.now.1
            → IsReadFollowed h.now (Waits NoMore self.new.order) (vectors_of self.new) (op (session_of self.new) index) u) }
    {
        for session in 0..h.sessions() {
            self.follow_read(h, index, session)?;
        }
        Ok(())
    }

    /// Puts the last write of a session that is before a read of this session, and writes its variable, before its
    /// source. O(log n + k) for n operations of k sessions, besides what it raises.
    fn follow_read(
        &mut self,
        h: &History<Memory>,
        index: usize,
        session: usize,
    ) -> Result<(), AllocError>
        requires well_formed { IsWellFormed h.now self.old }
        requires sources { AreSourcesIn h.now self.old }
        requires index { index < taken_of self.old }
        requires exists { session < length h.now.1 }
        ensures grown { OnOk result (HasGrown h.now ⊥ self.old self.new) }
        ensures followed { OnOk result
            (IsReadFollowed h.now (Waits NoMore self.new.order) (vectors_of self.new) (op (session_of self.new) index) session) }
    {
        let Some(source) = self.sources[index] else {
            return Ok(());
        };
        let read = OpId {
            session: self.session as u64,
            index: index as u64,
        };
        match self.last_write(h, read, session) {
            Some(write) if write != source => self.order.add_rival(h, source, write, read),
            _ => Ok(()),
        }
    }

    /// The last operation of a session that is before a read and writes its variable.
    fn last_write(&self, h: &History<Memory>, read: OpId, session: usize) -> Option<OpId>
        requires well_formed { IsWellFormed h.now self.now }
        requires is_op { IsOp h.now read }
        requires exists { session < length h.now.1 }
        ensures { (c : MemoryCall) → option_map (λ e. e.0) (entry h.now read) ≡ Some c
            → MatchOption result ((j y : ℕ) → j < count (vectors_of self.now) read session → ¬ Writes h.now (op session j) c.key y)
            (λ w. (w.session ≡ session) × IsLastBelow h.now c.key session (count (vectors_of self.now) read session) w.index) }
    {
        let count = self.order.count(h, read, session);
        let end = end_of_writes(&self.writes, h.call(read).key, session, count);
        if end == 0 {
            return None;
        }
        Some(OpId::at(session, usize::from(end) - 1))
    }
}
