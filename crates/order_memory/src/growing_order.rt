//! Orders of operations that contain program order, while they grow until they are transitive.

ghost use Rattle.std.specs.Prelude.{◌≡◌, ◌≢◌, ◌<◌, ◌≤◌, ◌↔◌, ◌⊎◌, ◌+◌, [], ℕ, length, slice_index, slice_index_or};
ghost use Rattle.std.specs.Prelude.{IfOk, IsTrue, MatchBool, MatchOption, OnOk};
ghost use Rattle.model_history.specs.History.{IsOp, Precedes, session as operations_of};
ghost use Rattle.order_causal.specs.Orders.{op, Ops};
ghost use Rattle.order_memory.specs.Steps.GrowingOrders.{AreHeldVectors};
ghost use Rattle.order_memory.specs.Steps.GrowthSteps.{Always, GrowsWithin, IsAroundBehind, IsAtEnd, IsBegun, IsCaused};
ghost use Rattle.order_memory.specs.Steps.GrowthSteps.{IsFirstBehind, IsFollowed, IsGivenUp, IsGrowing, IsIn, IsIncluded};
ghost use Rattle.order_memory.specs.Steps.GrowthSteps.{IsMonotone, IsOneRaise, IsPastOf, IsRaisedFrom, IsRaisedTo, IsRuled};
ghost use Rattle.order_memory.specs.Steps.GrowthSteps.{IsSettled, NoMore, NoReads, TakesOut, Waits};
ghost use Rattle.order_memory.specs.Steps.HappenedBefores.{AreStrictOf};
ghost use Rattle.order_memory.specs.Steps.Indexed.{ListsSourcesIfAny, listed_source};
ghost use Rattle.order_memory.specs.Steps.TakingIn.{DropsRaise, IncludesPast, IncludesUpTo, IsJoined, IsNextReady};
ghost use Rattle.order_memory.specs.Steps.TakingIn.{IsRaisedAlone, IsReady, IsReadyIndex, TakesOne, TakesPast, TakesSome};
ghost use Rattle.order_memory.specs.Steps.TakingIn.{row_of};
ghost use Rattle.order_causal.specs.Vectors.{count, IsCounted};

use crate::indexed::source_in;
use crate::placing::Sources;
use crate::strict::strict_vectors;
use model_history::{History, OpId};
use model_objects::Memory;
use order_causal::{Vectors, is_at_most};
use std::alloc::{AllocError, Global};

/// Counts that were raised: those of one session, in the vectors of neighbours in a session.
#[derive(Clone, Copy, Debug)]
pub(crate) struct Raised {
    /// The first of the neighbours.
    pub(crate) op: OpId,
    /// The index after the last of them.
    pub(crate) end: usize,
    /// The session that their vectors count more of.
    pub(crate) session: usize,
}

/// Why the vector of an operation counts more of a session.
#[derive(Clone, Copy, Debug, PartialEq, Eq)]
pub enum Cause {
    /// This operation is before it, and the vector of this operation counts as much.
    Through(OpId),
    /// It is the source of this read, and the last operation that is counted is another write of the variable and is
    /// before the read.
    Read(OpId),
}

/// A count that was raised.
#[derive(Clone, Copy, Debug)]
pub struct Raise {
    /// The operation whose vector counts more.
    pub op: OpId,
    /// The session that it counts more of.
    pub session: usize,
    /// How many of its operations are counted now.
    pub count: u16,
    /// Why they are before the operation.
    pub cause: Cause,
}

/// An order on the first operations of each session, as vectors: how many operations of each session are before each
/// operation.
///
/// Within a session no count falls from one operation to the next. An operation comes before itself where its vector
/// counts more of its own session than its index.
///
/// Following a raise does what it demands of other vectors. If no raise waits to be followed, the order is transitive.
#[derive(Drop)]
pub(crate) struct GrowingOrder {
    /// The vectors.
    pub(crate) counts: Vectors,
    /// How many operations of each session are in the order.
    pub(crate) past: Vec<u16>,
    /// What was raised and isn't followed yet.
    pub(crate) pending: Vec<Raised>,
    /// What was raised, in turn.
    pub(crate) raises: Vec<Raise>,
    /// How many pairs may be added before the order is given up, or none if it never is.
    pub(crate) most: Option<u32>,
    /// How many pairs were added.
    pub(crate) added: u32,
    /// Whether some operation comes before itself.
    pub(crate) is_cyclic: bool,
}

impl GrowingOrder {
    /// The order that vectors count, with no operations in it yet. O(n k) for n operations of k sessions.
    pub(crate) fn of(
        alloc: Global,
        h: &History<Memory>,
        vectors: &Vectors,
        most: Option<u32>,
    ) -> Result<GrowingOrder, AllocError>
        requires { AreHeldVectors h.now vectors.now }
        ensures growing { IfOk result (IsGrowing h.now) }
        ensures begun { IfOk result IsBegun }
        ensures most { IfOk result (λ order. order.most ≡ most) }
        ensures strict { IfOk result (λ order. AreStrictOf h.now vectors.now order.counts) }
    {
        let counts = strict_vectors(alloc, h, vectors)?;
        let past = vec![in alloc; 0; h.sessions()]?;
        Ok(GrowingOrder {
            counts,
            past,
            pending: Vec::new(alloc),
            raises: Vec::new(alloc),
            most,
            added: 0,
            is_cyclic: false,
        })
    }

    /// Whether more pairs were added than may be.
    pub(crate) fn is_given_up(&self) -> bool
        ensures { IsTrue result ↔ IsGivenUp self.now }
    {
        match self.most {
            Some(most) => most < self.added,
            None => false,
        }
    }

    /// How many operations of a session are before an operation.
    pub(crate) fn count(&self, h: &History<Memory>, op: OpId, session: usize) -> u16
        requires growing { IsGrowing h.now self.now }
        requires is_op { IsOp h.now op }
        requires exists { session < length h.now.1 }
        ensures { result ≡ count self.now.counts op session }
    {
        self.counts.get(op)[session]
    }

    /// What was raised last and isn't followed yet, or none where nothing waits or the order is given up.
    pub(crate) fn next_raised(&mut self, h: &History<Memory>) -> Option<Raised>
        requires { IsGrowing h.now self.old }
        ensures { MatchOption result (IsAtEnd h.now self.old self.new) (TakesOut h.now self.old self.new) }
    {
        if self.is_given_up() {
            return None;
        }
        self.pending.pop()
    }

    /// Takes in an operation and what its vector counts, as far as they aren't in the order yet.
    ///
    /// Each is taken in after its source. So it is raised once to what is before it, and nothing has to be followed. O(k) for k
    /// sessions if nothing was added yet, and otherwise O(k) for each operation that is taken in and for each raise.
    pub(crate) fn take_past(
        &mut self,
        h: &History<Memory>,
        sources: &Sources,
        op: OpId,
    ) -> Result<(), AllocError>
        requires ready { IsReady h.now self.old }
        requires sources { ListsSourcesIfAny h.now sources.now }
        requires is_op { IsOp h.now op }
        requires next { slice_index self.old.past.items op.session ≤ op.index }
        ensures { OnOk result (TakesPast h.now self.old self.new op) }
    {
        if self.added == 0 {
            self.include_past(h, op);
            return Ok(());
        }
        while let Some(session) = self.next_ready(h, sources, op) {
            self.take_in_ready(h, sources, op, session)?;
        }
        self.take_in(h, sources, op)
    }

    /// Takes in operations of a session that the vector of an operation counts, while the source of the next one is in the order.
    fn take_in_ready(
        &mut self,
        h: &History<Memory>,
        sources: &Sources,
        op: OpId,
        session: usize,
    ) -> Result<(), AllocError>
        requires ready { IsReady h.now self.old }
        requires sources { ListsSourcesIfAny h.now sources.now }
        requires is_op { IsOp h.now op }
        requires next { slice_index self.old.past.items op.session ≤ op.index }
        requires exists { session < length h.now.1 }
        requires first { IsNextReady sources.now self.old op session }
        ensures some { OnOk result (TakesSome h.now self.old self.new op) }
        ensures more { OnOk result (slice_index self.old.past.items session < slice_index self.new.past.items session) }
    {
        while let Some(index) = self.ready_index(h, sources, op, session) {
            let next = OpId::at(session, usize::from(index));
            self.take_in(h, sources, next)?;
        }
        Ok(())
    }

    /// The index of the next operation of a session, if the vector of an operation counts it and its source is in the order. O(1).
    fn ready_index(
        &self,
        h: &History<Memory>,
        sources: &Sources,
        op: OpId,
        session: usize,
    ) -> Option<u16>
        requires growing { IsGrowing h.now self.now }
        requires sources { ListsSourcesIfAny h.now sources.now }
        requires is_op { IsOp h.now op }
        requires exists { session < length h.now.1 }
        ensures { MatchOption result (¬ IsNextReady sources.now self.now op session) (IsReadyIndex sources.now self.now op session) }
    {
        if self.is_ready(h, sources, op, session) {
            Some(self.past[session])
        } else {
            None
        }
    }

    /// Counts an operation and what its vector counts among the operations of the order. O(k) for k sessions.
    fn include_past(&mut self, h: &History<Memory>, op: OpId)
        requires growing { IsGrowing h.now self.old }
        requires is_op { IsOp h.now op }
        requires next { slice_index self.old.past.items op.session ≤ op.index }
        requires own { count self.old.counts op op.session ≡ op.index }
        ensures { IncludesPast h.now self.old self.new op }
    {
        for session in 0..h.sessions() {
            let count = self.count(h, op, session);
            self.include_up_to(h, session, count);
        }
        self.include(h, op);
    }

    /// Counts operations of a session among the operations of the order, up to an index. O(1).
    fn include_up_to(&mut self, h: &History<Memory>, session: usize, end: u16)
        requires growing { IsGrowing h.now self.old }
        requires exists { session < length h.now.1 }
        requires held { end ≤ length (operations_of h.now session) }
        ensures { IncludesUpTo h.now self.old self.new session end }
    {
        if self.past[session] < end {
            self.past[session] = end;
        }
    }

    /// A session with a next operation that the vector of an operation counts and whose source is in the order. None if all that
    /// the vector counts is in the order. O(k) for k sessions.
    fn next_ready(&self, h: &History<Memory>, sources: &Sources, op: OpId) -> Option<usize>
        requires ready { IsReady h.now self.now }
        requires sources { ListsSourcesIfAny h.now sources.now }
        requires is_op { IsOp h.now op }
        requires next { slice_index self.now.past.items op.session ≤ op.index }
        ensures { MatchOption result ((t : ℕ) → count self.now.counts op t ≤ slice_index self.now.past.items t)
            (λ t. (t < length h.now.1) × IsNextReady sources.now self.now op t) }
    {
        for session in 0..h.sessions() {
            if self.is_ready(h, sources, op, session) {
                return Some(session);
            }
        }
        None
    }

    /// Whether the vector of an operation counts the next operation of a session, and the source of that one is in the order. O(1).
    fn is_ready(&self, h: &History<Memory>, sources: &Sources, op: OpId, session: usize) -> bool
        requires growing { IsGrowing h.now self.now }
        requires sources { ListsSourcesIfAny h.now sources.now }
        requires is_op { IsOp h.now op }
        requires exists { session < length h.now.1 }
        ensures { IsTrue result ↔ IsNextReady sources.now self.now op session }
    {
        let index = self.past[session];
        if self.count(h, op, session) <= index {
            return false;
        }
        let next = OpId::at(session, usize::from(index));
        self.has_source_in(h, sources, next)
    }

    /// Whether the source of an operation, if it has one, is in the order. O(1).
    fn has_source_in(&self, h: &History<Memory>, sources: &Sources, op: OpId) -> bool
        requires growing { IsGrowing h.now self.now }
        requires sources { ListsSourcesIfAny h.now sources.now }
        ensures { IsTrue result ↔ MatchOption (listed_source sources.now op) Always (IsIn self.now) }
    {
        match source_in(sources, op) {
            Some(source) => source.place() < usize::from(self.past[source.session_place()]),
            None => true,
        }
    }

    /// Takes the next operation of a session in: all that is before the operation before it in its session, and before its
    /// source, comes before it.
    ///
    /// O(k) for k sessions, besides what it raises.
    fn take_in(
        &mut self,
        h: &History<Memory>,
        sources: &Sources,
        op: OpId,
    ) -> Result<(), AllocError>
        requires ready { IsReady h.now self.old }
        requires sources { ListsSourcesIfAny h.now sources.now }
        requires is_op { IsOp h.now op }
        requires next { op.index ≡ slice_index self.old.past.items op.session }
        requires source { MatchOption (listed_source sources.now op) Always (IsIn self.old) }
        ensures { OnOk result (TakesOne h.now self.old self.new op) }
    {
        self.include(h, op);
        self.join(h, op, op.before())?;
        self.join(h, op, source_in(sources, op))
    }

    /// Counts the next operation of a session among the operations of the order.
    fn include(&mut self, h: &History<Memory>, op: OpId)
        requires growing { IsGrowing h.now self.old }
        requires is_op { IsOp h.now op }
        requires next { op.index ≡ slice_index self.old.past.items op.session }
        ensures { IsIncluded h.now self.old self.new op }
    {
        self.past[op.session_place()] = op.number();
    }

    /// Puts all that is before an operation, if there is one, before the last operation of a session that is in the order. No
    /// operation of the order comes after that one. O(k) for k sessions, besides what it raises.
    fn join(
        &mut self,
        h: &History<Memory>,
        op: OpId,
        before: Option<OpId>,
    ) -> Result<(), AllocError>
        requires growing { IsGrowing h.now self.old }
        requires is_op { IsOp h.now op }
        requires last { slice_index self.old.past.items op.session ≡ op.index + 1 }
        requires empty { length self.old.pending.items ≡ 0 }
        requires before { MatchOption before Always
            (λ m. IsOp h.now m × (m ≢ op) × (IsCounted self.old.counts op m ⊎ Precedes m op)) }
        ensures { OnOk result (IsJoined h.now self.old self.new op (row_of self.old.counts before)) }
    {
        match before {
            Some(before) => self.join_past(h, op, before),
            None => Ok(()),
        }
    }

    /// The same, for an operation that is there.
    fn join_past(&mut self, h: &History<Memory>, op: OpId, before: OpId) -> Result<(), AllocError>
        requires growing { IsGrowing h.now self.old }
        requires is_op { IsOp h.now op }
        requires last { slice_index self.old.past.items op.session ≡ op.index + 1 }
        requires empty { length self.old.pending.items ≡ 0 }
        requires before { IsOp h.now before }
        requires apart { before ≢ op }
        requires cause { IsCounted self.old.counts op before ⊎ Precedes before op }
        ensures { OnOk result (IsJoined h.now self.old self.new op (count self.old.counts before)) }
    {
        if is_at_most(self.counts.get(before), self.counts.get(op)) {
            return Ok(());
        }
        let mut from = 0;
        while let Some(session) = self.next_more(h, before, op, from) {
            let count = self.count(h, before, session);
            self.raise_alone(h, op, session, count, Cause::Through(before))?;
            from = session + 1;
        }
        Ok(())
    }

    /// Raises what the vector of the last operation of a session that is in the order counts. It does not wait to be followed.
    fn raise_alone(
        &mut self,
        h: &History<Memory>,
        op: OpId,
        session: usize,
        number: u16,
        cause: Cause,
    ) -> Result<(), AllocError>
        requires growing { IsGrowing h.now self.old }
        requires is_op { IsOp h.now op }
        requires last { slice_index self.old.past.items op.session ≡ op.index + 1 }
        requires empty { length self.old.pending.items ≡ 0 }
        requires exists { session < length h.now.1 }
        requires held { number ≤ length (operations_of h.now session) }
        requires cause { IsCaused h.now NoReads self.old.counts op session number cause }
        ensures { OnOk result (IsRaisedAlone h.now self.old self.new op session number) }
    {
        let place = op.session_place();
        self.raise_from(h, place, op.place(), session, number, cause)?;
        self.drop_raised(h);
        Ok(())
    }

    /// Leaves out what was raised last, if it waits.
    fn drop_raised(&mut self, h: &History<Memory>)
        requires { IsGrowing h.now self.old }
        ensures { DropsRaise h.now self.old self.new }
    {
        let _dropped = self.pending.pop();
    }

    /// Follows what was raised: the operation comes after all that is before the last one counted, and what comes after the
    /// operation counts as much.
    pub(crate) fn follow(&mut self, h: &History<Memory>, raised: Raised) -> Result<(), AllocError>
        requires growing { IsGrowing h.now self.old }
        requires is_op { IsOp h.now raised.op }
        requires is_in { IsIn self.old raised.op }
        requires exists { raised.session < length h.now.1 }
        requires settled { IsSettled (λ e. e ≡ raised) self.old }
        ensures within { OnOk result (GrowsWithin h.now NoReads self.old self.new) }
        ensures settled { OnOk result (IsSettled NoMore self.new) }
    {
        self.add_last(h, raised.op, raised.session)?;
        self.add_behind(h, raised)
    }

    /// Lets what comes after an operation that was raised count as much.
    fn add_behind(&mut self, h: &History<Memory>, raised: Raised) -> Result<(), AllocError>
        requires growing { IsGrowing h.now self.old }
        requires is_op { IsOp h.now raised.op }
        requires exists { raised.session < length h.now.1 }
        requires settled { IsSettled (λ e. e ≡ raised) self.old }
        requires followed { IsFollowed (Waits NoMore self.old) self.old.counts raised.op raised.session }
        ensures within { OnOk result (GrowsWithin h.now NoReads self.old self.new) }
        ensures settled { OnOk result (IsSettled NoMore self.new) }
    {
        let count = self.count(h, raised.op, raised.session);
        for session in 0..h.sessions() {
            let index = self.first_behind(h, session, raised.op);
            if index < usize::from(self.past[session]) {
                let cause = Cause::Through(raised.op);
                self.raise_from(h, session, index, raised.session, count, cause)?;
            }
        }
        Ok(())
    }

    /// Puts all that is before the last operation of a session that the vector of an operation counts before the
    /// operation.
    fn add_last(&mut self, h: &History<Memory>, op: OpId, session: usize) -> Result<(), AllocError>
        requires growing { IsGrowing h.now self.old }
        requires is_op { IsOp h.now op }
        requires is_in { IsIn self.old op }
        requires exists { session < length h.now.1 }
        ensures within { OnOk result (GrowsWithin h.now NoReads self.old self.new) }
        ensures followed { OnOk result (IsFollowed (Waits NoMore self.new) self.new.counts op session) }
    {
        let count = self.count(h, op, session);
        if count == 0 {
            return Ok(());
        }
        let last = OpId::at(session, usize::from(count) - 1);
        self.add_past(h, op, last)
    }

    /// Puts a write that is before a read before the source of the read. What is before the write comes when the raise is
    /// followed.
    pub(crate) fn add_rival(
        &mut self,
        h: &History<Memory>,
        source: OpId,
        write: OpId,
        read: OpId,
    ) -> Result<(), AllocError>
        requires growing { IsGrowing h.now self.old }
        requires source { IsOp h.now source }
        requires is_in { IsIn self.old source }
        requires write { IsOp h.now write }
        ensures within { (reads : Ops) → IsRuled h.now reads self.old.counts source read write.session (write.index + 1)
            → OnOk result (GrowsWithin h.now reads self.old self.new) }
        ensures growing { OnOk result (IsGrowing h.now self.new) }
        ensures counted { OnOk result (IsCounted self.new.counts source write) }
    {
        let session = source.session_place();
        let index = source.place();
        let other = write.session_place();
        let count = write.number();
        self.raise_from(h, session, index, other, count, Cause::Read(read))
    }

    /// Puts all that is before an operation before another one, which comes after it. O(k) for k sessions, besides what it
    /// raises.
    fn add_past(&mut self, h: &History<Memory>, op: OpId, before: OpId) -> Result<(), AllocError>
        requires growing { IsGrowing h.now self.old }
        requires is_op { IsOp h.now op }
        requires is_in { IsIn self.old op }
        requires before { IsOp h.now before }
        requires cause { IsCounted self.old.counts op before ⊎ Precedes before op }
        ensures within { OnOk result (GrowsWithin h.now NoReads self.old self.new) }
        ensures past { OnOk result (IsPastOf self.new.counts op before) }
    {
        if is_at_most(self.counts.get(before), self.counts.get(op)) {
            return Ok(());
        }
        let mut from = 0;
        while let Some(session) = self.next_more(h, before, op, from) {
            let count = self.count(h, before, session);
            let index = op.place();
            let cause = Cause::Through(before);
            self.raise_from(h, op.session_place(), index, session, count, cause)?;
            from = session + 1;
        }
        Ok(())
    }

    /// The first session from a number on of which the vector of one operation counts more than that of another. O(k) for k
    /// sessions.
    fn next_more(&self, h: &History<Memory>, one: OpId, other: OpId, from: usize) -> Option<usize>
        requires growing { IsGrowing h.now self.now }
        requires one { IsOp h.now one }
        requires other { IsOp h.now other }
        ensures { MatchOption result ((z : ℕ) → from ≤ z → count self.now.counts one z ≤ count self.now.counts other z)
            (λ session. (from ≤ session) × (session < length h.now.1)
            × ((z : ℕ) → from ≤ z → z < session → count self.now.counts one z ≤ count self.now.counts other z)) }
    {
        next_above(self.counts.get(one), self.counts.get(other), from)
    }

    /// The index of the first operation of a session that comes after an operation, or of the first one that isn't in the order.
    /// O(log p) for p operations of the session.
    fn first_behind(&self, h: &History<Memory>, session: usize, op: OpId) -> usize
        requires growing { IsGrowing h.now self.now }
        requires is_op { IsOp h.now op }
        requires exists { session < length h.now.1 }
        requires monotone { IsMonotone self.now.counts (λ s. slice_index self.now.past.items s) }
        ensures { IsFirstBehind self.now session op result }
    {
        let range = self.near_end(h, session, op);
        let mut low = range.0;
        let mut high = range.1;
        while low < high {
            let middle = low + (high - low) / 2;
            let other = OpId::at(session, middle);
            if op.index < u64::from(self.count(h, other, op.session_place())) {
                high = middle;
            } else {
                low = middle + 1;
            }
        }
        low
    }

    /// Two bounds, both included, on the index of the first operation of a session that comes after an operation, or of the
    /// first one that isn't in the order. The search starts at the end, which the index is mostly near.
    fn near_end(&self, h: &History<Memory>, session: usize, op: OpId) -> (usize, usize)
        requires growing { IsGrowing h.now self.now }
        requires is_op { IsOp h.now op }
        requires exists { session < length h.now.1 }
        requires monotone { IsMonotone self.now.counts (λ s. slice_index self.now.past.items s) }
        ensures { IsAroundBehind self.now session op result.0 result.1 }
    {
        let mut high = usize::from(self.past[session]);
        let mut step = 1;
        while step <= high {
            if !self.is_behind(h, session, high - step, op) {
                return (high - step + 1, high);
            }
            high -= step;
            step *= 2;
        }
        (0, high)
    }

    /// Whether an operation of a session comes after an operation. O(1).
    fn is_behind(&self, h: &History<Memory>, session: usize, index: usize, op: OpId) -> bool
        requires growing { IsGrowing h.now self.now }
        requires is_op { IsOp h.now op }
        requires exists { session < length h.now.1 }
        requires inside { index < length (operations_of h.now session) }
        ensures { IsTrue result ↔ IsCounted self.now.counts (record { session = session; index = index }) op }
    {
        let other = OpId::at(session, index);
        op.index < u64::from(self.count(h, other, op.session_place()))
    }

    /// Raises what the vectors of an operation and of those after it in its session count of a session, up to the first that
    /// counts as much, and notes what is to be followed.
    fn raise_from(
        &mut self,
        h: &History<Memory>,
        session: usize,
        index: usize,
        other: usize,
        number: u16,
        cause: Cause,
    ) -> Result<(), AllocError>
        requires growing { IsGrowing h.now self.old }
        requires session { session < length h.now.1 }
        requires inside { index ≤ length (operations_of h.now session) }
        requires other { other < length h.now.1 }
        requires held { number ≤ length (operations_of h.now other) }
        ensures growing { OnOk result (IsGrowing h.now self.new) }
        ensures within { (reads : Ops)
            → (index < slice_index self.old.past.items session → IsCaused h.now reads self.old.counts (op session index) other number cause)
            → OnOk result (GrowsWithin h.now reads self.old self.new) }
        ensures raised { OnOk result
            (IsRaisedFrom self.old.counts self.new.counts (slice_index self.old.past.items session) session index other number) }
        ensures few { OnOk result (length self.new.pending.items ≤ length self.old.pending.items + 1) }
    {
        let end = self.raise_up_to(h, session, index, other, number, cause)?;
        if end == index {
            return Ok(());
        }
        let op = OpId::at(session, index);
        self.pending.push(Raised {
            op,
            end,
            session: other,
        })?;
        if session == other {
            self.is_cyclic = true;
        }
        Ok(())
    }

    /// Raises what the vectors of an operation and of those after it in its session count of a session, up to the first that
    /// counts as much. Returns the index of that one.
    fn raise_up_to(
        &mut self,
        h: &History<Memory>,
        session: usize,
        index: usize,
        other: usize,
        number: u16,
        cause: Cause,
    ) -> Result<usize, AllocError>
        requires growing { IsGrowing h.now self.old }
        requires session { session < length h.now.1 }
        requires inside { index ≤ length (operations_of h.now session) }
        requires other { other < length h.now.1 }
        requires held { number ≤ length (operations_of h.now other) }
        ensures raised { IfOk result (λ end. IsRaisedTo h.now self.old self.new session index end other number cause) }
        ensures stopped { IfOk result
            (λ end. end < slice_index self.old.past.items session → number ≤ count self.old.counts (op session end) other) }
    {
        let first = OpId::at(session, index);
        let mut end = index;
        while end < usize::from(self.past[session]) {
            let op = OpId::at(session, end);
            let cause = if end == index {
                cause
            } else {
                Cause::Through(first)
            };
            if !self.raise(h, op, other, number, cause)? {
                return Ok(end);
            }
            end += 1;
        }
        Ok(end)
    }

    /// Raises what the vector of an operation counts of a session, if that is less. Returns whether it was raised.
    fn raise(
        &mut self,
        h: &History<Memory>,
        op: OpId,
        session: usize,
        number: u16,
        cause: Cause,
    ) -> Result<bool, AllocError>
        requires growing { IsGrowing h.now self.old }
        requires is_op { IsOp h.now op }
        requires exists { session < length h.now.1 }
        requires held { number ≤ length (operations_of h.now session) }
        ensures { IfOk result (λ raised. MatchBool raised (IsOneRaise h.now self.old self.new op session number cause)
            ((self.new ≡ self.old) × (number ≤ count self.old.counts op session))) }
    {
        let before = self.count(h, op, session);
        if number <= before {
            return Ok(false);
        }
        self.raises.push(Raise {
            op,
            session,
            count: number,
            cause,
        })?;
        self.counts.set(op, session, number);
        self.added += u32::from(number - before);
        Ok(true)
    }
}

/// The first place from a number on at which a count is larger than the one at its place in others, where a place past the end has
/// 0.
fn next_above(counts: &[u16], others: &[u16], from: usize) -> Option<usize>
    ensures { MatchOption result
        ((s : ℕ) → from ≤ s → s < length counts.now → slice_index_or counts.now s 0 ≤ slice_index_or others.now s 0)
        (λ place. (from ≤ place) × (place < length counts.now)
        × ((s : ℕ) → from ≤ s → s < place → slice_index_or counts.now s 0 ≤ slice_index_or others.now s 0)) }
{
    for place in from..counts.len() {
        if counts[place] > others.get(place).copied().unwrap_or(0) {
            return Some(place);
        }
    }
    None
}
