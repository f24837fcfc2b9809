//! An order made by rounds over the sessions: each places its operations while the next one can follow.

ghost use Rattle.std.specs.Prelude.{◌≡◌, ◌≢◌, ◌↔◌, ◌+◌, ◌<◌, ◌≤◌, ◌++◌, ◌∷◌, ℕ, List, [], length, slice_get, slice_set, vec_len};
ghost use Rattle.std.specs.Prelude.{IfOk, OnOk, IsTrue, MatchOption};
ghost use Rattle.model_history.specs.declared.op_id.OpId.{OpId as Operation};
ghost use Rattle.model_history.specs.History.{IsOp, many_before, number};
ghost use Rattle.order_causal.specs.Orders.{Leads};
ghost use Rattle.order_memory.specs.Relations.{ReadsFrom};
ghost use Rattle.order_memory.specs.SourceOrder.{IsCyclic};
ghost use Rattle.judge_memory.specs.Steps.{many, IsListedEdge, IsOrderBy, IsStepWith};
ghost use Rattle.judge_memory.specs.Edges.{AreFromOperations, AreSortedEdges};
ghost use Rattle.judge_memory.specs.Placements.{ArePassed, IsGrownFrom, IsNumberPlaced, IsPassed, IsPlaced, IsPlacement, IsReady};
ghost use Rattle.judge_memory.specs.Placements.{IsUnfinished, IsWaiting, next_of};
ghost use Rattle.judge_memory.specs.Sessions.{AreStuck, AreUnfinished, IsGoneThrough, IsStuck};

use crate::LongIndex;
use std::alloc::{AllocError, Global};

/// A session with an operation that is not placed.
#[derive(Clone, Copy, Debug)]
struct Unfinished {
    session: u32,
    /// Each edge before this place leads to an operation before the session's next one, or from a placed operation to that next one.
    passed: usize,
}

/// The operations placed so far: the first ones of each session.
#[derive(Drop)]
struct Placement {
    /// For each session the number from which on its operations are not placed.
    next: Vec<u32>,
    /// The numbers of the placed operations, each after those that it has to follow.
    order: Vec<u32>,
}

/// Whether the edge at a place leads to an operation.
fn leads_to(edges: &[(u32, u32)], place: usize, operation: u32) -> bool
    ensures { IsTrue result ↔ ((from : ℕ) × (slice_get edges.now place ≡ Some (from, operation))) }
{
    match edges.get(place) {
        Some((_, to)) => *to == operation,
        None => false,
    }
}

impl Placement {
    /// Nothing is placed. O(k) for k sessions.
    fn empty(alloc: Global, index: &LongIndex) -> Result<Placement, AllocError>
        ensures { IfOk result (λ p. (edges : List (ℕ × ℕ)) → IsPlacement index.now.history edges p.next.items p.order.items) }
    {
        let mut next = Vec::with_capacity(alloc, index.sessions() as usize)?;
        for session in 0..index.sessions() {
            next.push(index.start(session))?;
        }
        let order = Vec::with_capacity(alloc, index.operations() as usize)?;
        Ok(Placement { next, order })
    }

    fn is_placed(&self, index: &LongIndex, operation: u32) -> bool
        requires sessions { vec_len self.now.next ≡ length index.now.history.1 }
        requires below { operation < many index.now.history }
        ensures { IsTrue result ↔ IsNumberPlaced index.now.history (next_of self.now.next.items) operation }
    {
        operation < self.next[index.session_of(operation) as usize]
    }

    fn is_passed(&self, index: &LongIndex, edge: (u32, u32), operation: u32) -> bool
        requires sessions { vec_len self.now.next ≡ length index.now.history.1 }
        requires below { edge.0 < many index.now.history }
        ensures { IsTrue result ↔ IsPassed index.now.history (next_of self.now.next.items) operation edge.0 edge.1 }
    {
        let (from, to) = edge;
        if to < operation {
            return true;
        }
        to == operation && self.is_placed(index, from)
    }

    /// The place of the first edge, from a place on, that is not passed.
    fn pass(&self, index: &LongIndex, edges: &[(u32, u32)], operation: u32, passed: usize) -> usize
        requires sessions { vec_len self.now.next ≡ length index.now.history.1 }
        requires from_operations { AreFromOperations index.now.history edges.now }
        requires passed { ArePassed index.now.history edges.now (next_of self.now.next.items) operation passed }
        ensures passed { ArePassed index.now.history edges.now (next_of self.now.next.items) operation result }
        ensures stopped { (from to : ℕ) → slice_get edges.now result ≡ Some (from, to)
            → ¬ IsPassed index.now.history (next_of self.now.next.items) operation from to }
    {
        for place in passed..edges.len() {
            if !self.is_passed(index, edges[place], operation) {
                return place;
            }
        }
        edges.len()
    }

    fn is_source_placed(&self, index: &LongIndex, operation: u32) -> bool
        requires sessions { vec_len self.now.next ≡ length index.now.history.1 }
        requires below { operation < many index.now.history }
        ensures placed { IsTrue result → (a p : Operation) → IsOp index.now.history p → number index.now.history p ≡ operation
            → ReadsFrom index.now.history a p → IsPlaced index.now.history (next_of self.now.next.items) a }
        ensures waits { ¬ IsTrue result → (p : Operation) → IsOp index.now.history p → number index.now.history p ≡ operation
            → (a : Operation) × ReadsFrom index.now.history a p × ¬ IsPlaced index.now.history (next_of self.now.next.items) a }
    {
        index.value_is_indexed();
        match index.source(operation) {
            Some(source) => self.is_placed(index, source),
            None => true,
        }
    }

    /// Whether the next operation of a session can be placed, with the place of the first edge that is not passed.
    fn can_follow(
        &self,
        index: &LongIndex,
        edges: &[(u32, u32)],
        operation: u32,
        passed: usize,
    ) -> bool
        requires sessions { vec_len self.now.next ≡ length index.now.history.1 }
        requires below { operation < many index.now.history }
        requires from_operations { AreFromOperations index.now.history edges.now }
        requires sorted { AreSortedEdges edges.now }
        requires passed { ArePassed index.now.history edges.now (next_of self.now.next.items) operation passed }
        requires stopped { (from to : ℕ) → slice_get edges.now passed ≡ Some (from, to)
            → ¬ IsPassed index.now.history (next_of self.now.next.items) operation from to }
        ensures ready { IsTrue result → (p : Operation) → IsOp index.now.history p → number index.now.history p ≡ operation
            → IsReady index.now.history (IsListedEdge index.now.history edges.now) (next_of self.now.next.items) p }
        ensures waits { ¬ IsTrue result → (p : Operation) → IsOp index.now.history p → number index.now.history p ≡ operation
            → IsWaiting index.now.history (IsListedEdge index.now.history edges.now) (next_of self.now.next.items) p }
    {
        !leads_to(edges, passed, operation) && self.is_source_placed(index, operation)
    }

    /// Places an operation, the next one of its session.
    fn place(&mut self, session: usize, operation: u32) -> Result<(), AllocError>
        requires session { session < vec_len self.old.next }
        requires small { operation < u32.MAX }
        ensures next { OnOk result (self.new.next.items ≡ slice_set self.old.next.items session (operation + 1)) }
        ensures order { OnOk result (self.new.order.items ≡ self.old.order.items ++ operation ∷ []) }
    {
        self.order.push(operation)?;
        self.next[session] = operation + 1;
        Ok(())
    }

    /// Places operations of a session while the next one can follow. Returns how far it has gone, unless it is finished.
    fn run(
        &mut self,
        index: &LongIndex,
        edges: &[(u32, u32)],
        at: Unfinished,
    ) -> Result<Option<Unfinished>, AllocError>
        requires placement { IsPlacement index.now.history edges.now self.old.next.items self.old.order.items }
        requires from_operations { AreFromOperations index.now.history edges.now }
        requires sorted { AreSortedEdges edges.now }
        requires gone { IsGoneThrough index.now.history edges.now (next_of self.old.next.items) at }
        ensures placement { OnOk result (IsPlacement index.now.history edges.now self.new.next.items self.new.order.items) }
        ensures grown { OnOk result (IsGrownFrom self.old.next.items self.old.order.items self.new.next.items self.new.order.items) }
        ensures finished { result ≡ Ok None → ¬ IsUnfinished index.now.history (next_of self.new.next.items) at.session }
        ensures gone { (u : Unfinished) → result ≡ Ok (Some u) → IsGoneThrough index.now.history edges.now (next_of self.new.next.items) u }
        ensures session { (u : Unfinished) → result ≡ Ok (Some u) → u.session ≡ at.session }
        ensures stuck { (u : Unfinished) → result ≡ Ok (Some u)
            → IsStuck index.now.history edges.now (next_of self.new.next.items) u.session }
    {
        let session = at.session as usize;
        let mut passed = at.passed;
        for operation in self.next[session]..index.end(at.session) {
            passed = self.pass(index, edges, operation, passed);
            if !self.can_follow(index, edges, operation, passed) {
                return Ok(Some(Unfinished {
                    session: at.session,
                    passed,
                }));
            }
            self.place(session, operation)?;
        }
        Ok(None)
    }

    /// The sessions that are not finished. O(k) for k sessions, and O(e) for e edges.
    fn unfinished(
        &self,
        alloc: Global,
        index: &LongIndex,
        edges: &[(u32, u32)],
    ) -> Result<Vec<Unfinished>, AllocError>
        requires placement { IsPlacement index.now.history edges.now self.now.next.items self.now.order.items }
        requires from_operations { AreFromOperations index.now.history edges.now }
        ensures { IfOk result (λ s. AreUnfinished index.now.history edges.now (next_of self.now.next.items) s.items) }
    {
        let mut sessions = Vec::new(alloc);
        let mut passed = 0;
        for session in 0..index.sessions() {
            let next = self.next[session as usize];
            if next < index.end(session) {
                passed = self.pass(index, edges, next, passed);
                sessions.push(Unfinished { session, passed })?;
            }
        }
        Ok(sessions)
    }

    /// Runs each session once, and keeps those that are not finished.
    fn round(
        &mut self,
        index: &LongIndex,
        edges: &[(u32, u32)],
        sessions: &mut Vec<Unfinished>,
    ) -> Result<(), AllocError>
        requires placement { IsPlacement index.now.history edges.now self.old.next.items self.old.order.items }
        requires from_operations { AreFromOperations index.now.history edges.now }
        requires sorted { AreSortedEdges edges.now }
        requires sessions { AreUnfinished index.now.history edges.now (next_of self.old.next.items) sessions.old.items }
        ensures placement { OnOk result (IsPlacement index.now.history edges.now self.new.next.items self.new.order.items) }
        ensures longer { OnOk result (length self.old.order.items ≤ length self.new.order.items) }
        ensures sessions { OnOk result (AreUnfinished index.now.history edges.now (next_of self.new.next.items) sessions.new.items) }
        ensures stuck { OnOk result (length self.old.order.items ≡ length self.new.order.items
            → AreStuck index.now.history edges.now (next_of self.new.next.items) sessions.new.items) }
    {
        let mut kept = 0;
        for place in 0..sessions.len() {
            if let Some(at) = self.run(index, edges, sessions[place])? {
                sessions[kept] = at;
                kept += 1;
            }
        }
        sessions.truncate(kept);
        Ok(())
    }
}

/// An order of all operations, by number: each is after the one before it in its session, after the write that it read from, and
/// after `from` for each edge `(from, to)` to it. `None` where these make a cycle.
///
/// The edges are sorted by `to`. Fails for want of memory alone. O(n + k + e) for n operations in k sessions and e edges, and in each round
/// a visit of each session that is not finished; each round but the last places an operation. It takes 4 bytes an operation, 4 a session
/// and at most 48 for each session with operations.
pub fn order(
    alloc: Global,
    index: &LongIndex,
    edges: &[(u32, u32)],
) -> Result<Option<Vec<u32>>, AllocError>
    requires from_operations { AreFromOperations index.now.history edges.now }
    requires sorted { AreSortedEdges edges.now }
    ensures { IfOk result (λ out. MatchOption out
        ((a : Operation) × Leads (IsStepWith index.now.history (IsListedEdge index.now.history edges.now)) a a)
        (λ o. IsOrderBy index.now.history edges.now o.items)) }
{
    let mut placement = Placement::empty(alloc, index)?;
    let mut sessions = placement.unfinished(alloc, index, edges)?;
    loop {
        let before = placement.order.len();
        placement.round(index, edges, &mut sessions)?;
        if sessions.is_empty() {
            return Ok(Some(placement.order));
        }
        if placement.order.len() == before {
            return Ok(None);
        }
    }
}

/// An order of all operations, by number: each is after those that are causally before it. `None` where the causal order is cyclic.
///
/// Fails for want of memory alone. It costs what [`order`] does.
pub fn causal_order(alloc: Global, index: &LongIndex) -> Result<Option<Vec<u32>>, AllocError>
    ensures { IfOk result (λ out. MatchOption out (IsCyclic index.now.history) (λ o. IsOrderBy index.now.history [] o.items)) }
{
    order(alloc, index, &[])
}
