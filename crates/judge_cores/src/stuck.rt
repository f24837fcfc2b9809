//! Where operations can't all be placed one after the other, and what cycle keeps them from it.

ghost use Rattle.std.specs.Prelude.{◌<◌, length};

use crate::asking::{number_at, put, session_of, source_of};
use crate::searching::{Leg, Search};
use judge_memory::LongIndex;
use std::alloc::{AllocError, Global};

/// A shortest cycle through some operation of the cycle that keeps operations from being placed, by its legs: none where all are placed.
///
/// The edges are sorted by where they lead. Fails for want of memory alone. O((n + m) k) for n operations in k sessions and m edges, and
/// in each round of the placement a visit of each session that is not finished.
pub(crate) fn cycle_with(
    alloc: Global,
    index: &LongIndex,
    edges: &[(u32, u32)],
) -> Result<Vec<Leg>, AllocError> {
    let placed = Placed::of(alloc, index, edges)?;
    let mut least: Vec<Leg> = Vec::new(alloc);
    for operation in &placed.cycle(alloc, index, edges)? {
        let search = Search::back_from(alloc, index, edges, &[*operation])?;
        let legs = search.way_from(alloc, *operation)?;
        if legs.len() > 1 && (least.is_empty() || legs.len() < least.len()) {
            least = legs;
        }
    }
    Ok(least)
}

/// The operations that could be placed: the first ones of each session.
#[derive(Drop)]
struct Placed {
    /// For each session, the number from which on its operations are not placed.
    next: Vec<u32>,
    /// The sessions with operations that are not placed.
    unfinished: Vec<u32>,
}

impl Placed {
    /// What can be placed, each operation after the one before it, its source and where edges to it come from.
    fn of(alloc: Global, index: &LongIndex, edges: &[(u32, u32)]) -> Result<Placed, AllocError> {
        let mut placed = Placed::nothing(alloc, index)?;
        for _round in 0..index.operations() {
            let Some(unfinished) = placed.place_more(alloc, index, edges)? else {
                break;
            };
            placed.unfinished = unfinished;
        }
        Ok(placed)
    }

    fn nothing(alloc: Global, index: &LongIndex) -> Result<Placed, AllocError> {
        let mut next = Vec::new(alloc);
        let mut unfinished = Vec::new(alloc);
        for session in 0..index.sessions() {
            next.push(index.start(session))?;
            if index.start(session) < index.end(session) {
                unfinished.push(session)?;
            }
        }
        Ok(Placed { next, unfinished })
    }

    /// Places what it can in each session in turn. Returns the sessions that are still unfinished, or none if it could place nothing.
    fn place_more(
        &mut self,
        alloc: Global,
        index: &LongIndex,
        edges: &[(u32, u32)],
    ) -> Result<Option<Vec<u32>>, AllocError> {
        let mut has_placed = false;
        let mut unfinished = Vec::new(alloc);
        let sessions = Vec::from_slice(alloc, &self.unfinished)?;
        for &session in &sessions {
            if session >= index.sessions() {
                continue;
            }
            let next = number_at(&self.next, session);
            self.place_from(index, edges, session, next);
            has_placed |= number_at(&self.next, session) > next;
            if number_at(&self.next, session) < index.end(session) {
                unfinished.push(session)?;
            }
        }
        Ok(if has_placed { Some(unfinished) } else { None })
    }

    /// Places operations of a session from its next one on, as long as it can.
    fn place_from(&mut self, index: &LongIndex, edges: &[(u32, u32)], session: u32, next: u32)
        requires { session < length index.now.history.1 }
    {
        for operation in next..index.end(session) {
            if self.waits_for(index, edges, operation).is_some() {
                break;
            }
            put(&mut self.next, session, operation + 1);
        }
    }

    /// An operation that is not placed and has to be before another one.
    fn waits_for(&self, index: &LongIndex, edges: &[(u32, u32)], operation: u32) -> Option<u32> {
        match source_of(index, operation) {
            Some(source) if !self.is_placed(index, source) => Some(source),
            _ => self.unplaced_edge(index, edges, operation),
        }
    }

    /// An operation that is not placed and from which an edge leads to the given operation.
    fn unplaced_edge(
        &self,
        index: &LongIndex,
        edges: &[(u32, u32)],
        operation: u32,
    ) -> Option<u32> {
        let first = edges.partition_point(|edge| edge.1 < operation);
        for (from, to) in &edges[first..] {
            if *to != operation {
                break;
            }
            if !self.is_placed(index, *from) {
                return Some(*from);
            }
        }
        None
    }

    fn is_placed(&self, index: &LongIndex, operation: u32) -> bool {
        match session_of(index, operation) {
            Some(session) => operation < number_at(&self.next, session),
            None => true,
        }
    }

    /// The next operations to place of sessions that wait for one another in a cycle: none if all are placed.
    fn cycle(
        &self,
        alloc: Global,
        index: &LongIndex,
        edges: &[(u32, u32)],
    ) -> Result<Vec<u32>, AllocError> {
        let mut cycle = Vec::new(alloc);
        let Some(first) = self.unfinished.first() else {
            return Ok(cycle);
        };
        let begin = self.blocker_after(index, edges, number_at(&self.next, *first));
        let mut operation = begin;
        for _step in &self.unfinished {
            cycle.push(operation)?;
            operation = self.blocker(index, edges, operation);
            if operation == begin {
                break;
            }
        }
        Ok(cycle)
    }

    /// The operation that is reached from another one after as many steps to a blocker as there are unfinished sessions. Further
    /// steps reach it again.
    fn blocker_after(&self, index: &LongIndex, edges: &[(u32, u32)], operation: u32) -> u32 {
        let mut blocker = operation;
        for _step in &self.unfinished {
            blocker = self.blocker(index, edges, blocker);
        }
        blocker
    }

    /// The next operation to place of the session that an operation waits for, or the operation itself if it waits for none.
    fn blocker(&self, index: &LongIndex, edges: &[(u32, u32)], operation: u32) -> u32 {
        let session = self
            .waits_for(index, edges, operation)
            .and_then(|source| session_of(index, source));
        match session {
            Some(session) => number_at(&self.next, session),
            None => operation,
        }
    }
}
