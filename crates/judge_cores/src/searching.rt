//! Searches back in the causal order, for ways with the fewest steps from one session to another.

use crate::asking::{is_write_of, number_at, put, source_of};
use judge_memory::LongIndex;
use std::alloc::{AllocError, Global};

/// Two operations of one session: a way goes from the first, which is the second or before it, to the second.
#[derive(Clone, Copy, Debug)]
pub(crate) struct Leg {
    pub(crate) from: u32,
    pub(crate) to: u32,
}

/// Operations of one session that were found together.
#[derive(Clone, Copy, Debug)]
struct Raise {
    /// The first of them.
    from: u32,
    /// The last of them.
    to: u32,
    /// The operation that this raise leads to in one step, and the place of the raise that found that operation. None if the search
    /// began here.
    next: Option<(u32, usize)>,
}

/// What is before some operations, ordered by how many steps from one session to another lead there.
#[derive(Drop)]
pub(crate) struct Search {
    /// For each session, the number from which on its operations are not found.
    ends: Vec<u32>,
    /// Disjoint raises, except those that the search began at.
    raises: Vec<Raise>,
}

impl Search {
    /// What is before these operations in the order that sources, program order and edges make. The edges are sorted by where they lead.
    ///
    /// The operations are in order, and count as found only where they are before one of them. Fails for want of memory alone.
    /// O(n + k + m log m) for n operations in k sessions and m edges.
    pub(crate) fn back_from(
        alloc: Global,
        index: &LongIndex,
        edges: &[(u32, u32)],
        operations: &[u32],
    ) -> Result<Search, AllocError> {
        let mut search = Search {
            ends: vec![in alloc; 0; index.sessions() as usize]?,
            raises: Vec::new(alloc),
        };
        for operation in operations {
            search.begin(index, *operation)?;
        }
        for place in 0..index.operations() as usize + operations.len() {
            let Some(raise) = search.raises.get(place).copied() else {
                break;
            };
            search.follow_reads(index, place, raise)?;
            search.follow_edges(index, edges, place, raise)?;
        }
        Ok(search)
    }

    /// Begins at an operation: what precedes it in its session is found.
    fn begin(&mut self, index: &LongIndex, operation: u32) -> Result<(), AllocError> {
        if operation >= index.operations() {
            return Ok(());
        }
        let session = index.session_of(operation);
        self.raises.push(Raise {
            from: index.start(session).max(number_at(&self.ends, session)),
            to: operation,
            next: None,
        })?;
        put(&mut self.ends, session, operation);
        Ok(())
    }

    /// Finds the sources of the operations of a raise.
    fn follow_reads(
        &mut self,
        index: &LongIndex,
        place: usize,
        raise: Raise,
    ) -> Result<(), AllocError> {
        for operation in raise.from..=raise.to {
            if let Some(source) = source_of(index, operation) {
                self.find(index, source, (operation, place))?;
            }
        }
        Ok(())
    }

    /// Finds the operations with edges to operations of a raise.
    fn follow_edges(
        &mut self,
        index: &LongIndex,
        edges: &[(u32, u32)],
        place: usize,
        raise: Raise,
    ) -> Result<(), AllocError> {
        let first = edges.partition_point(|edge| edge.1 < raise.from);
        for (from, to) in &edges[first..] {
            if *to > raise.to {
                break;
            }
            self.find(index, *from, (*to, place))?;
        }
        Ok(())
    }

    /// Finds an operation and what precedes it in its session, as far as that is not found, by a step from it to another one.
    fn find(
        &mut self,
        index: &LongIndex,
        operation: u32,
        next: (u32, usize),
    ) -> Result<(), AllocError> {
        if operation >= index.operations() {
            return Ok(());
        }
        let session = index.session_of(operation);
        let from = index.start(session).max(number_at(&self.ends, session));
        if from <= operation {
            self.raises.push(Raise {
                from,
                to: operation,
                next: Some(next),
            })?;
            put(&mut self.ends, session, operation + 1);
        }
        Ok(())
    }

    /// The write of a variable from which a way with the fewest steps leads to where the search began.
    pub(crate) fn nearest_write(&self, index: &LongIndex, variable: u32) -> Option<u32> {
        for raise in &self.raises {
            if let Some(write) = last_write(index, variable, *raise) {
                return Some(write);
            }
        }
        None
    }

    /// The place of the last raise that found an operation.
    fn place_of(&self, operation: u32) -> Option<usize> {
        self.raises
            .iter()
            .rposition(|raise| raise.from <= operation && operation <= raise.to)
    }

    /// The legs of a way with the fewest steps from an operation to where the search began: none if the operation was not found.
    /// For an operation that the search began at, the way is a cycle if the operation is on one, or else a single leg.
    ///
    /// Fails for want of memory alone. O(m) for m raises.
    pub(crate) fn way_from(&self, alloc: Global, operation: u32) -> Result<Vec<Leg>, AllocError> {
        let mut legs = Vec::new(alloc);
        let mut next = self.place_of(operation).map(|place| (operation, place));
        for _leg in &self.raises {
            let Some((from, place)) = next else {
                break;
            };
            let Some(raise) = self.raises.get(place) else {
                break;
            };
            legs.push(Leg { from, to: raise.to })?;
            next = raise.next;
        }
        Ok(legs)
    }
}

/// The last write of a variable among the operations of a raise.
fn last_write(index: &LongIndex, variable: u32, raise: Raise) -> Option<u32> {
    (raise.from..=raise.to)
        .rev()
        .find(|operation| is_write_of(index, variable, *operation))
}
