//! What is before each operation that was walked, as counts of the operations of the first sessions. No contract says what is counted.

use crate::places::number_of;
use std::alloc::{AllocError, Global};

/// The most sessions that are counted.
const MAX_COLUMNS: usize = 64;

/// The most counts that are kept.
const MAX_COUNTS: usize = 1 << 27;

/// For each operation, and for each of the first sessions, how many operations of it are before that operation, itself counted in.
#[derive(Drop)]
pub(crate) struct Pasts {
    /// How many sessions are counted.
    columns: usize,
    counts: Vec<u32>,
}

impl Pasts {
    /// No past, for so many sessions and operations.
    ///
    /// Fails for want of memory alone. It takes 4 bytes for each operation and counted session.
    pub(crate) fn new(
        alloc: Global,
        sessions: usize,
        operations: usize,
    ) -> Result<Pasts, AllocError> {
        let most = MAX_COUNTS / operations.saturating_add(1);
        let columns = sessions.min(MAX_COLUMNS).min(most);
        Ok(Pasts {
            columns,
            counts: vec![in alloc; 0; operations.saturating_mul(columns)]?,
        })
    }

    /// How many sessions are counted.
    pub(crate) fn columns(&self) -> usize {
        self.columns
    }

    /// How many operations of a session are before an operation. 0 where the session isn't counted.
    pub(crate) fn count(&self, number: u32, session: u32) -> u32 {
        if session as usize >= self.columns {
            return 0;
        }
        let place = (number as usize)
            .saturating_mul(self.columns)
            .saturating_add(session as usize);
        self.counts.get(place).copied().unwrap_or(0)
    }

    /// Joins the past of an operation to counts.
    pub(crate) fn join(&self, number: u32, counts: &mut [u32]) {
        for session in 0..self.columns {
            let more = self.count(number, number_of(session));
            if let Some(count) = counts.get_mut(session) {
                *count = more.max(*count);
            }
        }
    }

    /// Keeps counts as the past of an operation.
    pub(crate) fn keep(&mut self, number: u32, counts: &[u32]) {
        let first = (number as usize).saturating_mul(self.columns);
        for (session, count) in counts.iter().enumerate() {
            if let Some(kept) = self.counts.get_mut(first.saturating_add(session)) {
                *kept = *count;
            }
        }
    }

    /// How many operations the past of an operation would add to counts.
    pub(crate) fn added(&self, number: u32, counts: &[u32]) -> u64 {
        let mut added: u64 = 0;
        for (session, count) in counts.iter().enumerate() {
            let more = self
                .count(number, number_of(session))
                .saturating_sub(*count);
            added = added.saturating_add(u64::from(more));
        }
        added
    }
}
