//! The type of a counter of claims.

ghost use Rattle.std.specs.Prelude.{◌+◌, ◌<◌, ◌≤◌, IfSome};

use std::sync::atomic::{AtomicUsize, Ordering};

/// A counter from which threads claim numbers.
#[derive(Drop)]
pub struct Claims {
    next: AtomicUsize,
}

impl Claims {
    /// No number is claimed.
    pub fn new() -> Claims {
        Claims {
            next: AtomicUsize::new(0),
        }
    }

    /// The next number from 0 on, or none if it is not below a count. O(1).
    ///
    /// Each number is claimed once. No contract says so: whoever needs all numbers below the count looks afterwards which were claimed.
    pub fn next_below(&self, count: usize) -> Option<usize>
        ensures { IfSome result (λ n. n < count) }
    {
        let number = self.next.fetch_add(1, Ordering::SeqCst);
        if number < count { Some(number) } else { None }
    }

    /// Claims the next numbers below a count: from one up to another, or none if none is left. O(1).
    ///
    /// Each range has `most` numbers, as long as all threads get as many. What remains then is cut into a range for each thread, so that
    /// they end at about the same time. No contract says which numbers come.
    pub fn next_range(&self, count: usize, threads: usize, most: usize) -> Option<(usize, usize)>
        ensures some { IfSome result (λ r. r.0 < r.1) }
        ensures below { IfSome result (λ r. r.1 ≤ count) }
        ensures few { IfSome result (λ r. r.1 ≤ r.0 + most) }
    {
        let remains = count % threads.saturating_mul(most).max(1);
        let size = if self.next.load(Ordering::SeqCst) < count - remains {
            most
        } else {
            remains.div_ceil(threads.max(1)).min(most)
        };
        let from = self.next.fetch_add(size, Ordering::SeqCst);
        let to = from.saturating_add(size).min(count);
        if from < to { Some((from, to)) } else { None }
    }
}
