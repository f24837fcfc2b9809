//! The count of recorded calls, which says when a seal is due.

use std::sync::atomic::{AtomicU64, Ordering};

/// How many calls the clients have recorded, and at which counts the seals are due.
#[derive(Drop)]
pub struct SealingProgress {
    recorded: AtomicU64,
    calls: u64,
    seals: u8,
}

impl SealingProgress {
    /// The start: of so many calls, none is recorded yet.
    pub fn new(calls: u64, seals: u8) -> SealingProgress {
        SealingProgress {
            recorded: AtomicU64::new(0),
            calls,
            seals,
        }
    }

    /// Counts one more recorded call, and returns how many are recorded.
    pub(crate) fn count(&self) -> u64 {
        self.recorded
            .fetch_add(1, Ordering::SeqCst)
            .saturating_add(1)
    }

    /// Whether a seal is due once so many calls are recorded: the seals divide the calls into equal shares.
    pub(crate) fn is_due(&self, number: u8, recorded: u64) -> bool {
        let shares = u64::from(self.seals) + 1;
        let passed = (u64::from(number) + 1).saturating_mul(self.calls);
        recorded == passed.div_ceil(shares)
    }
}
