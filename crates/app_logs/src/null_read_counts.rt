//! How many null reads of a log have one possible source, several, or none.

ghost use Rattle.std.specs.Prelude.{◌≡◌, ◌+◌, ℕ, IfOk};
ghost use Rattle.std.specs.List.{sum_by};
ghost use Rattle.app_logs.specs.NullReadCounts.{AreNullReadCounts};

use log_choices::{ForcedReads, forced_reads, left_out_by};
use log_events::EventLog;
use std::alloc::{AllocError, Global};

/// How many reads of a log found nothing, of keys that some delete names, by how many deletes they can have seen, or the start: their
/// possible sources.
#[derive(Clone, Copy, Debug, PartialEq, Eq)]
pub struct NullReadCounts {
    /// Reads that can have seen one alone: the log is judged by it.
    pub one: u64,
    /// Reads that may have seen one or another. The history by which the log is judged leaves them out.
    pub several: u64,
    /// Reads that can have seen none: then every line on a log of distinct values is a no.
    pub none: u64,
}

impl NullReadCounts {
    /// The counts of a log, as far as it is found what is forced. `in_time` says that its events stand in the order of time.
    ///
    /// Fails for want of memory alone, at the cost of [`forced_reads`] and O(n log n) for n calls.
    pub fn of(alloc: Global, log: &EventLog, in_time: bool) -> Result<NullReadCounts, AllocError>
        ensures { IfOk result (AreNullReadCounts in_time log.now) }
    {
        let ForcedReads { seen, lacking, .. } = forced_reads(alloc, log, in_time)?;
        let left_out = left_out_by(alloc, log, &seen)?;
        let several = sum_of(left_out.as_slice())?;
        Ok(NullReadCounts {
            one: seen.len().saturating_sub(lacking.len()) as u64,
            several,
            none: lacking.len() as u64,
        })
    }
}

// The sum of some counts. Memory does not hold as many counts as have a sum that is too large.
fn sum_of(counts: &[(u32, u32)]) -> Result<u64, AllocError>
    ensures { IfOk result (λ sum. sum ≡ sum_by (λ (entry : ℕ × ℕ). entry.1) counts.now) }
{
    let mut sum = 0u64;
    for entry in counts {
        sum = added(sum, entry.1)?;
    }
    Ok(sum)
}

// The sum of two counts.
fn added(sum: u64, count: u32) -> Result<u64, AllocError>
    ensures { IfOk result (λ total. total ≡ sum + count) }
{
    match sum.checked_add(u64::from(count)) {
        Some(total) => Ok(total),
        None => Err(AllocError),
    }
}
