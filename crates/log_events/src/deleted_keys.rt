//! Which keys some delete names, and the reads that are left out for it.

ghost use Rattle.std.specs.Prelude.{ℕ, ◌≡◌, ◌<◌, ◌^◌, ◌↔◌, Contains, IfOk, length};
ghost use Rattle.std.specs.List.Sorted.{IsStrictlyIncreasing};
ghost use Rattle.log_events.specs.Steps.CallKinds.{deleted_keys as keys_deleted, missed_keys as keys_missed};
ghost use Rattle.log_events.specs.Steps.Tallies.{IsTally};

use crate::logged_call::LoggedCall;
use crate::tallies::tally_of;
use std::alloc::{AllocError, Global};

/// The keys of deletes that did not fail, each once, in order.
///
/// Fails for want of memory alone. O(n log n) for n calls.
pub(crate) fn deleted_keys(alloc: Global, calls: &[LoggedCall]) -> Result<Vec<u32>, AllocError>
    ensures rising { IfOk result (λ keys. IsStrictlyIncreasing keys.items) }
    ensures exact { IfOk result (λ keys. (x : ℕ) → Contains keys.items x ↔ Contains (keys_deleted calls.now) x) }
{
    let mut keys = Vec::new(alloc);
    for call in calls {
        if let Some(key) = call.deleted_key() {
            keys.push(key)?;
        }
    }
    keys.sort_unstable();
    keys.dedup();
    Ok(keys)
}

/// The keys of reads that got nothing, each as often as it has such reads.
///
/// Fails for want of memory alone. O(n) for n calls.
fn missed_keys(alloc: Global, calls: &[LoggedCall]) -> Result<Vec<u32>, AllocError>
    ensures { IfOk result (λ keys. keys.items ≡ keys_missed calls.now) }
{
    let mut keys = Vec::new(alloc);
    for call in calls {
        if let Some(key) = call.missed_key() {
            keys.push(key)?;
        }
    }
    Ok(keys)
}

/// Of some keys that rise, those with reads that got nothing, each with the number of these reads.
///
/// Fails for want of memory alone. O(n log k) for n calls and k keys.
pub(crate) fn missed_reads(
    alloc: Global,
    calls: &[LoggedCall],
    keys: &[u32],
) -> Result<Vec<(u32, u32)>, AllocError>
    requires few { length calls.now < 2 ^ 32 }
    requires rising { IsStrictlyIncreasing keys.now }
    ensures { IfOk result (λ tally. IsTally (keys_missed calls.now) keys.now tally.items) }
{
    let missed = missed_keys(alloc, calls)?;
    tally_of(alloc, &missed, keys)
}
