//! How often keys are listed.

ghost use Rattle.std.specs.Prelude.{◌<◌, ◌^◌, IfOk, length};
ghost use Rattle.std.specs.List.Sorted.{IsStrictlyIncreasing};
ghost use Rattle.log_events.specs.Steps.Tallies.{AreCounted, IsTally};

use std::alloc::{AllocError, Global};

/// For each of some keys that rise, how often it is listed.
///
/// Fails for want of memory alone. O(n log k) for n that are listed and k keys.
fn counts_of(alloc: Global, listed: &[u32], keys: &[u32]) -> Result<Vec<u32>, AllocError>
    requires few { length listed.now < 2 ^ 32 }
    requires rising { IsStrictlyIncreasing keys.now }
    ensures { IfOk result (λ counts. AreCounted listed.now keys.now counts.items) }
{
    let mut counts = vec![in alloc; 0; keys.len()]?;
    for key in listed {
        if let Ok(place) = keys.binary_search(key) {
            counts[place] += 1;
        }
    }
    Ok(counts)
}

/// Of some keys that rise, those that are listed, each with how often.
///
/// Fails for want of memory alone. O(n log k) for n that are listed and k keys.
pub fn tally_of(alloc: Global, listed: &[u32], keys: &[u32]) -> Result<Vec<(u32, u32)>, AllocError>
    requires few { length listed.now < 2 ^ 32 }
    requires rising { IsStrictlyIncreasing keys.now }
    ensures { IfOk result (λ tally. IsTally listed.now keys.now tally.items) }
{
    let counts = counts_of(alloc, listed, keys)?;
    let mut found = Vec::new(alloc);
    for (place, key) in keys.iter().enumerate() {
        if counts[place] != 0 {
            found.push((*key, counts[place]))?;
        }
    }
    Ok(found)
}
