//! Which values of lost writes were returned.

ghost use Rattle.std.specs.Prelude.{ℕ, ◌↔◌, Contains, IfOk, IsTrue};
ghost use Rattle.log_events.specs.Steps.CallKinds.{got_pairs, lost_pairs};
ghost use Rattle.log_events.specs.Steps.Outcomes.{AreSorted};

use crate::logged_call::LoggedCall;
use std::alloc::{AllocError, Global};

/// The keys with values of lost writes that some read returned, in order, maybe more than once.
///
/// Fails for want of memory alone. O(n log n) for n calls.
pub(crate) fn returned_values(
    alloc: Global,
    calls: &[LoggedCall],
) -> Result<Vec<(u32, u32)>, AllocError>
    ensures sorted { IfOk result (λ pairs. AreSorted pairs.items) }
    ensures exact { IfOk result (λ pairs. (x v : ℕ) → Contains (lost_pairs calls.now) (x, v)
        → Contains pairs.items (x, v) ↔ Contains (got_pairs calls.now) (x, v)) }
{
    let lost = lost_values(alloc, calls)?;
    let mut pairs = Vec::new(alloc);
    for call in calls {
        if let Some(pair) = call.got_pair() {
            if is_listed(&lost, pair.0, pair.1) {
                pairs.push(pair)?;
            }
        }
    }
    pairs.sort_unstable();
    Ok(pairs)
}

/// The keys with values of lost writes, in order, maybe more than once.
fn lost_values(alloc: Global, calls: &[LoggedCall]) -> Result<Vec<(u32, u32)>, AllocError>
    ensures sorted { IfOk result (λ pairs. AreSorted pairs.items) }
    ensures exact { IfOk result (λ pairs. (x v : ℕ) → Contains pairs.items (x, v) ↔ Contains (lost_pairs calls.now) (x, v)) }
{
    let mut pairs = Vec::new(alloc);
    for call in calls {
        if let Some(pair) = call.lost_pair() {
            pairs.push(pair)?;
        }
    }
    pairs.sort_unstable();
    Ok(pairs)
}

/// Whether a key with a value is among some that are in order. O(log n) for n pairs.
pub(crate) fn is_listed(pairs: &[(u32, u32)], key: u32, value: u32) -> bool
    requires { AreSorted pairs.now }
    ensures { IsTrue result ↔ Contains pairs.now (key, value) }
{
    pairs.binary_search(&(key, value)).is_ok()
}
