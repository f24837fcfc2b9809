//! Which lost calls had an effect that some read saw.

ghost use Rattle.std.specs.Prelude.{◌≡◌, ◌↔◌, ℕ, Contains, IfOk, IsTrue};
ghost use Rattle.log_events.specs.Events.{run_calls};
ghost use Rattle.log_events.specs.Steps.Outcomes.{AreSorted};
ghost use Rattle.log_choices.specs.ChoiceTables.{choice_in};
ghost use Rattle.log_choices.specs.ChosenHistories.{is_seen};
ghost use Rattle.log_choices.specs.Steps.ChosenCalls.{fork_places, seen_pair as seen_pair_by};

use crate::null_reads::NullReads;
use crate::seen::Seen;
use log_events::{EventLog, LoggedCall};
use std::alloc::{AllocError, Global};

/// The places of lost writes whose value was returned, in order.
///
/// Fails for want of memory alone. O(n log n) for n calls.
pub(crate) fn returned_writes(alloc: Global, log: &EventLog) -> Result<Vec<u32>, AllocError>
    ensures { IfOk result (λ places. places.items ≡ fork_places log.now) }
{
    let origins = log.origins(alloc)?;
    let mut places = Vec::new(alloc);
    for fork in log.clients() as usize..origins.len() {
        places.push(origins.get(fork)[0].place())?;
    }
    Ok(places)
}

/// The keys of null reads with the places of the deletes that they saw, in order, maybe more than once.
///
/// Fails for want of memory alone. O(n log n) for n calls.
pub(crate) fn seen_deletes(
    alloc: Global,
    reads: &NullReads<'_>,
) -> Result<Vec<(u32, u32)>, AllocError>
    ensures sorted { IfOk result (λ pairs. AreSorted pairs.items) }
    ensures exact { IfOk result (λ pairs. (x p : ℕ)
        → Contains pairs.items (x, p) ↔ IsTrue (is_seen reads.now.0 (choice_in reads.now.1) x p)) }
{
    let mut pairs = Vec::new(alloc);
    for call in reads.log().calls() {
        if let Some(pair) = seen_pair(reads, call) {
            pairs.push(pair)?;
        }
    }
    pairs.sort_unstable();
    Ok(pairs)
}

/// The key of a read that saw a delete, with the place of the delete.
fn seen_pair(reads: &NullReads<'_>, call: &LoggedCall) -> Option<(u32, u32)>
    requires { Contains (run_calls reads.now.0) call.now }
    ensures { result ≡ seen_pair_by reads.now.0 (choice_in reads.now.1) call.now.place call.now.call call.now.ending }
{
    let key = call.missed_key()?;
    match reads.saw(call.place(), key) {
        Some(Seen::Delete(place)) => Some((key, place)),
        _ => None,
    }
}
