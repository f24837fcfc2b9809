//! The null reads that the history of a log by a choice leaves out.

ghost use Rattle.std.specs.Prelude.{◌≡◌, ◌<◌, ◌^◌, ◌↔◌, ℕ, Contains, IfOk, length};
ghost use Rattle.std.specs.List.Sorted.{IsStrictlyIncreasing};
ghost use Rattle.model_objects.specs.Table.{IsRising};
ghost use Rattle.log_events.specs.Events.{run_calls};
ghost use Rattle.log_choices.specs.ChoiceTables.{choice_in};
ghost use Rattle.log_choices.specs.ChosenLeftOut.{AreLeftOutBy};
ghost use Rattle.log_choices.specs.Steps.ChosenCalls.{left_out_key as left_out_key_by, left_out_keys as left_out_keys_by};

use crate::null_reads::NullReads;
use crate::seen::Seen;
use log_events::{EventLog, LoggedCall, tally_of};
use model_objects::Table;
use std::alloc::{AllocError, Global};

/// The keys with reads that the history of a log by a choice leaves out, in order, each with how many: null reads that the choice does not
/// have.
///
/// Fails for want of memory alone. O(n log n) for n calls.
pub fn left_out_by(
    alloc: Global,
    log: &EventLog,
    choice: &Table<Seen>,
) -> Result<Vec<(u32, u32)>, AllocError>
    requires rising { IsRising choice.now }
    ensures { IfOk result (λ counts. AreLeftOutBy log.now (choice_in choice.now) counts.items) }
{
    let reads = NullReads::of(alloc, log, choice)?;
    let left_out = left_out_keys(alloc, &reads)?;
    let keys = distinct(alloc, &left_out)?;
    tally_of(alloc, &left_out, &keys)
}

/// The keys of the reads that are left out, each as often as it has such reads.
///
/// Fails for want of memory alone. O(n log n) for n calls.
fn left_out_keys(alloc: Global, reads: &NullReads<'_>) -> Result<Vec<u32>, AllocError>
    ensures exact { IfOk result (λ keys. keys.items ≡ left_out_keys_by reads.now.0 (choice_in reads.now.1) (run_calls reads.now.0)) }
    ensures few { IfOk result (λ keys. length keys.items < 2 ^ 32) }
{
    let mut keys = Vec::new(alloc);
    for call in reads.log().calls() {
        if let Some(key) = left_out_key(reads, call) {
            keys.push(key)?;
        }
    }
    Ok(keys)
}

/// The key of a read that got nothing, where it is left out.
fn left_out_key(reads: &NullReads<'_>, call: &LoggedCall) -> Option<u32>
    requires { Contains (run_calls reads.now.0) call.now }
    ensures { result ≡ left_out_key_by reads.now.0 (choice_in reads.now.1) call.now.place call.now.call call.now.ending }
{
    let key = call.missed_key()?;
    match reads.saw(call.place(), key) {
        None => Some(key),
        Some(_) => None,
    }
}

/// Keys, each once, in order.
///
/// Fails for want of memory alone. O(n log n) for n keys.
fn distinct(alloc: Global, keys: &[u32]) -> Result<Vec<u32>, AllocError>
    ensures rising { IfOk result (λ found. IsStrictlyIncreasing found.items) }
    ensures exact { IfOk result (λ found. (x : ℕ) → Contains found.items x ↔ Contains keys.now x) }
{
    let mut found = Vec::from_slice(alloc, keys)?;
    found.sort_unstable();
    found.dedup();
    Ok(found)
}
