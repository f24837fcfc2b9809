//! What the reads of a log that got nothing saw, by a choice.

ghost use Rattle.std.specs.Prelude.{◌≡◌, Contains, IfOk, option_map};
ghost use Rattle.std.specs.Map.{keys_of as keys_in};
ghost use Rattle.model_objects.specs.Table.{IsRising};
ghost use Rattle.log_events.specs.Events.{run_calls};
ghost use Rattle.log_events.specs.Histories.{is_deleted as deleted_in};
ghost use Rattle.log_events.specs.Steps.CallKinds.{missed_keys};
ghost use Rattle.log_choices.specs.ChoiceTables.{choice_in, seen_of};
ghost use Rattle.log_choices.specs.ChosenHistories.{saw as saw_by};

use crate::seen::Seen;
use log_events::EventLog;
use model_objects::Table;
use std::alloc::{AllocError, Global};
use std::marker::Model;

/// The reads of a log that got nothing, with a choice of what they saw.
#[derive(Drop)]
pub(crate) struct NullReads<'a> {
    log: &'a EventLog,
    choice: &'a Table<Seen>,
    /// Of the keys of these reads those that some delete names, each once, in order.
    keys: Vec<u32>,
}

impl<'a> Model for NullReads<'a> {
    ghost use Rattle.std.specs.Prelude.{ℕ, List};
    ghost use Rattle.log_events.specs.declared.event.Event.{Event};
    ghost use Rattle.log_choices.specs.declared.seen.Seen.{Seen};
    ghost use Rattle.log_choices.specs.Steps.ChosenCalls.{AreNullReads};

    ghost Value = { List Event × List (ℕ × Seen) };

    ghost view = { λ reads. (reads.log.now, reads.choice.now) };

    ghost invariant = { λ reads. AreNullReads reads.log.now reads.choice.now reads.keys.items };
}

impl<'a> NullReads<'a> {
    /// The reads of a log, with a choice whose places rise. O(n log n) for n calls.
    pub(crate) fn of(
        alloc: Global,
        log: &'a EventLog,
        choice: &'a Table<Seen>,
    ) -> Result<NullReads<'a>, AllocError>
        requires { IsRising choice.now }
        ensures { IfOk result (λ reads. reads ≡ (log.now, choice.now)) }
    {
        let left_out = log.left_out(alloc)?;
        let keys = keys_of(alloc, &left_out)?;
        Ok(NullReads { log, choice, keys })
    }

    /// The log.
    pub(crate) fn log(&self) -> &EventLog
        ensures { result.now ≡ self.now.0 }
    {
        self.log
    }

    /// What a read of a key that got nothing saw, by the place of its begin, or `None` where it is left out. O(log n) for n calls.
    pub(crate) fn saw(&self, place: u32, key: u32) -> Option<Seen>
        requires { Contains (missed_keys (run_calls self.now.0)) key }
        ensures { option_map seen_of result ≡ saw_by self.now.0 (choice_in self.now.1) place key }
    {
        if self.is_deleted(key) {
            self.choice.get(place).copied()
        } else {
            Some(Seen::Start)
        }
    }

    /// Whether some delete of a key did not fail, of which some read got nothing. O(log n) for n calls.
    fn is_deleted(&self, key: u32) -> bool
        requires { Contains (missed_keys (run_calls self.now.0)) key }
        ensures { result ≡ deleted_in self.now.0 key }
    {
        self.keys.binary_search(&key).is_ok()
    }
}

/// The keys of some counts.
fn keys_of(alloc: Global, counts: &[(u32, u32)]) -> Result<Vec<u32>, AllocError>
    ensures { IfOk result (λ keys. keys.items ≡ keys_in counts.now) }
{
    let mut keys = Vec::new(alloc);
    for (key, _) in counts {
        keys.push(*key)?;
    }
    Ok(keys)
}
