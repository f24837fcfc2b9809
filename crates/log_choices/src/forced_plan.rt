//! What the pass that finds what is forced looks up: the writes and deletes of a log, by key and client, and by value.

ghost use Rattle.std.specs.Prelude.{◌≡◌, ◌≤◌, ◌↔◌, ℕ, Bool, Contains, IfOk, IfSome, IsSortedByKey, IsTrue, Some};
ghost use Rattle.std.specs.Ordering.{nat_cmp};
ghost use Rattle.log_events.specs.Events.{IsAt};
ghost use Rattle.log_events.specs.declared.event.Event.TheVariants.{Starts};
ghost use Rattle.log_events.specs.declared.limits.TheConstants.{MAX_NAME};
ghost use Rattle.log_choices.specs.ForcedSteps.{IsPlan};
ghost use Rattle.log_choices.specs.declared.forced_kept.Delete.{Delete as Deleted};

use crate::forced_kept::{Delete, Kept, kept_deletes, kept_writes};
use log_events::EventLog;
use std::alloc::{AllocError, Global};

/// A write or a delete that neither failed nor was lost, to be found by its key, its client and the place of its begin.
#[derive(Clone, Copy)]
struct Spot {
    key: u32,
    client: u32,
    place: u32,
    /// Its number among the writes and deletes that did not fail.
    number: u32,
}

/// A write that did not fail, to be found by its key and value.
#[derive(Clone, Copy)]
struct Valued {
    key: u32,
    value: u32,
    /// Its number among the writes and deletes that did not fail.
    number: u32,
}

/// What the pass looks up.
#[derive(Drop)]
pub(crate) struct Plan {
    /// The writes and deletes that did not fail, in the order of their begins.
    pub(crate) writes: Vec<Kept>,
    /// By key, client and place.
    spots: Vec<Spot>,
    /// By key and value.
    values: Vec<Valued>,
    /// By key.
    pub(crate) deletes: Vec<Delete>,
}

impl Plan {
    /// The plan of a log. O(n log n) for n calls.
    ///
    /// Fails for want of memory alone.
    pub(crate) fn of(alloc: Global, log: &EventLog) -> Result<Plan, AllocError>
        ensures { IfOk result (λ plan. (in_time : Bool) → IsPlan in_time log.now plan) }
    {
        let writes = kept_writes(alloc, log)?;
        let spots = spots_of(alloc, &writes)?;
        let values = values_of(alloc, &writes)?;
        let deletes = kept_deletes(alloc, log)?;
        Ok(Plan {
            writes,
            spots,
            values,
            deletes,
        })
    }

    /// The last write or delete of a key by a client among the calls that come before a call, by its number, but for lost ones.
    /// O(log n) for n writes.
    pub(crate) fn last_before(&self, key: u32, client: u32, past: &[u32]) -> Option<u32> {
        let place = past.get(client as usize).copied()?;
        let at = self.spots.partition_point(|spot| (spot.key, spot.client, spot.place)
            < (key, client, place));
        if at == 0 {
            return None;
        }
        let last = self.spots[at - 1];
        if last.key == key && last.client == client {
            Some(last.number)
        } else {
            None
        }
    }

    /// The number of the write or delete that is the last call of a client which is known to come before a call, if it is one; else any
    /// number. O(log n) for n writes.
    pub(crate) fn last_known(&self, client: u32, past: &[u32]) -> Option<u32> {
        let link = past.get(client as usize).copied()?;
        let place = link.checked_sub(1)?;
        u32::try_from(self.number_at(place)).ok()
    }

    /// The write of a value to a key, unless several write it. O(log n) for n writes.
    pub(crate) fn write_of(&self, key: u32, value: u32) -> Option<&Kept>
        ensures { IfSome result (λ w. Contains self.now.writes.items w.now × (w.now.key ≡ key) × (w.now.value ≡ Some value)) }
    {
        let at = self
            .values
            .partition_point(|valued| (valued.key, valued.value) < (key, value));
        let valued = self.values.get(at)?;
        if let Some(next) = self.values.get(at.saturating_add(1))
            && (next.key, next.value) == (key, value)
        {
            return None;
        }
        let write = self.writes.get(valued.number as usize)?;
        if write.key == key && write.value == Some(value) {
            Some(write)
        } else {
            None
        }
    }

    /// The number of the write or delete that began at a place, if there is one; else any number. O(log n) for n writes.
    pub(crate) fn number_at(&self, place: u32) -> usize {
        self.writes.partition_point(|write| write.place < place)
    }

    /// The write or delete that began at a place. O(log n) for n writes.
    pub(crate) fn write_at(&self, place: u32) -> Option<&Kept>
        ensures { IfSome result (λ w. Contains self.now.writes.items w.now × (w.now.place ≡ place)) }
    {
        let write = self.writes.get(self.number_at(place))?;
        if write.place == place {
            Some(write)
        } else {
            None
        }
    }

    /// The deletes of a key that did not fail, in the order of their begins. O(log n) for n deletes.
    pub(crate) fn deletes_of(&self, key: u32) -> &[Delete]
        requires { IsSortedByKey (λ d. d.key) nat_cmp self.now.deletes.items }
        ensures { (d : Deleted) → Contains result.now d ↔ (Contains self.now.deletes.items d × (d.key ≡ key)) }
    {
        let from = self.deletes.partition_point(|delete| delete.key < key);
        let to = self.deletes.partition_point(|delete| delete.key <= key);
        if from <= to {
            &self.deletes[from..to]
        } else {
            &[]
        }
    }
}

/// Whether a key has a start. O(log n) for n starts.
pub(crate) fn is_started(log: &EventLog, key: u32) -> bool
    requires { key ≤ MAX_NAME }
    ensures { IsTrue result ↔ (k : ℕ) × (v : ℕ) × IsAt log.now k (Starts key v) }
{
    // It opens the log, which says that its starts rise.
    log.events_are_log();
    match log.starts().get(2 * key) {
        Some(_) => true,
        None => false,
    }
}

/// The spots of writes that were not lost, by key, client and place.
fn spots_of(alloc: Global, writes: &[Kept]) -> Result<Vec<Spot>, AllocError> {
    let mut spots = Vec::new(alloc);
    let mut number = 0u32;
    for write in writes {
        if !write.is_lost {
            spots.push(Spot {
                key: write.key,
                client: write.client,
                place: write.place,
                number,
            })?;
        }
        number = number.saturating_add(1);
    }
    spots.sort_unstable_by_key(|spot| (spot.key, spot.client, spot.place));
    Ok(spots)
}

/// The writes that write a value, by key and value.
fn values_of(alloc: Global, writes: &[Kept]) -> Result<Vec<Valued>, AllocError> {
    let mut values = Vec::new(alloc);
    let mut number = 0u32;
    for write in writes {
        if let Some(value) = write.value {
            values.push(Valued {
                key: write.key,
                value,
                number,
            })?;
        }
        number = number.saturating_add(1);
    }
    values.sort_unstable_by_key(|valued| (valued.key, valued.value));
    Ok(values)
}
