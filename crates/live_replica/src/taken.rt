//! A list of updates, with counts and ends for each session.

ghost use Rattle.std.specs.Prelude.{◌≡◌, ◌+◌, ◌^◌, ◌<◌, ◌≤◌, ℕ, [], length, insert, max, OnOk, slice_index};
ghost use Rattle.live_replica.specs.Updates.{end_of, many, one_of, reach};

use crate::update::UpdateOf;
use model_history::MAX_SESSIONS;
use std::alloc::{AllocError, Global};
use std::marker::Model;

/// Updates in an order, with counts and ends for each session.
#[derive(Drop)]
pub(crate) struct Taken<C: Copy> {
    updates: Vec<UpdateOf<C>>,
    counts: [u64; MAX_SESSIONS],
    ends: [u16; MAX_SESSIONS],
}

impl<C: Copy> Model for Taken<C> {
    ghost use Rattle.std.specs.Prelude.{◌-◌, vec_len, vec_capacity};
    ghost use Rattle.live_replica.specs.Steps.Logs.{IsTally, TakenState};

    ghost Value = { TakenState C };

    ghost view = { λ t. record { updates = t.updates.items; room = vec_capacity t.updates - vec_len t.updates } };

    ghost invariant = { λ t. IsTally t.updates.items t.counts t.ends };
}

impl<C: Copy> Taken<C> {
    /// No updates.
    pub(crate) fn new(alloc: Global) -> Taken<C>
        ensures { result.updates ≡ [] }
    {
        Taken {
            updates: Vec::new(alloc),
            counts: [0; MAX_SESSIONS],
            ends: [0; MAX_SESSIONS],
        }
    }

    /// The updates, in order.
    pub fn updates(&self) -> &[UpdateOf<C>]
        ensures { result.now ≡ self.now.updates }
    {
        &self.updates
    }

    /// For each session how many of its updates there are.
    pub fn counts(&self) -> [u64; MAX_SESSIONS]
        ensures { (s : ℕ) → s < MAX_SESSIONS → slice_index result s ≡ many self.now.updates s }
    {
        self.counts
    }

    /// For each session one more than the greatest place of an operation whose update is there.
    pub fn ends(&self) -> [u16; MAX_SESSIONS]
        ensures { (s : ℕ) → s < MAX_SESSIONS → slice_index result s ≡ reach self.now.updates s }
    {
        self.ends
    }

    /// Makes room for so many more.
    pub(crate) fn reserve(&mut self, more: usize) -> Result<(), AllocError>
        ensures updates { self.new.updates ≡ self.old.updates }
        ensures room { OnOk result (more ≤ self.new.room) }
        ensures kept { self.old.room ≤ self.new.room }
    {
        self.updates.reserve(more)
    }

    /// Puts an update at a place.
    pub(crate) fn put(&mut self, at: usize, update: UpdateOf<C>)
        requires place { at ≤ length self.old.updates }
        requires room { 0 < self.old.room }
        ensures updates { self.new.updates ≡ insert self.old.updates at update }
        ensures room { self.new.room + 1 ≡ self.old.room }
    {
        count_in(&mut self.counts, &mut self.ends, &update);
        let _ = self.updates.insert(at, update);
    }
}

// Counts one more update.
fn count_in<C: Copy>(
    counts: &mut [u64; MAX_SESSIONS],
    ends: &mut [u16; MAX_SESSIONS],
    update: &UpdateOf<C>,
)
    requires { (s : ℕ) → s < MAX_SESSIONS → slice_index counts.old s + 1 < 2 ^ 64 }
    ensures counted { (s : ℕ) → s < MAX_SESSIONS → slice_index counts.new s ≡ slice_index counts.old s + one_of update.now s }
    ensures ended { (s : ℕ) → s < MAX_SESSIONS → slice_index ends.new s ≡ max (end_of update.now s) (slice_index ends.old s) }
{
    let session = usize::from(update.session);
    if session < MAX_SESSIONS {
        let end = u16::from(update.index) + 1;
        counts[session] += 1;
        ends[session] = end.max(ends[session]);
    }
}
