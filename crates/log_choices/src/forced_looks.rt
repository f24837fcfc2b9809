//! What a null read can have seen, by what is known to come before it.

ghost use Rattle.std.specs.Prelude.{◌≡◌, ◌≢◌, ◌<◌, ◌≤◌, ◌*◌, ℕ, suc, List, All, Contains, IfOk, IfSome, IsTrue, OnOk, Some, None};
ghost use Rattle.std.specs.Prelude.{false, slice_get};
ghost use Rattle.log_events.specs.declared.event.Event.TheVariants.{Starts};
ghost use Rattle.log_events.specs.Events.{IsAt};
ghost use Rattle.log_choices.specs.Choices.{BeginsKeptDelete};
ghost use Rattle.log_choices.specs.Forced.{Comes, IsOut};
ghost use Rattle.log_choices.specs.ForcedSteps.{AreOfKey, GetsNothing, IsExcluded, IsFirst, IsKeptWrite, IsLeft, IsLook};
ghost use Rattle.log_choices.specs.ForcedSteps.{IsPast, IsPlan, IsReplacing, look_by};
ghost use Rattle.log_choices.specs.declared.forced_kept.Delete.{Delete as Deleted};
ghost use Rattle.log_choices.specs.declared.forced_kept.Kept.{Kept as Written};

use crate::Seen;
use crate::forced_kept::{Delete, Kept};
use crate::forced_pasts::precedes;
use crate::forced_plan::{Plan, is_started};
use crate::timed::Timed;
use std::alloc::{AllocError, Global};

/// The most candidates of a read that are looked at.
const MOST_DELETES: usize = 1024;

/// How many of the last ones are looked at first.
const LAST_DELETES: usize = 4;

/// A read that got nothing.
#[derive(Clone, Copy)]
pub(crate) struct NullRead {
    pub(crate) client: u32,
    /// The place of its begin.
    pub(crate) place: u32,
    /// The place of its end.
    pub(crate) end: u32,
    pub(crate) key: u32,
}

/// What a look at a read that got nothing shows.
#[derive(Clone, Copy)]
pub(crate) enum Look {
    /// More than one candidate may be left, or no delete names the key.
    Open,
    /// One thing alone is left, which the read saw.
    Saw(Seen),
    /// Nothing is left. The read counts as one that saw this.
    Lacks(Seen),
}

/// Which deletes are left of some.
#[derive(Clone, Copy)]
pub(crate) enum Left {
    NoneLeft,
    OneLeft(Delete),
    MoreLeft,
}

impl Plan {
    /// What a read that got nothing must have seen, by what is known to come before it.
    ///
    /// Fails for want of memory alone. O(k log n + d (k + log n)) for n writes, k clients and d deletes of the key.
    pub(crate) fn look(
        &self,
        alloc: Global,
        timed: &Timed<'_>,
        read: NullRead,
        past: &[u32],
    ) -> Result<Look, AllocError>
        requires plan { IsPlan timed.now.in_time timed.now.log.now self.now }
        requires read { GetsNothing timed.now.log.now read }
        requires past { IsPast timed.now.in_time timed.now.log.now past.now read.place }
        ensures { IfOk result (IsLook timed.now.in_time timed.now.log.now read.place) }
    {
        let deletes = self.deletes_of(read.key);
        if deletes.is_empty() {
            return Ok(Look::Open);
        }
        if self.is_open(timed, deletes, read, past) {
            return Ok(Look::Open);
        }
        let replacing = self.replacing(alloc, timed, read, past)?;
        let left = self.left_of(timed, deletes, read, &replacing);
        let is_start_left = self.is_start_left(timed, read, &replacing);
        let first = first_possible(timed, deletes, read);
        Ok(look_of(left, is_start_left, first))
    }

    /// Whether a look at the deletes of the key would cost too much, or is sure to leave two of them. O(log n) for n writes.
    fn is_open(&self, timed: &Timed<'_>, deletes: &[Delete], read: NullRead, past: &[u32]) -> bool {
        let possible = if timed.in_time {
            deletes.partition_point(|delete| delete.place < read.end)
        } else {
            deletes.len()
        };
        let first = possible.saturating_sub(LAST_DELETES);
        let mut left = 0u32;
        for number in first..possible {
            if let Some(delete) = deletes.get(number)
                && self.is_apart(*delete, read, past)
            {
                left = left.saturating_add(1);
            }
        }
        left > 1 || possible > MOST_DELETES
    }

    /// Whether a delete is known to come neither before a read nor after it.
    fn is_apart(&self, delete: Delete, read: NullRead, past: &[u32]) -> bool {
        match self.write_at(delete.place) {
            Some(write) => {
                let known = write.past.get(read.client as usize).copied().unwrap_or(0);
                !precedes(write, past) && known <= read.place && write.client != read.client
            }
            None => false,
        }
    }

    /// Whether a read can have seen the start: the key has none, and no write or delete of the key comes before the read. O(log n) for n
    /// starts.
    fn is_start_left(&self, timed: &Timed<'_>, read: NullRead, replacing: &[u32]) -> bool
        requires plan { IsPlan timed.now.in_time timed.now.log.now self.now }
        requires read { GetsNothing timed.now.log.now read }
        requires replacing { All (IsReplacing timed.now.in_time timed.now.log.now self.now.writes.items read.key read.place) replacing.now }
        ensures left { IsTrue result → (k v : ℕ) → ¬ IsAt timed.now.log.now k (Starts read.key v) }
        ensures out { result ≡ false → (p : ℕ) → BeginsKeptDelete timed.now.log.now read.key p
            → ((k v : ℕ) → ¬ IsAt timed.now.log.now k (Starts read.key v)) → IsOut timed.now.in_time timed.now.log.now read.place None }
    {
        if !replacing.is_empty() {
            return false;
        }
        !is_started(timed.log, read.key)
    }

    /// For each client its last write or delete of the key that is known to come before a read, by its number, and its last call that is
    /// known to come before, if it is one.
    ///
    /// Fails for want of memory alone. O(k log n) for n writes and k clients.
    pub(crate) fn replacing(
        &self,
        alloc: Global,
        timed: &Timed<'_>,
        read: NullRead,
        past: &[u32],
    ) -> Result<Vec<u32>, AllocError>
        requires plan { IsPlan timed.now.in_time timed.now.log.now self.now }
        requires past { IsPast timed.now.in_time timed.now.log.now past.now read.place }
        ensures { IfOk result (λ numbers.
            All (IsReplacing timed.now.in_time timed.now.log.now self.now.writes.items read.key read.place) numbers.items) }
    {
        let mut numbers = Vec::new(alloc);
        for client in 0..timed.log.clients() {
            let last = self.last_before(read.key, client, past);
            self.add_replacing(timed, last, read, past, &mut numbers)?;
            let known = self.last_known(client, past);
            self.add_replacing(timed, known, read, past, &mut numbers)?;
        }
        Ok(numbers)
    }

    /// Puts after the numbers that of a write, if it is of the key and known to come before a read.
    ///
    /// Fails for want of memory alone.
    fn add_replacing(
        &self,
        timed: &Timed<'_>,
        number: Option<u32>,
        read: NullRead,
        past: &[u32],
        numbers: &mut Vec<u32>,
    ) -> Result<(), AllocError>
        requires plan { IsPlan timed.now.in_time timed.now.log.now self.now }
        requires past { IsPast timed.now.in_time timed.now.log.now past.now read.place }
        requires numbers { All
            (IsReplacing timed.now.in_time timed.now.log.now self.now.writes.items read.key read.place) numbers.old.items }
        ensures { OnOk result
            (All (IsReplacing timed.now.in_time timed.now.log.now self.now.writes.items read.key read.place) numbers.new.items) }
    {
        if let Some(number) = number
            && self.replaces(timed, number, read, past)
        {
            numbers.push(number)?;
        }
        Ok(())
    }

    /// Whether a number is that of a write of the key that is known to come before a read, by what comes before the read.
    fn replaces(&self, timed: &Timed<'_>, number: u32, read: NullRead, past: &[u32]) -> bool
        requires plan { IsPlan timed.now.in_time timed.now.log.now self.now }
        requires past { IsPast timed.now.in_time timed.now.log.now past.now read.place }
        ensures { IsTrue result → IsReplacing timed.now.in_time timed.now.log.now self.now.writes.items read.key read.place number }
    {
        match self.writes.get(number as usize) {
            Some(write) => write.key == read.key && precedes(write, past),
            None => false,
        }
    }

    /// Which of some deletes of the key are left of a read, where these writes and deletes of the key come before it.
    fn left_of(
        &self,
        timed: &Timed<'_>,
        deletes: &[Delete],
        read: NullRead,
        replacing: &[u32],
    ) -> Left
        requires plan { IsPlan timed.now.in_time timed.now.log.now self.now }
        requires read { GetsNothing timed.now.log.now read }
        requires deletes { AreOfKey self.now.deletes.items read.key deletes.now }
        requires replacing { All (IsReplacing timed.now.in_time timed.now.log.now self.now.writes.items read.key read.place) replacing.now }
        ensures { IsLeft timed.now.in_time timed.now.log.now read.place read.end deletes.now result }
    {
        let mut left = Left::NoneLeft;
        // The last ones first, since they are the likeliest to be left.
        for number in (0..deletes.len()).rev() {
            let delete = deletes[number];
            if !self.is_excluded(timed, delete, read, replacing) {
                match left {
                    Left::NoneLeft => left = Left::OneLeft(delete),
                    _ => return Left::MoreLeft,
                }
            }
        }
        left
    }

    /// Whether a read can't have seen a delete.
    fn is_excluded(
        &self,
        timed: &Timed<'_>,
        delete: Delete,
        read: NullRead,
        replacing: &[u32],
    ) -> bool
        requires plan { IsPlan timed.now.in_time timed.now.log.now self.now }
        requires read { GetsNothing timed.now.log.now read }
        requires listed { Contains self.now.deletes.items delete }
        requires key { delete.key ≡ read.key }
        requires replacing { All (IsReplacing timed.now.in_time timed.now.log.now self.now.writes.items read.key read.place) replacing.now }
        ensures excluded { IsTrue result → IsExcluded timed.now.in_time timed.now.log.now read.place read.end delete.place }
        ensures possible { result ≡ false → IsTrue timed.now.in_time → delete.place < read.end }
    {
        match self.reason(timed, delete, read, replacing) {
            Some(_) => true,
            None => false,
        }
    }

    /// The place of the first of some writes and deletes, by their numbers, that is known to come after a write.
    pub(crate) fn replaced_by(&self, timed: &Timed<'_>, write: &Kept, by: &[u32]) -> Option<u32>
        requires plan { IsPlan timed.now.in_time timed.now.log.now self.now }
        requires write { IsKeptWrite timed.now.in_time timed.now.log.now write.now }
        ensures { IfSome result (λ place. (number : ℕ) × (w : Written) × Contains by.now number
            × (slice_get self.now.writes.items number ≡ Some w) × (w.place ≡ place) × (place ≢ write.now.place)
            × Comes timed.now.in_time timed.now.log.now write.now.place place) }
    {
        for number in by {
            if let Some(other) = self.writes.get(*number as usize)
                && other.place != write.place
                && precedes(write, &other.past)
            {
                return Some(other.place);
            }
        }
        None
    }
}

/// Whether a delete begins before a read had ended, where that counts.
pub(crate) fn is_possible(timed: &Timed<'_>, delete: Delete, read: NullRead) -> bool
    ensures possible { IsTrue result → IsTrue timed.now.in_time → delete.place < read.end }
    ensures late { result ≡ false → IsTrue timed.now.in_time × (read.end ≤ delete.place) }
{
    !timed.in_time || delete.place < read.end
}

/// The first of the deletes of a key that begins before a read had ended, where that counts.
fn first_possible(timed: &Timed<'_>, deletes: &[Delete], read: NullRead) -> Option<Delete>
    ensures { IsFirst timed.now.in_time read.end deletes.now result }
{
    for delete in deletes {
        if is_possible(timed, *delete, read) {
            return Some(*delete);
        }
    }
    None
}

/// What a read that got nothing must have seen, by which deletes are left, whether the start is, and the first delete that is possible:
/// where nothing is left, that delete or the start.
fn look_of(left: Left, is_start_left: bool, first: Option<Delete>) -> Look
    ensures { result ≡ look_by left is_start_left first }
{
    match left {
        Left::NoneLeft if is_start_left => Look::Saw(Seen::Start),
        Left::NoneLeft => match first {
            Some(delete) => Look::Lacks(Seen::Delete(delete.place)),
            None => Look::Lacks(Seen::Start),
        },
        Left::OneLeft(delete) if !is_start_left => Look::Saw(Seen::Delete(delete.place)),
        _ => Look::Open,
    }
}

/// Whether a write or delete is known to come after a read.
pub(crate) fn follows(timed: &Timed<'_>, write: &Kept, read: NullRead) -> bool
    requires write { IsKeptWrite timed.now.in_time timed.now.log.now write.now }
    requires read { GetsNothing timed.now.log.now read }
    ensures { IsTrue result → Comes timed.now.in_time timed.now.log.now read.place write.now.place }
{
    if write.client == read.client && write.place > read.place {
        return true;
    }
    let past = write.past.as_slice();
    let client = read.client as usize;
    if client >= past.len() || past[client] <= read.place {
        return false;
    }
    true
}
