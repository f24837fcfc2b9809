//! Why a null read can't have seen what would be a candidate.

ghost use Rattle.std.specs.Prelude.{◌≡◌, ◌<◌, All, Contains, IfOk, IfSome, IsTrue, None, OnOk, Some};
ghost use Rattle.log_choices.specs.Exclusions.{IsExclusion, IsReason};
ghost use Rattle.log_choices.specs.ForcedSteps.{AreOfKey, GetsNothing, IsPlan, IsReplacing};

use crate::Seen;
use crate::forced_kept::Delete;
use crate::forced_looks::{NullRead, follows, is_possible};
use crate::forced_plan::{Plan, is_started};
use crate::timed::Timed;
use std::alloc::{AllocError, Global};

/// Why a null read can't have seen something.
#[derive(Clone, Copy, Debug, PartialEq, Eq)]
pub enum Reason {
    /// The delete began after the read had ended, in a log in the order of time.
    Later,
    /// The delete comes after the read.
    AfterRead,
    /// The write or delete that began at this place comes before the read, and after what it replaced.
    ReplacedBy(u32),
}

/// What a null read can't have seen, and why.
#[derive(Clone, Copy, Debug, PartialEq, Eq)]
pub struct Exclusion {
    /// The start of the key, or a delete of it.
    pub seen: Seen,
    /// Why it was not seen.
    pub reason: Reason,
}

/// A null read that is left with no candidate.
#[derive(Debug, Drop)]
pub struct LackingRead {
    /// The place of its begin.
    pub place: u32,
    /// Its key.
    pub key: u32,
    /// What it can't have seen.
    pub exclusions: Vec<Exclusion>,
}

impl Plan {
    /// What a null read can't have seen of the start, if its key has none, and of some deletes of its key, where these writes and deletes of
    /// the key come before the read.
    ///
    /// Fails for want of memory alone. O(d (k + log n)) for d deletes and n writes of k clients.
    pub(crate) fn exclusions(
        &self,
        alloc: Global,
        timed: &Timed<'_>,
        deletes: &[Delete],
        read: NullRead,
        replacing: &[u32],
    ) -> Result<Vec<Exclusion>, AllocError>
        requires plan { IsPlan timed.now.in_time timed.now.log.now self.now }
        requires read { GetsNothing timed.now.log.now read }
        requires deletes { AreOfKey self.now.deletes.items read.key deletes.now }
        requires replacing { All (IsReplacing timed.now.in_time timed.now.log.now self.now.writes.items read.key read.place) replacing.now }
        ensures { IfOk result (λ found. All (IsExclusion timed.now.in_time timed.now.log.now read.place) found.items) }
    {
        let mut found = Vec::new(alloc);
        if let Some(exclusion) = self.start_exclusion(timed, read, replacing) {
            found.push(exclusion)?;
        }
        for delete in deletes {
            if let Some(reason) = self.reason(timed, *delete, read, replacing) {
                let seen = Seen::Delete(delete.place);
                found.push(Exclusion { seen, reason })?;
            }
        }
        Ok(found)
    }

    /// Why a read can't have seen the start, if the key has none: by the first of these writes and deletes of the key.
    fn start_exclusion(
        &self,
        timed: &Timed<'_>,
        read: NullRead,
        replacing: &[u32],
    ) -> Option<Exclusion>
        requires plan { IsPlan timed.now.in_time timed.now.log.now self.now }
        requires read { GetsNothing timed.now.log.now read }
        requires replacing { All (IsReplacing timed.now.in_time timed.now.log.now self.now.writes.items read.key read.place) replacing.now }
        ensures { IfSome result (IsExclusion timed.now.in_time timed.now.log.now read.place) }
    {
        if is_started(timed.log, read.key) {
            return None;
        }
        if replacing.is_empty() {
            return None;
        }
        let number = replacing[0] as usize;
        let write = self.writes.get(number)?;
        Some(Exclusion {
            seen: Seen::Start,
            reason: Reason::ReplacedBy(write.place),
        })
    }

    /// Why a read can't have seen a delete: the delete began too late, comes after the read, or one of these writes and deletes has replaced
    /// it.
    pub(crate) fn reason(
        &self,
        timed: &Timed<'_>,
        delete: Delete,
        read: NullRead,
        replacing: &[u32],
    ) -> Option<Reason>
        requires plan { IsPlan timed.now.in_time timed.now.log.now self.now }
        requires read { GetsNothing timed.now.log.now read }
        requires listed { Contains self.now.deletes.items delete }
        requires key { delete.key ≡ read.key }
        requires replacing { All (IsReplacing timed.now.in_time timed.now.log.now self.now.writes.items read.key read.place) replacing.now }
        ensures reason { IfSome result (IsReason timed.now.in_time timed.now.log.now read.place read.key read.end (Some delete.place)) }
        ensures possible { result ≡ None → IsTrue timed.now.in_time → delete.place < read.end }
    {
        if !is_possible(timed, delete, read) {
            return Some(Reason::Later);
        }
        let write = self.write_at(delete.place)?;
        if follows(timed, write, read) {
            return Some(Reason::AfterRead);
        }
        let place = self.replaced_by(timed, write, replacing)?;
        Some(Reason::ReplacedBy(place))
    }
}
