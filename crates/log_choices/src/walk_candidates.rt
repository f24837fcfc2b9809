//! What a walk may take for a read that found nothing, the best first.

use crate::walk_map::{Spot, WriteMap};
use crate::walk_pasts::Pasts;
use std::alloc::{AllocError, Global};

/// The most deletes that are looked at of those that do not come before a read.
const MOST_APART: u32 = 64;

/// A read that found nothing.
#[derive(Clone, Copy)]
pub(crate) struct OpenRead {
    pub(crate) client: u32,
    pub(crate) key: u32,
    /// The place of its begin.
    pub(crate) place: u32,
    /// The place from which on a delete begins too late to be seen.
    pub(crate) limit: u32,
    /// Whether the key has a start.
    pub(crate) is_started: bool,
    /// What its client did last with the key.
    pub(crate) last: Option<LastUse>,
}

/// What a client did last with a key.
#[derive(Clone, Copy)]
pub(crate) struct LastUse {
    /// The place of the call.
    pub(crate) place: u32,
    /// The number of the write or delete that it was or saw, or none for the start.
    pub(crate) write: Option<u32>,
}

/// How good a candidate is: the less, the better.
#[derive(Clone, Copy, PartialEq, Eq, PartialOrd, Ord)]
enum Class {
    /// The start, or the same as the last time.
    Same,
    /// What the client has come to know since then.
    Fresh,
    /// What it does not know.
    Apart,
    /// What it knew then already, and did not see.
    Stale,
}

/// A candidate, by how good it is.
#[derive(Clone, Copy, PartialEq, Eq, PartialOrd, Ord)]
struct Candidate {
    class: Class,
    /// Of one class the less, the better: of those that come before the read the one that began last, of the others the one with which the
    /// least comes before the read.
    cost: u64,
    /// The number of the delete, or none for the start.
    write: Option<u32>,
}

/// What candidates are found by.
#[derive(Clone, Copy)]
pub(crate) struct Candidates<'a> {
    pub(crate) alloc: Global,
    pub(crate) map: &'a WriteMap,
    pub(crate) pasts: &'a Pasts,
    /// Whether more than the best one is wanted.
    pub(crate) lists_all: bool,
}

impl Candidates<'_> {
    /// The candidates of a read, the best first: of deletes that come before it those that no other write or delete replaced, and the last
    /// ones of those that do not. Where it does not take all, only those of the two best classes.
    ///
    /// Fails for want of memory alone. O(d k log n) for d deletes of the key, n writes and k clients.
    pub(crate) fn of(
        &self,
        read: OpenRead,
        takes_all: bool,
    ) -> Result<Vec<Option<u32>>, AllocError> {
        let before = self.last_writes(read.client, read.key, None)?;
        let mut found = Vec::new(self.alloc);
        if before.is_empty() && !read.is_started {
            found.push(Candidate {
                class: Class::Same,
                cost: 0,
                write: None,
            })?;
        }
        self.add_known(read, &before, &mut found)?;
        let has_good = found.iter().any(|candidate| candidate.class < Class::Apart);
        if !takes_all {
            found.retain(|candidate| candidate.class < Class::Apart);
        } else if self.lists_all || !has_good {
            self.add_apart(read, &mut found)?;
        }
        found.sort_unstable();
        let mut writes = Vec::new(self.alloc);
        for candidate in &found {
            writes.push(candidate.write)?;
        }
        Ok(writes)
    }

    /// Adds those that come before the read.
    ///
    /// Fails for want of memory alone.
    fn add_known(
        &self,
        read: OpenRead,
        before: &[u32],
        found: &mut Vec<Candidate>,
    ) -> Result<(), AllocError> {
        for spot in self.map.deletes_of(read.key) {
            if before.contains(&spot.number)
                && spot.place < read.limit
                && !self.is_replaced(spot.number, before)
            {
                found.push(self.known(read, *spot))?;
            }
        }
        Ok(())
    }

    /// A delete that comes before the read, as a candidate.
    fn known(&self, read: OpenRead, spot: Spot) -> Candidate {
        let arrival = match self.map.write(spot.number) {
            Some(write) => self.pasts.arrival(read.client, write),
            None => 0,
        };
        let class = match read.last {
            Some(last) if last.write == Some(spot.number) => Class::Same,
            Some(last) if arrival <= last.place => Class::Stale,
            _ => Class::Fresh,
        };
        Candidate {
            class,
            cost: u64::from(u32::MAX - spot.place),
            write: Some(spot.number),
        }
    }

    /// Adds the last ones that do not come before the read.
    ///
    /// Fails for want of memory alone.
    fn add_apart(&self, read: OpenRead, found: &mut Vec<Candidate>) -> Result<(), AllocError> {
        let deletes = self.map.deletes_of(read.key);
        let possible = deletes.partition_point(|spot| spot.place < read.limit);
        let mut left = MOST_APART;
        for place in (0..possible).rev() {
            if let Some(spot) = deletes.get(place)
                && left > 0
                && self.is_apart(read, *spot)
            {
                left -= 1;
                found.push(Candidate {
                    class: Class::Apart,
                    cost: self.pasts.added(read.client, spot.number),
                    write: Some(spot.number),
                })?;
            }
        }
        Ok(())
    }

    /// Whether the walk has come to a delete that does not come before the read.
    fn is_apart(&self, read: OpenRead, spot: Spot) -> bool {
        match self.map.write(spot.number) {
            Some(write) => {
                self.pasts.is_walked(spot.number) && !self.pasts.precedes(write, read.client)
            }
            None => false,
        }
    }

    /// Whether one of some writes and deletes comes after another, by their numbers.
    fn is_replaced(&self, number: u32, by: &[u32]) -> bool {
        for other in by {
            if *other != number && self.is_before(number, *other) {
                return true;
            }
        }
        false
    }

    /// Whether a write or delete comes before another, by their numbers.
    pub(crate) fn is_before(&self, number: u32, other: u32) -> bool {
        match (self.map.write(number), self.map.write(other)) {
            (Some(write), Some(later)) => self.pasts.precedes_write(write, other, later),
            _ => false,
        }
    }

    /// Of each client the last write or delete of a key that comes before the next call of a client, and each lost one that does, by their
    /// numbers. With a delete, as if that came before the call.
    ///
    /// Fails for want of memory alone. O(k log n) for n writes and k clients, and for each lost one of the key.
    pub(crate) fn last_writes(
        &self,
        client: u32,
        key: u32,
        with: Option<u32>,
    ) -> Result<Vec<u32>, AllocError> {
        let spots = self.map.spots_of(key);
        let mut found = Vec::new(self.alloc);
        for of in 0..self.map.clients {
            let count = self.count(client, of, with);
            if let Some(number) = last_below(spots, of, count) {
                found.push(number)?;
            }
        }
        for spot in self.map.lost_of(key) {
            if self.comes_before(spot.number, client, with) {
                found.push(spot.number)?;
            }
        }
        Ok(found)
    }

    /// One more than the place of the last write or delete of a client that comes before the next call of another, or 0; with a delete, as if
    /// that came before the call.
    fn count(&self, client: u32, of: u32, with: Option<u32>) -> u32 {
        let count = self.pasts.count(client, of);
        let Some(number) = with else {
            return count;
        };
        let count = count.max(self.pasts.count_before(number, of));
        match self.map.write(number) {
            Some(write) if write.client == of && write.lost.is_none() => {
                count.max(write.place.saturating_add(1))
            }
            _ => count,
        }
    }

    /// Whether a write or delete comes before the next call of a client; with a delete, as if that came before the call.
    fn comes_before(&self, number: u32, client: u32, with: Option<u32>) -> bool {
        let is_known = match self.map.write(number) {
            Some(write) => self.pasts.precedes(write, client),
            None => false,
        };
        match with {
            Some(other) => is_known || other == number || self.is_before(number, other),
            None => is_known,
        }
    }
}

/// The number of the last spot of a client below a place, of spots by client and place.
fn last_below(spots: &[Spot], client: u32, place: u32) -> Option<u32> {
    let at = spots.partition_point(|spot| (spot.client, spot.place) < (client, place));
    let spot = spots.get(at.checked_sub(1)?)?;
    if spot.client == client {
        Some(spot.number)
    } else {
        None
    }
}
