//! A walk over a log that takes something for each null read.

use crate::Seen;
use crate::forced_plan::is_started;
use crate::growing_order::GrowingOrder;
use crate::walk_candidates::{Candidates, LastUse, OpenRead};
use crate::walk_map::{Write, WriteMap};
use crate::walk_pasts::Pasts;
use log_events::{ClientCall, Ending, EventLog, LoggedCall, MAX_NAME};
use std::alloc::{AllocError, Global};

/// What a walk goes over.
#[derive(Clone, Copy)]
pub(crate) struct Ground<'a> {
    pub(crate) alloc: Global,
    pub(crate) log: &'a EventLog,
    pub(crate) in_time: bool,
    /// What null reads have to see, by the places of their begins.
    pub(crate) forced: &'a [(u32, Seen)],
    pub(crate) map: &'a WriteMap,
    /// The clients and keys of the other null reads, in order.
    pub(crate) pairs: &'a [(u32, u32)],
}

/// What became of a call.
#[derive(Clone, Copy, PartialEq, Eq)]
pub(crate) enum Step {
    /// The walk has gone past it.
    Done,
    /// Its source is still to be walked.
    Early,
    /// A null read has no candidate but those that do not come before it.
    Waiting,
}

/// A walk.
#[derive(Drop)]
pub(crate) struct Walking<'a> {
    ground: Ground<'a>,
    pasts: Pasts,
    /// Whether candidates are tried by the order of writes before they are taken.
    is_growing: bool,
    /// Whether only what is known or forced is gone past.
    is_trial: bool,
    order: GrowingOrder,
    /// For each of the clients and keys what the client did last with the key.
    last: Vec<Option<LastUse>>,
    /// What each call saw, if it is a null read.
    pub(crate) seen: Vec<Option<Seen>>,
}

impl<'a> Walking<'a> {
    /// A walk at the first call.
    ///
    /// Fails for want of memory alone. O(n k + k^2) for n calls and k clients.
    pub(crate) fn begun(ground: Ground<'a>, is_growing: bool) -> Result<Walking<'a>, AllocError> {
        let alloc = ground.alloc;
        let numbers = if is_growing {
            ground.map.writes.len()
        } else {
            0
        };
        let last: Vec<Option<LastUse>> = vec![in alloc; None; ground.pairs.len()]?;
        let seen: Vec<Option<Seen>> = vec![in alloc; None; ground.log.calls().len()]?;
        Ok(Walking {
            ground,
            pasts: Pasts::nothing(alloc, ground.map)?,
            is_growing,
            is_trial: is_growing,
            order: GrowingOrder::of(alloc, numbers)?,
            last,
            seen,
        })
    }

    /// Goes back to the first call, with the order as it is, to take something for each null read.
    ///
    /// Fails for want of memory alone. O(n k + k^2) for n calls and k clients.
    pub(crate) fn begin_again(&mut self) -> Result<(), AllocError> {
        let alloc = self.ground.alloc;
        self.pasts = Pasts::nothing(alloc, self.ground.map)?;
        self.last = vec![in alloc; None; self.ground.pairs.len()]?;
        self.is_trial = false;
        Ok(())
    }

    /// Goes past a call, by its number, if it need not wait. Where it takes all, only a null read without candidates waits.
    ///
    /// Fails for want of memory alone.
    pub(crate) fn step(&mut self, number: u32, takes_all: bool) -> Result<Step, AllocError> {
        let log = self.ground.log;
        let Some(call) = log.calls().get(number as usize) else {
            return Ok(Step::Done);
        };
        if matches!(call.ending(), Some(Ending::Failed)) {
            return Ok(Step::Done);
        }
        match call.call() {
            ClientCall::WriteTo(key, _) => self.write(call, key),
            ClientCall::DeleteOf(key) => self.write(call, key),
            ClientCall::ReadOf(key) => self.read(number, call, key, takes_all),
        }
    }

    /// Goes past a read.
    ///
    /// Fails for want of memory alone.
    fn read(
        &mut self,
        number: u32,
        call: &LoggedCall,
        key: u32,
        takes_all: bool,
    ) -> Result<Step, AllocError> {
        match call.ending() {
            Some(Ending::Got(value)) => {
                let source = self.ground.map.write_of(key, value);
                self.see(call, key, source, takes_all)
            }
            Some(Ending::GotNothing) => self.null_read(number, call, key, takes_all),
            _ => Ok(Step::Done),
        }
    }

    /// Goes past a write or delete.
    ///
    /// Fails for want of memory alone.
    fn write(&mut self, call: &LoggedCall, key: u32) -> Result<Step, AllocError> {
        let map = self.ground.map;
        if let Some(number) = map.number_at(call.place())
            && let Some(write) = map.write(number)
        {
            self.pasts.come_to(number, write);
            if self.is_growing && self.is_trial {
                self.put_in_order(number, write)?;
            }
            if write.lost.is_none() {
                self.note(call, key, Some(number));
            }
        }
        Ok(Step::Done)
    }

    /// Puts a write or delete into the order: behind what its client wrote, and before what it writes unless it is lost.
    ///
    /// Fails for want of memory alone.
    fn put_in_order(&mut self, number: u32, write: Write) -> Result<(), AllocError> {
        let map = self.ground.map;
        self.order.append(number);
        if write.lost.is_some() {
            if let Some(before) = map.last_before(write.client, write.place) {
                self.order.add(before, number)?;
            }
            return Ok(());
        }
        if let Some(after) = map.first_from(write.client, write.place.saturating_add(1)) {
            self.order.add(number, after)?;
        }
        Ok(())
    }

    /// Goes past a read that saw a write or delete, or the start.
    ///
    /// Fails for want of memory alone.
    fn see(
        &mut self,
        call: &LoggedCall,
        key: u32,
        source: Option<u32>,
        takes_all: bool,
    ) -> Result<Step, AllocError> {
        let Some(source) = source else {
            self.note(call, key, None);
            return Ok(Step::Done);
        };
        if !self.pasts.is_walked(source) {
            return Ok(if takes_all { Step::Done } else { Step::Early });
        }
        if let Some(write) = self.ground.map.write(source) {
            let is_new = !self.pasts.precedes(write, call.client());
            self.pasts
                .follow(call.client(), call.place(), source, write)?;
            if self.is_growing {
                self.order_source(call, key, source, is_new)?;
            }
        }
        self.note(call, key, Some(source));
        Ok(Step::Done)
    }

    /// Puts into the order that a read saw a write or delete: that stands behind the others of the key that come before the read, and
    /// before what the client writes next.
    ///
    /// Fails for want of memory alone.
    fn order_source(
        &mut self,
        call: &LoggedCall,
        key: u32,
        source: u32,
        is_new: bool,
    ) -> Result<(), AllocError> {
        let before = self.candidates().last_writes(call.client(), key, None)?;
        if is_new && let Some(next) = self.ground.map.first_from(call.client(), call.place()) {
            self.order.add(source, next)?;
        }
        for number in &before {
            if *number != source && !self.candidates().is_before(*number, source) {
                self.order.add(*number, source)?;
            }
        }
        Ok(())
    }

    /// Goes past a read that got nothing.
    ///
    /// Fails for want of memory alone.
    fn null_read(
        &mut self,
        number: u32,
        call: &LoggedCall,
        key: u32,
        takes_all: bool,
    ) -> Result<Step, AllocError> {
        if self.ground.map.deletes_of(key).is_empty() {
            return Ok(Step::Done);
        }
        if let Some(seen) = seen_at(self.ground.forced, call.place()) {
            self.put_down(number, seen);
            let source = match seen {
                Seen::Start => None,
                Seen::Delete(place) => self.ground.map.number_at(place),
            };
            return self.see(call, key, source, takes_all);
        }
        if self.is_trial {
            return Ok(Step::Done);
        }
        let read = self.open_read(number, call, key);
        match self.best(read, takes_all)? {
            Some(source) => {
                self.put_down(number, self.seen_of(source));
                self.see(call, key, source, takes_all)
            }
            None => Ok(Step::Waiting),
        }
    }

    /// What a read is that got nothing, and is not forced.
    fn open_read(&self, number: u32, call: &LoggedCall, key: u32) -> OpenRead {
        let limit = match self.ground.log.ended_at(number) {
            Some(end) if self.ground.in_time => end,
            _ => u32::MAX,
        };
        let last = match self.pair(call.client(), key) {
            Some(pair) => self.last.get(pair).copied().unwrap_or(None),
            None => None,
        };
        OpenRead {
            client: call.client(),
            key,
            place: call.place(),
            limit,
            is_started: key <= MAX_NAME && is_started(self.ground.log, key),
            last,
        }
    }

    /// What the walk takes for a read: of the candidates the best one that the order lets it take, or the best one.
    ///
    /// Fails for want of memory alone.
    fn best(&mut self, read: OpenRead, takes_all: bool) -> Result<Option<Option<u32>>, AllocError> {
        let candidates = self.candidates().of(read, takes_all)?;
        if self.is_growing {
            for candidate in &candidates {
                if self.may_see(read, *candidate)? {
                    return Ok(Some(*candidate));
                }
            }
        }
        Ok(candidates.first().copied())
    }

    /// Whether the order lets a read see a delete: no edges lead from it to others of the key that then come before the read, and none
    /// to it from what the client writes next.
    ///
    /// Fails for want of memory alone.
    fn may_see(&mut self, read: OpenRead, candidate: Option<u32>) -> Result<bool, AllocError> {
        let Some(source) = candidate else {
            return Ok(true);
        };
        let mut before = self
            .candidates()
            .last_writes(read.client, read.key, Some(source))?;
        before.retain(|number| *number != source);
        if self.order.leads(source, &before)? {
            return Ok(false);
        }
        match self.ground.map.first_from(read.client, read.place) {
            Some(next) => Ok(!self.order.leads(next, &[source])?),
            None => Ok(true),
        }
    }

    /// What candidates are found by.
    fn candidates(&self) -> Candidates<'_> {
        Candidates {
            alloc: self.ground.alloc,
            map: self.ground.map,
            pasts: &self.pasts,
            lists_all: self.is_growing,
        }
    }

    /// A candidate, as what a read saw.
    fn seen_of(&self, source: Option<u32>) -> Seen {
        match source {
            Some(number) => match self.ground.map.write(number) {
                Some(write) => Seen::Delete(write.place),
                None => Seen::Start,
            },
            None => Seen::Start,
        }
    }

    /// Puts down what a null read saw.
    fn put_down(&mut self, number: u32, seen: Seen) {
        if let Some(slot) = self.seen.get_mut(number as usize) {
            *slot = Some(seen);
        }
    }

    /// Puts down what a client did with a key, where that is looked up.
    fn note(&mut self, call: &LoggedCall, key: u32, write: Option<u32>) {
        if let Some(pair) = self.pair(call.client(), key)
            && let Some(last) = self.last.get_mut(pair)
        {
            *last = Some(LastUse {
                place: call.place(),
                write,
            });
        }
    }

    /// The place of a client and a key among those of null reads.
    fn pair(&self, client: u32, key: u32) -> Option<usize> {
        self.ground.pairs.binary_search(&(client, key)).ok()
    }
}

/// What a null read that began at a place has to see, of entries by place.
pub(crate) fn seen_at(entries: &[(u32, Seen)], place: u32) -> Option<Seen> {
    let at = entries.partition_point(|entry| entry.0 < place);
    let entry = entries.get(at)?;
    if entry.0 == place {
        Some(entry.1)
    } else {
        None
    }
}
