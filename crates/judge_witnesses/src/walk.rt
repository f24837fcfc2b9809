//! A walk over a history that picks, for each known read, a write that it may have seen. No contract says what is picked: a witness is
//! judged by itself.

use crate::pasts::Pasts;
use crate::places::{Deed, NOWHERE, Operation, Places, START, Slot, number_of};
use crate::plan::{Plan, Preference};
use judge_memory::LongHistory;
use std::alloc::{AllocError, Global};

/// The most slots of a variable in which writes that are not in the past of a read are looked for.
const MAX_LOOKS: usize = 64;

/// A walk: each session goes on by one operation after the other.
#[derive(Drop)]
pub(crate) struct Walk<'a> {
    history: &'a LongHistory,
    places: &'a Places,
    plan: Plan,
    pasts: Pasts,
    /// How many operations of each session are walked.
    walked: Vec<u32>,
    /// How many operations were walked when each was, itself counted in; 0 for those that are not.
    moments: Vec<u32>,
    /// For each slot its last operation that is walked, or [`NOWHERE`].
    lasts: Vec<u32>,
    /// For each operation what it wrote or saw: the number of a write, or [`START`].
    seen: Vec<u32>,
    moment: u32,
    /// The past of the operation that is looked at.
    past: Vec<u32>,
    /// The last write of each session at its variable that is in this past.
    writes: Vec<u32>,
}

/// A known read, as its source is looked for.
#[derive(Clone, Copy)]
struct Read {
    slot: Slot,
    place: u32,
    value: u64,
    /// The writes of the value, as places in the list by value.
    writers: (u32, u32),
    /// Whether the variable starts with the value.
    is_initial: bool,
}

impl<'a> Walk<'a> {
    /// A walk in which no operation is walked.
    ///
    /// Fails for want of memory alone.
    pub(crate) fn new(
        alloc: Global,
        history: &'a LongHistory,
        places: &'a Places,
        plan: Plan,
    ) -> Result<Walk<'a>, AllocError> {
        let pasts = Pasts::new(alloc, places.sessions(), places.operations())?;
        let past = vec![in alloc; 0; pasts.columns()]?;
        Ok(Walk {
            history,
            places,
            plan,
            pasts,
            walked: vec![in alloc; 0; places.sessions()]?,
            moments: vec![in alloc; 0; places.operations()]?,
            lasts: vec![in alloc; NOWHERE; places.slots()]?,
            seen: vec![in alloc; NOWHERE; places.operations()]?,
            moment: 0,
            past,
            writes: Vec::new(alloc),
        })
    }

    /// What each operation wrote or saw.
    pub(crate) fn seen(&self) -> &[u32] {
        &self.seen
    }

    /// Whether all operations are walked.
    pub(crate) fn is_done(&self) -> bool {
        self.moment as usize >= self.places.operations()
    }

    /// Whether an operation is walked.
    pub(crate) fn is_walked(&self, number: u32) -> bool {
        at(&self.moments, number) != 0
    }

    /// The number of the next operation of a session, or [`NOWHERE`] where all are walked.
    pub(crate) fn next(&self, session: u32) -> u32 {
        let start = self.places.start(session as usize);
        let end = self.places.start(session as usize + 1);
        let walked = self.walked.get(session as usize).copied().unwrap_or(0);
        let number = start.saturating_add(walked);
        if number < end { number } else { NOWHERE }
    }

    /// The only write that a known read can have seen, where it isn't walked, or else [`NOWHERE`].
    pub(crate) fn awaited(&self, number: u32) -> u32 {
        let Some(operation) = self.places.operation(number) else {
            return NOWHERE;
        };
        if operation.deed != Deed::KnownRead {
            return NOWHERE;
        }
        let (first, end) = self.places.writers(operation.key, operation.value);
        if end.saturating_sub(first) != 1 || operation.value == self.initial(operation.key) {
            return NOWHERE;
        }
        let writer = self.places.writer(first);
        if self.is_walked(writer) {
            NOWHERE
        } else {
            writer
        }
    }

    /// The initial value of a variable.
    fn initial(&self, key: u32) -> u64 {
        self.history.value_is_history();
        self.history.start().get(key).copied().unwrap_or(0)
    }

    /// Walks an operation, the next of its session. False where it is a known read and has to wait for its source; `is_late` says that
    /// a write outside its past may be one.
    pub(crate) fn step(&mut self, number: u32, is_late: bool) -> Result<bool, AllocError> {
        let Some(operation) = self.places.operation(number) else {
            return Ok(false);
        };
        self.recall(operation, number);
        let source = match operation.deed {
            Deed::Write => number,
            Deed::OpenRead => NOWHERE,
            Deed::KnownRead => match self.source(operation, is_late)? {
                Some(source) => source,
                None => return Ok(false),
            },
        };
        self.take(operation, number, source);
        Ok(true)
    }

    /// Makes the past of the operation before this one in its session the past that is looked at.
    fn recall(&mut self, operation: Operation, number: u32) {
        for count in self.past.iter_mut() {
            *count = 0;
        }
        if operation.index != 0 {
            self.pasts.join(number.saturating_sub(1), &mut self.past);
        }
    }

    /// Walks an operation that wrote or saw this.
    fn take(&mut self, operation: Operation, number: u32, source: u32) {
        if source != number && self.is_walked(source) {
            self.pasts.join(source, &mut self.past);
        }
        if let Some(count) = self.past.get_mut(operation.session as usize) {
            *count = operation.index.saturating_add(1);
        }
        self.pasts.keep(number, &self.past);
        self.moment = self.moment.saturating_add(1);
        set(&mut self.moments, number, self.moment);
        set(&mut self.seen, number, source);
        if operation.deed != Deed::OpenRead {
            set(&mut self.lasts, operation.slot, number);
        }
        let walked = operation.index.saturating_add(1);
        set(&mut self.walked, operation.session, walked);
    }

    /// The source of a known read whose past is looked at, if it need not wait.
    fn source(&mut self, operation: Operation, is_late: bool) -> Result<Option<u32>, AllocError> {
        let Some(slot) = self.places.slot(operation.slot) else {
            return Ok(None);
        };
        let read = Read {
            slot,
            place: operation.slot,
            value: operation.value,
            writers: self.places.writers(operation.key, operation.value),
            is_initial: operation.value == self.initial(operation.key),
        };
        let many = read.writers.1.saturating_sub(read.writers.0);
        if many == 0 {
            return Ok(if read.is_initial { Some(START) } else { None });
        }
        if many == 1 && !read.is_initial {
            let writer = self.places.writer(read.writers.0);
            return Ok(if self.is_walked(writer) {
                Some(writer)
            } else {
                None
            });
        }
        self.find_writes(slot)?;
        Ok(self.best(read, is_late))
    }

    /// Finds the last write of each session at a variable that is in the past.
    fn find_writes(&mut self, slot: Slot) -> Result<(), AllocError> {
        self.writes.clear();
        for place in slot.variable.0..slot.variable.1 {
            if let Some(other) = self.places.slot(place) {
                let below = self.first_outside(other, slot.session);
                let write = self.places.last_write(other, below);
                if write != NOWHERE {
                    self.writes.push(write)?;
                }
            }
        }
        Ok(())
    }

    /// The number of the first operation of a slot's session that is not in the past.
    fn first_outside(&self, slot: Slot, own: u32) -> u32 {
        let count = if slot.session == own {
            self.walked.get(own as usize).copied().unwrap_or(0)
        } else {
            self.past.get(slot.session as usize).copied().unwrap_or(0)
        };
        self.places
            .start(slot.session as usize)
            .saturating_add(count)
    }

    /// The source that the plan prefers.
    fn best(&self, read: Read, is_late: bool) -> Option<u32> {
        let last = at(&self.lasts, read.place);
        let same = at(&self.seen, last);
        let fresh = self.best_within(read, last, same);
        if fresh == same && fresh != NOWHERE && self.plan.stays {
            return Some(same);
        }
        if !is_late && fresh != NOWHERE {
            return Some(fresh);
        }
        let outside = if is_late && (fresh == NOWHERE || !self.plan.stays) {
            self.best_outside(read)
        } else {
            NOWHERE
        };
        self.preferred(read, fresh, outside, is_late)
    }

    /// The one that is preferred, of one in the past and one outside it.
    fn preferred(&self, read: Read, fresh: u32, outside: u32, is_late: bool) -> Option<u32> {
        if fresh != NOWHERE && (outside == NOWHERE || self.is_before(outside, fresh)) {
            return Some(fresh);
        }
        if outside != NOWHERE {
            return Some(outside);
        }
        if !is_late {
            return None;
        }
        let any = self.best_within(read, NOWHERE, NOWHERE);
        if any == NOWHERE { None } else { Some(any) }
    }

    /// Whether an operation was walked before another.
    fn is_before(&self, a: u32, b: u32) -> bool {
        at(&self.moments, a) < at(&self.moments, b)
    }

    /// Of the writes of the value in the past that no other write there overwrites: what the session saw or wrote last at the variable, or
    /// the one that was walked last of those that it did not know then. [`NOWHERE`] where there is none.
    fn best_within(&self, read: Read, last: u32, same: u32) -> u32 {
        if read.is_initial && self.writes.is_empty() {
            return START;
        }
        let mut best = NOWHERE;
        for write in &self.writes {
            if self.is_of_value(*write, read.value) && self.stands(*write) {
                if *write == same {
                    return same;
                }
                let is_known = self.plan.is_fresh
                    && last != NOWHERE
                    && self.is_inside(*write, last);
                if !is_known && (best == NOWHERE || self.is_before(best, *write)) {
                    best = *write;
                }
            }
        }
        best
    }

    /// Whether a write is one of this value.
    fn is_of_value(&self, write: u32, value: u64) -> bool {
        match self.places.operation(write) {
            Some(operation) => operation.value == value,
            None => false,
        }
    }

    /// Whether no other write of the variable in the past comes after this one.
    fn stands(&self, write: u32) -> bool {
        for other in &self.writes {
            if *other != write && self.is_inside(write, *other) {
                return false;
            }
        }
        true
    }

    /// Whether an operation is in the past of another.
    fn is_inside(&self, number: u32, other: u32) -> bool {
        match self.places.operation(number) {
            Some(operation) => self.pasts.count(other, operation.session) > operation.index,
            None => false,
        }
    }

    /// Of the writes of the value that are walked and not in the past, the one that the plan prefers, or [`NOWHERE`].
    fn best_outside(&self, read: Read) -> u32 {
        let mut best = NOWHERE;
        let mut least = u64::MAX;
        let (first, end) = read.slot.variable;
        for place in (first..end).take(MAX_LOOKS) {
            let write = self.first_writer(read, place);
            if write != NOWHERE {
                let added = self.added(write);
                if added < least || (added == least && self.is_before(best, write)) {
                    best = write;
                    least = added;
                }
            }
        }
        best
    }

    /// What counts against a write outside the past.
    fn added(&self, write: u32) -> u64 {
        match self.plan.outside {
            Preference::Least => self.pasts.added(write, &self.past),
            Preference::Latest => 0,
        }
    }

    /// The first write of a slot that has the value, is walked, and is not in the past, or [`NOWHERE`].
    fn first_writer(&self, read: Read, place: u32) -> u32 {
        let Some(slot) = self.places.slot(place) else {
            return NOWHERE;
        };
        let outside = self.first_outside(slot, read.slot.session);
        let write = self.places.writer_from(read.writers, outside);
        match self.places.operation(write) {
            Some(operation) if operation.session == slot.session && self.is_walked(write) => write,
            _ => NOWHERE,
        }
    }
}

/// An entry of a list, or [`NOWHERE`].
fn at(list: &[u32], place: u32) -> u32 {
    list.get(place as usize).copied().unwrap_or(NOWHERE)
}

/// Sets an entry of a list, where it is there.
fn set(list: &mut [u32], place: u32, value: u32) {
    if let Some(entry) = list.get_mut(place as usize) {
        *entry = value;
    }
}
