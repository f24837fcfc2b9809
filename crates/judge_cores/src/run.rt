//! An order of what is before an operation of a session, made from its end, with the times at which operations were placed.

use crate::asking::{number_at, put};
use judge_memory::{LongIndex, Part};
use std::alloc::{AllocError, Global};

/// The time of an operation that was not placed.
const NEVER: u32 = u32::MAX;

/// The result of placing an operation of a session and what is before it, from the end. An operation is placed when its readers are
/// placed and no placed read of the session keeps its variable for another write. Operations of the session itself are placed when
/// no other session can go on.
#[derive(Drop)]
pub(crate) struct Run {
    /// The session.
    pub(crate) own: u32,
    /// For each session, the number after that of its last operation that is left.
    ends: Vec<u32>,
    /// For each operation, how many reads of it are left.
    readers: Vec<u32>,
    /// For each variable, how many writes of it are left.
    writes: Vec<u32>,
    /// For each variable, the number after that of the write that it is kept for, or 0.
    locks: Vec<u32>,
    /// For each operation, how many were placed when it was: these numbers fall along a session. 0 if the operation is not before,
    /// and as late as can be if it is left.
    times: Vec<u32>,
    /// How many are placed.
    now: u32,
    /// The last read of an initial value by the session that was placed when a write of its variable was left.
    pub(crate) overwritten: Option<u32>,
}

/// The order in which sessions are asked whether they can go on. Hints only save time.
#[derive(Drop)]
struct Turns {
    sessions: Vec<u32>,
    /// The place in `sessions` of the one that went on last.
    at: usize,
    /// Sessions that may be able to go on.
    hints: Vec<u32>,
}

impl Run {
    /// The run for the operation of a session before the number `end`.
    ///
    /// The order is one of all operations. Fails for want of memory alone. O(n k) for n operations and k sessions, mostly O(n + k).
    pub(crate) fn up_to(
        alloc: Global,
        index: &LongIndex,
        order: &[u32],
        own: u32,
        end: u32,
    ) -> Result<Run, AllocError> {
        let mut run = Run::nothing(alloc, index, own)?;
        put(&mut run.ends, own, end);
        for operation in order.iter().rev() {
            run.leave_source(index, *operation);
        }
        for operation in 0..index.operations() {
            run.count(index, operation);
        }
        let mut turns = run.turns(alloc)?;
        for _placed in 0..index.operations() {
            let Some(session) = run.next_session(index, &mut turns) else {
                break;
            };
            run.place(index, session, &mut turns)?;
        }
        Ok(run)
    }

    /// A run with nothing left.
    fn nothing(alloc: Global, index: &LongIndex, own: u32) -> Result<Run, AllocError> {
        let operations = index.operations() as usize;
        let variables = index.variables() as usize;
        Ok(Run {
            own,
            ends: vec![in alloc; 0; index.sessions() as usize]?,
            readers: vec![in alloc; 0; operations]?,
            writes: vec![in alloc; 0; variables]?,
            locks: vec![in alloc; 0; variables]?,
            times: vec![in alloc; 0; operations]?,
            now: 0,
            overwritten: None,
        })
    }

    fn is_left(&self, session: u32, operation: u32) -> bool {
        operation < number_at(&self.ends, session)
    }

    /// If an operation is left and has a source, leaves the source and what precedes it.
    fn leave_source(&mut self, index: &LongIndex, operation: u32) {
        if operation >= index.operations()
            || !self.is_left(index.session_of(operation), operation)
        {
            return;
        }
        if let Some(source) = index.source(operation) {
            let session = index.session_of(source);
            if !self.is_left(session, source) {
                put(&mut self.ends, session, source + 1);
            }
        }
    }

    /// Counts an operation, if it is left.
    fn count(&mut self, index: &LongIndex, operation: u32) {
        if operation >= index.operations()
            || !self.is_left(index.session_of(operation), operation)
        {
            return;
        }
        put(&mut self.times, operation, NEVER);
        match index.part(operation) {
            Part::Write => add(&mut self.writes, index.variable(operation)),
            Part::SourcedRead(source) => add(&mut self.readers, source),
            Part::InitialRead | Part::ThinAirRead | Part::UnknownRead => {}
        }
    }

    /// The sessions with operations that are left.
    fn turns(&self, alloc: Global) -> Result<Turns, AllocError> {
        let mut sessions = Vec::new(alloc);
        let mut session: u32 = 0;
        for end in &self.ends {
            if *end > 0 {
                sessions.push(session)?;
            }
            session = session.saturating_add(1);
        }
        Ok(Turns {
            sessions,
            at: 0,
            hints: Vec::new(alloc),
        })
    }

    /// The session whose last operation that is left is placed next.
    fn next_session(&self, index: &LongIndex, turns: &mut Turns) -> Option<u32> {
        for _hint in 0..turns.hints.len() {
            match turns.hints.last().copied() {
                Some(hint) if hint != self.own && self.is_free(index, hint) => return Some(hint),
                _ => {
                    let _dropped = turns.hints.pop();
                }
            }
        }
        let place = self.free_among(index, &turns.sessions, turns.at, turns.sessions.len());
        if let Some(place) = place.or(self.free_among(index, &turns.sessions, 0, turns.at)) {
            turns.at = place;
            return turns.sessions.get(place).copied();
        }
        if self.is_free(index, self.own) {
            Some(self.own)
        } else {
            None
        }
    }

    /// The first place in a range of a list whose session can go on and is not the run's own.
    fn free_among(
        &self,
        index: &LongIndex,
        sessions: &[u32],
        from: usize,
        end: usize,
    ) -> Option<usize> {
        (from..end).find(|place| match sessions.get(*place) {
            Some(session) => *session != self.own && self.is_free(index, *session),
            None => false,
        })
    }

    /// The last operation of a session that is left.
    fn last_left(&self, index: &LongIndex, session: u32) -> Option<u32> {
        if session >= index.sessions() {
            return None;
        }
        let last = number_at(&self.ends, session).checked_sub(1)?;
        if index.start(session) <= last {
            Some(last)
        } else {
            None
        }
    }

    /// Whether the last operation of a session that is left can be placed.
    fn is_free(&self, index: &LongIndex, session: u32) -> bool {
        match self.last_left(index, session) {
            Some(last) => {
                number_at(&self.readers, last) == 0 && self.is_admitted(index, session, last)
            }
            None => false,
        }
    }

    /// Whether no variable is kept from an operation of a session.
    fn is_admitted(&self, index: &LongIndex, session: u32, operation: u32) -> bool {
        if operation >= index.operations() {
            return false;
        }
        let lock = number_at(&self.locks, index.variable(operation));
        match index.part(operation) {
            Part::Write => lock == 0 || lock - 1 == operation,
            Part::SourcedRead(source) => session != self.own || lock == 0 || lock - 1 == source,
            Part::InitialRead | Part::ThinAirRead | Part::UnknownRead => true,
        }
    }

    /// Places the last operation of a session that is left.
    fn place(
        &mut self,
        index: &LongIndex,
        session: u32,
        turns: &mut Turns,
    ) -> Result<(), AllocError> {
        let Some(last) = self.last_left(index, session) else {
            return Ok(());
        };
        self.now = self.now.saturating_add(1);
        put(&mut self.times, last, self.now);
        put(&mut self.ends, session, last);
        if last >= index.operations() {
            return Ok(());
        }
        let variable = index.variable(last);
        match index.part(last) {
            Part::Write => {
                take(&mut self.writes, variable);
                put(&mut self.locks, variable, 0);
            }
            Part::SourcedRead(source) => {
                take(&mut self.readers, source);
                if session == self.own {
                    put(&mut self.locks, variable, source + 1);
                }
                if number_at(&self.readers, source) == 0 {
                    turns.hints.push(index.session_of(source))?;
                }
            }
            Part::InitialRead => {
                if session == self.own && number_at(&self.writes, variable) > 0 {
                    self.overwritten = Some(last);
                }
            }
            Part::ThinAirRead | Part::UnknownRead => {}
        }
        Ok(())
    }

    /// The first session with an operation that could not be placed.
    pub(crate) fn stuck_session(&self, index: &LongIndex) -> Option<u32> {
        (0..index.sessions()).find(|session| self.last_left(index, *session).is_some())
    }

    /// When an operation was placed: 0 if it is not before.
    pub(crate) fn time(&self, operation: u32) -> u32 {
        number_at(&self.times, operation)
    }

    /// A time after all others, when all that was not placed was left.
    pub(crate) fn end(&self) -> u32 {
        self.now.saturating_add(1)
    }

    /// The last operation of a session that was left at a time.
    pub(crate) fn last_at(&self, index: &LongIndex, session: u32, time: u32) -> Option<u32> {
        if session >= index.sessions() {
            return None;
        }
        let start = index.start(session);
        let mut low = start;
        let mut high = index.end(session);
        for _halving in 0..u32::BITS {
            if low >= high {
                break;
            }
            let middle = low + (high - low) / 2;
            if self.time(middle) >= time {
                low = middle + 1;
            } else {
                high = middle;
            }
        }
        if low > start { Some(low - 1) } else { None }
    }
}

/// Adds one to the number at a place.
fn add(numbers: &mut Vec<u32>, place: u32) {
    let more = number_at(numbers, place).saturating_add(1);
    put(numbers, place, more);
}

/// Takes one from the number at a place.
fn take(numbers: &mut Vec<u32>, place: u32) {
    let fewer = number_at(numbers, place).saturating_sub(1);
    put(numbers, place, fewer);
}
