//! What shows that happened-before of an operation has a cycle, or puts a write before a read of its variable's initial value.

ghost use Rattle.std.specs.Prelude.{◌<◌, length};

use crate::asking::{is_write_of, number_at, put, session_of, source_of, variable_of};
use crate::run::Run;
use crate::searching::Search;
use judge_memory::{LongIndex, Part};
use pattern_check::Kind;
use std::alloc::{AllocError, Global};

/// The most steps that are followed.
const MAX_STEPS: usize = 65_536;

/// Operations that show one of the two kinds of happened-before, for the least operation that shows it of the first session that
/// does. Empty if no session shows it.
///
/// The order is one that [`judge_memory::order_causal`] gives. Fails for want of memory alone. O(n (k + log n)) for n operations of
/// k sessions.
pub(crate) fn happened_before(
    alloc: Global,
    index: &LongIndex,
    order: &[u32],
    kind: Kind,
) -> Result<Vec<u32>, AllocError> {
    for session in 0..index.sessions() {
        if index.start(session) == index.end(session) {
            continue;
        }
        let run = Run::up_to(alloc, index, order, session, index.end(session))?;
        if is_shown(index, &run, kind) {
            return least_shown(alloc, index, order, session, kind);
        }
    }
    Ok(Vec::new(alloc))
}

/// Whether a run shows a kind.
fn is_shown(index: &LongIndex, run: &Run, kind: Kind) -> bool {
    let is_cyclic = run.stuck_session(index).is_some();
    match kind {
        Kind::CyclicHB => is_cyclic,
        _ => !is_cyclic && run.overwritten.is_some(),
    }
}

/// What shows a kind for the least operation of a session that shows it, where its last one does.
fn least_shown(
    alloc: Global,
    index: &LongIndex,
    order: &[u32],
    session: u32,
    kind: Kind,
) -> Result<Vec<u32>, AllocError>
    requires { session < length index.now.history.1 }
{
    let mut low = index.start(session);
    let mut high = index.end(session);
    for _halving in 0..u32::BITS {
        if low >= high {
            break;
        }
        let middle = low + (high - low) / 2;
        let run = Run::up_to(alloc, index, order, session, middle + 1)?;
        if is_shown(index, &run, kind) {
            high = middle;
        } else {
            low = middle + 1;
        }
    }
    let run = Run::up_to(alloc, index, order, session, low.saturating_add(1))?;
    Tracing::of(alloc, index, run, low)?.reasons(alloc, index, kind)
}

/// Operations that are followed from one to another that it happened before, for an operation of a session.
#[derive(Drop)]
struct Tracing {
    run: Run,
    /// The operation.
    last: u32,
    /// For each write, the number after that of the read of it that was placed last, or 0.
    readers: Vec<u32>,
    /// Sessions that wait, each at a time. The session itself is still to be reached from them.
    pending: Vec<(u32, u32)>,
    /// Those that were followed.
    seen: Vec<(u32, u32)>,
    operations: Vec<u32>,
}

impl Tracing {
    fn of(alloc: Global, index: &LongIndex, run: Run, last: u32) -> Result<Tracing, AllocError> {
        let mut readers: Vec<u32> = vec![in alloc; 0; index.operations() as usize]?;
        for read in 0..index.operations() {
            if let Some(source) = index.source(read) {
                let before = number_at(&readers, source).checked_sub(1);
                if before.is_none_or(|before| run.time(before) < run.time(read)) {
                    put(&mut readers, source, read + 1);
                }
            }
        }
        Ok(Tracing {
            run,
            last,
            readers,
            pending: Vec::new(alloc),
            seen: Vec::new(alloc),
            operations: Vec::new(alloc),
        })
    }

    /// What shows the kind: what is followed, and ways from there to the operation.
    fn reasons(
        mut self,
        alloc: Global,
        index: &LongIndex,
        kind: Kind,
    ) -> Result<Vec<u32>, AllocError> {
        match kind {
            Kind::CyclicHB => self.follow_cycle(index)?,
            _ => self.begin_at_read(index)?,
        }
        self.follow_all(index)?;
        self.operations.push(self.last)?;
        let search = Search::back_from(alloc, index, &[], &[self.last])?;
        let operations = Vec::from_slice(alloc, &self.operations)?;
        for operation in &operations {
            for leg in &search.way_from(alloc, *operation)? {
                self.operations.push(leg.from)?;
                self.operations.push(leg.to)?;
            }
        }
        Ok(self.operations)
    }

    /// Follows sessions that wait for one another until one comes again.
    fn follow_cycle(&mut self, index: &LongIndex) -> Result<(), AllocError> {
        let end = self.run.end();
        let mut session = self.run.stuck_session(index);
        for _step in 0..MAX_STEPS {
            let Some(waiting) = session else {
                break;
            };
            if self.is_seen((waiting, end))? {
                break;
            }
            session = self.step(index, waiting, end)?;
        }
        Ok(())
    }

    /// Begins at a read of an initial value and a write of its variable that was left when the read was placed.
    fn begin_at_read(&mut self, index: &LongIndex) -> Result<(), AllocError> {
        let Some(read) = self.run.overwritten else {
            return Ok(());
        };
        let time = self.run.time(read);
        let Some(variable) = variable_of(index, read) else {
            return Ok(());
        };
        for write in 0..index.operations() {
            if is_write_of(index, variable, write) && self.run.time(write) >= time {
                self.operations.push(write)?;
                self.operations.push(read)?;
                self.pending.push((index.session_of(write), time))?;
                break;
            }
        }
        Ok(())
    }

    /// Records a session at a time. Returns whether it was recorded before.
    fn is_seen(&mut self, waiting: (u32, u32)) -> Result<bool, AllocError> {
        if self.seen.contains(&waiting) {
            return Ok(true);
        }
        self.seen.push(waiting)?;
        Ok(false)
    }

    /// Follows each session that waits until it reaches the session itself.
    fn follow_all(&mut self, index: &LongIndex) -> Result<(), AllocError> {
        for _step in 0..MAX_STEPS {
            let Some((session, time)) = self.pending.pop() else {
                break;
            };
            if self.is_seen((session, time))? {
                continue;
            }
            if session == self.run.own {
                if let Some(own) = self.run.last_at(index, session, time) {
                    self.operations.push(own)?;
                }
                continue;
            }
            if let Some(next) = self.step(index, session, time)? {
                self.pending.push((next, time))?;
            }
        }
        Ok(())
    }

    /// The session for which another one waits at a time: that of a read of its last operation that is left, or of the write for which
    /// the variable of that operation is kept.
    fn step(
        &mut self,
        index: &LongIndex,
        session: u32,
        time: u32,
    ) -> Result<Option<u32>, AllocError> {
        let Some(last) = self.run.last_at(index, session, time) else {
            return Ok(None);
        };
        self.operations.push(last)?;
        if let Some(reader) = number_at(&self.readers, last).checked_sub(1) {
            if self.run.time(reader) >= time {
                self.operations.push(reader)?;
                return Ok(session_of(index, reader));
            }
        }
        let Some(read) = self.locking_read(index, last, time) else {
            return Ok(None);
        };
        self.operations.push(read)?;
        if session != self.run.own {
            self.pending.push((session, self.run.time(read)))?;
        }
        Ok(source_of(index, read).and_then(|source| session_of(index, source)))
    }

    /// The first read of the session itself that was placed before a time, of a written value and of an operation's variable.
    fn locking_read(&self, index: &LongIndex, operation: u32, time: u32) -> Option<u32> {
        let own = self.run.own;
        if own >= index.sessions() {
            return None;
        }
        let variable = variable_of(index, operation);
        let first = match self.run.last_at(index, own, time) {
            Some(left) => left.saturating_add(1),
            None => index.start(own),
        };
        (first..index.end(own)).find(|read| {
            source_of(index, *read).is_some()
                && variable_of(index, *read) == variable
                && self.run.time(*read) > 0
        })
    }
}
