//! What sessions read directly from each other, for the links from a missed write to a read.

use judge_memory::LongIndex;
use model_history::OpId;
use show_words::Names;
use std::alloc::{AllocError, Global};

/// A read that is the first of its session from its source.
#[derive(Clone, Copy, Debug)]
struct Reader {
    source: u32,
    read: u32,
}

/// How far a session has been read directly.
#[derive(Clone, Copy, Debug)]
struct Reach {
    /// The number after that of the session that last read it, or 0.
    by: u32,
    /// The number after that of the last operation that this session read it up to.
    up_to: u32,
}

/// What the sessions of a history read directly from each other, as far as a pass over its operations has come.
#[derive(Drop)]
pub(crate) struct DirectReads {
    /// By source, and then by number.
    readers: Vec<Reader>,
    /// By session.
    reaches: Vec<Reach>,
}

impl DirectReads {
    /// The start of the pass, for a history in which some read missed a write, or none did.
    ///
    /// Fails for want of memory alone. O(n log n + k) for n operations in k sessions.
    pub(crate) fn of(
        alloc: Global,
        index: &LongIndex,
        is_any_missed: bool,
    ) -> Result<DirectReads, AllocError> {
        let readers = if is_any_missed {
            readers_of(alloc, index)?
        } else {
            Vec::new(alloc)
        };
        let unread = Reach { by: 0, up_to: 0 };
        let reaches = vec![in alloc; unread; index.sessions() as usize]?;
        Ok(DirectReads { readers, reaches })
    }

    /// Goes on by an operation, which comes after all others that the pass has come to.
    pub(crate) fn note<N: Names>(&mut self, index: &LongIndex, names: &N, operation: u32) {
        let Some(source) = source_of(index, operation) else {
            return;
        };
        let by = session_of(index, operation).saturating_add(1);
        let (session, place) = place_of(index, names, source);
        if let Some(reach) = self.reaches.get_mut(session as usize) {
            let known = if reach.by == by { reach.up_to } else { 0 };
            *reach = Reach {
                by,
                up_to: known.max(place.saturating_add(1)),
            };
        }
    }

    /// How many links lead from a write to a read that missed it, or 5 if more than four do. The pass has come to the operations before the
    /// read. O(log n + k).
    pub(crate) fn links(&self, index: &LongIndex, write: u32, read: u32) -> usize {
        let session = session_of(index, read);
        if session_of(index, write) == session {
            return 1;
        }
        let links = self.links_by_readers(index, write, read);
        if links > 2 && self.is_read_after(session_of(index, write), write, session) {
            3
        } else {
            links
        }
    }

    // How many links lead from a write to a read if a reader of the write is on the way: 2, 4 or, if more do, 5.
    fn links_by_readers(&self, index: &LongIndex, write: u32, read: u32) -> usize {
        let session = session_of(index, read);
        let first = self.readers.partition_point(|reader| reader.source < write);
        let mut links = 5;
        for reader in &self.readers[first..] {
            if reader.source != write {
                break;
            }
            let other = session_of(index, reader.read);
            if other == session && reader.read < read {
                return 2;
            }
            if self.is_read_after(other, reader.read, session) {
                links = 4;
            }
        }
        links
    }

    // Whether a session has read, so far, from an operation that is after this one in its session.
    fn is_read_after(&self, other: u32, operation: u32, session: u32) -> bool {
        match self.reaches.get(other as usize) {
            Some(reach) => {
                reach.by == session.saturating_add(1) && reach.up_to > operation.saturating_add(1)
            }
            None => false,
        }
    }
}

// The first read of each session from each source, by source and then by number.
fn readers_of(alloc: Global, index: &LongIndex) -> Result<Vec<Reader>, AllocError> {
    let mut last = vec![in alloc; 0; index.operations() as usize]?;
    let mut readers = Vec::new(alloc);
    for operation in 0..index.operations() {
        push_reader(index, operation, &mut last, &mut readers)?;
    }
    readers.sort_unstable_by_key(|reader| (reader.source, reader.read));
    Ok(readers)
}

// Puts a read after others if its session did not read from its source before. `last` has, for each write, the number after that of the
// last session that read from it.
fn push_reader(
    index: &LongIndex,
    read: u32,
    last: &mut Vec<u32>,
    readers: &mut Vec<Reader>,
) -> Result<(), AllocError> {
    let Some(source) = source_of(index, read) else {
        return Ok(());
    };
    let by = session_of(index, read).saturating_add(1);
    match last.get_mut(source as usize) {
        Some(known) if *known != by => {
            *known = by;
            readers.push(Reader { source, read })?;
            Ok(())
        }
        _ => Ok(()),
    }
}

// The session of an operation's client, and the operation up to which that session comes before it: a lost write comes after its call.
fn place_of<N: Names>(index: &LongIndex, names: &N, operation: u32) -> (u32, u32) {
    let session = session_of(index, operation);
    match call_of(index, names, session) {
        Some(call) => (session_of(index, call), call),
        None => (session, operation),
    }
}

// The operation of another session that a session goes on from, if there is one.
fn call_of<N: Names>(index: &LongIndex, names: &N, session: u32) -> Option<u32> {
    if session >= index.sessions() {
        return None;
    }
    let first = index.start(session);
    let call = source_of(index, first)?;
    if names.goes_on(op_of(index, call), op_of(index, first)) {
        Some(call)
    } else {
        None
    }
}

// The session of an operation.
fn session_of(index: &LongIndex, operation: u32) -> u32 {
    if operation < index.operations() {
        index.session_of(operation)
    } else {
        0
    }
}

// The write that an operation read from.
fn source_of(index: &LongIndex, operation: u32) -> Option<u32> {
    if operation < index.operations() {
        index.source(operation)
    } else {
        None
    }
}

// The operation of a number.
fn op_of(index: &LongIndex, operation: u32) -> OpId {
    let session = session_of(index, operation);
    let start = if session < index.sessions() {
        index.start(session)
    } else {
        0
    };
    OpId::at(session as usize, operation.saturating_sub(start) as usize)
}
