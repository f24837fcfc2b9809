//! Some operations of a long history as a history of their own.

ghost use Rattle.std.specs.Prelude.{◌≡◌, ◌<◌, length, map, slice_get, IfOk, IfSome, IsTrue, OnOk, Some};
ghost use Rattle.model_objects.specs.Register.{matches};
ghost use Rattle.model_objects.specs.Table.{IsTable};
ghost use Rattle.judge_memory.specs.LongHistories.{IsLongSession};
ghost use Rattle.judge_cores.specs.Parts.{AreFewSessions, CanFollow, IsAboveLast, IsMemorySession};

use judge_memory::{LongEntry, LongHistory};
use judge_subhistories::Places;
use model_history::{History, MAX_OPERATIONS, MAX_SESSIONS, OpId};
use model_objects::{MAX_ENTRIES, Memory, Table};
use std::alloc::{AllocError, Global};

/// Some operations as a history, with the place of each in the whole.
#[derive(Drop)]
pub(crate) struct Part {
    pub(crate) history: History<Memory>,
    pub(crate) places: Places,
}

impl Part {
    /// The part with these operations, which are in order and each named once: none where it is over a limit of `History`.
    ///
    /// Its sessions are those of the whole that have some of these operations. Fails for want of memory alone. O(n log n) for n operations
    /// of the part.
    pub(crate) fn of(
        alloc: Global,
        whole: &LongHistory,
        ops: &[OpId],
    ) -> Result<Option<Part>, AllocError> {
        let places = by_session(alloc, ops)?;
        let Some(sessions) = sessions_of(alloc, whole, &places)? else {
            return Ok(None);
        };
        let start = start_of(alloc, whole, &sessions)?;
        Ok(Some(Part {
            history: History::of(start, sessions),
            places: Places::of(places),
        }))
    }
}

/// Operations in order, those of each session together.
fn by_session(alloc: Global, ops: &[OpId]) -> Result<Vec<Vec<OpId>>, AllocError> {
    let mut sessions = Vec::new(alloc);
    let mut session: Vec<OpId> = Vec::new(alloc);
    for op in ops {
        if session
            .last()
            .is_some_and(|last| last.session != op.session)
        {
            sessions.push(session)?;
            session = Vec::new(alloc);
        }
        session.push(*op)?;
    }
    sessions.push(session)?;
    Ok(sessions)
}

/// The operations of the sessions of a part, or none where there are too many sessions or operations.
fn sessions_of(
    alloc: Global,
    whole: &LongHistory,
    places: &[Vec<OpId>],
) -> Result<Option<Vec<Vec<LongEntry>>>, AllocError>
    ensures { IfOk result (λ found. IfSome found (λ sessions. AreFewSessions (map (λ s. s.items) sessions.items))) }
{
    let mut sessions = Vec::new(alloc);
    for ops in places {
        if sessions.len() >= MAX_SESSIONS {
            return Ok(None);
        }
        let Some(operations) = session_of(alloc, whole, ops)? else {
            return Ok(None);
        };
        sessions.push(operations)?;
    }
    Ok(Some(sessions))
}

/// These operations of one session, or none where there are too many.
fn session_of(
    alloc: Global,
    whole: &LongHistory,
    ops: &[OpId],
) -> Result<Option<Vec<LongEntry>>, AllocError>
    ensures { IfOk result (λ found. IfSome found (λ operations. IsMemorySession operations.items)) }
{
    whole.value_is_history();
    let session = ops.first().map_or(0, |op| op.session_place());
    if session < whole.sessions() {
        operations_at(alloc, whole.session(session), ops)
    } else {
        Ok(None)
    }
}

/// The operations at these places of a session, or none where there are too many, or one can't follow those before it.
fn operations_at(
    alloc: Global,
    session: &[LongEntry],
    ops: &[OpId],
) -> Result<Option<Vec<LongEntry>>, AllocError>
    requires { IsLongSession (λ c. matches c.call) session.now }
    ensures { IfOk result (λ found. IfSome found (λ operations. IsMemorySession operations.items)) }
{
    let mut operations = Vec::new(alloc);
    for op in ops {
        let place = op.place();
        if place >= session.len() || operations.len() >= MAX_OPERATIONS {
            return Ok(None);
        }
        let operation = operation_at(session, place);
        if !can_follow(&operations, &operation) {
            return Ok(None);
        }
        operations.push(operation)?;
    }
    Ok(Some(operations))
}

fn operation_at(session: &[LongEntry], place: usize) -> LongEntry
    requires { place < length session.now }
    ensures { slice_get session.now place ≡ Some result }
{
    session[place]
}

/// Whether an operation can follow others in a session: its return is not known, or that of the last one is.
fn can_follow(operations: &[LongEntry], operation: &LongEntry) -> bool
    ensures { IsTrue result → CanFollow operations.now operation.now }
{
    match (operations.last(), operation.1) {
        (Some((_, None)), Some(_)) => false,
        _ => true,
    }
}

/// The initial values of the variables of a part.
fn start_of(
    alloc: Global,
    whole: &LongHistory,
    sessions: &[Vec<LongEntry>],
) -> Result<Table<u64>, AllocError>
    ensures { IfOk result (IsTable 0 (λ _. Unit {0})) }
{
    whole.value_is_history();
    let mut start = Table::new(alloc);
    for key in &keys_of(alloc, sessions)? {
        if let Some(value) = whole.start().get(*key) {
            push_initial(&mut start, *key, *value)?;
        }
    }
    Ok(start)
}

/// Appends an initial value that is not 0 after those of lower keys, if there is room.
fn push_initial(start: &mut Table<u64>, key: u32, value: u64) -> Result<(), AllocError>
    requires { IsTable 0 (λ _. Unit {0}) start.old }
    ensures { OnOk result (IsTable 0 (λ _. Unit {0}) start.new) }
{
    if value != 0 && start.len() < MAX_ENTRIES && is_above_all(start, key) {
        start.push(key, value)?;
    }
    Ok(())
}

/// Whether a key is above the last one of a table, if there is one.
fn is_above_all(start: &Table<u64>, key: u32) -> bool
    ensures { IsTrue result → IsAboveLast start.now key }
{
    match start.entries().last() {
        Some((last, _)) => *last < key,
        None => true,
    }
}

/// The keys of operations, each once, in rising order.
fn keys_of(alloc: Global, sessions: &[Vec<LongEntry>]) -> Result<Vec<u32>, AllocError> {
    let mut keys = Vec::new(alloc);
    for session in sessions {
        push_keys(session, &mut keys)?;
    }
    keys.sort_unstable();
    keys.dedup();
    Ok(keys)
}

/// Appends the keys of operations to others.
fn push_keys(session: &[LongEntry], keys: &mut Vec<u32>) -> Result<(), AllocError> {
    for (call, _) in session {
        keys.push(call.key)?;
    }
    Ok(())
}
