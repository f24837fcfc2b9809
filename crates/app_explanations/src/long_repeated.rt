//! The writes of a memory history of any length whose values are not distinct.

ghost use Rattle.std.specs.Prelude.{◌<◌, length};

use json_histories::OpId;
use judge_memory::LongHistory;
use model_objects::RegisterCall;
use show_words::Names;
use std::alloc::{AllocError, Global};

/// The most writes that are listed.
const MAX_LISTED: usize = 8;

/// A write of a history.
#[derive(Clone, Copy, Debug, PartialEq, Eq, PartialOrd, Ord)]
struct LongWrite {
    key: u32,
    value: u64,
    op: OpId,
}

/// Adds a line for each of the first eight writes of a value that was written to its variable before, or is its initial value.
///
/// Fails for want of memory alone. O(n log n) for n operations, and 32 bytes for each write.
pub(crate) fn push_repeated<N: Names>(
    alloc: Global,
    lines: &mut Vec<String>,
    history: &LongHistory,
    names: &N,
) -> Result<(), AllocError> {
    let writes = writes_of(alloc, history)?;
    let mut listed: usize = 0;
    let mut before: Option<LongWrite> = None;
    for write in &writes {
        if listed < MAX_LISTED
            && let Some(line) = line_of(alloc, history, names, before, *write)?
        {
            lines.push(line)?;
            listed = listed.saturating_add(1);
        }
        before = Some(*write);
    }
    Ok(())
}

// The writes of a history, in the order of variables, values and operations.
fn writes_of(alloc: Global, history: &LongHistory) -> Result<Vec<LongWrite>, AllocError> {
    let mut writes = Vec::new(alloc);
    for session in 0..history.sessions() {
        push_writes(&mut writes, history, session)?;
    }
    writes.sort_unstable();
    Ok(writes)
}

// Adds the writes of a session.
fn push_writes(
    writes: &mut Vec<LongWrite>,
    history: &LongHistory,
    session: usize,
) -> Result<(), AllocError>
    requires { session < length history.now.1 }
{
    for (index, (call, _)) in history.session(session).iter().enumerate() {
        if let RegisterCall::Write(value) = call.call {
            writes.push(LongWrite {
                key: call.key,
                value,
                op: OpId::at(session, index),
            })?;
        }
    }
    Ok(())
}

// The line on a write: that it writes the initial value, or that the write before it has the same value.
fn line_of<N: Names>(
    alloc: Global,
    history: &LongHistory,
    names: &N,
    before: Option<LongWrite>,
    write: LongWrite,
) -> Result<Option<String>, AllocError> {
    let LongWrite { key, value, op: _ } = write;
    if value == initial_value(history, key) {
        return Ok(Some(line_of_initial(alloc, names, write)?));
    }
    match before {
        Some(other) if other.key == key && other.value == value => {
            Ok(Some(line_of_two(alloc, names, other.op, write)?))
        }
        _ => Ok(None),
    }
}

// The line on a write of the initial value.
fn line_of_initial<N: Names>(
    alloc: Global,
    names: &N,
    write: LongWrite,
) -> Result<String, AllocError> {
    let LongWrite { key, value, op } = write;
    let name = names.operation(alloc, op)?;
    let variable = names.variable(alloc, key)?;
    let value = names.value(alloc, key, value)?;
    format!(in alloc; "{name} writes {value} to {variable}, which is its initial value")
}

// The line on two writes of one value.
fn line_of_two<N: Names>(
    alloc: Global,
    names: &N,
    other: OpId,
    write: LongWrite,
) -> Result<String, AllocError> {
    let LongWrite { key, value, op } = write;
    let other = names.operation(alloc, other)?;
    let name = names.operation(alloc, op)?;
    let variable = names.variable(alloc, key)?;
    let value = names.value(alloc, key, value)?;
    format!(in alloc; "{other} and {name} both write {value} to {variable}")
}

// What a variable holds before the first call.
fn initial_value(history: &LongHistory, key: u32) -> u64 {
    history.value_is_history();
    history.start().get(key).copied().unwrap_or(0)
}
