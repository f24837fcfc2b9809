//! What is known of the operations of a long history, by number.

ghost use Rattle.std.specs.Prelude.{◌≡◌, ◌+◌, ◌<◌, length, IfOk, OnOk, Some};
ghost use Rattle.model_history.specs.declared.op_id.OpId.{OpId as Operation};
ghost use Rattle.model_history.specs.History.{entry, many_before};
ghost use Rattle.order_memory.specs.Memory.{initial, Reads};
ghost use Rattle.judge_memory.specs.Steps.{many};
ghost use Rattle.judge_memory.specs.Lists.{ListsEach, ListsStarts};
ghost use Rattle.judge_memory.specs.Parts.{IsPart};
ghost use Rattle.judge_memory.specs.Writes.{ListsSortedWrites};

use crate::guesses::NOWHERE;
use crate::part::Part;
use crate::sources::{guessed_places, writer};
use crate::{LongEntry, LongHistory};
use model_objects::{RegisterCall, RegisterRet};
use order_memory::Write;
use std::alloc::{AllocError, Global};

/// The initial value of a variable. O(log n) for a table of n entries.
pub(crate) fn initial_value(h: &LongHistory, key: u32) -> u64
    ensures { result ≡ initial h.now key }
{
    h.value_is_history();
    h.start().get(key).copied().unwrap_or(0)
}

/// What is known of each operation.
///
/// Fails for want of memory alone. O(n log n + k) for n operations in k sessions.
pub(crate) fn parts(
    alloc: Global,
    h: &LongHistory,
    starts: &[u32],
    writes: &[Write],
) -> Result<Vec<Part>, AllocError>
    requires starts { ListsStarts h.now (length h.now.1) starts.now }
    requires writes { ListsSortedWrites h.now writes.now }
    ensures { IfOk result (λ parts. ListsEach h.now (IsPart h.now) (many h.now) parts.items) }
{
    let guesses = guessed_places(alloc, h, writes)?;
    let mut parts = Vec::with_capacity(alloc, h.operations())?;
    for session in 0..h.sessions() {
        push_parts(h, starts, writes, &guesses, session, &mut parts)?;
    }
    Ok(parts)
}

/// Puts what is known of the operations of a session after that of the sessions before it.
fn push_parts(
    h: &LongHistory,
    starts: &[u32],
    writes: &[Write],
    guesses: &[u32],
    session: usize,
    parts: &mut Vec<Part>,
) -> Result<(), AllocError>
    requires starts { ListsStarts h.now (length h.now.1) starts.now }
    requires writes { ListsSortedWrites h.now writes.now }
    requires exists { session < length h.now.1 }
    requires so_far { ListsEach h.now (IsPart h.now) (many_before h.now session) parts.old.items }
    ensures { OnOk result (ListsEach h.now (IsPart h.now) (many_before h.now (session + 1)) parts.new.items) }
{
    for operation in h.session(session) {
        let guess = guesses.get(parts.len()).copied().unwrap_or(NOWHERE);
        parts.push(part_of(h, starts, writes, guess, operation))?;
    }
    Ok(())
}

/// What is known of an operation, by its call and its return. O(log n) for n operations.
fn part_of(
    h: &LongHistory,
    starts: &[u32],
    writes: &[Write],
    guess: u32,
    operation: &LongEntry,
) -> Part
    requires starts { ListsStarts h.now (length h.now.1) starts.now }
    requires writes { ListsSortedWrites h.now writes.now }
    ensures { (o : Operation) → entry h.now o ≡ Some operation.now → IsPart h.now o result }
{
    let (call, ret) = *operation;
    match (call.call, ret) {
        (RegisterCall::Write(_), _) => Part::Write,
        (RegisterCall::Read, Some(RegisterRet::Value(value))) => {
            part_of_read(h, starts, writes, guess, call.key, value)
        }
        (RegisterCall::Read, Some(RegisterRet::Done) | None) => Part::UnknownRead,
    }
}

/// What is known of a read of a variable that returned this value. O(log n) for n operations.
fn part_of_read(
    h: &LongHistory,
    starts: &[u32],
    writes: &[Write],
    guess: u32,
    key: u32,
    value: u64,
) -> Part
    requires starts { ListsStarts h.now (length h.now.1) starts.now }
    requires writes { ListsSortedWrites h.now writes.now }
    ensures { (o : Operation) → Reads h.now o key value → IsPart h.now o result }
{
    if value == initial_value(h, key) {
        return Part::InitialRead;
    }
    match writer(writes, guess, key, value) {
        Some(write) => Part::SourcedRead(starts[write.session_place()] + write.place() as u32),
        None => Part::ThinAirRead,
    }
}
