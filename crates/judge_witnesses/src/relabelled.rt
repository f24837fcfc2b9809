//! Histories of distinct values in the place of one whose values repeat.

ghost use Rattle.std.specs.Prelude.{◌≡◌, ◌<◌, ℕ, IfOk, IfSome, length, map};
ghost use Rattle.order_memory.specs.Memory.{initial};
ghost use Rattle.judge_witnesses.specs.Renamed.{IsRenamed, Renaming, renamed};
ghost use Rattle.judge_witnesses.specs.Relabelled.{back};

use crate::places::START;
use judge_memory::{LongEntry, LongHistory};
use model_objects::{KeyedCall, RegisterCall, RegisterRet, Table};
use order_causal::Rows;
use std::alloc::{AllocError, Global};

/// A history in which each write has a value of its own, and each known read returned that of the write that it is said to have seen.
///
/// `written` has for each operation, by its number, what it writes, and `seen` the number of the write that a read saw, or [`START`]. A
/// write writes its number, counted from 1, and each variable starts with 0. None where `written` does not have what is written, or a read
/// did not return what the write that it is said to have seen wrote. Fails for want of memory alone. O(n + k) for n operations in k
/// sessions.
pub(crate) fn relabelled(
    alloc: Global,
    history: &LongHistory,
    written: &[u64],
    seen: &[u32],
) -> Result<Option<LongHistory>, AllocError>
    ensures { IfOk result (λ made. IfSome made (λ h. IsRenamed (back history.now written.now) h history.now)) }
{
    let mut sessions = Rows::new(alloc);
    let mut first: usize = 0;
    for session in 0..history.sessions() {
        let operations = history.session(session);
        match relabelled_session(alloc, history, written, seen, first, operations)? {
            Some(row) => sessions.push(&row)?,
            None => return Ok(None),
        }
        first = first.saturating_add(operations.len());
    }
    Ok(Some(whole(alloc, history, written, sessions)?))
}

/// The history of these sessions, with 0 as the initial value of each variable.
fn whole(
    alloc: Global,
    history: &LongHistory,
    _written: &[u64],
    sessions: Rows<LongEntry>,
) -> Result<LongHistory, AllocError>
    requires { map (map (renamed (back history.now _written.now))) sessions ≡ history.now.1 }
    ensures { IfOk result (λ h. IsRenamed (back history.now _written.now) h history.now) }
{
    history.value_is_history();
    LongHistory::of(Table::new(alloc), sessions)
}

/// The operations of a session, from the number of its first, with other values.
fn relabelled_session(
    alloc: Global,
    history: &LongHistory,
    written: &[u64],
    seen: &[u32],
    first: usize,
    operations: &[LongEntry],
) -> Result<Option<Vec<LongEntry>>, AllocError>
    ensures { IfOk result (λ made. IfSome made (λ row. map (renamed (back history.now written.now)) row.items ≡ operations.now)) }
{
    let mut row = Vec::with_capacity(alloc, operations.len())?;
    for (index, operation) in operations.iter().enumerate() {
        let number = first.saturating_add(index);
        match relabelled_operation(history, written, seen, number, operation) {
            Some(other) => row.push(other)?,
            None => return Ok(None),
        }
    }
    Ok(Some(row))
}

/// An operation with another value: none where this value does not become its own.
fn relabelled_operation(
    history: &LongHistory,
    written: &[u64],
    seen: &[u32],
    number: usize,
    operation: &LongEntry,
) -> Option<LongEntry>
    ensures { IfSome result (λ other. renamed (back history.now written.now) other ≡ operation.now) }
{
    let (call, ret) = *operation;
    match (call.call, ret) {
        (RegisterCall::Write(value), None) => {
            let label = label_of(history, written, call.key, Some(number), value)?;
            Some((write_of(call.key, label), None))
        }
        (RegisterCall::Write(value), Some(RegisterRet::Done)) => {
            let label = label_of(history, written, call.key, Some(number), value)?;
            Some((write_of(call.key, label), Some(RegisterRet::Done)))
        }
        (RegisterCall::Write(_), Some(RegisterRet::Value(_))) => None,
        (RegisterCall::Read, Some(RegisterRet::Value(value))) => {
            let label = label_of(history, written, call.key, seen_by(seen, number), value)?;
            Some((call, Some(RegisterRet::Value(label))))
        }
        (RegisterCall::Read, Some(RegisterRet::Done) | None) => Some((call, ret)),
    }
}

/// The write of a value to a variable.
fn write_of(key: u32, value: u64) -> KeyedCall<RegisterCall>
    ensures key { result.key ≡ key }
    ensures call { result.call ≡ RegisterCall.Write value }
{
    KeyedCall {
        key,
        call: RegisterCall::Write(value),
    }
}

/// The number of the write that an operation is said to have seen: none for the start.
fn seen_by(seen: &[u32], number: usize) -> Option<usize> {
    match seen.get(number) {
        Some(write) if *write != START => Some(*write as usize),
        _ => None,
    }
}

/// The value that stands for that of a write, or for the initial value of a variable: none where it does not become this one.
fn label_of(
    history: &LongHistory,
    written: &[u64],
    key: u32,
    write: Option<usize>,
    value: u64,
) -> Option<u64>
    ensures { IfSome result (λ label. back history.now written.now key label ≡ value) }
{
    match write {
        Some(number) => match written.get(number) {
            Some(same) if *same == value => Some(number as u64 + 1),
            _ => None,
        },
        None => {
            if initial_value(history, key) == value {
                Some(0)
            } else {
                None
            }
        }
    }
}

/// The initial value of a variable. O(log n) for a table of n entries.
fn initial_value(history: &LongHistory, key: u32) -> u64
    ensures { result ≡ initial history.now key }
{
    history.value_is_history();
    history.start().get(key).copied().unwrap_or(0)
}
