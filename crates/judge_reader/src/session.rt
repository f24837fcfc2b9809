//! Reading the operations of one session.

ghost use Rattle.std.specs.Prelude.{◌<◌, ◌≤◌, length, IfOk, IfErr, OnOk, Some};
ghost use Rattle.json_bounded.specs.Steps.Reading.{AreRefused};
ghost use Rattle.judge_reader.specs.Steps.Reading.{IsSessionRead};
ghost use Rattle.json_tokens.specs.Tokens.{IsRest};

use crate::operation::push_operation;
use json::Reader;
use json_bounded::{TextError, walk_items};
use json_histories::{OpId, ReadError};
use judge_memory::LongEntry;
use std::alloc::Global;

/// Pushes the operations of the session numbered `s`, which is the rest of a list, after `entries`, and gives the first refusal, if there
/// is one. It passes the whole list in any case.
pub(crate) fn read_operations(
    alloc: Global,
    reader: &mut Reader<'_>,
    depth: usize,
    s: usize,
    entries: &mut Vec<LongEntry>,
) -> Result<Option<ReadError>, TextError>
    requires { 0 < depth }
    ensures read { IfOk result
        (λ refusal. IsRest (λ ds. IsSessionRead s (Some ds) entries.old.items entries.new.items refusal) depth reader.old reader.new) }
    ensures shorter { OnOk result (length reader.new ≤ length reader.old) }
    ensures refused { IfErr result (AreRefused depth reader.old) }
{
    let before = entries.len();
    let mut unknown_seen = false;
    'operations: while !reader.take_end_array() {
        let op = OpId::at(s, entries.len() - before);
        let taken = push_operation(alloc, reader, depth, unknown_seen, entries)?;
        match taken.refusal(op) {
            None => unknown_seen = taken.is_unknown(),
            Some(refusal) => {
                walk_items(reader, depth)?;
                return Ok(Some(refusal));
            }
        }
    }
    Ok(None)
}
