//! Reading the sessions, one after the other.

ghost use Rattle.std.specs.Prelude.{◌≡◌, ◌<◌, ◌≤◌, length, IfOk, IfErr, OnOk, None};
ghost use Rattle.json_bounded.specs.Steps.Reading.{AreRefused, IsRefused};
ghost use Rattle.judge_reader.specs.Steps.Reading.{AreSessions, IsSessionList, IsSessionRead};
ghost use Rattle.json_tokens.specs.Tokens.{IsList, IsRest};

use crate::session::read_operations;
use json::{Reader, Token};
use json_bounded::{TextError, walk_items};
use json_histories::ReadError;
use json_tokens::{next_token, pass_no_list};
use judge_memory::LongEntry;
use order_causal::Rows;
use std::alloc::Global;

/// Pushes the operations of the value that comes next, as the session numbered `s`, after `entries`, and gives the first refusal, if there
/// is one.
fn read_session(
    alloc: Global,
    reader: &mut Reader<'_>,
    depth: usize,
    s: usize,
    entries: &mut Vec<LongEntry>,
) -> Result<Option<ReadError>, TextError>
    requires { 1 < depth }
    ensures read { IfOk result
        (λ refusal. IsList (λ ds. IsSessionRead s ds entries.old.items entries.new.items refusal) depth reader.old reader.new) }
    ensures shorter { OnOk result (length reader.new < length reader.old) }
    ensures refused { IfErr result (IsRefused depth reader.old) }
{
    let token = next_token(reader)?;
    if let Token::BeginArray = token {
        return read_operations(alloc, reader, depth - 1, s, entries);
    }
    pass_no_list(alloc, token, reader, depth)?;
    Ok(Some(ReadError::BadShape))
}

/// The sessions of the rest of a list, or their first refusal. It passes the whole list in any case.
fn read_sessions(
    alloc: Global,
    reader: &mut Reader<'_>,
    depth: usize,
) -> Result<Result<Rows<LongEntry>, ReadError>, TextError>
    requires { 1 < depth }
    ensures read { IfOk result (λ r. IsRest (λ ds. AreSessions ds r) depth reader.old reader.new) }
    ensures shorter { OnOk result (length reader.new ≤ length reader.old) }
    ensures refused { IfErr result (AreRefused depth reader.old) }
{
    let mut entries = Vec::new(alloc);
    let mut ends = Vec::new(alloc);
    'sessions: while !reader.take_end_array() {
        match read_session(alloc, reader, depth, ends.len(), &mut entries)? {
            None => ends.push(entries.len())?,
            Some(refusal) => {
                walk_items(reader, depth)?;
                return Ok(Err(refusal));
            }
        }
    }
    Ok(Ok(Rows::of(entries, ends)))
}

/// The sessions in the list that comes next, or their first refusal, or none if the next value is no list.
pub(crate) fn read_session_list(
    alloc: Global,
    reader: &mut Reader<'_>,
    depth: usize,
) -> Result<Option<Result<Rows<LongEntry>, ReadError>>, TextError>
    requires { 2 < depth }
    ensures read { IfOk result (λ o. IsList (λ ds. IsSessionList ds o) depth reader.old reader.new) }
    ensures shorter { OnOk result (length reader.new < length reader.old) }
    ensures refused { IfErr result (IsRefused depth reader.old) }
{
    let token = next_token(reader)?;
    if let Token::BeginArray = token {
        return Ok(Some(read_sessions(alloc, reader, depth - 1)?));
    }
    pass_no_list(alloc, token, reader, depth)?;
    Ok(None)
}
