//! Reading the parts of a history: its name, its sessions and its start.

ghost use Rattle.std.specs.Prelude.{◌≡◌, ◌∷◌, ◌<◌, ◌≤◌, length, IfOk, IfErr, OnOk, Some};
ghost use Rattle.json.specs.Reads.{token_of};
ghost use Rattle.serde_json.specs.View.{view};
ghost use Rattle.json_bounded.specs.Steps.Reading.{AreRefused, IsRefused};
ghost use Rattle.judge_reader.specs.Steps.Reading.{AreParts, joined_of, name_read, parts_in};
ghost use Rattle.json_tokens.specs.Tokens.{IsList, IsRest, IsValue};

use crate::sessions::read_session_list;
use crate::start::read_start;
use json::{Reader, Token};
use json_bounded::TextError;
use json_histories::{HistoryPlace, ReadError};
use json_tokens::{next_value, pass_no_list};
use judge_memory::LongEntry;
use model_objects::Table;
use order_causal::Rows;
use serde_json::Value;
use std::alloc::Global;

/// A part of a history as it was read, or its refusal, or none where the value doesn't have the shape of that part.
type Part<T> = Option<Result<T, ReadError>>;

/// The start and the sessions of a history.
pub(crate) type Parts = (Table<u64>, Rows<LongEntry>);

/// Whether the value is the name of a memory, or none where it is no text.
fn name_of(value: &Value) -> Part<()>
    ensures { result ≡ name_read (view value.now) }
{
    let name = value.as_str()?;
    if name == "memory" {
        Some(Ok(()))
    } else {
        Some(Err(ReadError::UnknownObject))
    }
}

/// The name that comes next.
fn read_name(alloc: Global, reader: &mut Reader<'_>, depth: usize) -> Result<Part<()>, TextError>
    ensures read { IfOk result (λ o. IsValue (λ d. name_read d ≡ o) depth reader.old reader.new) }
    ensures shorter { OnOk result (length reader.new < length reader.old) }
    ensures refused { IfErr result (IsRefused depth reader.old) }
{
    let value = next_value(alloc, reader, HistoryPlace::Scalar, depth)?;
    Ok(name_of(&value))
}

/// The parts together, or the first refusal, in this order: the shape of a part, the name, the sessions, and last the start.
fn joined(
    name: Part<()>,
    sessions: Part<Rows<LongEntry>>,
    start: Part<Table<u64>>,
) -> Result<Parts, ReadError>
    ensures { result ≡ joined_of name sessions start }
{
    let (Some(name), Some(sessions), Some(start)) = (name, sessions, start) else {
        return Err(ReadError::BadShape);
    };
    name?;
    let sessions = sessions?;
    Ok((start?, sessions))
}

/// The parts in the rest of a list, or their first refusal. It passes the whole list in any case.
fn read_parts(
    alloc: Global,
    reader: &mut Reader<'_>,
    depth: usize,
) -> Result<Result<Parts, ReadError>, TextError>
    requires { 2 < depth }
    ensures read { IfOk result (λ r. IsRest (λ ds. AreParts (parts_in (Some ds)) r) depth reader.old reader.new) }
    ensures shorter { OnOk result (length reader.new ≤ length reader.old) }
    ensures refused { IfErr result (AreRefused depth reader.old) }
{
    if reader.take_end_array() {
        return Ok(Err(ReadError::BadShape));
    }
    let name = read_name(alloc, reader, depth)?;
    if reader.take_end_array() {
        return Ok(Err(ReadError::BadShape));
    }
    let sessions = read_session_list(alloc, reader, depth)?;
    let start = read_start(alloc, reader, depth)?;
    Ok(joined(name, sessions, start))
}

/// The parts of the value that begins with a token, or their first refusal. It passes the whole value in any case.
pub(crate) fn read_history(
    alloc: Global,
    token: Token<'_>,
    reader: &mut Reader<'_>,
    depth: usize,
) -> Result<Result<Parts, ReadError>, TextError>
    requires { 3 < depth }
    ensures read { IfOk result
        (λ r. IsList (λ ds. AreParts (parts_in ds) r) depth (token_of token.entry ∷ reader.old) reader.new) }
    ensures shorter { OnOk result (length reader.new ≤ length reader.old) }
    ensures refused { IfErr result (IsRefused depth (token_of token.entry ∷ reader.old)) }
{
    if let Token::BeginArray = token {
        return read_parts(alloc, reader, depth - 1);
    }
    pass_no_list(alloc, token, reader, depth)?;
    Ok(Err(ReadError::BadShape))
}
