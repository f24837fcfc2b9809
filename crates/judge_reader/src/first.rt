//! Reading a long history that is the first element of a list.

ghost use Rattle.std.specs.Prelude.{◌∷◌, ◌<◌, ◌≤◌, length, IfOk, IfErr, OnOk};
ghost use Rattle.json.specs.Reads.{token_of};
ghost use Rattle.json_bounded.specs.Steps.Reading.{AreRefused, IsRefused, IsWholeRefused};
ghost use Rattle.judge_memory.specs.LongHistories.{IsLongHistory};
ghost use Rattle.judge_reader.specs.FirstOfList.{BeginsWith, IsRefusedFirst};
ghost use Rattle.judge_reader.specs.Steps.Reading.{AreParts, IsFirst, IsFirstIn, IsJsonList, IsWholeList, parts_in};
ghost use Rattle.json_tokens.specs.Tokens.{IsList, IsRest};

use crate::parts::{Parts, read_history};
use json::{Reader, Scratch, Token};
use json_bounded::{MAX_DEPTH, TextError, walk_items};
use json_histories::ReadError;
use json_tokens::{next_token, pass_no_list};
use judge_memory::LongHistory;
use std::alloc::Global;

/// The parts of the history that comes next, or their first refusal.
fn next_history(
    alloc: Global,
    reader: &mut Reader<'_>,
    depth: usize,
) -> Result<Result<Parts, ReadError>, TextError>
    requires { 3 < depth }
    ensures read { IfOk result (λ r. IsList (λ ds. AreParts (parts_in ds) r) depth reader.old reader.new) }
    ensures shorter { OnOk result (length reader.new < length reader.old) }
    ensures refused { IfErr result (IsRefused depth reader.old) }
{
    let token = next_token(reader)?;
    read_history(alloc, token, reader, depth)
}

/// The parts of the history that is the first element in the rest of a list, or their first refusal. It passes the whole list in any case.
fn read_first(
    alloc: Global,
    reader: &mut Reader<'_>,
    depth: usize,
) -> Result<Result<Parts, ReadError>, TextError>
    requires { 3 < depth }
    ensures read { IfOk result (λ r. IsRest (λ ds. IsFirst ds r) depth reader.old reader.new) }
    ensures refused { IfErr result (AreRefused depth reader.old) }
{
    if reader.take_end_array() {
        return Ok(Err(ReadError::BadShape));
    }
    let parts = next_history(alloc, reader, depth)?;
    walk_items(reader, depth)?;
    Ok(parts)
}

/// The parts of the history that is the first element of the value that begins with a token, or their first refusal.
fn read_list(
    alloc: Global,
    token: Token<'_>,
    reader: &mut Reader<'_>,
    depth: usize,
) -> Result<Result<Parts, ReadError>, TextError>
    requires { 4 < depth }
    ensures read { IfOk result (λ r. IsList (λ ds. IsFirstIn ds r) depth (token_of token.entry ∷ reader.old) reader.new) }
    ensures refused { IfErr result (IsRefused depth (token_of token.entry ∷ reader.old)) }
{
    if let Token::BeginArray = token {
        return read_first(alloc, reader, depth - 1);
    }
    pass_no_list(alloc, token, reader, depth)?;
    Ok(Err(ReadError::BadShape))
}

/// The parts of the history that is the first element of the list that the text is, or their first refusal.
fn read_list_text(alloc: Global, text: &str) -> Result<Result<Parts, ReadError>, TextError>
    ensures read { IfOk result (IsWholeList text.now) }
    ensures refused { IfErr result (IsWholeRefused text.now) }
{
    let mut scratch = Scratch::new(alloc);
    let mut reader = Reader::new(text, &mut scratch)?;
    let token = next_token(&mut reader)?;
    let parts = read_list(alloc, token, &mut reader, MAX_DEPTH)?;
    if reader.next().is_some() {
        return Err(TextError::NotJson);
    }
    Ok(parts)
}

/// The parts of the history that is the first element of the list that the bytes are, or why there are none.
fn read_list_bytes(alloc: Global, text: &[u8]) -> Result<Parts, ReadError>
    ensures read { IfOk result (IsJsonList text.now) }
    ensures refused { IfErr result (IsRefusedFirst text.now) }
{
    let Ok(text) = simdutf8::compat::from_utf8(text) else {
        return Err(ReadError::NotJson);
    };
    match read_list_text(alloc, text) {
        Ok(parts) => parts,
        Err(TextError::NotJson) => Err(ReadError::NotJson),
        Err(TextError::Memory) => Err(ReadError::Memory),
    }
}

/// The memory history whose form is the first element of a list, where the text is this list as JSON. It may have any number of
/// sessions, each with any number of operations. The reader passes what comes after it in the list.
///
/// `NotJson` where `serde_json` refuses the text, `BadShape` where it is no list or an empty one, else the first refusal of the element, as
/// [`read_long`](crate::read_long) has it. `Memory` where an allocation was refused, or where there are more operations or sessions than
/// [`judge_memory::MAX_NUMBERS`]. O(n) for a text of n bytes.
pub fn read_long_first(alloc: Global, text: &[u8]) -> Result<LongHistory, ReadError>
    ensures is_history { IfOk result IsLongHistory }
    ensures begins { IfOk result (BeginsWith text.now) }
    ensures refused { IfErr result (IsRefusedFirst text.now) }
{
    let (start, sessions) = read_list_bytes(alloc, text)?;
    Ok(LongHistory::of(start, sessions)?)
}
