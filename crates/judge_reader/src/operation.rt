//! Reading one operation.

ghost use Rattle.std.specs.Prelude.{◌≡◌, ◌∷◌, ◌<◌, ◌≤◌, length, IfOk, IfErr, OnOk, Some, None};
ghost use Rattle.json.specs.Reads.{token_of};
ghost use Rattle.json_bounded.specs.Steps.Reading.{AreRefused, IsRefused};
ghost use Rattle.judge_reader.specs.LongRefusals.{operation_at};
ghost use Rattle.judge_reader.specs.Steps.Scalars.{entry_of, key_in, operation_in, under};
ghost use Rattle.judge_reader.specs.Steps.Taking.{IsTaken};
ghost use Rattle.json_tokens.specs.Tokens.{IsRest, IsValue};

use crate::scalar::{Scalar, expected_scalar, next_scalar};
use crate::taken::Taken;
use json::{Reader, Token};
use json_bounded::{TextError, walk_items};
use json_tokens::{next_token, pass_no_list};
use judge_memory::LongEntry;
use model_objects::{KeyedCall, RegisterCall, RegisterRet};
use std::alloc::Global;

/// The key that an element says.
fn key_of(scalar: Scalar) -> Option<u32>
    ensures { result ≡ key_in scalar }
{
    match scalar {
        Scalar::Number(number) => u32::try_from(number).ok(),
        _ => None,
    }
}

/// Pushes a call under a key with its return, unless an earlier return is not known.
#[inline(always)]
fn push_known(
    key: u32,
    call: RegisterCall,
    ret: RegisterRet,
    unknown_seen: bool,
    entries: &mut Vec<LongEntry>,
) -> Result<Taken, TextError>
    ensures taken { IfOk result (λ t. IsTaken unknown_seen (Some (under key (call, Some ret))) entries.old.items entries.new.items t) }
    ensures refused { IfErr result (λ e. e ≡ TextError.Memory) }
{
    if unknown_seen {
        return Ok(Taken::Late);
    }
    entries.push((KeyedCall { key, call }, Some(ret)))?;
    Ok(Taken::Known)
}

/// Pushes a call under a key whose return is not known.
#[inline(always)]
fn push_unknown(
    key: u32,
    call: RegisterCall,
    unknown_seen: bool,
    entries: &mut Vec<LongEntry>,
) -> Result<Taken, TextError>
    ensures taken { IfOk result (λ t. IsTaken unknown_seen (Some (under key (call, None))) entries.old.items entries.new.items t) }
    ensures refused { IfErr result (λ e. e ≡ TextError.Memory) }
{
    entries.push((KeyedCall { key, call }, None))?;
    Ok(Taken::Unknown)
}

/// Pushes the operation that a word, a key and one or two more elements spell, unless it is refused.
///
/// Each kind of operation is pushed where its parts are known, so that no whole entry is moved through an option or a result first.
#[inline(always)]
fn push_spelled(
    word: Scalar,
    key: Scalar,
    first: Scalar,
    second: Option<Scalar>,
    unknown_seen: bool,
    entries: &mut Vec<LongEntry>,
) -> Result<Taken, TextError>
    ensures taken { IfOk result (λ t. IsTaken unknown_seen (entry_of word key first second) entries.old.items entries.new.items t) }
    ensures refused { IfErr result (λ e. e ≡ TextError.Memory) }
{
    let Some(key) = key_of(key) else {
        return Ok(Taken::NoForm);
    };
    match (word, first, second) {
        (Scalar::Write, Scalar::Number(value), None) => {
            push_known(
                key,
                RegisterCall::Write(value),
                RegisterRet::Done,
                unknown_seen,
                entries,
            )
        }
        (Scalar::Write, Scalar::Number(value), Some(Scalar::Unknown)) => {
            push_unknown(key, RegisterCall::Write(value), unknown_seen, entries)
        }
        (Scalar::Read, Scalar::Number(value), None) => {
            push_known(
                key,
                RegisterCall::Read,
                RegisterRet::Value(value),
                unknown_seen,
                entries,
            )
        }
        (Scalar::Read, Scalar::Unknown, None) => {
            push_unknown(key, RegisterCall::Read, unknown_seen, entries)
        }
        _ => Ok(Taken::NoForm),
    }
}

/// Pushes the operation whose elements are the rest of a list, unless it is refused. It passes the whole list in any case.
fn push_elements(
    alloc: Global,
    reader: &mut Reader<'_>,
    depth: usize,
    unknown_seen: bool,
    entries: &mut Vec<LongEntry>,
) -> Result<Taken, TextError>
    ensures read { IfOk result
        (λ t. IsRest (λ ds. IsTaken unknown_seen (operation_in (Some ds)) entries.old.items entries.new.items t)
        depth reader.old reader.new) }
    ensures shorter { OnOk result (length reader.new ≤ length reader.old) }
    ensures refused { IfErr result (AreRefused depth reader.old) }
{
    let Some(word) = expected_scalar(alloc, reader, depth)? else {
        return Ok(Taken::NoForm);
    };
    let Some(key) = expected_scalar(alloc, reader, depth)? else {
        return Ok(Taken::NoForm);
    };
    let Some(first) = expected_scalar(alloc, reader, depth)? else {
        return Ok(Taken::NoForm);
    };
    let Some(second) = next_scalar(alloc, reader, depth)? else {
        return push_spelled(word, key, first, None, unknown_seen, entries);
    };
    let Some(_third) = next_scalar(alloc, reader, depth)? else {
        return push_spelled(word, key, first, Some(second), unknown_seen, entries);
    };
    walk_items(reader, depth)?;
    Ok(Taken::NoForm)
}

/// Pushes the operation that comes next, unless the next value is no operation, or one with a known return after an unknown one. It passes
/// the value in any case.
pub(crate) fn push_operation(
    alloc: Global,
    reader: &mut Reader<'_>,
    depth: usize,
    unknown_seen: bool,
    entries: &mut Vec<LongEntry>,
) -> Result<Taken, TextError>
    requires { 0 < depth }
    ensures read { IfOk result
        (λ t. IsValue (λ d. IsTaken unknown_seen (operation_at d) entries.old.items entries.new.items t) depth reader.old reader.new) }
    ensures shorter { OnOk result (length reader.new < length reader.old) }
    ensures refused { IfErr result (IsRefused depth reader.old) }
{
    let token = next_token(reader)?;
    if let Token::BeginArray = token {
        return push_elements(alloc, reader, depth - 1, unknown_seen, entries);
    }
    pass_no_list(alloc, token, reader, depth)?;
    Ok(Taken::NoForm)
}
