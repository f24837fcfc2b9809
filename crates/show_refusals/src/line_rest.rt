//! What is said of a line of a log that is refused.

ghost use Rattle.std.specs.Prelude.{IfOk, string_bytes};
ghost use Rattle.show_refusals.specs.Lines.{IsPlain};

use crate::element::value_of;
use crate::guesses::is_history;
use crate::json_rest::json_line_rest;
use crate::part::{Part, part_at, whole};
use crate::plain::plain;
use crate::shown::shown;
use json_histories::HistoryPlace;
use serde_json::Value;
use std::alloc::{AllocError, Global};

// How to read a history.
const HISTORY: &str =
    "; this looks like a history: judge FILE and explain FILE read it, from standard input without --events";

// The path to a part of an event, the text of it that is refused, and what to write instead.
type Row = (&'static [usize], &'static str, &'static str);

const ROWS: &[Row] = &[
    (
        &[2, 0],
        "\"cas\"",
        "; a compare-and-set that succeeded is recorded as a write of its new value, [\"w\",KEY,VALUE], whose begin \
            comes before the call",
    ),
    (
        &[2, 2],
        "null",
        "; null is no value that is written: a delete is [\"d\",KEY]",
    ),
];

// The paths to the parts of an event that may be numbers: the client or a key, a value, and of a call the key and the value.
const NUMBERS: &[&[usize]] = &[&[1], &[2], &[2, 1], &[2, 2]];

/// What is wrong with a line of a log that is no JSON: where, and what it looks like. It is empty if nothing is found.
///
/// Fails for want of memory alone. O(n) for a line of n bytes.
pub fn no_json_rest(alloc: Global, line: &[u8]) -> Result<String, AllocError>
    ensures plain { IfOk result (λ rest. IsPlain (string_bytes rest)) }
{
    let words = json_line_rest(alloc, line)?;
    let hint = history_hint(line);
    plain(alloc, &format!(in alloc; "{words}{hint}")?)
}

/// What is wrong with a line of a log that is no event, and what to write instead. It is empty if nothing is found.
///
/// Fails for want of memory alone. O(n) for a line of n bytes.
pub fn no_event_rest(alloc: Global, line: &[u8]) -> Result<String, AllocError>
    ensures plain { IfOk result (λ rest. IsPlain (string_bytes rest)) }
{
    let words = event_rest(alloc, line)?;
    plain(alloc, &words)
}

// How to read a line that looks like a history.
fn history_hint(line: &[u8]) -> &'static str {
    match simdutf8::compat::from_utf8(line) {
        Ok(text) if is_history(text) => HISTORY,
        _ => "",
    }
}

fn event_rest(alloc: Global, line: &[u8]) -> Result<String, AllocError> {
    match simdutf8::compat::from_utf8(line) {
        Ok(text) if is_history(text) => String::from_str(alloc, HISTORY),
        Ok(text) => rest_of_text(alloc, text),
        Err(_) => Ok(String::new(alloc)),
    }
}

fn rest_of_text(alloc: Global, text: &str) -> Result<String, AllocError> {
    match whole(alloc, text) {
        Ok(Some(event)) => rest_of_event(alloc, event),
        Ok(None) => Ok(String::new(alloc)),
        Err(error) => Err(error),
    }
}

fn rest_of_event(alloc: Global, event: Part<'_>) -> Result<String, AllocError> {
    match hint_for(alloc, event) {
        Ok(Some(hint)) => String::from_str(alloc, hint),
        Ok(None) => number_rest(alloc, event),
        Err(error) => Err(error),
    }
}

// What to write instead of a part that is refused.
fn hint_for(alloc: Global, event: Part<'_>) -> Result<Option<&'static str>, AllocError> {
    for (path, refused, hint) in ROWS {
        match part_at(alloc, event, *path)? {
            Some(part) if part.text == *refused => return Ok(Some(*hint)),
            _ => {}
        }
    }
    Ok(None)
}

// What is wrong with the first number that is no whole number of 64 bits.
fn number_rest(alloc: Global, event: Part<'_>) -> Result<String, AllocError> {
    for path in NUMBERS {
        match part_at(alloc, event, *path)? {
            Some(part) if is_other_number(alloc, part)? => return number_words(alloc, part),
            _ => {}
        }
    }
    Ok(String::new(alloc))
}

fn number_words(alloc: Global, number: Part<'_>) -> Result<String, AllocError> {
    let shown = shown(alloc, number.text)?;
    format!(in alloc; "; {shown} is no whole number of 64 bits: write it as a text, \"{shown}\"")
}

/// Whether a value is a number, but no whole number of 64 bits: a fraction, one with an exponent, or a larger one.
fn is_other_number(alloc: Global, part: Part<'_>) -> Result<bool, AllocError> {
    let value = value_of(alloc, part, HistoryPlace::Scalar)?;
    let is_other = is_fraction(&value);
    drop(value);
    Ok(is_other)
}

/// Whether a value is a number, but no whole number of 64 bits.
pub(crate) fn is_fraction(value: &Value) -> bool {
    match value {
        Value::Number(number) => number.as_u64().is_none() && number.as_i64().is_none(),
        _ => false,
    }
}
