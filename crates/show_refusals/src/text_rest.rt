//! What the line on a text that is no history, or no script, says after its beginning: the place, and what is wanted.

use crate::element::object_at;
use crate::guesses::is_log;
use crate::json_rest::json_rest;
use crate::object_words::OBJECTS;
use crate::operation_words::operation_words;
use crate::part::{Part, length_of, part_at, whole};
use crate::placed::{length_words, place_words, shown_place, words_at};
use crate::refusal::InputForm;
use crate::sessions::{SessionFault, session_with};
use crate::shape::shape_words;
use json_histories::{ObjectName, OpId, ReadError};
use std::alloc::{AllocError, Global};

// How to read a log of events.
const LOG: &str =
    "; this looks like a log of events: judge FILE and explain FILE read it, judge --events and explain --events from \
        standard input";

// How to judge a memory that is over the limits.
const LONGER: &str = "; --long judges a memory of any length";

/// What the line on a text that is no history, or no script, says after its beginning. It is empty if the input shows no place.
///
/// Fails for want of memory alone. O(n) for an input of n bytes.
pub(crate) fn text_rest(
    alloc: Global,
    input: &[u8],
    form: InputForm,
    error: ReadError,
) -> Result<String, AllocError> {
    let words = if matches!(error, ReadError::NotJson) {
        json_rest(alloc, input)?
    } else {
        rest_of_json(alloc, input, form, error)?
    };
    let hint = log_hint(input, error);
    format!(in alloc; "{words}{hint}")
}

// How to read an input that looks like a log, where it is no JSON or its shape is wrong.
fn log_hint(input: &[u8], error: ReadError) -> &'static str {
    match (error, simdutf8::compat::from_utf8(input)) {
        (ReadError::NotJson | ReadError::BadShape, Ok(text)) if is_log(text) => LOG,
        _ => "",
    }
}

fn rest_of_json(
    alloc: Global,
    input: &[u8],
    form: InputForm,
    error: ReadError,
) -> Result<String, AllocError> {
    match simdutf8::compat::from_utf8(input) {
        Ok(text) => rest_of_text(alloc, text, form, error),
        Err(_) => Ok(String::new(alloc)),
    }
}

fn rest_of_text(
    alloc: Global,
    text: &str,
    form: InputForm,
    error: ReadError,
) -> Result<String, AllocError> {
    if matches!(error, ReadError::BadShape) {
        return shape_words(alloc, text, form);
    }
    match history_in(alloc, text, form) {
        Ok(Some(history)) => rest_in(alloc, history, form, error),
        Ok(None) => Ok(String::new(alloc)),
        Err(error) => Err(error),
    }
}

// The history in an input of this form, or the script, where there is one. Fails for want of memory alone. O(n) for a text of n bytes.
fn history_in(alloc: Global, text: &str, form: InputForm) -> Result<Option<Part<'_>>, AllocError> {
    match form {
        InputForm::History | InputForm::LongHistory | InputForm::Script => whole(alloc, text),
        InputForm::Certified | InputForm::Claim | InputForm::LongClaim => {
            part_at(alloc, Part { byte: 0, text }, &[0])
        }
    }
}

// The same for a history that is there.
fn rest_in(
    alloc: Global,
    history: Part<'_>,
    form: InputForm,
    error: ReadError,
) -> Result<String, AllocError> {
    match error {
        ReadError::BadOp(op) => operation_rest(alloc, history, op),
        ReadError::ReturnAfterUnknown(op) => return_rest(alloc, history, op),
        ReadError::NotJson
        | ReadError::BadShape
        | ReadError::UnknownObject
        | ReadError::TooManySessions
        | ReadError::TooManyOps
        | ReadError::BadInitial
        | ReadError::Memory => part_rest(alloc, history, form, error),
    }
}

// What is wrong with a part of the history.
fn part_rest(
    alloc: Global,
    history: Part<'_>,
    form: InputForm,
    error: ReadError,
) -> Result<String, AllocError> {
    match part_at(alloc, history, &[place_of(form, error)]) {
        Ok(Some(part)) => words_on(alloc, history, part, form, error),
        Ok(None) => Ok(String::new(alloc)),
        Err(error) => Err(error),
    }
}

// The place of the part that is wrong. That of a table of initial values differs between a script and a history.
fn place_of(form: InputForm, error: ReadError) -> usize {
    match (error, form) {
        (ReadError::UnknownObject, _) => 0,
        (ReadError::BadInitial, InputForm::Script) => 3,
        (ReadError::BadInitial, _) => 2,
        _ => 1,
    }
}

fn words_on(
    alloc: Global,
    history: Part<'_>,
    part: Part<'_>,
    form: InputForm,
    error: ReadError,
) -> Result<String, AllocError> {
    match error {
        ReadError::UnknownObject => shown_place(alloc, ": ", part, wanted_object(form)),
        ReadError::TooManySessions => length_words(alloc, part, LONGER),
        ReadError::TooManyOps => long_session_rest(alloc, part),
        ReadError::BadInitial => {
            let object = object_at(alloc, history, &[0])?;
            words_at(alloc, part.byte, initial_words(object, form))
        }
        _ => Ok(String::new(alloc)),
    }
}

fn wanted_object(form: InputForm) -> &'static str {
    match form {
        InputForm::LongHistory | InputForm::LongClaim => r#"; wanted with --long is "memory""#,
        _ => OBJECTS,
    }
}

fn operation_at<'a>(
    alloc: Global,
    history: Part<'a>,
    op: OpId,
) -> Result<Option<Part<'a>>, AllocError> {
    part_at(alloc, history, &[1, op.session_place(), op.place()])
}

// Where the operation is, and what is wrong with it.
fn operation_rest(alloc: Global, history: Part<'_>, op: OpId) -> Result<String, AllocError> {
    let Some(operation) = operation_at(alloc, history, op)? else {
        return Ok(String::new(alloc));
    };
    match object_at(alloc, history, &[0]) {
        Ok(Some(object)) => {
            let words = operation_words(alloc, object, operation)?;
            words_at(alloc, operation.byte, &words)
        }
        Ok(None) => Ok(String::new(alloc)),
        Err(error) => Err(error),
    }
}

// Where the operation is, and that its return is known.
fn return_rest(alloc: Global, history: Part<'_>, op: OpId) -> Result<String, AllocError> {
    let words = ": a known return after an unknown one of its session";
    match operation_at(alloc, history, op) {
        Ok(Some(operation)) => place_words(alloc, "", operation.byte, words),
        Ok(None) => String::from_str(alloc, words),
        Err(error) => Err(error),
    }
}

// Which session has too many operations, and how many.
fn long_session_rest(alloc: Global, sessions: Part<'_>) -> Result<String, AllocError> {
    let Some((number, session)) = session_with(alloc, sessions, SessionFault::TooMany)? else {
        return Ok(String::new(alloc));
    };
    let byte = session.byte;
    match length_of(alloc, session) {
        Ok(Some(length)) => {
            format!(in alloc; ": session {number} (byte {byte}) has {length}{LONGER}")
        }
        Ok(None) => Ok(String::new(alloc)),
        Err(error) => Err(error),
    }
}

fn initial_words(object: Option<ObjectName>, form: InputForm) -> &'static str {
    match (object, form) {
        (Some(ObjectName::Memory), InputForm::LongHistory | InputForm::LongClaim) => {
            "wanted is [[KEY,VALUE],..] with rising keys and no value 0"
        }
        (Some(ObjectName::Memory), _) => {
            "wanted is [[KEY,VALUE],..] with rising keys, no value 0 and at most 4096 entries"
        }
        _ => "a memory alone has one",
    }
}
