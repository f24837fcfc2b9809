//! What is said of a line that is refused, after the words for its reason.

use crate::failure::LogError;
use crate::tables::line_at;
use log_events::LoggedCall;
use log_reader::{EventReader, Names, Reason};
use serde_json::Value;
use show_refusals::{client_of, client_shown, no_event_rest, no_json_rest};
use std::alloc::{AllocError, Global};

/// Appends what is said of the line that was refused last: nothing where none was, or where memory runs out for it.
///
/// O(n) for a line of n bytes, and for n calls and clients of the log.
pub(crate) fn tell<T>(
    alloc: Global,
    reader: &EventReader,
    outcome: &Result<T, LogError>,
    details: &mut String,
) {
    if let Err(LogError::Refused(refusal)) = outcome {
        if let Ok(rest) = rest_for(alloc, reader, refusal.reason) {
            let _ = details.push_str(&rest);
        }
    }
}

fn rest_for(alloc: Global, reader: &EventReader, reason: Reason) -> Result<String, AllocError> {
    match reason {
        Reason::NotJson => no_json_rest(alloc, reader.line()),
        Reason::NoForm => no_event_rest(alloc, reader.line()),
        Reason::CallPending | Reason::NothingPending | Reason::WrongEnd => {
            call_rest(alloc, reader, reason)
        }
        Reason::TooLong | Reason::LateStart | Reason::LateOrder => Ok(String::new(alloc)),
    }
}

// Who began a call last, and on which line.
fn call_rest(alloc: Global, reader: &EventReader, reason: Reason) -> Result<String, AllocError> {
    let client = client_shown(alloc, reader.line())?;
    let Some(place) = place_of_call(alloc, reader)? else {
        return format!(in alloc; "; no line before begins a call of {client}");
    };
    let line = line_at(reader, place);
    let after = words_after(reason);
    format!(in alloc; "; the last call of {client} begins on line {line}{after}")
}

fn words_after(reason: Reason) -> &'static str {
    match reason {
        Reason::CallPending => ", and no line ends it",
        Reason::NothingPending => ", and a later one ended it",
        _ => "",
    }
}

// The place of the begin of the last call of the client that a line names.
fn place_of_call(alloc: Global, reader: &EventReader) -> Result<Option<u32>, AllocError> {
    match client_number(alloc, reader) {
        Ok(Some(number)) => Ok(place_of_last(reader.log().calls(), number)),
        Ok(None) => Ok(None),
        Err(error) => Err(error),
    }
}

fn place_of_last(calls: &[LoggedCall], client: u32) -> Option<u32> {
    let mut last = None;
    for call in calls {
        if call.client() == client {
            last = Some(call.place());
        }
    }
    last
}

// The number of the client that a line names.
fn client_number(alloc: Global, reader: &EventReader) -> Result<Option<u32>, AllocError> {
    let client = client_of(alloc, reader.line())?;
    let number = number_of(alloc, reader.clients(), &client);
    drop(client);
    number
}

fn number_of(alloc: Global, names: &Names, wanted: &Value) -> Result<Option<u32>, AllocError> {
    for place in 0..names.len() {
        let Ok(number) = u32::try_from(place) else {
            return Ok(None);
        };
        let name = names.text(alloc, number)?;
        if is_name(alloc, &name, wanted)? {
            return Ok(Some(number));
        }
    }
    Ok(None)
}

// Whether a name as JSON is a value.
fn is_name(alloc: Global, name: &str, wanted: &Value) -> Result<bool, AllocError> {
    match Value::from_str(alloc, name) {
        Ok(value) => {
            let is_same = is_same(&value, wanted);
            drop(value);
            Ok(is_same)
        }
        Err(_) => Err(AllocError),
    }
}

fn is_same(value: &Value, wanted: &Value) -> bool {
    match (value, wanted) {
        (Value::String(value), Value::String(wanted)) => value.as_str() == wanted.as_str(),
        (Value::Number(value), Value::Number(wanted)) => value.as_u64() == wanted.as_u64(),
        _ => false,
    }
}
