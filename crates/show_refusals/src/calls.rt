//! The calls of the objects.

use crate::call_form::{CallForm, Returned};
use json_histories::ObjectName;

// The word of a call, what the call takes, if anything, and what it returns.
type Row = (&'static str, Option<&'static str>, Returned);

const REGISTER_CALLS: &[Row] = &[
    ("w", Some("value"), Returned::Nothing),
    ("r", None, Returned::Number),
];

const COUNTER_CALLS: &[Row] = &[
    ("inc", None, Returned::Nothing),
    ("get", None, Returned::Number),
];

const SET_CALLS: &[Row] = &[
    ("add", Some("element"), Returned::Nothing),
    ("rem", Some("element"), Returned::Nothing),
    ("has", Some("element"), Returned::Truth),
];

const QUEUE_CALLS: &[Row] = &[
    ("push", Some("item"), Returned::Nothing),
    ("pop", None, Returned::NumberOrNull),
];

/// The call of an object with this word.
pub(crate) fn call_named(object: ObjectName, word: &str) -> Option<CallForm> {
    call_in(calls_of(object), word)
}

fn calls_of(object: ObjectName) -> &'static [Row] {
    match object {
        ObjectName::Register | ObjectName::Memory => REGISTER_CALLS,
        ObjectName::Counter | ObjectName::Counters => COUNTER_CALLS,
        ObjectName::Set | ObjectName::Sets => SET_CALLS,
        ObjectName::Queue | ObjectName::Queues => QUEUE_CALLS,
    }
}

fn call_in(calls: &[Row], word: &str) -> Option<CallForm> {
    for (named, argument, returned) in calls {
        if *named == word {
            return Some(CallForm {
                argument: *argument,
                returned: *returned,
            });
        }
    }
    None
}
