//! What is wrong with an operation that has no form of its object's.

use crate::call_form::{CallForm, Returned};
use crate::calls::call_named;
use crate::line_rest::is_fraction;
use crate::object_words::is_keyed;
use json_histories::{ObjectName, elements_of};
use serde_json::Value;

/// What is wrong with an operation. An index is that of the element at fault.
#[derive(Clone, Copy)]
pub(crate) enum OperationFault {
    /// It is no list, or it does not begin with a text.
    NoWord,
    /// No call of the object has its word.
    UnknownWord,
    /// It ends before an element that its call has: what the element is.
    Lacks(&'static str),
    /// An element is wrong: what it is to be, its index, and what is wrong with it.
    Wrong(&'static str, usize, &'static str),
    /// It has more elements than its call has with a return.
    TooMany(usize),
}

// What is wrong with a key, and with what a call takes.
const NO_KEY: &str = "is no whole number below 4294967296";

const NO_VALUE: &str = "is no whole number below 18446744073709551616";

// The same of a fraction or a larger number, and of a null that is written.
const NO_FRACTION: &str =
    "is no whole number below 18446744073709551616; a log of events has such a number as a text";

const NO_NULL: &str =
    r#"is no whole number below 18446744073709551616; a log of events has ["d",KEY] for a delete"#;

/// What is wrong with an operation of an object, where anything is.
pub(crate) fn operation_fault(object: ObjectName, operation: &Value) -> Option<OperationFault> {
    let Some(elements) = elements_of(operation) else {
        return Some(OperationFault::NoWord);
    };
    let Some(word) = first_text(elements) else {
        return Some(OperationFault::NoWord);
    };
    let Some(call) = call_named(object, word) else {
        return Some(OperationFault::UnknownWord);
    };
    if is_keyed(object) {
        key_fault(elements).or(fault_behind(call, elements, 2))
    } else {
        fault_behind(call, elements, 1)
    }
}

/// The first element, where it is a text.
pub(crate) fn first_text(elements: &[Value]) -> Option<&str> {
    elements.first()?.as_str()
}

fn key_fault(elements: &[Value]) -> Option<OperationFault> {
    match elements.get(1) {
        None => Some(OperationFault::Lacks("key")),
        Some(key) if is_key(key) => None,
        Some(_) => Some(OperationFault::Wrong("key", 1, NO_KEY)),
    }
}

fn is_key(value: &Value) -> bool {
    match value.as_u64() {
        Some(number) => u32::try_from(number).is_ok(),
        None => false,
    }
}

// What is wrong with the elements from an index on: what the call takes, and the return.
fn fault_behind(call: CallForm, elements: &[Value], index: usize) -> Option<OperationFault> {
    let Some(argument) = call.argument else {
        return return_fault(call.returned, elements, index);
    };
    match elements.get(index) {
        None => Some(OperationFault::Lacks(argument)),
        Some(value) if value.as_u64().is_some() => {
            return_fault(call.returned, elements, index.saturating_add(1))
        }
        Some(value) => Some(OperationFault::Wrong(argument, index, value_words(argument, value))),
    }
}

// What is wrong with a value that is none.
fn value_words(argument: &str, value: &Value) -> &'static str {
    if argument != "value" {
        NO_VALUE
    } else if is_fraction(value) {
        NO_FRACTION
    } else if value.is_null() {
        NO_NULL
    } else {
        NO_VALUE
    }
}

// What is wrong with the elements from an index on, which should be the return alone.
fn return_fault(returned: Returned, elements: &[Value], index: usize) -> Option<OperationFault> {
    if elements.len() > index.saturating_add(1) {
        return Some(OperationFault::TooMany(index.saturating_add(1)));
    }
    match elements.get(index) {
        None if matches!(returned, Returned::Nothing) => None,
        None => Some(OperationFault::Lacks(r#"return, or "?""#)),
        Some(value) if is_return(returned, value) => None,
        Some(_) => Some(OperationFault::Wrong("return", index, returned.words())),
    }
}

fn is_return(returned: Returned, value: &Value) -> bool {
    if value.as_str() == Some("?") {
        return true;
    }
    match returned {
        Returned::Nothing => false,
        Returned::Number => value.as_u64().is_some(),
        Returned::Truth => value.as_bool().is_some(),
        Returned::NumberOrNull => value.is_null() || value.as_u64().is_some(),
    }
}
