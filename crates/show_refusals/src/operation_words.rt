//! What is wrong with an operation, in words.

use crate::element::{element_text, value_of};
use crate::object_words::{forms_words, name_words};
use crate::operation_fault::{OperationFault, operation_fault};
use crate::part::Part;
use crate::shown::shown;
use json_histories::{HistoryPlace, ObjectName};
use std::alloc::{AllocError, Global};

/// What is wrong with an operation of an object. Fails for want of memory alone.
pub(crate) fn operation_words(
    alloc: Global,
    object: ObjectName,
    operation: Part<'_>,
) -> Result<String, AllocError> {
    match fault_in(alloc, object, operation) {
        Ok(Some(fault)) => fault_words(alloc, object, operation, fault),
        Ok(None) => no_form(alloc, object, operation),
        Err(error) => Err(error),
    }
}

fn fault_in(
    alloc: Global,
    object: ObjectName,
    operation: Part<'_>,
) -> Result<Option<OperationFault>, AllocError> {
    let value = value_of(alloc, operation, HistoryPlace::Operation)?;
    let fault = operation_fault(object, &value);
    drop(value);
    Ok(fault)
}

fn fault_words(
    alloc: Global,
    object: ObjectName,
    operation: Part<'_>,
    fault: OperationFault,
) -> Result<String, AllocError> {
    match fault {
        OperationFault::NoWord => no_form(alloc, object, operation),
        OperationFault::UnknownWord => {
            let words = no_word(alloc, operation, name_words(object), forms_words(object))?;
            let hint = word_hint(object, element_text(alloc, operation, 0)?);
            format!(in alloc; "{words}{hint}")
        }
        OperationFault::Lacks(lacked) => lacks(alloc, object, lacked),
        OperationFault::Wrong(named, index, words) => {
            wrong(alloc, named, element_text(alloc, operation, index)?, words)
        }
        OperationFault::TooMany(most) => too_many(alloc, operation, most),
    }
}

// What to record instead of an operation with this word.
fn word_hint(object: ObjectName, word: &str) -> &'static str {
    match object {
        ObjectName::Register | ObjectName::Memory if word == "\"cas\"" => {
            "; a compare-and-set that succeeded is a write of its new value"
        }
        _ => "",
    }
}

// Says that an operation is none of its object's.
fn no_form(alloc: Global, object: ObjectName, operation: Part<'_>) -> Result<String, AllocError> {
    none_of(
        alloc,
        operation.text,
        "operation",
        name_words(object),
        forms_words(object),
    )
}

/// Says that a list does not begin with a word of what is named. Fails for want of memory alone.
pub(crate) fn no_word(
    alloc: Global,
    list: Part<'_>,
    name: &str,
    forms: &str,
) -> Result<String, AllocError> {
    none_of(alloc, element_text(alloc, list, 0)?, "word", name, forms)
}

fn none_of(
    alloc: Global,
    text: &str,
    kind: &str,
    name: &str,
    forms: &str,
) -> Result<String, AllocError> {
    let shown = shown(alloc, text)?;
    format!(in alloc; "{shown} is no {kind} of {name}; wanted is {forms}")
}

// Says that an operation lacks something.
fn lacks(alloc: Global, object: ObjectName, lacked: &str) -> Result<String, AllocError> {
    let forms = forms_words(object);
    format!(in alloc; "it lacks its {lacked}; wanted is {forms}")
}

// Says what is wrong with an element.
fn wrong(alloc: Global, named: &str, text: &str, words: &str) -> Result<String, AllocError> {
    let shown = shown(alloc, text)?;
    format!(in alloc; "the {named} {shown} {words}")
}

// Says that an operation has more elements than its call has.
fn too_many(alloc: Global, operation: Part<'_>, most: usize) -> Result<String, AllocError> {
    let shown = shown(alloc, operation.text)?;
    format!(in alloc; "{shown} has more than {most} elements")
}
