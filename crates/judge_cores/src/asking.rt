//! Questions about numbers of gathered operations. A number that is of no operation has no answer.

use judge_memory::{LongIndex, Part};
use model_history::OpId;

/// The session of an operation.
pub(crate) fn session_of(index: &LongIndex, operation: u32) -> Option<u32> {
    if operation < index.operations() {
        Some(index.session_of(operation))
    } else {
        None
    }
}

/// The write that an operation read from.
pub(crate) fn source_of(index: &LongIndex, operation: u32) -> Option<u32> {
    if operation < index.operations() {
        index.source(operation)
    } else {
        None
    }
}

/// Whether an operation writes a variable.
pub(crate) fn is_write_of(index: &LongIndex, variable: u32, operation: u32) -> bool {
    operation < index.operations()
        && index.part(operation) == Part::Write
        && index.variable(operation) == variable
}

/// The variable of an operation.
pub(crate) fn variable_of(index: &LongIndex, operation: u32) -> Option<u32> {
    if operation < index.operations() {
        Some(index.variable(operation))
    } else {
        None
    }
}

/// The operation of a number.
pub(crate) fn op_of(index: &LongIndex, operation: u32) -> Option<OpId> {
    if operation >= index.operations() {
        return None;
    }
    let session = index.session_of(operation);
    let place = operation.saturating_sub(index.start(session));
    Some(OpId::at(session as usize, place as usize))
}

/// The number at a place, or 0 where there is none.
pub(crate) fn number_at(numbers: &[u32], place: u32) -> u32 {
    numbers.get(place as usize).copied().unwrap_or(0)
}

/// Puts a number at a place, if there is one.
pub(crate) fn put(numbers: &mut Vec<u32>, place: u32, number: u32) {
    if let Some(here) = numbers.get_mut(place as usize) {
        *here = number;
    }
}
