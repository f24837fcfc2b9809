//! Which values of a history of a memory are not distinct.

use crate::forms::{Made, numbered, push_text, with_one, with_three, with_two};
use crate::naming::{MAX_VARIABLES, Names};
use order_memory::{IndexedMemory, Write, initial_value};
use pattern_check::Kind;
use std::alloc::{AllocError, Global};

/// Which variables of a history are written twice with one value, or with their initial value, and by which operations, in lines
/// with no line feed: one for each of the first 8 such variables, and how many more there are. None if values are distinct.
///
/// Fails for want of memory alone. O(n log m) for n operations and m initial values.
pub fn words_of_repeated_values<N: Names>(
    alloc: Global,
    memory: &IndexedMemory,
    names: &N,
) -> Result<Vec<String>, AllocError> {
    let repeated = repeated_writes(alloc, memory)?;
    let lines = lines_of(alloc, memory, names, &repeated);
    drop(repeated);
    lines
}

// The lines on the first of these writes, and how many more there are.
fn lines_of<N: Names>(
    alloc: Global,
    memory: &IndexedMemory,
    names: &N,
    repeated: &[(usize, Write)],
) -> Result<Vec<String>, AllocError> {
    let mut lines = Vec::new(alloc);
    for (place, write) in repeated.iter().take(MAX_VARIABLES) {
        push_text(&mut lines, words_of(alloc, memory, names, *place, write))?;
    }
    push_left_out(
        alloc,
        &mut lines,
        repeated.len().saturating_sub(MAX_VARIABLES),
    )?;
    Ok(lines)
}

/// The variables of a history that are written twice with one value, or with their initial value, in order. None if values are
/// distinct.
///
/// Fails for want of memory alone. O(n log m) for n operations and m initial values.
pub fn repeated_variables(alloc: Global, memory: &IndexedMemory) -> Result<Vec<u32>, AllocError> {
    let mut variables = Vec::new(alloc);
    for (_, write) in &repeated_writes(alloc, memory)? {
        variables.push(write.key)?;
    }
    Ok(variables)
}

/// Says in words that a criterion is not met without some variables, by a pattern of this kind.
///
/// The first 8 variables are named, and how many more there are. Fails for want of memory alone. O(1).
pub fn words_without_variables<N: Names>(
    alloc: Global,
    names: &N,
    variables: &[u32],
    kind: Kind,
) -> Result<String, AllocError> {
    let named = names.variables(alloc, variables);
    let kind = String::from_str(alloc, kind.name());
    with_two(alloc, "Without A: no B", named, kind)
}

// The first write that shows that a variable's values are not distinct, with its place among the writes, for each such variable.
fn repeated_writes(
    alloc: Global,
    memory: &IndexedMemory,
) -> Result<Vec<(usize, Write)>, AllocError> {
    let mut repeated: Vec<(usize, Write)> = Vec::new(alloc);
    let mut last: Option<u32> = None;
    for (place, write) in memory.writes().iter().enumerate() {
        if last != Some(write.key) && is_repeated(memory, place, write) {
            last = Some(write.key);
            repeated.push((place, *write))?;
        }
    }
    Ok(repeated)
}

// Whether a write is one of the initial value, or the next one is of the same value.
fn is_repeated(memory: &IndexedMemory, place: usize, write: &Write) -> bool {
    is_of_initial_value(memory, write) || next_alike(memory, place, write).is_some()
}

// Whether a write is one of the initial value.
fn is_of_initial_value(memory: &IndexedMemory, write: &Write) -> bool {
    write.value == initial_value(memory.history(), write.key)
}

// The next write, if it writes the same value to the same variable.
fn next_alike(memory: &IndexedMemory, place: usize, write: &Write) -> Option<Write> {
    match memory.writes().get(place.saturating_add(1)) {
        Some(next) if next.key == write.key && next.value == write.value => Some(*next),
        _ => None,
    }
}

// The words about a write of a value that is not distinct.
fn words_of<N: Names>(
    alloc: Global,
    memory: &IndexedMemory,
    names: &N,
    place: usize,
    write: &Write,
) -> Made {
    let written = words_of_write(alloc, names, write);
    let name = names.operation(alloc, write.op);
    if is_of_initial_value(memory, write) {
        let form = "A writes B, which is its initial value";
        return with_two(alloc, form, name, written);
    }
    match next_alike(memory, place, write) {
        Some(next) => {
            let other = names.operation(alloc, next.op);
            with_three(alloc, "A and B both write C", name, other, written)
        }
        None => with_two(alloc, "A writes B", name, written),
    }
}

// What a write writes, and to which variable.
fn words_of_write<N: Names>(alloc: Global, names: &N, write: &Write) -> Made {
    let value = names.value(alloc, write.key, write.value);
    with_two(alloc, "A to B", value, names.variable(alloc, write.key))
}

// How many variables are left out, if any are.
fn push_left_out(alloc: Global, lines: &mut Vec<String>, more: usize) -> Result<(), AllocError> {
    if more > 0 {
        let form = "(so it is with A more variables)";
        push_text(
            lines,
            with_one(alloc, form, numbered(alloc, "", more as u64)),
        )
    } else {
        Ok(())
    }
}
