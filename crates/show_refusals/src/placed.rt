//! Words with the place of a part of the input.

use crate::part::{Part, length_of};
use crate::shown::shown;
use std::alloc::{AllocError, Global};

/// The text of a part, as a line shows it, and its byte, between words. Fails for want of memory alone.
pub(crate) fn shown_place(
    alloc: Global,
    before: &str,
    part: Part<'_>,
    after: &str,
) -> Result<String, AllocError> {
    let byte = part.byte;
    let shown = shown(alloc, part.text)?;
    format!(in alloc; "{before}{shown} (byte {byte}){after}")
}

/// A byte between words. Fails for want of memory alone.
pub(crate) fn place_words(
    alloc: Global,
    before: &str,
    byte: usize,
    after: &str,
) -> Result<String, AllocError> {
    format!(in alloc; "{before} (byte {byte}){after}")
}

/// What is said of a byte. Fails for want of memory alone.
pub(crate) fn words_at(alloc: Global, byte: usize, words: &str) -> Result<String, AllocError> {
    format!(in alloc; " (byte {byte}): {words}")
}

/// What is wanted in the place of a part. Fails for want of memory alone.
pub(crate) fn wanted_at(alloc: Global, part: Part<'_>, wanted: &str) -> Result<String, AllocError> {
    let byte = part.byte;
    format!(in alloc; ": wanted at byte {byte} is {wanted}")
}

/// How many elements a list has, and words after it. It is empty if the part is no list.
///
/// Fails for want of memory alone. O(n) for a part of n bytes.
pub(crate) fn length_words(
    alloc: Global,
    list: Part<'_>,
    after: &str,
) -> Result<String, AllocError> {
    match length_of(alloc, list) {
        Ok(Some(length)) => format!(in alloc; ": it has {length}{after}"),
        Ok(None) => Ok(String::new(alloc)),
        Err(error) => Err(error),
    }
}
