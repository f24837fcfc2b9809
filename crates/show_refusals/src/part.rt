//! Parts of a JSON text, and their places.

use json::{Reader, Scratch, Token};
use json_bounded::MAX_DEPTH;
use std::alloc::{AllocError, Global};

/// A value in a JSON text: its first byte, counted from 0, and its own text.
#[derive(Clone, Copy)]
pub(crate) struct Part<'a> {
    pub(crate) byte: usize,
    pub(crate) text: &'a str,
}

impl Part<'_> {
    pub(crate) fn is_list(&self) -> bool {
        self.text.starts_with('[')
    }
}

/// The whole of a JSON text. Fails for want of memory alone. O(n) for a text of n bytes.
pub(crate) fn whole(alloc: Global, text: &str) -> Result<Option<Part<'_>>, AllocError> {
    part_at(alloc, Part { byte: 0, text }, &[])
}

/// The value at the end of a path of indices into another value, where there is one.
///
/// Fails for want of memory alone. O(n) for a value of n bytes.
pub(crate) fn part_at<'a>(
    alloc: Global,
    outer: Part<'a>,
    path: &[usize],
) -> Result<Option<Part<'a>>, AllocError> {
    let mut scratch = Scratch::new(alloc);
    let mut reader = Reader::new(outer.text, &mut scratch)?;
    if !enter_path(&mut reader, path) {
        return Ok(None);
    }
    Ok(next_part(&mut reader, outer))
}

/// The value at the end of a path of indices into an input, where there is one. Fails for want of memory alone. O(n) for n bytes.
pub(crate) fn part_in<'a>(
    alloc: Global,
    input: &'a [u8],
    path: &[usize],
) -> Result<Option<Part<'a>>, AllocError> {
    match simdutf8::compat::from_utf8(input) {
        Ok(text) => part_at(alloc, Part { byte: 0, text }, path),
        Err(_) => Ok(None),
    }
}

/// Goes to the value at the end of a path of indices. Returns whether there is one.
pub(crate) fn enter_path(reader: &mut Reader<'_>, path: &[usize]) -> bool {
    for index in path {
        if !enter(reader, *index) {
            return false;
        }
    }
    true
}

// Goes to the element with this index of the list that comes next.
fn enter(reader: &mut Reader<'_>, index: usize) -> bool {
    let Some(Token::BeginArray) = reader.next() else {
        return false;
    };
    for _ in 0..index {
        if reader.skip_value(MAX_DEPTH).is_err() {
            return false;
        }
    }
    true
}

/// The next value in another value. The reader passes it.
pub(crate) fn next_part<'a>(reader: &mut Reader<'_>, outer: Part<'a>) -> Option<Part<'a>> {
    let begin = reader.offset();
    if reader.skip_value(MAX_DEPTH).is_err() {
        return None;
    }
    let found = outer.text.get(begin..reader.offset())?;
    Some(Part {
        byte: outer.byte.saturating_add(begin),
        text: without_comma(found),
    })
}

// The text of a value without the comma and the blanks after it.
fn without_comma(found: &str) -> &str {
    let found = found.trim_end();
    match found.strip_suffix(',') {
        Some(value) => value.trim_end(),
        None => found,
    }
}

/// How many elements a list has. None where the value is no list.
///
/// Fails for want of memory alone. O(n) for a value of n bytes.
pub(crate) fn length_of(alloc: Global, list: Part<'_>) -> Result<Option<usize>, AllocError> {
    let mut scratch = Scratch::new(alloc);
    let mut reader = Reader::new(list.text, &mut scratch)?;
    if !enter(&mut reader, 0) {
        return Ok(None);
    }
    Ok(length_left(&mut reader, list.text.len()))
}

// How many elements are left before the end of the list. There are no more than the list has bytes.
fn length_left(reader: &mut Reader<'_>, most: usize) -> Option<usize> {
    for length in 0..most {
        if reader.take_end_array() {
            return Some(length);
        }
        if reader.skip_value(MAX_DEPTH).is_err() {
            return None;
        }
    }
    None
}
