//! Where a text is no JSON.

use crate::beginnings::beginning_fault;
use crate::comma::comma_before;
use crate::guesses::is_log;
use crate::json_fault::{
    DEEP, Expected, JsonFault, KEY, LARGE, SECOND_EVENT, SECOND_LIST, breaks_off_before,
    ends_before, other_than,
};
use crate::no_token::{no_text_fault, no_token_fault};
use json::{Reader, Scratch, Token};
use json_bounded::{MAX_DEPTH, TextError, read_value};
use json_histories::HistoryPlace;
use std::alloc::{AllocError, Global};

// A list or an object that has begun.
#[derive(Clone, Copy)]
enum Nest {
    List,
    Object,
}

// What came last.
#[derive(Clone, Copy)]
enum Last {
    Nothing,
    Opening,
    Key,
    Value,
}

// A walk through a text, token by token.
#[derive(Drop)]
struct Walk<'a> {
    text: &'a str,
    nests: Vec<Nest>,
    last: Last,
}

impl<'a> Walk<'a> {
    fn of(alloc: Global, text: &'a str) -> Walk<'a> {
        Walk {
            text,
            nests: Vec::new(alloc),
            last: Last::Nothing,
        }
    }

    // What may come at a place.
    fn expected(&self, byte: usize) -> Expected {
        match (self.last, self.nests.last()) {
            (Last::Nothing | Last::Key, _) => Expected::Value,
            (Last::Opening, Some(Nest::Object)) => Expected::KeyOrEnd,
            (Last::Opening, _) => Expected::ValueOrEnd,
            (Last::Value, None) => Expected::End,
            (Last::Value, Some(nest)) => after_value(
                *nest,
                comma_before(self.text, byte).is_some(),
            ),
        }
    }

    // Goes past a token if it may come. Returns whether it may.
    fn pass(&mut self, token: &Token<'_>, expected: Expected) -> Result<bool, AllocError> {
        match token {
            Token::BeginArray => self.begin(Nest::List, expected),
            Token::BeginObject => self.begin(Nest::Object, expected),
            Token::EndArray => Ok(self.end(expected.is_end_of_list())),
            Token::EndObject => Ok(self.end(expected.is_end_of_object())),
            Token::Key(_) => {
                self.last = Last::Key;
                Ok(expected.is_key())
            }
            Token::String(_) | Token::Number(_) | Token::Bool(_) | Token::Null => {
                self.last = Last::Value;
                Ok(expected.is_value())
            }
            Token::Bad => Ok(false),
        }
    }

    fn begin(&mut self, nest: Nest, expected: Expected) -> Result<bool, AllocError> {
        self.nests.push(nest)?;
        self.last = Last::Opening;
        Ok(expected.is_value())
    }

    fn end(&mut self, may_end: bool) -> bool {
        let _ended = self.nests.pop();
        self.last = Last::Value;
        may_end
    }

    fn is_in_object(&self) -> bool {
        matches!(self.nests.last(), Some(Nest::Object))
    }

    fn is_too_deep(&self) -> bool {
        self.nests.len() > MAX_DEPTH
    }

    // The fault of a text that ends, or none where it is whole.
    fn fault_at_end(&self) -> Option<(usize, JsonFault)> {
        let end = self.text.len();
        match self.expected(end) {
            Expected::End => None,
            expected => Some((end, self.fault_of_end(expected))),
        }
    }

    // The fault of a text that ends before this.
    fn fault_of_end(&self, expected: Expected) -> JsonFault {
        if self.nests.is_empty() {
            ends_before(expected)
        } else {
            breaks_off_before(expected)
        }
    }

    // The fault of a token that may not come there.
    fn fault_of(&self, token: &Token<'_>, byte: usize, expected: Expected) -> (usize, JsonFault) {
        if expected.is_end() {
            let byte = comma_before(self.text, byte).unwrap_or(byte);
            return (byte, fault_after_end(self.text, byte));
        }
        let fault = match token {
            Token::Key(_) if expected.is_value() && !self.is_in_object() => KEY,
            Token::Bad if byte >= self.text.len() => self.fault_of_end(expected),
            Token::Bad => {
                no_token_fault(
                    self.text,
                    byte,
                    expected,
                    matches!(self.last, Last::Nothing),
                )
            }
            _ => other_than(expected),
        };
        (byte, fault)
    }
}

fn after_value(nest: Nest, has_comma: bool) -> Expected {
    match (nest, has_comma) {
        (Nest::List, true) => Expected::Value,
        (Nest::List, false) => Expected::List,
        (Nest::Object, true) => Expected::Key,
        (Nest::Object, false) => Expected::Object,
    }
}

// The fault of what comes after a whole text.
fn fault_after_end(text: &str, byte: usize) -> JsonFault {
    if text.as_bytes().get(byte) != Some(&b'[') {
        other_than(Expected::End)
    } else if is_log(text) {
        SECOND_EVENT
    } else {
        SECOND_LIST
    }
}

// Whether a number is out of the range that is read.
fn is_too_large(
    alloc: Global,
    token: Token<'_>,
    reader: &mut Reader<'_>,
) -> Result<bool, AllocError> {
    let Token::Number(_) = token else {
        return Ok(false);
    };
    match read_value(alloc, token, reader, HistoryPlace::Scalar, 0) {
        Ok(_) => Ok(false),
        Err(TextError::NotJson) => Ok(true),
        Err(TextError::Memory) => Err(AllocError),
    }
}

// Goes past the next token. Returns whether the walk ends, and then what is wrong with the token, or at the end.
fn step(
    alloc: Global,
    walk: &mut Walk<'_>,
    reader: &mut Reader<'_>,
) -> Result<Option<Option<(usize, JsonFault)>>, AllocError> {
    let byte = reader.offset();
    let Some(token) = reader.next() else {
        return Ok(Some(walk.fault_at_end()));
    };
    let expected = walk.expected(byte);
    if !walk.pass(&token, expected)? {
        return Ok(Some(Some(walk.fault_of(&token, byte, expected))));
    }
    if walk.is_too_deep() {
        return Ok(Some(Some((byte, DEEP))));
    }
    if is_too_large(alloc, token, reader)? {
        return Ok(Some(Some((byte, LARGE))));
    }
    Ok(None)
}

// The first fault of a text.
fn fault_in_text(alloc: Global, text: &str) -> Result<Option<(usize, JsonFault)>, AllocError> {
    let mut scratch = Scratch::new(alloc);
    let mut reader = Reader::new(text, &mut scratch)?;
    let mut walk = Walk::of(alloc, text);
    for _ in 0..=text.len() {
        if let Some(fault) = step(alloc, &mut walk, &mut reader)? {
            return Ok(fault);
        }
    }
    Ok(None)
}

/// The first byte where the bytes are no JSON, and what is wrong there. None where they are JSON.
///
/// Fails for want of memory alone. O(n) for n bytes.
pub(crate) fn json_fault(
    alloc: Global,
    bytes: &[u8],
) -> Result<Option<(usize, JsonFault)>, AllocError> {
    if let Some(fault) = beginning_fault(bytes) {
        return Ok(Some((0, fault)));
    }
    match simdutf8::compat::from_utf8(bytes) {
        Ok(text) => fault_in_text(alloc, text),
        Err(error) => Ok(Some((error.valid_up_to(), no_text_fault(bytes)))),
    }
}
