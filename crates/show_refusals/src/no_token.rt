//! What is wrong where no token of JSON begins.

use crate::json_fault::{
    BAD_TEXT, BINARY, Expected, JsonFault, NO_QUOTE, NO_TEXT, PLAIN_TEXT, SINGLE_QUOTE, other_than,
};

/// The fault of bytes that are no UTF-8. O(n) for n bytes.
pub(crate) fn no_text_fault(bytes: &[u8]) -> JsonFault {
    if has_control(bytes) { BINARY } else { NO_TEXT }
}

/// The fault at a byte of a text where no token begins: what may come there, and whether nothing came before. O(n) for a text of n bytes.
pub(crate) fn no_token_fault(
    text: &str,
    byte: usize,
    expected: Expected,
    is_first: bool,
) -> JsonFault {
    let Some(rest) = text.as_bytes().get(byte..) else {
        return other_than(expected);
    };
    match rest.first() {
        Some(b'"') if !matches!(expected, Expected::List | Expected::Object) => fault_of_text(rest),
        Some(b'\'') => SINGLE_QUOTE,
        Some(first) if is_first && is_control(*first) => BINARY,
        Some(_) if is_first => PLAIN_TEXT,
        _ => other_than(expected),
    }
}

// What is wrong with a text that begins with the first of these bytes.
fn fault_of_text(rest: &[u8]) -> JsonFault {
    match rest.get(1..) {
        Some(inside) if has_quote(inside) => BAD_TEXT,
        _ => NO_QUOTE,
    }
}

// Whether a closing quote comes before the end of the line.
fn has_quote(inside: &[u8]) -> bool {
    let mut is_escaped = false;
    for byte in inside {
        if *byte == b'\n' {
            return false;
        }
        if *byte == b'"' && !is_escaped {
            return true;
        }
        is_escaped = *byte == b'\\' && !is_escaped;
    }
    false
}

fn has_control(bytes: &[u8]) -> bool {
    for byte in bytes {
        if is_control(*byte) {
            return true;
        }
    }
    false
}

// Whether no text has such a byte: a control character that is no blank.
fn is_control(byte: u8) -> bool {
    byte < 32 && !matches!(byte, b'\t' | b'\n' | b'\r' | 12 | 27)
}
