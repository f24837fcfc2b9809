//! Where bytes are no JSON, in words.

use crate::json_fault::JsonFault;
use crate::json_walk::json_fault;
use crate::text_place::text_place;
use std::alloc::{AllocError, Global};

/// Where the bytes of an input are no JSON, and what is wrong there. Fails for want of memory alone. O(n) for n bytes.
pub(crate) fn json_rest(alloc: Global, input: &[u8]) -> Result<String, AllocError> {
    match json_fault(alloc, input) {
        Ok(Some((byte, fault))) => {
            let JsonFault { before, after } = fault;
            let place = place_words(alloc, input, byte)?;
            format!(in alloc; ": {before} at byte {byte}{place}{after}")
        }
        Ok(None) => Ok(String::new(alloc)),
        Err(error) => Err(error),
    }
}

// The line and the column of a byte that is not on the first line.
fn place_words(alloc: Global, input: &[u8], byte: usize) -> Result<String, AllocError> {
    let place = text_place(input, byte);
    let (line, column) = (place.line, place.column);
    if line == 1 {
        Ok(String::new(alloc))
    } else {
        format!(in alloc; " (line {line}, column {column})")
    }
}

/// The same of a line of a log, by columns. Fails for want of memory alone. O(n) for n bytes.
pub(crate) fn json_line_rest(alloc: Global, line: &[u8]) -> Result<String, AllocError> {
    match json_fault(alloc, line) {
        Ok(Some((byte, fault))) => {
            let JsonFault { before, after } = fault;
            let column = text_place(line, byte).column;
            format!(in alloc; ": {before} at column {column}{after}")
        }
        Ok(None) => Ok(String::new(alloc)),
        Err(error) => Err(error),
    }
}
