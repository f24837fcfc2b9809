//! The content of a line.

ghost use Rattle.std.specs.Prelude.{◌≡◌, IfErr, IfOk};
ghost use Rattle.serde_json.specs.View.{view};
ghost use Rattle.json_bounded.specs.Text.{IsJson, IsTextRefused};
ghost use Rattle.log_reader.specs.BookSteps.{IsContent};

use crate::limits::MAX_LINE_BYTES;
use json_bounded::TextError;
use json_lines::is_blank;
use serde_json::Value;
use std::alloc::{AllocError, Global};

/// The content of a line.
#[derive(Drop)]
pub(crate) enum Content {
    /// Too many bytes.
    TooLong,
    /// Nothing.
    Blank,
    /// Bytes that are no JSON.
    NotJson,
    /// A JSON value.
    Json(Value),
}

// The JSON value of a line.
fn read_json(alloc: Global, line: &[u8]) -> Result<Value, TextError>
    ensures read { IfOk result (λ value. IsJson line.now (view value)) }
    ensures refused { IfErr result (IsTextRefused line.now) }
{
    let Ok(text) = simdutf8::compat::from_utf8(line) else {
        return Err(TextError::NotJson);
    };
    match Value::from_str(alloc, text) {
        Ok(value) => Ok(value),
        Err(error) => {
            if error.is_memory() {
                Err(TextError::Memory)
            } else {
                Err(TextError::NotJson)
            }
        }
    }
}

/// The content of a line. Fails for want of memory alone. O(n) for a line of n bytes.
pub(crate) fn content_of(alloc: Global, line: &[u8]) -> Result<Content, AllocError>
    ensures { IfOk result (IsContent line.now) }
{
    if line.len() > MAX_LINE_BYTES {
        return Ok(Content::TooLong);
    }
    if is_blank(line) {
        return Ok(Content::Blank);
    }
    match read_json(alloc, line) {
        Ok(value) => Ok(Content::Json(value)),
        Err(TextError::NotJson) => Ok(Content::NotJson),
        Err(TextError::Memory) => Err(AllocError),
    }
}
