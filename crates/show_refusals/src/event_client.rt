//! The client that a line of a log names.

ghost use Rattle.std.specs.Prelude.{IfOk, string_bytes};
ghost use Rattle.show_refusals.specs.Lines.{IsPlain};

use crate::element::value_of;
use crate::part::part_in;
use crate::plain::plain;
use crate::shown::shown;
use json_histories::HistoryPlace;
use serde_json::Value;
use std::alloc::{AllocError, Global};

/// The second element of an event as a line of a log has it: its client. It is null if the line has none.
///
/// Fails for want of memory alone. O(n) for a line of n bytes.
pub fn client_of(alloc: Global, line: &[u8]) -> Result<Value, AllocError> {
    match part_in(alloc, line, &[1]) {
        Ok(Some(client)) => value_of(alloc, client, HistoryPlace::Scalar),
        Ok(None) => Ok(Value::Null),
        Err(error) => Err(error),
    }
}

/// The text of that element, as the line on a refusal shows it. It is empty if the line has none.
///
/// Fails for want of memory alone. O(n) for a line of n bytes.
pub fn client_shown(alloc: Global, line: &[u8]) -> Result<String, AllocError>
    ensures plain { IfOk result (λ text. IsPlain (string_bytes text)) }
{
    let text = client_text(alloc, line)?;
    plain(alloc, &text)
}

fn client_text(alloc: Global, line: &[u8]) -> Result<String, AllocError> {
    match part_in(alloc, line, &[1]) {
        Ok(Some(client)) => shown(alloc, client.text),
        Ok(None) => Ok(String::new(alloc)),
        Err(error) => Err(error),
    }
}
