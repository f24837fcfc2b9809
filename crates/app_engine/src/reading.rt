//! Reading a history within the limits.

ghost use Rattle.std.specs.Prelude.{◌≡◌, IfErr, IfOk, IfSome};
ghost use Rattle.json_histories.specs.AnyForm.{IsAnyHistory, IsJson, IsRefusedFor, form_of};

use json::Scratch;
use json_histories::{AnyHistory, History, ReadError, read_history};
use judge_memory::LongHistory;
use judge_reader::{is_small, read_long_in, small};
use model_objects::Memory;
use std::alloc::Global;

// The most bytes that are read token by token: a memory history within the limits has fewer, unless blanks fill it.
const MAX_TOKEN_BYTES: usize = 1_048_576;

/// The history whose form the text is, as JSON, or the refusal of [`read_history`].
///
/// A text of at most 1,048,576 bytes that begins as that of a memory is read token by token first, as a long history: that keeps no JSON
/// value. Only where it is none, or over the limits, `read_history` reads it, and says why. O(n) for a text of n bytes.
pub(crate) fn read_within_limits(alloc: Global, text: &[u8]) -> Result<AnyHistory, ReadError>
    ensures is_history { IfOk result IsAnyHistory }
    ensures form { IfOk result (λ h. IsJson text.now (form_of h)) }
    ensures refused { IfErr result (IsRefusedFor text.now) }
{
    match read_memory(alloc, text)? {
        Some(history) => Ok(AnyHistory::Memory(history)),
        None => read_history(alloc, text),
    }
}

// The history of a memory that the text is, read token by token, where it is one within the limits and is looked for.
fn read_memory(alloc: Global, text: &[u8]) -> Result<Option<History<Memory>>, ReadError>
    ensures is_history { IfOk result (λ found. IfSome found (λ h. IsAnyHistory (AnyHistory.Memory h))) }
    ensures form { IfOk result (λ found. IfSome found (λ h. IsJson text.now (form_of (AnyHistory.Memory h)))) }
    ensures refused { IfErr result (IsRefusedFor text.now) }
{
    let mut scratch = Scratch::new(alloc);
    match read_short_memory(alloc, &mut scratch, text)? {
        Some(history) => small(alloc, &history).map_err(|_| ReadError::Memory),
        None => Ok(None),
    }
}

/// The same history without a copy: of a type that has no limits, though the history is within them.
pub(crate) fn read_short_memory(
    alloc: Global,
    scratch: &mut Scratch<Global>,
    text: &[u8],
) -> Result<Option<LongHistory>, ReadError>
    ensures is_history { IfOk result (λ found. IfSome found (λ h. IsAnyHistory (AnyHistory.Memory h))) }
    ensures form { IfOk result (λ found. IfSome found (λ h. IsJson text.now (form_of (AnyHistory.Memory h)))) }
    ensures refused { IfErr result (IsRefusedFor text.now) }
{
    if text.len() > MAX_TOKEN_BYTES || !begins_as_memory(text) {
        return Ok(None);
    }
    match read_long_in(alloc, scratch, text) {
        Ok(history) => Ok(within_limits(history)),
        Err(ReadError::Memory) => Err(ReadError::Memory),
        Err(_) => Ok(None),
    }
}

// A history, if it is within the limits.
fn within_limits(history: LongHistory) -> Option<LongHistory>
    ensures same { IfSome result (λ h. h ≡ history) }
    ensures is_history { IfSome result (λ h. IsAnyHistory (AnyHistory.Memory h)) }
{
    if is_small(&history) {
        Some(history)
    } else {
        None
    }
}

// Whether a text begins as the JSON text of a list whose first element is the name of the memory.
fn begins_as_memory(text: &[u8]) -> bool {
    match text.trim_ascii_start().strip_prefix(b"[") {
        Some(rest) => rest.trim_ascii_start().starts_with(b"\"memory\""),
        None => false,
    }
}
