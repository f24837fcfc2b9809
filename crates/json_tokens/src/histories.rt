//! Reading a history within a text.

ghost use Rattle.std.specs.Prelude.{◌<◌, length, IfOk, IfErr, OnOk};
ghost use Rattle.json_bounded.specs.Steps.Reading.{IsRefused};
ghost use Rattle.json_tokens.specs.Histories.{IsHistoryIn};
ghost use Rattle.json_tokens.specs.Tokens.{IsValue};

use crate::passing::next_value;
use json::Reader;
use json_bounded::TextError;
use json_histories::{AnyHistory, HistoryPlace, ReadError, history_of};
use std::alloc::Global;

/// The history whose form the value is that comes next, or its first refusal. It passes the value in any case.
///
/// The error outside is `NotJson` exactly where no value comes next, and `Memory` only where an allocation was refused. O(n) for n bytes
/// of the value, of which it keeps no more than a history has.
pub fn next_history(
    alloc: Global,
    reader: &mut Reader<'_>,
    depth: usize,
) -> Result<Result<AnyHistory, ReadError>, TextError>
    ensures read { IfOk result (λ read. IsValue (λ d. IsHistoryIn d read) depth reader.old reader.new) }
    ensures shorter { OnOk result (length reader.new < length reader.old) }
    ensures refused { IfErr result (IsRefused depth reader.old) }
{
    match next_value(alloc, reader, HistoryPlace::Whole, depth) {
        Ok(value) => {
            let read = history_of(alloc, &value);
            drop(value);
            Ok(read)
        }
        Err(error) => Err(error),
    }
}
