//! What is made of the first element of a claim, which is a history.

ghost use Rattle.std.specs.Prelude.{◌<◌, length, IfOk, IfErr, OnOk};
ghost use Rattle.serde_json.specs.Data.{Data};
ghost use Rattle.json_bounded.specs.Steps.Reading.{IsRefused};
ghost use Rattle.json_tokens.specs.Histories.{IsHistoryIn};
ghost use Rattle.json_tokens.specs.Tokens.{IsValue};

use json::Reader;
use json_bounded::TextError;
use json_histories::{AnyHistory, ReadError};
use json_tokens::{next_history, pass_value};
use std::alloc::Global;

/// What is made of the first element of a claim.
pub(crate) trait ClaimHistory: Sized {
    /// It is made of this value.
    ghost made_of: { Self → Data → Type 0 };

    /// What is made of the value that comes next. It passes the value in any case.
    ///
    /// `NotJson` exactly where no value comes next, and `Memory` only where an allocation was refused. O(n) for n bytes of the value.
    fn next(alloc: Global, reader: &mut Reader<'_>, depth: usize) -> Result<Self, TextError>
        ensures read { IfOk result (λ history. IsValue (made_of history) depth reader.old reader.new) }
        ensures shorter { OnOk result (length reader.new < length reader.old) }
        ensures refused { IfErr result (IsRefused depth reader.old) };

    /// Drops it.
    fn discard(self);
}

/// The history, or its first refusal, which is kept until the rest of the text was read.
pub(crate) struct ReadHistory(pub(crate) Result<AnyHistory, ReadError>);

impl ClaimHistory for ReadHistory {
    ghost made_of = { λ history d. IsHistoryIn d history.0 };

    fn next(
        alloc: Global,
        reader: &mut Reader<'_>,
        depth: usize,
    ) -> Result<ReadHistory, TextError> {
        Ok(ReadHistory(next_history(alloc, reader, depth)?))
    }

    fn discard(self) {
        let ReadHistory(read) = self;
        if let Ok(history) = read {
            history.discard();
        }
    }
}

/// A history that was passed.
#[derive(Drop)]
pub(crate) struct PassedHistory;

impl ClaimHistory for PassedHistory {
    ghost made_of = { λ _ _. Unit {0} };

    fn next(
        alloc: Global,
        reader: &mut Reader<'_>,
        depth: usize,
    ) -> Result<PassedHistory, TextError> {
        pass_value(alloc, reader, depth)?;
        Ok(PassedHistory)
    }

    fn discard(self) {}
}
