//! Reading the lists of all sessions.

ghost use Rattle.std.specs.Prelude.{◌<◌, All, length, IfOk, IfErr, OnOk};
ghost use Rattle.json_bounded.specs.Steps.Reading.{IsRefused};
ghost use Rattle.json_histories.specs.Reads.{list_form, number_form};
ghost use Rattle.pattern_json.specs.Steps.Lists.{IsKeptIn};
ghost use Rattle.json_tokens.specs.Tokens.{IsValue};

use crate::list_number::Number;
use crate::session::{Session, next_session};
use json::Reader;
use json_bounded::TextError;
use json_tokens::{Gather, next_list};
use model_history::MAX_SESSIONS;
use order_causal::ByOperation;
use std::alloc::Global;

/// What is kept of the lists of the sessions so far, and the memory in which each session is read.
#[derive(Drop)]
pub(crate) struct Lists<T> {
    kept: ByOperation<T>,
    session: Session<T>,
}

impl<T: Number> Gather for Lists<T> {
    ghost use Rattle.std.specs.Prelude.{All};
    ghost use Rattle.json_histories.specs.Reads.{list_form, number_form};
    ghost use Rattle.pattern_json.specs.Steps.Lists.{AreKept, AreNoForms};

    ghost is_of = { λ lists ds. AreKept (All (All T.fits)) (list_form (list_form (λ n. number_form (T.whole n)))) ds lists.kept };

    ghost refuses = { AreNoForms (All (All T.fits)) (list_form (list_form (λ n. number_form (T.whole n)))) };

    fn take_next(
        &mut self,
        alloc: Global,
        reader: &mut Reader<'_>,
        depth: usize,
    ) -> Result<bool, TextError> {
        let Some(rows) = next_session(alloc, reader, depth, &mut self.session)? else {
            return Ok(false);
        };
        if self.kept.sessions() <= MAX_SESSIONS {
            self.kept.push_rows(rows)?;
        }
        Ok(true)
    }
}

/// What is kept of the lists of all sessions that come next, or none where the next value is the form of no such lists. It passes the
/// value.
///
/// O(n) for n numbers.
pub(crate) fn next_lists<T: Number>(
    alloc: Global,
    reader: &mut Reader<'_>,
    depth: usize,
) -> Result<Option<ByOperation<T>>, TextError>
    ensures read { IfOk result
        (λ read. IsValue (λ d. IsKeptIn (All (All T.fits)) (list_form (list_form (λ n. number_form (T.whole n)))) d read)
        depth reader.old reader.new) }
    ensures shorter { OnOk result (length reader.new < length reader.old) }
    ensures refused { IfErr result (IsRefused depth reader.old) }
{
    let mut lists = Lists {
        kept: ByOperation::new(alloc),
        session: Session::new(alloc),
    };
    if !next_list(alloc, reader, depth, &mut lists)? {
        return Ok(None);
    }
    Ok(Some(lists.kept))
}
