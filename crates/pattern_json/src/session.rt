//! Reading the rows of a session: one list of numbers for each of its operations.

ghost use Rattle.std.specs.Prelude.{◌<◌, All, length, IfOk, IfErr, OnOk};
ghost use Rattle.json_bounded.specs.Steps.Reading.{IsRefused};
ghost use Rattle.json_histories.specs.Reads.{list_form, number_form, IsReadWithin};
ghost use Rattle.json_tokens.specs.Tokens.{IsValue};

use crate::list_number::Number;
use crate::numbers::{Numbers, next_numbers};
use json::Reader;
use json_bounded::TextError;
use json_tokens::{Gather, next_list};
use order_causal::Rows;
use std::alloc::Global;
use std::mem;

/// The rows of a session so far, and the memory in which each row is read.
#[derive(Drop)]
pub(crate) struct Session<T> {
    rows: Rows<T>,
    row: Numbers<T>,
}

impl<T> Session<T> {
    /// No rows.
    pub(crate) fn new(alloc: Global) -> Session<T> {
        Session {
            rows: Rows::new(alloc),
            row: Numbers::new(alloc),
        }
    }
}

impl<T: Number> Gather for Session<T> {
    ghost use Rattle.std.specs.Prelude.{All};
    ghost use Rattle.json_histories.specs.Reads.{list_form, number_form};
    ghost use Rattle.pattern_json.specs.Steps.Lists.{AreForms, AreNoForms};

    ghost is_of = { λ session ds. AreForms (All T.fits) (list_form (λ n. number_form (T.whole n))) ds session.rows };

    ghost refuses = { AreNoForms (All T.fits) (list_form (λ n. number_form (T.whole n))) };

    fn take_next(
        &mut self,
        alloc: Global,
        reader: &mut Reader<'_>,
        depth: usize,
    ) -> Result<bool, TextError> {
        if !next_numbers(alloc, reader, depth, &mut self.row)? {
            return Ok(false);
        }
        self.rows.push(self.row.as_slice())?;
        Ok(true)
    }
}

/// The rows of the session that comes next, or none where the next value is the form of no rows. It passes the value.
///
/// O(n) for n numbers.
pub(crate) fn next_session<T: Number>(
    alloc: Global,
    reader: &mut Reader<'_>,
    depth: usize,
    session: &mut Session<T>,
) -> Result<Option<Rows<T>>, TextError>
    ensures read { IfOk result
        (λ read. IsValue (λ d. IsReadWithin (All (All T.fits)) (list_form (list_form (λ n. number_form (T.whole n)))) d read)
        depth reader.old reader.new) }
    ensures shorter { OnOk result (length reader.new < length reader.old) }
    ensures refused { IfErr result (IsRefused depth reader.old) }
{
    session.rows = Rows::new(alloc);
    if !next_list(alloc, reader, depth, session)? {
        return Ok(None);
    }
    Ok(Some(mem::replace(&mut session.rows, Rows::new(alloc))))
}
