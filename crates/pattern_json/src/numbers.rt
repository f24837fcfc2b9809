//! Reading a list of numbers.

ghost use Rattle.std.specs.Prelude.{◌<◌, All, length, IfOk, IfErr, OnOk, option_map, ◌≡◌};
ghost use Rattle.json_bounded.specs.Steps.Reading.{IsRefused};
ghost use Rattle.json_histories.specs.Reads.{list_form, number_form, IsReadWithin};
ghost use Rattle.pattern_json.specs.Steps.Lists.{IsReadInto};
ghost use Rattle.json_tokens.specs.Tokens.{IsValue};

use crate::list_number::{Number, next_number};
use json::Reader;
use json_bounded::TextError;
use json_tokens::{Gather, next_list};
use std::alloc::Global;

/// The numbers of a list so far.
#[derive(Drop)]
pub(crate) struct Numbers<T> {
    numbers: Vec<T>,
}

impl<T> Numbers<T> {
    /// No numbers.
    pub(crate) fn new(alloc: Global) -> Numbers<T> {
        Numbers {
            numbers: Vec::new(alloc),
        }
    }

    /// The numbers.
    pub(crate) fn as_slice(&self) -> &[T]
        ensures { result.now ≡ self.now.numbers.items }
    {
        self.numbers.as_slice()
    }
}

impl<T: Number> Gather for Numbers<T> {
    ghost use Rattle.json_histories.specs.Reads.{number_form};
    ghost use Rattle.pattern_json.specs.Steps.Lists.{AreForms, AreNoForms};

    ghost is_of = { λ list ds. AreForms T.fits (λ n. number_form (T.whole n)) ds list.numbers.items };

    ghost refuses = { AreNoForms T.fits (λ n. number_form (T.whole n)) };

    fn take_next(
        &mut self,
        alloc: Global,
        reader: &mut Reader<'_>,
        depth: usize,
    ) -> Result<bool, TextError> {
        let Some(number) = next_number(alloc, reader, depth)? else {
            return Ok(false);
        };
        self.numbers.push(number)?;
        Ok(true)
    }
}

/// Reads the list of numbers that comes next in the place of these, and returns whether the next value is one. It passes the value.
///
/// O(n) for n numbers, and it uses the memory of the earlier numbers again.
pub(crate) fn next_numbers<T: Number>(
    alloc: Global,
    reader: &mut Reader<'_>,
    depth: usize,
    list: &mut Numbers<T>,
) -> Result<bool, TextError>
    ensures read { IfOk result
        (λ taken. IsValue (λ d. IsReadInto (All T.fits) (list_form (λ n. number_form (T.whole n))) taken d list.new.numbers.items)
        depth reader.old reader.new) }
    ensures shorter { OnOk result (length reader.new < length reader.old) }
    ensures refused { IfErr result (IsRefused depth reader.old) }
{
    list.numbers.clear();
    next_list(alloc, reader, depth, list)
}

/// The list of numbers that comes next, or none where the next value is no such list. It passes the value.
///
/// O(n) for n numbers.
pub(crate) fn read_numbers<T: Number>(
    alloc: Global,
    reader: &mut Reader<'_>,
    depth: usize,
) -> Result<Option<Vec<T>>, TextError>
    ensures read { IfOk result
        (λ read. IsValue (λ d. IsReadWithin (All T.fits) (list_form (λ n. number_form (T.whole n))) d
        (option_map (λ numbers. numbers.items) read)) depth reader.old reader.new) }
    ensures shorter { OnOk result (length reader.new < length reader.old) }
    ensures refused { IfErr result (IsRefused depth reader.old) }
{
    let mut list = Numbers::new(alloc);
    if next_numbers(alloc, reader, depth, &mut list)? {
        Ok(Some(list.numbers))
    } else {
        Ok(None)
    }
}
