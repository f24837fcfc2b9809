//! Reading the counts that a sealer is given.

ghost use Rattle.std.specs.Prelude.{◌<◌, ◌≤◌, All, length, IfOk, IfErr, OnOk};
ghost use Rattle.json_bounded.specs.Steps.Reading.{IsRefused};
ghost use Rattle.model_history.specs.declared.limits.TheConstants.{MAX_OPERATIONS as LIMIT};
ghost use Rattle.json_histories.specs.Reads.{list_form, number_form, IsReadWithin};
ghost use Rattle.json_tokens.specs.Tokens.{IsValue};

use json::Reader;
use json_bounded::TextError;
use json_tokens::{Gather, next_list, next_whole_number};
use live_simulation::Told;
use model_history::MAX_OPERATIONS;
use std::alloc::Global;

/// The counts of a list so far.
#[derive(Drop)]
struct Counts {
    counts: Vec<u16>,
}

/// The count that a number is: from 0 to 256.
fn count_of(number: u64) -> Option<u16>
    ensures { IsReadWithin (λ n. n ≤ LIMIT) number_form (number_form number) result }
{
    let count = u16::try_from(number).ok()?;
    if count as usize <= MAX_OPERATIONS {
        Some(count)
    } else {
        None
    }
}

/// The count that comes next, or none where the next value is none. It passes the value.
fn next_count(
    alloc: Global,
    reader: &mut Reader<'_>,
    depth: usize,
) -> Result<Option<u16>, TextError>
    ensures read { IfOk result
        (λ count. IsValue (λ d. IsReadWithin (λ n. n ≤ LIMIT) number_form d count) depth reader.old reader.new) }
    ensures shorter { OnOk result (length reader.new < length reader.old) }
    ensures refused { IfErr result (IsRefused depth reader.old) }
{
    match next_whole_number(alloc, reader, depth)? {
        Some(number) => Ok(count_of(number)),
        None => Ok(None),
    }
}

impl Gather for Counts {
    ghost use Rattle.std.specs.Prelude.{◌≤◌};
    ghost use Rattle.pattern_json.specs.Steps.Lists.{AreForms, AreNoForms};
    ghost use Rattle.model_history.specs.declared.limits.TheConstants.{MAX_OPERATIONS as LIMIT};
    ghost use Rattle.json_histories.specs.Reads.{number_form};

    ghost is_of = { λ list ds. AreForms (λ n. n ≤ LIMIT) number_form ds list.counts.items };

    ghost refuses = { AreNoForms (λ n. n ≤ LIMIT) number_form };

    fn take_next(
        &mut self,
        alloc: Global,
        reader: &mut Reader<'_>,
        depth: usize,
    ) -> Result<bool, TextError> {
        let Some(count) = next_count(alloc, reader, depth)? else {
            return Ok(false);
        };
        self.counts.push(count)?;
        Ok(true)
    }
}

/// The counts in the list that comes next, or none where the next value is no list of counts. It passes the value.
pub(crate) fn next_told(
    alloc: Global,
    reader: &mut Reader<'_>,
    depth: usize,
) -> Result<Option<Told>, TextError>
    ensures read { IfOk result
        (λ told. IsValue (λ d. IsReadWithin (All (λ n. n ≤ LIMIT)) (list_form number_form) d told) depth reader.old reader.new) }
    ensures shorter { OnOk result (length reader.new < length reader.old) }
    ensures refused { IfErr result (IsRefused depth reader.old) }
{
    let mut list = Counts {
        counts: Vec::new(alloc),
    };
    if next_list(alloc, reader, depth, &mut list)? {
        Ok(Some(Told::of(list.counts)))
    } else {
        Ok(None)
    }
}
