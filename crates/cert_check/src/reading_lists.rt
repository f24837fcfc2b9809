//! Reading the lists of a certificate.

ghost use Rattle.std.specs.Prelude.{All, map, option_map, IfOk};
ghost use Rattle.serde_json.specs.View.{view};
ghost use Rattle.json_histories.specs.Json.{list};
ghost use Rattle.json_histories.specs.Reads.{list_form, number_form, IsReadWithin};

use crate::number::{Number, read_number};
use json_histories::elements_of;
use order_causal::{ByOperation, Rows};
use serde_json::Value;
use std::alloc::{AllocError, Global};

/// The numbers whose forms the values are.
fn read_each_number<T: Number>(
    alloc: Global,
    values: &[Value],
) -> Result<Option<Vec<T>>, AllocError>
    ensures { IfOk result
        (λ read. IsReadWithin (All T.fits) (list_form (λ n. number_form (T.whole n))) (list (map view values.now))
        (option_map (λ numbers. numbers.items) read)) }
{
    let mut numbers = Vec::new(alloc);
    for element in values {
        let Some(number) = read_number(element) else {
            return Ok(None);
        };
        numbers.push(number)?;
    }
    Ok(Some(numbers))
}

/// The numbers that a value is the list of. O(n) for n numbers.
pub(crate) fn read_numbers<T: Number>(
    alloc: Global,
    value: &Value,
) -> Result<Option<Vec<T>>, AllocError>
    ensures { IfOk result
        (λ read. IsReadWithin (All T.fits) (list_form (λ n. number_form (T.whole n))) (view value.now)
        (option_map (λ numbers. numbers.items) read)) }
{
    match elements_of(value) {
        Some(values) => read_each_number(alloc, values),
        None => Ok(None),
    }
}

/// The lists of a session that a value is the form of: a list of numbers for each of its operations.
fn read_rows<T: Number>(alloc: Global, value: &Value) -> Result<Option<Rows<T>>, AllocError>
    ensures { IfOk result
        (IsReadWithin (All (All T.fits)) (list_form (list_form (λ n. number_form (T.whole n)))) (view value.now)) }
{
    let Some(values) = elements_of(value) else {
        return Ok(None);
    };
    let mut rows = Rows::new(alloc);
    for element in values {
        let Some(numbers) = read_numbers::<T>(alloc, element)? else {
            return Ok(None);
        };
        rows.push(numbers.as_slice())?;
    }
    Ok(Some(rows))
}

/// The lists that a value is the form of, one list of numbers for each operation of each session.
///
/// O(n) for n numbers.
pub(crate) fn read_lists<T: Number>(
    alloc: Global,
    value: &Value,
) -> Result<Option<ByOperation<T>>, AllocError>
    ensures { IfOk result
        (IsReadWithin (All (All (All T.fits))) (list_form (list_form (list_form (λ n. number_form (T.whole n)))))
        (view value.now)) }
{
    let Some(values) = elements_of(value) else {
        return Ok(None);
    };
    let mut lists = ByOperation::new(alloc);
    for element in values {
        let Some(rows) = read_rows::<T>(alloc, element)? else {
            return Ok(None);
        };
        lists.push_rows(rows)?;
    }
    Ok(Some(lists))
}
