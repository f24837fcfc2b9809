//! What the line says of a claim that does not hold.

use crate::element::{object_at, value_of};
use crate::part::{Part, part_at, part_in};
use crate::placed::{place_words, shown_place};
use cert_check::Criterion;
use json_histories::{HistoryPlace, ObjectName};
use serde_json::Value;
use std::alloc::{AllocError, Global};

/// Says that the criterion is none, or else that the pattern does not show it. Fails for want of memory alone. O(n) for an input of
/// n bytes.
pub(crate) fn claim_rest(alloc: Global, input: &[u8]) -> Result<String, AllocError> {
    let Some(claim) = part_in(alloc, input, &[])? else {
        return Ok(String::new(alloc));
    };
    match part_at(alloc, claim, &[1]) {
        Ok(Some(criterion)) => criterion_rest(alloc, claim, criterion),
        Ok(None) => Ok(String::new(alloc)),
        Err(error) => Err(error),
    }
}

fn criterion_rest(
    alloc: Global,
    claim: Part<'_>,
    criterion: Part<'_>,
) -> Result<String, AllocError> {
    if is_criterion(alloc, criterion)? {
        pattern_rest(alloc, claim)
    } else {
        shown_place(
            alloc,
            ": ",
            criterion,
            r#" is no criterion; wanted is "cc", "cm" or "ccv""#,
        )
    }
}

fn is_criterion(alloc: Global, part: Part<'_>) -> Result<bool, AllocError> {
    let value = value_of(alloc, part, HistoryPlace::Scalar)?;
    let is_named = names_criterion(&value);
    drop(value);
    Ok(is_named)
}

fn names_criterion(value: &Value) -> bool {
    match value.as_str() {
        Some(name) => Criterion::named(name).is_some(),
        None => false,
    }
}

// The place of the pattern that does not show it.
fn pattern_rest(alloc: Global, claim: Part<'_>) -> Result<String, AllocError> {
    match part_at(alloc, claim, &[2]) {
        Ok(Some(pattern)) => {
            let object = object_at(alloc, claim, &[0, 0])?;
            pattern_words(alloc, object, pattern.byte)
        }
        Ok(None) => Ok(String::new(alloc)),
        Err(error) => Err(error),
    }
}

fn pattern_words(
    alloc: Global,
    object: Option<ObjectName>,
    byte: usize,
) -> Result<String, AllocError> {
    match object {
        Some(ObjectName::Memory) => {
            place_words(alloc, ": the pattern", byte, " is none that shows it")
        }
        _ => place_words(alloc, ": patterns", byte, " are known for a memory alone"),
    }
}
