//! Values of the input that are read again.

use crate::part::{Part, part_at};
use json_bounded::{TextError, read_bounded};
use json_histories::{HistoryPlace, ObjectName, object_named};
use serde_json::Value;
use std::alloc::{AllocError, Global};

/// The value of a part, cut at its place, or null if it is not read. Fails for want of memory alone.
pub(crate) fn value_of(
    alloc: Global,
    part: Part<'_>,
    place: HistoryPlace,
) -> Result<Value, AllocError> {
    match read_bounded(alloc, part.text.as_bytes(), place) {
        Ok(value) => Ok(value),
        Err(TextError::NotJson) => Ok(Value::Null),
        Err(TextError::Memory) => Err(AllocError),
    }
}

/// The object whose name is at the end of a path into a part. Fails for want of memory alone.
pub(crate) fn object_at(
    alloc: Global,
    outer: Part<'_>,
    path: &[usize],
) -> Result<Option<ObjectName>, AllocError> {
    match part_at(alloc, outer, path) {
        Ok(Some(name)) => object_of(alloc, name),
        Ok(None) => Ok(None),
        Err(error) => Err(error),
    }
}

// The object that a part names.
fn object_of(alloc: Global, name: Part<'_>) -> Result<Option<ObjectName>, AllocError> {
    let value = value_of(alloc, name, HistoryPlace::Scalar)?;
    let object = named_by(&value);
    drop(value);
    Ok(object)
}

fn named_by(value: &Value) -> Option<ObjectName> {
    object_named(value.as_str()?)
}

/// The text of an element of a part, or an empty text if there is none. Fails for want of memory alone.
pub(crate) fn element_text<'a>(
    alloc: Global,
    part: Part<'a>,
    index: usize,
) -> Result<&'a str, AllocError> {
    match part_at(alloc, part, &[index]) {
        Ok(Some(element)) => Ok(element.text),
        Ok(None) => Ok(""),
        Err(error) => Err(error),
    }
}
