//! Lists as JSON, an element at a time.

ghost use Rattle.std.specs.Prelude.{◌++◌, OnOk, string_bytes};
ghost use Rattle.app_logs.specs.Steps.ListsSoFar.{AddsText, comma_at};

use std::alloc::AllocError;

/// Appends the comma before the element at a place of a list: the first has none.
pub(crate) fn push_comma(text: &mut String, place: usize) -> Result<(), AllocError>
    ensures { OnOk result (AddsText (comma_at place) (string_bytes text.old) (string_bytes text.new)) }
{
    if place > 0 {
        text.push_str(",")
    } else {
        Ok(())
    }
}

/// Appends the element at a place of a list, and the comma before it.
pub(crate) fn push_element(text: &mut String, place: usize, element: &str) -> Result<(), AllocError>
    ensures { OnOk result (AddsText (comma_at place ++ element.now) (string_bytes text.old) (string_bytes text.new)) }
{
    push_comma(text, place)?;
    text.push_str(element)
}
