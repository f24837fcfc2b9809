//! JSON values as the forms of this project see them.

ghost use Rattle.std.specs.Prelude.{◌≡◌, map, option_map};
ghost use Rattle.serde_json.specs.View.{view};
ghost use Rattle.json_histories.specs.Json.{elements, is_unknown, list, whole_number};

use serde_json::Value;

/// The elements of a JSON list, or none where the value is no list.
pub fn elements_of(value: &Value) -> Option<&[Value]>
    ensures { option_map (λ vs. map view vs.now) result ≡ elements (view value.now) }
{
    match value.as_array() {
        Some(items) => Some(items.as_slice()),
        None => None,
    }
}

/// Whether the value is the text `"?"`.
pub fn is_question_mark(value: &Value) -> bool
    ensures { result ≡ is_unknown (view value.now) }
{
    match value.as_str() {
        Some(text) => text == "?",
        None => false,
    }
}
