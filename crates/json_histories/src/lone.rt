//! Calls without their returns, and returns without their calls.

ghost use Rattle.std.specs.Prelude.{◌≡◌, map};
ghost use Rattle.serde_json.specs.View.{view};
ghost use Rattle.json_histories.specs.LoneForm.{is_done as is_done_form, is_nothing as stands_nothing};

use serde_json::Value;

/// Whether the value is the text `"ok"`.
pub fn is_done(value: &Value) -> bool
    ensures { result ≡ is_done_form (view value.now) }
{
    match value.as_str() {
        Some(text) => text == "ok",
        None => false,
    }
}

/// Whether there are no values.
pub fn is_nothing(values: &[Value]) -> bool
    ensures { result ≡ stands_nothing (map view values.now) }
{
    match values {
        [] => true,
        _ => false,
    }
}
