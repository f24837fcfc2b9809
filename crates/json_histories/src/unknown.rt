//! The text `"?"` in the place of a return that is not known.

ghost use Rattle.std.specs.Prelude.{◌≡◌, [], ◌∷◌, ◌++◌, map, OnOk, OnErr};
ghost use Rattle.serde_json.specs.View.{view};
ghost use Rattle.json_histories.specs.Json.{unknown as question_mark};
ghost use Rattle.json_histories.specs.Spelling.{is_unknown_alone};

use crate::json::is_question_mark;
use serde_json::Value;
use std::alloc::{AllocError, Global};

/// Whether `"?"` is the only value.
pub fn is_question_mark_alone(values: &[Value]) -> bool
    ensures { result ≡ is_unknown_alone (map view values.now) }
{
    match values {
        [value] => is_question_mark(value),
        _ => false,
    }
}

/// Appends `"?"` to the values. Where memory runs out they stay as they were.
pub fn push_question_mark(alloc: Global, values: &mut Vec<Value>) -> Result<(), AllocError>
    ensures ok { OnOk result (map view values.new.items ≡ map view values.old.items ++ question_mark ∷ []) }
    ensures err { OnErr result (values.new.items ≡ values.old.items) }
{
    values.push(Value::try_from_str(alloc, "?")?)?;
    Ok(())
}
