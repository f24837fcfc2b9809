//! JSON values as they are written.

ghost use Rattle.std.specs.Prelude.{◌≡◌, ◌≤◌, ◌++◌, codes, false, IfOk, OnOk, string_bytes};
ghost use Rattle.serde_json.specs.Data.{depth};
ghost use Rattle.serde_json.specs.Read.{max_depth};
ghost use Rattle.serde_json.specs.View.{view};
ghost use Rattle.serde_json.specs.Written.{compact_text, has_float};
ghost use Rattle.json_histories.specs.AnyForm.{IsJson};

use serde_json::Value;
use std::alloc::{AllocError, Global};

/// The JSON text of a value, and a line feed. O(n) for a text of n bytes.
pub(crate) fn line_of_value(alloc: Global, value: &Value) -> Result<String, AllocError>
    requires no_float { has_float (view value.now) ≡ false }
    requires nests { depth (view value.now) ≤ max_depth }
    ensures whole { IfOk result (λ text. string_bytes text ≡ compact_text (view value.now) ++ codes "\n") }
    ensures json { OnOk result (IsJson (compact_text (view value.now)) (view value.now)) }
{
    let json = json_of(alloc, value)?;
    format!(in alloc; "{json}\n")
}

// The JSON text of a value.
fn json_of(alloc: Global, value: &Value) -> Result<String, AllocError>
    requires no_float { has_float (view value.now) ≡ false }
    requires nests { depth (view value.now) ≤ max_depth }
    ensures text { IfOk result (λ text. string_bytes text ≡ compact_text (view value.now)) }
    ensures json { IfOk result (λ text. IsJson (string_bytes text) (view value.now)) }
{
    value.to_string(alloc)
}
