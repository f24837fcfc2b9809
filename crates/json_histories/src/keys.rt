//! Keys in the forms of keyed objects.

ghost use Rattle.std.specs.Prelude.{◌≡◌, ℕ, [], ◌∷◌, ◌++◌, map, option_map, option_and_then, IfOk};
ghost use Rattle.serde_json.specs.Data.{number, string, unsigned};
ghost use Rattle.serde_json.specs.View.{view};
ghost use Rattle.json_histories.specs.Json.{elements, list};
ghost use Rattle.json_histories.specs.Spelling.{is_above as is_above_key, key_at, word_key_rest};

use crate::json::elements_of;
use serde_json::Value;
use std::alloc::{AllocError, Global};

/// The key that a value is, where it is one.
pub fn key_of(value: &Value) -> Option<u32>
    ensures { result ≡ key_at (view value.now) }
{
    u32::try_from(value.as_u64()?).ok()
}

/// Whether a key is above the one before it, where there is one.
pub fn is_above(before: Option<u32>, key: u32) -> bool
    ensures { result ≡ is_above_key before key }
{
    match before {
        Some(before) => before < key,
        None => true,
    }
}

/// The word, the key and the rest of a keyed operation.
pub fn keyed_parts(value: &Value) -> Option<(&str, u32, &[Value])>
    ensures { option_map (λ p. (p.0.now, p.1, map view p.2.now)) result
        ≡ option_and_then word_key_rest (elements (view value.now)) }
{
    match elements_of(value)? {
        [word, key, rest @ ..] => Some((word.as_str()?, key_of(key)?, rest)),
        _ => None,
    }
}

/// The first two elements of a keyed operation: its word and its key.
pub fn word_and_key(alloc: Global, word: &str, key: u32) -> Result<Vec<Value>, AllocError>
    ensures { IfOk result (λ vs. map view vs.items ≡ string word.now ∷ number (unsigned key) ∷ []) }
{
    let mut values = Vec::new(alloc);
    values.push(Value::try_from_str(alloc, word)?)?;
    values.push(Value::from(key))?;
    Ok(values)
}

/// The form of one entry of a table.
pub fn entry_of(alloc: Global, key: u32, start: Value) -> Result<Value, AllocError>
    ensures { IfOk result (λ v. view v ≡ list (number (unsigned key) ∷ view start ∷ [])) }
{
    let mut values = Vec::new(alloc);
    values.push(Value::from(key))?;
    values.push(start)?;
    Ok(Value::from(values))
}
