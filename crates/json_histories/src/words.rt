//! The word of an operation, and a number after it.

ghost use Rattle.std.specs.Prelude.{◌≡◌, ◌≢◌, ℕ, List, [], ◌∷◌, map, option_map, option_and_then, IfOk, MatchOption};
ghost use Rattle.serde_json.specs.Data.{Data, string};
ghost use Rattle.serde_json.specs.View.{view};
ghost use Rattle.json_histories.specs.Json.{elements};
ghost use Rattle.json_histories.specs.Reads.{worded};
ghost use Rattle.json_histories.specs.Spelling.{first_number as number_at_first, word_rest};

use crate::json::elements_of;
use serde_json::Value;
use std::alloc::{AllocError, Global};

/// The word that a list begins with, and the values after it.
pub fn word_and_rest(value: &Value) -> Option<(&str, &[Value])>
    ensures parts { option_map (λ p. (p.0.now, map view p.1.now)) result
        ≡ option_and_then word_rest (elements (view value.now)) }
    ensures read { MatchOption result ((word : List ℕ) (ds : List Data) → view value.now ≢ worded word ds)
        (λ p. view value.now ≡ worded p.0.now (map view p.1.now)) }
{
    let (word, rest) = elements_of(value)?.split_first()?;
    Some((word.as_str()?, rest))
}

/// The first element of an operation: its word.
pub fn word_alone(alloc: Global, word: &str) -> Result<Vec<Value>, AllocError>
    ensures { IfOk result (λ vs. map view vs.items ≡ string word.now ∷ []) }
{
    let mut values = Vec::new(alloc);
    values.push(Value::try_from_str(alloc, word)?)?;
    Ok(values)
}

/// The whole number that comes first, and the values after it.
pub fn first_number(values: &[Value]) -> Option<(u64, &[Value])>
    ensures { option_map (λ p. (p.0, map view p.1.now)) result ≡ number_at_first (map view values.now) }
{
    let (number, rest) = values.split_first()?;
    Some((number.as_u64()?, rest))
}
