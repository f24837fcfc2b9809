//! Writing lists, and lists that begin with a word, as JSON values.

ghost use Rattle.std.specs.Prelude.{◌≡◌, ◌∷◌, [], IfOk};
ghost use Rattle.serde_json.specs.Data.{Data};
ghost use Rattle.serde_json.specs.View.{view};
ghost use Rattle.json_histories.specs.Reads.{list_form, worded};

use serde_json::Value;
use std::alloc::{AllocError, Global};

/// A type whose values have a form as JSON values.
pub trait Written: Sized {
    /// Its form.
    ghost form: { Self → Data };

    /// Its form, as a value. Fails for want of memory alone.
    fn value(&self, alloc: Global) -> Result<Value, AllocError>
        ensures { IfOk result (λ value. view value ≡ form self.now) };
}

/// The list of the forms of these. Fails for want of memory alone. O(n) for n items, and what their forms cost.
pub fn list_value<T: Written>(alloc: Global, items: &[T]) -> Result<Value, AllocError>
    ensures { IfOk result (λ value. view value ≡ list_form T.form items.now) }
{
    let mut values = Vec::new(alloc);
    for item in items {
        let value = item.value(alloc)?;
        values.push(value)?;
    }
    Ok(Value::Array(values))
}

/// The list of a word and one thing. Fails for want of memory alone.
pub fn worded_one(alloc: Global, word: &str, part: Value) -> Result<Value, AllocError>
    ensures { IfOk result (λ value. view value ≡ worded word.now (view part ∷ [])) }
{
    match String::from_str(alloc, word) {
        Ok(word) => Ok(Value::Array(vec![in alloc; Value::String(word), part]?)),
        Err(no_memory) => {
            drop(part);
            Err(no_memory)
        }
    }
}

/// The list of a word and two things. Fails for want of memory alone.
pub fn worded_two(
    alloc: Global,
    word: &str,
    first: Value,
    second: Value,
) -> Result<Value, AllocError>
    ensures { IfOk result (λ value. view value ≡ worded word.now (view first ∷ view second ∷ [])) }
{
    match String::from_str(alloc, word) {
        Ok(word) => Ok(Value::Array(vec![in alloc; Value::String(word), first, second]?)),
        Err(no_memory) => {
            drop((first, second));
            Err(no_memory)
        }
    }
}

/// The list of a word and two things, where both could be made. Fails for want of memory alone.
pub(crate) fn worded_both(
    alloc: Global,
    word: &str,
    first: Result<Value, AllocError>,
    second: Result<Value, AllocError>,
) -> Result<Value, AllocError>
    ensures { (a b : Data) → IfOk first (λ value. view value ≡ a) → IfOk second (λ value. view value ≡ b)
        → IfOk result (λ value. view value ≡ worded word.now (a ∷ b ∷ [])) }
{
    match first {
        Ok(first) => match second {
            Ok(second) => worded_two(alloc, word, first, second),
            Err(no_memory) => {
                drop(first);
                Err(no_memory)
            }
        },
        Err(no_memory) => {
            drop(second);
            Err(no_memory)
        }
    }
}
