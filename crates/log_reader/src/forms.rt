//! Events in their JSON forms.

ghost use Rattle.std.specs.Prelude.{◌≡◌, [], ◌∷◌, option_map};
ghost use Rattle.serde_json.specs.View.{view};
ghost use Rattle.log_reader.specs.Forms.{answer_at, call_at, call_in, is_word as is_that_word, said_at as said_by, said_in};
ghost use Rattle.log_reader.specs.Forms.{called_in, is_unanswered as is_word_unanswered, ordered_in, unanswered_in};
ghost use Rattle.log_reader.specs.Steps.{call_view, ending_view, said_view};

use crate::name_value::{name_of, value_name_of};
use crate::said::{Said, SaidCall, SaidEnding};
use json_histories::elements_of;
use serde_json::Value;

fn is_word(word: &str, value: &Value) -> bool
    ensures { result ≡ is_that_word word.now (view value.now) }
{
    match value {
        Value::String(text) => text.as_str() == word,
        _ => false,
    }
}

// The call of a word and a key.
fn call_of_key<'a>(word: &Value, key: &'a Value) -> Option<SaidCall<'a>>
    ensures { option_map call_view result ≡ call_in (view word.now ∷ view key.now ∷ []) }
{
    if is_word("r", word) {
        Some(SaidCall::Read(name_of(key)?))
    } else if is_word("d", word) {
        Some(SaidCall::Delete(name_of(key)?))
    } else {
        None
    }
}

// The call of a word, a key and a value.
fn call_of_value<'a>(word: &Value, key: &'a Value, value: &'a Value) -> Option<SaidCall<'a>>
    ensures { option_map call_view result ≡ call_in (view word.now ∷ view key.now ∷ view value.now ∷ []) }
{
    if is_word("w", word) {
        Some(SaidCall::Write(name_of(key)?, value_name_of(value)?))
    } else {
        None
    }
}

fn call_of(value: &Value) -> Option<SaidCall<'_>>
    ensures { option_map call_view result ≡ call_at (view value.now) }
{
    match elements_of(value)? {
        [word, key] => call_of_key(word, key),
        [word, key, value] => call_of_value(word, key, value),
        _ => None,
    }
}

fn answer_of(value: &Value) -> Option<SaidEnding<'_>>
    ensures { option_map ending_view result ≡ answer_at (view value.now) }
{
    match value {
        Value::Null => Some(SaidEnding::Nothing),
        _ => Some(SaidEnding::Answer(value_name_of(value)?)),
    }
}

// Whether it is the word of a call that ends without an answer.
fn is_unanswered(word: &Value) -> bool
    ensures { result ≡ is_word_unanswered (view word.now) }
{
    is_word("fail", word) || is_word("lost", word)
}

// The end of a call without an answer.
fn unanswered_of<'a>(word: &Value, client: &'a Value) -> Option<Said<'a>>
    ensures { option_map said_view result ≡ unanswered_in (view word.now) (view client.now) }
{
    if is_word("fail", word) {
        Some(Said::End(name_of(client)?, SaidEnding::Failed))
    } else if is_word("lost", word) {
        Some(Said::End(name_of(client)?, SaidEnding::Lost))
    } else {
        None
    }
}

// The begin of a call, or its end with an answer.
fn called_of<'a>(word: &Value, client: &'a Value, more: &'a Value) -> Option<Said<'a>>
    ensures { option_map said_view result ≡ called_in (view word.now) (view client.now) (view more.now) }
{
    if is_word("begin", word) {
        Some(Said::Begin(name_of(client)?, call_of(more)?))
    } else if is_word("end", word) {
        Some(Said::End(name_of(client)?, answer_of(more)?))
    } else {
        None
    }
}

// The order of time.
fn order_of(order: &Value) -> Option<Said<'_>>
    ensures { option_map said_view result ≡ ordered_in (view order.now) }
{
    if is_word("time", order) {
        Some(Said::Ordered)
    } else {
        None
    }
}

// What a word and one more element say.
fn said_of_one<'a>(word: &Value, first: &'a Value) -> Option<Said<'a>>
    ensures { option_map said_view result ≡ said_in (view word.now ∷ view first.now ∷ []) }
{
    if is_word("order", word) {
        order_of(first)
    } else {
        unanswered_of(word, first)
    }
}

// The event of a word and two more elements, of which the second may be a note.
fn said_of_both<'a>(word: &Value, first: &'a Value, second: &'a Value) -> Option<Said<'a>>
    ensures { option_map said_view result ≡ said_in (view word.now ∷ view first.now ∷ view second.now ∷ []) }
{
    if is_word("start", word) {
        Some(Said::Start(name_of(first)?, value_name_of(second)?))
    } else if is_unanswered(word) {
        unanswered_of(word, first)
    } else {
        called_of(word, first, second)
    }
}

/// The event that a JSON value says. O(1).
pub(crate) fn said_at(value: &Value) -> Option<Said<'_>>
    ensures { option_map said_view result ≡ said_by (view value.now) }
{
    match elements_of(value)? {
        [word, first] => said_of_one(word, first),
        [word, first, second] => said_of_both(word, first, second),
        [word, client, more, _] => called_of(word, client, more),
        _ => None,
    }
}

/// The note of an event, and whether the event is the end of a call. No contract says which note it is.
pub(crate) fn note_of(value: &Value) -> Option<(&Value, bool)> {
    match elements_of(value)? {
        [word, _, note] if is_unanswered(word) => Some((note, true)),
        [word, _, _, note] => Some((note, !is_word("begin", word))),
        _ => None,
    }
}
