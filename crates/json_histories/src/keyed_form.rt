//! The JSON form of the histories of an object under keys.

ghost use Rattle.std.specs.Prelude.{◌≡◌, ◌<◌, ◌^◌, [], ◌∷◌, map, option_map, IfOk};
ghost use Rattle.serde_json.specs.View.{view};
ghost use Rattle.json_histories.specs.Json.{elements};
ghost use Rattle.json_histories.specs.Spelling.{keyed_form, keyed_at, table_elements, table_form, table_at};
ghost use Rattle.json_histories.specs.Laws.KeyedForm.{keyed_read, keyed_is_call, keyed_again, keyed_has_no_float};
ghost use Rattle.json_histories.specs.LoneForm.{keyed_call_form, lone_return_form};
ghost use Rattle.json_histories.specs.Laws.TableForm.{table_read, table_again, table_has_no_float};

use crate::json::elements_of;
use crate::keys::{keyed_parts, word_and_key};
use crate::named::Named;
use crate::spelled::Spelled;
use crate::spelled_start::SpelledStart;
use model_objects::{Keyed, KeyedCall, MAX_ENTRIES, Table};
use serde_json::Value;
use std::alloc::{AllocError, Global};

/// The elements of a table's form: 1 to 4,096.
fn elements_of_table(value: &Value) -> Option<&[Value]>
    ensures { option_map (λ vs. map view vs.now) result ≡ table_elements (view value.now) }
{
    let values = elements_of(value)?;
    if 0 < values.len() && values.len() <= MAX_ENTRIES {
        Some(values)
    } else {
        None
    }
}

impl<O: Spelled> Named for Keyed<O> {
    ghost name = { O.keyed_name };

    ghost operation_form = { keyed_form O.word_of O.arguments O.ret_form };

    ghost call_form = { keyed_call_form O.word_of O.arguments };

    ghost return_form = { lone_return_form O.ret_form };

    ghost operation_at = { keyed_at O.call_at O.ret_at };

    ghost start_form = { table_form O.Start.start_form };

    ghost start_at = { table_at O.Start.start_at };

    ghost is_call = { λ c. c.key < 2 ^ 32 };

    ghost has_form = { λ _. Unit {0} };

    ghost operation_read = { keyed_read O.is_spelling };

    ghost operation_is_call = { keyed_is_call O.call_at O.ret_at };

    ghost operation_again = { keyed_again O.is_spelling };

    ghost start_read = { table_read O.plain_start O.is_start O.Start.start_form O.Start.start_at O.is_start_spelling.start_read };

    ghost start_again = { table_again O.plain_start O.is_start O.Start.start_form O.Start.start_at O.is_start_spelling.start_again };

    ghost operation_has_no_float = { keyed_has_no_float O.is_spelling };

    ghost start_has_no_float = { table_has_no_float O.Start.start_form O.is_start_spelling.start_has_no_float };

    fn name() -> &'static str {
        O::keyed_name()
    }

    fn read_operation(value: &Value) -> Option<(KeyedCall<O::Call>, Option<O::Ret>)> {
        let (word, key, rest) = keyed_parts(value)?;
        let (call, ret) = O::read_spelled(word, rest)?;
        Some((KeyedCall { key, call }, ret))
    }

    fn read_lone_call(value: &Value) -> Option<KeyedCall<O::Call>> {
        let Some((word, key, rest)) = keyed_parts(value) else {
            return None;
        };
        let Some(call) = O::read_whole_call(word, rest) else {
            return None;
        };
        Some(KeyedCall { key, call })
    }

    fn read_lone_return(value: &Value) -> Option<O::Ret> {
        O::read_ret_alone(value)
    }

    fn write_operation(
        alloc: Global,
        call: KeyedCall<O::Call>,
        ret: Option<O::Ret>,
    ) -> Result<Value, AllocError>
        ensures form { IfOk result (λ v. view v ≡ keyed_form O.word_of O.arguments O.ret_form call ret) }
        ensures numbers { call.key < 2 ^ 32 }
    {
        let values = word_and_key(alloc, O::word(&call.call), call.key)?;
        Ok(Value::from(O::with_rest(alloc, &call.call, &ret, values)?))
    }

    fn read_start(alloc: Global, rest: &[Value]) -> Result<Option<Table<O::Start>>, AllocError> {
        match rest {
            [] => Ok(Some(Table::new(alloc))),
            [value] => match elements_of_table(value) {
                Some(values) => <O::Start as SpelledStart>::read_entries(alloc, values),
                None => Ok(None),
            },
            _ => Ok(None),
        }
    }

    fn write_start(alloc: Global, start: &Table<O::Start>) -> Result<Option<Value>, AllocError> {
        if start.is_empty() {
            return Ok(None);
        }
        let values = <O::Start as SpelledStart>::write_entries(alloc, start.entries())?;
        Ok(Some(Value::from(values)))
    }
}
