//! The JSON form of the histories of an object without keys.

ghost use Rattle.std.specs.Prelude.{◌≡◌, IfOk};
ghost use Rattle.serde_json.specs.View.{view};
ghost use Rattle.json_histories.specs.LoneForm.{lone_return_form, plain_call_form};
ghost use Rattle.json_histories.specs.Laws.PlainForm.{plain_read, plain_again, plain_has_no_float};
ghost use Rattle.json_histories.specs.Laws.PlainForm.{plain_start_read, plain_start_again, plain_start_has_no_float};
ghost use Rattle.json_histories.specs.Spelling.{plain_form, plain_at, plain_start_form, plain_start_at};

use crate::named::Named;
use crate::spelled::Spelled;
use crate::words::{word_alone, word_and_rest};
use serde_json::Value;
use std::alloc::{AllocError, Global};

impl<O: Spelled> Named for O {
    ghost name = { O.plain_name };

    ghost operation_form = { plain_form O.word_of O.arguments O.ret_form };

    ghost call_form = { plain_call_form O.word_of O.arguments };

    ghost return_form = { lone_return_form O.ret_form };

    ghost operation_at = { plain_at O.call_at O.ret_at };

    ghost start_form = { plain_start_form };

    ghost start_at = { plain_start_at O.plain_start };

    ghost is_call = { λ _. Unit {0} };

    ghost has_form = { λ start. start ≡ O.plain_start };

    ghost operation_read = { plain_read O.is_spelling };

    ghost operation_is_call = { λ _ _ _ _. tt };

    ghost operation_again = { plain_again O.is_spelling };

    ghost start_read = { plain_start_read O.plain_start O.is_start O.plain_is_start };

    ghost start_again = { plain_start_again O.plain_start O.is_start };

    ghost operation_has_no_float = { plain_has_no_float O.is_spelling };

    ghost start_has_no_float = { plain_start_has_no_float };

    fn name() -> &'static str {
        O::plain_name()
    }

    fn read_operation(value: &Value) -> Option<(O::Call, Option<O::Ret>)> {
        let (word, rest) = word_and_rest(value)?;
        O::read_spelled(word, rest)
    }

    fn read_lone_call(value: &Value) -> Option<O::Call> {
        let Some((word, rest)) = word_and_rest(value) else {
            return None;
        };
        O::read_whole_call(word, rest)
    }

    fn read_lone_return(value: &Value) -> Option<O::Ret> {
        O::read_ret_alone(value)
    }

    fn write_operation(
        alloc: Global,
        call: O::Call,
        ret: Option<O::Ret>,
    ) -> Result<Value, AllocError>
        ensures form { IfOk result (λ v. view v ≡ plain_form O.word_of O.arguments O.ret_form call ret) }
        ensures numbers { Unit {0} }
    {
        let values = word_alone(alloc, O::word(&call))?;
        Ok(Value::from(O::with_rest(alloc, &call, &ret, values)?))
    }

    fn read_start(alloc: Global, rest: &[Value]) -> Result<Option<O::Start>, AllocError> {
        match rest {
            [] => Ok(Some(O::plain(alloc)?)),
            _ => Ok(None),
        }
    }

    fn write_start(_alloc: Global, _start: &O::Start) -> Result<Option<Value>, AllocError> {
        Ok(None)
    }
}
