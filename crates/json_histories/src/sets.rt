//! How a set is spelled.

ghost use Rattle.std.specs.Prelude.{codes};
ghost use Rattle.json_histories.specs.SetForm as set;
ghost use Rattle.json_histories.specs.Laws.SetForm as laws;
ghost use Rattle.json_histories.specs.Laws.Call.{no_start_is_spelling};

use crate::lone::is_done;
use crate::spelled::Spelled;
use crate::words::first_number;
use model_objects::{AddRemoveSet, SetCall, SetRet};
use serde_json::Value;
use std::alloc::AllocError;

impl Spelled for AddRemoveSet {
    ghost plain_name = { codes "set" };

    ghost keyed_name = { codes "sets" };

    ghost word_of = { set.word_of };

    ghost arguments = { set.arguments };

    ghost ret_form = { set.ret_form };

    ghost call_at = { set.call_at };

    ghost ret_at = { set.ret_at };

    ghost is_spelling = { laws.is_spelling };

    ghost is_start_spelling = { no_start_is_spelling };

    fn plain_name() -> &'static str {
        "set"
    }

    fn keyed_name() -> &'static str {
        "sets"
    }

    fn word(call: &SetCall) -> &'static str {
        match call {
            SetCall::Add(_) => "add",
            SetCall::Remove(_) => "rem",
            SetCall::Has(_) => "has",
        }
    }

    fn read_call<'a>(word: &str, values: &'a [Value]) -> Option<(SetCall, &'a [Value])> {
        let (element, rest) = first_number(values)?;
        match word {
            "add" => Some((SetCall::Add(element), rest)),
            "rem" => Some((SetCall::Remove(element), rest)),
            "has" => Some((SetCall::Has(element), rest)),
            _ => None,
        }
    }

    fn read_ret(call: &SetCall, values: &[Value]) -> Option<SetRet> {
        match (call, values) {
            (SetCall::Add(_) | SetCall::Remove(_), []) => Some(SetRet::Done),
            (SetCall::Has(_), [value]) => value.as_bool().map(SetRet::Has),
            _ => None,
        }
    }

    fn read_ret_alone(value: &Value) -> Option<SetRet> {
        if is_done(value) {
            return Some(SetRet::Done);
        }
        let there = value.as_bool()?;
        Some(SetRet::Has(there))
    }

    fn push_arguments(call: &SetCall, values: &mut Vec<Value>) -> Result<(), AllocError> {
        let (SetCall::Add(element) | SetCall::Remove(element) | SetCall::Has(element)) = call;
        values.push(Value::from(*element))?;
        Ok(())
    }

    fn push_ret(ret: &SetRet, values: &mut Vec<Value>) -> Result<(), AllocError> {
        match ret {
            SetRet::Done => Ok(()),
            SetRet::Has(there) => Ok(values.push(Value::Bool(*there))?),
        }
    }
}
