//! How a counter is spelled.

ghost use Rattle.std.specs.Prelude.{codes};
ghost use Rattle.json_histories.specs.CounterForm as counter;
ghost use Rattle.json_histories.specs.Laws.CounterForm as laws;
ghost use Rattle.json_histories.specs.Laws.Call.{no_start_is_spelling};

use crate::lone::is_done;
use crate::spelled::Spelled;
use model_objects::{Counter, CounterCall, CounterRet};
use serde_json::Value;
use std::alloc::AllocError;

impl Spelled for Counter {
    ghost plain_name = { codes "counter" };

    ghost keyed_name = { codes "counters" };

    ghost word_of = { counter.word_of };

    ghost arguments = { counter.arguments };

    ghost ret_form = { counter.ret_form };

    ghost call_at = { counter.call_at };

    ghost ret_at = { counter.ret_at };

    ghost is_spelling = { laws.is_spelling };

    ghost is_start_spelling = { no_start_is_spelling };

    fn plain_name() -> &'static str {
        "counter"
    }

    fn keyed_name() -> &'static str {
        "counters"
    }

    fn word(call: &CounterCall) -> &'static str {
        match call {
            CounterCall::Increment => "inc",
            CounterCall::Get => "get",
        }
    }

    fn read_call<'a>(word: &str, values: &'a [Value]) -> Option<(CounterCall, &'a [Value])> {
        if word == "inc" {
            Some((CounterCall::Increment, values))
        } else if word == "get" {
            Some((CounterCall::Get, values))
        } else {
            None
        }
    }

    fn read_ret(call: &CounterCall, values: &[Value]) -> Option<CounterRet> {
        match (call, values) {
            (CounterCall::Increment, []) => Some(CounterRet::Done),
            (CounterCall::Get, [value]) => value.as_u64().map(CounterRet::Value),
            _ => None,
        }
    }

    fn read_ret_alone(value: &Value) -> Option<CounterRet> {
        if is_done(value) {
            return Some(CounterRet::Done);
        }
        let value = value.as_u64()?;
        Some(CounterRet::Value(value))
    }

    fn push_arguments(_call: &CounterCall, _values: &mut Vec<Value>) -> Result<(), AllocError> {
        Ok(())
    }

    fn push_ret(ret: &CounterRet, values: &mut Vec<Value>) -> Result<(), AllocError> {
        match ret {
            CounterRet::Done => Ok(()),
            CounterRet::Value(value) => Ok(values.push(Value::from(*value))?),
        }
    }
}
