//! How a register is spelled.

ghost use Rattle.std.specs.Prelude.{codes};
ghost use Rattle.json_histories.specs.RegisterForm as register;
ghost use Rattle.json_histories.specs.Laws.RegisterForm as laws;

use crate::lone::is_done;
use crate::spelled::Spelled;
use crate::words::first_number;
use model_objects::{Register, RegisterCall, RegisterRet};
use serde_json::Value;
use std::alloc::AllocError;

impl Spelled for Register {
    ghost plain_name = { codes "register" };

    ghost keyed_name = { codes "memory" };

    ghost word_of = { register.word_of };

    ghost arguments = { register.arguments };

    ghost ret_form = { register.ret_form };

    ghost call_at = { register.call_at };

    ghost ret_at = { register.ret_at };

    ghost is_spelling = { laws.is_spelling };

    ghost is_start_spelling = { laws.is_start_spelling };

    fn plain_name() -> &'static str {
        "register"
    }

    fn keyed_name() -> &'static str {
        "memory"
    }

    fn word(call: &RegisterCall) -> &'static str {
        match call {
            RegisterCall::Write(_) => "w",
            RegisterCall::Read => "r",
        }
    }

    fn read_call<'a>(word: &str, values: &'a [Value]) -> Option<(RegisterCall, &'a [Value])> {
        match word {
            "w" => {
                let (value, rest) = first_number(values)?;
                Some((RegisterCall::Write(value), rest))
            }
            "r" => Some((RegisterCall::Read, values)),
            _ => None,
        }
    }

    fn read_ret(call: &RegisterCall, values: &[Value]) -> Option<RegisterRet> {
        match (call, values) {
            (RegisterCall::Write(_), []) => Some(RegisterRet::Done),
            (RegisterCall::Read, [value]) => value.as_u64().map(RegisterRet::Value),
            _ => None,
        }
    }

    fn read_ret_alone(value: &Value) -> Option<RegisterRet> {
        if is_done(value) {
            return Some(RegisterRet::Done);
        }
        let value = value.as_u64()?;
        Some(RegisterRet::Value(value))
    }

    fn push_arguments(call: &RegisterCall, values: &mut Vec<Value>) -> Result<(), AllocError> {
        match call {
            RegisterCall::Write(value) => Ok(values.push(Value::from(*value))?),
            RegisterCall::Read => Ok(()),
        }
    }

    fn push_ret(ret: &RegisterRet, values: &mut Vec<Value>) -> Result<(), AllocError> {
        match ret {
            RegisterRet::Done => Ok(()),
            RegisterRet::Value(value) => Ok(values.push(Value::from(*value))?),
        }
    }
}
