//! How a queue is spelled.

ghost use Rattle.std.specs.Prelude.{◌≡◌, codes};
ghost use Rattle.serde_json.specs.View.{view};
ghost use Rattle.json_histories.specs.QueueForm.{popped_at};
ghost use Rattle.json_histories.specs.QueueForm as queue;
ghost use Rattle.json_histories.specs.Laws.QueueForm as laws;
ghost use Rattle.json_histories.specs.Laws.Call.{no_start_is_spelling};

use crate::lone::is_done;
use crate::spelled::Spelled;
use crate::words::first_number;
use model_objects::{Queue, QueueCall, QueueRet};
use serde_json::Value;
use std::alloc::AllocError;

/// What was popped: null for nothing.
fn popped(value: &Value) -> Option<QueueRet>
    ensures { result ≡ popped_at (view value.now) }
{
    if value.is_null() {
        Some(QueueRet::Popped(None))
    } else {
        Some(QueueRet::Popped(Some(value.as_u64()?)))
    }
}

impl Spelled for Queue {
    ghost plain_name = { codes "queue" };

    ghost keyed_name = { codes "queues" };

    ghost word_of = { queue.word_of };

    ghost arguments = { queue.arguments };

    ghost ret_form = { queue.ret_form };

    ghost call_at = { queue.call_at };

    ghost ret_at = { queue.ret_at };

    ghost is_spelling = { laws.is_spelling };

    ghost is_start_spelling = { no_start_is_spelling };

    fn plain_name() -> &'static str {
        "queue"
    }

    fn keyed_name() -> &'static str {
        "queues"
    }

    fn word(call: &QueueCall) -> &'static str {
        match call {
            QueueCall::Push(_) => "push",
            QueueCall::Pop => "pop",
        }
    }

    fn read_call<'a>(word: &str, values: &'a [Value]) -> Option<(QueueCall, &'a [Value])> {
        if word == "push" {
            let (item, rest) = first_number(values)?;
            Some((QueueCall::Push(item), rest))
        } else if word == "pop" {
            Some((QueueCall::Pop, values))
        } else {
            None
        }
    }

    fn read_ret(call: &QueueCall, values: &[Value]) -> Option<QueueRet> {
        match (call, values) {
            (QueueCall::Push(_), []) => Some(QueueRet::Done),
            (QueueCall::Pop, [value]) => popped(value),
            _ => None,
        }
    }

    fn read_ret_alone(value: &Value) -> Option<QueueRet> {
        if is_done(value) {
            return Some(QueueRet::Done);
        }
        popped(value)
    }

    fn push_arguments(call: &QueueCall, values: &mut Vec<Value>) -> Result<(), AllocError> {
        match call {
            QueueCall::Push(item) => Ok(values.push(Value::from(*item))?),
            QueueCall::Pop => Ok(()),
        }
    }

    fn push_ret(ret: &QueueRet, values: &mut Vec<Value>) -> Result<(), AllocError> {
        match ret {
            QueueRet::Done => Ok(()),
            QueueRet::Popped(None) => Ok(values.push(Value::Null)?),
            QueueRet::Popped(Some(item)) => Ok(values.push(Value::from(*item))?),
        }
    }
}
