//! Writing a history of a named object as a JSON value.

ghost use Rattle.std.specs.Prelude.{◌≡◌, ◌<◌, ◌≤◌, ◌++◌, length, map, option_to_list, IfOk, OnOk};
ghost use Rattle.serde_json.specs.View.{view};
ghost use Rattle.json_histories.specs.Form.{history_form, session_form, AreCalls, AreSessions, EachCall};
ghost use Rattle.model_history.specs.History.{session, IsHistory};
ghost use Rattle.json_histories.specs.Json.{list};

use crate::named::Named;
use crate::words::word_alone;
use model_history::{History, MAX_SESSIONS};
use serde_json::Value;
use std::alloc::{AllocError, Global};

/// The form of a session.
fn write_session<O: Named>(
    alloc: Global,
    entries: &[(O::Call, Option<O::Ret>)],
) -> Result<Value, AllocError>
    ensures form { IfOk result (λ v. view v ≡ session_form O.operation_form entries.now) }
    ensures calls { OnOk result (AreCalls O.is_call entries.now) }
{
    let mut values = Vec::new(alloc);
    for entry in entries {
        let value = O::write_operation(alloc, entry.0, entry.1)?;
        values.push(value)?;
    }
    Ok(Value::Array(values))
}

/// The form of all sessions.
fn write_sessions<O: Named>(alloc: Global, history: &History<O>) -> Result<Value, AllocError>
    ensures form { IfOk result (λ v. view v ≡ list (map (session_form O.operation_form) history.now.1)) }
    ensures few { OnOk result (length history.now.1 ≤ MAX_SESSIONS) }
    ensures sessions { OnOk result (AreSessions O.matches history.now.1) }
    ensures calls { OnOk result (EachCall O.is_call history.now.1) }
{
    let mut values = Vec::new(alloc);
    for s in 0..history.sessions() {
        let value = write_session::<O>(alloc, history.session(s))?;
        values.push(value)?;
    }
    Ok(Value::Array(values))
}

/// Appends the form of a start, where there is one.
fn push_start(values: &mut Vec<Value>, start: Option<Value>) -> Result<(), AllocError>
    ensures { IfOk result (λ _. map view values.new.items
        ≡ map view values.old.items ++ map view (option_to_list start)) }
{
    match start {
        Some(value) => Ok(values.push(value)?),
        None => Ok(()),
    }
}

/// The form of a history.
///
/// The function visits each part of the history, so its contract says what the type of each part guarantees. O(n) for n operations.
pub fn write_parts<O: Named>(alloc: Global, history: &History<O>) -> Result<Value, AllocError>
    ensures form { IfOk result (λ v. view v ≡ history_form O.name O.operation_form O.start_form history.now) }
    ensures is_history { OnOk result (IsHistory O.is_start O.matches history.now) }
    ensures calls { OnOk result (EachCall O.is_call history.now.1) }
{
    let mut values = word_alone(alloc, O::name())?;
    values.push(write_sessions::<O>(alloc, history)?)?;
    push_start(&mut values, O::write_start(alloc, history.start())?)?;
    Ok(Value::Array(values))
}
