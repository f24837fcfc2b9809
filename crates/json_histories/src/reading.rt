//! Reading a history of a named object from a JSON value.

ghost use Rattle.std.specs.Prelude.{◌≡◌, ◌<◌, ◌≤◌, ◌^◌, ℕ, List, Option, map, length, Some, None, vec_len, OnOk, IfOk, IfErr, MatchResult};
ghost use Rattle.serde_json.specs.View.{view};
ghost use Rattle.json_histories.specs.Form.{IsReadFrom, AreSessions, EachCall, ReadAs, session_at, session_form};
ghost use Rattle.json_histories.specs.Reading.{first_among, operation_refusal, operations_refusal, sessions_refusal, named_refusal};
ghost use Rattle.model_history.specs.History.{IsHistory, IsSession, HistoryValue};
ghost use Rattle.json_histories.specs.Json.{elements};
ghost use Rattle.json_histories.specs.Refusals.{IsFirst};

use crate::json::elements_of;
use crate::named::Named;
use crate::read_error::ReadError;
use model_history::{History, MAX_OPERATIONS, MAX_SESSIONS, OpId};
use serde_json::Value;
use std::alloc::Global;

/// The operations of the session numbered `s`, from the elements of its form.
fn read_operations<O: Named>(
    alloc: Global,
    s: usize,
    values: &[Value],
) -> Result<Vec<(O::Call, Option<O::Ret>)>, ReadError>
    requires { length values.now ≤ MAX_OPERATIONS }
    ensures read { IfOk result (λ es. IsReadFrom O.operation_at O.matches (map view values.now) es.items) }
    ensures nothing_refused { IfOk result
        (λ _. first_among (length values.now) (operation_refusal O.operation_at s (map view values.now)) ≡ None) }
    ensures refused { IfErr result (IsFirst (first_among (length values.now) (operation_refusal O.operation_at s (map view values.now)))) }
{
    let mut entries = Vec::new(alloc);
    let mut unknown_seen = false;
    for (index, value) in values.iter().enumerate() {
        let op = OpId::at(s, index);
        let Some(entry) = O::read_operation(value) else {
            return Err(ReadError::BadOp(op));
        };
        if entry.1.is_none() {
            unknown_seen = true;
        } else if unknown_seen {
            return Err(ReadError::ReturnAfterUnknown(op));
        }
        entries.push(entry)?;
    }
    Ok(entries)
}

/// The session numbered `s`, from its form.
fn read_session<O: Named>(
    alloc: Global,
    s: usize,
    value: &Value,
) -> Result<Vec<(O::Call, Option<O::Ret>)>, ReadError>
    ensures read { IfOk result (λ es. session_at O.operation_at (view value.now) ≡ Some (map (λ e. Some e) es.items)) }
    ensures is_session { IfOk result (λ es. IsSession O.matches es.items) }
    ensures nothing_refused { OnOk result (operations_refusal O.operation_at s (elements (view value.now)) ≡ None) }
    ensures refused { IfErr result (IsFirst (operations_refusal O.operation_at s (elements (view value.now)))) }
{
    let Some(values) = elements_of(value) else {
        return Err(ReadError::BadShape);
    };
    if values.len() > MAX_OPERATIONS {
        return Err(ReadError::TooManyOps);
    }
    read_operations::<O>(alloc, s, values)
}

/// The sessions, from their forms.
fn read_sessions<O: Named>(
    alloc: Global,
    values: &[Value],
) -> Result<Vec<Vec<(O::Call, Option<O::Ret>)>>, ReadError>
    ensures read { IfOk result (λ ss. ReadAs O.operation_at (map view values.now) (map (λ es. es.items) ss.items)) }
    ensures few { IfOk result (λ ss. vec_len ss ≤ MAX_SESSIONS) }
    ensures are_sessions { IfOk result (λ ss. AreSessions O.matches (map (λ es. es.items) ss.items)) }
    ensures nothing_refused { OnOk result (sessions_refusal O.operation_at (map view values.now) ≡ None) }
    ensures refused { IfErr result (IsFirst (sessions_refusal O.operation_at (map view values.now))) }
{
    if values.len() > MAX_SESSIONS {
        return Err(ReadError::TooManySessions);
    }
    let mut sessions = Vec::new(alloc);
    for (s, value) in values.iter().enumerate() {
        let session = read_session::<O>(alloc, s, value)?;
        sessions.push(session)?;
    }
    Ok(sessions)
}

/// The history of an object, from the forms of its sessions and the values after them.
pub fn read_parts<O: Named>(
    alloc: Global,
    sessions: &[Value],
    rest: &[Value],
) -> Result<History<O>, ReadError>
    ensures sessions { IfOk result (λ h. map view sessions.now ≡ map (session_form O.operation_form) h.1) }
    ensures start { IfOk result (λ h. map view rest.now ≡ O.start_form h.0) }
    ensures has_form { IfOk result (λ h. O.has_form h.0) }
    ensures is_history { IfOk result (λ h. IsHistory O.is_start O.matches h) }
    ensures each_call { IfOk result (λ h. EachCall O.is_call h.1) }

    // The form of a history is read as that history.
    ensures only { (h : HistoryValue O.Start O.Call O.Ret) → IsHistory O.is_start O.matches h → EachCall O.is_call h.1 → O.has_form h.0
        → map view sessions.now ≡ map (session_form O.operation_form) h.1 → map view rest.now ≡ O.start_form h.0
        → MatchResult result (λ g. g ≡ h) (λ e. e ≡ ReadError.Memory) }
    ensures refused { IfErr result
        (IsFirst (named_refusal O.operation_at O.start_at (map view sessions.now) (map view rest.now))) }
{
    let read = read_sessions::<O>(alloc, sessions)?;
    let Some(start) = O::read_start(alloc, rest)? else {
        return Err(ReadError::BadInitial);
    };
    Ok(History::of(start, read))
}
