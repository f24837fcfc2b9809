//! Reading and writing the JSON text of a history.

ghost use Rattle.std.specs.Prelude.{◌≡◌, ◌∷◌, map, IfOk, IfErr, OnOk, MatchResult, string_bytes};
ghost use Rattle.serde_json.specs.Data.{string};
ghost use Rattle.serde_json.specs.View.{view};
ghost use Rattle.serde_json.specs.Written.{compact_text};
ghost use Rattle.json_histories.specs.AnyForm.{form_of, first_refusal, refusal_of_object, IsAnyHistory, IsJson, IsReadAs, IsRefusedFor};
ghost use Rattle.json_histories.specs.Json.{list};
ghost use Rattle.json_histories.specs.ObjectNames.{text_of};
ghost use Rattle.json_histories.specs.Refusals.{IsFirst};

use crate::any_history::AnyHistory;
use crate::history_place::HistoryPlace;
use crate::object_name::{ObjectName, object_named};
use crate::parts::parts_of;
use crate::plain_history::PlainHistory;
use crate::read_error::ReadError;
use crate::reading::read_parts;
use crate::writing::write_parts;
use json_bounded::{TextError, read_bounded};
use serde_json::Value;
use std::alloc::{AllocError, Global};

/// The history of the object with this name, from the forms of its sessions and the values after them.
fn read_named(
    alloc: Global,
    name: ObjectName,
    sessions: &[Value],
    rest: &[Value],
) -> Result<AnyHistory, ReadError>
    ensures { IsReadAs (list (string (text_of name) ∷ list (map view sessions.now) ∷ map view rest.now))
        (refusal_of_object name (map view sessions.now) (map view rest.now)) result }
{
    match name {
        ObjectName::Register => {
            let history = read_parts(alloc, sessions, rest)?;
            Ok(AnyHistory::Register(PlainHistory::of(history)))
        }
        ObjectName::Counter => {
            let history = read_parts(alloc, sessions, rest)?;
            Ok(AnyHistory::Counter(PlainHistory::of(history)))
        }
        ObjectName::Set => {
            let history = read_parts(alloc, sessions, rest)?;
            Ok(AnyHistory::Set(PlainHistory::of(history)))
        }
        ObjectName::Queue => {
            let history = read_parts(alloc, sessions, rest)?;
            Ok(AnyHistory::Queue(PlainHistory::of(history)))
        }
        ObjectName::Memory => Ok(AnyHistory::Memory(read_parts(alloc, sessions, rest)?)),
        ObjectName::Counters => Ok(AnyHistory::Counters(read_parts(alloc, sessions, rest)?)),
        ObjectName::Sets => Ok(AnyHistory::Sets(read_parts(alloc, sessions, rest)?)),
        ObjectName::Queues => Ok(AnyHistory::Queues(read_parts(alloc, sessions, rest)?)),
    }
}

/// The history whose form the value is.
///
/// A refusal is the first in the order of reading: the shape of the whole, the name, the number of sessions, each
/// session in order, and last the start. O(n) for n operations.
pub fn history_of(alloc: Global, value: &Value) -> Result<AnyHistory, ReadError>
    ensures is_history { IfOk result IsAnyHistory }
    ensures form { IfOk result (λ h. view value.now ≡ form_of h) }

    // The form of a history is read as that history, unless memory runs out.
    ensures only { (h : AnyHistory) → IsAnyHistory h → view value.now ≡ form_of h
        → MatchResult result (λ g. g ≡ h) (λ e. e ≡ ReadError.Memory) }
    ensures refused { IfErr result (IsFirst (first_refusal (view value.now))) }
{
    let Some((name, sessions, rest)) = parts_of(value) else {
        return Err(ReadError::BadShape);
    };
    let Some(name) = object_named(name) else {
        return Err(ReadError::UnknownObject);
    };
    read_named(alloc, name, sessions, rest)
}

/// The history whose form the text is, as JSON.
///
/// `NotJson` where `serde_json` refuses the text, else the first refusal of its value in the order of reading. `Memory`
/// only where an allocation was refused. O(n) for a text of n bytes, and what no history has takes no memory.
pub fn read_history(alloc: Global, text: &[u8]) -> Result<AnyHistory, ReadError>
    ensures is_history { IfOk result IsAnyHistory }
    ensures form { IfOk result (λ h. IsJson text.now (form_of h)) }

    // A text of the form of a history is read as that history, unless memory runs out.
    ensures only { (h : AnyHistory) → IsAnyHistory h → IsJson text.now (form_of h)
        → MatchResult result (λ g. g ≡ h) (λ e. e ≡ ReadError.Memory) }
    ensures refused { IfErr result (IsRefusedFor text.now) }
{
    match read_bounded(alloc, text, HistoryPlace::Whole) {
        Ok(value) => history_of(alloc, &value),
        Err(TextError::NotJson) => Err(ReadError::NotJson),
        Err(TextError::Memory) => Err(ReadError::Memory),
    }
}

/// The form of a history, as a JSON value. O(n) for n operations.
pub fn value_of(alloc: Global, history: &AnyHistory) -> Result<Value, AllocError>
    ensures form { IfOk result (λ v. view v ≡ form_of history.now) }
    ensures is_history { OnOk result (IsAnyHistory history.now) }
{
    match history {
        AnyHistory::Register(plain) => write_parts(alloc, plain.history()),
        AnyHistory::Counter(plain) => write_parts(alloc, plain.history()),
        AnyHistory::Set(plain) => write_parts(alloc, plain.history()),
        AnyHistory::Queue(plain) => write_parts(alloc, plain.history()),
        AnyHistory::Memory(history) => write_parts(alloc, history),
        AnyHistory::Counters(history) => write_parts(alloc, history),
        AnyHistory::Sets(history) => write_parts(alloc, history),
        AnyHistory::Queues(history) => write_parts(alloc, history),
    }
}

/// The form of a history as compact JSON text, which is read back as that history. O(n) for n operations.
pub fn write_history(alloc: Global, history: &AnyHistory) -> Result<String, AllocError>
    ensures text { IfOk result (λ text. string_bytes text ≡ compact_text (form_of history.now)) }
    ensures json { IfOk result (λ text. IsJson (string_bytes text) (form_of history.now)) }
    ensures is_history { OnOk result (IsAnyHistory history.now) }
{
    value_of(alloc, history)?.to_string(alloc)
}
