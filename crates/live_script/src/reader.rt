//! Reading a script from its JSON text.

ghost use Rattle.std.specs.Prelude.{◌≡◌, map, IfOk, IfErr, MatchResult};
ghost use Rattle.serde_json.specs.View.{view};
ghost use Rattle.json_histories.specs.AnyForm.{IsJson};
ghost use Rattle.json_histories.specs.ObjectNames.{text_of};
ghost use Rattle.live_script.specs.AnyScriptForm.{IsRefusalBy, IsRefusedFor};
ghost use Rattle.live_script.specs.ScriptForm.{IsNumberOfSessions, Parts, parts_form};
ghost use Rattle.live_script.specs.Shortened.{IsKeptFrom};
ghost use Rattle.live_script.specs.Steps.ScriptsRead.{IsAnyKept, rest_seen};

use crate::any_script::AnyScript;
use crate::reading_script::script_of;
use crate::script_error::ScriptError;
use crate::script_parts::script_parts;
use crate::script_place::ScriptPlace;
use json_bounded::{TextError, read_bounded};
use json_histories::{ObjectName, object_named};
use model_history::MAX_SESSIONS;
use serde_json::Value;
use std::alloc::Global;

/// The script whose form the text is, as JSON: `[name, k, steps]`, or `[name, k, steps, start]`.
///
/// Of a certificate in a step it keeps what [`next_certificate`](evidence::next_certificate) keeps: all of one that may have
/// the shape of a history.
///
/// A refusal is the first in the order of reading. `NotJson` where `serde_json` refuses the text; `BadShape` where its value is no list of
/// a text, a whole number and a list, and perhaps one more list; `UnknownObject` where no object has the name; `BadLimits` where there are
/// no sessions or more than 16; then step by step `BadStep` with the place of a step that has no form, and `TooManySteps` where the steps
/// up to here expand to more than 65,536; and `BadInitial` where the value after the steps is no start. `Memory` only where an
/// allocation was refused.
///
/// O(n) for a text of n bytes, which it goes through twice: first for all but the steps, then for the steps. Of what no script has, the
/// counts of a start alone take memory, 2 bytes each.
pub fn read_script(alloc: Global, text: &[u8]) -> Result<AnyScript, ScriptError>
    ensures read { IfOk result (IsKeptFrom text.now) }
    ensures refused { IfErr result (IsRefusedFor text.now) }
{
    let value = match read_bounded(alloc, text, ScriptPlace::Whole) {
        Ok(value) => value,
        Err(TextError::NotJson) => return Err(ScriptError::NotJson),
        Err(TextError::Memory) => return Err(ScriptError::Memory),
    };
    let Some((name, sessions, _, rest)) = script_parts(&value) else {
        return Err(ScriptError::BadShape);
    };
    let Some(name) = object_named(name) else {
        return Err(ScriptError::UnknownObject);
    };
    if sessions == 0 || sessions > MAX_SESSIONS as u64 {
        return Err(ScriptError::BadLimits);
    }
    read_named(alloc, name, sessions, text, rest)
}

/// The script of the object with this name, for so many sessions, from the steps in the text and the values after them.
fn read_named(
    alloc: Global,
    name: ObjectName,
    sessions: u64,
    text: &[u8],
    rest: &[Value],
) -> Result<AnyScript, ScriptError>
    requires { IsNumberOfSessions sessions }
    ensures { (p : Parts) → IsJson text.now (parts_form p) → p.name ≡ text_of name → p.sessions ≡ sessions
        → map view rest.now ≡ rest_seen p.rest → MatchResult result (IsAnyKept p) (IsRefusalBy name sessions p.steps p.rest) }
{
    match name {
        ObjectName::Register => Ok(AnyScript::Register(script_of(alloc, sessions, text, rest)?)),
        ObjectName::Counter => Ok(AnyScript::Counter(script_of(alloc, sessions, text, rest)?)),
        ObjectName::Set => Ok(AnyScript::Set(script_of(alloc, sessions, text, rest)?)),
        ObjectName::Queue => Ok(AnyScript::Queue(script_of(alloc, sessions, text, rest)?)),
        ObjectName::Memory => Ok(AnyScript::Memory(script_of(alloc, sessions, text, rest)?)),
        ObjectName::Counters => Ok(AnyScript::Counters(script_of(alloc, sessions, text, rest)?)),
        ObjectName::Sets => Ok(AnyScript::Sets(script_of(alloc, sessions, text, rest)?)),
        ObjectName::Queues => Ok(AnyScript::Queues(script_of(alloc, sessions, text, rest)?)),
    }
}
