//! Reading a script of one object, and making it from its steps and the values after them.

ghost use Rattle.std.specs.Prelude.{◌≡◌, map, MatchResult};
ghost use Rattle.serde_json.specs.View.{view};
ghost use Rattle.json_histories.specs.AnyForm.{IsJson};
ghost use Rattle.live_script.specs.ScriptForm.{IsFew, IsNumberOfSessions, IsRefusalOf, Parts, parts_form};
ghost use Rattle.live_script.specs.Steps.ScriptsRead.{IsKeptScript, rest_seen};
ghost use Rattle.live_script.specs.Steps.StepsTaken.{AreSteps};

use crate::script::Script;
use crate::script_error::ScriptError;
use crate::script_steps::read_steps;
use crate::scripted::Scripted;
use crate::written_step::WrittenStep;
use serde_json::Value;
use std::alloc::Global;

/// The script of an object for so many sessions, from the steps in the text and the values after them.
///
/// Call it on a text that has the parts of a script, and so many sessions: of other texts it promises nothing. The refusals are those of
/// [`read_steps`], and then `BadInitial` where the values after the steps give no start. O(n) for n bytes and values.
pub(crate) fn script_of<O: Scripted>(
    alloc: Global,
    sessions: u64,
    text: &[u8],
    rest: &[Value],
) -> Result<Script<O>, ScriptError>
    requires { IsNumberOfSessions sessions }
    ensures { (p : Parts) → IsJson text.now (parts_form p) → p.sessions ≡ sessions → map view rest.now ≡ rest_seen p.rest
        → MatchResult result (IsKeptScript O.call_form O.return_form O.is_call O.start_form O.is_start O.has_form p)
        (IsRefusalOf O.call_form O.return_form O.is_call sessions O.start_form O.is_start O.has_form p.steps p.rest) }
{
    match read_steps::<O>(alloc, text) {
        Ok(steps) => script_with(alloc, sessions, steps, rest),
        Err(error) => Err(error),
    }
}

/// The script of an object for so many sessions, with these steps and the start that the values after them give.
///
/// `BadInitial` where they give none. `Memory` only where an allocation was refused. O(n) for n values.
fn script_with<O: Scripted>(
    alloc: Global,
    sessions: u64,
    steps: Vec<WrittenStep<O::Call, O::Ret>>,
    rest: &[Value],
) -> Result<Script<O>, ScriptError>
    requires sessions { IsNumberOfSessions sessions }
    requires few { IsFew sessions steps.items }
    ensures { (p : Parts) → p.sessions ≡ sessions → AreSteps O.call_form O.return_form O.is_call sessions p.steps steps.items
        → map view rest.now ≡ rest_seen p.rest
        → MatchResult result (IsKeptScript O.call_form O.return_form O.is_call O.start_form O.is_start O.has_form p)
        (IsRefusalOf O.call_form O.return_form O.is_call sessions O.start_form O.is_start O.has_form p.steps p.rest) }
{
    match O::read_start(alloc, rest) {
        Ok(Some(start)) => Ok(Script::of(sessions, start, steps)),
        Ok(None) => {
            drop(steps);
            Err(ScriptError::BadInitial)
        }
        Err(_) => {
            drop(steps);
            Err(ScriptError::Memory)
        }
    }
}
