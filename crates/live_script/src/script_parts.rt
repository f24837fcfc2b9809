//! The parts of the form of a script.

ghost use Rattle.std.specs.Prelude.{◌≡◌, map, option_map};
ghost use Rattle.serde_json.specs.View.{view};
ghost use Rattle.live_script.specs.Steps.ScriptParts.{named_parts, parts_at};

use json_histories::elements_of;
use serde_json::Value;

/// The name of the object, the number of sessions, the forms of the steps, and the values after these: none, or one more
/// list.
pub type ScriptParts<'a> = (&'a str, u64, &'a [Value], &'a [Value]);

/// The parts of a list of a text, a whole number and a list, and perhaps one more list.
pub fn script_parts(value: &Value) -> Option<ScriptParts<'_>>
    ensures { option_map (λ p. record { name = p.0.now; sessions = p.1; steps = map view p.2.now; rest = map view p.3.now }) result
        ≡ parts_at (view value.now) }
{
    let elements = elements_of(value)?;
    match elements {
        [name, sessions, steps] => with_rest(name, sessions, steps, &elements[3..]),
        [name, sessions, steps, start] => {
            elements_of(start)?;
            with_rest(name, sessions, steps, &elements[3..])
        }
        _ => None,
    }
}

fn with_rest<'a>(
    name: &'a Value,
    sessions: &Value,
    steps: &'a Value,
    rest: &'a [Value],
) -> Option<ScriptParts<'a>>
    ensures { option_map (λ p. record { name = p.0.now; sessions = p.1; steps = map view p.2.now; rest = map view p.3.now }) result
        ≡ named_parts (view name.now) (view sessions.now) (view steps.now) (map view rest.now) }
{
    let name = name.as_str()?;
    let sessions = sessions.as_u64()?;
    let steps = elements_of(steps)?;
    Some((name, sessions, steps, rest))
}
