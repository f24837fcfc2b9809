//! The parts of the form of a history.

ghost use Rattle.std.specs.Prelude.{◌≡◌, map, option_map};
ghost use Rattle.serde_json.specs.View.{view};
ghost use Rattle.json_histories.specs.Reading.{named_parts, parts_of as parts_at};

use crate::json::elements_of;
use serde_json::Value;

fn with_rest<'a>(
    name: &'a Value,
    sessions: &'a Value,
    rest: &'a [Value],
) -> Option<(&'a str, &'a [Value], &'a [Value])>
    ensures { option_map (λ p. (p.0.now, map view p.1.now, map view p.2.now)) result
        ≡ named_parts (view name.now) (view sessions.now) (map view rest.now) }
{
    let name = name.as_str()?;
    let sessions = elements_of(sessions)?;
    Some((name, sessions, rest))
}

/// The name, the sessions, and the values after them, where the value is a list of two or three such elements.
pub fn parts_of(value: &Value) -> Option<(&str, &[Value], &[Value])>
    ensures { option_map (λ p. (p.0.now, map view p.1.now, map view p.2.now)) result ≡ parts_at (view value.now) }
{
    let elements = elements_of(value)?;
    match elements {
        [name, sessions] => with_rest(name, sessions, &elements[2..]),
        [name, sessions, start] => {
            elements_of(start)?;
            with_rest(name, sessions, &elements[2..])
        }
        _ => None,
    }
}
