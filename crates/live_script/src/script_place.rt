//! The places in the form of a script, and how many values each may have, so that reading is bounded.

ghost use Rattle.std.specs.Prelude.{◌≡◌};
ghost use Rattle.live_script.specs.Places.{inside_of, limit_of};

use json_bounded::Place;
use json_histories::HistoryPlace;

/// The parts of a script: the name of its object, its number of sessions, its steps, and its start where it has one.
const SCRIPT_PARTS: usize = 4;

/// A place in the form of a script. Its steps are read apart.
#[derive(Clone, Copy, Drop)]
pub(crate) enum ScriptPlace {
    /// The script.
    Whole,
    /// Its start, and the values in it.
    Start(HistoryPlace),
    /// A text or a number, or the list of the steps without them.
    Scalar,
}

impl Place for ScriptPlace {
    ghost limit = { limit_of };

    ghost inside = { inside_of };

    fn limit(self) -> Option<usize> {
        match self {
            ScriptPlace::Whole => Some(SCRIPT_PARTS + 1),
            ScriptPlace::Start(place) => place.limit(),
            ScriptPlace::Scalar => Some(0),
        }
    }

    fn inside(self, index: usize) -> ScriptPlace {
        match self {
            ScriptPlace::Whole => if index == 3 {
                ScriptPlace::Start(HistoryPlace::Start)
            } else {
                ScriptPlace::Scalar
            },
            ScriptPlace::Start(place) => ScriptPlace::Start(place.inside(index)),
            ScriptPlace::Scalar => ScriptPlace::Scalar,
        }
    }
}
