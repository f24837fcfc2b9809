//! How the calls and the returns of an object are read in steps.

ghost use Rattle.serde_json.specs.Data.{Data};
ghost use Rattle.serde_json.specs.View.{view};
ghost use Rattle.json_histories.specs.Reads.{IsRead, IsReadWithin};
ghost use Rattle.live_script.specs.Kept.{IsWholeOperation};

use crate::scripted::Scripted;
use serde_json::Value;

/// The forms of the calls and the returns of an object in the steps of a script.
///
/// It is no part of [`Named`](operations::Named), whose calls and returns may go to other threads. A reader of steps does not need that.
pub(crate) trait StepForms {
    /// Its calls.
    type Call: Drop;

    /// Its returns.
    type Ret: Drop;

    /// The form of a call without its return.
    ghost call_form: { Self.Call → Data };

    /// The form of a return without its call.
    ghost return_form: { Self.Ret → Data };

    /// What the type of a call keeps of its numbers.
    ghost is_call: { Self.Call → Type 0 };

    /// The call whose form the value is.
    fn read_call(value: &Value) -> Option<Self::Call>
        ensures { IsReadWithin is_call call_form (view value.now) result };

    /// The return whose form the value is.
    fn read_return(value: &Value) -> Option<Self::Ret>
        ensures { IsRead return_form (view value.now) result };

    ghost call_kept: { (call : Self.Call) → IsWholeOperation (call_form call) };

    ghost return_kept: { (ret : Self.Ret) → IsWholeOperation (return_form ret) };
}

impl<O: Scripted> StepForms for O {
    type Call = O::Call;

    type Ret = O::Ret;

    ghost call_form = { O.call_form };

    ghost return_form = { O.return_form };

    ghost is_call = { O.is_call };

    fn read_call(value: &Value) -> Option<O::Call> {
        O::read_lone_call(value)
    }

    fn read_return(value: &Value) -> Option<O::Ret> {
        O::read_lone_return(value)
    }

    ghost call_kept = { O.call_whole };

    ghost return_kept = { O.return_whole };
}
