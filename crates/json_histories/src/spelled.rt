//! The trait of objects whose operations are spelled by a word, the arguments of the call, and the return.

ghost use Rattle.std.specs.Prelude.{◌≡◌, ℕ, List, ◌++◌, Option, map, option_map, IfOk, OnOk, OnErr};
ghost use Rattle.serde_json.specs.Data.{Data};
ghost use Rattle.serde_json.specs.View.{view};
ghost use Rattle.json_histories.specs.LoneForm.{lone_return_form, whole_call_at};
ghost use Rattle.json_histories.specs.Reads.{IsRead};
ghost use Rattle.json_histories.specs.Spelling.{rest_form, spelled_at};
ghost use Rattle.json_histories.specs.Spelled.{IsSpelling, IsStartSpelling};

use crate::lone::is_nothing;
use crate::spelled_start::SpelledStart;
use crate::unknown::{is_question_mark_alone, push_question_mark};
use model_object_trait::SeqObject;
use serde_json::Value;
use std::alloc::{AllocError, Global};

/// An object whose operations are spelled by a word, the arguments of the call, and the return.
///
/// The code over this trait holds once what all objects have in common: the key of a keyed object comes after the word, and
/// `"?"` takes the place of a return that is not known. The laws say that reading undoes writing, and that nothing else is
/// read.
pub trait Spelled: SeqObject<Start: SpelledStart> {
    /// The name of the histories of this object.
    ghost plain_name: { List ℕ };

    /// The name of the histories of this object under keys.
    ghost keyed_name: { List ℕ };

    /// The word of a call.
    ghost word_of: { Self.Call → List ℕ };

    /// What a call takes.
    ghost arguments: { Self.Call → List Data };

    /// A return: nothing for a return that says only that the call is done.
    ghost ret_form: { Self.Ret → List Data };

    /// The call of a word and the arguments after it, and the values after these.
    ghost call_at: { List ℕ → List Data → Option (Self.Call × List Data) };

    /// The return of a call.
    ghost ret_at: { Self.Call → List Data → Option Self.Ret };

    fn plain_name() -> &'static str
        ensures { result.now ≡ plain_name };

    fn keyed_name() -> &'static str
        ensures { result.now ≡ keyed_name };

    fn word(call: &Self::Call) -> &'static str
        ensures { result.now ≡ word_of call.now };

    fn read_call<'a>(word: &str, values: &'a [Value]) -> Option<(Self::Call, &'a [Value])>
        ensures { option_map (λ p. (p.0, map view p.1.now)) result ≡ call_at word.now (map view values.now) };

    fn read_ret(call: &Self::Call, values: &[Value]) -> Option<Self::Ret>
        ensures { result ≡ ret_at call.now (map view values.now) };

    /// The return whose form the value is, without its call.
    fn read_ret_alone(value: &Value) -> Option<Self::Ret>
        ensures { IsRead (lone_return_form ret_form) (view value.now) result };

    /// Appends what a call takes to the values. Where memory runs out they stay as they were.
    fn push_arguments(call: &Self::Call, values: &mut Vec<Value>) -> Result<(), AllocError>
        ensures ok { OnOk result (map view values.new.items ≡ map view values.old.items ++ arguments call.now) }
        ensures err { OnErr result (values.new.items ≡ values.old.items) };

    /// Appends a return to the values. Where memory runs out they stay as they were.
    fn push_ret(ret: &Self::Ret, values: &mut Vec<Value>) -> Result<(), AllocError>
        ensures ok { OnOk result (map view values.new.items ≡ map view values.old.items ++ ret_form ret.now) }
        ensures err { OnErr result (values.new.items ≡ values.old.items) };

    /// The call that a word and the values after it spell, and its return where that is known.
    fn read_spelled(word: &str, values: &[Value]) -> Option<(Self::Call, Option<Self::Ret>)>
        ensures { result ≡ spelled_at call_at ret_at word.now (map view values.now) }
    {
        let (call, rest) = Self::read_call(word, values)?;
        if is_question_mark_alone(rest) {
            Some((call, None))
        } else {
            Some((call, Some(Self::read_ret(&call, rest)?)))
        }
    }

    /// The values, and after them the arguments of a call and its return, or `"?"`.
    fn with_rest(
        alloc: Global,
        call: &Self::Call,
        ret: &Option<Self::Ret>,
        mut values: Vec<Value>,
    ) -> Result<Vec<Value>, AllocError>
        ensures { IfOk result (λ vs. map view vs.items ≡ map view values.items ++ rest_form arguments ret_form call.now ret.now) }
    {
        Self::push_arguments(call, &mut values)?;
        match ret {
            Some(ret) => Self::push_ret(ret, &mut values)?,
            None => push_question_mark(alloc, &mut values)?,
        }
        Ok(values)
    }

    /// The call that a word and the values after it spell, where no value follows what the call takes.
    fn read_whole_call(word: &str, values: &[Value]) -> Option<Self::Call>
        ensures { result ≡ whole_call_at call_at word.now (map view values.now) }
    {
        let (call, rest) = Self::read_call(word, values)?;
        if is_nothing(rest) { Some(call) } else { None }
    }

    ghost is_spelling: { IsSpelling word_of arguments ret_form call_at ret_at Self.matches };

    ghost is_start_spelling: { IsStartSpelling Self.plain_start Self.is_start Self.Start.start_form Self.Start.start_at };
}
