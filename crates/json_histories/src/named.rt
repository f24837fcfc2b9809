//! The trait of objects whose histories have a JSON form: their name, and how operations and starts are read and written.

ghost use Rattle.std.specs.Prelude.{◌≡◌, ℕ, List, Option, Some, false, map, option_to_list, IfOk};
ghost use Rattle.serde_json.specs.Data.{Data};
ghost use Rattle.serde_json.specs.View.{view};
ghost use Rattle.serde_json.specs.Written.{has_float};
ghost use Rattle.json_histories.specs.Form.{Fits, HaveNoFloats};
ghost use Rattle.json_histories.specs.Reads.{IsRead, IsReadWithin};

use model_object_trait::SeqObject;
use serde_json::Value;
use std::alloc::{AllocError, Global};

/// An object whose histories have a JSON form: the name of the object, and how one operation and one start are written
/// and read.
///
/// The laws say that reading undoes writing, and that nothing else is read.
pub trait Named: SeqObject {
    /// The object's name.
    ghost name: { List ℕ };

    /// The form of a call with its known return, or with none.
    ghost operation_form: { Self.Call → Option Self.Ret → Data };

    /// The form of a call without its return.
    ghost call_form: { Self.Call → Data };

    /// The form of a return without its call.
    ghost return_form: { Self.Ret → Data };

    /// The call and the return of a form.
    ghost operation_at: { Data → Option (Self.Call × Option Self.Ret) };

    /// The values after the sessions: none, or a table of initial values.
    ghost start_form: { Self.Start → List Data };

    /// The start that the values after the sessions give.
    ghost start_at: { List Data → Option Self.Start };

    /// What the type of a call keeps of its numbers.
    ghost is_call: { Self.Call → Type 0 };

    /// The starts whose form is read.
    ghost has_form: { Self.Start → Type 0 };

    fn name() -> &'static str
        ensures { result.now ≡ name };

    fn read_operation(value: &Value) -> Option<(Self::Call, Option<Self::Ret>)>
        ensures { result ≡ operation_at (view value.now) };

    /// The call whose form without its return the value is.
    fn read_lone_call(value: &Value) -> Option<Self::Call>
        ensures { IsReadWithin is_call call_form (view value.now) result };

    /// The return whose form without its call the value is.
    fn read_lone_return(value: &Value) -> Option<Self::Ret>
        ensures { IsRead return_form (view value.now) result };

    fn write_operation(
        alloc: Global,
        call: Self::Call,
        ret: Option<Self::Ret>,
    ) -> Result<Value, AllocError>
        ensures form { IfOk result (λ v. view v ≡ operation_form call ret) }
        ensures numbers { is_call call };

    fn read_start(alloc: Global, rest: &[Value]) -> Result<Option<Self::Start>, AllocError>
        ensures { IfOk result (λ s. s ≡ start_at (map view rest.now)) };

    fn write_start(alloc: Global, start: &Self::Start) -> Result<Option<Value>, AllocError>
        requires { Self.is_start start.now }
        ensures { IfOk result (λ v. map view (option_to_list v) ≡ start_form start.now) };

    ghost operation_read: { (d : Data) (c : Self.Call) (r : Option Self.Ret) → operation_at d ≡ Some (c, r)
        → (d ≡ operation_form c r) × Fits Self.matches c r };

    ghost operation_is_call: { (d : Data) (c : Self.Call) (r : Option Self.Ret) → operation_at d ≡ Some (c, r) → is_call c };

    ghost operation_again: { (c : Self.Call) (r : Option Self.Ret) → is_call c → Fits Self.matches c r
        → operation_at (operation_form c r) ≡ Some (c, r) };

    ghost start_read: { (ds : List Data) (s : Self.Start) → start_at ds ≡ Some s
        → (ds ≡ start_form s) × Self.is_start s × has_form s };

    ghost start_again: { (s : Self.Start) → Self.is_start s → has_form s → start_at (start_form s) ≡ Some s };

    ghost operation_has_no_float: { (c : Self.Call) (r : Option Self.Ret) → has_float (operation_form c r) ≡ false };

    ghost start_has_no_float: { (s : Self.Start) → HaveNoFloats (start_form s) };
}
