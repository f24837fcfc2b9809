//! The trait of what a recorder knows of an object.

ghost use Rattle.std.specs.Prelude.{Bool};

use model_object_trait::SeqObject;

/// What a recorder knows of an object: its calls, its returns, its starts, and which return fits which call.
///
/// Each `SeqObject` has it. It asks for nothing that threads need, so a method of a trait may contain code over it.
pub trait Recorded {
    type Call: Copy;

    type Ret: Copy;

    type Start: Drop;

    /// A return is of a kind that the call may have.
    ghost fitting: { Self.Call → Self.Ret → Bool };

    /// What may be a start.
    ghost startable: { Self.Start → Type 0 };
}

impl<O: SeqObject> Recorded for O {
    type Call = O::Call;

    type Ret = O::Ret;

    type Start = O::Start;

    ghost fitting = { O.matches };

    ghost startable = { O.is_start };
}
