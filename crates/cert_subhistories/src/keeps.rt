//! The choice of the operations that a part has.

ghost use Rattle.std.specs.Prelude.{◌≡◌, Bool};
ghost use Rattle.model_history.specs.declared.op_id.OpId.{OpId as Operation};

use model_history::OpId;

/// Says which operations of a history a part keeps.
pub trait Keeps<C> {
    /// Whether it keeps an operation with a call.
    ghost kept: { Self → Operation → C → Bool };

    /// Whether the part keeps the operation, which has this call.
    fn keeps(&self, op: OpId, call: &C) -> bool
        ensures { result ≡ kept self.now op call.now };
}
