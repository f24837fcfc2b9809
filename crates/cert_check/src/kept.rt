//! Which known returns a replay compares: that of one operation, or also those before it in its session.

ghost use Rattle.std.specs.Prelude.{◌≡◌};
ghost use Rattle.cert_check.specs.Steps.Replays.{kept_of};

use model_history::OpId;

/// The operations whose known returns are kept; those of all others are hidden.
#[derive(Clone, Copy)]
pub enum Kept {
    /// This operation alone.
    Only(OpId),
    /// This operation and those before it in its session.
    ProgramPast(OpId),
}

impl Kept {
    /// Whether an operation is among them.
    pub fn keeps(self, other: OpId) -> bool
        ensures { result ≡ kept_of self other }
    {
        match self {
            Kept::Only(op) => other == op,
            Kept::ProgramPast(op) => other.session == op.session && other.index <= op.index,
        }
    }
}
