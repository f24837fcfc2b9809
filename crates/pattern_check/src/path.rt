//! Paths of the causal order, from one operation to another.

ghost use Rattle.std.specs.Prelude.{◌≡◌};

use model_history::OpId;
use std::marker::Model;

/// Operations, one after the other. An edge of the causal order should join each to the next: both are in one session in this
/// order, or the next one reads from it.
///
/// It goes from its first operation to its last. One operation alone is a path with no edge.
#[derive(Debug, Drop)]
pub struct Path {
    ops: Vec<OpId>,
}

impl Model for Path {
    ghost use Rattle.std.specs.Prelude.{List};
    ghost use Rattle.model_history.specs.declared.op_id.OpId.{OpId};

    ghost Value = { List OpId };

    ghost view = { λ path. path.ops.items };
}

impl Path {
    /// The path over these operations.
    pub fn of(ops: Vec<OpId>) -> Path
        ensures { result ≡ ops.items }
    {
        Path { ops }
    }

    /// The operations, in order.
    pub fn ops(&self) -> &[OpId]
        ensures { result.now ≡ self.now }
    {
        self.ops.as_slice()
    }
}
