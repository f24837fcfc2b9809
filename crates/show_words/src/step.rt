//! The steps of what shows a pattern.

use crate::forms::{Made, with_three};
use crate::naming::Names;
use model_history::OpId;
use std::alloc::Global;

/// How one operation comes before another.
#[derive(Clone, Copy, PartialEq, Eq)]
pub(crate) enum Step {
    /// The second follows the first in its session.
    Follows(OpId, OpId),
    /// The second, a read, reads from the first.
    ReadsFrom(OpId, OpId),
    /// The steps before lead from the first to the second.
    Leads(OpId, OpId),
    /// The first comes before the second, and that before the third.
    Joins(OpId, OpId, OpId),
    /// The first, a write, comes before the second: the third, a read after the first, reads from the second.
    Precedes(OpId, OpId, OpId),
    /// The same in arbitration.
    Yields(OpId, OpId, OpId),
}

impl Step {
    /// The step from an operation to the next of a path.
    pub fn between(from: OpId, to: OpId) -> Step {
        if from.session == to.session && from.index < to.index {
            Step::Follows(from, to)
        } else {
            Step::ReadsFrom(from, to)
        }
    }

    /// The operations that it names, each at least once.
    pub fn ops(self) -> [OpId; 3] {
        match self {
            Step::Follows(first, second)
            | Step::ReadsFrom(first, second)
            | Step::Leads(first, second) => [first, second, second],
            Step::Joins(first, second, third)
            | Step::Precedes(first, second, third)
            | Step::Yields(first, second, third) => [first, second, third],
        }
    }

    /// The step in words, with the names of its operations.
    pub fn words<N: Names>(self, alloc: Global, names: &N) -> Made {
        let [first, second, third] = self.ops();
        let a = names.operation(alloc, first);
        let b = names.operation(alloc, second);
        with_three(alloc, self.form(), a, b, names.operation(alloc, third))
    }

    // The form of the step in words: `A`, `B` and `C` are the places of its operations, in order.
    fn form(self) -> &'static str {
        match self {
            Step::Follows(_, _) => "B follows A in its session",
            Step::ReadsFrom(_, _) => "B reads from A",
            Step::Leads(_, _) => "so A comes before B",
            Step::Joins(_, _, _) => "A comes before C, since it comes before B, and that before C",
            Step::Precedes(_, _, _) => {
                "A comes before B, since C reads from B and A comes before C"
            }
            Step::Yields(_, _, _) => {
                "B overwrites A in arbitration, since C reads from B and A comes before C"
            }
        }
    }
}
