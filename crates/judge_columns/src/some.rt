//! Some of a list, by number, and what they show.

ghost use Rattle.std.specs.Prelude.{◌≡◌, ◌↔◌, ◌⊎◌, ◌++◌, [], IsTrue, OnOk};

use crate::swept::{Swept, append, join};
use std::alloc::{AllocError, Global};

/// Some sessions or groups of sessions of a list, and what they show.
#[derive(Drop)]
pub(crate) struct SweptSome {
    /// Their places in the list, or the numbers of the groups.
    pub(crate) numbers: Vec<usize>,
    /// What they show together.
    pub(crate) swept: Swept,
}

impl SweptSome {
    /// None, which show nothing.
    pub(crate) fn none(alloc: Global) -> SweptSome
        ensures numbers { result.numbers.items ≡ [] }
        ensures start { ¬ IsTrue result.swept.has_overwritten_start }
        ensures read { ¬ IsTrue result.swept.has_overwritten_read }
        ensures edges { result.swept.edges.items ≡ [] }
    {
        SweptSome {
            numbers: Vec::new(alloc),
            swept: Swept {
                has_overwritten_start: false,
                has_overwritten_read: false,
                edges: Vec::new(alloc),
            },
        }
    }

    /// Adds what others show.
    pub(crate) fn join(&mut self, more: SweptSome) -> Result<(), AllocError>
        ensures numbers { OnOk result (self.new.numbers.items ≡ self.old.numbers.items ++ more.numbers.items) }
        ensures start { OnOk result (IsTrue self.new.swept.has_overwritten_start
            ↔ (IsTrue self.old.swept.has_overwritten_start ⊎ IsTrue more.swept.has_overwritten_start)) }
        ensures read { OnOk result (IsTrue self.new.swept.has_overwritten_read
            ↔ (IsTrue self.old.swept.has_overwritten_read ⊎ IsTrue more.swept.has_overwritten_read)) }
        ensures edges { OnOk result (self.new.swept.edges.items ≡ self.old.swept.edges.items ++ more.swept.edges.items) }
    {
        let SweptSome { mut numbers, swept } = more;
        self.numbers.append(&mut numbers)?;
        join(&mut self.swept, swept)
    }
}
