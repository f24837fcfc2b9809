//! What a looker does: it looks at cells, and keeps the list of its looks with what each saw.

ghost use Rattle.std.specs.Prelude.{◌≡◌, ◌++◌, ◌∷◌, [], List, IfOk, OnErr};
ghost use Rattle.live_cut_plan.specs.Plans.{Look};

use live_cut_plan::Cell;
use std::alloc::AllocError;

/// Looks at cells, and keeps the list of its looks with what each saw.
pub trait Looker {
    /// The looks so far, oldest first.
    ghost looks: { Self → List Look };

    /// What a look keeps unchanged.
    ghost keeps: { Self → Self → Type 0 };

    /// Looks at a cell, and returns whether it was full. A refused look adds nothing to the list.
    fn look(&mut self, cell: Cell) -> Result<bool, AllocError>
        ensures looked { IfOk result (λ full. looks self.new ≡ looks self.old ++ (cell, full) ∷ []) }
        ensures refused { OnErr result (looks self.new ≡ looks self.old) }
        ensures kept { keeps self.old self.new };

    ghost keeps_itself: { (a : Self) → keeps a a };

    ghost keeps_on: { (a b c : Self) → keeps a b → keeps b c → keeps a c };
}
