//! A walk over the cells that a plan names, which looks at each of them once.

ghost use Rattle.std.specs.Prelude.{IfOk, OnErr};
ghost use Rattle.live_cut_plan.specs.Walks.{Walks, WalksToTheEnd};
ghost use Rattle.live_seals.specs.LookOrder.{GrewByReturnsFirst};

use crate::looker::Looker;
use live_cut_plan::CutPlan;
use std::alloc::AllocError;

/// Looks at each cell that the plan names, once, in the plan's order: the return cells before the call cells, whatever looks
/// the plan has had.
///
/// Fails where a look fails, and then keeps the looks made before, in the looker and in the plan. O(n k) for n looks in k
/// lanes, and what the looks take.
pub fn walk<L: Looker>(plan: &mut CutPlan, looker: &mut L) -> Result<(), AllocError>
    ensures walked { IfOk result (λ _. WalksToTheEnd plan.old (L.looks looker.old) plan.new (L.looks looker.new)) }
    ensures broken_off { OnErr result (Walks plan.old (L.looks looker.old) plan.new (L.looks looker.new)) }
    ensures returns_first { GrewByReturnsFirst (L.looks looker.old) (L.looks looker.new) }
    ensures kept { L.keeps looker.old looker.new }
{
    // (the check learns here what the type keeps)
    let _places = plan.places();
    while let Some(cell) = plan.next() {
        let full = looker.look(cell)?;
        plan.give(full);
    }
    Ok(())
}
