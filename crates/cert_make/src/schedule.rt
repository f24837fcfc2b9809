//! Placing operations of one session.

ghost use Rattle.std.specs.Prelude.{◌≡◌, ◌-◌, ◌++◌, ◌<◌, ◌≤◌, replicate, OnOk};
ghost use Rattle.order_causal.specs.Schedules.{placed};

use model_history::{MAX_OPERATIONS, MAX_SESSIONS};
use order_causal::Walk;
use std::alloc::AllocError;

/// Places the operations of a session before an index that are not placed yet.
#[tactic(auto, using(crate::proofs::Placing::placed_more))]
pub(crate) fn place_before(walk: &mut Walk, session: usize, end: usize) -> Result<(), AllocError>
    requires few { session < MAX_SESSIONS }
    requires short { placed walk.old session < end → end ≤ MAX_OPERATIONS }
    ensures { OnOk result (walk.new ≡ walk.old ++ replicate (end - placed walk.old session) session) }
{
    for _index in 0..end.saturating_sub(walk.placed(session)) {
        walk.place(session)?;
    }
    Ok(())
}
