//! Sealing what all lanes hold, as far as receipts and the looks at their cells show it.

ghost use Rattle.std.specs.Prelude.{◌≡◌, ◌<◌, ℕ, IfOk, IfErr, length, map, slice_get, Some};
ghost use Rattle.std.specs.List.{flat_map};
ghost use Rattle.live_cut_plan.specs.Plans.{Follows};
ghost use Rattle.live_seals.specs.Steps.Tables.{advised};
ghost use Rattle.live_seals.specs.Seals.{AdvisesAll, AreReceiptsOf, HoldsAll, HoldsFound, IsFoundByWalk, IsSealOf, plan_after, plan_before};
ghost use Rattle.live_seals.specs.Steps.Comparing.{SharesCells};
ghost use Rattle.live_seals.specs.Steps.Sealing.{AreLanesFound, AreLanesSealed, IsShown};

use crate::comparing::compare_receipt;
use crate::lane_looker::LaneLooker;
use crate::longest::longest;
use crate::sealed::Sealed;
use crate::sealed_lane::SealedLane;
use crate::sealing_lane::seal_lane;
use crate::walking::walk;
use live_cut_plan::CutPlan;
use live_recorder::{Lanes, Receipt, RecordError, Recorded};
use model_history::{Advice, History};
use model_object_trait::SeqObject;
use std::alloc::{AllocError, Global};

type Session<O> = Vec<(<O as Recorded>::Call, Option<<O as Recorded>::Ret>)>;

// What a looker found, lane by lane.
fn seal_lanes<'a, O: Recorded>(
    looker: &LaneLooker<'a, O>,
) -> Result<(Vec<Session<O>>, Vec<SealedLane<O>>, Vec<Option<Advice>>), AllocError>
    ensures sealed { IfOk result (λ r.
        AreLanesSealed O.fitting looker.now.lanes.cells looker.now.receipts (map (λ s. s.items) r.0.items) r.1.items) }
    ensures advised { IfOk result (λ r. r.2.items ≡ flat_map advised r.1.items) }
    ensures found { IfOk result (λ r.
        AreLanesFound looker.now.looks looker.now.told looker.now.cap (map (λ s. s.items) r.0.items) r.1.items) }
{
    let mut sessions = Vec::new(looker.alloc);
    let mut lanes = Vec::new(looker.alloc);
    let mut advice = Vec::new(looker.alloc);
    for s in 0..looker.lanes.len() {
        let best = longest(looker.receipts, s);
        let (operations, lane) = seal_lane(
            looker.alloc,
            looker.lanes.lane(s),
            looker.receipts,
            best,
            &looker.tables[s],
            &mut advice,
        )?;
        sessions.push(operations)?;
        lanes.push(lane)?;
    }
    Ok((sessions, lanes, advice))
}

// The operations of receipts are those that lanes hold, if their cells are.
fn compare_receipts<O: Recorded>(alloc: Global, receipts: &[Receipt<O>], lanes: &Vec<SealedLane<O>>)
    requires { (j : ℕ) (r : _) → slice_get receipts.now j ≡ Some r
        → (l : _) × (slice_get lanes.now.items r.lane ≡ Some l) × SharesCells r l }
    ensures { (j : ℕ) (r : _) → slice_get receipts.now j ≡ Some r → IsShown lanes.now.items r }
{
    for receipt in receipts {
        compare_receipt(alloc, receipt, &lanes[receipt.op().session_place()]);
    }
}

impl<'a, O: SeqObject> LaneLooker<'a, O> {
    /// What was found: for each session the returns up to the first cell that was not found full, with those that
    /// receipts cover, and after them the calls up to the first cell that was not found full.
    ///
    /// Fails for want of memory alone. O(n + k r + m) for n cells of k lanes and r receipts of m operations.
    pub fn sealed(self) -> Result<Sealed<O>, AllocError>
        ensures holds { IfOk result (λ s. HoldsAll s.history self.entry.receipts) }
        ensures seal { IfOk result (λ s. IsSealOf self.entry.lanes s) }
        ensures advises { IfOk result (λ s. AdvisesAll s self.entry.receipts) }
        ensures found { IfOk result (λ s.
            Follows (plan_before self.entry) self.entry.looks → HoldsFound (plan_after self.entry) s.history) }
    {
        let start = O::copy_start(self.alloc, self.lanes.start())?;
        let (sessions, lanes, advice) = seal_lanes(&self)?;
        compare_receipts(self.alloc, self.receipts, &lanes);
        let _few = self.lanes.len();
        let history = History::of(start, sessions);
        Ok(Sealed::of(self.alloc, history, advice, lanes))
    }
}

/// Seals what these lanes hold: looks at each cell of the plan, and includes what these receipts of the lanes cover.
///
/// Fails with `Memory` alone. It waits for nobody. O(n k) for n cells of k lanes, and O(m + k r) for r receipts of m operations.
pub fn seal<O: SeqObject>(
    alloc: Global,
    lanes: &Lanes<O>,
    told: &[Receipt<O>],
) -> Result<Sealed<O>, RecordError>
    requires { AreReceiptsOf lanes.now told.now }
    ensures holds { IfOk result (λ s. HoldsAll s.history told.now) }
    ensures seal { IfOk result (λ s. IsSealOf lanes.now s) }
    ensures advises { IfOk result (λ s. AdvisesAll s told.now) }
    ensures found { IfOk result (λ s. IsFoundByWalk lanes.now told.now s.history) }
    ensures refused { IfErr result (λ e. e ≡ RecordError.Memory) }
{
    let mut looker = LaneLooker::new(alloc, lanes, told)?;
    let mut plan = CutPlan::new(alloc, looker.lanes(), looker.places(), looker.told())?;
    walk(&mut plan, &mut looker)?;
    Ok(looker.sealed()?)
}
