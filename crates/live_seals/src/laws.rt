//! What holds of every run of sessions and sealers. The functions do nothing: what they ensure is the law.

ghost use Rattle.std.specs.Prelude.{◌≡◌, ◌↔◌, ℕ, ◌+◌, ◌<◌, ◌≤◌, ◌++◌, ◌∷◌, [], Bool, List, Some, length, slice_get, slice_index, take};
ghost use Rattle.model_history.specs.History.{session};
ghost use Rattle.live_recorder.specs.Sessions.{session_operation};
ghost use Rattle.live_cut_plan.specs.Plans.{Look, Plan, fresh_plan, after_looks, next_cell, returns_found, calls_found, Follows};
ghost use Rattle.live_cut_plan.specs.Walks.{Stands, Walks, WalksToTheEnd};
ghost use Rattle.live_cut_plan.specs.Steps.PlanStates.{PlanState};
ghost use Rattle.live_seals.specs.LookOrder.{ReturnsComeFirst};
ghost use Rattle.live_seals.specs.Seals.{known_returns};
ghost use Rattle.live_seals.specs.Runs.{CanFollow, Event, HasBegun, HasEnded, HasSealed, IsAt, IsRun, begun, ended, looks, sealed, sealers};
ghost use Rattle.live_seals.specs.Runs.Event.{Looked, Started};
ghost use Rattle.live_seals.specs.Cuts.{HasReturn, IsConsistentCut};

use live_cut_plan::Cell;
use model_history::OpId;
use model_object_trait::SeqObject;

/// Runs are made event by event: a run is empty, or it is a run and one more event that may come after it.
pub fn runs_are_made_event_by_event<O: SeqObject>()
    ensures none { (k cap : ℕ) → IsRun {C = O.Call} {R = O.Ret} k cap [] }
    ensures more { (k cap : ℕ) (es : List (Event O.Call O.Ret)) (e : Event O.Call O.Ret)
        → IsRun k cap (es ++ e ∷ []) ↔ (IsRun k cap es × CanFollow k cap es e) }
{}

/// In every run, an operation has begun exactly if its session has begun more calls than its index says, and has ended
/// exactly if its session has been given more returns.
pub fn operations_are_counted<O: SeqObject>()
    ensures begun { (k cap : ℕ) (es : List (Event O.Call O.Ret)) (o : OpId) → IsRun k cap es
        → HasBegun es o ↔ (o.index < length (begun o.session es)) }
    ensures ended { (k cap : ℕ) (es : List (Event O.Call O.Ret)) (o : OpId) → IsRun k cap es
        → HasEnded es o ↔ (o.index < length (ended o.session es)) }
{}

/// In every run, a session ends only what it has begun, has at most one operation that has not ended, and begins no more than
/// its lane has places.
pub fn sessions_are_sequential<O: SeqObject>()
    ensures ended { (k cap : ℕ) (es : List (Event O.Call O.Ret)) (s : ℕ) → IsRun k cap es
        → length (ended s es) ≤ length (begun s es) }
    ensures pending { (k cap : ℕ) (es : List (Event O.Call O.Ret)) (s : ℕ) → IsRun k cap es
        → length (begun s es) ≤ length (ended s es) + 1 }
    ensures places { (k cap : ℕ) (es : List (Event O.Call O.Ret)) (s : ℕ) → IsRun k cap es → length (begun s es) ≤ cap }
{}

/// In every run, the entry at a sealer's number in the list `sealers` is what that sealer was given at its start.
pub fn sealers_are_counted<O: SeqObject>()
    ensures { (k cap : ℕ) (es : List (Event O.Call O.Ret)) (z : ℕ) (told : List ℕ) → IsRun k cap es
        → (slice_get (sealers es) z ≡ Some told) ↔ ((j : ℕ) × IsAt es j (Started z told)) }
{}

/// The looks of a sealer follow a plan exactly if each look is at the cell that the plan names after the looks before it.
pub fn plans_are_followed_look_by_look<O: SeqObject>()
    ensures { (es : List (Event O.Call O.Ret)) (z : ℕ) (plan : Plan) → Follows plan (looks z es)
        ↔ ((i : ℕ) (c : Cell) (full : Bool) → IsAt es i (Looked z c full)
        → next_cell (after_looks plan (looks z (take i es))) ≡ Some c) }
{}

/// In every run, a sealer whose looks followed its plan to the end has sealed a consistent cut: the looks of a run are
/// answered truly.
pub fn seals_are_consistent_cuts<O: SeqObject>()
    ensures { (k cap : ℕ) (es : List (Event O.Call O.Ret)) (z : ℕ) (plan : Plan) (start : O.Start) → IsRun k cap es
        → HasSealed k cap es z plan → IsConsistentCut es z (sealed start es plan) }
{}

/// Such a seal holds of each session as many returns, and as many operations, as its plan found.
pub fn seals_hold_what_was_found<O: SeqObject>()
    ensures returns { (k cap : ℕ) (es : List (Event O.Call O.Ret)) (z : ℕ) (plan : Plan) (start : O.Start) → IsRun k cap es
        → HasSealed k cap es z plan → (s : ℕ) → s < k → known_returns (sealed start es plan) s ≡ returns_found plan s }
    ensures operations { (k cap : ℕ) (es : List (Event O.Call O.Ret)) (z : ℕ) (plan : Plan) (start : O.Start) → IsRun k cap es
        → HasSealed k cap es z plan → (s : ℕ) → s < k → length (session (sealed start es plan) s) ≡ calls_found plan s }
{}

/// Such a seal holds, with its return, each operation that the sealer was given at its start.
pub fn seals_hold_what_was_told<O: SeqObject>()
    ensures { (k cap : ℕ) (es : List (Event O.Call O.Ret)) (z : ℕ) (plan : Plan) (start : O.Start) → IsRun k cap es
        → HasSealed k cap es z plan → (j : ℕ) (told : List ℕ) → IsAt es j (Started z told)
        → (s i : ℕ) → i < slice_index told s → HasReturn (sealed start es plan) (session_operation s i) }
{}

/// Such a seal stays as it is, whatever happens after it: so it holds nothing that had not happened by then.
pub fn seals_stay<O: SeqObject>()
    ensures { (k cap : ℕ) (es : List (Event O.Call O.Ret)) (z j : ℕ) (plan : Plan) (start : O.Start) → IsRun k cap es
        → HasSealed k cap (take j es) z plan → sealed start es plan ≡ sealed start (take j es) plan }
{}

/// In every run, a sealer whose looks are those that `walk` made with a new plan, from the first to the last, has sealed a
/// consistent cut.
pub fn walks_give_consistent_cuts<O: SeqObject>()
    ensures { (k cap : ℕ) (es : List (Event O.Call O.Ret)) (z j : ℕ) (told : List ℕ) (old new : PlanState) (start : O.Start)
        → IsRun k cap es → IsAt es j (Started z told) → Stands old (fresh_plan k cap told)
        → WalksToTheEnd old [] new (looks z es)
        → IsConsistentCut es z (sealed start es (after_looks (fresh_plan k cap told) (looks z es))) }
{}

/// A new plan asks for all return cells before all call cells, whatever number of operations it is given and whatever the answers.
/// This holds for a caller that looks at each cell that `next` names and gives the answer, and for a caller of `walk`, to the end
/// or not.
pub fn returns_come_before_calls()
    ensures asked { (k cap : ℕ) (told : List ℕ) (looks : List Look) → Follows (fresh_plan k cap told) looks
        → ReturnsComeFirst looks }
    ensures walked { (k cap : ℕ) (told : List ℕ) (old new : PlanState) (looks : List Look)
        → Stands old (fresh_plan k cap told) → Walks old [] new looks → ReturnsComeFirst looks }
{}
