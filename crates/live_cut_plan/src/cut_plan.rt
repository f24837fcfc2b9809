//! The order in which a sealer looks at cells: return cells before call cells, lane by lane.

ghost use Rattle.std.specs.Prelude.{◌≡◌, ℕ, ◌<◌, ◌≤◌, length, IfOk, IfSome, IsSome, None, slice_index};
ghost use Rattle.live_cut_plan.specs.Plans.{Plan, calls_found, fresh_plan, looked_at, next_cell, returns_found};
ghost use Rattle.live_cut_plan.specs.Walks.{Stands, StandsForLooks};
ghost use Rattle.live_cut_plan.specs.Steps.PlanStates.{call_of, first_of, looks_left, return_of, state_next};

use crate::cell::Cell;
use crate::lane_plan::LanePlan;
use model_history::OpId;
use std::alloc::{AllocError, Global};
use std::marker::Model;

/// Which cell a sealer looks at next.
///
/// First the return cells, lane by lane: those given at the start from the last down to the first, and then those after
/// them upwards until the first empty one. Then the call cells, lane by lane, from the first whose return was not found
/// upwards until the first empty one. The end of a lane counts as empty, and is not looked at.
#[derive(Drop)]
pub struct CutPlan {
    cap: usize,
    lanes: Vec<LanePlan>,
}

impl Model for CutPlan {
    ghost use Rattle.live_cut_plan.specs.Steps.PlanStates.{PlanState};
    ghost use Rattle.live_cut_plan.specs.Walks.{StandsForLooks};

    ghost Value = { PlanState };

    ghost view = { λ p. record { cap = p.cap; lanes = p.lanes.items } };

    ghost invariant = { λ p. StandsForLooks (record { cap = p.cap; lanes = p.lanes.items }) };
}

impl CutPlan {
    /// The plan for `k` lanes of `cap` places, for a sealer that is given so many operations of each lane.
    ///
    /// Fails for want of memory alone. O(k).
    pub fn new(alloc: Global, k: usize, cap: usize, told: &[u16]) -> Result<CutPlan, AllocError>
        requires many { length told.now ≡ k }
        requires within { (s : ℕ) → slice_index told.now s ≤ cap }
        ensures { IfOk result (λ plan. Stands plan (fresh_plan k cap told.now)) }
    {
        let mut lanes = Vec::with_capacity(alloc, k)?;
        for s in 0..k {
            lanes.push(LanePlan::new(usize::from(told[s])))?;
        }
        Ok(CutPlan { cap, lanes })
    }

    /// How many places each lane has.
    pub fn places(&self) -> usize
        ensures places { result ≡ self.now.cap }
        ensures looked { StandsForLooks self.now }
    {
        self.cap
    }

    /// The cell that is next: the same until `give` is called, and none when the plan is done. O(k).
    ///
    /// The clause `looked` says that the plan comes from looks that a new plan asked for, so the rules hold of these looks.
    pub fn next(&self) -> Option<Cell>
        ensures looked { StandsForLooks self.now }
        ensures next { result ≡ state_next self.now }
        ensures rule { (p : Plan) → Stands self.now p → result ≡ next_cell p }
    {
        // (the check learns here what the type keeps)
        let _places = self.places();
        match self.first_return() {
            Some(cell) => Some(cell),
            None => self.first_call(),
        }
    }

    /// How many returns of a lane were found, including those given at the start; 0 if there is no such lane.
    pub fn returns_found(&self, s: usize) -> usize
        ensures { (p : Plan) → Stands self.now p → s < p.lanes → result ≡ returns_found p s }
    {
        if s < self.lanes.len() {
            self.lanes[s].returns
        } else {
            0
        }
    }

    /// How many calls of a lane were found, including those whose returns were found; 0 if there is no such lane.
    pub fn calls_found(&self, s: usize) -> usize
        ensures { (p : Plan) → Stands self.now p → s < p.lanes → result ≡ calls_found p s }
    {
        if s < self.lanes.len() {
            self.lanes[s].found(self.cap)
        } else {
            0
        }
    }

    fn first_return(&self) -> Option<Cell>
        ensures { result ≡ first_of (return_of self.now.cap) 0 self.now.lanes }
    {
        for s in 0..self.lanes.len() {
            if let Some(i) = self.lanes[s].next_return(self.cap) {
                return Some(Cell::Return(OpId::at(s, i)));
            }
        }
        None
    }

    fn first_call(&self) -> Option<Cell>
        ensures { result ≡ first_of (call_of self.now.cap) 0 self.now.lanes }
    {
        for s in 0..self.lanes.len() {
            if let Some(i) = self.lanes[s].next_call(self.cap) {
                return Some(Cell::Call(OpId::at(s, i)));
            }
        }
        None
    }

    /// Receives whether the next cell was full. When the plan is done it changes nothing. O(k).
    pub fn give(&mut self, full: bool)
        ensures rule { (p : Plan) → Stands self.old p → Stands self.new (looked_at p (next_cell p) full) }
        ensures done { state_next self.old ≡ None → self.new ≡ self.old }
        ensures fewer { IsSome (state_next self.old) → looks_left self.new < looks_left self.old }
    {
        let cap = self.cap;
        match self.next() {
            Some(Cell::Return(op)) => self.lanes[op.session_place()].give_return(full, cap),
            Some(Cell::Call(op)) => self.lanes[op.session_place()].give_call(full, cap),
            None => {}
        }
    }
}
