//! The recorder of the world, its sessions and its sealers, and the steps that change them.

ghost use Rattle.std.specs.Prelude.{◌≡◌, ◌↔◌, ◌<◌, ◌≤◌, ℕ, [], length, option_copied, slice_get, IfOk, IsTrue, OnOk, None};
ghost use Rattle.live_cut_plan.specs.Plans.{Plan, fresh_plan};
ghost use Rattle.live_cut_plan.specs.Walks.{Stands};
ghost use Rattle.live_cut_plan.specs.Steps.PlanStates.{PlanState};
ghost use Rattle.live_simulation.specs.LaneReplies.{begin_refusal, end_refusal};
ghost use Rattle.live_simulation.specs.Steps.Recordings.{Gave, IsTellableIn, Shows, Takes, done_in, found_in, is_full_in, lane_of, next_in};
ghost use Rattle.live_simulation.specs.Steps.Worlds.{IsSealIn};
ghost use Rattle.live_simulation.specs.Steps.Recordings.{with_call, with_plan, with_return};

use crate::lane::Lane;
use crate::refusal::Refusal;
use crate::reply::{Reply, ReplyOf};
use crate::step::StepOf;
use crate::told::Told;
use live_seals::{Cell, CutPlan};
use model_history::{History, MAX_OPERATIONS, MAX_SESSIONS, OpId};
use model_object_trait::SeqObject;
use std::alloc::{AllocError, Global};
use std::marker::Model;

/// How many operations a session may have.

/// The sessions and the sealers of a recorder, as they are between two steps.
#[derive(Drop)]
pub struct Recording<O: SeqObject> {
    start: O::Start,
    lanes: Vec<Lane<O::Call, O::Ret>>,
    plans: Vec<CutPlan>,
}

impl<O: SeqObject> Model for Recording<O> {
    ghost use Rattle.live_simulation.specs.Steps.Recordings.{State, IsState};

    ghost Value = { State O.Start O.Call O.Ret };

    ghost view = { λ w. record { start = w.start; lanes = w.lanes.items; plans = w.plans.items } };

    ghost invariant = { λ w. IsState O.is_start O.matches (record { start = w.start; lanes = w.lanes.items; plans = w.plans.items }) };
}

impl<O: SeqObject> Recording<O> {
    /// `k` sessions that recorded nothing yet, and no sealer.
    ///
    /// Fails for want of memory alone. O(k).
    pub fn new(alloc: Global, k: usize, start: O::Start) -> Result<Recording<O>, AllocError>
        requires few { k ≤ MAX_SESSIONS }
        requires start { O.is_start start }
        ensures { IfOk result (λ w. Shows start k [] w) }
    {
        let mut lanes = Vec::with_capacity(alloc, k)?;
        for _session in 0..k {
            lanes.push(Lane::new(alloc))?;
        }
        let plans = Vec::new(alloc);
        Ok(Recording {
            start,
            lanes,
            plans,
        })
    }

    /// A session begins an operation.
    ///
    /// Refused in this order: `NoSuch` where there is no such session, `StillPending` where it has an operation that has
    /// not ended, `LaneFull` where it has 256 operations. O(1).
    pub fn begin(&mut self, s: usize, call: O::Call) -> Result<Reply<O>, AllocError>
        ensures { IfOk result (λ reply. Takes O.matches (StepOf.Begin s call) self.old reply self.new) }
    {
        if let Some(refusal) = self.begin_refusal(s) {
            return Ok(ReplyOf::Refused(refusal));
        }
        let op = OpId::at(s, self.begun(s));
        self.push_call(s, call)?;
        Ok(ReplyOf::Done(op))
    }

    /// Why a session may not begin an operation.
    fn begin_refusal(&self, s: usize) -> Option<Refusal>
        ensures { result ≡ begin_refusal (length self.now.lanes) s (lane_of self.now s).0 (lane_of self.now s).1 }
    {
        if s >= self.lanes.len() {
            return Some(Refusal::NoSuch);
        }
        if self.lanes[s].pending().is_some() {
            return Some(Refusal::StillPending);
        }
        if self.lanes[s].begun() < MAX_OPERATIONS {
            None
        } else {
            Some(Refusal::LaneFull)
        }
    }

    /// How many calls a session began.
    fn begun(&self, s: usize) -> usize
        ensures { result ≡ length (lane_of self.now s).0 }
    {
        if s < self.lanes.len() {
            self.lanes[s].begun()
        } else {
            0
        }
    }

    /// How many returns a session was given.
    fn ended(&self, s: usize) -> usize
        ensures { result ≡ length (lane_of self.now s).1 }
    {
        if s < self.lanes.len() {
            self.lanes[s].ended()
        } else {
            0
        }
    }

    /// Sets a session's next call.
    fn push_call(&mut self, s: usize, call: O::Call) -> Result<(), AllocError>
        requires { begin_refusal (length self.old.lanes) s (lane_of self.old s).0 (lane_of self.old s).1 ≡ None }
        ensures { OnOk result (self.new ≡ with_call self.old s call) }
    {
        self.lanes[s].push_call(call)
    }

    /// A session ends its operation.
    ///
    /// Refused in this order: `NoSuch` where there is no such session, `NothingPending` where it has no operation that has
    /// not ended, `WrongReturn` where the return does not fit the call. O(1).
    pub fn end(&mut self, s: usize, ret: O::Ret) -> Result<Reply<O>, AllocError>
        ensures { IfOk result (λ reply. Takes O.matches (StepOf.End s ret) self.old reply self.new) }
    {
        if let Some(refusal) = self.end_refusal(s, &ret) {
            return Ok(ReplyOf::Refused(refusal));
        }
        let op = OpId::at(s, self.ended(s));
        self.push_return(s, ret)?;
        Ok(ReplyOf::Done(op))
    }

    /// Why a session may not end its operation with a return.
    fn end_refusal(&self, s: usize, ret: &O::Ret) -> Option<Refusal>
        ensures { result ≡ end_refusal (length self.now.lanes) s (lane_of self.now s).0 (lane_of self.now s).1 O.matches ret.now }
    {
        if s >= self.lanes.len() {
            return Some(Refusal::NoSuch);
        }
        match self.lanes[s].pending() {
            None => Some(Refusal::NothingPending),
            Some(call) => {
                if O::fits(&call, ret) {
                    None
                } else {
                    Some(Refusal::WrongReturn)
                }
            }
        }
    }

    /// Sets a session's next return.
    fn push_return(&mut self, s: usize, ret: O::Ret) -> Result<(), AllocError>
        requires { end_refusal (length self.old.lanes) s (lane_of self.old s).0 (lane_of self.old s).1 O.matches ret ≡ None }
        ensures { OnOk result (self.new ≡ with_return self.old s ret) }
    {
        self.lanes[s].push_return(ret)
    }

    /// The next sealer starts.
    ///
    /// `NoSuch` where there is not one count for each session, or a count is above the number of operations that its session ended. O(k).
    pub fn start(&mut self, alloc: Global, told: &Told) -> Result<Reply<O>, AllocError>
        ensures { IfOk result (λ reply. Takes O.matches (StepOf.Start told.now) self.old reply self.new) }
    {
        let counts = told.counts();
        if !self.is_tellable(counts) {
            return Ok(ReplyOf::Refused(Refusal::NoSuch));
        }
        let number = self.sealers();
        self.push_plan(alloc, counts)?;
        Ok(ReplyOf::Sealer(number))
    }

    /// How many sealers started.
    fn sealers(&self) -> usize
        ensures { result ≡ length self.now.plans }
    {
        self.plans.len()
    }

    /// Whether these are one count for each session, none above the operations that it ended.
    fn is_tellable(&self, told: &[u16]) -> bool
        ensures { IsTrue result ↔ IsTellableIn self.now told.now }
    {
        if told.len() != self.lanes.len() {
            return false;
        }
        for s in 0..told.len() {
            if usize::from(told[s]) > self.lanes[s].ended() {
                return false;
            }
        }
        true
    }

    /// Adds the plan of a sealer that was given these counts.
    fn push_plan(&mut self, alloc: Global, told: &[u16]) -> Result<(), AllocError>
        requires { IsTellableIn self.old told.now }
        ensures { OnOk result ((st : PlanState) × (self.new ≡ with_plan self.old st)
            × Stands st (fresh_plan (length self.old.lanes) MAX_OPERATIONS told.now)) }
    {
        let plan = CutPlan::new(alloc, self.lanes.len(), MAX_OPERATIONS, told)?;
        self.plans.push(plan)?;
        Ok(())
    }

    /// A sealer looks at the cell that is next in its plan.
    ///
    /// `NoSuch` where there is no such sealer, or no cell is next in its plan. O(k).
    pub fn look(&mut self, z: usize) -> Reply<O>
        ensures { Takes O.matches (StepOf.Look z) self.old result self.new }
    {
        let Some(cell) = self.next(z) else {
            return ReplyOf::Refused(Refusal::NoSuch);
        };
        let full = self.is_full(cell);
        self.give(z, full);
        ReplyOf::Found(cell, full)
    }

    /// The cell that is next in a sealer's plan.
    fn next(&self, z: usize) -> Option<Cell>
        ensures { result ≡ next_in (slice_get self.now.plans z) }
    {
        match self.plans.get(z) {
            None => None,
            Some(plan) => plan.next(),
        }
    }

    /// Whether a cell is full.
    fn is_full(&self, cell: Cell) -> bool
        ensures { result ≡ is_full_in self.now cell }
    {
        match cell {
            Cell::Return(op) => op.place() < self.ended(op.session_place()),
            Cell::Call(op) => op.place() < self.begun(op.session_place()),
        }
    }

    /// Takes a look into a sealer's plan.
    fn give(&mut self, z: usize, full: bool)
        requires { z < length self.old.plans }
        ensures { Gave self.old z full self.new }
    {
        self.plans[z].give(full);
    }

    /// The history of a sealer.
    ///
    /// `NoSuch` where there is no such sealer, or a cell is next in its plan. O(n + k) for n operations of k sessions.
    pub fn show(&self, alloc: Global, z: usize) -> Result<Reply<O>, AllocError>
        ensures { IfOk result (λ reply. Takes O.matches (StepOf.Show z) self.now reply self.now) }
    {
        match self.finished(z) {
            None => Ok(ReplyOf::Refused(Refusal::NoSuch)),
            Some(plan) => {
                let history = self.sealed(alloc, plan)?;
                Ok(ReplyOf::Sealed(history))
            }
        }
    }

    /// The history of a sealer, where it has finished.
    ///
    /// Fails for want of memory alone. O(n + k) for n operations of k sessions.
    pub fn history(&self, alloc: Global, z: usize) -> Result<Option<History<O>>, AllocError>
        ensures { IfOk result (λ h. IsSealIn self.now z h) }
    {
        match self.finished(z) {
            None => Ok(None),
            Some(plan) => {
                let history = self.sealed(alloc, plan)?;
                Ok(Some(history))
            }
        }
    }

    /// The plan of a sealer in which no cell is next.
    fn finished(&self, z: usize) -> Option<&CutPlan>
        ensures { option_copied result ≡ done_in (slice_get self.now.plans z) }
    {
        match self.plans.get(z) {
            None => None,
            Some(plan) => {
                if plan.next().is_none() {
                    Some(plan)
                } else {
                    None
                }
            }
        }
    }

    /// The history that a plan found.
    fn sealed(&self, alloc: Global, plan: &CutPlan) -> Result<History<O>, AllocError>
        ensures { IfOk result (λ h. (p : Plan) → Stands plan.now p → p.lanes ≡ length self.now.lanes → h ≡ found_in self.now p) }
    {
        let mut sessions = Vec::with_capacity(alloc, self.lanes.len())?;
        for s in 0..self.lanes.len() {
            let calls = plan.calls_found(s);
            let returns = plan.returns_found(s);
            let ops = self.lanes[s].operations(alloc, calls, returns)?;
            sessions.push(ops)?;
        }
        let start = O::copy_start(alloc, &self.start)?;
        Ok(History::of(start, sessions))
    }
}
