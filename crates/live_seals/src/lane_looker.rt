//! A looker at the lanes of a recorder, which keeps a note of each cell that it finds full.

ghost use Rattle.std.specs.Prelude.{◌≡◌, ℕ, ◌<◌, ◌≤◌, ◌++◌, ◌∷◌, [], length, IfOk, IfSome, OnErr, Some, slice_get, slice_index};
ghost use Rattle.live_recorder.specs.Lanes.{Cells};
ghost use Rattle.live_cut_plan.specs.Plans.{return_cell};
ghost use Rattle.live_seals.specs.Seals.{AreReceiptsOf, AreToldBy};
ghost use Rattle.live_seals.specs.Steps.InLanes.{AreWithin, HasReceipt, IsCallFoundAt, IsReturnFoundAt};
ghost use Rattle.live_seals.specs.Steps.Tables.{AreTables, TellsLooks};
ghost use Rattle.live_seals.specs.Steps.Looking.{Looked, NotLooked};

use crate::finding::{find_call, find_return};
use crate::found::Found;
use crate::lane_table::LaneTable;
use crate::longest::longest;
use crate::looker::Looker;
use live_cut_plan::Cell;
use live_recorder::{Lanes, Receipt, Recorded, ReturnRecord};
use model_history::OpId;
use std::alloc::{AllocError, Global};
use std::marker::Model;

/// Looks at the cells of a recorder's lanes, and keeps what it found.
#[derive(Drop)]
pub struct LaneLooker<'a, O: Recorded> {
    pub(crate) alloc: Global,
    pub(crate) lanes: &'a Lanes<O>,
    pub(crate) receipts: &'a [Receipt<O>],
    told: Vec<u16>,
    cap: usize,
    looks: Vec<(Cell, bool)>,
    pub(crate) tables: Vec<LaneTable<O>>,
}

impl<'a, O: Recorded> Model for LaneLooker<'a, O> {
    ghost use Rattle.live_seals.specs.Seals.{LookerState};
    ghost use Rattle.live_seals.specs.Steps.Tables.{IsLooker};

    ghost Value = { LookerState O.Start O.Call O.Ret };

    ghost view = { λ l. record {
      lanes = l.lanes.now;
      receipts = l.receipts.now;
      told = l.told.items;
      cap = l.cap;
      looks = l.looks.items;
    } };

    ghost invariant = { λ l. IsLooker l.lanes.now l.receipts.now l.told.items l.cap l.looks.items l.tables.items };
}

impl<'a, O: Recorded> LaneLooker<'a, O> {
    /// A looker at these lanes, which is given these receipts of them.
    ///
    /// Fails for want of memory alone. O(n + k r) for n cells of k lanes and r receipts.
    pub fn new(
        alloc: Global,
        lanes: &'a Lanes<O>,
        told: &'a [Receipt<O>],
    ) -> Result<LaneLooker<'a, O>, AllocError>
        requires { AreReceiptsOf lanes.now told.now }
        ensures lanes { IfOk result (λ l. l.lanes ≡ lanes.now) }
        ensures receipts { IfOk result (λ l. l.receipts ≡ told.now) }
        ensures looks { IfOk result (λ l. l.looks ≡ []) }
    {
        let counts = told_counts(alloc, lanes, told)?;
        let tables = tables_of(alloc, lanes)?;
        let cap = most_places(lanes);
        Ok(LaneLooker {
            alloc,
            lanes,
            receipts: told,
            told: counts,
            cap,
            looks: Vec::new(alloc),
            tables,
        })
    }

    /// How many operations of each lane the receipts cover.
    pub fn told(&self) -> &[u16]
        ensures told { result.now ≡ self.now.told }
        ensures counts { AreToldBy self.now.lanes self.now.receipts result.now }
        ensures within { (s : ℕ) → slice_index result.now s ≤ self.now.cap }
    {
        &self.told
    }

    /// How many lanes there are.
    pub fn lanes(&self) -> usize
        ensures { result ≡ length self.now.lanes.cells }
    {
        self.lanes.len()
    }

    /// How many places the lanes have at most.
    pub fn places(&self) -> usize
        ensures places { result ≡ self.now.cap }
        ensures most { (s : ℕ) (lane : Cells) → slice_get self.now.lanes.cells s ≡ Some lane → length lane.calls ≤ result }
    {
        self.cap
    }

    fn look_at_return(&mut self, op: OpId) -> Result<bool, AllocError>
        ensures looked { IfOk result (λ full. Looked self.old (Cell.Return op) full self.new) }
        ensures refused { OnErr result (NotLooked self.old self.new) }
    {
        let found = self.find_return_of(op);
        self.looks.push((Cell::Return(op), found.is_some()))?;
        let Some(found) = found else {
            return Ok(false);
        };
        self.tables[op.session_place()].keep_return(op.place(), found);
        Ok(true)
    }

    fn look_at_call(&mut self, op: OpId) -> Result<bool, AllocError>
        ensures looked { IfOk result (λ full. Looked self.old (Cell.Call op) full self.new) }
        ensures refused { OnErr result (NotLooked self.old self.new) }
    {
        let found = self.find_call_of(op);
        self.looks.push((Cell::Call(op), found.is_some()))?;
        let Some(found) = found else {
            return Ok(false);
        };
        self.tables[op.session_place()].keep_call(op.place(), found);
        Ok(true)
    }

    fn find_return_of(&self, op: OpId) -> Option<Found<ReturnRecord<O>>>
        ensures { IfSome result (IsReturnFoundAt self.now.lanes.cells op) }
    {
        let session = op.session_place();
        if session >= self.lanes.len() {
            return None;
        }
        find_return(self.lanes.lane(session), op.place())
    }

    fn find_call_of(&self, op: OpId) -> Option<Found<O::Call>>
        ensures { IfSome result (IsCallFoundAt self.now.lanes.cells op) }
    {
        let session = op.session_place();
        if session >= self.lanes.len() {
            return None;
        }
        find_call(self.lanes.lane(session), op.place())
    }
}

impl<'a, O: Recorded> Looker for LaneLooker<'a, O> {
    ghost use Rattle.std.specs.Prelude.{refl};
    ghost use Rattle.live_seals.specs.Steps.Looking.{KeepsLanes, keeps_lanes_on};

    ghost looks = { λ l. l.looks };

    ghost keeps = { λ a b. KeepsLanes a b };

    ghost keeps_itself = { λ a. (refl, refl, refl, refl) };

    ghost keeps_on = { λ a b c. keeps_lanes_on a b c };

    fn look(&mut self, cell: Cell) -> Result<bool, AllocError> {
        match cell {
            Cell::Return(op) => self.look_at_return(op),
            Cell::Call(op) => self.look_at_call(op),
        }
    }
}

// For each lane how many operations these receipts of it cover.
fn told_counts<O: Recorded>(
    alloc: Global,
    lanes: &Lanes<O>,
    receipts: &[Receipt<O>],
) -> Result<Vec<u16>, AllocError>
    requires { AreReceiptsOf lanes.now receipts.now }
    ensures told { IfOk result (λ told. AreToldBy lanes.now receipts.now told.items) }
    ensures within { IfOk result (λ told. AreWithin lanes.now.cells told.items) }
{
    let mut told = Vec::with_capacity(alloc, lanes.len())?;
    for s in 0..lanes.len() {
        told.push(told_count(lanes, receipts, s))?;
    }
    Ok(told)
}

fn told_count<O: Recorded>(lanes: &Lanes<O>, receipts: &[Receipt<O>], s: usize) -> u16
    requires receipts { AreReceiptsOf lanes.now receipts.now }
    requires lane { s < length lanes.now.cells }
    ensures most { (j : ℕ) (r : _) → slice_get receipts.now j ≡ Some r → r.lane ≡ s → length r.operations ≤ result }
    ensures reached { 0 < result → HasReceipt receipts.now s result }
    ensures within { (lane : Cells) → slice_get lanes.now.cells s ≡ Some lane → result ≤ length lane.calls }
{
    let best = longest(receipts, s);
    if best.count == 0 {
        return 0;
    }
    let receipt = &receipts[best.at];
    let _places = lanes.lane(s).places();
    receipt.len() as u16
}

// For each lane a table with nothing found.
fn tables_of<O: Recorded>(alloc: Global, lanes: &Lanes<O>) -> Result<Vec<LaneTable<O>>, AllocError>
    ensures tables { IfOk result (λ tables. AreTables lanes.now.cells tables.items) }
    ensures fresh { IfOk result (λ tables. (s : ℕ) (t : _) → slice_get tables.items s ≡ Some t → TellsLooks [] s t) }
{
    let mut tables = Vec::with_capacity(alloc, lanes.len())?;
    for s in 0..lanes.len() {
        tables.push(LaneTable::new(alloc, lanes.lane(s).places())?)?;
    }
    Ok(tables)
}

// How many places the lanes have at most.
fn most_places<O: Recorded>(lanes: &Lanes<O>) -> usize
    ensures { (s : ℕ) (lane : Cells) → slice_get lanes.now.cells s ≡ Some lane → length lane.calls ≤ result }
{
    let mut most = 0;
    for s in 0..lanes.len() {
        most = larger(most, lanes.lane(s).places());
    }
    most
}

fn larger(a: usize, b: usize) -> usize
    ensures first { a ≤ result }
    ensures second { b ≤ result }
{
    if a < b { b } else { a }
}
