//! The lane of one session: the cells in which its calls and returns are recorded.

ghost use Rattle.std.specs.Prelude.{◌≡◌, ◌<◌, ◌≤◌, ℕ, length, map, IfOk, IfErr, MatchOption, None, Some, slice_get};
ghost use Rattle.once_cell.specs.Once.{cell_name};
ghost use Rattle.live_recorder.specs.Lanes.{IsKnownAs, IsLane, IsStillUnknown};

use crate::recorded::Recorded;
use crate::return_record::ReturnRecord;
use model_history::MAX_OPERATIONS;
use once_cell::race::{Note, OnceBox};
use std::alloc::{AllocError, Global};
use std::marker::Model;

/// The cells of one session: for each place one for the call, and one for the return.
///
/// Each cell is set at most once, by its session, and read by anybody.
#[derive(Drop)]
pub struct Lane<O: Recorded> {
    calls: Vec<OnceBox<O::Call>>,
    returns: Vec<OnceBox<ReturnRecord<O>>>,
}

impl<O: Recorded> Model for Lane<O> {
    ghost use Rattle.std.specs.Prelude.{map};
    ghost use Rattle.once_cell.specs.Once.{cell_name};
    ghost use Rattle.live_recorder.specs.Lanes.{Cells, IsLane};

    ghost Value = { Cells };

    ghost view = { λ l. record { calls = map cell_name l.calls.items; returns = map cell_name l.returns.items } };

    ghost invariant = { λ l. IsLane (record { calls = map cell_name l.calls.items; returns = map cell_name l.returns.items }) };
}

impl<O: Recorded> Lane<O> {
    /// A lane of empty cells.
    pub(crate) fn new(alloc: Global, cap: usize) -> Result<Lane<O>, AllocError>
        requires { cap ≤ MAX_OPERATIONS }
        ensures { IfOk result (λ l. length l.calls ≡ cap) }
    {
        let calls = empty_cells(alloc, cap)?;
        let returns = empty_cells(alloc, cap)?;
        Ok(Lane { calls, returns })
    }

    /// How many operations the lane has places for: at most 256.
    pub fn places(&self) -> usize
        ensures places { result ≡ length self.now.calls }
        ensures lane { IsLane self.now }
    {
        self.calls.len()
    }

    /// Sets a call cell.
    pub(crate) fn set_call(
        &self,
        at: usize,
        call: Box<O::Call>,
    ) -> Result<Note<O::Call>, Box<O::Call>>
        requires { at < length self.now.calls }
        ensures cell { IfOk result (λ n. slice_get self.now.calls at ≡ Some n.cell) }
        ensures known { IfOk result (λ n. n.known ≡ Some call.value) }
    {
        set(&self.calls[at], call)
    }

    /// Sets a return cell.
    pub(crate) fn set_return(
        &self,
        at: usize,
        returned: Box<ReturnRecord<O>>,
    ) -> Result<Note<ReturnRecord<O>>, Box<ReturnRecord<O>>>
        requires { at < length self.now.returns }
        ensures cell { IfOk result (λ n. slice_get self.now.returns at ≡ Some n.cell) }
        ensures known { IfOk result (λ n. n.known ≡ Some returned.value) }
        ensures back { IfErr result (λ b. b.value ≡ returned.value) }
    {
        set(&self.returns[at], returned)
    }

    /// A note of a call cell that knows nothing yet.
    pub fn call_note(&self, at: usize) -> Note<O::Call>
        requires { at < length self.now.calls }
        ensures cell { slice_get self.now.calls at ≡ Some result.cell }
        ensures known { result.known ≡ None }
    {
        self.calls[at].note()
    }

    /// A note of a return cell that knows nothing yet.
    pub fn return_note(&self, at: usize) -> Note<ReturnRecord<O>>
        requires { at < length self.now.returns }
        ensures cell { slice_get self.now.returns at ≡ Some result.cell }
        ensures known { result.known ≡ None }
    {
        self.returns[at].note()
    }

    /// What a call cell holds. The note then knows it. `None` only if the note knows nothing. One load.
    pub fn call<'a>(&'a self, at: usize, note: &mut Note<O::Call>) -> Option<&'a O::Call>
        requires place { at < length self.now.calls }
        requires cell { slice_get self.now.calls at ≡ Some note.old.cell }
        ensures cell { note.new.cell ≡ note.old.cell }
        ensures value { MatchOption result (IsStillUnknown note.old.known note.new.known)
            (λ r. IsKnownAs r.now note.old.known note.new.known) }
    {
        self.calls[at].get_as(note)
    }

    /// What a return cell holds. The note then knows it. `None` only if the note knows nothing. One load.
    pub fn return_record<'a>(
        &'a self,
        at: usize,
        note: &mut Note<ReturnRecord<O>>,
    ) -> Option<&'a ReturnRecord<O>>
        requires place { at < length self.now.returns }
        requires cell { slice_get self.now.returns at ≡ Some note.old.cell }
        ensures cell { note.new.cell ≡ note.old.cell }
        ensures value { MatchOption result (IsStillUnknown note.old.known note.new.known)
            (λ r. IsKnownAs r.now note.old.known note.new.known) }
    {
        self.returns[at].get_as(note)
    }
}

fn empty_cells<T: Drop>(alloc: Global, many: usize) -> Result<Vec<OnceBox<T>>, AllocError>
    ensures { IfOk result (λ cells. length cells.items ≡ many) }
{
    let mut cells = Vec::with_capacity(alloc, many)?;
    for _place in 0..many {
        cells.push(OnceBox::new(alloc))?;
    }
    Ok(cells)
}

fn set<T: Drop>(cell: &OnceBox<T>, value: Box<T>) -> Result<Note<T>, Box<T>>
    ensures cell { IfOk result (λ n. n.cell ≡ cell_name cell.now) }
    ensures known { IfOk result (λ n. n.known ≡ Some value.value) }
    ensures back { IfErr result (λ b. b.value ≡ value.value) }
{
    let mut note = cell.note();
    match cell.set_as(value, &mut note) {
        Ok(()) => Ok(note),
        Err(back) => Err(back),
    }
}
