//! The one writer of a session's lane, which records each call and then its return.

ghost use Rattle.std.specs.Prelude.{◌≡◌, ◌<◌, ◌≤◌, ◌↔◌, ◌⊎◌, ℕ, [], length, IfOk, IfErr, OnErr, IsTrue, Some, None, slice_get};
ghost use Rattle.live_recorder.specs.Lanes.{shown};
ghost use Rattle.std.specs.Arc.{arc_value};
ghost use Rattle.live_recorder.specs.Sessions.{session_operation, begun, fresh_session, after_begin, receipt_of, CanReturn, HasFinished};
ghost use Rattle.live_recorder.specs.Refusals.{HasPlace, RefusesCall, RefusesReturn};

use crate::lane::Lane;
use crate::note_list::NoteList;
use crate::pending::Pending;
use crate::receipt::Receipt;
use crate::record_error::RecordError;
use crate::recorded::Recorded;
use crate::return_record::ReturnRecord;
use model_history::{Advice, MAX_OPERATIONS, OpId};
use model_object_trait::SeqObject;
use once_cell::race::Note;
use std::alloc::{AllocError, Global};
use std::marker::Model;
use std::sync::Arc;

/// Writes the lane of one session: begins its calls, and ends each with its return.
#[derive(Drop)]
pub struct Session<O: Recorded> {
    alloc: Global,
    index: u64,
    lane: Arc<Lane<O>>,
    calls: NoteList<O::Call>,
    returns: NoteList<ReturnRecord<O>>,
    pending: Option<Pending<O>>,
}

impl<O: Recorded> Model for Session<O> {
    ghost use Rattle.std.specs.Arc.{arc_value};
    ghost use Rattle.live_recorder.specs.Sessions.{SessionState, IsSession, session_state};

    ghost Value = { SessionState O.Call O.Ret };

    ghost view = { λ s. session_state s.index (arc_value s.lane) s.returns s.pending };

    ghost invariant = { λ s. IsSession (arc_value s.lane) s.calls s.returns s.pending };
}

impl<O: Recorded> Session<O> {
    /// The session that writes this lane. None of the lane's cells is set.
    pub(crate) fn new(alloc: Global, index: u64, lane: Arc<Lane<O>>) -> Session<O>
        ensures { result ≡ fresh_session index (arc_value lane) }
    {
        let _places = lane.places();
        Session {
            alloc,
            index,
            lane,
            calls: NoteList::new(alloc),
            returns: NoteList::new(alloc),
            pending: None,
        }
    }

    /// The call that is pending.
    pub fn pending(&self) -> Option<O::Call>
        ensures { result ≡ self.now.pending }
    {
        match &self.pending {
            Some(pending) => Some(pending.call()),
            None => None,
        }
    }

    /// Whether each place of the lane has an operation that has returned.
    pub fn is_full(&self) -> bool
        ensures { IsTrue result ↔ (length self.now.cells.calls ≤ length self.now.done) }
    {
        self.returns.len() >= self.lane.places()
    }

    /// The lane that it writes.
    pub fn lane(&self) -> u64
        ensures { result ≡ self.now.lane }
    {
        self.index
    }

    /// How many operations have returned.
    pub fn returned(&self) -> usize
        ensures { result ≡ length self.now.done }
    {
        self.returns.len()
    }

    /// How many operations it has begun.
    pub fn called(&self) -> usize
        ensures { result ≡ length (begun self.now.done self.now.pending) }
    {
        self.calls.len()
    }

    /// A note of the return cell of an operation that has returned. `blank` is a note of any cell.
    pub fn told_return(&self, at: usize, blank: Note<ReturnRecord<O>>) -> Note<ReturnRecord<O>>
        requires { at < length self.now.done }
        ensures cell { slice_get self.now.cells.returns at ≡ Some result.cell }
        ensures operation { shown result.known ≡ slice_get self.now.done at }
    {
        self.returns.told(at, blank)
    }

    /// A note of the call cell of an operation that was begun. `blank` is a note of any cell.
    pub fn told_call(&self, at: usize, blank: Note<O::Call>) -> Note<O::Call>
        requires { at < length (begun self.now.done self.now.pending) }
        ensures cell { slice_get self.now.cells.calls at ≡ Some result.cell }
        ensures call { result.known ≡ slice_get (begun self.now.done self.now.pending) at }
    {
        self.calls.told(at, blank)
    }

    /// Begins an operation: sets its call cell. It is pending until `finish`.
    ///
    /// Refuses in this order: `StillPending` where the last operation has no return yet, `LaneFull` where the lane has no
    /// place left, `Memory`, and `CellGaveBack`, which no run meets. Each refusal leaves the session as it was. O(1) for
    /// what is set, and O(n) steps without bytes for the n operations that the receipt will cover.
    pub fn begin(&mut self, call: O::Call) -> Result<OpId, RecordError>
        ensures op { IfOk result (λ o. o ≡ session_operation self.old.lane (length self.old.done)) }
        ensures placed { IfOk result (λ _. HasPlace self.old) }
        ensures begun { IfOk result (λ _. self.new ≡ after_begin self.old call) }
        ensures refused { IfErr result (λ e. RefusesCall self.old e) }
        ensures unchanged { OnErr result (self.new ≡ self.old) }
    {
        if self.pending().is_some() {
            return Err(RecordError::StillPending);
        }
        if self.is_full() {
            return Err(RecordError::LaneFull);
        }
        self.set_next_call(call)
    }

    // Sets the next call cell, of a session with a place and nothing pending.
    fn set_next_call(&mut self, call: O::Call) -> Result<OpId, RecordError>
        requires { HasPlace self.old }
        ensures op { IfOk result (λ o. o ≡ session_operation self.old.lane (length self.old.done)) }
        ensures begun { IfOk result (λ _. self.new ≡ after_begin self.old call) }
        ensures refused { IfErr result (λ e. (e ≡ RecordError.Memory) ⊎ (e ≡ RecordError.CellGaveBack)) }
        ensures unchanged { OnErr result (self.new ≡ self.old) }
    {
        let at = self.calls.len();
        let (boxed, pending) = prepare(self.alloc, call, &mut self.calls, &mut self.returns)?;
        let Ok(note) = self.lane.set_call(at, boxed) else {
            return Err(RecordError::CellGaveBack);
        };
        self.calls.push(note);
        self.pending = Some(pending);
        Ok(OpId {
            session: self.index,
            index: at as u64,
        })
    }

    // Sets the return cell of the pending call. The return fits the call.
    fn set_return(&mut self, ret: O::Ret, advice: Advice) -> Result<Receipt<O>, Advice>
        requires { CanReturn O.fitting self.old ret }
        ensures finished { IfOk result (λ _. HasFinished O.fitting self.old ret advice self.new) }
        ensures receipt { IfOk result (λ r. r ≡ receipt_of self.new) }
        ensures advice { IfErr result (λ a. a ≡ advice) }
        ensures unchanged { OnErr result (self.new ≡ self.old) }
    {
        let Some(pending) = self.pending.take() else {
            unreachable!();
        };
        match pending.complete(&self.lane, self.index, ret, advice) {
            Ok((note, receipt)) => {
                self.returns.push(note);
                Ok(receipt)
            }
            Err((pending, advice)) => {
                self.pending = Some(pending);
                Err(advice)
            }
        }
    }
}

impl<O: SeqObject> Session<O> {
    /// Ends the pending operation with its return and the store's advice: sets its return cell. Takes no memory.
    ///
    /// Refuses in this order: `NothingPending`, `WrongReturn` where the call cannot have a return of this kind, and
    /// `CellGaveBack`, which no run meets. Each refusal leaves the session as it was and hands the advice back. O(1).
    pub fn finish(
        &mut self,
        ret: O::Ret,
        advice: Advice,
    ) -> Result<Receipt<O>, (RecordError, Advice)>
        ensures finished { IfOk result (λ _. HasFinished O.matches self.old ret advice self.new) }
        ensures receipt { IfOk result (λ r. r ≡ receipt_of self.new) }
        ensures refused { IfErr result (λ e. RefusesReturn O.matches self.old ret e.0) }
        ensures advice { IfErr result (λ e. e.1 ≡ advice) }
        ensures unchanged { OnErr result (self.new ≡ self.old) }
    {
        let Some(call) = self.pending() else {
            return Err((RecordError::NothingPending, advice));
        };
        if !O::fits(&call, &ret) {
            return Err((RecordError::WrongReturn, advice));
        }
        match self.set_return(ret, advice) {
            Ok(receipt) => Ok(receipt),
            Err(advice) => Err((RecordError::CellGaveBack, advice)),
        }
    }
}

// All the memory that an operation takes.
fn prepare<O: Recorded>(
    alloc: Global,
    call: O::Call,
    calls: &mut NoteList<O::Call>,
    returns: &mut NoteList<ReturnRecord<O>>,
) -> Result<(Box<O::Call>, Pending<O>), AllocError>
    requires { length returns.old.list ≤ MAX_OPERATIONS }
    ensures calls { calls.new.list ≡ calls.old.list }
    ensures returns { returns.new.list ≡ returns.old.list }
    ensures call_room { IfOk result (λ _. 0 < calls.new.room) }
    ensures return_room { IfOk result (λ _. 0 < returns.new.room) }
    ensures boxed { IfOk result (λ p. p.0.value ≡ call) }
    ensures pending_call { IfOk result (λ p. p.1.call ≡ call) }
    ensures pending_notes { IfOk result (λ p. p.1.notes ≡ returns.old.list) }
{
    calls.reserve()?;
    returns.reserve()?;
    let boxed = Box::new(alloc, call)?;
    let pending = Pending::new(alloc, call, returns)?;
    Ok((boxed, pending))
}
