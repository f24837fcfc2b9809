//! Notes of the cells of one session in a seal.

ghost use Rattle.std.specs.Prelude.{◌≡◌, ◌<◌, length, slice_get, Some};

use live_recorder::{NoteList, Recorded, ReturnRecord};
use once_cell::race::Note;
use std::marker::Model;

/// Notes of the cells of one session that a seal holds.
#[derive(Drop)]
pub(crate) struct SealedLane<O: Recorded> {
    returns: NoteList<ReturnRecord<O>>,
    calls: NoteList<O::Call>,
}

impl<O: Recorded> Model for SealedLane<O> {
    ghost use Rattle.live_seals.specs.Steps.Tables.{SealedNotes};

    ghost Value = { SealedNotes O.Call O.Ret };

    ghost view = { λ l. record { returns = l.returns.list; calls = l.calls.list } };
}

impl<O: Recorded> SealedLane<O> {
    pub(crate) fn of(returns: NoteList<ReturnRecord<O>>, calls: NoteList<O::Call>) -> SealedLane<O>
        ensures { result ≡ record { returns = returns.list; calls = calls.list } }
    {
        SealedLane { returns, calls }
    }

    /// How many returns it holds.
    pub(crate) fn returned(&self) -> usize
        ensures { result ≡ length self.now.returns }
    {
        self.returns.len()
    }

    /// How many calls it holds after the returns.
    pub(crate) fn called(&self) -> usize
        ensures { result ≡ length self.now.calls }
    {
        self.calls.len()
    }

    /// A note of a return cell. `blank` is a note of any cell.
    pub(crate) fn told_return(
        &self,
        at: usize,
        blank: Note<ReturnRecord<O>>,
    ) -> Note<ReturnRecord<O>>
        requires { at < length self.now.returns }
        ensures { slice_get self.now.returns at ≡ Some (result.cell, result.known) }
    {
        self.returns.told(at, blank)
    }

    /// A note of a call cell. `blank` is a note of any cell.
    pub(crate) fn told_call(&self, at: usize, blank: Note<O::Call>) -> Note<O::Call>
        requires { at < length self.now.calls }
        ensures { slice_get self.now.calls at ≡ Some (result.cell, result.known) }
    {
        self.calls.told(at, blank)
    }
}
