//! A receipt, which shows that an operation and those before it in its session have returned.

ghost use Rattle.std.specs.Prelude.{◌≡◌, ◌-◌, ◌<◌, ℕ, length, map, option_map, slice_get, Some};
ghost use Rattle.live_recorder.specs.Lanes.{operations, shown};
ghost use Rattle.live_recorder.specs.Sessions.{IsReceipt, last_of, session_operation};

use crate::note_list::NoteList;
use crate::recorded::Recorded;
use crate::return_record::ReturnRecord;
use model_history::OpId;
use once_cell::race::Note;
use std::marker::Model;

/// Shows that an operation and every earlier one of its session have returned.
#[derive(Drop)]
pub struct Receipt<O: Recorded> {
    session: u64,
    notes: NoteList<ReturnRecord<O>>,
    call: O::Call,
    ret: O::Ret,
}

impl<O: Recorded> Model for Receipt<O> {
    ghost use Rattle.std.specs.Prelude.{map};
    ghost use Rattle.live_recorder.specs.Lanes.{operations};
    ghost use Rattle.live_recorder.specs.Sessions.{ReceiptState, IsReceipt};

    ghost Value = { ReceiptState O.Call O.Ret };

    ghost view = { λ r. record { lane = r.session; cells = map (λ n. n.0) r.notes.list; operations = operations r.notes.list } };

    ghost invariant = { λ r. IsReceipt r.notes.list r.call r.ret };
}

impl<O: Recorded> Receipt<O> {
    pub(crate) fn of(
        session: u64,
        notes: NoteList<ReturnRecord<O>>,
        call: O::Call,
        ret: O::Ret,
    ) -> Receipt<O>
        requires { IsReceipt notes.list call ret }
        ensures { result ≡ record { lane = session; cells = map (λ n. n.0) notes.list; operations = operations notes.list } }
    {
        Receipt {
            session,
            notes,
            call,
            ret,
        }
    }

    /// The operation.
    pub fn op(&self) -> OpId
        ensures { result ≡ session_operation self.now.lane (length self.now.operations - 1) }
    {
        OpId {
            session: self.session,
            index: (self.notes.len() - 1) as u64,
        }
    }

    /// Its call.
    pub fn call(&self) -> O::Call
        ensures { option_map (λ o. o.0) (last_of self.now) ≡ Some result }
    {
        self.call
    }

    /// Its return.
    pub fn ret(&self) -> O::Ret
        ensures { option_map (λ o. o.1) (last_of self.now) ≡ Some result }
    {
        self.ret
    }

    /// How many operations it covers.
    pub fn len(&self) -> usize
        ensures operations { result ≡ length self.now.operations }
        ensures cells { result ≡ length self.now.cells }
    {
        self.notes.len()
    }

    /// A note of the return cell of one of its operations. `blank` is a note of any cell.
    pub fn told(&self, at: usize, blank: Note<ReturnRecord<O>>) -> Note<ReturnRecord<O>>
        requires { at < length self.now.operations }
        ensures cell { slice_get self.now.cells at ≡ Some result.cell }
        ensures operation { shown result.known ≡ slice_get self.now.operations at }
    {
        self.notes.told(at, blank)
    }
}
