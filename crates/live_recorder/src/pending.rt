//! A call that is recorded and has not returned yet.

ghost use Rattle.std.specs.Prelude.{◌≡◌, ◌∷◌, ◌++◌, ◌+◌, ◌<◌, ◌≤◌, ℕ, true, [], length, take, map, option_map};
ghost use Rattle.std.specs.Prelude.{Some, None, IfOk, IfErr, slice_get};
ghost use Rattle.live_recorder.specs.Lanes.{Tells, IsFitting, operation, operations};
ghost use Rattle.live_recorder.specs.Sessions.{next_receipt};

use crate::lane::Lane;
use crate::note_list::NoteList;
use crate::receipt::Receipt;
use crate::recorded::Recorded;
use crate::return_record::ReturnRecord;
use model_history::{Advice, MAX_OPERATIONS};
use once_cell::race::Note;
use std::alloc::{AllocError, Global};
use std::marker::Model;

/// A call that is pending, with all that its return will need: the record for the cell, and the receipt's notes.
#[derive(Drop)]
pub(crate) struct Pending<O: Recorded> {
    call: O::Call,
    returned: Box<ReturnRecord<O>>,
    notes: NoteList<ReturnRecord<O>>,
}

impl<O: Recorded> Model for Pending<O> {
    ghost use Rattle.std.specs.Prelude.{◌≡◌, ◌<◌, None};
    ghost use Rattle.live_recorder.specs.Sessions.{Begun};

    ghost Value = { Begun O.Call O.Ret };

    ghost view = { λ p. record { call = p.call; notes = p.notes.list } };

    ghost invariant = { λ p. (p.returned.value ≡ (p.call, None)) × (0 < p.notes.room) };
}

impl<O: Recorded> Pending<O> {
    /// A pending call after the operations that these notes know.
    pub(crate) fn new(
        alloc: Global,
        call: O::Call,
        returns: &mut NoteList<ReturnRecord<O>>,
    ) -> Result<Pending<O>, AllocError>
        requires { length returns.old.list ≤ MAX_OPERATIONS }
        ensures list { returns.new.list ≡ returns.old.list }
        ensures room { returns.new.room ≡ returns.old.room }
        ensures call { IfOk result (λ p. p.call ≡ call) }
        ensures notes { IfOk result (λ p. p.notes ≡ returns.old.list) }
    {
        let returned = Box::new(alloc, ReturnRecord::pending(call))?;
        let notes = returns.again(alloc)?;
        Ok(Pending {
            call,
            returned,
            notes,
        })
    }

    /// The call.
    pub(crate) fn call(&self) -> O::Call
        ensures { result ≡ self.now.call }
    {
        self.call
    }

    /// Sets the return cell, and returns a note of it and the receipt. If the cell gives the record back, the call stays
    /// pending, and the advice is handed back.
    pub(crate) fn complete(
        self,
        lane: &Lane<O>,
        session: u64,
        ret: O::Ret,
        advice: Advice,
    ) -> Result<(Note<ReturnRecord<O>>, Receipt<O>), (Pending<O>, Advice)>
        requires fitting { O.fitting self.call ret ≡ true }
        requires place { length self.notes < length lane.now.returns }
        requires told { Tells operation lane.now.returns self.notes (operations self.notes) }
        ensures cell { IfOk result (λ r. slice_get lane.now.returns (length self.notes) ≡ Some r.0.cell) }
        ensures known { IfOk result (λ r. r.0.known ≡ Some (self.call, Some (ret, advice))) }
        ensures receipt { IfOk result (λ r. r.1 ≡ next_receipt session lane.now self ret advice) }
        ensures still { IfErr result (λ e. e.0 ≡ self) }
        ensures advice { IfErr result (λ e. e.1 ≡ advice) }
    {
        let Pending {
            call,
            mut returned,
            mut notes,
        } = self;
        returned.fill(ret, advice);
        match lane.set_return(notes.len(), returned) {
            Ok(mut note) => {
                notes.push(note.again());
                Ok((note, Receipt::of(session, notes, call, ret)))
            }
            Err(mut back) => match back.take() {
                Some((_, advice)) => {
                    let still = Pending {
                        call,
                        returned: back,
                        notes,
                    };
                    Err((still, advice))
                }
                None => unreachable!(),
            },
        }
    }
}
