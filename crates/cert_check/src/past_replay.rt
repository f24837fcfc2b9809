//! Checks schedules one after another for the known returns of sessions.

ghost use Rattle.std.specs.Prelude.{◌≡◌, ◌↔◌, ◌≤◌, length, take, IfOk, IfSome, IsTrue};
ghost use Rattle.model_history.specs.History.{IsOp};
ghost use Rattle.order_causal.specs.Orders.{program_past};
ghost use Rattle.order_causal.specs.Vectors.{AreVectorsOf, Counts, IsVectorOk};
ghost use Rattle.cert_check.specs.Schedules.{named, IsSchedule};
ghost use Rattle.cert_check.specs.Steps.Replays.{AreAnswered, IsReplayAt};

use crate::asked_back::are_answered_behind;
use crate::kept::Kept;
use crate::naming::shared_front;
use crate::replay::Replay;
use model_history::{History, OpId};
use model_object_trait::SeqObject;
use order_causal::Vectors;
use std::alloc::{AllocError, Global};
use std::marker::Model;
use std::mem;

/// Checks the known returns in schedules of a history, one schedule after another. It checks each only from where it parts from the
/// one before, or continues a replay from the end of the one before if the schedule begins with that one.
#[derive(Drop)]
pub struct PastReplay<'a, O: SeqObject> {
    history: &'a History<O>,
    /// A schedule that answers all known returns of a session that it names, and the replay at its end if it was replayed.
    schedule: &'a [u8],
    session: u64,
    replay: Option<Replay<O>>,
}

impl<'a, O: SeqObject> Model for PastReplay<'a, O> {
    ghost use Rattle.model_history.specs.History.{HistoryValue};
    ghost use Rattle.std.specs.Prelude.{IfSome, length};
    ghost use Rattle.cert_check.specs.Schedules.{named};
    ghost use Rattle.cert_check.specs.Steps.Replays.{IsReplayAt};
    ghost use Rattle.cert_check.specs.Steps.Walks.{AnswersSession};

    ghost Value = { HistoryValue O.Start O.Call O.Ret };

    ghost view = { λ past. past.history.now };

    ghost invariant = { λ past. AnswersSession O.answer past.history.now past.schedule.now past.session
        × IfSome past.replay (λ replay. IsReplayAt O.stands past.history.now past.schedule.now (length past.schedule.now)
        (named past.schedule.now) replay.naming.counts.items replay.object) };
}

impl<'a, O: SeqObject> PastReplay<'a, O> {
    /// Replays of a history, before the first schedule.
    pub fn new(history: &'a History<O>) -> PastReplay<'a, O>
        ensures { result ≡ history.now }
    {
        PastReplay {
            history,
            schedule: &[],
            session: 0,
            replay: None,
        }
    }

    /// Whether the operations in the schedule of an operation explain the known returns of its session up to it.
    ///
    /// Fails for want of memory alone. If the one before is of the same session and was replayed, and the schedule begins with all
    /// of it: one call of the object for each number after it. Otherwise the known returns after the common beginning are checked
    /// from the end back; if the call that settles one of them isn't near before it, one call for each number of the schedule.
    pub fn explains(
        &mut self,
        alloc: Global,
        v: &Vectors,
        schedule: &'a [u8],
        op: OpId,
    ) -> Result<bool, AllocError>
        requires shape { AreVectorsOf self.old v.now }
        requires is_op { IsOp self.old op }
        requires vector { IsVectorOk self.old v.now op }
        requires schedule { IsSchedule self.old v.now op schedule.now }
        ensures exact { IfOk result (λ yes. IsTrue yes
            ↔ AreAnswered O.answer self.old (program_past op) schedule.now (length schedule.now)) }
        ensures same { self.new ≡ self.old }
    {
        match self.asked_back(alloc, v, schedule, op)? {
            Some(true) => {
                self.keep(None, schedule, op);
                Ok(true)
            }
            Some(false) => Ok(false),
            None => self.replays(alloc, schedule, op),
        }
    }

    /// The same, checked from the end of the schedule back. None where a replay can continue, or where that check doesn't decide it.
    fn asked_back(
        &self,
        alloc: Global,
        v: &Vectors,
        schedule: &[u8],
        op: OpId,
    ) -> Result<Option<bool>, AllocError>
        requires shape { AreVectorsOf self.now v.now }
        requires is_op { IsOp self.now op }
        requires vector { IsVectorOk self.now v.now op }
        requires schedule { IsSchedule self.now v.now op schedule.now }
        ensures { IfOk result (λ told. IfSome told (λ yes. IsTrue yes
            ↔ AreAnswered O.answer self.now (program_past op) schedule.now (length schedule.now))) }
    {
        let front = self.answered_front(schedule, op);
        if self.replay.is_some() && front == self.schedule.len() {
            return Ok(None);
        }
        are_answered_behind(alloc, self.history, v, schedule, front, op)
    }

    /// How many numbers a schedule shares from the front with the one before, if that is of the same session; else 0.
    fn answered_front(&self, schedule: &[u8], op: OpId) -> usize
        ensures { AreAnswered O.answer self.now (program_past op) schedule.now result }
    {
        if self.session == op.session {
            shared_front(self.schedule, schedule)
        } else {
            0
        }
    }

    /// Keeps a schedule that explains the known returns of its session up to an operation, and the replay at its end if it was
    /// replayed.
    fn keep(&mut self, replay: Option<Replay<O>>, schedule: &'a [u8], op: OpId)
        requires good { (v : Counts) × IsVectorOk self.old v op × IsSchedule self.old v op schedule.now }
        requires answered { AreAnswered O.answer self.old (program_past op) schedule.now (length schedule.now) }
        requires replayed { IfSome replay (λ r. IsReplayAt O.stands self.old schedule.now (length schedule.now) (named schedule.now)
            r.naming.counts.items r.object) }
        ensures { self.new ≡ self.old }
    {
        drop(mem::replace(&mut self.replay, replay));
        self.schedule = schedule;
        self.session = op.session;
    }

    /// Whether the operations in the schedule of an operation explain the known returns of its session up to it, by a replay.
    fn replays(&mut self, alloc: Global, schedule: &'a [u8], op: OpId) -> Result<bool, AllocError>
        requires good { (v : Counts) × IsVectorOk self.old v op × IsSchedule self.old v op schedule.now }
        ensures exact { IfOk result (λ yes. IsTrue yes
            ↔ AreAnswered O.answer self.old (program_past op) schedule.now (length schedule.now)) }
        ensures same { self.new ≡ self.old }
    {
        let (mut replay, from) = self.begun(alloc, schedule, op)?;
        match replay.go_through(self.history, schedule, from, Kept::ProgramPast(op)) {
            Ok(true) => {
                self.keep(Some(replay), schedule, op);
                Ok(true)
            }
            unanswered => {
                drop(replay);
                unanswered
            }
        }
    }

    /// A replay at a place of a schedule, with the known returns of its session up to an operation answered before that place. The
    /// place is the end of the schedule before if that was replayed, is of the same session and begins this one; else the front.
    fn begun(
        &mut self,
        alloc: Global,
        schedule: &[u8],
        op: OpId,
    ) -> Result<(Replay<O>, usize), AllocError>
        ensures within { IfOk result (λ r. r.1 ≤ length schedule.now) }
        ensures at { IfOk result (λ r. IsReplayAt O.stands self.old schedule.now r.1 (take r.1 (named schedule.now))
            r.0.naming.counts.items r.0.object) }
        ensures answered { IfOk result (λ r. AreAnswered O.answer self.old (program_past op) schedule.now r.1) }
        ensures same { self.new ≡ self.old }
    {
        let before = self.schedule;
        let shared = shared_front(before, schedule);
        if let Some(replay) = self.replay.take() {
            if self.session == op.session && shared == before.len() {
                return Ok((replay, shared));
            }
        }
        let replay = Replay::new(alloc, self.history)?;
        Ok((replay, 0))
    }
}
