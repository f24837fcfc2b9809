//! A walk through schedules, one after another.

ghost use Rattle.std.specs.Prelude.{◌≡◌, ◌↔◌, IfOk, IsTrue};
ghost use Rattle.model_history.specs.History.{IsOp};
ghost use Rattle.order_causal.specs.Vectors.{AreVectorsOf, IsVectorOk};
ghost use Rattle.cert_check.specs.Schedules.{IsSchedule};
ghost use Rattle.cert_check.specs.Steps.Needs.{AreNeedsOf};

use crate::naming::Naming;
use crate::need::Needs;
use crate::scheduled::is_schedule;
use model_history::{History, OpId};
use model_object_trait::SeqObject;
use order_causal::Vectors;
use std::alloc::{AllocError, Global};
use std::marker::Model;

/// Goes through schedules of a history one after another, and starts each where it parts from the one before.
#[derive(Drop)]
pub struct ScheduleWalk<'a, O: SeqObject> {
    history: &'a History<O>,
    vectors: &'a Vectors,
    needs: Needs,
    /// The last schedule of the walk, and how far each session is named at its end.
    schedule: &'a [u8],
    naming: Naming,
}

impl<'a, O: SeqObject> Model for ScheduleWalk<'a, O> {
    ghost use Rattle.model_history.specs.History.{HistoryValue};
    ghost use Rattle.order_causal.specs.Vectors.{Counts};
    ghost use Rattle.cert_check.specs.Steps.Walks.{IsAtEnd};

    ghost Value = { HistoryValue O.Start O.Call O.Ret × Counts };

    ghost view = { λ walk. (walk.history.now, walk.vectors.now) };

    ghost invariant = { λ walk. IsAtEnd walk.history.now walk.vectors.now walk.needs walk.schedule.now walk.naming.counts.items };
}

impl<'a, O: SeqObject> ScheduleWalk<'a, O> {
    /// A walk over schedules of a history by vectors, before the first of them.
    ///
    /// Fails for want of memory alone. O(k) for k sessions.
    pub fn new(
        alloc: Global,
        history: &'a History<O>,
        vectors: &'a Vectors,
        needs: Needs,
    ) -> Result<ScheduleWalk<'a, O>, AllocError>
        requires shape { AreVectorsOf history.now vectors.now }
        requires needs { AreNeedsOf vectors.now needs }
        ensures { IfOk result (λ walk. walk ≡ (history.now, vectors.now)) }
    {
        let naming = Naming::new(alloc, history)?;
        Ok(ScheduleWalk {
            history,
            vectors,
            needs,
            schedule: &[],
            naming,
        })
    }

    /// Whether the vector and the schedule of an operation are good.
    ///
    /// O(p + k^2) for k sessions and p numbers of the schedule and of the one before after the place where they part, if each need
    /// is one operation.
    pub fn is_schedule(&mut self, schedule: &'a [u8], op: OpId) -> bool
        requires is_op { IsOp self.old.0 op }
        ensures exact { IsTrue result ↔ (IsVectorOk self.old.0 self.old.1 op × IsSchedule self.old.0 self.old.1 op schedule.now) }
        ensures same { self.new ≡ self.old }
    {
        let before = self.schedule;
        if is_schedule(
            &mut self.naming,
            self.history,
            self.vectors,
            &self.needs,
            before,
            schedule,
            op,
        ) {
            self.schedule = schedule;
            return true;
        }
        self.naming.clear();
        self.schedule = &[];
        false
    }
}
