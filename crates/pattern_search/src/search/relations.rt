//! Happened-before relations of the last operations of sessions, with the raises that made them.

ghost use Rattle.std.specs.Prelude.{◌≡◌, ◌<◌, length, IfOk, MatchOption};
ghost use Rattle.pattern_search.specs.Steps.Relations.{HasNoRelation, IsMadeForLast};
ghost use Rattle.order_memory.specs.Memory.{IsDifferentiated};
ghost use Rattle.order_causal.specs.Vectors.{count as counted};

use model_history::OpId;
use order_causal::count_at;
use order_memory::{CausalOrder, HappenedBefore, Raise, Saturation};
use std::alloc::{AllocError, Global};
use std::marker::Model;

/// The happened-before relation of the last operation of a session, and how it was made.
///
/// Its vectors count exactly the relation. Raises made it from the causal order. Each raise names a right cause, and together they
/// reach all that the vectors count.
#[derive(Drop)]
pub struct Relation {
    op: OpId,
    happened: HappenedBefore,
}

impl Model for Relation {
    ghost use Rattle.model_history.specs.declared.op_id.OpId.{OpId as Operation};
    ghost use Rattle.order_causal.specs.Vectors.{Counts};
    ghost use Rattle.order_memory.specs.declared.growing_order.Raise.{Raise as RaisedCount};
    ghost use Rattle.order_memory.specs.Steps.HappenedBefores.{raises_of, vectors_of};
    ghost use Rattle.std.specs.Prelude.{List};

    ghost Value = { Operation × Counts × List RaisedCount };

    ghost view = { λ relation. (relation.op, vectors_of relation.happened, raises_of relation.happened) };
}

impl Relation {
    /// The relation of the last operation of a session.
    ///
    /// `None` exactly where the session has no operation, or where `most` is a number and the relation has more than `most`
    /// pairs that the causal order doesn't have. Fails for want of memory alone. O(n (log n + k^2) + m k log n) for n operations of k
    /// sessions and m pairs more than the causal order has.
    pub fn of_last(
        alloc: Global,
        order: &CausalOrder,
        session: usize,
        most: Option<u32>,
    ) -> Result<Option<Relation>, AllocError>
        requires distinct { IsDifferentiated order.now }
        requires exists { session < length order.now.1 }
        ensures { IfOk result (λ made. MatchOption made (HasNoRelation order.now most session) (IsMadeForLast order.now most session)) }
    {
        let mut happened = HappenedBefore::of(alloc, order, session, most)?;
        let operations = order.history().len(session);
        for index in 0..operations {
            happened = happened.take_next(order)?;
            match happened.saturation() {
                Saturation::GivenUp => return Ok(None),
                Saturation::Saturated | Saturation::Cyclic => {}
            }
        }
        if operations == 0 {
            return Ok(None);
        }
        let op = OpId::at(session, operations - 1);
        Ok(Some(Relation { op, happened }))
    }

    /// The operation whose relation it is.
    pub fn op(&self) -> OpId
        ensures { result ≡ self.now.0 }
    {
        self.op
    }

    /// How many operations of a session are before an operation.
    pub fn count(&self, op: OpId, session: usize) -> usize
        ensures { result ≡ counted self.now.1 op session }
    {
        count_at(self.happened.vectors(), op, session)
    }

    /// The raises above the vectors of the causal order, in turn.
    pub fn raises(&self) -> &[Raise]
        ensures { result.now ≡ self.now.2 }
    {
        self.happened.raises()
    }
}
