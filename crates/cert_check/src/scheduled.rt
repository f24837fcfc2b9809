//! The check of one schedule of a certificate: the order in which it names operations.

ghost use Rattle.std.specs.Prelude.{◌≡◌, ◌↔◌, length, IsTrue};
ghost use Rattle.model_history.specs.History.{IsOp};
ghost use Rattle.order_causal.specs.Vectors.{AreVectorsOf, IsVectorOk};
ghost use Rattle.cert_check.specs.Schedules.{IsSchedule};
ghost use Rattle.cert_check.specs.Steps.Namings.{AreCountsAt, AreNamedWell};
ghost use Rattle.cert_check.specs.Steps.Needs.{AreNeedsOf};

use crate::naming::Naming;
use crate::need::Needs;
use model_history::{History, OpId};
use model_object_trait::SeqObject;
use order_causal::{Vectors, vector_ok};

/// Whether the vector and the schedule of an operation are good, continuing from another list that names operations well.
///
/// O(p + k^2) for k sessions and p numbers of both lists after the place where they part, if each need is one operation.
pub fn is_schedule<O: SeqObject>(
    naming: &mut Naming,
    h: &History<O>,
    v: &Vectors,
    needs: &Needs,
    before: &[u8],
    schedule: &[u8],
    op: OpId,
) -> bool
    requires shape { AreVectorsOf h.now v.now }
    requires needs { AreNeedsOf v.now needs.now }
    requires is_op { IsOp h.now op }
    requires counts { AreCountsAt before.now (length before.now) (length h.now.1) naming.old.counts.items }
    requires well { AreNamedWell h.now v.now before.now (length before.now) }
    ensures exact { IsTrue result ↔ (IsVectorOk h.now v.now op × IsSchedule h.now v.now op schedule.now) }
    ensures on { IsTrue result → AreCountsAt schedule.now (length schedule.now) (length h.now.1) naming.new.counts.items }
    ensures width { length naming.new.counts.items ≡ length h.now.1 }
{
    if !vector_ok(h, v, op) {
        return false;
    }
    if !naming.go_on(h, v, needs, before, schedule) {
        return false;
    }
    naming.ends_at(v.get(op))
}
