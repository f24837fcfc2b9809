//! The check of one piece of a certificate for causal convergence, against the one list of all operations.

ghost use Rattle.std.specs.Prelude.{◌≡◌, ◌+◌, ◌<◌, ◌↔◌, ℕ, length, filter, take, IfOk, IsTrue};
ghost use Rattle.model_history.specs.History.{session, IsOp};
ghost use Rattle.order_causal.specs.Vectors.{AreVectorsOf};
ghost use Rattle.cert_check.specs.Certificates.{counted, IsArbitratedPiece};
ghost use Rattle.order_causal.specs.Schedules.{placed};
ghost use Rattle.cert_check.specs.Schedules.{named};
ghost use Rattle.cert_check.specs.Steps.Namings.{AreCountsAt};
ghost use Rattle.cert_check.specs.Steps.Replays.{IsAnsweredAfter, NamesOperations};

use crate::considered::is_answered_at;
use crate::list_walk::ListWalk;
use crate::naming::Naming;
use model_history::{History, OpId};
use model_object_trait::SeqObject;
use order_causal::{Vectors, vector_ok};
use std::alloc::{AllocError, Global};

/// Whether the vector of an operation and the one list explain its known return. The walk over the list goes on from operation to
/// operation.
///
/// Fails for want of memory alone. O(p + q + k^2) for k sessions, p numbers between the walk's place and the operation, and q
/// between the operation and the last call before it that settles its answer.
pub fn is_arbitrated_piece<O: SeqObject>(
    alloc: Global,
    walk: &mut ListWalk,
    h: &History<O>,
    v: &Vectors,
    list: &[u8],
    op: OpId,
) -> Result<bool, AllocError>
    requires shape { AreVectorsOf h.now v.now }
    requires whole { (s : ℕ) → placed list.now s ≡ length (session h.now s) }
    requires is_op { IsOp h.now op }
    requires counts { AreCountsAt list.now walk.old.place (length h.now.1) walk.old.naming.counts.items }
    ensures exact { IfOk result (λ yes. IsTrue yes ↔ IsArbitratedPiece O.answer h.now v.now list.now op) }
    ensures counts { AreCountsAt list.now walk.new.place (length h.now.1) walk.new.naming.counts.items }
{
    if !vector_ok(h, v, op) {
        return Ok(false);
    }
    let place = walk.go_behind(h, list, op);
    if !walk.naming.has_named_all(v, op) {
        return Ok(false);
    }
    is_answered_there(alloc, &walk.naming, h, v, list, place, op)
}

/// Whether the return of the operation at a place of the list, where it is known, is the answer after those before it that its
/// vector counts.
fn is_answered_there<O: SeqObject>(
    alloc: Global,
    behind: &Naming,
    h: &History<O>,
    v: &Vectors,
    list: &[u8],
    place: usize,
    op: OpId,
) -> Result<bool, AllocError>
    requires shape { AreVectorsOf h.now v.now }
    requires names { NamesOperations h.now list.now }
    requires is_op { IsOp h.now op }
    requires within { place < length list.now }
    requires counts { AreCountsAt list.now (place + 1) (length h.now.1) behind.now.counts.items }
    ensures { IfOk result (λ yes. IsTrue yes
        ↔ IsAnsweredAfter O.answer h.now (filter (counted v.now op) (take place (named list.now))) op) }
{
    if h.ret(op).is_none() {
        return Ok(true);
    }
    let mut naming = behind.copy(alloc)?;
    naming.back(list, place);
    let answered = is_answered_at(alloc, h, v, list, &mut naming, place, op);
    drop(naming);
    answered
}
