//! The calls on which a known return depends.

ghost use Rattle.std.specs.Prelude.{◌≡◌, ◌≤◌, ◌↔◌, ◌∷◌, List, length, filter, take, IfOk, IfSome, IsSome, IsTrue, MatchOption};
ghost use Rattle.model_history.specs.declared.op_id.OpId.{OpId as Operation};
ghost use Rattle.model_history.specs.History.{IsOp, calls};
ghost use Rattle.order_causal.specs.Vectors.{AreVectorsOf, HasListOf};
ghost use Rattle.cert_check.specs.Certificates.{counted};
ghost use Rattle.cert_check.specs.Schedules.{named};
ghost use Rattle.cert_check.specs.Steps.Namings.{AreCountsAt};
ghost use Rattle.cert_check.specs.Steps.Replays.{considered, IsAnsweredAfter, IsAnsweredBy, IsCallOf, NamesOperations};

use crate::naming::Naming;
use model_history::{History, OpId};
use model_object_trait::{SeqObject, replay};
use order_causal::{Vectors, count_of};
use std::alloc::{AllocError, Global};

/// Whether the return of an operation, where it is known, is the answer after those operations before a place of a list that its
/// vector counts.
///
/// Fails for want of memory alone. O(p) for p numbers between that place and the last call before it that settles the answer, or
/// all numbers before that place if none does; O(1) where the answer depends on no call.
pub fn is_answered_at<O: SeqObject>(
    alloc: Global,
    h: &History<O>,
    v: &Vectors,
    list: &[u8],
    naming: &mut Naming,
    place: usize,
    op: OpId,
) -> Result<bool, AllocError>
    requires shape { AreVectorsOf h.now v.now }
    requires names { NamesOperations h.now list.now }
    requires is_op { IsOp h.now op }
    requires within { place ≤ length list.now }
    requires counts { AreCountsAt list.now place (length h.now.1) naming.old.counts.items }
    ensures { IfOk result (λ yes. IsTrue yes
        ↔ IsAnsweredAfter O.answer h.now (filter (counted v.now op) (take place (named list.now))) op) }
{
    let answered = is_answered_back_to(alloc, h, v, list, naming, 0, place, op, op)?;
    Ok(answered.unwrap())
}

/// The same for the operations that the vector of another operation counts, if the numbers from one place on decide it; none if
/// they don't. From the front they always do.
pub fn is_answered_back_to<O: SeqObject>(
    alloc: Global,
    h: &History<O>,
    v: &Vectors,
    list: &[u8],
    naming: &mut Naming,
    from: usize,
    place: usize,
    of: OpId,
    op: OpId,
) -> Result<Option<bool>, AllocError>
    requires listed { HasListOf v.now of }
    requires names { NamesOperations h.now list.now }
    requires is_op { IsOp h.now op }
    requires within { place ≤ length list.now }
    requires counts { AreCountsAt list.now place (length h.now.1) naming.old.counts.items }
    ensures exact { IfOk result (λ told. IfSome told (λ yes. IsTrue yes
        ↔ IsAnsweredAfter O.answer h.now (filter (counted v.now of) (take place (named list.now))) op)) }
    ensures told { from ≡ 0 → IfOk result (λ told. IsSome told) }
{
    let asked = h.call(op);
    let Some(before) = calls_before(alloc, h, v, list, naming, from, place, of, &asked)? else {
        return Ok(None);
    };
    let yes = is_answered_after(alloc, h, &before, op)?;
    Ok(Some(yes))
}

/// Whether the return of an operation, where it is known, is the answer after these calls.
///
/// Fails for want of memory alone. One call of the object for each, from a start that holds no more than the answer needs.
fn is_answered_after<O: SeqObject>(
    alloc: Global,
    h: &History<O>,
    calls: &[O::Call],
    op: OpId,
) -> Result<bool, AllocError>
    requires { IsOp h.now op }
    ensures { IfOk result (λ yes. IsTrue yes ↔ IsAnsweredBy O.answer h.now calls.now op) }
{
    let Some(known) = h.ret(op) else {
        return Ok(true);
    };
    let asked = h.call(op);
    let start = O::start_for(alloc, h.start(), &asked)?;
    let mut object: O = replay(alloc, &start, calls)?;
    let answer = object.apply(asked)?;
    Ok(known == answer)
}

/// Calls that give a call the same answer as those operations before a place of a list that the vector of an operation counts.
/// These are the calls on which the answer may depend, from the last one on that settles it. None if the search would have to go
/// back before another place.
fn calls_before<O: SeqObject>(
    alloc: Global,
    h: &History<O>,
    v: &Vectors,
    list: &[u8],
    naming: &mut Naming,
    from: usize,
    place: usize,
    of: OpId,
    asked: &O::Call,
) -> Result<Option<Vec<O::Call>>, AllocError>
    requires listed { HasListOf v.now of }
    requires names { NamesOperations h.now list.now }
    requires within { place ≤ length list.now }
    requires counts { AreCountsAt list.now place (length h.now.1) naming.old.counts.items }
    ensures found { IfOk result (λ found. IfSome found (λ before. O.answer h.now.0 before.items asked.now
        ≡ O.answer h.now.0 (considered O.depends h.now v.now of asked.now (take place (named list.now))) asked.now)) }
    ensures whole { from ≡ 0 → IfOk result (λ found. IsSome found) }
{
    let mut found = Vec::new(alloc);
    if !O::depends_on_any(asked) {
        return Ok(Some(found));
    }
    let mut at = place;
    while at > from {
        at -= 1;
        let next = naming.back(list, at);
        if let Some(call) = considered_call(h, v, of, asked, next) {
            found.push(call)?;
            if O::is_settled_by(asked, &call) {
                found.reverse();
                return Ok(Some(found));
            }
        }
    }
    if at > 0 {
        return Ok(None);
    }
    found.reverse();
    Ok(Some(found))
}

/// The call of an operation, if the vector of another counts it and the answer to a call may depend on it.
fn considered_call<O: SeqObject>(
    h: &History<O>,
    v: &Vectors,
    of: OpId,
    asked: &O::Call,
    next: OpId,
) -> Option<O::Call>
    requires of { HasListOf v.now of }
    requires is_op { IsOp h.now next }
    ensures { MatchOption result
        ((ops : List Operation) → considered O.depends h.now v.now of asked.now (next ∷ ops)
        ≡ considered O.depends h.now v.now of asked.now ops)
        (λ call. (ops : List Operation)
        → considered O.depends h.now v.now of asked.now (next ∷ ops) ≡ call ∷ considered O.depends h.now v.now of asked.now ops) }
{
    if next.index >= u64::from(count_of(v, of, next.session_place())) {
        return None;
    }
    let call = h.call(next);
    if O::depends_on(asked, &call) {
        Some(call)
    } else {
        None
    }
}
