//! A replay of the calls that a list names, which compares the known returns with the object's answers.

ghost use Rattle.std.specs.Prelude.{◌≡◌, ◌+◌, ◌≤◌, ◌↔◌, ℕ, List, [], ◌∷◌, ◌++◌, length, IfOk, IsTrue};
ghost use Rattle.std.specs.Prelude.{MatchOption, slice_index_or, slice_set, take};
ghost use Rattle.model_history.specs.declared.op_id.OpId.{OpId};
ghost use Rattle.model_history.specs.History.{IsOp, calls};
ghost use Rattle.order_causal.specs.Orders.{op};
ghost use Rattle.cert_check.specs.Schedules.{named};
ghost use Rattle.cert_check.specs.Steps.Replays.{kept_of, AreAnswered, IsAnsweredAfter, IsAnsweredBy};
ghost use Rattle.cert_check.specs.Steps.Replays.{IsReplayAt, NamesOperations};

use crate::kept::Kept;
use crate::naming::Naming;
use model_history::{History, OpId};
use model_object_trait::SeqObject;
use std::alloc::{AllocError, Global};

/// The state of a replay over a list of session numbers.
#[derive(Drop)]
pub struct Replay<O: SeqObject> {
    /// The operations that were named.
    naming: Naming,
    /// The object after the calls that were taken in.
    object: O,
}

impl<O: SeqObject> Replay<O> {
    /// A replay at the front.
    pub fn new(alloc: Global, h: &History<O>) -> Result<Replay<O>, AllocError>
        ensures { IfOk result (λ replay. (list : List ℕ) → IsReplayAt O.stands h.now list 0 [] replay.naming.counts.items replay.object) }
    {
        let naming = Naming::new(alloc, h)?;
        let object = O::fresh(alloc, h.start())?;
        Ok(Replay { naming, object })
    }

    /// Names the next operation of a session and counts it, or gives none where the history has no more.
    pub fn name_next(&mut self, h: &History<O>, session: u8) -> Option<OpId>
        requires { length self.old.naming.counts.items ≡ length h.now.1 }
        ensures object { self.new.object ≡ self.old.object }
        ensures next { MatchOption result
            ((¬ IsOp h.now (op session (slice_index_or self.old.naming.counts.items session 0)))
            × (self.new.naming.counts.items ≡ self.old.naming.counts.items))
            (λ next. (next ≡ op session (slice_index_or self.old.naming.counts.items session 0)) × IsOp h.now next
            × (self.new.naming.counts.items ≡ slice_set self.old.naming.counts.items session
            (slice_index_or self.old.naming.counts.items session 0 + 1))) }
    {
        self.naming.name_next(h, session)
    }

    /// Takes in the call of an operation. Returns whether its return, where it is known, is the answer.
    pub fn take_in(&mut self, h: &History<O>, next: OpId) -> Result<bool, AllocError>
        requires { IsOp h.now next }
        ensures counts { self.new.naming.counts.items ≡ self.old.naming.counts.items }
        ensures answer { (cs : List O.Call) → O.stands self.old.object h.now.0 cs
            → IfOk result (λ yes. IsTrue yes ↔ IsAnsweredBy O.answer h.now cs next) }
        ensures state { (taken : List OpId) → O.stands self.old.object h.now.0 (calls h.now taken)
            → IfOk result (λ _. O.stands self.new.object h.now.0 (calls h.now (taken ++ next ∷ []))) }
    {
        take_in_call(&mut self.object, h, next)
    }

    /// Takes in the call of an operation. Returns whether its return, where it is kept and known, is the answer.
    fn take_in_kept(&mut self, h: &History<O>, kept: Kept, next: OpId) -> Result<bool, AllocError>
        requires { IsOp h.now next }
        ensures counts { self.new.naming.counts.items ≡ self.old.naming.counts.items }
        ensures answer { (taken : List OpId) → O.stands self.old.object h.now.0 (calls h.now taken)
            → IfOk result (λ yes. IsTrue yes ↔ (IsTrue (kept_of kept next) → IsAnsweredAfter O.answer h.now taken next)) }
        ensures state { (taken : List OpId) → O.stands self.old.object h.now.0 (calls h.now taken)
            → IfOk result (λ _. O.stands self.new.object h.now.0 (calls h.now (taken ++ next ∷ []))) }
    {
        let answered = self.take_in(h, next)?;
        Ok(answered || !kept.keeps(next))
    }

    /// Takes in the operations that a list names from a place on, until a kept known return is not the answer. Returns whether
    /// there is no such return.
    ///
    /// Fails for want of memory alone. One call of the object for each number.
    pub fn go_through(
        &mut self,
        h: &History<O>,
        list: &[u8],
        from: usize,
        kept: Kept,
    ) -> Result<bool, AllocError>
        requires names { NamesOperations h.now list.now }
        requires within { from ≤ length list.now }
        requires at { IsReplayAt O.stands h.now list.now from (take from (named list.now)) self.old.naming.counts.items self.old.object }
        ensures exact { IfOk result (λ yes. AreAnswered O.answer h.now (kept_of kept) list.now from
            → IsTrue yes ↔ AreAnswered O.answer h.now (kept_of kept) list.now (length list.now)) }
        ensures on { IfOk result (λ yes. IsTrue yes
            → IsReplayAt O.stands h.now list.now (length list.now) (named list.now) self.new.naming.counts.items self.new.object) }
    {
        for place in from..list.len() {
            let next = self.name_next(h, list[place]).unwrap();
            if !self.take_in_kept(h, kept, next)? {
                return Ok(false);
            }
        }
        Ok(true)
    }
}

/// Has an object take in the call of an operation. Returns whether its return, where it is known, is the answer.
///
/// Fails for want of memory alone. One call of the object.
pub fn take_in_call<O: SeqObject>(
    object: &mut O,
    h: &History<O>,
    next: OpId,
) -> Result<bool, AllocError>
    requires { IsOp h.now next }
    ensures answer { (cs : List O.Call) → O.stands object.old h.now.0 cs
        → IfOk result (λ yes. IsTrue yes ↔ IsAnsweredBy O.answer h.now cs next) }
    ensures state { (taken : List OpId) → O.stands object.old h.now.0 (calls h.now taken)
        → IfOk result (λ _. O.stands object.new h.now.0 (calls h.now (taken ++ next ∷ []))) }
{
    let answer = object.apply(h.call(next))?;
    Ok(match h.ret(next) {
        Some(known) => known == answer,
        None => true,
    })
}
