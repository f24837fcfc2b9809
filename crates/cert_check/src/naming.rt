//! Counts of the operations that a list of session numbers names, and the steps along such a list.

ghost use Rattle.std.specs.Prelude.{◌≡◌, ◌+◌, ◌-◌, ◌<◌, ◌≤◌, ◌↔◌, ℕ, List, length, slice_get, slice_index_or, slice_set, take};
ghost use Rattle.std.specs.Prelude.{IfOk, IsTrue, MatchOption, Some};
ghost use Rattle.model_history.specs.History.{IsOp};
ghost use Rattle.order_causal.specs.Orders.{op, StandsAt};
ghost use Rattle.order_causal.specs.Schedules.{placed};
ghost use Rattle.order_causal.specs.Vectors.{count, AreVectorsOf, HasListOf};
ghost use Rattle.cert_check.specs.Steps.Namings.{AreCountsAt, AreNamedWell, IsNamedWell};
ghost use Rattle.cert_check.specs.Schedules.{named};
ghost use Rattle.cert_check.specs.Steps.Needs.{AreNeedsOf};
ghost use Rattle.cert_check.specs.Steps.Replays.{NamesOperations};

use crate::need::Needs;
use model_history::{History, OpId};
use model_object_trait::SeqObject;
use order_causal::{Vectors, is_at_most};
use std::alloc::{AllocError, Global};

/// How many operations of each session a list of session numbers has named so far.
#[derive(Drop)]
pub struct Naming {
    /// For each session, how many of its operations were named.
    counts: Vec<u16>,
}

impl Naming {
    /// Nothing is named. O(k) for k sessions.
    pub fn new<O: SeqObject>(alloc: Global, h: &History<O>) -> Result<Naming, AllocError>
        ensures { IfOk result (λ naming. (list : List ℕ) → AreCountsAt list 0 (length h.now.1) naming.counts.items) }
    {
        let counts = vec![in alloc; 0; h.sessions()]?;
        Ok(Naming { counts })
    }

    /// These counts of operations of each session are named. O(k) for k sessions.
    pub fn at(alloc: Global, counts: &[u16]) -> Result<Naming, AllocError>
        ensures { IfOk result (λ naming. naming.counts.items ≡ counts.now) }
    {
        Ok(Naming {
            counts: Vec::from_slice(alloc, counts)?,
        })
    }

    /// The same operations are named.
    pub fn copy(&self, alloc: Global) -> Result<Naming, AllocError>
        ensures { IfOk result (λ naming. naming.counts.items ≡ self.now.counts.items) }
    {
        Naming::at(alloc, &self.counts)
    }

    /// Names nothing again.
    pub fn clear(&mut self)
        ensures { (list : List ℕ) → AreCountsAt list 0 (length self.old.counts.items) self.new.counts.items }
    {
        self.counts.fill(0);
    }

    /// Names the next operation of a session and counts it, or gives none where the history has no more.
    pub fn name_next<O: SeqObject>(&mut self, h: &History<O>, session: u8) -> Option<OpId>
        requires { length self.old.counts.items ≡ length h.now.1 }
        ensures next { MatchOption result
            ((¬ IsOp h.now (op session (slice_index_or self.old.counts.items session 0))) × (self.new.counts.items ≡ self.old.counts.items))
            (λ next. (next ≡ op session (slice_index_or self.old.counts.items session 0)) × IsOp h.now next
            × (self.new.counts.items ≡ slice_set self.old.counts.items session (slice_index_or self.old.counts.items session 0 + 1))) }
    {
        let place = usize::from(session);
        if place >= self.counts.len() {
            return None;
        }
        let index = self.counts[place];
        if usize::from(index) >= h.len(place) {
            return None;
        }
        self.counts[place] = index + 1;
        Some(OpId::at(place, usize::from(index)))
    }

    /// Whether an operation was named.
    pub fn has_named(&self, op: OpId) -> bool
        ensures { IsTrue result ↔ (op.index < slice_index_or self.now.counts.items op.session 0) }
    {
        let count = self.counts.get(op.session_place()).copied().unwrap_or(0);
        op.index < u64::from(count)
    }

    /// Whether all operations that the vector of an operation counts were named.
    pub fn has_named_all(&self, v: &Vectors, of: OpId) -> bool
        requires { HasListOf v.now of }
        ensures { IsTrue result ↔ ((s : ℕ) → count v.now of s ≤ slice_index_or self.now.counts.items s 0) }
    {
        is_at_most(v.get(of), &self.counts)
    }

    /// Whether as many operations of each session were named as a vector counts.
    pub fn ends_at(&self, vector: &[u16]) -> bool
        ensures { IsTrue result ↔ ((s : ℕ) → slice_index_or self.now.counts.items s 0 ≡ slice_index_or vector.now s 0) }
    {
        is_at_most(&self.counts, vector) && is_at_most(vector, &self.counts)
    }

    /// Names the next operation of a session. Returns whether it exists and comes after all others that its own vector counts.
    fn step<O: SeqObject>(
        &mut self,
        h: &History<O>,
        v: &Vectors,
        needs: &Needs,
        session: u8,
    ) -> bool
        requires shape { AreVectorsOf h.now v.now }
        requires needs { AreNeedsOf v.now needs.now }
        requires width { length self.old.counts.items ≡ length h.now.1 }
        ensures exact { (list : List ℕ) (i : ℕ) → AreCountsAt list i (length h.now.1) self.old.counts.items
            → slice_get list i ≡ Some session → AreNamedWell h.now v.now list i
            → IsTrue result ↔ IsNamedWell h.now v.now list i }
        ensures on { (list : List ℕ) (i : ℕ) → AreCountsAt list i (length h.now.1) self.old.counts.items
            → slice_get list i ≡ Some session → IsTrue result
            → AreCountsAt list (i + 1) (length h.now.1) self.new.counts.items }
        ensures width { length self.new.counts.items ≡ length h.now.1 }
    {
        let Some(next) = self.name_next(h, session) else {
            return false;
        };
        needs.get(next).is_met(v, next, &self.counts)
    }

    /// Goes on from the end of one list to that of another, from the place where they part. Returns whether each operation that the
    /// other names exists and comes after all others that its own vector counts, as in the first.
    ///
    /// O(p) for p numbers of both after that place, if each need is one operation.
    pub fn go_on<O: SeqObject>(
        &mut self,
        h: &History<O>,
        v: &Vectors,
        needs: &Needs,
        before: &[u8],
        list: &[u8],
    ) -> bool
        requires shape { AreVectorsOf h.now v.now }
        requires needs { AreNeedsOf v.now needs.now }
        requires counts { AreCountsAt before.now (length before.now) (length h.now.1) self.old.counts.items }
        requires well { AreNamedWell h.now v.now before.now (length before.now) }
        ensures exact { IsTrue result ↔ AreNamedWell h.now v.now list.now (length list.now) }
        ensures on { IsTrue result → AreCountsAt list.now (length list.now) (length h.now.1) self.new.counts.items }
        ensures width { length self.new.counts.items ≡ length h.now.1 }
    {
        let shared = shared_front(before, list);
        self.go_back(before, shared);
        for place in shared..list.len() {
            if !self.step(h, v, needs, list[place]) {
                return false;
            }
        }
        true
    }

    /// Takes one operation of a session off the count.
    fn count_off(&mut self, session: usize)
        requires inside { session < length self.old.counts.items }
        requires counted { 1 ≤ slice_index_or self.old.counts.items session 0 }
        ensures { self.new.counts.items ≡ slice_set self.old.counts.items session (slice_index_or self.old.counts.items session 0 - 1) }
    {
        self.counts[session] -= 1;
    }

    /// Goes back over a place of a list, and gives the operation that the list names there.
    pub fn back(&mut self, list: &[u8], place: usize) -> OpId
        requires within { place < length list.now }
        requires counts { AreCountsAt list.now (place + 1) (length self.old.counts.items) self.old.counts.items }
        ensures named { StandsAt (named list.now) place result }
        ensures counts { AreCountsAt list.now place (length self.old.counts.items) self.new.counts.items }
    {
        let session = usize::from(list[place]);
        self.count_off(session);
        OpId::at(session, usize::from(self.counts[session]))
    }

    /// Goes back from the end of a list to the place of an operation in it. O(p) for p numbers from there on.
    pub fn back_to(&mut self, list: &[u8], op: OpId) -> usize
        requires counts { AreCountsAt list.now (length list.now) (length self.old.counts.items) self.old.counts.items }
        requires named { op.index < placed list.now op.session }
        ensures within { result < length list.now }
        ensures place { StandsAt (named list.now) result op }
        ensures counts { AreCountsAt list.now result (length self.old.counts.items) self.new.counts.items }
    {
        let mut place = list.len();
        while place > 0 {
            place -= 1;
            if self.back(list, place) == op {
                return place;
            }
        }
        unreachable!()
    }

    /// Goes on from a place of a list to a later operation, names that too and gives its place. O(p) for p numbers up to there.
    pub fn on_to<O: SeqObject>(
        &mut self,
        h: &History<O>,
        list: &[u8],
        from: usize,
        op: OpId,
    ) -> usize
        requires names { NamesOperations h.now list.now }
        requires counts { AreCountsAt list.now from (length h.now.1) self.old.counts.items }
        requires behind { slice_index_or self.old.counts.items op.session 0 ≤ op.index }
        requires named { op.index < placed list.now op.session }
        ensures within { result < length list.now }
        ensures place { StandsAt (named list.now) result op }
        ensures counts { AreCountsAt list.now (result + 1) (length h.now.1) self.new.counts.items }
    {
        for place in from..list.len() {
            if self.name_next(h, list[place]).unwrap() == op {
                return place;
            }
        }
        unreachable!()
    }

    /// Goes back from the end of a list to a place in it.
    fn go_back(&mut self, list: &[u8], to: usize)
        requires within { to ≤ length list.now }
        requires counts { AreCountsAt list.now (length list.now) (length self.old.counts.items) self.old.counts.items }
        ensures { AreCountsAt list.now to (length self.old.counts.items) self.new.counts.items }
    {
        let mut at = list.len();
        while at > to {
            at -= 1;
            self.count_off(usize::from(list[at]));
        }
    }
}

/// How many numbers of two lists are compared at once.
const BLOCK: usize = 64;

/// How many numbers two lists have in common from the front. O(p) for p such numbers.
pub fn shared_front(left: &[u8], right: &[u8]) -> usize
    ensures left { result ≤ length left.now }
    ensures right { result ≤ length right.now }
    ensures same { take result left.now ≡ take result right.now }
{
    let mut shared = shared_blocks(left, right);
    while shared < left.len() && shared < right.len() && left[shared] == right[shared] {
        shared += 1;
    }
    shared
}

/// How many numbers two lists have in common in whole blocks from the front.
fn shared_blocks(left: &[u8], right: &[u8]) -> usize
    ensures left { result ≤ length left.now }
    ensures right { result ≤ length right.now }
    ensures same { take result left.now ≡ take result right.now }
{
    let most = left.len().min(right.len());
    let mut shared = 0;
    while most - shared >= BLOCK && are_same_in_block(left, right, shared) {
        shared += BLOCK;
    }
    shared
}

/// Whether two lists have the same block at a place. The loop does not end early, so that several numbers are compared at once.
fn are_same_in_block(left: &[u8], right: &[u8], place: usize) -> bool
    requires left { place + BLOCK ≤ length left.now }
    requires right { place + BLOCK ≤ length right.now }
    ensures { IsTrue result → (k : ℕ) → place ≤ k → k < place + BLOCK → slice_get left.now k ≡ slice_get right.now k }
{
    let mut all = true;
    for at in place..place + BLOCK {
        all &= left[at] == right[at];
    }
    all
}
