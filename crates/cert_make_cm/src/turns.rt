//! Schedules in which the operations of a session take turns with what is before each of them.

ghost use Rattle.std.specs.Prelude.{◌≡◌, ◌≢◌, ◌⊎◌, ◌↔◌, ◌<◌, ◌≤◌, ℕ, length, IsTrue, OnOk};
ghost use Rattle.model_history.specs.declared.op_id.OpId.{OpId as Operation};
ghost use Rattle.model_history.specs.History.{IsOp, session as operations_of};
ghost use Rattle.order_causal.specs.Orders.{op};
ghost use Rattle.order_causal.specs.Vectors.{Counts, IsCounted};
ghost use Rattle.order_memory.specs.Raises.{IsRaisedSince};
ghost use Rattle.order_memory.specs.Steps.GrowingOrders.{AreHeldVectors};
ghost use Rattle.order_memory.specs.Steps.HappenedBefores.{raises_of, vectors_of};
ghost use Rattle.cert_make_cm.specs.Steps.Started.{AreRising, AreStarted};

use model_history::{History, MAX_OPERATIONS, MAX_SESSIONS, OpId};
use model_objects::Memory;
use order_causal::{Vectors, Walk};
use order_memory::HappenedBefore;
use std::alloc::{AllocError, Global};

/// A walk in which the first operations of a session take turns with what is before each of them.
#[derive(Drop)]
pub struct Turns {
    walk: Walk,
    /// How many operations are placed before each turn.
    starts: Vec<usize>,
}

impl Turns {
    /// A walk in which none has had its turn.
    pub fn new(alloc: Global) -> Turns
        ensures { (v : Counts) (s : ℕ) → AreStarted v s 0 result.walk result.starts.items }
    {
        Turns {
            walk: Walk::new(alloc),
            starts: Vec::new(alloc),
        }
    }

    /// The session of each placed operation, in order.
    pub fn schedule(&self) -> &[u8]
        ensures { result.now ≡ self.now.walk }
    {
        self.walk.schedule()
    }

    /// Goes on until the first `to` operations of the session have had their turns. What an operation's vector counts and isn't
    /// placed yet comes before it, by the topological rule. The caller decides what the vectors count.
    ///
    /// Fails for want of memory alone. O(p k + t k^2) for p operations that are placed in t turns, and k sessions.
    pub fn go_on(
        &mut self,
        h: &History<Memory>,
        vectors: &Vectors,
        session: usize,
        to: usize,
    ) -> Result<(), AllocError>
        requires few { length h.now.1 ≤ MAX_SESSIONS }
        requires short { length (operations_of h.now session) ≤ MAX_OPERATIONS }
        requires vectors { AreHeldVectors h.now vectors.now }
        requires inside { to ≤ length (operations_of h.now session) }
        requires ordered { length self.old.starts.items ≤ to }
        requires started { AreStarted vectors.now session (length self.old.starts.items) self.old.walk self.old.starts.items }
        ensures { OnOk result (AreStarted vectors.now session to self.new.walk self.new.starts.items) }
    {
        for index in self.starts.len()..to {
            self.starts.push(self.walk.schedule().len())?;
            self.walk
                .run_to(vectors, vectors.get(OpId::at(session, index)))?;
            self.walk.place(session)?;
        }
        Ok(())
    }

    /// Takes back all but the first turns. O(p) for p operations that are taken back.
    pub fn keep(&mut self, turns: usize)
        ensures { (v : Counts) (s n : ℕ) → turns ≤ n → AreStarted v s n self.old.walk self.old.starts.items
            → AreStarted v s turns self.new.walk self.new.starts.items }
    {
        if turns < self.starts.len() {
            self.walk.cut(self.starts[turns]);
            self.starts.truncate(turns);
        }
    }
}

/// How many of the first `turns` turns of a session are still valid by the vectors now, if they were made after the first
/// `raises` raises and before the others: those before the first operation of the session that was raised since, or that counts
/// one that was.
///
/// O(r + t) for r raises since and t turns that are no longer valid.
pub fn standing(
    h: &History<Memory>,
    happened: &HappenedBefore,
    session: usize,
    turns: usize,
    raises: usize,
) -> usize
    requires vectors { AreHeldVectors h.now (vectors_of happened.now) }
    requires inside { turns ≤ length (operations_of h.now session) }
    requires rising { AreRising (vectors_of happened.now) session turns }
    ensures ordered { result ≤ turns }
    ensures unraised { (m : ℕ) (p : Operation) → m < result → IsRaisedSince (raises_of happened.now) raises p
        → (p ≢ op session m) × ¬ IsCounted (vectors_of happened.now) (op session m) p }
{
    let mut first = turns;
    for place in raises..happened.raises().len() {
        let raised = happened.raises()[place].op;
        first = first_with(h, happened.vectors(), session, first, raised);
    }
    first
}

/// The index of the first of the session's first `turns` operations that is `other` or counts it, or `turns` if none is or does.
///
/// O(t) for t operations from that one on.
fn first_with(
    h: &History<Memory>,
    vectors: &Vectors,
    session: usize,
    turns: usize,
    other: OpId,
) -> usize
    requires vectors { AreHeldVectors h.now vectors.now }
    requires inside { turns ≤ length (operations_of h.now session) }
    requires rising { AreRising vectors.now session turns }
    ensures ordered { result ≤ turns }
    ensures before { (m : ℕ) → m < result → (other ≢ op session m) × ¬ IsCounted vectors.now (op session m) other }
{
    let mut first = turns;
    while first > 0 {
        if !is_or_counts(h, vectors, OpId::at(session, first - 1), other) {
            return first;
        }
        first -= 1;
    }
    0
}

/// Whether an operation is another one or counts it. O(1).
fn is_or_counts(h: &History<Memory>, vectors: &Vectors, op: OpId, other: OpId) -> bool
    requires vectors { AreHeldVectors h.now vectors.now }
    requires is_op { IsOp h.now op }
    ensures { IsTrue result ↔ ((other ≡ op) ⊎ IsCounted vectors.now op other) }
{
    if other == op {
        return true;
    }
    match vectors.get(op).get(other.session_place()) {
        Some(count) => other.index < u64::from(*count),
        None => false,
    }
}
