//! What a list must name before each operation, so that it keeps to the causal order of the vectors.

ghost use Rattle.std.specs.Prelude.{◌≡◌, ◌<◌, ◌↔◌, ℕ, [], length, slice_index_or, IfOk, IfSome, IsTrue};
ghost use Rattle.order_causal.specs.Orders.{op};
ghost use Rattle.order_causal.specs.Vectors.{AreVectorsOf, HasListOf};
ghost use Rattle.cert_check.specs.Steps.Needs.{vector_before, need_of, AreNeedsOf, IsCountCovered, IsCovered, IsMet, IsNeedOf};

use model_history::{History, OpId};
use model_object_trait::SeqObject;
use order_causal::{Vectors, is_at_most};
use std::alloc::{AllocError, Global};
use std::marker::Model;

/// What must be named before an operation, if every operation named so far came after all that its own vector counts.
#[derive(Clone, Copy, Debug, PartialEq, Eq)]
pub enum Need {
    /// Nothing beyond the operation before it in its session.
    Nothing,
    /// One operation, by its session and its index, which counts the rest.
    After(u8, u16),
    /// All that its vector counts.
    Everything,
}

impl Need {
    /// Whether the running counts hold what an operation needs. O(1) but for everything, which takes O(k).
    pub fn is_met(&self, v: &Vectors, of: OpId, counts: &[u16]) -> bool
        requires { HasListOf v.now of }
        ensures { IsTrue result ↔ IsMet v.now of counts.now self.now }
    {
        match self {
            Need::Nothing => true,
            Need::After(session, index) => { *index < at(counts, usize::from(*session)) }
            Need::Everything => is_at_most(v.get(of), counts),
        }
    }
}

/// The needs of the operations of one session.
#[derive(Debug, Drop)]
struct SessionNeeds {
    needs: Vec<Need>,
}

impl Model for SessionNeeds {
    ghost use Rattle.std.specs.Prelude.{List};
    ghost use Rattle.cert_check.specs.declared.need.Need.{Need};

    ghost Value = { List Need };

    ghost view = { λ session. session.needs.items };
}

/// The needs of the operations of a history. An operation that has none listed needs everything.
#[derive(Debug, Drop)]
pub struct Needs {
    sessions: Vec<SessionNeeds>,
}

impl Model for Needs {
    ghost use Rattle.std.specs.Prelude.{List};
    ghost use Rattle.cert_check.specs.declared.need.Need.{Need};

    ghost Value = { List (List Need) };

    ghost view = { λ needs. needs.sessions.items };
}

impl Needs {
    /// None listed.
    pub fn none(alloc: Global) -> Needs
        ensures { result ≡ [] }
    {
        Needs {
            sessions: Vec::new(alloc),
        }
    }

    /// The needs that the vectors of a history give.
    ///
    /// Fails for want of memory alone. O(n k^2) for n operations and k sessions, and O(n k) if each needs one other.
    pub fn of<O: SeqObject>(alloc: Global, h: &History<O>, v: &Vectors) -> Result<Needs, AllocError>
        requires { AreVectorsOf h.now v.now }
        ensures { IfOk result (AreNeedsOf v.now) }
    {
        let mut sessions = Vec::new(alloc);
        for session in 0..h.sessions() {
            sessions.push(needs_of_session(alloc, h, v, session)?)?;
        }
        Ok(Needs { sessions })
    }

    /// The need of an operation. O(1).
    pub fn get(&self, op: OpId) -> &Need
        ensures { result.now ≡ need_of self.now op }
    {
        match self.sessions.get(op.session_place()) {
            Some(session) => session.get(op.place()),
            None => &Need::Everything,
        }
    }
}

impl SessionNeeds {
    /// The need of the operation at an index. O(1).
    fn get(&self, index: usize) -> &Need
        ensures { result.now ≡ slice_index_or self.now index Need.Everything }
    {
        self.needs.get(index).unwrap_or(&Need::Everything)
    }
}

/// The needs of the operations of a session.
fn needs_of_session<O: SeqObject>(
    alloc: Global,
    h: &History<O>,
    v: &Vectors,
    session: usize,
) -> Result<SessionNeeds, AllocError>
    requires { AreVectorsOf h.now v.now }
    ensures { IfOk result (λ needs. (i : ℕ) → i < length needs → IsNeedOf v.now (op session i) (slice_index_or needs i Need.Everything)) }
{
    let mut needs = Vec::new(alloc);
    for index in 0..h.len(session) {
        needs.push(need_of_operation(v, OpId::at(session, index)))?;
    }
    Ok(SessionNeeds { needs })
}

/// The need of an operation that has a vector.
fn need_of_operation(v: &Vectors, op: OpId) -> Need
    requires { HasListOf v.now op }
    ensures { IsNeedOf v.now op result }
{
    let before = before(v, op);
    if is_covered(v.get(op), before, &[], op) {
        return Need::Nothing;
    }
    for session in 0..v.sessions() {
        if let Some(need) = last_of(v, op, before, session) {
            return need;
        }
    }
    Need::Everything
}

/// The vector of the operation before another in its session: none before the first.
fn before(v: &Vectors, op: OpId) -> &[u16]
    requires { HasListOf v.now op }
    ensures { result.now ≡ vector_before v.now op.session op.index }
{
    match op.before() {
        Some(before) => v.get(before),
        None => &[],
    }
}

/// The last operation of another session that the vector of an operation counts, if the operation before doesn't count it and the
/// two together count all the rest.
fn last_of(v: &Vectors, op: OpId, before: &[u16], session: usize) -> Option<Need>
    requires own { HasListOf v.now op }
    requires before { before.now ≡ vector_before v.now op.session op.index }
    ensures { IfSome result (IsNeedOf v.now op) }
{
    let vector = v.get(op);
    let count = at(vector, session);
    if session == op.session_place() || count <= at(before, session) {
        return None;
    }
    let last = OpId::at(session, usize::from(count - 1));
    if !v.contains(last) || !is_covered(vector, before, v.get(last), op) {
        return None;
    }
    Some(Need::After(u8::try_from(session).ok()?, count - 1))
}

/// Whether each count of a vector is at most that of one of two others. In the operation's own session, the operations before it
/// need not be covered.
fn is_covered(vector: &[u16], before: &[u16], other: &[u16], op: OpId) -> bool
    ensures { IsTrue result ↔ IsCovered vector.now before.now other.now op }
{
    for (session, count) in vector.iter().enumerate() {
        if !is_count_covered(*count, before, other, session, op) {
            return false;
        }
    }
    true
}

/// Whether the count of one session is at most that of one of two vectors, or of operations up to one of that session.
fn is_count_covered(count: u16, before: &[u16], other: &[u16], session: usize, op: OpId) -> bool
    ensures { IsTrue result ↔ IsCountCovered count before.now other.now session op }
{
    count <= at(before, session)
        || count <= at(other, session)
        || (session == op.session_place() && u64::from(count - 1) <= op.index)
}

/// The count of a session: 0 past the end.
fn at(counts: &[u16], session: usize) -> u16
    ensures { result ≡ slice_index_or counts.now session 0 }
{
    counts.get(session).copied().unwrap_or(0)
}
