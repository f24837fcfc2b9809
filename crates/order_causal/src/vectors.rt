//! The vector of an operation, which counts what happens before it, and the check of one vector.

ghost use Rattle.std.specs.Prelude.{◌≡◌, ◌≢◌, ℕ, ◌+◌, ◌≤◌, ◌↔◌, IsTrue, slice_index_or, length};
ghost use Rattle.model_history.specs.History.{IsOp, session};
ghost use Rattle.order_causal.specs.Vectors.{count, AreVectorsOf, IsCounted, IsVectorOk};
ghost use Rattle.order_causal.specs.Vectors.{CountsHeld, HasListOf, IsPastLastOf, IsPastPredecessor};

use crate::at_most::is_at_most;
use crate::by_operation::Vectors;
use model_history::{History, OpId};
use model_object_trait::SeqObject;

/// Whether the vector of an operation counts a past. It does if it counts the operation itself as the last of its session, only
/// operations that exist, and all that its predecessor in program order and the last counted operation of each other session
/// count, and if none of those last operations counts the operation.
///
/// The vectors are those of the history, one for each operation. O(k^2) for k sessions.
pub fn vector_ok<O: SeqObject>(h: &History<O>, v: &Vectors, op: OpId) -> bool
    requires shape { AreVectorsOf h.now v.now }
    requires is_op { IsOp h.now op }
    ensures { IsTrue result ↔ IsVectorOk h.now v.now op }
{
    counts_itself_last(v, op)
        && counts_existing(h, v, op)
        && counts_with_predecessor(v, op)
        && counts_with_others(v, op)
}

/// How many operations of a session the vector of an operation counts.
pub fn count_of(v: &Vectors, op: OpId, session: usize) -> u16
    requires { HasListOf v.now op }
    ensures { result ≡ count v.now op session }
{
    v.get(op).get(session).copied().unwrap_or(0)
}

/// How many operations of a session the vector of an operation counts: 0 where the operation has no vector. O(1).
pub fn count_at(v: &Vectors, op: OpId, session: usize) -> usize
    ensures { result ≡ count v.now op session }
{
    if !v.contains(op) {
        return 0;
    }
    match v.get(op).get(session) {
        Some(count) => usize::from(*count),
        None => 0,
    }
}

/// Whether the vector of an operation counts another. It does not if the operation has no vector. O(1).
pub fn has_counted(v: &Vectors, op: OpId, earlier: OpId) -> bool
    ensures { IsTrue result ↔ IsCounted v.now op earlier }
{
    earlier.place() < count_at(v, op, earlier.session_place())
}

/// Whether the vector of an operation counts another operation. O(1).
pub fn has_counted_other(v: &Vectors, op: OpId, earlier: OpId) -> bool
    ensures { IsTrue result ↔ ((earlier ≢ op) × IsCounted v.now op earlier) }
{
    earlier != op && has_counted(v, op, earlier)
}

/// Whether the vector of an operation counts it as the last of its session.
fn counts_itself_last(v: &Vectors, op: OpId) -> bool
    requires { HasListOf v.now op }
    ensures { IsTrue result ↔ (count v.now op op.session ≡ op.index + 1) }
{
    let count = u64::from(count_of(v, op, op.session_place()));
    count != 0 && count - 1 == op.index
}

/// Whether the vector of an operation counts only operations that exist.
fn counts_existing<O: SeqObject>(h: &History<O>, v: &Vectors, op: OpId) -> bool
    requires { HasListOf v.now op }
    ensures { IsTrue result ↔ ((s : ℕ) → count v.now op s ≤ length (session h.now s)) }
{
    for (session, count) in v.get(op).iter().enumerate() {
        if usize::from(*count) > h.len(session) {
            return false;
        }
    }
    true
}

/// Whether the vector of an operation counts all that the operation before it in its session counts.
fn counts_with_predecessor(v: &Vectors, op: OpId) -> bool
    requires own { HasListOf v.now op }
    ensures { IsTrue result ↔ IsPastPredecessor v.now op }
{
    match op.before() {
        Some(predecessor) => is_at_most(v.get(predecessor), v.get(op)),
        None => true,
    }
}

/// Whether the vector of an operation counts all that the last counted operations of the other sessions count, and none
/// of them counts the operation.
fn counts_with_others(v: &Vectors, op: OpId) -> bool
    requires own { HasListOf v.now op }
    requires held { CountsHeld v.now op }
    ensures { IsTrue result ↔ ((s : ℕ) → s ≢ op.session → IsPastLastOf v.now op s) }
{
    let own = op.session_place();
    for session in 0..v.sessions() {
        if session != own && !counts_with_last(v, op, session) {
            return false;
        }
    }
    true
}

/// Whether the vector of an operation counts all that its last counted operation of a session counts, and that one doesn't count
/// the operation.
fn counts_with_last(v: &Vectors, op: OpId, session: usize) -> bool
    requires own { HasListOf v.now op }
    requires held { CountsHeld v.now op }
    ensures { IsTrue result ↔ IsPastLastOf v.now op session }
{
    let count = usize::from(count_of(v, op, session));
    if count == 0 {
        return true;
    }
    let last = OpId::at(session, count - 1);
    let back = count_of(v, last, op.session_place());
    is_at_most(v.get(last), v.get(op)) && u64::from(back) <= op.index
}
