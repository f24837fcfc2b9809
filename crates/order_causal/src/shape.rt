//! The shape of lists by operation: one for each operation of a history, and whether all of them are vectors.

ghost use Rattle.std.specs.Prelude.{◌≡◌, ◌<◌, ◌↔◌, ℕ, IsTrue, length, slice_index_or, []};
ghost use Rattle.order_causal.specs.Orders.{op};
ghost use Rattle.order_causal.specs.Vectors.{list_of, AreVectorsOf, HasOneEach};

use crate::by_operation::{ByOperation, Vectors};
use model_history::{History, OpId};
use model_object_trait::SeqObject;

/// Whether there is one list for each operation of a history, and no other.
///
/// Takes no memory. O(k) for k sessions.
pub fn has_one_each<O: SeqObject, T>(h: &History<O>, lists: &ByOperation<T>) -> bool
    ensures { IsTrue result ↔ HasOneEach h.now lists.now }
{
    if lists.sessions() != h.sessions() {
        return false;
    }
    for session in 0..h.sessions() {
        if lists.operations(session) != h.len(session) {
            return false;
        }
    }
    true
}

/// Whether there is one vector for each operation of a history, with one count for each session: what `vector_ok` asks
/// of its vectors.
///
/// Takes no memory. O(n) for n operations.
pub fn are_vectors_of<O: SeqObject>(h: &History<O>, v: &Vectors) -> bool
    ensures { IsTrue result ↔ AreVectorsOf h.now v.now }
{
    if !has_one_each(h, v) {
        return false;
    }
    for session in 0..h.sessions() {
        if !have_length(v, session, h.sessions()) {
            return false;
        }
    }
    true
}

/// Whether the lists of a session's operations have this length.
fn have_length(v: &Vectors, session: usize, len: usize) -> bool
    requires { session < length v.now }
    ensures { IsTrue result ↔ ((i : ℕ) → i < length (slice_index_or v.now session []) → length (list_of v.now (op session i)) ≡ len) }
{
    for index in 0..v.operations(session) {
        let op = OpId::at(session, index);
        if v.get(op).len() != len {
            return false;
        }
    }
    true
}
