//! The shape of a certificate: whether its vectors, and its schedules or its list, fit the operations of a history.

ghost use Rattle.std.specs.Prelude.{◌≡◌, ◌<◌, ℕ, ◌↔◌, All, IsTrue, length};
ghost use Rattle.model_history.specs.History.{session};
ghost use Rattle.cert_check.specs.Certificates.{HasShapeOf};
ghost use Rattle.order_causal.specs.Schedules.{placed};

use crate::certificate::Certificate;
use model_history::History;
use model_object_trait::SeqObject;
use order_causal::{are_vectors_of, has_one_each};

/// Whether a certificate has the shape of a history: a vector for each operation with one count for each session, and
/// for each a schedule, or one list in which each session occurs as often as it has operations.
///
/// Takes no memory. O(n) for n operations, and O(n k) for one list and k sessions.
pub fn shape_ok<O: SeqObject>(h: &History<O>, certificate: &Certificate) -> bool
    ensures { IsTrue result ↔ HasShapeOf h.now certificate.now }
{
    match certificate {
        Certificate::Cc(vectors, schedules) => {
            are_vectors_of(h, vectors) && has_one_each(h, schedules)
        }
        Certificate::Cm(vectors, schedules) => {
            are_vectors_of(h, vectors) && has_one_each(h, schedules)
        }
        Certificate::Ccv(vectors, arbitration) => {
            are_vectors_of(h, vectors) && names_all(h, arbitration.sessions())
        }
    }
}

/// Whether each session occurs in the list as often as it has operations, and no other number occurs.
///
/// Takes no memory. O(n k) for a list of n numbers and k sessions.
pub fn names_all<O: SeqObject>(h: &History<O>, list: &[u8]) -> bool
    ensures { IsTrue result ↔ ((s : ℕ) → placed list.now s ≡ length (session h.now s)) }
{
    if !names_sessions(list, h.sessions()) {
        return false;
    }
    for session in 0..h.sessions() {
        if placed_of(list, session) != h.len(session) {
            return false;
        }
    }
    true
}

/// Whether each number is that of a session.
fn names_sessions(list: &[u8], sessions: usize) -> bool
    ensures { IsTrue result ↔ All (λ s. s < sessions) list.now }
{
    list.iter().all(|session| usize::from(*session) < sessions)
}

/// How many operations of a session the list places.
fn placed_of(list: &[u8], session: usize) -> usize
    ensures { result ≡ placed list.now session }
{
    list.iter()
        .filter(|named| usize::from(**named) == session)
        .count()
}
