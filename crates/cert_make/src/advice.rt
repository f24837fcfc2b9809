//! What a store reported of the operations of a history.

ghost use Rattle.std.specs.Prelude.{◌≡◌, ◌*◌, ◌<◌, ◌≤◌, ◌↔◌, length, IsTrue};
ghost use Rattle.model_history.specs.History.{many_before, session as operations_of};
ghost use Rattle.cert_make.specs.Advice.{IsAdvised, advice_in};
ghost use Rattle.cert_make.specs.MemoryAdvice.{AdviceDecides};

use model_history::{Advice, History, MAX_OPERATIONS, MAX_SESSIONS};
use model_object_trait::SeqObject;
use order_memory::IndexedMemory;

/// Whether there is advice: the history has operations, and each has an entry, even if all entries are empty.
///
/// Takes no memory. O(k) for k sessions.
pub fn is_advised<O: SeqObject>(h: &History<O>, advice: &[Option<Advice>]) -> bool
    ensures { IsTrue result ↔ IsAdvised h.now advice.now }
{
    !advice.is_empty() && advice.len() == many_before(h, h.sessions())
}

/// Whether advice decides for a memory history: there is advice, and values are not distinct.
///
/// Takes no memory. O(k) for k sessions.
pub fn advice_decides(memory: &IndexedMemory, advice: &[Option<Advice>]) -> bool
    ensures { IsTrue result ↔ AdviceDecides memory.now advice.now }
{
    is_advised(memory.history(), advice) && !memory.is_differentiated()
}

/// The entries of a session.
#[tactic(auto, using(crate::proofs::Advices::within_all, crate::proofs::Advices::advice_size))]
pub(crate) fn advice_in<'a, O: SeqObject>(
    h: &History<O>,
    advice: &'a [Option<Advice>],
    session: usize,
) -> &'a [Option<Advice>]
    requires advised { IsAdvised h.now advice.now }
    requires few { session < MAX_SESSIONS }
    requires exists { session < length h.now.1 }
    ensures entries { result.now ≡ advice_in h.now advice.now session }
    ensures size { length result.now ≡ length (operations_of h.now session) }
{
    let start = many_before(h, session);
    &advice[start..start + h.len(session)]
}

/// How many operations the first sessions have.
#[tactic(auto, using(crate::proofs::Advices::one_more))]
fn many_before<O: SeqObject>(h: &History<O>, sessions: usize) -> usize
    requires there { sessions ≤ length h.now.1 }
    requires few { sessions ≤ MAX_SESSIONS }
    ensures many { result ≡ many_before h.now sessions }
    ensures few { result ≤ MAX_OPERATIONS * sessions }
{
    let mut many = 0;
    for session in 0..sessions {
        many += h.len(session);
    }
    many
}
