//! Operations by the stamps that a store reported.

ghost use Rattle.std.specs.Prelude.{◌≡◌, ◌++◌, ◌<◌, ◌≤◌, length, IfOk, OnOk};
ghost use Rattle.model_history.specs.History.{session as operations_of};
ghost use Rattle.cert_make.specs.Advice.{IsAdvised, advice_in};
ghost use Rattle.cert_make.specs.ByStamp.{AreByStamp, counted_of, sessions_of, stamped_in};

use crate::advice::advice_in;
use crate::heard::Heard;
use model_history::{Advice, History, MAX_SESSIONS, OpId};
use model_object_trait::SeqObject;
use order_causal::{Vectors, has_counted};
use std::alloc::{AllocError, Global};

/// The stamp, the session and the index of an operation.
pub(crate) type Stamped = (u64, u8, u16);

/// All operations, by stamp, session and index.
///
/// Fails for want of memory alone. O(n log n) for n operations.
pub(crate) fn operations_by_stamp<O: SeqObject>(
    alloc: Global,
    h: &History<O>,
    advice: &[Option<Advice>],
) -> Result<Vec<Stamped>, AllocError>
    requires { IsAdvised h.now advice.now }
    ensures { IfOk result (λ ops. AreByStamp h.now advice.now ops.items) }
{
    let mut ops = Vec::new(alloc);
    for session in 0..h.sessions() {
        push_stamped(h, advice, session, &mut ops)?;
    }
    ops.sort_unstable();
    Ok(ops)
}

/// Appends the operations of a session to those of the sessions before it.
fn push_stamped<O: SeqObject>(
    h: &History<O>,
    advice: &[Option<Advice>],
    session: usize,
    ops: &mut Vec<Stamped>,
) -> Result<(), AllocError>
    requires advised { IsAdvised h.now advice.now }
    requires few { length h.now.1 ≤ MAX_SESSIONS }
    requires exists { session < length h.now.1 }
    ensures { OnOk result (ops.new.items
        ≡ ops.old.items ++ stamped_in (advice_in h.now advice.now session) session (length (operations_of h.now session))) }
{
    let reported = advice_in(h, advice, session);
    let mut heard = Heard::nothing();
    for index in 0..h.len(session) {
        heard.hear(OpId::at(session, index), &reported[index]);
        ops.push((heard.stamp(), session as u8, index as u16))?;
    }
    Ok(())
}

/// The sessions of the operations that the vector of an operation counts.
pub(crate) fn counted_sessions(
    alloc: Global,
    ops: &[Stamped],
    vectors: &Vectors,
    op: OpId,
) -> Result<Vec<u8>, AllocError>
    ensures { IfOk result (λ sessions. sessions.items ≡ sessions_of (counted_of vectors.now op ops.now)) }
{
    let mut sessions = Vec::new(alloc);
    for (_, session, index) in ops {
        if has_counted(
            vectors,
            op,
            OpId::at(usize::from(*session), usize::from(*index)),
        ) {
            sessions.push(*session)?;
        }
    }
    Ok(sessions)
}

/// The sessions of the operations.
pub(crate) fn sessions_of(alloc: Global, ops: &[Stamped]) -> Result<Vec<u8>, AllocError>
    ensures { IfOk result (λ sessions. sessions.items ≡ sessions_of ops.now) }
{
    let mut sessions = Vec::new(alloc);
    for (_, session, _) in ops {
        sessions.push(*session)?;
    }
    Ok(sessions)
}
