//! A memory history as one without limits.

ghost use Rattle.std.specs.Prelude.{◌≡◌, ◌∷◌, ◌++◌, ◌<◌, ◌^◌, [], IfOk, OnOk};
ghost use Rattle.json_histories.specs.Form.{AreCalls};

use judge_memory::{LongEntry, LongHistory};
use model_history::History;
use model_object_trait::SeqObject;
use model_objects::{KeyedCall, Memory, RegisterCall};
use order_causal::Rows;
use std::alloc::{AllocError, Global};

/// The same history as one without limits.
///
/// Fails for want of memory alone. O(n) for n operations.
pub(crate) fn lengthened(alloc: Global, h: &History<Memory>) -> Result<LongHistory, AllocError>
    ensures { IfOk result (λ long. long ≡ h.now) }
{
    h.value_is_history();
    let start = Memory::copy_start(alloc, h.start())?;
    let mut sessions = Rows::new(alloc);
    for session in 0..h.sessions() {
        add_session(&mut sessions, h.session(session))?;
    }
    LongHistory::of(start, sessions)
}

/// Adds a session to others. Its keys are below 2^32, as those of all calls.
fn add_session(sessions: &mut Rows<LongEntry>, session: &[LongEntry]) -> Result<(), AllocError>
    ensures added { OnOk result (sessions.new ≡ sessions.old ++ session.now ∷ []) }
    ensures keys { AreCalls (λ c. c.key < 2 ^ 32) session.now }
{
    keys_are_small(session);
    sessions.push(session)
}

/// The keys of a session are below 2^32. The function does nothing: what it ensures is the law.
fn keys_are_small(session: &[LongEntry])
    ensures { AreCalls (λ c. c.key < 2 ^ 32) session.now }
{
    for i in 0..session.len() {
        let (call, _) = session[i];
        key_is_small(call);
    }
}

/// The key of a call is below 2^32. The function does nothing: what it ensures is the law.
fn key_is_small(_call: KeyedCall<RegisterCall>)
    ensures { _call.key < 2 ^ 32 }
{}
