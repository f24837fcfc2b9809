//! How many calls and returns a seal and a session both hold.

ghost use Rattle.std.specs.Prelude.{◌≡◌, ◌<◌, ◌≤◌, ℕ, length, min, option_map, slice_get, Some};
ghost use Rattle.model_history.specs.History.{entry};
ghost use Rattle.live_recorder.specs.Sessions.{begun, session_operation};
ghost use Rattle.live_seals.specs.Seals.{AreOfOne, advice_of, known_returns, met_calls};

use crate::comparing::{compare_calls, compare_returns};
use crate::sealed::Sealed;
use live_recorder::Session;
use model_object_trait::SeqObject;

/// How far a seal and a session hold the same.
#[derive(Clone, Copy, Debug, PartialEq, Eq)]
pub struct Met {
    /// So many calls, from the first on.
    pub calls: usize,
    /// So many returns, from the first on.
    pub returns: usize,
}

/// How many calls and returns a seal and a session of one recorder both hold. Up to these counts they hold the same.
///
/// It takes no memory, and waits for nobody. O(n) steps without bytes.
pub fn meet<O: SeqObject>(sealed: &Sealed<O>, session: &Session<O>) -> Met
    requires { AreOfOne sealed.now session.now }
    ensures returns { result.returns ≡ min (known_returns sealed.now.history session.now.lane) (length session.now.done) }
    ensures calls { result.calls ≡ met_calls sealed.now.history session.now }
    ensures same_returns { (i : ℕ) → i < result.returns
        → entry sealed.now.history (session_operation session.now.lane i)
        ≡ option_map (λ o. (o.0, Some o.1)) (slice_get session.now.done i) }
    ensures same_advice { (i : ℕ) → i < result.returns
        → advice_of sealed.now (session_operation session.now.lane i) ≡ option_map (λ o. Some o.2) (slice_get session.now.done i) }
    ensures same_calls { (i : ℕ) → i < result.calls
        → option_map (λ e. e.0) (entry sealed.now.history (session_operation session.now.lane i))
        ≡ slice_get (begun session.now.done session.now.pending) i }
{
    let lane = sealed.lane(session.lane() as usize);
    let held = lane.returned();
    let done = session.returned();
    if done < held {
        compare_returns(sealed.alloc(), lane, session, done);
        return Met {
            calls: done,
            returns: done,
        };
    }
    compare_returns(sealed.alloc(), lane, session, held);
    let behind = smaller(lane.called(), session.called() - held);
    compare_calls(sealed.alloc(), lane, session, behind);
    Met {
        calls: held + behind,
        returns: held,
    }
}

fn smaller(a: usize, b: usize) -> usize
    ensures { result ≡ min a b }
{
    if a < b { a } else { b }
}
