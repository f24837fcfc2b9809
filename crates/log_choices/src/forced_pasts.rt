//! What comes before a call, as far as it is known: for each client one more than the place of a call of it, or 0.

ghost use Rattle.std.specs.Prelude.{◌≡◌, ◌≢◌, ◌<◌, ◌+◌, ◌^◌, ℕ, Bool, List, IsTrue, false, slice_index};
ghost use Rattle.log_events.specs.declared.event.Event.{Event as Happened};
ghost use Rattle.log_choices.specs.Forced.{Comes};
ghost use Rattle.log_choices.specs.ForcedSteps.{IsKeptWrite, IsPast};

use crate::forced_kept::Kept;

/// Adds to what comes before a call a call of a client, by its place.
pub(crate) fn raise(past: &mut [u32], client: u32, place: u32)
    requires { place + 1 < 2 ^ 32 }
    ensures { (c : ℕ) → slice_index past.new c ≢ slice_index past.old c → (c ≡ client) × (slice_index past.new c ≡ place + 1) }
{
    let client = client as usize;
    if client < past.len() && past[client] <= place {
        past[client] = place + 1;
    }
}

/// Adds to what comes before a call what comes before another.
fn join(past: &mut [u32], other: &[u32])
    ensures { (c : ℕ) → slice_index past.new c ≢ slice_index past.old c → slice_index past.new c ≡ slice_index other.now c }
{
    for client in 0..past.len().min(other.len()) {
        if past[client] < other[client] {
            past[client] = other[client];
        }
    }
}

/// Adds to what comes before a call a write or delete that comes before it.
pub(crate) fn follow(past: &mut [u32], write: &Kept)
    requires { write.now.place + 1 < 2 ^ 32 }
    ensures { (in_time : Bool) (es : List Happened) (q : ℕ) → IsKeptWrite in_time es write.now
        → Comes in_time es write.now.place q → IsPast in_time es past.old q
        → IsPast in_time es past.new q }
{
    join(past, &write.past);
    raise(past, write.client, write.place);
}

/// Whether a write or delete is known to come before a call, by what comes before the call.
pub(crate) fn precedes(write: &Kept, past: &[u32]) -> bool
    ensures { (in_time : Bool) (es : List Happened) (q : ℕ) → IsKeptWrite in_time es write.now
        → IsPast in_time es past.now q → IsTrue result
        → Comes in_time es write.now.place q }
{
    let client = write.client as usize;
    if client >= past.len() || past[client] <= write.place {
        return false;
    }
    !write.is_lost || past[client] - 1 == write.place
}
