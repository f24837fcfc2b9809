//! What is read of the input.

ghost use Rattle.std.specs.Prelude.{◌≡◌, ◌↔◌, ◌+◌, ◌<◌, ◌≤◌, ℕ, IfErr, IfOk, OnOk, Some, length, slice_get};
ghost use Rattle.model_history.specs.History.{session};
ghost use Rattle.live_driver.specs.Drives.{CanDrive, RefusesDrive};

use crate::drive_error::DriveError;
use model_history::{History, MAX_OPERATIONS, OpId};
use model_object_trait::SeqObject;

/// Refuses an input without sessions with `BadLimits`, and then, with `NoSuch`, an input that lacks the session that is to
/// stop. O(1).
pub fn check_input<O: SeqObject>(input: &History<O>, stop: Option<usize>) -> Result<(), DriveError>
    ensures can { OnOk result (CanDrive stop input.now) }
    ensures refused { IfErr result (λ e. RefusesDrive stop input.now e) }
{
    let sessions = input.sessions();
    if sessions == 0 {
        return Err(DriveError::BadLimits);
    }
    match stop {
        Some(session) if session >= sessions => Err(DriveError::NoSuch),
        _ => Ok(()),
    }
}

/// How many calls the longest session has, and 1 where no session has any.
pub(crate) fn most_calls<O: SeqObject>(input: &History<O>) -> usize
    ensures some { 1 ≤ result }
    ensures few { result ≤ MAX_OPERATIONS }
    ensures most { (s : ℕ) → s < length input.now.1 → length (session input.now s) ≤ result }
{
    let mut most = 1;
    for s in 0..input.sessions() {
        most = most.max(input.len(s));
    }
    most
}

/// How many calls there are. O(k) for k sessions.
pub fn calls_in<O: SeqObject>(input: &History<O>) -> u64 {
    let mut calls = 0u64;
    for s in 0..input.sessions() {
        calls = calls.saturating_add(input.len(s) as u64);
    }
    calls
}

/// How many calls of a session end: all except the last one of the session that stops.
pub(crate) fn ended_calls<O: SeqObject>(input: &History<O>, stop: Option<usize>, s: usize) -> usize
    ensures within { result ≤ length (session input.now s) }
    ensures short { result ≤ MAX_OPERATIONS }
    ensures but_one { (i : ℕ) → i < length (session input.now s)
        → ¬ ((stop ≡ Some s) × (i + 1 ≡ length (session input.now s))) → i < result }
{
    ended_of(stop, s, input.len(s))
}

fn ended_of(stop: Option<usize>, s: usize, calls: usize) -> usize
    ensures within { result ≤ calls }
    ensures but_one { (i : ℕ) → i < calls → ¬ ((stop ≡ Some s) × (i + 1 ≡ calls)) → i < result }
{
    if stop == Some(s) {
        calls.saturating_sub(1)
    } else {
        calls
    }
}

/// A call of the input.
pub(crate) fn call_at<O: SeqObject>(input: &History<O>, s: usize, at: usize) -> O::Call
    requires { at < length (session input.now s) }
    ensures { (c : _) (known : _) → slice_get (session input.now s) at ≡ Some (c, known) → result ≡ c }
{
    input.call(OpId {
        session: s as u64,
        index: at as u64,
    })
}
