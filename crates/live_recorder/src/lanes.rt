//! The lanes of a recorder, and how a recorder is made with one session for each lane.

ghost use Rattle.std.specs.Prelude.{◌≡◌, ◌<◌, ◌≤◌, ℕ, length, slice_get, Some, IfOk, IfErr};
ghost use Rattle.std.specs.Arc.{arc_value};
ghost use Rattle.live_recorder.specs.Recorders.{AreLanes, IsRecorder, cells_of};
ghost use Rattle.live_recorder.specs.Refusals.{AreLimits, RefusesLimits};

use crate::lane::Lane;
use crate::record_error::RecordError;
use crate::recorded::Recorded;
use crate::session::Session;
use model_history::{MAX_OPERATIONS, MAX_SESSIONS};
use model_object_trait::SeqObject;
use std::alloc::{AllocError, Global};
use std::marker::Model;
use std::sync::Arc;

/// The lanes of a recorder, one for each session, and the start of its object.
#[derive(Drop)]
pub struct Lanes<O: Recorded> {
    start: O::Start,
    lanes: Vec<Arc<Lane<O>>>,
}

impl<O: Recorded> Model for Lanes<O> {
    ghost use Rattle.std.specs.Prelude.{◌≤◌, length};
    ghost use Rattle.live_recorder.specs.Sessions.{LanesState};
    ghost use Rattle.live_recorder.specs.Recorders.{cells_of};
    ghost use Rattle.model_history.specs.declared.limits.TheConstants.{MAX_SESSIONS};

    ghost Value = { LanesState O.Start };

    ghost view = { λ l. record { start = l.start; cells = cells_of l.lanes.items } };

    ghost invariant = { λ l. O.startable l.start × (length l.lanes.items ≤ MAX_SESSIONS) };
}

impl<O: Recorded> Lanes<O> {
    /// How many lanes there are: at most 16.
    pub fn len(&self) -> usize
        ensures lanes { result ≡ length self.now.cells }
        ensures few { result ≤ MAX_SESSIONS }
    {
        self.lanes.len()
    }

    /// The lane of a session.
    pub fn lane(&self, s: usize) -> &Lane<O>
        requires { s < length self.now.cells }
        ensures { slice_get self.now.cells s ≡ Some result.now }
    {
        &self.lanes[s]
    }

    /// What the object held before the first call.
    pub fn start(&self) -> &O::Start
        ensures start { result.now ≡ self.now.start }
        ensures startable { O.startable result.now }
    {
        &self.start
    }

    fn of(start: O::Start, lanes: Vec<Arc<Lane<O>>>) -> Lanes<O>
        requires start { O.startable start }
        requires few { length lanes.items ≤ MAX_SESSIONS }
        ensures { result ≡ record { start = start; cells = cells_of lanes.items } }
    {
        Lanes { start, lanes }
    }
}

/// A recorder of `k` sessions of at most `cap` operations each: its lanes, and a session for each of them, in order.
///
/// `BadLimits` where `k` is not 1 to 16 or `cap` not 1 to 256, else `Memory`. O(k cap).
pub fn new_recorder<O: SeqObject>(
    alloc: Global,
    k: usize,
    cap: usize,
    start: O::Start,
) -> Result<(Arc<Lanes<O>>, Vec<Session<O>>), RecordError>
    requires { O.is_start start }
    ensures limits { IfOk result (λ _. AreLimits k cap) }
    ensures recorder { IfOk result (λ r. IsRecorder k cap start (arc_value r.0) r.1.items) }
    ensures refused { IfErr result (λ e. RefusesLimits k cap e) }
{
    if k < 1 || k > MAX_SESSIONS || cap < 1 || cap > MAX_OPERATIONS {
        return Err(RecordError::BadLimits);
    }
    Ok(recorder_within(alloc, k, cap, start)?)
}

fn recorder_within<O: Recorded>(
    alloc: Global,
    k: usize,
    cap: usize,
    start: O::Start,
) -> Result<(Arc<Lanes<O>>, Vec<Session<O>>), AllocError>
    requires start { O.startable start }
    requires few { k ≤ MAX_SESSIONS }
    requires short { cap ≤ MAX_OPERATIONS }
    ensures { IfOk result (λ r. IsRecorder k cap start (arc_value r.0) r.1.items) }
{
    let (lanes, sessions) = lanes_and_sessions::<O>(alloc, k, cap)?;
    let lanes = Arc::new(alloc, Lanes::of(start, lanes))?;
    Ok((lanes, sessions))
}

fn lanes_and_sessions<O: Recorded>(
    alloc: Global,
    k: usize,
    cap: usize,
) -> Result<(Vec<Arc<Lane<O>>>, Vec<Session<O>>), AllocError>
    requires { cap ≤ MAX_OPERATIONS }
    ensures many { IfOk result (λ r. length r.0.items ≡ k) }
    ensures lanes { IfOk result (λ r. AreLanes cap (cells_of r.0.items) r.1.items) }
{
    let mut lanes = Vec::with_capacity(alloc, k)?;
    let mut sessions = Vec::with_capacity(alloc, k)?;
    for s in 0..k {
        let lane = Arc::new(alloc, Lane::new(alloc, cap)?)?;
        sessions.push(Session::new(alloc, s as u64, Arc::try_clone(&lane)?))?;
        lanes.push(lane)?;
    }
    Ok((lanes, sessions))
}
