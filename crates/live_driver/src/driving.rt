//! The drive of a store by the sessions of a history, from the check of the input to the seals.

ghost use Rattle.std.specs.Prelude.{◌≡◌, ◌+◌, ℕ, length, IfErr, IfOk, MatchResult, Result};
ghost use Rattle.live_recorder.specs.Sessions.{SessionState};
ghost use Rattle.live_driver.specs.Clients.{AreAllPlayed, AreFresh, IsFresh, IsGivenUp, IsPlayed, PlayedState};
ghost use Rattle.live_driver.specs.declared.drive_error.DriveError.{DriveError};
ghost use Rattle.live_driver.specs.Drives.{AreOfInput, CanDrive, RefusesDrive, RepeatsAt};

use crate::drive_error::DriveError;
use crate::input::{calls_in, check_input};
use crate::mailboxes::Mailboxes;
use crate::plan::DrivePlan;
use crate::played::Played;
use crate::recording::recorder_for;
use crate::run::Run;
use crate::run_name::RunName;
use crate::sealing::seals_of;
use crate::sealing_progress::SealingProgress;
use crate::seated::play_seats;
use crate::seating::{read_seats, seats_of};
use judge_workers::Gate;
use live_recorder::Session;
use live_replica::UpdateOrder;
use live_seals::Sealed;
use model_history::History;
use model_object_trait::SeqObject;
use std::alloc::Global;
use std::marker::{Brand, PhantomData};
use std::sync::Wait;
use std::thread::Threads;

/// Calls a store with the calls of the sessions of a history, ignoring the returns of the history, and seals what is recorded.
///
/// A client thread for each session makes its calls at a replica of its own, whose order of updates `P` gives, and sends the
/// updates to the others through mailboxes. Each call is between `enter` and `leave` of the gate. While clients run, the seals of
/// the plan are taken, each by the client that records the last call of an equal share; a seal that no client takes, since there
/// are no calls, is taken at the end. Then one more seal is taken, which is given all receipts and is the last in the list.
///
/// Refuses in this order: `BadLimits` if the history has no session, `NoSuch` if it doesn't have the session that is to stop, and
/// then for want of memory in any client, after all clients have ended. No run returns `ClockFull` or `CellGaveBack`.
///
/// Beside what the store takes, O(n) for n calls, and a seal for each of the plan and one more.
pub fn drive<
    O: SeqObject + Send + Sync,
    P: UpdateOrder + Send + Sync,
    R: Threads + Wait + Sync,
    G: Gate,
>(
    rt: &R,
    alloc: Global,
    history: &History<O>,
    plan: DrivePlan,
    gate: &G,
) -> Result<Vec<Sealed<O>>, DriveError>
    ensures many { IfOk result (λ sealed. length sealed.items ≡ plan.seals + 1) }
    ensures each { IfOk result (λ sealed. AreOfInput history.now sealed.items) }
    ensures last { IfOk result (λ sealed. RepeatsAt plan.seals plan.stop history.now sealed.items) }
    ensures driven { IfOk result (λ _. CanDrive plan.stop history.now) }
    ensures refused { IfErr result (λ e. RefusesDrive plan.stop history.now e) }
{
    check_input(history, plan.stop)?;
    drive_input::<O, P, R, G>(rt, alloc, history, plan, gate)
}

/// The same for an input that has sessions, among them the one that stops, if one does.
fn drive_input<
    O: SeqObject + Send + Sync,
    P: UpdateOrder + Send + Sync,
    R: Threads + Wait + Sync,
    G: Gate,
>(
    rt: &R,
    alloc: Global,
    input: &History<O>,
    plan: DrivePlan,
    gate: &G,
) -> Result<Vec<Sealed<O>>, DriveError>
    requires { CanDrive plan.stop input.now }
    ensures many { IfOk result (λ sealed. length sealed.items ≡ plan.seals + 1) }
    ensures each { IfOk result (λ sealed. AreOfInput input.now sealed.items) }
    ensures last { IfOk result (λ sealed. RepeatsAt plan.seals plan.stop input.now sealed.items) }
    ensures refused { IfErr result IsGivenUp }
{
    let (lanes, sessions) = recorder_for(alloc, input)?;
    let mailboxes = Mailboxes::new(alloc, input.sessions())?;
    let progress = SealingProgress::new(calls_in(input), plan.seals);
    let run = Run {
        alloc,
        input,
        plan,
        lanes: &lanes,
        mailboxes: &mailboxes,
        progress: &progress,
    };
    let results = play_all::<O, Brand, P, R, G>(rt, &run, gate, sessions)?;
    seals_of(&run, results)
}

/// The clients of all sessions, each in its own thread where one can be made. `K` names the run.
fn play_all<
    O: SeqObject + Send + Sync,
    K: RunName<O::Start, O::Call, O::Ret> + Send + Sync,
    P: UpdateOrder + Send + Sync,
    R: Threads + Wait + Sync,
    G: Gate,
>(
    rt: &R,
    run: &Run<O>,
    gate: &G,
    sessions: Vec<Session<O>>,
) -> Result<Vec<Result<Played<O>, DriveError>>, DriveError>
    requires fresh { AreFresh run.now.lanes.now run.now.input.now sessions.items }
    requires make_ready { (own : SessionState O.Call O.Ret) → IsFresh run.now.lanes.now run.now.input.now own → K.ready own }
    requires ready { (own : SessionState O.Call O.Ret) → K.ready own → IsFresh run.now.lanes.now run.now.input.now own }
    requires left { (s : ℕ) (p : Result (PlayedState O.Start O.Call O.Ret) DriveError)
        → MatchResult p (IsPlayed run.now.lanes.now run.now.plan.stop run.now.input.now s) IsGivenUp → K.left s p }
    requires said { (s : ℕ) (p : Result (PlayedState O.Start O.Call O.Ret) DriveError)
        → K.left s p → MatchResult p (IsPlayed run.now.lanes.now run.now.plan.stop run.now.input.now s) IsGivenUp }
    ensures many { IfOk result (λ results. length results.items ≡ length sessions.items) }
    ensures played { IfOk result (λ results. AreAllPlayed run.now.lanes.now run.now.plan.stop run.now.input.now results.items) }
    ensures refused { IfErr result IsGivenUp }
{
    let seats = seats_of::<O, K>(run.alloc, sessions)?;
    play_seats::<O, K, P, R, G>(rt, run, gate, &seats, &PhantomData)?;
    read_seats(run.alloc, seats)
}
