//! What a drive of a store writes: histories that were sealed, and what is known of each.

ghost use Rattle.std.specs.Prelude.{◌≡◌, IfErr, IfOk, string_bytes};
ghost use Rattle.live_driver.specs.Drives.{IsOfInput};
ghost use Rattle.app_engine.specs.Driving.{IsDriveError, IsDriven, IsDrivenAs, IsDriveOrder, IsOrderError, sessions_in};
ghost use Rattle.app_engine.specs.Running.{IsOutput, IsOutputError};
ghost use Rattle.app_engine.specs.Steps.SealedTexts.{AreSealedFrom, AreTrueTexts, IsReportedText, IsTrueText};

use crate::drivable::Drivable;
use crate::failure::RunError;
use app_explanations::report_text;
use app_findings::{PieceWork, report_on};
use app_orders::{Drive, Order, Store};
use json_histories::{AnyHistory, History, read_history, write_history};
use judge_workers::{Gate, OpenGate, WorkerThreads};
use live_causal_store::AsDelivered;
use live_driver::{DrivePlan, drive};
use live_lamport_store::ByStamp;
use live_replica::UpdateOrder;
use live_seals::Sealed;
use model_history::Advice;
use model_objects::{AddRemoveSet, Counter, Counters, Memory, Queue, Queues, Register, Sets};
use std::alloc::{AllocError, Global};
use std::sync::Wait;
use std::thread::Threads;

/// Drives a store with the calls of a history, as the order says, and returns what was recorded: for each sealed history its
/// compact text, a line feed, and the three lines of what is known of it.
///
/// It ignores the returns in the history. A client thread for each session makes its calls at a replica of its own, between
/// `enter` and `leave` of the gate. As many histories are sealed while clients run as the order says, and one more at the end,
/// in which each session begins with the calls that it was to make; only a session that stops leaves its last one open.
///
/// Refuses in this order: `BadLimits` where the history has no session, `NoSuch` where it lacks the one that is to stop; else
/// `Memory`, and then all clients have ended. Its cost is that of the store, of the seals, and of [`report_on`] for each.
pub fn drive_with<T: Threads + Wait + Sync, G: Gate>(
    rt: &T,
    alloc: Global,
    history: &AnyHistory,
    order: &Order,
    gate: &G,
) -> Result<String, RunError>
    requires { IsDriveOrder order.now }
    ensures driven { IfOk result (λ text. IsDrivenAs order.now history.now (string_bytes text)) }
    ensures error { IfErr result (IsOrderError order.now history.now) }
{
    match order {
        Order::Drive(drive) => drive_store(rt, alloc, history, *drive, gate),
        Order::Judge(_)
        | Order::JudgeLines(_)
        | Order::Check(_)
        | Order::Explain(_)
        | Order::ExplainLong(_)
        | Order::ListFaults(_)
        | Order::Refute(_)
        | Order::Replay => { unreachable!() }
    }
}

/// What a drive of its store writes for the history in the input, as [`drive_with`] drives it, at an open gate.
///
/// Refuses what is no history, and what the drive refuses. It costs O(n) for n bytes, and what [`drive_with`] takes.
pub fn drive_input<T: Threads + Wait + Sync>(
    rt: &T,
    alloc: Global,
    input: &[u8],
    drive: Drive,
) -> Result<String, RunError>
    ensures output { IfOk result (λ text. IsOutput (Order.Drive drive) input.now (string_bytes text)) }
    ensures error { IfErr result (IsOutputError (Order.Drive drive) input.now) }
{
    let history = read_history(alloc, input)?;
    let text = drive_store(rt, alloc, &history, drive, &OpenGate);
    history.discard();
    text
}

// What a drive of its store writes for a history.
fn drive_store<T: Threads + Wait + Sync, G: Gate>(
    rt: &T,
    alloc: Global,
    history: &AnyHistory,
    drive: Drive,
    gate: &G,
) -> Result<String, RunError>
    ensures driven { IfOk result (λ text. IsDriven drive history.now (string_bytes text)) }
    ensures error { IfErr result (IsDriveError drive.stop (sessions_in history.now)) }
{
    match drive.store {
        Store::Causal => drive_any::<AsDelivered, T, G>(rt, alloc, history, drive, gate),
        Store::Lamport => drive_any::<ByStamp, T, G>(rt, alloc, history, drive, gate),
    }
}

// The same of a store with this order of updates.
fn drive_any<P: UpdateOrder + Send + Sync, T: Threads + Wait + Sync, G: Gate>(
    rt: &T,
    alloc: Global,
    history: &AnyHistory,
    drive: Drive,
    gate: &G,
) -> Result<String, RunError>
    ensures driven { IfOk result (λ text. IsDriven drive history.now (string_bytes text)) }
    ensures error { IfErr result (IsDriveError drive.stop (sessions_in history.now)) }
{
    match history {
        AnyHistory::Register(plain) => {
            drive_object::<Register, P, T, G>(rt, alloc, plain.history(), drive, gate)
        }
        AnyHistory::Counter(plain) => {
            drive_object::<Counter, P, T, G>(rt, alloc, plain.history(), drive, gate)
        }
        AnyHistory::Set(plain) => {
            drive_object::<AddRemoveSet, P, T, G>(rt, alloc, plain.history(), drive, gate)
        }
        AnyHistory::Queue(plain) => {
            drive_object::<Queue, P, T, G>(rt, alloc, plain.history(), drive, gate)
        }
        AnyHistory::Memory(history) => {
            drive_object::<Memory, P, T, G>(rt, alloc, history, drive, gate)
        }
        AnyHistory::Counters(history) => {
            drive_object::<Counters, P, T, G>(rt, alloc, history, drive, gate)
        }
        AnyHistory::Sets(history) => {
            drive_object::<Sets, P, T, G>(rt, alloc, history, drive, gate)
        }
        AnyHistory::Queues(history) => {
            drive_object::<Queues, P, T, G>(rt, alloc, history, drive, gate)
        }
    }
}

// The same for a history of one object.
#[tactic(auto, using(crate::proofs::DriveOutcomes::can_drive, crate::proofs::DriveOutcomes::refused_drive))]
fn drive_object<
    O: Drivable + Send + Sync,
    P: UpdateOrder + Send + Sync,
    T: Threads + Wait + Sync,
    G: Gate,
>(rt: &T, alloc: Global, history: &History<O>, order: Drive, gate: &G) -> Result<String, RunError>
    requires { O.starts history.now.0 }
    ensures driven { IfOk result (λ text. IsDriven order (O.any history.now) (string_bytes text)) }
    ensures error { IfErr result (IsDriveError order.stop (sessions_in (O.any history.now))) }
{
    let plan = DrivePlan {
        delivery: order.delivery,
        seals: order.seals,
        stop: order.stop,
    };
    let seals = drive::<O, P, T, G>(rt, alloc, history, plan, gate)?;
    let work = WorkerThreads::of(rt, order.workers);
    let text = text_of_seals(&work, alloc, history, seals.as_slice())?;
    Ok(text)
}

// The texts of sealed histories, one after the other.
#[tactic(auto, using(crate::proofs::SealedTexts::texts_next, crate::proofs::SealedTexts::texts_all))]
fn text_of_seals<O: Drivable, K: PieceWork>(
    work: &K,
    alloc: Global,
    input: &History<O>,
    seals: &[Sealed<O>],
) -> Result<String, AllocError>
    requires can_check { K.can_check work.now }
    requires start { O.starts input.now.0 }
    requires sealed { AreSealedFrom input.now seals.now }
    ensures { IfOk result (λ text. AreTrueTexts O.any input.now seals.now (string_bytes text)) }
{
    let mut text = String::new(alloc);
    for sealed in seals {
        let more = text_of_seal(work, alloc, input, sealed)?;
        text.push_str(more.as_str())?;
    }
    Ok(text)
}

// The text of a sealed history: its form, and the lines of the report on it.
fn text_of_seal<O: Drivable, K: PieceWork>(
    work: &K,
    alloc: Global,
    input: &History<O>,
    sealed: &Sealed<O>,
) -> Result<String, AllocError>
    requires can_check { K.can_check work.now }
    requires start { O.starts input.now.0 }
    requires sealed { IsOfInput input.now sealed.now.history }
    ensures { IfOk result (λ text. IsTrueText (O.any input.now) (O.any sealed.now.history) (string_bytes text)) }
{
    let history = O::copy_as_any(alloc, sealed.history())?;
    let text = text_of_report(work, alloc, &history, sealed.advice());
    history.discard();
    text
}

// The form of a history, and the lines of the report on it.
fn text_of_report<K: PieceWork>(
    work: &K,
    alloc: Global,
    history: &AnyHistory,
    advice: &[Option<Advice>],
) -> Result<String, AllocError>
    requires { K.can_check work.now }
    ensures { IfOk result (λ text. IsReportedText history.now (string_bytes text)) }
{
    let form = write_history(alloc, history)?;
    let report = report_on(work, alloc, history, advice)?;
    let lines = report_text(alloc, &report);
    drop(report);
    let lines = lines?;
    Ok(format!(in alloc; "{form}\n{lines}")?)
}
