//! What a client does from its first call to its last.

ghost use Rattle.std.specs.Prelude.{◌≡◌, ◌<◌, ◌≤◌, [], length, IfErr, IfOk, OnOk};
ghost use Rattle.model_history.specs.History.{session};
ghost use Rattle.model_history.specs.declared.limits.TheConstants.{MAX_OPERATIONS};
ghost use Rattle.live_recorder.specs.Refusals.{HasPlace};
ghost use Rattle.live_driver.specs.Clients.{AreSealsOf, IsAt, IsFresh, IsGivenUp, IsLastReceipt, IsPlayed, IsRecorded};

use crate::client::Client;
use crate::drive_error::DriveError;
use crate::input::{call_at, ended_calls};
use crate::played::{NumberedSeal, Played};
use crate::run::Run;
use crate::sealing::seal_now;
use judge_workers::Gate;
use live_recorder::{Receipt, Session};
use live_replica::{Replica, UpdateOrder};
use model_object_trait::SeqObject;
use std::sync::Wait;

/// Plays a session to its end, and takes the seals that fall due at its calls. The client of a session that stops begins its
/// last call, doesn't ask its replica, and never ends it.
///
/// Each call is between `enter` and `leave` of the gate. Fails for want of memory; no run returns `ClockFull` or
/// `CellGaveBack`. Beside what the store and the seals take, O(n) for n calls.
pub fn play<O: SeqObject, P: UpdateOrder, R: Wait, G: Gate>(
    rt: &R,
    run: &Run<O>,
    gate: &G,
    s: usize,
    own: Session<O>,
) -> Result<Played<O>, DriveError>
    requires fresh { IsFresh run.now.lanes.now run.now.input.now own }
    requires lane { own.lane ≡ s }
    requires within { s < length run.now.input.now.1 }
    ensures played { IfOk result (λ played. IsPlayed run.now.lanes.now run.now.plan.stop run.now.input.now s played) }
    ensures refused { IfErr result IsGivenUp }
{
    let mut client = client_of::<O, P>(run, s, own)?;
    let mut seals = Vec::new(run.alloc);
    let receipt = play_calls(rt, run, gate, s, &mut client, &mut seals);
    let session = client.into_session();
    match receipt {
        Ok(receipt) => Ok(Played {
            session,
            receipt,
            seals,
        }),
        Err(refused) => {
            drop(session);
            drop(seals);
            Err(refused)
        }
    }
}

/// Plays all calls of a session, and returns the receipt of the last one that ended, if there is one.
fn play_calls<O: SeqObject, P: UpdateOrder, R: Wait, G: Gate>(
    rt: &R,
    run: &Run<O>,
    gate: &G,
    s: usize,
    client: &mut Client<O, P>,
    seals: &mut Vec<NumberedSeal<O>>,
) -> Result<Option<Receipt<O>>, DriveError>
    requires start { IsAt run.now.lanes.now run.now.input.now s 0 client.old.session client.old.replica }
    requires seals { AreSealsOf run.now.lanes.now seals.old.items }
    requires within { s < length run.now.input.now.1 }
    ensures played { IfOk result (λ receipt. IsPlayed run.now.lanes.now run.now.plan.stop run.now.input.now s
        (record { own = client.new.session; receipt = receipt; seals = seals.new.items })) }
    ensures refused { IfErr result IsGivenUp }
{
    let ended = ended_calls(run.input, run.plan.stop, s);
    let receipt = play_ended(rt, run, gate, s, ended, client, seals)?;
    match play_open(rt, run, gate, s, ended, client, seals) {
        Ok(()) => Ok(receipt),
        Err(refused) => {
            drop(receipt);
            Err(refused)
        }
    }
}

/// A client that has called nothing yet, with a replica of its own.
fn client_of<O: SeqObject, P: UpdateOrder>(
    run: &Run<O>,
    s: usize,
    own: Session<O>,
) -> Result<Client<O, P>, DriveError>
    requires fresh { IsFresh run.now.lanes.now run.now.input.now own }
    requires lane { own.lane ≡ s }
    requires within { s < length run.now.input.now.1 }
    ensures at { IfOk result (λ client. IsAt run.now.lanes.now run.now.input.now s 0 client.session client.replica) }
    ensures refused { IfErr result IsGivenUp }
{
    let replica = Replica::new(
        run.alloc,
        s,
        run.input.sessions(),
        run.plan.delivery,
        run.input.start(),
    )?;
    Ok(Client {
        session: own,
        replica,
    })
}

/// Plays so many calls of a session, and returns the receipt of the last one, if there is one.
fn play_ended<O: SeqObject, P: UpdateOrder, R: Wait, G: Gate>(
    rt: &R,
    run: &Run<O>,
    gate: &G,
    s: usize,
    ended: usize,
    client: &mut Client<O, P>,
    seals: &mut Vec<NumberedSeal<O>>,
) -> Result<Option<Receipt<O>>, DriveError>
    requires ended { ended ≤ length (session run.now.input.now s) }
    requires short { ended ≤ MAX_OPERATIONS }
    requires start { IsAt run.now.lanes.now run.now.input.now s 0 client.old.session client.old.replica }
    requires seals { AreSealsOf run.now.lanes.now seals.old.items }
    ensures at { OnOk result (IsAt run.now.lanes.now run.now.input.now s ended client.new.session client.new.replica) }
    ensures receipt { IfOk result (λ receipt. IsLastReceipt client.new.session receipt) }
    ensures seals { OnOk result (AreSealsOf run.now.lanes.now seals.new.items) }
    ensures refused { IfErr result IsGivenUp }
{
    let mut receipt = None;
    for at in 0..ended {
        let call = call_at(run.input, s, at);
        receipt = Some(client.play(rt, run, gate, call)?);
        take_due(run, seals)?;
    }
    Ok(receipt)
}

/// Begins the call that stays open, if a session has one.
fn play_open<O: SeqObject, P: UpdateOrder, R: Wait, G: Gate>(
    rt: &R,
    run: &Run<O>,
    gate: &G,
    s: usize,
    ended: usize,
    client: &mut Client<O, P>,
    seals: &mut Vec<NumberedSeal<O>>,
) -> Result<(), DriveError>
    requires within { ended ≤ length (session run.now.input.now s) }
    requires at { IsAt run.now.lanes.now run.now.input.now s ended client.old.session client.old.replica }
    requires seals { AreSealsOf run.now.lanes.now seals.old.items }
    ensures lane { OnOk result (client.new.session.lane ≡ s) }
    ensures recorded { OnOk result (IsRecorded run.now.lanes.now run.now.input.now client.new.session) }
    ensures seals { OnOk result (AreSealsOf run.now.lanes.now seals.new.items) }
    ensures refused { IfErr result IsGivenUp }
{
    if ended >= run.input.len(s) {
        return Ok(());
    }
    let call = call_at(run.input, s, ended);
    client.leave_open(rt, run, gate, call)?;
    take_due(run, seals)
}

/// Counts one more call, and takes the seals that are due then.
fn take_due<O: SeqObject>(run: &Run<O>, seals: &mut Vec<NumberedSeal<O>>) -> Result<(), DriveError>
    requires { AreSealsOf run.now.lanes.now seals.old.items }
    ensures seals { OnOk result (AreSealsOf run.now.lanes.now seals.new.items) }
    ensures refused { IfErr result IsGivenUp }
{
    let recorded = run.progress.count();
    for number in 0..run.plan.seals {
        take_if_due(run, number, recorded, seals)?;
    }
    Ok(())
}

fn take_if_due<O: SeqObject>(
    run: &Run<O>,
    number: u8,
    recorded: u64,
    seals: &mut Vec<NumberedSeal<O>>,
) -> Result<(), DriveError>
    requires { AreSealsOf run.now.lanes.now seals.old.items }
    ensures seals { OnOk result (AreSealsOf run.now.lanes.now seals.new.items) }
    ensures refused { IfErr result IsGivenUp }
{
    if !run.progress.is_due(number, recorded) {
        return Ok(());
    }
    let sealed = seal_now(run)?;
    seals.push(NumberedSeal { number, sealed })?;
    Ok(())
}
