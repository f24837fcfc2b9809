//! What a run gives: the seals that were taken while clients ran, and the last one.

ghost use Rattle.std.specs.Prelude.{◌≡◌, ◌+◌, ◌<◌, length, vec_len, IfErr, IfOk, OnOk};
ghost use Rattle.live_seals.specs.Seals.{AreReceiptsOf, HoldsAll, IsSealOf};
ghost use Rattle.live_driver.specs.Clients.{AreAllPlayed, AreSealsOf, HaveFirstCalls, IsGivenUp, StandForCalls};
ghost use Rattle.live_driver.specs.Drives.{RepeatsAt, RepeatsCalls};

use crate::drive_error::DriveError;
use crate::first_calls::check_seals;
use crate::gathering::{Gathered, gather};
use crate::played::{NumberedSeal, Played};
use crate::run::Run;
use live_recorder::Receipt;
use live_seals::{Sealed, seal};
use model_object_trait::SeqObject;

/// The seals that the clients took, in order, and one more that is given all receipts; or why the last client that gave up did so.
///
/// Also fails for want of memory. Each seal is compared with what the sessions began. O(n) for n calls, and for each seal, beside the seals
/// that are taken.
pub fn seals_of<O: SeqObject>(
    run: &Run<O>,
    results: Vec<Result<Played<O>, DriveError>>,
) -> Result<Vec<Sealed<O>>, DriveError>
    requires many { length results.items ≡ length run.now.input.now.1 }
    requires played { AreAllPlayed run.now.lanes.now run.now.plan.stop run.now.input.now results.items }
    ensures many { IfOk result (λ sealed. length sealed.items ≡ run.now.plan.seals + 1) }
    ensures seals { IfOk result (λ sealed. AreSealsOf run.now.lanes.now sealed.items) }
    ensures calls { IfOk result (λ sealed. HaveFirstCalls run.now.input.now sealed.items) }
    ensures last { IfOk result (λ sealed. RepeatsAt run.now.plan.seals run.now.plan.stop run.now.input.now sealed.items) }
    ensures refused { IfErr result IsGivenUp }
{
    let Gathered {
        sessions,
        receipts,
        seals: taken,
    } = gather(run, results)?;
    let sealed = seals_with_last(run, taken, &receipts)?;
    check_seals(run, &sessions, &sealed)?;
    Ok(sealed)
}

/// The seals that the clients took, in order, and one more that is given all receipts.
fn seals_with_last<O: SeqObject>(
    run: &Run<O>,
    taken: Vec<NumberedSeal<O>>,
    receipts: &Vec<Receipt<O>>,
) -> Result<Vec<Sealed<O>>, DriveError>
    requires taken { AreSealsOf run.now.lanes.now taken.items }
    requires told { AreReceiptsOf run.now.lanes.now receipts.now.items }
    requires calls { StandForCalls run.now.plan.stop run.now.input.now receipts.now.items }
    ensures many { IfOk result (λ sealed. length sealed.items ≡ run.now.plan.seals + 1) }
    ensures seals { IfOk result (λ sealed. AreSealsOf run.now.lanes.now sealed.items) }
    ensures last { IfOk result (λ sealed. RepeatsAt run.now.plan.seals run.now.plan.stop run.now.input.now sealed.items) }
    ensures refused { IfErr result IsGivenUp }
{
    let mut sealed = in_order(run, taken)?;
    let last = seal_all(run, receipts)?;
    sealed.push(last)?;
    Ok(sealed)
}

/// The seals that were taken while clients ran, in order. A seal that fell due at no call is taken now.
pub(crate) fn in_order<O: SeqObject>(
    run: &Run<O>,
    mut taken: Vec<NumberedSeal<O>>,
) -> Result<Vec<Sealed<O>>, DriveError>
    requires { AreSealsOf run.now.lanes.now taken.items }
    ensures many { IfOk result (λ sealed. length sealed.items ≡ run.now.plan.seals) }
    ensures seals { IfOk result (λ sealed. AreSealsOf run.now.lanes.now sealed.items) }
    ensures refused { IfErr result IsGivenUp }
{
    let mut sealed = Vec::new(run.alloc);
    for number in 0..run.plan.seals {
        sealed.push(numbered(run, &mut taken, number)?)?;
    }
    Ok(sealed)
}

/// Takes the seal of a number out of those that were taken. If it is missing, it is taken now.
fn numbered<O: SeqObject>(
    run: &Run<O>,
    taken: &mut Vec<NumberedSeal<O>>,
    number: u8,
) -> Result<Sealed<O>, DriveError>
    requires { AreSealsOf run.now.lanes.now taken.old.items }
    ensures left { OnOk result (AreSealsOf run.now.lanes.now taken.new.items) }
    ensures seal { IfOk result (λ sealed. IsSealOf run.now.lanes.now sealed) }
    ensures refused { IfErr result IsGivenUp }
{
    match taken.iter().position(|seal| seal.number == number) {
        Some(at) => Ok(take_out(run, taken, at)),
        None => seal_now(run),
    }
}

/// Takes the seal at a place out of the list.
fn take_out<O: SeqObject>(run: &Run<O>, taken: &mut Vec<NumberedSeal<O>>, at: usize) -> Sealed<O>
    requires place { at < vec_len taken.old }
    requires seals { AreSealsOf run.now.lanes.now taken.old.items }
    ensures left { AreSealsOf run.now.lanes.now taken.new.items }
    ensures seal { IsSealOf run.now.lanes.now result }
{
    taken.remove(at).sealed
}

/// Seals what is recorded, without receipts.
pub(crate) fn seal_now<O: SeqObject>(run: &Run<O>) -> Result<Sealed<O>, DriveError>
    ensures seal { IfOk result (λ sealed. IsSealOf run.now.lanes.now sealed) }
    ensures refused { IfErr result IsGivenUp }
{
    let none = Vec::new(run.alloc);
    seal_told(run, &none)
}

/// Seals what is recorded, given the receipts for all calls.
fn seal_all<O: SeqObject>(run: &Run<O>, receipts: &Vec<Receipt<O>>) -> Result<Sealed<O>, DriveError>
    requires told { AreReceiptsOf run.now.lanes.now receipts.now.items }
    requires calls { StandForCalls run.now.plan.stop run.now.input.now receipts.now.items }
    ensures seal { IfOk result (λ sealed. IsSealOf run.now.lanes.now sealed) }
    ensures calls { IfOk result (λ sealed. RepeatsCalls run.now.plan.stop run.now.input.now sealed.history) }
    ensures refused { IfErr result IsGivenUp }
{
    seal_told(run, receipts)
}

/// Seals what is recorded, given these receipts.
fn seal_told<O: SeqObject>(
    run: &Run<O>,
    receipts: &Vec<Receipt<O>>,
) -> Result<Sealed<O>, DriveError>
    requires { AreReceiptsOf run.now.lanes.now receipts.now.items }
    ensures holds { IfOk result (λ sealed. HoldsAll sealed.history receipts.now.items) }
    ensures seal { IfOk result (λ sealed. IsSealOf run.now.lanes.now sealed) }
    ensures refused { IfErr result IsGivenUp }
{
    match seal(run.alloc, run.lanes, receipts) {
        Ok(sealed) => Ok(sealed),
        Err(_refused) => Err(DriveError::Memory),
    }
}
