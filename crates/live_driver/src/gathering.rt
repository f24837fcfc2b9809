//! Gathering what the clients leave.

ghost use Rattle.std.specs.Prelude.{◌≡◌, ◌++◌, ◌∷◌, [], length, IfErr, IfOk, OnOk};
ghost use Rattle.live_seals.specs.Seals.{AreReceiptsOf};
ghost use Rattle.std.specs.Option.{option_to_list};
ghost use Rattle.live_driver.specs.Clients.{AreAllPlayed, AreOfLanesFrom, AreRecorded, AreSealsOf, IsGivenUp, StandForCalls};

use crate::drive_error::DriveError;
use crate::played::{NumberedSeal, Played};
use crate::run::Run;
use live_recorder::{Receipt, Session};
use model_object_trait::SeqObject;

/// What all clients left.
#[derive(Drop)]
pub(crate) struct Gathered<O: SeqObject> {
    /// Their sessions.
    pub(crate) sessions: Vec<Session<O>>,
    /// Their receipts.
    pub(crate) receipts: Vec<Receipt<O>>,
    /// The seals that they took.
    pub(crate) seals: Vec<NumberedSeal<O>>,
}

/// What all clients left, if none of them gave up.
pub(crate) fn gather<O: SeqObject>(
    run: &Run<O>,
    mut results: Vec<Result<Played<O>, DriveError>>,
) -> Result<Gathered<O>, DriveError>
    requires many { length results.items ≡ length run.now.input.now.1 }
    requires played { AreAllPlayed run.now.lanes.now run.now.plan.stop run.now.input.now results.items }
    ensures recorded { IfOk result (λ g. AreRecorded run.now.lanes.now run.now.input.now g.sessions.items) }
    ensures lanes { IfOk result (λ g. AreOfLanesFrom 0 run.now.input.now g.sessions.items) }
    ensures told { IfOk result (λ g. AreReceiptsOf run.now.lanes.now g.receipts.items) }
    ensures calls { IfOk result (λ g. StandForCalls run.now.plan.stop run.now.input.now g.receipts.items) }
    ensures seals { IfOk result (λ g. AreSealsOf run.now.lanes.now g.seals.items) }
    ensures refused { IfErr result IsGivenUp }
{
    let mut sessions = Vec::new(run.alloc);
    let mut receipts = Vec::new(run.alloc);
    let mut seals = Vec::new(run.alloc);
    while let Some(result) = results.pop() {
        let played = match result {
            Ok(played) => played,
            Err(refused) => return Err(refused),
        };
        keep(played, &mut sessions, &mut receipts, &mut seals)?;
    }
    Ok(Gathered {
        sessions,
        receipts,
        seals,
    })
}

/// Appends what a client leaves to what others left.
fn keep<O: SeqObject>(
    played: Played<O>,
    sessions: &mut Vec<Session<O>>,
    receipts: &mut Vec<Receipt<O>>,
    seals: &mut Vec<NumberedSeal<O>>,
) -> Result<(), DriveError>
    ensures sessions { OnOk result (sessions.new.items ≡ sessions.old.items ++ played.own ∷ []) }
    ensures receipts { OnOk result (receipts.new.items ≡ receipts.old.items ++ option_to_list played.receipt) }
    ensures seals { OnOk result (seals.new.items ≡ seals.old.items ++ played.seals) }
    ensures refused { IfErr result IsGivenUp }
{
    let Played {
        session,
        receipt,
        seals: mut own,
    } = played;
    let appended = seals.append(&mut own);
    drop(own);
    match appended {
        Ok(()) => keep_session(session, receipt, sessions, receipts),
        Err(refused) => {
            drop(session);
            drop(receipt);
            Err(DriveError::from(refused))
        }
    }
}

/// Appends the session that a client leaves, and its receipt, if it leaves one.
fn keep_session<O: SeqObject>(
    session: Session<O>,
    receipt: Option<Receipt<O>>,
    sessions: &mut Vec<Session<O>>,
    receipts: &mut Vec<Receipt<O>>,
) -> Result<(), DriveError>
    ensures sessions { OnOk result (sessions.new.items ≡ sessions.old.items ++ session ∷ []) }
    ensures receipts { OnOk result (receipts.new.items ≡ receipts.old.items ++ option_to_list receipt) }
    ensures refused { IfErr result IsGivenUp }
{
    match sessions.push(session) {
        Ok(()) => keep_receipt(receipt, receipts),
        Err(refused) => {
            drop(receipt);
            Err(DriveError::from(refused))
        }
    }
}

/// Appends the receipt that a client leaves, if it leaves one.
fn keep_receipt<O: SeqObject>(
    receipt: Option<Receipt<O>>,
    receipts: &mut Vec<Receipt<O>>,
) -> Result<(), DriveError>
    ensures receipts { OnOk result (receipts.new.items ≡ receipts.old.items ++ option_to_list receipt) }
    ensures refused { IfErr result IsGivenUp }
{
    if let Some(receipt) = receipt {
        receipts.push(receipt)?;
    }
    Ok(())
}
