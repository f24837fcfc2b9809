//! What a client leaves at its end, and seals with their numbers.

use live_recorder::{Receipt, Session};
use live_seals::Sealed;
use model_object_trait::SeqObject;
use std::marker::Model;

/// A seal that was taken while clients ran, and its number among them.
#[derive(Drop)]
pub(crate) struct NumberedSeal<O: SeqObject> {
    pub(crate) number: u8,
    pub(crate) sealed: Sealed<O>,
}

impl<O: SeqObject> Model for NumberedSeal<O> {
    ghost use Rattle.live_seals.specs.Seals.{SealState};

    ghost Value = { SealState O.Start O.Call O.Ret };

    ghost view = { λ n. n.sealed };
}

/// What a client leaves: its session, a receipt for its last call that has returned, and the seals that it took.
#[derive(Drop)]
pub struct Played<O: SeqObject> {
    pub(crate) session: Session<O>,
    pub(crate) receipt: Option<Receipt<O>>,
    pub(crate) seals: Vec<NumberedSeal<O>>,
}

impl<O: SeqObject> Model for Played<O> {
    ghost use Rattle.live_driver.specs.Clients.{PlayedState};

    ghost Value = { PlayedState O.Start O.Call O.Ret };

    ghost view = { λ p. record { own = p.session; receipt = p.receipt; seals = p.seals.items } };
}
