//! A seat, which holds the session of a client and then what it has played.

use crate::drive_error::DriveError;
use crate::played::Played;
use crate::run_name::RunName;
use live_recorder::Session;
use model_object_trait::SeqObject;
use std::marker::{Model, PhantomData};

/// The place where a client finds its session and leaves what it played.
#[derive(Drop)]
pub(crate) struct Seat<O: SeqObject, K: RunName<O::Start, O::Call, O::Ret>> {
    pub(crate) own: Option<Session<O>>,
    pub(crate) left: Option<(usize, Result<Played<O>, DriveError>)>,
    pub(crate) of: PhantomData<K>,
}

impl<O: SeqObject, K: RunName<O::Start, O::Call, O::Ret>> Model for Seat<O, K> {
    ghost use Rattle.std.specs.Prelude.{IfSome};
    ghost use Rattle.live_driver.specs.Seats.{SeatState};

    ghost Value = { SeatState O.Start O.Call O.Ret };

    ghost view = { λ s. record { own = s.own; left = s.left } };

    ghost invariant = { λ s. IfSome s.own K.ready × IfSome s.left (λ l. K.left l.0 l.1) };
}
