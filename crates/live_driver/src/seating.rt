//! Seats for the clients, filled before they start and read when they have ended.

ghost use Rattle.std.specs.Prelude.{◌≡◌, ℕ, length, slice_get, IfErr, IfOk, Result, Some};
ghost use Rattle.live_recorder.specs.Sessions.{SessionState};
ghost use Rattle.live_driver.specs.Clients.{IsGivenUp, PlayedState};
ghost use Rattle.live_driver.specs.declared.drive_error.DriveError.{DriveError};

use crate::drive_error::DriveError;
use crate::played::Played;
use crate::run_name::RunName;
use crate::seat::Seat;
use live_recorder::Session;
use model_object_trait::SeqObject;
use std::alloc::{AllocError, Global};
use std::marker::PhantomData;
use std::sync::Mutex;

impl<O: SeqObject, K: RunName<O::Start, O::Call, O::Ret>> Seat<O, K> {
    /// A seat at which a session waits, and where nothing is left yet.
    fn of(own: Session<O>) -> Seat<O, K>
        requires { K.ready own }
    {
        Seat {
            own: Some(own),
            left: None,
            of: PhantomData,
        }
    }

    /// What the client of a session left. Refuses with `CellGaveBack` if the client of that session left nothing here.
    fn left_by(self, s: usize) -> Result<Result<Played<O>, DriveError>, DriveError>
        ensures left { IfOk result (K.left s) }
        ensures refused { IfErr result IsGivenUp }
    {
        let Seat { own, left, of: _of } = self;
        drop(own);
        let Some((at, played)) = left else {
            return Err(DriveError::CellGaveBack);
        };
        if at == s {
            Ok(played)
        } else {
            drop(played);
            Err(DriveError::CellGaveBack)
        }
    }
}

/// A seat for each session.
pub(crate) fn seats_of<O: SeqObject, K: RunName<O::Start, O::Call, O::Ret>>(
    alloc: Global,
    mut sessions: Vec<Session<O>>,
) -> Result<Vec<Mutex<Seat<O, K>>>, AllocError>
    requires { (s : ℕ) (own : SessionState O.Call O.Ret) → slice_get sessions.items s ≡ Some own → K.ready own }
    ensures { IfOk result (λ seats. length seats.items ≡ length sessions.items) }
{
    let mut seats = Vec::new(alloc);
    while let Some(own) = sessions.pop() {
        seats.push(Mutex::new(Seat::<O, K>::of(own)))?;
    }
    Ok(seats)
}

/// What the clients of all seats left, in the order of the sessions.
pub(crate) fn read_seats<O: SeqObject, K: RunName<O::Start, O::Call, O::Ret>>(
    alloc: Global,
    mut seats: Vec<Mutex<Seat<O, K>>>,
) -> Result<Vec<Result<Played<O>, DriveError>>, DriveError>
    ensures many { IfOk result (λ results. length results.items ≡ length seats.items) }
    ensures left { IfOk result (λ results. (s : ℕ) (p : Result (PlayedState O.Start O.Call O.Ret) DriveError)
        → slice_get results.items s ≡ Some p → K.left s p) }
    ensures refused { IfErr result IsGivenUp }
{
    let mut results = Vec::new(alloc);
    while let Some(seat) = seats.pop() {
        let left = seat.into_inner().left_by(results.len())?;
        results.push(left)?;
    }
    Ok(results)
}
