//! Clients at their seats, each in its own thread where one can be made.

ghost use Rattle.std.specs.Prelude.{IfSome};
ghost use Rattle.live_driver.specs.Clients.{AreFreshWhere, CanLeave};

use crate::drive_error::DriveError;
use crate::played::Played;
use crate::playing::play;
use crate::run::Run;
use crate::run_name::RunName;
use crate::seat::Seat;
use judge_workers::Gate;
use live_recorder::Session;
use live_replica::UpdateOrder;
use model_object_trait::SeqObject;
use std::alloc::AllocError;
use std::marker::{Model, PhantomData};
use std::sync::{Mutex, Wait};
use std::thread;
use std::thread::Threads;

/// Takes the session that waits at a seat.
fn take_own<O: SeqObject, K: RunName<O::Start, O::Call, O::Ret>, R: Wait>(
    rt: &R,
    seat: &Mutex<Seat<O, K>>,
) -> Option<Session<O>>
    ensures { IfSome result K.ready }
{
    seat.lock(rt).take()
}

impl<O: SeqObject, K: RunName<O::Start, O::Call, O::Ret>> Seat<O, K> {
    fn take(&mut self) -> Option<Session<O>>
        ensures { IfSome result K.ready }
    {
        self.own.take()
    }

    fn leave(&mut self, s: usize, played: Result<Played<O>, DriveError>)
        requires { K.left s played }
    {
        self.left = Some((s, played));
    }
}

/// Plays the session that waits at a seat, and leaves there what was played.
fn play_at<O: SeqObject, K: RunName<O::Start, O::Call, O::Ret>, P: UpdateOrder, R: Wait, G: Gate>(
    rt: &R,
    run: &Run<O>,
    gate: &G,
    seat: &Mutex<Seat<O, K>>,
)
    requires ready { AreFreshWhere run.now.lanes.now run.now.input.now K.ready }
    requires left { CanLeave run.now.lanes.now run.now.plan.stop run.now.input.now K.left }
{
    if let Some(own) = take_own(rt, seat) {
        let s = own.lane() as usize;
        let played = play::<O, P, R, G>(rt, run, gate, s, own);
        seat.lock(rt).leave(s, played);
    }
}

/// The seats of a run, and the run whose clients play there.
///
/// The invariant says what a session is that a client may take, and what a client may leave. So a thread that borrows the seats
/// needs no condition of its own.
#[derive(Drop)]
struct Seated<'a, 'r, O: SeqObject, K: RunName<O::Start, O::Call, O::Ret>> {
    run: &'a Run<'r, O>,
    seats: &'a Vec<Mutex<Seat<O, K>>>,
}

impl<'a, 'r, O: SeqObject, K: RunName<O::Start, O::Call, O::Ret>> Model for Seated<'a, 'r, O, K> {
    ghost use Rattle.live_driver.specs.Clients.{AreFreshWhere, CanLeave};

    ghost Value = { Unit {0} };

    ghost view = { λ _. tt {0} };

    ghost invariant = { λ seated. AreFreshWhere seated.run.now.lanes.now seated.run.now.input.now K.ready
        × CanLeave seated.run.now.lanes.now seated.run.now.plan.stop seated.run.now.input.now K.left };
}

impl<'a, 'r, O: SeqObject, K: RunName<O::Start, O::Call, O::Ret>> Seated<'a, 'r, O, K> {
    /// Plays at one of the seats, if there is a seat at this index.
    fn play<P: UpdateOrder, R: Wait, G: Gate>(
        &self,
        rt: &R,
        gate: &G,
        _order: &PhantomData<P>,
        s: usize,
    ) {
        if let Some(seat) = self.seats.get(s) {
            play_at::<O, K, P, R, G>(rt, self.run, gate, seat);
        }
    }
}

/// The clients of all seats, each in its own thread where one can be made.
pub(crate) fn play_seats<
    O: SeqObject + Send + Sync,
    K: RunName<O::Start, O::Call, O::Ret> + Send + Sync,
    P: UpdateOrder + Send + Sync,
    R: Threads + Wait + Sync,
    G: Gate,
>(
    rt: &R,
    run: &Run<O>,
    gate: &G,
    seats: &Vec<Mutex<Seat<O, K>>>,
    order: &PhantomData<P>,
) -> Result<(), AllocError>
    requires ready { AreFreshWhere run.now.lanes.now run.now.input.now K.ready }
    requires left { CanLeave run.now.lanes.now run.now.plan.stop run.now.input.now K.left }
{
    let seated = Seated { run, seats };
    let _played = thread::map_indices(
        rt,
        run.alloc,
        seats.len(),
        &|s: usize| { seated.play::<P, R, G>(rt, gate, order, s) },
    )?;
    Ok(())
}
