//! The steps of a run of the world.

use crate::told::Told;
use cert_check::{Certificate, Criterion};
use model_history::OpId;
use model_object_trait::SeqObject;
use pattern_check::Pattern;

/// One step of a session, a sealer, a worker or the desk's users, of calls `C` and returns `R`.
#[derive(Drop)]
pub enum StepOf<C, R> {
    /// A session begins an operation with this call.
    Begin(usize, C),
    /// A session ends its operation with this return.
    End(usize, R),
    /// The next sealer starts, and knows so many operations of each session.
    Start(Told),
    /// A sealer looks at the cell that is next in its plan.
    Look(usize),
    /// The history of a finished sealer is shown.
    Show(usize),
    /// The history of a finished sealer is filed as the next case, to be judged by this criterion.
    File(usize, Criterion, Option<Certificate>),
    /// A worker takes the next piece.
    Take,
    /// A worker checks the piece of an operation of a case, which gives the next verdict.
    Work(usize, OpId),
    /// A verdict is put to a case.
    Put(usize, usize),
    /// A pattern is put against a case.
    Refute(usize, Pattern),
    /// A user of the desk asks for the state of a case.
    Ask(usize),
}

/// One step, of an object's calls and returns.
pub type Step<O> = StepOf<<O as SeqObject>::Call, <O as SeqObject>::Ret>;
