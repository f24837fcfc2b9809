//! What the world replies to a step.

use crate::refusal::Refusal;
use cert_check::Outcome;
use live_case_board::{Answer, Piece};
use live_seals::Cell;
use model_history::{History, OpId};

/// The reply to a step, with histories `H`.
#[derive(Drop)]
pub enum ReplyOf<H> {
    /// The operation began, or ended.
    Done(OpId),
    /// The sealer of this number started.
    Sealer(usize),
    /// The cell that the sealer looked at, and whether it was full.
    Found(Cell, bool),
    /// The history of the sealer.
    Sealed(H),
    /// The case of this number was filed.
    Case(usize),
    /// The piece that was taken, where there was one.
    Taken(Option<Piece>),
    /// The verdict of this number was given.
    Verdict(usize, Outcome),
    /// The verdict or the pattern was accepted.
    Accepted,
    /// The state of the case.
    Answer(Answer),
    /// The step was refused, and changed nothing.
    Refused(Refusal),
}

/// The reply to a step, with the histories of an object.
pub type Reply<O> = ReplyOf<History<O>>;
