//! The answer that an operation would have got in the order of a certificate.

ghost use Rattle.model_history.specs.History.{IsOp};

use cert_check::{Certificate, Kept, Schedules};
use model_history::{History, OpId};
use model_object_trait::SeqObject;
use order_causal::{Vectors, has_counted};
use std::alloc::{AllocError, Global};

// The piece of a certificate for an operation.
#[derive(Clone, Copy)]
struct Piece<'a> {
    // The numbers of the sessions whose next operations come one after the other.
    list: &'a [u8],
    // The operations whose known returns the piece must explain.
    kept: Kept,
    // The operation, and the vectors that cut the list to its past, if it is cut.
    cut: Option<(&'a Vectors, OpId)>,
}

impl<'a> Piece<'a> {
    // The piece for an operation, where the certificate has one.
    fn of(certificate: &'a Certificate, op: OpId) -> Option<Piece<'a>> {
        match certificate {
            Certificate::Cc(_, schedules) => Some(Piece {
                list: schedule_of(schedules, op)?,
                kept: Kept::Only(op),
                cut: None,
            }),
            Certificate::Cm(_, schedules) => Some(Piece {
                list: schedule_of(schedules, op)?,
                kept: Kept::ProgramPast(op),
                cut: None,
            }),
            Certificate::Ccv(vectors, arbitration) => Some(Piece {
                list: arbitration.sessions(),
                kept: Kept::Only(op),
                cut: Some((vectors, op)),
            }),
        }
    }

    // Whether an operation stays in the list when the list is cut to the past.
    fn takes(&self, next: OpId) -> bool {
        match self.cut {
            Some((vectors, op)) => has_counted(vectors, op, next),
            None => true,
        }
    }
}

// The schedule of an operation, where it has one.
fn schedule_of(schedules: &Schedules, op: OpId) -> Option<&[u8]> {
    if schedules.contains(op) {
        Some(schedules.get(op))
    } else {
        None
    }
}

/// The first operation whose known return is kept by a certificate's piece and differs from the answer in the piece's order, and
/// that answer. None if there is no such operation or no piece.
///
/// Fails for want of memory alone. O(n) for n operations of the piece, and one call of the object for each.
pub(crate) fn unlike_answer<O: SeqObject>(
    alloc: Global,
    h: &History<O>,
    certificate: &Certificate,
    op: OpId,
) -> Result<Option<(OpId, O::Ret)>, AllocError> {
    let Some(piece) = Piece::of(certificate, op) else {
        return Ok(None);
    };
    let mut object = O::fresh(alloc, h.start())?;
    let unlike = unlike_in(alloc, h, piece, &mut object);
    drop(object);
    unlike
}

// The same in the order of a piece, by an object that has taken in nothing yet.
fn unlike_in<O: SeqObject>(
    alloc: Global,
    h: &History<O>,
    piece: Piece<'_>,
    object: &mut O,
) -> Result<Option<(OpId, O::Ret)>, AllocError> {
    let mut counts = vec![in alloc; 0u64; h.sessions()]?;
    for session in piece.list {
        match next_of(&mut counts, *session) {
            Some(next) if h.contains(next) => {
                if let Some(answer) = unlike_at(h, piece, object, next)? {
                    return Ok(Some((next, answer)));
                }
            }
            _ => return Ok(None),
        }
    }
    Ok(None)
}

// The answer of the object to the next operation, where the piece keeps its known return, which differs from it.
fn unlike_at<O: SeqObject>(
    h: &History<O>,
    piece: Piece<'_>,
    object: &mut O,
    next: OpId,
) -> Result<Option<O::Ret>, AllocError>
    requires { IsOp h.now next }
{
    if !piece.takes(next) {
        return Ok(None);
    }
    let answer = object.apply(h.call(next))?;
    match h.ret(next) {
        Some(known) if known != answer && piece.kept.keeps(next) => Ok(Some(answer)),
        _ => Ok(None),
    }
}

// The operation of a session that these counts name next, where they count the session. It is then counted.
fn next_of(counts: &mut Vec<u64>, session: u8) -> Option<OpId> {
    let place = usize::from(session);
    if place >= counts.len() {
        return None;
    }
    let index = counts[place];
    counts[place] = index.saturating_add(1);
    Some(OpId {
        session: u64::from(session),
        index,
    })
}
