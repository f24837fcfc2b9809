//! Certificates by program order alone.

ghost use Rattle.std.specs.Prelude.{◌≡◌, ◌++◌, length, replicate, IfOk, OnOk};
ghost use Rattle.cert_make.specs.ByProgramOrder.{in_turn, IsByProgramOrder};
ghost use Rattle.cert_check.specs.Certificates.{criterion_of, HasShapeOf};

use crate::program_schedules::own_schedules;
use cert_check::{Arbitration, Certificate, Criterion};
use model_history::History;
use model_object_trait::SeqObject;
use order_causal::program_order;
use std::alloc::{AllocError, Global};

/// The certificate of a criterion by program order alone: the past of an operation is what comes before it in its
/// session, and the one list of causal convergence has the sessions one after another.
///
/// There always is one. The checker of certificates decides whether it explains the known returns. Fails for want of
/// memory alone. O(n (p + k)) for n operations of k sessions with at most p operations each.
pub fn make_by_program_order<O: SeqObject>(
    alloc: Global,
    h: &History<O>,
    criterion: Criterion,
) -> Result<Certificate, AllocError>
    ensures criterion { IfOk result (λ c. criterion_of c ≡ criterion) }
    ensures shape { IfOk result (HasShapeOf h.now) }
    ensures exact { IfOk result (IsByProgramOrder h.now) }
{
    let vectors = program_order(alloc, h)?;
    match criterion {
        Criterion::Cc => Ok(Certificate::Cc(vectors, own_schedules(alloc, h)?)),
        Criterion::Cm => Ok(Certificate::Cm(vectors, own_schedules(alloc, h)?)),
        Criterion::Ccv => {
            let list = sessions_in_turn(alloc, h)?;
            Ok(Certificate::Ccv(vectors, Arbitration::of(list)))
        }
    }
}

/// The numbers of the sessions, each as often as its session has operations.
fn sessions_in_turn<O: SeqObject>(alloc: Global, h: &History<O>) -> Result<Vec<u8>, AllocError>
    ensures { IfOk result (λ list. list.items ≡ in_turn h.now (length h.now.1)) }
{
    let mut list = Vec::new(alloc);
    for session in 0..h.sessions() {
        push_repeated(session as u8, h.len(session), &mut list)?;
    }
    Ok(list)
}

/// Appends a number to a list so many times.
fn push_repeated(number: u8, times: usize, list: &mut Vec<u8>) -> Result<(), AllocError>
    ensures { OnOk result (list.new.items ≡ list.old.items ++ replicate times number) }
{
    for _index in 0..times {
        list.push(number)?;
    }
    Ok(())
}
