//! Certificates from what a store reported of each operation.

ghost use Rattle.std.specs.Prelude.{◌≡◌, ◌<◌, ◌≤◌, length, IfOk};
ghost use Rattle.model_history.specs.History.{IsOp};
ghost use Rattle.model_history.specs.declared.op_id.OpId.{OpId as Operation};
ghost use Rattle.order_causal.specs.Steps.Gathered.{AreListsOf};
ghost use Rattle.order_causal.specs.Vectors.{HasOneEach, list_of};
ghost use Rattle.cert_check.specs.Certificates.{criterion_of, HasShapeOf};
ghost use Rattle.cert_make.specs.Advice.{IsAdvised};
ghost use Rattle.cert_make.specs.ByAdvice.{IsAsAdvised, IsByAdvice, IsToldSchedule};

use crate::advice::{advice_in, is_advised};
use crate::by_order::{order_at, schedule_by_order};
use crate::by_program_order::make_by_program_order;
use crate::by_stamp::{Stamped, counted_sessions, operations_by_stamp, sessions_of};
use crate::heard::reported_vectors;
use cert_check::{Arbitration, Certificate, Criterion, Schedules};
use model_history::{Advice, History, MAX_OPERATIONS, MAX_SESSIONS, OpId};
use model_object_trait::SeqObject;
use order_causal::{Rows, Vectors};
use std::alloc::{AllocError, Global};

/// The certificate of a criterion from advice where there is any, and by program order alone where there is none.
///
/// There always is one. The checker of certificates decides whether it explains the known returns. Fails for want of
/// memory alone. O(n (n + k)) for n operations of k sessions and orders of at most n entries.
pub fn make_as_advised<O: SeqObject>(
    alloc: Global,
    h: &History<O>,
    advice: &[Option<Advice>],
    criterion: Criterion,
) -> Result<Certificate, AllocError>
    ensures criterion { IfOk result (λ c. criterion_of c ≡ criterion) }
    ensures shape { IfOk result (HasShapeOf h.now) }
    ensures exact { IfOk result (IsAsAdvised O.query h.now advice.now) }
{
    if is_advised(h, advice) {
        make_by_advice(alloc, h, advice, criterion)
    } else {
        make_by_program_order(alloc, h, criterion)
    }
}

/// The certificate of a criterion from advice, which nobody has to trust: the past of an operation is what the store had
/// taken in, its schedule has the updates in the store's order, and the one list of causal convergence goes by stamps.
///
/// There always is one, whatever the advice. The checker of certificates decides whether it explains the known returns.
/// Fails for want of memory alone. O(n (n + k)) for n operations of k sessions and orders of at most n entries.
pub fn make_by_advice<O: SeqObject>(
    alloc: Global,
    h: &History<O>,
    advice: &[Option<Advice>],
    criterion: Criterion,
) -> Result<Certificate, AllocError>
    requires { IsAdvised h.now advice.now }
    ensures criterion { IfOk result (λ c. criterion_of c ≡ criterion) }
    ensures shape { IfOk result (HasShapeOf h.now) }
    ensures exact { IfOk result (IsByAdvice O.query h.now advice.now) }
{
    let vectors = reported_vectors(alloc, h, advice)?;
    let ops = operations_by_stamp(alloc, h, advice)?;
    match criterion {
        Criterion::Cc => {
            let schedules = reported_schedules(alloc, h, advice, &vectors, &ops)?;
            Ok(Certificate::Cc(vectors, schedules))
        }
        Criterion::Cm => {
            let schedules = reported_schedules(alloc, h, advice, &vectors, &ops)?;
            Ok(Certificate::Cm(vectors, schedules))
        }
        Criterion::Ccv => {
            let list = sessions_of(alloc, &ops)?;
            Ok(Certificate::Ccv(vectors, Arbitration::of(list)))
        }
    }
}

/// For each operation, its schedule by the order in its advice, or by stamps if this order is missing or empty.
fn reported_schedules<O: SeqObject>(
    alloc: Global,
    h: &History<O>,
    advice: &[Option<Advice>],
    vectors: &Vectors,
    ops: &[Stamped],
) -> Result<Schedules, AllocError>
    requires { IsAdvised h.now advice.now }
    ensures shape { IfOk result (HasOneEach h.now) }
    ensures exact { IfOk result (λ schedules. (o : Operation) → IsOp h.now o
        → IsToldSchedule O.query h.now advice.now vectors.now ops.now o (list_of schedules o)) }
{
    let mut schedules = Schedules::new(alloc);
    for session in 0..h.sessions() {
        schedules.push_rows(reported_schedules_of(alloc, h, advice, vectors, ops, session)?)?;
    }
    Ok(schedules)
}

/// The schedules of the operations of a session.
fn reported_schedules_of<O: SeqObject>(
    alloc: Global,
    h: &History<O>,
    advice: &[Option<Advice>],
    vectors: &Vectors,
    ops: &[Stamped],
    session: usize,
) -> Result<Rows<u8>, AllocError>
    requires advised { IsAdvised h.now advice.now }
    requires few { length h.now.1 ≤ MAX_SESSIONS }
    requires exists { session < length h.now.1 }
    ensures { IfOk result (AreListsOf h.now (IsToldSchedule O.query h.now advice.now vectors.now ops.now) session) }
{
    let mut schedules = Rows::new(alloc);
    for index in 0..h.len(session) {
        let schedule = reported_schedule(alloc, h, advice, vectors, ops, OpId::at(session, index))?;
        schedules.push(&schedule)?;
    }
    Ok(schedules)
}

/// The schedule of an operation.
fn reported_schedule<O: SeqObject>(
    alloc: Global,
    h: &History<O>,
    advice: &[Option<Advice>],
    vectors: &Vectors,
    ops: &[Stamped],
    op: OpId,
) -> Result<Vec<u8>, AllocError>
    requires advised { IsAdvised h.now advice.now }
    requires few { length h.now.1 ≤ MAX_SESSIONS }
    requires session { op.session < length h.now.1 }
    requires is_op { IsOp h.now op }
    requires short { op.index < MAX_OPERATIONS }
    ensures { IfOk result (λ schedule. IsToldSchedule O.query h.now advice.now vectors.now ops.now op schedule.items) }
{
    let reported = advice_in(h, advice, op.session_place());
    if order_at(reported, op.place()).is_empty() {
        counted_sessions(alloc, ops, vectors, op)
    } else {
        schedule_by_order(alloc, h, reported, op)
    }
}
