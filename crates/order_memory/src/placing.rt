//! The vectors of the order that program order and the sources of operations make.

ghost use Rattle.std.specs.Prelude.{◌≡◌, ◌<◌, ◌≢◌, ◌+◌, ℕ, List, [], length, max, slice_index, slice_index_or};
ghost use Rattle.std.specs.Prelude.{IfOk, IfNone, IfSome, OnOk, Some};
ghost use Rattle.model_history.specs.declared.op_id.OpId.{OpId as Operation};
ghost use Rattle.order_memory.specs.Sources.{AreListed, AreShort, AreVectorsSoFar, Comes, HasSource, IsReady, IsUnfinished};
ghost use Rattle.order_causal.specs.Vectors.{IsListed, list_of};
ghost use Rattle.order_memory.specs.Steps.SourceWaits.{FollowsSources, counted_before, with_list};
ghost use Rattle.order_causal.specs.Schedules.{placed};
ghost use Rattle.order_causal.specs.Waits.{AreAlike};

use crate::source_waits::waits_for_sources;
use model_history::{History, MAX_OPERATIONS, OpId};
use model_objects::Memory;
use order_causal::{OrderOrCycle, Rows, Vectors, topological_sort};
use std::alloc::{AllocError, Global};

/// For each session, for each of its operations, its source: the operation that it waits for besides the one before it.
pub type Sources = Rows<Option<OpId>>;

/// The vectors of the order that program order and the sources make, or `None` where it is cyclic.
///
/// The sources are those of the operations of the history, and no operation is its own source. Fails for want of memory alone.
/// O(n k) for n operations of k sessions.
pub(crate) fn order_of(
    alloc: Global,
    h: &History<Memory>,
    sources: &Sources,
) -> Result<Option<Vectors>, AllocError>
    requires alike { AreAlike sources.now h.now.1 }
    requires listed { AreListed sources.now }
    requires short { AreShort sources.now }
    requires apart { (o : Operation) → ¬ HasSource sources.now o o }
    ensures exact { IfOk result (λ order. IfSome order (AreVectorsSoFar sources.now)) }
    ensures finished { IfOk result (λ order. IfSome order (λ v. (s : ℕ) → ¬ IsUnfinished sources.now v s)) }
    ensures cyclic { IfOk result (λ order. IfNone order ((a : Operation) × Comes sources.now a a)) }
{
    let waits = waits_for_sources(alloc, h, sources)?;
    match topological_sort(alloc, &waits)? {
        OrderOrCycle::Order(schedule) => Ok(Some(vectors_along(alloc, sources, &schedule)?)),
        OrderOrCycle::Cycle(_) => Ok(None),
    }
}

/// The vectors, made along a schedule that names each operation after its source.
fn vectors_along(alloc: Global, sources: &Sources, schedule: &[u8]) -> Result<Vectors, AllocError>
    requires listed { AreListed sources.now }
    requires short { AreShort sources.now }
    requires follows { FollowsSources sources.now schedule.now }
    ensures exact { IfOk result (AreVectorsSoFar sources.now) }
    ensures placed { IfOk result (λ v. (s : ℕ) → length (slice_index_or v s []) ≡ placed schedule.now s) }
{
    let mut vectors = no_vectors(alloc, sources.len())?;
    for session in schedule {
        place(alloc, sources, usize::from(*session), &mut vectors)?;
    }
    Ok(vectors)
}

/// As many sessions, with no vectors.
fn no_vectors(alloc: Global, sessions: usize) -> Result<Vectors, AllocError>
    ensures sessions { IfOk result (λ v. length v ≡ sessions) }
    ensures empty { IfOk result (λ v. (s : ℕ) → slice_index_or v s [] ≡ []) }
{
    let mut vectors = Vectors::new(alloc);
    for _session in 0..sessions {
        vectors.push_session()?;
    }
    Ok(vectors)
}

/// Gives the next operation of a ready session its vector.
fn place(
    alloc: Global,
    sources: &Sources,
    session: usize,
    vectors: &mut Vectors,
) -> Result<(), AllocError>
    requires listed { AreListed sources.now }
    requires short { AreShort sources.now }
    requires ready { IsReady sources.now vectors.old session }
    requires so_far { AreVectorsSoFar sources.now vectors.old }
    ensures so_far { OnOk result (AreVectorsSoFar sources.now vectors.new) }
    ensures placed { OnOk result ((row : List ℕ) × (vectors.new ≡ with_list vectors.old session row)) }
{
    let index = vectors.operations(session);
    let op = OpId::at(session, index);
    let row = vector_of(alloc, vectors, op, sources.get(session)[index])?;
    vectors.push(session, &row)
}

/// The vector of the next operation of a session: what the operation before it and its source count, and itself.
fn vector_of(
    alloc: Global,
    vectors: &Vectors,
    op: OpId,
    source: Option<OpId>,
) -> Result<Vec<u16>, AllocError>
    requires exists { op.session < length vectors.now }
    requires next { op.index ≡ length (slice_index_or vectors.now op.session []) }
    requires short { op.index < MAX_OPERATIONS }
    requires source { (w : Operation) → source ≡ Some w → IsListed vectors.now w }
    requires counts { (o : Operation) → IsListed vectors.now o → length (list_of vectors.now o) ≡ length vectors.now }
    ensures counts { IfOk result (λ row. length row.items ≡ length vectors.now) }
    ensures own { IfOk result (λ row. slice_index row.items op.session ≡ op.index + 1) }
    ensures others { IfOk result (λ row.
        (s : ℕ) → s ≢ op.session → slice_index row.items s ≡ counted_before vectors.now op source s) }
{
    let mut row = vec![in alloc; 0; vectors.sessions()]?;
    if op.index > 0 {
        let before = OpId {
            session: op.session,
            index: op.index - 1,
        };
        raise(&mut row, vectors.get(before));
    }
    if let Some(source) = source {
        raise(&mut row, vectors.get(source));
    }
    row[op.session_place()] = op.number();
    Ok(row)
}

/// Raises each count to the other one, where that is larger.
fn raise(counts: &mut Vec<u16>, others: &[u16])
    requires { length counts.old.items ≡ length others.now }
    ensures counts { length counts.new.items ≡ length counts.old.items }
    ensures larger { (s : ℕ) → slice_index counts.new.items s ≡ max (slice_index counts.old.items s) (slice_index others.now s) }
{
    for i in 0..others.len() {
        if counts[i] < others[i] {
            counts[i] = others[i];
        }
    }
}
