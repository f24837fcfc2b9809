//! Paths of the causal order, from one operation to another.

ghost use Rattle.std.specs.Prelude.{◌≢◌, IfOk, OnOk, reverse};
ghost use Rattle.pattern_check.specs.Paths.{GoesFrom};
ghost use Rattle.pattern_search.specs.Steps.Routes.{IsFirstCounting, IsPushedApart};
ghost use Rattle.order_memory.specs.SourceOrder.{CountsSourceOrder, SourceOrder};
ghost use Rattle.order_memory.specs.Steps.Indexed.{IsSourcePast};
ghost use Rattle.order_causal.specs.Vectors.{IsCounted};
ghost use Rattle.model_history.specs.declared.op_id.OpId.{OpId as Operation};

use model_history::OpId;
use order_causal::{Vectors, has_counted};
use order_memory::CausalOrder;
use pattern_check::Path;
use std::alloc::{AllocError, Global};

/// A path from an operation to another that has it in its past. If the other does not have it in its past, the path has the
/// other operation alone.
///
/// It has at most two operations of each session. Fails for want of memory alone. O(n) for n operations of the history.
pub fn path_between(
    alloc: Global,
    order: &CausalOrder,
    from: OpId,
    to: OpId,
) -> Result<Path, AllocError>
    ensures { IsSourcePast order.now to from → IfOk result (λ path. GoesFrom order.now path from to) }
{
    if !order.has_in_past(to, from) {
        return Ok(Path::of(vec![in alloc; to]?));
    }
    let mut ops = route_back(alloc, order, from, to)?;
    ops.reverse();
    Ok(Path::of(ops))
}

/// The operations of a path, from its last to its first.
fn route_back(
    alloc: Global,
    order: &CausalOrder,
    from: OpId,
    to: OpId,
) -> Result<Vec<OpId>, AllocError>
    requires { IsSourcePast order.now to from }
    ensures { IfOk result (λ ops. GoesFrom order.now (reverse ops.items) from to) }
{
    let vectors = order.vectors();
    let mut ops = vec![in alloc; to]?;
    let mut reached = to;
    'back: while reached.session != from.session {
        reached = push_source(order, vectors, from, reached, &mut ops)?;
    }
    push_apart(reached, from, &mut ops)?;
    Ok(ops)
}

/// Goes from an operation back to the source by which its session has `from` in its past. Returns that source.
fn push_source(
    order: &CausalOrder,
    vectors: &Vectors,
    from: OpId,
    reached: OpId,
    ops: &mut Vec<OpId>,
) -> Result<OpId, AllocError>
    requires order { CountsSourceOrder order.now vectors.now }
    requires counted { IsCounted vectors.now reached from }
    requires apart { reached.session ≢ from.session }
    ensures counted { IfOk result (λ source. IsCounted vectors.now source from) }
    ensures before { IfOk result (λ source. SourceOrder order.now source reached) }
    ensures route { IfOk result (λ source. (to : Operation) → GoesFrom order.now (reverse ops.old.items) reached to
        → GoesFrom order.now (reverse ops.new.items) source to) }
{
    let first = first_counting(vectors, from, reached);
    push_apart(reached, first, ops)?;
    let Some(source) = order.source(first) else {
        unreachable!();
    };
    ops.push(source)?;
    Ok(source)
}

/// The first operation of the session of `op` whose vector counts `earlier`.
fn first_counting(vectors: &Vectors, earlier: OpId, op: OpId) -> OpId
    requires { IsCounted vectors.now op earlier }
    ensures { IsFirstCounting vectors.now earlier op result }
{
    for index in 0..op.index {
        let first = OpId {
            session: op.session,
            index,
        };
        if has_counted(vectors, first, earlier) {
            return first;
        }
    }
    op
}

/// Appends an operation to others whose last one is `last`, if it is not that one.
fn push_apart(last: OpId, op: OpId, ops: &mut Vec<OpId>) -> Result<(), AllocError>
    ensures { OnOk result (IsPushedApart last op ops.old.items ops.new.items) }
{
    if op != last {
        ops.push(op)?;
    }
    Ok(())
}
