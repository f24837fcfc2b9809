//! Cycles that the causal order and conflicts of writes make together.

ghost use Rattle.std.specs.Prelude.{◌≡◌, ◌↔◌, IfOk, IsTrue, MatchOption};
ghost use Rattle.pattern_check.specs.Kinds.{Shows};
ghost use Rattle.pattern_check.specs.Paths.{IsCycle};
ghost use Rattle.pattern_search.specs.Steps.Conflicts.{IsConflictBy, IsConflictCycle, IsConflictStep, IsLastConflict, LinksTo};
ghost use Rattle.pattern_check.specs.declared.kind.Kind.TheVariants.{CyclicCF};
ghost use Rattle.order_memory.specs.Memory.{IsDifferentiated};
ghost use Rattle.order_memory.specs.Steps.Indexed.{IsKnownRead};
ghost use Rattle.order_memory.specs.declared.known_reads.KnownRead.{KnownRead as Read};

use crate::search::routes_back::path_between;
use model_history::OpId;
use order_causal::{OrderOrCycle, topological_sort};
use order_memory::{CausalOrder, KnownRead, waits_with_conflicts};
use pattern_check::{Link, Links};
use std::alloc::{AllocError, Global};

/// A cycle of the causal order and of conflicts: a write that is in the past of a read of another write of its variable
/// comes before that write, the rival.
///
/// The history has distinct values. There is none exactly where there is no such cycle. Fails for want of memory alone.
/// O(n k log n) for n operations of k sessions.
pub fn cycle_with_conflicts(alloc: Global, order: &CausalOrder) -> Result<Option<Links>, AllocError>
    requires differentiated { IsDifferentiated order.now }
    ensures { IfOk result (λ found. MatchOption found (¬ Shows order.now CyclicCF) (IsCycle order.now)) }
{
    match conflicting_operations(alloc, order)? {
        Some(ops) => Ok(Some(links_of(alloc, order, &ops)?)),
        None => Ok(None),
    }
}

/// Operations of a cycle of the causal order and of conflicts.
fn conflicting_operations(
    alloc: Global,
    order: &CausalOrder,
) -> Result<Option<Vec<OpId>>, AllocError>
    requires differentiated { IsDifferentiated order.now }
    ensures { IfOk result (λ found. MatchOption found (¬ Shows order.now CyclicCF) (λ ops. IsConflictCycle order.now ops.items)) }
{
    let waits = waits_with_conflicts(alloc, order)?;
    match topological_sort(alloc, &waits)? {
        OrderOrCycle::Order(_) => Ok(None),
        OrderOrCycle::Cycle(ops) => Ok(Some(ops)),
    }
}

/// The links from each operation to the next.
fn links_of(alloc: Global, order: &CausalOrder, ops: &[OpId]) -> Result<Links, AllocError>
    requires { IsConflictCycle order.now ops.now }
    ensures { IfOk result (IsCycle order.now) }
{
    let mut links = Vec::new(alloc);
    for i in 1..ops.len() {
        links.push(link_of(alloc, order, ops[i - 1], ops[i])?)?;
    }
    Ok(Links::of(links))
}

/// The link from one operation to another: their conflict, where they have one, and else an edge of the causal order.
fn link_of(alloc: Global, order: &CausalOrder, from: OpId, to: OpId) -> Result<Link, AllocError>
    requires { IsConflictStep order.now from to }
    ensures { IfOk result (LinksTo order.now from to) }
{
    match conflicting_read(order, from, to) {
        Some(read) => Ok(Link::Cf(path_between(alloc, order, from, read)?, to)),
        None => Ok(Link::Co(from, to)),
    }
}

/// The first read of a rival that has a write in its past, and no later write of the write's variable and session. The rival is in
/// conflict with the write by this read. O(n) for n reads, and O(log n) for each read of the rival.
fn conflicting_read(order: &CausalOrder, write: OpId, rival: OpId) -> Option<OpId>
    ensures { MatchOption result ((k : Read) → IsKnownRead order.now k → ¬ IsLastConflict order.now write rival k)
        (IsConflictBy order.now write rival) }
{
    for read in order.reads() {
        if are_in_conflict(order, write, rival, read) {
            return Some(read.op);
        }
    }
    None
}

/// Whether a read of a rival has the write in its past, and no later write of its variable and session.
fn are_in_conflict(order: &CausalOrder, write: OpId, rival: OpId, read: &KnownRead) -> bool
    ensures { IsTrue result ↔ IsLastConflict order.now write rival read.now }
{
    write != rival
        && read.source == Some(rival)
        && order.last_write(read, write.session_place()) == Some(write)
}
