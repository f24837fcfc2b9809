//! Reads from writes that were overwritten in their causal past, and reads of initial values after a write.

ghost use Rattle.std.specs.Prelude.{◌↔◌, IfNone, IfOk, IfSome, IsTrue, MatchOption};
ghost use Rattle.pattern_check.specs.Patterns.{ArePathsToOverwrittenRead, IsPathToInitialRead};
ghost use Rattle.pattern_search.specs.Steps.Routes.{AreWritesBefore, IsCountedBefore, IsWriteBefore};
ghost use Rattle.order_memory.specs.Memory.{IsDifferentiated};
ghost use Rattle.order_memory.specs.OverwrittenReads.{HasOverwrittenRead, HasOverwrittenStart};
ghost use Rattle.order_memory.specs.Steps.Indexed.{IsKnownRead};
ghost use Rattle.model_history.specs.declared.op_id.OpId.{OpId as Operation};

use crate::search::routes_back::path_between;
use model_history::OpId;
use order_causal::{Vectors, has_counted};
use order_memory::{CausalOrder, KnownRead};
use pattern_check::Path;
use std::alloc::{AllocError, Global};

/// A path from a write to a read of the initial value of its variable: there is none exactly where values are distinct and
/// there is no such read.
///
/// Fails for want of memory alone. O(n k log n) for n operations of k sessions.
pub fn overwritten_start(alloc: Global, order: &CausalOrder) -> Result<Option<Path>, AllocError>
    ensures found { IfOk result (λ found. IfSome found (IsPathToInitialRead order.now)) }
    ensures none { IsDifferentiated order.now → IfOk result (λ found. IfNone found (¬ HasOverwrittenStart order.now)) }
{
    let reads = order.reads();
    for read in reads {
        if let Some(write) = write_before(order, read) {
            return Ok(Some(path_between(alloc, order, write, read.op)?));
        }
    }
    Ok(None)
}

/// A write in the past of a read of the initial value of its variable.
fn write_before(order: &CausalOrder, read: &KnownRead) -> Option<OpId>
    requires { IsKnownRead order.now read.now }
    ensures { MatchOption result ((w : Operation) → ¬ IsWriteBefore order.now read.now w) (IsWriteBefore order.now read.now) }
{
    if read.source.is_some() {
        return None;
    }
    for session in 0..order.sessions() {
        if let Some(write) = order.last_write(read, session) {
            return Some(write);
        }
    }
    None
}

/// A path from a write to another write of its variable, and one from there to a read that reads from the first.
///
/// Fails for want of memory alone. O(n k log n) for n operations of k sessions.
pub fn overwritten_read(
    alloc: Global,
    order: &CausalOrder,
) -> Result<Option<(Path, Path)>, AllocError>
    ensures found { IfOk result (λ found. IfSome found (λ paths. ArePathsToOverwrittenRead order.now paths.0 paths.1)) }
    ensures none { IsDifferentiated order.now → IfOk result (λ found. IfNone found (¬ HasOverwrittenRead order.now)) }
{
    let reads = order.reads();
    for read in reads {
        if let Some(writes) = writes_before(order, read) {
            let above = path_between(alloc, order, writes.0, writes.1)?;
            let below = path_between(alloc, order, writes.1, read.op)?;
            return Ok(Some((above, below)));
        }
    }
    Ok(None)
}

/// The write that a read reads from, and another write of its variable that has this one in its past and is in the past of
/// the read. There is none where the read is the first of its session that has this write in its past.
fn writes_before(order: &CausalOrder, read: &KnownRead) -> Option<(OpId, OpId)>
    requires { IsKnownRead order.now read.now }
    ensures { MatchOption result ((a b : Operation) → ¬ AreWritesBefore order.now read.now a b)
        (λ writes. AreWritesBefore order.now read.now writes.0 writes.1) }
{
    let source = read.source?;
    if !is_counted_before(order.vectors(), read.op, source) {
        return None;
    }
    for session in 0..order.sessions() {
        if let Some(write) = order.last_write(read, session) {
            if order.has_before((source, write)) {
                return Some((source, write));
            }
        }
    }
    None
}

/// Whether the vector of the operation before another one in its session counts an operation. O(1).
fn is_counted_before(vectors: &Vectors, op: OpId, earlier: OpId) -> bool
    ensures { IsTrue result ↔ IsCountedBefore vectors.now op earlier }
{
    match op.before() {
        Some(before) => has_counted(vectors, before, earlier),
        None => false,
    }
}
