//! The operations that are gathered for each kind. Nothing is promised of them: they are judged by themselves.

use crate::asking::{op_of, source_of};
use crate::happened::happened_before;
use crate::overwriting::least_overwriting;
use crate::searching::{Leg, Search};
use crate::stuck::cycle_with;
use judge_columns::{Sight, sweep};
use judge_memory::{LongIndex, Part, causal_order};
use model_history::OpId;
use pattern_check::Kind;
use std::alloc::{AllocError, Global};

/// Operations that may show a kind by themselves, with the sources of their reads, in order and each once. Empty if none were found.
///
/// Fails for want of memory alone. O(n (k + log n)) for n operations of k sessions.
pub(crate) fn ops_of_kind(
    alloc: Global,
    index: &LongIndex,
    kind: Kind,
) -> Result<Vec<OpId>, AllocError> {
    let mut operations = operations_of_kind(alloc, index, kind)?;
    let sources = sources_of(alloc, index, &operations)?;
    operations.extend_from_slice(&sources)?;
    operations.sort_unstable();
    operations.dedup();
    let mut ops = Vec::new(alloc);
    for operation in &operations {
        if let Some(op) = op_of(index, *operation) {
            ops.push(op)?;
        }
    }
    Ok(ops)
}

/// The numbers of operations that may show a kind.
fn operations_of_kind(
    alloc: Global,
    index: &LongIndex,
    kind: Kind,
) -> Result<Vec<u32>, AllocError> {
    match kind {
        Kind::CyclicCO => with_ends(alloc, &cycle_with(alloc, index, &[])?),
        Kind::ThinAirRead => thin_air_reads(alloc, index),
        Kind::WriteCOInitRead => overwritten(alloc, index, Sight::OverwrittenStart),
        Kind::WriteCORead => overwritten(alloc, index, Sight::OverwrittenRead),
        Kind::CyclicCF => conflicting(alloc, index),
        Kind::WriteHBInitRead | Kind::CyclicHB => happened(alloc, index, kind),
    }
}

/// The operations that legs go from and to.
fn with_ends(alloc: Global, legs: &[Leg]) -> Result<Vec<u32>, AllocError> {
    let mut operations = Vec::new(alloc);
    for leg in legs {
        operations.push(leg.from)?;
        operations.push(leg.to)?;
    }
    Ok(operations)
}

/// The first read of a value that nobody wrote, if there is one.
fn thin_air_reads(alloc: Global, index: &LongIndex) -> Result<Vec<u32>, AllocError> {
    let mut operations = Vec::new(alloc);
    for operation in 0..index.operations() {
        if let Part::ThinAirRead = index.part(operation) {
            operations.push(operation)?;
            break;
        }
    }
    Ok(operations)
}

/// The operations of ways from a write to a read of a value that it overwrote.
fn overwritten(alloc: Global, index: &LongIndex, sight: Sight) -> Result<Vec<u32>, AllocError> {
    match causal_order(alloc, index)? {
        Some(order) => with_ends(alloc, &least_overwriting(alloc, index, &order, sight)?),
        None => Ok(Vec::new(alloc)),
    }
}

/// The operations that show a kind of happened-before.
fn happened(alloc: Global, index: &LongIndex, kind: Kind) -> Result<Vec<u32>, AllocError> {
    match causal_order(alloc, index)? {
        Some(order) => happened_before(alloc, index, &order, kind),
        None => Ok(Vec::new(alloc)),
    }
}

/// The operations of a cycle of the causal order and of conflicts, with a way for each conflict that shows it.
fn conflicting(alloc: Global, index: &LongIndex) -> Result<Vec<u32>, AllocError> {
    let Some(order) = causal_order(alloc, index)? else {
        return Ok(Vec::new(alloc));
    };
    let mut edges = sweep(alloc, index, &order)?.edges;
    edges.sort_unstable_by_key(|edge| edge.1);
    let cycle = cycle_with(alloc, index, &edges)?;
    let mut operations = with_ends(alloc, &cycle)?;
    for place in 1..cycle.len() {
        push_step(
            alloc,
            index,
            cycle[place - 1].to,
            cycle[place].from,
            &mut operations,
        )?;
    }
    Ok(operations)
}

/// Appends what shows that one operation comes before another: nothing if the second reads from the first, or else a way from the
/// first to a read from the second.
fn push_step(
    alloc: Global,
    index: &LongIndex,
    from: u32,
    to: u32,
    operations: &mut Vec<u32>,
) -> Result<(), AllocError> {
    if source_of(index, to) == Some(from) {
        return Ok(());
    }
    let reads = reads_from(alloc, index, to)?;
    let search = Search::back_from(alloc, index, &[], &reads)?;
    let way = search.way_from(alloc, from)?;
    operations.extend_from_slice(&with_ends(alloc, &way)?)
}

/// The reads from a write, in order.
fn reads_from(alloc: Global, index: &LongIndex, write: u32) -> Result<Vec<u32>, AllocError> {
    let mut reads = Vec::new(alloc);
    for operation in 0..index.operations() {
        if index.source(operation) == Some(write) {
            reads.push(operation)?;
        }
    }
    Ok(reads)
}

/// The sources of those of the operations that have one.
fn sources_of(
    alloc: Global,
    index: &LongIndex,
    operations: &[u32],
) -> Result<Vec<u32>, AllocError> {
    let mut sources = Vec::new(alloc);
    for operation in operations {
        if let Some(source) = source_of(index, *operation) {
            sources.push(source)?;
        }
    }
    Ok(sources)
}
