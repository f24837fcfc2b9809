//! The operations of a pattern and the sources of its reads. No contract says what is gathered: a core is judged by itself.

use model_history::{History, OpId};
use model_objects::Memory;
use order_memory::IndexedMemory;
use pattern_check::{Derivation, Line, Link, Links, Path, Pattern};
use std::alloc::{AllocError, Global};

/// The operations of a pattern and the sources of its reads, in order, each once.
///
/// Fails for want of memory alone. O(n (log n + k) + m log m) for n operations of k sessions and a pattern of m, as often as it names them.
pub fn ops_with_sources(
    alloc: Global,
    history: &History<Memory>,
    pattern: &Pattern,
) -> Result<Vec<OpId>, AllocError> {
    let mut named = ops_of(alloc, pattern)?;
    sort(&mut named);
    let named = once_each(alloc, &named)?;
    let mut all = sources_of(alloc, history, &named)?;
    all.extend_from_slice(&named)?;
    sort(&mut all);
    once_each(alloc, &all)
}

// Puts operations in order.
fn sort(ops: &mut Vec<OpId>) {
    ops.sort_unstable_by_key(|op| (op.session, op.index));
}

// The operations that a list in order names, each once.
fn once_each(alloc: Global, ops: &[OpId]) -> Result<Vec<OpId>, AllocError> {
    let mut once: Vec<OpId> = Vec::new(alloc);
    for op in ops {
        if once.last() != Some(op) {
            once.push(*op)?;
        }
    }
    Ok(once)
}

// The sources of those that read.
fn sources_of(
    alloc: Global,
    history: &History<Memory>,
    ops: &[OpId],
) -> Result<Vec<OpId>, AllocError> {
    let memory = IndexedMemory::of(alloc, history)?;
    let mut sources = Vec::new(alloc);
    for op in ops {
        if let Some(source) = memory.source(*op) {
            sources.push(source)?;
        }
    }
    Ok(sources)
}

// The operations of a pattern, as often as it names them.
fn ops_of(alloc: Global, pattern: &Pattern) -> Result<Vec<OpId>, AllocError> {
    let mut ops = Vec::new(alloc);
    match pattern {
        Pattern::CyclicCO(path) | Pattern::WriteCOInitRead(path) => push_path(&mut ops, path)?,
        Pattern::ThinAirRead(read) => ops.push(*read)?,
        Pattern::WriteCORead(first, second) => {
            push_path(&mut ops, first)?;
            push_path(&mut ops, second)?;
        }
        Pattern::WriteHBInitRead(op, derivation) | Pattern::CyclicHB(op, derivation) => {
            ops.push(*op)?;
            push_derivation(&mut ops, derivation)?;
        }
        Pattern::CyclicCF(links) => push_links(&mut ops, links)?,
    }
    Ok(ops)
}

// Puts the operations of a path after others.
fn push_path(ops: &mut Vec<OpId>, path: &Path) -> Result<(), AllocError> {
    ops.extend_from_slice(path.ops())
}

// Puts the operations of links after others.
fn push_links(ops: &mut Vec<OpId>, links: &Links) -> Result<(), AllocError> {
    for link in links.links() {
        match link {
            Link::Co(from, to) => {
                ops.push(*from)?;
                ops.push(*to)?;
            }
            Link::Cf(path, to) => {
                push_path(ops, path)?;
                ops.push(*to)?;
            }
        }
    }
    Ok(())
}

// Puts the operations of a derivation after others.
fn push_derivation(ops: &mut Vec<OpId>, derivation: &Derivation) -> Result<(), AllocError> {
    for line in derivation.lines() {
        match line {
            Line::Co(first, second) => {
                push_path(ops, first)?;
                push_path(ops, second)?;
            }
            Line::Tr(_, _) => {}
            Line::Rf(_, read) => ops.push(*read)?,
        }
    }
    Ok(())
}
