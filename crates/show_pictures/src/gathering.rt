//! What a picture highlights of a pattern.

use crate::marks::{Marks, Relation};
use model_history::OpId;
use order_memory::IndexedMemory;
use pattern_check::{Derivation, Line, Link, Links, Pair, Path, Pattern};
use show_words::{DerivedPairs, ends_of};
use std::alloc::{AllocError, Global};

/// Marks the operations of a pattern and what joins them.
///
/// Fails for want of memory alone. O(n) for n operations, links and lines of the pattern.
pub(crate) fn mark_pattern(
    alloc: Global,
    marks: &mut Marks,
    memory: &IndexedMemory,
    pattern: &Pattern,
) -> Result<(), AllocError> {
    match pattern {
        Pattern::CyclicCO(path) | Pattern::WriteCOInitRead(path) => marks.follow(path),
        Pattern::ThinAirRead(read) => marks.mark(*read),
        Pattern::WriteCORead(first, second) => mark_overwritten(marks, first, second),
        Pattern::WriteHBInitRead(op, derivation) | Pattern::CyclicHB(op, derivation) => {
            mark_derivation(alloc, marks, memory, *op, derivation)
        }
        Pattern::CyclicCF(links) => mark_links(marks, links),
    }
}

// Marks the paths from a write to another and from there to a read that reads from the first.
fn mark_overwritten(marks: &mut Marks, first: &Path, second: &Path) -> Result<(), AllocError> {
    marks.follow(first)?;
    marks.follow(second)?;
    match (ends_of(first), ends_of(second)) {
        (Some((write, _)), Some((_, read))) => marks.join(write, read, Relation::ReadsFrom),
        _ => Ok(()),
    }
}

// Marks the links of a cycle.
fn mark_links(marks: &mut Marks, links: &Links) -> Result<(), AllocError> {
    for link in links.links() {
        mark_link(marks, link)?;
    }
    Ok(())
}

// Marks an edge, or a conflict with what shows it.
fn mark_link(marks: &mut Marks, link: &Link) -> Result<(), AllocError> {
    match link {
        Link::Co(from, to) => marks.step(*from, *to),
        Link::Cf(path, other) => {
            marks.follow(path)?;
            match ends_of(path) {
                Some((write, read)) => mark_conflict(marks, write, read, *other),
                None => Ok(()),
            }
        }
    }
}

// Marks that a write is before another, which a read after the first reads from.
fn mark_conflict(
    marks: &mut Marks,
    write: OpId,
    read: OpId,
    other: OpId,
) -> Result<(), AllocError> {
    marks.join(other, read, Relation::ReadsFrom)?;
    marks.join(write, other, Relation::Conflict)
}

// Marks an operation, and what the lines of a derivation on it depend on.
fn mark_derivation(
    alloc: Global,
    marks: &mut Marks,
    memory: &IndexedMemory,
    op: OpId,
    derivation: &Derivation,
) -> Result<(), AllocError> {
    marks.mark(op)?;
    let pairs = DerivedPairs::of(alloc, memory, derivation)?;
    mark_lines(marks, op, &pairs, derivation.lines())
}

// Marks what lines depend on, each conflict that they find, and what the last one gives, given what each line says.
fn mark_lines(
    marks: &mut Marks,
    op: OpId,
    pairs: &DerivedPairs,
    lines: &[Line],
) -> Result<(), AllocError> {
    for (number, line) in lines.iter().enumerate() {
        mark_line(marks, op, line, pairs.get(number as u64))?;
    }
    match pairs.last() {
        Some((from, to)) if from != to => marks.join(from, to, Relation::HappenedBefore),
        _ => Ok(()),
    }
}

// Marks the paths of a line, or the read by which one write happened before another.
fn mark_line(
    marks: &mut Marks,
    op: OpId,
    line: &Line,
    pair: Option<Pair>,
) -> Result<(), AllocError> {
    match (line, pair) {
        (Line::Co(first, second), Some((_, end))) => {
            marks.follow(first)?;
            if end.session == op.session {
                // It leads to the operation within its session; everybody sees that.
                return Ok(());
            }
            marks.follow(second)
        }
        (Line::Rf(_, read), Some((write, other))) => {
            marks.join(other, *read, Relation::ReadsFrom)?;
            marks.join(write, other, Relation::HappenedBefore)
        }
        _ => Ok(()),
    }
}
