//! Which operations of a pattern are wrong, and what a picture says in their boxes.

use crate::marks::Marks;
use model_history::OpId;
use order_memory::{IndexedMemory, Write};
use pattern_check::{Derivation, Line, Link, Links, Pair, Path, Pattern};
use show_words::{DerivedPairs, Names, ends_of};
use std::alloc::{AllocError, Global};

/// Marks the read that is wrong, or the operations of the cycle.
///
/// Fails for want of memory alone. O(n) for n writes of the memory, and operations, links and lines of the pattern.
pub(crate) fn blame_pattern<N: Names>(
    alloc: Global,
    marks: &mut Marks,
    names: &N,
    memory: &IndexedMemory,
    pattern: &Pattern,
) -> Result<(), AllocError> {
    match pattern {
        Pattern::ThinAirRead(read) => {
            marks.blame(*read, String::from_str(alloc, "nobody wrote this value")?)
        }
        Pattern::WriteCOInitRead(path) | Pattern::WriteCORead(_, path) => {
            blame_read(alloc, marks, names, memory, ends_of(path))
        }
        Pattern::WriteHBInitRead(_, derivation) => {
            let pair = last_pair(alloc, memory, derivation)?;
            blame_read(alloc, marks, names, memory, pair)
        }
        Pattern::CyclicCO(path) => blame_path(alloc, marks, path),
        Pattern::CyclicCF(links) => blame_links(alloc, marks, links),
        Pattern::CyclicHB(_, derivation) => blame_derivation(alloc, marks, memory, derivation),
    }
}

// What the last line of a derivation says.
fn last_pair(
    alloc: Global,
    memory: &IndexedMemory,
    derivation: &Derivation,
) -> Result<Option<Pair>, AllocError> {
    let pairs = DerivedPairs::of(alloc, memory, derivation)?;
    Ok(pairs.last())
}

// Marks a read that does not show a write which comes before it.
fn blame_read<N: Names>(
    alloc: Global,
    marks: &mut Marks,
    names: &N,
    memory: &IndexedMemory,
    pair: Option<Pair>,
) -> Result<(), AllocError> {
    match pair {
        Some((write, read)) => marks.blame(read, missed_words(alloc, names, memory, write)?),
        None => Ok(()),
    }
}

// The words about a read that does not show a write which comes before it. They say of no value that it was due: a write that is
// concurrent to the missed one might have been read as well.
fn missed_words<N: Names>(
    alloc: Global,
    names: &N,
    memory: &IndexedMemory,
    op: OpId,
) -> Result<String, AllocError> {
    let name = names.operation(alloc, op)?;
    match write_by(memory.writes(), op) {
        Some(write) => {
            let written = names.write_words(alloc, write.key, write.value)?;
            format!(in alloc; "missed {name}, which {written}")
        }
        None => format!(in alloc; "missed {name}"),
    }
}

// What an operation writes, where it is one of these writes.
fn write_by(writes: &[Write], op: OpId) -> Option<Write> {
    for write in writes {
        if write.op == op {
            return Some(*write);
        }
    }
    None
}

// Marks an operation of the cycle.
fn blame_in_cycle(alloc: Global, marks: &mut Marks, op: OpId) -> Result<(), AllocError> {
    marks.blame(op, String::from_str(alloc, "in the cycle")?)
}

// Marks both operations of a pair.
fn blame_pair(alloc: Global, marks: &mut Marks, pair: Option<Pair>) -> Result<(), AllocError> {
    match pair {
        Some((from, to)) => {
            blame_in_cycle(alloc, marks, from)?;
            blame_in_cycle(alloc, marks, to)
        }
        None => Ok(()),
    }
}

// Marks the operations of a path that goes round.
fn blame_path(alloc: Global, marks: &mut Marks, path: &Path) -> Result<(), AllocError> {
    for op in path.ops() {
        blame_in_cycle(alloc, marks, *op)?;
    }
    Ok(())
}

// Marks where the links of a cycle begin and end.
fn blame_links(alloc: Global, marks: &mut Marks, links: &Links) -> Result<(), AllocError> {
    for link in links.links() {
        blame_pair(alloc, marks, pair_of(link))?;
    }
    Ok(())
}

// Where a link begins and ends.
fn pair_of(link: &Link) -> Option<Pair> {
    match link {
        Link::Co(from, to) => Some((*from, *to)),
        Link::Cf(path, other) => {
            let (write, _) = ends_of(path)?;
            Some((write, *other))
        }
    }
}

// Marks the operations of the cycle that the last line of a derivation closes: both ends of each line that it joins.
fn blame_derivation(
    alloc: Global,
    marks: &mut Marks,
    memory: &IndexedMemory,
    derivation: &Derivation,
) -> Result<(), AllocError> {
    let pairs = DerivedPairs::of(alloc, memory, derivation)?;
    blame_lines(alloc, marks, &pairs, derivation.lines())
}

// Marks both ends of each line that the last one joins, given what each line says.
fn blame_lines(
    alloc: Global,
    marks: &mut Marks,
    pairs: &DerivedPairs,
    lines: &[Line],
) -> Result<(), AllocError> {
    let mut joined = vec![in alloc; false; lines.len()]?;
    join_line(&mut joined, lines.len().saturating_sub(1) as u64);
    blame_joined(alloc, marks, pairs, &mut joined, lines)
}

// Marks both ends of each joined line, and of each line that those join, from the last line to the first.
fn blame_joined(
    alloc: Global,
    marks: &mut Marks,
    pairs: &DerivedPairs,
    joined: &mut Vec<bool>,
    lines: &[Line],
) -> Result<(), AllocError> {
    for number in (0..lines.len()).rev() {
        if is_joined(joined, number) {
            blame_line(
                alloc,
                marks,
                joined,
                &lines[number],
                pairs.get(number as u64),
            )?;
        }
    }
    Ok(())
}

// Notes the lines that a joined line joins, or marks both ends of one that joins none, which says this pair.
fn blame_line(
    alloc: Global,
    marks: &mut Marks,
    joined: &mut Vec<bool>,
    line: &Line,
    pair: Option<Pair>,
) -> Result<(), AllocError> {
    match line {
        Line::Tr(first, second) => {
            join_line(joined, *first);
            join_line(joined, *second);
            Ok(())
        }
        Line::Co(_, _) | Line::Rf(_, _) => blame_pair(alloc, marks, pair),
    }
}

// Whether a line is joined with others.
fn is_joined(joined: &[bool], number: usize) -> bool {
    joined.get(number).copied().unwrap_or(false)
}

// Notes that a line is joined with others.
fn join_line(joined: &mut Vec<bool>, number: u64) {
    if let Some(place) = joined.get_mut(number as usize) {
        *place = true;
    }
}
