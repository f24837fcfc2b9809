//! The steps of derivations.

use crate::derived_pairs::{DerivedPairs, ends_of};
use crate::step::Step;
use crate::steps::{MAX_AT_AN_END, Steps};
use model_history::{History, OpId};
use model_objects::Memory;
use order_memory::IndexedMemory;
use pattern_check::{Derivation, Line, Pair, Path};
use std::alloc::{AllocError, Global};

/// The steps of the first and the last lines of a derivation. It gives what the last line gives.
///
/// Fails for want of memory alone. O(n (log n + k) + l) for l lines and a history of n operations of k sessions, plus the cost of
/// the paths of the lines shown.
pub(crate) fn push_derivation(
    alloc: Global,
    steps: &mut Steps,
    h: &History<Memory>,
    op: OpId,
    derivation: &Derivation,
) -> Result<Option<Pair>, AllocError> {
    let pairs = pairs_of(alloc, h, derivation)?;
    push_lines(steps, op, &pairs, derivation.lines())?;
    Ok(pairs.last())
}

// What the lines of a derivation in a history say.
fn pairs_of(
    alloc: Global,
    h: &History<Memory>,
    derivation: &Derivation,
) -> Result<DerivedPairs, AllocError> {
    let memory = IndexedMemory::of(alloc, h)?;
    let pairs = DerivedPairs::of(alloc, &memory, derivation);
    drop(memory);
    pairs
}

// The steps of the first and the last of these lines, which say these pairs.
fn push_lines(
    steps: &mut Steps,
    op: OpId,
    pairs: &DerivedPairs,
    lines: &[Line],
) -> Result<(), AllocError> {
    for (number, line) in lines.iter().enumerate() {
        if is_told(number, lines.len()) {
            push_line(steps, op, pairs, line, pairs.get(number as u64))?;
        } else {
            steps.leave_out(1);
        }
    }
    Ok(())
}

// Whether a line is among the first or the last of this many lines.
fn is_told(number: usize, lines: usize) -> bool {
    number < MAX_AT_AN_END || lines.saturating_sub(MAX_AT_AN_END) <= number
}

// The steps of a line that gives this pair.
fn push_line(
    steps: &mut Steps,
    op: OpId,
    pairs: &DerivedPairs,
    line: &Line,
    gives: Option<Pair>,
) -> Result<(), AllocError> {
    let Some((from, to)) = gives else {
        return Ok(());
    };
    match line {
        Line::Co(first, second) => push_paths(steps, op, first, second),
        Line::Tr(number, _) => match pairs.get(*number) {
            Some((_, through)) => steps.push(Step::Joins(from, through, to)),
            None => Ok(()),
        },
        Line::Rf(_, read) => {
            steps.push_two(Step::ReadsFrom(to, *read), Step::Precedes(from, to, *read))
        }
    }
}

// The steps of a path, and those of the second path, from its end to the operation, unless the second begins in the operation's
// session: everybody sees the order there.
fn push_paths(steps: &mut Steps, op: OpId, first: &Path, second: &Path) -> Result<(), AllocError> {
    steps.lead(first)?;
    match ends_of(second) {
        Some((begin, _)) if begin.session != op.session => steps.lead(second),
        _ => Ok(()),
    }
}
