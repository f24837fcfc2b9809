//! Patterns in words.

use crate::forms::{Made, numbered, push_text, with_one};
use crate::gathering::{Outline, outline_of};
use crate::guarantees::{broken_by, sentence_on_guarantee};
use crate::naming::Names;
use crate::operation_words::operation_words;
use crate::sentences::{NOTHING, sentence_of};
use crate::sorting::sort_once;
use crate::step::Step;
use crate::steps::Steps;
use model_history::{History, OpId};
use model_objects::Memory;
use pattern_check::Pattern;
use std::alloc::{AllocError, Global};

/// Why a pattern shows that a history of a memory does not meet a criterion, in lines with no line feed: the operations, each
/// with its call and its return, then the steps from one to the other, what is wrong, and of a stale read which guarantee it breaks. The
/// operations have these names.
///
/// The text has the first 20 steps and the last 20, and says how many are left out between them. It says something even if the
/// pattern is not one of the history.
///
/// Fails for want of memory alone. O(m + l + n (log n + k)) for a pattern of m operations and l lines and a history of n operations
/// of k sessions.
pub fn words_of_pattern<N: Names>(
    alloc: Global,
    h: &History<Memory>,
    names: &N,
    pattern: &Pattern,
) -> Result<Vec<String>, AllocError> {
    let outline = outline_of(alloc, h, pattern)?;
    let lines = lines_of(alloc, h, names, pattern, &outline);
    drop(outline);
    lines
}

// The lines of a pattern of which this is to be said.
fn lines_of<N: Names>(
    alloc: Global,
    h: &History<Memory>,
    names: &N,
    pattern: &Pattern,
    outline: &Outline,
) -> Result<Vec<String>, AllocError> {
    let mut lines = Vec::new(alloc);
    push_operations(alloc, &mut lines, h, names, outline)?;
    push_shown(alloc, &mut lines, names, &outline.steps)?;
    push_text(&mut lines, last_line(alloc, h, names, pattern, outline))?;
    push_guarantee(alloc, &mut lines, names, pattern)?;
    Ok(lines)
}

// The operations that the text names, by session and index.
fn push_operations<N: Names>(
    alloc: Global,
    lines: &mut Vec<String>,
    h: &History<Memory>,
    names: &N,
    outline: &Outline,
) -> Result<(), AllocError> {
    let ops = ops_of(alloc, outline)?;
    for op in &ops {
        push_text(lines, operation_words(alloc, h, names, *op))?;
    }
    Ok(())
}

// The operations that the text names, each once.
fn ops_of(alloc: Global, outline: &Outline) -> Result<Vec<OpId>, AllocError> {
    let mut ops = Vec::new(alloc);
    push_named(&mut ops, outline)?;
    sort_once(&mut ops);
    Ok(ops)
}

// Puts the operations that the text names after others.
fn push_named(ops: &mut Vec<OpId>, outline: &Outline) -> Result<(), AllocError> {
    push_ops(ops, outline.steps.first())?;
    push_ops(ops, outline.steps.last())?;
    if let Some((begin, end)) = outline.ends {
        ops.push(begin)?;
        ops.push(end)?;
    }
    Ok(())
}

// Puts the operations of steps after others.
fn push_ops(ops: &mut Vec<OpId>, steps: &[Step]) -> Result<(), AllocError> {
    for step in steps {
        ops.extend_from_slice(&step.ops())?;
    }
    Ok(())
}

// The first steps in words, how many are left out, and the last steps.
fn push_shown<N: Names>(
    alloc: Global,
    lines: &mut Vec<String>,
    names: &N,
    steps: &Steps,
) -> Result<(), AllocError> {
    push_steps(alloc, lines, names, steps.first())?;
    push_left_out(alloc, lines, steps.left_out())?;
    push_steps(alloc, lines, names, steps.last())
}

// Steps in words.
fn push_steps<N: Names>(
    alloc: Global,
    lines: &mut Vec<String>,
    names: &N,
    steps: &[Step],
) -> Result<(), AllocError> {
    for step in steps {
        push_text(lines, step.words(alloc, names))?;
    }
    Ok(())
}

// How many steps are left out, if any are.
fn push_left_out(alloc: Global, lines: &mut Vec<String>, left_out: u64) -> Result<(), AllocError> {
    if left_out > 0 {
        let form = "(A more steps are left out here)";
        push_text(lines, with_one(alloc, form, numbered(alloc, "", left_out)))
    } else {
        Ok(())
    }
}

// What is wrong.
fn last_line<N: Names>(
    alloc: Global,
    h: &History<Memory>,
    names: &N,
    pattern: &Pattern,
    outline: &Outline,
) -> Made {
    match outline.ends {
        Some(ends) => sentence_of(alloc, h, names, pattern, ends),
        None => String::from_str(alloc, NOTHING),
    }
}

// Which guarantee is broken, if the pattern shows a stale read.
fn push_guarantee<N: Names>(
    alloc: Global,
    lines: &mut Vec<String>,
    names: &N,
    pattern: &Pattern,
) -> Result<(), AllocError> {
    match broken_by(names, pattern) {
        Some(guarantee) => push_text(lines, sentence_on_guarantee(alloc, guarantee)),
        None => Ok(()),
    }
}
