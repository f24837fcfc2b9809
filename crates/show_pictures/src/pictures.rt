//! The pictures of histories.

ghost use Rattle.std.specs.Prelude.{IfOk, string_bytes};
ghost use Rattle.show_pictures.specs.Markup.{IsSvgElement};

use crate::captions::{push_line, push_lines_of_reason, words_of_wrong};
use crate::drawing::{Scene, drawing_of};
use crate::faults::blame_pattern;
use crate::gathering::mark_pattern;
use crate::label::Labelled;
use crate::lanes::{Lane, extent_around, extent_without_pattern, lanes_of};
use crate::legend::LegendWords;
use crate::marks::Marks;
use crate::reason::Reason;
use crate::rows::rows_of;
use model_history::{History, OpId};
use model_objects::Memory;
use order_memory::IndexedMemory;
use pattern_check::Pattern;
use show_words::Names;
use std::alloc::{AllocError, Global};

/// The picture of a history of a memory and of a pattern against a criterion, as an SVG text.
///
/// The picture shows a history of at most 40 operations whole. Of a larger one it shows the operations of the pattern, and one
/// operation before and after each, in their sessions alone. It draws at most 256 edges. It leaves out operations of the pattern
/// that the history does not have. It draws the read that is wrong, or the operations of the cycle, in red, and says in their
/// boxes what is wrong. Its head names the guarantee that is broken, if one is given.
///
/// Sessions and operations have these names. If the history is a part of a longer one, each lane says how many operations of the
/// whole are left out before each one shown. What follows the part's last operation of a session is not known, and not shown.
///
/// Fails for want of memory alone. O(n (log n + k) + m) for n operations of k sessions and m operations, links and lines of the
/// pattern, times what is marked, which is bounded.
pub fn picture_of_pattern<N: Names>(
    alloc: Global,
    history: &History<Memory>,
    names: &N,
    reason: Reason<'_>,
) -> Result<String, AllocError>
    ensures { IfOk result (λ svg. IsSvgElement (string_bytes svg)) }
{
    let marks = marks_in_history(alloc, history, names, reason.pattern)?;
    let picture = picture_of_marked_pattern(alloc, history, names, reason, &marks);
    drop(marks);
    picture
}

// The marks of a pattern in a history, and what is wrong there.
fn marks_in_history<N: Names>(
    alloc: Global,
    history: &History<Memory>,
    names: &N,
    pattern: &Pattern,
) -> Result<Marks, AllocError> {
    let memory = IndexedMemory::of(alloc, history)?;
    let marks = marks_in_memory(alloc, &memory, names, pattern);
    drop(memory);
    marks
}

// The marks of a pattern in a memory, and what is wrong there.
fn marks_in_memory<N: Names>(
    alloc: Global,
    memory: &IndexedMemory,
    names: &N,
    pattern: &Pattern,
) -> Result<Marks, AllocError> {
    let mut marks = Marks::none(alloc);
    mark_pattern(alloc, &mut marks, memory, pattern)?;
    blame_pattern(alloc, &mut marks, names, memory, pattern)?;
    Ok(marks)
}

// The picture of a history and of a pattern with these marks. It is generic over the object, since a call for one object needs a proof of
// its own (CONTRIBUTING.md says what that costs).
fn picture_of_marked_pattern<O: Labelled, N: Names>(
    alloc: Global,
    history: &History<O>,
    names: &N,
    reason: Reason<'_>,
    marks: &Marks,
) -> Result<String, AllocError>
    ensures { IfOk result (λ svg. IsSvgElement (string_bytes svg)) }
{
    let lanes = lanes_of(alloc, history, names, marks, extent_around(history))?;
    let sessions = names.sessions(history.sessions());
    let picture = picture_with_reason(alloc, names, sessions, reason, &lanes, marks);
    drop(lanes);
    picture
}

// The picture of these lanes of so many sessions, with the criterion and the pattern against it in words at the head.
fn picture_with_reason<N: Names>(
    alloc: Global,
    names: &N,
    sessions: usize,
    reason: Reason<'_>,
    lanes: &[Lane],
    marks: &Marks,
) -> Result<String, AllocError>
    ensures { IfOk result (λ svg. IsSvgElement (string_bytes svg)) }
{
    let mut lines = Vec::new(alloc);
    push_lines_of_reason(alloc, &mut lines, names, reason)?;
    push_left_out(alloc, &mut lines, names, sessions, lanes, marks)?;
    let words = LegendWords {
        wrong: words_of_wrong(reason.pattern.kind()),
        marked: "operation that shows it",
    };
    picture_of(alloc, &lines, lanes, marks, words)
}

/// The picture of a history, as an SVG text, with these names. The lines are its head; the first is the title.
///
/// The picture shows a history of at most 60 operations whole. Of a larger one it shows the first two and the last two operations
/// of each session. If an operation is named and is in the history, the picture highlights it, and shows one before and one after
/// it. Fails for want of memory alone. O(n k) for n operations of k sessions.
pub fn picture_of_history<O: Labelled, N: Names>(
    alloc: Global,
    history: &History<O>,
    names: &N,
    lines: &[String],
    marked: Option<OpId>,
) -> Result<String, AllocError>
    ensures { IfOk result (λ svg. IsSvgElement (string_bytes svg)) }
{
    let marks = mark_of(alloc, history, marked)?;
    let picture = picture_of_marked_history(alloc, history, names, lines, &marks);
    drop(marks);
    picture
}

// The mark of an operation, if one is named and is in the history.
fn mark_of<O: Labelled>(
    alloc: Global,
    history: &History<O>,
    marked: Option<OpId>,
) -> Result<Marks, AllocError> {
    match marked {
        Some(op) if history.contains(op) => Marks::one(alloc, op),
        _ => Ok(Marks::none(alloc)),
    }
}

// The picture of a history with these lines at its head and these marks.
fn picture_of_marked_history<O: Labelled, N: Names>(
    alloc: Global,
    history: &History<O>,
    names: &N,
    lines: &[String],
    marks: &Marks,
) -> Result<String, AllocError>
    ensures { IfOk result (λ svg. IsSvgElement (string_bytes svg)) }
{
    let extent = extent_without_pattern(history);
    let lanes = lanes_of(alloc, history, names, marks, extent)?;
    let words = LegendWords {
        wrong: "wrong",
        marked: "operation named above",
    };
    let picture = picture_of(alloc, lines, &lanes, marks, words);
    drop(lanes);
    picture
}

// The picture of lanes with what is highlighted in them.
fn picture_of(
    alloc: Global,
    lines: &[String],
    lanes: &[Lane],
    marks: &Marks,
    words: LegendWords,
) -> Result<String, AllocError>
    ensures { IfOk result (λ svg. IsSvgElement (string_bytes svg)) }
{
    let rows = rows_of(alloc, lanes, marks.joints())?;
    let scene = Scene {
        lines,
        rows: &rows,
        marks,
        words,
    };
    drawing_of(alloc, &scene)
}

// Says at the head what a picture leaves out besides the gaps in its lanes.
fn push_left_out<N: Names>(
    alloc: Global,
    lines: &mut Vec<String>,
    names: &N,
    sessions: usize,
    lanes: &[Lane],
    marks: &Marks,
) -> Result<(), AllocError> {
    push_left_out_sessions(alloc, lines, names, sessions, lanes.len())?;
    push_left_out_edges(alloc, lines, marks)
}

// Says how many sessions are shown, if not all of them are.
fn push_left_out_sessions<N: Names>(
    alloc: Global,
    lines: &mut Vec<String>,
    names: &N,
    sessions: usize,
    shown: usize,
) -> Result<(), AllocError> {
    if shown >= sessions {
        return Ok(());
    }
    let all = names.sessions_words(alloc, sessions)?;
    push_line(lines, format!(in alloc; "Shown: {shown} of {all}.")?)
}

// Says that edges are left out, if some are.
fn push_left_out_edges(
    alloc: Global,
    lines: &mut Vec<String>,
    marks: &Marks,
) -> Result<(), AllocError> {
    if !marks.is_cut() {
        return Ok(());
    }
    let words = "Not all edges of the pattern are shown.";
    push_line(lines, String::from_str(alloc, words)?)
}
