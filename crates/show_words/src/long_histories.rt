//! Long histories in words.

use crate::forms::{Made, push_text, with_one, with_three, with_two};
use crate::listing::listed;
use crate::naming::{Names, counted, name_of};
use crate::sorting::sort_once;
use cert_check::Criterion;
use model_history::{History, OpId};
use model_object_trait::SeqObject;
use model_objects::Memory;
use std::alloc::{AllocError, Global};

/// How many of the operations that show something a text names.
const MAX_NAMED: usize = 1000;

/// A line, with no line feed, that says that a history with this many operations and sessions meets a criterion.
///
/// Fails for want of memory alone. O(1).
pub fn words_of_long_yes<N: Names>(
    alloc: Global,
    names: &N,
    criterion: Criterion,
    operations: usize,
    sessions: usize,
) -> Result<String, AllocError> {
    let explained = String::from_str(alloc, words_of_explained(criterion));
    let judged = counted(alloc, operations, "operation");
    let sessions = names.sessions_words(alloc, sessions);
    with_three(alloc, form_of_yes(operations), explained, judged, sessions)
}

// What explains a history that meets a criterion.
fn words_of_explained(criterion: Criterion) -> &'static str {
    match criterion {
        Criterion::Cc | Criterion::Ccv => "An order explains every known return",
        Criterion::Cm => "For each session, an order explains its known returns",
    }
}

// The form of a line on this many operations.
fn form_of_yes(operations: usize) -> &'static str {
    if operations == 1 {
        "A: B of C was judged."
    } else {
        "A: B of C were judged."
    }
}

/// Which operations of the whole those of a part are, session by session, in a line with no line feed.
///
/// Fails for want of memory alone. O(n) for n operations of the part.
pub fn words_of_places<N: Names>(
    alloc: Global,
    part: &History<Memory>,
    names: &N,
) -> Result<String, AllocError> {
    let ops = ops_of(alloc, part)?;
    let words = words_of_kept(alloc, names, &ops);
    drop(ops);
    words
}

// The operations of a history, in order.
fn ops_of<O: SeqObject>(alloc: Global, h: &History<O>) -> Result<Vec<OpId>, AllocError> {
    let mut ops = Vec::new(alloc);
    for session in 0..h.sessions() {
        push_session(&mut ops, session, h.len(session))?;
    }
    Ok(ops)
}

// Puts the operations of a session, which are this many, after others.
fn push_session(ops: &mut Vec<OpId>, session: usize, count: usize) -> Result<(), AllocError> {
    for index in 0..count {
        ops.push(OpId::at(session, index))?;
    }
    Ok(())
}

// Which operation of the whole one is that has this place in a part.
fn place_of<N: Names>(alloc: Global, names: &N, place: OpId, op: OpId) -> Made {
    let own = name_of(alloc, place);
    with_two(alloc, "A is B", own, names.operation(alloc, op))
}

// What each operation of a part is, in a sentence.
fn sentence_on_places<N: Names>(alloc: Global, names: &N, places: &[String]) -> Made {
    let whole = String::from_str(alloc, names.place_words());
    with_two(alloc, "A, B.", whole, listed(alloc, places, 0))
}

/// Which operation of a history each operation of a part is, in order, in a line with no line feed. The part keeps these operations
/// of the history, with their session numbers and their order.
///
/// Fails for want of memory alone. O(n) for n operations.
pub fn words_of_kept<N: Names>(
    alloc: Global,
    names: &N,
    ops: &[OpId],
) -> Result<String, AllocError> {
    let mut places = Vec::new(alloc);
    push_kept(alloc, &mut places, names, ops)?;
    sentence_on_places(alloc, names, &places)
}

// Which operation of a history each operation of a part is.
fn push_kept<N: Names>(
    alloc: Global,
    places: &mut Vec<String>,
    names: &N,
    ops: &[OpId],
) -> Result<(), AllocError> {
    let mut next = OpId::at(0, 0);
    for op in ops {
        next = first_from(next, op.session);
        push_text(places, place_of(alloc, names, next, *op))?;
        next.index = next.index.saturating_add(1);
    }
    Ok(())
}

// The next place, or the first of a session if the next one is of another session.
fn first_from(next: OpId, session: u64) -> OpId {
    if session == next.session {
        next
    } else {
        OpId { session, index: 0 }
    }
}

/// The operations that show that a history does not meet a criterion, in order and each once, in a line with no line feed: the first
/// 1,000, and how many more there are.
///
/// Fails for want of memory alone. O(n log n) for n operations.
pub fn words_of_operations<N: Names>(
    alloc: Global,
    names: &N,
    ops: &[OpId],
) -> Result<String, AllocError> {
    let sorted = sorted_once(alloc, ops)?;
    let named = listed_operations(alloc, names, &sorted);
    drop(sorted);
    with_one(alloc, "These operations show it: A.", named)
}

// Operations in order, each once.
fn sorted_once(alloc: Global, ops: &[OpId]) -> Result<Vec<OpId>, AllocError> {
    let mut sorted = Vec::new(alloc);
    sorted.extend_from_slice(ops)?;
    sort_once(&mut sorted);
    Ok(sorted)
}

// The first 1,000 operations, and how many more there are.
fn listed_operations<N: Names>(
    alloc: Global,
    names: &N,
    ops: &[OpId],
) -> Result<String, AllocError> {
    let mut named = Vec::new(alloc);
    for op in ops.iter().take(MAX_NAMED) {
        push_text(&mut named, names.operation(alloc, *op))?;
    }
    listed(alloc, &named, ops.len().saturating_sub(MAX_NAMED))
}
