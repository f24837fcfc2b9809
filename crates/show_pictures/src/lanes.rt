//! The sessions that a picture shows, and what of each.

use crate::label::{Labelled, label_of};
use crate::marks::Marks;
use model_history::{History, OpId};
use show_words::Names;
use std::alloc::{AllocError, Global};

/// The most operations of a history that is shown whole around a pattern.
const MAX_WHOLE: u64 = 40;

/// The most operations of a history without a pattern that is shown whole.
const MAX_UNFOLDED: u64 = 60;

/// How many operations before and after a marked one are shown if a history is not shown whole.
const NEAR: u64 = 1;

/// How many operations are shown at each end of a session that is folded.
const ENDS: u64 = 2;

/// How much of a history is shown.
#[derive(Clone, Copy, PartialEq, Eq)]
pub(crate) enum Extent {
    /// All of it.
    Whole,
    /// What is near the marked operations, in their sessions.
    Near,
    /// What is near the marked operations, and both ends of each session.
    Folded,
}

/// An operation that is shown.
#[derive(Drop)]
pub(crate) struct Shown {
    pub op: OpId,
    /// Its name.
    pub name: String,
    pub label: String,
    pub is_marked: bool,
    /// What is wrong with it, if anything is.
    pub fault: Option<String>,
}

/// An entry of a lane: an operation, or how many are left out.
#[derive(Drop)]
pub(crate) enum Entry {
    Operation(Shown),
    Gap(u64),
}

impl Entry {
    /// The operation, if it is one.
    pub fn op(&self) -> Option<OpId> {
        match self {
            Entry::Operation(shown) => Some(shown.op),
            Entry::Gap(_) => None,
        }
    }

    // Whether it is a marked operation.
    fn is_marked(&self) -> bool {
        match self {
            Entry::Operation(shown) => shown.is_marked,
            Entry::Gap(_) => false,
        }
    }
}

/// A session, with its shown entries in order.
#[derive(Drop)]
pub(crate) struct Lane {
    pub session: u64,
    /// The name of the session.
    pub name: String,
    pub entries: Vec<Entry>,
}

impl Lane {
    // Whether one of its operations is marked.
    fn is_marked(&self) -> bool {
        for entry in &self.entries {
            if entry.is_marked() {
                return true;
            }
        }
        false
    }
}

/// How much of a history is shown around its marks: all of a small one.
pub(crate) fn extent_around<O: Labelled>(history: &History<O>) -> Extent {
    if operations_of(history) <= MAX_WHOLE {
        Extent::Whole
    } else {
        Extent::Near
    }
}

/// How much of a history is shown without a pattern: all of a small one.
pub(crate) fn extent_without_pattern<O: Labelled>(history: &History<O>) -> Extent {
    if operations_of(history) <= MAX_UNFOLDED {
        Extent::Whole
    } else {
        Extent::Folded
    }
}

// How many operations a history has.
fn operations_of<O: Labelled>(history: &History<O>) -> u64 {
    let mut count: u64 = 0;
    for session in 0..history.sessions() {
        count = count.saturating_add(history.len(session) as u64);
    }
    count
}

/// The lanes of a history: one for each session or, if only what is near marks is shown, for each session with marked operations. A
/// gap in a lane counts the operations of the whole that it leaves out, whether the history has them or not.
///
/// Fails for want of memory alone. O(n m) for n operations and m marks.
pub(crate) fn lanes_of<O: Labelled, N: Names>(
    alloc: Global,
    history: &History<O>,
    names: &N,
    marks: &Marks,
    extent: Extent,
) -> Result<Vec<Lane>, AllocError> {
    let mut lanes = Vec::new(alloc);
    for session in 0..history.sessions() {
        let operations = history.session(session);
        push_lane::<O, N>(
            alloc,
            &mut lanes,
            session as u64,
            operations,
            names,
            marks,
            extent,
        )?;
    }
    Ok(lanes)
}

// Adds the lane of a session, if it is shown.
fn push_lane<O: Labelled, N: Names>(
    alloc: Global,
    lanes: &mut Vec<Lane>,
    session: u64,
    operations: &[(O::Call, Option<O::Ret>)],
    names: &N,
    marks: &Marks,
    extent: Extent,
) -> Result<(), AllocError> {
    let name = names.session(alloc, OpId { session, index: 0 })?;
    let mut entries = Vec::new(alloc);
    push_entries::<O, N>(
        alloc,
        &mut entries,
        session,
        operations,
        names,
        marks,
        extent,
    )?;
    let lane = Lane {
        session,
        name,
        entries,
    };
    push_if_shown(lanes, lane, extent)
}

// Adds a lane, if it is shown.
fn push_if_shown(lanes: &mut Vec<Lane>, lane: Lane, extent: Extent) -> Result<(), AllocError> {
    if extent == Extent::Near && !lane.is_marked() {
        drop(lane);
        return Ok(());
    }
    Ok(lanes.push(lane)?)
}

// The entries of the lane of a session.
fn push_entries<O: Labelled, N: Names>(
    alloc: Global,
    entries: &mut Vec<Entry>,
    session: u64,
    operations: &[(O::Call, Option<O::Ret>)],
    names: &N,
    marks: &Marks,
    extent: Extent,
) -> Result<(), AllocError> {
    let count = operations.len() as u64;
    // In the whole, the index after the last operation that is shown, and after the last of all.
    let mut shown_end: u64 = 0;
    let mut end: u64 = 0;
    for (index, operation) in operations.iter().enumerate() {
        let op = OpId {
            session,
            index: index as u64,
        };
        let named = names.in_whole(op);
        end = named.index.saturating_add(1);
        if is_shown(marks, extent, op, count) {
            push_gap(entries, named.index.saturating_sub(shown_end))?;
            push_operation::<O, N>(alloc, entries, op, names, operation, marks)?;
            shown_end = end;
        }
    }
    push_gap(entries, end.saturating_sub(shown_end))
}

// Adds an operation with its label.
fn push_operation<O: Labelled, N: Names>(
    alloc: Global,
    entries: &mut Vec<Entry>,
    op: OpId,
    names: &N,
    operation: &(O::Call, Option<O::Ret>),
    marks: &Marks,
) -> Result<(), AllocError> {
    let name = names.operation(alloc, op)?;
    let label = label_in::<O, N>(alloc, op, names, operation)?;
    push_named(alloc, entries, op, name, label, marks)
}

// Adds an operation with this name and this label.
fn push_named(
    alloc: Global,
    entries: &mut Vec<Entry>,
    op: OpId,
    name: String,
    label: String,
    marks: &Marks,
) -> Result<(), AllocError> {
    let fault = fault_of(alloc, marks, op)?;
    let shown = Shown {
        op,
        name,
        label,
        is_marked: marks.contains(op),
        fault,
    };
    Ok(entries.push(Entry::Operation(shown))?)
}

// The label of an operation: its own, where it has one.
fn label_in<O: Labelled, N: Names>(
    alloc: Global,
    op: OpId,
    names: &N,
    operation: &(O::Call, Option<O::Ret>),
) -> Result<String, AllocError> {
    match names.label(alloc, op)? {
        Some(label) => Ok(label),
        None => label_of::<O>(alloc, &operation.0, &operation.1),
    }
}

// The words about an operation that is wrong, as a text of their own.
fn fault_of(alloc: Global, marks: &Marks, op: OpId) -> Result<Option<String>, AllocError> {
    match marks.fault(op) {
        Some(words) => Ok(Some(String::from_str(alloc, words)?)),
        None => Ok(None),
    }
}

// Puts a gap after the entries, if operations are left out.
fn push_gap(entries: &mut Vec<Entry>, left_out: u64) -> Result<(), AllocError> {
    if left_out > 0 {
        entries.push(Entry::Gap(left_out))?;
    }
    Ok(())
}

// Whether an operation is kept, or would be left out alone. Its session has `count` operations.
fn is_shown(marks: &Marks, extent: Extent, op: OpId, count: u64) -> bool {
    is_kept(marks, extent, op, count)
        || (is_kept_before(marks, extent, op, count) && is_kept_behind(marks, extent, op, count))
}

// Whether an operation belongs to what is shown.
fn is_kept(marks: &Marks, extent: Extent, op: OpId, count: u64) -> bool {
    match extent {
        Extent::Whole => true,
        Extent::Near => is_near(marks, op),
        Extent::Folded => is_at_end(op, count) || is_near(marks, op),
    }
}

// Whether an operation is among the first or the last of its session.
fn is_at_end(op: OpId, count: u64) -> bool {
    op.index < ENDS || op.index.saturating_add(ENDS) >= count
}

// Whether a marked operation of the same session is near.
fn is_near(marks: &Marks, op: OpId) -> bool {
    for mark in marks.ops() {
        if are_near(*mark, op) {
            return true;
        }
    }
    false
}

// Whether two operations are near each other in one session.
fn are_near(a: OpId, b: OpId) -> bool {
    a.session == b.session
        && a.index <= b.index.saturating_add(NEAR)
        && b.index <= a.index.saturating_add(NEAR)
}

// Whether the operation before it is kept, or there is none.
fn is_kept_before(marks: &Marks, extent: Extent, op: OpId, count: u64) -> bool {
    match op.before() {
        Some(before) => is_kept(marks, extent, before, count),
        None => true,
    }
}

// Whether the operation after it is kept, or there is none.
fn is_kept_behind(marks: &Marks, extent: Extent, op: OpId, count: u64) -> bool {
    let behind = OpId {
        session: op.session,
        index: op.index.saturating_add(1),
    };
    behind.index >= count || is_kept(marks, extent, behind, count)
}
