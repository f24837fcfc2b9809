//! Comparisons of receipts and sessions with a sealed lane: where they share cells, they hold the same operations.

ghost use Rattle.std.specs.Prelude.{◌≡◌, ℕ, ◌+◌, ◌<◌, ◌≤◌, length, slice_get, Some};
ghost use Rattle.live_recorder.specs.Lanes.{shown};
ghost use Rattle.live_recorder.specs.Sessions.{begun};
ghost use Rattle.live_seals.specs.Steps.Comparing.{CallAgrees, IsCallOf, IsReturnOf, ReturnAgrees, SharesCells};

use crate::sealed_lane::SealedLane;
use live_recorder::{Receipt, Recorded, Session};
use once_cell::race::{Note, OnceBox};
use std::alloc::Global;

// A note of a cell that nobody else has.
fn blank<T: Drop>(alloc: Global) -> Note<T> {
    OnceBox::new(alloc).note()
}

// An operation of a receipt equals the one at its place in a sealed lane: both know the same cell.
fn compare_told<O: Recorded>(alloc: Global, receipt: &Receipt<O>, lane: &SealedLane<O>, i: usize)
    requires told { i < length receipt.now.operations }
    requires held { i < length lane.now.returns }
    requires shared { (x : ℕ) → slice_get receipt.now.cells i ≡ Some x → IsReturnOf lane.now.returns i (Some x) }
    ensures { ReturnAgrees lane.now.returns i (slice_get receipt.now.operations i) }
{
    let mut note = lane.told_return(i, blank(alloc));
    note.compare(receipt.told(i, blank(alloc)));
}

/// The operations of a receipt are those of a sealed lane, if their cells are.
pub(crate) fn compare_receipt<O: Recorded>(
    alloc: Global,
    receipt: &Receipt<O>,
    lane: &SealedLane<O>,
)
    requires { SharesCells receipt.now lane.now }
    ensures { (i : ℕ) → i < length receipt.now.operations → ReturnAgrees lane.now.returns i (slice_get receipt.now.operations i) }
{
    for i in 0..receipt.len() {
        compare_told(alloc, receipt, lane, i);
    }
}

fn compare_return<O: Recorded>(alloc: Global, lane: &SealedLane<O>, session: &Session<O>, i: usize)
    requires held { i < length lane.now.returns }
    requires done { i < length session.now.done }
    requires shared { IsReturnOf lane.now.returns i (slice_get session.now.cells.returns i) }
    ensures { ReturnAgrees lane.now.returns i (slice_get session.now.done i) }
{
    let mut note = lane.told_return(i, blank(alloc));
    note.compare(session.told_return(i, blank(alloc)));
}

/// The first returns of a session are those of a sealed lane, if their cells are.
pub(crate) fn compare_returns<O: Recorded>(
    alloc: Global,
    lane: &SealedLane<O>,
    session: &Session<O>,
    many: usize,
)
    requires held { many ≤ length lane.now.returns }
    requires done { many ≤ length session.now.done }
    requires shared { (i : ℕ) → i < many → IsReturnOf lane.now.returns i (slice_get session.now.cells.returns i) }
    ensures { (i : ℕ) → i < many → ReturnAgrees lane.now.returns i (slice_get session.now.done i) }
{
    for i in 0..many {
        compare_return(alloc, lane, session, i);
    }
}

fn compare_call<O: Recorded>(
    alloc: Global,
    lane: &SealedLane<O>,
    session: &Session<O>,
    at: usize,
    i: usize,
)
    requires held { at < length lane.now.calls }
    requires begun { i < length (begun session.now.done session.now.pending) }
    requires shared { IsCallOf lane.now.calls at (slice_get session.now.cells.calls i) }
    ensures { CallAgrees lane.now.calls at (slice_get (begun session.now.done session.now.pending) i) }
{
    let mut note = lane.told_call(at, blank(alloc));
    note.compare(session.told_call(i, blank(alloc)));
}

/// The calls of a session after the returns of a sealed lane are those of the lane, if their cells are.
pub(crate) fn compare_calls<O: Recorded>(
    alloc: Global,
    lane: &SealedLane<O>,
    session: &Session<O>,
    many: usize,
)
    requires held { many ≤ length lane.now.calls }
    requires begun { length lane.now.returns + many ≤ length (begun session.now.done session.now.pending) }
    requires shared { (i : ℕ) → i < many
        → IsCallOf lane.now.calls i (slice_get session.now.cells.calls (length lane.now.returns + i)) }
    ensures { (i : ℕ) → i < many
        → CallAgrees lane.now.calls i (slice_get (begun session.now.done session.now.pending) (length lane.now.returns + i)) }
{
    for i in 0..many {
        let first = lane.returned();
        let _called = session.called();
        compare_call(alloc, lane, session, i, first + i);
    }
}
