//! The columns of four sessions at once, by one pass along an order and one back.

ghost use Rattle.std.specs.Prelude.{◌≡◌, ◌+◌, ◌<◌, ◌≤◌, ℕ, [], length, slice_index_or, IfOk};
ghost use Rattle.model_history.specs.declared.op_id.OpId.{OpId as Operation};
ghost use Rattle.model_history.specs.History.{IsOp, many_before, number};
ghost use Rattle.judge_memory.specs.Steps.{IsNext, IsOrderBy, many};
ghost use Rattle.judge_columns.specs.Columns.{AreFirsts, ArePastEnds, AreWithinSession, IsLowered, IsNextEnd};
ghost use Rattle.judge_columns.specs.Lanes.{AreLanes, HasRows, in_lane, lane_of};

use crate::passes::number_after;
use crate::rows::{Row, fill_rows, lower_row, put_row, raised_row, row_before, with_own};
use judge_memory::LongIndex;
use std::alloc::{AllocError, Global};

/// The columns of four sessions, a lane each.
#[derive(Drop)]
pub(crate) struct Lanes {
    /// By operation: where its past ends in each session.
    pub(crate) ends: Vec<Row>,
    /// By operation: the first operation of each session that has it in its past.
    pub(crate) firsts: Vec<Row>,
}

impl Lanes {
    /// A row for each operation. Fails for want of memory alone. It takes 32 bytes an operation.
    pub(crate) fn new(alloc: Global, index: &LongIndex) -> Result<Lanes, AllocError>
        ensures { IfOk result (HasRows index.now.history) }
    {
        let operations = index.operations() as usize;
        Ok(Lanes {
            ends: vec![in alloc; [0; 4]; operations]?,
            firsts: vec![in alloc; [0; 4]; operations]?,
        })
    }
}

/// Finds the columns of four sessions. A session may have several lanes.
///
/// The order is one that [`judge_memory::order_causal`] gives. O(n) for n operations.
// A function of its own keeps its loops in registers.
#[inline(never)]
pub(crate) fn find_lanes(index: &LongIndex, order: &[u32], sessions: Row, lanes: &mut Lanes)
    requires sessions { (k : ℕ) → k < 4 → in_lane sessions k < length index.now.history.1 }
    requires order { IsOrderBy index.now.history [] order.now }
    requires rows { HasRows index.now.history lanes.old }
    ensures rows { HasRows index.now.history lanes.new }
    ensures lanes { AreLanes index.now.history lanes.new sessions }
{
    find_past_end_rows(index, order, sessions, &mut lanes.ends);
    find_first_rows(index, order, sessions, &mut lanes.firsts);
}

/// Finds where the past of each operation ends in each session, as [`find_past_ends`](crate::find_past_ends) does in one.
fn find_past_end_rows(index: &LongIndex, order: &[u32], sessions: Row, rows: &mut Vec<Row>)
    requires sessions { (k : ℕ) → k < 4 → in_lane sessions k < length index.now.history.1 }
    requires order { IsOrderBy index.now.history [] order.now }
    requires size { length rows.old.items ≡ many index.now.history }
    ensures size { length rows.new.items ≡ many index.now.history }
    ensures ends { (k : ℕ) → k < 4 → ArePastEnds index.now.history (in_lane sessions k) (lane_of rows.new.items k) }
    ensures within { (k : ℕ) → k < 4 → AreWithinSession index.now.history (in_lane sessions k) (lane_of rows.new.items k) }
{
    let starts = starts_of(index, sessions);
    for &operation in order {
        let row = end_row(index, rows, sessions, starts, operation);
        put_row(rows, operation, row);
    }
}

/// The number of the first operation of each session.
fn starts_of(index: &LongIndex, sessions: Row) -> Row
    requires { (k : ℕ) → k < 4 → in_lane sessions k < length index.now.history.1 }
    ensures { (k : ℕ) → k < 4 → in_lane result k ≡ many_before index.now.history (in_lane sessions k) }
{
    [
        index.start(sessions[0]),
        index.start(sessions[1]),
        index.start(sessions[2]),
        index.start(sessions[3]),
    ]
}

/// The ends for an operation, by those for the operation before it and for its source.
///
/// No end for the operation before is below the start of the session of its lane. So its row is copied. The first operation of a session
/// begins with the starts.
fn end_row(index: &LongIndex, rows: &[Row], sessions: Row, starts: Row, operation: u32) -> Row
    requires starts { (k : ℕ) → k < 4 → in_lane starts k ≡ many_before index.now.history (in_lane sessions k) }
    requires operation { operation < many index.now.history }
    requires size { length rows.now ≡ many index.now.history }
    requires from { (k : ℕ) (o p : Operation) → k < 4 → number index.now.history o ≡ operation → IsNext index.now.history p o
        → many_before index.now.history (in_lane sessions k) ≤ lane_of rows.now k (number index.now.history p) }
    ensures { (k : ℕ) (o : Operation) → k < 4 → IsOp index.now.history o → number index.now.history o ≡ operation
        → IsNextEnd index.now.history (in_lane sessions k) (lane_of rows.now k) o (in_lane result k) }
{
    index.value_is_indexed();
    let before = row_before(rows, starts, index.before(operation));
    let read = raised_row(rows, before, index.source(operation));
    let session = index.session_of(operation);
    with_own(read, sessions, session, number_after(index, operation))
}

/// Finds for each operation the first one of each session that has it in its past, as [`find_firsts`](crate::find_firsts) does of one.
fn find_first_rows(index: &LongIndex, order: &[u32], sessions: Row, rows: &mut Vec<Row>)
    requires sessions { (k : ℕ) → k < 4 → in_lane sessions k < length index.now.history.1 }
    requires order { IsOrderBy index.now.history [] order.now }
    requires size { length rows.old.items ≡ many index.now.history }
    ensures size { length rows.new.items ≡ many index.now.history }
    ensures firsts { (k : ℕ) → k < 4 → AreFirsts index.now.history (in_lane sessions k) (lane_of rows.new.items k) }
{
    fill_rows(rows, ends_of(index, sessions));
    for i in (0..order.len()).rev() {
        lower_rows(index, sessions, order[i], rows);
    }
}

/// The number after that of the last operation of each session.
fn ends_of(index: &LongIndex, sessions: Row) -> Row
    requires { (k : ℕ) → k < 4 → in_lane sessions k < length index.now.history.1 }
    ensures { (k : ℕ) → k < 4 → in_lane result k ≡ many_before index.now.history (in_lane sessions k + 1) }
{
    [
        index.end(sessions[0]),
        index.end(sessions[1]),
        index.end(sessions[2]),
        index.end(sessions[3]),
    ]
}

/// Gives an operation its own number in the lanes of its session, and the operations that step to it at most what it has.
fn lower_rows(index: &LongIndex, sessions: Row, operation: u32, rows: &mut Vec<Row>)
    requires operation { operation < many index.now.history }
    requires size { length rows.old.items ≡ many index.now.history }
    ensures size { length rows.new.items ≡ many index.now.history }
    ensures lowered { (k : ℕ) (o : Operation) → k < 4 → IsOp index.now.history o → number index.now.history o ≡ operation
        → IsLowered index.now.history (in_lane sessions k) (lane_of rows.old.items k) o (lane_of rows.new.items k) }
{
    index.value_is_indexed();
    let session = index.session_of(operation);
    let row = with_own(rows[operation as usize], sessions, session, operation);
    put_row(rows, operation, row);
    lower_row(rows, index.before(operation), row);
    lower_row(rows, index.source(operation), row);
}

/// Copies one lane of the rows to the two columns of a session. O(n) for n operations.
pub(crate) fn take_lanes(lanes: &Lanes, lane: usize, ends: &mut Vec<u32>, firsts: &mut Vec<u32>)
    requires lane { lane < 4 }
    requires ends { length lanes.now.ends.items ≡ length ends.old.items }
    requires firsts { length lanes.now.firsts.items ≡ length ends.old.items }
    requires size { length firsts.old.items ≡ length ends.old.items }
    ensures ends_size { length ends.new.items ≡ length ends.old.items }
    ensures firsts_size { length firsts.new.items ≡ length firsts.old.items }
    ensures ends { (n : ℕ) → n < length ends.old.items → slice_index_or ends.new.items n 0 ≡ lane_of lanes.now.ends.items lane n }
    ensures firsts { (n : ℕ) → n < length firsts.old.items → slice_index_or firsts.new.items n 0 ≡ lane_of lanes.now.firsts.items lane n }
{
    for i in 0..ends.len() {
        ends[i] = lanes.ends[i][lane];
        firsts[i] = lanes.firsts[i][lane];
    }
}
