//! The sweep of a column: the last writes of its session, over all known reads.

ghost use Rattle.std.specs.Prelude.{◌≡◌, ◌↔◌, ◌+◌, ◌^◌, ◌<◌, ◌≤◌, ℕ, length, slice_index_or, IsTrue};
ghost use Rattle.model_history.specs.declared.op_id.OpId.{OpId as Operation};
ghost use Rattle.model_history.specs.History.{IsOp, many_before, number};
ghost use Rattle.order_memory.specs.SourceOrder.{IsCyclic};
ghost use Rattle.judge_memory.specs.Steps.{many};
ghost use Rattle.judge_columns.specs.Columns.{AreFirsts, ArePastEnds, AreWithinSession};
ghost use Rattle.judge_columns.specs.Conflicts.{IsLateEdge, IsReducedIn};
ghost use Rattle.judge_columns.specs.LastWrites.{HasOverwrittenReadBy, HasOverwrittenStartFrom};
ghost use Rattle.judge_columns.specs.Sights.{IsComparison, IsNoted, IsRaisedAt, IsSight, IsSmall, IsTable};

use crate::passes::{number_after, put};
use crate::sight::Sight;
use judge_memory::{LongIndex, Part};

/// Whether a write of a session overwrote what a read after it returned.
#[derive(Clone, Copy)]
pub(crate) struct Overwritten {
    /// It was an initial value.
    pub start: bool,
    /// It was the value of another write.
    pub read: bool,
}

/// Sweeps the column of a session: looks, for each read, at the session's last write of its variable in its past.
///
/// Afterwards `late` has, for each write, the number after that of the last write of the session that conflicts with it, or 0. O(n + k m)
/// for n operations in k sessions and m operations of this one.
#[inline(always)]
pub(crate) fn sweep_column(
    index: &LongIndex,
    session: u32,
    ends: &[u32],
    firsts: &[u32],
    last: &mut Vec<u32>,
    late: &mut Vec<u32>,
) -> Overwritten
    requires session { session < length index.now.history.1 }
    requires ends_size { length ends.now ≡ many index.now.history }
    requires firsts_size { length firsts.now ≡ many index.now.history }
    requires last_size { length last.old.items ≡ index.now.bound }
    requires late_size { length late.old.items ≡ many index.now.history }
    requires ends { ArePastEnds index.now.history session (λ n. slice_index_or ends.now n 0) }
    requires within { AreWithinSession index.now.history session (λ n. slice_index_or ends.now n 0) }
    requires firsts { AreFirsts index.now.history session (λ n. slice_index_or firsts.now n 0) }
    requires no_last { (x : ℕ) → slice_index_or last.old.items x 0 ≡ 0 }
    requires no_late { (n : ℕ) → slice_index_or late.old.items n 0 ≡ 0 }
    requires straight { ¬ IsCyclic index.now.history }
    ensures last_size { length last.new.items ≡ index.now.bound }
    ensures late_size { length late.new.items ≡ many index.now.history }
    ensures start { IsTrue result.start ↔ HasOverwrittenStartFrom index.now.history session }
    ensures read { IsTrue result.read ↔ HasOverwrittenReadBy index.now.history session }
    ensures edges { ¬ IsTrue result.read
        → IsReducedIn index.now.history session (IsLateEdge index.now.history (λ n. slice_index_or late.new.items n 0)) }
    ensures writes { (w : Operation) (n : ℕ) → IsOp index.now.history w
        → slice_index_or late.new.items (number index.now.history w) 0 ≡ n + 1 → n < many index.now.history }
{
    index.value_is_indexed();
    let start = index.start(session);
    let mut at = start;
    let mut overwritten = Overwritten {
        start: false,
        read: false,
    };
    for operation in 0..index.operations() {
        match index.part(operation) {
            Part::Write => {}
            _ => {
                let end = ends[operation as usize];
                advance(index, start, at, end, last);
                at = end;
                note(
                    look(index, ends, firsts, last, start, operation),
                    &mut overwritten,
                    late,
                );
            }
        }
    }
    overwritten
}

/// Moves the table of last writes from one place of the session to another. It goes on from the first place, or from the session's
/// start when the other place comes earlier.
///
/// The table has, by variable, the number after that of the session's last write before the place, or 0 or a number that is not between the
/// start and the place. O(m) for m operations that it passes.
pub fn advance(index: &LongIndex, start: u32, at: u32, to: u32, last: &mut Vec<u32>)
    requires from { start ≤ to }
    requires within { to ≤ many index.now.history }
    requires size { length last.old.items ≡ index.now.bound }
    ensures size { length last.new.items ≡ index.now.bound }
    ensures table { (t : ℕ) → start ≡ many_before index.now.history t → IsTable index.now.history index.now.variables t at last.old.items
        → IsTable index.now.history index.now.variables t to last.new.items }
{
    if to < at {
        pass(index, start, to, last);
    } else {
        pass(index, at, to, last);
    }
}

/// Puts the writes of a range of operations into the table of last writes.
fn pass(index: &LongIndex, from: u32, to: u32, last: &mut Vec<u32>)
    requires range { from ≤ to }
    requires within { to ≤ many index.now.history }
    requires size { length last.old.items ≡ index.now.bound }
    ensures size { length last.new.items ≡ index.now.bound }
    ensures table { (t : ℕ) → IsTable index.now.history index.now.variables t from last.old.items
        → IsTable index.now.history index.now.variables t to last.new.items }
{
    for operation in from..to {
        pass_one(index, operation, last);
    }
}

fn pass_one(index: &LongIndex, operation: u32, last: &mut Vec<u32>)
    requires operation { operation < many index.now.history }
    requires size { length last.old.items ≡ index.now.bound }
    ensures size { length last.new.items ≡ index.now.bound }
    ensures table { (t : ℕ) → IsTable index.now.history index.now.variables t operation last.old.items
        → IsTable index.now.history index.now.variables t (operation + 1) last.new.items }
{
    if let Part::Write = index.part(operation) {
        put(
            last,
            index.variable(operation),
            number_after(index, operation),
        );
    }
}

/// What an operation shows, by the session's last write of its variable in its past: `last` has these for the end of the operation. O(1).
pub fn look(
    index: &LongIndex,
    ends: &[u32],
    firsts: &[u32],
    last: &[u32],
    start: u32,
    operation: u32,
) -> Sight
    requires operation { operation < many index.now.history }
    requires ends_size { length ends.now ≡ many index.now.history }
    requires firsts_size { length firsts.now ≡ many index.now.history }
    requires last_size { length last.now ≡ index.now.bound }
    ensures small { IsSmall result (many index.now.history) }
    ensures sight { (t : ℕ) (o : Operation) → start ≡ many_before index.now.history t → IsOp index.now.history o
        → number index.now.history o ≡ operation → AreWithinSession index.now.history t (λ n. slice_index_or ends.now n 0)
        → IsTable index.now.history index.now.variables t (slice_index_or ends.now operation 0) last.now
        → IsSight index.now.history t (λ n. slice_index_or ends.now n 0) (λ n. slice_index_or firsts.now n 0) o result }
{
    index.value_is_indexed();
    let after = last[index.variable(operation) as usize];
    if after <= start || ends[operation as usize] < after {
        return Sight::Nothing;
    }
    match index.part(operation) {
        Part::InitialRead => Sight::OverwrittenStart,
        Part::SourcedRead(source) => look_beside(ends, firsts, source, after - 1),
        Part::Write | Part::ThinAirRead | Part::UnknownRead => Sight::Nothing,
    }
}

/// What a read shows, by that last write and the write that it returned.
fn look_beside(ends: &[u32], firsts: &[u32], source: u32, last: u32) -> Sight
    requires ends { source < length ends.now }
    requires firsts { source < length firsts.now }
    requires small { last + 1 < 2 ^ 32 }
    ensures small { IsSmall result (length ends.now) }
    ensures comparison { IsComparison (slice_index_or ends.now source 0) (slice_index_or firsts.now source 0) last source result }
{
    if last == source {
        Sight::Nothing
    } else if firsts[source as usize] <= last {
        Sight::OverwrittenRead
    } else if last < ends[source as usize] {
        Sight::Nothing
    } else {
        Sight::Conflict(last, source)
    }
}

/// Notes what an operation shows.
fn note(sight: Sight, overwritten: &mut Overwritten, late: &mut Vec<u32>)
    requires small { IsSmall sight (length late.old.items) }
    ensures size { length late.new.items ≡ length late.old.items }
    ensures noted { IsNoted sight overwritten.old.start overwritten.old.read (λ n. slice_index_or late.old.items n 0)
        overwritten.new.start overwritten.new.read (λ n. slice_index_or late.new.items n 0) }
{
    match sight {
        Sight::Nothing => {}
        Sight::OverwrittenStart => overwritten.start = true,
        Sight::OverwrittenRead => overwritten.read = true,
        Sight::Conflict(last, source) => raise(late, source, last + 1),
    }
}

/// Raises the number in a place to another.
fn raise(late: &mut Vec<u32>, place: u32, number: u32)
    requires { place < length late.old.items }
    ensures size { length late.new.items ≡ length late.old.items }
    ensures raised { IsRaisedAt (λ n. slice_index_or late.old.items n 0) (λ n. slice_index_or late.new.items n 0) place number }
{
    if late[place as usize] < number {
        late[place as usize] = number;
    }
}
