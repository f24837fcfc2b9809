//! The latest write that each read missed, found one column after the other.

ghost use Rattle.std.specs.Prelude.{◌≡◌, ◌+◌, ◌<◌, ◌≤◌, ℕ, [], Some, length, slice_get, slice_index_or, IfOk};
ghost use Rattle.model_history.specs.declared.op_id.OpId.{OpId as Operation};
ghost use Rattle.model_history.specs.History.{IsOp, many_before, number};
ghost use Rattle.order_memory.specs.SourceOrder.{IsCyclic};
ghost use Rattle.judge_memory.specs.Steps.{IsOrderBy, many};
ghost use Rattle.judge_columns.specs.Columns.{AreFirsts, ArePastEnds, AreWithinSession};
ghost use Rattle.judge_columns.specs.Sights.{IsTable};
ghost use Rattle.show_faults.specs.Noted.{AreLatestMissed, AreNoted, IsLastMissed, IsLater};

use judge_columns::{Sight, advance, fill, find_firsts, find_past_ends, look, writing_sessions};
use judge_memory::LongIndex;
use std::alloc::{AllocError, Global};

/// The latest write that each read missed: at the number of the read, the number after that of the write, or 0.
///
/// The order is one that [`judge_memory::order_causal`] gives. Fails for want of memory alone. O(n k) for n operations and k sessions that
/// write. It takes 12 bytes an operation and 4 a variable.
pub(crate) fn missed_writes(
    alloc: Global,
    index: &LongIndex,
    order: &[u32],
) -> Result<Vec<u32>, AllocError>
    requires { IsOrderBy index.now.history [] order.now }
    ensures { IfOk result (λ missed. AreLatestMissed index.now.history missed.items) }
{
    let sessions = writing_sessions(alloc, index)?;
    let mut column = Column::new(alloc, index)?;
    let mut missed = nothing_missed(alloc, index)?;
    for i in 0..sessions.len() {
        note_session(index, order, &sessions, i, &mut column, &mut missed);
    }
    Ok(missed)
}

/// The start, in which no operation missed a write.
pub(crate) fn nothing_missed(alloc: Global, index: &LongIndex) -> Result<Vec<u32>, AllocError>
    ensures size { IfOk result (λ missed. length missed.items ≡ many index.now.history) }
    ensures none { IfOk result (λ missed. (n : ℕ) → slice_index_or missed.items n 0 ≡ 0) }
{
    vec![in alloc; 0; index.operations() as usize]
}

/// The numbers of one column: the arrays are made once and filled again for each session.
#[derive(Drop)]
struct Column {
    /// By operation: where its past ends in the session.
    ends: Vec<u32>,
    /// By operation: the first operation of the session that has it in its past.
    firsts: Vec<u32>,
    /// By variable: the number after that of its last write in the session, or 0.
    last: Vec<u32>,
}

impl Column {
    fn new(alloc: Global, index: &LongIndex) -> Result<Column, AllocError>
        ensures ends { IfOk result (λ c. length c.ends.items ≡ many index.now.history) }
        ensures firsts { IfOk result (λ c. length c.firsts.items ≡ many index.now.history) }
        ensures last { IfOk result (λ c. length c.last.items ≡ index.now.bound) }
    {
        let operations = index.operations() as usize;
        Ok(Column {
            ends: vec![in alloc; 0; operations]?,
            firsts: vec![in alloc; 0; operations]?,
            last: vec![in alloc; 0; index.variables() as usize]?,
        })
    }
}

/// Notes what one session of the list shows.
fn note_session(
    index: &LongIndex,
    order: &[u32],
    sessions: &[u32],
    i: usize,
    column: &mut Column,
    missed: &mut Vec<u32>,
)
    requires inside { i < length sessions.now }
    requires below { (k t : ℕ) → slice_get sessions.now k ≡ Some t → t < length index.now.history.1 }
    requires order { IsOrderBy index.now.history [] order.now }
    requires ends { length column.old.ends.items ≡ many index.now.history }
    requires firsts { length column.old.firsts.items ≡ many index.now.history }
    requires last { length column.old.last.items ≡ index.now.bound }
    requires noted { AreNoted index.now.history sessions.now i missed.old.items }
    ensures ends { length column.new.ends.items ≡ many index.now.history }
    ensures firsts { length column.new.firsts.items ≡ many index.now.history }
    ensures last { length column.new.last.items ≡ index.now.bound }
    ensures noted { AreNoted index.now.history sessions.now (i + 1) missed.new.items }
{
    let session = sessions[i];
    find_past_ends(index, order, session, &mut column.ends);
    find_firsts(index, order, session, &mut column.firsts);
    fill(&mut column.last, 0);
    note_column(
        index,
        sessions,
        i,
        &column.ends,
        &column.firsts,
        &mut column.last,
        missed,
    );
}

/// Notes what the column of one session of the list shows.
fn note_column(
    index: &LongIndex,
    sessions: &[u32],
    i: usize,
    ends: &[u32],
    firsts: &[u32],
    last: &mut Vec<u32>,
    missed: &mut Vec<u32>,
)
    requires inside { i < length sessions.now }
    requires session { slice_index_or sessions.now i 0 < length index.now.history.1 }
    requires ends_size { length ends.now ≡ many index.now.history }
    requires firsts_size { length firsts.now ≡ many index.now.history }
    requires last_size { length last.old.items ≡ index.now.bound }
    requires ends { ArePastEnds index.now.history (slice_index_or sessions.now i 0) (λ n. slice_index_or ends.now n 0) }
    requires within { AreWithinSession index.now.history (slice_index_or sessions.now i 0) (λ n. slice_index_or ends.now n 0) }
    requires firsts { AreFirsts index.now.history (slice_index_or sessions.now i 0) (λ n. slice_index_or firsts.now n 0) }
    requires no_last { (x : ℕ) → slice_index_or last.old.items x 0 ≡ 0 }
    requires straight { ¬ IsCyclic index.now.history }
    requires noted { AreNoted index.now.history sessions.now i missed.old.items }
    ensures last_size { length last.new.items ≡ index.now.bound }
    ensures noted { AreNoted index.now.history sessions.now (i + 1) missed.new.items }
{
    let start = index.start(sessions[i]);
    let mut at = start;
    for operation in 0..index.operations() {
        let end = ends[operation as usize];
        advance(index, start, at, end, last);
        at = end;
        let write = last_missed(index, ends, firsts, last, start, operation);
        let latest = later(firsts, missed[operation as usize], write);
        missed[operation as usize] = latest;
    }
}

/// The number after that of the session's last write that an operation missed, or 0.
fn last_missed(
    index: &LongIndex,
    ends: &[u32],
    firsts: &[u32],
    last: &[u32],
    start: u32,
    operation: u32,
) -> u32
    requires operation { operation < many index.now.history }
    requires ends_size { length ends.now ≡ many index.now.history }
    requires firsts_size { length firsts.now ≡ many index.now.history }
    requires last_size { length last.now ≡ index.now.bound }
    ensures { (t : ℕ) (o : Operation) → start ≡ many_before index.now.history t → IsOp index.now.history o
        → number index.now.history o ≡ operation → ArePastEnds index.now.history t (λ n. slice_index_or ends.now n 0)
        → AreWithinSession index.now.history t (λ n. slice_index_or ends.now n 0)
        → AreFirsts index.now.history t (λ n. slice_index_or firsts.now n 0) → ¬ IsCyclic index.now.history
        → IsTable index.now.history index.now.variables t (slice_index_or ends.now operation 0) last.now
        → IsLastMissed index.now.history t o result }
{
    index.value_is_indexed();
    match look(index, ends, firsts, last, start, operation) {
        Sight::OverwrittenStart | Sight::OverwrittenRead => last[index.variable(
            operation,
        ) as usize],
        Sight::Nothing | Sight::Conflict(_, _) => 0,
    }
}

/// The later of two missed writes, each as the number after its own, or 0 for none. The second write is of the session of `firsts`.
fn later(firsts: &[u32], noted: u32, write: u32) -> u32
    requires { noted ≤ length firsts.now }
    ensures { IsLater (λ n. slice_index_or firsts.now n 0) noted write result }
{
    if noted == 0 || firsts[noted as usize - 1] < write {
        write
    } else {
        noted
    }
}
