//! The columns of some sessions, four at once, and what each shows.

ghost use Rattle.std.specs.Prelude.{◌≡◌, ◌≢◌, ◌⊎◌, ◌↔◌, ◌+◌, ◌++◌, ◌∷◌, ◌<◌, ◌≤◌, ℕ, List, [], Some, length, slice_get, slice_index_or};
ghost use Rattle.std.specs.Prelude.{IfOk, IsTrue, OnOk};
ghost use Rattle.judge_workers.specs.Numbers.{HasNumber};
ghost use Rattle.order_memory.specs.SourceOrder.{IsCyclic};
ghost use Rattle.judge_memory.specs.Steps.{IsOrderBy, many};
ghost use Rattle.judge_columns.specs.Lanes.{HasNumbers, HasRows, IsClear, IsLane, in_lane};
ghost use Rattle.judge_columns.specs.Groups.{IsAmong, IsSweptSessions};
ghost use Rattle.judge_columns.specs.Parts.{HasWriters, IsSweptOver};
ghost use Rattle.judge_columns.specs.Swept.{HasEdge, IsListed};

use crate::lanes::{Lanes, find_lanes, take_lanes};
use crate::passes::fill;
use crate::rows::Row;
use crate::some::SweptSome;
use crate::sweeping::sweep_column;
use judge_memory::{LongIndex, Part};
use std::alloc::{AllocError, Global};

/// What the columns of all sessions show of a history.
#[derive(Drop)]
pub struct Swept {
    /// Some read returned an initial value that a write before it in the causal order had overwritten.
    pub has_overwritten_start: bool,
    /// Some read returned a value that another write before it in the causal order had overwritten.
    pub has_overwritten_read: bool,
    /// If no read did, conflicts that represent all: each has the numbers of two writes, the one that comes first and the other.
    pub edges: Vec<(u32, u32)>,
}

/// The sessions that write something, in order. Fails for want of memory alone. O(n) for n operations.
pub fn writing_sessions(alloc: Global, index: &LongIndex) -> Result<Vec<u32>, AllocError>
    ensures each { IfOk result (λ sessions. HasWriters index.now.history sessions.items) }
    ensures below { IfOk result (λ sessions. (k t : ℕ) → slice_get sessions.items k ≡ Some t → t < length index.now.history.1) }
{
    let mut sessions = Vec::new(alloc);
    for operation in 0..index.operations() {
        if let Part::Write = index.part(operation) {
            add_session(&mut sessions, index.session_of(operation))?;
        }
    }
    Ok(sessions)
}

/// Adds a session to a list, unless the list ends with it.
fn add_session(sessions: &mut Vec<u32>, session: u32) -> Result<(), AllocError>
    ensures added { OnOk result ((k : ℕ) × (slice_get sessions.new.items k ≡ Some session)) }
    ensures others { OnOk result ((k t : ℕ) → slice_get sessions.new.items k ≡ Some t
        → (slice_get sessions.old.items k ≡ Some t) ⊎ (t ≡ session)) }
    ensures kept { OnOk result ((k t : ℕ) → slice_get sessions.old.items k ≡ Some t → slice_get sessions.new.items k ≡ Some t) }
{
    if sessions.last() != Some(&session) {
        sessions.push(session)?;
    }
    Ok(())
}

/// The numbers of one column and its sweep: the arrays are made once and used again for each session.
#[derive(Drop)]
pub(crate) struct Arrays {
    /// By operation: where its past ends in the session.
    pub(crate) ends: Vec<u32>,
    /// By operation: the first operation of the session that has it in its past.
    pub(crate) firsts: Vec<u32>,
    /// By variable: the number after that of its last write in the session, or 0.
    pub(crate) last: Vec<u32>,
    /// By write: the number after that of the last write of the session that conflicts with it, or 0. Between two sessions all are 0.
    pub(crate) late: Vec<u32>,
}

impl Arrays {
    pub(crate) fn new(alloc: Global, index: &LongIndex) -> Result<Arrays, AllocError>
        ensures { IfOk result (HasNumbers index.now) }
    {
        let operations = index.operations() as usize;
        Ok(Arrays {
            ends: vec![in alloc; 0; operations]?,
            firsts: vec![in alloc; 0; operations]?,
            last: vec![in alloc; 0; index.variables() as usize]?,
            late: vec![in alloc; 0; operations]?,
        })
    }
}

/// Adds what the columns of up to four sessions of a list show, from one place up to another. O(n) for n operations, beside the sweeps.
// In each loop that calls it the arrays are locals, whose places are kept in registers.
#[inline(always)]
pub(crate) fn sweep_four(
    index: &LongIndex,
    order: &[u32],
    sessions: &[u32],
    range: (usize, usize),
    lanes: &mut Lanes,
    arrays: &mut Arrays,
    found: &mut SweptSome,
) -> Result<(), AllocError>
    requires order { IsOrderBy index.now.history [] order.now }
    requires below { (k t : ℕ) → slice_get sessions.now k ≡ Some t → t < length index.now.history.1 }
    requires some { range.0 < range.1 }
    requires below_end { range.1 ≤ length sessions.now }
    requires few { range.1 ≤ range.0 + 4 }
    requires rows { HasRows index.now.history lanes.old }
    requires numbers { HasNumbers index.now arrays.old }
    requires found { IsSweptSessions index.now.history sessions.now found.old }
    ensures rows { HasRows index.now.history lanes.new }
    ensures numbers { OnOk result (HasNumbers index.now arrays.new) }
    ensures swept { OnOk result (IsSweptSessions index.now.history sessions.now found.new) }
    ensures kept { OnOk result ((k : ℕ) → HasNumber found.old.numbers.items k → HasNumber found.new.numbers.items k) }
    ensures added { OnOk result ((k : ℕ) → range.0 ≤ k → k < range.1 → HasNumber found.new.numbers.items k) }
{
    let (from, to) = range;
    find_lanes(index, order, four_from(sessions, from), lanes);
    for lane in 0..4 {
        let place = from + lane;
        if place < to {
            sweep_session(
                index,
                sessions[place],
                lanes,
                lane,
                arrays,
                &mut found.swept,
            )?;
            found.numbers.push(place)?;
        }
    }
    Ok(())
}

/// Four sessions of a list, from a place on. If fewer are left, the first of them fills the other lanes.
fn four_from(sessions: &[u32], from: usize) -> Row
    requires { from < length sessions.now }
    ensures listed { (k : ℕ) → k < 4 → (j : ℕ) × (slice_get sessions.now j ≡ Some (in_lane result k)) }
    ensures places { (k : ℕ) → k < 4 → from + k < length sessions.now → slice_get sessions.now (from + k) ≡ Some (in_lane result k) }
{
    [
        sessions[from],
        session_or(sessions, from + 1, from),
        session_or(sessions, from + 2, from),
        session_or(sessions, from + 3, from),
    ]
}

/// The session at a place of a list, or the one at another place where the list ends before.
fn session_or(sessions: &[u32], place: usize, other: usize) -> u32
    requires { other < length sessions.now }
    ensures listed { (j : ℕ) × (slice_get sessions.now j ≡ Some result) }
    ensures place { place < length sessions.now → slice_get sessions.now place ≡ Some result }
{
    if place < sessions.len() {
        sessions[place]
    } else {
        sessions[other]
    }
}

/// Adds what the column of one session shows, which is in this lane.
#[inline(always)]
fn sweep_session(
    index: &LongIndex,
    session: u32,
    lanes: &Lanes,
    lane: usize,
    arrays: &mut Arrays,
    swept: &mut Swept,
) -> Result<(), AllocError>
    requires straight { ¬ IsCyclic index.now.history }
    requires session { session < length index.now.history.1 }
    requires rows { HasRows index.now.history lanes.now }
    requires lane { lane < 4 }
    requires column { IsLane index.now.history lanes.now lane session }
    requires numbers { HasNumbers index.now arrays.old }
    ensures numbers { OnOk result (HasNumbers index.now arrays.new) }
    ensures swept { OnOk result ((sessions places : List ℕ) (k : ℕ) → slice_get sessions k ≡ Some session
        → IsSweptOver index.now.history (IsAmong sessions places) swept.old
        → IsSweptOver index.now.history (IsAmong sessions (places ++ k ∷ [])) swept.new) }
{
    take_lanes(lanes, lane, &mut arrays.ends, &mut arrays.firsts);
    fill(&mut arrays.last, 0);
    let overwritten = sweep_column(
        index,
        session,
        &arrays.ends,
        &arrays.firsts,
        &mut arrays.last,
        &mut arrays.late,
    );
    push_edges(index, &mut arrays.late, &mut swept.edges)?;
    swept.has_overwritten_start |= overwritten.start;
    swept.has_overwritten_read |= overwritten.read;
    Ok(())
}

/// Pushes the edges of the table of late writes, and clears the table.
#[inline(always)]
fn push_edges(
    index: &LongIndex,
    late: &mut Vec<u32>,
    edges: &mut Vec<(u32, u32)>,
) -> Result<(), AllocError>
    requires { length late.old.items ≡ many index.now.history }
    ensures size { length late.new.items ≡ length late.old.items }
    ensures clear { OnOk result (IsClear late.new.items) }
    ensures edges { OnOk result ((from to : ℕ) → HasEdge edges.new.items from to
        ↔ (HasEdge edges.old.items from to ⊎ (slice_index_or late.old.items to 0 ≡ from + 1))) }
{
    for to in 0..index.operations() {
        push_edge(take_late(late, to), to, edges)?;
    }
    Ok(())
}

/// Takes the number of a write out of the table of late writes.
fn take_late(late: &mut Vec<u32>, write: u32) -> u32
    requires { write < length late.old.items }
    ensures size { length late.new.items ≡ length late.old.items }
    ensures taken { result ≡ slice_index_or late.old.items write 0 }
    ensures none { slice_index_or late.new.items write 0 ≡ 0 }
    ensures others { (n : ℕ) → n ≢ write → slice_index_or late.new.items n 0 ≡ slice_index_or late.old.items n 0 }
{
    let number = late[write as usize];
    late[write as usize] = 0;
    number
}

/// Pushes an edge from the operation before a number, unless that is 0.
fn push_edge(after: u32, to: u32, edges: &mut Vec<(u32, u32)>) -> Result<(), AllocError>
    ensures { OnOk result ((a b : ℕ) → HasEdge edges.new.items a b ↔ (HasEdge edges.old.items a b ⊎ ((b ≡ to) × (after ≡ a + 1)))) }
{
    if after > 0 {
        edges.push((after - 1, to))?;
    }
    Ok(())
}

/// Adds what others show.
pub(crate) fn join(whole: &mut Swept, part: Swept) -> Result<(), AllocError>
    ensures start { OnOk result (IsTrue whole.new.has_overwritten_start
        ↔ (IsTrue whole.old.has_overwritten_start ⊎ IsTrue part.has_overwritten_start)) }
    ensures read { OnOk result (IsTrue whole.new.has_overwritten_read
        ↔ (IsTrue whole.old.has_overwritten_read ⊎ IsTrue part.has_overwritten_read)) }
    ensures edges { OnOk result (whole.new.edges.items ≡ whole.old.edges.items ++ part.edges.items) }
{
    whole.has_overwritten_start |= part.has_overwritten_start;
    whole.has_overwritten_read |= part.has_overwritten_read;
    append(&mut whole.edges, part.edges)
}

/// Puts edges after others. Where there are no others, none is copied.
pub(crate) fn append(
    edges: &mut Vec<(u32, u32)>,
    mut more: Vec<(u32, u32)>,
) -> Result<(), AllocError>
    ensures { OnOk result (edges.new.items ≡ edges.old.items ++ more.items) }
{
    if edges.is_empty() {
        *edges = more;
        return Ok(());
    }
    edges.append(&mut more)
}
