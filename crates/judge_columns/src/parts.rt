//! The columns of all sessions: threads claim one piece after the other, or the calling thread sweeps all.

ghost use Rattle.std.specs.Prelude.{◌≡◌, ◌↔◌, ◌<◌, ◌≤◌, ℕ, [], Some, length, slice_get, slice_index_or, vec_len, IfOk, IsTrue, Result};
ghost use Rattle.order_memory.specs.Memory.{MemoryHistory};
ghost use Rattle.order_memory.specs.OverwrittenReads.{HasOverwrittenRead, HasOverwrittenStart};
ghost use Rattle.judge_memory.specs.Steps.{IsListedEdge, IsOrderBy};
ghost use Rattle.judge_columns.specs.Conflicts.{IsReducedIn};
ghost use Rattle.judge_columns.specs.Groups.{AreClaimed, IsClaimed};
ghost use Rattle.judge_columns.specs.Parts.{HasWriters, IsSweptOver};
ghost use Rattle.judge_columns.specs.Shares.{IsShare, IsShared};
ghost use Rattle.judge_columns.specs.Swept.{AreEdgesOf, IsListed};

use crate::fork_groups::{sweep_claimed_forks, sweep_left_forks};
use crate::forks::groups;
use crate::fours::{sweep_claimed_sessions, sweep_left_sessions};
use crate::shares::{Share, share_of};
use crate::some::SweptSome;
use crate::swept::{Swept, join, writing_sessions};
use judge_memory::LongIndex;
use judge_workers::Claims;
use std::alloc::{AllocError, Global};
use std::sync::Wait;
use std::thread;
use std::thread::Threads;

/// What threads claimed, and what it shows.
#[derive(Drop)]
pub(crate) struct Claimed {
    /// Sessions that are swept alone.
    sessions: SweptSome,
    /// Groups of 128 sessions with one write each.
    forks: SweptSome,
}

/// The counters from which threads claim.
#[derive(Drop)]
struct SweepClaims {
    sessions: Claims,
    forks: Claims,
}

/// Finds whether writes overwrote what reads after them returned, and edges that represent all conflicts of writes.
///
/// The order is one that [`judge_memory::order_causal`] gives. No thread is started. Fails for want of memory alone. O(n k) for n
/// operations and k sessions that write, where 128 sessions with one write each count as one. It takes 44 bytes an operation and
/// 4 a variable, or 48 and 16 for sessions with one write, and 8 an edge. There is at most one edge for each write that is read
/// and each session that writes.
pub fn sweep(alloc: Global, index: &LongIndex, order: &[u32]) -> Result<Swept, AllocError>
    requires { IsOrderBy index.now.history [] order.now }
    ensures start { IfOk result (λ s. IsTrue s.has_overwritten_start ↔ HasOverwrittenStart index.now.history) }
    ensures read { IfOk result (λ s. IsTrue s.has_overwritten_read ↔ HasOverwrittenRead index.now.history) }
    ensures edges { IfOk result (λ s. ¬ IsTrue s.has_overwritten_read
        → (t : ℕ) → IsReducedIn index.now.history t (IsListedEdge index.now.history s.edges.items)) }
    ensures below { IfOk result (λ s. AreEdgesOf index.now.history s.edges.items) }
{
    let sessions = writing_sessions(alloc, index)?;
    let share = share_of(alloc, index, &sessions)?;
    let none = nothing_claimed(alloc);
    sweep_left(alloc, index, order, &sessions, &share, none)
}

/// The same, by threads of a runtime: so many workers, of which the calling thread is one, claim sessions until none is left.
///
/// With one worker no thread is started. Each worker takes 44 bytes an operation and 4 a variable, or 48 and 16 where sessions have one
/// write each.
pub fn sweep_in_threads<T: Threads + Wait + Sync>(
    rt: &T,
    alloc: Global,
    workers: usize,
    index: &LongIndex,
    order: &[u32],
) -> Result<Swept, AllocError>
    requires { IsOrderBy index.now.history [] order.now }
    ensures start { IfOk result (λ s. IsTrue s.has_overwritten_start ↔ HasOverwrittenStart index.now.history) }
    ensures read { IfOk result (λ s. IsTrue s.has_overwritten_read ↔ HasOverwrittenRead index.now.history) }
    ensures edges { IfOk result (λ s. ¬ IsTrue s.has_overwritten_read
        → (t : ℕ) → IsReducedIn index.now.history t (IsListedEdge index.now.history s.edges.items)) }
    ensures below { IfOk result (λ s. AreEdgesOf index.now.history s.edges.items) }
{
    let sessions = writing_sessions(alloc, index)?;
    let share = share_of(alloc, index, &sessions)?;
    let pieces = share.sessions.len().max(groups(share.forks.len()));
    let workers = workers.min(pieces).max(1);
    let claimed = join_claimed(
        alloc,
        index,
        &share,
        sweep_claimed_in(rt, alloc, workers, index, order, &share)?,
    )?;
    sweep_left(alloc, index, order, &sessions, &share, claimed)
}

/// Nothing is claimed, and nothing is shown.
fn nothing_claimed(alloc: Global) -> Claimed
    ensures { (h : MemoryHistory) (share : Share) → IsClaimed h share result }
{
    Claimed {
        sessions: SweptSome::none(alloc),
        forks: SweptSome::none(alloc),
    }
}

/// What each of so many workers claims.
fn sweep_claimed_in<T: Threads + Wait + Sync>(
    rt: &T,
    alloc: Global,
    workers: usize,
    index: &LongIndex,
    order: &[u32],
    share: &Share,
) -> Result<Vec<Result<Claimed, AllocError>>, AllocError>
    requires order { IsOrderBy index.now.history [] order.now }
    requires share { IsShare index.now.history share.now }
    ensures { IfOk result (λ claimed. AreClaimed index.now.history share.now (vec_len claimed) claimed.items) }
{
    let claims = SweepClaims {
        sessions: Claims::new(),
        forks: Claims::new(),
    };
    thread::map_indices(
        rt,
        alloc,
        workers,
        &|_worker: usize| -> Result<Claimed, AllocError>
            requires { IsOrderBy index.now.history [] order.now × IsShare index.now.history share.now }
            ensures { IfOk result (IsClaimed index.entry.now.history share.entry.now) }
        { sweep_claimed(alloc, index, order, share, workers, &claims) },
    )
}

/// What the calling thread, one of so many, claims until nothing is left.
///
/// It sorts the edges of the sessions that are swept alone by where they lead, so that [`is_convergent`](crate::is_convergent) has little
/// left to sort.
// A function of its own keeps its loops in registers.
#[inline(never)]
fn sweep_claimed(
    alloc: Global,
    index: &LongIndex,
    order: &[u32],
    share: &Share,
    threads: usize,
    claims: &SweepClaims,
) -> Result<Claimed, AllocError>
    requires order { IsOrderBy index.now.history [] order.now }
    requires share { IsShare index.now.history share.now }
    ensures { IfOk result (IsClaimed index.now.history share.now) }
{
    let mut sessions = sweep_claimed_sessions(
        alloc,
        index,
        order,
        &share.sessions,
        threads,
        &claims.sessions,
    )?;
    sessions.swept.edges.sort_by_key(|edge| edge.1)?;
    let forks = sweep_claimed_forks(alloc, index, order, &share.forks, &claims.forks)?;
    Ok(Claimed { sessions, forks })
}

/// What workers claimed.
fn join_claimed(
    alloc: Global,
    _index: &LongIndex,
    _share: &Share,
    mut parts: Vec<Result<Claimed, AllocError>>,
) -> Result<Claimed, AllocError>
    requires each { AreClaimed _index.now.history _share.now (vec_len parts) parts.items }
    ensures { IfOk result (IsClaimed _index.now.history _share.now) }
{
    let mut whole = nothing_claimed(alloc);
    while let Some(part) = parts.pop() {
        let Claimed { sessions, forks } = part?;
        whole.sessions.join(sessions)?;
        whole.forks.join(forks)?;
    }
    Ok(whole)
}

/// What all sessions of a list show. If all were claimed, nothing is swept. Otherwise all that are swept alone are swept anew, and of
/// the groups those that are left.
fn sweep_left(
    alloc: Global,
    index: &LongIndex,
    order: &[u32],
    sessions: &[u32],
    share: &Share,
    claimed: Claimed,
) -> Result<Swept, AllocError>
    requires order { IsOrderBy index.now.history [] order.now }
    requires writers { HasWriters index.now.history sessions.now }
    requires share { IsShare index.now.history share.now }
    requires all { (t : ℕ) → IsShared index.now.history share.now t ↔ IsListed sessions.now (length sessions.now) t }
    requires claimed { IsClaimed index.now.history share.now claimed }
    ensures start { IfOk result (λ s. IsTrue s.has_overwritten_start ↔ HasOverwrittenStart index.now.history) }
    ensures read { IfOk result (λ s. IsTrue s.has_overwritten_read ↔ HasOverwrittenRead index.now.history) }
    ensures edges { IfOk result (λ s. ¬ IsTrue s.has_overwritten_read
        → (t : ℕ) → IsReducedIn index.now.history t (IsListedEdge index.now.history s.edges.items)) }
    ensures below { IfOk result (λ s. AreEdgesOf index.now.history s.edges.items) }
{
    let mut swept = sweep_left_sessions(alloc, index, order, &share.sessions, claimed.sessions)?;
    let of_forks = sweep_left_forks(alloc, index, order, &share.forks, claimed.forks)?;
    join(&mut swept, of_forks)?;
    Ok(swept)
}
