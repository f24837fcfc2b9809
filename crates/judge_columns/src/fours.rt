//! The sweep of up to four sessions at once: those that a thread claims, and all.

ghost use Rattle.std.specs.Prelude.{◌≡◌, ◌<◌, ℕ, [], Some, length, slice_get, IfOk};
ghost use Rattle.judge_memory.specs.Steps.{IsOrderBy};
ghost use Rattle.judge_columns.specs.Groups.{IsSweptSessions};
ghost use Rattle.judge_columns.specs.Parts.{IsSweptOver};
ghost use Rattle.judge_columns.specs.Swept.{IsListed};

use crate::lanes::Lanes;
use crate::some::SweptSome;
use crate::swept::{Arrays, Swept, sweep_four};
use judge_memory::LongIndex;
use judge_workers::{Claims, unclaimed};
use std::alloc::{AllocError, Global};

/// What the sessions of a list show that the calling thread, one of so many, claims until none is left.
///
/// Fails for want of memory alone. It takes 44 bytes an operation and 4 a variable, or nothing for an empty list.
pub(crate) fn sweep_claimed_sessions(
    alloc: Global,
    index: &LongIndex,
    order: &[u32],
    sessions: &[u32],
    threads: usize,
    claims: &Claims,
) -> Result<SweptSome, AllocError>
    requires order { IsOrderBy index.now.history [] order.now }
    requires below { (k t : ℕ) → slice_get sessions.now k ≡ Some t → t < length index.now.history.1 }
    ensures { IfOk result (IsSweptSessions index.now.history sessions.now) }
{
    let mut found = SweptSome::none(alloc);
    if sessions.is_empty() {
        return Ok(found);
    }
    let mut lanes = Lanes::new(alloc, index)?;
    let mut arrays = Arrays::new(alloc, index)?;
    for _claim in 0..sessions.len() {
        let Some(range) = claims.next_range(sessions.len(), threads, 4) else {
            return Ok(found);
        };
        sweep_four(
            index,
            order,
            sessions,
            range,
            &mut lanes,
            &mut arrays,
            &mut found,
        )?;
    }
    Ok(found)
}

/// What all sessions of a list show. It takes 44 bytes an operation and 4 a variable. Fails for want of memory alone.
// A function of its own keeps its loops in registers.
#[inline(never)]
fn sweep_sessions(
    alloc: Global,
    index: &LongIndex,
    order: &[u32],
    sessions: &[u32],
) -> Result<Swept, AllocError>
    requires order { IsOrderBy index.now.history [] order.now }
    requires below { (k t : ℕ) → slice_get sessions.now k ≡ Some t → t < length index.now.history.1 }
    ensures { IfOk result (IsSweptOver index.now.history (IsListed sessions.now (length sessions.now))) }
{
    let mut found = SweptSome::none(alloc);
    let mut lanes = Lanes::new(alloc, index)?;
    let mut arrays = Arrays::new(alloc, index)?;
    let mut from = 0;
    'fours: while from < sessions.len() {
        let to = from.saturating_add(4).min(sessions.len());
        sweep_four(
            index,
            order,
            sessions,
            (from, to),
            &mut lanes,
            &mut arrays,
            &mut found,
        )?;
        from = to;
    }
    Ok(found.swept)
}

/// What all sessions of a list show, where some are swept. If one is not among these, all are swept anew.
///
/// Fails for want of memory alone.
pub(crate) fn sweep_left_sessions(
    alloc: Global,
    index: &LongIndex,
    order: &[u32],
    sessions: &[u32],
    found: SweptSome,
) -> Result<Swept, AllocError>
    requires order { IsOrderBy index.now.history [] order.now }
    requires below { (k t : ℕ) → slice_get sessions.now k ≡ Some t → t < length index.now.history.1 }
    requires found { IsSweptSessions index.now.history sessions.now found }
    ensures { IfOk result (IsSweptOver index.now.history (IsListed sessions.now (length sessions.now))) }
{
    let SweptSome { numbers, swept } = found;
    if unclaimed(alloc, &numbers, sessions.len())?.is_empty() {
        return Ok(swept);
    }
    sweep_sessions(alloc, index, order, sessions)
}
