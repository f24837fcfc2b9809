//! The sweep of groups of 128 sessions with one write each: those that a thread claims, and those that none claimed.

ghost use Rattle.std.specs.Prelude.{[], length, IfOk};
ghost use Rattle.judge_memory.specs.Steps.{IsOrderBy};
ghost use Rattle.judge_columns.specs.Forks.{AreOnlyWrites, IsForkBelow};
ghost use Rattle.judge_columns.specs.Groups.{IsSweptForks};
ghost use Rattle.judge_columns.specs.Parts.{IsSweptOver};

use crate::forks::{ForkWords, groups, sweep_group};
use crate::some::SweptSome;
use crate::swept::Swept;
use judge_memory::LongIndex;
use judge_workers::{Claims, unclaimed};
use std::alloc::{AllocError, Global};

/// What the groups of sessions with one write each show that the calling thread claims, until none is left.
///
/// `writes` has the numbers of these writes. Fails for want of memory alone. It takes 48 bytes an operation and 16 a variable, or nothing
/// for an empty list.
pub(crate) fn sweep_claimed_forks(
    alloc: Global,
    index: &LongIndex,
    order: &[u32],
    writes: &[u32],
    claims: &Claims,
) -> Result<SweptSome, AllocError>
    requires order { IsOrderBy index.now.history [] order.now }
    requires only { AreOnlyWrites index.now.history writes.now }
    ensures { IfOk result (IsSweptForks index.now.history writes.now) }
{
    let mut found = SweptSome::none(alloc);
    let count = groups(writes.len());
    if count == 0 {
        return Ok(found);
    }
    let mut words = ForkWords::new(alloc, index)?;
    let mut late = vec![in alloc; 0; index.operations() as usize]?;
    for _claim in 0..count {
        let Some(group) = claims.next_below(count) else {
            return Ok(found);
        };
        sweep_group(
            index,
            order,
            writes,
            group,
            &mut words,
            &mut late,
            &mut found.swept,
        )?;
        found.numbers.push(group)?;
    }
    Ok(found)
}

/// What all sessions with one write each show, once those groups are swept that are not among the ones found.
///
/// Fails for want of memory alone. It takes 48 bytes an operation and 16 a variable, or nothing where all are found.
pub(crate) fn sweep_left_forks(
    alloc: Global,
    index: &LongIndex,
    order: &[u32],
    writes: &[u32],
    found: SweptSome,
) -> Result<Swept, AllocError>
    requires order { IsOrderBy index.now.history [] order.now }
    requires only { AreOnlyWrites index.now.history writes.now }
    requires found { IsSweptForks index.now.history writes.now found }
    ensures { IfOk result (IsSweptOver index.now.history (IsForkBelow index.now.history writes.now (length writes.now))) }
{
    let SweptSome {
        numbers: mut all,
        mut swept,
    } = found;
    let rest = unclaimed(alloc, &all, groups(writes.len()))?;
    if rest.is_empty() {
        return Ok(swept);
    }
    let mut words = ForkWords::new(alloc, index)?;
    let mut late = vec![in alloc; 0; index.operations() as usize]?;
    for i in 0..rest.len() {
        let group = rest[i];
        sweep_group(
            index, order, writes, group, &mut words, &mut late, &mut swept,
        )?;
        all.push(group)?;
    }
    Ok(swept)
}
