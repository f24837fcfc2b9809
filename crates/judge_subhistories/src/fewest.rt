//! Patterns with no operation that their kind can do without.

ghost use Rattle.std.specs.Prelude.{◌≡◌, IfOk, IfSome, IsTrue};
ghost use Rattle.pattern_check.specs.Patterns.{IsBadPattern, kind_of};

use crate::exclusion::exclusion_of;
use crate::gathering::ops_with_sources;
use crate::places::Places;
use crate::renaming::renamed;
use cert_check::Criterion;
use cert_subhistories::{Listed, part_of};
use judge_decision::Decision;
use model_history::{History, OpId};
use model_objects::Memory;
use order_memory::IndexedMemory;
use pattern_check::{Kind, Pattern, check_pattern};
use std::alloc::{AllocError, Global};

/// The most operations of a pattern, with the sources of its reads, that are left out one after the other.
pub const MAX_LEFT_OUT: usize = 512;

/// A pattern of the same kind whose operations, with the sources of its reads, show the kind by themselves. Without any one of them they
/// no longer show it; a write that is left out takes the reads from it along.
///
/// They are some of those of the given pattern. Each of these in turn, from the last by session and index to the first, is left out if
/// what is left still shows the kind. So the first of them stay, where there is a choice. A pattern that needs all of them, or has more
/// than [`MAX_LEFT_OUT`] of them, is returned as it is. No contract says that no operation can be left out; the pattern is tested.
///
/// Fails for want of memory alone. O(n (k + log n)) for n operations of k sessions, and what [`decide`](decision::decide) takes for a
/// history of the operations of the pattern, once for each of them.
pub fn with_fewest_operations(
    alloc: Global,
    history: &History<Memory>,
    criterion: Criterion,
    pattern: Pattern,
) -> Result<Pattern, AllocError>
    requires { IsBadPattern history.now criterion pattern }
    ensures shown { IfOk result (IsBadPattern history.now criterion) }
    ensures kind { IfOk result (λ fewest. kind_of fewest ≡ kind_of pattern) }
{
    match tested_fewest(alloc, history, criterion, &pattern) {
        Ok(Some(fewest)) => {
            drop(pattern);
            Ok(fewest)
        }
        Ok(None) => Ok(pattern),
        Err(refused) => {
            drop(pattern);
            Err(refused)
        }
    }
}

/// The same, where the pattern that is found is of the same kind and shows it: none where none is found, or where it fails this test.
fn tested_fewest(
    alloc: Global,
    history: &History<Memory>,
    criterion: Criterion,
    pattern: &Pattern,
) -> Result<Option<Pattern>, AllocError>
    ensures { IfOk result (λ found. IfSome found (λ fewest.
        IsBadPattern history.now criterion fewest × (kind_of fewest ≡ kind_of pattern.now))) }
{
    let Some(fewest) = pattern_of_fewest(alloc, history, criterion, pattern)? else {
        return Ok(None);
    };
    match is_of_kind(alloc, history, criterion, pattern.kind(), &fewest) {
        Ok(true) => Ok(Some(fewest)),
        Ok(false) => {
            drop(fewest);
            Ok(None)
        }
        Err(refused) => {
            drop(fewest);
            Err(refused)
        }
    }
}

/// Whether a pattern is of a kind, and shows it against a criterion.
fn is_of_kind(
    alloc: Global,
    history: &History<Memory>,
    criterion: Criterion,
    kind: Kind,
    pattern: &Pattern,
) -> Result<bool, AllocError>
    ensures { IfOk result (λ shown. IsTrue shown → IsBadPattern history.now criterion pattern.now × (kind_of pattern.now ≡ kind)) }
{
    Ok(pattern.kind() == kind && check_pattern(alloc, history, criterion, pattern)?)
}

/// The same, before it is tested: none where no operation was left out.
fn pattern_of_fewest(
    alloc: Global,
    history: &History<Memory>,
    criterion: Criterion,
    pattern: &Pattern,
) -> Result<Option<Pattern>, AllocError> {
    let ops = ops_with_sources(alloc, history, pattern)?;
    if ops.len() > MAX_LEFT_OUT {
        return Ok(None);
    }
    let core = part_of(alloc, history, &Listed(ops.as_slice()))?;
    let found = pattern_of_core(alloc, &core, ops.len(), criterion, pattern.kind());
    drop(core);
    in_whole(alloc, history.sessions(), &ops, found?)
}

/// A pattern of a kind in a core of so many operations, by those that the kind needs: none where it needs all.
fn pattern_of_core(
    alloc: Global,
    core: &History<Memory>,
    operations: usize,
    criterion: Criterion,
    kind: Kind,
) -> Result<Option<Pattern>, AllocError> {
    let kept = needed_ops(alloc, core, criterion, kind)?;
    if kept.len() >= operations {
        return Ok(None);
    }
    let found = pattern_of_ops(alloc, core, &kept, criterion, kind)?;
    in_whole(alloc, core.sessions(), &kept, found)
}

/// A pattern of a part that has these operations of a history of so many sessions, with the operations as the history numbers them.
fn in_whole(
    alloc: Global,
    sessions: usize,
    ops: &[OpId],
    found: Option<Pattern>,
) -> Result<Option<Pattern>, AllocError> {
    let Some(pattern) = found else {
        return Ok(None);
    };
    let renamed = renamed_in(alloc, sessions, ops, &pattern);
    drop(pattern);
    Ok(Some(renamed?))
}

/// The same of a pattern.
fn renamed_in(
    alloc: Global,
    sessions: usize,
    ops: &[OpId],
    pattern: &Pattern,
) -> Result<Pattern, AllocError> {
    let places = Places::listed(alloc, sessions, ops)?;
    renamed(alloc, &places, pattern)
}

/// The operations of a core that are needed for a kind, in order.
fn needed_ops(
    alloc: Global,
    core: &History<Memory>,
    criterion: Criterion,
    kind: Kind,
) -> Result<Vec<OpId>, AllocError> {
    let memory = IndexedMemory::of(alloc, core)?;
    let needed = needed_in(alloc, core, &memory, criterion, kind);
    drop(memory);
    needed
}

/// The same of a core that is indexed. Each operation in turn, from the last to the first, is left out where it is not needed.
fn needed_in(
    alloc: Global,
    core: &History<Memory>,
    memory: &IndexedMemory,
    criterion: Criterion,
    kind: Kind,
) -> Result<Vec<OpId>, AllocError> {
    let mut left = ops_in_order(alloc, core)?;
    let mut kept = Vec::from_slice(alloc, &left)?;
    left.reverse();
    for op in &left {
        let fewer = without(alloc, memory, &kept, *op)?;
        if fewer.len() < kept.len() && show_kind(alloc, core, &fewer, criterion, kind)? {
            kept = fewer;
        }
    }
    Ok(kept)
}

/// Whether these operations alone show a kind, as the first against the criterion.
fn show_kind(
    alloc: Global,
    core: &History<Memory>,
    ops: &[OpId],
    criterion: Criterion,
    kind: Kind,
) -> Result<bool, AllocError> {
    let found = pattern_of_ops(alloc, core, ops, criterion, kind)?;
    let is_shown = found.is_some();
    drop(found);
    Ok(is_shown)
}

/// All operations of a history, in order.
fn ops_in_order(alloc: Global, history: &History<Memory>) -> Result<Vec<OpId>, AllocError> {
    let mut ops = Vec::new(alloc);
    for session in 0..history.sessions() {
        for index in 0..history.len(session) {
            ops.push(OpId::at(session, index))?;
        }
    }
    Ok(ops)
}

/// These operations without one of them and without the reads from it.
fn without(
    alloc: Global,
    memory: &IndexedMemory,
    ops: &[OpId],
    left_out: OpId,
) -> Result<Vec<OpId>, AllocError> {
    let mut others = Vec::new(alloc);
    for op in ops {
        if *op != left_out && memory.source(*op) != Some(left_out) {
            others.push(*op)?;
        }
    }
    Ok(others)
}

/// A pattern of a kind of these operations alone, where it is the first kind that they show against the criterion.
fn pattern_of_ops(
    alloc: Global,
    core: &History<Memory>,
    ops: &[OpId],
    criterion: Criterion,
    kind: Kind,
) -> Result<Option<Pattern>, AllocError> {
    let part = part_of(alloc, core, &Listed(ops))?;
    let found = exclusion_of(alloc, &part, criterion);
    drop(part);
    Ok(pattern_of_kind(found?, kind))
}

/// The pattern of a decision, where it is of a kind.
fn pattern_of_kind(found: Option<Decision>, kind: Kind) -> Option<Pattern> {
    match found {
        Some(Decision::Excluded(pattern)) if pattern.kind() == kind => Some(pattern),
        _ => None,
    }
}
