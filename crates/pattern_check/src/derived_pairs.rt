//! What a derivation gives.

ghost use Rattle.std.specs.Prelude.{◌≡◌, ◌↔◌, IfOk, IsTrue, MatchOption, slice_get};
ghost use Rattle.model_history.specs.declared.op_id.OpId.{OpId};
ghost use Rattle.order_causal.specs.Orders.{program_past};
ghost use Rattle.order_memory.specs.Memory.{IsDifferentiated};
ghost use Rattle.order_memory.specs.Relations.{AreRivalWrites};
ghost use Rattle.pattern_check.specs.Derivations.{Gives, GivesCausalPair, GivesJoinedPair, GivesRivalPair, IsDerivation};

use crate::derivation::Line;
use crate::edges::are_rival_writes;
use crate::known_memory::KnownMemory;
use crate::path::Path;
use crate::routes::ends_of;
use model_history::OpId;
use std::alloc::{AllocError, Global};

/// How many lines a derivation may have.
pub const MAX_LINES: usize = 100_000;

/// Two operations: the first happened before the second.
pub type Pair = (OpId, OpId);

/// The pair that the last line gives, where the lines are a derivation for the operation.
///
/// The history has distinct values. Fails for want of memory alone. For each operation and each line of the derivation it asks for
/// at most a few entries and a source.
pub fn derived_pair<M: KnownMemory>(
    alloc: Global,
    h: &M,
    op: OpId,
    lines: &[Line],
) -> Result<Option<Pair>, AllocError>
    requires { IsDifferentiated (M.history h.now) }
    ensures { IfOk result (λ found. MatchOption found ((a b : OpId) → ¬ IsDerivation (M.history h.now) op lines.now a b)
        (λ pair. IsDerivation (M.history h.now) op lines.now pair.0 pair.1)) }
{
    if lines.len() > MAX_LINES {
        return Ok(None);
    }
    let mut pairs = Vec::new(alloc);
    for line in lines {
        let Some(pair) = given_pair(h, op, &pairs, line) else {
            return Ok(None);
        };
        pairs.push(pair)?;
    }
    Ok(pairs.last().copied())
}

/// The pair that a line gives, where the lines before it give these pairs.
fn given_pair<M: KnownMemory>(h: &M, op: OpId, pairs: &[Pair], line: &Line) -> Option<Pair>
    requires { IsDifferentiated (M.history h.now) }
    ensures { MatchOption result ((a b : OpId) → ¬ Gives (M.history h.now) op pairs.now line.now a b)
        (λ pair. Gives (M.history h.now) op pairs.now line.now pair.0 pair.1) }
{
    match line {
        Line::Co(first, second) => causal_pair(h, op, first, second),
        Line::Tr(i, j) => joined_pair(pairs, *i, *j),
        Line::Rf(i, read) => rival_pair(h, op, pairs, *i, *read),
    }
}

/// The ends of the first path, if it has an edge and the second path goes from its end to the operation.
fn causal_pair<M: KnownMemory>(h: &M, op: OpId, first: &Path, second: &Path) -> Option<Pair>
    ensures { MatchOption result ((a b : OpId) → ¬ GivesCausalPair (M.history h.now) op first.now second.now a b)
        (λ pair. GivesCausalPair (M.history h.now) op first.now second.now pair.0 pair.1) }
{
    let (Some(above), Some(below)) = (ends_of(h, first), ends_of(h, second)) else {
        return None;
    };
    if first.ops().len() > 1 && above.1 == below.0 && below.1 == op {
        Some(above)
    } else {
        None
    }
}

/// The pair that joins two pairs, if the first ends where the second begins.
fn joined_pair(pairs: &[Pair], i: u64, j: u64) -> Option<Pair>
    ensures { MatchOption result ((a b : OpId) → ¬ GivesJoinedPair pairs.now i j a b)
        (λ pair. GivesJoinedPair pairs.now i j pair.0 pair.1) }
{
    let (Some(first), Some(second)) = (pair_at(pairs, i), pair_at(pairs, j)) else {
        return None;
    };
    if first.1 == second.0 {
        Some((first.0, second.1))
    } else {
        None
    }
}

/// A write that happened before a read, and the read's source, which is another write of its variable.
fn rival_pair<M: KnownMemory>(h: &M, op: OpId, pairs: &[Pair], i: u64, read: OpId) -> Option<Pair>
    requires { IsDifferentiated (M.history h.now) }
    ensures { MatchOption result ((a b : OpId) → ¬ GivesRivalPair (M.history h.now) op pairs.now i read a b)
        (λ pair. GivesRivalPair (M.history h.now) op pairs.now i read pair.0 pair.1) }
{
    let (Some(pair), Some(source)) = (pair_at(pairs, i), h.source(read)) else {
        return None;
    };
    if pair.1 == read && comes_before_source(h, op, pair.0, read, source) {
        Some((pair.0, source))
    } else {
        None
    }
}

/// Whether a write that happened before a read happened before the read's source too: the read is the operation or before it
/// in program order, and the source is another write of the variable.
fn comes_before_source<M: KnownMemory>(
    h: &M,
    op: OpId,
    write: OpId,
    read: OpId,
    source: OpId,
) -> bool
    ensures { IsTrue result ↔ (IsTrue (program_past op read) × AreRivalWrites (M.history h.now) write source) }
{
    read.is_in_program_past_of(op) && are_rival_writes(h, write, source)
}

/// The pair with a number, if there is one.
fn pair_at(pairs: &[Pair], i: u64) -> Option<Pair>
    ensures { result ≡ slice_get pairs.now i }
{
    pairs.get(i as usize).copied()
}
