//! The pairs of operations that patterns name.

ghost use Rattle.std.specs.Prelude.{◌≡◌, ◌-◌, [], length, IfOk, MatchOption, slice_get, unwrap_or};

use order_memory::IndexedMemory;
use pattern_check::{Derivation, Line, Pair, Path};
use std::alloc::{AllocError, Global};
use std::marker::Model;

/// What the lines of a derivation say, line by line: two operations, the one that happened before first, or nothing if the line
/// names no such operations.
///
/// This does not check whether they did happen in that order: `check_pattern` does.
#[derive(Drop)]
pub struct DerivedPairs {
    pairs: Vec<Option<Pair>>,
}

impl Model for DerivedPairs {
    ghost use Rattle.std.specs.Prelude.{List, Option};
    ghost use Rattle.model_history.specs.declared.op_id.OpId.{OpId};

    ghost Value = { List (Option (OpId × OpId)) };

    ghost view = { λ derived. derived.pairs.items };
}

impl DerivedPairs {
    /// What each line of a derivation in a memory history says, from what the lines before it say.
    ///
    /// Fails for want of memory alone. O(l) for l lines.
    pub fn of(
        alloc: Global,
        memory: &IndexedMemory,
        derivation: &Derivation,
    ) -> Result<DerivedPairs, AllocError>
        ensures { IfOk result (λ derived. length derived ≡ length derivation.now) }
    {
        let mut pairs = Vec::new(alloc);
        for line in derivation.lines() {
            let pair = pair_of(memory, &pairs, line);
            pairs.push(pair)?;
        }
        Ok(DerivedPairs { pairs })
    }

    /// What the line of a number says: nothing if there is no such line.
    pub fn get(&self, number: u64) -> Option<Pair>
        ensures { result ≡ unwrap_or (slice_get self.now number) None }
    {
        pair_at(&self.pairs, number)
    }

    /// What the last line says: nothing if there is no line.
    pub fn last(&self) -> Option<Pair>
        ensures { result ≡ unwrap_or (slice_get self.now (length self.now - 1)) None }
    {
        match self.pairs.last() {
            Some(pair) => *pair,
            None => None,
        }
    }
}

// What a line says, given what the lines before it say.
fn pair_of(memory: &IndexedMemory, pairs: &[Option<Pair>], line: &Line) -> Option<Pair> {
    match line {
        Line::Co(first, _) => ends_of(first),
        Line::Tr(first, second) => {
            let (from, _) = pair_at(pairs, *first)?;
            let (_, to) = pair_at(pairs, *second)?;
            Some((from, to))
        }
        Line::Rf(number, read) => {
            let (write, _) = pair_at(pairs, *number)?;
            let other = memory.source(*read)?;
            Some((write, other))
        }
    }
}

// What the line of a number says.
fn pair_at(pairs: &[Option<Pair>], number: u64) -> Option<Pair>
    ensures { result ≡ unwrap_or (slice_get pairs.now number) None }
{
    match pairs.get(number as usize) {
        Some(pair) => *pair,
        None => None,
    }
}

/// The first and the last operation of a path: none if it has no operations.
pub fn ends_of(path: &Path) -> Option<Pair>
    ensures { MatchOption result (path.now ≡ []) (λ ends.
        (slice_get path.now 0 ≡ Some ends.0) × (slice_get path.now (length path.now - 1) ≡ Some ends.1)) }
{
    match (path.ops().first(), path.ops().last()) {
        (Some(first), Some(last)) => Some((*first, *last)),
        _ => None,
    }
}
