//! The search for patterns that happened-before relations show.

ghost use Rattle.std.specs.Prelude.{◌⊎◌, ◌+◌, ◌<◌, ◌≡◌, ℕ, length, IfNone, IfOk, IfSome, Option, Some};
ghost use Rattle.pattern_check.specs.Patterns.{IsBadPattern, kind_of};
ghost use Rattle.pattern_check.specs.declared.kind.Kind.TheVariants.{CyclicHB, WriteHBInitRead};
ghost use Rattle.cert_check.specs.declared.criterion.Criterion.TheVariants.{Cm};
ghost use Rattle.pattern_search.specs.Searches.{AreSearched, ComesTo, HasLargeHB, IsClear};
ghost use Rattle.pattern_search.specs.Steps.Found.{AreSearchedBefore, IsFirstHappened};
ghost use Rattle.pattern_search.specs.Steps.Relations.{HasNoCycle, HasNoCycleBefore, HasNoStart};
ghost use Rattle.pattern_search.specs.Steps.Relations.{IsRelation, IsRelationOfLast};
ghost use Rattle.order_memory.specs.HappenedBeforePatterns.{HasHBCycle, HasStartOverwrittenInHB};
ghost use Rattle.order_memory.specs.Memory.{IsDifferentiated};

use crate::search::{MAX_RAISES, Relation, cycle_in, derivation_of, overwritten_start_in};
use crate::searched::{Searched, SearchedKinds};
use cert_check::Criterion;
use order_memory::{CausalOrder, MAX_PAIRS};
use pattern_check::{Kind, Pattern};
use std::alloc::{AllocError, Global};

/// A pattern of one of the kinds that rest on happened-before relations, where those are against the criterion.
///
/// It is what `search_happened_before` shows with relations of at most 100,000 pairs that the causal order doesn't have: a read of
/// the initial value after a write, or else a cycle. Against causal memory there is no pattern only if none of these kinds is
/// present or some relation has more than 19,999 such pairs. Only in the second case can it be a cycle although such a read is
/// present.
pub fn find_happened_before(
    alloc: Global,
    order: &CausalOrder,
    criterion: Criterion,
) -> Result<Option<Pattern>, AllocError>
    requires { IsDifferentiated order.now }
    ensures found { IfOk result (λ found. IfSome found (IsBadPattern order.now criterion)) }
    ensures kind { IfOk result (λ found. IfSome found (λ pattern. IsFirstHappened order.now (kind_of pattern))) }
    ensures none { criterion ≡ Cm → IfOk result (λ found. IfNone found (IsClear order.now ⊎ HasLargeHB order.now (Some MAX_RAISES))) }
{
    if !Kind::CyclicHB.is_against(criterion) {
        return Ok(None);
    }
    let SearchedKinds { starts, cycles } = search_happened_before(alloc, order, Some(MAX_PAIRS))?;
    match starts {
        Searched::Pattern(start) => Ok(Some(start)),
        Searched::Present | Searched::Open | Searched::Nothing => match cycles {
            Searched::Pattern(cycle) => Ok(Some(cycle)),
            Searched::Present | Searched::Open | Searched::Nothing => Ok(None),
        },
    }
}

/// What the happened-before relations of a history show, for each of the two kinds that rest on them.
///
/// For each session it searches the relation of the last operation, which has what the relations of the operations before it have.
/// If `most` is a number, it leaves out a session whose relation has more than that number of pairs that the causal order doesn't
/// have. Without a number it leaves out none. The search ends with the first read of the initial value after a write that it shows.
/// `Nothing` means that the kind is not present, and `Open` that a session was left out. `Present` means that the kind is present
/// and that each derivation begun might have more than 100,000 lines: then some relation has more than 19,999 pairs that the causal
/// order doesn't have.
///
/// Fails for want of memory alone. For each of k sessions O(n (log n + k^2) + m k log n) for n operations and m pairs that
/// its relation has more than the causal order, and for each derivation O(m log m + l n) for l lines.
pub fn search_happened_before(
    alloc: Global,
    order: &CausalOrder,
    most: Option<u32>,
) -> Result<SearchedKinds, AllocError>
    requires { IsDifferentiated order.now }
    ensures { IfOk result (AreSearched order.now most (¬ HasStartOverwrittenInHB order.now) (¬ HasHBCycle order.now)) }
{
    let mut searched = SearchedKinds {
        starts: Searched::Nothing,
        cycles: Searched::Nothing,
    };
    for session in 0..order.memory().history().sessions() {
        searched = search_session(alloc, order, most, session, searched)?;
        if searched.starts.is_pattern() {
            return Ok(searched);
        }
    }
    Ok(searched)
}

/// The result for the sessions so far and this one.
fn search_session(
    alloc: Global,
    order: &CausalOrder,
    most: Option<u32>,
    session: usize,
    so_far: SearchedKinds,
) -> Result<SearchedKinds, AllocError>
    requires distinct { IsDifferentiated order.now }
    requires exists { session < length order.now.1 }
    requires so_far { AreSearchedBefore order.now most session so_far }
    ensures { IfOk result (AreSearchedBefore order.now most (session + 1)) }
{
    let h = order.history();
    match Relation::of_last(alloc, order, session, most)? {
        Some(relation) => search_relation(alloc, order, &relation, so_far),
        None if h.len(session) == 0 => Ok(so_far),
        None => Ok(SearchedKinds {
            starts: so_far.starts.or(Searched::Open),
            cycles: so_far.cycles.or(Searched::Open),
        }),
    }
}

/// The result for the sessions so far and the session of a relation. It looks for a cycle only if no read is shown.
fn search_relation(
    alloc: Global,
    order: &CausalOrder,
    relation: &Relation,
    so_far: SearchedKinds,
) -> Result<SearchedKinds, AllocError>
    requires distinct { IsDifferentiated order.now }
    requires relation { IsRelationOfLast order.now relation.now.0.session relation.now }
    ensures { (most : Option ℕ)
        → AreSearchedBefore order.now most relation.now.0.session so_far
        → IfOk result (AreSearchedBefore order.now most (relation.now.0.session + 1)) }
{
    let start = find_start(alloc, order, relation)?;
    let starts = so_far.starts.or(start);
    if starts.is_pattern() {
        return Ok(SearchedKinds {
            starts,
            cycles: so_far.cycles,
        });
    }
    let cycles = search_cycle(alloc, order, relation, so_far.cycles)?;
    Ok(SearchedKinds { starts, cycles })
}

/// The result for a cycle, of the sessions so far and a relation.
fn search_cycle(
    alloc: Global,
    order: &CausalOrder,
    relation: &Relation,
    so_far: Searched,
) -> Result<Searched, AllocError>
    requires distinct { IsDifferentiated order.now }
    requires relation { IsRelation order.now relation.now }
    ensures { (most : Option ℕ) (s : ℕ)
        → ComesTo order.now CyclicHB (HasLargeHB order.now most) (HasNoCycleBefore order.now s) so_far
        → IfOk result (ComesTo order.now CyclicHB (HasLargeHB order.now most)
        (HasNoCycleBefore order.now s × HasNoCycle order.now relation.now.0)) }
{
    match so_far {
        Searched::Pattern(pattern) => Ok(Searched::Pattern(pattern)),
        other => {
            let cyclic = find_cycle(alloc, order, relation)?;
            Ok(other.or(cyclic))
        }
    }
}

/// A read of the initial value that a relation puts after a write.
fn find_start(
    alloc: Global,
    order: &CausalOrder,
    relation: &Relation,
) -> Result<Searched, AllocError>
    requires distinct { IsDifferentiated order.now }
    requires relation { IsRelation order.now relation.now }
    ensures { IfOk result (ComesTo order.now WriteHBInitRead ⊥ (HasNoStart order.now relation.now.0)) }
{
    let Some(pair) = overwritten_start_in(order, relation) else {
        return Ok(Searched::Nothing);
    };
    match derivation_of(alloc, order, relation, pair)? {
        Some(derivation) => Ok(Searched::Pattern(Pattern::WriteHBInitRead(
            relation.op(),
            derivation,
        ))),
        None => Ok(Searched::Present),
    }
}

/// An operation that a relation puts before itself.
fn find_cycle(
    alloc: Global,
    order: &CausalOrder,
    relation: &Relation,
) -> Result<Searched, AllocError>
    requires distinct { IsDifferentiated order.now }
    requires relation { IsRelation order.now relation.now }
    ensures { IfOk result (ComesTo order.now CyclicHB ⊥ (HasNoCycle order.now relation.now.0)) }
{
    let Some(pair) = cycle_in(order, relation) else {
        return Ok(Searched::Nothing);
    };
    match derivation_of(alloc, order, relation, pair)? {
        Some(derivation) => Ok(Searched::Pattern(Pattern::CyclicHB(relation.op(), derivation))),
        None => Ok(Searched::Present),
    }
}
