//! The search for a pattern against a criterion, kind by kind.

ghost use Rattle.std.specs.Prelude.{◌≡◌, ◌↔◌, ◌≢◌, ℕ, IfNone, IfOk, IfSome, IsTrue, MatchOption};
ghost use Rattle.pattern_check.specs.Kinds.{IsFreeOf, IsThinAirRead, Shows, is_against};
ghost use Rattle.pattern_check.specs.Patterns.{IsBadPattern, kind_of};
ghost use Rattle.pattern_search.specs.FirstKinds.{ComesFirst, ComesFirstForEach, ComesFirstOrLarge};
ghost use Rattle.pattern_search.specs.Searches.{IsFreeOrLarge};
ghost use Rattle.pattern_search.specs.Steps.Found.{IsFirst, IsFirstFound, IsFirstOf};
ghost use Rattle.pattern_check.specs.declared.kind.Kind.TheVariants.{CyclicCF};
ghost use Rattle.order_memory.specs.Memory.{IsDifferentiated};
ghost use Rattle.order_causal.specs.Orders.{op};
ghost use Rattle.order_memory.specs.OverwrittenReads.{HasOverwrittenRead, HasOverwrittenStart};
ghost use Rattle.order_memory.specs.Steps.Indexed.{IsOrdered, IsUnordered};
ghost use Rattle.order_memory.specs.Steps.Written.{IsSorted, ListsWrites};
ghost use Rattle.cert_check.specs.declared.criterion.Criterion.{Criterion as AnyCriterion};
ghost use Rattle.cert_check.specs.declared.criterion.Criterion.TheVariants.{Cc, Cm};

use crate::finding_happened_before::find_happened_before;
use crate::search::{cycle_with_conflicts, cyclic_order, overwritten_read, overwritten_start};
use cert_check::Criterion;
use model_history::{History, OpId};
use model_objects::Memory;
use order_memory::{CausalOrder, IndexedMemory, Write};
use pattern_check::{Kind, Pattern, is_thin_air_read};
use std::alloc::{AllocError, Global};

/// A pattern that shows that the history does not meet the criterion, where the search finds one.
///
/// Against causal consistency and causal convergence the search finds one exactly where a kind that is against the criterion is
/// present in the history, and it is of the first such kind. The same holds against causal memory, unless some happened-before
/// relation has more than 19,999 pairs that the causal order doesn't have. Then the search may miss one of the two kinds of
/// happened-before, and may find a cycle where a read of the initial value after a write is present. No kind is present in a
/// history that does not have distinct values.
///
/// The search tries only the kinds that are against the criterion, in this order: a cycle of the causal order, a read of a value
/// that nobody wrote, a read of the initial value after a write, a read from an overwritten write, a read of the initial value that
/// a happened-before relation puts after a write, a happened-before relation with a cycle, and a cycle with conflicts. The thin-air
/// read that it finds is the first one. For the kinds of happened-before it searches the relation of each session's last operation,
/// but leaves out one with more than 100,000 pairs that the causal order doesn't have. It tries one pair of a relation for each
/// kind, and leaves the pair out if its derivation might have more than 100,000 lines.
///
/// Fails for want of memory alone. O(n log n + n k) for n operations of k sessions, besides what `find_in` costs.
pub fn find(
    alloc: Global,
    h: &History<Memory>,
    criterion: Criterion,
) -> Result<Option<Pattern>, AllocError>
    ensures found { IfOk result (λ found. IfSome found (IsBadPattern h.now criterion)) }
    ensures first { IfOk result (λ found. IfSome found (IsFirstFound h.now)) }
    ensures kind { IfOk result (λ found. IfSome found (λ pattern. ComesFirstOrLarge h.now criterion (kind_of pattern))) }
    ensures none { IfOk result (λ found. IfNone found (IsFreeOf h.now Cc)) }
    ensures exact { criterion ≢ Cm → IfOk result (λ found. IfNone found (IsFreeOf h.now criterion)) }
    ensures happened_before { criterion ≡ Cm → IfOk result (λ found. IfNone found (IsFreeOrLarge h.now)) }
{
    let memory = IndexedMemory::of(alloc, h)?;
    find_in(alloc, &memory, criterion)
}

/// The answer of `find`, for a caller that already knows what it asks of the history. It is exact against causal consistency and
/// causal convergence. Against causal memory it is exact for the kinds that are against causal consistency.
///
/// Fails for want of memory alone. O(n k (k + log n)) for n operations of k sessions, and against causal memory for each
/// session what its happened-before relations cost, and O(m log m + l n) for m pairs that they have more than the causal
/// order and l lines of a derivation.
pub fn find_in(
    alloc: Global,
    memory: &IndexedMemory,
    criterion: Criterion,
) -> Result<Option<Pattern>, AllocError>
    ensures found { IfOk result (λ found. IfSome found (IsBadPattern memory.now criterion)) }
    ensures first { IfOk result (λ found. IfSome found (IsFirstFound memory.now)) }
    ensures kind { IfOk result (λ found. IfSome found (λ pattern. ComesFirstOrLarge memory.now criterion (kind_of pattern))) }
    ensures none { IfOk result (λ found. IfNone found (IsFreeOf memory.now Cc)) }
    ensures exact { criterion ≢ Cm → IfOk result (λ found. IfNone found (IsFreeOf memory.now criterion)) }
    ensures happened_before { criterion ≡ Cm → IfOk result (λ found. IfNone found (IsFreeOrLarge memory.now)) }
{
    if !memory.is_differentiated() {
        return Ok(None);
    }
    match memory.order() {
        Some(order) => find_in_order(alloc, &order, criterion),
        None => Ok(Some(find_without_order(alloc, memory)?)),
    }
}

/// A pattern of a history that has a cycle of the causal order or a thin-air read. These are against every criterion.
///
/// It looks for a cycle of the causal order, and then for the first thin-air read.
///
/// Fails for want of memory alone. O(n (k + log n)) for n operations of k sessions.
fn find_without_order(alloc: Global, memory: &IndexedMemory) -> Result<Pattern, AllocError>
    requires differentiated { IsDifferentiated memory.now }
    requires unordered { IsUnordered memory.now }
    ensures found { IfOk result (λ pattern. (criterion : AnyCriterion) → IsBadPattern memory.now criterion pattern) }
    ensures first { IfOk result (IsFirstFound memory.now) }
    ensures kind { IfOk result (λ pattern. (criterion : AnyCriterion) → ComesFirst memory.now criterion (kind_of pattern)) }
{
    if let Some(path) = cyclic_order(alloc, memory.history(), memory.sources())? {
        return Ok(Pattern::CyclicCO(path));
    }
    let Some(read) = first_thin_air_read(memory.history(), memory.writes()) else {
        unreachable!();
    };
    Ok(Pattern::ThinAirRead(read))
}

/// A pattern of a history that has a causal order without a cycle, and no thin-air read.
///
/// It tries the other kinds that are against the criterion, in the order that `find` names.
fn find_in_order(
    alloc: Global,
    order: &CausalOrder,
    criterion: Criterion,
) -> Result<Option<Pattern>, AllocError>
    requires differentiated { IsDifferentiated order.now }
    requires ordered { IsOrdered order.now }
    ensures found { IfOk result (λ found. IfSome found (IsBadPattern order.now criterion)) }
    ensures first { IfOk result (λ found. IfSome found (IsFirstFound order.now)) }
    ensures kind { IfOk result (λ found. IfSome found (λ pattern. ComesFirstOrLarge order.now criterion (kind_of pattern))) }
    ensures none { IfOk result (λ found. IfNone found (IsFreeOf order.now Cc)) }
    ensures exact { criterion ≢ Cm → IfOk result (λ found. IfNone found (IsFreeOf order.now criterion)) }
    ensures happened_before { criterion ≡ Cm → IfOk result (λ found. IfNone found (IsFreeOrLarge order.now)) }
{
    if let Some(pattern) = find_overwritten(alloc, order)? {
        return Ok(Some(pattern));
    }
    if let Some(pattern) = find_happened_before(alloc, order, criterion)? {
        return Ok(Some(pattern));
    }
    find_conflicts(alloc, order, criterion)
}

/// A read of the initial value after a write, or a read from an overwritten write, where there is one. They are against
/// every criterion.
fn find_overwritten(alloc: Global, order: &CausalOrder) -> Result<Option<Pattern>, AllocError>
    requires differentiated { IsDifferentiated order.now }
    requires ordered { IsOrdered order.now }
    ensures found { IfOk result (λ found. IfSome found (λ pattern. (criterion : AnyCriterion) → IsBadPattern order.now criterion pattern)) }
    ensures first { IfOk result (λ found. IfSome found (IsFirstFound order.now)) }
    ensures kind { IfOk result (λ found. IfSome found (λ pattern. ComesFirstForEach order.now (kind_of pattern))) }
    ensures start { IfOk result (λ found. IfNone found (¬ HasOverwrittenStart order.now)) }
    ensures read { IfOk result (λ found. IfNone found (¬ HasOverwrittenRead order.now)) }
{
    if let Some(path) = overwritten_start(alloc, order)? {
        return Ok(Some(Pattern::WriteCOInitRead(path)));
    }
    match overwritten_read(alloc, order)? {
        Some((above, below)) => Ok(Some(Pattern::WriteCORead(above, below))),
        None => Ok(None),
    }
}

/// A cycle of the causal order and of conflicts, where such cycles are against the criterion and there is one.
///
/// Fails for want of memory alone. O(n k log n) for n operations of k sessions.
fn find_conflicts(
    alloc: Global,
    order: &CausalOrder,
    criterion: Criterion,
) -> Result<Option<Pattern>, AllocError>
    requires { IsDifferentiated order.now }
    ensures found { IfOk result (λ found. IfSome found (IsBadPattern order.now criterion)) }
    ensures first { IfOk result (λ found. IfSome found (IsFirstFound order.now)) }
    ensures kind { IfOk result (λ found. IfSome found (λ pattern. kind_of pattern ≡ CyclicCF)) }
    ensures none { IfOk result (λ found. IfNone found (IsTrue (is_against CyclicCF criterion) → ¬ Shows order.now CyclicCF)) }
{
    if !Kind::CyclicCF.is_against(criterion) {
        return Ok(None);
    }
    match cycle_with_conflicts(alloc, order)? {
        Some(links) => Ok(Some(Pattern::CyclicCF(links))),
        None => Ok(None),
    }
}

/// The first thin-air read of the history. O(n log n) for n operations.
fn first_thin_air_read(h: &History<Memory>, writes: &[Write]) -> Option<OpId>
    requires writes { ListsWrites h.now writes.now }
    requires sorted { IsSorted writes.now }
    ensures { MatchOption result ((r : OpId) → ¬ IsThinAirRead h.now r) (IsFirst h.now) }
{
    for session in 0..h.sessions() {
        if let Some(read) = first_thin_air_read_of(h, writes, session) {
            return Some(read);
        }
    }
    None
}

/// The first thin-air read of a session.
fn first_thin_air_read_of(h: &History<Memory>, writes: &[Write], session: usize) -> Option<OpId>
    requires writes { ListsWrites h.now writes.now }
    requires sorted { IsSorted writes.now }
    ensures { MatchOption result ((i : ℕ) → ¬ IsThinAirRead h.now (op session i)) (IsFirstOf h.now session) }
{
    for index in 0..h.len(session) {
        let read = OpId::at(session, index);
        if is_thin_air_read(h, writes, read) {
            return Some(read);
        }
    }
    None
}
