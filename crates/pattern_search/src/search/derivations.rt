//! Derivations of pairs of a happened-before relation, without lines that are not needed.

ghost use Rattle.std.specs.Prelude.{◌≡◌, ◌-◌, ◌+◌, ◌<◌, [], ◌∷◌, ◌++◌, length, slice_get, IfOk, MatchOption, Some};
ghost use Rattle.order_memory.specs.declared.growing_order.Raise.{Raise as CountRaise};
ghost use Rattle.order_memory.specs.Memory.{IsDifferentiated};
ghost use Rattle.order_memory.specs.Relations.{HB};
ghost use Rattle.pattern_check.specs.Derivations.{IsDerivation};
ghost use Rattle.pattern_search.specs.Steps.Drafts.{AreWritten, EndsIn, IsDraft};
ghost use Rattle.pattern_search.specs.Steps.Reasons.{AreClosedFrom, AreGrounded, IsPremise, last_of};
ghost use Rattle.pattern_search.specs.Steps.Relations.{IsRelation};

use crate::search::drafts::Draft;
use crate::search::needed::needed_raises;
use crate::search::reasons::{Reasons, last_counted, raise_of};
use crate::search::relations::Relation;
use model_history::OpId;
use order_memory::CausalOrder;
use pattern_check::{Derivation, MAX_LINES, Pair};
use std::alloc::{AllocError, Global};

/// The most raises that a relation may have so that each of its pairs is sure to have a derivation within [`MAX_LINES`]: five lines
/// a raise, and a few for the pair itself.
pub const MAX_RAISES: usize = 19_999;

/// A derivation of a pair of a happened-before relation, with no line that the pair doesn't rest on.
///
/// `None` only where it might have more than 100,000 lines: never where the relation has at most 19,999 raises. Fails for want
/// of memory alone. O(m log n + l n) for m raises, l lines and n operations.
pub fn derivation_of(
    alloc: Global,
    order: &CausalOrder,
    relation: &Relation,
    pair: Pair,
) -> Result<Option<Derivation>, AllocError>
    requires distinct { IsDifferentiated order.now }
    requires relation { IsRelation order.now relation.now }
    requires before { HB order.now relation.now.0 pair.0 pair.1 }
    ensures { IfOk result (λ made. MatchOption made (MAX_RAISES < length relation.now.2)
        (λ derivation. IsDerivation order.now relation.now.0 derivation pair.0 pair.1)) }
{
    let reasons = Reasons::of(alloc, relation.raises())?;
    let mut draft = Draft::new(alloc);
    match write_pair(alloc, order, relation.op(), &reasons, pair, &mut draft)? {
        Some(_) => Ok(Some(draft.into_derivation())),
        None => Ok(None),
    }
}

/// Writes the first lines of a draft, the last of which gives a pair. Returns the number of that line, or none if there is no room.
fn write_pair(
    alloc: Global,
    order: &CausalOrder,
    op: OpId,
    reasons: &Reasons,
    pair: Pair,
    draft: &mut Draft,
) -> Result<Option<u64>, AllocError>
    requires empty { length draft.old.0 ≡ 0 }
    requires draft { IsDraft order.now op draft.old }
    requires grounded { AreGrounded order.now op reasons.now }
    requires premise { IsPremise order.now op reasons.now (length reasons.now) pair }
    ensures { IfOk result (λ written. MatchOption written (MAX_RAISES < length reasons.now)
        (EndsIn order.now op MAX_LINES pair draft.new)) }
{
    let Some(number) = raise_of(order, reasons, pair) else {
        return Ok(Some(draft.push_causal(order, op, pair)?));
    };
    let Some(line) = write_raise(alloc, order, op, reasons, number, draft)? else {
        return Ok(None);
    };
    let last = last_counted(&reasons.raise(number));
    Ok(Some(draft.reach_back(order, op, pair, last, line)?))
}

/// Writes the first lines of a draft: those of the raises that the raise with a number rests on, in turn, and then that of the
/// raise itself. Returns the number of the last line, or none if there is no room.
fn write_raise(
    alloc: Global,
    order: &CausalOrder,
    op: OpId,
    reasons: &Reasons,
    number: usize,
    draft: &mut Draft,
) -> Result<Option<u64>, AllocError>
    requires empty { length draft.old.0 ≡ 0 }
    requires draft { IsDraft order.now op draft.old }
    requires grounded { AreGrounded order.now op reasons.now }
    requires exists { number < length reasons.now }
    ensures { (e : CountRaise) → slice_get reasons.now number ≡ Some e
        → IfOk result (λ written. MatchOption written (MAX_RAISES < length reasons.now)
        (EndsIn order.now op (MAX_LINES - 2) (last_of e, e.op) draft.new)) }
{
    let needed = needed_raises(alloc, order, reasons, number)?;
    let mut written = Vec::new(alloc);
    for at in 0..number {
        let Some(line) = write_rest(order, op, reasons, &needed, &written, at, draft)? else {
            return Ok(None);
        };
        written.push(line)?;
    }
    if !draft.has_room() {
        return Ok(None);
    }
    let raise = reasons.raise(number);
    Ok(Some(draft.push_raise(order, op, reasons, &written, &raise)?))
}

/// Writes the line of the raise with a number after those of the raises before it, if it is marked. Returns the number of the line,
/// or 0 if the raise is not marked, or none if there is no room.
fn write_rest(
    order: &CausalOrder,
    op: OpId,
    reasons: &Reasons,
    needed: &[bool],
    written: &[u64],
    number: usize,
    draft: &mut Draft,
) -> Result<Option<u64>, AllocError>
    requires grounded { AreGrounded order.now op reasons.now }
    requires exists { number < length reasons.now }
    requires size { length needed.now ≡ length reasons.now }
    requires closed { AreClosedFrom order.now reasons.now needed.now 0 }
    requires so_far { AreWritten order.now op reasons.now needed.now number draft.old written.now }
    ensures { IfOk result (λ line. MatchOption line (MAX_RAISES < length reasons.now)
        (λ n. AreWritten order.now op reasons.now needed.now (number + 1) draft.new (written.now ++ n ∷ []))) }
{
    if !needed[number] {
        return Ok(Some(0));
    }
    if !draft.has_room() {
        return Ok(None);
    }
    let raise = reasons.raise(number);
    Ok(Some(draft.push_raise(order, op, reasons, written, &raise)?))
}
