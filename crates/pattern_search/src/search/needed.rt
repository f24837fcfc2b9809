//! The raises that a raise rests on, directly or through others.

ghost use Rattle.std.specs.Prelude.{◌≡◌, ℕ, ◌+◌, ◌<◌, true, length, slice_get, IfOk, Some};
ghost use Rattle.model_history.specs.declared.op_id.OpId.{OpId as Operation};
ghost use Rattle.order_memory.specs.declared.growing_order.Raise.{Raise as CountRaise};
ghost use Rattle.pattern_search.specs.Steps.Reasons.{AreClosedFrom, AreGrounded, ArePremises, IsBefore};
ghost use Rattle.pattern_search.specs.Steps.Reasons.{IsGrounded, IsMarked, IsPremise, MarksBelow};

use crate::search::reasons::{Reasons, last_counted, raise_of};
use order_memory::{CausalOrder, Cause, Raise};
use pattern_check::Pair;
use std::alloc::{AllocError, Global};

/// For each raise, whether it is the raise with a number or that raise rests on it.
///
/// Fails for want of memory alone. O(m + l n) for m raises, l of which it rests on, and n operations.
pub fn needed_raises(
    alloc: Global,
    order: &CausalOrder,
    reasons: &Reasons,
    number: usize,
) -> Result<Vec<bool>, AllocError>
    requires exists { number < length reasons.now }
    requires grounded { (o : Operation) × AreGrounded order.now o reasons.now }
    ensures size { IfOk result (λ needed. length needed.items ≡ length reasons.now) }
    ensures chosen { IfOk result (λ needed. slice_get needed.items number ≡ Some true) }
    ensures closed { IfOk result (λ needed. AreClosedFrom order.now reasons.now needed.items 0) }
{
    let mut needed = vec![in alloc; false; reasons.len()]?;
    needed[number] = true;
    for behind in 0..number + 1 {
        need_rests(order, reasons, number - behind, &mut needed);
    }
    Ok(needed)
}

/// Marks the raises that the raise with a number rests on, where it is marked.
fn need_rests(order: &CausalOrder, reasons: &Reasons, number: usize, needed: &mut Vec<bool>)
    requires exists { number < length reasons.now }
    requires size { length needed.old.items ≡ length reasons.now }
    requires grounded { (o : Operation) × AreGrounded order.now o reasons.now }
    ensures marks { MarksBelow number needed.old.items needed.new.items }
    ensures closed { AreClosedFrom order.now reasons.now needed.old.items (number + 1)
        → AreClosedFrom order.now reasons.now needed.new.items number }
{
    if !needed[number] {
        return;
    }
    let raise = reasons.raise(number);
    need_premises(order, reasons, number, &raise, needed);
}

/// Marks the raises that the raise with a number rests on.
fn need_premises(
    order: &CausalOrder,
    reasons: &Reasons,
    number: usize,
    raise: &Raise,
    needed: &mut Vec<bool>,
)
    requires stands { slice_get reasons.now number ≡ Some raise.now }
    requires size { length needed.old.items ≡ length reasons.now }
    requires grounded { (o : Operation) × AreGrounded order.now o reasons.now }
    ensures marks { MarksBelow number needed.old.items needed.new.items }
    ensures marked { ArePremises (IsMarked order.now reasons.now needed.new.items) raise.now }
{
    let last = last_counted(raise);
    match raise.cause {
        Cause::Through(middle) => {
            need(order, reasons, number, (last, middle), needed);
            need(order, reasons, number, (middle, raise.op), needed);
        }
        Cause::Read(read) => need(order, reasons, number, (last, read), needed),
    }
}

/// Marks the raise that a pair rests on, where the causal order doesn't have the pair. It is one of the first raises, up to
/// a number.
fn need(order: &CausalOrder, reasons: &Reasons, number: usize, pair: Pair, needed: &mut Vec<bool>)
    requires before { IsBefore order.now reasons.now number pair }
    requires exists { number < length reasons.now }
    requires size { length needed.old.items ≡ length reasons.now }
    ensures marks { MarksBelow number needed.old.items needed.new.items }
    ensures marked { IsMarked order.now reasons.now needed.new.items pair }
{
    if let Some(earlier) = raise_of(order, reasons, pair) {
        needed[earlier] = true;
    }
}
