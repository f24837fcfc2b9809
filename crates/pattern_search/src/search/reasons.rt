//! The raises that made a relation, as an index from pairs to reasons.

ghost use Rattle.std.specs.Prelude.{◌≡◌, ◌≢◌, ◌⊎◌, ◌↔◌, ℕ, ◌<◌, length, slice_get, IfOk, IsTrue, MatchOption, Some};
ghost use Rattle.order_memory.specs.declared.growing_order.Raise.{Raise as CountRaise};
ghost use Rattle.order_memory.specs.SourceOrder.{SourceOrder};
ghost use Rattle.pattern_search.specs.Steps.Reasons.{IsBefore, IsFirstRaise, IsRaisedBy, Raises, last_of};

use model_history::OpId;
use order_memory::{CausalOrder, Raise};
use pattern_check::Pair;
use std::alloc::{AllocError, Global};
use std::collections::BTreeMap;
use std::marker::Model;

/// The last operation that a raise counts. It is before the operation of the raise.
pub fn last_counted(raise: &Raise) -> OpId
    ensures { result ≡ last_of raise.now }
{
    OpId::at(raise.session, usize::from(raise.count).saturating_sub(1))
}

/// The raises of a relation, which are looked up by the pairs that they give.
#[derive(Drop)]
pub struct Reasons<'a> {
    raises: &'a [Raise],
    /// The last raise of each operation.
    latest: BTreeMap<OpId, usize>,
    /// For each raise, the raise of the same operation before it.
    earlier: Vec<Option<usize>>,
}

impl<'a> Model for Reasons<'a> {
    ghost use Rattle.std.specs.Prelude.{List, length};
    ghost use Rattle.order_memory.specs.declared.growing_order.Raise.{Raise as CountRaise};
    ghost use Rattle.pattern_search.specs.Steps.Reasons.{AreLinked};

    ghost Value = { List CountRaise };

    ghost view = { λ reasons. reasons.raises.now };

    ghost invariant = { λ reasons. AreLinked reasons.raises.now (length reasons.raises.now) reasons.latest reasons.earlier.items };
}

impl<'a> Reasons<'a> {
    /// These raises. Fails for want of memory alone. O(m log n) for m raises of n operations.
    pub fn of(alloc: Global, raises: &'a [Raise]) -> Result<Reasons<'a>, AllocError>
        ensures { IfOk result (λ reasons. reasons ≡ raises.now) }
    {
        let mut latest = BTreeMap::new(alloc);
        let mut earlier = Vec::new(alloc);
        for raise in raises {
            let number = earlier.len();
            earlier.push(latest.get(&raise.op).copied())?;
            latest.insert(raise.op, number)?;
        }
        Ok(Reasons {
            raises,
            latest,
            earlier,
        })
    }

    /// The number of the first raise that puts the first operation of a pair, or a later one of its session, before the second.
    /// O(n) if the second has n operations more before it than in the causal order.
    pub fn first(&self, pair: Pair) -> Option<usize>
        ensures { MatchOption result ((i : ℕ) → ¬ IsRaisedBy self.now pair i) (IsFirstRaise self.now pair) }
    {
        let mut found = None;
        let mut next = self.latest.get(&pair.1).copied();
        'back: while let Some(number) = next {
            found = nearer(self.raises, number, pair, found);
            next = self.earlier[number];
        }
        found
    }

    /// How many raises there are.
    pub fn len(&self) -> usize
        ensures { result ≡ length self.now }
    {
        self.raises.len()
    }

    /// The raise with a number.
    pub fn raise(&self, number: usize) -> Raise
        requires { number < length self.now }
        ensures { slice_get self.now number ≡ Some result }
    {
        raise_at(self.raises, number)
    }
}

/// The raise at a place of a list.
fn raise_at(raises: &[Raise], number: usize) -> Raise
    requires { number < length raises.now }
    ensures { slice_get raises.now number ≡ Some result }
{
    raises[number]
}

/// The number of a raise, where it puts the first operation of a pair, or a later one of its session, before the second, or
/// else what was found.
fn nearer(raises: &[Raise], number: usize, pair: Pair, found: Option<usize>) -> Option<usize>
    requires { number < length raises.now }
    ensures { (e : CountRaise) → slice_get raises.now number ≡ Some e
        → (Raises e pair × (result ≡ Some number)) ⊎ ((¬ Raises e pair) × (result ≡ found)) }
{
    if is_raising(&raises[number], pair) {
        Some(number)
    } else {
        found
    }
}

/// Whether a raise puts the first operation of a pair, or a later one of its session, before the second.
fn is_raising(raise: &Raise, pair: Pair) -> bool
    ensures { IsTrue result ↔ Raises raise.now pair }
{
    raise.op == pair.1
        && raise.session == pair.0.session_place()
        && pair.0.index < u64::from(raise.count)
}

/// The number of the raise that a pair rests on: none where the causal order has the pair.
pub fn raise_of(order: &CausalOrder, reasons: &Reasons, pair: Pair) -> Option<usize>
    requires { IsBefore order.now reasons.now (length reasons.now) pair }
    ensures { MatchOption result ((pair.0 ≢ pair.1) × SourceOrder order.now pair.0 pair.1)
        (λ number. (¬ SourceOrder order.now pair.0 pair.1) × IsFirstRaise reasons.now pair number) }
{
    if order.has_before(pair) {
        return None;
    }
    reasons.first(pair)
}
