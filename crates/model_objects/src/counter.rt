//! A counter with increment and get, as an object with a sequential specification.

ghost use Rattle.std.specs.Prelude.{◌≡◌, ◌≤◌, ℕ, List, Bool, refl};
ghost use Rattle.model_objects.specs.Counter.{GREATEST, increments, count_of, answer as counter_answer, is_get};
ghost use Rattle.model_objects.specs.Counter.{depends as counter_depends, matches as counter_matches, settles as counter_settles};
ghost use Rattle.model_objects.specs.Laws.Counter.{answer_fits, query_changes_nothing, variant_of_call, variant_of_ret};
ghost use Rattle.model_objects.specs.Laws.Counter.{others_change_nothing, same_values, settled};
ghost use Rattle.model_objects.specs.Laws.Equal.{alike, apart};
ghost use Rattle.model_objects.specs.declared.counter.CounterCall.{CounterCall};
ghost use Rattle.model_objects.specs.declared.counter.CounterCall.TheVariants.{Increment, Get};
ghost use Rattle.model_objects.specs.declared.counter.CounterRet.TheVariants.{Done, Value};

use model_object_trait::SeqObject;
use std::alloc::{AllocError, Global};

/// A call of a counter.
#[derive(Clone, Copy, Debug, PartialEq, Eq)]
pub enum CounterCall {
    Increment,
    Get,
}

/// What a counter answers: `Done` to an increment, and the value to a get.
#[derive(Clone, Copy, Debug, PartialEq, Eq)]
pub enum CounterRet {
    Done,
    Value(u64),
}

/// A number of increments. A get answers how many there were, or the greatest `u64` where there were more.
///
/// A call takes constant time and allocates nothing.
#[derive(Clone, Copy, Debug, PartialEq, Eq)]
pub struct Counter {
    count: u64,
}

impl Counter {
    /// A counter at the greatest `u64`, where it stays. O(1).
    pub fn full() -> Counter
        ensures { (calls : List CounterCall) → GREATEST ≤ increments calls
            → ⟦<Counter as SeqObject>⟧.stands result tt calls }
    {
        Counter { count: u64::MAX }
    }
}

impl SeqObject for Counter {
    type Call = CounterCall;

    type Ret = CounterRet;

    type Start = ();

    ghost answer = { counter_answer };

    ghost stands = { λ state _ calls. state.count ≡ count_of calls };

    ghost query = { is_get };

    ghost depends = { counter_depends };

    ghost settles = { counter_settles };

    ghost matches = { counter_matches };

    ghost plain_start = { tt };

    ghost is_start = { λ _. Unit {0} };

    ghost plain_is_start = { tt };

    ghost answer_fits = { answer_fits };

    ghost query_changes_nothing = { query_changes_nothing };

    ghost others_change_nothing = { others_change_nothing };

    ghost settled = { settled };

    ghost equal_calls = { elim [
      | Increment ↦ elim [ Increment ↦ alike Increment | Get ↦ apart variant_of_call Increment Get refl ]
      | Get ↦ elim [ Increment ↦ apart variant_of_call Get Increment refl | Get ↦ alike Get ]
    ] };

    ghost equal_rets = { elim [
      | Done ↦ elim [ Done ↦ alike Done | Value v ↦ apart variant_of_ret Done (Value v) refl ]
      | Value u ↦ elim [ Done ↦ apart variant_of_ret (Value u) Done refl | Value v ↦ same_values u v ]
    ] };

    fn plain(_alloc: Global) -> Result<(), AllocError> {
        Ok(())
    }

    fn copy_start(_alloc: Global, _start: &()) -> Result<(), AllocError> {
        Ok(())
    }

    fn start_for(_alloc: Global, _start: &(), _call: &CounterCall) -> Result<(), AllocError> {
        Ok(())
    }

    fn fresh(_alloc: Global, _start: &()) -> Result<Counter, AllocError> {
        Ok(Counter { count: 0 })
    }

    fn again(&self, _alloc: Global) -> Result<Counter, AllocError> {
        Ok(*self)
    }

    fn apply(&mut self, call: CounterCall) -> Result<CounterRet, AllocError> {
        Ok(match call {
            CounterCall::Increment => {
                self.count = self.count.saturating_add(1);
                CounterRet::Done
            }
            CounterCall::Get => CounterRet::Value(self.count),
        })
    }

    fn is_query(call: &CounterCall) -> bool {
        matches!(call, CounterCall::Get)
    }

    fn depends_on(call: &CounterCall, other: &CounterCall) -> bool {
        matches!((call, other), (CounterCall::Get, CounterCall::Increment))
    }

    fn is_settled_by(_call: &CounterCall, _other: &CounterCall) -> bool {
        false
    }

    fn depends_on_any(call: &CounterCall) -> bool {
        matches!(call, CounterCall::Get)
    }

    fn fits(call: &CounterCall, ret: &CounterRet) -> bool {
        matches!(
            (call, ret),
            (CounterCall::Increment, CounterRet::Done) | (CounterCall::Get, CounterRet::Value(_))
        )
    }
}
