//! A set with add, remove and has, as an object with a sequential specification.

ghost use Rattle.std.specs.Prelude.{◌≡◌, ℕ, List, Bool, refl};
ghost use Rattle.model_objects.specs.AddRemoveSet.{HoldsAfter, answer as set_answer, is_has, matches as set_matches};
ghost use Rattle.model_objects.specs.AddRemoveSet.{depends as set_depends, settles as set_settles};
ghost use Rattle.model_objects.specs.Laws.AddRemoveSet.{answer_fits, others_change_nothing, query_changes_nothing, settled};
ghost use Rattle.model_objects.specs.Laws.AddRemoveSet.{same_adds, same_removes, same_hases, same_answers, variant_of_call, variant_of_ret};
ghost use Rattle.model_objects.specs.Laws.Equal.{alike, apart};
ghost use Rattle.model_objects.specs.declared.add_remove_set.SetCall.TheVariants.{Add, Remove, Has};
ghost use Rattle.model_objects.specs.declared.add_remove_set.SetRet.TheVariants.{Done, Has as HasAnswer};

use model_object_trait::SeqObject;
use std::alloc::{AllocError, Global};
use std::collections::BTreeSet;

/// A call of a set.
#[derive(Clone, Copy, Debug, PartialEq, Eq)]
pub enum SetCall {
    Add(u64),
    Remove(u64),
    Has(u64),
}

/// What a set answers: `Done` to an add or a remove, and whether the element is there to a has.
#[derive(Clone, Copy, Debug, PartialEq, Eq)]
pub enum SetRet {
    Done,
    Has(bool),
}

/// Elements that calls add and remove. An element is there where the last add or remove of it is an add.
///
/// A call takes O(log n) for n elements, and only an add of a new element allocates. A copy takes O(n).
#[derive(Drop)]
pub struct AddRemoveSet {
    elements: BTreeSet<u64>,
}

impl SeqObject for AddRemoveSet {
    type Call = SetCall;

    type Ret = SetRet;

    type Start = ();

    ghost answer = { set_answer };

    ghost stands = { λ state _ calls. HoldsAfter state.elements calls };

    ghost query = { is_has };

    ghost depends = { set_depends };

    ghost settles = { set_settles };

    ghost matches = { set_matches };

    ghost plain_start = { tt };

    ghost is_start = { λ _. Unit {0} };

    ghost plain_is_start = { tt };

    ghost answer_fits = { answer_fits };

    ghost query_changes_nothing = { query_changes_nothing };

    ghost others_change_nothing = { others_change_nothing };

    ghost settled = { settled };

    ghost equal_calls = { elim [
      | Add u ↦ elim [
        | Add v ↦ same_adds u v
        | Remove v ↦ apart variant_of_call (Add u) (Remove v) refl
        | Has v ↦ apart variant_of_call (Add u) (Has v) refl
      ]
      | Remove u ↦ elim [
        | Add v ↦ apart variant_of_call (Remove u) (Add v) refl
        | Remove v ↦ same_removes u v
        | Has v ↦ apart variant_of_call (Remove u) (Has v) refl
      ]
      | Has u ↦ elim [
        | Add v ↦ apart variant_of_call (Has u) (Add v) refl
        | Remove v ↦ apart variant_of_call (Has u) (Remove v) refl
        | Has v ↦ same_hases u v
      ]
    ] };

    ghost equal_rets = { elim [
      | Done ↦ elim [ Done ↦ alike Done | HasAnswer b ↦ apart variant_of_ret Done (HasAnswer b) refl ]
      | HasAnswer a ↦ elim [ Done ↦ apart variant_of_ret (HasAnswer a) Done refl | HasAnswer b ↦ same_answers a b ]
    ] };

    fn plain(_alloc: Global) -> Result<(), AllocError> {
        Ok(())
    }

    fn copy_start(_alloc: Global, _start: &()) -> Result<(), AllocError> {
        Ok(())
    }

    fn start_for(_alloc: Global, _start: &(), _call: &SetCall) -> Result<(), AllocError> {
        Ok(())
    }

    fn fresh(alloc: Global, _start: &()) -> Result<AddRemoveSet, AllocError> {
        Ok(AddRemoveSet {
            elements: BTreeSet::new(alloc),
        })
    }

    fn again(&self, _alloc: Global) -> Result<AddRemoveSet, AllocError> {
        Ok(AddRemoveSet {
            elements: self.elements.clone()?,
        })
    }

    #[tactic(auto, using(crate::proofs::SetLemmas::has_after_add, crate::proofs::SetLemmas::has_after_remove))]
    fn apply(&mut self, call: SetCall) -> Result<SetRet, AllocError> {
        match call {
            SetCall::Add(element) => {
                self.elements.insert(element)?;
                Ok(SetRet::Done)
            }
            SetCall::Remove(element) => {
                self.elements.remove(&element);
                Ok(SetRet::Done)
            }
            SetCall::Has(element) => Ok(SetRet::Has(self.elements.contains(&element))),
        }
    }

    fn is_query(call: &SetCall) -> bool {
        matches!(call, SetCall::Has(_))
    }

    fn depends_on(call: &SetCall, other: &SetCall) -> bool {
        match (call, other) {
            (SetCall::Has(element), SetCall::Add(changed) | SetCall::Remove(changed)) => {
                changed == element
            }
            _ => false,
        }
    }

    fn is_settled_by(call: &SetCall, other: &SetCall) -> bool {
        AddRemoveSet::depends_on(call, other)
    }

    fn depends_on_any(call: &SetCall) -> bool {
        matches!(call, SetCall::Has(_))
    }

    fn fits(call: &SetCall, ret: &SetRet) -> bool {
        matches!(
            (call, ret),
            (SetCall::Add(_) | SetCall::Remove(_), SetRet::Done) | (SetCall::Has(_), SetRet::Has(_))
        )
    }
}
