//! A queue with push and pop, as an object with a sequential specification.

ghost use Rattle.std.specs.Prelude.{◌≡◌, ℕ, List, Bool, refl};
ghost use Rattle.model_objects.specs.Queue.{left, answer as queue_answer, is_query, matches as queue_matches};
ghost use Rattle.model_objects.specs.Queue.{depends as queue_depends, settles as queue_settles};
ghost use Rattle.model_objects.specs.Laws.Queue.{answer_fits, query_changes_nothing, variant_of_call, variant_of_ret};
ghost use Rattle.model_objects.specs.Laws.Queue.{others_change_nothing, same_pushes, same_popped, settled};
ghost use Rattle.model_objects.specs.Laws.Equal.{alike, apart};
ghost use Rattle.model_objects.specs.declared.queue.QueueCall.TheVariants.{Push, Pop};
ghost use Rattle.model_objects.specs.declared.queue.QueueRet.TheVariants.{Done, Popped};

use model_object_trait::SeqObject;
use std::alloc::{AllocError, Global};
use std::collections::VecDeque;
use std::marker::Model;

/// A call of a queue.
#[derive(Clone, Copy, Debug, PartialEq, Eq)]
pub enum QueueCall {
    Push(u64),
    Pop,
}

/// What a queue answers: `Done` to a push, and the item to a pop, or `None` where there is none.
#[derive(Clone, Copy, Debug, PartialEq, Eq)]
pub enum QueueRet {
    Done,
    Popped(Option<u64>),
}

/// Items in the order in which they were pushed. A pop takes the first one, so each pop changes later answers and no
/// call is a query.
///
/// A pop takes constant time. So does a push, except one that finds no room, which moves the n items: O(1) on average.
/// A copy takes O(n).
#[derive(Drop)]
pub struct Queue {
    items: VecDeque<u64>,
}

impl Model for Queue {
    ghost Value = { List ℕ };

    ghost view = { λ queue. queue.items.items };
}

impl SeqObject for Queue {
    type Call = QueueCall;

    type Ret = QueueRet;

    type Start = ();

    ghost answer = { queue_answer };

    ghost stands = { λ state _ calls. state ≡ left calls };

    ghost query = { is_query };

    ghost depends = { queue_depends };

    ghost settles = { queue_settles };

    ghost matches = { queue_matches };

    ghost plain_start = { tt };

    ghost is_start = { λ _. Unit {0} };

    ghost plain_is_start = { tt };

    ghost answer_fits = { answer_fits };

    ghost query_changes_nothing = { query_changes_nothing };

    ghost others_change_nothing = { others_change_nothing };

    ghost settled = { settled };

    ghost equal_calls = { elim [
      | Push u ↦ elim [ Push v ↦ same_pushes u v | Pop ↦ apart variant_of_call (Push u) Pop refl ]
      | Pop ↦ elim [ Push v ↦ apart variant_of_call Pop (Push v) refl | Pop ↦ alike Pop ]
    ] };

    ghost equal_rets = { elim [
      | Done ↦ elim [ Done ↦ alike Done | Popped b ↦ apart variant_of_ret Done (Popped b) refl ]
      | Popped a ↦ elim [ Done ↦ apart variant_of_ret (Popped a) Done refl | Popped b ↦ same_popped a b ]
    ] };

    fn plain(_alloc: Global) -> Result<(), AllocError> {
        Ok(())
    }

    fn copy_start(_alloc: Global, _start: &()) -> Result<(), AllocError> {
        Ok(())
    }

    fn start_for(_alloc: Global, _start: &(), _call: &QueueCall) -> Result<(), AllocError> {
        Ok(())
    }

    fn fresh(alloc: Global, _start: &()) -> Result<Queue, AllocError> {
        Ok(Queue {
            items: VecDeque::new(alloc),
        })
    }

    fn again(&self, _alloc: Global) -> Result<Queue, AllocError> {
        Ok(Queue {
            items: self.items.clone()?,
        })
    }

    fn apply(&mut self, call: QueueCall) -> Result<QueueRet, AllocError> {
        match call {
            QueueCall::Push(item) => {
                self.items.push_back(item)?;
                Ok(QueueRet::Done)
            }
            QueueCall::Pop => Ok(QueueRet::Popped(self.items.pop_front())),
        }
    }

    fn is_query(_call: &QueueCall) -> bool {
        false
    }

    fn depends_on(call: &QueueCall, _other: &QueueCall) -> bool {
        matches!(call, QueueCall::Pop)
    }

    fn is_settled_by(_call: &QueueCall, _other: &QueueCall) -> bool {
        false
    }

    fn depends_on_any(call: &QueueCall) -> bool {
        matches!(call, QueueCall::Pop)
    }

    fn fits(call: &QueueCall, ret: &QueueRet) -> bool {
        matches!(
            (call, ret),
            (QueueCall::Push(_), QueueRet::Done) | (QueueCall::Pop, QueueRet::Popped(_))
        )
    }
}
