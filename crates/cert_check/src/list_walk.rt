//! A walk over the one list of a certificate, from operation to operation.

ghost use Rattle.std.specs.Prelude.{◌≡◌, ◌+◌, ◌<◌, ◌≤◌, ℕ, List, length, slice_index_or, IfOk};
ghost use Rattle.order_causal.specs.Orders.{StandsAt};
ghost use Rattle.order_causal.specs.Schedules.{placed};
ghost use Rattle.cert_check.specs.Schedules.{named};
ghost use Rattle.cert_check.specs.Steps.Namings.{AreCountsAt};
ghost use Rattle.cert_check.specs.Steps.Replays.{NamesOperations};

use crate::naming::Naming;
use model_history::{History, OpId};
use model_object_trait::SeqObject;
use std::alloc::{AllocError, Global};

/// How far a walk over a list has gone: a place, and how many operations of each session the numbers before it name.
#[derive(Drop)]
pub struct ListWalk {
    pub place: usize,
    pub naming: Naming,
}

impl ListWalk {
    /// At the front of any list. O(k) for k sessions.
    pub fn new<O: SeqObject>(alloc: Global, h: &History<O>) -> Result<ListWalk, AllocError>
        ensures front { IfOk result (λ walk. walk.place ≡ 0) }
        ensures counts { IfOk result (λ walk. (list : List ℕ) → AreCountsAt list 0 (length h.now.1) walk.naming.counts.items) }
    {
        let naming = Naming::new(alloc, h)?;
        Ok(ListWalk { place: 0, naming })
    }

    /// Goes to just after an operation of the list, and gives the operation's place.
    ///
    /// O(p) for p numbers between the walk's place and that one; counted from the front if the walk has passed the operation.
    pub fn go_behind<O: SeqObject>(&mut self, h: &History<O>, list: &[u8], op: OpId) -> usize
        requires names { NamesOperations h.now list.now }
        requires counts { AreCountsAt list.now self.old.place (length h.now.1) self.old.naming.counts.items }
        requires named { op.index < placed list.now op.session }
        ensures within { result < length list.now }
        ensures stands { StandsAt (named list.now) result op }
        ensures place { self.new.place ≡ result + 1 }
        ensures counts { AreCountsAt list.now (result + 1) (length h.now.1) self.new.naming.counts.items }
    {
        let from = self.place_before(op);
        let place = self.naming.on_to(h, list, from, op);
        self.place = place + 1;
        place
    }

    /// Goes back to the front if the walk has passed an operation, and gives the walk's new place.
    fn place_before(&mut self, op: OpId) -> usize
        ensures before { slice_index_or self.new.naming.counts.items op.session 0 ≤ op.index }
        ensures counts { (list : List ℕ) (n : ℕ) → AreCountsAt list self.old.place n self.old.naming.counts.items
            → AreCountsAt list result n self.new.naming.counts.items }
    {
        if self.naming.has_named(op) {
            self.naming.clear();
            return 0;
        }
        self.place
    }
}
