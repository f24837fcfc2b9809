//! The log of a replica: its updates in the order that answers follow, and the object that answers.

ghost use Rattle.std.specs.Prelude.{◌≡◌, ◌∷◌, ◌++◌, ◌+◌, ◌<◌, ◌≤◌, ℕ, [], true, insert, map, IfOk, OnErr, OnOk, slice_index};
ghost use Rattle.live_replica.specs.Updates.{calls, key, many, reach};
ghost use Rattle.live_replica.specs.Replaying.{IsAnswer};

use crate::follower::Follower;
use crate::taken::Taken;
use crate::update::UpdateOf;
use crate::update_order::UpdateOrder;
use model_history::MAX_SESSIONS;
use model_object_trait::SeqObject;
use std::alloc::{AllocError, Global};
use std::marker::{Model, PhantomData};

/// The updates that a replica has delivered and its own ones, in the order that answers follow, and the object that answers.
#[derive(Drop)]
pub(crate) struct UpdateLog<O: SeqObject, P: UpdateOrder> {
    follower: Follower<O>,
    taken: Taken<O::Call>,
    order: PhantomData<P>,
}

impl<O: SeqObject, P: UpdateOrder> Model for UpdateLog<O, P> {
    ghost use Rattle.live_replica.specs.Steps.Logs.{LogState, IsFollowing};

    ghost Value = { LogState O.Start O.Call };

    ghost view = { λ l. record { start = l.follower.start; updates = l.taken.updates; room = l.taken.room } };

    ghost invariant = { λ l. O.is_start l.follower.start
        × IsFollowing O.query O.stands l.follower.object l.follower.start l.taken.updates l.follower.applied
        l.follower.checkpoints.items };
}

impl<O: SeqObject, P: UpdateOrder> UpdateLog<O, P> {
    /// No updates.
    pub(crate) fn new(alloc: Global, start: &O::Start) -> Result<UpdateLog<O, P>, AllocError>
        requires { O.is_start start.now }
        ensures start { IfOk result (λ l. l.start ≡ start.now) }
        ensures updates { IfOk result (λ l. l.updates ≡ []) }
    {
        let follower = Follower::new(alloc, start, !P::is_behind())?;
        Ok(UpdateLog {
            follower,
            taken: Taken::new(alloc),
            order: PhantomData,
        })
    }

    /// The updates, in order.
    pub(crate) fn updates(&self) -> &[UpdateOf<O::Call>]
        ensures { result.now ≡ self.now.updates }
    {
        self.taken.updates()
    }

    /// For each session how many of its updates there are.
    pub(crate) fn counts(&self) -> [u64; MAX_SESSIONS]
        ensures { (s : ℕ) → s < MAX_SESSIONS → slice_index result s ≡ many self.now.updates s }
    {
        self.taken.counts()
    }

    /// For each session one more than the greatest place of an operation whose update is there.
    pub(crate) fn ends(&self) -> [u16; MAX_SESSIONS]
        ensures { (s : ℕ) → s < MAX_SESSIONS → slice_index result s ≡ reach self.now.updates s }
    {
        self.taken.ends()
    }

    /// Makes room for so many more.
    pub(crate) fn reserve(&mut self, more: usize) -> Result<(), AllocError>
        ensures start { self.new.start ≡ self.old.start }
        ensures updates { self.new.updates ≡ self.old.updates }
        ensures room { OnOk result (more ≤ self.new.room) }
        ensures kept { self.old.room ≤ self.new.room }
    {
        self.taken.reserve(more)
    }

    /// Takes an update in, at its place.
    pub(crate) fn take_in(&mut self, update: UpdateOf<O::Call>)
        requires room { 0 < self.old.room }
        requires in_order { P.in_order (map key self.old.updates) }
        ensures start { self.new.start ≡ self.old.start }
        ensures updates { self.new.updates ≡ insert self.old.updates (P.place (map key self.old.updates) (key update)) update }
        ensures room { self.new.room + 1 ≡ self.old.room }
    {
        let at = P::place_of(self.taken.updates(), &update);
        self.follower.displace(self.taken.updates(), at);
        self.taken.put(at, update);
    }

    /// Answers a query after all of the updates.
    pub(crate) fn ask(&mut self, call: O::Call) -> Result<O::Ret, AllocError>
        requires { O.query call ≡ true }
        ensures unchanged { self.new ≡ self.old }
        ensures reply { IfOk result (λ r. IsAnswer O.query O.answer self.old.start (calls self.old.updates) call r) }
    {
        self.follower.ask(self.taken.updates(), call)
    }

    /// Answers the call of an update after all of the updates, and takes the update in after them.
    pub(crate) fn enter(&mut self, update: UpdateOf<O::Call>) -> Result<O::Ret, AllocError>
        requires { 0 < self.old.room }
        ensures start { self.new.start ≡ self.old.start }
        ensures updates { OnOk result (self.new.updates ≡ self.old.updates ++ update ∷ []) }
        ensures room { OnOk result (self.new.room + 1 ≡ self.old.room) }
        ensures reply { IfOk result (λ r. IsAnswer O.query O.answer self.old.start (calls self.old.updates) update.call r) }
        ensures unchanged { OnErr result (self.new ≡ self.old) }
    {
        let ret = self.follower.enter(self.taken.updates(), update.call)?;
        let end = self.taken.updates().len();
        self.taken.put(end, update);
        Ok(ret)
    }
}
