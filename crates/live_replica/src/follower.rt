//! An object that follows a list of updates, with checkpoints of earlier states where updates may come in before others.

ghost use Rattle.std.specs.Prelude.{◌≡◌, ◌∷◌, ◌++◌, ◌≤◌, [], true, length, insert, IfOk, OnErr, OnOk, Some};
ghost use Rattle.live_replica.specs.Updates.{calls};
ghost use Rattle.live_replica.specs.Replaying.{IsAnswer};
ghost use Rattle.live_replica.specs.Steps.Logs.{IsFollowing};
ghost use Rattle.live_replica.specs.declared.update.UpdateOf.{UpdateOf};

use crate::checkpoint::Checkpoint;
use crate::update::UpdateOf;
use model_object_trait::SeqObject;
use std::alloc::{AllocError, Global};

/// The fewest updates between two checkpoints.
const SPACING: usize = 64;

/// An object that has applied the calls of the first of some updates, with queries between them.
///
/// If updates may come in before others, it keeps checkpoints, so that it need not be made anew. For each place with m updates
/// after it there is a checkpoint from which at most m + max(3m, `SPACING`) updates are left, or there are no more than that in all.
#[derive(Drop)]
pub(crate) struct Follower<O: SeqObject> {
    pub(crate) alloc: Global,
    pub(crate) start: O::Start,
    pub(crate) object: O,
    /// How many updates it has applied; `None` if it has to go on from a checkpoint, or from the start.
    pub(crate) applied: Option<usize>,
    /// Earlier states of it, the latest last.
    pub(crate) checkpoints: Vec<Checkpoint<O>>,
    /// Whether updates may come in before others.
    pub(crate) goes_back: bool,
}

impl<O: SeqObject> Follower<O> {
    /// An object that has taken nothing in.
    pub(crate) fn new(
        alloc: Global,
        start: &O::Start,
        goes_back: bool,
    ) -> Result<Follower<O>, AllocError>
        requires { O.is_start start.now }
        ensures start { IfOk result (λ f. f.start ≡ start.now) }
        ensures following { IfOk result (λ f. IsFollowing {C = O.Call} O.query O.stands f.object f.start [] f.applied
            f.checkpoints.items) }
    {
        let object = O::fresh(alloc, start)?;
        let start = O::copy_start(alloc, start)?;
        Ok(Follower {
            alloc,
            start,
            object,
            applied: Some(0),
            checkpoints: Vec::new(alloc),
            goes_back,
        })
    }

    /// If the object can't go on, goes on from the latest checkpoint, or from the start if there is none.
    fn renew(&mut self, updates: &[UpdateOf<O::Call>]) -> Result<usize, AllocError>
        requires start { O.is_start self.old.start }
        requires following { IsFollowing O.query O.stands self.old.object self.old.start updates.now self.old.applied
            self.old.checkpoints.items }
        ensures start { self.new.start ≡ self.old.start }
        ensures following { IsFollowing O.query O.stands self.new.object self.new.start updates.now self.new.applied
            self.new.checkpoints.items }
        ensures applied { IfOk result (λ n. self.new.applied ≡ Some n) }
    {
        if let Some(applied) = self.applied {
            return Ok(applied);
        }
        match self.checkpoints.pop() {
            Some(Checkpoint { object, applied }) => {
                self.object = object;
                self.applied = Some(applied);
                Ok(applied)
            }
            None => {
                self.object = O::fresh(self.alloc, &self.start)?;
                self.applied = Some(0);
                Ok(0)
            }
        }
    }

    /// How many updates the latest checkpoint has applied.
    fn latest(&self) -> usize {
        match self.checkpoints.last() {
            Some(checkpoint) => checkpoint.applied,
            None => 0,
        }
    }

    /// Makes a checkpoint of the object if one is due: at least `SPACING` updates after the latest one, and at least three times as
    /// many as are left.
    fn keep(&mut self, updates: &[UpdateOf<O::Call>], applied: usize) -> Result<(), AllocError>
        requires applied { self.old.applied ≡ Some applied }
        requires following { IsFollowing O.query O.stands self.old.object self.old.start updates.now self.old.applied
            self.old.checkpoints.items }
        ensures start { self.new.start ≡ self.old.start }
        ensures applied { self.new.applied ≡ self.old.applied }
        ensures following { IsFollowing O.query O.stands self.new.object self.new.start updates.now self.new.applied
            self.new.checkpoints.items }
    {
        let left = updates.len() - applied;
        let since = applied.saturating_sub(self.latest());
        if self.goes_back && since >= SPACING.max(left.saturating_mul(3)) {
            let object = self.object.again(self.alloc)?;
            self.checkpoints.push(Checkpoint { object, applied })?;
        }
        Ok(())
    }

    /// Applies to the object the updates that it has not applied yet.
    fn catch_up(&mut self, updates: &[UpdateOf<O::Call>]) -> Result<(), AllocError>
        requires start { O.is_start self.old.start }
        requires following { IsFollowing O.query O.stands self.old.object self.old.start updates.now self.old.applied
            self.old.checkpoints.items }
        ensures start { self.new.start ≡ self.old.start }
        ensures following { IsFollowing O.query O.stands self.new.object self.new.start updates.now self.new.applied
            self.new.checkpoints.items }
        ensures caught_up { OnOk result (self.new.applied ≡ Some (length updates.now)) }
    {
        let from = self.renew(updates)?;
        for at in from..updates.len() {
            self.keep(updates, at)?;
            self.object.apply(updates[at].call)?;
            self.applied = Some(at + 1);
        }
        self.keep(updates, updates.len())
    }

    /// Answers a query after all of the updates.
    pub(crate) fn ask(
        &mut self,
        updates: &[UpdateOf<O::Call>],
        call: O::Call,
    ) -> Result<O::Ret, AllocError>
        requires query { O.query call ≡ true }
        requires start { O.is_start self.old.start }
        requires following { IsFollowing O.query O.stands self.old.object self.old.start updates.now self.old.applied
            self.old.checkpoints.items }
        ensures start { self.new.start ≡ self.old.start }
        ensures following { IsFollowing O.query O.stands self.new.object self.new.start updates.now self.new.applied
            self.new.checkpoints.items }
        ensures reply { IfOk result (λ r. IsAnswer O.query O.answer self.old.start (calls updates.now) call r) }
    {
        self.catch_up(updates)?;
        let ret = self.object.apply(call)?;
        Ok(ret)
    }

    /// Answers a call after all of the updates, and takes it in as the next update.
    pub(crate) fn enter(
        &mut self,
        updates: &[UpdateOf<O::Call>],
        call: O::Call,
    ) -> Result<O::Ret, AllocError>
        requires start { O.is_start self.old.start }
        requires following { IsFollowing O.query O.stands self.old.object self.old.start updates.now self.old.applied
            self.old.checkpoints.items }
        ensures start { self.new.start ≡ self.old.start }
        ensures entered { OnOk result ((u : UpdateOf O.Call) → u.call ≡ call
            → IsFollowing O.query O.stands self.new.object self.new.start (updates.now ++ u ∷ [])
            self.new.applied self.new.checkpoints.items) }
        ensures reply { IfOk result (λ r. IsAnswer O.query O.answer self.old.start (calls updates.now) call r) }
        ensures err { OnErr result (IsFollowing O.query O.stands self.new.object self.new.start updates.now
            self.new.applied self.new.checkpoints.items) }
    {
        self.catch_up(updates)?;
        let ret = self.object.apply(call)?;
        self.applied = Some(updates.len() + 1);
        Ok(ret)
    }

    /// Notes that an update comes in at a place.
    pub(crate) fn displace(&mut self, updates: &[UpdateOf<O::Call>], at: usize)
        requires within { at ≤ length updates.now }
        requires following { IsFollowing O.query O.stands self.old.object self.old.start updates.now self.old.applied
            self.old.checkpoints.items }
        ensures start { self.new.start ≡ self.old.start }
        ensures following { (u : UpdateOf O.Call)
            → IsFollowing O.query O.stands self.new.object self.new.start (insert updates.now at u)
            self.new.applied self.new.checkpoints.items }
    {
        let _updates = updates.len();
        if let Some(applied) = self.applied {
            if applied <= at {
                return;
            }
        }
        self.applied = None;
        self.checkpoints
            .retain(|checkpoint| checkpoint.applied <= at);
    }
}
