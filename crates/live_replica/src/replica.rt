//! The replica of a session: it does operations, takes updates in, and holds those that are not ready.

ghost use Rattle.std.specs.Prelude.{◌≡◌, ◌≢◌, ◌∷◌, ◌++◌, ◌<◌, ◌≤◌, ◌↔◌, ℕ, [], true, false, length};
ghost use Rattle.std.specs.Prelude.{IfErr, IfOk, IsTrue, MatchOption, None, OnErr, OnOk, Some, if◌then◌else◌, map, slice_index};
ghost use Rattle.live_replica.specs.Causality.{IsCausal};
ghost use Rattle.live_replica.specs.Orders.{IsBehind};
ghost use Rattle.live_replica.specs.Updates.{calls, is_named, key, many, writers};
ghost use Rattle.live_replica.specs.Replaying.{IsAnswer};
ghost use Rattle.live_replica.specs.Replicas.{CanAct, IsAdvice, IsFirstReady, IsOwnUpdate, IsReady, IsSettled};
ghost use Rattle.live_replica.specs.Replicas.{RefusesOperation, Settles};
ghost use Rattle.live_replica.specs.Replicas.{after_operation, fresh_replica, hold, ignores, release, take_in};
ghost use Rattle.live_replica.specs.declared.update.UpdateOf.{UpdateOf};

use crate::acted::ActedOf;
use crate::delivery::Delivery;
use crate::replica_error::ReplicaError;
use crate::update::UpdateOf;
use crate::update_log::UpdateLog;
use crate::update_order::UpdateOrder;
use model_history::{Advice, Delivered, MAX_OPERATIONS, MAX_SESSIONS};
use model_object_trait::SeqObject;
use std::alloc::{AllocError, Global};
use std::marker::Model;

/// The replica of a session, whose answers follow the order of updates that `P` gives.
///
/// It keeps the updates that it has delivered and those that it holds, and an object that answers. If the order of the store is
/// not that in which updates are delivered, it also keeps copies of earlier states of the object, at most one for each 64 updates.
#[derive(Drop)]
pub struct Replica<O: SeqObject, P: UpdateOrder> {
    alloc: Global,
    session: u8,
    sessions: u8,
    delivery: Delivery,
    operations: u16,
    clock: u64,
    log: UpdateLog<O, P>,
    held: Vec<UpdateOf<O::Call>>,
}

impl<O: SeqObject, P: UpdateOrder> Model for Replica<O, P> {
    ghost use Rattle.std.specs.Prelude.{◌<◌, ◌≤◌, length};
    ghost use Rattle.live_replica.specs.Replicas.{ReplicaState};
    ghost use Rattle.live_replica.specs.Steps.Logs.{IsKept, IsReplica};

    ghost Value = { ReplicaState O.Start O.Call };

    ghost view = { λ r. record {
      session = r.session;
      sessions = r.sessions;
      delivery = r.delivery;
      start = r.log.start;
      operations = r.operations;
      clock = r.clock;
      taken = r.log.updates;
      held = r.held.items;
    } };

    ghost invariant = { λ r. IsReplica r.session r.sessions r.operations r.log.room (length r.held.items)
        × IsKept P.place P.in_order r.session r.delivery r.clock r.log.updates };
}

impl<O: SeqObject, P: UpdateOrder> Replica<O, P> {
    /// The replica of one of `k` sessions, before any operation. The start is what the object holds first.
    ///
    /// Fails for want of memory alone. O(1) beside the object's start.
    pub fn new(
        alloc: Global,
        session: usize,
        k: usize,
        delivery: Delivery,
        start: &O::Start,
    ) -> Result<Replica<O, P>, AllocError>
        requires session { session < k }
        requires few { k ≤ MAX_SESSIONS }
        requires start { O.is_start start.now }
        ensures { IfOk result (λ r. r ≡ fresh_replica session k delivery start.now) }
    {
        let log = UpdateLog::new(alloc, start)?;
        Ok(Replica {
            alloc,
            session: session as u8,
            sessions: k as u8,
            delivery,
            operations: 0,
            clock: 0,
            log,
            held: Vec::new(alloc),
        })
    }

    /// The updates that were delivered and the own ones, in the order that answers follow.
    ///
    /// They are in the order that the store states. If that is the order in which they were delivered, then with causal
    /// delivery each is after the earlier ones of its session, and after all that its writer had delivered of sessions
    /// other than its own and this one. O(1).
    pub fn delivered(&self) -> &[UpdateOf<O::Call>]
        ensures updates { result.now ≡ self.now.taken }
        ensures in_order { P.in_order (map key result.now) }
        ensures causal { IsBehind P.place → self.now.delivery ≡ Delivery.Causal → IsCausal self.now.session result.now }
    {
        self.log.updates()
    }

    /// Whether an update changes nothing.
    fn ignores(&self, update: &UpdateOf<O::Call>) -> bool
        ensures { result ≡ ignores self.now update.now }
    {
        update.session == self.session
            || update.session >= self.sessions
            || self.has_taken(update)
            || is_named(&self.held, update)
    }

    /// Whether an update of this session and this number was delivered. With causal delivery the counts show it.
    fn has_taken(&self, update: &UpdateOf<O::Call>) -> bool
        requires { update.now.session < MAX_SESSIONS }
        ensures { result ≡ is_named self.now.taken update.now.session update.now.number }
    {
        match self.delivery {
            Delivery::Causal => update.number < self.counts()[usize::from(update.session)],
            Delivery::Eager => is_named(self.log.updates(), update),
        }
    }

    /// Whether an update may be delivered.
    fn is_ready(&self, update: &UpdateOf<O::Call>, counts: &[u64; MAX_SESSIONS]) -> bool
        requires { (s : ℕ) → s < MAX_SESSIONS → slice_index counts.now s ≡ many self.now.taken s }
        ensures { IsTrue result ↔ IsReady self.now update.now }
    {
        if update.session >= self.sessions {
            return false;
        }
        if update.number != counts[usize::from(update.session)] {
            return false;
        }
        has_seen(update, self.session, counts)
    }

    /// The updates that are held.
    fn held(&self) -> &[UpdateOf<O::Call>]
        ensures { result.now ≡ self.now.held }
    {
        &self.held
    }

    /// For each session how many of its updates were delivered.
    fn counts(&self) -> [u64; MAX_SESSIONS]
        ensures { (s : ℕ) → s < MAX_SESSIONS → slice_index result s ≡ many self.now.taken s }
    {
        self.log.counts()
    }

    /// The first held update that may be delivered, with its place.
    fn first_ready(&self) -> Option<(usize, UpdateOf<O::Call>)>
        ensures { MatchOption result (IsSettled self.now) (λ p. IsFirstReady self.now p.0 p.1) }
    {
        let counts = self.counts();
        let held = self.held();
        for at in 0..held.len() {
            let update = held[at];
            if self.is_ready(&update, &counts) {
                return Some((at, update));
            }
        }
        None
    }

    /// Takes in the update that is held at a place.
    fn release(&mut self, at: usize, update: UpdateOf<O::Call>)
        requires held { at < length self.old.held }
        requires causal { self.old.delivery ≡ Delivery.Causal }
        requires ready { IsReady self.old update }
        ensures { self.new ≡ release P.place self.old at update }
    {
        let _ = self.held.remove(at);
        self.log.take_in(update);
        self.clock = self.clock.max(update.stamp);
    }

    /// Takes held updates in until none may be.
    #[tactic(auto, using(crate::proofs::Settling::settles_here))]
    fn settle(&mut self)
        requires { self.old.delivery ≡ Delivery.Causal }
        ensures { Settles P.place self.old self.new }
    {
        while let Some((at, update)) = self.first_ready() {
            self.release(at, update);
        }
    }

    /// Holds an update back.
    fn hold(&mut self, update: UpdateOf<O::Call>) -> Result<(), AllocError>
        ensures held { OnOk result (self.new ≡ hold self.old update) }
        ensures unchanged { OnErr result (self.new ≡ self.old) }
    {
        self.log.reserve(self.held.len() + 1)?;
        self.held.push(update)?;
        Ok(())
    }

    /// Takes an update in at once.
    fn take_now(&mut self, update: UpdateOf<O::Call>) -> Result<(), AllocError>
        requires eager { self.old.delivery ≡ Delivery.Eager }
        requires unknown { ignores self.old update ≡ false }
        ensures taken { OnOk result (self.new ≡ take_in P.place self.old update) }
        ensures unchanged { OnErr result (self.new ≡ self.old) }
    {
        self.log.reserve(self.held.len() + 1)?;
        self.log.take_in(update);
        self.clock = self.clock.max(update.stamp);
        Ok(())
    }

    /// The order that the advice on the next operation reports.
    fn told_order(&self) -> Result<Delivered, AllocError>
        ensures { IfOk result (λ o. o ≡ (if P.told then writers self.now.taken ++ self.now.session ∷ [] else [])) }
    {
        if P::is_told() {
            let order = writers(self.alloc, self.log.updates(), self.session)?;
            Ok(Delivered::of(order))
        } else {
            Ok(Delivered::of(Vec::new(self.alloc)))
        }
    }

    /// The advice on the next operation.
    fn next_advice(&self) -> Result<Advice, AllocError>
        requires { CanAct self.now }
        ensures { IfOk result (λ a. IsAdvice P.told self.now a) }
    {
        let order = self.told_order()?;
        let mut counts = self.log.ends();
        counts[usize::from(self.session)] = self.operations + 1;
        Ok(Advice {
            counts,
            stamp: self.clock + 1,
            order,
        })
    }

    /// The update of the next operation.
    fn own_update(&self, call: O::Call) -> UpdateOf<O::Call>
        requires { CanAct self.now }
        ensures { IsOwnUpdate self.now call result }
    {
        let mut seen = self.log.counts();
        let session = usize::from(self.session);
        let number = seen[session];
        seen[session] = 0;
        UpdateOf {
            session: self.session,
            index: self.operations as u8,
            number,
            stamp: self.clock + 1,
            call,
            seen,
        }
    }

    /// The next operation, a query.
    fn ask(&mut self, call: O::Call) -> Result<O::Ret, AllocError>
        requires can { CanAct self.old }
        requires query { O.query call ≡ true }
        ensures reply { IfOk result (λ r. IsAnswer O.query O.answer self.old.start (calls self.old.taken) call r) }
        ensures state { OnOk result (self.new ≡ after_operation self.old None) }
        ensures unchanged { OnErr result (self.new ≡ self.old) }
    {
        let ret = self.log.ask(call)?;
        self.operations += 1;
        self.clock += 1;
        Ok(ret)
    }

    /// The next operation, which has this update.
    fn enter(&mut self, update: UpdateOf<O::Call>) -> Result<O::Ret, AllocError>
        requires can { CanAct self.old }
        requires own { IsOwnUpdate self.old update.call update }
        ensures reply { IfOk result (λ r. IsAnswer O.query O.answer self.old.start (calls self.old.taken) update.call r) }
        ensures state { OnOk result (self.new ≡ after_operation self.old (Some update)) }
        ensures unchanged { OnErr result (self.new ≡ self.old) }
    {
        self.log.reserve(self.held.len() + 1)?;
        let ret = self.log.enter(update)?;
        self.operations += 1;
        self.clock += 1;
        Ok(ret)
    }

    /// The next operation, of a session that may have one.
    fn act_within(&mut self, call: O::Call) -> Result<ActedOf<O::Call, O::Ret>, AllocError>
        requires { CanAct self.old }
        ensures reply { IfOk result (λ a. IsAnswer O.query O.answer self.old.start (calls self.old.taken) call a.ret) }
        ensures update { IfOk result (λ a. MatchOption a.update (O.query call ≡ true)
            (λ u. (O.query call ≡ false) × IsOwnUpdate self.old call u)) }
        ensures advice { IfOk result (λ a. IsAdvice P.told self.old a.advice) }
        ensures state { IfOk result (λ a. self.new ≡ after_operation self.old a.update) }
        ensures unchanged { OnErr result (self.new ≡ self.old) }
    {
        let advice = self.next_advice()?;
        if O::is_query(&call) {
            let ret = self.ask(call)?;
            return Ok(ActedOf {
                ret,
                update: None,
                advice,
            });
        }
        let update = self.own_update(call);
        let ret = self.enter(update)?;
        Ok(ActedOf {
            ret,
            update: Some(update),
            advice,
        })
    }

    /// The session's next operation: what its call returns, its update, and its advice.
    ///
    /// The return is the object's answer after the updates delivered and the own ones, in the replica's order, also with any
    /// queries put between them. A query has no update. The clock rises by one.
    ///
    /// Refused in this order: `LaneFull` after 256 operations, `ClockFull` if the clock is at the greatest `u64`,
    /// `Memory`. The replica is then as before.
    ///
    /// O(k), and O(n) for n updates delivered if the store reports their order, beside what the object takes to apply updates and
    /// to be copied. The object applies each update that came since the last operation. If one of these came in before others that
    /// it has applied, it goes on from a copy of its state before that place: with m updates after the place, it applies 4m + 64
    /// at most. A copy is made if 64 updates were applied since the last one, and three times as many as are left to apply:
    /// one for each 64 updates that come in after the others, O(log m) if m are applied anew. A store in whose order each
    /// update goes after the others makes none.
    pub fn act(&mut self, call: O::Call) -> Result<ActedOf<O::Call, O::Ret>, ReplicaError>
        ensures reply { IfOk result (λ a. IsAnswer O.query O.answer self.old.start (calls self.old.taken) call a.ret) }
        ensures update { IfOk result (λ a. MatchOption a.update (O.query call ≡ true)
            (λ u. (O.query call ≡ false) × IsOwnUpdate self.old call u)) }
        ensures advice { IfOk result (λ a. IsAdvice P.told self.old a.advice) }
        ensures state { IfOk result (λ a. self.new ≡ after_operation self.old a.update) }
        ensures refused { IfErr result (λ e. RefusesOperation self.old e) }
        ensures unchanged { OnErr result (self.new ≡ self.old) }
    {
        if usize::from(self.operations) >= MAX_OPERATIONS {
            return Err(ReplicaError::LaneFull);
        }
        if self.clock == u64::MAX {
            return Err(ReplicaError::ClockFull);
        }
        Ok(self.act_within(call)?)
    }

    /// Receives an update of another session.
    ///
    /// An update of the own session, of a session not below `k`, or one whose session and number are those of an update that
    /// was delivered or is held, changes nothing. Eager delivery delivers any other at once. Causal delivery holds it back until
    /// it is the next of its session and all that its writer had delivered of third sessions was delivered here; if several
    /// held updates may be delivered, the one that was received first goes first.
    ///
    /// Fails with `Memory` alone, and the replica is then as before.
    ///
    /// With causal delivery O(h + k²) for h updates held, and as much again for each that is delivered: the counts show what was
    /// delivered. With eager delivery O(n + h) for n updates delivered: any of a session's updates may be missing. An update that
    /// is delivered takes its place in O(log n + m) if m updates are after it, and drops the copies of the object that were
    /// made after that place.
    pub fn receive(&mut self, update: UpdateOf<O::Call>) -> Result<(), ReplicaError>
        ensures ignored { OnOk result (ignores self.old update ≡ true → self.new ≡ self.old) }
        ensures eager { OnOk result (ignores self.old update ≡ false → self.old.delivery ≡ Delivery.Eager
            → self.new ≡ take_in P.place self.old update) }
        ensures causal { OnOk result (ignores self.old update ≡ false → self.old.delivery ≡ Delivery.Causal
            → Settles P.place (hold self.old update) self.new) }
        ensures refused { IfErr result (λ e. e ≡ ReplicaError.Memory) }
        ensures unchanged { OnErr result (self.new ≡ self.old) }
    {
        if self.ignores(&update) {
            return Ok(());
        }
        match self.delivery {
            Delivery::Eager => {
                self.take_now(update)?;
                Ok(())
            }
            Delivery::Causal => {
                self.hold(update)?;
                self.settle();
                Ok(())
            }
        }
    }
}

/// Whether one of the updates has the session and the number of this one.
fn is_named<C: Copy>(updates: &[UpdateOf<C>], update: &UpdateOf<C>) -> bool
    ensures { result ≡ is_named updates.now update.now.session update.now.number }
{
    updates.iter().any(|other| update.session == other.session && update.number == other.number)
}

/// Whether all that an update's writer had delivered of a session was delivered. True for the writer's own session and for this one.
fn is_seen<C: Copy>(
    update: &UpdateOf<C>,
    session: u8,
    counts: &[u64; MAX_SESSIONS],
    s: usize,
) -> bool
    requires { s < MAX_SESSIONS }
    ensures { IsTrue result ↔ (s ≢ update.now.session → s ≢ session → slice_index update.now.seen s ≤ slice_index counts.now s) }
{
    if s == usize::from(update.session) {
        return true;
    }
    if s == usize::from(session) {
        return true;
    }
    update.seen[s] <= counts[s]
}

/// Whether all that an update's writer had delivered of sessions other than its own and this one was delivered.
fn has_seen<C: Copy>(update: &UpdateOf<C>, session: u8, counts: &[u64; MAX_SESSIONS]) -> bool
    ensures { IsTrue result ↔ ((s : ℕ) → s < MAX_SESSIONS → s ≢ update.now.session → s ≢ session
        → slice_index update.now.seen s ≤ slice_index counts.now s) }
{
    for s in 0..MAX_SESSIONS {
        if !is_seen(update, session, counts, s) {
            return false;
        }
    }
    true
}

/// The sessions of the updates, and one more.
fn writers<C: Copy>(alloc: Global, updates: &[UpdateOf<C>], last: u8) -> Result<Vec<u8>, AllocError>
    ensures { IfOk result (λ v. v.items ≡ writers updates.now ++ last ∷ []) }
{
    let mut order = Vec::new(alloc);
    for update in updates {
        order.push(update.session)?;
    }
    order.push(last)?;
    Ok(order)
}
