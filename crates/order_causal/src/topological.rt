//! A walk that places operations by the topological rule: each one after those that happen before it.

ghost use Rattle.std.specs.Prelude.{◌≡◌, ◌≢◌, ◌∷◌, ◌++◌, ◌-◌, ◌<◌, ◌≤◌, ◌↔◌, ℕ, [], length, max, take, slice_index_or};
ghost use Rattle.std.specs.Prelude.{MatchOption, OnErr, OnOk, IsTrue};
ghost use Rattle.order_causal.specs.Schedules.{placed};
ghost use Rattle.order_causal.specs.Topological.{AreSeen, AreSquare, CanGoOn, IsFullWalk, IsNext, IsWalk};

use crate::by_operation::Vectors;
use model_history::{MAX_SESSIONS, OpId};
use std::alloc::{AllocError, Global};
use std::marker::Model;

/// How many operations of one session a walk can place.
pub const MAX_PLACED: usize = 65536;

/// A walk through operations of at most 16 sessions: which are placed, and in what order.
#[derive(Drop)]
pub struct Walk {
    placed: [u32; MAX_SESSIONS],
    schedule: Vec<u8>,
}

impl Model for Walk {
    ghost use Rattle.std.specs.Prelude.{List, ℕ};
    ghost use Rattle.order_causal.specs.Topological.{IsTally};
    ghost use Rattle.model_history.specs.declared.limits.TheConstants.{MAX_SESSIONS};

    ghost Value = { List ℕ };

    ghost view = { λ walk. walk.schedule.items };

    ghost invariant = { λ walk. IsTally MAX_SESSIONS walk.schedule.items walk.placed };
}

impl Walk {
    /// A walk that has placed nothing.
    pub fn new(alloc: Global) -> Walk
        ensures { result ≡ [] }
    {
        Walk {
            placed: [0; MAX_SESSIONS],
            schedule: Vec::new(alloc),
        }
    }

    /// For each placed operation its session, in order.
    pub fn schedule(&self) -> &[u8]
        ensures { result.now ≡ self.now }
    {
        self.schedule.as_slice()
    }

    /// For each placed operation its session, in order.
    pub fn into_schedule(self) -> Vec<u8>
        ensures { result.items ≡ self }
    {
        self.schedule
    }

    /// How many operations of a session are placed. O(1).
    pub fn placed(&self, session: usize) -> usize
        ensures { result ≡ placed self.now session }
    {
        match self.placed.get(session) {
            Some(placed) => *placed as usize,
            None => 0,
        }
    }

    /// Places the next operation of a session, whether it can follow or not.
    ///
    /// Fails for want of memory alone, and the walk is then as it was. O(1), on average.
    pub fn place(&mut self, session: usize) -> Result<(), AllocError>
        requires few { session < MAX_SESSIONS }
        requires room { placed self.old session < MAX_PLACED }
        ensures ok { OnOk result (self.new ≡ self.old ++ session ∷ []) }
        ensures err { OnErr result (self.new ≡ self.old) }
    {
        self.schedule.push(session as u8)?;
        self.placed[session] += 1;
        Ok(())
    }

    /// Takes back what was placed last, until no more than so many operations are placed. O(m) for m operations that are taken back.
    pub fn cut(&mut self, len: usize)
        ensures { self.new ≡ take len self.old }
    {
        while self.schedule.len() > len {
            self.take_back();
        }
    }

    /// Takes back the operation that was placed last, if there is one.
    fn take_back(&mut self)
        ensures { self.new ≡ take (length self.old - 1) self.old }
    {
        if let Some(session) = self.schedule.pop() {
            self.placed[session as usize] -= 1;
        }
    }

    /// Places operations by the topological rule: again and again the next one of the least session that can go on,
    /// until none can.
    ///
    /// A session can go on if its next operation has a vector, is below the session's limit, and all that its vector counts of
    /// other sessions is placed. Fails for want of memory alone, and then the operations that the rule has placed stay placed.
    /// O(p k + k^2) for p operations that are placed and k sessions.
    pub fn run_to(&mut self, vectors: &Vectors, limits: &[u16]) -> Result<(), AllocError>
        requires few { length vectors.now ≤ MAX_SESSIONS }
        requires square { AreSquare vectors.now }
        requires limits { length limits.now ≡ length vectors.now }
        ensures rule { OnOk result (IsFullWalk vectors.now limits.now self.old self.new) }
        ensures err { OnErr result (IsWalk vectors.now limits.now self.old self.new) }
        ensures within { (s : ℕ) → placed self.new s ≤ max (placed self.old s) (slice_index_or limits.now s 0) }
    {
        let mut seen = [0; MAX_SESSIONS];
        while let Some(session) = self.next(vectors, limits, &mut seen) {
            self.place(session)?;
            seen[session] = 0;
        }
        Ok(())
    }

    /// The least session that can go on.
    fn next(
        &self,
        vectors: &Vectors,
        limits: &[u16],
        seen: &mut [usize; MAX_SESSIONS],
    ) -> Option<usize>
        requires few { length vectors.now ≤ MAX_SESSIONS }
        requires square { AreSquare vectors.now }
        requires limits { length limits.now ≡ length vectors.now }
        requires seen { AreSeen vectors.now self.now seen.old }
        ensures seen { AreSeen vectors.now self.now seen.new }
        ensures next { MatchOption result ((s : ℕ) → ¬ CanGoOn vectors.now limits.now self.now s) (IsNext vectors.now limits.now self.now) }
    {
        for session in 0..vectors.sessions() {
            if self.can_go_on(vectors, limits, session, seen) {
                return Some(session);
            }
        }
        None
    }

    /// Whether a session can go on.
    fn can_go_on(
        &self,
        vectors: &Vectors,
        limits: &[u16],
        session: usize,
        seen: &mut [usize; MAX_SESSIONS],
    ) -> bool
        requires few { length vectors.now ≤ MAX_SESSIONS }
        requires square { AreSquare vectors.now }
        requires limits { length limits.now ≡ length vectors.now }
        requires exists { session < length vectors.now }
        requires seen { AreSeen vectors.now self.now seen.old }
        ensures seen { AreSeen vectors.now self.now seen.new }
        ensures can { IsTrue result ↔ CanGoOn vectors.now limits.now self.now session }
    {
        let index = self.placed[session];
        if index >= u32::from(limits[session]) || index as usize >= vectors.operations(session) {
            return false;
        }
        let op = OpId::at(session, index as usize);
        let counts = vectors.get(op);
        let missing = self.first_missing(counts, session, seen[session]);
        seen[session] = missing;
        missing == counts.len()
    }

    /// The first session from `start` on, other than `own`, of which a vector counts more operations than are placed. If there is
    /// none, the number of sessions.
    pub(crate) fn first_missing(&self, counts: &[u16], own: usize, start: usize) -> usize
        requires { length counts.now ≤ MAX_SESSIONS }
        ensures bound { result ≤ length counts.now }
        ensures seen { (s : ℕ) → start ≤ s → s < result → s ≢ own → slice_index_or counts.now s 0 ≤ placed self.now s }
        ensures missing { result < length counts.now → result ≢ own }
        ensures not_placed { result < length counts.now → placed self.now result < slice_index_or counts.now result 0 }
    {
        for session in start..counts.len() {
            if session != own && self.placed[session] < u32::from(counts[session]) {
                return session;
            }
        }
        counts.len()
    }
}
