//! Walks through closed sets of operations, each cut from the one walk through all operations.

ghost use Rattle.std.specs.Prelude.{◌≡◌, ◌≤◌, ◌<◌, ◌-◌, ◌∷◌, ◌++◌, ℕ, List, [], length, slice_index_or, IfOk, OnOk};
ghost use Rattle.order_causal.specs.Schedules.{placed};
ghost use Rattle.order_causal.specs.Topological.{AreSquare, IsFullWalk};
ghost use Rattle.order_causal.proofs.Walked.{room};
ghost use Rattle.cert_make_cc.specs.Steps.Cuts.{AreClosed, IsCut, IsWalkOfAll};

use crate::whole_walk::WholeWalk;
use model_history::MAX_SESSIONS;
use order_causal::{MAX_PLACED, Vectors, Walk};
use std::alloc::{AllocError, Global};

/// What a walk through all operations places below some limits, in its order, perhaps with more after it. It changes to other
/// limits from the place where the walk has the first operation that is below only one of the two limits.
#[derive(Drop)]
pub struct Cutting {
    walk: Walk,
    limits: Vec<u16>,
    /// For each examined operation of the whole walk, how many are placed before it; and as the last entry how many in all.
    starts: Vec<usize>,
}

impl Cutting {
    /// An empty walk, with limits of 0.
    ///
    /// Fails for want of memory alone.
    pub fn new(alloc: Global, sessions: usize) -> Result<Cutting, AllocError>
        ensures size { IfOk result (λ cutting. length cutting.limits.items ≡ sessions) }
        ensures cut { IfOk result (λ cutting. (whole : List ℕ) → IsCut whole cutting.limits.items cutting.starts.items cutting.walk) }
    {
        let limits = vec![in alloc; 0; sessions]?;
        let starts = vec![in alloc; 0]?;
        Ok(Cutting {
            walk: Walk::new(alloc),
            limits,
            starts,
        })
    }

    /// The session of each placed operation, in order.
    pub fn schedule(&self) -> &[u8]
        ensures { result.now ≡ self.now.walk }
    {
        self.walk.schedule()
    }

    /// Changes to the full walk to other limits, which have with each operation all that its vector counts.
    ///
    /// Fails for want of memory alone. O(k + m) for k sessions and m operations of the whole walk from the first one that is
    /// below the limits before or these and not below both, up to the last one that is below either.
    pub fn cut_to(
        &mut self,
        vectors: &Vectors,
        whole: &WholeWalk,
        limits: Vec<u16>,
    ) -> Result<(), AllocError>
        requires few { length vectors.now ≤ MAX_SESSIONS }
        requires whole { IsWalkOfAll vectors.now whole.now }
        requires limits { length limits.items ≡ length vectors.now }
        requires closed { AreClosed vectors.now limits.items }
        requires size { length self.old.limits.items ≡ length vectors.now }
        requires cut { IsCut whole.now self.old.limits.items self.old.starts.items self.old.walk }
        ensures size { OnOk result (length self.new.limits.items ≡ length vectors.now) }
        ensures cut { OnOk result (IsCut whole.now self.new.limits.items self.new.starts.items self.new.walk) }
        ensures full { OnOk result (IsFullWalk vectors.now limits.items [] self.new.walk) }
    {
        let common = whole
            .common(&self.limits, &limits)
            .min(self.starts.len() - 1);
        self.walk.cut(self.starts[common]);
        self.starts.truncate(common + 1);
        self.limits = limits;
        self.go_on(vectors, whole)
    }

    /// Goes on over the whole walk until the limits are reached.
    fn go_on(&mut self, vectors: &Vectors, whole: &WholeWalk) -> Result<(), AllocError>
        requires few { length vectors.now ≤ MAX_SESSIONS }
        requires whole { IsWalkOfAll vectors.now whole.now }
        requires limits { length self.old.limits.items ≡ length vectors.now }
        requires closed { AreClosed vectors.now self.old.limits.items }
        requires cut { IsCut whole.now self.old.limits.items self.old.starts.items self.old.walk }
        requires end { length self.old.walk ≡ slice_index_or self.old.starts.items (length self.old.starts.items - 1) 0 }
        ensures limits { self.new.limits.items ≡ self.old.limits.items }
        ensures cut { OnOk result (IsCut whole.now self.old.limits.items self.new.starts.items self.new.walk) }
        ensures full { OnOk result (IsFullWalk vectors.now self.old.limits.items [] self.new.walk) }
    {
        let mut left = room_of(&self.limits, &self.walk);
        for place in self.starts.len() - 1..whole.schedule().len() {
            if left == 0 {
                return Ok(());
            }
            let session = usize::from(whole.schedule()[place]);
            if self.walk.placed(session) < usize::from(self.limits[session]) {
                self.walk.place(session)?;
                left -= 1;
            }
            self.starts.push(self.walk.schedule().len())?;
        }
        Ok(())
    }

    /// Places the next operation of a session after what is cut, and then goes on by the topological rule up to some limits.
    ///
    /// Fails for want of memory alone. O(p k + k^2) for p operations that are placed and k sessions.
    pub fn run_behind(
        &mut self,
        vectors: &Vectors,
        session: usize,
        limits: &[u16],
    ) -> Result<(), AllocError>
        requires few { length vectors.now ≤ MAX_SESSIONS }
        requires square { AreSquare vectors.now }
        requires limits { length limits.now ≡ length vectors.now }
        requires exists { session < MAX_SESSIONS }
        requires room { placed self.old.walk session < MAX_PLACED }
        ensures limits { self.new.limits.items ≡ self.old.limits.items }
        ensures cut { (whole : List ℕ) → IsCut whole self.old.limits.items self.old.starts.items self.old.walk
            → OnOk result (IsCut whole self.new.limits.items self.new.starts.items self.new.walk) }
        ensures rule { OnOk result (IsFullWalk vectors.now limits.now (self.old.walk ++ session ∷ []) self.new.walk) }
    {
        self.walk.place(session)?;
        self.walk.run_to(vectors, limits)
    }
}

/// How many operations below the limits the walk has not placed.
fn room_of(limits: &[u16], walk: &Walk) -> usize
    requires { length limits.now ≤ MAX_SESSIONS }
    ensures { room (length limits.now) limits.now walk.now ≤ result }
{
    let mut room: usize = 0;
    for (session, limit) in limits.iter().enumerate() {
        room += usize::from(*limit).saturating_sub(walk.placed(session));
    }
    room
}
