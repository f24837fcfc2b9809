//! The one walk through all operations; walks through closed sets of operations are cut from it.

ghost use Rattle.std.specs.Prelude.{◌≡◌, ◌≤◌, ℕ, List, [], length, slice_index_or, take, IfOk};
ghost use Rattle.order_causal.specs.Schedules.{placed};
ghost use Rattle.order_causal.specs.Topological.{AreSquare};
ghost use Rattle.order_causal.specs.Vectors.{AreVectorsOf};
ghost use Rattle.cert_make_cc.specs.Steps.Cuts.{AgreeUpTo, ArePlaces, IsWalkOfAll};

use model_history::{History, MAX_SESSIONS};
use model_object_trait::SeqObject;
use order_causal::{Rows, Vectors, Walk};
use std::alloc::{AllocError, Global};
use std::marker::Model;

/// A walk, and the place of each operation in it.
#[derive(Drop)]
pub struct WholeWalk {
    walk: Walk,
    /// For each session, for each of its operations, how many operations the walk places before it.
    places: Rows<usize>,
}

impl Model for WholeWalk {
    ghost Value = { List ℕ };

    ghost view = { λ whole. whole.walk };

    ghost invariant = { λ whole. ArePlaces whole.walk whole.places };
}

impl WholeWalk {
    /// The session of each placed operation, in order.
    pub fn schedule(&self) -> &[u8]
        ensures { result.now ≡ self.now }
    {
        self.walk.schedule()
    }

    /// How many operations are placed before the first one that is below one of two limits of its session and not below the
    /// other. O(k) for k sessions.
    pub fn common(&self, limits: &[u16], others: &[u16]) -> usize
        requires { length limits.now ≡ length others.now }
        ensures { AgreeUpTo self.now limits.now others.now result }
    {
        let mut common = self.schedule().len();
        for session in 0..limits.len() {
            if limits[session] != others[session] {
                let first = limits[session].min(others[session]);
                common = common.min(self.place_of(session, usize::from(first)));
            }
        }
        common
    }

    /// How many operations are placed before an operation: 0 where it isn't placed. O(1).
    fn place_of(&self, session: usize, index: usize) -> usize
        ensures { placed (take result self.now) session ≤ index }
    {
        if session >= self.places.len() {
            return 0;
        }
        match self.places.get(session).get(index) {
            Some(place) => *place,
            None => 0,
        }
    }
}

/// A walk through all operations of a history by the topological rule.
///
/// Fails for want of memory alone. O(n k) for n operations of k sessions.
pub fn walk_of_all<O: SeqObject>(
    alloc: Global,
    h: &History<O>,
    vectors: &Vectors,
) -> Result<WholeWalk, AllocError>
    requires shape { AreVectorsOf h.now vectors.now }
    requires square { AreSquare vectors.now }
    ensures { IfOk result (IsWalkOfAll vectors.now) }
{
    let mut ends = Vec::new(alloc);
    for session in 0..h.sessions() {
        ends.push(h.len(session) as u16)?;
    }
    let mut walk = Walk::new(alloc);
    walk.run_to(vectors, &ends)?;
    let places = places_of(alloc, walk.schedule(), h.sessions())?;
    Ok(WholeWalk { walk, places })
}

/// For each of so many sessions, for each of its operations, how many operations a schedule places before it.
///
/// Fails for want of memory alone. O(n k) for n operations of k sessions.
fn places_of(alloc: Global, schedule: &[u8], sessions: usize) -> Result<Rows<usize>, AllocError>
    ensures { IfOk result (ArePlaces schedule.now) }
{
    let mut places = Rows::new(alloc);
    for session in 0..sessions {
        places.push(&places_in(alloc, schedule, session)?)?;
    }
    Ok(places)
}

/// For each operation of a session, how many operations a schedule places before it.
///
/// Fails for want of memory alone. O(n) for n operations.
fn places_in(alloc: Global, schedule: &[u8], session: usize) -> Result<Vec<usize>, AllocError>
    ensures { IfOk result (λ places. (i : ℕ) → placed (take (slice_index_or places.items i 0) schedule.now) session ≤ i) }
{
    let mut places = Vec::new(alloc);
    for (place, named) in schedule.iter().enumerate() {
        if usize::from(*named) == session {
            places.push(place)?;
        }
    }
    Ok(places)
}
