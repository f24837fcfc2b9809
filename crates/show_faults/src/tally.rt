//! The faults of a history: some are listed, all are counted.

ghost use Rattle.std.specs.Prelude.{◌≡◌, ◌∷◌, ◌++◌, ◌+◌, ◌<◌, ◌≤◌, ℕ, List, [], Some, slice_get, OnOk};
ghost use Rattle.show_faults.specs.declared.counts.SessionFaults.{SessionFaults as ARow};
ghost use Rattle.show_faults.specs.declared.fault.Fault.{Fault as AFault};
ghost use Rattle.show_faults.specs.Faults.{IsListed, read_of};
ghost use Rattle.show_faults.specs.Found.{IsLastRow};
ghost use Rattle.show_faults.specs.Tallies.{AreBelow, AreSessionCounts, IsBelow, IsListedWith, IsTally};

use crate::broken::Broken;
use crate::counts::{FaultCounts, SessionFaults};
use crate::fault::Fault;
use std::alloc::{AllocError, Global};

/// The reads of a history that show a fault.
#[derive(Debug, Drop)]
pub struct Faults {
    /// The first ones, in the order of sessions and indices.
    pub listed: Vec<Fault>,
    /// How many there are.
    pub counts: FaultCounts,
    /// How many there are in each session that has one, in the order of sessions.
    pub by_session: Vec<SessionFaults>,
    /// Which guarantees the reads break that missed a write.
    pub broken: Broken,
    /// How many sessions the history has.
    pub sessions: u32,
    /// Whether the causal order has a cycle; then the search covers only reads of values that nobody wrote.
    pub has_cycle: bool,
}

impl Faults {
    /// No faults yet, of those that break these guarantees.
    pub(crate) fn none(alloc: Global, broken: Broken, sessions: u32, has_cycle: bool) -> Faults
        ensures tally { (most : ℕ) → IsTally [] most result.listed.items result.counts result.by_session.items }
        ensures broken { result.broken ≡ broken }
        ensures sessions { result.sessions ≡ sessions }
        ensures cycle { result.has_cycle ≡ has_cycle }
    {
        Faults {
            listed: Vec::new(alloc),
            counts: FaultCounts::none(),
            by_session: Vec::new(alloc),
            broken,
            sessions,
            has_cycle,
        }
    }

    /// Counts one more fault, of the last session or a later one, and lists it unless so many are listed already.
    ///
    /// Fails for want of memory alone.
    pub(crate) fn add(&mut self, fault: Fault, most: usize) -> Result<(), AllocError>
        requires small { IsBelow self.old.counts 4_294_967_295 }
        requires small_rows { AreBelow self.old.by_session.items 4_294_967_295 }
        requires session { (read_of fault).session < 4_294_967_296 }
        ensures tally { OnOk result ((all : List AFault)
            → ((f : AFault) → IsListed all f → (read_of f).session ≤ (read_of fault).session)
            → IsTally all most self.old.listed.items self.old.counts self.old.by_session.items
            → IsTally (all ++ fault ∷ []) most self.new.listed.items self.new.counts self.new.by_session.items) }
        ensures broken { self.new.broken ≡ self.old.broken }
        ensures sessions { self.new.sessions ≡ self.old.sessions }
        ensures cycle { self.new.has_cycle ≡ self.old.has_cycle }
    {
        push_within(&mut self.listed, fault, most)?;
        add_to_session(&mut self.by_session, fault)?;
        self.counts.add(fault);
        Ok(())
    }
}

/// Pushes a fault to a list of the first ones, unless it has so many already.
fn push_within(listed: &mut Vec<Fault>, fault: Fault, most: usize) -> Result<(), AllocError>
    ensures { OnOk result (IsListedWith most fault listed.old.items listed.new.items) }
{
    if listed.len() < most {
        listed.push(fault)?;
    }
    Ok(())
}

/// Counts a fault in the row of its session: the last row, or a new one.
fn add_to_session(rows: &mut Vec<SessionFaults>, fault: Fault) -> Result<(), AllocError>
    requires small { (j : ℕ) (row : ARow) → slice_get rows.old.items j ≡ Some row → IsBelow row.counts 4_294_967_295 }
    requires session { (read_of fault).session < 4_294_967_296 }
    ensures { OnOk result ((all : List AFault) → ((f : AFault) → IsListed all f → (read_of f).session ≤ (read_of fault).session)
        → AreSessionCounts all rows.old.items → AreSessionCounts (all ++ fault ∷ []) rows.new.items) }
{
    let session = fault.read().session as u32;
    match last_row(rows, session) {
        Some(place) => rows[place] = rows[place].with(fault),
        None => rows.push(SessionFaults::of(session, fault))?,
    }
    Ok(())
}

/// The place of the last row, if that is the row of a session.
fn last_row(rows: &[SessionFaults], session: u32) -> Option<usize>
    ensures { IsLastRow rows.now session result }
{
    let last = rows.len().checked_sub(1)?;
    if rows[last].session == session {
        Some(last)
    } else {
        None
    }
}
