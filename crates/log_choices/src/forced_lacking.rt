//! The null reads that are found to be left with no candidate.

ghost use Rattle.std.specs.Prelude.{Bool, IfOk, List, OnOk};
ghost use Rattle.log_events.specs.declared.event.Event.{Event as Happened};
ghost use Rattle.log_choices.specs.Exclusions.{IsLackingRead};
ghost use Rattle.log_choices.specs.Forced.{LacksCandidates};
ghost use Rattle.log_choices.specs.ForcedSteps.{AreLacking, GetsNothing, IsPast, IsPlan};

use crate::exclusions::LackingRead;
use crate::forced_looks::NullRead;
use crate::forced_plan::Plan;
use crate::timed::Timed;
use std::alloc::{AllocError, Global};
use std::mem;

/// The null reads that are found to be left with no candidate.
#[derive(Drop)]
pub(crate) struct Lacking {
    /// The places of their begins, as they were found.
    pub(crate) places: Vec<u32>,
    /// The first that was found, and why.
    pub(crate) first: Option<LackingRead>,
}

impl Lacking {
    /// None was found.
    pub(crate) fn none(alloc: Global) -> Lacking
        ensures { (in_time : Bool) (es : List Happened) → AreLacking in_time es result }
    {
        Lacking {
            places: Vec::new(alloc),
            first: None,
        }
    }

    /// Adds a read, where `past` is what comes before it.
    ///
    /// Fails for want of memory alone. O(1), and for the first read the cost of a look at it.
    pub(crate) fn add(
        &mut self,
        alloc: Global,
        timed: &Timed<'_>,
        plan: &Plan,
        read: NullRead,
        past: &[u32],
    ) -> Result<(), AllocError>
        requires plan { IsPlan timed.now.in_time timed.now.log.now plan.now }
        requires read { GetsNothing timed.now.log.now read }
        requires past { IsPast timed.now.in_time timed.now.log.now past.now read.place }
        requires lacks { LacksCandidates timed.now.in_time timed.now.log.now read.place }
        requires known { AreLacking timed.now.in_time timed.now.log.now self.old }
        ensures { OnOk result (AreLacking timed.now.in_time timed.now.log.now self.new) }
    {
        self.places.push(read.place)?;
        if self.first.is_none() {
            let read = plan.lacking_read(alloc, timed, read, past)?;
            drop(mem::replace(&mut self.first, Some(read)));
        }
        Ok(())
    }
}

impl Plan {
    /// Why a read has no candidate, where `past` is what comes before it.
    ///
    /// Fails for want of memory alone. O(k log n + d (k + log n)) for n writes, k clients and d deletes of the key.
    fn lacking_read(
        &self,
        alloc: Global,
        timed: &Timed<'_>,
        read: NullRead,
        past: &[u32],
    ) -> Result<LackingRead, AllocError>
        requires plan { IsPlan timed.now.in_time timed.now.log.now self.now }
        requires read { GetsNothing timed.now.log.now read }
        requires past { IsPast timed.now.in_time timed.now.log.now past.now read.place }
        requires lacks { LacksCandidates timed.now.in_time timed.now.log.now read.place }
        ensures { IfOk result (IsLackingRead timed.now.in_time timed.now.log.now) }
    {
        let replacing = self.replacing(alloc, timed, read, past)?;
        let deletes = self.deletes_of(read.key);
        let exclusions = self.exclusions(alloc, timed, deletes, read, &replacing)?;
        Ok(LackingRead {
            place: read.place,
            key: read.key,
            exclusions,
        })
    }
}
