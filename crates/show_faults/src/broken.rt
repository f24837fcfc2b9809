//! Which guarantees the stale reads of a history break. Nobody trusts this: it says in other words what a list of faults shows.

ghost use Rattle.std.specs.Prelude.{◌≡◌, ◌≤◌, [], length, IfOk, OnOk};

use crate::direct_reads::DirectReads;
use judge_memory::{LongIndex, Part};
use show_words::{Guarantee, Names};
use std::alloc::{AllocError, Global};

/// How many reads break each guarantee.
#[derive(Clone, Copy, Debug, PartialEq, Eq)]
pub struct GuaranteeCounts {
    pub read_your_writes: u32,
    pub monotonic_reads: u32,
    pub monotonic_writes: u32,
    pub writes_follow_reads: u32,
    pub causal_order: u32,
}

/// What a listed read breaks: nothing if it returned a value that nobody wrote.
#[derive(Clone, Copy, Debug, PartialEq, Eq)]
pub struct Breaks {
    pub guarantee: Option<Guarantee>,
}

/// Which guarantees the reads break that missed a write: the first, in the order of guarantees, to which the missed write was due.
#[derive(Debug, Drop)]
pub struct Broken {
    /// How many reads break each.
    pub counts: GuaranteeCounts,
    /// What each listed read breaks, in the order of the list.
    pub listed: Vec<Breaks>,
}

impl GuaranteeCounts {
    /// How many reads break this one.
    pub fn of(self, guarantee: Guarantee) -> u32 {
        match guarantee {
            Guarantee::ReadYourWrites => self.read_your_writes,
            Guarantee::MonotonicReads => self.monotonic_reads,
            Guarantee::MonotonicWrites => self.monotonic_writes,
            Guarantee::WritesFollowReads => self.writes_follow_reads,
            Guarantee::CausalOrder => self.causal_order,
        }
    }

    // Counts one more read.
    fn add(&mut self, guarantee: Guarantee) {
        match guarantee {
            Guarantee::ReadYourWrites => one_more(&mut self.read_your_writes),
            Guarantee::MonotonicReads => one_more(&mut self.monotonic_reads),
            Guarantee::MonotonicWrites => one_more(&mut self.monotonic_writes),
            Guarantee::WritesFollowReads => one_more(&mut self.writes_follow_reads),
            Guarantee::CausalOrder => one_more(&mut self.causal_order),
        }
    }
}

// Adds one to a count.
fn one_more(count: &mut u32) {
    *count = count.saturating_add(1);
}

impl Broken {
    // Nothing is broken yet.
    fn none(alloc: Global) -> Broken
        ensures { result.listed.items ≡ [] }
    {
        Broken {
            counts: GuaranteeCounts {
                read_your_writes: 0,
                monotonic_reads: 0,
                monotonic_writes: 0,
                writes_follow_reads: 0,
                causal_order: 0,
            },
            listed: Vec::new(alloc),
        }
    }

    /// What the fault at a place of the list breaks.
    pub fn at(&self, place: usize) -> Option<Guarantee> {
        match self.listed.get(place) {
            Some(breaks) => breaks.guarantee,
            None => None,
        }
    }

    // Counts what one more read breaks, and lists it unless so many are listed already.
    fn add(&mut self, guarantee: Option<Guarantee>, most: usize) -> Result<(), AllocError>
        ensures { OnOk result (length self.old.listed.items ≤ most → length self.new.listed.items ≤ most) }
    {
        if let Some(guarantee) = guarantee {
            self.counts.add(guarantee);
        }
        if self.listed.len() < most {
            self.listed.push(Breaks { guarantee })?;
        }
        Ok(())
    }
}

/// Which guarantees the reads break that show a fault, where `missed` has for each operation the number after that of the latest write that
/// it missed, or 0. At most so many reads are listed.
///
/// Fails for want of memory alone. O(n (k + log n)) for n operations of k sessions, and O(n) if no write was missed.
pub(crate) fn broken_guarantees<N: Names>(
    alloc: Global,
    index: &LongIndex,
    names: &N,
    missed: &[u32],
    most: usize,
) -> Result<Broken, AllocError>
    ensures { IfOk result (λ broken. length broken.listed.items ≤ most) }
{
    let is_any_missed = missed.iter().any(|after| *after > 0);
    let mut reads = DirectReads::of(alloc, index, is_any_missed)?;
    let mut broken = Broken::none(alloc);
    for operation in 0..index.operations() {
        add_broken(index, &reads, missed, operation, most, &mut broken)?;
        reads.note(index, names, operation);
    }
    drop(reads);
    Ok(broken)
}

// Adds what an operation breaks, if it shows a fault.
fn add_broken(
    index: &LongIndex,
    reads: &DirectReads,
    missed: &[u32],
    operation: u32,
    most: usize,
    broken: &mut Broken,
) -> Result<(), AllocError>
    ensures { OnOk result (length broken.old.listed.items ≤ most → length broken.new.listed.items ≤ most) }
{
    let after = missed.get(operation as usize).copied().unwrap_or(0);
    if after > 0 {
        let links = reads.links(index, after - 1, operation);
        broken.add(Some(Guarantee::of_links(links)), most)
    } else if is_thin_air(index, operation) {
        broken.add(None, most)
    } else {
        Ok(())
    }
}

// Whether an operation is a read of a value that nobody wrote.
fn is_thin_air(index: &LongIndex, operation: u32) -> bool {
    operation < index.operations() && index.part(operation) == Part::ThinAirRead
}
