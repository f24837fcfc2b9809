//! The row of each entry of a lane: below the entry before it, and below the writes that it reads from.

use crate::lanes::Lane;
use crate::marks::{Joint, Relation};
use model_history::OpId;
use std::alloc::{AllocError, Global};

/// The place of an entry: its lane, its number in the lane, and its row.
#[derive(Clone, Copy, PartialEq, Eq)]
pub(crate) struct Place {
    pub lane: usize,
    pub entry: usize,
    pub row: u64,
}

/// Lanes with the row of each entry.
#[derive(Drop)]
pub(crate) struct LaneRows<'a> {
    lanes: &'a [Lane],
    rows: Vec<Vec<u64>>,
}

// A row for the next entry of a lane, and whether all that the entry reads from has a row already.
#[derive(Clone, Copy)]
struct Next {
    lane: usize,
    row: u64,
    is_ready: bool,
}

/// The rows of lanes. An entry is below those that it reads from, unless that goes round in a circle.
///
/// Fails for want of memory alone. O(n k m) for n entries of k lanes and m joints.
pub(crate) fn rows_of<'a>(
    alloc: Global,
    lanes: &'a [Lane],
    joints: &[Joint],
) -> Result<LaneRows<'a>, AllocError> {
    let mut rows = LaneRows::none(alloc, lanes)?;
    for _ in 0..entries_of(lanes) {
        let Some(next) = rows.choice(joints) else {
            return Ok(rows);
        };
        rows.put(next)?;
    }
    Ok(rows)
}

// How many entries there are.
fn entries_of(lanes: &[Lane]) -> usize {
    let mut count: usize = 0;
    for lane in lanes {
        count = count.saturating_add(lane.entries.len());
    }
    count
}

impl<'a> LaneRows<'a> {
    // No entry has a row.
    fn none(alloc: Global, lanes: &'a [Lane]) -> Result<LaneRows<'a>, AllocError> {
        let mut rows = Vec::new(alloc);
        for _ in lanes {
            rows.push(Vec::new(alloc))?;
        }
        Ok(LaneRows { lanes, rows })
    }

    /// The lanes.
    pub fn lanes(&self) -> &'a [Lane] {
        self.lanes
    }

    /// The row of an entry of a lane, if it has one.
    pub fn row(&self, lane: usize, entry: usize) -> Option<u64> {
        match self.rows.get(lane) {
            Some(rows) => rows.get(entry).copied(),
            None => None,
        }
    }

    /// How many rows there are.
    pub fn count(&self) -> u64 {
        let mut count: u64 = 0;
        for rows in &self.rows {
            count = count.max(height_of(rows));
        }
        count
    }

    /// The place of an operation, if it is shown.
    pub fn place(&self, op: OpId) -> Option<Place> {
        for (number, lane) in self.lanes.iter().enumerate() {
            if lane.session == op.session {
                return self.place_in(number, lane, op);
            }
        }
        None
    }

    // The place of an operation of a lane, if it has a row.
    fn place_in(&self, number: usize, lane: &Lane, op: OpId) -> Option<Place> {
        let entry = entry_of(lane, op)?;
        let row = self.row(number, entry)?;
        Some(Place {
            lane: number,
            entry,
            row,
        })
    }

    // The next entry that gets a row: the first that is ready, or else the first of all.
    fn choice(&self, joints: &[Joint]) -> Option<Next> {
        let mut choice: Option<Next> = None;
        for number in 0..self.lanes.len() {
            if let Some(next) = self.next(number, joints) {
                if next.is_ready {
                    return Some(next);
                }
                choice = choice.or(Some(next));
            }
        }
        choice
    }

    // The row for the next entry of a lane, if one is left.
    fn next(&self, number: usize, joints: &[Joint]) -> Option<Next> {
        let rows = self.rows.get(number)?;
        let entry = self.lanes.get(number)?.entries.get(rows.len())?;
        let least = Next {
            lane: number,
            row: height_of(rows),
            is_ready: true,
        };
        Some(match entry.op() {
            Some(op) => self.below_sources(least, op, joints),
            None => least,
        })
    }

    // The row for an operation, moved down below what it reads from.
    fn below_sources(&self, least: Next, op: OpId, joints: &[Joint]) -> Next {
        let mut next = least;
        for joint in joints {
            if joint.to == op && joint.relation == Relation::ReadsFrom {
                next = self.below(next, joint.from);
            }
        }
        next
    }

    // The row for an operation, moved down below another, which may have no row yet.
    fn below(&self, next: Next, source: OpId) -> Next {
        match self.place(source) {
            Some(place) => Next {
                row: next.row.max(place.row.saturating_add(1)),
                ..next
            },
            None => Next {
                is_ready: false,
                ..next
            },
        }
    }

    // Gives the next entry of a lane its row.
    fn put(&mut self, next: Next) -> Result<(), AllocError> {
        match self.rows.get_mut(next.lane) {
            Some(rows) => Ok(rows.push(next.row)?),
            None => Ok(()),
        }
    }
}

// The row below the last of a lane.
fn height_of(rows: &[u64]) -> u64 {
    match rows.last() {
        Some(row) => row.saturating_add(1),
        None => 0,
    }
}

// The number of an operation among the entries of its lane, where it is shown.
fn entry_of(lane: &Lane, op: OpId) -> Option<usize> {
    for (number, entry) in lane.entries.iter().enumerate() {
        if entry.op() == Some(op) {
            return Some(number);
        }
    }
    None
}
