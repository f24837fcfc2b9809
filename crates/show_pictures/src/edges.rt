//! The edges that a picture draws: the joints whose operations are shown.

use crate::marks::{Joint, Relation};
use crate::rows::{LaneRows, Place};
use std::alloc::{AllocError, Global};

/// A joint between two boxes that are shown.
#[derive(Clone, Copy)]
pub(crate) struct Edge {
    pub from: Place,
    pub to: Place,
    pub relation: Relation,
}

/// A side of a box at which an edge begins or ends.
#[derive(Clone, Copy, PartialEq, Eq)]
pub(crate) enum Side {
    Left,
    Right,
    Top,
    Bottom,
}

/// The joints whose operations are both shown, in order.
///
/// Fails for want of memory alone. O(n m) for n entries and m joints.
pub(crate) fn edges_of(
    alloc: Global,
    rows: &LaneRows,
    joints: &[Joint],
) -> Result<Vec<Edge>, AllocError> {
    let mut edges = Vec::new(alloc);
    for joint in joints {
        if let Some(edge) = edge_of(rows, joint) {
            edges.push(edge)?;
        }
    }
    Ok(edges)
}

// The edge of a joint, where both its operations are shown.
fn edge_of(rows: &LaneRows, joint: &Joint) -> Option<Edge> {
    Some(Edge {
        from: rows.place(joint.from)?,
        to: rows.place(joint.to)?,
        relation: joint.relation,
    })
}

/// Whether some edge is of a relation.
pub(crate) fn are_of(edges: &[Edge], relation: Relation) -> bool {
    for edge in edges {
        if edge.relation == relation {
            return true;
        }
    }
    false
}

impl Edge {
    /// Whether it goes straight down to the next entry of its lane.
    pub fn is_straight(&self) -> bool {
        self.relation == Relation::ProgramOrder
            && self.from.lane == self.to.lane
            && self.from.entry.saturating_add(1) == self.to.entry
    }

    /// Whether it passes a lane between its own.
    pub fn is_across(&self) -> bool {
        self.from.lane.saturating_add(1) < self.to.lane
            || self.to.lane.saturating_add(1) < self.from.lane
    }

    /// The row of the lower one of its boxes.
    pub fn lower_row(&self) -> u64 {
        self.from.row.max(self.to.row)
    }

    /// The side at which it begins, and the one at which it ends.
    pub fn sides(&self) -> (Side, Side) {
        if self.is_straight() {
            (Side::Bottom, Side::Top)
        } else if self.from.lane < self.to.lane {
            (Side::Right, Side::Left)
        } else if self.from.lane > self.to.lane {
            (Side::Left, Side::Right)
        } else if self.relation == Relation::ProgramOrder {
            (Side::Left, Side::Left)
        } else {
            (Side::Right, Side::Right)
        }
    }

    /// How far down, in half rows, the point is from which it approaches the box at one end, given the place at its other end.
    pub fn depth(&self, other: Place) -> u64 {
        if self.is_across() {
            self.lower_row().saturating_mul(2)
        } else {
            other.row.saturating_mul(2).saturating_add(1)
        }
    }
}
