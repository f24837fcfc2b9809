//! The points of a box's sides where edges begin and end: no two arrowheads share one.

use crate::edges::{Edge, Side};
use crate::marks::Relation;
use crate::rows::Place;
use std::alloc::{AllocError, Global};

/// One of equal parts of a length, from 0.
#[derive(Clone, Copy)]
pub(crate) struct Part {
    pub number: u64,
    pub count: u64,
}

// What touches a box at a point: the edges of a relation that begin there, or the end of the edge of a number.
#[derive(Clone, Copy, PartialEq, Eq)]
enum Touch {
    Begin(Relation),
    End(usize),
}

// A point of a side of a box. The points of a side are in order of depth, and then of number.
#[derive(Clone, Copy)]
struct Point {
    place: Place,
    side: Side,
    touch: Touch,
    depth: u64,
    number: usize,
}

/// The points of all boxes at which edges begin and end.
#[derive(Drop)]
pub(crate) struct Ports {
    points: Vec<Point>,
}

impl Ports {
    /// A point for each end of an edge, and one for all edges of a relation that begin at one side of a box.
    ///
    /// Fails for want of memory alone. O(m m) for m edges.
    pub fn of(alloc: Global, edges: &[Edge]) -> Result<Ports, AllocError> {
        let mut ports = Ports {
            points: Vec::new(alloc),
        };
        for (number, edge) in edges.iter().enumerate() {
            let (side, end_side) = edge.sides();
            let begin = Touch::Begin(edge.relation);
            ports.touch(edge.from, side, begin, edge.depth(edge.to))?;
            let end = Touch::End(number);
            ports.touch(edge.to, end_side, end, edge.depth(edge.from))?;
        }
        Ok(ports)
    }

    /// Where an edge begins on its side.
    pub fn begin(&self, edge: &Edge) -> Part {
        let (side, _) = edge.sides();
        self.part(edge.from, side, Touch::Begin(edge.relation))
    }

    /// Where the edge of a number ends on its side.
    pub fn end(&self, number: usize, edge: &Edge) -> Part {
        let (_, side) = edge.sides();
        self.part(edge.to, side, Touch::End(number))
    }

    /// The most points of a side.
    pub fn most(&self) -> u64 {
        let mut most = 0;
        for point in &self.points {
            most = self.count(point.place, point.side).max(most);
        }
        most
    }

    // Adds a point, unless there is one for this already.
    fn touch(
        &mut self,
        place: Place,
        side: Side,
        touch: Touch,
        depth: u64,
    ) -> Result<(), AllocError> {
        if self.find(place, side, touch).is_some() {
            return Ok(());
        }
        let number = self.points.len();
        Ok(
            self.points.push(Point {
                place,
                side,
                touch,
                depth,
                number,
            })?,
        )
    }

    // The point of what touches a side.
    fn find(&self, place: Place, side: Side, touch: Touch) -> Option<Point> {
        for point in &self.points {
            if point.place == place && point.side == side && point.touch == touch {
                return Some(*point);
            }
        }
        None
    }

    // The part of its side that a point is in the middle of.
    fn part(&self, place: Place, side: Side, touch: Touch) -> Part {
        match self.find(place, side, touch) {
            Some(point) => Part {
                number: self.before(&point),
                count: self.count(place, side),
            },
            None => Part {
                number: 0,
                count: 1,
            },
        }
    }

    // How many points a side has.
    fn count(&self, place: Place, side: Side) -> u64 {
        let mut count: u64 = 0;
        for point in &self.points {
            if point.place == place && point.side == side {
                count = count.saturating_add(1);
            }
        }
        count
    }

    // How many points of its side are before a point.
    fn before(&self, other: &Point) -> u64 {
        let mut count: u64 = 0;
        for point in &self.points {
            if point.place == other.place && point.side == other.side && is_before(point, other) {
                count = count.saturating_add(1);
            }
        }
        count
    }
}

// Whether a point is before another of its side.
fn is_before(a: &Point, b: &Point) -> bool {
    a.depth < b.depth || (a.depth == b.depth && a.number < b.number)
}

/// The track of an edge that passes lanes, among the edges that run along the same room between two rows.
pub(crate) fn track_of(edges: &[Edge], number: usize, edge: &Edge) -> Part {
    let mut track = Part {
        number: 0,
        count: 0,
    };
    for (other_number, other) in edges.iter().enumerate() {
        if other.is_across() && other.lower_row() == edge.lower_row() {
            if other_number < number {
                track.number = track.number.saturating_add(1);
            }
            track.count = track.count.saturating_add(1);
        }
    }
    track
}
