//! The places of things in a picture, in whole pixels.

use crate::edges::Side;
use crate::lanes::{Entry, Lane};
use crate::ports::{Part, Ports};
use crate::rows::LaneRows;
use std::num::Saturating;

/// A length. It stops at the greatest whole number.
pub(crate) type Length = Saturating<u64>;

/// The room left of the first lane and of each text.
pub(crate) const MARGIN: Length = Saturating(40);

/// The room right of the last lane, where edges bend.
const RIGHT_MARGIN: Length = Saturating(96);

/// The room between two lanes with edges, and the room between two without.
const GUTTER: Length = Saturating(120);

const NARROW_GUTTER: Length = Saturating(48);

/// The height of a box, and that of one that states a fault.
const BOX_HEIGHT: Length = Saturating(36);

const TELLING_HEIGHT: Length = Saturating(44);

/// The room that a box needs for each arrowhead at a side.
const PORT_HEIGHT: Length = Saturating(10);

/// The room between two boxes, and how much of it the edges along it keep free at either end.
const ROW_GAP: Length = Saturating(34);

const ROW_GAP_END: Length = Saturating(4);

/// The height of a line at the head, and of one of the legend.
pub(crate) const LINE_HEIGHT: Length = Saturating(24);

/// The room within a box beside and between its texts.
pub(crate) const PADDING: Length = Saturating(10);

/// The width of an entry of the legend.
const LEGEND_WIDTH: Length = Saturating(340);

/// The least width of a picture, so that the legend and the sentences at the head have room.
const LEAST_WIDTH: Length = Saturating(720);

/// The width of a wide letter at the head.
const LETTER: Length = Saturating(8);

/// The measures of a picture, from which all places follow.
#[derive(Clone, Copy)]
pub(crate) struct Layout {
    /// Half the width of a box.
    half: Length,
    /// The height of a box.
    height: Length,
    /// The room between two lanes, and right of the last.
    gutter: Length,
    right_margin: Length,
    /// The room for the name of an operation in its box.
    name: Length,
    /// How many lines are at the head.
    lines: Length,
    lanes: Length,
    rows: Length,
    /// How many entries the legend has.
    legend: Length,
    /// The width that the lines at the head need.
    head: Length,
}

impl Layout {
    /// The measures of a picture with these rows, these lines at its head, and edges that end at these ports.
    pub fn of(rows: &LaneRows, lines: &[String], legend: usize, ports: &Ports) -> Layout {
        let lanes = rows.lanes();
        let has_edges = ports.most() > 0;
        let gutter = if has_edges { GUTTER } else { NARROW_GUTTER };
        Layout {
            half: greater(half_of_boxes(lanes), half_of_names(lanes, gutter)),
            height: box_height(lanes, ports),
            gutter,
            right_margin: if has_edges { RIGHT_MARGIN } else { MARGIN },
            name: Saturating(7) * longest(lanes, Text::Name),
            lines: length_of(lines.len()),
            lanes: length_of(lanes.len()),
            rows: Saturating(rows.count()),
            legend: length_of(legend),
            head: LETTER * longest_line(lines),
        }
    }

    /// The width of the picture.
    pub fn width(&self) -> Length {
        let lanes = self.left(self.lanes.0) - self.gutter + self.right_margin;
        let head = MARGIN + self.head + MARGIN;
        greater(LEAST_WIDTH, greater(lanes, head))
    }

    /// The height of the picture.
    pub fn height(&self) -> Length {
        self.legend_top() + LINE_HEIGHT * self.legend_rows() + MARGIN
    }

    /// Where the names of the lanes are.
    pub fn lanes_top(&self) -> Length {
        MARGIN + LINE_HEIGHT * self.lines + Saturating(28)
    }

    /// Where the line of a lane ends.
    pub fn lanes_bottom(&self) -> Length {
        self.top(self.rows.0) - Saturating(12)
    }

    // The height of a box and of the room below it.
    fn row(&self) -> Length {
        self.height + ROW_GAP
    }

    /// The upper edge of the boxes of a row.
    pub fn top(&self, row: u64) -> Length {
        self.lanes_top() + Saturating(32) + Saturating(row) * self.row()
    }

    /// The left edge of the boxes of a lane.
    pub fn left(&self, lane: u64) -> Length {
        MARGIN + Saturating(lane) * (self.half + self.half + self.gutter)
    }

    /// The middle of the boxes of a lane.
    pub fn middle(&self, lane: u64) -> Length {
        self.left(lane) + self.half
    }

    /// The right edge of the boxes of a lane.
    pub fn right(&self, lane: u64) -> Length {
        self.middle(lane) + self.half
    }

    /// Where a side of the boxes of a lane is; for their upper and lower edges, the middle.
    pub fn side(&self, lane: u64, side: Side) -> Length {
        match side {
            Side::Left => self.left(lane),
            Side::Right => self.right(lane),
            Side::Top | Side::Bottom => self.middle(lane),
        }
    }

    /// The width of a box.
    pub fn box_width(&self) -> Length {
        self.half + self.half
    }

    /// The height of a box.
    pub fn box_height(&self) -> Length {
        self.height
    }

    /// The lower edge of the boxes of a row.
    pub fn bottom(&self, row: u64) -> Length {
        self.top(row) + self.height
    }

    /// The height in the middle of the boxes of a row.
    pub fn center(&self, row: u64) -> Length {
        self.top(row) + Saturating(self.height.0 / 2)
    }

    /// The height of the middle of a part of a side of the boxes of a row.
    pub fn port(&self, row: u64, part: Part) -> Length {
        self.top(row) + middle_of(self.height, part)
    }

    /// The height of a track above the boxes of a row.
    pub fn track(&self, row: u64, part: Part) -> Length {
        let room = ROW_GAP - ROW_GAP_END - ROW_GAP_END;
        self.top(row) - ROW_GAP_END - middle_of(room, part)
    }

    /// Where the label begins in a box of a lane, after the name.
    pub fn label_left(&self, lane: u64) -> Length {
        self.left(lane) + PADDING + self.name + PADDING
    }

    // Where the legend begins.
    fn legend_top(&self) -> Length {
        self.top(self.rows.0) + Saturating(16)
    }

    // How many entries of the legend are in a row: at least one.
    fn legend_columns(&self) -> u64 {
        let room = self.width() - MARGIN;
        if room < LEGEND_WIDTH + LEGEND_WIDTH {
            1
        } else if room < LEGEND_WIDTH + LEGEND_WIDTH + LEGEND_WIDTH {
            2
        } else {
            3
        }
    }

    // How many rows the legend has.
    fn legend_rows(&self) -> Length {
        match self.legend_columns() {
            1 => self.legend,
            2 => Saturating(self.legend.0.div_ceil(2)),
            _ => Saturating(self.legend.0.div_ceil(3)),
        }
    }

    /// The left edge and the middle of an entry of the legend.
    pub fn legend_place(&self, number: u64) -> (Length, Length) {
        let (column, row) = match self.legend_columns() {
            1 => (0, number),
            2 => (number % 2, number / 2),
            _ => (number % 3, number / 3),
        };
        let left = MARGIN + Saturating(column) * LEGEND_WIDTH;
        let middle = self.legend_top() + Saturating(row) * LINE_HEIGHT + Saturating(12);
        (left, middle)
    }
}

// The middle of a part of a length.
fn middle_of(length: Length, part: Part) -> Length {
    let halves = Saturating(part.number) + Saturating(part.number) + Saturating(1);
    let all = part.count.saturating_mul(2).max(1);
    Saturating((length * halves).0 / all)
}

// The height of a box that has room for its texts and for the arrowheads at its sides.
fn box_height(lanes: &[Lane], ports: &Ports) -> Length {
    let texts = if longest(lanes, Text::Fault) > Saturating(0) {
        TELLING_HEIGHT
    } else {
        BOX_HEIGHT
    };
    greater(texts, PORT_HEIGHT * Saturating(ports.most()))
}

// Half the width that the texts in a box need.
fn half_of_boxes(lanes: &[Lane]) -> Length {
    let names = Saturating(4) * longest(lanes, Text::Name);
    let labels = Saturating(5) * longest(lanes, Text::Label);
    let faults = Saturating(4) * longest(lanes, Text::Fault);
    greater(names + labels + Saturating(18), faults)
}

// The text of an operation that is measured.
#[derive(Clone, Copy)]
enum Text {
    Name,
    Label,
    Fault,
}

// The least number of letters of such a text, in a lane with entries.
fn least_letters(text: Text) -> Length {
    match text {
        Text::Name | Text::Label => Saturating(3),
        Text::Fault => Saturating(0),
    }
}

// How many letters the longest such text of all operations has.
fn longest(lanes: &[Lane], text: Text) -> Length {
    let mut most = Saturating(0);
    for lane in lanes {
        most = greater(most, longest_in(&lane.entries, text));
    }
    most
}

// The same of one lane.
fn longest_in(entries: &[Entry], text: Text) -> Length {
    let mut most = least_letters(text);
    for entry in entries {
        most = greater(most, letters_of(entry, text));
    }
    most
}

// How many letters a text of an entry has.
fn letters_of(entry: &Entry, text: Text) -> Length {
    match (entry, text) {
        (Entry::Gap(_), Text::Name | Text::Fault) => Saturating(0),
        (Entry::Gap(_), Text::Label) => Saturating(8),
        (Entry::Operation(shown), Text::Label) => length_of(shown.label.chars().count()),
        (Entry::Operation(shown), Text::Name) => length_of(shown.name.chars().count()),
        (Entry::Operation(shown), Text::Fault) => match &shown.fault {
            Some(words) => length_of(words.chars().count()),
            None => Saturating(0),
        },
    }
}

// Half the width that a box needs so that the longest lane name fits, with the room between two lanes beside it.
fn half_of_names(lanes: &[Lane], gutter: Length) -> Length {
    let mut most = Saturating(0);
    for lane in lanes {
        most = greater(most, length_of(lane.name.chars().count()));
    }
    Saturating(4) * most + Saturating(24) - Saturating(gutter.0 / 2)
}

// How many letters the longest line has.
fn longest_line(lines: &[String]) -> Length {
    let mut most = Saturating(0);
    for line in lines {
        most = greater(most, length_of(line.chars().count()));
    }
    most
}

// A number as a length.
fn length_of(number: usize) -> Length {
    Saturating(number as u64)
}

/// The greater of two lengths.
pub(crate) fn greater(a: Length, b: Length) -> Length {
    if a < b { b } else { a }
}

/// The lesser of two lengths.
pub(crate) fn lesser(a: Length, b: Length) -> Length {
    if a < b { a } else { b }
}
