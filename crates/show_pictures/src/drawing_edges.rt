//! The edges of a picture, which run between the boxes.

ghost use Rattle.std.specs.Prelude.{◌≡◌, ◌++◌, codes, IsTrue, OnOk, string_bytes};
ghost use Rattle.show_pictures.specs.Steps.Drawing.{AppendsContent, AppendsMeasures, EndsPath};
ghost use Rattle.show_pictures.specs.Markup.{AreAttributes, is_value};

use crate::edges::Edge;
use crate::layout::{Layout, Length, lesser};
use crate::marks::Relation;
use crate::ports::{Part, Ports, track_of};
use std::alloc::AllocError;
use std::fmt::Write;
use std::num::Saturating;

/// Draws the edges, which begin and end at these ports.
pub(crate) fn draw_edges(
    svg: &mut String,
    layout: &Layout,
    ports: &Ports,
    edges: &[Edge],
) -> Result<(), AllocError>
    ensures { OnOk result (AppendsContent (string_bytes svg.old) (string_bytes svg.new)) }
{
    svg.push_str("<g class=\"edges\">\n")?;
    for (number, edge) in edges.iter().enumerate() {
        let ends = ends_of(layout, ports, number, edge);
        let track = track_of(edges, number, edge);
        begin_edge(svg)?;
        push_path(svg, layout, edge, ends, track)?;
        end_edge(svg, edge.relation)?;
    }
    svg.push_str("</g>\n")
}

// The points at which an edge begins and ends.
#[derive(Clone, Copy)]
struct Ends {
    x: Length,
    y: Length,
    end_x: Length,
    end_y: Length,
}

fn ends_of(layout: &Layout, ports: &Ports, number: usize, edge: &Edge) -> Ends {
    let (side, end_side) = edge.sides();
    Ends {
        x: layout.side(edge.from.lane as u64, side),
        y: layout.port(edge.from.row, ports.begin(edge)),
        end_x: layout.side(edge.to.lane as u64, end_side),
        end_y: layout.port(edge.to.row, ports.end(number, edge)),
    }
}

// Puts the path of an edge from one box to another.
fn push_path(
    svg: &mut String,
    layout: &Layout,
    edge: &Edge,
    ends: Ends,
    track: Part,
) -> Result<(), AllocError>
    ensures { OnOk result (AppendsMeasures (string_bytes svg.old) (string_bytes svg.new)) }
{
    if edge.is_straight() {
        push_path_down(svg, layout, edge)
    } else if edge.from.lane == edge.to.lane {
        push_path_in_lane(svg, edge, ends)
    } else if edge.is_across() {
        push_path_across(svg, layout, edge, ends, track)
    } else {
        push_path_to_neighbour(svg, edge, ends)
    }
}

// Down from a box to the next.
fn push_path_down(svg: &mut String, layout: &Layout, edge: &Edge) -> Result<(), AllocError>
    ensures { OnOk result (AppendsMeasures (string_bytes svg.old) (string_bytes svg.new)) }
{
    let x = layout.middle(edge.from.lane as u64);
    let y = layout.bottom(edge.from.row);
    let end = layout.top(edge.to.row);
    write!(svg, "M{x} {y}V{end}")
}

// A bow beside the lane: the longer, the farther.
fn push_path_in_lane(svg: &mut String, edge: &Edge, ends: Ends) -> Result<(), AllocError>
    ensures { OnOk result (AppendsMeasures (string_bytes svg.old) (string_bytes svg.new)) }
{
    let Ends { x, y, end_x, end_y } = ends;
    let bend = bow_of(edge, x);
    write!(svg, "M{x} {y}")?;
    push_curve(svg, y, [bend, bend], [end_x, end_y])
}

// How far a bow that begins here goes: to the left for program order.
fn bow_of(edge: &Edge, x: Length) -> Length {
    let length = Saturating(edge.from.row.abs_diff(edge.to.row));
    if edge.relation == Relation::ProgramOrder {
        x - lesser(Saturating(20) + Saturating(8) * length, Saturating(48))
    } else {
        x + lesser(Saturating(40) + Saturating(10) * length, Saturating(100))
    }
}

// A curve through the room between two lanes.
fn push_path_to_neighbour(svg: &mut String, edge: &Edge, ends: Ends) -> Result<(), AllocError>
    ensures { OnOk result (AppendsMeasures (string_bytes svg.old) (string_bytes svg.new)) }
{
    let Ends { x, y, end_x, end_y } = ends;
    write!(svg, "M{x} {y}")?;
    push_curve(svg, y, bends_between(edge, x, end_x), [end_x, end_y])
}

// A curve to the room above the lower box, along it past the lanes between, and a curve to the other box.
fn push_path_across(
    svg: &mut String,
    layout: &Layout,
    edge: &Edge,
    ends: Ends,
    track: Part,
) -> Result<(), AllocError>
    ensures { OnOk result (AppendsMeasures (string_bytes svg.old) (string_bytes svg.new)) }
{
    let Ends { x, y, end_x, end_y } = ends;
    let way = layout.track(edge.lower_row(), track);
    let [first, last] = passed_by(layout, edge);
    write!(svg, "M{x} {y}")?;
    push_curve(svg, y, bends_between(edge, x, first), [first, way])?;
    write!(svg, "H{last}")?;
    push_curve(svg, way, bends_between(edge, last, end_x), [end_x, end_y])
}

// Where the lanes that an edge passes begin and end, as it comes by them.
fn passed_by(layout: &Layout, edge: &Edge) -> [Length; 2] {
    let (lane, end_lane) = (edge.from.lane as u64, edge.to.lane as u64);
    if lane < end_lane {
        let first = layout.left(lane.saturating_add(1));
        [first, layout.right(end_lane.saturating_sub(1))]
    } else {
        let first = layout.right(lane.saturating_sub(1));
        [first, layout.left(end_lane.saturating_add(1))]
    }
}

// Goes on with a path from this height to an end, by a curve that is level at both, as far as these bends.
fn push_curve(
    svg: &mut String,
    y: Length,
    bends: [Length; 2],
    end: [Length; 2],
) -> Result<(), AllocError>
    ensures { OnOk result (AppendsMeasures (string_bytes svg.old) (string_bytes svg.new)) }
{
    let [bend, end_bend] = bends;
    let [end_x, end_y] = end;
    write!(svg, "C{bend} {y} {end_bend} {end_y} {end_x} {end_y}")
}

// How far a curve keeps level where it begins and ends.
const LEVEL: Length = Saturating(60);

// The bends of a curve from one place to another, in the direction of an edge.
fn bends_between(edge: &Edge, x: Length, end_x: Length) -> [Length; 2] {
    if edge.from.lane < edge.to.lane {
        [x + LEVEL, end_x - LEVEL]
    } else {
        [x - LEVEL, end_x + LEVEL]
    }
}

/// Begins an edge: its path comes next.
pub(crate) fn begin_edge(svg: &mut String) -> Result<(), AllocError>
    ensures { OnOk result (string_bytes svg.new ≡ string_bytes svg.old ++ codes "<path d=\"") }
{
    svg.push_str("<path d=\"")
}

/// Ends an edge of a relation, after its path.
pub(crate) fn end_edge(svg: &mut String, relation: Relation) -> Result<(), AllocError>
    ensures { OnOk result (EndsPath (string_bytes svg.old) (string_bytes svg.new)) }
{
    let color = color_of(relation);
    let dashes = dashes_of(relation);
    let marker = marker_of(relation);
    write!(
        svg,
        "\" fill=\"none\" stroke=\"{color}\" stroke-width=\"2\"{dashes}"
    )?;
    writeln!(svg, " marker-end=\"url(#{marker})\"/>")
}

/// The colour of a relation.
pub(crate) fn color_of(relation: Relation) -> &'static str
    ensures { IsTrue (is_value result.now) }
{
    match relation {
        Relation::ProgramOrder => "#4b5563",
        Relation::ReadsFrom => "#0072b2",
        Relation::Conflict => "#b45309",
        Relation::HappenedBefore => "#8e3fa8",
    }
}

// How the lines of a relation are broken, as an attribute with a space before it.
fn dashes_of(relation: Relation) -> &'static str
    ensures { AreAttributes result.now }
{
    match relation {
        Relation::ProgramOrder | Relation::ReadsFrom => "",
        Relation::Conflict => " stroke-dasharray=\"8 4\"",
        Relation::HappenedBefore => " stroke-dasharray=\"3 4\"",
    }
}

/// The name of the arrow head of a relation.
pub(crate) fn marker_of(relation: Relation) -> &'static str
    ensures is_name { IsTrue (is_value result.now) }
    ensures is_reference { IsTrue (is_value (codes "url(#" ++ (result.now ++ codes ")"))) }
{
    match relation {
        Relation::ProgramOrder => "program-order",
        Relation::ReadsFrom => "reads-from",
        Relation::Conflict => "conflict",
        Relation::HappenedBefore => "happened-before",
    }
}
