//! The legend of a picture: what each kind of box and of edge in it means.

ghost use Rattle.std.specs.Prelude.{OnOk, string_bytes};
ghost use Rattle.show_pictures.specs.Steps.Drawing.{AppendsContent};

use crate::captions::words_of_relation;
use crate::drawing_edges::{begin_edge, end_edge};
use crate::drawing_head::push_text;
use crate::drawing_lanes::{Emphasis, box_style, emphasis_of};
use crate::edges::{Edge, are_of};
use crate::lanes::{Entry, Lane};
use crate::layout::{Layout, Length};
use crate::marks::Relation;
use std::alloc::{AllocError, Global};
use std::fmt::Write;
use std::num::Saturating;

/// What the legend says of the boxes with an emphasis.
#[derive(Clone, Copy)]
pub(crate) struct LegendWords {
    pub wrong: &'static str,
    pub marked: &'static str,
}

/// What an entry of the legend shows, a box or an edge, and the words beside it.
#[derive(Clone, Copy)]
pub(crate) enum LegendEntry {
    Box(Emphasis, &'static str),
    Edge(Relation),
}

/// The entries for what is drawn.
///
/// Fails for want of memory alone. O(n + m) for n entries of the lanes and m edges.
pub(crate) fn legend_of(
    alloc: Global,
    lanes: &[Lane],
    edges: &[Edge],
    words: LegendWords,
) -> Result<Vec<LegendEntry>, AllocError> {
    let mut legend = Vec::new(alloc);
    push_box(&mut legend, lanes, Emphasis::Wrong, words.wrong)?;
    push_box(&mut legend, lanes, Emphasis::Marked, words.marked)?;
    push_edges(&mut legend, edges)?;
    Ok(legend)
}

// Adds an entry for the boxes with this emphasis, if there are any.
fn push_box(
    legend: &mut Vec<LegendEntry>,
    lanes: &[Lane],
    emphasis: Emphasis,
    words: &'static str,
) -> Result<(), AllocError> {
    if are_emphasized(lanes, emphasis) {
        legend.push(LegendEntry::Box(emphasis, words))?;
    }
    Ok(())
}

// Adds an entry for each relation of the edges.
fn push_edges(legend: &mut Vec<LegendEntry>, edges: &[Edge]) -> Result<(), AllocError> {
    for relation in Relation::all() {
        if are_of(edges, relation) {
            legend.push(LegendEntry::Edge(relation))?;
        }
    }
    Ok(())
}

// Whether some box has this emphasis.
fn are_emphasized(lanes: &[Lane], emphasis: Emphasis) -> bool {
    for lane in lanes {
        if has_emphasized(&lane.entries, emphasis) {
            return true;
        }
    }
    false
}

// Whether the box of some entry has this emphasis.
fn has_emphasized(entries: &[Entry], emphasis: Emphasis) -> bool {
    for entry in entries {
        if is_emphasized(entry, emphasis) {
            return true;
        }
    }
    false
}

// Whether an entry is an operation whose box has this emphasis.
fn is_emphasized(entry: &Entry, emphasis: Emphasis) -> bool {
    match entry {
        Entry::Operation(shown) => emphasis_of(shown) == emphasis,
        Entry::Gap(_) => false,
    }
}

/// Draws the legend.
pub(crate) fn draw_legend(
    alloc: Global,
    svg: &mut String,
    layout: &Layout,
    legend: &[LegendEntry],
) -> Result<(), AllocError>
    ensures { OnOk result (AppendsContent (string_bytes svg.old) (string_bytes svg.new)) }
{
    svg.push_str("<g class=\"legend\">\n")?;
    for (number, entry) in legend.iter().enumerate() {
        let place = layout.legend_place(number as u64);
        draw_entry(alloc, svg, place, *entry)?;
    }
    svg.push_str("</g>\n")
}

// Draws an entry of the legend, with its words.
fn draw_entry(
    alloc: Global,
    svg: &mut String,
    place: (Length, Length),
    entry: LegendEntry,
) -> Result<(), AllocError>
    ensures { OnOk result (AppendsContent (string_bytes svg.old) (string_bytes svg.new)) }
{
    draw_sign(svg, place, entry)?;
    let (x, middle) = place;
    let (x, y) = (x + Saturating(50), middle + Saturating(5));
    let style = "font-size=\"13\" fill=\"#374151\"";
    push_text(alloc, svg, x, y, style, words_beside(entry))
}

// Draws what an entry shows.
fn draw_sign(
    svg: &mut String,
    place: (Length, Length),
    entry: LegendEntry,
) -> Result<(), AllocError>
    ensures { OnOk result (AppendsContent (string_bytes svg.old) (string_bytes svg.new)) }
{
    match entry {
        LegendEntry::Box(emphasis, _) => draw_small_box(svg, place, emphasis),
        LegendEntry::Edge(relation) => draw_short_edge(svg, place, relation),
    }
}

// The words beside what an entry shows.
fn words_beside(entry: LegendEntry) -> &'static str {
    match entry {
        LegendEntry::Box(_, words) => words,
        LegendEntry::Edge(relation) => words_of_relation(relation),
    }
}

// Draws a box in the style of this emphasis.
fn draw_small_box(
    svg: &mut String,
    place: (Length, Length),
    emphasis: Emphasis,
) -> Result<(), AllocError>
    ensures { OnOk result (AppendsContent (string_bytes svg.old) (string_bytes svg.new)) }
{
    let (x, middle) = place;
    let y = middle - Saturating(8);
    let style = box_style(emphasis);
    writeln!(
        svg,
        "<rect x=\"{x}\" y=\"{y}\" width=\"40\" height=\"16\" rx=\"4\" {style}/>"
    )
}

// Draws an edge in the style of a relation.
fn draw_short_edge(
    svg: &mut String,
    place: (Length, Length),
    relation: Relation,
) -> Result<(), AllocError>
    ensures { OnOk result (AppendsContent (string_bytes svg.old) (string_bytes svg.new)) }
{
    let (x, middle) = place;
    let end = x + Saturating(40);
    begin_edge(svg)?;
    write!(svg, "M{x} {middle}H{end}")?;
    end_edge(svg, relation)
}
