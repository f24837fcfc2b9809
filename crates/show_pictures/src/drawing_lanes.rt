//! The lanes of a picture, with their boxes.

ghost use Rattle.std.specs.Prelude.{OnOk, string_bytes};
ghost use Rattle.show_pictures.specs.Steps.Drawing.{AppendsContent, IsStyle};

use crate::drawing_head::push_text;
use crate::lanes::{Entry, Lane, Shown};
use crate::layout::{Layout, Length, PADDING};
use crate::rows::LaneRows;
use std::alloc::{AllocError, Global};
use std::fmt::Write;
use std::num::Saturating;

/// The emphasis of a box.
#[derive(Clone, Copy, PartialEq, Eq)]
pub(crate) enum Emphasis {
    Plain,
    /// It is marked.
    Marked,
    /// It is marked, and wrong.
    Wrong,
}

/// The emphasis of an operation's box.
pub(crate) fn emphasis_of(shown: &Shown) -> Emphasis {
    if shown.fault.is_some() {
        Emphasis::Wrong
    } else if shown.is_marked {
        Emphasis::Marked
    } else {
        Emphasis::Plain
    }
}

/// Draws the name and the line of each lane.
pub(crate) fn draw_lane_lines(
    alloc: Global,
    svg: &mut String,
    layout: &Layout,
    lanes: &[Lane],
) -> Result<(), AllocError>
    ensures { OnOk result (AppendsContent (string_bytes svg.old) (string_bytes svg.new)) }
{
    for (number, lane) in lanes.iter().enumerate() {
        draw_lane_line(alloc, svg, layout, number as u64, &lane.name)?;
    }
    Ok(())
}

// Draws the name and the line of a lane.
fn draw_lane_line(
    alloc: Global,
    svg: &mut String,
    layout: &Layout,
    number: u64,
    name: &str,
) -> Result<(), AllocError>
    ensures { OnOk result (AppendsContent (string_bytes svg.old) (string_bytes svg.new)) }
{
    let x = layout.middle(number);
    let y = layout.lanes_top();
    let style = "font-size=\"14\" font-weight=\"600\" fill=\"#374151\" text-anchor=\"middle\"";
    push_text(alloc, svg, x, y, style, name)?;
    let from = y + Saturating(10);
    let to = layout.lanes_bottom();
    write!(svg, "<line x1=\"{x}\" y1=\"{from}\" x2=\"{x}\" y2=\"{to}\"")?;
    svg.push_str(" stroke=\"#d1d5db\" stroke-width=\"2\"/>\n")
}

/// Draws the entries of all lanes.
pub(crate) fn draw_lanes(
    alloc: Global,
    svg: &mut String,
    layout: &Layout,
    rows: &LaneRows,
) -> Result<(), AllocError>
    ensures { OnOk result (AppendsContent (string_bytes svg.old) (string_bytes svg.new)) }
{
    for (number, lane) in rows.lanes().iter().enumerate() {
        draw_lane(alloc, svg, layout, rows, number, lane)?;
    }
    Ok(())
}

// Draws the entries of a lane.
fn draw_lane(
    alloc: Global,
    svg: &mut String,
    layout: &Layout,
    rows: &LaneRows,
    number: usize,
    lane: &Lane,
) -> Result<(), AllocError>
    ensures { OnOk result (AppendsContent (string_bytes svg.old) (string_bytes svg.new)) }
{
    for (place, entry) in lane.entries.iter().enumerate() {
        let row = rows.row(number, place).unwrap_or(0);
        draw_entry(alloc, svg, layout, number as u64, row, entry)?;
    }
    Ok(())
}

// Draws an entry of a lane.
fn draw_entry(
    alloc: Global,
    svg: &mut String,
    layout: &Layout,
    lane: u64,
    row: u64,
    entry: &Entry,
) -> Result<(), AllocError>
    ensures { OnOk result (AppendsContent (string_bytes svg.old) (string_bytes svg.new)) }
{
    match entry {
        Entry::Operation(shown) => draw_operation(alloc, svg, layout, lane, row, shown),
        Entry::Gap(count) => draw_gap(alloc, svg, layout, lane, row, *count),
    }
}

// Draws the box of an operation, with its name and its label, and below them what is wrong with it.
fn draw_operation(
    alloc: Global,
    svg: &mut String,
    layout: &Layout,
    lane: u64,
    row: u64,
    shown: &Shown,
) -> Result<(), AllocError>
    ensures { OnOk result (AppendsContent (string_bytes svg.old) (string_bytes svg.new)) }
{
    let emphasis = emphasis_of(shown);
    draw_box(svg, layout, lane, row, emphasis)?;
    let x = layout.left(lane) + PADDING;
    let y = text_height(layout, row, emphasis);
    let style = "font-size=\"11\" fill=\"#6b7280\"";
    push_text(alloc, svg, x, y, style, &shown.name)?;
    let style = label_style(emphasis);
    push_text(alloc, svg, layout.label_left(lane), y, style, &shown.label)?;
    match &shown.fault {
        Some(words) => draw_fault(alloc, svg, layout, lane, row, words),
        None => Ok(()),
    }
}

// The height at which the name and the label of an operation are: above what is wrong with it.
fn text_height(layout: &Layout, row: u64, emphasis: Emphasis) -> Length {
    match emphasis {
        Emphasis::Wrong => layout.center(row) - Saturating(3),
        Emphasis::Marked | Emphasis::Plain => layout.center(row) + Saturating(5),
    }
}

// Writes what is wrong with an operation, in the lower part of its box.
fn draw_fault(
    alloc: Global,
    svg: &mut String,
    layout: &Layout,
    lane: u64,
    row: u64,
    words: &str,
) -> Result<(), AllocError>
    ensures { OnOk result (AppendsContent (string_bytes svg.old) (string_bytes svg.new)) }
{
    let x = layout.left(lane) + PADDING;
    let y = layout.center(row) + Saturating(14);
    let style = "font-size=\"11\" font-weight=\"700\" fill=\"#b91c1c\"";
    push_text(alloc, svg, x, y, style, words)
}

// How the label of an operation is written.
fn label_style(emphasis: Emphasis) -> &'static str
    ensures { IsStyle result.now }
{
    match emphasis {
        Emphasis::Wrong => {
            "font-family=\"ui-monospace, Menlo, Consolas, monospace\" font-size=\"14\" font-weight=\"700\" fill=\"#7f1d1d\""
        }
        Emphasis::Marked => {
            "font-family=\"ui-monospace, Menlo, Consolas, monospace\" font-size=\"14\" font-weight=\"600\" fill=\"#111827\""
        }
        Emphasis::Plain => {
            "font-family=\"ui-monospace, Menlo, Consolas, monospace\" font-size=\"14\" fill=\"#4b5563\""
        }
    }
}

// Draws an empty box.
fn draw_box(
    svg: &mut String,
    layout: &Layout,
    lane: u64,
    row: u64,
    emphasis: Emphasis,
) -> Result<(), AllocError>
    ensures { OnOk result (AppendsContent (string_bytes svg.old) (string_bytes svg.new)) }
{
    let x = layout.left(lane);
    let y = layout.top(row);
    let width = layout.box_width();
    let height = layout.box_height();
    write!(
        svg,
        "<rect x=\"{x}\" y=\"{y}\" width=\"{width}\" height=\"{height}\""
    )?;
    let style = box_style(emphasis);
    writeln!(svg, " rx=\"7\" {style}/>")
}

/// How a box is drawn.
pub(crate) fn box_style(emphasis: Emphasis) -> &'static str
    ensures { IsStyle result.now }
{
    match emphasis {
        Emphasis::Wrong => {
            "class=\"wrong\" fill=\"#fee2e2\" stroke=\"#b91c1c\" stroke-width=\"4\""
        }
        Emphasis::Marked => {
            "class=\"marked\" fill=\"#fff4d6\" stroke=\"#c98a00\" stroke-width=\"2\""
        }
        Emphasis::Plain => "class=\"plain\" fill=\"#f9fafb\" stroke=\"#d1d5db\"",
    }
}

// Draws how many operations are left out, on a ground that hides the line of the lane.
fn draw_gap(
    alloc: Global,
    svg: &mut String,
    layout: &Layout,
    lane: u64,
    row: u64,
    count: u64,
) -> Result<(), AllocError>
    ensures { OnOk result (AppendsContent (string_bytes svg.old) (string_bytes svg.new)) }
{
    draw_gap_ground(svg, layout, lane, row)?;
    let words = format!(in alloc; "⋮ {count} left out")?;
    let style = "font-size=\"13\" font-style=\"italic\" fill=\"#6b7280\" text-anchor=\"middle\"";
    let y = layout.center(row) + Saturating(5);
    push_text(alloc, svg, layout.middle(lane), y, style, &words)
}

// Draws the ground of a gap.
fn draw_gap_ground(svg: &mut String, layout: &Layout, lane: u64, row: u64) -> Result<(), AllocError>
    ensures { OnOk result (AppendsContent (string_bytes svg.old) (string_bytes svg.new)) }
{
    let x = layout.left(lane);
    let y = layout.center(row) - Saturating(12);
    let width = layout.box_width();
    writeln!(
        svg,
        "<rect x=\"{x}\" y=\"{y}\" width=\"{width}\" height=\"24\" fill=\"#ffffff\"/>"
    )
}
