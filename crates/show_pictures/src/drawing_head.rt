//! The head of a picture, and its texts.

ghost use Rattle.std.specs.Prelude.{OnOk, string_bytes};
ghost use Rattle.show_pictures.specs.Steps.Drawing.{AppendsContent, IsStyle};

use crate::drawing_edges::{color_of, marker_of};
use crate::edges::{Edge, are_of};
use crate::escaping::escaped;
use crate::layout::{LINE_HEIGHT, Layout, Length, MARGIN};
use crate::marks::Relation;
use std::alloc::{AllocError, Global};
use std::fmt::Write;
use std::num::Saturating;

/// Draws the ground, the arrow heads of the edges, and the lines at the head, the title first.
pub(crate) fn draw_head(
    alloc: Global,
    svg: &mut String,
    layout: &Layout,
    lines: &[String],
    edges: &[Edge],
) -> Result<(), AllocError>
    ensures { OnOk result (AppendsContent (string_bytes svg.old) (string_bytes svg.new)) }
{
    draw_title(alloc, svg, lines)?;
    draw_ground(svg, layout)?;
    draw_markers(svg, edges)?;
    draw_lines(alloc, svg, lines)
}

// Writes the title, which is not seen in the picture itself.
fn draw_title(alloc: Global, svg: &mut String, lines: &[String]) -> Result<(), AllocError>
    ensures { OnOk result (AppendsContent (string_bytes svg.old) (string_bytes svg.new)) }
{
    match lines.first() {
        Some(title) => {
            let title = escaped(alloc, title)?;
            writeln!(svg, "<title>{title}</title>")
        }
        None => Ok(()),
    }
}

// Draws the ground.
fn draw_ground(svg: &mut String, layout: &Layout) -> Result<(), AllocError>
    ensures { OnOk result (AppendsContent (string_bytes svg.old) (string_bytes svg.new)) }
{
    let width = layout.width();
    let height = layout.height();
    writeln!(
        svg,
        "<rect width=\"{width}\" height=\"{height}\" fill=\"#ffffff\"/>"
    )
}

// Writes the lines at the head.
fn draw_lines(alloc: Global, svg: &mut String, lines: &[String]) -> Result<(), AllocError>
    ensures { OnOk result (AppendsContent (string_bytes svg.old) (string_bytes svg.new)) }
{
    for (number, line) in lines.iter().enumerate() {
        let y = MARGIN + LINE_HEIGHT * Saturating(number as u64);
        push_text(alloc, svg, MARGIN, y, line_style(number), line)?;
    }
    Ok(())
}

// How a line at the head is written.
fn line_style(number: usize) -> &'static str
    ensures { IsStyle result.now }
{
    if number == 0 {
        "font-size=\"18\" font-weight=\"700\" fill=\"#111827\""
    } else {
        "font-size=\"14\" fill=\"#374151\""
    }
}

// Draws an arrow head for each relation of the edges, which refer to it.
fn draw_markers(svg: &mut String, edges: &[Edge]) -> Result<(), AllocError>
    ensures { OnOk result (AppendsContent (string_bytes svg.old) (string_bytes svg.new)) }
{
    svg.push_str("<defs>\n")?;
    for relation in Relation::all() {
        if are_of(edges, relation) {
            draw_marker(svg, relation)?;
        }
    }
    svg.push_str("</defs>\n")
}

// Draws the arrow head of a relation.
fn draw_marker(svg: &mut String, relation: Relation) -> Result<(), AllocError>
    ensures { OnOk result (AppendsContent (string_bytes svg.old) (string_bytes svg.new)) }
{
    let id = marker_of(relation);
    let color = color_of(relation);
    write!(
        svg,
        "<marker id=\"{id}\" viewBox=\"0 0 10 10\" refX=\"9\" refY=\"5\""
    )?;
    svg.push_str(" markerUnits=\"userSpaceOnUse\" markerWidth=\"12\" markerHeight=\"12\"")?;
    writeln!(
        svg,
        " orient=\"auto\"><path d=\"M0 0L10 5L0 10Z\" fill=\"{color}\"/></marker>"
    )
}

/// Writes a text, escaped.
pub(crate) fn push_text(
    alloc: Global,
    svg: &mut String,
    x: Length,
    y: Length,
    style: &str,
    words: &str,
) -> Result<(), AllocError>
    requires { IsStyle style.now }
    ensures { OnOk result (AppendsContent (string_bytes svg.old) (string_bytes svg.new)) }
{
    let words = escaped(alloc, words)?;
    writeln!(svg, "<text x=\"{x}\" y=\"{y}\" {style}>{words}</text>")
}
