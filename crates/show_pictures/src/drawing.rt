//! The SVG text of a picture.

ghost use Rattle.std.specs.Prelude.{◌≡◌, ◌++◌, codes, IfOk, OnOk, string_bytes};
ghost use Rattle.show_pictures.specs.Steps.Drawing.{AppendsContent, BeginsContent, IsWithin};
ghost use Rattle.show_pictures.specs.Markup.{IsSvgElement};

use crate::drawing_edges::draw_edges;
use crate::drawing_head::draw_head;
use crate::drawing_lanes::{draw_lane_lines, draw_lanes};
use crate::edges::{Edge, edges_of};
use crate::layout::Layout;
use crate::legend::{LegendEntry, LegendWords, draw_legend, legend_of};
use crate::marks::Marks;
use crate::ports::Ports;
use crate::rows::LaneRows;
use std::alloc::{AllocError, Global};
use std::fmt::Write;

/// All that a picture shows.
#[derive(Drop)]
pub(crate) struct Scene<'a> {
    /// The lines at the head, the title first.
    pub lines: &'a [String],
    pub rows: &'a LaneRows<'a>,
    pub marks: &'a Marks,
    /// What the legend says of the boxes.
    pub words: LegendWords,
}

/// The SVG text of a scene.
///
/// Fails for want of memory alone. O((n + m) m) for n entries and m joints.
pub(crate) fn drawing_of(alloc: Global, scene: &Scene) -> Result<String, AllocError>
    ensures { IfOk result (λ svg. IsSvgElement (string_bytes svg)) }
{
    let edges = edges_of(alloc, scene.rows, scene.marks.joints())?;
    let svg = drawing_of_edges(alloc, scene, &edges);
    drop(edges);
    svg
}

// The SVG text of a scene with these edges.
fn drawing_of_edges(alloc: Global, scene: &Scene, edges: &[Edge]) -> Result<String, AllocError>
    ensures { IfOk result (λ svg. IsSvgElement (string_bytes svg)) }
{
    let ports = Ports::of(alloc, edges)?;
    let svg = drawing_of_ports(alloc, scene, edges, &ports);
    drop(ports);
    svg
}

// The SVG text of a scene with these edges, which end at these ports.
fn drawing_of_ports(
    alloc: Global,
    scene: &Scene,
    edges: &[Edge],
    ports: &Ports,
) -> Result<String, AllocError>
    ensures { IfOk result (λ svg. IsSvgElement (string_bytes svg)) }
{
    let legend = legend_of(alloc, scene.rows.lanes(), edges, scene.words)?;
    let layout = Layout::of(scene.rows, scene.lines, legend.len(), ports);
    let parts = Parts {
        edges,
        ports,
        legend: &legend,
        layout: &layout,
    };
    let svg = drawing_with(alloc, scene, parts);
    drop(legend);
    svg
}

// What follows from a scene: its edges, where they end, the entries of the legend, and all places.
#[derive(Clone, Copy)]
struct Parts<'a> {
    edges: &'a [Edge],
    ports: &'a Ports,
    legend: &'a [LegendEntry],
    layout: &'a Layout,
}

// The SVG text of a scene with these parts.
fn drawing_with(alloc: Global, scene: &Scene, parts: Parts) -> Result<String, AllocError>
    ensures { IfOk result (λ svg. IsSvgElement (string_bytes svg)) }
{
    let within = within_of(alloc, scene, parts)?;
    let svg = element_of(alloc, &within);
    drop(within);
    svg
}

// What the SVG element has between its first word and its end: its attributes, and all of a scene.
fn within_of(alloc: Global, scene: &Scene, parts: Parts) -> Result<String, AllocError>
    ensures { IfOk result (λ within. IsWithin (string_bytes within)) }
{
    let mut within = String::new(alloc);
    push_attributes(&mut within, parts.layout)?;
    draw_scene(alloc, &mut within, scene, parts)?;
    Ok(within)
}

// Writes the attributes of the SVG element: its size, and the fonts of its texts.
fn push_attributes(svg: &mut String, layout: &Layout) -> Result<(), AllocError>
    ensures { OnOk result (BeginsContent (string_bytes svg.old) (string_bytes svg.new)) }
{
    let width = layout.width();
    let height = layout.height();
    write!(
        svg,
        " xmlns=\"http://www.w3.org/2000/svg\" width=\"{width}\" height=\"{height}\" viewBox=\"0 0 {width} {height}\""
    )?;
    svg.push_str(
        " font-family=\"system-ui, -apple-system, 'Segoe UI', Roboto, Arial, sans-serif\">\n",
    )
}

// Draws all of a scene, from back to front.
fn draw_scene(
    alloc: Global,
    svg: &mut String,
    scene: &Scene,
    parts: Parts,
) -> Result<(), AllocError>
    ensures { OnOk result (AppendsContent (string_bytes svg.old) (string_bytes svg.new)) }
{
    draw_head(alloc, svg, parts.layout, scene.lines, parts.edges)?;
    draw_lane_lines(alloc, svg, parts.layout, scene.rows.lanes())?;
    draw_edges(svg, parts.layout, parts.ports, parts.edges)?;
    draw_lanes(alloc, svg, parts.layout, scene.rows)?;
    draw_legend(alloc, svg, parts.layout, parts.legend)
}

// An SVG element with this text between its first word and its end.
fn element_of(alloc: Global, within: &str) -> Result<String, AllocError>
    ensures { IfOk result (λ svg. string_bytes svg ≡ codes "<svg" ++ within.now ++ codes "</svg>\n") }
{
    format!(in alloc; "<svg{within}</svg>\n")
}
