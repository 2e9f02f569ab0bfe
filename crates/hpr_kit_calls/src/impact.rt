//! Calls of hpr_impact on programs and points.
ghost use Rattle.std.specs.Prelude.{◌<◌, length, All};

use crate::graphs::program_graph;
use crate::numbers::are_below;
use crate::put::put_value;
use crate::sources::{source, sources};
use crate::spelled::vertices;
use crate::{marks, reasons};
use hpr_graph::{Graph, Vertex};
use hpr_impact::{impact_marks, impact_text, impact_value};
use hpr_rows::{Out, Row, put_made};
use std::alloc::Global;

/// Answers the call.
pub(crate) fn call(row: Row<'_>, out: &mut Out) -> Option<()> {
    match row.word(1)? {
        "lines" => marks::call(row, out),
        "reasons" | "why" => reasons::call(row, out),
        _ => of_points(row, out),
    }
}

// The numbers of these vertices, all of which the graph has.
fn numbers_in(alloc: Global, graph: &Graph, vertices: &[Vertex]) -> Option<Vec<usize>> {
    let mut numbers = Vec::new(alloc);
    for vertex in vertices {
        numbers.push(graph.number_of(vertex)?).ok()?;
    }
    Some(numbers)
}

// `text PROGRAM VERTICES`: what a change at these vertices can reach; `value PROGRAM VERTICES FILE..`: the same with its
// places; `marks PROGRAM VERTICES`: the program's text with marks at it.
fn of_points(row: Row<'_>, out: &mut Out) -> Option<()> {
    let graph = program_graph(row, 2)?;
    let vertices = vertices(row, 3)?;
    let points = numbers_in(row.alloc, &graph, &vertices)?;
    put_impact(row, out, &graph, &points)
}

fn put_impact(row: Row<'_>, out: &mut Out, graph: &Graph, points: &[usize]) -> Option<()> {
    if !are_below(points, graph.vertex_count()) {
        return None;
    }
    match row.word(1)? {
        "text" => put_made(out, impact_text(row.alloc, graph, points)),
        "marks" => put_marked(row, out, graph, points)?,
        "value" => put_told(row, out, graph, points)?,
        _ => return None,
    }
    Some(())
}

fn put_marked(row: Row<'_>, out: &mut Out, graph: &Graph, points: &[usize]) -> Option<()>
    requires { All (λ p. p < length graph.now.vertices) points.now }
{
    let source = source(row, 2)?;
    let bytes = row.bytes(2)?;
    put_made(out, impact_marks(row.alloc, graph, points, bytes, &source));
    out.put_piece("\n");
    Some(())
}

fn put_told(row: Row<'_>, out: &mut Out, graph: &Graph, points: &[usize]) -> Option<()>
    requires { All (λ p. p < length graph.now.vertices) points.now }
{
    let sources = sources(row, 4)?;
    put_value(
        row.alloc,
        out,
        impact_value(row.alloc, graph, points, &sources),
    );
    Some(())
}
