//! Some vertices of a graph.
ghost use Rattle.std.specs.Prelude.{◌≡◌, ◌↔◌, ◌<◌, length, All, IfOk};
ghost use Rattle.hpr_graph.specs.declared.vertex.Vertex.{Vertex};
ghost use Rattle.hpr_graph.specs.Numbered.{IsMarkedVertex};
ghost use Rattle.hpr_report.specs.AffectedText.{ArePoints, IsOneOf, IsAffectedText, affected_text};

use crate::graphs::{count_line, put_vertices};
use hpr_graph::{Graph, NoMemory, Vertex};
use std::alloc::Global;

/// The vertices with these numbers: the line `affected N` and a line for each, in their order. Each line
/// ends with a newline, and a number that is listed twice is shown once. Each number is that of a vertex.
/// It fails only for want of memory.
pub fn affected_text(alloc: Global, variant: &Graph, points: &[usize]) -> Result<Vec<u8>, NoMemory>
    requires { All (λ p. p < length variant.now.vertices) points.now }
    ensures { IfOk result (λ text. IsAffectedText (IsOneOf variant.now points.now) text.items) }
{
    let affected = graph_at(alloc, variant, points)?;
    text_of(alloc, affected.vertices())
}

/// The graph of the vertices with these numbers, in order.
fn graph_at(alloc: Global, graph: &Graph, points: &[usize]) -> Result<Graph, NoMemory>
    requires { All (λ p. p < length graph.now.vertices) points.now }
    ensures { IfOk result (λ g. ArePoints (IsOneOf graph.now points.now) g.vertices) }
{
    let marks = marks_of(alloc, graph, points)?;
    graph.restrict(&marks)?.in_order()
}

/// The number of vertices and a line for each.
fn text_of(alloc: Global, vertices: &[Vertex]) -> Result<Vec<u8>, NoMemory>
    ensures { IfOk result (λ text. text.items ≡ affected_text vertices.now) }
{
    let mut out = count_line(alloc, "affected ", vertices.len() as u64)?;
    put_vertices(alloc, &mut out, vertices)?;
    Ok(out)
}

/// Marks the vertices with these numbers.
fn marks_of(alloc: Global, graph: &Graph, points: &[usize]) -> Result<Vec<bool>, NoMemory>
    requires { All (λ p. p < length graph.now.vertices) points.now }
    ensures count { IfOk result (λ marks. length marks.items ≡ length graph.now.vertices) }
    ensures marks { IfOk result (λ marks. (v : Vertex) → IsMarkedVertex graph.now marks.items v
        ↔ IsOneOf graph.now points.now v) }
{
    let mut marks = vec![in alloc; false; graph.vertex_count()]?;
    for point in points {
        marks[*point] = true;
    }
    Ok(marks)
}
